//! Frames of a DOCSIS channel, CM-SP-MULPIv3.0: the MAC management message of a MAP, and the request frames of modems,
//! with their two checksums.
#![tactic(auto)]

mod asking;
mod checksum;
mod ethernet;
mod framing;
mod heard;
mod request;
mod tables;

pub use asking::AskFault;
pub use checksum::{crc, every_checksum, every_header, hcs};
pub use framing::{MAX_FRAME_BYTES, OVERHEAD, map_frame};
pub use heard::{MapFrame, MapFrameFault, every_map_frame, read_map_frame};
pub use minislots::MAX_ASK;
pub use request::{QUEUE_DEPTH_REQUEST, REQUEST, Request, RequestFault};
