//! The run of a script on the channel: the whole frame of each MAP, in lines or in a capture; and the capture of a
//! journal.
#![tactic(auto)]

mod address;
mod buffer;
mod input;
mod journal;
mod output;
mod packet;
mod run;

pub use address::{ADDRESS, address_asked};
pub use input::{frames_input, pcap_input, pcap_journal_input};
pub use journal::capture_journal;
pub use output::WireOutput;
pub use run::run_on_wire;
