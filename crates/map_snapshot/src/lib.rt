//! Versions of the newest map for readers that take no lock: one press publishes, and many readers read.
#![tactic(auto)]

mod addition;
mod counts;
mod ends;
mod fault;
mod latest;
mod laws;
mod list;
mod opening;
mod press;
mod printed;
mod reader;
mod sheet;
mod told;
mod whole;

pub use fault::PressFault;
pub use laws::{never_goes_back, stands_at_its_version};
pub use opening::{MAX_READERS, open_press};
pub use press::Press;
pub use printed::{MAX_BYTES, Printed};
pub use reader::Reader;
pub use told::Told;
pub use whole::Whole;
