//! Formatting a pair of devices.
#![tactic(auto)]

mod log;
mod pairs;
mod volume;

pub use pairs::format;
pub use volume::volume_bytes;
