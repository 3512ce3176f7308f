//! The write-ahead log on its device: records in frames, each forced by a write behind a closed gate, a sync, the gate,
//! and a sync. After ARIES (Mohan et al., 1992), whose log this is, with a gate in the place of a checksum.
#![tactic(auto)]

mod device;
mod group;
mod tail;
mod texts;

pub use device::{Durable, LogDev};
pub use shore_logrec::{LogRecord, Payload};
pub use tail::{PlainTail, Tail};
