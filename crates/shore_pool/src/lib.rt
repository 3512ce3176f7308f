//! Pages in memory: as many as there are frames, each read once and written back when its frame is needed or a flush takes it.
#![tactic(auto)]

mod amid;
mod clock;
mod frame;
mod frames;
mod gathering;
mod pool;

pub use amid::Amid;
pub use frame::Frame;
pub use pool::{BatchPages, Fetched, Pool};
