//! The flush: dirty pages go back to the volume, a batch at a time, once the log is durable up to their numbers.
#![tactic(auto)]

mod flush;

pub use flush::{Batch, choose, flush_on, flush_step};
