//! The core of the storage manager: one event a call. It keeps the records of a volume in the pages of a pool and the table of
//! transactions, and hands the records of the log over to a log buffer.
#![tactic(auto)]

mod changing;
mod checkpointing;
mod checks;
mod committing;
mod core_calls;
mod counts;
mod dumping;
mod flushing;
mod fusing;
mod giving_up;
mod handing_over;
mod inserting;
mod joining;
pub mod laws;
mod letting_through;
mod lockable;
mod locking;
mod making;
mod nodes;
mod parts;
mod preparing;
mod reading;
mod resolving;
mod resuming;
mod rolling_back;
mod tail_holder;
mod trails;

pub use checkpointing::CheckpointStep;
pub use core_calls::Core;
pub use joining::Probe;
pub use shore_check::Stage;
pub use shore_model::{Answer, Call, Step, Wait};
pub use tail_holder::TailHolder;
