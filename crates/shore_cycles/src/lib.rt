//! Cycles of transactions that wait for one another, and the victims that break them.
#![tactic(auto)]

mod blockers;
mod marks;
mod reached;
pub mod search;
pub mod victims;

pub use search::find_cycle;
pub use victims::{Victim, break_cycles, choose, is_victim, take_back};
