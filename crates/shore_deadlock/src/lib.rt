//! Deadlocks: the call that takes a lock and breaks the cycles of waits that it closes, and laws of waits and of cycles.
#![tactic(auto)]

pub mod laws;
pub mod locking;

pub use locking::{Locked, Reply, lock, settle};
pub use shore_cycles::{Victim, break_cycles, find_cycle};
