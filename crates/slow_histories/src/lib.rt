//! Slow plain functions that compute what the definitions say of histories, for tests. Nothing of the storage manager stands
//! on this crate.
#![tactic(auto)]

pub mod decisions;
pub mod progress;
pub mod replays;
pub mod sessions;
pub mod turns;
