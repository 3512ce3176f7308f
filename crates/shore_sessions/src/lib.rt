//! The transactions of many sessions, their locks, and their calls that wait.
#![tactic(auto)]

mod changing;
mod checkpoints;
mod control;
mod deadlocks;
mod ending;
mod giving_up;
pub mod laws;
mod preparing;
mod resolving;
mod rollbacks;
mod waiting;
mod waits;

pub use control::Control;
pub use waits::WaitingCall;
