//! The calls of a manager over plain data: what each is answered and leaves, and the laws of the histories that they make.
#![tactic(auto)]

pub mod answers;
pub mod cycles;
pub mod giving_up;
pub mod laws;
pub mod locks;
pub mod prepares;
pub mod progress;
pub mod refusals;
pub mod rollbacks;
pub mod settled_locks;
pub mod settled_refusals;
pub mod settled_rollbacks;
pub mod settled_waits;
pub mod settling;
pub mod waits;
