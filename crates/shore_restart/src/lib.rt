//! Restart over the devices: it redoes each record of the log that its page does not have, undoes the losers by records of their own, forces
//! these, and gives a core over what is left. After ARIES (Mohan et al., 1992). It may be stopped at any moment, and the next restart goes on.
#![tactic(auto)]

mod anchored;
mod claims;
mod doubts;
mod errors;
mod forcing;
mod found;
pub mod laws;
mod log_sums;
mod pages;
mod passes;
mod redo;
mod restarting;
mod turns;

pub use errors::RestartError;
pub use passes::Report;
pub use restarting::restart;
