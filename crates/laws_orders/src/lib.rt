//! One serial order of the transactions of a manager, that of their turns, also where some are prepared while others commit: it explains what was answered and leaves what is shown. No
//! code runs here.
#![tactic(auto)]

pub mod orders;
pub mod serial;
pub mod worked;
