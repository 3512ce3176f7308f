//! Fuzzy checkpoints, and a log whose front is cut off, over plain data: what the kept records tell, and where a front may be cut. No code runs here.
#![tactic(auto)]

pub mod checkpoints;
pub mod cut_logs;
pub mod rings;
