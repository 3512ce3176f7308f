//! Managers over plain data, whole: calls above, the log and pages that are written back at any time below, restarts between, and what survives every
//! crash; which logs a restart takes, since pages and log have room for what each prefix says and for its undo; and stays of the power, one behind the
//! other, in which restarts lose power too. No code runs here.
#![tactic(auto)]

pub mod bounds;
pub mod checkpoints;
pub mod managers;
pub mod stays;
