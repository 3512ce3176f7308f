//! An ordered map over the records of a manager, by calls of one client.
#![tactic(auto)]

pub mod caller;
pub mod calls;
pub mod cuts;
pub mod dividing;
pub mod edges;
pub mod entries;
pub mod halving;
pub mod laws;
pub mod making;
pub mod maps;
pub mod mending;
pub mod nexts;
pub mod nodes;
pub mod puts;
pub mod ranges;
pub mod refusals;
pub mod searching;
pub mod splits;
pub mod takes;
pub mod texts;
pub mod writing;
