//! What a heap stands for, over plain data: its pages as the log speaks of them, so that what its calls do is work of a store. No code runs here.
#![tactic(auto)]

pub mod logged;
pub mod recoveries;
