//! What a pair of devices stands for, over plain data, and what a loss of power leaves of a pair on the way of a restart. No code runs here.
#![tactic(auto)]

pub mod beside;
pub mod stands;
