//! Migration of a pair to a new one, over plain data: the log that the new pair stands for. No code runs here.
#![tactic(auto)]

pub mod migrations;
pub mod worked;
