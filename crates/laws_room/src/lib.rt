//! The room of pages and of the log for many transactions, over plain data: why no undo is refused. No code runs here.
#![tactic(auto)]

pub mod laws;
