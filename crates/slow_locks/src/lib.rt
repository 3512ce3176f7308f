//! Slow plain functions that compute what the definitions say of locks that are held and asked, for tests. Nothing of the
//! storage manager stands on this crate.
#![tactic(auto)]

pub mod holds;
pub mod requests;
