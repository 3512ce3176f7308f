//! What a lock table's list of requests is to the sessions: the locks that its requests hold, and how they move with an acquire, a cancel and a release.
#![tactic(auto)]

pub mod laws;
