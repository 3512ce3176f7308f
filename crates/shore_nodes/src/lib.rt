//! Requests for locks as nodes: found by hashing, in queues that are counted and granted by walks.
#![tactic(auto)]

pub mod granting;
pub mod heads;
pub mod judgements;
pub mod let_through;
pub mod nodes;
pub mod tallies;
pub mod walks;
