//! Slow plain functions that compute what the definitions say of lists of log records, for tests, and the laws of these lists.
//! Nothing of the storage manager stands on this crate.
#![tactic(auto)]

pub mod checkpoint_tables;
pub mod lawful_logs;
pub mod laws;
pub mod recovered_records;
pub mod transaction_records;
