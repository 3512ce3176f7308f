//! Transactions under way: one with its last record, its undo list, its savepoints, and what is reserved for its undo and its ending; those of many sessions,
//! and the room of the log that they share.
#![tactic(auto)]

mod active;
mod chains;
mod claims;
mod guesses;
pub mod laws;
mod log_room;
mod log_table;
mod prepared;
mod savepoints;
mod seat;
mod transactions;
mod txn;
mod txn_state;
mod undo;

pub use log_room::LogRoom;
pub use seat::Seat;
pub use transactions::Transactions;
pub use txn::Txn;
pub use txn_state::TxnState;
pub use undo::UndoEntry;
