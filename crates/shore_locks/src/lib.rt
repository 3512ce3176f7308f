//! A table of locks: what each transaction holds and wants of each granule, and who is granted next.
#![tactic(auto)]

pub mod answers;
mod cache;
mod changes;
mod counted;
mod findings;
pub mod laws;
pub mod listings;
pub mod queues;
mod searches;
pub mod table;

pub use answers::{HeldAbove, Requested, Tried};
pub use queues::{Holders, Waiters};
pub use shore_nodes::judgements::refuses;
pub use shore_nodes::let_through::LetThrough;
pub use table::LockTable;
