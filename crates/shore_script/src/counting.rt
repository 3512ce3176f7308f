//! A work of threads, by which a script shows that sessions in threads lose nothing.

use shore_types::Rid;

/// Counting a record up: threads, each of which makes so many transactions that add one to it.
#[derive(Clone, Copy)]
pub struct Counting {
    /// How many threads.
    pub threads: u32,
    /// How many transactions each makes.
    pub rounds: u32,
    /// The record. Its 8 bytes are the number, the least byte first.
    pub record: Rid,
}
