//! Doubly linked lists over numbered nodes, many in one vector.
#![tactic(auto)]

pub mod ring;

pub use ring::Rings;
