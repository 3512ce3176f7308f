//! Lock modes: which are compatible, which are granted beside which, and what each asks of the granules above it.
#![tactic(auto)]

pub mod laws;
pub mod modes;

pub use modes::{
    allowed, coexist, covers, grants, is_at_most, is_read, is_write, parent_mode, sup,
};
