//! A page of records in slots: what is in each slot, the bytes that are kept for it, and the page's text (encoding).
#![tactic(auto)]

mod claims;
mod compaction;
mod entries;
pub mod laws;
mod marks;
mod page;
mod placing;
mod reading;
mod text;
mod undecided;
mod writing;

pub use page::Page;
pub use undecided::{ChainPlace, Claims, NoClaims};
