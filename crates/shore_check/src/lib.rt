//! What a fuzzy checkpoint is made of (ARIES): its End, its cut point, and what each of its steps logs.
#![tactic(auto)]

mod cut;
pub mod laws;
mod room;
mod stage;
mod tables;

pub use cut::cut_point;
pub use room::Sums;
pub use stage::{ANCHOR_COST, Begun, Ended, Ending, Mark, Named, Stage, begin_record};
pub use tables::begin;
