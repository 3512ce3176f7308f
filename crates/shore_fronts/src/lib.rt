//! What stands at the fronts of a pair of devices: the labels, that they are of one pair, and the anchor that counts.
#![tactic(auto)]

mod fronts;

pub use fronts::{Fronts, read_fronts};
