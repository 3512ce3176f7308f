//! What is at fixed offsets of a device: gates, the label that says what the device is, and the two anchors from
//! which a log is read.
#![tactic(auto)]

mod anchors;
pub mod gates;
mod labels;
mod moves;
mod numbers;

pub use anchors::{ANCHOR_BYTES, Anchor, Anchors, Slot};
pub use gates::{CLOSED, OPEN, close_gate, is_open, open_gate};
pub use labels::{LABEL_BYTES, Label, read_label, write_label};
