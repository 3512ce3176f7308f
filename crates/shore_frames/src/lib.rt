//! The frames of a log device: what an image of it gives, how they are read, and how the stream that they stand in is read and written as a ring.
#![tactic(auto)]

pub mod laws;
mod reading;
mod ring;
mod view;

pub use reading::{FrameAt, HEAD_BYTES, Stream, read_stream};
pub use ring::{byte_of, read_ring, write_both_synced, write_ring, write_ring_synced};
