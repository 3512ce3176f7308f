//! The whole manager over its pair of devices: format, open, and one event at a time. It is the plain world of many sessions, which take
//! locks and wait for each other. Pages are written back whenever that suits, with undecided changes in them, and an open is a restart: it
//! redoes what pages lack and undoes the losers.
#![tactic(auto)]

mod checkpointing;
mod counts;
mod dump_parts;
mod event;
pub mod laws;
mod opening;
pub mod orders;
mod parts;
pub mod promises;
mod world;

pub use event::Event;
pub use shore_core::{Step, TailHolder, Wait};
pub use shore_format::{format, volume_bytes};
pub use shore_restart::Report;
pub use world::{World, crashed};
