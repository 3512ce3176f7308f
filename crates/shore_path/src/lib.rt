//! Locks taken along a path: the intentions above a granule, from the root down, and then the granule itself.
#![tactic(auto)]

pub mod answers;
pub mod intending;
pub mod judging;
pub mod laws;
pub mod paths;
pub mod restoring;
pub mod walk;

pub use answers::{Acquired, OnConflict};
pub use intending::{WayToWrite, acquire_in_store, may_lock_in_store, way_to_write};
pub use judging::{may_lock, may_lock_in_page};
pub use restoring::restore;
pub use walk::acquire;
