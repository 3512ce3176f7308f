//! The names that every layer of the storage manager shares, and its faults.
#![tactic(auto)]

pub mod config;
pub mod faults;
mod growths;
pub mod ids;
pub mod images;
pub mod layout;
pub mod locking;
pub mod log_ends;
pub mod pairs;
pub mod sequences;
pub mod slotted;
pub mod versions;

pub use config::{ConfigPlace, Setting, Text};
pub use faults::{Device, Fault};
pub use ids::{GlobalId, Lsn, PageId, Rid, SessionId, StoreId, Ticket, TxnId};
pub use layout::Geometry;
pub use locking::{Granule, Level, Mode};
pub use log_ends::LogEnds;
pub use pairs::Pairs;
pub use sequences::{Bytes, Sequence};
pub use slotted::Slotted;
pub use versions::Version;
