//! The pages of a volume: a batch of them is written so that a loss of power leaves all of them old or all of them new (a double write).
#![tactic(auto)]

mod device;
mod images;
mod places;
mod replay;
mod table;

pub use device::PageDev;
pub use images::PageImages;
pub use places::{GATE_AT, page_count, page_of, page_offset};
