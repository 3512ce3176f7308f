//! Records in the pages of a pool: a heap file for each store of a volume, with a free space map, which knows of each page how many bytes do not find room there.
#![tactic(auto)]

mod choices;
mod dirty;
mod fetching;
mod flushing;
mod free_map;
mod heap;
mod laws;
mod maps;
mod maxima;
mod parts;
mod places;
mod scans;
mod slots;

pub use choices::{AnyPlace, Places};
pub use heap::Heap;
pub use laws::{
    claims_count_out_of_frames, pages_of_the_volume_decide, parts_are_the_models,
    scans_are_the_models,
};
pub use shore_page::{ChainPlace, Claims, NoClaims};
