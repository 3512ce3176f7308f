//! The limits that every version has, and the layout of a volume.
ghost use Rattle.std.specs.Prelude.{◌≡◌, ◌↔◌, ◌+◌, ◌^◌, Some, None, IsTrue};
ghost use Rattle.shore_types.specs.Layout.{HasStore, HasPage, HasSlot, StoresInLimits, LocksInLimits, IsInLimits};
ghost use Rattle.shore_types.specs.declared.config.Setting.TheVariants.{Stores, MaxLocks};

use crate::{PageId, Rid, Sequence, Setting, StoreId, Version};

/// The most bytes of a page, in any version.
pub const MAX_PAGE_BYTES: usize = 16_384;
/// The bytes of a page's header, at its front.
pub const PAGE_HEADER_BYTES: usize = 24;
/// The bytes of a slot's entry in the slot table, at the page's end.
pub const SLOT_ENTRY_BYTES: usize = 4;
/// The most bytes of a record in any version.
pub const MAX_RECORD_BYTES: usize = 12_000;
/// The most slots of a page in any version.
pub const MAX_SLOTS: u16 = 4090;

/// The most stores of a volume, which has at least one.
pub const MAX_STORES: usize = 64;
/// The most pages of all stores together. Each store has at least one.
pub const MAX_PAGES: u32 = 65_536;
/// The fewest lock nodes that a volume may be made for.
pub const LEAST_MAX_LOCKS: u32 = 16;
/// The most lock nodes that a volume may be made for.
pub const MOST_MAX_LOCKS: u32 = 4096;

/// The most transactions in the table.
pub const MAX_TRANSACTIONS: usize = 256;
/// The most savepoints of a transaction at once.
pub const MAX_SAVEPOINTS: usize = 64;
/// The most bytes of a global id in any version.
pub const MAX_GLOBAL_ID_BYTES: usize = 255;

/// The fewest frames of a pool.
pub const MIN_POOL_FRAMES: usize = 8;
/// The most frames of a pool.
pub const MAX_POOL_FRAMES: usize = 1024;
/// The most pages of one batch, which has at least one.
pub const MAX_BATCH_PAGES: usize = 32;

/// The most bytes of the records of one frame.
pub const MAX_FRAME_BYTES: usize = 65_536;
/// The bytes of a frame beside its records: its gate, its length and its first number. Each record's cost has them once, as if it had a frame of its own.
pub const FRAME_SHARE: u64 = 13;
/// The bytes of the longest frame: its share, and the most bytes of records.
pub const LONGEST_FRAME: u64 = 65_549;
/// The most that a whole checkpoint costs: its begin, its end with full tables, and the anchor.
pub const GREATEST_CHECKPOINT: u64 = 27_018;
/// What a log record costs that has no payload, as a Commit or an End: its head, and its share of a frame.
pub const ENDING_COST: u64 = 34;
/// Once the last record has this number, no room is given to new work.
pub const LAST_LSN: u64 = 1 << 46;
/// The numbers of all records are below this one, those that were reserved for among them.
pub const LAST_OPENED: u64 = LAST_LSN + (1 << 32);
/// The numbers of all transactions are below this one.
pub const LAST_TXN: u64 = 1 << 62;
/// The bytes of a log device before its stream of frames: the label and the anchors, and what is between them.
pub const LOG_FRONT_BYTES: u64 = 4096;
/// The offset of the first anchor on a log device.
pub const ANCHOR_A_AT: u64 = 1024;
/// The offset of the second anchor on a log device.
pub const ANCHOR_B_AT: u64 = 2048;
/// The most bytes of a log device.
pub const MAX_LOG_BYTES: u64 = 1_073_741_824;
/// The offset of a device's length in its label.
pub const LENGTH_AT: u64 = 16;

/// Each limit has its number; a definition cites it by its name.
pub fn limits_have_their_numbers()
    ensures page { (MAX_PAGE_BYTES ≡ 16384) × (PAGE_HEADER_BYTES ≡ 24) × (SLOT_ENTRY_BYTES ≡ 4)
        × (MAX_RECORD_BYTES ≡ 12000) × (MAX_SLOTS ≡ 4090) }
    ensures volume { (MAX_STORES ≡ 64) × (MAX_PAGES ≡ 65536) × (MAX_BATCH_PAGES ≡ 32) × (MIN_POOL_FRAMES ≡ 8) × (MAX_POOL_FRAMES ≡ 1024) }
    ensures table { (LEAST_MAX_LOCKS ≡ 16) × (MOST_MAX_LOCKS ≡ 4096) × (MAX_TRANSACTIONS ≡ 256) × (MAX_SAVEPOINTS ≡ 64)
        × (MAX_GLOBAL_ID_BYTES ≡ 255) }
    ensures log { (MAX_FRAME_BYTES ≡ 65536) × (FRAME_SHARE ≡ 13) × (LONGEST_FRAME ≡ 65549) × (GREATEST_CHECKPOINT ≡ 27018) × (ENDING_COST ≡ 34)
        × (LOG_FRONT_BYTES ≡ 4096) × (MAX_LOG_BYTES ≡ 2 ^ 30) }
    ensures offsets { (ANCHOR_A_AT ≡ 1024) × (ANCHOR_B_AT ≡ 2048) × (LENGTH_AT ≡ 16) }
    ensures numbers { (LAST_LSN ≡ 2 ^ 46) × (LAST_OPENED ≡ 2 ^ 46 + 2 ^ 32) × (LAST_TXN ≡ 2 ^ 62) }
{}

/// How a pair of devices is laid out.
#[derive(Drop)]
pub struct Geometry {
    /// The version of the formats.
    pub version: Version,
    /// The number of the pair, on both labels.
    pub pair: u64,
    /// The most lock nodes.
    pub max_locks: u32,
    /// The pages of each store.
    pub stores: Sequence<u32>,
}

impl Geometry {
    pub fn has_store(&self, id: StoreId) -> bool
        ensures { IsTrue result ↔ HasStore self.now id }
    {
        (id.0 as usize) < self.stores.as_slice().len()
    }

    pub fn has_page(&self, id: PageId) -> bool
        ensures { IsTrue result ↔ HasPage self.now id }
    {
        match self.stores.as_slice().get(id.store.0 as usize) {
            Some(pages) => id.page < *pages,
            None => false,
        }
    }

    /// Whether a record may have this id.
    pub fn has_slot(&self, id: Rid) -> bool
        ensures { IsTrue result ↔ HasSlot self.now id }
    {
        self.has_page(id.page) && id.slot < self.version.slot_limit()
    }

    /// The first setting, stores before lock nodes, that breaks the limits.
    pub fn outside_limits(&self) -> Option<Setting>
        ensures none { (result ≡ None) ↔ IsInLimits self.now }
        ensures stores { (result ≡ Some Stores) ↔ ¬ StoresInLimits self.now }
        ensures locks { (result ≡ Some MaxLocks) ↔ (StoresInLimits self.now × ¬ LocksInLimits self.now) }
    {
        if !self.has_stores_in_limits() {
            return Some(Setting::Stores);
        }
        if self.max_locks < LEAST_MAX_LOCKS || self.max_locks > MOST_MAX_LOCKS {
            return Some(Setting::MaxLocks);
        }
        None
    }

    fn has_stores_in_limits(&self) -> bool
        ensures { IsTrue result ↔ StoresInLimits self.now }
    {
        let stores = self.stores.as_slice();
        if stores.is_empty() || stores.len() > MAX_STORES {
            return false;
        }
        let mut left = MAX_PAGES;
        for pages in stores {
            if *pages == 0 || *pages > left {
                return false;
            }
            left -= *pages;
        }
        true
    }
}
