//! Places that a transaction could lock.
ghost use Rattle.std.specs.Prelude.{◌≡◌, ◌↔◌, IsTrue};
ghost use Rattle.shore_types.specs.declared.locking.Granule.TheVariants.{Page};
ghost use Rattle.shore_types.specs.declared.locking.Mode.TheVariants.{IX};
ghost use Rattle.shore_path.specs.Intending.{CoversRecords, IntendsToWrite};
ghost use Rattle.shore_path.specs.declared.intending.WayToWrite.TheVariants as WayToWrite;
ghost use Rattle.shore_path.specs.Judging.{CanLockNow};
ghost use Rattle.shore_core.specs.Replies.{can_lock};

use shore_heap::Places;
use shore_locks::LockTable;
use shore_path::laws::{covered_records_are_had, records_need_their_page};
use shore_path::{WayToWrite, may_lock, may_lock_in_page, may_lock_in_store};
use shore_types::{Granule, Mode, PageId, Rid, StoreId, TxnId};

/// The places that a transaction could lock now.
#[derive(Drop)]
pub(crate) struct Lockable<'a> {
    /// The lock table, as it is.
    pub(crate) locks: &'a LockTable,
    /// The transaction that is to lock a place.
    pub(crate) txn: TxnId,
    /// The store that is searched.
    pub(crate) store: StoreId,
    /// What the transaction has of it (`covered`, `intended`).
    pub(crate) way: WayToWrite,
    ghost covered: { way ≡ WayToWrite.Covered → CoversRecords locks.now.requests txn store },
    ghost intended: { way ≡ WayToWrite.Intended → IntendsToWrite locks.now.requests txn store },
}

impl<'a> Places for Lockable<'a> {
    ghost MayTake = { λ l id. can_lock l.locks.now.requests l.txn id };

    ghost MayUse = { λ l page. CanLockNow l.locks.now.requests l.txn (Page page) IX };

    fn may_use(&self, page: &PageId) -> bool {
        // These do nothing: they bring the facts that who can lock a record now could lock its page in IX now, and that who holds what covers records can.
        records_need_their_page();
        covered_records_are_had();
        if page.store == self.store {
            match self.way {
                WayToWrite::Covered => return true,
                WayToWrite::Intended => return may_lock_in_store(self.locks, self.txn, page),
                WayToWrite::Unknown => {}
            }
        }
        may_lock(self.locks, self.txn, Granule::Page(*page), Mode::IX)
    }

    fn may_take(&self, id: &Rid) -> bool {
        covered_records_are_had();
        if self.is_covered() && id.page.store == self.store {
            return true;
        }
        may_lock_in_page(self.locks, self.txn, id)
    }
}

impl<'a> Lockable<'a> {
    // Whether the store's records are covered.
    fn is_covered(&self) -> bool
        ensures { IsTrue result ↔ (self.now.way ≡ WayToWrite.Covered) }
    {
        matches!(self.way, WayToWrite::Covered)
    }
}
