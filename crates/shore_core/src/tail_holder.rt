//! What the log has to be kept for.
ghost use Rattle.std.specs.Prelude.{◌≡◌, ◌<◌, ◌≤◌, IfNone, IfSome, Some};
ghost use Rattle.shore_model.specs.declared.log_records.DirtyPage.{DirtyPage};

use crate::core_calls::Core;
use shore_disk::Disk;
use shore_log::Tail;
use shore_model::DirtyPage;
use shore_txn::Txn;
use shore_types::{Lsn, SessionId, TxnId};

/// What the log has to be kept for from furthest back on: a checkpoint that begins now lets it be cut up to there at most.
#[derive(Clone, Copy, PartialEq)]
pub enum TailHolder {
    /// A transaction under way, from its first record on.
    Transaction {
        txn: TxnId,
        /// None if no session is in it: an open has found it, or a resolve rolls it back.
        session: Option<SessionId>,
        first: Lsn,
    },
    /// A dirty page, from the record on that changed it first since it was clean: a flush lets go of it.
    Page(DirtyPage),
    /// Nothing: no transaction has logged a record, and no page is dirty.
    Nobody,
}

impl<T: Tail, V: Disk> Core<T, V> {
    ghost use Rattle.shore_core.specs.Cores.{heap_of, txns_of};
    ghost use Rattle.shore_core.specs.TailHolders.{HoldsTail};

    /// Whom the log has to be kept for from furthest back on; of a transaction and a page of one number, the transaction. It goes once over the transactions and once over the frames.
    pub fn tail_holder(&self) -> TailHolder
        ensures { HoldsTail (txns_of self.now) (heap_of self.now) result }
    {
        let page = self.heap.oldest_dirty();
        match self.control.oldest() {
            Some(oldest) => match before(page, oldest.first()) {
                Some(entry) => TailHolder::Page(entry),
                None => TailHolder::Transaction {
                    txn: oldest.id(),
                    session: oldest.seated(),
                    first: oldest.first(),
                },
            },
            None => match page {
                Some(entry) => TailHolder::Page(entry),
                None => TailHolder::Nobody,
            },
        }
    }
}

// The page, if its recovery number is below this number.
fn before(page: Option<DirtyPage>, first: Lsn) -> Option<DirtyPage>
    ensures some { IfSome result (λ entry. (page ≡ Some entry) × (entry.recovery < first)) }
    ensures none { IfNone result (IfSome page (λ entry. first ≤ entry.recovery)) }
{
    match page {
        Some(entry) if entry.recovery.0 < first.0 => Some(entry),
        _ => None,
    }
}
