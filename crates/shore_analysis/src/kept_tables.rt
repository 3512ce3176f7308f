//! The tables of a log whose front may be cut off.
ghost use Rattle.std.specs.Prelude.{◌≡◌, ◌-◌, min};
ghost use Rattle.laws_lives.specs.DirtyPages.{redo_begins_behind, surely_on_page};

use shore_model::{DirtyPage, LogTxn};
use shore_types::{Lsn, PageId, Sequence, TxnId};

/// What redo needs of the anchored checkpoint's End. A page is listed with the number of the first record that the volume may lack of it.
#[derive(Drop)]
pub struct RedoTable {
    /// The number of the checkpoint's begin, 0 if there is no checkpoint.
    pub begin: Lsn,
    /// The pages that were dirty then.
    pub dirty: Sequence<DirtyPage>,
}

impl RedoTable {
    /// Redo begins behind the record of this number.
    pub fn begins_behind(&self) -> Lsn
        ensures { result ≡ redo_begins_behind self.now.begin self.now.dirty }
    {
        least_behind(self.begin, self.dirty.as_slice())
    }

    /// The page has all records up to this number.
    pub fn surely_on(&self, page: PageId) -> Lsn
        ensures { result ≡ surely_on_page self.now.begin self.now.dirty page }
    {
        surely_on(self.begin, self.dirty.as_slice(), page)
    }
}

fn surely_on(begin: Lsn, dirty: &[DirtyPage], page: PageId) -> Lsn
    ensures { result ≡ surely_on_page begin dirty.now page }
{
    match dirty.split_first() {
        Some((listed, rest)) => {
            if page == listed.page {
                lesser(before(listed.recovery), before(begin))
            } else {
                surely_on(begin, rest, page)
            }
        }
        None => before(begin),
    }
}

// The number before this one, 0 if there is none.
fn before(number: Lsn) -> Lsn
    ensures { result ≡ number - 1 }
{
    Lsn(number.0.saturating_sub(1))
}

fn lesser(one: Lsn, other: Lsn) -> Lsn
    ensures { result ≡ min one other }
{
    Lsn(one.0.min(other.0))
}

fn least_behind(begin: Lsn, dirty: &[DirtyPage]) -> Lsn
    ensures { result ≡ redo_begins_behind begin dirty.now }
{
    match dirty.split_first() {
        Some((first, rest)) => lesser(before(first.recovery), least_behind(begin, rest)),
        None => before(begin),
    }
}

/// The tables of a log whose front may be cut off.
#[derive(Drop)]
pub struct KeptTables {
    /// The transactions that have a kept record and have not ended, rising by number.
    pub txns: Sequence<LogTxn>,
    /// Which records of a page redo may pass over.
    pub redo: RedoTable,
    /// A number above those of the kept records' transactions, and not below the anchored checkpoint's next.
    pub next: TxnId,
}
