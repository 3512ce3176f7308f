//! The tables in payloads: behind their number stand entries of one kind, which rise.
ghost use Rattle.std.specs.Prelude.{◌≡◌, Bool, List, ℕ, None, length, option_map, IfOk};
ghost use Rattle.std.specs.List.{flat_map};
ghost use Rattle.shore_logrec.specs.Reading as spec;
ghost use Rattle.shore_logrec.specs.Reading.{Reader};
ghost use Rattle.shore_logrec.specs.Room.{HasRoom, Puts};
ghost use Rattle.shore_logrec.specs.Text.{dirty_text, granule_text, txn_text};

use crate::reading::{dirty_at, granule_at, txn_at, u16_at};
use crate::writing::{put_dirty, put_granule, put_txn};
use shore_model::{DirtyPage, LogTxn};
use shore_types::{Granule, Sequence};
use std::alloc::{AllocError, Global};

// An entry of a table.
pub(crate) trait Entry: Copy {
    ghost entry_text: { Self → List ℕ };

    ghost reader: { Reader Self };

    ghost before: { Self → Self → Bool };

    // The entry at the front of the bytes, and the bytes behind it.
    fn at(bytes: &[u8]) -> Option<(Self, &[u8])>
        ensures { option_map (λ x. (x.0, x.1.now)) result ≡ reader bytes.now };

    // Whether it comes before another one.
    fn is_before(&self, next: &Self) -> bool
        ensures { result ≡ before self.now next.now };

    fn put(&self, out: &mut Vec<u8>)
        requires { HasRoom out.old (length (entry_text self.now)) }
        ensures { Puts out.old out.new (entry_text self.now) };
}

impl Entry for Granule {
    ghost entry_text = { granule_text };

    ghost reader = { spec.granule_at };

    ghost before = { spec.granule_before };

    fn at(bytes: &[u8]) -> Option<(Granule, &[u8])> {
        granule_at(bytes)
    }

    fn is_before(&self, next: &Granule) -> bool {
        *self < *next
    }

    fn put(&self, out: &mut Vec<u8>) {
        put_granule(out, self);
    }
}

impl Entry for LogTxn {
    ghost entry_text = { txn_text };

    ghost reader = { spec.txn_at };

    ghost before = { spec.txn_before };

    fn at(bytes: &[u8]) -> Option<(LogTxn, &[u8])> {
        txn_at(bytes)
    }

    fn is_before(&self, next: &LogTxn) -> bool {
        self.txn < next.txn
    }

    fn put(&self, out: &mut Vec<u8>) {
        put_txn(out, self);
    }
}

impl Entry for DirtyPage {
    ghost entry_text = { dirty_text };

    ghost reader = { spec.dirty_at };

    ghost before = { spec.dirty_before };

    fn at(bytes: &[u8]) -> Option<(DirtyPage, &[u8])> {
        dirty_at(bytes)
    }

    fn is_before(&self, next: &DirtyPage) -> bool {
        self.page < next.page
    }

    fn put(&self, out: &mut Vec<u8>) {
        put_dirty(out, self);
    }
}

// Whether an entry comes behind the last one, if there is one.
fn follows<T: Entry>(last: Option<T>, entry: &T) -> bool
    ensures { result ≡ spec.follows T.before last entry.now }
{
    match last {
        Some(last) => last.is_before(entry),
        None => true,
    }
}

// So many entries, rising, and the bytes behind them.
pub(crate) fn entries_at<T: Entry>(
    alloc: Global,
    bytes: &[u8],
    count: usize,
) -> Result<Option<(Sequence<T>, &[u8])>, AllocError>
    ensures { IfOk result (λ found. option_map (λ x. (x.0, x.1.now)) found
        ≡ spec.entries_from T.reader T.before None count bytes.now) }
{
    let mut entries = Sequence::new(alloc);
    let mut rest = bytes;
    let mut last = None;
    for _ in 0..count {
        let Some((entry, behind)) = T::at(rest) else {
            return Ok(None);
        };
        if !follows(last, &entry) {
            return Ok(None);
        }
        entries.push(entry)?;
        last = Some(entry);
        rest = behind;
    }
    Ok(Some((entries, rest)))
}

// The number of entries in two bytes, at most so great, and as many entries.
#[tactic(auto, unfolding(crate::specs::Reading::table_at))]
pub(crate) fn short_table_at<T: Entry>(
    alloc: Global,
    bytes: &[u8],
    most: u16,
) -> Result<Option<(Sequence<T>, &[u8])>, AllocError>
    ensures { IfOk result (λ found. option_map (λ x. (x.0, x.1.now)) found
        ≡ spec.table_at 2 most T.reader T.before bytes.now) }
{
    let Some((count, rest)) = u16_at(bytes) else {
        return Ok(None);
    };
    if count > most {
        return Ok(None);
    }
    entries_at(alloc, rest, count as usize)
}

// Puts entries one after another.
pub(crate) fn put_entries<T: Entry>(out: &mut Vec<u8>, entries: &[T])
    requires { HasRoom out.old (length (flat_map T.entry_text entries.now)) }
    ensures { Puts out.old out.new (flat_map T.entry_text entries.now) }
{
    for entry in entries {
        entry.put(out);
    }
}
