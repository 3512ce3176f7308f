//! Marks on transactions, read without a walk over those that are marked.
ghost use Rattle.std.specs.Prelude.{◌≡◌, ◌<◌, ◌%◌, ◌++◌, ◌∷◌, [], IfOk, OnOk};
ghost use Rattle.shore_cycles.specs.Marks.{is_marked};

use shore_types::TxnId;
use std::alloc::{AllocError, Global};
use std::marker::Model;

const BUCKETS: usize = 256;

/// A marked transaction, and the number of the one before it in its bucket: its index and 1, or 0 for none.
#[derive(Clone, Copy)]
pub(crate) struct Mark {
    // The transaction that is marked.
    txn: TxnId,
    // One above the index of the mark before it in its bucket, 0 if it is the first.
    earlier: usize,
}

/// The marked transactions, in the order in which they were marked. Transactions whose numbers follow one another are in
/// buckets of their own, so that a look reads one mark, as long as 256 are active at most.
#[derive(Drop)]
pub(crate) struct Marks {
    // All marks, in the order in which they were set.
    marks: Vec<Mark>,
    // For each bucket one above the index of its last mark, 0 if it has none: `add` keeps it so.
    newest: Vec<usize>,
}

impl Model for Marks {
    ghost use Rattle.std.specs.Prelude.{ℕ, List, map};
    ghost use Rattle.shore_cycles.specs.declared.marks.Mark.{Mark};
    ghost use Rattle.shore_cycles.specs.Marks.{IsIndexed};

    ghost Value = { List ℕ };

    ghost view = { λ m. map (λ (x : Mark). x.txn) m.marks.items };

    ghost invariant = { λ m. IsIndexed m.marks.items m.newest.items };
}

impl Marks {
    /// No mark.
    pub(crate) fn new(alloc: Global) -> Result<Marks, AllocError>
        ensures { IfOk result (λ marks. marks ≡ []) }
    {
        Ok(Marks {
            marks: Vec::new(alloc),
            newest: vec![in alloc; 0; BUCKETS]?,
        })
    }

    /// Whether a transaction is marked.
    pub(crate) fn has(&self, txn: TxnId) -> bool
        ensures { result ≡ is_marked self.now txn }
    {
        let mut number = self.newest[bucket_of(txn)];
        while number > 0 {
            let mark = &self.marks[number - 1];
            if mark.txn == txn {
                return true;
            }
            number = mark.earlier;
        }
        false
    }

    /// Marks a transaction.
    pub(crate) fn add(&mut self, txn: TxnId) -> Result<(), AllocError>
        ensures { OnOk result (self.new ≡ self.old ++ txn ∷ []) }
    {
        let bucket = bucket_of(txn);
        let earlier = self.newest[bucket];
        self.marks.push(Mark { txn, earlier })?;
        self.newest[bucket] = self.marks.len();
        Ok(())
    }

    /// Takes all marks away.
    pub(crate) fn clear(&mut self)
        ensures { self.new ≡ [] }
    {
        self.marks.clear();
        self.newest.fill(0);
    }
}

fn bucket_of(txn: TxnId) -> usize
    ensures is { result ≡ txn % 256 }
    ensures within { result < 256 }
{
    (txn.0 % BUCKETS as u64) as usize
}
