//! The tables of a checkpoint's End, as they are at its begin.
ghost use Rattle.std.specs.Prelude.{◌≡◌, ◌<◌, All, IsPermutation, IsTrue, length};
ghost use Rattle.std.specs.List.Sorted.{IsStrictlySortedBy};
ghost use Rattle.shore_model.specs.Logs.{rise_above};
ghost use Rattle.shore_logrec.specs.Text.{DirtyFits, TxnFits, dirty_cmp};
ghost use Rattle.laws_checkpoints.specs.Checkpoints.{Checkpoint};
ghost use Rattle.shore_check.specs.Stages.{IsBegun};
ghost use Rattle.shore_check.specs.Tables.{ArePages, AreTxns, Takes};

use crate::cut::cut_point;
use crate::stage::{ANCHOR_COST, Begun, Mark};
use shore_logrec::checkpoint_cost;
use shore_model::{DirtyPage, LogRecord, LogTxn, Payload};
use shore_types::layout::ENDING_COST;
use shore_types::{Lsn, Sequence, TxnId};

/// The checkpoint whose CheckpointBegin will have this number. The transactions and the dirty pages are listed in any order, as they are now. Nothing is
/// changed elsewhere, and no memory is taken: it begins once that record is pushed, and may be dropped instead.
pub fn begin(number: Lsn, next: TxnId, mut txns: Vec<LogTxn>, mut dirty: Vec<DirtyPage>) -> Begun
    requires txns { AreTxns txns.items }
    requires pages { ArePages dirty.items }
    ensures { (c : Checkpoint) × Takes number next txns.items dirty.items c × IsBegun c result }
{
    put_txns_in_order(&mut txns);
    put_pages_in_order(&mut dirty);
    txns_fit(txns.as_slice());
    pages_fit(dirty.as_slice());
    let mark = Mark {
        checkpoint: number,
        tail: cut_point(number, txns.as_slice(), dirty.as_slice()),
    };
    let cost = checkpoint_cost(txns.len(), dirty.len());
    let end = LogRecord {
        txn: TxnId(0),
        previous: Lsn(0),
        payload: Payload::CheckpointEnd {
            begin: number,
            next,
            txns: Sequence::from_vec(txns),
            dirty: Sequence::from_vec(dirty),
        },
    };
    Begun::new(end, mark, cost - ENDING_COST - ANCHOR_COST)
}

// By their numbers.
fn put_txns_in_order(txns: &mut Vec<LogTxn>)
    requires { AreTxns txns.old.items }
    ensures same { IsPermutation txns.old.items txns.new.items }
    ensures rise { IsTrue (rise_above 0 txns.new.items) }
    ensures len { length txns.new.items ≡ length txns.old.items }
{
    txns.sort_unstable_by_key(|entry| entry.txn.0);
}

// By store, and then by place.
fn put_pages_in_order(dirty: &mut Vec<DirtyPage>)
    requires { ArePages dirty.old.items }
    ensures same { IsPermutation dirty.old.items dirty.new.items }
    ensures rise { IsStrictlySortedBy dirty_cmp dirty.new.items }
    ensures len { length dirty.new.items ≡ length dirty.old.items }
{
    dirty.sort_unstable_by_key(|entry| entry.page);
}

// Entries have numbers that fit their texts. Each of them shows it, and a list of them does not, so they are read one by one.
fn txns_fit(txns: &[LogTxn])
    requires { All (λ e. 0 < e.txn) txns.now }
    ensures { All TxnFits txns.now }
{
    for entry in txns {
        let _entry = read(entry);
    }
}

// The same of pages.
fn pages_fit(dirty: &[DirtyPage])
    ensures { All DirtyFits dirty.now }
{
    for entry in dirty {
        let _entry = read(entry);
    }
}

fn read<T: Copy>(entry: &T) -> T
    ensures { result ≡ entry.now }
{
    *entry
}
