//! Where the log may be cut once a checkpoint is anchored.
ghost use Rattle.std.specs.Prelude.{◌≡◌, ℕ, min};
ghost use Rattle.laws_checkpoints.specs.Checkpoints as laws;

use shore_model::{DirtyPage, LogTxn};
use shore_types::Lsn;

/// The first record that has to be kept for the checkpoint that begins with this number and has these tables.
pub fn cut_point(begin: Lsn, txns: &[LogTxn], dirty: &[DirtyPage]) -> Lsn
    ensures { (next : ℕ) → result ≡ laws.cut_point (record { begin = begin; next = next; txns = txns.now; dirty = dirty.now }) }
{
    least_first(least_recovery(begin, dirty), txns)
}

// The least of the number and of the pages' recovery numbers.
fn least_recovery(number: Lsn, dirty: &[DirtyPage]) -> Lsn
    ensures { result ≡ laws.least_recovery number dirty.now }
{
    let mut least = number;
    for entry in dirty {
        least = lesser(least, entry.recovery);
    }
    least
}

// The least of the number and of the transactions' first numbers.
fn least_first(number: Lsn, txns: &[LogTxn]) -> Lsn
    ensures { result ≡ laws.least_first number txns.now }
{
    let mut least = number;
    for entry in txns {
        least = lesser(least, entry.first);
    }
    least
}

fn lesser(one: Lsn, other: Lsn) -> Lsn
    ensures { result ≡ min one other }
{
    if other.0 < one.0 { other } else { one }
}
