//! What a lock along a path would come to, without taking it.
ghost use Rattle.std.specs.Prelude.{◌≡◌, ◌↔◌, ◌+◌, ◌&&◌, ℕ, IsTrue, List, length, not, reverse};
ghost use Rattle.std.specs.Option.{option_and_then};
ghost use Rattle.shore_types.specs.Locking.{same_granule};
ghost use Rattle.shore_model.specs.declared.requests.Request.{Request as RequestData};
ghost use Rattle.shore_model.specs.Locks as locks;
ghost use Rattle.shore_locks.specs.Grants.{after_try, answer_to_try};
ghost use Rattle.shore_locks.specs.Orderly.{IsOrderly};
ghost use Rattle.shore_locks.specs.Tables.{request_for};
ghost use Rattle.shore_path.specs.Acquires.{IsCoveredAbove};
ghost use Rattle.shore_path.specs.Judging as specs;
ghost use Rattle.shore_path.specs.Judging.{CanLockNow, IsAlike, with_left};
ghost use Rattle.shore_path.specs.declared.answers.OnConflict.TheVariants.{Refuse};
ghost use Rattle.shore_path.specs.Walks as walks;

use crate::answers::Acquired;
use crate::paths::{LONGEST_PATH, path_to};
use crate::walk::is_done;
use shore_locks::laws::tables_are_orderly;
use shore_locks::{LockTable, Tried};
use shore_model::Request;
use shore_modes::{allowed, covers, parent_mode};
use shore_types::{Fault, Granule, Mode, Rid, TxnId};

/// Whether a transaction could lock a granule in a mode now: nobody is in the way on its path. How many nodes are left is not looked at.
/// Of each granule of the path one request is looked for.
pub fn may_lock(table: &LockTable, txn: TxnId, target: Granule, mode: Mode) -> bool
    ensures { IsTrue result ↔ CanLockNow table.now.requests txn target mode }
{
    is_done(&judge(table, txn, &target, mode, LONGEST_PATH))
}

/// As `may_lock`, for a record in EX whose page the transaction could lock in IX. Mostly the record has no requests, and then nothing
/// is looked for.
pub fn may_lock_in_page(table: &LockTable, txn: TxnId, id: &Rid) -> bool
    requires { CanLockNow table.now.requests txn (Granule.Page id.now.page) Mode.IX }
    ensures { IsTrue result ↔ CanLockNow table.now.requests txn (Granule.Record id.now) Mode.EX }
{
    // For the proof: the requests of any table are orderly. Nothing runs.
    tables_are_orderly(table);
    let record = &Granule::Record(*id);
    if !table.may_have_requests(*record) {
        return true;
    }
    let held = table.held(txn, *record);
    let other = table.in_the_way(txn, *record, held, Mode::EX);
    other.is_none() || is_covered_above(table, txn, id)
}

// Whether a page, its store or the volume is held in a mode that covers a lock of the record in EX.
fn is_covered_above(table: &LockTable, txn: TxnId, id: &Rid) -> bool
    ensures { IsTrue result ↔ IsCoveredAbove table.now.requests txn (Granule.Record id.now) Mode.EX }
{
    let page = table.held(txn, Granule::Page(id.page));
    let store = table.held(txn, Granule::Store(id.page.store));
    let volume = table.held(txn, Granule::Volume);
    is_covered(Mode::EX, page) || is_covered(Mode::EX, store) || is_covered(Mode::EX, volume)
}

// What an acquire that may not wait would be answered in a table with so many nodes left.
fn judge(
    table: &LockTable,
    txn: TxnId,
    target: &Granule,
    mode: Mode,
    left: usize,
) -> Result<Acquired, Fault>
    ensures { result ≡ (walks.acquired Refuse (with_left table.now.requests left) txn target.now mode).answer }
{
    if !allowed(target.level(), mode) {
        return Err(Fault::BadMode);
    }
    // For the proof: the requests of any table are orderly. Nothing runs.
    tables_are_orderly(table);
    let path = path_to(*target);
    judge_along(table, txn, target, mode, path.as_slice(), left)
}

// Judges the granules of a path in their order, with the nodes that those above would have taken.
fn judge_along(
    table: &LockTable,
    txn: TxnId,
    target: &Granule,
    mode: Mode,
    path: &[Granule],
    left: usize,
) -> Result<Acquired, Fault>
    requires orderly { IsOrderly table.now.requests }
    requires path { path.now ≡ reverse (locks.path target.now) }
    ensures { result ≡ (walks.walk Refuse txn target.now mode (length table.now.requests + left) path.now table.now.requests).answer }
{
    let mut left = left;
    for granule in path {
        let own = table.request_for(txn, *granule);
        if spares(target, mode, granule, &own) {
            return Ok(Acquired::Done);
        }
        let asked = asked_of(target, mode, granule);
        match judge_one(table, txn, granule, asked, &own, &mut left) {
            Tried::Granted => {}
            Tried::Blocked(holder) => return Err(Fault::WouldBlock { holder }),
            Tried::Full => return Err(Fault::LockTableFull),
        }
    }
    Ok(Acquired::Done)
}

// What a try would be answered at one granule with so many nodes left, and how many are left behind it.
fn judge_one(
    table: &LockTable,
    txn: TxnId,
    granule: &Granule,
    mode: Mode,
    own: &Option<Request>,
    left: &mut usize,
) -> Tried
    requires { own.now ≡ request_for txn granule.now table.now.requests }
    ensures answer { (limit : ℕ) (new : List RequestData) → IsAlike granule.now limit left.old table.now.requests new →
        result ≡ answer_to_try (record { limit = limit; requests = new }) txn granule.now mode }
    ensures left { (limit : ℕ) (new : List RequestData) → IsAlike granule.now limit left.old table.now.requests new → result ≡ Tried.Granted →
        left.new + length (after_try (record { limit = limit; requests = new }) txn granule.now mode) ≡ limit }
{
    if own.is_none() {
        if *left == 0 {
            return Tried::Full;
        }
        *left -= 1;
    }
    told_by(table.in_the_way(txn, *granule, held_by(own), mode))
}

// What a try is told by who is in its way.
fn told_by(other: Option<TxnId>) -> Tried
    ensures { result ≡ specs.told_by other }
{
    match other {
        Some(holder) => Tried::Blocked(holder),
        None => Tried::Granted,
    }
}

// Whether the granule is an ancestor, and what the transaction has there spares all that is left to ask.
fn spares(target: &Granule, mode: Mode, granule: &Granule, own: &Option<Request>) -> bool
    ensures { result ≡ (not (same_granule granule.now target.now) && walks.is_covered mode (option_and_then (λ r. r.held) own.now)) }
{
    *granule != *target && is_covered(mode, held_by(own))
}

fn held_by(own: &Option<Request>) -> Option<Mode>
    ensures { result ≡ option_and_then (λ r. r.held) own.now }
{
    own.as_ref()?.held
}

// The mode that is asked of a granule on the way to the target.
fn asked_of(target: &Granule, mode: Mode, granule: &Granule) -> Mode
    ensures { result ≡ walks.asked_of target.now mode granule.now }
{
    if *granule == *target {
        mode
    } else {
        parent_mode(mode)
    }
}

// Whether what is held of an ancestor, if anything, covers a mode below it.
pub(crate) fn is_covered(mode: Mode, held: Option<Mode>) -> bool
    ensures { result ≡ walks.is_covered mode held }
{
    match held {
        Some(held) => covers(held, mode),
        None => false,
    }
}
