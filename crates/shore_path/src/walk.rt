//! Locks taken along a path.
ghost use Rattle.std.specs.Prelude.{◌≡◌, ◌≢◌, ◌↔◌, false, true, Contains, IfErr, IfNone, IsFalse, IsTrue, MatchOption, Some, reverse};
ghost use Rattle.shore_types.specs.declared.locking.Granule.{Granule};
ghost use Rattle.shore_types.specs.Locking.{level_of, same_granule};
ghost use Rattle.shore_model.specs.Locks.{ancestors, path};
ghost use Rattle.shore_model.specs.Modes.{is_allowed};
ghost use Rattle.shore_locks.specs.Tables.{is_waiting};
ghost use Rattle.shore_path.specs.Acquires.{GrowsAsAsked, IsReached, MayRefuse, NoneWeaker, OthersOnlyGranted, WaitsAt};
ghost use Rattle.shore_path.specs.Intending as intending;
ghost use Rattle.shore_path.specs.Rooted.{AreRooted};
ghost use Rattle.shore_path.specs.Needs.{AreApart, EndsAmong, EndsAt, HasPassed, IsNeeded, Passes, PassesAll};
ghost use Rattle.shore_path.specs.Walks as walks;

use crate::answers::{Acquired, OnConflict};
use shore_locks::laws::tables_are_orderly;
use shore_locks::{HeldAbove, LockTable, Requested, Tried};
use shore_modes::{allowed, covers, is_at_most, parent_mode};
use shore_types::{Fault, Granule, Mode, PageId, StoreId, TxnId};

/// Takes a granule in a mode, after the intentions above it. From the root down each ancestor is asked for in the parent mode, and
/// then the granule in the mode itself; each request is joined to what the transaction holds there. Where the mode held on an
/// ancestor covers the mode that is asked, that is all, and nothing further is taken.
///
/// Refused with BadMode if a granule of the level does not take the mode, and nothing has changed; with LockTableFull if a granule of the
/// path needs a node and none is left; and with WouldBlock in place of waiting, if told so. Locks that a refused or waiting call has
/// taken on its way stay. A transaction that waits asks for nothing; once it waits no more it asks again, and what it has is found
/// to be enough. After Gray, Lorie, Putzolu and Traiger (1976).
pub fn acquire(
    table: &mut LockTable,
    txn: TxnId,
    target: Granule,
    mode: Mode,
    on_conflict: OnConflict,
) -> Result<Acquired, Fault>
    requires { is_waiting txn table.old.requests ≡ false }
    ensures as_asked { walks.HasOutcome table.old (walks.acquired on_conflict table.old txn target mode) result table.new }
    ensures done { result ≡ Ok Acquired.Done → IsReached table.new.requests txn target mode }
    ensures waiting { (g : Granule) → result ≡ Ok (Acquired.Waiting g) →
        (on_conflict ≡ OnConflict.Wait) × Contains (path target) g × WaitsAt table.new.requests txn g (walks.asked_of target mode g) }
    ensures quiet { ((g : Granule) → result ≢ Ok (Acquired.Waiting g)) → is_waiting txn table.new.requests ≡ false }
    ensures refused { IfErr result (MayRefuse on_conflict table.new txn target mode) }
    ensures bad_mode { IsFalse (is_allowed (level_of target) mode) → (result ≡ Err Fault.BadMode) × (table.new ≡ table.old) }
    ensures grows { GrowsAsAsked table.old.requests table.new.requests txn target mode }
    ensures others { OthersOnlyGranted table.old.requests table.new.requests txn }
    ensures none_weaker { NoneWeaker table.old.requests table.new.requests }
    ensures rooted { AreRooted table.old.requests → AreRooted table.new.requests }
{
    let target = &target;
    if !allowed(target.level(), mode) {
        return Err(Fault::BadMode);
    }
    // For the proof: the requests of any table are orderly. Nothing runs.
    tables_are_orderly(table);
    walk(table, txn, target, mode, on_conflict)
}

// Asks for the granules of the target's path in their order. Mostly all above the target is held, which is seen without a step.
fn walk(
    table: &mut LockTable,
    txn: TxnId,
    target: &Granule,
    mode: Mode,
    on_conflict: OnConflict,
) -> Result<Acquired, Fault>
    requires { is_waiting txn table.old.requests ≡ false }
    ensures { walks.HasOutcome table.old (walks.walk on_conflict txn target.now mode table.old.limit (reverse (path target.now)) table.old.requests) result table.new }
{
    if has_intentions(table, txn, target, mode) {
        return ask(table, txn, target, mode, on_conflict);
    }
    go_down(table, txn, target, mode, on_conflict)
}

// Whether each granule above the target is held in as much as is asked of it, and spares nothing.
fn has_intentions(table: &mut LockTable, txn: TxnId, target: &Granule, mode: Mode) -> bool
    requires { is_waiting txn table.old.requests ≡ false }
    ensures has { IsTrue result → (c : OnConflict) → HasPassed c txn target.now mode (reverse (ancestors target.now)) table.new }
    ensures same { table.new ≡ table.old }
{
    match target {
        Granule::Volume => true,
        Granule::Store(_) => has_intention(table, txn, mode, &Granule::Volume),
        Granule::Page(page) => has_store(table, txn, mode, page.store),
        Granule::Record(id) => has_page(table, txn, mode, &id.page),
    }
}

// .. a page and those above it. Mostly the three are known.
#[inline(always)]
pub(crate) fn has_page(table: &mut LockTable, txn: TxnId, mode: Mode, page: &PageId) -> bool
    requires { is_waiting txn table.old.requests ≡ false }
    ensures has { IsTrue result → (c : OnConflict) (target : Granule) → AreApart target (reverse (path (Granule.Page page.now))) → HasPassed c txn target mode (reverse (path (Granule.Page page.now))) table.new }
    ensures same { table.new ≡ table.old }
{
    match table.held_above(txn, page) {
        Some(held) => are_intentions(mode, &held),
        None => false,
    }
}

fn are_intentions(mode: Mode, held: &HeldAbove) -> bool
    ensures { IsTrue result → (intending.is_intention mode (Some held.now.volume) ≡ true) × (intending.is_intention mode (Some held.now.store) ≡ true) × (intending.is_intention mode (Some held.now.page) ≡ true) }
{
    is_intention(mode, Some(held.volume))
        && is_intention(mode, Some(held.store))
        && is_intention(mode, Some(held.page))
}

// .. a store and the volume.
fn has_store(table: &LockTable, txn: TxnId, mode: Mode, store: StoreId) -> bool
    ensures { IsTrue result → (c : OnConflict) (target : Granule) → AreApart target (reverse (path (Granule.Store store))) → HasPassed c txn target mode (reverse (path (Granule.Store store))) table.now }
{
    has_intention(table, txn, mode, &Granule::Volume)
        && has_intention(table, txn, mode, &Granule::Store(store))
}

// .. one granule.
#[inline(always)]
fn has_intention(table: &LockTable, txn: TxnId, mode: Mode, granule: &Granule) -> bool
    ensures { IsTrue result → (c : OnConflict) (target : Granule) → same_granule granule.now target ≡ false → Passes c txn target mode granule.now table.now table.now }
{
    is_intention(mode, table.held(txn, *granule))
}

// Whether what is held, if anything, is as much as a mode below it asks for, and does not cover that. It is run for each call on a record, so the answers
// stand here and are not put together from the tables of modes.
pub(crate) fn is_intention(mode: Mode, held: Option<Mode>) -> bool
    ensures { result ≡ intending.is_intention mode held }
{
    match mode {
        Mode::IS | Mode::SH => matches!(held, Some(Mode::IS | Mode::IX | Mode::UD)),
        Mode::IX | Mode::SIX | Mode::EX | Mode::UD => matches!(held, Some(Mode::IX | Mode::SIX)),
    }
}

// Passes the granules above the target one by one, and asks for it behind them.
fn go_down(
    table: &mut LockTable,
    txn: TxnId,
    target: &Granule,
    mode: Mode,
    on_conflict: OnConflict,
) -> Result<Acquired, Fault>
    requires { is_waiting txn table.old.requests ≡ false }
    ensures { walks.HasOutcome table.old (walks.walk on_conflict txn target.now mode table.old.limit (reverse (path target.now)) table.old.requests) result table.new }
{
    let ended = match target {
        Granule::Volume => None,
        Granule::Store(_) => pass(table, txn, mode, &Granule::Volume, on_conflict),
        Granule::Page(page) => pass_store(table, txn, mode, page.store, on_conflict),
        Granule::Record(id) => pass_page(table, txn, mode, id.page, on_conflict),
    };
    match ended {
        Some(answer) => answer,
        None => ask(table, txn, target, mode, on_conflict),
    }
}

// Passes a page and those above it, from the root down, or ends the walk at one of them with an answer.
fn pass_page(
    table: &mut LockTable,
    txn: TxnId,
    mode: Mode,
    page: PageId,
    on_conflict: OnConflict,
) -> Option<Result<Acquired, Fault>>
    requires { is_waiting txn table.old.requests ≡ false }
    ensures walk { (target : Granule) → AreApart target (reverse (path (Granule.Page page))) → MatchOption result
        (PassesAll on_conflict txn target mode (reverse (path (Granule.Page page))) table.old table.new)
        (EndsAmong on_conflict txn target mode (reverse (path (Granule.Page page))) table.old table.new) }
    ensures quiet { IfNone result (is_waiting txn table.new.requests ≡ false) }
{
    match pass_store(table, txn, mode, page.store, on_conflict) {
        None => pass(table, txn, mode, &Granule::Page(page), on_conflict),
        ended => ended,
    }
}

// .. a store and the volume.
fn pass_store(
    table: &mut LockTable,
    txn: TxnId,
    mode: Mode,
    store: StoreId,
    on_conflict: OnConflict,
) -> Option<Result<Acquired, Fault>>
    requires { is_waiting txn table.old.requests ≡ false }
    ensures walk { (target : Granule) → AreApart target (reverse (path (Granule.Store store))) → MatchOption result
        (PassesAll on_conflict txn target mode (reverse (path (Granule.Store store))) table.old table.new)
        (EndsAmong on_conflict txn target mode (reverse (path (Granule.Store store))) table.old table.new) }
    ensures quiet { IfNone result (is_waiting txn table.new.requests ≡ false) }
{
    match pass(table, txn, mode, &Granule::Volume, on_conflict) {
        None => pass(table, txn, mode, &Granule::Store(store), on_conflict),
        ended => ended,
    }
}

// .. one granule above the target.
pub(crate) fn pass(
    table: &mut LockTable,
    txn: TxnId,
    mode: Mode,
    granule: &Granule,
    on_conflict: OnConflict,
) -> Option<Result<Acquired, Fault>>
    requires { is_waiting txn table.old.requests ≡ false }
    ensures walk { (target : Granule) → same_granule granule.now target ≡ false → MatchOption result
        (Passes on_conflict txn target mode granule.now table.old table.new)
        (EndsAt on_conflict txn target mode granule.now table.old table.new) }
    ensures quiet { IfNone result (is_waiting txn table.new.requests ≡ false) }
{
    let asked = match need_of(table, txn, mode, granule) {
        Need::Nothing => return Some(Ok(Acquired::Done)),
        Need::Held => return None,
        Need::Asking(asked) => asked,
    };
    let acquired = ask(table, txn, granule, asked, on_conflict);
    if is_done(&acquired) {
        None
    } else {
        Some(acquired)
    }
}

/// What an acquire needs at an ancestor of its target.
#[derive(Drop)]
enum Need {
    /// Nothing here or further down: what is held of this ancestor covers it all.
    Nothing,
    /// Nothing here: as much is held of this ancestor.
    Held,
    /// This mode.
    Asking(Mode),
}

// What is needed at an ancestor of a granule that is asked for in a mode. The target itself is asked for without a look, as mostly nothing is held of it.
fn need_of(table: &LockTable, txn: TxnId, mode: Mode, granule: &Granule) -> Need
    ensures { (target : Granule) → same_granule granule.now target ≡ false → IsNeeded txn target mode granule.now table.now.requests result }
{
    let asked = parent_mode(mode);
    match table.held(txn, *granule) {
        Some(held) if covers(held, mode) => Need::Nothing,
        Some(held) if is_at_most(asked, held) => Need::Held,
        _ => Need::Asking(asked),
    }
}

// Asks for one granule. Done: it is held.
pub(crate) fn ask(
    table: &mut LockTable,
    txn: TxnId,
    granule: &Granule,
    mode: Mode,
    on_conflict: OnConflict,
) -> Result<Acquired, Fault>
    requires { is_waiting txn table.old.requests ≡ false }
    ensures answer { result ≡ walks.answer_at on_conflict table.old txn granule.now mode }
    ensures table { table.new ≡ record { limit = table.old.limit; requests = walks.after_at on_conflict table.old txn granule.now mode } }
    ensures quiet { result ≡ Ok Acquired.Done → is_waiting txn table.new.requests ≡ false }
{
    // For the proof: the requests of any table are orderly. Nothing runs.
    tables_are_orderly(table);
    match on_conflict {
        OnConflict::Wait => {
            let requested = table.request(txn, *granule, mode);
            of_request(*granule, requested)
        }
        OnConflict::Refuse => {
            let tried = table.try_request(txn, *granule, mode);
            of_try(tried)
        }
    }
}

fn of_request(granule: Granule, requested: Requested) -> Result<Acquired, Fault>
    ensures { result ≡ walks.of_request granule requested }
{
    match requested {
        Requested::Granted => Ok(Acquired::Done),
        Requested::Waiting => Ok(Acquired::Waiting(granule)),
        Requested::Full => Err(Fault::LockTableFull),
    }
}

fn of_try(tried: Tried) -> Result<Acquired, Fault>
    ensures { result ≡ walks.of_try tried }
{
    match tried {
        Tried::Granted => Ok(Acquired::Done),
        Tried::Blocked(holder) => Err(Fault::WouldBlock { holder }),
        Tried::Full => Err(Fault::LockTableFull),
    }
}

pub(crate) fn is_done(acquired: &Result<Acquired, Fault>) -> bool
    ensures { IsTrue result ↔ (acquired.now ≡ Ok Acquired.Done) }
{
    matches!(acquired, Ok(Acquired::Done))
}
