//! Locks of a transaction that is to write records of a store: what it has of the volume and of the store is asked for once.
ghost use Rattle.std.specs.Prelude.{◌≡◌, ◌≢◌, ◌↔◌, IfErr, IsTrue, Ok, false};
ghost use Rattle.shore_locks.specs.Tables.{is_waiting};
ghost use Rattle.shore_path.specs.Acquires.{IsReached, MayRefuse};
ghost use Rattle.shore_path.specs.Intending as intending;
ghost use Rattle.shore_path.specs.Intending.{CoversRecords, IntendsToWrite};
ghost use Rattle.shore_path.specs.Judging.{CanLockNow};
ghost use Rattle.shore_path.specs.Walks as walks;
ghost use Rattle.shore_path.specs.declared.answers.OnConflict.TheVariants.{Refuse};

use crate::answers::{Acquired, OnConflict};
use crate::judging::is_covered;
use crate::walk::{ask, has_page, is_intention, pass};
use shore_locks::LockTable;
use shore_locks::laws::tables_are_orderly;
use shore_types::{Fault, Granule, Mode, PageId, Rid, StoreId, TxnId};

/// What a transaction has of the volume and of a store, when it is to write a record there.
#[derive(Clone, Copy)]
pub enum WayToWrite {
    /// One of the two covers the records: nothing more is asked for.
    Covered,
    /// Both are held with the intention to write, and neither covers the records: the page and the record are asked for.
    Intended,
    /// All of the path is asked for.
    Unknown,
}

/// How a transaction comes to write a record of a store, by the locks that it holds above pages.
pub fn way_to_write(table: &LockTable, txn: TxnId, store: StoreId) -> WayToWrite
    ensures covered { (result ≡ WayToWrite.Covered) ↔ CoversRecords table.now.requests txn store }
    ensures intended { (result ≡ WayToWrite.Intended) ↔ IntendsToWrite table.now.requests txn store }
{
    let volume = table.held(txn, Granule::Volume);
    if is_covered(Mode::EX, volume) {
        return WayToWrite::Covered;
    }
    if !is_intention(Mode::EX, volume) {
        return WayToWrite::Unknown;
    }
    way_below(table.held(txn, Granule::Store(store)))
}

// How a store lets records be written, by what is held of it, if the volume is held with the intention.
fn way_below(store: Option<Mode>) -> WayToWrite
    ensures covered { (result ≡ WayToWrite.Covered) ↔ IsTrue (walks.is_covered Mode.EX store) }
    ensures intended { (result ≡ WayToWrite.Intended) ↔ IsTrue (intending.is_intention Mode.EX store) }
{
    if is_covered(Mode::EX, store) {
        return WayToWrite::Covered;
    }
    if is_intention(Mode::EX, store) {
        return WayToWrite::Intended;
    }
    WayToWrite::Unknown
}

/// As `may_lock`, for a page in IX of a store whose records the transaction intends to write. Only of the page a request is looked for.
pub fn may_lock_in_store(table: &LockTable, txn: TxnId, page: &PageId) -> bool
    requires { IntendsToWrite table.now.requests txn page.now.store }
    ensures { IsTrue result ↔ CanLockNow table.now.requests txn (Granule.Page page.now) Mode.IX }
{
    // For the proof: the requests of any table are orderly. Nothing runs.
    tables_are_orderly(table);
    let page = &Granule::Page(*page);
    let held = table.held(txn, *page);
    table.in_the_way(txn, *page, held, Mode::IX).is_none()
}

/// As `acquire`, for a record in EX of a store whose records the transaction intends to write, if it may not wait. Of the page and of the record alone it
/// asks.
pub fn acquire_in_store(table: &mut LockTable, txn: TxnId, id: &Rid) -> Result<Acquired, Fault>
    requires quiet { is_waiting txn table.old.requests ≡ false }
    requires intends { IntendsToWrite table.old.requests txn id.now.page.store }
    ensures as_asked { walks.HasOutcome table.old (walks.acquired Refuse table.old txn (Granule.Record id.now) Mode.EX) result table.new }
    ensures done { result ≡ Ok Acquired.Done → IsReached table.new.requests txn (Granule.Record id.now) Mode.EX }
    ensures quiet { ((g : Granule) → result ≢ Ok (Acquired.Waiting g)) → is_waiting txn table.new.requests ≡ false }
    ensures refused { IfErr result (MayRefuse Refuse table.new txn (Granule.Record id.now) Mode.EX) }
{
    // For the proof: the requests of any table are orderly. Nothing runs.
    tables_are_orderly(table);
    walk_in_store(table, txn, id)
}

// Asks for the page, if it is not held with the intention, and for the record.
fn walk_in_store(table: &mut LockTable, txn: TxnId, id: &Rid) -> Result<Acquired, Fault>
    requires quiet { is_waiting txn table.old.requests ≡ false }
    requires intends { IntendsToWrite table.old.requests txn id.now.page.store }
    ensures { walks.HasOutcome table.old (walks.acquired Refuse table.old txn (Granule.Record id.now) Mode.EX) result table.new }
{
    if has_page(table, txn, Mode::EX, &id.page) {
        return lock_alone(table, txn, id);
    }
    let page = &Granule::Page(id.page);
    match pass(table, txn, Mode::EX, page, OnConflict::Refuse) {
        Some(answer) => answer,
        None => lock_alone(table, txn, id),
    }
}

// Asks for the record in EX, and may not wait.
fn lock_alone(table: &mut LockTable, txn: TxnId, id: &Rid) -> Result<Acquired, Fault>
    requires { is_waiting txn table.old.requests ≡ false }
    ensures answer { result ≡ walks.answer_at Refuse table.old txn (Granule.Record id.now) Mode.EX }
    ensures table { table.new ≡ record { limit = table.old.limit; requests = walks.after_at Refuse table.old txn (Granule.Record id.now) Mode.EX } }
{
    let record = &Granule::Record(*id);
    ask(table, txn, record, Mode::EX, OnConflict::Refuse)
}
