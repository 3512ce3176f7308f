//! Locks that an open gives back to those that hold them by the log.
ghost use Rattle.std.specs.Prelude.{◌≡◌, IfErr, OnOk};
ghost use Rattle.shore_types.specs.declared.locking.Granule.{Granule};
ghost use Rattle.shore_types.specs.declared.locking.Mode.TheVariants.{EX, IX};
ghost use Rattle.shore_model.specs.Locks.{ancestors, path};
ghost use Rattle.shore_path.specs.Restoring.{IsRefused, KeepsOthers, NobodyWaits, StopsAmong, TakesIntentions, TakesOne, TakesWhole};
ghost use Rattle.shore_path.specs.Walks.{asked_of};

use crate::answers::OnConflict;
use crate::walk::ask;
use shore_locks::LockTable;
use shore_locks::laws::tables_are_orderly;
use shore_types::{Fault, Granule, Mode, PageId, StoreId, TxnId};

/// Takes a granule in EX, after IX on each granule above it from the root down, also if a mode held above covers it: a Prepare lists each granule that was
/// held in EX, and each is held again. Nobody waits in the table, so that only a holder can be in the way.
///
/// Refused with WouldBlock if another transaction holds a granule of the path in a mode that does not grant the one wanted there, and with LockTableFull
/// if a granule of the path needs a node and none is left. Then the intentions above that granule are taken and stay.
pub fn restore(table: &mut LockTable, txn: TxnId, granule: &Granule) -> Result<(), Fault>
    requires { NobodyWaits table.old.requests }
    ensures ok { OnOk result (TakesWhole table.old.requests table.new.requests txn granule.now) }
    ensures err { IfErr result (StopsAmong table.old table.new txn (path granule.now) (asked_of granule.now EX)) }
    ensures keeps { KeepsOthers table.old table.new txn }
{
    intend_above(table, txn, granule)?;
    take(table, txn, granule, Mode::EX)
}

// Takes IX on each granule above one.
fn intend_above(table: &mut LockTable, txn: TxnId, granule: &Granule) -> Result<(), Fault>
    requires { NobodyWaits table.old.requests }
    ensures ok { OnOk result (TakesIntentions table.old.requests table.new.requests txn (ancestors granule.now)) }
    ensures err { IfErr result (StopsAmong table.old table.new txn (ancestors granule.now) (λ g. IX)) }
    ensures keeps { KeepsOthers table.old table.new txn }
{
    match granule {
        Granule::Volume => Ok(()),
        Granule::Store(_) => intend_volume(table, txn),
        Granule::Page(page) => intend_store(table, txn, page.store),
        Granule::Record(id) => intend_page(table, txn, id.page),
    }
}

// .. on a page and those above it.
fn intend_page(table: &mut LockTable, txn: TxnId, page: PageId) -> Result<(), Fault>
    requires { NobodyWaits table.old.requests }
    ensures ok { OnOk result (TakesIntentions table.old.requests table.new.requests txn (path (Granule.Page page))) }
    ensures err { IfErr result (StopsAmong table.old table.new txn (path (Granule.Page page)) (λ g. IX)) }
    ensures keeps { KeepsOthers table.old table.new txn }
{
    intend_store(table, txn, page.store)?;
    take(table, txn, &Granule::Page(page), Mode::IX)
}

// .. on a store and the volume.
fn intend_store(table: &mut LockTable, txn: TxnId, store: StoreId) -> Result<(), Fault>
    requires { NobodyWaits table.old.requests }
    ensures ok { OnOk result (TakesIntentions table.old.requests table.new.requests txn (path (Granule.Store store))) }
    ensures err { IfErr result (StopsAmong table.old table.new txn (path (Granule.Store store)) (λ g. IX)) }
    ensures keeps { KeepsOthers table.old table.new txn }
{
    intend_volume(table, txn)?;
    take(table, txn, &Granule::Store(store), Mode::IX)
}

// .. on the volume.
fn intend_volume(table: &mut LockTable, txn: TxnId) -> Result<(), Fault>
    requires { NobodyWaits table.old.requests }
    ensures ok { OnOk result (TakesIntentions table.old.requests table.new.requests txn (path Granule.Volume)) }
    ensures err { IfErr result (StopsAmong table.old table.new txn (path Granule.Volume) (λ g. IX)) }
    ensures keeps { KeepsOthers table.old table.new txn }
{
    take(table, txn, &Granule::Volume, Mode::IX)
}

// Takes one granule in a mode.
fn take(table: &mut LockTable, txn: TxnId, granule: &Granule, mode: Mode) -> Result<(), Fault>
    requires { NobodyWaits table.old.requests }
    ensures ok { OnOk result (TakesOne table.old table.new txn granule.now mode) }
    ensures err { IfErr result (λ fault. (table.new ≡ table.old) × IsRefused table.old txn granule.now mode fault) }
{
    // For the proof: the requests of any table are orderly. Nothing runs.
    tables_are_orderly(table);
    ask(table, txn, granule, mode, OnConflict::Refuse)?;
    Ok(())
}
