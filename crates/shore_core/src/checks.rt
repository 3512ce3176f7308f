//! What a call is refused with before its locks, and which lock it asks for.
ghost use Rattle.std.specs.Prelude.{◌≡◌, IfErr, IsSome, IsTrue, OnOk, option_map};
ghost use Rattle.shore_types.specs.Layout.{HasGranule, HasPage, HasSlot, HasStore};
ghost use Rattle.shore_types.specs.Locking.{level_of};
ghost use Rattle.shore_types.specs.declared.faults.Fault.TheVariants as Fault;
ghost use Rattle.shore_types.specs.declared.locking.Granule.TheVariants as Granule;
ghost use Rattle.shore_model.specs.Modes.{is_allowed};
ghost use Rattle.laws_locks.specs.CallLocks as held;
ghost use Rattle.laws_calls.specs.CallSteps.{IsTooLong, MayAsk, RefusesEarly, RefusesGranule, RefusesId, RefusesLock, on_conflict_of};
ghost use Rattle.laws_calls.specs.StateChanges.{IsShort};
ghost use Rattle.shore_core.specs.declared.checks.Asked.{Asked};

use shore_model::Call;
use shore_modes::allowed;
use shore_path::OnConflict;
use shore_types::{Bytes, Fault, Geometry, Granule, Mode, PageId, Rid, StoreId};

/// What a call asks of the lock table: a granule in a mode.
#[derive(Clone, Copy)]
pub(crate) struct Asked {
    /// What is to be locked.
    pub granule: Granule,
    /// How: the intentions above it follow from this.
    pub mode: Mode,
}

/// What refuses a call before it asks for its locks.
pub(crate) fn check(geometry: &Geometry, call: &Call) -> Result<(), Fault>
    ensures may { IsSome (held.lock_asked_by call.now) → OnOk result (MayAsk geometry.now call.now) }
    ensures refused { IfErr result (RefusesEarly geometry.now call.now) }
{
    match call {
        Call::Get(id) | Call::GetForUpdate(id) | Call::Delete(id) => check_record(geometry, id),
        Call::Insert(store, bytes) => {
            check_bytes(geometry, bytes)?;
            check_store(geometry, *store)
        }
        Call::Update(id, bytes) => {
            check_bytes(geometry, bytes)?;
            check_record(geometry, id)
        }
        Call::Scan(store) => check_store(geometry, *store),
        Call::Lock(granule, mode) | Call::TryLock(granule, mode) => check_lock(
            geometry, granule, *mode,
        ),
        // These ask for no lock.
        Call::Begin
        | Call::Savepoint
        | Call::BackTo(_)
        | Call::Commit
        | Call::Abort
        | Call::Prepare(_)
        | Call::Resolve(..)
        | Call::InDoubt => Ok(()),
    }
}

fn check_bytes(geometry: &Geometry, bytes: &Bytes) -> Result<(), Fault>
    ensures short { OnOk result (IsShort geometry.now.version bytes.now) }
    ensures long { IfErr result (IsTooLong geometry.now.version bytes.now) }
{
    if bytes.as_slice().len() > geometry.version.record_limit() {
        return Err(Fault::TooLong);
    }
    Ok(())
}

fn check_store(geometry: &Geometry, store: StoreId) -> Result<(), Fault>
    ensures there { OnOk result (HasStore geometry.now store) }
    ensures none { IfErr result (λ f. (f ≡ Fault.NoStore) × ¬ HasStore geometry.now store) }
{
    if !geometry.has_store(store) {
        return Err(Fault::NoStore);
    }
    Ok(())
}

// The store has to be there, and then the page.
fn check_page(geometry: &Geometry, page: PageId) -> Result<(), Fault>
    ensures there { OnOk result (HasPage geometry.now page) }
    ensures none { IfErr result (RefusesGranule geometry.now (Granule.Page page)) }
{
    check_store(geometry, page.store)?;
    if !geometry.has_page(page) {
        return Err(Fault::NoPage);
    }
    Ok(())
}

// .. and then the slot's number among those that a page may have.
fn check_record(geometry: &Geometry, id: &Rid) -> Result<(), Fault>
    ensures there { OnOk result (HasSlot geometry.now id.now) }
    ensures none { IfErr result (RefusesId geometry.now id.now) }
{
    check_page(geometry, id.page)?;
    if id.slot >= geometry.version.slot_limit() {
        return Err(Fault::NoRecord);
    }
    Ok(())
}

fn check_lock(geometry: &Geometry, granule: &Granule, mode: Mode) -> Result<(), Fault>
    ensures may { OnOk result (IsTrue (is_allowed (level_of granule.now) mode) × HasGranule geometry.now granule.now) }
    ensures refused { IfErr result (RefusesLock geometry.now granule.now mode) }
{
    if !allowed(granule.level(), mode) {
        return Err(Fault::BadMode);
    }
    check_granule(geometry, granule)
}

fn check_granule(geometry: &Geometry, granule: &Granule) -> Result<(), Fault>
    ensures there { OnOk result (HasGranule geometry.now granule.now) }
    ensures none { IfErr result (RefusesGranule geometry.now granule.now) }
{
    match granule {
        Granule::Volume => Ok(()),
        Granule::Store(store) => check_store(geometry, *store),
        Granule::Page(page) => check_page(geometry, *page),
        Granule::Record(id) => check_record(geometry, id),
    }
}

/// The lock that a call asks for before it looks at a record.
pub(crate) fn asked_by(call: &Call) -> Option<Asked>
    ensures { option_map (λ (it : Asked). record { granule = it.granule; mode = it.mode }) result ≡ held.lock_asked_by call.now }
{
    let (granule, mode) = match call {
        Call::Get(id) => (Granule::Record(*id), Mode::SH),
        Call::GetForUpdate(id) => (Granule::Record(*id), Mode::UD),
        Call::Insert(store, _) => (Granule::Store(*store), Mode::IX),
        Call::Update(id, _) | Call::Delete(id) => (Granule::Record(*id), Mode::EX),
        Call::Scan(store) => (Granule::Store(*store), Mode::SH),
        Call::Lock(granule, mode) | Call::TryLock(granule, mode) => (*granule, *mode),
        Call::Begin
        | Call::Savepoint
        | Call::BackTo(_)
        | Call::Commit
        | Call::Abort
        | Call::Prepare(_)
        | Call::Resolve(..)
        | Call::InDoubt => return None,
    };
    Some(Asked { granule, mode })
}

/// A try never waits.
pub(crate) fn on_conflict(call: &Call) -> OnConflict
    ensures { result ≡ on_conflict_of call.now }
{
    match call {
        Call::TryLock(..) => OnConflict::Refuse,
        Call::Get(_)
        | Call::GetForUpdate(_)
        | Call::Insert(..)
        | Call::Update(..)
        | Call::Delete(_)
        | Call::Scan(_)
        | Call::Lock(..)
        | Call::Begin
        | Call::Savepoint
        | Call::BackTo(_)
        | Call::Commit
        | Call::Abort
        | Call::Prepare(_)
        | Call::Resolve(..)
        | Call::InDoubt => OnConflict::Wait,
    }
}
