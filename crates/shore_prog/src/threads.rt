//! Threads that count a record up together, each with a session of its own: the world is a manager for threads meanwhile.
ghost use Rattle.std.specs.Prelude.{◌≡◌, ◌≢◌, ◌⊎◌, ◌↔◌, ◌≤◌, ℕ, List, Err, IfErr, IfOk, IfSome, IsTrue, OnOk, Some, false, length, slice_get};
ghost use Rattle.shore_types.specs.Layout.{HasPage, HasSlot, HasStore};
ghost use Rattle.shore_types.specs.Versions.{slot_limit};
ghost use Rattle.shore_types.specs.declared.faults.Fault.TheVariants as Fault;
ghost use Rattle.shore_world.specs.Counts.{transactions_in};
ghost use Rattle.shore_world.specs.Worlds.{failed_in};
ghost use Rattle.shore_shared.specs.Remains.{IfDevices, IfWorld};
ghost use Rattle.shore_prog.specs.Counting.{HasBytesAt};
ghost use Rattle.shore_prog.specs.Served.{HasCounted, MayBeOpened};

use crate::crew::CountUp;
use crate::devices::ScriptDisk;
use crate::manager::ScriptWorld;
use shore_script::Counting;
use shore_shared::{Left as LeftOf, serve};
use shore_types::{Fault, Geometry, Pairs, Rid};
use std::alloc::Global;
use std::sync::Wait;
use std::thread::Threads;
use std::time::Clock;

/// What is left of a world behind the threads.
pub type Left = LeftOf<ScriptDisk, ScriptDisk>;

/// How many bytes a record has that is counted up.
const NUMBER_BYTES: usize = 8;

/// Whether the record may be counted up: it has the bytes of a number. `Failed`; `NotQuiet` while a transaction is in the table, or a resolve waits; and as a get of the
/// record is refused: `NoStore`, `NoPage` and `NoRecord`, and as its page, and no other, has to be read: `Device`, `Damaged`, `Memory` and `NeedForce`.
pub fn has_number(alloc: Global, world: &mut ScriptWorld, id: &Rid) -> Result<bool, Fault>
    ensures quiet { IfOk result (λ _. (failed_in world.old ≡ false) × (transactions_in world.old ≡ 0)) }
    ensures busy { failed_in world.old ≡ false → transactions_in world.old ≢ 0 → result ≡ Err Fault.NotQuiet }
    ensures number { IfOk result (λ has. (n : ℕ) × HasBytesAt world.old id.now n × (IsTrue has ↔ (n ≡ NUMBER_BYTES))) }
{
    if world.has_failed() {
        return Err(Fault::Failed);
    }
    if world.transactions() > 0 {
        return Err(Fault::NotQuiet);
    }
    check_record(world.geometry(), id)?;
    let mut pairs = Pairs::new(alloc);
    // A part of no records at least is the first page's, whatever it has.
    world.dump_part(alloc, id.page, 0, &mut pairs)?;
    match length_in(&pairs, id) {
        Some(bytes) => Ok(is_number(bytes)),
        None => Err(Fault::NoRecord),
    }
}

// Whether so many bytes are a number.
fn is_number(bytes: usize) -> bool
    ensures { IsTrue result ↔ (bytes ≡ NUMBER_BYTES) }
{
    bytes == NUMBER_BYTES
}

// How many bytes the record has, if it is among these.
fn length_in(pairs: &Pairs, id: &Rid) -> Option<usize>
    ensures { IfSome result (λ n. (at : ℕ) × (bytes : List ℕ) × (slice_get pairs.now at ≡ Some (id.now, bytes)) × (length bytes ≡ n)) }
{
    for at in 0..pairs.len() {
        if let Some((found, bytes)) = pairs.get(at)
            && found == *id
        {
            return Some(bytes.len());
        }
    }
    None
}

// That the volume may have the record; else it is refused as a get of it is, with no page read.
fn check_record(geometry: &Geometry, id: &Rid) -> Result<(), Fault>
    ensures there { OnOk result (HasSlot geometry.now id.now) }
    ensures lacks { IfErr result (λ f. ((f ≡ Fault.NoStore) × ¬ HasStore geometry.now id.now.page.store) ⊎ ((f ≡ Fault.NoPage) × HasStore geometry.now id.now.page.store × ¬ HasPage geometry.now id.now.page)
        ⊎ ((f ≡ Fault.NoRecord) × HasPage geometry.now id.now.page × (slot_limit geometry.now.version ≤ id.now.slot))) }
{
    if !geometry.has_store(id.page.store) {
        return Err(Fault::NoStore);
    }
    if !geometry.has_page(id.page) {
        return Err(Fault::NoPage);
    }
    if id.slot >= geometry.version.slot_limit() {
        return Err(Fault::NoRecord);
    }
    Ok(())
}

/// The threads, each with all its transactions. Refused by the fault of the lowest thread that was refused, by `Memory` if one could not be started.
pub fn count_up<R: Threads + Wait + Clock + Sync + Send + Copy>(
    rt: R,
    alloc: Global,
    world: ScriptWorld,
    counting: Counting,
) -> (Left, Result<(), Fault>)
    ensures world { IfWorld result.0 (HasCounted world counting result.1) }
    ensures devices { IfDevices result.0 (MayBeOpened world counting result.1) }
{
    let threads = counting.threads;
    let (left, served) = serve(rt, alloc, world, threads, &[CountUp { counting }]);
    match served {
        Ok(_) => (left, Ok(())),
        Err(fault) => (left, Err(fault)),
    }
}
