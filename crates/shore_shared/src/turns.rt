//! What turns of the workers do with the values under the locks, which are lent to them: of a function that takes a lock no clause can say it.
ghost use Rattle.std.specs.Prelude.{◌≡◌, ◌≢◌, ◌⊎◌, ◌↔◌, ◌≤◌, ◌<◌, ◌+◌, [], ◌∷◌, ◌++◌, Err, IfErr, IfOk, IsTrue, List, OnErr, OnOk, false, length, true};
ghost use Rattle.shore_disk.specs.Cause.{HasCause};
ghost use Rattle.shore_dwrite.specs.Syncs.{syncs_of};
ghost use Rattle.shore_heap.specs.Heaps.{history_of, honesty_of};
ghost use Rattle.shore_core.specs.Cores.{has_failed, heap_of, last_of};
ghost use Rattle.shore_core.specs.Flushing.{FlushSteps, TurnAnswers};
ghost use Rattle.shore_core.specs.Replies.{InEach};
ghost use Rattle.shore_model.specs.declared.log_records.LogRecord.{LogRecord};
ghost use Rattle.shore_held.specs.Logs.{HasNoPlace};
ghost use Rattle.shore_held.specs.Trails.{GoesOn};
ghost use Rattle.shore_held.specs.declared.asked.Asked.TheVariants as Asked;
ghost use Rattle.shore_types.specs.declared.faults.Fault.TheVariants as Fault;

use crate::gate::{Gate, Place, Role};
use crate::shared::Shared;
use shore_core::Step;
use shore_disk::Disk;
use shore_held::{CoreHeld, LogHeld, Named, checkpoint};
use shore_log::Tail;
use shore_queue::{Numbers, QueueTail};
use shore_types::{Fault, Lsn};
use shore_words::Words;
use std::alloc::Global;
use std::sync::Wait;

// The most pushes behind the first that a turn of the log writer takes in before it forces.
const MOST_TAKEN: u64 = 65_535;

// A checkpoint begins once so many records were appended since the last one began.
const RECORDS_BETWEEN: u64 = 1_000;

// What is queued goes to the log device: one push, and up to so many more. It ends with these, or where none is left: then all came that the log device knows to be sent. `Memory` if an allocation failed: nothing is lost.
pub(crate) fn take_all<N: Numbers, B: Named, L: Disk>(
    rt: &impl Wait,
    held: &mut LogHeld<N, B, L>,
    most: u64,
) -> Result<(), Fault>
    ensures same { (held.new.anchors ≡ held.old.anchors) × (held.new.cut ≡ held.old.cut) × (held.new.stable ≡ held.old.stable) × (held.new.told ≡ held.old.told) × (held.new.failed ≡ held.old.failed)
        × (held.new.history ≡ held.old.history) × (held.new.met ≡ held.old.met) × (held.new.staged ≡ held.old.staged) × (held.new.free ≡ held.old.free) × (held.new.faults ≡ held.old.faults) }
    ensures more { length held.old.got ≤ length held.new.got }
    ensures texts { OnOk result (held.new.textless ≡ 0) × (held.old.textless ≡ 0 → held.new.textless ≡ 0) }
    ensures all { OnOk result (((rest : List LogRecord) × (held.new.got ≡ held.old.met ++ rest)) ⊎ (length held.old.got + most < length held.new.got)) }
    // Nothing that came through the queue waits for memory then.
    ensures taken { OnOk result (held.new.waits ≡ []) }
    ensures refused { IfErr result (λ fault. fault ≡ Fault.Memory) }
{
    for count in 0..most {
        if !held.take_one(rt)? {
            return Ok(());
        }
    }
    held.take_one(rt)?;
    Ok(())
}

impl<N: Numbers, B: Named, T: Tail, L: Disk, V: Disk> Shared<N, B, T, L, V> {
    // A turn of the log writer: one frame is forced, and by the same sync the next one is staged; then it is told how far the log is durable. The answer is whether there is news, and
    // whether there was memory for all that came through the queue.
    pub(crate) fn write_held(
        &self,
        rt: &impl Wait,
        alloc: Global,
        gate: &impl Gate,
        held: &mut LogHeld<N, B, L>,
    ) -> Result<(bool, bool), Fault>
        ensures told { OnOk result (held.new.told ≡ held.new.cut + length held.new.stable) }
        ensures cut { held.new.cut ≡ held.old.cut }
        ensures news { IfOk result (λ r. IsTrue r.0 ↔ (length held.old.stable < length held.new.stable)) }
        ensures none { IfOk result (λ r. r.0 ≡ false → (held.new.stable ≡ held.old.stable) × (held.new.staged ≡ 0) × (held.new.list ≡ held.new.stable ++ held.new.waits)) }
        // Where what waits came through the queue the next frame is staged by the same sync, if there is one, and place for it.
        ensures goes_on { held.old.textless ≡ 0 → 0 < held.old.staged → IfOk result (λ r. held.new.staged ≡ 0 → (held.new.list ≡ held.new.stable ++ held.new.waits) ⊎ HasNoPlace held.new) }
        ensures taken { IfOk result (λ r. IsTrue r.1 → held.new.waits ≡ []) }
        // All that the log device knows to be sent is taken in, or as much as one turn takes.
        ensures all { IfOk result (λ r. IsTrue r.1 → ((rest : List LogRecord) × (held.new.got ≡ held.old.met ++ rest)) ⊎ (length held.old.got + 65535 < length held.new.got)) }
        ensures unforced { OnErr result ((held.new.stable ≡ held.old.stable) × (held.new.told ≡ held.old.told)) }
        // Where it is refused no frame stays staged, unless the device has failed.
        ensures rests { IfErr result (λ fault. (fault ≡ Fault.Device) ⊎ (held.new.staged ≡ 0)) }
        ensures others { IfErr result (λ fault. (fault ≡ Fault.Device) ⊎ (fault ≡ Fault.Memory) ⊎ (fault ≡ Fault.LogFull)) }
        ensures full { result ≡ Err Fault.LogFull → HasNoPlace held.new }
        ensures idle { held.old.textless ≡ 0 → result ≢ Err Fault.Memory }
        ensures cause { held.old.failed ≡ false → HasCause result held.old.faults held.new.faults }
        ensures breaks { IfErr result (λ fault. IsTrue held.new.failed ↔ (fault ≡ Fault.Device)) }
    {
        let (forced, taken) = self.force_held(rt, alloc, gate, held)?;
        held.tell(&self.words);
        Ok((forced, taken))
    }

    // What is queued is taken in, and one frame is forced: the one that is staged, or one that is staged now.
    fn force_held(
        &self,
        rt: &impl Wait,
        alloc: Global,
        gate: &impl Gate,
        held: &mut LogHeld<N, B, L>,
    ) -> Result<(bool, bool), Fault>
        ensures same { (held.new.cut ≡ held.old.cut) × (held.new.told ≡ held.old.told) }
        ensures news { IfOk result (λ r. IsTrue r.0 ↔ (length held.old.stable < length held.new.stable)) }
        ensures none { IfOk result (λ r. r.0 ≡ false → (held.new.stable ≡ held.old.stable) × (held.new.staged ≡ 0) × (held.new.list ≡ held.new.stable ++ held.new.waits)) }
        ensures goes_on { held.old.textless ≡ 0 → 0 < held.old.staged → IfOk result (λ r. held.new.staged ≡ 0 → (held.new.list ≡ held.new.stable ++ held.new.waits) ⊎ HasNoPlace held.new) }
        ensures taken { IfOk result (λ r. IsTrue r.1 → held.new.waits ≡ []) }
        ensures all { IfOk result (λ r. IsTrue r.1 → ((rest : List LogRecord) × (held.new.got ≡ held.old.met ++ rest)) ⊎ (length held.old.got + 65535 < length held.new.got)) }
        ensures unforced { OnErr result (held.new.stable ≡ held.old.stable) }
        ensures rests { IfErr result (λ fault. (fault ≡ Fault.Device) ⊎ (held.new.staged ≡ 0)) }
        ensures others { IfErr result (λ fault. (fault ≡ Fault.Device) ⊎ (fault ≡ Fault.Memory) ⊎ (fault ≡ Fault.LogFull)) }
        ensures full { result ≡ Err Fault.LogFull → HasNoPlace held.new }
        ensures idle { held.old.textless ≡ 0 → result ≢ Err Fault.Memory }
        ensures cause { held.old.failed ≡ false → HasCause result held.old.faults held.new.faults }
        ensures breaks { IfErr result (λ fault. IsTrue held.new.failed ↔ (fault ≡ Fault.Device)) }
    {
        if !held.is_staged() {
            let (staged, taken) = self.stage_held(rt, alloc, gate, held)?;
            if !staged {
                return Ok((false, taken));
            }
        }
        let (asking, taken) = self.take_queued(rt, gate, held);
        held.open_and_stage(alloc)?;
        self.count_forced(asking, held.is_staged());
        Ok((true, taken))
    }

    // The last turn of the log writer: the frame that is staged is opened, and none is staged after it. The answer is whether there was one, which is news.
    pub(crate) fn open_held(
        &self,
        gate: &impl Gate,
        held: &mut LogHeld<N, B, L>,
    ) -> Result<bool, Fault>
        ensures told { IfOk result (λ r. IsTrue r → held.new.told ≡ held.new.cut + length held.new.stable) }
        ensures cut { held.new.cut ≡ held.old.cut }
        ensures news { IfOk result (λ r. IsTrue r ↔ (length held.old.stable < length held.new.stable)) }
        ensures rests { OnOk result (held.new.staged ≡ 0) }
        ensures unforced { OnErr result ((held.new.stable ≡ held.old.stable) × (held.new.told ≡ held.old.told)) }
        ensures only_device { IfErr result (λ fault. fault ≡ Fault.Device) }
        ensures cause { held.old.failed ≡ false → HasCause result held.old.faults held.new.faults }
    {
        if !held.is_staged() {
            return Ok(false);
        }
        gate.pass(Place::Sync(Role::LogWriter));
        let opened = held.open()?;
        held.tell(&self.words);
        Ok(opened)
    }

    // Where no frame is staged: what is queued is taken in, and what one frame holds is staged. The answer is whether a frame is, and whether there was memory.
    fn stage_held(
        &self,
        rt: &impl Wait,
        alloc: Global,
        gate: &impl Gate,
        held: &mut LogHeld<N, B, L>,
    ) -> Result<(bool, bool), Fault>
        requires { held.old.staged ≡ 0 }
        ensures same { (held.new.cut ≡ held.old.cut) × (held.new.stable ≡ held.old.stable) × (held.new.told ≡ held.old.told) × (held.new.met ≡ held.old.met) }
        ensures more { length held.old.got ≤ length held.new.got }
        ensures none { IfOk result (λ r. r.0 ≡ false → (held.new.staged ≡ 0) × (held.new.list ≡ held.new.stable ++ held.new.waits)) }
        ensures staged { IfOk result (λ r. IsTrue r.0 → 0 < held.new.staged) }
        ensures taken { IfOk result (λ r. IsTrue r.1 → held.new.waits ≡ []) }
        ensures all { IfOk result (λ r. IsTrue r.1 → ((rest : List LogRecord) × (held.new.got ≡ held.old.met ++ rest)) ⊎ (length held.old.got + 65535 < length held.new.got)) }
        ensures rests { IfErr result (λ fault. (fault ≡ Fault.Device) ⊎ (held.new.staged ≡ 0)) }
        ensures others { IfErr result (λ fault. (fault ≡ Fault.Device) ⊎ (fault ≡ Fault.Memory) ⊎ (fault ≡ Fault.LogFull)) }
        ensures full { result ≡ Err Fault.LogFull → HasNoPlace held.new }
        ensures idle { held.old.textless ≡ 0 → result ≢ Err Fault.Memory }
        ensures cause { held.old.failed ≡ false → HasCause result held.old.faults held.new.faults }
        ensures broken { OnOk result (held.new.failed ≡ held.old.failed) }
        ensures breaks { IfErr result (λ fault. IsTrue held.new.failed ↔ (fault ≡ Fault.Device)) }
    {
        let (asking, taken) = self.take_queued(rt, gate, held);
        let staged = held.stage(alloc)?;
        self.count_forced(asking, staged);
        Ok((staged, taken))
    }

    // Before a sync: what is queued is taken in. The answer is how many sessions wait for it, and whether there was memory for all that came through the queue.
    fn take_queued(
        &self,
        rt: &impl Wait,
        gate: &impl Gate,
        held: &mut LogHeld<N, B, L>,
    ) -> (u64, bool)
        ensures same { (held.new.cut ≡ held.old.cut) × (held.new.stable ≡ held.old.stable) × (held.new.staged ≡ held.old.staged) × (held.new.told ≡ held.old.told) × (held.new.met ≡ held.old.met)
            × (held.new.failed ≡ held.old.failed) × (held.new.faults ≡ held.old.faults) }
        ensures more { length held.old.got ≤ length held.new.got }
        ensures taken { IsTrue result.1 → held.new.waits ≡ [] }
        ensures all { IsTrue result.1 → ((rest : List LogRecord) × (held.new.got ≡ held.old.met ++ rest)) ⊎ (length held.old.got + 65535 < length held.new.got) }
        ensures texts { held.old.textless ≡ 0 → held.new.textless ≡ 0 }
    {
        let asking = self.take_asking();
        let taken = take_all(rt, held, MOST_TAKEN).is_ok();
        gate.pass(Place::Sync(Role::LogWriter));
        (asking, taken)
    }

    // The log device has failed: the core refuses calls from now on, who waits for the log finds it, and who waits for a lock goes on to be told.
    pub(crate) fn fail_held(&self, core: &mut CoreHeld<B, T, V>)
        ensures fails { IsTrue (has_failed core.new.core) }
        ensures told { core.new.book.failing ≡ true }
    {
        core.fail(&self.words);
        self.end_waits_for_room();
        self.wake_let_through(core);
    }
}

// One turn of a flush of the core, which makes one sync at most, with what the core has seen. The answer is what it came to, and whether all that is logged was durable.
pub(crate) fn flush_held<B: Named, T: Tail, V: Disk>(
    seen: Lsn,
    core: &mut CoreHeld<B, T, V>,
) -> (Step, bool)
    ensures turns { TurnAnswers core.old.core result.0 core.new.core }
    ensures syncs { IsTrue (honesty_of (heap_of core.old.core)) → syncs_of (history_of (heap_of core.new.core)) ≤ syncs_of (history_of (heap_of core.old.core)) + 1 }
    ensures step { InEach (λ front disk before s store. FlushSteps result.0 core.new.core front before s store) core.old.core }
    ensures durable { IsTrue result.1 ↔ (last_of core.old.core ≤ seen) }
{
    let durable = core.last() <= seen;
    let step = core.flush_on();
    (step, durable)
}

// Whether a checkpoint is due: so many records were appended since the last one began.
pub(crate) fn is_due<B: Named, T: Tail, V: Disk>(core: &CoreHeld<B, T, V>, begun: Lsn) -> bool
    ensures { IsTrue result ↔ (begun + 1000 ≤ last_of core.now.core) }
{
    core.last().0.saturating_sub(begun.0) >= RECORDS_BETWEEN
}

// The next step of a checkpoint, the begin of one if none is under way; with whether the log device has failed by now.
pub(crate) fn checkpoint_held<N: Numbers, B: Named, R: Wait + Copy, L: Disk, V: Disk>(
    alloc: Global,
    words: &Words,
    core: &mut CoreHeld<B, QueueTail<N, B, R>, V>,
    held: &mut LogHeld<N, B, L>,
) -> (Step, bool)
    requires { (words.now.table.shared.table_id ≡ B.table) × (4 < B.table.words) }
    ensures noted { held.old.failed ≡ false → GoesOn (core.old.asked.items, core.old.stepped.items) (core.new.asked.items, core.new.stepped.items) ((Asked.Checkpoint, 0) ∷ []) ((result.0, 0) ∷ []) }
    ensures failed { result.1 ≡ held.new.failed }
{
    let step = checkpoint(alloc, words, core, held);
    let failed = held.has_failed();
    (step, failed)
}

// Whether it says that the device has failed.
pub(crate) fn is_device(fault: &Fault) -> bool
    ensures { IsTrue result ↔ (fault.now ≡ Fault.Device) }
{
    matches!(fault, Fault::Device)
}
