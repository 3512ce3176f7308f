//! The world: a core over its log device and its volume, one event at a time.
ghost use Rattle.std.specs.List.Sorted.{IsPermutation, IsSorted};
ghost use Rattle.std.specs.Prelude.{◌≡◌, ◌≢◌, ◌⊎◌, ◌+◌, ◌-◌, ◌≤◌, ◌++◌, ℕ, List, [], ◌∷◌, All, IsTrue, IfOk, IfErr, IsErrAnd, MatchResult, OnOk, OnErr, Err, None, false, length};
ghost use Rattle.shore_types.specs.Layout.{HasStore};
ghost use Rattle.shore_types.specs.declared.layout.TheConstants.{LOG_FRONT_BYTES};
ghost use Rattle.shore_locks.specs.Listing.{request_cmp};
ghost use Rattle.shore_disk.specs.Device.{size, seen, may_leave};
ghost use Rattle.shore_disk.specs.Cause.{HasCause};
ghost use Rattle.shore_disk.specs.Fuse.{fuse_inner};
ghost use Rattle.shore_disk.specs.AnyDisk.{any_history, is_in_memory};
ghost use Rattle.shore_disk.specs.Memory.{picked_after};
ghost use Rattle.shore_core.specs.Checkpointing.{KeepsFor};
ghost use Rattle.shore_log.specs.Settled.{IsSpelled, KnowsRoom, anchor_of, cut_of_log, records_of_log, stable};
ghost use Rattle.laws_calls.specs.StateChanges.{IsPageFault, with_failure};
ghost use Rattle.laws_calls.specs.States.{State};
ghost use Rattle.laws_checkpoints.specs.CheckpointedStores.{CheckpointedStore};
ghost use Rattle.shore_core.specs.Cores.{IsSafe, durable_of, first_of, heap_of, told_of, txns_of, waiting_of};
ghost use Rattle.shore_txn.specs.Transactions.{room_in};
ghost use Rattle.shore_world.specs.Events.{IsServedEvent, ReadBy};

use crate::Event;
use crate::opening::{fault_of, open_volume};
use shore_check::Stage;
use shore_core::{Core, Step};
use shore_disk::{AnyDisk, Disk, FuseDisk, Pick};
use shore_fronts::{Fronts, read_fronts};
use shore_log::{LogDev, LogRecord, PlainTail};
use shore_model::{Answer, Request};
use shore_restart::{Report, restart};
use shore_types::{Fault, Geometry, Lsn, Pairs, StoreId};
use std::alloc::{AllocError, Global};

/// A manager over its log device and its volume.
#[derive(Drop)]
pub struct World<L: Disk, V: Disk> {
    // The calls of the sessions, their transactions and locks, the pages, and the log buffer.
    pub(crate) core: Core<PlainTail, V>,
    // The log device, with all records but those in the log buffer.
    pub(crate) log: LogDev<L>,
    // How far a checkpoint has come.
    pub(crate) stage: Stage,
    // What the restart did that opened it.
    pub(crate) report: Report,
    ghost numbers: { first_of core ≡ cut_of_log log + 1 + length (records_of_log log) },
    ghost durable_agrees: { durable_of core ≡ cut_of_log log + length (stable log) },
    // The sums of the log count the bytes of its stream.
    ghost ring: { (room_in (txns_of core)).stream_bytes + LOG_FRONT_BYTES ≡ size (L.Disk.history log.device) },
    // A force takes no memory: the log buffer knows what the log device has room for, and brings what is lacking.
    ghost knows: { KnowsRoom log (told_of core) },
    ghost spelled: { IsSpelled log },
    // Nor does a checkpoint that has begun: there is room aside for all that it still has to log.
    ghost aside: { KeepsFor stage (told_of core) },
}

impl<L: Disk, V: Disk> World<L, V> {
    ghost use Rattle.shore_world.specs.Worlds.{IsAt, IsDumpOf, IsInState, IsOverStore, EventMovesWorld, HasForced, HasStaged, HasFailedToRead, IsLike, IsUnchanged, Steps, Runs, HasForceRoom, IsIdle, anchor_in, anchors_in, cut_in, durable_in, failed_in, frames_in, geometry_in, last_in, list_in, report_in, requests_in, stream_bytes_in, unforced_in, fault_in, log_in, volume_in};
    ghost use Rattle.shore_world.specs.Opens.{OpensAlong};
    ghost use Rattle.shore_frames.specs.Frames.{GivesFrom};
    ghost use Rattle.shore_gate.specs.declared.anchors.Anchor.{Anchor};
    ghost use Rattle.shore_gate.specs.declared.anchors.Anchors.{Anchors};
    ghost use Rattle.shore_restart.specs.Reports.{IsReportOf};
    ghost use Rattle.shore_restart.specs.Room.{LeavesRoom};
    ghost use Rattle.shore_world.specs.InOrder.{WereInOrder};
    ghost use Rattle.shore_world.specs.Refusals.{RefusesOpen};
    ghost use Rattle.shore_restart.specs.Missing.{missing_on};
    ghost use Rattle.laws_images.specs.StandsBehind.{StandsForBehind};
    ghost use Rattle.shore_fronts.specs.Barriers.{IsBeforeBarrier};
    ghost use Rattle.shore_fronts.specs.Causes.{HasCauseOfPair};
    ghost use Rattle.shore_fronts.specs.Pairs.{HaveFronts};
    ghost use Rattle.shore_gate.specs.Checks.{IsFromOutside};
    ghost use Rattle.laws_lives.specs.Pages.{LoggedPages};
    ghost use Rattle.shore_model.specs.declared.log_records.LogRecord.{LogRecord};
    ghost use Rattle.shore_types.specs.declared.layout.Geometry.{Geometry};
    ghost use Rattle.shore_types.specs.declared.layout.TheConstants.{MAX_POOL_FRAMES, MIN_POOL_FRAMES};
    ghost use Rattle.shore_core.specs.Replies.{Earns, Fails, NeedsForce, SameVolume, fault_at};
    ghost use Rattle.shore_world.specs.EventMoves.{all_moves};
    ghost use Rattle.shore_core.specs.Cores.{volume_of};

    /// Opens the manager of a formatted pair: a barrier on both devices, the labels, that they are of one pair, the anchors, the frames of the log, the
    /// double-write area, and then a restart: those in doubt get their locks back, the records of the log that pages lack are redone, the losers are undone by records of their own, and these
    /// are forced. There are so many frames for pages. Refused by `NotFormatted`, `WrongVersion`, `WrongPair` or `Damaged` with the device and the
    /// offset if the pair is not in order, by `Device` if one failed, by `Memory` if an allocation failed. The devices are handed back, and may be
    /// opened again: what was made durable until then stays, and the next open goes on with it.
    pub fn open(
        alloc: Global,
        mut log: L,
        mut volume: V,
        frames: usize,
    ) -> Result<World<L, V>, (Fault, L, V)>
        requires some { MIN_POOL_FRAMES ≤ frames }
        requires most { frames ≤ MAX_POOL_FRAMES }

        // Its geometry is that of the labels, and its log is read behind the anchor that counts.
        ensures fronts { IsTrue (L.is_honest log) → IsTrue (V.is_honest volume) → IfOk result (λ w. HaveFronts (geometry_in w) (anchors_in w) (L.history log) (V.history volume)) }
        ensures geometry { IsTrue (L.is_honest log) → IsTrue (V.is_honest volume) → (g : Geometry) (counting : Anchors) → HaveFronts g counting (L.history log) (V.history volume)
            → IfOk result (λ w. (geometry_in w ≡ g) × (anchors_in w ≡ counting)) }

        // If what is read of the devices stands behind an anchor for a log and pages, it passes both barriers and makes its way by steps of a restart, at each moment of
        // which a crash leaves what may be opened again; the world at its end has all records done and no loser.
        ensures along { IsTrue (L.is_honest log) → IsTrue (V.is_honest volume) → (g : Geometry) (anchor : Anchor) (rs : List LogRecord) (pages : LoggedPages)
            → StandsForBehind g (size (L.history log)) (size (V.history volume)) anchor rs pages (seen (L.history log)) (seen (V.history volume))
            → OpensAlong result g anchor (L.history log) (V.history volume) rs pages }

        // It tells what its restart did with the records that the frames give.
        ensures report { IsTrue (L.is_honest log) → IfOk result (λ w. (kept : List LogRecord) → GivesFrom (anchor_in w).tail (anchor_in w).tail_place kept (seen (L.history log))
            → IsReportOf ((anchor_in w).tail - 1) (anchor_in w).checkpoint kept (report_in w)) }
        // .. of which so many were missing on the pages.
        ensures redone { IsTrue (L.is_honest log) → IsTrue (V.is_honest volume) → (g : Geometry) (anchor : Anchor) (rs : List LogRecord) (pages : LoggedPages)
            → StandsForBehind g (size (L.history log)) (size (V.history volume)) anchor rs pages (seen (L.history log)) (seen (V.history volume))
            → IfOk result (λ w. (report_in w).redone ≡ missing_on rs pages) }
        ensures frames { IfOk result (λ w. frames_in w ≡ frames) }

        // What is opened was in order, whatever its pages hold, and the log leaves room in its stream, and numbers, beside what those in doubt have reserved.
        ensures in_order { IsTrue (L.is_honest log) → IsTrue (V.is_honest volume)
            → IfOk result (λ w. WereInOrder (geometry_in w) (anchor_in w) (L.history log) (V.history volume) (list_in w)) }
        ensures room { IfOk result (λ w. LeavesRoom (cut_in w) (list_in w) (stream_bytes_in w)) }

        // What is refused goes by the checks in their order. What stands for a log and pages is opened, unless a device or an allocation fails.
        ensures refused { IsTrue (L.is_honest log) → IsTrue (V.is_honest volume)
            → IfErr result (λ e. IsFromOutside e.0 ⊎ RefusesOpen (L.history log) (V.history volume) (L.history e.1) e.0) }
        ensures stands { IsTrue (L.is_honest log) → IsTrue (V.is_honest volume) → (g : Geometry) (anchor : Anchor) (rs : List LogRecord) (pages : LoggedPages)
            → StandsForBehind g (size (L.history log)) (size (V.history volume)) anchor rs pages (seen (L.history log)) (seen (V.history volume))
            → IfErr result (λ e. IsFromOutside e.0) }

        // Where no label and anchor of one pair stand, nothing is changed: a crash leaves of both devices what it could have left before.
        ensures kept { IsTrue (L.is_honest log) → IsTrue (V.is_honest volume) → ((g : Geometry) (counting : Anchors) → HaveFronts g counting (L.history log) (V.history volume) → ⊥)
            → IfErr result (λ e. IsBeforeBarrier (L.history log) (L.history e.1) × IsBeforeBarrier (V.history volume) (V.history e.2)) }

        ensures honest { (L.is_honest (log_in result) ≡ L.is_honest log) × (V.is_honest (volume_in result) ≡ V.is_honest volume) }
        ensures size { (size (L.history (log_in result)) ≡ size (L.history log)) × (size (V.history (volume_in result)) ≡ size (V.history volume)) }
        ensures cause { HasCauseOfPair (fault_in result) (L.faults log) (L.faults (log_in result)) (V.faults volume) (V.faults (volume_in result)) }
    {
        // Four parts are opened, and each refusal hands back both devices, of which all clauses speak: so its proof keeps more steps than others do.
        let fronts = match read_fronts(alloc, &mut log, &mut volume) {
            Ok(fronts) => fronts,
            Err(fault) => return Err((fault, log, volume)),
        };
        let anchors = fronts.anchors;
        let checkpoint = fronts.anchors.anchor.checkpoint;
        let of_pages = fronts.of_pages;
        let mut log = match LogDev::open(alloc, log, anchors) {
            Ok(log) => log,
            Err((fault, log)) => return Err((fault, log, volume)),
        };
        let heap = match open_volume(alloc, volume, of_pages, frames) {
            Ok(heap) => heap,
            Err((fault, volume)) => return Err((fault, log.into_device(), volume)),
        };
        match restart(alloc, &mut log, heap, checkpoint) {
            Ok((mut core, report)) => {
                core.learn_room(&log);
                Ok(World {
                    core,
                    log,
                    stage: Stage::Resting,
                    report,
                })
            }
            Err((error, heap)) => {
                let fault = fault_of(error, &log);
                let volume = heap.into_device().into_device();
                Err((fault, log.into_device(), volume))
            }
        }
    }

    /// Hands the devices back.
    pub fn into_devices(self) -> (L, V)
        ensures { (result.0 ≡ self.log.device) × (result.1 ≡ volume_of self.core) }
    {
        (
            self.log.into_device(),
            self.core.into_volume().into_device(),
        )
    }

    /// What the restart did that opened it.
    pub fn report(&self) -> Report
        ensures { result ≡ report_in self.now }
    {
        self.report
    }

    /// How the volume is laid out.
    pub fn geometry(&self) -> &Geometry
        ensures { result.now ≡ geometry_in self.now }
    {
        self.core.geometry()
    }

    /// The records in place of a store, decided or not, in place order. No locks are taken. Its pages are read if they are in no frame, so it
    /// may be refused by `Device`, `Damaged` and `Memory`, and by `NeedForce(n)` if a page needs a frame that is free once the log is forced up to
    /// number n; and by `NoStore` and, once a device has failed, by `Failed`.
    pub fn dump(&mut self, alloc: Global, store: StoreId) -> Result<Pairs, Fault>
        ensures shown { IfOk result (λ pairs. IsDumpOf self.old store pairs) }

        // An answer by `Device` or `Damaged` is the failure of a running manager, and changes nothing else; any other changes nothing that a call or
        // a crash could tell. So runs before and behind a dump join.
        ensures like { ¬ IsErrAnd result Fails → IsLike self.old self.new }
        ensures fails { IsErrAnd result Fails → HasFailedToRead self.old self.new }
        ensures damaged { Earns self.old.core (λ page. page.store ≡ store) result }
        ensures forced { NeedsForce self.old.core result }
        ensures failed { IsTrue (failed_in self.old) → IfErr result (λ fault. fault ≡ Fault.Failed) }
        ensures served { IfOk result (λ _. HasStore (geometry_in self.old) store) }
        ensures refused { (front : List ℕ) (disk : ℕ → List ℕ) (s : State) (kept : CheckpointedStore) → IsInState self.old front disk s → IsSafe (geometry_in self.old) s
            → IsOverStore self.old disk s kept → IfErr result (λ fault. (IsTrue (failed_in self.old) × (fault ≡ Fault.Failed))
            ⊎ ((fault ≡ Fault.NoStore) × ¬ HasStore (geometry_in self.old) store) ⊎ (fault ≡ Fault.Memory) ⊎ IsPageFault s fault) }
        ensures volume { SameVolume self.old.core self.new.core }
        ensures list { list_in self.new ≡ list_in self.old }
        ensures durable { durable_in self.new ≡ durable_in self.old }
        ensures log { self.new.log ≡ self.old.log }
        ensures cause { HasCause result (V.faults (volume_of self.old.core)) (V.faults (volume_of self.new.core)) }
    {
        self.core.dump(alloc, store)
    }

    /// The durable records of the log from the oldest kept number on, which are read from the log device: so it may be refused by `Device`, `Damaged` and
    /// `Memory`. Nothing else changes.
    pub fn durable_records(&mut self, alloc: Global) -> Result<Vec<LogRecord>, Fault>
        ensures found { (log_front front : List ℕ) (disk : ℕ → List ℕ) (s : State) (store : CheckpointedStore) → IsAt self.old log_front front disk s store → failed_in self.old ≡ false
            → IfOk result (λ records. records.items ≡ stable self.old.log) }
        ensures undamaged { (log_front front : List ℕ) (disk : ℕ → List ℕ) (s : State) (store : CheckpointedStore) → IsAt self.old log_front front disk s store → failed_in self.old ≡ false
            → IfErr result (λ fault. (fault ≡ Fault.Device) ⊎ (fault ≡ Fault.Memory)) }
        ensures list { list_in self.new ≡ list_in self.old }
        ensures durable { durable_in self.new ≡ durable_in self.old }
        ensures core { self.new.core ≡ self.old.core }

        // Whatever it answers, runs before and behind it join.
        ensures like { IsTrue (L.is_honest self.old.log.device) → IsLike self.old self.new }
        ensures cause { HasCause result (L.faults self.old.log.device) (L.faults self.new.log.device) }
    {
        self.log.read_from(alloc)
    }

    /// The number of the oldest record that is kept, or of the next one where none is.
    pub fn tail(&self) -> Lsn
        ensures { result ≡ cut_in self.now + 1 }
    {
        Lsn(self.log.cut_off() + 1)
    }

    /// Copies of the records that are not durable.
    pub fn waiting(&self, alloc: Global) -> Result<Vec<LogRecord>, AllocError>
        ensures { IfOk result (λ records. records.items ≡ unforced_in self.now) }
    {
        let mut records = self.log.waiting(alloc)?;
        records.append(&mut self.core.waiting(alloc)?)?;
        Ok(records)
    }

    /// The number of the last record, 0 if there is none.
    pub fn last(&self) -> Lsn
        ensures { result ≡ last_in self.now }
    {
        Lsn(self.core.next().0 - 1)
    }

    /// The number of the last durable record, 0 if there is none.
    pub fn durable(&self) -> Lsn
        ensures { result ≡ durable_in self.now }
    {
        self.core.durable()
    }

    /// A device has failed, or a page was damaged: every call answers `Failed` until the devices are opened again.
    pub fn has_failed(&self) -> bool
        ensures { result ≡ failed_in self.now }
    {
        self.core.has_failed()
    }

    /// All requests of the lock table, granted or waiting, by granule and then by transaction.
    pub fn nodes(&self, alloc: Global) -> Result<Vec<Request>, AllocError>
        ensures all { IfOk result (λ all. IsPermutation (requests_in self.now) all.items) }
        ensures order { IfOk result (λ all. IsSorted request_cmp all.items) }
    {
        self.core.nodes(alloc)
    }

    /// One event. A refusal has changed nothing but locks that were taken, a wait that was taken back, and transactions that a call doomed as victims before it was refused; a rollback
    /// that is refused has put some changes back at most; except for
    /// `Device` and `Damaged`: after them every call is refused by `Failed` or `Memory`, and so is each call that waits, once. An ask is always answered.
    pub fn step(&mut self, alloc: Global, event: Event) -> Step
        requires { IsServedEvent event }
        ensures { Steps self.old event result self.new }
    {
        match event {
            Event::Call(session, call) => self.core.call(alloc, session, call),
            Event::Resume(session) => self.core.resume(alloc, session),
            Event::GiveUp(session) => self.core.give_up(session),
            Event::Ask(ticket) => self.core.ask(ticket),
            Event::ForceStage => self.force_stage(alloc),
            Event::ForceOpen => self.force_open(),
            Event::FlushStep => self.core.flush_step(),
            Event::CheckpointStep => self.checkpoint_step(alloc),
            Event::CutTrail => self.core.cut_trail(),
        }
    }

    fn force_stage(&mut self, alloc: Global) -> Step
        ensures moves { EventMovesWorld self.old Event.ForceStage result self.new }
        ensures staged { (n : ℕ) → result ≡ Step.Done (Answer.Staged n) → HasStaged self.old self.new n }
        ensures volume { heap_of self.new.core ≡ heap_of self.old.core }
        ensures anchors { anchors_in self.new ≡ anchors_in self.old }
        ensures report { report_in self.new ≡ report_in self.old }
        ensures idle { result ≡ Step.Nothing → IsIdle self.old }
        ensures quiet { result ≡ Step.Nothing → IsUnchanged self.old self.new }
        ensures full { result ≡ Step.Refused Fault.LogFull → ¬ HasForceRoom self.old }
        ensures no_memory { result ≢ Step.Refused Fault.Memory }
        ensures damaged { Earns self.old.core (ReadBy self.old.core Event.ForceStage) (fault_at result) }
        ensures unforced { NeedsForce self.old.core (fault_at result) }
        ensures cause { HasCause (fault_at result) (L.faults self.old.log.device) (L.faults self.new.log.device) }
    {
        if self.core.has_failed() {
            return Step::Refused(Fault::Failed);
        }
        if self.log.is_staged() {
            return Step::Nothing;
        }
        self.core.hand_over(&mut self.log);
        match self.log.stage(alloc) {
            Ok(Some(number)) => Step::Done(Answer::Staged(number)),
            Ok(None) => Step::Nothing,
            Err(fault) => self.refuse(fault),
        }
    }

    fn force_open(&mut self) -> Step
        ensures moves { EventMovesWorld self.old Event.ForceOpen result self.new }
        ensures forced { (n : ℕ) → result ≡ Step.Done (Answer.Forced n) → HasForced self.old self.new n }
        ensures volume { heap_of self.new.core ≡ heap_of self.old.core }
        ensures anchors { anchors_in self.new ≡ anchors_in self.old }
        ensures report { report_in self.new ≡ report_in self.old }
        ensures shut { result ≡ Step.Nothing → self.old.log.staged ≡ None }
        ensures quiet { result ≡ Step.Nothing → IsUnchanged self.old self.new }
        ensures no_memory { result ≢ Step.Refused Fault.Memory }
        ensures damaged { Earns self.old.core (ReadBy self.old.core Event.ForceOpen) (fault_at result) }
        ensures unforced { NeedsForce self.old.core (fault_at result) }
        ensures cause { HasCause (fault_at result) (L.faults self.old.log.device) (L.faults self.new.log.device) }
    {
        if self.core.has_failed() {
            return Step::Refused(Fault::Failed);
        }
        let opened = match self.log.open_staged() {
            Ok(opened) => opened,
            Err(fault) => return self.refuse(fault),
        };
        let Some(durable) = opened else {
            return Step::Nothing;
        };
        let number = durable.number();
        self.core.told(number);
        self.core.learn_left(&self.log);
        Step::Done(Answer::Forced(number))
    }

    // After a failure of the log device every call is refused.
    pub(crate) fn refuse(&mut self, fault: Fault) -> Step
        ensures refused { result ≡ Step.Refused fault }
        ensures failed { fault ≡ Fault.Device → IsTrue (failed_in self.new) }
        ensures state { fault ≡ Fault.Device → (front : List ℕ) (disk : ℕ → List ℕ) (s : State) (store : CheckpointedStore) → IsInState self.old front disk s
            → IsSafe (geometry_in self.old) s → IsOverStore self.old disk s store → IsInState self.new front disk (with_failure s) × IsOverStore self.new disk (with_failure s) store }
        ensures other { fault ≢ Fault.Device → self.new ≡ self.old }
        ensures list { list_in self.new ≡ list_in self.old }
        ensures durable { durable_in self.new ≡ durable_in self.old }
        ensures heap { heap_of self.new.core ≡ heap_of self.old.core }
        ensures log { self.new.log ≡ self.old.log }
        ensures stage { self.new.stage ≡ self.old.stage }
        ensures report { report_in self.new ≡ report_in self.old }
    {
        if matches!(fault, Fault::Device) {
            self.core.fail();
        }
        Step::Refused(fault)
    }

    /// The events, one step each. `Memory` if the room for the answers could not be allocated, and then no event was made.
    pub fn run(&mut self, alloc: Global, events: &[Event], out: &mut Vec<Step>) -> Result<(), Fault>
        requires { All IsServedEvent events.now }
        ensures runs { OnOk result ((steps : List Step) × (out.new.items ≡ out.old.items ++ steps) × Runs self.old events.now steps (all_moves events.now steps) self.new) }
        ensures none { OnErr result ((out.new.items ≡ out.old.items) × (self.new ≡ self.old)) }
        ensures only_memory { IfErr result (λ fault. fault ≡ Fault.Memory) }
    {
        out.reserve(events.len())?;
        for event in events {
            let step = self.step_of(alloc, event);
            out.push_reserved(step);
        }
        Ok(())
    }

    // One event, which is copied. If that fails the answer is `Memory`, and nothing has changed.
    fn step_of(&mut self, alloc: Global, event: &Event) -> Step
        requires { IsServedEvent event.now }
        ensures { Steps self.old event.now result self.new }
    {
        match event.try_clone(alloc) {
            Ok(event) => self.step(alloc, event),
            Err(_) => Step::Refused(Fault::Memory),
        }
    }
}

impl<L: Disk, V: Disk> World<FuseDisk<L>, V> {
    ghost use Rattle.shore_disk.specs.Fuse.{fuse_calls, fuse_refused};
    ghost use Rattle.shore_world.specs.Worlds.{IsLike};

    /// Lets so many more writes and syncs of the log device pass; then every call of it fails.
    pub fn set_log_fuse(&mut self, calls: u64)
        ensures calls { fuse_calls self.new.log.device ≡ calls }
        ensures core { self.new.core ≡ self.old.core }
        ensures inner { fuse_inner self.new.log.device ≡ fuse_inner self.old.log.device }
        ensures refused { fuse_refused self.new.log.device ≡ fuse_refused self.old.log.device }
        ensures like { IsLike self.old self.new }
    {
        self.log.set_fuse(calls);
    }
}

impl<L: Disk, V: Disk> World<L, FuseDisk<V>> {
    ghost use Rattle.shore_disk.specs.Fuse.{fuse_calls};
    ghost use Rattle.shore_core.specs.Cores.{volume_of};
    ghost use Rattle.shore_world.specs.Worlds.{IsLike, volume_history_in};

    /// Lets so many more writes and syncs of the volume pass; then every call of it fails.
    pub fn set_volume_fuse(&mut self, calls: u64)
        ensures calls { fuse_calls (volume_of self.new.core) ≡ calls }
        ensures volume { volume_history_in self.new ≡ volume_history_in self.old }
        ensures inner { fuse_inner (volume_of self.new.core) ≡ fuse_inner (volume_of self.old.core) }
        ensures log { self.new.log ≡ self.old.log }
        ensures like { IsLike self.old self.new }
    {
        self.core.set_volume_fuse(calls);
    }
}

impl World<FuseDisk<AnyDisk>, FuseDisk<AnyDisk>> {
    ghost use Rattle.shore_core.specs.Cores.{volume_of};
    ghost use Rattle.shore_world.specs.Crashes.{AreLeft};
    ghost use Rattle.shore_world.specs.Worlds.{history_in, volume_history_in};

    /// A loss of power: what is in memory is lost with the fuses, and of the writes since its last sync each device in memory keeps what is picked.
    /// A device over a file is handed back as it is.
    pub fn lose_power(self, pick: Pick) -> (AnyDisk, AnyDisk)
        ensures log { IsTrue (is_in_memory (fuse_inner self.log.device))
            → any_history result.0 ≡ record { first = picked_after pick (history_in self).first (history_in self).calls; calls = [] } }
        ensures volume { IsTrue (is_in_memory (fuse_inner (volume_of self.core)))
            → any_history result.1 ≡ record { first = picked_after pick (volume_history_in self).first (volume_history_in self).calls; calls = [] } }
        ensures left { IsTrue (is_in_memory (fuse_inner self.log.device)) → IsTrue (is_in_memory (fuse_inner (volume_of self.core)))
            → AreLeft self (seen (any_history result.0)) (seen (any_history result.1)) }
        ensures stable { IsTrue (is_in_memory (fuse_inner self.log.device)) → IsTrue (is_in_memory (fuse_inner (volume_of self.core)))
            → ((c : List ℕ) → may_leave (any_history result.0) c → c ≡ seen (any_history result.0))
            × ((c : List ℕ) → may_leave (any_history result.1) c → c ≡ seen (any_history result.1)) }
        ensures size { (size (any_history result.0) ≡ size (history_in self)) × (size (any_history result.1) ≡ size (volume_history_in self)) }
        ensures memory { (is_in_memory result.0 ≡ is_in_memory (fuse_inner self.log.device)) × (is_in_memory result.1 ≡ is_in_memory (fuse_inner (volume_of self.core))) }
        ensures files { (¬ IsTrue (is_in_memory (fuse_inner self.log.device)) → result.0 ≡ fuse_inner self.log.device)
            × (¬ IsTrue (is_in_memory (fuse_inner (volume_of self.core))) → result.1 ≡ fuse_inner (volume_of self.core)) }
    {
        let (log, volume) = self.into_devices();
        (crashed(log, pick), crashed(volume, pick))
    }
}

/// What a loss of power leaves of a device, with no fuse.
pub fn crashed(device: FuseDisk<AnyDisk>, pick: Pick) -> AnyDisk
    ensures picked { IsTrue (is_in_memory (fuse_inner device)) → any_history result
        ≡ record { first = picked_after pick (any_history (fuse_inner device)).first (any_history (fuse_inner device)).calls; calls = [] } }
    ensures left { IsTrue (is_in_memory (fuse_inner device)) → may_leave (any_history (fuse_inner device)) (any_history result).first }
    ensures size { size (any_history result) ≡ size (any_history (fuse_inner device)) }
    ensures memory { is_in_memory result ≡ is_in_memory (fuse_inner device) }
    ensures file { ¬ IsTrue (is_in_memory (fuse_inner device)) → result ≡ fuse_inner device }
{
    let mut disk = device.into_inner();
    disk.crash(pick);
    disk
}
