//! The steps of a checkpoint, between the calls of sessions.

ghost use Rattle.std.specs.Prelude.{◌≡◌, ◌≢◌, ◌⊎◌, ◌↔◌, ◌+◌, ◌<◌, ◌≤◌, ◌^◌, ◌++◌, ◌∷◌, [], ℕ, List, IfErr, IfOk, IsTrue, OnErr, OnOk, false, length};
ghost use Rattle.laws_checkpoints.specs.StoresInOrder.{IsInOrder};
ghost use Rattle.laws_checkpoints.specs.CheckpointedStores.{NoCheckpoint};
ghost use Rattle.shore_types.specs.declared.faults.Fault.TheVariants as Fault;
ghost use Rattle.shore_types.specs.declared.layout.TheConstants.{LAST_OPENED, LONGEST_FRAME};
ghost use Rattle.shore_model.specs.declared.calls.Answer.TheVariants as Answer;
ghost use Rattle.shore_model.specs.declared.log_records.LogRecord.{LogRecord};
ghost use Rattle.shore_model.specs.declared.step.Step.TheVariants as Step;
ghost use Rattle.shore_check.specs.declared.stage.Stage.TheVariants as Stage;
ghost use Rattle.shore_check.specs.declared.stage.Mark.{Mark};
ghost use Rattle.shore_check.specs.declared.stage.Named.{Named};
ghost use Rattle.shore_types.specs.declared.faults.Fault.{Fault};
ghost use Rattle.shore_core.specs.declared.checkpointing.CheckpointStep.TheVariants as CheckpointStep;
ghost use Rattle.shore_log.specs.Settled.{HoldsFrom};
ghost use Rattle.shore_log.specs.Told.{SaysAlike};
ghost use Rattle.laws_checkpoints.specs.Checkpoints.{Anchored, of_checkpoint};
ghost use Rattle.shore_core.specs.Checkpointing.{KeepsFor};
ghost use Rattle.shore_model.specs.declared.log_records.Payload.TheVariants.{CheckpointBegin};
ghost use Rattle.laws_runs.specs.CheckpointSteps.{IsNextAnchor, freed_to};
ghost use Rattle.shore_txn.specs.Transactions.{room_in};

use crate::core_calls::Core;
use shore_check::{ANCHOR_COST, Begun, Ended, Mark, Stage, Sums, begin, begin_record};
use shore_disk::Disk;
use shore_log::{LogDev, Tail};
use shore_logrec::encoded_len;
use shore_model::{Answer, Step};
use shore_types::layout::{ENDING_COST, LAST_OPENED, MAX_TRANSACTIONS};
use shore_types::{Fault, Lsn, TxnId};
use std::alloc::Global;
use std::mem;

/// What a step of a checkpoint comes to.
#[derive(Drop)]
pub enum CheckpointStep {
    /// It is made.
    Made(Step),
    /// The log device is to move its anchor there, and the core is told of it by `moved`.
    Move(Mark),
}

impl<T: Tail, V: Disk> Core<T, V> {
    ghost use Rattle.shore_core.specs.Cores.{durable_of, first_of, has_failed, heap_of, told_of, txns_of, waiting_of};
    ghost use Rattle.shore_core.specs.Checkpointing.{Begins, HasKept, IsFullFor, IsReady, IsRoomyFor, MakesStep, MayGoOn, MovesTo, StepsCheckpoint, sums_of, with_store};
    ghost use Rattle.shore_core.specs.Replies.{InEach};

    /// The next of the four steps of a checkpoint, which has come so far: its begin, with the tables as they are now; its End; its Anchor record, once the End is
    /// durable; and the move of the anchor, once that record is, which is left to the log device. `Nothing` as long as the number that it needs is not durable.
    /// `LogFull` at the begin alone. `Memory` if an allocation failed: nothing has changed. `Failed` after a failure of a device or a damaged page.
    pub fn checkpoint_step<D: Disk>(
        &mut self,
        alloc: Global,
        stage: &mut Stage,
        log: &LogDev<D>,
    ) -> CheckpointStep
        // It is a step of the manager with its checkpoints over plain data, in whatever state it was; or the log device is asked for the move, once that may be.
        ensures step { (tail place : ℕ) (groups : List (List LogRecord)) → HoldsFrom tail place log.now groups → InEach (λ front disk before s store.
            HasKept log.now (with_store s store) → MayGoOn stage.old (with_store s store) → StepsCheckpoint result stage.new self.new front disk before (with_store s store)) self.old }
        ensures failed { IsTrue (has_failed self.old) → (result ≡ CheckpointStep.Made (Step.Refused Fault.Failed)) × (self.new ≡ self.old) × (stage.new ≡ stage.old) }

        // A begin is `LogFull` just where the log has no room for the checkpoint, though all frames are counted as free that end before its cut point.
        ensures full { (tail place : ℕ) (groups : List (List LogRecord)) → HoldsFrom tail place log.now groups → InEach (λ front disk before s store.
            HasKept log.now (with_store s store) → MayGoOn stage.old (with_store s store) → result ≡ CheckpointStep.Made (Step.Refused Fault.LogFull) → IsFullFor tail groups (with_store s store)) self.old }
        ensures roomy { (tail place : ℕ) (groups : List (List LogRecord)) → HoldsFrom tail place log.now groups → InEach (λ front disk before s store.
            HasKept log.now (with_store s store) → MayGoOn stage.old (with_store s store) → (n : ℕ) → result ≡ CheckpointStep.Made (Step.Done (Answer.Begun n)) → IsRoomyFor tail groups (with_store s store)) self.old }

        // No page is touched, and no device is called.
        ensures heap { heap_of self.new ≡ heap_of self.old }
        ensures durable { durable_of self.new ≡ durable_of self.old }
        ensures first { first_of self.new ≡ first_of self.old }
        ensures told { SaysAlike (told_of self.new) (told_of self.old) }
        ensures aside { IsTrue T.keeps → KeepsFor stage.old (told_of self.old) → KeepsFor stage.new (told_of self.new) }
        ensures running { has_failed self.new ≡ has_failed self.old }
        ensures ring { (room_in (txns_of self.new)).stream_bytes ≡ (room_in (txns_of self.old)).stream_bytes }

        // What has nothing to do has changed nothing, and so has what asks for the move: that is the next step, and its Anchor record is durable. A refusal is no device's.
        ensures quiet { result ≡ CheckpointStep.Made Step.Nothing → (self.new ≡ self.old) × (stage.new ≡ stage.old) }
        ensures asked { (mark : Mark) → result ≡ CheckpointStep.Move mark → (self.new ≡ self.old) × (stage.new ≡ stage.old)
            × ((named : Named) × (stage.old ≡ Stage.Named named) × (named.mark ≡ mark) × (named.number ≤ durable_of self.old)) }
        ensures others { (f : Fault) → result ≡ CheckpointStep.Made (Step.Refused f) → (f ≡ Fault.Failed) ⊎ (f ≡ Fault.Memory) ⊎ (f ≡ Fault.LogFull) ⊎ (f ≡ Fault.TooManyTransactions) }
        ensures no_move { result ≢ CheckpointStep.Made (Step.Done Answer.Moved) }
        // A checkpoint that has begun is never refused memory: its begin took the room of its End and of its Anchor record. The move takes none.
        ensures idle { KeepsFor stage.old (told_of self.old) → stage.old ≢ Stage.Resting → result ≢ CheckpointStep.Made (Step.Refused Fault.Memory) }
        ensures asked_for { (named : Named) → stage.old ≡ Stage.Named named → (result ≡ CheckpointStep.Made Step.Nothing) ⊎ (result ≡ CheckpointStep.Made (Step.Refused Fault.Failed))
            ⊎ ((mark : Mark) × (result ≡ CheckpointStep.Move mark)) }
    {
        if self.failed {
            return CheckpointStep::Made(Step::Refused(Fault::Failed));
        }
        match mem::replace(stage, Stage::Resting) {
            Stage::Resting => CheckpointStep::Made(self.begin_checkpoint(alloc, stage, log)),
            Stage::Begun(begun) => CheckpointStep::Made(self.end_checkpoint(stage, begun)),
            Stage::Ended(ended) => CheckpointStep::Made(self.name_checkpoint(stage, ended)),
            Stage::Named(named) => {
                *stage = Stage::Named(named);
                match named.move_anchor(self.durable) {
                    Some(mark) => CheckpointStep::Move(mark),
                    None => CheckpointStep::Made(Step::Nothing),
                }
            }
        }
    }

    fn begin_checkpoint<D: Disk>(
        &mut self,
        alloc: Global,
        stage: &mut Stage,
        log: &LogDev<D>,
    ) -> Step
        requires { stage.old ≡ Stage.Resting }
        ensures step { has_failed self.old ≡ false → (tail place : ℕ) (groups : List (List LogRecord)) → HoldsFrom tail place log.now groups → InEach (λ front disk before s store.
            HasKept log.now (with_store s store) → MayGoOn Stage.Resting (with_store s store) → MakesStep result stage.new self.new front disk before (with_store s store)) self.old }
        ensures full { has_failed self.old ≡ false → (tail place : ℕ) (groups : List (List LogRecord)) → HoldsFrom tail place log.now groups → InEach (λ front disk before s store.
            HasKept log.now (with_store s store) → MayGoOn Stage.Resting (with_store s store) → result ≡ Step.Refused Fault.LogFull → IsFullFor tail groups (with_store s store)) self.old }
        ensures roomy { has_failed self.old ≡ false → (tail place : ℕ) (groups : List (List LogRecord)) → HoldsFrom tail place log.now groups → InEach (λ front disk before s store.
            HasKept log.now (with_store s store) → MayGoOn Stage.Resting (with_store s store) → (n : ℕ) → result ≡ Step.Done (Answer.Begun n) → IsRoomyFor tail groups (with_store s store)) self.old }
        ensures heap { heap_of self.new ≡ heap_of self.old }
        ensures durable { durable_of self.new ≡ durable_of self.old }
        ensures first { first_of self.new ≡ first_of self.old }
        ensures told { SaysAlike (told_of self.new) (told_of self.old) }
        ensures aside { IsTrue T.keeps → KeepsFor Stage.Resting (told_of self.old) → KeepsFor stage.new (told_of self.new) }
        ensures running { has_failed self.new ≡ has_failed self.old }
        ensures ring { (room_in (txns_of self.new)).stream_bytes ≡ (room_in (txns_of self.old)).stream_bytes }
        ensures busy { result ≢ Step.Nothing }
        ensures no_move { result ≢ Step.Done Answer.Moved }
        ensures others { (f : Fault) → result ≡ Step.Refused f → (f ≡ Fault.Memory) ⊎ (f ≡ Fault.LogFull) ⊎ (f ≡ Fault.TooManyTransactions) }
    {
        match self.try_begin(alloc, log) {
            Ok((number, begun)) => {
                *stage = Stage::Begun(begun);
                Step::Done(Answer::Begun(number))
            }
            Err(fault) => Step::Refused(fault),
        }
    }

    // The checkpoint that begins now, with both tables as they are.
    fn checkpoint_now(&self, alloc: Global) -> Result<Begun, Fault>
        ensures now { InEach (λ front disk before s store. s.failed ≡ false → IsInOrder store → store.stage ≡ NoCheckpoint → IfOk result (IsReady (with_store s store))) self.now }
        ensures refused { InEach (λ front disk before s store. IfErr result (λ f. f ≡ Fault.Memory)) self.now }
        ensures others { IfErr result (λ f. (f ≡ Fault.Memory) ⊎ (f ≡ Fault.TooManyTransactions)) }
    {
        let txns = self.control.log_table(alloc)?;
        // In any state there are no more.
        if txns.len() > MAX_TRANSACTIONS {
            return Err(Fault::TooManyTransactions);
        }
        let dirty = self.heap.dirty_pages(alloc)?;
        let next = TxnId(self.control.next());
        Ok(begin(self.tail.next(), next, txns, dirty))
    }

    // Its room in the log is asked for before its begin is logged.
    fn try_begin<D: Disk>(&mut self, alloc: Global, log: &LogDev<D>) -> Result<(Lsn, Begun), Fault>
        ensures begins { has_failed self.old ≡ false → (tail place : ℕ) (groups : List (List LogRecord)) → HoldsFrom tail place log.now groups → InEach (λ front disk before s store.
            HasKept log.now (with_store s store) → MayGoOn Stage.Resting (with_store s store) → Begins tail groups result self.new front disk before (with_store s store)) self.old }
        ensures heap { heap_of self.new ≡ heap_of self.old }
        ensures durable { durable_of self.new ≡ durable_of self.old }
        ensures first { first_of self.new ≡ first_of self.old }
        ensures told { SaysAlike (told_of self.new) (told_of self.old) }
        ensures aside { IsTrue T.keeps → IfOk result (λ b. KeepsFor (Stage.Begun b.1) (told_of self.new)) }
        ensures none_kept { OnErr result ((told_of self.new).aside ≡ (told_of self.old).aside) }
        ensures running { has_failed self.new ≡ has_failed self.old }
        ensures ring { (room_in (txns_of self.new)).stream_bytes ≡ (room_in (txns_of self.old)).stream_bytes }
        ensures refused { IfErr result (λ f. (f ≡ Fault.Memory) ⊎ (f ≡ Fault.LogFull) ⊎ (f ≡ Fault.TooManyTransactions)) }
    {
        let begun = self.checkpoint_now(alloc)?;
        let freed = log.cost_below(begun.mark().tail);
        if !self.sums().admits_checkpoint(begun.cost(), freed) {
            return Err(Fault::LogFull);
        }
        let number = match push_begin(&mut self.tail, &begun) {
            Ok(number) => number,
            Err(fault) => return Err(fault),
        };
        self.control.note_checkpoint(ENDING_COST);
        Ok((number, begun))
    }

    // The sums of the log, and the number of its last record.
    fn sums(&self) -> Sums
        ensures kept { result.kept ≡ (sums_of self.now).kept }
        ensures reserved { result.reserved ≡ (sums_of self.now).reserved }
        ensures stream { result.stream_bytes ≡ (sums_of self.now).stream_bytes }
        ensures last { result.last_lsn ≡ (sums_of self.now).last_lsn }
    {
        let room = self.control.room();
        Sums {
            stream_bytes: room.stream_bytes,
            kept: room.kept,
            reserved: room.reserved,
            last: Lsn(self.tail.next().0 - 1),
        }
    }

    // Whether a record of the checkpoint under way has its room, and a number. It was admitted at the begin, so it always has.
    fn holds(&self, cost: u64) -> bool
        ensures { IsTrue result ↔ ((((room_in (txns_of self.now)).kept + (room_in (txns_of self.now)).reserved + cost + LONGEST_FRAME) ≤ (room_in (txns_of self.now)).stream_bytes)
            × (first_of self.now + length (waiting_of self.now) + (room_in (txns_of self.now)).reserved < LAST_OPENED)) }
    {
        let room = self.control.room();
        room.holds(cost) && self.tail.next().0 + room.reserved < LAST_OPENED
    }

    fn end_checkpoint(&mut self, stage: &mut Stage, begun: Begun) -> Step
        ensures step { has_failed self.old ≡ false → InEach (λ front disk before s store. MayGoOn (Stage.Begun begun) (with_store s store)
            → MakesStep result stage.new self.new front disk before (with_store s store)) self.old }
        ensures heap { heap_of self.new ≡ heap_of self.old }
        ensures durable { durable_of self.new ≡ durable_of self.old }
        ensures first { first_of self.new ≡ first_of self.old }
        ensures told { SaysAlike (told_of self.new) (told_of self.old) }
        ensures idle { KeepsFor (Stage.Begun begun) (told_of self.old) → result ≢ Step.Refused Fault.Memory }
        ensures aside { KeepsFor (Stage.Begun begun) (told_of self.old) → KeepsFor stage.new (told_of self.new) }
        ensures running { has_failed self.new ≡ has_failed self.old }
        ensures ring { (room_in (txns_of self.new)).stream_bytes ≡ (room_in (txns_of self.old)).stream_bytes }
        ensures busy { result ≢ Step.Nothing }
        ensures no_move { result ≢ Step.Done Answer.Moved }
        ensures others { (f : Fault) → result ≡ Step.Refused f → (f ≡ Fault.Memory) ⊎ (f ≡ Fault.LogFull) }
    {
        let (end, ending) = begun.end();
        let cost = ending.cost();
        if !self.holds(cost) {
            *stage = Stage::Begun(ending.refused(end));
            return Step::Refused(Fault::LogFull);
        }
        match self.tail.push_kept(&end) {
            Ok(number) => {
                self.control.note_checkpoint(cost);
                *stage = Stage::Ended(ending.logged(number));
                Step::Done(Answer::Ended(number))
            }
            Err(fault) => {
                *stage = Stage::Begun(ending.refused(end));
                Step::Refused(fault)
            }
        }
    }

    fn name_checkpoint(&mut self, stage: &mut Stage, ended: Ended) -> Step
        ensures step { has_failed self.old ≡ false → InEach (λ front disk before s store. MayGoOn (Stage.Ended ended) (with_store s store)
            → MakesStep result stage.new self.new front disk before (with_store s store)) self.old }
        ensures heap { heap_of self.new ≡ heap_of self.old }
        ensures durable { durable_of self.new ≡ durable_of self.old }
        ensures first { first_of self.new ≡ first_of self.old }
        ensures told { SaysAlike (told_of self.new) (told_of self.old) }
        ensures idle { KeepsFor (Stage.Ended ended) (told_of self.old) → result ≢ Step.Refused Fault.Memory }
        ensures aside { KeepsFor (Stage.Ended ended) (told_of self.old) → KeepsFor stage.new (told_of self.new) }
        ensures running { has_failed self.new ≡ has_failed self.old }
        ensures ring { (room_in (txns_of self.new)).stream_bytes ≡ (room_in (txns_of self.old)).stream_bytes }
        ensures quiet { result ≡ Step.Nothing → (self.new ≡ self.old) × (stage.new ≡ Stage.Ended ended) }
        ensures no_move { result ≢ Step.Done Answer.Moved }
        ensures others { (f : Fault) → result ≡ Step.Refused f → (f ≡ Fault.Memory) ⊎ (f ≡ Fault.LogFull) }
    {
        *stage = Stage::Ended(ended);
        let Some(record) = ended.name(self.durable) else {
            return Step::Nothing;
        };
        if !self.holds(ANCHOR_COST) {
            return Step::Refused(Fault::LogFull);
        }
        let number = match self.tail.push_kept(&record) {
            Ok(number) => number,
            Err(fault) => return Step::Refused(fault),
        };
        self.control.note_checkpoint(ANCHOR_COST);
        *stage = Stage::Named(ended.named(number));
        let Mark { checkpoint, tail } = ended.mark();
        Step::Done(Answer::Anchored { checkpoint, tail })
    }

    /// The log device has moved its anchor as it was to, and the records that it let go cost so much.
    pub fn moved(&mut self, stage: &mut Stage, freed: u64) -> Step
        ensures step { InEach (λ front disk before s store. (a : Anchored) → s.failed ≡ false → IsNextAnchor store a → freed ≡ freed_to (with_store s store) a.tail → freed ≤ (room_in (txns_of self.old)).kept
            → MovesTo a result stage.new self.new front disk before (with_store s store)) self.old }
        ensures moved { result ≡ Step.Done Answer.Moved }
        ensures heap { heap_of self.new ≡ heap_of self.old }
        ensures durable { durable_of self.new ≡ durable_of self.old }
        ensures first { first_of self.new ≡ first_of self.old }
        ensures told { told_of self.new ≡ told_of self.old }
        ensures waiting { waiting_of self.new ≡ waiting_of self.old }
        ensures running { has_failed self.new ≡ has_failed self.old }
        ensures ring { (room_in (txns_of self.new)).stream_bytes ≡ (room_in (txns_of self.old)).stream_bytes }
        ensures resting { stage.new ≡ Stage.Resting }
    {
        self.control.note_cut(freed);
        *stage = Stage::Resting;
        Step::Done(Answer::Moved)
    }
}

// Pushes the record that a checkpoint begins with, once there is room aside for it and for those that it still has to log. If that is refused nothing more is kept than before.
fn push_begin<T: Tail>(tail: &mut T, begun: &Begun) -> Result<Lsn, Fault>
    requires some { 0 < T.first tail.old + length (T.records tail.old) }
    requires numbers { T.first tail.old + length (T.records tail.old) < 2 ^ 62 }
    ensures number { IfOk result (λ n. n ≡ T.first tail.old + length (T.records tail.old)) }
    ensures added { OnOk result (T.records tail.new ≡ T.records tail.old ++ of_checkpoint CheckpointBegin ∷ []) }
    ensures aside { IsTrue T.keeps → OnOk result (KeepsFor (Stage.Begun begun.now) (T.told tail.new)) }
    ensures none_kept { OnErr result ((T.told tail.new).aside ≡ (T.told tail.old).aside) }
    ensures refused { IfErr result (λ fault. fault ≡ Fault.Memory) }
    ensures none_added { OnErr result (T.records tail.new ≡ T.records tail.old) }
    ensures first { T.first tail.new ≡ T.first tail.old }
    ensures told { SaysAlike (T.told tail.new) (T.told tail.old) }
{
    let logged = begin_record();
    tail.keep_aside(3, begun.bytes_to_log() + encoded_len(&logged))?;
    tail.push_kept(&logged)
}
