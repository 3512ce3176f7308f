//! The steps of a checkpoint, each under both locks, the core's first. The last one moves the anchor.
ghost use Rattle.std.specs.Prelude.{◌≡◌, ◌≢◌, ◌⊎◌, ℕ, ◌↔◌, ◌<◌, ◌≤◌, ◌+◌, ◌∷◌, [], ◌++◌, List, IsTrue, false, length};
ghost use Rattle.shore_types.specs.declared.faults.Fault.TheVariants as Fault;
ghost use Rattle.shore_types.specs.declared.layout.TheConstants.{LAST_OPENED};
ghost use Rattle.shore_log.specs.Settled.{anchor_of, cut_of_log, stable};
ghost use Rattle.shore_check.specs.declared.stage.Named as marks;
ghost use Rattle.shore_check.specs.declared.stage.Mark.{Mark};
ghost use Rattle.shore_check.specs.declared.stage.Stage.TheVariants as Stage;
ghost use Rattle.shore_core.specs.Cores.{durable_of, has_failed, heap_of, waiting_of};
ghost use Rattle.shore_core.specs.declared.checkpointing.CheckpointStep.TheVariants as CheckpointStep;
ghost use Rattle.shore_model.specs.declared.calls.Answer.TheVariants as Answer;
ghost use Rattle.shore_model.specs.declared.log_records.LogRecord.{LogRecord};
ghost use Rattle.shore_model.specs.declared.step.Step.{Step};
ghost use Rattle.shore_model.specs.declared.step.Step.TheVariants as Step;
ghost use Rattle.shore_held.specs.Comings.{Beginning, HasAim, IsAimOf, anchored_at};
ghost use Rattle.shore_held.specs.Logs.{AreMet, LeavesByMove, known_in};
ghost use Rattle.shore_held.specs.Trails.{GoesOn};
ghost use Rattle.shore_held.specs.declared.asked.Asked.TheVariants as Asked;

use crate::asked::Asked;
use crate::both::meeting;
use crate::core_held::CoreHeld;
use crate::log_held::LogHeld;
use crate::names::Named;
use http_server::Log as GhostLog;
use shore_check::Mark;
use shore_core::{CheckpointStep, Step};
use shore_disk::Disk;
use shore_log::LogDev;
use shore_queue::{Numbers, QueueTail};
use shore_types::layout::LAST_OPENED;
use shore_types::{Fault, Lsn, SessionId};
use shore_words::Words;
use std::alloc::Global;
use std::sync::Wait;

/// The next of the four steps of a checkpoint, as `Core::checkpoint_step` has it, once the core has learned all that is durable; the anchor is moved at the last. `Nothing`
/// once the log device has failed: whoever met the failure tells the core.
pub fn checkpoint<N: Numbers, B: Named, R: Wait + Copy, L: Disk, V: Disk>(
    alloc: Global,
    words: &Words,
    core: &mut CoreHeld<B, QueueTail<N, B, R>, V>,
    held: &mut LogHeld<N, B, L>,
) -> Step
    requires { (words.now.table.shared.table_id ≡ B.table) × (4 < B.table.words) }

    // The step is in the trail, behind what was learned of the log.
    ensures noted { held.old.failed ≡ false → GoesOn (core.old.asked.items, core.old.stepped.items) (core.new.asked.items, core.new.stepped.items) ((Asked.Checkpoint, 0) ∷ []) ((result, 0) ∷ []) }
    ensures failed { IsTrue held.old.failed → (result ≡ Step.Nothing) × (core.new.asked.items ≡ core.old.asked.items) × (core.new.stepped.items ≡ core.old.stepped.items) }

    // The anchor moves only at the last step, under both locks. What is cut off was durable.
    ensures one_anchor { (core.new.seat.kept ≡ known_in held.new) × (held.new.anchors.anchor.tail ≡ held.new.cut + 1) }
    ensures unmoved { result ≢ Step.Done Answer.Moved → held.new.anchors ≡ held.old.anchors }
    ensures moved { result ≡ Step.Done Answer.Moved → (held.old.anchors.anchor.checkpoint < held.new.anchors.anchor.checkpoint) × (held.old.cut ≤ held.new.cut) }
    ensures fails { (result ≡ Step.Refused Fault.Device) → IsTrue held.new.failed }
    ensures stays { result ≢ Step.Refused Fault.Device → held.new.failed ≡ held.old.failed }
    // A move that fails is known on both sides: it was to lead where the core's checkpoint has come, and the Anchor record of that is durable.
    ensures aimed { result ≡ Step.Refused Fault.Device → (core.new.stage ≡ core.old.stage) × HasAim held.new.aim × IsAimOf core.new.stage (durable_of core.new.core) held.new.aim }
    ensures unaimed { result ≢ Step.Refused Fault.Device → held.new.aim ≡ held.old.aim }
    ensures lost { (gone : List LogRecord) × (held.old.list ≡ gone ++ held.new.list) × (held.old.stable ≡ gone ++ held.new.stable) × (held.new.cut ≡ held.old.cut + length gone) }
    ensures came { (held.new.got ≡ held.old.got) × (held.new.waits ≡ held.old.waits) × (held.new.met ≡ waiting_of core.old.core) }
    ensures sessions { (core.new.made ≡ core.old.made) × (core.new.rest ≡ core.old.rest) }
    // Both know all that is durable.
    ensures told { held.new.told ≡ held.new.cut + length held.new.stable }
    ensures learned { held.old.failed ≡ false → durable_of core.new.core ≡ held.new.told }
    // Its volume is left as it is.
    ensures volume { heap_of core.new.core ≡ heap_of core.old.core }
    ensures tape { core.new.tape ≡ core.old.tape }
    // Its steps but the last make no call of the log device. At any moment of the last a loss of power leaves the anchor that counted or the next one, and what each reads.
    ensures any_moment { (start : Beginning) → B.honest start → (held.new.history ≡ held.old.history) ⊎ ((named : marks.Named) × (core.old.stage ≡ Stage.Named named)
        × (named.number ≤ durable_of core.new.core) × ∥ LeavesByMove B.geometry B.log_bytes held.old.anchors held.old.stable (named.mark.checkpoint, named.mark.tail) held.old.history held.new.history ∥₁) }
{
    let mut reader = core.seat(words);
    let told = held.tell(words);
    meeting(words, core, held, &mut reader);
    if held.has_failed() {
        return Step::Nothing;
    }
    core.learn(told);
    match make_step(alloc, core, held) {
        CheckpointStep::Made(step) => step,
        CheckpointStep::Move(mark) => move_anchor(words, core, held, mark),
    }
}

// The next step, which is in the trail then; but the move of the anchor is left to the log device.
fn make_step<N: Numbers, B: Named, R: Wait + Copy, L: Disk, V: Disk>(
    alloc: Global,
    core: &mut CoreHeld<B, QueueTail<N, B, R>, V>,
    held: &LogHeld<N, B, L>,
) -> CheckpointStep
    requires met { AreMet B.cut B.before (waiting_of core.old.core) (durable_of core.old.core) (anchored_at core.old.seat.kept) held.now }
    requires running { (held.now.failed ≡ false) × (core.old.seat.kept.aim ≡ (0, 0)) }
    ensures noted { (step : Step) → result ≡ CheckpointStep.Made step
        → (core.new.asked.items ≡ core.old.asked.items ++ (Asked.Checkpoint, 0) ∷ []) × (core.new.stepped.items ≡ core.old.stepped.items ++ (step, 0) ∷ []) }
    ensures others { (step : Step) → result ≡ CheckpointStep.Made step → (step ≢ Step.Done Answer.Moved) × (step ≢ Step.Refused Fault.Device) }
    ensures left { (mark : Mark) → result ≡ CheckpointStep.Move mark → (has_failed core.old.core ≡ false) × (core.new.core ≡ core.old.core)
        × (core.new.asked.items ≡ core.old.asked.items) × (core.new.stepped.items ≡ core.old.stepped.items)
        × ((named : marks.Named) × (core.new.stage ≡ Stage.Named named) × (named.mark ≡ mark) × (named.number ≤ durable_of core.old.core)) }
    ensures stays { (mark : Mark) → result ≡ CheckpointStep.Move mark → core.new.stage ≡ core.old.stage }
    ensures durable { durable_of core.new.core ≡ durable_of core.old.core }
    ensures same { (core.new.made ≡ core.old.made) × (core.new.rest ≡ core.old.rest) × (core.new.seat ≡ core.old.seat) }
    ensures volume { heap_of core.new.core ≡ heap_of core.old.core }
    ensures tape { core.new.tape ≡ core.old.tape }
{
    match core.core.checkpoint_step(alloc, &mut core.stage, &held.log) {
        CheckpointStep::Made(step) => {
            note(&mut core.asked, &mut core.stepped, &step);
            CheckpointStep::Made(step)
        }
        CheckpointStep::Move(mark) => CheckpointStep::Move(mark),
    }
}

// The last step: the log device moves its anchor to the mark, and so do the seats that know it.
fn move_anchor<N: Numbers, B: Named, R: Wait + Copy, L: Disk, V: Disk>(
    words: &Words,
    core: &mut CoreHeld<B, QueueTail<N, B, R>, V>,
    held: &mut LogHeld<N, B, L>,
    mark: Mark,
) -> Step
    requires words { (words.now.table.shared.table_id ≡ B.table) × (4 < B.table.words) }
    requires met { AreMet B.cut B.before (waiting_of core.old.core) (durable_of core.old.core) (anchored_at core.old.seat.kept) held.old }
    requires next { (named : marks.Named) × (core.old.stage ≡ Stage.Named named) × (named.mark ≡ mark) × (named.number ≤ durable_of core.old.core) }
    requires running { (has_failed core.old.core ≡ false) × (held.old.failed ≡ false) × (core.old.seat.kept.aim ≡ (0, 0)) }
    ensures noted { (core.new.asked.items ≡ core.old.asked.items ++ (Asked.Checkpoint, 0) ∷ []) × (core.new.stepped.items ≡ core.old.stepped.items ++ (result, 0) ∷ []) }
    ensures one_anchor { (core.new.seat.kept ≡ known_in held.new) × (held.new.anchors.anchor.tail ≡ held.new.cut + 1) }
    ensures unmoved { result ≢ Step.Done Answer.Moved → held.new.anchors ≡ held.old.anchors }
    ensures moved { result ≡ Step.Done Answer.Moved → (held.old.anchors.anchor.checkpoint < held.new.anchors.anchor.checkpoint) × (held.old.cut ≤ held.new.cut) }
    ensures fails { (result ≡ Step.Refused Fault.Device) → IsTrue held.new.failed }
    ensures stays { result ≢ Step.Refused Fault.Device → held.new.failed ≡ held.old.failed }
    // A move that fails is known on both sides: it was to lead where the core's checkpoint has come, and the Anchor record of that is durable.
    ensures aimed { result ≡ Step.Refused Fault.Device → (core.new.stage ≡ core.old.stage) × HasAim held.new.aim × IsAimOf core.new.stage (durable_of core.new.core) held.new.aim }
    ensures unaimed { result ≢ Step.Refused Fault.Device → held.new.aim ≡ held.old.aim }
    ensures lost { (gone : List LogRecord) × (held.old.list ≡ gone ++ held.new.list) × (held.old.stable ≡ gone ++ held.new.stable) × (held.new.cut ≡ held.old.cut + length gone) }
    ensures came { (held.new.got ≡ held.old.got) × (held.new.waits ≡ held.old.waits) × (held.new.met ≡ held.old.met) }
    ensures sessions { (core.new.made ≡ core.old.made) × (core.new.rest ≡ core.old.rest) }
    ensures durable { (durable_of core.new.core ≡ durable_of core.old.core) × (held.new.told ≡ held.old.told) }
    ensures volume { heap_of core.new.core ≡ heap_of core.old.core }
    ensures tape { core.new.tape ≡ core.old.tape }
    ensures any_moment { (start : Beginning) → B.honest start → ∥ LeavesByMove B.geometry B.log_bytes held.old.anchors held.old.stable (mark.checkpoint, mark.tail) held.old.history held.new.history ∥₁ }
{
    // Over honest devices it may: a checkpoint is of records that are kept, and its Anchor record is durable.
    if !may_move(&held.log, mark.checkpoint, mark.tail) {
        let step = Step::Refused(Fault::Failed);
        note(&mut core.asked, &mut core.stepped, &step);
        return step;
    }
    match held.log.move_anchor(mark.checkpoint, mark.tail) {
        Ok(freed) => {
            let tail = held.log.cut_off() + 1;
            held.seat
                .move_anchor(words, &mut core.seat, mark.checkpoint, tail);
            let step = core.core.moved(&mut core.stage, freed);
            note(&mut core.asked, &mut core.stepped, &step);
            step
        }
        Err(fault) => {
            held.failed = true;
            held.seat
                .fail_move(words, &mut core.seat, mark.checkpoint, mark.tail);
            core.core.fail();
            let step = Step::Refused(fault);
            note(&mut core.asked, &mut core.stepped, &step);
            step
        }
    }
}

// A step of a checkpoint goes into the trail.
fn note(
    asked: &mut GhostLog<Asked, SessionId>,
    stepped: &mut GhostLog<Step, SessionId>,
    step: &Step,
)
    ensures asked { asked.new.items ≡ asked.old.items ++ (Asked.Checkpoint, 0) ∷ [] }
    ensures stepped { stepped.new.items ≡ stepped.old.items ++ (step.now, 0) ∷ [] }
{
    *asked = asked.and(&Asked::Checkpoint, &SessionId(0));
    *stepped = stepped.and(step, &SessionId(0));
}

// Whether the anchor may move there: to a later checkpoint, whose begin is durable, with a tail that is kept.
pub(crate) fn may_move<L: Disk>(log: &LogDev<L>, checkpoint: Lsn, number: Lsn) -> bool
    ensures { IsTrue result ↔ (((anchor_of log.now).checkpoint < checkpoint) × (checkpoint ≤ cut_of_log log.now + length (stable log.now))
        × (cut_of_log log.now < number) × (number ≤ checkpoint) × (number ≤ LAST_OPENED)) }
{
    log.checkpoint() < checkpoint
        && checkpoint <= log.durable().number()
        && log.cut_off() < number.0
        && number <= checkpoint
        && number.0 <= LAST_OPENED
}
