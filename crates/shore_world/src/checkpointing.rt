//! The steps of a checkpoint, of which the last one moves the log's anchor.
ghost use Rattle.std.specs.Prelude.{◌≡◌, ◌≢◌, ◌⊎◌, ◌↔◌, ◌<◌, ◌≤◌, ℕ, List, IsTrue};
ghost use Rattle.shore_disk.specs.Cause.{HasCause};
ghost use Rattle.shore_types.specs.declared.layout.TheConstants.{LAST_OPENED};
ghost use Rattle.laws_calls.specs.States.{State};
ghost use Rattle.laws_checkpoints.specs.CheckpointedStores.{CheckpointedStore};
ghost use Rattle.shore_core.specs.Cores.{heap_of};

use crate::Event;
use crate::world::World;
use shore_check::Mark;
use shore_core::{CheckpointStep, Step};
use shore_disk::Disk;
use shore_model::Answer;
use shore_types::layout::LAST_OPENED;
use shore_types::{Fault, Lsn};
use std::alloc::Global;

impl<L: Disk, V: Disk> World<L, V> {
    ghost use Rattle.shore_check.specs.declared.stage.Stage.TheVariants as Stage;
    ghost use Rattle.shore_core.specs.Replies.{Earns, NeedsForce, fault_at};
    ghost use Rattle.shore_gate.specs.declared.anchors.Anchor.{Anchor};
    ghost use Rattle.shore_world.specs.Events.{ReadBy};
    ghost use Rattle.shore_world.specs.Worlds.{EventMovesWorld, ForCheckpoint, HasMoved, IsFullIn, IsNextIn, IsRoomyIn, IsUnchanged, anchor_in, anchors_in, cut_in, durable_in, report_in};

    pub(crate) fn checkpoint_step(&mut self, alloc: Global) -> Step
        ensures moves { EventMovesWorld self.old Event.CheckpointStep result self.new }
        ensures volume { heap_of self.new.core ≡ heap_of self.old.core }
        ensures report { report_in self.new ≡ report_in self.old }
        ensures unmoved { (self.new.log ≡ self.old.log) ⊎ ((next : Anchor) × IsNextIn self.old next) }
        ensures anchors { (anchors_in self.new ≡ anchors_in self.old) ⊎ (result ≡ Step.Done Answer.Moved) }
        ensures moved { result ≡ Step.Done Answer.Moved → HasMoved self.old self.new }
        ensures quiet { result ≡ Step.Nothing → IsUnchanged self.old self.new }
        ensures full { result ≡ Step.Refused Fault.LogFull → ForCheckpoint self.old (IsFullIn self.old) }
        ensures roomy { (n : ℕ) → result ≡ Step.Done (Answer.Begun n) → ForCheckpoint self.old (IsRoomyIn self.old) }
        ensures no_memory { self.old.stage ≢ Stage.Resting → result ≢ Step.Refused Fault.Memory }
        ensures damaged { Earns self.old.core (ReadBy self.old.core Event.CheckpointStep) (fault_at result) }
        ensures unforced { NeedsForce self.old.core (fault_at result) }
        ensures cause { HasCause (fault_at result) (L.faults self.old.log.device) (L.faults self.new.log.device) }
    {
        let made = self.core.checkpoint_step(alloc, &mut self.stage, &self.log);
        let Mark { checkpoint, tail } = match made {
            CheckpointStep::Made(step) => return step,
            CheckpointStep::Move(mark) => mark,
        };
        // In any state it may: a checkpoint is of records that are kept, and its Anchor record is durable.
        if !self.may_move(checkpoint, tail) {
            return Step::Refused(Fault::Failed);
        }
        match self.log.move_anchor(checkpoint, tail) {
            Ok(freed) => self.core.moved(&mut self.stage, freed),
            Err(fault) => self.refuse(fault),
        }
    }

    // Whether the log device may move its anchor there: to a later checkpoint, whose begin is durable, with a tail that is kept.
    fn may_move(&self, checkpoint: Lsn, tail: Lsn) -> bool
        ensures { IsTrue result ↔ (((anchor_in self.now).checkpoint < checkpoint) × (checkpoint ≤ durable_in self.now)
            × (cut_in self.now < tail) × (tail ≤ checkpoint) × (tail ≤ LAST_OPENED)) }
    {
        self.log.checkpoint() < checkpoint
            && checkpoint <= self.core.durable()
            && self.log.cut_off() < tail.0
            && tail <= checkpoint
            && tail.0 <= LAST_OPENED
    }
}
