//! Whether what is kept of the answers may be let go: the trail of a core.
ghost use Rattle.std.specs.Prelude.{◌≡◌, List, false};
ghost use Rattle.laws_calls.specs.CallSteps.{txn_count};
ghost use Rattle.laws_calls.specs.States.{State};
ghost use Rattle.shore_model.specs.declared.log_records.LogRecord.{LogRecord};

use crate::core_calls::Core;
use shore_disk::Disk;
use shore_log::Tail;
use shore_model::{Answer, Step};
use shore_types::Fault;

impl<T: Tail, V: Disk> Core<T, V> {
    ghost use Rattle.shore_core.specs.Cores.{IsBeside};
    ghost use Rattle.shore_core.specs.Trails.{AnswersCut, count_of};

    /// Whether the trail may be cut that is kept of a core's answers: `Cut` if no transaction is under way and no resolve waits, else `NotQuiet`; `Failed` after a
    /// failure of a device or a damaged page. Nothing changes, and no memory is taken.
    pub fn cut_trail(&self) -> Step
        ensures answers { AnswersCut self.now result }
        // They are those of the state.
        ensures count { (before : List LogRecord) (s : State) → IsBeside before self.now s → s.failed ≡ false → txn_count s ≡ count_of self.now }
    {
        if self.failed {
            return Step::Refused(Fault::Failed);
        }
        if self.control.count() > 0 {
            return Step::Refused(Fault::NotQuiet);
        }
        Step::Done(Answer::Cut)
    }
}
