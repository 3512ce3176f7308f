//! How far a checkpoint has come. Nothing of it outlives a crash but what it has logged.
ghost use Rattle.std.specs.Prelude.{◌≡◌, ◌<◌, ◌≤◌, ◌+◌, ◌^◌, ◌∷◌, [], ℕ, IfSome, IsTrue, MatchOption, length};
ghost use Rattle.shore_frames.specs.LoggedRecords.{are_numbered};
ghost use Rattle.shore_types.specs.declared.layout.TheConstants.{ENDING_COST, FRAME_SHARE, GREATEST_CHECKPOINT};
ghost use Rattle.shore_check.specs.declared.stage.TheConstants.{ANCHOR_COST};
ghost use Rattle.shore_model.specs.declared.log_records.Payload.TheVariants as payload;
ghost use Rattle.shore_logrec.specs.Text.{Fits, text};
ghost use Rattle.laws_checkpoints.specs.Checkpoints.{Checkpoint, cut_point, end_payload, of_checkpoint};
ghost use Rattle.laws_checkpoints.specs.CheckpointedStores.{CheckpointStage, awaited_by};
ghost use Rattle.laws_checkpoints.specs.RingRooms as ring;
ghost use Rattle.shore_check.specs.Marks.{mark_of};

use shore_model::{LogRecord, Payload};
use shore_types::layout::{ENDING_COST, FRAME_SHARE};
use shore_types::{Lsn, TxnId};

/// What an Anchor record costs: its payload is two numbers.
pub const ANCHOR_COST: u64 = ENDING_COST + 16;

/// What the Anchor record of a checkpoint says.
#[derive(Clone, Copy, PartialEq)]
pub struct Mark {
    /// The number of its CheckpointBegin.
    pub checkpoint: Lsn,
    /// Its cut point.
    pub tail: Lsn,
}

/// What a checkpoint has logged, and what it needs for its next step.
#[derive(Drop)]
pub enum Stage {
    /// No checkpoint is under way.
    Resting,
    /// Its begin is logged.
    Begun(Begun),
    /// Its End is logged.
    Ended(Ended),
    /// Its Anchor record is logged.
    Named(Named),
}

/// A checkpoint that may begin, or has: its End is ready, with the tables as they are at the begin.
#[derive(Drop)]
pub struct Begun {
    // The record that is to be logged next.
    end: LogRecord,
    // What is named once that is durable.
    mark: Mark,
    // What the End costs.
    end_cost: u64,
    ghost few: { ENDING_COST + end_cost + ANCHOR_COST ≤ GREATEST_CHECKPOINT },
    ghost fits: { IsTrue (are_numbered 1 (end ∷ [])) },
    ghost costs: { end_cost ≡ FRAME_SHARE + length (text end) },
}

/// A checkpoint whose End is being pushed.
#[derive(Clone, Copy)]
pub struct Ending {
    mark: Mark,
    end_cost: u64,
    ghost few: { ENDING_COST + end_cost + ANCHOR_COST ≤ GREATEST_CHECKPOINT },
}

/// A checkpoint whose End is logged.
#[derive(Clone, Copy)]
pub struct Ended {
    mark: Mark,
    // The number of the End.
    number: Lsn,
}

/// A checkpoint whose Anchor record is logged.
#[derive(Clone, Copy)]
pub struct Named {
    mark: Mark,
    // The number of the Anchor record.
    number: Lsn,
}

/// The record that a checkpoint begins with.
pub fn begin_record() -> LogRecord
    ensures is { result ≡ of_checkpoint payload.CheckpointBegin }
    ensures fits { Fits result }
    ensures cost { FRAME_SHARE + length (text result) ≡ ENDING_COST }
{
    of_checkpoint(Payload::CheckpointBegin)
}

impl Begun {
    ghost use Rattle.shore_check.specs.Stages.{IsBegun, IsEnding, bytes_to_log};
    ghost use Rattle.shore_check.specs.declared.stage.Stage.TheVariants as Stage;

    // The checkpoint with this End ready.
    pub(crate) fn new(end: LogRecord, mark: Mark, end_cost: u64) -> Begun
        requires few { ENDING_COST + end_cost + ANCHOR_COST ≤ GREATEST_CHECKPOINT }
        requires fits { IsTrue (are_numbered 1 (end ∷ [])) }
        requires costs { end_cost ≡ FRAME_SHARE + length (text end) }
        ensures { (result.end ≡ end) × (result.mark ≡ mark) × (result.end_cost ≡ end_cost) }
    {
        Begun {
            end,
            mark,
            end_cost,
        }
    }

    /// What the whole checkpoint costs.
    pub fn cost(&self) -> u64
        ensures { (c : Checkpoint) → IsBegun c self.now → result ≡ ring.checkpoint_cost (length c.txns) (length c.dirty) }
    {
        ENDING_COST + self.end_cost + ANCHOR_COST
    }

    /// How many bytes the texts of its End and of its Anchor record have.
    pub fn bytes_to_log(&self) -> usize
        ensures is { result ≡ bytes_to_log (Stage.Begun self.now) }
        ensures few { result < 2 ^ 30 }
    {
        (self.end_cost + ANCHOR_COST - 2 * FRAME_SHARE) as usize
    }

    /// What its Anchor record will say.
    pub fn mark(&self) -> Mark
        ensures { (c : Checkpoint) → IsBegun c self.now → result ≡ mark_of c }
    {
        self.mark
    }

    /// The End, to be pushed.
    pub fn end(self) -> (LogRecord, Ending)
        ensures is { (c : Checkpoint) → IsBegun c self → result.0 ≡ of_checkpoint (end_payload c) }
        ensures fits { Fits result.0 }
        ensures numbered { IsTrue (are_numbered 1 (result.0 ∷ [])) }
        ensures rest { (c : Checkpoint) → IsBegun c self → IsEnding c result.1 }
        ensures cost { (result.1.end_cost ≡ self.end_cost) × (self.end_cost ≡ FRAME_SHARE + length (text result.0)) }
    {
        let ending = Ending {
            mark: self.mark,
            end_cost: self.end_cost,
        };
        (self.end, ending)
    }
}

impl Ending {
    ghost use Rattle.shore_check.specs.Stages.{IsBegun, IsEnded, IsEnding};

    /// What the End costs.
    pub fn cost(&self) -> u64
        ensures { (c : Checkpoint) → IsEnding c self.now → result ≡ ring.end_cost (length c.txns) (length c.dirty) }
    {
        self.end_cost
    }

    /// The End was pushed under this number.
    pub fn logged(self, number: Lsn) -> Ended
        ensures { (c : Checkpoint) → IsEnding c self → IsEnded c number result }
    {
        Ended {
            mark: self.mark,
            number,
        }
    }

    /// The push was refused, and the End handed back: it may be pushed later.
    pub fn refused(self, end: LogRecord) -> Begun
        requires fits { IsTrue (are_numbered 1 (end ∷ [])) }
        requires costs { self.end_cost ≡ FRAME_SHARE + length (text end) }
        ensures is { (c : Checkpoint) → IsEnding c self → end ≡ of_checkpoint (end_payload c) → IsBegun c result }
        ensures cost { result.end_cost ≡ self.end_cost }
    {
        Begun::new(end, self.mark, self.end_cost)
    }
}

impl Ended {
    ghost use Rattle.shore_check.specs.Stages.{IsEnded, IsNamed};

    /// The Anchor record, to be pushed: `None` as long as the End is not durable.
    pub fn name(&self, durable: Lsn) -> Option<LogRecord>
        ensures is { (c : Checkpoint) (n : ℕ) → IsEnded c n self.now
            → MatchOption result (durable < n) (λ r. (n ≤ durable) × (r ≡ of_checkpoint (payload.Anchor c.begin (cut_point c)))) }
        ensures fits { IfSome result Fits }
        ensures none_before { IfSome result (λ r. r.previous ≡ 0) }
        ensures cost { IfSome result (λ r. FRAME_SHARE + length (text r) ≡ ANCHOR_COST) }
    {
        if durable.0 < self.number.0 {
            return None;
        }
        Some(of_checkpoint(Payload::Anchor {
            checkpoint: self.mark.checkpoint,
            tail: self.mark.tail,
        }))
    }

    /// What the Anchor record says.
    pub fn mark(&self) -> Mark
        ensures { (c : Checkpoint) (n : ℕ) → IsEnded c n self.now → result ≡ mark_of c }
    {
        self.mark
    }

    /// The Anchor record was pushed under this number.
    pub fn named(self, number: Lsn) -> Named
        ensures { (c : Checkpoint) (n : ℕ) → IsEnded c n self → IsNamed c number result }
    {
        Named {
            mark: self.mark,
            number,
        }
    }
}

impl Named {
    /// What the log device's anchor may be moved to: `None` as long as the Anchor record is not durable.
    pub fn move_anchor(&self, durable: Lsn) -> Option<Mark>
        ensures { MatchOption result (durable < self.now.number) (λ m. (self.now.number ≤ durable) × (m ≡ self.now.mark)) }
    {
        if self.number.0 <= durable.0 {
            Some(self.mark)
        } else {
            None
        }
    }
}

impl Stage {
    ghost use Rattle.shore_check.specs.Stages.{IsAt, bytes_to_log, records_to_log};

    /// How many records it has to log still, beside its begin.
    pub fn records_to_log(&self) -> usize
        ensures is { result ≡ records_to_log self.now }
        ensures few { result < 2 ^ 30 }
    {
        match self {
            Stage::Resting | Stage::Named(_) => 0,
            Stage::Ended(_) => 1,
            Stage::Begun(_) => 2,
        }
    }

    /// How many bytes the texts of these have in all.
    pub fn bytes_to_log(&self) -> usize
        ensures is { result ≡ bytes_to_log self.now }
        ensures few { result < 2 ^ 30 }
    {
        match self {
            Stage::Resting | Stage::Named(_) => 0,
            Stage::Ended(_) => (ANCHOR_COST - FRAME_SHARE) as usize,
            Stage::Begun(begun) => begun.bytes_to_log(),
        }
    }

    /// The number that has to be durable before the next step, if there is one.
    pub fn awaits(&self) -> Option<Lsn>
        ensures { (s : CheckpointStage) → IsAt self.now s → result ≡ awaited_by s }
    {
        match self {
            Stage::Resting | Stage::Begun(_) => None,
            Stage::Ended(ended) => Some(ended.number),
            Stage::Named(named) => Some(named.number),
        }
    }
}

// A record of a checkpoint, which is of no transaction.
fn of_checkpoint(payload: Payload) -> LogRecord
    ensures { result ≡ of_checkpoint payload }
{
    LogRecord {
        txn: TxnId(0),
        previous: Lsn(0),
        payload,
    }
}
