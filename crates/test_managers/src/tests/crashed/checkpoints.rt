//! Steps of a checkpoint, judged by the records of the log alone: what each appends and answers, and which records the log's front is cut off before.
use super::doings::Doing;
use super::trouble::{Trouble, require, require_all};
use shore_model::{Answer, LogRecord, Payload};
use shore_types::{Bytes, Fault, Lsn, TxnId};
use shore_world::Step;

// The bytes of the ring of the shortest log.
const RING_BYTES: u64 = 131_072;

/// How often what has come up.
#[derive(Clone, Copy, Debug, PartialEq)]
pub(super) struct Checkpoints {
    /// Steps that a checkpoint came to, and those that wait for a force.
    pub(super) begun: u64,
    pub(super) ended: u64,
    pub(super) anchored: u64,
    pub(super) moved: u64,
    pub(super) idle: u64,
    /// Begins that the log had no room for.
    pub(super) full: u64,
    /// Records that were cut off, and the bytes of their images.
    pub(super) cut: u64,
    pub(super) cut_bytes: u64,
    /// How often so many bytes of one pair's log were cut off as its ring has.
    pub(super) turns: u64,
}

pub(super) const NO_CHECKPOINTS: Checkpoints = Checkpoints {
    begun: 0,
    ended: 0,
    anchored: 0,
    moved: 0,
    idle: 0,
    full: 0,
    cut: 0,
    cut_bytes: 0,
    turns: 0,
};

impl Checkpoints {
    /// Counts how often the ring of a pair was turned over, before whose first open so many bytes had been cut off of others.
    pub(super) fn count_turns(&mut self, before: u64) {
        let bytes = self.cut_bytes.saturating_sub(before);
        self.turns = self.turns.saturating_add(bytes / RING_BYTES);
    }

    fn count(&mut self, step: &Step) {
        let counted = match step {
            Step::Done(Answer::Begun(_)) => &mut self.begun,
            Step::Done(Answer::Ended(_)) => &mut self.ended,
            Step::Done(Answer::Anchored { .. }) => &mut self.anchored,
            Step::Done(_) => &mut self.moved,
            Step::Nothing => &mut self.idle,
            Step::Refused(Fault::LogFull) => &mut self.full,
            _ => return,
        };
        *counted = counted.saturating_add(1);
    }

    fn count_cut(&mut self, records: &[LogRecord]) {
        self.cut = self.cut.saturating_add(records.len() as u64);
        for logged in records {
            self.cut_bytes = self.cut_bytes.saturating_add(image_bytes(&logged.payload));
        }
    }
}

// How many bytes a record's images have: it has more besides.
fn image_bytes(payload: &Payload) -> u64 {
    match payload {
        Payload::Change { before, after, .. } => length_of(before).saturating_add(length_of(after)),
        Payload::Compensation { after, .. } => length_of(after),
        _ => 0,
    }
}

fn length_of(image: &Option<Bytes>) -> u64 {
    match image {
        Some(bytes) => bytes.as_slice().len() as u64,
        None => 0,
    }
}

/// An event, the log before it, what it has appended and come to, and the tail before it and behind it.
#[derive(Clone, Copy)]
pub(super) struct Checkpointing<'a> {
    pub(super) log: &'a [LogRecord],
    pub(super) appended: &'a [LogRecord],
    pub(super) step: &'a Step,
    pub(super) durable: Lsn,
    pub(super) has_failed: bool,
    pub(super) tails: (Lsn, Lsn),
}

impl Checkpointing<'_> {
    /// No event but a step of a checkpoint moves the tail; such a step does what the log tells that it has to.
    pub(super) fn judge(&self, doing: Doing, tally: &mut Checkpoints) -> Result<(), Trouble> {
        let (old, new) = self.tails;
        if !matches!(doing, Doing::CheckpointStep) {
            return require(old == new, "another event moves the tail");
        }
        tally.count(self.step);
        if matches!(self.step, Step::Done(Answer::Moved)) {
            return self.judge_move(tally);
        }
        require(old == new, "the tail moves before the anchor does")?;
        match self.step {
            Step::Done(answer) => self.judge_record(answer),
            Step::Nothing => self.judge_wait(),
            Step::Refused(fault) => self.judge_fault(fault),
            Step::Waits(_) => Err(Trouble("a step of a checkpoint waits")),
        }
    }

    // One record is appended, which is of no transaction, and is as what is answered tells.
    fn judge_record(&self, answer: &Answer) -> Result<(), Trouble> {
        let [logged] = self.appended else {
            return Err(Trouble("not one record of a checkpoint"));
        };
        require(
            logged.txn == TxnId(0) && logged.previous == Lsn(0),
            "a record of a checkpoint is somebody's",
        )?;
        let number = Lsn((self.log.len() as u64).saturating_add(1));
        let is_right = match (answer, &logged.payload) {
            (Answer::Begun(begun), Payload::CheckpointBegin) => *begun == number,
            (Answer::Ended(ended), Payload::CheckpointEnd { begin, .. }) => {
                *ended == number && *begin == last_begin(self.log)
            }
            (Answer::Anchored { checkpoint, tail }, Payload::Anchor { .. }) => {
                return self.judge_anchor(*checkpoint, *tail, &logged.payload);
            }
            _ => false,
        };
        require(is_right, "another record of a checkpoint")
    }

    // The End is durable, and the tail is the first record that its tables need.
    fn judge_anchor(&self, begun: Lsn, cut: Lsn, payload: &Payload) -> Result<(), Trouble> {
        let is_told =
            matches!(payload, Payload::Anchor { checkpoint, tail } if *checkpoint == begun && *tail == cut);
        let Some((number, end)) = last_end(self.log) else {
            return Err(Trouble("an Anchor without an End"));
        };
        require_all(&[
            (is_told, "another Anchor is answered"),
            (begun == last_begin(self.log), "an Anchor of another begin"),
            (
                number <= self.durable,
                "an Anchor before its End is durable",
            ),
            (cut == needed_by(self.log, begun, end), "another tail"),
        ])
    }

    // The Anchor record is durable, and at most what it names is cut off.
    fn judge_move(&self, tally: &mut Checkpoints) -> Result<(), Trouble> {
        let (old, new) = self.tails;
        let Some((number, cut)) = last_anchor(self.log) else {
            return Err(Trouble("a move without an Anchor"));
        };
        require_all(&[
            (self.appended.is_empty(), "a move appends a record"),
            (
                number <= self.durable,
                "a move before its Anchor is durable",
            ),
            (
                old <= new && new <= greater(cut, old),
                "too much is cut off",
            ),
        ])?;
        let (first, behind) = (index_of(old), index_of(new));
        match self.log.get(first..behind) {
            Some(records) => {
                tally.count_cut(records);
                Ok(())
            }
            None => Err(Trouble("more is cut off than there is")),
        }
    }

    // A step has nothing to do only while the last record of a checkpoint, its End or its Anchor, is not durable.
    fn judge_wait(&self) -> Result<(), Trouble> {
        let awaited = match (last_end(self.log), last_anchor(self.log)) {
            (Some((end, _)), Some((anchor, _))) => greater(end, anchor),
            (Some((end, _)), None) => end,
            (None, _) => return Err(Trouble("a step without an End waits")),
        };
        require_all(&[
            (
                self.appended.is_empty(),
                "a step that waits appends a record",
            ),
            (awaited > self.durable, "a step waits for what is durable"),
        ])
    }

    // A full log refuses a begin alone.
    fn judge_fault(&self, fault: &Fault) -> Result<(), Trouble> {
        let may_be = match fault {
            Fault::LogFull => true,
            Fault::Failed | Fault::Device => self.has_failed,
            _ => false,
        };
        require_all(&[
            (self.appended.is_empty(), "a refused step appends a record"),
            (may_be, "a step of a checkpoint is refused"),
        ])
    }
}

fn index_of(number: Lsn) -> usize {
    number.0.saturating_sub(1) as usize
}

fn number_of(index: usize) -> Lsn {
    Lsn((index as u64).saturating_add(1))
}

// The number of the last begin, 0 if there is none.
fn last_begin(log: &[LogRecord]) -> Lsn {
    for (index, logged) in log.iter().enumerate().rev() {
        if logged.payload.is_checkpoint_begin() {
            return number_of(index);
        }
    }
    Lsn(0)
}

fn last_end(log: &[LogRecord]) -> Option<(Lsn, &Payload)> {
    for (index, logged) in log.iter().enumerate().rev() {
        if matches!(logged.payload, Payload::CheckpointEnd { .. }) {
            return Some((number_of(index), &logged.payload));
        }
    }
    None
}

// The number of the last Anchor record, and the tail that it names.
fn last_anchor(log: &[LogRecord]) -> Option<(Lsn, Lsn)> {
    for (index, logged) in log.iter().enumerate().rev() {
        if let Payload::Anchor { tail, .. } = &logged.payload {
            return Some((number_of(index), *tail));
        }
    }
    None
}

// The least of the begin, of the first record of each transaction in the End's table, as the log has it, and of the numbers of its pages.
fn needed_by(log: &[LogRecord], begin: Lsn, end: &Payload) -> Lsn {
    let mut least = begin;
    if let Payload::CheckpointEnd { txns, dirty, .. } = end {
        for entry in txns.as_slice() {
            least = lesser(least, first_of(log, entry.txn));
        }
        for entry in dirty.as_slice() {
            least = lesser(least, entry.recovery);
        }
    }
    least
}

fn lesser(one: Lsn, other: Lsn) -> Lsn {
    if other < one { other } else { one }
}

fn greater(one: Lsn, other: Lsn) -> Lsn {
    if one < other { other } else { one }
}

// The number of a transaction's first record.
fn first_of(log: &[LogRecord], txn: TxnId) -> Lsn {
    for (index, logged) in log.iter().enumerate() {
        if logged.txn == txn {
            return number_of(index);
        }
    }
    number_of(log.len())
}
