//! A tape beside the trail, which a test reads: a number for what each call of a session came to. A manager that is no test's has none.
ghost use Rattle.std.specs.Prelude.{◌≡◌, ◌≢◌, ◌↔◌, [], IfSome, IsSome, IsTrue, None};
ghost use Rattle.shore_core.specs.Trails.{AnswersCut};
ghost use Rattle.shore_model.specs.declared.calls.Answer.TheVariants as Answer;
ghost use Rattle.shore_model.specs.declared.step.Step.TheVariants as Step;

use crate::core_held::CoreHeld;
use crate::names::Named;
use shore_core::Step;
use shore_disk::Disk;
use shore_log::Tail;
use shore_model::Answer;
use shore_types::{Fault, GlobalId, Pairs, Rid, SessionId, TxnId};
use std::alloc::Global;
use std::mem;

// What the sum of an answer is multiplied by before the next number goes into it.
const FACTOR: u64 = 1_099_511_628_211;

/// What a call or a resume of a session came to.
#[derive(Clone, Copy)]
pub struct Taped {
    /// The session.
    pub session: SessionId,
    /// The sum of its answer, or of its refusal. None if it waits, or there was nothing to do.
    pub sum: Option<u64>,
}

impl<B: Named, T: Tail, V: Disk> CoreHeld<B, T, V> {
    /// From now on a tape has what each call of a session comes to, up to the first for which there is no memory.
    pub fn start_tape(&mut self, alloc: Global)
        ensures tape { IsSome self.new.tape × IfSome self.new.tape (λ v. v.items ≡ []) }
        ensures core { (self.new.core ≡ self.old.core) × (self.new.asked.items ≡ self.old.asked.items) × (self.new.stepped.items ≡ self.old.stepped.items) }
        ensures same { (self.new.stage ≡ self.old.stage) × (self.new.made ≡ self.old.made) × (self.new.rest ≡ self.old.rest) × (self.new.seat ≡ self.old.seat) }
    {
        self.tape = Some(Vec::new(alloc));
    }

    /// Ends the tape, and hands out what it has, the oldest first; None if there is none.
    pub fn take_tape(&mut self) -> Option<Vec<Taped>>
        ensures tape { (result ≡ self.old.tape) × (self.new.tape ≡ None) }
        ensures core { (self.new.core ≡ self.old.core) × (self.new.asked.items ≡ self.old.asked.items) × (self.new.stepped.items ≡ self.old.stepped.items) }
        ensures same { (self.new.stage ≡ self.old.stage) × (self.new.made ≡ self.old.made) × (self.new.rest ≡ self.old.rest) × (self.new.seat ≡ self.old.seat) }
    {
        mem::replace(&mut self.tape, None)
    }

    /// Cuts the tape, where a manager with a trail of its own would cut that: `Cut` if no transaction is under way and no resolve waits, else `NotQuiet`; `Failed` after a
    /// failure of a device or a damaged page. The trail, which takes no memory, stays, and so does the count of its calls.
    pub fn cut_trail(&mut self) -> Step
        ensures answers { AnswersCut self.old.core result }
        ensures cut { result ≡ Step.Done Answer.Cut → IfSome self.new.tape (λ v. v.items ≡ []) }
        ensures uncut { result ≢ Step.Done Answer.Cut → self.new.tape ≡ self.old.tape }
        ensures core { (self.new.core ≡ self.old.core) × (self.new.asked.items ≡ self.old.asked.items) × (self.new.stepped.items ≡ self.old.stepped.items) }
        ensures same { (self.new.stage ≡ self.old.stage) × (self.new.made ≡ self.old.made) × (self.new.rest ≡ self.old.rest) × (self.new.seat ≡ self.old.seat) }
    {
        let step = self.core.cut_trail();
        if is_cut(&step) {
            if let Some(tape) = &mut self.tape {
                tape.clear();
            }
        }
        step
    }
}

fn is_cut(step: &Step) -> bool
    ensures { IsTrue result ↔ (step.now ≡ Step.Done Answer.Cut) }
{
    matches!(step, Step::Done(Answer::Cut))
}

/// One entry more, if there is a tape. It ends where there is no memory for one.
pub(crate) fn note_on(tape: &mut Option<Vec<Taped>>, session: SessionId, step: &Step)
    ensures none { tape.old ≡ None → tape.new ≡ None }
{
    let Some(entries) = tape else {
        return;
    };
    let entry = Taped {
        session,
        sum: sum_of(step),
    };
    if entries.push(entry).is_err() {
        *tape = None;
    }
}

fn sum_of(step: &Step) -> Option<u64> {
    match step {
        Step::Done(answer) => Some(sum_of_answer(answer)),
        Step::Refused(fault) => Some(sum_of_fault(fault)),
        Step::Waits(_) | Step::Nothing => None,
    }
}

/// A number for a refusal.
pub fn sum_of_fault(fault: &Fault) -> u64 {
    fault.number() as u64
}

/// A number for an answer, of all that is in it.
pub fn sum_of_answer(answer: &Answer) -> u64 {
    match answer {
        Answer::Began(txn) => mixed(101, txn.0),
        Answer::Got(bytes) => with_bytes(102, bytes.as_slice()),
        Answer::Inserted(id) => with_id(103, *id),
        Answer::Updated => 104,
        Answer::Deleted => 105,
        Answer::Scanned(pairs) => sum_of_pairs(pairs),
        Answer::Locked => 107,
        Answer::Saved(index) => mixed(108, *index as u64),
        Answer::WentBack => 109,
        Answer::Committed(ticket) => mixed(110, ticket.number().0),
        Answer::Aborted => 111,
        Answer::Prepared => 112,
        Answer::Resolved => 113,
        Answer::AreInDoubt(doubts) => sum_of_doubts(doubts.as_slice()),
        // No call of a session is answered so.
        Answer::Staged(_)
        | Answer::Forced(_)
        | Answer::Flushed(_)
        | Answer::Begun(_)
        | Answer::Ended(_)
        | Answer::Anchored { .. }
        | Answer::Moved
        | Answer::Cut
        | Answer::IsDurable(_) => 115,
    }
}

fn sum_of_pairs(pairs: &Pairs) -> u64 {
    let mut sum = 106;
    for index in 0..pairs.len() {
        if let Some((id, bytes)) = pairs.get(index) {
            sum = with_bytes(with_id(sum, id), bytes);
        }
    }
    sum
}

fn sum_of_doubts(doubts: &[(GlobalId, TxnId)]) -> u64 {
    let mut sum = 114;
    for doubt in doubts {
        sum = mixed(with_bytes(sum, doubt.0.as_slice()), doubt.1.0);
    }
    sum
}

fn with_id(sum: u64, id: Rid) -> u64 {
    let page = mixed(mixed(sum, id.page.store.0 as u64), id.page.page as u64);
    mixed(page, id.slot as u64)
}

fn with_bytes(sum: u64, bytes: &[u8]) -> u64 {
    let mut sum = mixed(sum, bytes.len() as u64);
    for byte in bytes {
        sum = mixed(sum, *byte as u64);
    }
    sum
}

fn mixed(sum: u64, number: u64) -> u64 {
    sum.wrapping_mul(FACTOR).wrapping_add(number)
}
