//! Prepares and resolves, judged: what refuses them, what they append, and who is told to be in doubt.
use super::doings::{Doing, Name, global_id};
use super::doubts::check_told;
use super::short_histories::ShortHistory;
use super::trouble::{Trouble, require};
use shore_model::{Answer, Call, Decision, Entry, LogRecord, Opening, Outcome, Payload, Request};
use shore_types::{Fault, Granule, Mode, SessionId, TxnId};
use shore_world::Step;
use slow_histories::decisions::{decisions, in_doubt};
use std::alloc::{AllocError, Global};

/// How often what has come up.
#[derive(Clone, Copy, Debug, PartialEq)]
pub(super) struct Prepares {
    /// Answers to prepares, to resolves that commit, and to those that roll back.
    pub(super) prepared: u64,
    pub(super) committed: u64,
    pub(super) rolled_back: u64,
    /// Decisions from a session that is not in the transaction.
    pub(super) from_elsewhere: u64,
    /// Answers by which somebody is in doubt.
    pub(super) listed: u64,
    /// Calls that were refused since their transaction is prepared, and for the name: it is bad, or in use, or no prepared transaction has it; resolves that
    /// came from another transaction, and those to commit what is being rolled back.
    pub(super) prepared_already: u64,
    pub(super) bad_names: u64,
    pub(super) names_in_use: u64,
    pub(super) no_names: u64,
    pub(super) in_another: u64,
    pub(super) rolled_already: u64,
    /// Opens that gave somebody back in doubt, and how many of them who had been given back by the open before too.
    pub(super) opens_with: u64,
    pub(super) given_again: u64,
}

pub(super) const NO_PREPARES: Prepares = Prepares {
    prepared: 0,
    committed: 0,
    rolled_back: 0,
    from_elsewhere: 0,
    listed: 0,
    prepared_already: 0,
    bad_names: 0,
    names_in_use: 0,
    no_names: 0,
    in_another: 0,
    rolled_already: 0,
    opens_with: 0,
    given_again: 0,
};

fn add(count: &mut u64) {
    *count = count.saturating_add(1);
}

impl Prepares {
    /// Counts those that an open has given back, and the one before it.
    pub(super) fn count_open(&mut self, before: &Opening, now: &Opening) {
        let found = now.in_doubt.as_slice();
        if !found.is_empty() {
            add(&mut self.opens_with);
        }
        for doubt in found {
            if is_given(before, doubt.txn) {
                add(&mut self.given_again);
            }
        }
    }

    // Counts the answer to a call.
    fn count_answer(&mut self, asked: Doing, answer: &Answer) {
        match (asked, answer) {
            (_, Answer::Prepared) => add(&mut self.prepared),
            (Doing::Resolve(_, Outcome::Commit), Answer::Resolved) => add(&mut self.committed),
            (_, Answer::Resolved) => add(&mut self.rolled_back),
            (_, Answer::AreInDoubt(found)) => {
                if !found.as_slice().is_empty() {
                    add(&mut self.listed);
                }
            }
            _ => {}
        }
    }

    fn count_fault(&mut self, asked: Doing, fault: &Fault) {
        let decides = matches!(asked, Doing::Resolve(_, _));
        match fault {
            Fault::IsPrepared => add(&mut self.prepared_already),
            Fault::BadGlobalId => add(&mut self.bad_names),
            Fault::GlobalIdInUse => add(&mut self.names_in_use),
            Fault::NoGlobalId => add(&mut self.no_names),
            Fault::AlreadyActive if decides => add(&mut self.in_another),
            Fault::MustAbort if decides => add(&mut self.rolled_already),
            _ => {}
        }
    }
}

/// A call, or a call that waited as it goes on; the locks and the log before it, and what it has appended and come to.
#[derive(Clone, Copy)]
pub(super) struct Deciding<'a> {
    pub(super) opening: &'a Opening,
    pub(super) history: &'a ShortHistory,
    pub(super) session: SessionId,
    pub(super) txn: TxnId,
    pub(super) waited: Option<Doing>,
    pub(super) doing: Doing,
    /// The transaction can only abort, and its session knows.
    pub(super) is_victim: bool,
    pub(super) locks: &'a [Request],
    pub(super) handed_over: &'a [LogRecord],
    pub(super) waiting: &'a [LogRecord],
    pub(super) appended: &'a [LogRecord],
    pub(super) step: &'a Step,
    pub(super) has_failed: bool,
}

// The transaction that was prepared last under a name, and how far it has come.
#[derive(Clone, Copy)]
struct Named {
    txn: TxnId,
    // Its prepare was answered.
    is_told: bool,
    is_committed: bool,
    is_rolled: bool,
    // Its resolve was answered.
    is_answered: bool,
}

impl Named {
    fn note(&mut self, entry: &Entry) {
        match entry {
            Entry::Decided(Decision::Commit(txn)) => self.is_committed |= *txn == self.txn,
            Entry::Decided(Decision::RollBack(txn)) => self.is_rolled |= *txn == self.txn,
            Entry::Exchanged {
                session: _,
                txn,
                exchange,
            } => {
                if *txn == self.txn && exchange.reply.is_ok() {
                    self.is_told |= matches!(exchange.call, Call::Prepare(_));
                    self.is_answered |= matches!(exchange.call, Call::Resolve(_, _));
                }
            }
            Entry::Decided(Decision::Prepare(_, _)) | Entry::Asked { .. } => {}
        }
    }
}

fn is_given(opening: &Opening, txn: TxnId) -> bool {
    for doubt in opening.in_doubt.as_slice() {
        if doubt.txn == txn {
            return true;
        }
    }
    false
}

impl Deciding<'_> {
    /// Judges what the call came to, and counts it.
    pub(super) fn judge(&self, alloc: Global, tally: &mut Prepares) -> Result<(), Trouble> {
        let asked = match (self.doing, self.waited) {
            (Doing::Resume, Some(call)) => call,
            (doing, _) => doing,
        };
        match self.step {
            Step::Done(answer) => {
                tally.count_answer(asked, answer);
                self.check_told(alloc, answer)?;
            }
            Step::Refused(fault) => tally.count_fault(asked, fault),
            _ => {}
        }
        if self.waited.is_some() || self.has_failed {
            return Ok(());
        }
        self.check_refusal(alloc)?;
        self.check_appended(alloc, tally)
    }

    // Those in doubt by the records of before.
    fn check_told(&self, alloc: Global, answer: &Answer) -> Result<(), Trouble> {
        let Answer::AreInDoubt(told) = answer else {
            return Ok(());
        };
        let made = decisions(alloc, self.history.entries())?;
        let wanted = in_doubt(alloc, self.opening, made.as_slice())?;
        check_told(told.as_slice(), wanted.as_slice())
    }

    fn named(&self, alloc: Global, name: Name) -> Result<Option<Named>, AllocError> {
        let global = global_id(alloc, name)?;
        let Some(txn) = self.history.under(alloc, self.opening, &global)? else {
            return Ok(None);
        };
        let mut named = Named {
            txn,
            is_told: is_given(self.opening, txn),
            is_committed: false,
            is_rolled: false,
            is_answered: false,
        };
        for entry in self.history.entries() {
            named.note(entry);
        }
        Ok(Some(named))
    }

    // The call is refused by the fault of a prepared transaction that has to come, and by none of them if none has to.
    fn check_refusal(&self, alloc: Global) -> Result<(), Trouble> {
        let wanted = self.wanted_fault(alloc)?;
        let found = match self.step {
            Step::Refused(fault) if self.is_of_prepared(fault) => fault.number(),
            _ => 0,
        };
        require(found == wanted, "another refusal of a prepare or a resolve")
    }

    // Whether the fault is one of those that `wanted_fault` tells of a call.
    fn is_of_prepared(&self, fault: &Fault) -> bool {
        match self.doing {
            Doing::Prepare(_) => matches!(fault.number(), 1 | 13 | 17 | 18 | 19),
            Doing::Resolve(_, _) => matches!(fault.number(), 1 | 2 | 13 | 17 | 18 | 19 | 20),
            _ => matches!(fault.number(), 17 | 18 | 19 | 20),
        }
    }

    fn wanted_fault(&self, alloc: Global) -> Result<u8, AllocError> {
        let is_prepared = self.history.is_prepared(self.session);
        match self.doing {
            Doing::Prepare(name) => {
                if self.txn.0 == 0 {
                    return Ok(1);
                }
                if is_prepared {
                    return Ok(17);
                }
                if self.is_victim {
                    return Ok(13);
                }
                self.wanted_of_a_name(alloc, name)
            }
            Doing::Resolve(name, outcome) => self.wanted_of_a_resolve(alloc, name, outcome),
            Doing::ForceStage | Doing::ForceOpen | Doing::FlushStep | Doing::Resume => Ok(0),
            Doing::GiveUp => Ok(0),
            Doing::CheckpointStep => Ok(0),
            Doing::Begin | Doing::InDoubt | Doing::Ask(_) => Ok(0),
            _ => Ok(if is_prepared { 17 } else { 0 }),
        }
    }

    fn wanted_of_a_name(&self, alloc: Global, name: Name) -> Result<u8, AllocError> {
        if name.is_none() {
            return Ok(18);
        }
        Ok(match self.named(alloc, name)? {
            Some(named) if !named.is_answered => 19,
            _ => 0,
        })
    }

    fn wanted_of_a_resolve(
        &self,
        alloc: Global,
        name: Name,
        outcome: Outcome,
    ) -> Result<u8, AllocError> {
        match self.named(alloc, name)? {
            Some(named) => Ok(self.wanted_of_one(&named, outcome)),
            None => Ok(if self.txn.0 == 0 { 20 } else { 2 }),
        }
    }

    // .. of one that was prepared under the name
    fn wanted_of_one(&self, named: &Named, outcome: Outcome) -> u8 {
        if self.txn.0 != 0 && self.txn != named.txn {
            return 2;
        }
        if named.is_committed || self.has_ended(named.txn) || !named.is_told {
            return 20;
        }
        let commits = matches!(outcome, Outcome::Commit);
        if named.is_rolled && commits { 13 } else { 0 }
    }

    // The transaction had an End before.
    fn has_ended(&self, txn: TxnId) -> bool {
        ends(self.handed_over, txn) || ends(self.waiting, txn)
    }

    // What a prepare and a resolve append.
    fn check_appended(&self, alloc: Global, tally: &mut Prepares) -> Result<(), Trouble> {
        let is_begun = matches!(self.step, Step::Waits(_) | Step::Done(_));
        match self.doing {
            Doing::Prepare(name) => {
                let is_right = if is_begun {
                    self.is_prepare(alloc, name)?
                } else {
                    self.appended.is_empty()
                };
                require(is_right, "a prepare appends something else")
            }
            Doing::Resolve(name, outcome) => {
                let Some(named) = self.named(alloc, name)? else {
                    return require(self.appended.is_empty(), "a resolve of nobody appends");
                };
                if is_begun && named.txn != self.txn {
                    add(&mut tally.from_elsewhere);
                }
                let is_right = match outcome {
                    Outcome::Commit if is_begun => self.is_commit(named.txn),
                    Outcome::Commit => self.appended.is_empty(),
                    Outcome::Abort => self.is_rollback(&named, is_begun),
                };
                require(is_right, "a resolve appends something else")
            }
            _ => Ok(()),
        }
    }

    // One Prepare, by the name, with the granules that the transaction has in EX, rising.
    fn is_prepare(&self, alloc: Global, name: Name) -> Result<bool, AllocError> {
        let [logged] = self.appended else {
            return Ok(false);
        };
        let Payload::Prepare { global, granules } = &logged.payload else {
            return Ok(false);
        };
        let is_named = *global == global_id(alloc, name)?;
        Ok(logged.txn == self.txn && is_named && self.are_held(granules.as_slice()))
    }

    fn are_held(&self, granules: &[Granule]) -> bool {
        let mut held = 0usize;
        for request in self.locks {
            if request.txn == self.txn && request.held == Some(Mode::EX) {
                if !granules.contains(&request.granule) {
                    return false;
                }
                held = held.saturating_add(1);
            }
        }
        let mut before: Option<Granule> = None;
        for granule in granules {
            if matches!(before, Some(before) if before >= *granule) {
                return false;
            }
            before = Some(*granule);
        }
        held == granules.len()
    }

    fn is_commit(&self, txn: TxnId) -> bool {
        match self.appended {
            [logged] => logged.txn == txn && matches!(logged.payload, Payload::Commit),
            _ => false,
        }
    }

    // A Rollback decided, if it was not decided before, Compensations and an End; what was refused may have made a part of it.
    fn is_rollback(&self, named: &Named, is_whole: bool) -> bool {
        let mut at = 0usize;
        let mut has_end = false;
        for logged in self.appended {
            let may_stand = match logged.payload {
                Payload::RollbackDecided => at == 0 && !named.is_rolled,
                Payload::Compensation { .. } => at > 0 || named.is_rolled,
                Payload::End => at > 0 || named.is_rolled,
                _ => false,
            };
            if !may_stand || has_end || logged.txn != named.txn {
                return false;
            }
            has_end = matches!(logged.payload, Payload::End);
            at = at.saturating_add(1);
        }
        has_end == is_whole
    }
}

fn ends(records: &[LogRecord], txn: TxnId) -> bool {
    for logged in records {
        if logged.txn == txn && matches!(logged.payload, Payload::End) {
            return true;
        }
    }
    false
}

/// A transaction is being rolled back by a decision, and has not ended.
pub(super) fn is_rolling_back(handed_over: &[LogRecord], waiting: &[LogRecord]) -> bool {
    decides_some(handed_over, handed_over, waiting) || decides_some(waiting, handed_over, waiting)
}

// Some of these records decides a rollback that has no End in either part of the log.
fn decides_some(records: &[LogRecord], handed_over: &[LogRecord], waiting: &[LogRecord]) -> bool {
    for logged in records {
        let is_decided = matches!(logged.payload, Payload::RollbackDecided);
        if is_decided && !ends(handed_over, logged.txn) && !ends(waiting, logged.txn) {
            return true;
        }
    }
    false
}
