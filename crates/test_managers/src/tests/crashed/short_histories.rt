//! The history of a manager, noted as plain data from what its sessions asked and were answered.
use super::devices::Manager;
use super::doings::Doing;
use super::lives::logged;
use super::log_copies::{copy_of_log, push_copies};
use super::trouble::{Trouble, require};
use shore_model::{Answer, Call, Decision, Entry, Exchange, LogRecord, Opening, Payload};
use shore_types::{Fault, GlobalId, Lsn, SessionId, TxnId};
use shore_world::Step;
use slow_histories::decisions::{all_prepared, decisions};
use slow_histories::progress::{enter, start};
use slow_histories::sessions::{is_history, last_under, session_state_after};
use slow_histories::turns::is_sound;
use std::alloc::{AllocError, Global};

// Sessions have numbers below this one.
const SESSIONS: usize = 9;

/// The entries so far, and the calls that wait.
#[derive(Drop)]
pub(super) struct ShortHistory {
    entries: Vec<Entry>,
    // The log: what an open found, and what was appended since.
    log: Vec<LogRecord>,
    // The call of each session that waits, by the session's number.
    waiting: [Option<Doing>; SESSIONS],
    // Whether a call was told that a device has failed.
    has_failed: bool,
}

impl ShortHistory {
    /// Over the log of an open.
    pub(super) fn over(alloc: Global, found: &[LogRecord]) -> Result<ShortHistory, Trouble> {
        Ok(ShortHistory {
            entries: Vec::new(alloc),
            log: copy_of_log(alloc, found)?,
            waiting: [None; SESSIONS],
            has_failed: false,
        })
    }

    /// All records of the log.
    pub(super) fn log(&self) -> &[LogRecord] {
        &self.log
    }

    /// Those of them that are durable.
    pub(super) fn durable_log(&self, world: &Manager) -> &[LogRecord] {
        self.log
            .get(..world.durable().0 as usize)
            .unwrap_or(&self.log)
    }

    pub(super) fn entries(&self) -> &[Entry] {
        &self.entries
    }

    /// The entries are a history, and a sound one.
    pub(super) fn check(&self, alloc: Global, opening: &Opening) -> Result<(), Trouble> {
        require(is_history(alloc, opening, &self.entries)?, "no history")?;
        require(is_sound(alloc, opening, &self.entries)?, "not sound")
    }

    /// Whether a call was told that a device has failed.
    pub(super) fn has_failed(&self) -> bool {
        self.has_failed
    }

    /// The call of a session that waits.
    pub(super) fn waiting(&self, session: SessionId) -> Option<Doing> {
        match self.waiting.get(session.0 as usize) {
            Some(waiting) => *waiting,
            None => None,
        }
    }

    /// The transaction that a session stands in, 0 for none.
    pub(super) fn txn(&self, session: SessionId) -> TxnId {
        session_state_after(session, &self.entries).txn
    }

    /// The transaction of a session is prepared.
    pub(super) fn is_prepared(&self, session: SessionId) -> bool {
        session_state_after(session, &self.entries).prepared
    }

    /// The transaction that was prepared last under a global id.
    pub(super) fn under(
        &self,
        alloc: Global,
        opening: &Opening,
        global: &GlobalId,
    ) -> Result<Option<TxnId>, AllocError> {
        let made = decisions(alloc, &self.entries)?;
        let pairs = all_prepared(alloc, opening, made.as_slice())?;
        Ok(last_under(global, pairs.as_slice()))
    }

    /// How many savepoints a transaction has.
    pub(super) fn savepoints(&self, alloc: Global, txn: TxnId) -> Result<u32, AllocError> {
        let mut progress = start(alloc);
        for entry in &self.entries {
            enter(alloc, &mut progress, txn, entry)?;
        }
        Ok(u32::try_from(progress.saved.as_slice().len()).unwrap_or(u32::MAX))
    }

    /// Notes the decisions of the records that an event has appended.
    pub(super) fn note_appended(
        &mut self,
        alloc: Global,
        appended: &[LogRecord],
    ) -> Result<(), Trouble> {
        push_copies(alloc, &mut self.log, appended)?;
        for logged in appended {
            if let Some(decision) = decision_of(alloc, logged)? {
                self.entries.push(Entry::Decided(decision))?;
            }
        }
        Ok(())
    }

    /// What is done, but most asks are for one of the last tickets that were given.
    pub(super) fn with_a_ticket(&self, doing: Doing, world: &Manager) -> Doing {
        let Doing::Ask(nth) = doing else {
            return doing;
        };
        match self.last_ticket(nth / 2) {
            Some(number) if nth > 0 => Doing::Ask(logged(world).saturating_sub(number)),
            _ => doing,
        }
    }

    // The number of the ticket that was given so many tickets ago.
    fn last_ticket(&self, ago: u64) -> Option<u64> {
        let mut left = ago;
        for entry in self.entries.iter().rev() {
            let Entry::Exchanged { exchange, .. } = entry else {
                continue;
            };
            if let Ok(Answer::Committed(ticket)) = &exchange.reply {
                if left == 0 {
                    return Some(ticket.number().0);
                }
                left = left.saturating_sub(1);
            }
        }
        None
    }

    /// Judges what a step tells of tickets, and notes an ask: a commit's ticket is the number of its record, which is the last one; an ask is answered by what
    /// is durable, whatever has failed.
    pub(super) fn note_tickets(
        &mut self,
        doing: Doing,
        world: &Manager,
        step: &Step,
    ) -> Result<(), Trouble> {
        let logged = logged(world);
        if let Step::Done(Answer::Committed(ticket)) = step {
            return require(ticket.number() == Lsn(logged), "another ticket");
        }
        let Some(ticket) = doing.ticket(logged) else {
            return Ok(());
        };
        let Step::Done(Answer::IsDurable(is_durable)) = step else {
            return Err(Trouble("an ask without an answer"));
        };
        let is_right = *is_durable == (ticket.number() <= world.durable());
        self.entries.push(Entry::Asked {
            ticket,
            durable: *is_durable,
        })?;
        require(is_right, "an ask that is not true")
    }

    /// Notes what a session did and what it came to, behind its decisions. A force, a flush and a step of a checkpoint add nothing.
    pub(super) fn note(
        &mut self,
        alloc: Global,
        opening: &Opening,
        session: SessionId,
        doing: Doing,
        step: Step,
    ) -> Result<(), Trouble> {
        self.note_failure(session, doing, &step)?;
        match step {
            Step::Done(answer) => self.note_reply(alloc, opening, session, doing, Ok(answer)),
            Step::Refused(fault) => self.note_reply(alloc, opening, session, doing, Err(fault)),
            Step::Waits(_) => self.note_wait(session, doing),
            Step::Nothing => require(self.may_be_idle(session, doing), "a call came to nothing"),
        }
    }

    // The failure of a device is told once. Behind it every call is refused, but an ask, a resume of nothing, and a wait that is to be taken back, of which nothing comes.
    fn note_failure(
        &mut self,
        session: SessionId,
        doing: Doing,
        step: &Step,
    ) -> Result<(), Trouble> {
        let is_free = match doing {
            Doing::Ask(_) => true,
            Doing::Resume => self.waiting(session).is_none(),
            Doing::GiveUp => matches!(step, Step::Nothing),
            _ => false,
        };
        let is_refused = matches!(step, Step::Refused(Fault::Failed));
        let may_be = is_free || is_refused || !self.has_failed;
        require(may_be, "a call goes on behind a failure")?;
        if matches!(step, Step::Refused(Fault::Device)) {
            self.has_failed = true;
        }
        Ok(())
    }

    // The reply to a call, or to the one that waited.
    fn note_reply(
        &mut self,
        alloc: Global,
        opening: &Opening,
        session: SessionId,
        doing: Doing,
        reply: Result<Answer, Fault>,
    ) -> Result<(), Trouble> {
        let resumes = matches!(doing, Doing::Resume | Doing::GiveUp);
        let asked = if resumes {
            self.waiting(session).unwrap_or(doing)
        } else {
            doing
        };
        let Some(call) = asked.call(alloc)? else {
            return require(!resumes, "a resume with no call");
        };
        let txn = self.txn_of(alloc, opening, session, &call, &reply)?;
        if resumes {
            self.set_waiting(session, None);
        }
        self.entries.push(Entry::Exchanged {
            session,
            txn,
            exchange: Exchange { call, reply },
        })?;
        Ok(())
    }

    // The transaction that a call is made in, or the one that it begins or decides.
    fn txn_of(
        &self,
        alloc: Global,
        opening: &Opening,
        session: SessionId,
        call: &Call,
        reply: &Result<Answer, Fault>,
    ) -> Result<TxnId, AllocError> {
        match (call, reply) {
            (_, Ok(Answer::Began(txn))) => Ok(*txn),
            (Call::Resolve(global, _), Ok(_)) => {
                Ok(self.under(alloc, opening, global)?.unwrap_or(TxnId(0)))
            }
            _ => Ok(self.txn(session)),
        }
    }

    // A call that waits adds nothing.
    fn note_wait(&mut self, session: SessionId, doing: Doing) -> Result<(), Trouble> {
        if matches!(doing, Doing::Resume) {
            return require(self.waiting(session).is_some(), "a resume with no call");
        }
        if matches!(doing, Doing::GiveUp) {
            return require(false, "a wait that is taken back lasts");
        }
        self.set_waiting(session, Some(doing));
        Ok(())
    }

    // There may be nothing to do: no call is made, and none waits.
    fn may_be_idle(&self, session: SessionId, doing: Doing) -> bool {
        match doing {
            Doing::ForceStage | Doing::ForceOpen | Doing::FlushStep => true,
            Doing::CheckpointStep => true,
            Doing::Resume => self.waiting(session).is_none(),
            Doing::GiveUp => true,
            _ => false,
        }
    }

    fn set_waiting(&mut self, session: SessionId, call: Option<Doing>) {
        if let Some(waiting) = self.waiting.get_mut(session.0 as usize) {
            *waiting = call;
        }
    }
}

/// The decision that a record is of.
pub(super) fn decision_of(
    alloc: Global,
    logged: &LogRecord,
) -> Result<Option<Decision>, AllocError> {
    match &logged.payload {
        Payload::Commit => Ok(Some(Decision::Commit(logged.txn))),
        Payload::RollbackDecided => Ok(Some(Decision::RollBack(logged.txn))),
        Payload::Prepare { global, .. } => {
            Ok(Some(Decision::Prepare(logged.txn, global.try_clone(alloc)?)))
        }
        _ => Ok(None),
    }
}
