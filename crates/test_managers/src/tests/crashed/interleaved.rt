//! Managers with a few sessions side by side, by chance: behind each event the history and the locks are judged, and each crash as with one session.
use super::chances::Chance;
use super::checkpoints::Checkpointing;
use super::crashes::are_in_place;
use super::deadlocks::{Asking, Victims};
use super::decided::{Deciding, Prepares, is_rolling_back};
use super::devices::{Manager, NO_FUSES, cut_off};
use super::doings::Doing;
use super::judged_locks::{check_asked, check_given_up, check_locks, waits_at, would_wait};
use super::lives::{Ground, Life, Pair, Past, formatted, logged, past_of};
use super::lock_lists::{has_cycle, in_order, waiting_request};
use super::log_copies::copy_of_log;
use super::losses::{check_dump, check_loss};
use super::meetings::Meetings;
use super::rollbacks::{check_appended, records_put_back};
use super::short_histories::ShortHistory;
use super::trouble::{Trouble, require};
use shore_model::{Answer, LogRecord, Opening, Request};
use shore_types::{Fault, Lsn, SessionId, TxnId};
use shore_world::{Step, Wait};
use slow_histories::decisions::{decisions, has_prepared};
use std::alloc::{AllocError, Global};

/// What is done with a pair besides: sessions prepare their transactions, and the log's front is cut off behind checkpoints.
#[derive(Clone, Copy)]
pub(super) struct Ways {
    pub(super) prepares: bool,
    pub(super) checkpoints: bool,
    /// How many managers are opened on a pair, one behind another, and so many events at most one is given.
    pub(super) lives: u32,
    pub(super) events: u32,
}

// So many sessions, and what they do.
#[derive(Clone, Copy)]
struct Party {
    sessions: u32,
    ways: Ways,
}

// The sessions of a manager, as they are seen from outside.
#[derive(Drop)]
struct Meeting {
    history: ShortHistory,
    // In the order in which they came.
    requests: Vec<Request>,
    victims: Victims,
    // How far a round with a checkpoint has come.
    round: usize,
}

// A session, the transaction that it stands in, its call that waited, and what it does.
#[derive(Clone, Copy)]
struct Turn {
    session: SessionId,
    txn: TxnId,
    waited: Option<Doing>,
    doing: Doing,
}

// What a manager tells behind an event, the records before it, and what it has appended.
#[derive(Clone, Copy)]
struct Told<'a> {
    step: &'a Step,
    handed_over: &'a [LogRecord],
    waiting: &'a [LogRecord],
    appended: &'a [LogRecord],
    durable: Lsn,
    has_failed: bool,
}

/// A pair is formatted, and then is opened, worked with by one to eight sessions in these ways and crashed a few times.
pub(super) fn check_meetings(
    alloc: Global,
    chance: &mut Chance,
    ways: Ways,
    tally: &mut Meetings,
) -> Result<(), Trouble> {
    let mut pair = formatted(alloc)?;
    let sessions = chance.below(8).saturating_add(1);
    let party = Party { sessions, ways };
    let before = tally.checkpoints.cut_bytes;
    for _ in 0..ways.lives {
        pair = check_life(alloc, &pair, party, chance, tally)?;
    }
    tally.checkpoints.count_turns(before);
    Ok(())
}

// A life on a pair, and the loss of power behind it. Answers what is left of the pair.
fn check_life(
    alloc: Global,
    pair: &Pair,
    party: Party,
    chance: &mut Chance,
    tally: &mut Meetings,
) -> Result<Pair, Trouble> {
    let mut life = live_together(alloc, pair, party, chance, tally)?;
    let left = check_loss(alloc, &pair.ground, &mut life, chance, &mut tally.all)?;
    let (before, now) = (&pair.ground.opening, &left.ground.opening);
    tally.prepares.count_open(before, now);
    Ok(left)
}

// A manager from its open to the loss of power, which soon comes behind a failure.
fn live_together(
    alloc: Global,
    pair: &Pair,
    party: Party,
    chance: &mut Chance,
    tally: &mut Meetings,
) -> Result<Life, Trouble> {
    let mut world = pair.devices.copy(alloc)?.open(alloc)?;
    let past = meet(alloc, &pair.ground, &mut world, party, chance, tally);
    let (devices, passed) = cut_off(world, NO_FUSES);
    Ok(Life {
        past: past?,
        devices,
        passed,
    })
}

fn meet(
    alloc: Global,
    ground: &Ground,
    world: &mut Manager,
    party: Party,
    chance: &mut Chance,
    tally: &mut Meetings,
) -> Result<Past, Trouble> {
    let mut meeting = Meeting {
        history: ShortHistory::over(alloc, &ground.found)?,
        requests: world.nodes(alloc)?,
        victims: Victims::new(alloc),
        round: 0,
    };
    meeting.go_on_by_chance(alloc, ground, world, party, chance, tally)?;
    past_of(alloc, ground, meeting.history, world.durable())
}

impl Meeting {
    fn go_on_by_chance(
        &mut self,
        alloc: Global,
        ground: &Ground,
        world: &mut Manager,
        party: Party,
        chance: &mut Chance,
        tally: &mut Meetings,
    ) -> Result<(), Trouble> {
        for _ in 0..chance.below(party.ways.events) {
            self.make_one(alloc, ground, world, party, chance, tally)?;
            if world.has_failed() && chance.below(4) == 0 {
                break;
            }
        }
        if world.has_failed() {
            tally.all.failures = tally.all.failures.saturating_add(1);
        }
        let lost = self
            .victims
            .count_with_records(self.history.durable_log(world));
        tally.deadlocks.lost = tally.deadlocks.lost.saturating_add(lost);
        Ok(())
    }

    // Sets a fuse, or dumps, or most often lets a session have its turn.
    fn make_one(
        &mut self,
        alloc: Global,
        ground: &Ground,
        world: &mut Manager,
        party: Party,
        chance: &mut Chance,
        tally: &mut Meetings,
    ) -> Result<(), Trouble> {
        match chance.below(400) {
            0 => world.set_log_fuse(u64::from(chance.below(12))),
            1 => world.set_volume_fuse(u64::from(chance.below(40))),
            2 | 3 | 4 => check_dump(alloc, world, self.history.log(), &mut tally.all)?,
            _ => {
                let session = self.session_by_chance(party.sessions, chance);
                let savepoints = self.savepoints(alloc, session)?;
                let about = self.besides(session, party, chance);
                let mut turn = self.turn(session, savepoints, about, chance);
                turn.doing = self.history.with_a_ticket(turn.doing, world);
                if self.go_on(alloc, ground, world, &turn, tally)? {
                    let records = records_put_back(alloc, ground, &self.history, party.sessions)?;
                    are_in_place(alloc, world, &records)?;
                }
            }
        }
        Ok(())
    }

    // How many savepoints a session may go back to.
    fn savepoints(&self, alloc: Global, session: SessionId) -> Result<u32, AllocError> {
        match self.history.waiting(session) {
            Some(_) => Ok(0),
            None => self.history.savepoints(alloc, self.history.txn(session)),
        }
    }

    // A step of a checkpoint or what goes with one, in anybody's turn; or what a session that waits for nothing does about prepared transactions; if anything.
    fn besides(&mut self, session: SessionId, party: Party, chance: &mut Chance) -> Option<Doing> {
        if party.ways.checkpoints {
            let is_free = self.history.waiting(session).is_none();
            let is_in_transaction = is_free && self.history.txn(session).0 > 0;
            if let Some(doing) = chance.doing_about_checkpoints(
                is_in_transaction,
                &mut self.round,
            ) {
                return Some(doing);
            }
        }
        if !party.ways.prepares || self.history.waiting(session).is_some() {
            return None;
        }
        let is_in_transaction = self.history.txn(session).0 > 0;
        chance.doing_about_prepared(is_in_transaction, self.history.is_prepared(session))
    }

    // What a session does in its turn: this, if there is something.
    fn turn(
        &self,
        session: SessionId,
        savepoints: u32,
        about: Option<Doing>,
        chance: &mut Chance,
    ) -> Turn {
        let txn = self.history.txn(session);
        let waited = self.history.waiting(session);
        let doing = match (about, waited) {
            (Some(doing), _) => doing,
            (None, Some(_)) => chance.doing_of_waiter(),
            (None, None) if self.victims.is_told(txn) => chance.doing_of_victim(savepoints),
            (None, None) => chance.doing_of_session(txn.0 > 0, savepoints),
        };
        Turn {
            session,
            txn,
            waited,
            doing,
        }
    }

    // One of the sessions; seldom one whose call would only wait on.
    fn session_by_chance(&self, sessions: u32, chance: &mut Chance) -> SessionId {
        let session = SessionId(chance.below(sessions).saturating_add(1));
        let waits = waiting_request(&self.requests, self.history.txn(session)).is_some();
        if waits && chance.below(6) > 0 {
            return SessionId(chance.below(sessions).saturating_add(1));
        }
        session
    }

    // One event, judged. Answers whether it ends a rollback.
    fn go_on(
        &mut self,
        alloc: Global,
        ground: &Ground,
        world: &mut Manager,
        turn: &Turn,
        tally: &mut Meetings,
    ) -> Result<bool, Trouble> {
        let opening = &ground.opening;
        let (waited, tail) = (world.waiting(alloc)?.len(), world.tail());
        let event = turn.doing.event(alloc, turn.session, logged(world))?;
        let step = world.step(alloc, event);
        let judged = self.judge(alloc, opening, world, turn, waited, &step, tally);
        let waiting = world.waiting(alloc)?;
        let appended = waiting.get(waited..).unwrap_or(&[]);
        let checkpointing = Checkpointing {
            log: self.history.log(),
            appended,
            step: &step,
            durable: world.durable(),
            has_failed: world.has_failed(),
            tails: (tail, world.tail()),
        };
        let checkpointed = checkpointing.judge(turn.doing, &mut tally.checkpoints);
        let has_ended = ends_one(appended)
            || matches!(step, Step::Done(Answer::WentBack | Answer::Aborted));
        let ends_rollback = has_ended
            && !is_rolling_back(self.history.durable_log(world), &waiting);
        self.history.note_appended(alloc, appended)?;
        self.history.note_tickets(turn.doing, world, &step)?;
        self.history
            .note(alloc, opening, turn.session, turn.doing, step)?;
        judged?;
        checkpointed?;
        self.history.check(alloc, opening)?;
        Ok(ends_rollback)
    }

    // What an event has appended, before which so many records waited, what it came to, and the requests behind it.
    fn judge(
        &mut self,
        alloc: Global,
        opening: &Opening,
        world: &Manager,
        turn: &Turn,
        waited: usize,
        step: &Step,
        tally: &mut Meetings,
    ) -> Result<(), Trouble> {
        let waiting = world.waiting(alloc)?;
        let log = copy_of_log(alloc, self.history.durable_log(world))?;
        let handed_over = log.as_slice();
        let appended = check_appended(handed_over, &waiting, turn.txn, waited, step)?;
        tally.all.events = tally.all.events.saturating_add(1);
        tally.all.rollbacks.count(step, appended);
        let requests = self.in_order(alloc, &world.nodes(alloc)?)?;
        let told = Told {
            step,
            handed_over,
            waiting: waiting.get(..waited).unwrap_or(&waiting),
            appended: waiting.get(waited..).unwrap_or(&[]),
            durable: world.durable(),
            has_failed: world.has_failed(),
        };
        self.judge_prepared(alloc, opening, turn, &told, &mut tally.prepares)?;
        let judged = self.judge_locks(alloc, opening, turn, &requests, &told, tally);
        self.requests = requests;
        tally.count(turn.waited, turn.doing, step);
        judged
    }

    // What an event has to do with prepared transactions.
    fn judge_prepared(
        &self,
        alloc: Global,
        opening: &Opening,
        turn: &Turn,
        told: &Told<'_>,
        tally: &mut Prepares,
    ) -> Result<(), Trouble> {
        let deciding = Deciding {
            opening,
            history: &self.history,
            session: turn.session,
            txn: turn.txn,
            waited: turn.waited,
            doing: turn.doing,
            is_victim: self.victims.is_told(turn.txn),
            locks: &self.requests,
            handed_over: told.handed_over,
            waiting: told.waiting,
            appended: told.appended,
            step: told.step,
            has_failed: told.has_failed,
        };
        deciding.judge(alloc, tally)
    }

    // Those whose locks an event lets go: a transaction at its commit or abort, and one that is prepared as its Commit or End is appended.
    fn over(
        &self,
        alloc: Global,
        opening: &Opening,
        turn: &Turn,
        told: &Told<'_>,
    ) -> Result<Vec<TxnId>, AllocError> {
        let mut over = Vec::new(alloc);
        if matches!(
            told.step,
            Step::Done(Answer::Committed(_) | Answer::Aborted)
        ) {
            over.push(turn.txn)?;
        }
        let made = decisions(alloc, self.history.entries())?;
        for logged in told.appended {
            let is_last = logged.payload.is_commit() || logged.payload.is_end();
            if is_last && has_prepared(opening, made.as_slice(), logged.txn) {
                over.push(logged.txn)?;
            }
        }
        Ok(over)
    }

    // The requests of the table, in the order in which they came.
    fn in_order(&self, alloc: Global, nodes: &[Request]) -> Result<Vec<Request>, Trouble> {
        check_locks(alloc, nodes)?;
        Ok(in_order(alloc, &self.requests, nodes)?)
    }

    // What an event came to, and the requests behind it.
    fn judge_locks(
        &mut self,
        alloc: Global,
        opening: &Opening,
        turn: &Turn,
        requests: &[Request],
        told: &Told<'_>,
        tally: &mut Meetings,
    ) -> Result<(), Trouble> {
        self.check_step(alloc, turn, requests, told)?;
        require(!has_cycle(alloc, requests)?, "a cycle of waits stands")?;
        let asking = Asking {
            txn: turn.txn,
            doing: turn.doing,
            waited: turn.waited,
            old: &self.requests,
            new: requests,
            step: told.step,
            has_failed: told.has_failed,
        };
        let mut victims = asking.taken_back(alloc)?;
        self.victims
            .judge(alloc, &asking, &victims, &mut tally.deadlocks)?;
        if matches!(turn.doing, Doing::GiveUp) {
            let (step, has_failed) = (told.step, told.has_failed);
            check_given_up(alloc, &self.requests, requests, turn.txn, step, has_failed)?;
            victims.push(turn.txn)?;
        }
        let over = self.over(alloc, opening, turn, told)?;
        check_asked(&self.requests, requests, turn.txn, &over, &victims)
    }

    // A wait is for a request that waits, or for a record that is not durable. Only who waits is Busy, a savepoint is refused only if it is not there, and a
    // try names one for whom its transaction would wait.
    fn check_step(
        &self,
        alloc: Global,
        turn: &Turn,
        requests: &[Request],
        told: &Told<'_>,
    ) -> Result<(), Trouble> {
        match told.step {
            Step::Waits(Wait::Lock(granule)) => require(
                waits_at(requests, turn.txn, granule),
                "a wait for a lock without a request that waits",
            ),
            Step::Waits(Wait::Durable(number)) => require(
                *number > told.durable,
                "a wait for a record that is durable",
            ),
            Step::Refused(Fault::Busy) => require(turn.waited.is_some(), "Busy without a call"),
            Step::Refused(Fault::NoSavepoint) => require(
                !self.has_savepoint(alloc, turn)?,
                "a savepoint that is there is refused",
            ),
            Step::Refused(Fault::WouldBlock { holder }) => require(
                would_wait(alloc, &self.requests, turn.txn, turn.doing, *holder)?,
                "a try is refused for one who is not in the way",
            ),
            _ => Ok(()),
        }
    }

    // Whether the savepoint is there that the turn goes back to.
    fn has_savepoint(&self, alloc: Global, turn: &Turn) -> Result<bool, Trouble> {
        match turn.doing {
            Doing::BackTo(index) => {
                let savepoints = self.history.savepoints(alloc, turn.txn)?;
                Ok(index < savepoints as usize)
            }
            _ => Ok(false),
        }
    }
}

// An End is among these records.
fn ends_one(records: &[LogRecord]) -> bool {
    records.iter().any(|logged| logged.payload.is_end())
}
