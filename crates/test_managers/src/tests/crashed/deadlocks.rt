//! Deadlocks, judged by lists of requests: whose waits are taken back, that each victim is told a true cycle once, and that it can then only abort.
use super::doings::Doing;
use super::lock_lists::{
    Lock, are_among, ask, have_the_same, request_of, take_back, waiting_request,
};
use super::rollbacks::has_record;
use super::trouble::{Trouble, require, require_all};
use shore_model::{Answer, LogRecord, Request};
use shore_types::{Fault, TxnId};
use shore_world::{Step, Wait};
use slow_locks::requests::is_cycle;
use std::alloc::{AllocError, Global};

/// How often what has come up.
#[derive(Clone, Copy, Debug, PartialEq)]
pub(super) struct Deadlocks {
    /// Victims that were told by the call that closed their cycle, and those by a resume that went on with a call and closed it.
    pub(super) told_at_once: u64,
    pub(super) told_going_on: u64,
    /// Those that waited, and were told as they were resumed.
    pub(super) told_behind: u64,
    /// Calls that closed a cycle and were answered all the same, since victims alone were in their way.
    pub(super) let_through: u64,
    /// .. and those that waited on for something else.
    pub(super) waiting_on: u64,
    /// Events with more victims than one.
    pub(super) of_several: u64,
    /// Cycles of more than two.
    pub(super) longer: u64,
    /// Calls of a victim that were refused.
    pub(super) refused: u64,
    /// Victims that a loss of power found with a record that was durable.
    pub(super) lost: u64,
}

pub(super) const NO_DEADLOCKS: Deadlocks = Deadlocks {
    told_at_once: 0,
    told_going_on: 0,
    told_behind: 0,
    let_through: 0,
    waiting_on: 0,
    of_several: 0,
    longer: 0,
    refused: 0,
    lost: 0,
};

fn add(count: &mut u64) {
    *count = count.saturating_add(1);
}

// A victim of this manager, and the event that it was chosen in: who asked for what lock, the requests before, and all who were chosen then.
#[derive(Drop)]
struct Victim {
    txn: TxnId,
    is_told: bool,
    asker: TxnId,
    lock: Lock,
    requests: Vec<Request>,
    chosen: Vec<TxnId>,
}

/// An event that may have asked for a lock, and the requests before and behind it, each in the order in which they came.
#[derive(Clone, Copy)]
pub(super) struct Asking<'a> {
    pub(super) txn: TxnId,
    pub(super) doing: Doing,
    /// The call that waited.
    pub(super) waited: Option<Doing>,
    pub(super) old: &'a [Request],
    pub(super) new: &'a [Request],
    pub(super) step: &'a Step,
    pub(super) has_failed: bool,
}

impl<'a> Asking<'a> {
    // The lock that is asked for, if a call goes as far.
    fn lock(&self) -> Option<Lock> {
        let Some(call) = self.waited else {
            return self.doing.lock();
        };
        let waits = waiting_request(self.old, self.txn).is_some();
        if waits || !matches!(self.doing, Doing::Resume) {
            return None;
        }
        call.lock()
    }

    fn is_deadlock(&self) -> bool {
        matches!(self.step, Step::Refused(Fault::Deadlock { .. }))
    }

    // The call came to its locks for sure.
    fn has_asked(&self) -> bool {
        match self.step {
            Step::Done(_) | Step::Waits(Wait::Lock(_)) => true,
            _ => self.is_deadlock(),
        }
    }

    /// Those whose wait is gone without what they waited for.
    pub(super) fn taken_back(&self, alloc: Global) -> Result<Vec<TxnId>, AllocError> {
        let mut found = Vec::new(alloc);
        for was in self.old {
            if was.wanted.is_some() && was.txn != self.txn && !self.stays(was) {
                found.push(was.txn)?;
            }
        }
        Ok(found)
    }

    // A request that waited waits still, or was granted.
    fn stays(&self, was: &Request) -> bool {
        match request_of(self.new, was.txn, &was.granule) {
            Some(now) => now.wanted == was.wanted || now.held == was.wanted,
            None => false,
        }
    }
}

/// The victims of a manager, from their choice to their abort.
#[derive(Drop)]
pub(super) struct Victims {
    victims: Vec<Victim>,
}

impl Victims {
    pub(super) fn new(alloc: Global) -> Victims {
        Victims {
            victims: Vec::new(alloc),
        }
    }

    // Whether its session knows, if the transaction is a victim.
    fn told(&self, txn: TxnId) -> Option<bool> {
        for victim in &self.victims {
            if victim.txn == txn {
                return Some(victim.is_told);
            }
        }
        None
    }

    /// The transaction can only abort, and its session knows.
    pub(super) fn is_told(&self, txn: TxnId) -> bool {
        matches!(self.told(txn), Some(true))
    }

    /// How many of them have one of these records.
    pub(super) fn count_with_records(&self, records: &[LogRecord]) -> u64 {
        let mut count = 0u64;
        for victim in &self.victims {
            if has_record(records, victim.txn) {
                add(&mut count);
            }
        }
        count
    }

    /// Judges an event by the requests before and behind it, of which those of these transactions were taken back.
    pub(super) fn judge(
        &mut self,
        alloc: Global,
        asking: &Asking<'_>,
        found: &[TxnId],
        tally: &mut Deadlocks,
    ) -> Result<(), Trouble> {
        let resumes = matches!(asking.doing, Doing::Resume);
        match self.told(asking.txn) {
            Some(true) => self.check_doomed(asking, found, tally),
            Some(false) if resumes => self.check_told(alloc, asking, found, tally),
            _ => self.judge_lock(alloc, asking, found, tally),
        }
    }

    // A victim that knows can only abort, and is then no victim: all else is refused, and changes nothing.
    fn check_doomed(
        &mut self,
        asking: &Asking<'_>,
        found: &[TxnId],
        tally: &mut Deadlocks,
    ) -> Result<(), Trouble> {
        require(found.is_empty(), "a victim of one that can only abort")?;
        if matches!(asking.step, Step::Done(Answer::Aborted)) {
            self.victims.retain(|victim| victim.txn != asking.txn);
            return require(
                matches!(asking.doing, Doing::Abort),
                "an abort of another call",
            );
        }
        let is_refused = match asking.doing {
            Doing::ForceStage | Doing::ForceOpen | Doing::FlushStep | Doing::Resume => true,
            Doing::CheckpointStep | Doing::InDoubt | Doing::Ask(_) | Doing::GiveUp => true,
            _ => is_refused(asking, tally),
        };
        require_all(&[
            (is_refused, "a victim does more than abort"),
            (
                have_the_same(asking.old, asking.new),
                "a victim's locks change",
            ),
        ])
    }

    // The session of a victim that waited is told its cycle, and no lock has changed.
    fn check_told(
        &mut self,
        alloc: Global,
        asking: &Asking<'_>,
        found: &[TxnId],
        tally: &mut Deadlocks,
    ) -> Result<(), Trouble> {
        require_all(&[
            (found.is_empty(), "a victim of one that is told"),
            (
                have_the_same(asking.old, asking.new),
                "a victim's locks change",
            ),
        ])?;
        if asking.has_failed {
            return Ok(());
        }
        for victim in &mut self.victims {
            if victim.txn == asking.txn {
                let is_true = was_in_cycle(alloc, asking, victim)?;
                require(is_true, "a cycle that is none is told behind")?;
                victim.is_told = true;
            }
        }
        check_cycle(asking, tally)?;
        add(&mut tally.told_behind);
        Ok(())
    }

    // A call that asks for a lock, round by round: it waits, the victims of its cycles wait no more, and it goes on if they were all that was in its way.
    fn judge_lock(
        &mut self,
        alloc: Global,
        asking: &Asking<'_>,
        found: &[TxnId],
        tally: &mut Deadlocks,
    ) -> Result<(), Trouble> {
        let decides = matches!(asking.doing, Doing::Resolve(_, _));
        let must_abort = !decides && matches!(asking.step, Step::Refused(Fault::MustAbort));
        require(!must_abort, "MustAbort comes to one that may do more")?;
        let Some(lock) = asking.lock() else {
            return require(
                found.is_empty() && !asking.is_deadlock(),
                "a victim of one that asks for nothing",
            );
        };
        if found.is_empty() && !asking.has_asked() {
            return Ok(());
        }
        let is_own = check_rounds(alloc, asking, lock, found)?;
        if is_own {
            check_cycle(asking, tally)?;
            self.push(alloc, asking, lock, found, asking.txn)?;
        }
        for txn in found {
            self.push(alloc, asking, lock, found, *txn)?;
        }
        count_ways_on(asking, found.len(), is_own, tally);
        Ok(())
    }

    // The one that asks is told at once.
    fn push(
        &mut self,
        alloc: Global,
        asking: &Asking<'_>,
        lock: Lock,
        found: &[TxnId],
        txn: TxnId,
    ) -> Result<(), AllocError> {
        let requests = asking.old.to_vec(alloc)?;
        let chosen = found.to_vec(alloc)?;
        self.victims.push(Victim {
            txn,
            is_told: txn == asking.txn,
            asker: asking.txn,
            lock,
            requests,
            chosen,
        })?;
        Ok(())
    }
}

// The requests are those that the rounds have left, if the victims are taken as they asked, or else the greatest first: one that is taken may let another
// through that would have been a victim. Answers whether the one that asks is a victim.
fn check_rounds(
    alloc: Global,
    asking: &Asking<'_>,
    lock: Lock,
    found: &[TxnId],
) -> Result<bool, Trouble> {
    match check_in_order(alloc, asking, lock, found) {
        Err(_) => check_in_order(alloc, asking, lock, &greatest_first(alloc, found)?),
        as_asked => as_asked,
    }
}

fn greatest_first(alloc: Global, txns: &[TxnId]) -> Result<Vec<TxnId>, AllocError> {
    let mut order = Vec::new(alloc);
    for _ in txns {
        let mut greatest = TxnId(0);
        for txn in txns {
            if *txn > greatest && !order.contains(txn) {
                greatest = *txn;
            }
        }
        order.push(greatest)?;
    }
    Ok(order)
}

fn check_in_order(
    alloc: Global,
    asking: &Asking<'_>,
    lock: Lock,
    found: &[TxnId],
) -> Result<bool, Trouble> {
    let mut table = asking.old.to_vec(alloc)?;
    let is_own = go_round(alloc, asking, lock, found, &mut table)?;
    check_left(asking, lock, &table)?;
    require(
        is_own || !asking.is_deadlock(),
        "a cycle that is none is told",
    )?;
    Ok(is_own)
}

// Asks and takes back, as often as there are victims at most: the one that asks among them, if it was told so, which is answered.
fn go_round(
    alloc: Global,
    asking: &Asking<'_>,
    lock: Lock,
    found: &[TxnId],
    table: &mut Vec<Request>,
) -> Result<bool, Trouble> {
    for _ in 0..=found.len() {
        if !ask(alloc, table, asking.txn, lock)? {
            return Ok(false);
        }
        let is_own = is_told_of(alloc, asking, table)?;
        if is_own {
            take_back(alloc, table, asking.txn)?;
        }
        take_back_each(alloc, table, found, asking.txn)?;
        if is_own || waiting_request(table, asking.txn).is_some() {
            return Ok(is_own);
        }
    }
    Err(Trouble("more victims than waits"))
}

// All but one of them wait no more.
fn take_back_each(
    alloc: Global,
    table: &mut Vec<Request>,
    txns: &[TxnId],
    but: TxnId,
) -> Result<(), AllocError> {
    for txn in txns {
        if *txn != but {
            take_back(alloc, table, *txn)?;
        }
    }
    Ok(())
}

// The cycle that a victim is told was one as it was chosen, whichever of the others waited no more then: none, one of them, or all.
fn was_in_cycle(alloc: Global, asking: &Asking<'_>, victim: &Victim) -> Result<bool, AllocError> {
    for other in &victim.chosen {
        if is_told_without(alloc, asking, victim, &[*other])? {
            return Ok(true);
        }
    }
    is_told_without(alloc, asking, victim, &victim.chosen)
}

// The cycle that a victim is told is one of the waits behind others that wait no more.
fn is_told_without(
    alloc: Global,
    asking: &Asking<'_>,
    victim: &Victim,
    gone: &[TxnId],
) -> Result<bool, AllocError> {
    let mut table = victim.requests.to_vec(alloc)?;
    wait_without(alloc, victim, gone, &mut table)?;
    is_told_of(alloc, asking, &table)
}

// The one that asked waits, behind others that wait no more.
fn wait_without(
    alloc: Global,
    victim: &Victim,
    gone: &[TxnId],
    table: &mut Vec<Request>,
) -> Result<(), AllocError> {
    let _waits = ask(alloc, table, victim.asker, victim.lock)?;
    take_back_each(alloc, table, gone, victim.txn)?;
    if waiting_request(table, victim.asker).is_none() {
        let _waits_on = ask(alloc, table, victim.asker, victim.lock)?;
    }
    Ok(())
}

// The cycle that the transaction is told begins with it, its number is the greatest, and nobody is in it twice.
fn check_cycle(asking: &Asking<'_>, tally: &mut Deadlocks) -> Result<(), Trouble> {
    let Step::Refused(Fault::Deadlock { cycle }) = asking.step else {
        return Err(Trouble("a victim is not told its cycle"));
    };
    let txns = cycle.as_slice();
    require(
        txns.first() == Some(&asking.txn),
        "a cycle begins with another",
    )?;
    check_members(txns, asking.txn)?;
    if txns.len() > 2 {
        add(&mut tally.longer);
    }
    Ok(())
}

fn check_members(txns: &[TxnId], victim: TxnId) -> Result<(), Trouble> {
    for (index, txn) in txns.iter().enumerate() {
        let later = txns.get(index.saturating_add(1)..).unwrap_or(&[]);
        require_all(&[
            (*txn <= victim, "a victim has not the greatest number"),
            (!later.contains(txn), "one is in a cycle twice"),
        ])?;
    }
    Ok(())
}

// The cycle that is told is one of these waits.
fn is_told_of(alloc: Global, asking: &Asking<'_>, waits: &[Request]) -> Result<bool, AllocError> {
    match asking.step {
        Step::Refused(Fault::Deadlock { cycle }) => is_cycle(alloc, waits, cycle.as_slice()),
        _ => Ok(false),
    }
}

// The requests are those that the rounds have left; an insert that has its store goes on to a page and a record, for its own transaction alone.
fn check_left(asking: &Asking<'_>, lock: Lock, table: &[Request]) -> Result<(), Trouble> {
    let is_left = if lock.goes_on {
        are_among(asking.new, table, asking.txn) && are_among(table, asking.new, asking.txn)
    } else {
        have_the_same(asking.new, table)
    };
    require(is_left, "other requests are left than the rounds leave")
}

// A call of a victim that knows is refused, and an abort only by a failure.
fn is_refused(asking: &Asking<'_>, tally: &mut Deadlocks) -> bool {
    let Step::Refused(fault) = asking.step else {
        return false;
    };
    match fault {
        Fault::AlreadyActive => matches!(asking.doing, Doing::Begin | Doing::Resolve(_, _)),
        Fault::MustAbort => {
            add(&mut tally.refused);
            !matches!(asking.doing, Doing::Abort)
        }
        Fault::Failed => asking.has_failed,
        _ => asking.has_failed && matches!(asking.doing, Doing::Abort),
    }
}

// What became of the call that closed a cycle.
fn count_ways_on(asking: &Asking<'_>, found: usize, is_own: bool, tally: &mut Deadlocks) {
    if is_own {
        match asking.doing {
            Doing::Resume => add(&mut tally.told_going_on),
            _ => add(&mut tally.told_at_once),
        }
    } else if found > 0 {
        match asking.step {
            Step::Waits(_) => add(&mut tally.waiting_on),
            _ => add(&mut tally.let_through),
        }
    }
    if found.saturating_add(usize::from(is_own)) > 1 {
        add(&mut tally.of_several);
    }
}
