//! What has come up as sessions work side by side.
use super::checkpoints::{Checkpoints, NO_CHECKPOINTS};
use super::deadlocks::{Deadlocks, NO_DEADLOCKS};
use super::decided::{NO_PREPARES, Prepares};
use super::doings::Doing;
use super::losses::{NOTHING_YET, Tally};
use shore_model::Answer;
use shore_types::Fault;
use shore_world::{Step, Wait};

/// What has come up.
#[derive(Clone, Copy)]
pub(super) struct Meetings {
    pub(super) all: Tally,
    /// Calls that came to wait for a lock.
    pub(super) lock_waits: u64,
    /// .. and those that were answered once they waited no more.
    pub(super) answered_behind: u64,
    /// Tries that somebody was in the way of, and waits that were taken back.
    pub(super) blocked: u64,
    pub(super) taken_back: u64,
    /// Asks that were answered by yes, and by no.
    pub(super) told_durable: u64,
    pub(super) told_waiting: u64,
    pub(super) deadlocks: Deadlocks,
    pub(super) prepares: Prepares,
    pub(super) checkpoints: Checkpoints,
}

impl Meetings {
    /// So many events, and something of each kind.
    pub(super) fn has_each(&self, events: u64) -> bool {
        let of_locks = self.lock_waits > 0
            && self.answered_behind > 0
            && self.blocked > 0
            && self.taken_back > 0;
        let of_rollbacks = self.all.rollbacks.has_each() && self.all.losers_begun > 0;
        let of_tickets = self.told_durable > 0 && self.told_waiting > 0;
        self.all.events >= events && of_locks && of_rollbacks && of_tickets && self.all.has_each()
    }

    /// Counts what a session's turn came to, whose call had waited or had not.
    pub(super) fn count(&mut self, waited: Option<Doing>, doing: Doing, step: &Step) {
        let counted = match step {
            Step::Waits(Wait::Lock(_)) if waited.is_none() => &mut self.lock_waits,
            Step::Done(Answer::Flushed(pages)) => {
                let flushed = &mut self.all.pages_flushed;
                *flushed = flushed.saturating_add(*pages as u64);
                return;
            }
            Step::Done(Answer::IsDurable(true)) => &mut self.told_durable,
            Step::Done(Answer::IsDurable(false)) => &mut self.told_waiting,
            Step::Done(_) if goes_on(waited, doing) => &mut self.answered_behind,
            Step::Refused(Fault::WouldBlock { .. }) if matches!(doing, Doing::GiveUp) => {
                &mut self.taken_back
            }
            Step::Refused(Fault::WouldBlock { .. }) => &mut self.blocked,
            _ => return,
        };
        *counted = counted.saturating_add(1);
    }
}

// The turn goes on with a call that waited for a lock.
fn goes_on(waited: Option<Doing>, doing: Doing) -> bool {
    match waited {
        Some(Doing::Prepare(_) | Doing::Resolve(_, _)) | None => false,
        Some(_) => matches!(doing, Doing::Resume),
    }
}

pub(super) const NO_MEETINGS: Meetings = Meetings {
    all: NOTHING_YET,
    lock_waits: 0,
    answered_behind: 0,
    blocked: 0,
    taken_back: 0,
    told_durable: 0,
    told_waiting: 0,
    deadlocks: NO_DEADLOCKS,
    prepares: NO_PREPARES,
    checkpoints: NO_CHECKPOINTS,
};
