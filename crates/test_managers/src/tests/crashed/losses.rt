//! Losses of power at any moment, and the restarts behind them: each is judged by what was acknowledged.
use super::chances::Chance;
use super::crashes::{are_in_place, check_crash};
use super::cuts::check_whole;
use super::devices::{Devices, Loss, Manager};
use super::lives::{Ground, Life, Pair, Past};
use super::rollbacks::{NO_ROLLBACKS, Rollbacks};
use super::trouble::{Trouble, require};
use shore_model::rid_map::overlaid;
use shore_model::{LogRecord, Payload, RidMap};
use shore_types::TxnId;
use slow_logs::lawful_logs::is_lawful;
use slow_logs::recovered_records::last_images;
use std::alloc::Global;

/// What has come up.
#[derive(Clone, Copy)]
pub(super) struct Tally {
    /// Calls, resumes, steps of a force and of the flush.
    pub(super) events: u64,
    pub(super) dumps: u64,
    /// Managers that a fuse made fail before the power was lost.
    pub(super) failures: u64,
    pub(super) crashes: u64,
    pub(super) opens_cut_off: u64,
    pub(super) commits_acknowledged: u64,
    pub(super) commits_kept: u64,
    pub(super) losers_undone: u64,
    /// .. and those of them with a change that was put back before.
    pub(super) losers_begun: u64,
    pub(super) pages_flushed: u64,
    pub(super) rollbacks: Rollbacks,
}

impl Tally {
    /// Something of each kind.
    pub(super) fn has_each(&self) -> bool {
        let of_work = self.dumps > 0 && self.failures > 0 && self.pages_flushed > 0;
        let of_commits = self.commits_acknowledged > 0 && self.commits_kept > 0;
        of_work
            && of_commits
            && self.losers_undone > 0
            && self.crashes > 0
            && self.opens_cut_off > 0
    }
}

pub(super) const NOTHING_YET: Tally = Tally {
    events: 0,
    dumps: 0,
    failures: 0,
    crashes: 0,
    opens_cut_off: 0,
    commits_acknowledged: 0,
    commits_kept: 0,
    losers_undone: 0,
    losers_begun: 0,
    pages_flushed: 0,
    rollbacks: NO_ROLLBACKS,
};

/// A dump shows what the records of the log come to, forced or not. One that a failure or a page without a force refuses shows nothing.
pub(super) fn check_dump(
    alloc: Global,
    world: &mut Manager,
    log: &[LogRecord],
    tally: &mut Tally,
) -> Result<(), Trouble> {
    let records = overlaid(alloc, &RidMap::new(alloc), &last_images(alloc, log)?)?;
    if are_in_place(alloc, world, &records)? {
        tally.dumps = tally.dumps.saturating_add(1);
    }
    Ok(())
}

/// Power is lost, on each device as it comes. A whole restart is judged; then some are cut off in a row, and another whole one shows the same. Answers
/// what it shows, and what the next loss of power leaves of it.
pub(super) fn check_loss(
    alloc: Global,
    ground: &Ground,
    life: &mut Life,
    chance: &mut Chance,
    tally: &mut Tally,
) -> Result<Pair, Trouble> {
    judge_past(alloc, &life.past, tally)?;
    let of_log = chance.pick();
    life.devices.lose_power(of_log, chance.pick());
    let Pair { ground: shown, .. } = check_crash(
        alloc,
        ground,
        &life.past,
        life.devices.copy(alloc)?,
    )?;
    count_ends(ground.found.len(), &shown, tally)?;
    let devices = restart_by_chance(alloc, &life.devices, &shown, chance, tally)?;
    Ok(Pair {
        ground: shown,
        devices,
    })
}

// What a manager did before the power is lost, and its log.
fn judge_past(alloc: Global, past: &Past, tally: &mut Tally) -> Result<(), Trouble> {
    let answered = past.acknowledged as u64;
    tally.crashes = tally.crashes.saturating_add(1);
    tally.commits_acknowledged = tally.commits_acknowledged.saturating_add(answered);
    require(is_lawful(alloc, &past.list)?, "the log is not lawful")
}

// Some restarts are cut off in a row; a whole one behind them shows what is wanted. Answers what the next loss of power leaves of it.
fn restart_by_chance(
    alloc: Global,
    left: &Devices,
    wanted: &Ground,
    chance: &mut Chance,
    tally: &mut Tally,
) -> Result<Devices, Trouble> {
    let mut devices = left.copy(alloc)?;
    for _ in 0..chance.below(4) {
        let (fuses, loss) = (chance.fuse(), Loss::Each(chance.pick()));
        let (left, is_cut_off) = devices.open_cut_off(alloc, fuses, loss)?;
        devices = left;
        tally.opens_cut_off = tally.opens_cut_off.saturating_add(u64::from(is_cut_off));
    }
    let mut devices = check_whole(alloc, devices, wanted)?;
    let pick = chance.pick();
    devices.lose_power(pick, pick);
    Ok(devices)
}

// The commits that were kept behind the records of before, and the losers that were undone.
fn count_ends(before: usize, ground: &Ground, tally: &mut Tally) -> Result<(), Trouble> {
    let found = &ground.found;
    let Some(gained) = found.get(before..) else {
        return Err(Trouble("a record of before is gone"));
    };
    for logged in gained {
        if logged.payload.is_commit() {
            tally.commits_kept = tally.commits_kept.saturating_add(1);
        }
    }
    let (Some(kept), Some(undone)) = (found.get(..ground.read), found.get(ground.read..)) else {
        return Err(Trouble("more is read than there is"));
    };
    for logged in undone {
        if logged.payload.is_end() {
            let is_begun = has_compensation(kept, logged.txn);
            tally.losers_undone = tally.losers_undone.saturating_add(1);
            tally.losers_begun = tally.losers_begun.saturating_add(u64::from(is_begun));
        }
    }
    Ok(())
}

// A change of the transaction was put back.
fn has_compensation(records: &[LogRecord], txn: TxnId) -> bool {
    for logged in records {
        if logged.txn == txn && matches!(logged.payload, Payload::Compensation { .. }) {
            return true;
        }
    }
    false
}
