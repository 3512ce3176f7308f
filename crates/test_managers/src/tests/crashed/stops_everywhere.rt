//! The worked rows of the script as events, stopped at each call of either device, with each way to lose power. Behind each stop the open is cut off at each of its calls too, twice in a row,
//! and then made whole. Then each call of a row, and of the open before it, fails alone, a read too: it is told once, and nothing goes on behind it. What has to be shown is computed by
//! the slow functions.
use super::devices::LOSSES;
use super::doings::{DELETE, Doing, INSERT, Turn};
use super::failures::check_failures;
use super::lists::{Counts, check_row};
use shore_model::Outcome;
use std::alloc::{AllocError, Global};
use std::test::Fail;

const PREPARE: Doing = Doing::Prepare(Some(0x67));

const FLUSHED_LOSER_IS_UNDONE: [Turn; 5] = [
    (1, Doing::Begin),
    (1, INSERT),
    (1, Doing::ForceStage),
    (1, Doing::ForceOpen),
    (1, Doing::FlushStep),
];

const ROLLBACK_TO_A_SAVEPOINT: [Turn; 10] = [
    (1, Doing::Begin),
    (1, INSERT),
    (1, Doing::Savepoint),
    (1, Doing::Update),
    (1, DELETE),
    (1, Doing::BackTo(0)),
    (1, Doing::Commit),
    (1, Doing::ForceStage),
    (1, Doing::ForceOpen),
    (1, Doing::Ask(0)),
];

const PREPARED_SURVIVES_CRASH: [Turn; 13] = [
    (1, Doing::Begin),
    (1, INSERT),
    (1, PREPARE),
    (1, Doing::ForceStage),
    (1, Doing::ForceOpen),
    (1, Doing::Resume),
    (2, Doing::Begin),
    (2, Doing::GetOf((0, 0, 0))),
    (3, Doing::Resolve(Some(0x67), Outcome::Commit)),
    (3, Doing::ForceStage),
    (3, Doing::ForceOpen),
    (3, Doing::Resume),
    (2, Doing::Resume),
];

const PREPARED_CHANGE_IS_ABORTED: [Turn; 14] = [
    (1, Doing::Begin),
    (1, INSERT),
    (1, Doing::Commit),
    (1, Doing::Begin),
    (1, Doing::Update),
    (1, PREPARE),
    (1, Doing::ForceStage),
    (1, Doing::ForceOpen),
    (1, Doing::Resume),
    (1, Doing::FlushStep),
    (1, Doing::Resolve(Some(0x67), Outcome::Abort)),
    (1, Doing::ForceStage),
    (1, Doing::ForceOpen),
    (1, Doing::Resume),
];

const CRASHES_IN_RESTART: [Turn; 8] = [
    (1, Doing::Begin),
    (1, INSERT),
    (1, Doing::Commit),
    (1, Doing::Begin),
    (1, Doing::Update),
    (1, Doing::UpdateOf((0, 0, 0), 0xcc, 1)),
    (1, Doing::ForceStage),
    (1, Doing::ForceOpen),
];

const TORN_PAGE: [Turn; 6] = [
    (1, Doing::Begin),
    (1, INSERT),
    (1, Doing::Commit),
    (1, Doing::ForceStage),
    (1, Doing::ForceOpen),
    (1, Doing::FlushStep),
];

const CHECKPOINT_IN_TWO_HALVES: [Turn; 14] = [
    (1, Doing::Begin),
    (1, INSERT),
    (1, Doing::CheckpointStep),
    (1, Doing::Commit),
    (1, Doing::ForceStage),
    (1, Doing::ForceOpen),
    (1, Doing::FlushStep),
    (1, Doing::CheckpointStep),
    (1, Doing::ForceStage),
    (1, Doing::ForceOpen),
    (1, Doing::CheckpointStep),
    (1, Doing::ForceStage),
    (1, Doing::ForceOpen),
    (1, Doing::CheckpointStep),
];

const LAZY_COMMIT: [Turn; 10] = [
    (1, Doing::Begin),
    (1, INSERT),
    (1, Doing::Commit),
    (2, Doing::Begin),
    (2, Doing::GetOf((0, 0, 0))),
    (2, Doing::Commit),
    (2, Doing::Ask(1)),
    (2, Doing::ForceStage),
    (2, Doing::ForceOpen),
    (2, Doing::Ask(0)),
];

const A_RECORD: [Turn; 3] = [(1, Doing::Begin), (1, INSERT), (1, Doing::Commit)];

// Updates that fill the log, the last of which is refused; what is put back of them; and a checkpoint behind which none of it is kept.
const A_FULL_LOG: [Turn; 17] = [
    (1, Doing::Begin),
    (1, A_LONG_UPDATE),
    (1, A_LONG_UPDATE),
    (1, A_LONG_UPDATE),
    (1, A_LONG_UPDATE),
    (1, Doing::Abort),
    (1, Doing::ForceStage),
    (1, Doing::ForceOpen),
    (1, Doing::FlushStep),
    (1, Doing::CheckpointStep),
    (1, Doing::CheckpointStep),
    (1, Doing::ForceStage),
    (1, Doing::ForceOpen),
    (1, Doing::CheckpointStep),
    (1, Doing::ForceStage),
    (1, Doing::ForceOpen),
    (1, Doing::CheckpointStep),
];

const A_LONG_UPDATE: Doing = Doing::UpdateOf((0, 0, 0), 0xbb, 3_900);

// The last time the log goes over the ring's end.
fn log_filled_often(alloc: Global) -> Result<Vec<Turn>, AllocError> {
    let mut turns = Vec::from_slice(alloc, &A_RECORD)?;
    for _ in 0..4u32 {
        for turn in &A_FULL_LOG {
            turns.push(*turn)?;
        }
    }
    Ok(turns)
}

// The row is stopped at each call: there are so many ends, and so many opens that are cut off. Then each call of it fails alone: so many failures are met.
fn check_stops(
    rt: &HostRuntime,
    name: &str,
    turns: &[Turn],
    cuts_deep: bool,
    wanted: (u64, u64, u64),
) -> Result<(), Fail> {
    let alloc = rt.alloc();
    let mut met = 0u64;
    for loss in LOSSES {
        met = met.saturating_add(check_failures(alloc, turns, loss)?);
    }
    let Counts { cases, cuts, .. } = check_row(alloc, Vec::from_slice(alloc, turns)?, cuts_deep)?;
    println!(rt; "{name}: {cases} ends, {cuts} opens cut off, {met} failures met")?;
    let (wanted_cases, wanted_cuts, wanted_met) = wanted;
    if cases != wanted_cases || cuts != wanted_cuts || met != wanted_met {
        return Err(Fail::new(format_args!("{name}: other counts are wanted")));
    }
    Ok(())
}

#[test]
fn flushed_loser_is_undone(rt: HostRuntime) -> Result<(), Fail> {
    check_stops(
        &rt,
        "flushed_loser_is_undone",
        &FLUSHED_LOSER_IS_UNDONE,
        false,
        (86, 870, 132),
    )
}

#[test]
fn rollback_to_a_savepoint(rt: HostRuntime) -> Result<(), Fail> {
    check_stops(
        &rt,
        "rollback_to_a_savepoint",
        &ROLLBACK_TO_A_SAVEPOINT,
        false,
        (32, 128, 78),
    )
}

#[test]
fn prepared_survives_crash(rt: HostRuntime) -> Result<(), Fail> {
    check_stops(
        &rt,
        "prepared_survives_crash",
        &PREPARED_SURVIVES_CRASH,
        false,
        (56, 224, 102),
    )
}

#[test]
fn prepared_change_is_aborted(rt: HostRuntime) -> Result<(), Fail> {
    check_stops(
        &rt,
        "prepared_change_is_aborted",
        &PREPARED_CHANGE_IS_ABORTED,
        false,
        (110, 582, 156),
    )
}

#[test]
fn crashes_in_restart(rt: HostRuntime) -> Result<(), Fail> {
    check_stops(
        &rt,
        "crashes_in_restart",
        &CRASHES_IN_RESTART,
        true,
        (32, 920, 78),
    )
}

#[test]
fn torn_page(rt: HostRuntime) -> Result<(), Fail> {
    check_stops(&rt, "torn_page", &TORN_PAGE, true, (86, 1916, 132))
}

#[test]
fn checkpoint_in_two_halves(rt: HostRuntime) -> Result<(), Fail> {
    check_stops(
        &rt,
        "checkpoint_in_two_halves",
        &CHECKPOINT_IN_TWO_HALVES,
        false,
        (170, 822, 222),
    )
}

#[test]
fn lazy_commit(rt: HostRuntime) -> Result<(), Fail> {
    check_stops(&rt, "lazy_commit", &LAZY_COMMIT, false, (32, 128, 78))
}

#[test]
fn log_fills_and_wraps(rt: HostRuntime) -> Result<(), Fail> {
    let turns = log_filled_often(rt.alloc())?;
    check_stops(&rt, "log_fills_and_wraps", &turns, false, (656, 3192, 726))
}
