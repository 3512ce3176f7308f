//! One to eight sessions side by side over a ring that turns over, with steps of checkpoints, forces and flushes among their calls, and records that take a good part of it, from eight seeds. The
//! counts of what comes up of checkpoints are those of the first run.
use super::chances::Chance;
use super::checkpoints::Checkpoints;
use super::interleaved::{Ways, check_meetings};
use super::losses::Tally;
use super::meetings::{Meetings, NO_MEETINGS};
use std::alloc::Global;
use std::io;
use std::test::Fail;

/// Of each seed sessions make so many events.
const EVENTS_TOGETHER: u64 = 25_000;

const WAYS: Ways = Ways {
    prepares: true,
    checkpoints: true,
    lives: 40,
    events: 240,
};

/// Pairs that sessions work on together, from a seed, until there were so many events, of which so many were steps of checkpoints.
fn check_checkpointed(rt: &HostRuntime, seed: u64, wanted: Checkpoints) -> Result<(), Fail> {
    let mut tally: Meetings = NO_MEETINGS;
    meet_often(rt.alloc(), seed, &mut tally)?;
    tell(rt, seed, &tally)?;
    if tally.checkpoints != wanted {
        return Err(Fail::new(format_args!("seed {seed}: {wanted:?} is wanted")));
    }
    Ok(())
}

fn meet_often(alloc: Global, seed: u64, tally: &mut Meetings) -> Result<(), Fail> {
    let mut chance = Chance::new(seed);
    for _ in 0..EVENTS_TOGETHER {
        if tally.all.events >= EVENTS_TOGETHER {
            break;
        }
        if let Err(trouble) = check_meetings(alloc, &mut chance, WAYS, tally) {
            let events = tally.all.events;
            return Err(Fail::new(format_args!("{trouble:?}: seed {seed}, behind {events} events")));
        }
    }
    Ok(())
}

/// Prints what has come up.
fn tell(rt: &HostRuntime, seed: u64, tally: &Meetings) -> io::Result<()> {
    let Tally {
        events,
        crashes,
        opens_cut_off,
        commits_acknowledged,
        losers_undone,
        ..
    } = tally.all;
    let Meetings { checkpoints, .. } = *tally;
    println!(rt;
        "seed {seed}: {events} events, {crashes} losses of power, {opens_cut_off} opens cut off, {commits_acknowledged} commits acknowledged, {losers_undone} losers undone\n{checkpoints:?}"
    )
}

#[test]
fn checkpointed_from_seed_21(rt: HostRuntime) -> Result<(), Fail> {
    check_checkpointed(
        &rt,
        21,
        Checkpoints {
            begun: 816,
            ended: 782,
            anchored: 699,
            moved: 618,
            idle: 459,
            full: 146,
            cut: 4636,
            cut_bytes: 2808592,
            turns: 17,
        },
    )
}

#[test]
fn checkpointed_from_seed_22(rt: HostRuntime) -> Result<(), Fail> {
    check_checkpointed(
        &rt,
        22,
        Checkpoints {
            begun: 840,
            ended: 803,
            anchored: 732,
            moved: 634,
            idle: 507,
            full: 92,
            cut: 4718,
            cut_bytes: 2874308,
            turns: 18,
        },
    )
}

#[test]
fn checkpointed_from_seed_23(rt: HostRuntime) -> Result<(), Fail> {
    check_checkpointed(
        &rt,
        23,
        Checkpoints {
            begun: 828,
            ended: 790,
            anchored: 720,
            moved: 639,
            idle: 463,
            full: 160,
            cut: 4388,
            cut_bytes: 2501974,
            turns: 15,
        },
    )
}

#[test]
fn checkpointed_from_seed_24(rt: HostRuntime) -> Result<(), Fail> {
    check_checkpointed(
        &rt,
        24,
        Checkpoints {
            begun: 806,
            ended: 782,
            anchored: 703,
            moved: 613,
            idle: 492,
            full: 43,
            cut: 4622,
            cut_bytes: 2465222,
            turns: 16,
        },
    )
}

#[test]
fn checkpointed_from_seed_25(rt: HostRuntime) -> Result<(), Fail> {
    check_checkpointed(
        &rt,
        25,
        Checkpoints {
            begun: 821,
            ended: 790,
            anchored: 726,
            moved: 617,
            idle: 457,
            full: 66,
            cut: 4689,
            cut_bytes: 2833660,
            turns: 18,
        },
    )
}

#[test]
fn checkpointed_from_seed_26(rt: HostRuntime) -> Result<(), Fail> {
    check_checkpointed(
        &rt,
        26,
        Checkpoints {
            begun: 839,
            ended: 811,
            anchored: 739,
            moved: 627,
            idle: 512,
            full: 133,
            cut: 4615,
            cut_bytes: 2657605,
            turns: 16,
        },
    )
}

#[test]
fn checkpointed_from_seed_27(rt: HostRuntime) -> Result<(), Fail> {
    check_checkpointed(
        &rt,
        27,
        Checkpoints {
            begun: 849,
            ended: 814,
            anchored: 743,
            moved: 648,
            idle: 460,
            full: 90,
            cut: 4585,
            cut_bytes: 2552734,
            turns: 15,
        },
    )
}

#[test]
fn checkpointed_from_seed_28(rt: HostRuntime) -> Result<(), Fail> {
    check_checkpointed(
        &rt,
        28,
        Checkpoints {
            begun: 840,
            ended: 798,
            anchored: 741,
            moved: 643,
            idle: 462,
            full: 164,
            cut: 4725,
            cut_bytes: 2971657,
            turns: 19,
        },
    )
}
