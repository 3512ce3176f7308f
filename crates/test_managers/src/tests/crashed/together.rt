//! One to eight sessions side by side, from six seeds. The counts of deadlocks are those of the first run.
use super::chances::Chance;
use super::deadlocks::Deadlocks;
use super::interleaved::{Ways, check_meetings};
use super::losses::Tally;
use super::meetings::{Meetings, NO_MEETINGS};
use super::rollbacks::Rollbacks;
use std::alloc::Global;
use std::io;
use std::test::Fail;

/// Of each seed sessions make so many events.
const EVENTS_TOGETHER: u64 = 18_000;

const WAYS: Ways = Ways {
    prepares: false,
    checkpoints: false,
    lives: 6,
    events: 140,
};

/// Pairs that sessions work on together, from a seed, until there were so many events. Each kind of what is counted has come up, and deadlocks so often.
fn check_together(rt: &HostRuntime, seed: u64, wanted: Deadlocks) -> Result<(), Fail> {
    let mut tally: Meetings = NO_MEETINGS;
    meet_often(rt.alloc(), seed, &mut tally)?;
    tell(rt, seed, &tally)?;
    judge(&tally, seed, wanted)
}

fn meet_often(alloc: Global, seed: u64, tally: &mut Meetings) -> Result<(), Fail> {
    let mut chance = Chance::new(seed);
    for _ in 0..EVENTS_TOGETHER {
        if tally.all.events >= EVENTS_TOGETHER {
            break;
        }
        if let Err(trouble) = check_meetings(alloc, &mut chance, WAYS, tally) {
            let events = tally.all.events;
            return Err(Fail::new(format_args!("{trouble:?}: seed {seed}, behind {events} events")));
        }
    }
    Ok(())
}

fn judge(tally: &Meetings, seed: u64, wanted: Deadlocks) -> Result<(), Fail> {
    if !tally.has_each(EVENTS_TOGETHER) {
        return Err(Fail::new(format_args!("seed {seed}: too little has come up")));
    }
    if tally.deadlocks != wanted {
        return Err(Fail::new(format_args!("seed {seed}: {wanted:?} is wanted")));
    }
    Ok(())
}

/// Prints what has come up.
fn tell(rt: &HostRuntime, seed: u64, tally: &Meetings) -> io::Result<()> {
    let Tally {
        events,
        crashes,
        opens_cut_off,
        commits_acknowledged,
        losers_undone,
        losers_begun,
        ..
    } = tally.all;
    let Rollbacks {
        aborts,
        ways_back,
        savepoints,
        ..
    } = tally.all.rollbacks;
    let Meetings {
        lock_waits,
        answered_behind,
        blocked,
        taken_back,
        told_durable,
        told_waiting,
        deadlocks,
        ..
    } = *tally;
    println!(rt;
        "seed {seed}: {events} events, {crashes} losses of power, {opens_cut_off} opens cut off, {commits_acknowledged} commits acknowledged\n\
         {losers_undone} losers undone, {losers_begun} of them begun\n\
         {savepoints} savepoints, {aborts} aborts and {ways_back} ways back that put something back\n\
         {lock_waits} waits for a lock, {answered_behind} answered behind one, {blocked} tries blocked, {taken_back} waits taken back, {deadlocks:?}\n\
         {told_durable} asks answered by yes, {told_waiting} by no"
    )
}

#[test]
fn from_seed_3(rt: HostRuntime) -> Result<(), Fail> {
    check_together(
        &rt,
        3,
        Deadlocks {
            told_at_once: 88,
            told_going_on: 5,
            told_behind: 155,
            let_through: 9,
            waiting_on: 147,
            of_several: 17,
            longer: 43,
            refused: 91,
            lost: 2,
        },
    )
}

#[test]
fn from_seed_4(rt: HostRuntime) -> Result<(), Fail> {
    check_together(
        &rt,
        4,
        Deadlocks {
            told_at_once: 105,
            told_going_on: 5,
            told_behind: 165,
            let_through: 12,
            waiting_on: 140,
            of_several: 21,
            longer: 41,
            refused: 98,
            lost: 2,
        },
    )
}

#[test]
fn from_seed_5(rt: HostRuntime) -> Result<(), Fail> {
    check_together(
        &rt,
        5,
        Deadlocks {
            told_at_once: 104,
            told_going_on: 3,
            told_behind: 142,
            let_through: 7,
            waiting_on: 127,
            of_several: 17,
            longer: 49,
            refused: 81,
            lost: 3,
        },
    )
}

#[test]
fn from_seed_6(rt: HostRuntime) -> Result<(), Fail> {
    check_together(
        &rt,
        6,
        Deadlocks {
            told_at_once: 97,
            told_going_on: 4,
            told_behind: 158,
            let_through: 9,
            waiting_on: 134,
            of_several: 20,
            longer: 48,
            refused: 104,
            lost: 2,
        },
    )
}

#[test]
fn from_seed_7(rt: HostRuntime) -> Result<(), Fail> {
    check_together(
        &rt,
        7,
        Deadlocks {
            told_at_once: 87,
            told_going_on: 1,
            told_behind: 176,
            let_through: 7,
            waiting_on: 169,
            of_several: 19,
            longer: 44,
            refused: 84,
            lost: 6,
        },
    )
}

#[test]
fn from_seed_8(rt: HostRuntime) -> Result<(), Fail> {
    check_together(
        &rt,
        8,
        Deadlocks {
            told_at_once: 108,
            told_going_on: 5,
            told_behind: 137,
            let_through: 7,
            waiting_on: 135,
            of_several: 12,
            longer: 35,
            refused: 76,
            lost: 5,
        },
    )
}
