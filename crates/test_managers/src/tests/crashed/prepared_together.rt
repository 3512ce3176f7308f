//! One to eight sessions side by side that prepare and decide too, from six seeds. The counts of what comes up of prepared transactions are those of the first run.
use super::chances::Chance;
use super::decided::Prepares;
use super::interleaved::{Ways, check_meetings};
use super::losses::Tally;
use super::meetings::{Meetings, NO_MEETINGS};
use std::alloc::Global;
use std::io;
use std::test::Fail;

/// Of each seed sessions make so many events.
const EVENTS_TOGETHER: u64 = 17_000;

const WAYS: Ways = Ways {
    prepares: true,
    checkpoints: false,
    lives: 6,
    events: 140,
};

/// Pairs that sessions work on together, from a seed, until there were so many events, of which so many were of prepared transactions.
fn check_prepared(rt: &HostRuntime, seed: u64, wanted: Prepares) -> Result<(), Fail> {
    let mut tally: Meetings = NO_MEETINGS;
    meet_often(rt.alloc(), seed, &mut tally)?;
    tell(rt, seed, &tally)?;
    if tally.prepares != wanted {
        return Err(Fail::new(format_args!("seed {seed}: {wanted:?} is wanted")));
    }
    Ok(())
}

fn meet_often(alloc: Global, seed: u64, tally: &mut Meetings) -> Result<(), Fail> {
    let mut chance = Chance::new(seed);
    for _ in 0..EVENTS_TOGETHER {
        if tally.all.events >= EVENTS_TOGETHER {
            break;
        }
        if let Err(trouble) = check_meetings(alloc, &mut chance, WAYS, tally) {
            let events = tally.all.events;
            return Err(Fail::new(format_args!("{trouble:?}: seed {seed}, behind {events} events")));
        }
    }
    Ok(())
}

/// Prints what has come up.
fn tell(rt: &HostRuntime, seed: u64, tally: &Meetings) -> io::Result<()> {
    let Tally {
        events,
        crashes,
        opens_cut_off,
        ..
    } = tally.all;
    let Meetings {
        lock_waits,
        prepares,
        ..
    } = *tally;
    println!(rt;
        "seed {seed}: {events} events, {crashes} losses of power, {opens_cut_off} opens cut off, {lock_waits} waits for a lock\n{prepares:?}"
    )
}

#[test]
fn prepared_from_seed_11(rt: HostRuntime) -> Result<(), Fail> {
    check_prepared(
        &rt,
        11,
        Prepares {
            prepared: 207,
            committed: 59,
            rolled_back: 64,
            from_elsewhere: 94,
            listed: 134,
            prepared_already: 692,
            bad_names: 13,
            names_in_use: 131,
            no_names: 515,
            in_another: 588,
            rolled_already: 0,
            opens_with: 225,
            given_again: 245,
        },
    )
}

#[test]
fn prepared_from_seed_12(rt: HostRuntime) -> Result<(), Fail> {
    check_prepared(
        &rt,
        12,
        Prepares {
            prepared: 242,
            committed: 81,
            rolled_back: 69,
            from_elsewhere: 152,
            listed: 150,
            prepared_already: 644,
            bad_names: 17,
            names_in_use: 145,
            no_names: 607,
            in_another: 553,
            rolled_already: 0,
            opens_with: 224,
            given_again: 254,
        },
    )
}

#[test]
fn prepared_from_seed_13(rt: HostRuntime) -> Result<(), Fail> {
    check_prepared(
        &rt,
        13,
        Prepares {
            prepared: 222,
            committed: 72,
            rolled_back: 76,
            from_elsewhere: 108,
            listed: 150,
            prepared_already: 774,
            bad_names: 25,
            names_in_use: 121,
            no_names: 533,
            in_another: 653,
            rolled_already: 0,
            opens_with: 207,
            given_again: 222,
        },
    )
}

#[test]
fn prepared_from_seed_14(rt: HostRuntime) -> Result<(), Fail> {
    check_prepared(
        &rt,
        14,
        Prepares {
            prepared: 236,
            committed: 72,
            rolled_back: 79,
            from_elsewhere: 117,
            listed: 171,
            prepared_already: 798,
            bad_names: 21,
            names_in_use: 148,
            no_names: 594,
            in_another: 678,
            rolled_already: 0,
            opens_with: 226,
            given_again: 263,
        },
    )
}

#[test]
fn prepared_from_seed_15(rt: HostRuntime) -> Result<(), Fail> {
    check_prepared(
        &rt,
        15,
        Prepares {
            prepared: 213,
            committed: 74,
            rolled_back: 64,
            from_elsewhere: 127,
            listed: 148,
            prepared_already: 724,
            bad_names: 16,
            names_in_use: 135,
            no_names: 613,
            in_another: 581,
            rolled_already: 0,
            opens_with: 214,
            given_again: 245,
        },
    )
}

#[test]
fn prepared_from_seed_16(rt: HostRuntime) -> Result<(), Fail> {
    check_prepared(
        &rt,
        16,
        Prepares {
            prepared: 232,
            committed: 76,
            rolled_back: 70,
            from_elsewhere: 107,
            listed: 162,
            prepared_already: 937,
            bad_names: 14,
            names_in_use: 132,
            no_names: 517,
            in_another: 731,
            rolled_already: 0,
            opens_with: 202,
            given_again: 221,
        },
    )
}
