//! Every list of up to three events, with a fuse at each call of either device, and with each pick of a crash: of a manager of a formatted pair, of one
//! that has begun on a committed record, of one with a commit of changes under way, of one that has written an undecided change back, and of one with
//! undecided changes in all of its frames; and some lists of one whose abort has put a part back, and of one with a victim that is not told yet. A manager
//! that is opened behind the crash then commits a record, and is crashed too. Behind the shorter lists the restart is also cut off at each call of a
//! device, twice in a row, and then made whole. Then there are
//! random runs. The counts are those of the first run: another one says that an event or a restart makes other calls than it did.
mod chances;
mod checkpoint_failures;
mod checkpoint_lists;
mod checkpointed_together;
mod checkpoints;
mod crashes;
mod cuts;
mod deadlocks;
mod decided;
mod devices;
mod doings;
mod doubts;
mod dumped_parts;
mod failures;
mod interleaved;
mod judged_locks;
mod lists;
mod lives;
mod lock_lists;
mod log_copies;
mod losses;
mod meetings;
mod prepared_lists;
mod prepared_together;
mod prepares;
mod rollbacks;
mod short_histories;
mod stops_everywhere;
mod together;
mod trouble;

use devices::LOSSES;
use doings::{DELETE, Doing, EACH, INSERT, Turn};
use failures::check_failures;
use lists::{Counts, Part, Plan, check_lists};
use std::test::Fail;

const A_TRANSACTION: [Turn; 1] = [(1, Doing::Begin)];

const A_COMMIT_UNDER_WAY: [Turn; 5] = [
    (1, Doing::Begin),
    (1, Doing::Update),
    (1, INSERT),
    (1, DELETE),
    (1, Doing::Commit),
];

/// A change of the committed record is on the volume, and the next one in the log buffer.
const A_CHANGE_WRITTEN_BACK: [Turn; 6] = [
    (1, Doing::Begin),
    (1, Doing::Update),
    (1, Doing::ForceStage),
    (1, Doing::ForceOpen),
    (1, Doing::FlushStep),
    (1, INSERT),
];

/// The first page of the first store is in no frame, and comes to one if a changed page is written back.
const CHANGES_IN_ALL_FRAMES: [Turn; 11] = [
    (1, Doing::Begin),
    (1, Doing::InsertOf(1, 0xdd, 1)),
    (1, Doing::InsertOf(2, 0xdd, 1)),
    (1, Doing::InsertOf(3, 0xdd, 1)),
    (1, Doing::InsertOf(4, 0xdd, 1)),
    (1, Doing::InsertOf(5, 0xdd, 1)),
    (1, Doing::InsertOf(6, 0xdd, 1)),
    (1, Doing::InsertOf(7, 0xdd, 1)),
    (1, Doing::InsertOf(8, 0xdd, 1)),
    (1, Doing::ForceStage),
    (1, Doing::ForceOpen),
];

/// Undecided changes on more pages than there are frames, so that one was written back, and an abort that has put eight back in the frames, and needs a force before the page of the
/// first one can come to a frame: the records of these eight are forced, and the rest is left to who goes on.
const AN_ABORT_BEGUN: [Turn; 17] = [
    (1, Doing::Begin),
    (1, Doing::InsertOf(1, 0xdd, 1)),
    (1, Doing::InsertOf(2, 0xdd, 1)),
    (1, Doing::InsertOf(3, 0xdd, 1)),
    (1, Doing::InsertOf(4, 0xdd, 1)),
    (1, Doing::InsertOf(5, 0xdd, 1)),
    (1, Doing::InsertOf(6, 0xdd, 1)),
    (1, Doing::InsertOf(7, 0xdd, 1)),
    (1, Doing::InsertOf(8, 0xdd, 1)),
    (1, Doing::ForceStage),
    (1, Doing::ForceOpen),
    (1, INSERT),
    (1, Doing::ForceStage),
    (1, Doing::ForceOpen),
    (1, Doing::Abort),
    (1, Doing::ForceStage),
    (1, Doing::ForceOpen),
];

/// The session of lists has a durable change, and waits for another session, which has closed a cycle with it: its transaction is the victim, and it is told as
/// it goes on. The other one waits on until it aborts.
const A_VICTIM_TO_TELL: [Turn; 10] = [
    (2, Doing::Begin),
    (2, Doing::GetOf((0, 0, 0))),
    (1, Doing::Begin),
    (1, Doing::InsertOf(1, 0xdd, 1)),
    (1, Doing::GetOf((0, 0, 0))),
    (1, Doing::ForceStage),
    (1, Doing::ForceOpen),
    (1, Doing::Update),
    (2, Doing::InsertOf(2, 0xdd, 1)),
    (2, Doing::Update),
];

/// One of each that a session with a call that waits is asked.
const EACH_OF_A_VICTIM: [Doing; 11] = [
    Doing::Begin,
    INSERT,
    Doing::Update,
    DELETE,
    Doing::ScanOf(0),
    Doing::Commit,
    Doing::Abort,
    Doing::ForceStage,
    Doing::ForceOpen,
    Doing::Resume,
    Doing::FlushStep,
];

// Lists of three events are the longest.
const LONGEST: u32 = 3;

/// All lists of a plan: there are so many, so many cases of them, and so many restarts that are cut off.
fn check_plan(rt: &HostRuntime, plan: &Plan) -> Result<(), Fail> {
    let Counts { lists, cases, cuts } = check_lists(rt.alloc(), plan)?;
    let name = plan.name;
    println!(rt; "{name}: {lists} lists, {cases} cases, {cuts} restarts cut off")?;
    let wanted = plan.wanted;
    if lists != wanted.lists || cases != wanted.cases || cuts != wanted.cuts {
        return Err(Fail::new(format_args!("{name}: other counts are wanted")));
    }
    Ok(())
}

#[test]
fn on_an_empty_log(rt: HostRuntime) -> Result<(), Fail> {
    check_plan(
        &rt,
        &Plan {
            name: "on an empty log",
            is_on_a_record: false,
            before: &[],
            each: &EACH,
            longest: LONGEST,
            part: Part::Whole,
            cut_behind: 2,
            wanted: Counts {
                lists: 1464,
                cases: 4410,
                cuts: 1596,
            },
        },
    )
}

#[test]
fn in_a_transaction(rt: HostRuntime) -> Result<(), Fail> {
    check_plan(
        &rt,
        &Plan {
            name: "in a transaction",
            is_on_a_record: true,
            before: &A_TRANSACTION,
            each: &EACH,
            longest: LONGEST,
            part: Part::Whole,
            cut_behind: 2,
            wanted: Counts {
                lists: 1464,
                cases: 13930,
                cuts: 5442,
            },
        },
    )
}

#[test]
fn with_a_commit_under_way(rt: HostRuntime) -> Result<(), Fail> {
    check_plan(
        &rt,
        &Plan {
            name: "with a commit under way",
            is_on_a_record: true,
            before: &A_COMMIT_UNDER_WAY,
            each: &EACH,
            longest: LONGEST,
            part: Part::Whole,
            cut_behind: 2,
            wanted: Counts {
                lists: 1464,
                cases: 8139,
                cuts: 2500,
            },
        },
    )
}

#[test]
fn with_a_change_written_back(rt: HostRuntime) -> Result<(), Fail> {
    check_plan(
        &rt,
        &Plan {
            name: "with a change written back",
            is_on_a_record: true,
            before: &A_CHANGE_WRITTEN_BACK,
            each: &EACH,
            longest: LONGEST,
            part: Part::Whole,
            cut_behind: 2,
            wanted: Counts {
                lists: 1464,
                cases: 8083,
                cuts: 6141,
            },
        },
    )
}

/// A part of the lists behind changes in all frames. There are so many cases since each list stands on eight changed pages, so three tests run them.
fn check_changes_in_all_frames(rt: &HostRuntime, part: Part, wanted: Counts) -> Result<(), Fail> {
    check_plan(
        rt,
        &Plan {
            name: "with changes in all frames",
            is_on_a_record: false,
            before: &CHANGES_IN_ALL_FRAMES,
            each: &EACH,
            longest: LONGEST,
            part,
            cut_behind: 1,
            wanted,
        },
    )
}

#[test]
fn with_changes_in_all_frames_first(rt: HostRuntime) -> Result<(), Fail> {
    let wanted = Counts {
        lists: 490,
        cases: 19244,
        cuts: 1303,
    };
    check_changes_in_all_frames(&rt, Part::Third(0), wanted)
}

#[test]
fn with_changes_in_all_frames_second(rt: HostRuntime) -> Result<(), Fail> {
    let wanted = Counts {
        lists: 488,
        cases: 19454,
        cuts: 3579,
    };
    check_changes_in_all_frames(&rt, Part::Third(1), wanted)
}

#[test]
fn with_changes_in_all_frames_third(rt: HostRuntime) -> Result<(), Fail> {
    let wanted = Counts {
        lists: 486,
        cases: 19232,
        cuts: 1243,
    };
    check_changes_in_all_frames(&rt, Part::Third(2), wanted)
}

#[test]
fn with_a_victim_to_tell(rt: HostRuntime) -> Result<(), Fail> {
    check_plan(
        &rt,
        &Plan {
            name: "with a victim to tell",
            is_on_a_record: true,
            before: &A_VICTIM_TO_TELL,
            each: &EACH_OF_A_VICTIM,
            longest: 1,
            part: Part::Whole,
            cut_behind: 1,
            wanted: Counts {
                lists: 12,
                cases: 80,
                cuts: 901,
            },
        },
    )
}

#[test]
fn with_an_abort_begun(rt: HostRuntime) -> Result<(), Fail> {
    check_plan(
        &rt,
        &Plan {
            name: "with an abort begun",
            is_on_a_record: false,
            before: &AN_ABORT_BEGUN,
            each: &EACH,
            longest: 2,
            part: Part::Whole,
            cut_behind: 1,
            wanted: Counts {
                lists: 133,
                cases: 2589,
                cuts: 4124,
            },
        },
    )
}

/// A committed record and its update, a change that is written back and then aborted, and a commit behind that.
const COMMITS_AND_AN_ABORT: [Turn; 19] = [
    (1, Doing::Begin),
    (1, INSERT),
    (1, Doing::Commit),
    (1, Doing::ForceStage),
    (1, Doing::ForceOpen),
    (1, Doing::Ask(0)),
    (1, Doing::Begin),
    (1, Doing::Update),
    (1, Doing::InsertOf(1, 0xdd, 1)),
    (1, Doing::ForceStage),
    (1, Doing::ForceOpen),
    (1, Doing::FlushStep),
    (1, Doing::Abort),
    (1, Doing::Begin),
    (1, Doing::Update),
    (1, Doing::Commit),
    (1, Doing::ForceStage),
    (1, Doing::ForceOpen),
    (1, Doing::Ask(0)),
];

#[test]
fn each_call_fails_alone(rt: HostRuntime) -> Result<(), Fail> {
    let mut met = 0u64;
    for loss in LOSSES {
        let more = check_failures(rt.alloc(), &COMMITS_AND_AN_ABORT, loss)?;
        met = met.saturating_add(more);
    }
    println!(rt; "each call fails alone: {met} failures met")?;
    if met != 192 {
        return Err(Fail::new(format_args!("another number of failures is wanted")));
    }
    Ok(())
}
