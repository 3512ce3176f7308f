//! The lists of events, one after another, and the cases of each.
use super::crashes::{check_commit, check_crash};
use super::cuts::{check_cuts, check_deep_cuts};
use super::devices::{Calls, Devices, LOSSES, Loss, NO_FUSES};
use super::doings::{Doing, EACH, Turn};
use super::lives::{Ground, Life, Pair, Past, formatted, live};
use super::trouble::Trouble;
use shore_disk::Pick;
use std::alloc::{AllocError, Global};
use std::test::Fail;

// They are all the same if the events made no call of a device: what was done before them has been synced.
const THREE_LOSSES: [Loss; 3] = [
    Loss::Each(Pick::Old),
    Loss::Each(Pick::New),
    Loss::Each(Pick::Noise),
];

// How many lists there are of no event, of one, and so on.
const LISTS_BY_LENGTH: [(u32, u32); 4] = [(0, 1), (1, 11), (2, 121), (3, 1331)];

/// How much is run: lists of events, for each of them a case for each fuse and each loss of power that may differ, and restarts that are cut off.
#[derive(Clone, Copy)]
pub(super) struct Counts {
    pub(super) lists: u64,
    pub(super) cases: u64,
    pub(super) cuts: u64,
}

const NOTHING_YET: Counts = Counts {
    lists: 0,
    cases: 0,
    cuts: 0,
};

/// Which lists of a plan are run: all of them may take longer than a test may.
#[derive(Clone, Copy)]
pub(super) enum Part {
    Whole,
    /// Those whose number leaves this when it is divided by three.
    Third(u32),
}

impl Part {
    fn has(self, number: u32) -> bool {
        match self {
            Part::Whole => true,
            Part::Third(third) => number % 3 == third,
        }
    }
}

/// Where lists of events begin, and how much is to be run.
#[derive(Clone, Copy)]
pub(super) struct Plan {
    pub(super) name: &'static str,
    /// On what a manager leaves that has committed a record and was crashed, and else on a formatted pair.
    pub(super) is_on_a_record: bool,
    /// What is done on it first.
    pub(super) before: &'static [Turn],
    /// What lists are made of.
    pub(super) each: &'static [Doing; 11],
    /// Lists have up to so many events.
    pub(super) longest: u32,
    pub(super) part: Part,
    /// Restarts are cut off behind lists of up to so many events.
    pub(super) cut_behind: usize,
    pub(super) wanted: Counts,
}

// Some events, as the digits of the number say.
#[derive(Drop)]
struct List {
    number: u32,
    turns: Vec<Turn>,
    // Restarts behind those that are cut off are cut off at each of their calls.
    cuts_deep: bool,
}

/// Every list of up to three events, or of as many as the plan has, that is of its part, with each fuse and three ways to lose power.
pub(super) fn check_lists(alloc: Global, plan: &Plan) -> Result<Counts, Fail> {
    let pair = pair_of(alloc, plan)?;
    let mut counts = NOTHING_YET;
    for (length, lists) in LISTS_BY_LENGTH {
        if length > plan.longest {
            break;
        }
        for number in 0..lists {
            if plan.part.has(number) {
                check_list(alloc, plan, &pair, length, number, &mut counts)?;
            }
        }
    }
    Ok(counts)
}

/// One list of events alone, on a formatted pair, with each fuse and each way to lose power; and each restart after it is cut off,
/// and if it is to be deep, each one behind that too.
pub(super) fn check_row(alloc: Global, turns: Vec<Turn>, cuts_deep: bool) -> Result<Counts, Fail> {
    let cut_behind = turns.len();
    let pair = formatted(alloc)?;
    let mut counts = NOTHING_YET;
    let list = List {
        number: 0,
        turns,
        cuts_deep,
    };
    check_fuses(
        alloc,
        &Plan {
            name: "a row",
            is_on_a_record: false,
            before: &[],
            each: &EACH,
            longest: 0,
            part: Part::Whole,
            cut_behind,
            wanted: NOTHING_YET,
        },
        &pair,
        &list,
        &LOSSES,
        &mut counts,
    )?;
    Ok(counts)
}

// The pair that the lists of a plan begin on.
fn pair_of(alloc: Global, plan: &Plan) -> Result<Pair, Trouble> {
    let Pair { ground, devices } = formatted(alloc)?;
    if plan.is_on_a_record {
        check_commit(alloc, &ground, devices, Loss::Each(Pick::Old))
    } else {
        Ok(Pair { ground, devices })
    }
}

// So many events.
fn list_of(
    alloc: Global,
    each: &[Doing; 11],
    length: u32,
    number: u32,
) -> Result<List, AllocError> {
    let mut turns = Vec::new(alloc);
    let mut digits = number;
    for _ in 0..length {
        turns.push((1, each[(digits % 11) as usize]))?;
        digits /= 11;
    }
    Ok(List {
        number,
        turns,
        cuts_deep: false,
    })
}

fn check_list(
    alloc: Global,
    plan: &Plan,
    pair: &Pair,
    length: u32,
    number: u32,
    counts: &mut Counts,
) -> Result<(), Fail> {
    let list = list_of(alloc, plan.each, length, number)?;
    check_fuses(alloc, plan, pair, &list, &THREE_LOSSES, counts)
}

// The list with no fuse, and with a fuse for each number of its calls of a device: it blows, but for the last ones.
fn check_fuses(
    alloc: Global,
    plan: &Plan,
    pair: &Pair,
    list: &List,
    losses: &[Loss],
    counts: &mut Counts,
) -> Result<(), Fail> {
    let whole = check_losses(alloc, plan, pair, list, NO_FUSES, losses, counts)?.passed;
    for calls in 0..=whole.log {
        let fuses = Calls {
            log: calls,
            ..NO_FUSES
        };
        let ran = check_losses(alloc, plan, pair, list, fuses, losses, counts)?;
        check_blown(list, fuses, ran.has_failed || calls == whole.log)?;
    }
    for calls in 0..=whole.volume {
        let fuses = Calls {
            volume: calls,
            ..NO_FUSES
        };
        let ran = check_losses(alloc, plan, pair, list, fuses, losses, counts)?;
        check_blown(list, fuses, ran.has_failed || calls == whole.volume)?;
    }
    counts.lists = counts.lists.saturating_add(1);
    Ok(())
}

fn check_blown(list: &List, fuses: Calls, is_right: bool) -> Result<(), Fail> {
    if is_right {
        return Ok(());
    }
    let trouble = Trouble("a fuse has not blown");
    Err(failed_case(list, fuses, Loss::Mixed(1), trouble))
}

// What a list came to.
#[derive(Clone, Copy)]
struct Ran {
    // How many calls of the devices passed.
    passed: Calls,
    // Whether a failure was told.
    has_failed: bool,
}

// Losses differ only if a call of a device passed.
fn check_losses(
    alloc: Global,
    plan: &Plan,
    pair: &Pair,
    list: &List,
    fuses: Calls,
    losses: &[Loss],
    counts: &mut Counts,
) -> Result<Ran, Fail> {
    let mut ran = Ran {
        passed: Calls { log: 0, volume: 0 },
        has_failed: false,
    };
    for loss in losses {
        match check_case(alloc, plan, pair, list, fuses, *loss, counts) {
            Ok(came_to) => ran = came_to,
            Err(trouble) => return Err(failed_case(list, fuses, *loss, trouble)),
        }
        if ran.passed.log == 0 && ran.passed.volume == 0 {
            break;
        }
    }
    Ok(ran)
}

fn failed_case(list: &List, fuses: Calls, loss: Loss, trouble: Trouble) -> Fail {
    let (length, number) = (list.turns.len(), list.number);
    let Calls { log, volume } = fuses;
    Fail::new(format_args!(
        "{trouble:?}: list {number} of {length} events, fuses {log} and {volume}, {loss:?}"
    ))
}

// Power is lost behind a life. Restarts that are cut off are judged, if any are to be, a whole one, and the next life.
fn check_case(
    alloc: Global,
    plan: &Plan,
    pair: &Pair,
    list: &List,
    fuses: Calls,
    loss: Loss,
    counts: &mut Counts,
) -> Result<Ran, Trouble> {
    let ground = &pair.ground;
    let devices = pair.devices.copy(alloc)?;
    let Life {
        past,
        devices,
        passed,
    } = live(alloc, ground, devices, plan.before, &list.turns, fuses)?;
    let devices = devices.lose(alloc, loss)?;
    if list.turns.len() <= plan.cut_behind {
        let cuts = cut_off_behind(alloc, ground, &past, list, &devices, loss)?;
        counts.cuts = counts.cuts.saturating_add(cuts);
    }
    let Pair {
        ground: shown,
        devices,
    } = check_crash(alloc, ground, &past, devices)?;
    let _left = check_commit(alloc, &shown, devices.lose(alloc, loss)?, loss)?;
    counts.cases = counts.cases.saturating_add(1);
    Ok(Ran {
        passed,
        has_failed: past.history.has_failed(),
    })
}

// How many restarts are cut off.
fn cut_off_behind(
    alloc: Global,
    ground: &Ground,
    past: &Past,
    list: &List,
    devices: &Devices,
    loss: Loss,
) -> Result<u64, Trouble> {
    if list.cuts_deep {
        check_deep_cuts(alloc, ground, past, devices, loss)
    } else {
        check_cuts(alloc, ground, past, devices, loss)
    }
}
