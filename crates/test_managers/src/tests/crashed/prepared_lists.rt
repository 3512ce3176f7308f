//! Every list of up to three events with a prepare and its resolves, as the other lists: in a transaction that may prepare, with a prepare under way, with one that is
//! prepared and written back, with a resolve to abort under way, and with one of which a part is done and durable.
use super::check_plan;
use super::doings::{DELETE, Doing, INSERT, Turn};
use super::lists::{Counts, Part, Plan};
use shore_model::Outcome;
use std::test::Fail;

const PREPARE: Doing = Doing::Prepare(Some(7));

const ROLL_BACK: Doing = Doing::Resolve(Some(7), Outcome::Abort);

/// One of each that these lists are made of.
const EACH_OF_PREPARED: [Doing; 11] = [
    Doing::Begin,
    INSERT,
    Doing::Update,
    PREPARE,
    Doing::Resolve(Some(7), Outcome::Commit),
    ROLL_BACK,
    Doing::InDoubt,
    Doing::ForceStage,
    Doing::ForceOpen,
    Doing::Resume,
    Doing::FlushStep,
];

const A_CHANGE: [Turn; 2] = [(1, Doing::Begin), (1, Doing::Update)];

const A_PREPARE_UNDER_WAY: [Turn; 5] = [
    (1, Doing::Begin),
    (1, Doing::Update),
    (1, INSERT),
    (1, DELETE),
    (1, PREPARE),
];

const ONE_PREPARED: [Turn; 8] = [
    (1, Doing::Begin),
    (1, Doing::Update),
    (1, INSERT),
    (1, PREPARE),
    (1, Doing::ForceStage),
    (1, Doing::ForceOpen),
    (1, Doing::Resume),
    (1, Doing::FlushStep),
];

const A_RESOLVE_UNDER_WAY: [Turn; 8] = [
    (1, Doing::Begin),
    (1, Doing::Update),
    (1, INSERT),
    (1, PREPARE),
    (1, Doing::ForceStage),
    (1, Doing::ForceOpen),
    (1, Doing::Resume),
    (1, ROLL_BACK),
];

/// A prepared transaction has changes on more pages than there are frames, and its rollback has put eight back and needs a force before it goes on: the records of these are forced, and the
/// rest is left to who goes on.
const A_ROLLBACK_BEGUN: [Turn; 21] = [
    (1, Doing::Begin),
    (1, Doing::InsertOf(1, 0xdd, 1)),
    (1, Doing::InsertOf(2, 0xdd, 1)),
    (1, Doing::InsertOf(3, 0xdd, 1)),
    (1, Doing::InsertOf(4, 0xdd, 1)),
    (1, Doing::InsertOf(5, 0xdd, 1)),
    (1, Doing::InsertOf(6, 0xdd, 1)),
    (1, Doing::InsertOf(7, 0xdd, 1)),
    (1, Doing::InsertOf(8, 0xdd, 1)),
    (1, Doing::ForceStage),
    (1, Doing::ForceOpen),
    (1, INSERT),
    (1, PREPARE),
    (1, Doing::ForceStage),
    (1, Doing::ForceOpen),
    (1, Doing::Resume),
    (1, ROLL_BACK),
    (1, Doing::ForceStage),
    (1, Doing::ForceOpen),
    (1, Doing::ForceStage),
    (1, Doing::ForceOpen),
];

#[test]
fn in_a_transaction_that_may_prepare(rt: HostRuntime) -> Result<(), Fail> {
    check_plan(
        &rt,
        &Plan {
            name: "in a transaction that may prepare",
            is_on_a_record: true,
            before: &A_CHANGE,
            each: &EACH_OF_PREPARED,
            longest: 3,
            part: Part::Whole,
            cut_behind: 2,
            wanted: Counts {
                lists: 1464,
                cases: 8141,
                cuts: 2556,
            },
        },
    )
}

#[test]
fn with_a_prepare_under_way(rt: HostRuntime) -> Result<(), Fail> {
    check_plan(
        &rt,
        &Plan {
            name: "with a prepare under way",
            is_on_a_record: true,
            before: &A_PREPARE_UNDER_WAY,
            each: &EACH_OF_PREPARED,
            longest: 3,
            part: Part::Whole,
            cut_behind: 2,
            wanted: Counts {
                lists: 1464,
                cases: 8141,
                cuts: 2500,
            },
        },
    )
}

#[test]
fn with_one_that_is_prepared(rt: HostRuntime) -> Result<(), Fail> {
    check_plan(
        &rt,
        &Plan {
            name: "with one that is prepared",
            is_on_a_record: true,
            before: &ONE_PREPARED,
            each: &EACH_OF_PREPARED,
            longest: 3,
            part: Part::Whole,
            cut_behind: 2,
            wanted: Counts {
                lists: 1464,
                cases: 5024,
                cuts: 1676,
            },
        },
    )
}

#[test]
fn with_a_resolve_under_way(rt: HostRuntime) -> Result<(), Fail> {
    check_plan(
        &rt,
        &Plan {
            name: "with a resolve under way",
            is_on_a_record: true,
            before: &A_RESOLVE_UNDER_WAY,
            each: &EACH_OF_PREPARED,
            longest: 3,
            part: Part::Whole,
            cut_behind: 2,
            wanted: Counts {
                lists: 1464,
                cases: 8141,
                cuts: 2500,
            },
        },
    )
}

#[test]
fn with_a_rollback_begun(rt: HostRuntime) -> Result<(), Fail> {
    check_plan(
        &rt,
        &Plan {
            name: "with a rollback begun",
            is_on_a_record: false,
            before: &A_ROLLBACK_BEGUN,
            each: &EACH_OF_PREPARED,
            longest: 2,
            part: Part::Whole,
            cut_behind: 1,
            wanted: Counts {
                lists: 133,
                cases: 2537,
                cuts: 4124,
            },
        },
    )
}
