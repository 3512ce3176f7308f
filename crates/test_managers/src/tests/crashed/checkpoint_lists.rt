//! Every list of up to three events with steps of a checkpoint, as the other lists: with a checkpoint begun amid a transaction, with an End that a frame under way has, with an
//! anchor that is to move, and with one that is to move for the second time, so that both slots are written. A fuse at each call of the log device stops each
//! call of the move, and behind the shorter lists each call of the opens after it.
use super::check_plan;
use super::doings::{DELETE, Doing, INSERT, Turn};
use super::lists::{Counts, Part, Plan};
use std::test::Fail;

/// One of each that these lists are made of.
const EACH_OF_CHECKPOINTS: [Doing; 11] = [
    Doing::Begin,
    INSERT,
    Doing::Update,
    DELETE,
    Doing::Commit,
    Doing::Abort,
    Doing::Ask(0),
    Doing::ForceStage,
    Doing::ForceOpen,
    Doing::FlushStep,
    Doing::CheckpointStep,
];

const A_CHECKPOINT_BEGUN: [Turn; 3] = [
    (1, Doing::Begin),
    (1, Doing::Update),
    (1, Doing::CheckpointStep),
];

const AN_END_UNDER_WAY: [Turn; 6] = [
    (1, Doing::Begin),
    (1, Doing::Update),
    (1, Doing::CheckpointStep),
    (1, Doing::Commit),
    (1, Doing::CheckpointStep),
    (1, Doing::ForceStage),
];

/// The next step moves the anchor: its record is durable, and no page lacks a record from before its checkpoint.
const AN_ANCHOR_TO_MOVE: [Turn; 13] = [
    (1, Doing::Begin),
    (1, Doing::Update),
    (1, Doing::Commit),
    (1, Doing::ForceStage),
    (1, Doing::ForceOpen),
    (1, Doing::FlushStep),
    (1, Doing::CheckpointStep),
    (1, Doing::CheckpointStep),
    (1, Doing::ForceStage),
    (1, Doing::ForceOpen),
    (1, Doing::CheckpointStep),
    (1, Doing::ForceStage),
    (1, Doing::ForceOpen),
];

/// The first anchor is cut off from the log with what it names, and the next step writes its slot again, amid a transaction.
const A_SECOND_ANCHOR_TO_MOVE: [Turn; 23] = [
    (1, Doing::CheckpointStep),
    (1, Doing::CheckpointStep),
    (1, Doing::ForceStage),
    (1, Doing::ForceOpen),
    (1, Doing::CheckpointStep),
    (1, Doing::ForceStage),
    (1, Doing::ForceOpen),
    (1, Doing::CheckpointStep),
    (1, Doing::Begin),
    (1, Doing::Update),
    (1, Doing::Commit),
    (1, Doing::Begin),
    (1, INSERT),
    (1, Doing::CheckpointStep),
    (1, Doing::CheckpointStep),
    (1, Doing::ForceStage),
    (1, Doing::ForceOpen),
    (1, Doing::FlushStep),
    (1, Doing::CheckpointStep),
    (1, Doing::ForceStage),
    (1, Doing::ForceOpen),
    (1, Doing::Ask(0)),
    (1, Doing::FlushStep),
];

#[test]
fn with_a_checkpoint_begun(rt: HostRuntime) -> Result<(), Fail> {
    check_plan(
        &rt,
        &Plan {
            name: "with a checkpoint begun",
            is_on_a_record: true,
            before: &A_CHECKPOINT_BEGUN,
            each: &EACH_OF_CHECKPOINTS,
            longest: 3,
            part: Part::Whole,
            cut_behind: 1,
            wanted: Counts {
                lists: 1464,
                cases: 8141,
                cuts: 184,
            },
        },
    )
}

#[test]
fn with_an_end_under_way(rt: HostRuntime) -> Result<(), Fail> {
    check_plan(
        &rt,
        &Plan {
            name: "with an end under way",
            is_on_a_record: true,
            before: &AN_END_UNDER_WAY,
            each: &EACH_OF_CHECKPOINTS,
            longest: 3,
            part: Part::Whole,
            cut_behind: 1,
            wanted: Counts {
                lists: 1464,
                cases: 8792,
                cuts: 184,
            },
        },
    )
}

#[test]
fn with_an_anchor_to_move(rt: HostRuntime) -> Result<(), Fail> {
    check_plan(
        &rt,
        &Plan {
            name: "with an anchor to move",
            is_on_a_record: true,
            before: &AN_ANCHOR_TO_MOVE,
            each: &EACH_OF_CHECKPOINTS,
            longest: 3,
            part: Part::Whole,
            cut_behind: 1,
            wanted: Counts {
                lists: 1464,
                cases: 12204,
                cuts: 232,
            },
        },
    )
}

#[test]
fn with_a_second_anchor_to_move(rt: HostRuntime) -> Result<(), Fail> {
    check_plan(
        &rt,
        &Plan {
            name: "with a second anchor to move",
            is_on_a_record: true,
            before: &A_SECOND_ANCHOR_TO_MOVE,
            each: &EACH_OF_CHECKPOINTS,
            longest: 2,
            part: Part::Whole,
            cut_behind: 1,
            wanted: Counts {
                lists: 133,
                cases: 933,
                cuts: 572,
            },
        },
    )
}
