//! Runs with checkpoints of which one call of a device fails alone, be it of a checkpoint, of what goes before it, or of the open: over a log whose front is cut off twice, and over a
//! ring that turns over, so that a frame crosses its end.
use super::devices::LOSSES;
use super::doings::{Doing, INSERT, Turn};
use super::failures::check_failures;
use std::alloc::{AllocError, Global};
use std::test::Fail;

/// Two whole checkpoints, the first amid a transaction, with commits between and behind them.
const TWO_CHECKPOINTS: [Turn; 29] = [
    (1, Doing::Begin),
    (1, INSERT),
    (1, Doing::CheckpointStep),
    (1, Doing::Commit),
    (1, Doing::CheckpointStep),
    (1, Doing::ForceStage),
    (1, Doing::ForceOpen),
    (1, Doing::Ask(0)),
    (1, Doing::CheckpointStep),
    (1, Doing::ForceStage),
    (1, Doing::ForceOpen),
    (1, Doing::CheckpointStep),
    (1, Doing::Begin),
    (1, Doing::Update),
    (1, Doing::Commit),
    (1, Doing::ForceStage),
    (1, Doing::ForceOpen),
    (1, Doing::FlushStep),
    (1, Doing::CheckpointStep),
    (1, Doing::CheckpointStep),
    (1, Doing::ForceStage),
    (1, Doing::ForceOpen),
    (1, Doing::CheckpointStep),
    (1, Doing::ForceStage),
    (1, Doing::ForceOpen),
    (1, Doing::CheckpointStep),
    (1, Doing::Begin),
    (1, Doing::Update),
    (1, Doing::Commit),
];

/// Updates of a record that take a fifth of the ring, and a checkpoint behind which none of them is kept.
const A_ROUND: [Turn; 18] = [
    (1, Doing::Begin),
    (1, Doing::UpdateOf((0, 0, 0), 0xab, 3_900)),
    (1, Doing::UpdateOf((0, 0, 0), 0xcd, 3_900)),
    (1, Doing::UpdateOf((0, 0, 0), 0xef, 3_900)),
    (1, Doing::Commit),
    (1, Doing::ForceStage),
    (1, Doing::ForceOpen),
    (1, Doing::Ask(0)),
    (1, Doing::FlushStep),
    (1, Doing::CheckpointStep),
    (1, Doing::CheckpointStep),
    (1, Doing::ForceStage),
    (1, Doing::ForceOpen),
    (1, Doing::CheckpointStep),
    (1, Doing::ForceStage),
    (1, Doing::ForceOpen),
    (1, Doing::CheckpointStep),
    (1, Doing::Ask(0)),
];

const A_RECORD: [Turn; 3] = [(1, Doing::Begin), (1, INSERT), (1, Doing::Commit)];

// So many rounds turn the ring over.
const ROUNDS: u32 = 7;

fn ring_turned(alloc: Global) -> Result<Vec<Turn>, AllocError> {
    let mut turns = Vec::from_slice(alloc, &A_RECORD)?;
    for _ in 0..ROUNDS {
        for turn in &A_ROUND {
            turns.push(*turn)?;
        }
    }
    Ok(turns)
}

/// Each call fails once, with each way to lose power; so many failures are met.
fn check_each(rt: &HostRuntime, name: &str, turns: &[Turn], wanted: u64) -> Result<(), Fail> {
    let mut met = 0u64;
    for loss in LOSSES {
        let more = check_failures(rt.alloc(), turns, loss)?;
        met = met.saturating_add(more);
    }
    println!(rt; "{name}: {met} failures met")?;
    if met != wanted {
        return Err(Fail::new(format_args!("{name}: another number of failures is wanted")));
    }
    Ok(())
}

#[test]
fn each_call_of_checkpoints_fails_alone(rt: HostRuntime) -> Result<(), Fail> {
    check_each(&rt, "each call of checkpoints", &TWO_CHECKPOINTS, 312)
}

#[test]
fn each_call_over_a_ring_fails_alone(rt: HostRuntime) -> Result<(), Fail> {
    let turns = ring_turned(rt.alloc())?;
    check_each(&rt, "each call over a ring", &turns, 1236)
}
