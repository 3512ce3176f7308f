//! Whether a history is sound, decided slowly.
ghost use Rattle.std.specs.Prelude.{◌≡◌, ◌↔◌, None, IfOk, IsTrue, Some, if◌then◌else◌};
ghost use Rattle.shore_model.specs.Histories as histories;
ghost use Rattle.shore_model.specs.Histories.{RunsAloneAfter, Sound, TakeTurns, TakesTurn, writes_given};

use crate::decisions::{decisions, has_prepared};
use crate::progress::alone;
use crate::replays::serial_records;
use shore_model::{Decision, Entry, Opening};
use shore_types::TxnId;
use std::alloc::{AllocError, Global};

/// Whether each transaction that has a turn runs alone on the serial records just before its turn.
pub fn is_sound(alloc: Global, opening: &Opening, entries: &[Entry]) -> Result<bool, AllocError>
    ensures { IfOk result (λ yes. IsTrue yes ↔ Sound (record { opening = opening.now; entries = entries.now })) }
{
    let made = decisions(alloc, entries)?;
    takes_turns(alloc, opening, entries, made.as_slice())
}

// As `is_sound`, with the decisions of the entries.
fn takes_turns(
    alloc: Global,
    opening: &Opening,
    entries: &[Entry],
    made: &[Decision],
) -> Result<bool, AllocError>
    ensures { IfOk result (λ yes. IsTrue yes ↔ TakeTurns (record { opening = opening.now; entries = entries.now }) made.now) }
{
    for index in 0..made.len() {
        if !takes_turn(alloc, opening, entries, &made[..index], &made[index])? {
            return Ok(false);
        }
    }
    Ok(true)
}

// If the decision is a turn, its transaction runs alone after the decisions before it.
fn takes_turn(
    alloc: Global,
    opening: &Opening,
    entries: &[Entry],
    before: &[Decision],
    decision: &Decision,
) -> Result<bool, AllocError>
    ensures { IfOk result (λ yes. IsTrue yes ↔ TakesTurn (record { opening = opening.now; entries = entries.now }) before.now decision.now) }
{
    match turn_of(opening, before, decision) {
        Some(txn) => runs_alone_after(alloc, opening, entries, before, txn),
        None => Ok(true),
    }
}

/// The transaction whose turn a decision is, after those before it.
pub fn turn_of(opening: &Opening, before: &[Decision], decision: &Decision) -> Option<TxnId>
    ensures { result ≡ histories.turn_of opening.now.in_doubt before.now decision.now }
{
    match decision {
        Decision::Prepare(txn, _) => unless_prepared(opening, before, *txn),
        Decision::Commit(txn) => unless_prepared(opening, before, *txn),
        Decision::RollBack(_) => None,
    }
}

fn unless_prepared(opening: &Opening, before: &[Decision], txn: TxnId) -> Option<TxnId>
    ensures { result ≡ (if histories.has_prepared opening.now.in_doubt before.now txn then None else Some txn) }
{
    if has_prepared(opening, before, txn) {
        None
    } else {
        Some(txn)
    }
}

// A transaction that the opening has not in doubt runs alone on the serial records that the decisions leave.
fn runs_alone_after(
    alloc: Global,
    opening: &Opening,
    entries: &[Entry],
    before: &[Decision],
    txn: TxnId,
) -> Result<bool, AllocError>
    requires { writes_given opening.now.in_doubt txn ≡ None }
    ensures { IfOk result (λ yes. IsTrue yes ↔ RunsAloneAfter (record { opening = opening.now; entries = entries.now }) before.now txn) }
{
    let records = serial_records(alloc, opening, entries, before)?;
    let writes = alone(alloc, opening.slots, &records, entries, txn)?;
    Ok(writes.is_some())
}
