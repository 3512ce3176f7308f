//! Transactions that are prepared and decided. Their names tell what they are decided to be, so that whoever finds one in doubt decides as its client would have.
ghost use Rattle.std.specs.Prelude.{◌≡◌, ◌≢◌, ◌≤◌, ◌+◌, ◌%◌, ◌^◌, ◌++◌, IfOk, List, MatchResult};
ghost use Rattle.shore_types.specs.declared.faults.Fault.TheVariants as Fault;
ghost use Rattle.shore_model.specs.declared.calls.Call.TheVariants as Call;
ghost use Rattle.shore_model.specs.declared.calls.Exchange.{Exchange};
ghost use Rattle.turmoil.specs.Counts.{AreRefused, CountsAll, CountsNone, IsDecided, commits_in};
ghost use Rattle.turmoil.specs.Counts as counts;

use crate::clients::{ABORTED, Notes, number_of};
use crate::kinds::begin_and_give;
use shore_model::{Answer, Call, Outcome};
use shore_shared::{Client, Job};
use shore_types::{Fault, GlobalId, Sequence};
use std::alloc::Global;
use std::thread::yield_now;

// The text of a turn, in a name.
const TURN_BYTES: usize = 8;

/// A transaction is prepared, and decided by its own client: in some turns to roll back.
pub fn decide<C: Client>(
    alloc: Global,
    client: &mut C,
    number: usize,
    turn: u64,
    notes: &mut Notes,
) -> Result<(), Fault>
    ensures told { (es : List Exchange) × (C.told client.new ≡ C.told client.old ++ es)
        × MatchResult result (λ _. CountsAll number (C.known client.new).durable notes.old.commits notes.new.commits es) (λ fault. CountsNone notes.old.commits notes.new.commits fault es) }
    ensures known { (C.known client.old).durable ≤ (C.known client.new).durable }
{
    begin_and_give(alloc, client, number, turn)?;
    client.call(Call::Prepare(name_of(alloc, number, turn)?))?;
    let outcome = outcome_of(turn);
    match resolve(alloc, client, number, turn, outcome) {
        Ok(()) => {
            note(outcome, notes);
            Ok(())
        }
        Err(fault) => Err(fault),
    }
}

fn note(outcome: Outcome, notes: &mut Notes)
    ensures { notes.new.commits % 2 ^ 64 ≡ (notes.old.commits + commits_in outcome) % 2 ^ 64 }
{
    match outcome {
        Outcome::Commit => notes.commits = notes.commits.wrapping_add(1),
        Outcome::Abort => notes.aborts = notes.aborts.saturating_add(1),
    }
}

// It is asked for again if it is refused memory, since nobody else decides.
fn resolve<C: Client>(
    alloc: Global,
    client: &mut C,
    number: usize,
    turn: u64,
    outcome: Outcome,
) -> Result<(), Fault>
    ensures told { (es : List Exchange) × (C.told client.new ≡ C.told client.old ++ es)
        × MatchResult result (λ _. IsDecided (counts.name_of number turn) outcome es) (λ fault. fault ≢ Fault.Device → fault ≢ Fault.NotQuiet → AreRefused (counts.name_of number turn) outcome es) }
    ensures known { (C.known client.old).durable ≤ (C.known client.new).durable }
{
    for _ in 0..u64::MAX {
        match ask_to_resolve(alloc, client, number, turn, outcome) {
            Err(Fault::Memory) => yield_now(),
            answer => return answer,
        }
    }
    Err(Fault::Memory)
}

fn ask_to_resolve<C: Client>(
    alloc: Global,
    client: &mut C,
    number: usize,
    turn: u64,
    outcome: Outcome,
) -> Result<(), Fault>
    ensures told { (es : List Exchange) × (C.told client.new ≡ C.told client.old ++ es)
        × MatchResult result (λ _. IsDecided (counts.name_of number turn) outcome es) (λ fault. fault ≢ Fault.Device → fault ≢ Fault.NotQuiet → AreRefused (counts.name_of number turn) outcome es) }
    ensures known { (C.known client.old).durable ≤ (C.known client.new).durable }
{
    let name = name_of(alloc, number, turn)?;
    match client.call(Call::Resolve(name, outcome)) {
        Ok(answer) => {
            let Answer::Resolved = answer else {
                return Err(Fault::NotQuiet);
            };
            Ok(())
        }
        Err(fault) => Err(fault),
    }
}

// The turn, and the number of the client.
fn name_of(alloc: Global, number: usize, turn: u64) -> Result<GlobalId, Fault>
    ensures { IfOk result (λ name. name ≡ counts.name_of number turn) }
{
    let mut name = Vec::from_slice(alloc, &turn.to_le_bytes())?;
    name.push((number % 256) as u8)?;
    Ok(Sequence::from_vec(name))
}

fn outcome_in(name: &[u8]) -> Option<Outcome> {
    let turn = number_of(name.get(..TURN_BYTES)?)?;
    Some(outcome_of(turn))
}

fn outcome_of(turn: u64) -> Outcome {
    if turn % ABORTED == 0 {
        Outcome::Abort
    } else {
        Outcome::Commit
    }
}

/// Decides those who are in doubt.
#[derive(Drop)]
pub struct Settle;

impl Job for Settle {
    type Done = ();

    ghost use Rattle.std.specs.Prelude.{⊤};

    // Nothing is claimed of it: what it leaves is looked at when the records are shown.
    ghost says = { λ _ _ _ _ _. ⊤ };

    fn work<C: Client>(&self, alloc: Global, _number: usize, client: &mut C) -> Result<(), Fault> {
        let Answer::AreInDoubt(found) = client.call(Call::InDoubt)? else {
            return Err(Fault::NotQuiet);
        };
        for (name, _) in found.as_slice() {
            let Some(outcome) = outcome_in(name.as_slice()) else {
                return Err(Fault::NoGlobalId);
            };
            client.call(Call::Resolve(name.try_clone(alloc)?, outcome))?;
        }
        Ok(())
    }
}
