//! The decisions of a history, and what a crash may keep of them, computed slowly.
ghost use Rattle.std.specs.Prelude.{◌≡◌, ◌==◌, ◌∷◌, ◌++◌, ◌↔◌, [], ℕ, Bool, List, filter, take, All, Contains, IfOk, OnOk, IsTrue};
ghost use Rattle.std.specs.List.{cons_option, filter_map, list_any};
ghost use Rattle.shore_model.specs.declared.histories.Entry.{Entry};
ghost use Rattle.shore_model.specs.declared.histories.Entry.TheVariants.{Asked};
ghost use Rattle.shore_model.specs.declared.histories.InDoubt.{InDoubt};
ghost use Rattle.shore_model.specs.Histories as histories;
ghost use Rattle.shore_model.specs.Histories.{Kept, is_ended_by, is_prepare_of, is_undecided, decision_of, acknowledged_by, commits_with, decision_asked_by, prepared_by, tickets};

use shore_model::{Answer, Call, Decision, Entry, InDoubt, Opening, Outcome};
use shore_types::{GlobalId, Sequence, Ticket, TxnId};
use std::alloc::{AllocError, Global};

/// The decisions, in the order of the events that gave them.
pub fn decisions(alloc: Global, entries: &[Entry]) -> Result<Sequence<Decision>, AllocError>
    ensures { IfOk result (λ found. found ≡ histories.decisions entries.now) }
{
    let mut found = Sequence::new(alloc);
    for entry in entries {
        push_some(&mut found, decided(alloc, entry)?)?;
    }
    Ok(found)
}

/// The decisions that are acknowledged: a commit where its ticket is asked for and said to be durable, a prepare and a resolve where their calls are answered Ok.
pub fn acknowledged(alloc: Global, entries: &[Entry]) -> Result<Sequence<Decision>, AllocError>
    ensures { IfOk result (λ found. found ≡ histories.acknowledged entries.now) }
{
    let mut found = Sequence::new(alloc);
    for index in 0..entries.len() {
        push_acknowledged(alloc, &mut found, &entries[..index], &entries[index])?;
    }
    Ok(found)
}

// What an entry acknowledges, after those before it.
fn push_acknowledged(
    alloc: Global,
    found: &mut Sequence<Decision>,
    before: &[Entry],
    entry: &Entry,
) -> Result<(), AllocError>
    ensures { OnOk result (found.new ≡ found.old ++ acknowledged_by before.now entry.now) }
{
    match entry {
        Entry::Asked { ticket, durable } => {
            if *durable {
                push_commits(found, before, *ticket)?;
            }
            Ok(())
        }
        _ => push_some(found, answered(alloc, entry)?),
    }
}

// The commits that have the ticket.
fn push_commits(
    found: &mut Sequence<Decision>,
    before: &[Entry],
    ticket: Ticket,
) -> Result<(), AllocError>
    ensures { OnOk result (found.new ≡ found.old ++ commits_with ticket (tickets before.now)) }
{
    for entry in before {
        push_some(found, commit_of(entry, ticket))?;
    }
    Ok(())
}

// The commit that an entry answers with the ticket.
fn commit_of(entry: &Entry, ticket: Ticket) -> Option<Decision>
    ensures { cons_option result [] ≡ commits_with ticket (tickets (entry.now ∷ [])) }
{
    let (given, txn) = ticket_in(entry)?;
    (given == ticket).then_some(Decision::Commit(txn))
}

// The ticket that an entry gives, with its transaction.
fn ticket_in(entry: &Entry) -> Option<(Ticket, TxnId)>
    ensures { result ≡ histories.ticket_in entry.now }
{
    match entry {
        Entry::Exchanged {
            session: _,
            txn,
            exchange,
        } => match &exchange.reply {
            Ok(Answer::Committed(ticket)) => Some((*ticket, *txn)),
            _ => None,
        },
        _ => None,
    }
}

fn push_some(found: &mut Sequence<Decision>, decision: Option<Decision>) -> Result<(), AllocError>
    ensures { OnOk result (found.new ≡ found.old ++ cons_option decision []) }
{
    if let Some(decision) = decision {
        found.push(decision)?;
    }
    Ok(())
}

fn decided(alloc: Global, entry: &Entry) -> Result<Option<Decision>, AllocError>
    ensures { IfOk result (λ decision. decision ≡ decision_of entry.now) }
{
    match entry {
        Entry::Decided(decision) => Ok(Some(copied(alloc, decision)?)),
        _ => Ok(None),
    }
}

// What a call acknowledges that is answered Ok.
fn answered(alloc: Global, entry: &Entry) -> Result<Option<Decision>, AllocError>
    ensures { IfOk result (λ decision. (before : List Entry) → ((ticket : ℕ) (durable : Bool) → entry.now ≡ Asked ticket durable → ⊥) → cons_option decision [] ≡ acknowledged_by before entry.now) }
{
    match entry {
        Entry::Exchanged {
            session: _,
            txn,
            exchange,
        } => {
            if exchange.reply.is_ok() {
                asked(alloc, *txn, &exchange.call)
            } else {
                Ok(None)
            }
        }
        _ => Ok(None),
    }
}

fn asked(alloc: Global, txn: TxnId, call: &Call) -> Result<Option<Decision>, AllocError>
    ensures { IfOk result (λ decision. decision ≡ decision_asked_by txn call.now) }
{
    match call {
        Call::Prepare(global) => Ok(Some(Decision::Prepare(txn, global.try_clone(alloc)?))),
        Call::Resolve(_, Outcome::Commit) => Ok(Some(Decision::Commit(txn))),
        Call::Resolve(_, Outcome::Abort) => Ok(Some(Decision::RollBack(txn))),
        _ => Ok(None),
    }
}

fn copied(alloc: Global, decision: &Decision) -> Result<Decision, AllocError>
    ensures { IfOk result (λ copy. copy ≡ decision.now) }
{
    match decision {
        Decision::Commit(txn) => Ok(Decision::Commit(*txn)),
        Decision::Prepare(txn, global) => Ok(Decision::Prepare(*txn, global.try_clone(alloc)?)),
        Decision::RollBack(txn) => Ok(Decision::RollBack(*txn)),
    }
}

/// Whether what is kept is a prefix of the decisions that holds every acknowledged one.
pub fn is_kept(alloc: Global, entries: &[Entry], kept: &[Decision]) -> Result<bool, AllocError>
    ensures { IfOk result (λ yes. IsTrue yes ↔ Kept entries.now kept.now) }
{
    let made = decisions(alloc, entries)?;
    let answered = acknowledged(alloc, entries)?;
    Ok(keeps(kept, made.as_slice(), answered.as_slice()))
}

fn keeps(kept: &[Decision], made: &[Decision], answered: &[Decision]) -> bool
    ensures { IsTrue result ↔ ((n : ℕ) × (kept.now ≡ take n made.now)) × All (Contains kept.now) answered.now }
{
    is_beginning(made, kept) && holds_each(kept, answered)
}

fn is_beginning(made: &[Decision], kept: &[Decision]) -> bool
    ensures { IsTrue result ↔ ((n : ℕ) × (kept.now ≡ take n made.now)) }
{
    made.starts_with(kept)
}

fn holds_each(kept: &[Decision], answered: &[Decision]) -> bool
    ensures { IsTrue result ↔ All (Contains kept.now) answered.now }
{
    for decision in answered {
        if !holds(kept, decision) {
            return false;
        }
    }
    true
}

fn holds(kept: &[Decision], answered: &Decision) -> bool
    ensures { IsTrue result ↔ Contains kept.now answered.now }
{
    kept.contains(answered)
}

/// The transactions prepared before or by the decisions, with their global ids.
pub fn all_prepared(
    alloc: Global,
    opening: &Opening,
    decisions: &[Decision],
) -> Result<Sequence<(TxnId, GlobalId)>, AllocError>
    ensures { IfOk result (λ found. found ≡ histories.all_prepared opening.now.in_doubt decisions.now) }
{
    let mut found = Sequence::new(alloc);
    for doubt in opening.in_doubt.as_slice() {
        found.push((doubt.txn, doubt.global.try_clone(alloc)?))?;
    }
    for decision in decisions {
        push_prepared(alloc, &mut found, decision)?;
    }
    Ok(found)
}

fn push_prepared(
    alloc: Global,
    found: &mut Sequence<(TxnId, GlobalId)>,
    decision: &Decision,
) -> Result<(), AllocError>
    ensures { OnOk result (found.new ≡ found.old ++ filter_map prepared_by (decision.now ∷ [])) }
{
    if let Decision::Prepare(txn, global) = decision {
        found.push((*txn, global.try_clone(alloc)?))?;
    }
    Ok(())
}

/// Those prepared before or by the decisions, and by these neither committed nor rolled back, with their global ids.
pub fn in_doubt(
    alloc: Global,
    opening: &Opening,
    decisions: &[Decision],
) -> Result<Sequence<(TxnId, GlobalId)>, AllocError>
    ensures { IfOk result (λ found. found ≡ histories.in_doubt opening.now.in_doubt decisions.now) }
{
    let all = all_prepared(alloc, opening, decisions)?;
    let mut found = Sequence::new(alloc);
    for pair in all.as_slice() {
        push_undecided(alloc, &mut found, decisions, pair)?;
    }
    Ok(found)
}

fn push_undecided(
    alloc: Global,
    found: &mut Sequence<(TxnId, GlobalId)>,
    decisions: &[Decision],
    pair: &(TxnId, GlobalId),
) -> Result<(), AllocError>
    ensures { OnOk result (found.new ≡ found.old ++ filter (λ p. is_undecided decisions.now p.0) (pair.now ∷ [])) }
{
    if !is_ended(decisions, pair.0) {
        found.push((pair.0, pair.1.try_clone(alloc)?))?;
    }
    Ok(())
}

/// Whether the transaction was prepared before or by the decisions.
pub fn has_prepared(opening: &Opening, decisions: &[Decision], txn: TxnId) -> bool
    ensures { result ≡ histories.has_prepared opening.now.in_doubt decisions.now txn }
{
    is_given(opening.in_doubt.as_slice(), txn) || is_prepared(decisions, txn)
}

fn is_given(in_doubt: &[InDoubt], txn: TxnId) -> bool
    ensures { result ≡ list_any (λ (d : InDoubt). d.txn == txn) in_doubt.now }
{
    in_doubt.iter().any(|doubt| doubt.txn == txn)
}

fn is_prepared(decisions: &[Decision], txn: TxnId) -> bool
    ensures { result ≡ list_any (is_prepare_of txn) decisions.now }
{
    decisions.iter().any(|decision| prepares(decision, txn))
}

fn prepares(decision: &Decision, txn: TxnId) -> bool
    ensures { result ≡ is_prepare_of txn decision.now }
{
    match decision {
        Decision::Prepare(prepared, _) => *prepared == txn,
        _ => false,
    }
}

// A decision commits the transaction or rolls it back.
fn is_ended(decisions: &[Decision], txn: TxnId) -> bool
    ensures { result ≡ list_any (is_ended_by txn) decisions.now }
{
    decisions.iter().any(|decision| ends(decision, txn))
}

fn ends(decision: &Decision, txn: TxnId) -> bool
    ensures { result ≡ is_ended_by txn decision.now }
{
    match decision {
        Decision::Commit(ended) => *ended == txn,
        Decision::RollBack(ended) => *ended == txn,
        Decision::Prepare(_, _) => false,
    }
}
