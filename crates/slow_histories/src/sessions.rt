//! Whether entries are a history: whose call each of them is, decided slowly.
ghost use Rattle.std.specs.Prelude.{◌≡◌, ◌<◌, ◌↔◌, All, IfOk, IfSome, IsTrue, None, Some, nat_eq, if◌then◌else◌};
ghost use Rattle.std.specs.Cmp.Lexicographic.{pointwise};
ghost use Rattle.shore_model.specs.declared.histories.InDoubt.{InDoubt};
ghost use Rattle.shore_model.specs.Histories as histories;
ghost use Rattle.shore_model.specs.Histories.{IsHistory, IsNewNumber, IsOfTxn, MayStand, begun_by};

use crate::decisions::{all_prepared, decisions, has_prepared};
use shore_model::{Answer, Call, Decision, Entry, Exchange, InDoubt, Opening, SessionState};
use shore_types::{Fault, GlobalId, SessionId, TxnId};
use std::alloc::{AllocError, Global};

/// A session that is in no transaction.
pub fn free() -> SessionState
    ensures { result ≡ histories.free }
{
    SessionState {
        txn: TxnId(0),
        prepared: false,
    }
}

fn after_own_reply(stands: SessionState, reply: &Result<Answer, Fault>) -> SessionState
    ensures { result ≡ histories.after_own_reply stands reply.now }
{
    match reply {
        Ok(Answer::Began(txn)) => SessionState {
            txn: *txn,
            prepared: false,
        },
        Ok(Answer::Committed(_)) => free(),
        Ok(Answer::Aborted) => free(),
        _ => stands,
    }
}

fn after_decision(stands: SessionState, decision: &Decision) -> SessionState
    ensures { result ≡ histories.after_decision stands decision.now }
{
    match decision {
        Decision::Prepare(txn, _) => once_prepared(stands, *txn),
        Decision::Commit(txn) => once_decided(stands, *txn),
        Decision::RollBack(txn) => once_decided(stands, *txn),
    }
}

fn once_prepared(stands: SessionState, txn: TxnId) -> SessionState
    ensures { result ≡ histories.once_prepared stands txn }
{
    if stands.txn == txn {
        SessionState {
            txn,
            prepared: true,
        }
    } else {
        stands
    }
}

fn once_decided(stands: SessionState, txn: TxnId) -> SessionState
    ensures { result ≡ histories.once_decided stands txn }
{
    if stands.txn == txn && stands.prepared {
        free()
    } else {
        stands
    }
}

fn after_entry(session: SessionId, stands: SessionState, entry: &Entry) -> SessionState
    ensures { result ≡ histories.after_entry session stands entry.now }
{
    match entry {
        Entry::Exchanged {
            session: of,
            txn: _,
            exchange,
        } => {
            if *of == session {
                after_own_reply(stands, &exchange.reply)
            } else {
                stands
            }
        }
        Entry::Decided(decision) => after_decision(stands, decision),
        Entry::Asked {
            ticket: _,
            durable: _,
        } => stands,
    }
}

/// The state of a session after the entries.
pub fn session_state_after(session: SessionId, entries: &[Entry]) -> SessionState
    ensures { result ≡ histories.session_state session histories.free entries.now }
{
    let mut stands = free();
    for entry in entries {
        stands = after_entry(session, stands, entry);
    }
    stands
}

/// The transaction that was prepared last under a global id.
pub fn last_under(global: &GlobalId, pairs: &[(TxnId, GlobalId)]) -> Option<TxnId>
    ensures { result ≡ histories.last_under global.now None pairs.now }
{
    let mut found = None;
    for pair in pairs {
        found = newer(global, found, pair);
    }
    found
}

fn newer(global: &GlobalId, found: Option<TxnId>, pair: &(TxnId, GlobalId)) -> Option<TxnId>
    ensures { result ≡ (if pointwise nat_eq pair.now.1 global.now then Some pair.now.0 else found) }
{
    if pair.1 == *global {
        Some(pair.0)
    } else {
        found
    }
}

// The call is of the transaction, if its session is in this state and these were prepared.
fn is_of_txn(
    stands: SessionState,
    pairs: &[(TxnId, GlobalId)],
    txn: TxnId,
    exchange: &Exchange,
) -> bool
    ensures { IsTrue result ↔ IsOfTxn stands pairs.now txn exchange.now.call exchange.now.reply }
{
    match &exchange.call {
        Call::Begin => txn == begun(&exchange.reply).unwrap_or(stands.txn),
        Call::Resolve(global, _) => {
            exchange.reply.is_err() || last_under(global, pairs) == Some(txn)
        }
        _ => txn == stands.txn,
    }
}

fn begun(reply: &Result<Answer, Fault>) -> Option<TxnId>
    ensures { result ≡ begun_by reply.now }
{
    match reply {
        Ok(Answer::Began(txn)) => Some(*txn),
        _ => None,
    }
}

fn began(entry: &Entry) -> Option<TxnId>
    ensures { result ≡ histories.began entry.now }
{
    match entry {
        Entry::Exchanged {
            session: _,
            txn: _,
            exchange,
        } => begun(&exchange.reply),
        Entry::Decided(_) => None,
        Entry::Asked {
            ticket: _,
            durable: _,
        } => None,
    }
}

/// Whether a number is above 0, those of the transactions in doubt and all that begins have answered.
pub fn is_new_number(opening: &Opening, before: &[Entry], txn: TxnId) -> bool
    ensures { IsTrue result ↔ IsNewNumber opening.now before.now txn }
{
    TxnId(0) < txn
        && is_above_doubts(opening.in_doubt.as_slice(), txn)
        && is_above_begun(before, txn)
}

fn is_above_doubts(in_doubt: &[InDoubt], txn: TxnId) -> bool
    ensures { IsTrue result ↔ All (λ (d : InDoubt). d.txn < txn) in_doubt.now }
{
    for doubt in in_doubt {
        if !is_below(doubt, txn) {
            return false;
        }
    }
    true
}

fn is_below(doubt: &InDoubt, txn: TxnId) -> bool
    ensures { IsTrue result ↔ (doubt.now.txn < txn) }
{
    doubt.txn < txn
}

fn is_above_begun(before: &[Entry], txn: TxnId) -> bool
    ensures { IsTrue result ↔ All (λ e. IfSome (histories.began e) (λ u. u < txn)) before.now }
{
    for entry in before {
        if !begins_below(entry, txn) {
            return false;
        }
    }
    true
}

fn begins_below(entry: &Entry, txn: TxnId) -> bool
    ensures { IsTrue result ↔ IfSome (histories.began entry.now) (λ u. u < txn) }
{
    match began(entry) {
        Some(earlier) => earlier < txn,
        None => true,
    }
}

// The entry may follow those before it.
fn may_stand(
    alloc: Global,
    opening: &Opening,
    before: &[Entry],
    entry: &Entry,
) -> Result<bool, AllocError>
    ensures { IfOk result (λ yes. IsTrue yes ↔ MayStand opening.now before.now entry.now) }
{
    let made = decisions(alloc, before)?;
    match entry {
        Entry::Exchanged {
            session,
            txn,
            exchange,
        } => {
            let pairs = all_prepared(alloc, opening, made.as_slice())?;
            Ok(
                begins_anew(opening, before, &exchange.reply)
                    && is_of_txn(
                        session_state_after(*session, before),
                        pairs.as_slice(),
                        *txn,
                        exchange,
                    ),
            )
        }
        Entry::Decided(Decision::RollBack(txn)) => Ok(has_prepared(opening, made.as_slice(), *txn)),
        Entry::Decided(_) => Ok(true),
        Entry::Asked {
            ticket: _,
            durable: _,
        } => Ok(true),
    }
}

fn begins_anew(opening: &Opening, before: &[Entry], reply: &Result<Answer, Fault>) -> bool
    ensures { IsTrue result ↔ IfSome (begun_by reply.now) (IsNewNumber opening.now before.now) }
{
    match begun(reply) {
        Some(txn) => is_new_number(opening, before, txn),
        None => true,
    }
}

/// Whether each entry may follow those before it.
pub fn is_history(alloc: Global, opening: &Opening, entries: &[Entry]) -> Result<bool, AllocError>
    ensures { IfOk result (λ yes. IsTrue yes ↔ IsHistory (record { opening = opening.now; entries = entries.now })) }
{
    for index in 0..entries.len() {
        if !may_stand(alloc, opening, &entries[..index], &entries[index])? {
            return Ok(false);
        }
    }
    Ok(true)
}
