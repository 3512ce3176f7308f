//! Whom a transaction waits for.
ghost use Rattle.std.specs.Prelude.{◌≡◌, ◌++◌, None, IfOk, IsFalse, IsTrue};
ghost use Rattle.shore_locks.specs.Tables.{holders_at, waiters_at};
ghost use Rattle.shore_cycles.specs.Blockers as blockers;
ghost use Rattle.shore_cycles.specs.Blockers.{ahead, is_among, refusing};
ghost use Rattle.shore_cycles.specs.Searching.{ShareQueue};

use shore_locks::{LockTable, refuses};
use shore_model::Request;
use shore_types::TxnId;
use std::alloc::AllocError;

/// Lists those for whom a transaction waits, in the place of what the list had, and ends if it meets the one that is sought:
/// whoever holds what refuses its request, and all that wait ahead of it. The answer is whether it met that one.
pub(crate) fn list_blockers(
    out: &mut Vec<TxnId>,
    table: &LockTable,
    txn: TxnId,
    sought: TxnId,
) -> Result<bool, AllocError>
    ensures met { IfOk result (λ met. met ≡ is_among (blockers.blockers txn table.now.requests) sought) }
    ensures listed { IfOk result (λ met. IsFalse met → out.new.items ≡ blockers.blockers txn table.now.requests) }
{
    out.clear();
    let Some(waiter) = table.waiting_request(txn) else {
        return Ok(false);
    };
    if list_holders(out, table, &waiter, sought)? {
        return Ok(true);
    }
    if list_waiters(out, table, &waiter, sought)? {
        return Ok(true);
    }
    list_ahead(out, table, &waiter, sought)
}

fn list_holders(
    out: &mut Vec<TxnId>,
    table: &LockTable,
    waiter: &Request,
    sought: TxnId,
) -> Result<bool, AllocError>
    ensures met { IfOk result (λ met. met ≡ is_among (refusing waiter.now (holders_at waiter.now.granule table.now.requests)) sought) }
    ensures listed { IfOk result (λ met. IsFalse met → out.new.items ≡ out.old.items ++ refusing waiter.now (holders_at waiter.now.granule table.now.requests)) }
{
    for other in table.holders(waiter.granule) {
        if refuses(waiter, &other) {
            if other.txn == sought {
                return Ok(true);
            }
            out.push(other.txn)?;
        }
    }
    Ok(false)
}

// Conversions hold something already, so they refuse too; new waiters hold nothing.
fn list_waiters(
    out: &mut Vec<TxnId>,
    table: &LockTable,
    waiter: &Request,
    sought: TxnId,
) -> Result<bool, AllocError>
    ensures met { IfOk result (λ met. met ≡ is_among (refusing waiter.now (waiters_at waiter.now.granule table.now.requests)) sought) }
    ensures listed { IfOk result (λ met. IsFalse met → out.new.items ≡ out.old.items ++ refusing waiter.now (waiters_at waiter.now.granule table.now.requests)) }
{
    if !table.may_have_conversions(waiter.granule) {
        return Ok(false);
    }
    for other in table.waiters(waiter.granule) {
        if refuses(waiter, &other) {
            if other.txn == sought {
                return Ok(true);
            }
            out.push(other.txn)?;
        }
    }
    Ok(false)
}

fn list_ahead(
    out: &mut Vec<TxnId>,
    table: &LockTable,
    waiter: &Request,
    sought: TxnId,
) -> Result<bool, AllocError>
    ensures met { IfOk result (λ met. met ≡ is_among (ahead waiter.now (waiters_at waiter.now.granule table.now.requests)) sought) }
    ensures listed { IfOk result (λ met. IsFalse met → out.new.items ≡ out.old.items ++ ahead waiter.now (waiters_at waiter.now.granule table.now.requests)) }
{
    for other in table.waiters(waiter.granule) {
        if other.txn == waiter.txn {
            return Ok(false);
        }
        if other.txn == sought {
            return Ok(true);
        }
        out.push(other.txn)?;
    }
    Ok(false)
}

/// Whether both wait as new waiters for the same granule and mode. Then whoever is waited for by the one ahead is waited for by
/// the one behind.
pub(crate) fn share_queue(table: &LockTable, txn: TxnId, other: TxnId) -> bool
    ensures { IsTrue result → ShareQueue table.now.requests txn other }
{
    match (table.waiting_request(txn), table.waiting_request(other)) {
        (Some(mine), Some(its)) => are_twins(&mine, &its),
        _ => false,
    }
}

fn are_twins(mine: &Request, its: &Request) -> bool
    ensures { IsTrue result → (mine.now.held ≡ None) × (its.now.held ≡ None) × (mine.now.granule ≡ its.now.granule) × (mine.now.wanted ≡ its.now.wanted) }
{
    mine.held.is_none()
        && its.held.is_none()
        && mine.granule == its.granule
        && mine.wanted == its.wanted
}
