//! The queues of requests for locks, and who waits for whom, computed slowly.
ghost use Rattle.std.specs.Prelude.{◌≡◌, ◌↔◌, ◌∷◌, ◌++◌, [], All, Contains, IfOk, IsTrue, OnOk, false, filter, not};
ghost use Rattle.std.specs.List.{filter_map};
ghost use Rattle.shore_model.specs.Requests as asked;
ghost use Rattle.shore_model.specs.Requests.{AreRequests, Before, IsBehind, IsCycle, IsRefusedBy, WaitsFor, WaitsIn, Walk, are_alike, hold_of, is_in_group, requests_at};

use shore_model::{Group, Hold, Request};
use shore_modes::grants;
use shore_types::{Granule, Sequence, TxnId};
use std::alloc::{AllocError, Global};

/// The queue of a granule: those that want nothing, then waiting conversions, then new waiters, each in list order.
pub fn queue_at(
    alloc: Global,
    requests: &[Request],
    granule: Granule,
) -> Result<Sequence<Request>, AllocError>
    ensures { IfOk result (λ queue. queue ≡ asked.queue_at granule requests.now) }
{
    let mut queue = Sequence::new(alloc);
    push_group(&mut queue, requests, &granule, Group::Holders)?;
    push_group(&mut queue, requests, &granule, Group::Conversions)?;
    push_group(&mut queue, requests, &granule, Group::NewWaiters)?;
    Ok(queue)
}

fn push_group(
    queue: &mut Sequence<Request>,
    requests: &[Request],
    granule: &Granule,
    group: Group,
) -> Result<(), AllocError>
    ensures { OnOk result (queue.new ≡ queue.old ++ filter (is_in_group group) (requests_at granule.now requests.now)) }
{
    for request in requests {
        push_in_group(queue, request, granule, group)?;
    }
    Ok(())
}

fn push_in_group(
    queue: &mut Sequence<Request>,
    request: &Request,
    granule: &Granule,
    group: Group,
) -> Result<(), AllocError>
    ensures { OnOk result (queue.new ≡ queue.old ++ filter (is_in_group group) (requests_at granule.now (request.now ∷ []))) }
{
    if request.granule == *granule && belongs(request, group) {
        queue.push(*request)?;
    }
    Ok(())
}

fn belongs(request: &Request, group: Group) -> bool
    ensures { result ≡ is_in_group group request.now }
{
    match group {
        Group::Holders => request.wanted.is_none(),
        Group::Conversions => request.held.is_some() && request.wanted.is_some(),
        Group::NewWaiters => request.held.is_none() && request.wanted.is_some(),
    }
}

/// The requests with one placed last, and none other of its transaction for its granule: a new one, or a conversion that
/// begins to wait.
pub fn placed_last(
    alloc: Global,
    requests: &[Request],
    placed: Request,
) -> Result<Sequence<Request>, AllocError>
    ensures { IfOk result (λ after. after ≡ asked.placed_last placed requests.now) }
{
    let mut after = Sequence::new(alloc);
    for request in requests {
        push_other(&mut after, request, &placed)?;
    }
    after.push(placed)?;
    Ok(after)
}

fn push_other(
    after: &mut Sequence<Request>,
    request: &Request,
    placed: &Request,
) -> Result<(), AllocError>
    ensures { OnOk result (after.new ≡ after.old ++ filter (λ q. not (are_alike q placed.now)) (request.now ∷ [])) }
{
    if request.txn != placed.txn || request.granule != placed.granule {
        after.push(*request)?;
    }
    Ok(())
}

fn are_alike(a: &Request, b: &Request) -> bool
    ensures { result ≡ asked.are_alike a.now b.now }
{
    a.txn == b.txn && a.granule == b.granule
}

/// What the requests hold.
pub fn held_by_all(alloc: Global, requests: &[Request]) -> Result<Sequence<Hold>, AllocError>
    ensures { IfOk result (λ held. held ≡ asked.held_by_all requests.now) }
{
    let mut held = Sequence::new(alloc);
    for request in requests {
        push_held(&mut held, request)?;
    }
    Ok(held)
}

fn push_held(held: &mut Sequence<Hold>, request: &Request) -> Result<(), AllocError>
    ensures { OnOk result (held.new ≡ held.old ++ filter_map hold_of (request.now ∷ [])) }
{
    if let Some(mode) = request.held {
        held.push(Hold {
            txn: request.txn,
            granule: request.granule,
            mode,
        })?;
    }
    Ok(())
}

/// Whether a transaction has at most one request for a granule.
pub fn are_requests(requests: &[Request]) -> bool
    ensures { IsTrue result ↔ AreRequests requests.now }
{
    for index in 0..requests.len() {
        if !is_only(&requests[index], &requests[index + 1..]) {
            return false;
        }
    }
    true
}

// No later request is of its transaction for its granule.
fn is_only(request: &Request, later: &[Request]) -> bool
    ensures { IsTrue result ↔ All (λ other. are_alike request.now other ≡ false) later.now }
{
    for other in later {
        if are_alike(request, other) {
            return false;
        }
    }
    true
}

/// Whether the first transaction waits for the second.
pub fn waits_for(
    alloc: Global,
    requests: &[Request],
    txn: TxnId,
    other: TxnId,
) -> Result<bool, AllocError>
    ensures { IfOk result (λ yes. IsTrue yes ↔ WaitsFor requests.now txn other) }
{
    if txn == other {
        return Ok(false);
    }
    for waiter in requests {
        if waits_as(alloc, requests, waiter, txn, other)? {
            return Ok(true);
        }
    }
    Ok(false)
}

// The request is the first transaction's, and waits for the second.
fn waits_as(
    alloc: Global,
    requests: &[Request],
    waiter: &Request,
    txn: TxnId,
    other: TxnId,
) -> Result<bool, AllocError>
    ensures { IfOk result (λ yes. IsTrue yes ↔ ((waiter.now.txn ≡ txn) × WaitsIn (asked.queue_at waiter.now.granule requests.now) waiter.now other)) }
{
    if waiter.txn != txn {
        return Ok(false);
    }
    let queue = queue_at(alloc, requests, waiter.granule)?;
    Ok(waits_in(queue.as_slice(), waiter, other))
}

fn waits_in(queue: &[Request], waiter: &Request, txn: TxnId) -> bool
    ensures { IsTrue result ↔ WaitsIn queue.now waiter.now txn }
{
    queue.iter().any(|other| other.txn == txn
        && (is_refused_by(waiter, other) || is_behind(queue, waiter, other)))
}

fn is_refused_by(waiter: &Request, other: &Request) -> bool
    ensures { IsTrue result ↔ IsRefusedBy waiter.now other.now }
{
    match (waiter.wanted, other.held) {
        (Some(asked), Some(held)) => !grants(held, asked),
        _ => false,
    }
}

fn is_behind(queue: &[Request], waiter: &Request, other: &Request) -> bool
    ensures { IsTrue result ↔ IsBehind queue.now waiter.now other.now }
{
    waiter.wanted.is_some() && other.wanted.is_some() && stands_before(queue, other, waiter)
}

fn stands_before(queue: &[Request], first: &Request, second: &Request) -> bool
    ensures { IsTrue result ↔ Before queue.now first.now second.now }
{
    for index in 0..queue.len() {
        if are_in_turn(&queue[index], &queue[index + 1..], first, second) {
            return true;
        }
    }
    false
}

// The request is the first, and the second is among the later ones.
fn are_in_turn(request: &Request, later: &[Request], first: &Request, second: &Request) -> bool
    ensures { IsTrue result ↔ ((request.now ≡ first.now) × Contains later.now second.now) }
{
    is_same(request, first) && holds(later, second)
}

fn is_same(a: &Request, b: &Request) -> bool
    ensures { IsTrue result ↔ (a.now ≡ b.now) }
{
    *a == *b
}

fn holds(queue: &[Request], request: &Request) -> bool
    ensures { IsTrue result ↔ Contains queue.now request.now }
{
    queue.contains(request)
}

/// Whether the transactions are a cycle: each waits for the next, and the last for the first.
pub fn is_cycle(alloc: Global, requests: &[Request], txns: &[TxnId]) -> Result<bool, AllocError>
    ensures { IfOk result (λ yes. IsTrue yes ↔ IsCycle requests.now txns.now) }
{
    match txns.split_first() {
        Some((first, rest)) => walks(alloc, requests, *first, rest, *first),
        None => Ok(false),
    }
}

// Each waits for the next, and the last for the end.
fn walks(
    alloc: Global,
    requests: &[Request],
    start: TxnId,
    steps: &[TxnId],
    end: TxnId,
) -> Result<bool, AllocError>
    ensures { IfOk result (λ yes. IsTrue yes ↔ Walk requests.now start steps.now end) }
{
    let mut from = start;
    for to in steps {
        if !waits_for(alloc, requests, from, *to)? {
            return Ok(false);
        }
        from = *to;
    }
    let arrives = waits_for(alloc, requests, from, end)?;
    Ok(arrives)
}
