//! Searches among the nodes of a granule's queue, and of a transaction.
ghost use Rattle.std.specs.Prelude.{◌≡◌, All, IsFalse, None, Some, cond, is_some, slice_get};
ghost use Rattle.std.specs.Option.{option_map};
ghost use Rattle.shore_model.specs.Requests.{requests_at, requests_by};
ghost use Rattle.shore_nodes.specs.Tables as tables;
ghost use Rattle.shore_nodes.specs.Granting.{new_waiters};
ghost use Rattle.shore_locks.specs.Grants as steps;
ghost use Rattle.shore_locks.specs.Unawaited.{IsUnawaited};
ghost use Rattle.shore_nodes.specs.Orderly.{WaitsLast};

use crate::counted::Counted;
use shore_model::Request;
use shore_model::requests::Group;
use shore_nodes::judgements::{is_at, is_for, is_in, is_stopped_by, refuses};
use shore_nodes::nodes::Nodes;
use shore_types::{Granule, Mode, TxnId};

// So many nodes are looked at, to see whether somebody waits for a transaction.
const LOOKS: usize = 16;

/// The request of a transaction for a granule.
pub fn request_for(nodes: &Nodes, txn: TxnId, granule: &Granule) -> Option<Request>
    ensures { result ≡ tables.request_for txn granule.now nodes.now.requests }
{
    let mut walk = nodes.owned(txn, granule);
    while let Some((_, request)) = walk.advance() {
        if is_for(request, txn, granule) {
            return Some(*request);
        }
    }
    None
}

/// What a transaction's request for a granule holds, if it has one.
pub fn own_hold(nodes: &Nodes, txn: TxnId, granule: &Granule) -> Option<Option<Mode>>
    ensures { result ≡ option_map (λ r. r.held) (tables.request_for txn granule.now nodes.now.requests) }
{
    let mut walk = nodes.owned(txn, granule);
    while let Some((_, request)) = walk.advance() {
        if is_for(request, txn, granule) {
            return Some(request.held);
        }
    }
    None
}

/// The mode in which a transaction holds a granule.
pub fn mode_held(nodes: &Nodes, txn: TxnId, granule: &Granule) -> Option<Mode>
    ensures { result ≡ tables.mode_held txn granule.now nodes.now.requests }
{
    own_hold(nodes, txn, granule)?
}

/// The request with which a transaction waits. It could only be its newest, which is mostly the last in its ring: then no other
/// is looked at.
pub fn waiting_request(nodes: &Nodes, txn: TxnId) -> Option<Request>
    requires { WaitsLast nodes.now.requests }
    ensures { result ≡ tables.waiting_request txn nodes.now.requests }
{
    if let Some(newest) = nodes.newest(txn) {
        return if_waiting(newest);
    }
    let mut walk = nodes.list(txn);
    while let Some((_, request)) = walk.advance() {
        if request.txn == txn && request.wanted.is_some() {
            return Some(*request);
        }
    }
    None
}

/// Whether somebody may wait for a transaction: nobody does if not. Of many requests only the first are looked at, and no queue is
/// walked.
pub fn may_be_awaited(counted: &Counted, txn: TxnId) -> bool
    ensures { IsFalse result → All (IsUnawaited counted.now.requests) (requests_by txn counted.now.requests) }
{
    let mut looks = LOOKS;
    let mut walk = counted.nodes().list(txn);
    while let Some((_, request)) = walk.advance() {
        if looks == 0 || may_be_awaited_by(counted, txn, request) {
            return true;
        }
        looks = looks.saturating_sub(1);
    }
    false
}

// .. by one request, if it is its.
fn may_be_awaited_by(counted: &Counted, txn: TxnId, request: &Request) -> bool
    ensures { IsFalse result → request.now.txn ≡ txn → IsUnawaited counted.now.requests request.now }
{
    request.txn == txn && counted.may_be_awaited(request)
}

fn if_waiting(request: &Request) -> Option<Request>
    ensures { result ≡ cond (is_some request.now.wanted) (Some request.now) None }
{
    if request.wanted.is_some() {
        Some(*request)
    } else {
        None
    }
}

/// The first waiter of a granule's queue: a conversion, or else the first that is new.
pub fn first_waiter(nodes: &Nodes, granule: &Granule) -> Option<Request>
    ensures { result ≡ slice_get (tables.waiters_at granule.now nodes.now.requests) 0 }
{
    let mut first_new = None;
    let mut walk = nodes.queue(granule);
    while let Some((_, request)) = walk.advance() {
        if request.granule == *granule && request.wanted.is_some() {
            if request.held.is_some() {
                return Some(*request);
            }
            if first_new.is_none() {
                first_new = Some(*request);
            }
        }
    }
    first_new
}

/// The first new waiter of a granule's queue. No node behind it is looked at.
pub fn first_new(nodes: &Nodes, granule: &Granule) -> Option<Request>
    ensures { result ≡ slice_get (new_waiters granule.now nodes.now.requests) 0 }
{
    let mut walk = nodes.queue(granule);
    while let Some((_, request)) = walk.advance() {
        if is_at(request, granule) && is_in(request, Group::NewWaiters) {
            return Some(*request);
        }
    }
    None
}

/// Whether each other holder of its granule grants what a waiter wants.
pub fn can_be_granted(nodes: &Nodes, waiter: &Request) -> bool
    ensures { result ≡ steps.can_be_granted waiter.now (requests_at waiter.now.granule nodes.now.requests) }
{
    let mut walk = nodes.queue(&waiter.granule);
    while let Some((_, other)) = walk.advance() {
        if other.granule == waiter.granule && refuses(waiter, other) {
            return false;
        }
    }
    true
}

/// The first request that a new one would wait for.
pub fn obstacle(nodes: &Nodes, waiter: &Request) -> Option<Request>
    ensures { result ≡ steps.obstacle waiter.now nodes.now.requests }
{
    let mut walk = nodes.queue(&waiter.granule);
    while let Some((_, other)) = walk.advance() {
        if other.granule == waiter.granule && is_stopped_by(waiter, other) {
            return Some(*other);
        }
    }
    None
}
