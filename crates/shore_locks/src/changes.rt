//! Changes to the list of requests.
ghost use Rattle.std.specs.Prelude.{◌≡◌, IsFalse, IsSomeAnd, IsTrue, Some, cond, is_some, length, slice_get, true};
ghost use Rattle.std.specs.List.{list_any};
ghost use Rattle.shore_model.specs.Requests as asked;
ghost use Rattle.shore_model.specs.Requests.{AreRequests};
ghost use Rattle.shore_locks.specs.Findings.{FindsNode, IsGrantable};
ghost use Rattle.shore_locks.specs.Grants as steps;
ghost use Rattle.shore_nodes.specs.LetThrough.{TellsFirst, TellsOthers};
ghost use Rattle.shore_nodes.specs.Orderly.{IsOrderly};
ghost use Rattle.shore_nodes.specs.Tables.{waiters_at, waiting_request};

use crate::counted::{Counted, Popped};
use crate::searches::{self, can_be_granted};
use shore_model::Request;
use shore_nodes::judgements::{granted, holds_is, withdrawn};
use shore_nodes::let_through::LetThrough;
use shore_types::{Granule, TxnId};

/// A grant pass: waiters of a granule's queue are granted in turn, up to the first that another holder refuses. Mostly that is the
/// first of them, and a walk ends there. If the counts show that nobody waits, that is all. Who was granted is noted.
pub fn pass(nodes: &mut Counted, granule: &Granule, let_through: &mut LetThrough)
    requires { AreRequests nodes.old.requests }
    ensures items { nodes.new.requests ≡ steps.passed granule.now nodes.old.requests }
    ensures limit { nodes.new.limit ≡ nodes.old.limit }
    ensures told { TellsFirst granule.now nodes.old.requests nodes.new.requests let_through.old let_through.new }
{
    if nodes.may_have_waiters(granule) && grants_somebody(nodes, granule) {
        nodes.grant_waiters(granule, let_through);
    }
}

fn grants_somebody(nodes: &Counted, granule: &Granule) -> bool
    ensures none { IsFalse result → steps.passed granule.now nodes.now.requests ≡ nodes.now.requests }
    ensures some { IsTrue result → IsSomeAnd (slice_get (waiters_at granule.now nodes.now.requests) 0) (λ w. steps.can_be_granted w (asked.requests_at w.granule nodes.now.requests) ≡ true) }
{
    match first_waiter(nodes, granule) {
        Some(waiter) => can_be_granted(nodes.nodes(), &waiter),
        None => false,
    }
}

// Behind the first new waiter only a conversion could come first.
fn first_waiter(nodes: &Counted, granule: &Granule) -> Option<Request>
    ensures { result ≡ slice_get (waiters_at granule.now nodes.now.requests) 0 }
{
    if nodes.may_have_conversions(granule) {
        searches::first_waiter(nodes.nodes(), granule)
    } else {
        searches::first_new(nodes.nodes(), granule)
    }
}

/// A waiting request is taken back, with a grant pass over its queue. Who was granted is noted.
pub fn take_back(nodes: &mut Counted, request: &Request, let_through: &mut LetThrough)
    requires { AreRequests nodes.old.requests }
    ensures items { nodes.new.requests ≡ steps.taken_back request.now nodes.old.requests }
    ensures limit { nodes.new.limit ≡ nodes.old.limit }
    ensures told { IsOrderly nodes.old.requests → waiting_request request.now.txn nodes.old.requests ≡ Some request.now → TellsOthers request.now.txn nodes.old.requests nodes.new.requests let_through.old let_through.new }
{
    stop_waiting(nodes, request);
    pass(nodes, &request.granule, let_through);
}

fn stop_waiting(nodes: &mut Counted, request: &Request)
    requires { AreRequests nodes.old.requests }
    ensures items { nodes.new.requests ≡ cond (is_some request.now.held) (steps.replaced (steps.withdrawn request.now) nodes.old.requests) (steps.removed request.now nodes.old.requests) }
    ensures limit { nodes.new.limit ≡ nodes.old.limit }
{
    if request.held.is_some() {
        let withdrawn = withdrawn(request);
        nodes.replace(&withdrawn);
    } else {
        nodes.remove(request);
    }
}

/// Gives up all that a transaction holds and wants, each with a grant pass over its queue, and answers how many requests
/// that were. No queue is searched for them: the transaction's ring has them. Who was granted is noted.
pub fn release(nodes: &mut Counted, txn: TxnId, let_through: &mut LetThrough) -> usize
    requires { AreRequests nodes.old.requests }
    ensures items { nodes.new.requests ≡ steps.released txn nodes.old.requests }
    ensures limit { nodes.new.limit ≡ nodes.old.limit }
    ensures count { result ≡ length (asked.requests_by txn nodes.old.requests) }
    ensures told { IsOrderly nodes.old.requests → TellsOthers txn nodes.old.requests nodes.new.requests let_through.old let_through.new }
{
    let most = nodes.len();
    for count in 0..most {
        match nodes.pop_first(txn) {
            Popped::Nothing => return count,
            Popped::Quiet => {}
            Popped::Awaited(granule) => pass(nodes, &granule, let_through),
        }
    }
    most
}

/// Puts a request last, and takes the one of its transaction for its granule away.
pub fn place_last(nodes: &mut Counted, request: &Request)
    requires one { AreRequests nodes.old.requests }
    requires room { FindsNode nodes.old request.now }
    ensures items { nodes.new.requests ≡ asked.placed_last request.now nodes.old.requests }
    ensures limit { nodes.new.limit ≡ nodes.old.limit }
{
    if !nodes.move_last(request) {
        nodes.push(request);
    }
}

/// Grants a request at once, in the place of the one of its transaction for its granule if that is known, else last. What is held
/// refuses no less than before, so a grant pass would grant nobody; but IS refuses UD, and SH does not.
pub fn grant(nodes: &mut Counted, request: &Request, known: bool)
    requires free { IsGrantable nodes.old request.now }
    requires known { known ≡ list_any (λ q. asked.are_alike q request.now) nodes.old.requests }
    ensures items { nodes.new.requests ≡ steps.passed request.now.granule (steps.put (steps.granted request.now) nodes.old.requests) }
    ensures limit { nodes.new.limit ≡ nodes.old.limit }
{
    let granted = granted(request);
    put(nodes, &granted, known);
    if holds_is(request) {
        pass(nodes, &request.granule, &mut LetThrough::nobody());
    }
}

fn put(nodes: &mut Counted, request: &Request, known: bool)
    requires one { AreRequests nodes.old.requests }
    requires room { FindsNode nodes.old request.now }
    requires known { known ≡ list_any (λ q. asked.are_alike q request.now) nodes.old.requests }
    ensures items { nodes.new.requests ≡ steps.put request.now nodes.old.requests }
    ensures limit { nodes.new.limit ≡ nodes.old.limit }
{
    if known {
        nodes.replace(request);
    } else {
        nodes.push(request);
    }
}
