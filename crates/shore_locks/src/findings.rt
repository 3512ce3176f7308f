//! What a request meets: enough that is held already, no node, somebody in the way, or nobody.
ghost use Rattle.std.specs.Prelude.{◌≡◌, Option, is_some, option_and_then};
ghost use Rattle.std.specs.Option.{option_map};
ghost use Rattle.shore_model.specs.declared.requests.Request.{Request};
ghost use Rattle.shore_locks.specs.Findings.{Finds};
ghost use Rattle.shore_locks.specs.Grants as steps;
ghost use Rattle.shore_nodes.specs.Tables as tables;

use crate::counted::Counted;
use crate::searches::{obstacle, own_hold};
use shore_model::Request;
use shore_nodes::judgements::{is_enough, wanted_mode};
use shore_types::{Granule, Mode, TxnId};

/// What a transaction meets that asks for a granule in a mode.
#[derive(Drop)]
pub enum Finding {
    /// It holds as much already.
    Enough,
    /// It has no node for the granule, and the table is at its limit.
    Full,
    /// It would wait with this request, for this transaction among others.
    Stopped { request: Request, other: TxnId },
    /// Nobody is in the way of this request. `known`: it has a node for the granule.
    Free { request: Request, known: bool },
}

/// What a transaction meets. It looks for the transaction's node once.
pub fn check_request(nodes: &Counted, txn: TxnId, granule: &Granule, mode: Mode) -> Finding
    ensures { Finds nodes.now txn granule.now mode result }
{
    let own = own_hold(nodes.nodes(), txn, granule);
    let held = mode_of(own);
    if is_enough(mode, held) {
        return Finding::Enough;
    }
    let known = own.is_some();
    if !known && nodes.is_full() {
        return Finding::Full;
    }
    let request = Request {
        txn,
        granule: *granule,
        held,
        wanted: Some(wanted_mode(held, mode)),
    };
    match first_in_the_way(nodes, &request) {
        Some(other) => Finding::Stopped {
            request,
            other: other.txn,
        },
        None => Finding::Free { request, known },
    }
}

/// Who would be in the way if a transaction that holds so much of a granule asked for a mode.
pub fn in_the_way(
    nodes: &Counted,
    txn: TxnId,
    granule: &Granule,
    held: Option<Mode>,
    mode: Mode,
) -> Option<TxnId>
    requires { held ≡ tables.mode_held txn granule.now nodes.now.requests }
    ensures { result ≡ steps.in_the_way txn granule.now mode nodes.now.requests }
{
    if is_enough(mode, held) {
        return None;
    }
    let request = Request {
        txn,
        granule: *granule,
        held,
        wanted: Some(wanted_mode(held, mode)),
    };
    in_its_way(nodes, request)
}

/// Whom a request would wait for if it were made now.
pub fn in_its_way(nodes: &Counted, request: Request) -> Option<TxnId>
    ensures { result ≡ steps.in_its_way request nodes.now.requests }
{
    let first = first_in_the_way(nodes, &request);
    match first {
        Some(other) => Some(other.txn),
        None => None,
    }
}

// Mostly nobody is, which the counts of the queue show; else the queue is walked.
fn first_in_the_way(nodes: &Counted, request: &Request) -> Option<Request>
    ensures { result ≡ steps.obstacle request.now nodes.now.requests }
{
    if nodes.lets_in(request) {
        return None;
    }
    obstacle(nodes.nodes(), request)
}

fn mode_of(own: Option<Option<Mode>>) -> Option<Mode>
    ensures { (request : Option Request) → own ≡ option_map (λ r. r.held) request → result ≡ option_and_then (λ r. r.held) request }
{
    own?
}
