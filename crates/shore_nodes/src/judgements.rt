//! What one request says of another, and of what is asked.
ghost use Rattle.std.specs.Prelude.{◌≡◌, ◌↔◌, IsTrue, Some};
ghost use Rattle.shore_types.specs.Locking.{same_granule};
ghost use Rattle.shore_model.specs.Requests.{is_in_group};
ghost use Rattle.shore_nodes.specs.Tables as tables;
ghost use Rattle.shore_nodes.specs.Grants as steps;

use shore_model::Request;
use shore_model::requests::Group;
use shore_modes::{grants, is_at_most, sup};
use shore_types::{Granule, Mode, TxnId};

/// Whether a request is a transaction's for a granule.
pub fn is_for(request: &Request, txn: TxnId, granule: &Granule) -> bool
    ensures { result ≡ tables.is_for txn granule.now request.now }
{
    request.txn == txn && request.granule == *granule
}

/// Whether a request is for a granule.
pub fn is_at(request: &Request, granule: &Granule) -> bool
    ensures { result ≡ same_granule request.now.granule granule.now }
{
    request.granule == *granule
}

/// Whether a request is in a group of its queue.
pub fn is_in(request: &Request, group: Group) -> bool
    ensures { result ≡ is_in_group group request.now }
{
    match group {
        Group::Holders => request.wanted.is_none(),
        Group::Conversions => request.held.is_some() && request.wanted.is_some(),
        Group::NewWaiters => request.held.is_none() && request.wanted.is_some(),
    }
}

/// Whether another holder refuses what a waiter wants.
pub fn refuses(waiter: &Request, other: &Request) -> bool
    ensures { result ≡ steps.refuses waiter.now other.now }
{
    other.txn != waiter.txn && is_refused(waiter.wanted, other.held)
}

fn is_refused(wanted: Option<Mode>, held: Option<Mode>) -> bool
    ensures { result ≡ steps.is_refused wanted held }
{
    match (wanted, held) {
        (Some(asked), Some(held)) => !grants(held, asked),
        _ => false,
    }
}

/// Whether one that begins to wait would wait for the other.
pub fn is_stopped_by(waiter: &Request, other: &Request) -> bool
    ensures { result ≡ steps.is_stopped_by waiter.now other.now }
{
    other.txn != waiter.txn && (is_refused(waiter.wanted, other.held) || is_ahead(waiter, other))
}

fn is_ahead(waiter: &Request, other: &Request) -> bool
    ensures { result ≡ steps.is_ahead waiter.now other.now }
{
    other.wanted.is_some() && (other.held.is_some() || waiter.held.is_none())
}

/// Whether what is held, if anything, is the mode or a stronger one.
pub fn is_enough(mode: Mode, held: Option<Mode>) -> bool
    ensures { result ≡ steps.is_enough mode held }
{
    match held {
        Some(held) => is_at_most(mode, held),
        None => false,
    }
}

/// What is wanted by one who holds a mode, or none, and asks for another.
pub fn wanted_mode(held: Option<Mode>, mode: Mode) -> Mode
    ensures { result ≡ steps.wanted_mode held mode }
{
    match held {
        Some(held) => sup(held, mode),
        None => mode,
    }
}

/// Whether IS is held.
pub fn holds_is(request: &Request) -> bool
    ensures { IsTrue result ↔ (request.now.held ≡ Some Mode.IS) }
{
    matches!(request.held, Some(Mode::IS))
}

/// A request with what it wanted held.
pub fn granted(waiter: &Request) -> Request
    ensures { result ≡ steps.granted waiter.now }
{
    Request {
        held: waiter.wanted,
        wanted: None,
        ..*waiter
    }
}

/// A request that wants no more than it holds.
pub fn withdrawn(request: &Request) -> Request
    ensures { result ≡ steps.withdrawn request.now }
{
    Request {
        txn: request.txn,
        granule: request.granule,
        held: request.held,
        wanted: None,
    }
}
