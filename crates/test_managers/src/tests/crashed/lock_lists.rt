//! Lock tables as lists of requests in the order in which they came, and what asks and victims make of them, slowly.
use super::doings::{Depth, Place, granule_at};
use shore_model::Request;
use shore_modes::{covers, grants, parent_mode, sup};
use shore_types::{Granule, Mode, TxnId};
use slow_locks::requests::{placed_last, queue_at, waits_for};
use std::alloc::{AllocError, Global};

/// A granule, by its place and how far it is from the root, in a mode.
#[derive(Clone, Copy)]
pub(super) struct Lock {
    pub(super) place: Place,
    pub(super) depth: Depth,
    pub(super) mode: Mode,
    /// Who has it goes on to locks under it.
    pub(super) goes_on: bool,
}

/// Requests in the order in which they came, if they came in this one before an event of a transaction: it alone has asked, and what it waits for comes last.
pub(super) fn in_order(
    alloc: Global,
    old: &[Request],
    new: &[Request],
) -> Result<Vec<Request>, AllocError> {
    let mut order = Vec::new(alloc);
    for was in old {
        if let Some(request) = request_of(new, was.txn, &was.granule) {
            if was.wanted.is_some() || request.wanted.is_none() {
                order.push(request)?;
            }
        }
    }
    push_others(&mut order, new, false)?;
    push_others(&mut order, new, true)?;
    Ok(order)
}

// Those that are not in the list, and wait or do not.
fn push_others(order: &mut Vec<Request>, new: &[Request], waits: bool) -> Result<(), AllocError> {
    for request in new {
        if request.wanted.is_some() == waits && !order.contains(request) {
            order.push(*request)?;
        }
    }
    Ok(())
}

/// The request of a transaction for a granule.
pub(super) fn request_of(requests: &[Request], txn: TxnId, granule: &Granule) -> Option<Request> {
    for request in requests {
        if request.txn == txn && request.granule == *granule {
            return Some(*request);
        }
    }
    None
}

/// The request that the transaction makes if it asks for the granule in this mode.
pub(super) fn asked(requests: &[Request], txn: TxnId, granule: Granule, mode: Mode) -> Request {
    let mut held = None;
    if let Some(request) = request_of(requests, txn, &granule) {
        held = request.held;
    }
    let wanted = match held {
        Some(held) => sup(held, mode),
        None => mode,
    };
    Request {
        txn,
        granule,
        held,
        wanted: Some(wanted),
    }
}

/// A transaction that does not wait asks for a lock, from the root down. Answers whether it waits then.
pub(super) fn ask(
    alloc: Global,
    table: &mut Vec<Request>,
    txn: TxnId,
    lock: Lock,
) -> Result<bool, AllocError> {
    for depth in 0..lock.depth {
        let wanted = asked(
            table,
            txn,
            granule_at(lock.place, depth),
            parent_mode(lock.mode),
        );
        if is_covered(&wanted, lock.mode) {
            return Ok(false);
        }
        if place(alloc, table, wanted)? {
            return Ok(true);
        }
    }
    let wanted = asked(table, txn, granule_at(lock.place, lock.depth), lock.mode);
    place(alloc, table, wanted)
}

// What is held above is enough for what is asked below.
fn is_covered(above: &Request, mode: Mode) -> bool {
    match above.held {
        Some(held) => covers(held, mode),
        None => false,
    }
}

// A request comes to its place, unless as much is held, and those whose turn it is are granted. Answers whether it waits then.
fn place(alloc: Global, table: &mut Vec<Request>, request: Request) -> Result<bool, AllocError> {
    if request.held == request.wanted {
        return Ok(false);
    }
    *table = placed_last(alloc, table, request)?
        .as_slice()
        .to_vec(alloc)?;
    grant_in_turn(alloc, table, request.granule)?;
    Ok(waiting_request(table, request.txn).is_some())
}

// Grants the requests for a granule that wait, in the order of its queue, up to one that is refused.
fn grant_in_turn(
    alloc: Global,
    table: &mut Vec<Request>,
    granule: Granule,
) -> Result<(), AllocError> {
    let queue = queue_at(alloc, table, granule)?;
    for waiter in queue.as_slice() {
        if waiter.wanted.is_some() {
            if is_blocked(waiter, table) {
                break;
            }
            grant(table, waiter);
        }
    }
    Ok(())
}

// Another one holds the granule in a mode that is in the way.
fn is_blocked(waiter: &Request, table: &[Request]) -> bool {
    for other in table {
        if let (Some(held), Some(wanted)) = (other.held, waiter.wanted) {
            if other.txn != waiter.txn && other.granule == waiter.granule && !grants(held, wanted) {
                return true;
            }
        }
    }
    false
}

fn grant(table: &mut Vec<Request>, waiter: &Request) {
    for request in table {
        if *request == *waiter {
            request.held = waiter.wanted;
            request.wanted = None;
        }
    }
}

/// The request with which a transaction waits.
pub(super) fn waiting_request(table: &[Request], txn: TxnId) -> Option<Request> {
    for request in table {
        if request.txn == txn && request.wanted.is_some() {
            return Some(*request);
        }
    }
    None
}

/// A transaction waits no more, and what it holds stays; those whose turn it is then are granted.
pub(super) fn take_back(
    alloc: Global,
    table: &mut Vec<Request>,
    txn: TxnId,
) -> Result<(), AllocError> {
    let Some(waiting) = waiting_request(table, txn) else {
        return Ok(());
    };
    let mut left = Vec::new(alloc);
    for request in &*table {
        if *request != waiting {
            left.push(*request)?;
        } else if request.held.is_some() {
            left.push(Request {
                wanted: None,
                ..*request
            })?;
        }
    }
    *table = left;
    grant_in_turn(alloc, table, waiting.granule)
}

/// Whether some transactions wait for one another in a cycle.
pub(super) fn has_cycle(alloc: Global, table: &[Request]) -> Result<bool, AllocError> {
    let mut left = Vec::new(alloc);
    for request in table {
        if request.wanted.is_some() {
            left.push(request.txn)?;
        }
    }
    for _ in 0..left.len() {
        left = waiters_for_each_other(alloc, table, &left)?;
    }
    Ok(!left.is_empty())
}

// Those of them that wait for one of them.
fn waiters_for_each_other(
    alloc: Global,
    table: &[Request],
    txns: &[TxnId],
) -> Result<Vec<TxnId>, AllocError> {
    let mut found = Vec::new(alloc);
    for txn in txns {
        for other in txns {
            if waits_for(alloc, table, *txn, *other)? {
                found.push(*txn)?;
                break;
            }
        }
    }
    Ok(found)
}

/// Whether two lists have the same requests, in whatever order.
pub(super) fn have_the_same(some: &[Request], others: &[Request]) -> bool {
    some.len() == others.len() && are_among(some, others, TxnId(0))
}

/// Whether each of some requests, but for those of one transaction, is among others.
pub(super) fn are_among(some: &[Request], others: &[Request], but: TxnId) -> bool {
    for request in some {
        if request.txn != but && !others.contains(request) {
            return false;
        }
    }
    true
}
