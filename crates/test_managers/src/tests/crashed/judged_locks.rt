//! The locks of a manager, judged by the slow functions.
use super::doings::{Doing, granule_at};
use super::lock_lists::{asked, have_the_same, request_of, take_back, waiting_request};
use super::trouble::{Trouble, require};
use shore_model::Request;
use shore_modes::{parent_mode, sup};
use shore_types::{Fault, Granule, Mode, TxnId};
use shore_world::Step;
use slow_locks::holds::{harmony, well_rooted};
use slow_locks::requests::{are_requests, held_by_all, placed_last, waits_for};
use std::alloc::Global;

/// No transaction has two requests for a granule, and what they hold is in harmony and well rooted.
pub(super) fn check_locks(alloc: Global, requests: &[Request]) -> Result<(), Trouble> {
    require(are_requests(requests), "two requests for one granule")?;
    let held = held_by_all(alloc, requests)?;
    require(harmony(held.as_slice()), "locks are not in harmony")?;
    require(well_rooted(held.as_slice()), "a lock lacks its intention")
}

/// Only this transaction may have asked: of others each request is as it was, or was granted, or was taken back if it is a victim's. Its own locks stay, and
/// are not weaker. All of those that are over go.
pub(super) fn check_asked(
    old: &[Request],
    new: &[Request],
    txn: TxnId,
    over: &[TxnId],
    victims: &[TxnId],
) -> Result<(), Trouble> {
    for request in new {
        let is_own = request.txn == txn;
        let was = request_of(old, request.txn, &request.granule);
        let is_explained = is_own || may_become(was, request, victims.contains(&request.txn));
        require(is_explained, "a lock that nobody asked for")?;
        require(
            !over.contains(&request.txn),
            "a lock of a transaction that is over",
        )?;
    }
    for request in old {
        let now = request_of(new, request.txn, &request.granule);
        let goes = over.contains(&request.txn);
        let is_taken_back = request.held.is_none() && victims.contains(&request.txn);
        require(
            goes || is_taken_back || is_kept(request, now),
            "a lock went before its turn",
        )?;
    }
    Ok(())
}

// The request is as it was, or waited and was granted; or it is a victim's that waited, and what it held is left of it.
fn may_become(was: Option<Request>, now: &Request, is_victims: bool) -> bool {
    let Some(was) = was else {
        return false;
    };
    let waits_no_more = now.wanted.is_none();
    was == *now
        || (waits_no_more && was.wanted == now.held)
        || (waits_no_more && is_victims && was.held == now.held)
}

// The request is still there, and holds what it held.
fn is_kept(was: &Request, now: Option<Request>) -> bool {
    let Some(now) = now else {
        return false;
    };
    match (was.held, now.held) {
        (Some(held), Some(still)) => sup(held, still) == still,
        (Some(_), None) => false,
        (None, _) => true,
    }
}

/// A wait that is to be taken back: the call is refused just if a request of its transaction waits, and no device has failed; that request goes, and those whose turn it is then are granted.
pub(super) fn check_given_up(
    alloc: Global,
    old: &[Request],
    new: &[Request],
    txn: TxnId,
    step: &Step,
    has_failed: bool,
) -> Result<(), Trouble> {
    let waits = !has_failed && waiting_request(old, txn).is_some();
    let is_refused = matches!(step, Step::Refused(Fault::WouldBlock { .. }));
    require(
        waits == is_refused,
        "a wait is taken back that is none, or one is not",
    )?;
    let mut left = Vec::from_slice(alloc, old)?;
    if waits {
        take_back(alloc, &mut left, txn)?;
    }
    require(
        have_the_same(new, &left),
        "other requests are left than without the one that waited",
    )
}

/// The transaction waits at the granule.
pub(super) fn waits_at(requests: &[Request], txn: TxnId, granule: &Granule) -> bool {
    match request_of(requests, txn, granule) {
        Some(request) => request.wanted.is_some(),
        None => false,
    }
}

/// Whether the transaction would wait for the other on the way to what it tried, or with its request that is taken back.
pub(super) fn would_wait(
    alloc: Global,
    requests: &[Request],
    txn: TxnId,
    doing: Doing,
    holder: TxnId,
) -> Result<bool, Trouble> {
    if matches!(doing, Doing::GiveUp) {
        return match waiting_request(requests, txn) {
            Some(request) => waits_behind(alloc, requests, request, holder),
            None => Ok(false),
        };
    }
    let Doing::TryOf(place, depth, mode) = doing else {
        return Ok(false);
    };
    for above in 0..depth {
        let wanted = asked(requests, txn, granule_at(place, above), parent_mode(mode));
        if waits_behind(alloc, requests, wanted, holder)? {
            return Ok(true);
        }
    }
    let wanted = asked(requests, txn, granule_at(place, depth), mode);
    waits_behind(alloc, requests, wanted, holder)
}

// Whether a request that is made last waits for the other transaction.
fn waits_behind(
    alloc: Global,
    requests: &[Request],
    wanted: Request,
    holder: TxnId,
) -> Result<bool, Trouble> {
    let txn = wanted.txn;
    let placed = placed_last(alloc, requests, wanted)?;
    Ok(waits_for(alloc, placed.as_slice(), txn, holder)?)
}
