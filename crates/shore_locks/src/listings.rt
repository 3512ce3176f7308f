//! Requests in order, and those of a walk.
ghost use Rattle.std.specs.Prelude.{◌≡◌, ◌++◌, ℕ, OnOk, map};
ghost use Rattle.std.specs.List.Sorted.{IsPermutation, IsSorted};
ghost use Rattle.shore_model.specs.declared.requests.Request.{Request as RequestData};
ghost use Rattle.shore_locks.specs.Listing.{granules_in_ex, holds_ex, request_cmp};

use shore_model::Request;
use shore_nodes::walks::Walk;
use shore_types::{Granule, Mode, TxnId};
use std::alloc::AllocError;

/// Puts requests in order: by granule, and then by transaction.
pub fn put_in_order(requests: &mut Vec<Request>)
    ensures same { IsPermutation requests.old.items requests.new.items }
    ensures order { IsSorted request_cmp requests.new.items }
{
    requests.sort_unstable_by_key(|request| (request.granule, request.txn));
}

/// Appends the requests of a walk.
pub fn append_walk(requests: &mut Vec<Request>, mut walk: Walk<'_>) -> Result<(), AllocError>
    ensures { OnOk result (requests.new.items ≡ requests.old.items ++ map (λ (p : ℕ × RequestData). p.1) walk.entry) }
{
    while let Some((_, request)) = walk.advance() {
        requests.push(*request)?;
    }
    Ok(())
}

/// Appends the granules that a transaction holds in EX by the requests of a walk, in their order.
pub fn append_exclusive(
    granules: &mut Vec<Granule>,
    mut walk: Walk<'_>,
    txn: TxnId,
) -> Result<(), AllocError>
    ensures { OnOk result (granules.new.items ≡ granules.old.items ++ granules_in_ex txn (map (λ (p : ℕ × RequestData). p.1) walk.entry)) }
{
    while let Some((_, request)) = walk.advance() {
        if request.txn == txn && is_exclusive(request) {
            granules.push(request.granule)?;
        }
    }
    Ok(())
}

// Whether EX is held.
fn is_exclusive(request: &Request) -> bool
    ensures { result ≡ holds_ex request.now }
{
    matches!(request.held, Some(Mode::EX))
}
