//! The heads of rings, of which there is a fixed number, found by hashing: Fibonacci hashing, after Knuth, The Art of Computer
//! Programming, volume 3, 6.4.
ghost use Rattle.std.specs.Prelude.{◌≡◌, ◌<◌, ◌≤◌, ◌^◌, ◌+◌, ◌*◌, max};
ghost use Rattle.shore_nodes.specs.Nodes as spec;

use shore_types::{Granule, PageId, TxnId};

// The volume and the stores below 64 have queues of their own, since everybody stands in them.
const OWN: usize = 65;

/// How many heads there are for so many nodes: no fewer, so that a ring has few.
pub fn heads_for(limit: usize) -> usize
    ensures some { 65 < result }
    ensures few { result ≤ 2 ^ 32 }
{
    OWN + limit.max(1).min(1 << 30).next_power_of_two()
}

/// The head of a granule's queue.
pub fn queue_head(granule: &Granule, heads: usize) -> usize
    requires some { 65 < heads }
    requires few { heads ≤ 2 ^ 32 }
    ensures is { result ≡ spec.queue_head heads granule.now }
    ensures small { result < heads }
{
    let number = granule_number(*granule);
    if number < OWN as u64 {
        number as usize
    } else {
        OWN + spread(heads - OWN, number)
    }
}

/// The head of a transaction's list.
pub fn list_head(txn: TxnId, heads: usize) -> usize
    requires some { 65 < heads }
    requires few { heads ≤ 2 ^ 32 }
    ensures is { result ≡ spec.list_head heads txn }
    ensures small { result < heads }
{
    spread(heads, txn.0)
}

/// The head of the ring of a transaction and a granule.
pub fn owner_head(txn: TxnId, granule: &Granule, heads: usize) -> usize
    requires some { 65 < heads }
    requires few { heads ≤ 2 ^ 32 }
    ensures is { result ≡ spec.owner_head heads txn granule.now }
    ensures small { result < heads }
{
    let mixed = txn.0.wrapping_mul(15_074_714_826_142_052_245);
    spread(heads, granule_number(*granule).wrapping_add(mixed))
}

// Numbers that lie side by side come to heads far apart: the high bits of the product choose.
fn spread(heads: usize, number: u64) -> usize
    requires some { 0 < heads }
    requires few { heads ≤ 2 ^ 32 }
    ensures is { result ≡ spec.spread heads number }
    ensures small { result < heads }
{
    let high = number.wrapping_mul(11_400_714_819_323_198_485) / (1 << 32);
    (high * heads as u64 / (1 << 32)) as usize
}

fn granule_number(granule: Granule) -> u64
    ensures { result ≡ spec.granule_number granule }
{
    match granule {
        Granule::Volume => 0,
        Granule::Store(store) => u64::from(store.0) + 1,
        Granule::Page(page) => page_number(page),
        Granule::Record(id) => page_number(id.page) * 2053 + u64::from(id.slot),
    }
}

fn page_number(page: PageId) -> u64
    ensures is { result ≡ page.store * 65599 + page.page + 65 }
    ensures small { result < 2 ^ 49 }
{
    u64::from(page.store.0) * 65599 + u64::from(page.page) + 65
}
