//! Which records a volume may hold.
use super::analysis::geometry;
use shore_model::RidMap;
use shore_types::{PageId, Rid, Sequence, StoreId};
use std::alloc::{AllocError, Global};

// A page, a slot, a length, and whether a record may be there.
const LIMITS: [(u32, u16, usize, bool); 4] = [
    (1, 2041, 4000, true),
    (1, 2041, 4001, false),
    (1, 2042, 4000, false),
    (2, 0, 0, false),
];

#[test]
fn record_limits(rt: HostRuntime) -> Result<(), AllocError> {
    for (page, slot, length, wanted) in &LIMITS {
        let may_hold = may_hold(rt.alloc(), *page, *slot, *length)?;
        assert!(rt; may_hold == *wanted, "{page} {slot} {length}");
    }
    Ok(())
}

// Whether a volume whose store 0 has two pages may hold a record of so many bytes there at this slot.
fn may_hold(alloc: Global, page: u32, slot: u16, length: usize) -> Result<bool, AllocError> {
    let store = StoreId(0);
    let page = PageId { store, page };
    let bytes = Vec::from_elem(alloc, 0xaau8, length)?;
    let mut records = RidMap::new(alloc);
    records.insert(Rid { page, slot }, Sequence::from_vec(bytes))?;
    Ok(records.are_records(&geometry(alloc)?))
}
