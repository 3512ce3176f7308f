//! The free space maps of all stores.
ghost use Rattle.std.specs.Prelude.{◌≡◌, ◌+◌, ◌≤◌, IfOk, map, replicate, sum};
ghost use Rattle.shore_types.specs.declared.layout.TheConstants.{MAX_PAGES, MAX_RECORD_BYTES};

use crate::free_map::FreeMap;
use shore_types::Geometry;
use std::alloc::{AllocError, Global};

/// A map for each store, of whose pages nothing is known.
pub fn unknown_maps(alloc: Global, geometry: &Geometry) -> Result<Vec<FreeMap>, AllocError>
    requires { sum geometry.now.stores ≤ MAX_PAGES }
    ensures { IfOk result (λ maps. maps.items ≡ map (λ pages. replicate pages (MAX_RECORD_BYTES + 1)) geometry.now.stores) }
{
    let stores = geometry.stores.as_slice();
    let mut maps = Vec::with_capacity(alloc, stores.len())?;
    for i in 0..stores.len() {
        let map = FreeMap::new(alloc, stores[i] as usize)?;
        maps.push_reserved(map);
    }
    Ok(maps)
}
