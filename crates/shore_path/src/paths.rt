//! The path of a granule.
ghost use Rattle.std.specs.Prelude.{◌≡◌, reverse};
ghost use Rattle.shore_model.specs.Locks as locks;

use arrayvec::ArrayVec;
use shore_types::Granule;

/// The volume, a store, a page and a record: no path has more granules.
pub const LONGEST_PATH: usize = 4;

/// A path, whose granules lie in the value itself.
pub type Path = ArrayVec<Granule, LONGEST_PATH>;

/// The path of a granule from the root down, the granule last.
pub fn path_to(granule: Granule) -> Path
    ensures { result.items ≡ reverse (locks.path granule) }
{
    let mut path = ArrayVec::new();
    path.push(Granule::Volume);
    match &granule {
        Granule::Volume => {}
        Granule::Store(_) => {
            path.push(granule);
        }
        Granule::Page(page) => {
            path.push(Granule::Store(page.store));
            path.push(granule);
        }
        Granule::Record(id) => {
            path.push(Granule::Store(id.page.store));
            path.push(Granule::Page(id.page));
            path.push(granule);
        }
    }
    path
}
