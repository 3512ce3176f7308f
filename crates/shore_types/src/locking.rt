//! What is locked, and how.
ghost use Rattle.std.specs.Prelude.{◌≡◌, refl};
ghost use Rattle.std.specs.Cmp.{IsTotalOrder};
ghost use Rattle.std.specs.declared.cmp.Ordering.TheVariants.{Equal};
ghost use Rattle.shore_types.specs.Locking.{depth_of, granule_cmp, granules_total, ids_of, level_of, parent_of};

use crate::{PageId, Rid, StoreId};
use std::cmp::Ordering;
use std::fmt;

/// A granule of the tree: the volume, which is the root and the default, a store, a page or a record. Granules are in the
/// order of their levels, from the volume down, and then of their ids.
#[derive(Clone, Copy, Default, PartialEq, Eq)]
pub enum Granule {
    #[default]
    Volume,
    Store(StoreId),
    Page(PageId),
    Record(Rid),
}

/// A level of the tree, the root first.
#[derive(Clone, Copy, PartialEq)]
pub enum Level {
    Volume,
    Store,
    Page,
    Record,
}

/// A lock mode: intention share, intention exclusive, share, share with intention exclusive, exclusive and update.
#[derive(Clone, Copy, PartialEq)]
pub enum Mode {
    IS,
    IX,
    SH,
    SIX,
    EX,
    UD,
}

/// Granules are in a total order, by level and then by ids, in which those that compare alike are one.
pub fn granules_are_in_order()
    ensures total { IsTotalOrder granule_cmp }
    ensures exact { (g h : Granule) → granule_cmp g h ≡ Equal → g ≡ h }
{}

impl Ord for Granule {
    ghost use Rattle.std.proofs.Common.{rules};
    ghost use Rattle.std.specs.Cmp.Rules.{comparing};

    ghost cmp = { granule_cmp };

    ghost total = { granules_total };

    ghost matches_partial_cmp = { λ g h. refl };

    ghost matches_eq = { Prim.search (comparing, rules) };

    fn cmp(&self, other: &Granule) -> Ordering {
        let levels = self.depth().cmp(&other.depth());
        levels.then(self.ids().cmp(&other.ids()))
    }
}

impl PartialOrd for Granule {
    ghost use Rattle.std.proofs.Common.{rules};
    ghost use Rattle.std.specs.Cmp.Rules.{comparing};
    ghost use Rattle.std.specs.Cmp.{partial_order_from_agreeing_total};
    ghost use Rattle.std.specs.Ordering.{as_partial_cmp};

    ghost partial_cmp = { as_partial_cmp granule_cmp };

    ghost laws = { partial_order_from_agreeing_total granule_cmp granules_total (λ g h. refl) (Prim.search (comparing, rules)) };

    fn partial_cmp(&self, other: &Granule) -> Option<Ordering> {
        Some(self.cmp(other))
    }
}

impl Granule {
    /// How many granules it lies in.
    pub fn depth(&self) -> u8
        ensures { result ≡ depth_of (level_of self.now) }
    {
        match self {
            Granule::Volume => 0,
            Granule::Store(_) => 1,
            Granule::Page(_) => 2,
            Granule::Record(_) => 3,
        }
    }

    /// Its ids, 0 where it has none.
    pub fn ids(&self) -> Rid
        ensures { result ≡ ids_of self.now }
    {
        match self {
            Granule::Volume => rid_of(0, 0, 0),
            Granule::Store(store) => rid_of(store.0, 0, 0),
            Granule::Page(page) => rid_of(page.store.0, page.page, 0),
            Granule::Record(id) => *id,
        }
    }

    pub fn level(self) -> Level
        ensures { result ≡ level_of self }
    {
        match self {
            Granule::Volume => Level::Volume,
            Granule::Store(_) => Level::Store,
            Granule::Page(_) => Level::Page,
            Granule::Record(_) => Level::Record,
        }
    }

    /// The granule that it lies in.
    pub fn parent(self) -> Option<Granule>
        ensures { result ≡ parent_of self }
    {
        match self {
            Granule::Volume => None,
            Granule::Store(_) => Some(Granule::Volume),
            Granule::Page(page) => Some(Granule::Store(page.store)),
            Granule::Record(id) => Some(Granule::Page(id.page)),
        }
    }
}

fn rid_of(store: u32, page: u32, slot: u16) -> Rid
    ensures { result ≡ record { page = record { store = store; page = page }; slot = slot } }
{
    let store = StoreId(store);
    Rid {
        page: PageId { store, page },
        slot,
    }
}

impl fmt::Display for Granule {
    ghost use Rattle.std.specs.Prelude.{Some};
    ghost use Rattle.shore_types.specs.Names.{granule_name};

    ghost output = { λ granule. Some (granule_name granule) };

    fn fmt<W: fmt::Write>(&self, f: &mut fmt::Formatter<W>) -> fmt::Result {
        match self {
            Granule::Volume => f.write_str("v"),
            Granule::Store(store) => write!(f, "{store}"),
            Granule::Page(page) => write!(f, "{page}"),
            Granule::Record(id) => write!(f, "{id}"),
        }
    }
}

impl fmt::Display for Mode {
    ghost use Rattle.std.specs.Prelude.{Some};
    ghost use Rattle.shore_types.specs.Names.{mode_name};

    ghost output = { λ mode. Some (mode_name mode) };

    fn fmt<W: fmt::Write>(&self, f: &mut fmt::Formatter<W>) -> fmt::Result {
        f.write_str(match self {
            Mode::IS => "IS",
            Mode::IX => "IX",
            Mode::SH => "SH",
            Mode::SIX => "SIX",
            Mode::EX => "EX",
            Mode::UD => "UD",
        })
    }
}
