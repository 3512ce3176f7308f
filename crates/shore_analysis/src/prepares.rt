//! What a Prepare has to mean.
ghost use Rattle.shore_types.specs.Layout.{HasGranule};
ghost use Rattle.std.specs.Prelude.{◌≡◌, ◌↔◌, ◌<◌, ℕ, All, Contains, IfSome, IsTrue};
ghost use Rattle.std.specs.List.Sorted.{IsStrictlySortedBy};
ghost use Rattle.std.specs.declared.cmp.Ordering.TheVariants.{Less};
ghost use Rattle.shore_types.specs.Locking.{granule_cmp};
ghost use Rattle.shore_types.specs.declared.layout.Geometry.{Geometry};
ghost use Rattle.shore_model.specs.Logs.{LieUnder, LiesUnder, id_in, last_of};
ghost use Rattle.shore_analysis.specs.Meant.{AreGranules, AreMeantOf};
ghost use Rattle.shore_analysis.specs.Padded.{padded};

use crate::chains::record_behind;
use shore_model::LogRecord;
use shore_types::{Geometry, Granule, Lsn, Rid};

/// Whether a transaction may prepare with these granules, behind its last record, which has this number, 0 if it has none: they rise, the geometry has
/// each, and each id that it has changed lies at or under one of them.
pub(crate) fn may_prepare(
    geometry: &Geometry,
    cut: u64,
    before: &[LogRecord],
    last: Lsn,
    granules: &[Granule],
) -> bool
    ensures { (t : ℕ) → 0 < t → AreMeantOf geometry.now t (padded cut before.now) → last ≡ last_of t (padded cut before.now)
        → (IsTrue result ↔ (AreGranules geometry.now granules.now × LieUnder (padded cut before.now) t granules.now)) }
{
    if !are_granules(geometry, granules) {
        return false;
    }
    cover_changes(cut, before, last, granules)
}

/// Whether the geometry has each granule, and they rise.
pub(crate) fn are_granules(geometry: &Geometry, granules: &[Granule]) -> bool
    ensures { IsTrue result ↔ AreGranules geometry.now granules.now }
{
    if !are_inside(geometry, granules) {
        return false;
    }
    rise(granules)
}

fn are_inside(geometry: &Geometry, granules: &[Granule]) -> bool
    ensures { IsTrue result ↔ All (HasGranule geometry.now) granules.now }
{
    for granule in granules {
        if !has_granule(geometry, granule) {
            return false;
        }
    }
    true
}

fn has_granule(geometry: &Geometry, granule: &Granule) -> bool
    ensures { IsTrue result ↔ HasGranule geometry.now granule.now }
{
    match granule {
        Granule::Volume => true,
        Granule::Store(store) => geometry.has_store(*store),
        Granule::Page(page) => geometry.has_page(*page),
        Granule::Record(id) => geometry.has_slot(*id),
    }
}

// Whether each granule comes before those behind it.
fn rise(granules: &[Granule]) -> bool
    ensures { IsTrue result ↔ IsStrictlySortedBy granule_cmp granules.now }
{
    for index in 1..granules.len() {
        if !is_below(&granules[index - 1], &granules[index]) {
            return false;
        }
    }
    true
}

fn is_below(one: &Granule, other: &Granule) -> bool
    ensures { IsTrue result ↔ (granule_cmp one.now other.now ≡ Less) }
{
    *one < *other
}

// Whether each id that a transaction has changed lies at or under one of these granules. Each record names the one before it.
fn cover_changes(cut: u64, before: &[LogRecord], last: Lsn, granules: &[Granule]) -> bool
    requires { IsStrictlySortedBy granule_cmp granules.now }
    ensures { (g : Geometry) (t : ℕ) → AreMeantOf g t (padded cut before.now) → 0 < t → last ≡ last_of t (padded cut before.now)
        → (IsTrue result ↔ LieUnder (padded cut before.now) t granules.now) }
{
    let mut number = last;
    for _ in 0..before.len() {
        let Some(logged) = record_behind(cut, before, number) else {
            return true;
        };
        if !covers(granules, logged) {
            return false;
        }
        number = logged.previous;
    }
    true
}

// Whether the id that a record changes, if it changes one, lies at or under one of these granules.
fn covers(granules: &[Granule], logged: &LogRecord) -> bool
    requires { IsStrictlySortedBy granule_cmp granules.now }
    ensures { IsTrue result ↔ IfSome (id_in logged.now.payload) (LiesUnder granules.now) }
{
    match logged.payload.id() {
        Some(id) => cover(granules, &id),
        None => true,
    }
}

// Whether a record is one of these granules, or lies in one.
fn cover(granules: &[Granule], id: &Rid) -> bool
    requires { IsStrictlySortedBy granule_cmp granules.now }
    ensures { IsTrue result ↔ LiesUnder granules.now id.now }
{
    if has(granules, &Granule::Record(*id)) {
        return true;
    }
    if has(granules, &Granule::Page(id.page)) {
        return true;
    }
    if has(granules, &Granule::Store(id.page.store)) {
        return true;
    }
    has(granules, &Granule::Volume)
}

// Whether a granule is one of these, which rise.
fn has(granules: &[Granule], granule: &Granule) -> bool
    requires { IsStrictlySortedBy granule_cmp granules.now }
    ensures { IsTrue result ↔ Contains granules.now granule.now }
{
    granules.binary_search(granule).is_ok()
}
