//! Whether locks that are held are in harmony and well rooted, decided slowly.
ghost use Rattle.std.specs.Prelude.{◌≡◌, ◌↔◌, ◌∷◌, [], IsTrue, All, Contains};
ghost use Rattle.std.specs.List.{AllByRecursion};
ghost use Rattle.shore_model.specs.Locks.{Agree, Harmony, KeepApart, OnOnePath, StandTogether, HoldsAtLeast, IsRooted, WellRooted, ancestors, path};

use shore_model::Hold;
use shore_modes::{coexist, is_at_most, is_read, is_write, parent_mode};
use shore_types::{Granule, Mode, PageId, StoreId, TxnId};

/// On each granule the modes of different holders are compatible.
pub fn stand_together(held: &[Hold]) -> bool
    ensures { IsTrue result ↔ StandTogether held.now }
{
    for hold in held {
        if !agrees_with_each(held, hold) {
            return false;
        }
    }
    true
}

/// On each granule the modes of different holders are compatible, and no transaction may write a record that another
/// may read.
pub fn harmony(held: &[Hold]) -> bool
    ensures { IsTrue result ↔ Harmony held.now }
{
    stand_together(held) && none_interferes(held)
}

fn none_interferes(held: &[Hold]) -> bool
    ensures { IsTrue result ↔ All (λ w. All (KeepApart w) held.now) held.now }
{
    for hold in held {
        if !keeps_apart_from_each(held, hold) {
            return false;
        }
    }
    true
}

fn keeps_apart_from_each(held: &[Hold], hold: &Hold) -> bool
    ensures { IsTrue result ↔ All (KeepApart hold.now) held.now }
{
    for other in held {
        if !keep_apart(hold, other) {
            return false;
        }
    }
    true
}

fn keep_apart(writer: &Hold, reader: &Hold) -> bool
    ensures { IsTrue result ↔ KeepApart writer.now reader.now }
{
    writer.txn == reader.txn
        || !is_write(writer.mode)
        || !is_read(reader.mode)
        || !lie_on_one_path(writer.granule, reader.granule)
}

/// Whether one granule lies at or under the other.
pub fn lie_on_one_path(a: Granule, b: Granule) -> bool
    ensures { IsTrue result ↔ OnOnePath a b }
{
    lies_under(&a, &b) || lies_under(&b, &a)
}

// The first granule is the second or lies in it.
fn lies_under(inner: &Granule, outer: &Granule) -> bool
    ensures { IsTrue result ↔ Contains (path inner.now) outer.now }
{
    is_same(outer, inner) || is_ancestor(outer, inner)
}

fn is_same(a: &Granule, b: &Granule) -> bool
    ensures { IsTrue result ↔ (a.now ≡ b.now) }
{
    *a == *b
}

fn is_ancestor(outer: &Granule, inner: &Granule) -> bool
    ensures { IsTrue result ↔ Contains (ancestors inner.now) outer.now }
{
    match inner {
        Granule::Volume => false,
        Granule::Store(_) => *outer == Granule::Volume,
        Granule::Page(page) => lies_over_page(outer, page.store),
        Granule::Record(id) => *outer == Granule::Page(id.page)
            || lies_over_page(outer, id.page.store),
    }
}

// The granule is the store or the volume.
fn lies_over_page(outer: &Granule, store: StoreId) -> bool
    ensures { IsTrue result ↔ Contains (Granule.Store store ∷ Granule.Volume ∷ []) outer.now }
{
    *outer == Granule::Store(store) || *outer == Granule::Volume
}

fn agrees_with_each(held: &[Hold], hold: &Hold) -> bool
    ensures { IsTrue result ↔ All (Agree hold.now) held.now }
{
    for other in held {
        if !agree(hold, other) {
            return false;
        }
    }
    true
}

fn agree(hold: &Hold, other: &Hold) -> bool
    ensures { IsTrue result ↔ Agree hold.now other.now }
{
    hold.granule != other.granule || hold.txn == other.txn || coexist(hold.mode, other.mode)
}

/// Each lock has its intention, or a stronger mode, on each ancestor.
pub fn well_rooted(held: &[Hold]) -> bool
    ensures { IsTrue result ↔ WellRooted held.now }
{
    for hold in held {
        if !is_rooted(held, hold) {
            return false;
        }
    }
    true
}

fn is_rooted(held: &[Hold], hold: &Hold) -> bool
    ensures { IsTrue result ↔ IsRooted held.now hold.now }
{
    let mode = parent_mode(hold.mode);
    match hold.granule {
        Granule::Volume => true,
        Granule::Store(_) => holds_at_least(held, hold.txn, mode, Granule::Volume),
        Granule::Page(page) => holds_from_store(held, hold.txn, mode, page.store),
        Granule::Record(id) => holds_from_page(held, hold.txn, mode, id.page),
    }
}

fn holds_from_store(held: &[Hold], txn: TxnId, mode: Mode, store: StoreId) -> bool
    ensures { IsTrue result ↔ AllByRecursion (HoldsAtLeast held.now txn mode) (Granule.Store store ∷ Granule.Volume ∷ []) }
{
    holds_at_least(held, txn, mode, Granule::Store(store))
        && holds_at_least(held, txn, mode, Granule::Volume)
}

fn holds_from_page(held: &[Hold], txn: TxnId, mode: Mode, page: PageId) -> bool
    ensures { IsTrue result ↔ AllByRecursion (HoldsAtLeast held.now txn mode) (Granule.Page page ∷ Granule.Store page.store ∷ Granule.Volume ∷ []) }
{
    let store = page.store;
    holds_at_least(held, txn, mode, Granule::Page(page)) && holds_from_store(held, txn, mode, store)
}

fn holds_at_least(held: &[Hold], txn: TxnId, mode: Mode, granule: Granule) -> bool
    ensures { IsTrue result ↔ HoldsAtLeast held.now txn mode granule }
{
    held.iter().any(|hold| hold.txn == txn
        && hold.granule == granule
        && is_at_most(mode, hold.mode))
}
