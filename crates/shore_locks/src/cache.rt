//! The locks above records that transactions took, or were found to hold, last: a call on a record mostly asks for the page of the call before it.
ghost use Rattle.std.specs.Prelude.{◌≡◌, ◌<◌, ℕ, IfSome, MatchOption, None, Some};
ghost use Rattle.shore_types.specs.declared.locking.Granule.{Granule};
ghost use Rattle.shore_types.specs.declared.locking.Granule.TheVariants.{Page, Store, Volume};
ghost use Rattle.shore_types.specs.declared.locking.Mode.{Mode};
ghost use Rattle.shore_locks.specs.Cache as specs;
ghost use Rattle.shore_locks.specs.Cache.{IsForgotten, IsNoted, IsNotedIn, cached};

use crate::answers::HeldAbove;
use shore_model::Request;
use shore_types::{Granule, Mode, PageId, StoreId, TxnId};

// Transactions whose numbers are alike in the low bits share an entry. As many can take turns, and each finds what it noted.
const ENTRIES: usize = 64;

/// What a transaction holds, and wants no more of: the volume, a store and a page, the last of each that were noted.
#[derive(Clone, Copy)]
struct Entry {
    // The transaction that holds it, or none: then nothing else is known.
    txn: TxnId,
    // The mode in which it holds the volume, if that is known.
    volume: Option<Mode>,
    // A store, and the mode in which it holds that.
    store: Option<(StoreId, Mode)>,
    // A page, and the mode in which it holds that.
    page: Option<(PageId, Mode)>,
}

/// An entry for each of some transactions, found by the number. Who puts a lock into it, or changes one that may be in it, has to say so.
#[derive(Drop)]
pub struct LockCache {
    // The entries, each at the index that the transaction's number has.
    entries: [Entry; ENTRIES],
}

impl LockCache {
    /// A cache that says nothing.
    pub fn new() -> LockCache
        ensures { (t : ℕ) (g : Granule) → cached result.entries t g ≡ None }
    {
        LockCache {
            entries: [nothing_of(TxnId(0)); ENTRIES],
        }
    }

    /// The modes in which a transaction holds a page, its store and the volume, if all three are known.
    pub fn above(&self, txn: TxnId, page: &PageId) -> Option<HeldAbove>
        ensures { IfSome result (λ held. (cached self.now.entries txn Volume ≡ Some held.volume) × (cached self.now.entries txn (Store page.now.store) ≡ Some held.store) × (cached self.now.entries txn (Page page.now) ≡ Some held.page)) }
    {
        let entry = self.entry_of(txn)?;
        Some(HeldAbove {
            volume: entry.volume?,
            store: mode_of_store(entry, page.store)?,
            page: mode_of_page(entry, page)?,
        })
    }

    /// The mode in which a transaction holds a granule, if that is known. It is of no record.
    #[inline(always)]
    pub fn held(&self, txn: TxnId, granule: &Granule) -> Option<Mode>
        ensures { result ≡ cached self.now.entries txn granule.now }
    {
        mode_in(self.entry_of(txn)?, granule)
    }

    // The entry of a transaction, if it has one.
    #[inline(always)]
    fn entry_of(&self, txn: TxnId) -> Option<&Entry>
        ensures { MatchOption result ((g : Granule) → cached self.now.entries txn g ≡ None) (λ entry. (g : Granule) → cached self.now.entries txn g ≡ specs.mode_in entry.now g) }
    {
        let entry = &self.entries[index_of(txn)];
        if entry.txn == txn { Some(entry) } else { None }
    }

    /// A transaction holds a granule in a mode, and wants no more of it. Of a record this is not noted.
    pub fn note(&mut self, txn: TxnId, granule: &Granule, mode: Mode)
        ensures { IsNoted self.old.entries self.new.entries txn granule.now mode }
    {
        match granule {
            Granule::Record(_) => {}
            _ => note_in(&mut self.entries[index_of(txn)], txn, granule, mode),
        }
    }

    /// What a request wants is granted.
    pub fn note_grant(&mut self, request: &Request)
        ensures { (mode : Mode) → request.now.wanted ≡ Some mode → IsNoted self.old.entries self.new.entries request.now.txn request.now.granule mode }
    {
        if let Some(mode) = request.wanted {
            self.note(request.txn, &request.granule, mode);
        }
    }

    /// A request begins to wait: its transaction may come to hold more, unasked.
    pub fn note_wait(&mut self, request: &Request)
        ensures { IsForgotten self.old.entries self.new.entries request.now.txn }
    {
        self.forget(request.txn);
    }

    /// Nothing is known any more of what a transaction holds.
    pub fn forget(&mut self, txn: TxnId)
        ensures { IsForgotten self.old.entries self.new.entries txn }
    {
        self.entries[index_of(txn)] = nothing_of(txn);
    }
}

fn index_of(txn: TxnId) -> usize
    ensures is { result ≡ specs.index_of txn }
    ensures small { result < ENTRIES }
{
    (txn.0 % ENTRIES as u64) as usize
}

fn nothing_of(txn: TxnId) -> Entry
    ensures { result ≡ specs.nothing_of txn }
{
    Entry {
        txn,
        volume: None,
        store: None,
        page: None,
    }
}

fn mode_in(entry: &Entry, granule: &Granule) -> Option<Mode>
    ensures { result ≡ specs.mode_in entry.now granule.now }
{
    match granule {
        Granule::Volume => entry.volume,
        Granule::Store(store) => mode_of_store(entry, *store),
        Granule::Page(page) => mode_of_page(entry, page),
        Granule::Record(_) => None,
    }
}

fn mode_of_store(entry: &Entry, store: StoreId) -> Option<Mode>
    ensures { result ≡ specs.mode_in entry.now (Store store) }
{
    match entry.store {
        Some((noted, mode)) if noted == store => Some(mode),
        _ => None,
    }
}

fn mode_of_page(entry: &Entry, page: &PageId) -> Option<Mode>
    ensures { result ≡ specs.mode_in entry.now (Page page.now) }
{
    match entry.page {
        Some((noted, mode)) if noted == *page => Some(mode),
        _ => None,
    }
}

// A transaction takes over the entry, if another has it, and holds a granule above records in a mode.
fn note_in(entry: &mut Entry, txn: TxnId, granule: &Granule, mode: Mode)
    ensures txn { entry.new.txn ≡ txn }
    ensures noted { IsNotedIn entry.old entry.new txn granule.now mode }
{
    take_over(entry, txn);
    match granule {
        Granule::Volume => entry.volume = Some(mode),
        Granule::Store(store) => entry.store = Some((*store, mode)),
        Granule::Page(page) => entry.page = Some((*page, mode)),
        Granule::Record(_) => {}
    }
}

fn take_over(entry: &mut Entry, txn: TxnId)
    ensures { entry.new ≡ specs.own_of txn entry.old }
{
    if entry.txn != txn {
        *entry = nothing_of(txn);
    }
}
