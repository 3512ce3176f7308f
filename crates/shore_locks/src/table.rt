//! The lock table.
ghost use Rattle.std.specs.Prelude.{◌≡◌, ◌⊎◌, ◌↔◌, ◌≤◌, ◌+◌, ℕ, [], filter, length, Contains, IfOk, IfSome, IsFalse, IsSome, None, Some, false};
ghost use Rattle.std.specs.List.Sorted.{IsPermutation, IsSorted, IsStrictlySortedBy};
ghost use Rattle.shore_types.specs.Locking.{granule_cmp};
ghost use Rattle.shore_types.specs.declared.locking.Granule.{Granule};
ghost use Rattle.shore_types.specs.declared.locking.Granule.TheVariants.{Page, Store, Volume};
ghost use Rattle.shore_model.specs.declared.requests.Group.TheVariants.{Conversions};
ghost use Rattle.shore_model.specs.Requests.{WaitsFor, is_in_group, requests_at, requests_by};
ghost use Rattle.shore_locks.specs.Grants.{after_request, after_try, answer_to, answer_to_try, cancelled, in_its_way, in_the_way, released};
ghost use Rattle.shore_nodes.specs.LetThrough.{Tells};
ghost use Rattle.shore_nodes.specs.Tables.{holders_at, is_waiting, mode_held, request_for, waiters_at, waiting_request};
ghost use Rattle.shore_locks.specs.Listing.{request_cmp};
ghost use Rattle.shore_nodes.specs.Orderly.{IsOrderly};

use crate::answers::{HeldAbove, Requested, Tried};
use crate::cache::LockCache;
use crate::counted::Counted;
use crate::findings::{Finding, check_request};
use crate::listings::{append_exclusive, put_in_order};
use crate::queues::{Holders, Waiters};
use crate::{changes, findings, searches};
use shore_model::Request;
use shore_nodes::judgements::is_enough;
use shore_nodes::let_through::LetThrough;
use shore_types::{Granule, Mode, PageId, Sequence, TxnId};
use std::alloc::{AllocError, Global};
use std::marker::Model;

/// What each transaction holds and wants of each granule. There is one node (lock request block) for each pair of the two.
#[derive(Drop)]
pub struct LockTable {
    // The requests with their queues, and a tally for each queue.
    nodes: Counted,
    // Of some transactions, what they took or were found to hold last above records.
    cache: LockCache,
}

impl Model for LockTable {
    ghost use Rattle.std.specs.Prelude.{◌≤◌, length};
    ghost use Rattle.shore_nodes.specs.Tables.{Table};

    ghost Value = { Table };

    ghost use Rattle.shore_locks.specs.Cache.{IsSound};

    ghost view = { λ t. t.nodes };

    ghost invariant = { λ t. IsSound t.nodes t.cache.entries };
}

impl LockTable {
    /// A table with no requests, with the memory for so many nodes: no later call takes any.
    pub fn new(alloc: Global, limit: usize) -> Result<LockTable, AllocError>
        ensures { IfOk result (λ table. table ≡ record { limit = limit; requests = [] }) }
    {
        let nodes = Counted::new(alloc, limit)?;
        Ok(LockTable {
            nodes,
            cache: LockCache::new(),
        })
    }

    /// How many nodes there are.
    pub fn nodes(&self) -> usize
        ensures nodes { result ≡ length self.now.requests }
        ensures within { length self.now.requests ≤ self.now.limit }
        ensures orderly { IsOrderly self.now.requests }
    {
        self.nodes.len()
    }

    /// How many nodes are left.
    pub fn nodes_left(&self) -> usize
        ensures { result + length self.now.requests ≡ self.now.limit }
    {
        self.nodes.left()
    }

    /// The request of a transaction for a granule.
    pub fn request_for(&self, txn: TxnId, granule: Granule) -> Option<Request>
        ensures { result ≡ request_for txn granule self.now.requests }
    {
        searches::request_for(self.nodes.nodes(), txn, &granule)
    }

    /// The mode in which a transaction holds a granule. Above records it is mostly known without a search.
    #[inline(always)]
    pub fn held(&self, txn: TxnId, granule: Granule) -> Option<Mode>
        ensures { result ≡ mode_held txn granule self.now.requests }
    {
        if let Some(known) = self.cache.held(txn, &granule) {
            return Some(known);
        }
        searches::mode_held(self.nodes.nodes(), txn, &granule)
    }

    /// The modes in which a transaction that does not wait holds a page, its store and the volume, if it holds all three. What takes a search is known the
    /// next time, until another page or store takes its place.
    pub fn held_above(&mut self, txn: TxnId, page: &PageId) -> Option<HeldAbove>
        requires { is_waiting txn self.old.requests ≡ false }
        ensures volume { IfSome result (λ held. mode_held txn Volume self.old.requests ≡ Some held.volume) }
        ensures store { IfSome result (λ held. mode_held txn (Store page.now.store) self.old.requests ≡ Some held.store) }
        ensures page { IfSome result (λ held. mode_held txn (Page page.now) self.old.requests ≡ Some held.page) }
        ensures none { result ≡ None → (mode_held txn Volume self.old.requests ≡ None) ⊎ (mode_held txn (Store page.now.store) self.old.requests ≡ None) ⊎ (mode_held txn (Page page.now) self.old.requests ≡ None) }
        ensures same { self.new ≡ self.old }
    {
        if let Some(known) = self.cache.above(txn, page) {
            return Some(known);
        }
        self.find_above(txn, page)
    }

    // As `held_above`, if not all is known. It stands apart, so that what is mostly run is short.
    #[inline(never)]
    fn find_above(&mut self, txn: TxnId, page: &PageId) -> Option<HeldAbove>
        requires { is_waiting txn self.old.requests ≡ false }
        ensures volume { IfSome result (λ held. mode_held txn Volume self.old.requests ≡ Some held.volume) }
        ensures store { IfSome result (λ held. mode_held txn (Store page.now.store) self.old.requests ≡ Some held.store) }
        ensures page { IfSome result (λ held. mode_held txn (Page page.now) self.old.requests ≡ Some held.page) }
        ensures none { result ≡ None → (mode_held txn Volume self.old.requests ≡ None) ⊎ (mode_held txn (Store page.now.store) self.old.requests ≡ None) ⊎ (mode_held txn (Page page.now) self.old.requests ≡ None) }
        ensures same { self.new ≡ self.old }
    {
        let volume = self.find(txn, &Granule::Volume)?;
        let store = self.find(txn, &Granule::Store(page.store))?;
        let page = self.find(txn, &Granule::Page(*page))?;
        Some(HeldAbove {
            volume,
            store,
            page,
        })
    }

    // The mode in which a transaction holds a granule, which is known from now on.
    fn find(&mut self, txn: TxnId, granule: &Granule) -> Option<Mode>
        requires { is_waiting txn self.old.requests ≡ false }
        ensures held { result ≡ mode_held txn granule.now self.old.requests }
        ensures same { self.new ≡ self.old }
    {
        if let Some(known) = self.cache.held(txn, granule) {
            return Some(known);
        }
        let mode = searches::mode_held(self.nodes.nodes(), txn, granule)?;
        self.cache.note(txn, granule, mode);
        Some(mode)
    }

    /// Whether a transaction waits. Of one that asked for a record of late it is known without a search.
    pub fn is_waiting(&self, txn: TxnId) -> bool
        ensures { result ≡ is_waiting txn self.now.requests }
    {
        if self.cache.held(txn, &Granule::Volume).is_some() {
            return false;
        }
        searches::waiting_request(self.nodes.nodes(), txn).is_some()
    }

    /// Whether somebody may wait for a transaction: nobody does if not. It takes no search, and more requests than a few are not looked at.
    pub fn may_be_awaited(&self, txn: TxnId) -> bool
        ensures { IsFalse result → (u : ℕ) → WaitsFor self.now.requests u txn → ⊥ }
    {
        searches::may_be_awaited(&self.nodes, txn)
    }

    /// The request with which a transaction waits.
    pub fn waiting_request(&self, txn: TxnId) -> Option<Request>
        ensures { result ≡ waiting_request txn self.now.requests }
    {
        searches::waiting_request(self.nodes.nodes(), txn)
    }

    /// Those that hold a granule and want nothing, in the order of its queue.
    pub fn holders(&self, granule: Granule) -> Holders<'_>
        ensures { result ≡ holders_at granule self.now.requests }
    {
        Holders::new(self.nodes.nodes(), granule)
    }

    /// Those that wait for a granule, in the order of its queue: conversions, which hold it too, and then new waiters.
    pub fn waiters(&self, granule: Granule) -> Waiters<'_>
        ensures { result ≡ waiters_at granule self.now.requests }
    {
        Waiters::new(&self.nodes, granule)
    }

    /// Whether somebody may wait for a granule: nobody does if not. It takes no search.
    pub fn may_have_waiters(&self, granule: &Granule) -> bool
        ensures { IsFalse result → waiters_at granule.now self.now.requests ≡ [] }
    {
        self.nodes.may_have_waiters(granule)
    }

    /// Whether somebody who holds a granule may wait for more of it: nobody does if not. It takes no search.
    pub fn may_have_conversions(&self, granule: Granule) -> bool
        ensures { IsFalse result → filter (is_in_group Conversions) (requests_at granule self.now.requests) ≡ [] }
    {
        self.nodes.may_have_conversions(&granule)
    }

    /// Asks for a granule in a mode, with what the transaction holds of it already. It is granted at once where the transaction
    /// holds as much, or would wait for nobody; else it waits. A transaction that waits asks for nothing.
    pub fn request(&mut self, txn: TxnId, granule: Granule, mode: Mode) -> Requested
        requires { is_waiting txn self.old.requests ≡ false }
        ensures answer { result ≡ answer_to self.old txn granule mode }
        ensures table { self.new ≡ record { limit = self.old.limit; requests = after_request self.old txn granule mode } }
    {
        if self.nodes.grant_alone(txn, &granule, mode) {
            self.cache.note(txn, &granule, mode);
            return Requested::Granted;
        }
        self.request_beside(txn, &granule, mode)
    }

    // As `request`, if others may stand in the queue, or the transaction itself.
    fn request_beside(&mut self, txn: TxnId, granule: &Granule, mode: Mode) -> Requested
        requires { is_waiting txn self.old.requests ≡ false }
        ensures answer { result ≡ answer_to self.old txn granule.now mode }
        ensures table { self.new ≡ record { limit = self.old.limit; requests = after_request self.old txn granule.now mode } }
    {
        if is_enough(mode, self.cache.held(txn, granule)) {
            return Requested::Granted;
        }
        match check_request(&self.nodes, txn, granule, mode) {
            Finding::Enough => Requested::Granted,
            Finding::Full => Requested::Full,
            Finding::Stopped { request, .. } => {
                self.cache.note_wait(&request);
                changes::place_last(&mut self.nodes, &request);
                Requested::Waiting
            }
            Finding::Free { request, known } => {
                self.cache.note_grant(&request);
                changes::grant(&mut self.nodes, &request, known);
                Requested::Granted
            }
        }
    }

    /// As `request`, but the transaction is not to wait: then the answer is one for whom it would, and nothing changes.
    pub fn try_request(&mut self, txn: TxnId, granule: Granule, mode: Mode) -> Tried
        requires { is_waiting txn self.old.requests ≡ false }
        ensures answer { result ≡ answer_to_try self.old txn granule mode }
        ensures table { self.new ≡ record { limit = self.old.limit; requests = after_try self.old txn granule mode } }
    {
        if self.nodes.grant_alone(txn, &granule, mode) {
            self.cache.note(txn, &granule, mode);
            return Tried::Granted;
        }
        self.try_beside(txn, &granule, mode)
    }

    // As `try_request`, if others may stand in the queue, or the transaction itself.
    fn try_beside(&mut self, txn: TxnId, granule: &Granule, mode: Mode) -> Tried
        requires { is_waiting txn self.old.requests ≡ false }
        ensures answer { result ≡ answer_to_try self.old txn granule.now mode }
        ensures table { self.new ≡ record { limit = self.old.limit; requests = after_try self.old txn granule.now mode } }
    {
        if is_enough(mode, self.cache.held(txn, granule)) {
            return Tried::Granted;
        }
        match check_request(&self.nodes, txn, granule, mode) {
            Finding::Enough => Tried::Granted,
            Finding::Full => Tried::Full,
            Finding::Stopped { other, .. } => Tried::Blocked(other),
            Finding::Free { request, known } => {
                self.cache.note_grant(&request);
                changes::grant(&mut self.nodes, &request, known);
                Tried::Granted
            }
        }
    }

    /// Whether a granule may have requests: it has none if not. It takes no search.
    pub fn may_have_requests(&self, granule: Granule) -> bool
        ensures { IsFalse result → requests_at granule self.now.requests ≡ [] }
    {
        self.nodes.may_have_requests(&granule)
    }

    /// Who would be in the way if a transaction that holds so much of a granule asked for a mode; nobody is if what it holds is enough.
    /// How many nodes are left is not looked at.
    pub fn in_the_way(
        &self,
        txn: TxnId,
        granule: Granule,
        held: Option<Mode>,
        mode: Mode,
    ) -> Option<TxnId>
        requires { held ≡ mode_held txn granule self.now.requests }
        ensures { result ≡ in_the_way txn granule mode self.now.requests }
    {
        findings::in_the_way(&self.nodes, txn, &granule, held, mode)
    }

    /// Who is in the way of a request, if anybody is: the first for whom it would wait if it were made now. Of one that waits in this table somebody always is.
    pub fn in_its_way(&self, request: Request) -> Option<TxnId>
        ensures way { result ≡ in_its_way request self.now.requests }
        ensures always { waiting_request request.txn self.now.requests ≡ Some request → IsSome result }
    {
        findings::in_its_way(&self.nodes, request)
    }

    /// All requests, by granule and then by transaction.
    pub fn requests(&self, alloc: Global) -> Result<Vec<Request>, AllocError>
        ensures all { IfOk result (λ all. IsPermutation self.now.requests all.items) }
        ensures order { IfOk result (λ all. IsSorted request_cmp all.items) }
    {
        let mut requests = self.nodes.all(alloc)?;
        put_in_order(&mut requests);
        Ok(requests)
    }

    /// The granules that a transaction holds in EX, each once, rising.
    pub fn exclusive(&self, alloc: Global, txn: TxnId) -> Result<Sequence<Granule>, AllocError>
        ensures held { IfOk result (λ granules. (g : Granule) → Contains granules g ↔ (mode_held txn g self.now.requests ≡ Some Mode.EX)) }
        ensures order { IfOk result (λ granules. IsStrictlySortedBy granule_cmp granules) }
        ensures few { IfOk result (λ granules. length granules ≤ self.now.limit) }
    {
        let mut granules = Vec::new(alloc);
        append_exclusive(&mut granules, self.nodes.nodes().list(txn), txn)?;
        granules.sort_unstable();
        Ok(Sequence::from_vec(granules))
    }

    /// A transaction waits no more: what it waited for is given up, and what it holds stays. Those behind it may be granted. Who waits no more is noted, itself
    /// too.
    pub fn cancel(&mut self, txn: TxnId, let_through: &mut LetThrough)
        ensures told { Tells self.old.requests self.new.requests let_through.old let_through.new }
        ensures table { self.new ≡ record { limit = self.old.limit; requests = cancelled txn self.old.requests } }
    {
        if let Some(request) = searches::waiting_request(self.nodes.nodes(), txn) {
            let_through.note(txn);
            changes::take_back(&mut self.nodes, &request, let_through);
        }
    }

    /// A transaction holds and wants nothing any more, and each queue in which it stood gets a grant pass. The answer is how many
    /// nodes it had. Who waits no more is noted.
    pub fn release_all(&mut self, txn: TxnId, let_through: &mut LetThrough) -> usize
        ensures told { Tells self.old.requests self.new.requests let_through.old let_through.new }
        ensures table { self.new ≡ record { limit = self.old.limit; requests = released txn self.old.requests } }
        ensures count { result ≡ length (requests_by txn self.old.requests) }
    {
        if searches::waiting_request(self.nodes.nodes(), txn).is_some() {
            let_through.note(txn);
        }
        self.cache.forget(txn);
        changes::release(&mut self.nodes, txn, let_through)
    }
}
