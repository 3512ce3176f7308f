//! Requests as nodes of a slab. Each has six links: two in the ring of its granule's head, which is its queue, two in that of its
//! transaction's, and two in that of both, so that each is found in constant expected time.
ghost use Rattle.std.specs.Prelude.{◌≡◌, ◌<◌, ◌≤◌, ◌+◌, ◌*◌, ◌^◌, ◌%◌, ◌==◌, ◌++◌, ◌∷◌, [], ℕ, List, None, Some, IfOk, IfSome, IsTrue, OnOk, OnErr, MatchBool, MatchOption, false, filter, find, is_some, length, map, nat_lt, not, true, slice_get};
ghost use Rattle.std.specs.List.{list_any};
ghost use Rattle.std.specs.Option.{option_map};
ghost use Rattle.shore_model.specs.Requests.{AreRequests, are_alike, placed_last, requests_at, requests_by};
ghost use Rattle.shore_model.specs.declared.requests.Request.{Request};
ghost use Rattle.shore_rings.specs.Rings.{In, IsRing, after_at};
ghost use Rattle.slab.specs.Slab.{HasRoomFor, Updates, get, slab_len};
ghost use Rattle.shore_nodes.specs.Grants.{passed, removed, replaced};
ghost use Rattle.shore_nodes.specs.LetThrough.{TellsFirst};
ghost use Rattle.shore_nodes.specs.Nodes as spec;
ghost use Rattle.shore_nodes.specs.Orderly.{IsNewest};
ghost use Rattle.shore_nodes.specs.Tables.{is_for};
ghost use Rattle.shore_nodes.specs.Tallies.{crowd};
ghost use Rattle.shore_nodes.specs.Nodes.{IsLinked, LinksIn, LinksOut, pairs_from, request_at, without};

use crate::granting::grant_waiters;
use crate::heads::{heads_for, list_head, owner_head, queue_head};
use crate::let_through::LetThrough;
use crate::tallies::tally_at;
use crate::walks::Walk;
use http_server::Log as GhostLog;
use shore_model::Request;
use shore_rings::Rings;
use shore_types::{Granule, TxnId};
use slab::Slab;
use std::alloc::{AllocError, Global};
use std::marker::Model;

/// A list of requests, in the order in which they came, and how many there may be.
#[derive(Drop)]
pub struct Nodes {
    // How many requests there may be; memory for as many is taken at the start.
    limit: usize,
    // The requests, each under the key that `insert` gave it.
    slots: Slab<Request>,
    // Rings of nodes, one for each head: head h has the requests of the granules that hash to it, in the order in which they came.
    queues: Rings,
    // As many rings by transaction: the requests of those that hash to one head, so that a release searches no queue.
    lists: Rings,
    // As many rings by transaction and granule: few requests each, so that one is found at once.
    owners: Rings,
    // How many heads each of the three has: the nodes below this number. The request of a key is the node of that number and the key together.
    heads: usize,
    // Which keys came and went. It takes no memory: only proofs read it, and it says nothing but the order of the list.
    history: GhostLog<usize, bool>,
}

impl Model for Nodes {
    ghost use Rattle.std.specs.Prelude.{length};
    ghost use Rattle.shore_nodes.specs.Tallies.{Stored};

    ghost Value = { Stored };

    ghost use Rattle.shore_nodes.specs.Nodes.{HasRoom, IsLinked, alive, requests_in};

    ghost view = { λ n. record { heads = n.heads; limit = n.limit; requests = requests_in n.slots (alive n.history.items) } };

    ghost invariant = { λ n. IsLinked n.heads n.slots n.queues n.lists n.owners (alive n.history.items)
        × HasRoom n.limit n.heads n.slots.capacity (length n.queues) (length n.lists) (length n.owners) };
}

impl Nodes {
    /// No requests, with the memory for as many as there may be.
    pub fn new(alloc: Global, limit: usize) -> Result<Nodes, AllocError>
        ensures requests { IfOk result (λ nodes. nodes.requests ≡ []) }
        ensures limit { IfOk result (λ nodes. nodes.limit ≡ limit) }
        ensures some { IfOk result (λ nodes. 65 < nodes.heads) }
        ensures few { IfOk result (λ nodes. nodes.heads ≤ 2 ^ 32) }
    {
        let heads = heads_for(limit);
        let slots = Slab::with_capacity(alloc, limit)?;
        let Some(nodes) = heads.checked_add(slots.capacity()) else {
            return Err(AllocError);
        };
        let queues = lone_rings(alloc, nodes)?;
        let lists = lone_rings(alloc, nodes)?;
        let owners = lone_rings(alloc, nodes)?;
        Ok(Nodes {
            limit,
            slots,
            queues,
            lists,
            owners,
            heads,
            history: GhostLog::new(),
        })
    }

    /// The nodes among which are all for a granule, in their order.
    pub fn queue(&self, granule: &Granule) -> Walk<'_>
        ensures { requests_at granule.now (map (λ (p : ℕ × Request). p.1) result) ≡ requests_at granule.now self.now.requests }
    {
        let head = queue_head(granule, self.heads);
        Walk::new(&self.slots, &self.queues, self.heads, head)
    }

    /// No nodes.
    pub fn nobody(&self) -> Walk<'_>
        ensures { result ≡ [] }
    {
        Walk::ended(&self.slots, &self.queues, self.heads, 0)
    }

    /// The nodes of a head, in their order.
    pub fn crowd(&self, head: usize) -> Walk<'_>
        requires { head < self.now.heads }
        ensures { map (λ (p : ℕ × Request). p.1) result ≡ crowd self.now.heads head self.now.requests }
    {
        Walk::new(&self.slots, &self.queues, self.heads, head)
    }

    /// Whether a head has no node.
    pub fn is_deserted(&self, head: usize) -> bool
        requires { head < self.now.heads }
        ensures { IsTrue result → crowd self.now.heads head self.now.requests ≡ [] }
    {
        self.queues.after(head) == head
    }

    /// The last request that stands at a head, if any does. It takes no walk.
    pub fn last(&self, head: usize) -> Option<&Request>
        requires { head < self.now.heads }
        ensures { IfSome result (λ r. (xs : List Request) × (crowd self.now.heads head self.now.requests ≡ xs ++ r.now ∷ [])) }
    {
        let node = self.queues.before(head);
        if node == head {
            return None;
        }
        self.slots.get(node.saturating_sub(self.heads))
    }

    /// How many heads there are.
    pub fn heads(&self) -> usize
        ensures { result ≡ self.now.heads }
    {
        self.heads
    }

    /// The nodes among which are all of a transaction, in their order.
    pub fn list(&self, txn: TxnId) -> Walk<'_>
        ensures { requests_by txn (map (λ (p : ℕ × Request). p.1) result) ≡ requests_by txn self.now.requests }
    {
        let head = list_head(txn, self.heads);
        Walk::new(&self.slots, &self.lists, self.heads, head)
    }

    /// The nodes among which is that of a transaction for a granule.
    pub fn owned(&self, txn: TxnId, granule: &Granule) -> Walk<'_>
        ensures { filter (is_for txn granule.now) (map (λ (p : ℕ × Request). p.1) result) ≡ filter (is_for txn granule.now) self.now.requests }
    {
        let head = owner_head(txn, granule, self.heads);
        Walk::new(&self.slots, &self.owners, self.heads, head)
    }

    /// The newest request of a transaction, unless a newer one of another is in its bucket. It takes no search.
    pub fn newest(&self, txn: TxnId) -> Option<&Request>
        ensures { IfSome result (λ r. IsNewest txn self.now.requests r.now) }
    {
        let head = list_head(txn, self.heads);
        let node = self.lists.before(head);
        if node == head {
            return None;
        }
        match self.slots.get(node.saturating_sub(self.heads)) {
            Some(request) => only_of(request, txn),
            None => None,
        }
    }

    /// A request comes last, in the queue of this head. There is a node for it, and its memory.
    pub fn push(&mut self, request: &Request, queue: usize)
        requires room { length self.old.requests < self.old.limit }
        requires queue { queue ≡ spec.queue_head self.old.heads request.now.granule }
        ensures items { self.new.requests ≡ self.old.requests ++ request.now ∷ [] }
        ensures limit { self.new.limit ≡ self.old.limit }
        ensures heads { self.new.heads ≡ self.old.heads }
    {
        let key = insert(&mut self.slots, request);
        let node = self.heads + key;
        link_node(
            &mut self.queues,
            &mut self.lists,
            &mut self.owners,
            self.heads,
            node,
            queue,
            request,
        );
        self.history = self.history.and(&key, &true);
    }

    /// Takes the request of its transaction for its granule out.
    pub fn remove(&mut self, request: &Request)
        requires { AreRequests self.old.requests }
        ensures items { self.new.requests ≡ removed request.now self.old.requests }
        ensures limit { self.new.limit ≡ self.old.limit }
        ensures heads { self.new.heads ≡ self.old.heads }
    {
        let head = owner_head(request.txn, &request.granule, self.heads);
        let walk = Walk::new(&self.slots, &self.owners, self.heads, head);
        if let Some(node) = find_node(walk, request) {
            let key = node.saturating_sub(self.heads);
            unlink_node(&mut self.queues, &mut self.lists, &mut self.owners, node);
            self.slots.try_remove(key);
            self.history = self.history.and(&key, &false);
        }
    }

    /// Moves the request of its transaction for its granule last, as this one. The answer is whether it was there.
    pub fn move_last(&mut self, request: &Request) -> bool
        requires { AreRequests self.old.requests }
        ensures items { MatchBool result
            ((list_any (λ q. are_alike q request.now) self.old.requests ≡ true) × (self.new.requests ≡ placed_last request.now self.old.requests))
            ((list_any (λ q. are_alike q request.now) self.old.requests ≡ false) × (self.new.requests ≡ self.old.requests)) }
        ensures limit { self.new.limit ≡ self.old.limit }
        ensures heads { self.new.heads ≡ self.old.heads }
    {
        let head = owner_head(request.txn, &request.granule, self.heads);
        let walk = Walk::new(&self.slots, &self.owners, self.heads, head);
        match find_node(walk, request) {
            Some(node) => {
                let key = node.saturating_sub(self.heads);
                let queue = queue_head(&request.granule, self.heads);
                unlink_node(&mut self.queues, &mut self.lists, &mut self.owners, node);
                self.slots.try_remove(key);
                let gone = self.history.and(&key, &false);
                link_node(
                    &mut self.queues,
                    &mut self.lists,
                    &mut self.owners,
                    self.heads,
                    node,
                    queue,
                    request,
                );
                insert(&mut self.slots, request);
                self.history = gone.and(&key, &true);
                true
            }
            None => false,
        }
    }

    /// Takes out the first request of a transaction.
    pub fn pop_first(&mut self, txn: TxnId) -> Option<Request>
        requires { AreRequests self.old.requests }
        ensures items { MatchOption result
            ((None ≡ slice_get (requests_by txn self.old.requests) 0) × (self.new.requests ≡ self.old.requests))
            (λ r. (Some r ≡ slice_get (requests_by txn self.old.requests) 0) × (self.new.requests ≡ removed r self.old.requests)) }
        ensures limit { self.new.limit ≡ self.old.limit }
        ensures heads { self.new.heads ≡ self.old.heads }
    {
        let head = list_head(txn, self.heads);
        let walk = Walk::new(&self.slots, &self.lists, self.heads, head);
        match first_of(walk, txn) {
            Some((node, request)) => {
                let key = node.saturating_sub(self.heads);
                unlink_node(&mut self.queues, &mut self.lists, &mut self.owners, node);
                self.slots.try_remove(key);
                self.history = self.history.and(&key, &false);
                Some(request)
            }
            None => None,
        }
    }

    /// Whether there are as many requests as there may be.
    pub fn is_full(&self) -> bool
        ensures { result ≡ not (nat_lt (length self.now.requests) self.now.limit) }
    {
        self.slots.len() >= self.limit
    }

    /// How many more there may be.
    pub fn left(&self) -> usize
        requires { length self.now.requests ≤ self.now.limit }
        ensures { result + length self.now.requests ≡ self.now.limit }
    {
        self.limit - self.slots.len()
    }

    /// How many requests there are.
    pub fn len(&self) -> usize
        ensures is { result ≡ length self.now.requests }
        ensures fits { length self.now.requests < 2 ^ 64 }
    {
        self.slots.len()
    }

    /// Puts a request in the place of the one of its transaction for its granule.
    pub fn replace(&mut self, request: &Request)
        requires { AreRequests self.old.requests }
        ensures items { self.new.requests ≡ replaced request.now self.old.requests }
        ensures limit { self.new.limit ≡ self.old.limit }
        ensures heads { self.new.heads ≡ self.old.heads }
    {
        let head = owner_head(request.txn, &request.granule, self.heads);
        let walk = Walk::new(&self.slots, &self.owners, self.heads, head);
        if let Some(node) = find_node(walk, request) {
            let key = node.saturating_sub(self.heads);
            set_slot(&mut self.slots, key, request);
        }
    }

    /// Grants the waiters of a granule in their order, conversions first, up to the first whom another holder refuses: one walk over the
    /// queue counts what is held, and one for each group grants, however many they are. They are noted in their order.
    pub fn grant_waiters(&mut self, granule: &Granule, let_through: &mut LetThrough)
        requires { AreRequests self.old.requests }
        ensures items { self.new.requests ≡ passed granule.now self.old.requests }
        ensures told { TellsFirst granule.now self.old.requests self.new.requests let_through.old let_through.new }
        ensures limit { self.new.limit ≡ self.old.limit }
        ensures heads { self.new.heads ≡ self.old.heads }
    {
        // For the proof: what a list of requests keeps true of itself.
        self.len();
        let head = queue_head(granule, self.heads);
        let tally = tally_at(self.queue(granule), granule);
        grant_waiters(
            &mut self.slots,
            &self.queues,
            self.heads,
            head,
            granule,
            tally,
            let_through,
        );
    }
}

fn only_of(request: &Request, txn: TxnId) -> Option<&Request>
    ensures { IfSome result (λ r. (r.now ≡ request.now) × (r.now.txn ≡ txn)) }
{
    if request.txn == txn {
        Some(request)
    } else {
        None
    }
}

// A node goes last in its three rings, of which that of its queue is known.
fn link_node(
    queues: &mut Rings,
    lists: &mut Rings,
    owners: &mut Rings,
    heads: usize,
    node: usize,
    queue: usize,
    request: &Request,
)
    requires queue { queue ≡ spec.queue_head heads request.now.granule }
    requires small { queue < heads }
    requires some { 65 < heads }
    requires few { heads ≤ 2 ^ 32 }
    requires queue_heads { heads ≤ length queues.old }
    requires list_heads { heads ≤ length lists.old }
    requires owner_heads { heads ≤ length owners.old }
    requires queue_node { node < length queues.old }
    requires list_node { node < length lists.old }
    requires owner_node { node < length owners.old }
    ensures queues { LinksIn queues.old queues.new (spec.queue_head heads request.now.granule) node }
    ensures lists { LinksIn lists.old lists.new (spec.list_head heads request.now.txn) node }
    ensures owners { LinksIn owners.old owners.new (spec.owner_head heads request.now.txn request.now.granule) node }
    ensures queue_nodes { length queues.new ≡ length queues.old }
    ensures list_nodes { length lists.new ≡ length lists.old }
    ensures owner_nodes { length owners.new ≡ length owners.old }
{
    queues.link(queue, node);
    let list = list_head(request.txn, heads);
    lists.link(list, node);
    let owner = owner_head(request.txn, &request.granule, heads);
    owners.link(owner, node);
}

// A node leaves its three rings.
fn unlink_node(queues: &mut Rings, lists: &mut Rings, owners: &mut Rings, node: usize)
    requires queue_node { node < length queues.old }
    requires list_node { node < length lists.old }
    requires owner_node { node < length owners.old }
    ensures queues { LinksOut queues.old queues.new node }
    ensures lists { LinksOut lists.old lists.new node }
    ensures owners { LinksOut owners.old owners.new node }
    ensures queue_nodes { length queues.new ≡ length queues.old }
    ensures list_nodes { length lists.new ≡ length lists.old }
    ensures owner_nodes { length owners.new ≡ length owners.old }
{
    queues.unlink(node);
    lists.unlink(node);
    owners.unlink(node);
}

fn insert(slots: &mut Slab<Request>, request: &Request) -> usize
    requires { HasRoomFor slots.old 1 }
    ensures key { result ≡ slots.old.vacant_key }
    ensures vacant { get slots.old result ≡ None }
    ensures within { result < slots.old.capacity }
    ensures updates { Updates slots.old slots.new result (Some request.now) }
    ensures len { slab_len slots.new ≡ slab_len slots.old + 1 }
    ensures capacity { slots.new.capacity ≡ slots.old.capacity }
{
    slots.insert_reserved(Request {
        txn: request.txn,
        granule: request.granule,
        held: request.held,
        wanted: request.wanted,
    })
}

/// Puts a request in the place of the one at a key.
pub fn set_slot(slots: &mut Slab<Request>, key: usize, request: &Request)
    requires { is_some (get slots.old key) ≡ true }
    ensures updates { Updates slots.old slots.new key (Some request.now) }
    ensures len { slab_len slots.new ≡ slab_len slots.old }
    ensures capacity { slots.new.capacity ≡ slots.old.capacity }
{
    if let Some(slot) = slots.get_mut(key) {
        *slot = *request;
    }
}

fn lone_rings(alloc: Global, count: usize) -> Result<Rings, AllocError>
    ensures nodes { IfOk result (λ rings. length rings ≡ count) }
    ensures alone { IfOk result (λ rings. (head : ℕ) → head < count → IsRing rings head []) }
{
    let mut rings = Rings::new(alloc);
    while rings.nodes() < count {
        rings.add()?;
    }
    Ok(rings)
}

// The node of the request of its transaction for its granule.
fn find_node(mut walk: Walk<'_>, request: &Request) -> Option<usize>
    ensures { result ≡ option_map (λ (p : ℕ × Request). p.0) (find (λ (p : ℕ × Request). are_alike p.1 request.now) walk.entry) }
{
    while let Some((node, other)) = walk.advance() {
        if other.txn == request.txn && other.granule == request.granule {
            return Some(node);
        }
    }
    None
}

// The first node of a transaction.
fn first_of(mut walk: Walk<'_>, txn: TxnId) -> Option<(usize, Request)>
    ensures { result ≡ find (λ (p : ℕ × Request). p.1.txn == txn) walk.entry }
{
    while let Some((node, request)) = walk.advance() {
        if request.txn == txn {
            return Some((node, *request));
        }
    }
    None
}
