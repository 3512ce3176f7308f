//! Nodes, and for each head how many hold in each mode and how many wait: most often nobody is in the way, and that is seen at once.
ghost use Rattle.std.specs.Prelude.{◌≡◌, ◌<◌, ◌≤◌, ◌+◌, ◌++◌, ◌∷◌, [], IfOk, IfSome, IsTrue, IsFalse, MatchBool, MatchOption, None, Some, false, filter, length, nat_lt, not, slice_get, true};
ghost use Rattle.std.specs.List.{list_any};
ghost use Rattle.std.specs.List.Sorted.{IsPermutation};
ghost use Rattle.shore_model.specs.declared.requests.Group.TheVariants.{Conversions};
ghost use Rattle.shore_model.specs.Requests.{AreRequests, are_alike, is_in_group, placed_last, requests_at, requests_by};
ghost use Rattle.shore_locks.specs.Grants.{first_hold, obstacle, passed, removed, replaced};
ghost use Rattle.shore_locks.specs.Popping.{Pops};
ghost use Rattle.shore_locks.specs.Unawaited.{ComesLast, IsUnawaited};
ghost use Rattle.shore_nodes.specs.LetThrough.{TellsFirst};
ghost use Rattle.shore_nodes.specs.Tables.{waiters_at};
ghost use Rattle.shore_nodes.specs.Tallies.{Counts, crowd};

use crate::listings::append_walk;
use crate::searches::request_for;
use shore_model::Request;
use shore_nodes::heads::queue_head;
use shore_nodes::judgements::is_for;
use shore_nodes::let_through::LetThrough;
use shore_nodes::nodes::Nodes;
use shore_nodes::tallies::{Tally, tally_of};
use shore_types::{Granule, Mode, TxnId};
use std::alloc::{AllocError, Global};
use std::marker::Model;

/// What came of taking out a transaction's first request.
#[derive(Drop)]
pub enum Popped {
    /// It has none.
    Nothing,
    /// Nobody waits for its granule.
    Quiet,
    /// Somebody may wait for this granule, which was its.
    Awaited(Granule),
}

/// A list of requests, and how many there may be.
#[derive(Drop)]
pub struct Counted {
    // The requests, in their queues and lists.
    nodes: Nodes,
    // For each head the tally of the requests in its queue, kept by each call that changes one: so no queue is walked to judge a request.
    tallies: Vec<Tally>,
}

impl Model for Counted {
    ghost use Rattle.shore_nodes.specs.Tables.{Table};

    ghost Value = { Table };

    ghost use Rattle.shore_nodes.specs.Tallies.{AreCounted};

    ghost view = { λ c. record { limit = c.nodes.limit; requests = c.nodes.requests } };

    ghost invariant = { λ c. AreCounted c.tallies.items c.nodes };
}

impl Counted {
    /// No requests, with the memory for as many as there may be.
    pub fn new(alloc: Global, limit: usize) -> Result<Counted, AllocError>
        ensures { IfOk result (λ table. table ≡ record { limit = limit; requests = [] }) }
    {
        let nodes = Nodes::new(alloc, limit)?;
        let tallies = vec![in alloc; Tally::none(); nodes.heads()]?;
        Ok(Counted { nodes, tallies })
    }

    /// The nodes.
    pub fn nodes(&self) -> &Nodes
        ensures requests { result.now.requests ≡ self.now.requests }
        ensures limit { result.now.limit ≡ self.now.limit }
    {
        &self.nodes
    }

    /// All requests, head by head.
    pub fn all(&self, alloc: Global) -> Result<Vec<Request>, AllocError>
        ensures { IfOk result (λ all. IsPermutation self.now.requests all.items) }
    {
        let mut requests = Vec::with_capacity(alloc, self.nodes.len())?;
        for head in 0..self.nodes.heads() {
            append_walk(&mut requests, self.nodes.crowd(head))?;
        }
        Ok(requests)
    }

    /// Whether a granule may have requests: it has none if not.
    pub fn may_have_requests(&self, granule: &Granule) -> bool
        ensures { IsFalse result → requests_at granule.now self.now.requests ≡ [] }
    {
        let head = queue_head(granule, self.nodes.heads());
        !self.nodes.is_deserted(head)
    }

    /// Whether somebody may wait for a granule: nobody does if not.
    pub fn may_have_waiters(&self, granule: &Granule) -> bool
        ensures { IsFalse result → waiters_at granule.now self.now.requests ≡ [] }
    {
        let head = queue_head(granule, self.nodes.heads());
        self.tallies[head].has_waiters()
    }

    /// Whether somebody who holds a granule may wait for a stronger mode: nobody does if not.
    pub fn may_have_conversions(&self, granule: &Granule) -> bool
        ensures { IsFalse result → filter (is_in_group Conversions) (requests_at granule.now self.now.requests) ≡ [] }
    {
        let head = queue_head(granule, self.nodes.heads());
        self.tallies[head].has_conversions()
    }

    /// Whether somebody may wait for a transaction by this request of its: nobody does if not. No queue is walked.
    pub fn may_be_awaited(&self, request: &Request) -> bool
        ensures { IsFalse result → IsUnawaited self.now.requests request.now }
    {
        self.may_have_waiters(&request.granule) && !self.is_new_and_last(request)
    }

    // Whether it is seen at once that a request holds nothing, and comes last in its queue.
    fn is_new_and_last(&self, request: &Request) -> bool
        ensures { IsTrue result → (request.now.held ≡ None) × ComesLast self.now.requests request.now }
    {
        request.held.is_none() && self.ends_with(request)
    }

    // Whether it is seen at once that the last in a request's queue is its transaction's.
    fn ends_with(&self, request: &Request) -> bool
        ensures { IsTrue result → ComesLast self.now.requests request.now }
    {
        let head = queue_head(&request.granule, self.nodes.heads());
        match self.nodes.last(head) {
            Some(last) => is_for(last, request.txn, &request.granule),
            None => false,
        }
    }

    /// Whether it is seen at once that nobody is in the way of a request.
    pub fn lets_in(&self, request: &Request) -> bool
        ensures { IsTrue result → obstacle request.now self.now.requests ≡ None }
    {
        let head = queue_head(&request.granule, self.nodes.heads());
        match request.wanted {
            Some(wanted) => self.tallies[head].lets_in(wanted),
            None => false,
        }
    }

    /// A request comes last. There is a node for it, and its memory.
    pub fn push(&mut self, request: &Request)
        requires { length self.old.requests < self.old.limit }
        ensures items { self.new.requests ≡ self.old.requests ++ request.now ∷ [] }
        ensures limit { self.new.limit ≡ self.old.limit }
    {
        let head = queue_head(&request.granule, self.nodes.heads());
        self.nodes.push(request, head);
        // For the proof: what a list of requests keeps true of itself.
        self.nodes.len();
        self.tallies[head].add(request);
    }

    /// Grants a mode at once if the granule's head has no node and there is one left: then the transaction has nothing of the granule,
    /// and nobody is in its way. The answer is whether it is so; if not, nothing has changed.
    pub fn grant_alone(&mut self, txn: TxnId, granule: &Granule, mode: Mode) -> bool
        ensures alone { IsTrue result → requests_at granule.now self.old.requests ≡ [] }
        ensures room { IsTrue result → length self.old.requests < self.old.limit }
        ensures granted { IsTrue result → self.new ≡ record { limit = self.old.limit; requests = self.old.requests ++ first_hold txn granule.now mode ∷ [] } }
        ensures same { IsFalse result → self.new ≡ self.old }
    {
        let head = queue_head(granule, self.nodes.heads());
        if self.nodes.is_full() || !self.nodes.is_deserted(head) {
            return false;
        }
        let request = Request {
            txn,
            granule: *granule,
            held: Some(mode),
            wanted: None,
        };
        self.nodes.push(&request, head);
        // For the proof: what a list of requests keeps true of itself.
        self.nodes.len();
        self.tallies[head].add(&request);
        true
    }

    /// Puts a request in the place of the one of its transaction for its granule.
    pub fn replace(&mut self, request: &Request)
        requires { AreRequests self.old.requests }
        ensures items { self.new.requests ≡ replaced request.now self.old.requests }
        ensures limit { self.new.limit ≡ self.old.limit }
    {
        if let Some(old) = request_for(&self.nodes, request.txn, &request.granule) {
            let head = queue_head(&request.granule, self.nodes.heads());
            // For the proof: what a list of requests keeps true of itself.
            self.nodes.len();
            self.nodes.replace(request);
            let tally = &mut self.tallies[head];
            tally.take_out(&old);
            tally.add(request);
        }
    }

    /// Takes out the first request of a transaction.
    pub fn pop_first(&mut self, txn: TxnId) -> Popped
        requires { AreRequests self.old.requests }
        ensures items { Pops txn self.old.requests result self.new.requests }
        ensures limit { self.new.limit ≡ self.old.limit }
    {
        let heads = self.nodes.heads();
        match self.nodes.pop_first(txn) {
            Some(request) => {
                let head = queue_head(&request.granule, heads);
                self.tallies[head].take_out(&request);
                if self.tallies[head].has_waiters() {
                    Popped::Awaited(request.granule)
                } else {
                    Popped::Quiet
                }
            }
            None => Popped::Nothing,
        }
    }

    /// Takes the request of its transaction for its granule out.
    pub fn remove(&mut self, request: &Request)
        requires { AreRequests self.old.requests }
        ensures items { self.new.requests ≡ removed request.now self.old.requests }
        ensures limit { self.new.limit ≡ self.old.limit }
    {
        if let Some(old) = request_for(&self.nodes, request.txn, &request.granule) {
            let head = queue_head(&request.granule, self.nodes.heads());
            self.nodes.remove(request);
            self.tallies[head].take_out(&old);
        }
    }

    /// Moves the request of its transaction for its granule last, as this one. The answer is whether it was there.
    pub fn move_last(&mut self, request: &Request) -> bool
        requires { AreRequests self.old.requests }
        ensures items { MatchBool result
            ((list_any (λ q. are_alike q request.now) self.old.requests ≡ true) × (self.new.requests ≡ placed_last request.now self.old.requests))
            ((list_any (λ q. are_alike q request.now) self.old.requests ≡ false) × (self.new.requests ≡ self.old.requests)) }
        ensures limit { self.new.limit ≡ self.old.limit }
    {
        let Some(old) = request_for(&self.nodes, request.txn, &request.granule) else {
            return false;
        };
        let head = queue_head(&request.granule, self.nodes.heads());
        // For the proof: what a list of requests keeps true of itself.
        self.nodes.len();
        let was_there = self.nodes.move_last(request);
        let tally = &mut self.tallies[head];
        tally.take_out(&old);
        tally.add(request);
        was_there
    }

    /// Grants the waiters of a granule in their order, conversions first, up to the first whom another holder refuses. They are noted in their order.
    pub fn grant_waiters(&mut self, granule: &Granule, let_through: &mut LetThrough)
        requires { AreRequests self.old.requests }
        ensures items { self.new.requests ≡ passed granule.now self.old.requests }
        ensures told { TellsFirst granule.now self.old.requests self.new.requests let_through.old let_through.new }
        ensures limit { self.new.limit ≡ self.old.limit }
    {
        let head = queue_head(granule, self.nodes.heads());
        self.nodes.grant_waiters(granule, let_through);
        self.tallies[head] = recount(&self.nodes, head);
    }

    /// Whether there are as many requests as there may be.
    pub fn is_full(&self) -> bool
        ensures { result ≡ not (nat_lt (length self.now.requests) self.now.limit) }
    {
        self.nodes.is_full()
    }

    /// How many more there may be.
    pub fn left(&self) -> usize
        requires { length self.now.requests ≤ self.now.limit }
        ensures { result + length self.now.requests ≡ self.now.limit }
    {
        self.nodes.left()
    }

    /// How many requests there are.
    pub fn len(&self) -> usize
        ensures { result ≡ length self.now.requests }
    {
        self.nodes.len()
    }
}

fn recount(nodes: &Nodes, head: usize) -> Tally
    requires { head < nodes.now.heads }
    ensures { Counts result (crowd nodes.now.heads head nodes.now.requests) }
{
    // For the proof: what a list of requests keeps true of itself.
    nodes.len();
    tally_of(nodes.crowd(head))
}
