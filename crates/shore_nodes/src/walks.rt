//! A walk along a ring of nodes.
ghost use Rattle.std.specs.Prelude.{◌≡◌, ◌∷◌, ◌<◌, [], length, MatchOption};
ghost use Rattle.slab.specs.Slab.{slab_len};
ghost use Rattle.shore_rings.specs.Rings.{after_at};
ghost use Rattle.shore_nodes.specs.Nodes.{pairs_from};

use shore_model::Request;
use shore_rings::Rings;
use slab::Slab;
use std::marker::Model;

/// The nodes of a ring that are left, each with its number.
#[derive(Drop)]
pub struct Walk<'a> {
    // The requests by their keys.
    slots: &'a Slab<Request>,
    // The rings that are walked along.
    rings: &'a Rings,
    // How many heads these have; the node of a key comes after them.
    heads: usize,
    // The head at which the walk ends.
    head: usize,
    // The node that comes next.
    node: usize,
    // No more than so many are left: no ring has more nodes than there are.
    left: usize,
}

impl<'a> Model for Walk<'a> {
    ghost use Rattle.std.specs.Prelude.{ℕ, List, length, ◌<◌};
    ghost use Rattle.shore_model.specs.declared.requests.Request.{Request};
    ghost use Rattle.shore_nodes.specs.Nodes.{pairs_from};

    ghost Value = { List (ℕ × Request) };

    ghost view = { λ w. pairs_from w.left w.slots.now w.rings.now w.heads w.head w.node };

    ghost invariant = { λ w. w.node < length w.rings.now };
}

impl<'a> Walk<'a> {
    /// The nodes behind a head.
    pub fn new(slots: &'a Slab<Request>, rings: &'a Rings, heads: usize, head: usize) -> Walk<'a>
        requires { head < length rings.now }
        ensures { result ≡ pairs_from (slab_len slots.now) slots.now rings.now heads head (after_at rings.now head) }
    {
        Walk {
            slots,
            rings,
            heads,
            head,
            node: rings.after(head),
            left: slots.len(),
        }
    }

    /// A walk that is at its end.
    pub fn ended(slots: &'a Slab<Request>, rings: &'a Rings, heads: usize, head: usize) -> Walk<'a>
        requires { head < length rings.now }
        ensures { result ≡ [] }
    {
        Walk {
            slots,
            rings,
            heads,
            head,
            node: head,
            left: 0,
        }
    }

    /// The next node.
    pub fn advance(&mut self) -> Option<(usize, &'a Request)>
        ensures { MatchOption result ((self.old ≡ []) × (self.new ≡ [])) (λ node. self.old ≡ (node.0, node.1.now) ∷ self.new) }
    {
        if self.left == 0 || self.node == self.head {
            return None;
        }
        let key = self.node.saturating_sub(self.heads);
        let slots = self.slots;
        let request = slots.get(key)?;
        let node = self.node;
        self.node = self.rings.after(node);
        self.left -= 1;
        Some((node, request))
    }
}
