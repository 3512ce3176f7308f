//! Rings: doubly linked lists that end where they begin. One vector has the links of many. Each node is in exactly one ring, possibly
//! alone. A ring is known by any of its nodes. A ring with a fixed head is a list.
ghost use Rattle.std.specs.Prelude.{◌≡◌, ◌<◌, ◌+◌, ◌++◌, ◌∷◌, [], ℕ, List, length, IfOk, OnOk, OnErr};
ghost use Rattle.shore_rings.specs.Rings as spec;
ghost use Rattle.shore_rings.specs.Rings.{Apart, In, IsRing, after_at, before_at};

use std::alloc::{AllocError, Global};
use std::marker::Model;

/// The nodes before and behind a node.
#[derive(Clone, Copy)]
pub struct Link {
    // The node before it in its ring.
    before: usize,
    // The node after it.
    after: usize,
}

/// Rings of nodes.
#[derive(Drop)]
pub struct Rings {
    // The neighbours of each node. Each one's after has it as its before, so that all nodes are in rings.
    links: Vec<Link>,
}

impl Model for Rings {
    ghost use Rattle.std.specs.Prelude.{List};
    ghost use Rattle.shore_rings.specs.declared.ring.Link.{Link};

    ghost Value = { List Link };

    ghost use Rattle.shore_rings.specs.Rings.{IsClosed};

    ghost view = { λ r. r.links.items };

    ghost invariant = { λ r. IsClosed r.links.items };
}

impl Rings {
    /// No nodes.
    pub fn new(alloc: Global) -> Rings
        ensures { result ≡ [] }
    {
        Rings {
            links: Vec::new(alloc),
        }
    }

    /// How many nodes there are.
    pub fn nodes(&self) -> usize
        ensures { result ≡ length self.now }
    {
        self.links.len()
    }

    /// One node more, in a ring of its own.
    pub fn add(&mut self) -> Result<(), AllocError>
        ensures ok { OnOk result (self.new ≡ self.old ++ record { before = length self.old; after = length self.old } ∷ []) }
        ensures err { OnErr result (self.new ≡ self.old) }
        ensures alone { OnOk result (IsRing self.new (length self.old) []) }
        ensures others { (head : ℕ) (xs : List ℕ) → IsRing self.old head xs → IsRing self.new head xs }
    {
        let node = self.links.len();
        self.links.push(Link {
            before: node,
            after: node,
        })?;
        Ok(())
    }

    /// The node behind a node.
    pub fn after(&self, node: usize) -> usize
        requires { node < length self.now }
        ensures next { result ≡ after_at self.now node }
        ensures within { result < length self.now }
    {
        self.links[node].after
    }

    /// The node before a node.
    pub fn before(&self, node: usize) -> usize
        requires { node < length self.now }
        ensures previous { result ≡ before_at self.now node }
        ensures within { result < length self.now }
    {
        self.links[node].before
    }

    /// Puts a node that is alone in its ring last in the ring of a head.
    pub fn link(&mut self, head: usize, node: usize)
        requires head { head < length self.old }
        requires node { node < length self.old }
        ensures links { self.new ≡ spec.linked head node self.old }
        ensures nodes { length self.new ≡ length self.old }
        ensures ring { (xs : List ℕ) → IsRing self.old head xs → (In node (head ∷ xs) → ⊥) → IsRing self.new head (xs ++ node ∷ []) }
        ensures others { (xs ys : List ℕ) (other : ℕ) → IsRing self.old head xs → IsRing self.old other ys → (In node (other ∷ ys) → ⊥) → Apart (head ∷ xs) (other ∷ ys) → IsRing self.new other ys }
    {
        let last = self.before(head);
        self.join(last, node);
        self.join(node, head);
    }

    /// Takes a node out of its ring. It is alone in one of its own then.
    pub fn unlink(&mut self, node: usize)
        requires { node < length self.old }
        ensures links { self.new ≡ spec.unlinked node self.old }
        ensures nodes { length self.new ≡ length self.old }
        ensures ring { (head : ℕ) (xs ys : List ℕ) → IsRing self.old head (xs ++ node ∷ ys) → IsRing self.new head (xs ++ ys) }
        ensures alone { IsRing self.new node [] }
        ensures others { (head : ℕ) (xs ys : List ℕ) (other : ℕ) (zs : List ℕ) → IsRing self.old head (xs ++ node ∷ ys) → IsRing self.old other zs → Apart (head ∷ (xs ++ node ∷ ys)) (other ∷ zs) → IsRing self.new other zs }
    {
        let previous = self.before(node);
        let next = self.after(node);
        self.join(previous, next);
        self.join(node, node);
    }

    fn join(&mut self, a: usize, b: usize)
        requires first { a < length self.old }
        requires second { b < length self.old }
        ensures links { self.new ≡ spec.joined a b self.old }
        ensures nodes { length self.new ≡ length self.old }
    {
        self.links[a].after = b;
        self.links[b].before = a;
    }
}
