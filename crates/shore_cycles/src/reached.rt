//! The transactions that a search has reached, each with the one that led to it.
ghost use Rattle.std.specs.Prelude.{◌≡◌, ◌<◌, ◌++◌, ◌∷◌, [], ℕ, List, map, length, cond, IfOk, OnOk};
ghost use Rattle.shore_cycles.specs.Reached as spec;
ghost use Rattle.shore_cycles.specs.Reached.{Chain, LeadsBack, extended, started};

use crate::marks::Marks;
use crate::victims::Victim;
use shore_types::TxnId;
use std::alloc::{AllocError, Global};
use std::marker::Model;

/// A transaction that a search has reached, and the index of the one that waits for it. The first was
/// reached from nowhere.
#[derive(Clone, Copy)]
pub(crate) struct Step {
    // The transaction that was reached.
    txn: TxnId,
    // The index of the step that reached it.
    parent: usize,
}

/// What a search has reached, in its order. Those that it need not reach are marked: they are reached, or victims.
#[derive(Drop)]
pub(crate) struct Trail {
    // The transactions that were reached, in the order of the search (a queue that is never shortened).
    steps: Vec<Step>,
    // Those that the search need not reach: the transactions of `steps`, and the victims.
    marks: Marks,
}

impl Model for Trail {
    ghost use Rattle.shore_cycles.specs.Reached.{Seen};

    ghost Value = { Seen };

    ghost view = { λ t. record { steps = t.steps.items; marks = t.marks } };
}

impl Trail {
    /// The beginning of a search from a transaction.
    pub(crate) fn new(alloc: Global, txn: TxnId) -> Result<Trail, AllocError>
        ensures { IfOk result (λ trail. trail ≡ started [] txn) }
    {
        let mut steps = Vec::new(alloc);
        steps.push(Step { txn, parent: 0 })?;
        let mut marks = Marks::new(alloc)?;
        marks.add(txn)?;
        Ok(Trail { steps, marks })
    }

    /// Begins anew from a transaction, to pass over these victims.
    pub(crate) fn restart(&mut self, txn: TxnId, victims: &[Victim]) -> Result<(), AllocError>
        ensures { OnOk result (self.new ≡ started victims.now txn) }
    {
        self.steps.clear();
        self.steps.push(Step { txn, parent: 0 })?;
        self.marks.clear();
        self.marks.add(txn)?;
        for victim in victims {
            self.marks.add(victim.txn)?;
        }
        Ok(())
    }

    /// How many are reached.
    pub(crate) fn len(&self) -> usize
        ensures { result ≡ length self.now.steps }
    {
        self.steps.len()
    }

    /// The transaction at an index.
    pub(crate) fn txn_at(&self, index: usize) -> TxnId
        requires { index < length self.now.steps }
        ensures { result ≡ spec.txn_at self.now.steps index }
    {
        self.steps[index].txn
    }

    /// The index of the one that led to the transaction at an index.
    pub(crate) fn parent_at(&self, index: usize) -> usize
        requires { index < length self.now.steps }
        ensures { result ≡ (spec.step_at self.now.steps index).parent }
    {
        self.steps[index].parent
    }

    /// Reaches those that are not marked, from the one at an index.
    pub(crate) fn extend(&mut self, found: &[TxnId], parent: usize) -> Result<(), AllocError>
        ensures { OnOk result (self.new ≡ extended parent found.now self.old) }
    {
        for txn in found {
            self.reach(*txn, parent)?;
        }
        Ok(())
    }

    fn reach(&mut self, txn: TxnId, parent: usize) -> Result<(), AllocError>
        ensures { OnOk result (self.new ≡ spec.reached_from parent txn self.old) }
    {
        if !self.marks.has(txn) {
            self.steps.push(Step { txn, parent })?;
            self.marks.add(txn)?;
        }
        Ok(())
    }

    /// The transactions on the way from the first that was reached to the one at an index.
    pub(crate) fn path_to(&self, alloc: Global, index: usize) -> Result<Vec<TxnId>, AllocError>
        requires there { index < length self.now.steps }
        requires leads { LeadsBack self.now.steps }
        ensures { IfOk result (λ path. (indices : List ℕ) × Chain self.now.steps 0 indices index × (path.items ≡ map (spec.txn_at self.now.steps) (0 ∷ indices))) }
    {
        path_along(alloc, &self.steps, index)
    }
}

fn path_along(alloc: Global, steps: &[Step], index: usize) -> Result<Vec<TxnId>, AllocError>
    requires there { index < length steps.now }
    requires leads { LeadsBack steps.now }
    ensures { IfOk result (λ path. (indices : List ℕ) × Chain steps.now 0 indices index × (path.items ≡ map (spec.txn_at steps.now) (0 ∷ indices))) }
{
    let mut path = Vec::new(alloc);
    let mut at = index;
    while at > 0 {
        path.push(steps[at].txn)?;
        at = steps[at].parent;
    }
    path.push(steps[0].txn)?;
    path.reverse();
    Ok(path)
}
