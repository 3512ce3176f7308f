//! The search for a cycle of waits.
ghost use Rattle.std.specs.Prelude.{◌≡◌, ◌<◌, ◌++◌, ◌∷◌, [], ℕ, List, Contains, length, IfOk, IfErr, IfSome, IfNone, IsTrue, OnOk};
ghost use Rattle.shore_types.specs.declared.faults.Fault.TheVariants.{Memory};
ghost use Rattle.shore_model.specs.declared.requests.Request.{Request};
ghost use Rattle.shore_cycles.specs.Blockers.{AreNoVictims};
ghost use Rattle.shore_cycles.specs.Cycles.{IsSimpleCycleFrom, IsOnNoCycle, IsOnNoCycleWithout};
ghost use Rattle.shore_cycles.specs.Reached.{LeadsBack, step_at, txn_at};
ghost use Rattle.shore_cycles.specs.Searching.{IsUnderWay, ShareQueue};

use crate::blockers::{list_blockers, share_queue};
use crate::reached::Trail;
use crate::victims::Victim;
use shore_locks::LockTable;
use shore_locks::laws::tables_are_orderly;
use shore_types::{Fault, Sequence, TxnId};
use std::alloc::{AllocError, Global};

/// A cycle of waits that passes a transaction, from it on: each waits for the next, and the last for the first. None:
/// no cycle passes it. The error is Memory alone.
pub fn find_cycle(
    alloc: Global,
    table: &LockTable,
    txn: TxnId,
) -> Result<Option<Sequence<TxnId>>, Fault>
    ensures found { IfOk result (λ found. IfSome found (λ cycle. IsSimpleCycleFrom table.now.requests txn cycle)) }
    ensures none { IfOk result (λ found. IfNone found (IsOnNoCycle table.now.requests txn)) }
    ensures memory { IfErr result (λ fault. fault ≡ Memory) }
{
    let mut search = Search::new(alloc, txn)?;
    match search.next_cycle(alloc, table)? {
        Some(cycle) => Ok(Some(Sequence::from_vec(cycle))),
        None => Ok(None),
    }
}

/// A search for the cycles that pass a transaction and no victim. It goes breadth first (Moore 1959): from the transaction to
/// those that it waits for, and on from each of them.
#[derive(Drop)]
pub(crate) struct Search {
    // The transaction that each cycle has to pass.
    txn: TxnId,
    // The victims so far, whose waits no longer count.
    victims: Vec<Victim>,
    // What this search has reached; it begins anew after each victim.
    trail: Trail,
    // The first of the trail from which the search has not gone on yet.
    index: usize,
}

impl Search {
    /// A search that has found nothing yet.
    pub(crate) fn new(alloc: Global, txn: TxnId) -> Result<Search, AllocError>
        ensures { IfOk result (λ search. (search.txn ≡ txn) × (search.victims.items ≡ [])
            × ((rs : List Request) → IsUnderWay rs search.victims.items txn search.trail search.index)) }
    {
        Ok(Search {
            txn,
            victims: Vec::new(alloc),
            trail: Trail::new(alloc, txn)?,
            index: 0,
        })
    }

    /// A cycle that passes the transaction and no victim, from the transaction on.
    pub(crate) fn next_cycle(
        &mut self,
        alloc: Global,
        table: &LockTable,
    ) -> Result<Option<Vec<TxnId>>, AllocError>
        requires { IsUnderWay table.now.requests self.old.victims.items self.old.txn self.old.trail self.old.index }
        ensures same { OnOk result ((self.new.txn ≡ self.old.txn) × (self.new.victims ≡ self.old.victims)) }
        ensures under_way { OnOk result (IsUnderWay table.now.requests self.old.victims.items self.old.txn self.new.trail self.new.index) }
        ensures found { IfOk result (λ found. IfSome found (λ cycle. IsSimpleCycleFrom table.now.requests self.old.txn cycle.items
            × AreNoVictims self.old.victims.items cycle.items × (self.new.index < length self.new.trail.steps))) }
        ensures none { IfOk result (λ found. IfNone found (IsOnNoCycleWithout self.old.victims.items table.now.requests self.old.txn)) }
    {
        // For the proof: the requests of any table are orderly. Nothing runs.
        tables_are_orderly(table);
        let mut blockers = Vec::new(alloc);
        while self.index < self.trail.len() {
            if self.is_shared(table) {
                self.index += 1;
                continue;
            }
            let from = self.trail.txn_at(self.index);
            if list_blockers(&mut blockers, table, from, self.txn)? {
                let cycle = self.trail.path_to(alloc, self.index)?;
                return Ok(Some(cycle));
            }
            self.trail.extend(&blockers, self.index)?;
            self.index += 1;
        }
        Ok(None)
    }

    // Whether the next of the trail waits in the queue of the one that led to it, for nobody for whom that one does not wait too. So
    // a queue is walked once, and not once for each of its waiters.
    fn is_shared(&self, table: &LockTable) -> bool
        requires within { self.now.index < length self.now.trail.steps }
        requires leads { LeadsBack self.now.trail.steps }
        ensures { IsTrue result → (0 < self.now.index)
            × ShareQueue table.now.requests (txn_at self.now.trail.steps self.now.index) (txn_at self.now.trail.steps (step_at self.now.trail.steps self.now.index).parent) }
    {
        if self.index == 0 {
            return false;
        }
        let parent = self.trail.parent_at(self.index);
        let from = self.trail.txn_at(self.index);
        share_queue(table, from, self.trail.txn_at(parent))
    }

    /// Passes over one victim more. If it is the one from whom a way back was seen last, it led to nobody yet, and the search goes on behind it;
    /// else it begins anew.
    pub(crate) fn pass_over(&mut self, victim: Victim) -> Result<(), AllocError>
        requires some { self.old.index < length self.old.trail.steps }
        requires another { victim.txn ≡ self.old.txn → ⊥ }
        ensures same { OnOk result ((self.new.txn ≡ self.old.txn) × (self.new.victims.items ≡ self.old.victims.items ++ victim ∷ [])) }
        ensures under_way { OnOk result ((rs : List Request) → IsUnderWay rs self.old.victims.items self.old.txn self.old.trail self.old.index →
            IsUnderWay rs self.new.victims.items self.old.txn self.new.trail self.new.index) }
    {
        let passed = victim.txn;
        prove!(self.index < self.trail.len());
        self.victims.push(victim)?;
        if passed == self.trail.txn_at(self.index) {
            self.index += 1;
        } else {
            self.trail.restart(self.txn, &self.victims)?;
            self.index = 0;
        }
        Ok(())
    }

    /// The victims, with one more, behind whom no search has to go on.
    pub(crate) fn end_with(self, victim: Victim) -> Result<Vec<Victim>, Fault>
        ensures victims { IfOk result (λ victims. victims.items ≡ self.victims.items ++ victim ∷ []) }
        ensures memory { IfErr result (λ fault. fault ≡ Memory) }
    {
        let mut victims = self.victims;
        victims.push(victim)?;
        Ok(victims)
    }

    /// The victims.
    pub(crate) fn into_victims(self) -> Vec<Victim>
        ensures { result ≡ self.victims }
    {
        self.victims
    }
}
