//! The victims of cycles.
ghost use Rattle.std.specs.Prelude.{◌≡◌, ◌<◌, ◌≤◌, ◌++◌, ℕ, All, Some, false, drop, get_or, length, take, slice_get, slice_index, IfOk, IfErr, OnOk, OnErr};
ghost use Rattle.shore_types.specs.declared.faults.Fault.TheVariants.{Memory};
ghost use Rattle.shore_model.specs.Requests.{HasNoCycle};
ghost use Rattle.shore_locks.specs.LetThrough.{Tells};
ghost use Rattle.shore_locks.specs.Tables.{is_waiting};
ghost use Rattle.shore_cycles.specs.Blockers as blockers;
ghost use Rattle.shore_cycles.specs.Cycles.{AreVictims, IsOnEachCycle, IsOnNoCycle, IsOnNoCycleWithout, after_victims};

use crate::search::Search;
use shore_locks::laws::tables_are_orderly;
use shore_locks::{LetThrough, LockTable};
use shore_types::{Fault, Sequence, TxnId};
use std::alloc::Global;

/// A transaction whose waiting request is taken back to break a cycle, and that cycle, from it on: each waits for the next,
/// and the last for the first.
#[derive(Drop)]
pub struct Victim {
    /// The transaction that waits no more: the one of the cycle with the greatest number.
    pub txn: TxnId,
    /// The cycle, the victim first.
    pub cycle: Sequence<TxnId>,
}

/// Breaks the cycles that pass a transaction, until none is left: of each the transaction with the greatest number waits
/// no more. The answer is these victims, in their turn. If each cycle passed the transaction none is left at all. The
/// error is Memory alone, and then the table is as it was: the victims are chosen before the first waits no more.
pub fn break_cycles(alloc: Global, table: &mut LockTable, txn: TxnId) -> Result<Vec<Victim>, Fault>
    ensures victims { IfOk result (λ victims. AreVictims table.old.requests txn victims.items) }
    ensures table { IfOk result (λ victims. table.new ≡ record { limit = table.old.limit; requests = after_victims victims.items table.old.requests }) }
    ensures quiet { IfOk result (λ victims. All (λ v. is_waiting v.txn table.new.requests ≡ false) victims.items) }
    ensures broken { OnOk result (IsOnNoCycle table.new.requests txn) }
    ensures free { OnOk result (IsOnEachCycle table.old.requests txn → HasNoCycle table.new.requests) }
    ensures refused { OnErr result (table.new ≡ table.old) }
    ensures memory { IfErr result (λ fault. fault ≡ Memory) }
{
    // For the proof: the requests of any table are orderly. Nothing runs.
    tables_are_orderly(table);
    let victims = choose(alloc, table, txn)?;
    take_back(table, &victims, &mut LetThrough::nobody());
    Ok(victims)
}

/// The requests with which these wait are taken back, in their turn. Who waits no more is noted, they among them.
pub fn take_back(table: &mut LockTable, victims: &[Victim], let_through: &mut LetThrough)
    ensures told { Tells table.old.requests table.new.requests let_through.old let_through.new }
    ensures table { table.new ≡ record { limit = table.old.limit; requests = after_victims victims.now table.old.requests } }
{
    for victim in victims {
        // For the proof: the requests of any table are orderly. Nothing runs.
        tables_are_orderly(table);
        table.cancel(victim.txn, let_through);
    }
}

/// Whether a transaction is one of the victims.
pub fn is_victim(victims: &[Victim], txn: TxnId) -> bool
    ensures { result ≡ blockers.is_victim victims.now txn }
{
    victims.iter().any(|victim| victim.txn == txn)
}

/// The victims of a transaction. What is chosen before the table changes is right when its turn comes: a cycle that passes no
/// victim stays as long as victims alone wait no more.
pub fn choose(alloc: Global, table: &LockTable, txn: TxnId) -> Result<Vec<Victim>, Fault>
    ensures victims { IfOk result (λ victims. AreVictims table.now.requests txn victims.items) }
    ensures all { IfOk result (λ victims. IsOnNoCycleWithout victims.items table.now.requests txn) }
    ensures memory { IfErr result (λ fault. fault ≡ Memory) }
{
    // For the proof: the requests of any table are orderly. Nothing runs.
    tables_are_orderly(table);
    // A cycle that passes it has somebody who waits for it.
    if !table.may_be_awaited(txn) {
        return Ok(Vec::new(alloc));
    }
    let mut search = Search::new(alloc, txn)?;
    while let Some(cycle) = search.next_cycle(alloc, table)? {
        let victim = victim_of(cycle);
        if victim.txn == txn {
            let victims = search.end_with(victim)?;
            return Ok(victims);
        }
        search.pass_over(victim)?;
    }
    Ok(search.into_victims())
}

fn victim_of(mut cycle: Vec<TxnId>) -> Victim
    requires { 0 < length cycle.items }
    ensures turned { (n : ℕ) × (n < length cycle.items) × (result.cycle ≡ drop n cycle.items ++ take n cycle.items) }
    ensures first { slice_get result.cycle 0 ≡ Some result.txn }
    ensures greatest { All (λ t. t ≤ result.txn) result.cycle }
{
    let index = index_of_greatest(&cycle);
    let txn = cycle[index];
    cycle.rotate_left(index);
    Victim {
        txn,
        cycle: Sequence::from_vec(cycle),
    }
}

fn index_of_greatest(txns: &[TxnId]) -> usize
    requires { 0 < length txns.now }
    ensures there { result < length txns.now }
    ensures greatest { All (λ t. t ≤ slice_index txns.now result) txns.now }
{
    let mut greatest = 0;
    for (index, txn) in txns.iter().enumerate() {
        if *txn > txns[greatest] {
            greatest = index;
        }
    }
    greatest
}
