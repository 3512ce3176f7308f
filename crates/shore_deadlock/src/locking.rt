//! The call that takes a lock along a path, waits for it, and breaks the cycles that its wait closes.
ghost use Rattle.std.specs.Prelude.{◌≡◌, ◌⊎◌, ◌<◌, ◌++◌, [], ℕ, List, None, Some, true, false, Ok, Err, IfOk, IfErr, IfSome, IfNone, OnErr};
ghost use Rattle.shore_types.specs.declared.faults.Fault.TheVariants.{Memory};
ghost use Rattle.shore_model.specs.declared.requests.Request.{Request};
ghost use Rattle.shore_model.specs.Requests.{HasNoCycle};
ghost use Rattle.shore_locks.specs.Grants.{cancelled};
ghost use Rattle.shore_locks.specs.LetThrough.{Tells};
ghost use Rattle.shore_locks.specs.Tables.{Table, is_waiting, waiting_request};
ghost use Rattle.shore_path.specs.Acquires.{IsReached};
ghost use Rattle.shore_cycles.specs.Blockers as blockers;
ghost use Rattle.shore_cycles.specs.Cycles.{IsOnEachCycle};
ghost use Rattle.shore_deadlock.specs.Locking.{AnswersBroken, Ends, IsBroken, IsLetThrough, IsLetWait, Keeps, OnlyGrantsOthers, Settles, others_waiting};
ghost use Rattle.shore_cycles.specs.declared.victims.Victim.{Victim as VictimData};

use shore_cycles::{Victim, choose, is_victim, take_back};
use shore_locks::laws::tables_are_orderly;
use shore_locks::{LetThrough, LockTable};
use shore_path::{Acquired, OnConflict, acquire};
use shore_types::{Fault, Granule, Mode, TxnId};
use std::alloc::Global;

/// What became of a lock. Done: the granule is held in the mode, or a mode held above covers it. Waiting: the transaction waits
/// for this granule of the path, on no cycle, and asks again once it waits no more. Deadlock: it was a victim itself; it waits no more,
/// what it holds stays, and its cycle is told by the last of the victims.
#[derive(Clone, Copy, PartialEq)]
pub enum Locked {
    Done,
    Waiting(Granule),
    Deadlock,
}

/// What a lock is answered, and the victims whose requests were taken back for it, in their turn, each with its cycle. Victims
/// are told with a fault too, since they wait no more.
#[derive(Drop)]
pub struct Reply {
    /// What the call itself is answered.
    pub answer: Result<Locked, Fault>,
    /// The victims of its cycles, in their turn.
    pub victims: Vec<Victim>,
}

/// Takes a granule in a mode along its path, as `acquire` does. If the transaction has to wait, the cycles that pass it are broken; if
/// a victim's request was all that stood in its way, it goes on, until it has the granule or waits on no cycle.
///
/// Refused as `acquire` is, and with Memory if an allocation failed; then the transaction does not wait.
pub fn lock(alloc: Global, table: &mut LockTable, txn: TxnId, target: Granule, mode: Mode) -> Reply
    requires { is_waiting txn table.old.requests ≡ false }
    ensures settles { Settles table.old table.new txn target mode result.answer result.victims.items }
    ensures done { result.answer ≡ Ok Locked.Done → IsReached table.new.requests txn target mode }
    ensures quiet { ((g : Granule) → result.answer ≡ Ok (Locked.Waiting g) → ⊥) → is_waiting txn table.new.requests ≡ false }
    ensures keeps { Keeps txn table.old.requests table.new.requests }
    ensures others { OnlyGrantsOthers txn result.victims.items table.old.requests table.new.requests }
{
    // For the proof: the requests of any table are orderly. Nothing runs.
    tables_are_orderly(table);
    let target = &target;
    let mut let_through = LetThrough::nobody();
    match acquire(table, txn, *target, mode, OnConflict::Wait) {
        Ok(Acquired::Done) => Reply {
            answer: Ok(Locked::Done),
            victims: Vec::new(alloc),
        },
        Ok(Acquired::Waiting(_)) => settle(alloc, table, txn, *target, mode, &mut let_through),
        Err(fault) => Reply {
            answer: Err(fault),
            victims: Vec::new(alloc),
        },
    }
}

/// Goes on with a lock whose transaction an acquire has just let wait, as `lock` does: the cycles that pass it are broken, and if a
/// victim's request was all that stood in its way, it acquires again. What holds then is told from the table before that acquire. Who waits no more is noted, a
/// victim too; once it acquires again only that there may be others.
///
/// Refused as `acquire` is, and with Memory if an allocation failed; then the transaction does not wait. What was taken stays.
pub fn settle(
    alloc: Global,
    table: &mut LockTable,
    txn: TxnId,
    target: Granule,
    mode: Mode,
    let_through: &mut LetThrough,
) -> Reply
    requires waiting { is_waiting txn table.old.requests ≡ true }
    ensures settles { (before : Table) → IsLetWait before txn target mode table.old → Settles before table.new txn target mode result.answer result.victims.items }
    ensures done { result.answer ≡ Ok Locked.Done → IsReached table.new.requests txn target mode }
    ensures quiet { ((g : Granule) → result.answer ≡ Ok (Locked.Waiting g) → ⊥) → is_waiting txn table.new.requests ≡ false }
    ensures keeps { (before : Table) → IsLetWait before txn target mode table.old → Keeps txn before.requests table.new.requests }
    ensures others { (before : Table) → IsLetWait before txn target mode table.old → OnlyGrantsOthers txn result.victims.items before.requests table.new.requests }
    ensures told { (let_through.new ≡ None) ⊎ Tells table.old.requests table.new.requests let_through.old let_through.new }
{
    // For the proof: the requests of any table are orderly. Nothing runs.
    tables_are_orderly(table);
    let target = &target;
    let mut victims = Vec::new(alloc);
    if let Some(answer) = break_wait(alloc, table, txn, &mut victims, let_through) {
        return Reply { answer, victims };
    }
    let_through.note_others();
    loop {
        if let Some(answer) = go_round(alloc, table, txn, target, mode, &mut victims, let_through) {
            return Reply { answer, victims };
        }
    }
}

// One acquire, and what follows if it waits. None: a victim let the transaction through. Each round has a waiter less.
fn go_round(
    alloc: Global,
    table: &mut LockTable,
    txn: TxnId,
    target: &Granule,
    mode: Mode,
    victims: &mut Vec<Victim>,
    let_through: &mut LetThrough,
) -> Option<Result<Locked, Fault>>
    requires { is_waiting txn table.old.requests ≡ false }
    ensures limit { table.new.limit ≡ table.old.limit }
    ensures ends { IfSome result (λ answer. (vs : List VictimData) × Ends table.old txn target.now mode answer vs table.new.requests × (victims.new.items ≡ victims.old.items ++ vs)) }
    ensures done { IfSome result (λ answer. answer ≡ Ok Locked.Done → IsReached table.new.requests txn target.now mode) }
    ensures quiet { IfSome result (λ answer. ((g : Granule) → answer ≡ Ok (Locked.Waiting g) → ⊥) → is_waiting txn table.new.requests ≡ false) }
    ensures let_through { IfNone result ((vs : List VictimData) × IsLetThrough table.old txn target.now mode vs table.new.requests × (victims.new.items ≡ victims.old.items ++ vs)) }
    ensures fewer { IfNone result (others_waiting txn table.new.requests < others_waiting txn table.old.requests) }
    ensures keeps { Keeps txn table.old.requests table.new.requests }
    ensures told { let_through.old ≡ None → let_through.new ≡ None }
{
    // For the proof: the requests of any table are orderly. Nothing runs.
    tables_are_orderly(table);
    match acquire(table, txn, *target, mode, OnConflict::Wait) {
        Ok(Acquired::Done) => Some(Ok(Locked::Done)),
        Ok(Acquired::Waiting(_)) => {
            // For the proof: the requests of any table are orderly. Nothing runs.
            tables_are_orderly(table);
            break_wait(alloc, table, txn, victims, let_through)
        }
        Err(fault) => Some(Err(fault)),
    }
}

// Breaks the cycles that pass a transaction that waits. None: it waits no more, and is no victim.
fn break_wait(
    alloc: Global,
    table: &mut LockTable,
    txn: TxnId,
    victims: &mut Vec<Victim>,
    let_through: &mut LetThrough,
) -> Option<Result<Locked, Fault>>
    requires { is_waiting txn table.old.requests ≡ true }
    ensures told { Tells table.old.requests table.new.requests let_through.old let_through.new }
    ensures limit { table.new.limit ≡ table.old.limit }
    ensures ends { IfSome result (λ answer. IfOk answer (λ locked. (vs : List VictimData) × IsBroken table.old.requests txn vs table.new.requests
        × AnswersBroken locked txn vs table.new.requests × (victims.new.items ≡ victims.old.items ++ vs))) }
    ensures refused { IfSome result (λ answer. IfErr answer (λ fault. (fault ≡ Memory) × (table.new.requests ≡ cancelled txn table.old.requests) × (victims.new.items ≡ victims.old.items))) }
    ensures let_through { IfNone result ((vs : List VictimData) × IsBroken table.old.requests txn vs table.new.requests × (blockers.is_victim vs txn ≡ false)
        × (is_waiting txn table.new.requests ≡ false) × (victims.new.items ≡ victims.old.items ++ vs)) }
    ensures quiet { IfSome result (λ answer. ((g : Granule) → answer ≡ Ok (Locked.Waiting g) → ⊥) → is_waiting txn table.new.requests ≡ false) }
{
    // For the proof: the requests of any table are orderly. Nothing runs.
    tables_are_orderly(table);
    match break_for(alloc, table, txn, victims, let_through) {
        Ok(true) => Some(Ok(Locked::Deadlock)),
        Ok(false) => match table.waiting_request(txn) {
            Some(request) => Some(Ok(Locked::Waiting(request.granule))),
            None => None,
        },
        Err(fault) => {
            table.cancel(txn, let_through);
            Some(Err(fault))
        }
    }
}

// Breaks the cycles that pass a transaction, and tells the victims behind those that are told. The answer is whether it is one of them.
fn break_for(
    alloc: Global,
    table: &mut LockTable,
    txn: TxnId,
    victims: &mut Vec<Victim>,
    let_through: &mut LetThrough,
) -> Result<bool, Fault>
    ensures told { Tells table.old.requests table.new.requests let_through.old let_through.new }
    ensures broken { IfOk result (λ own. (vs : List VictimData) × IsBroken table.old.requests txn vs table.new.requests
        × (own ≡ blockers.is_victim vs txn) × (victims.new.items ≡ victims.old.items ++ vs)) }
    ensures limit { table.new.limit ≡ table.old.limit }
    ensures refused { OnErr result ((table.new ≡ table.old) × (victims.new.items ≡ victims.old.items)) }
    ensures memory { IfErr result (λ fault. fault ≡ Memory) }
{
    // For the proof: the requests of any table are orderly. Nothing runs.
    tables_are_orderly(table);
    let mut chosen = choose(alloc, table, txn)?;
    let own = is_victim(&chosen, txn);
    let known = victims.len();
    victims.append(&mut chosen)?;
    take_back(table, &victims[known..], let_through);
    Ok(own)
}
