//! What clients of five kinds do, without an end.
ghost use Rattle.std.specs.Prelude.{◌≡◌, ◌≢◌, ◌≤◌, ◌+◌, ◌%◌, ◌^◌, ◌++◌, ℕ, IfOk, IsTrue, List, MatchResult};
ghost use Rattle.shore_types.specs.declared.faults.Fault.TheVariants as Fault;
ghost use Rattle.shore_model.specs.declared.calls.Answer.TheVariants as Answer;
ghost use Rattle.shore_model.specs.declared.calls.Call.TheVariants as Call;
ghost use Rattle.shore_model.specs.declared.calls.Exchange.{Exchange};
ghost use Rattle.shore_disk.specs.Device.{Writes};
ghost use Rattle.turmoil.specs.Commits.{HasCommittedNothing, HasLeftCounters, text_of};
ghost use Rattle.turmoil.specs.Counts.{AddNothing, CountsAll, CountsNone, HasCounted, HaveAdded, IsCommit, IsCounted, IsCountedCommit};

use crate::clients::{
    ABORTED, ACCOUNTS, FIRST, Notes, Turmoil, account, add, commits_of, counter, number_of,
    transaction, write_text,
};
use crate::deciding::decide;
use shore_disk::Disk;
use shore_model::{Answer, Call};
use shore_shared::{Client, Job};
use shore_types::{Fault, Pairs, StoreId, Ticket};
use std::alloc::Global;
use std::thread::yield_now;

// So often a client gives way while it holds a transaction open.
const HELD: u32 = 1_000;

/// What each client does, of the kind that its number tells. It notes what it was answered, as others do.
#[derive(Drop)]
pub struct Kinds<'r, 'f> {
    pub of: Turmoil<'r, 'f>,
}

impl<'r, 'f> Job for Kinds<'r, 'f> {
    // How many commits its last notes tell.
    type Done = u64;

    ghost use Rattle.turmoil.specs.Counts.{IsCounted};

    ghost says = { λ _ number commits es seen. IsCounted seen.durable number commits es };

    fn work<C: Client>(&self, alloc: Global, number: usize, client: &mut C) -> Result<u64, Fault> {
        let mut file = self.of.note_file(number)?;
        let mut notes = Notes {
            commits: commits_of(client, number)?,
            victims: 0,
            aborts: 0,
            backs: 0,
        };
        for turn in number as u64..u64::MAX {
            take_turn(alloc, client, number, turn, &mut notes)?;
            write_count(&mut file, &*client, number, &notes)?;
        }
        Ok(notes.commits)
    }
}

// As `write_notes`, of a client that may have prepared and decided.
fn write_count<D: Disk, C: Client>(
    file: &mut D,
    _client: &C,
    _number: usize,
    notes: &Notes,
) -> Result<(), Fault>
    requires { IsCounted (C.known _client.now).durable _number notes.now.commits (C.told _client.now) }
    ensures { IsTrue (D.is_honest file.old) → Writes 0 (text_of notes.now) result (D.history file.old) (D.history file.new) }
{
    write_text(file, notes)
}

// A client's number tells its kind. It gives units as others do; or it prepares, and decides; or its commit is not awaited; or it scans all accounts; or it holds a transaction open.
const KINDS: usize = 5;

const GIVES: usize = 0;

const DECIDES: usize = 1;

const COMMITS_LAZILY: usize = 2;

const SCANS: usize = 3;

// Each commit is counted that was answered and is durable, and none else.
fn take_turn<C: Client>(
    alloc: Global,
    client: &mut C,
    number: usize,
    turn: u64,
    notes: &mut Notes,
) -> Result<(), Fault>
    ensures told { (es : List Exchange) × (C.told client.new ≡ C.told client.old ++ es) × IfOk result (λ _. CountsAll number (C.known client.new).durable notes.old.commits notes.new.commits es) }
    ensures known { (C.known client.old).durable ≤ (C.known client.new).durable }
{
    if number % KINDS == COMMITS_LAZILY {
        return commit_lazily(alloc, client, number, turn, notes);
    }
    match one_transaction(alloc, client, number, turn, notes) {
        Ok(()) => Ok(()),
        Err(fault) => give_up(client, fault, notes),
    }
}

fn one_transaction<C: Client>(
    alloc: Global,
    client: &mut C,
    number: usize,
    turn: u64,
    notes: &mut Notes,
) -> Result<(), Fault>
    ensures told { (es : List Exchange) × (C.told client.new ≡ C.told client.old ++ es)
        × MatchResult result (λ _. CountsAll number (C.known client.new).durable notes.old.commits notes.new.commits es) (λ fault. CountsNone notes.old.commits notes.new.commits fault es) }
    ensures known { (C.known client.old).durable ≤ (C.known client.new).durable }
{
    match number % KINDS {
        GIVES => give_as_others(alloc, client, number, turn, notes),
        DECIDES => decide(alloc, client, number, turn, notes),
        SCANS => scan(alloc, client, number, turn, notes),
        _ => hold(alloc, client, number, turn, notes),
    }
}

fn give_as_others<C: Client>(
    alloc: Global,
    client: &mut C,
    number: usize,
    turn: u64,
    notes: &mut Notes,
) -> Result<(), Fault>
    ensures told { (es : List Exchange) × (C.told client.new ≡ C.told client.old ++ es)
        × MatchResult result (λ _. CountsAll number (C.known client.new).durable notes.old.commits notes.new.commits es) (λ fault. CountsNone notes.old.commits notes.new.commits fault es) }
    ensures known { (C.known client.old).durable ≤ (C.known client.new).durable }
{
    transaction(alloc, client, number, turn, notes)
}

// A transaction that is a victim, found the log full or was refused memory is rolled back. Another refusal ends the client.
fn give_up<C: Client>(client: &mut C, fault: Fault, notes: &mut Notes) -> Result<(), Fault>
    ensures nothing { HasCommittedNothing (C.told client.old) (C.told client.new) }
    ensures known { (C.known client.old).durable ≤ (C.known client.new).durable }
    ensures same { notes.new.commits ≡ notes.old.commits }
    ensures goes_on { IfOk result (λ _. (fault ≢ Fault.Device) × (fault ≢ Fault.NotQuiet)) }
{
    match fault {
        Fault::Deadlock { .. } => {
            notes.victims = notes.victims.saturating_add(1);
            roll_back(client);
            Ok(())
        }
        Fault::LogFull | Fault::Memory => {
            roll_back(client);
            yield_now();
            Ok(())
        }
        other => Err(other),
    }
}

// It may have been refused before it began. A rollback that was refused memory is asked for again.
fn roll_back<C: Client>(client: &mut C)
    ensures nothing { HasCommittedNothing (C.told client.old) (C.told client.new) }
    ensures known { (C.known client.old).durable ≤ (C.known client.new).durable }
{
    for _ in 0..u64::MAX {
        match client.call(Call::Abort) {
            Err(Fault::Memory) => yield_now(),
            _ => return,
        }
    }
}

/// A transaction begins, and gives.
pub fn begin_and_give<C: Client>(
    alloc: Global,
    client: &mut C,
    number: usize,
    turn: u64,
) -> Result<(), Fault>
    ensures nothing { HasCommittedNothing (C.told client.old) (C.told client.new) }
    ensures counts { IfOk result (λ _. HasCounted number (C.told client.old) (C.told client.new)) }
    ensures known { (C.known client.old).durable ≤ (C.known client.new).durable }
{
    client.call(Call::Begin)?;
    give(alloc, client, number, turn)
}

// In a transaction that has begun, this account gives another a unit, and the client's counter tells of it.
fn give<C: Client>(alloc: Global, client: &mut C, number: usize, turn: u64) -> Result<(), Fault>
    ensures nothing { HasCommittedNothing (C.told client.old) (C.told client.new) }
    ensures counts { IfOk result (λ _. HasCounted number (C.told client.old) (C.told client.new)) }
    ensures known { (C.known client.old).durable ≤ (C.known client.new).durable }
{
    let from = (turn % ACCOUNTS as u64) as u16;
    add(alloc, client, account(from), u64::MAX)?;
    add(alloc, client, account(from ^ 1), 1)?;
    add(alloc, client, counter(number, from), 1)
}

// The transaction commits, and is counted if that is answered.
fn commit<C: Client>(client: &mut C, notes: &mut Notes) -> Result<(), Fault>
    ensures told { (es : List Exchange) × (C.told client.new ≡ C.told client.old ++ es)
        × MatchResult result (λ _. (notes.new.commits ≡ (notes.old.commits + 1) % 2 ^ 64) × IsCommit (C.known client.new).durable es) (λ fault. CountsNone notes.old.commits notes.new.commits fault es) }
    ensures known { (C.known client.old).durable ≤ (C.known client.new).durable }
{
    match client.commit_durable() {
        Ok(_) => {
            notes.commits = notes.commits.wrapping_add(1);
            Ok(())
        }
        Err(fault) => Err(fault),
    }
}

// A commit that is not awaited, and after it one that is: both are durable then.
fn commit_lazily<C: Client>(
    alloc: Global,
    client: &mut C,
    number: usize,
    turn: u64,
    notes: &mut Notes,
) -> Result<(), Fault>
    ensures told { (es : List Exchange) × (C.told client.new ≡ C.told client.old ++ es) × IfOk result (λ _. CountsAll number (C.known client.new).durable notes.old.commits notes.new.commits es) }
    ensures known { (C.known client.old).durable ≤ (C.known client.new).durable }
{
    match give_lazily(alloc, client, number, turn) {
        Ok(first) => follow(alloc, client, number, turn, first, notes),
        Err(fault) => give_up(client, fault, notes),
    }
}

fn give_lazily<C: Client>(
    alloc: Global,
    client: &mut C,
    number: usize,
    turn: u64,
) -> Result<Ticket, Fault>
    ensures told { (es : List Exchange) × (C.told client.new ≡ C.told client.old ++ es)
        × MatchResult result (λ first. (known : ℕ) → first ≤ known → IsCountedCommit number known es) (λ fault. (fault ≢ Fault.Device) × (fault ≢ Fault.NotQuiet) → AddNothing es) }
    ensures known { (C.known client.old).durable ≤ (C.known client.new).durable }
{
    begin_and_give(alloc, client, number, turn)?;
    ask_to_commit(client)
}

// It is durable once its ticket is.
fn ask_to_commit<C: Client>(client: &mut C) -> Result<Ticket, Fault>
    ensures told { (es : List Exchange) × (C.told client.new ≡ C.told client.old ++ es)
        × MatchResult result (λ first. (known : ℕ) → first ≤ known → IsCommit known es) (λ fault. (fault ≢ Fault.Device) × (fault ≢ Fault.NotQuiet) → AddNothing es) }
    ensures known { (C.known client.old).durable ≤ (C.known client.new).durable }
{
    match client.call(Call::Commit) {
        Ok(answer) => {
            let Answer::Committed(first) = answer else {
                return Err(Fault::NotQuiet);
            };
            Ok(first)
        }
        Err(fault) => Err(fault),
    }
}

// Once this one is durable, that of the first ticket is.
fn follow<C: Client>(
    alloc: Global,
    client: &mut C,
    number: usize,
    turn: u64,
    first: Ticket,
    notes: &mut Notes,
) -> Result<(), Fault>
    ensures told { (es : List Exchange) × (C.told client.new ≡ C.told client.old ++ es)
        × IfOk result (λ _. (notes.new.commits % 2 ^ 64 ≡ (notes.old.commits + 2) % 2 ^ 64) × (first ≤ (C.known client.new).durable) × HaveAdded number (C.known client.new).durable 1 es) }
    ensures known { (C.known client.old).durable ≤ (C.known client.new).durable }
{
    for _ in 0..u64::MAX {
        match give_durably(alloc, client, number, turn) {
            Ok(second) => {
                if second.number().0 < first.number().0 {
                    return Err(Fault::NotQuiet);
                }
                notes.commits = notes.commits.wrapping_add(2);
                return Ok(());
            }
            Err(fault) => give_up(client, fault, notes)?,
        }
    }
    Err(Fault::NotQuiet)
}

fn give_durably<C: Client>(
    alloc: Global,
    client: &mut C,
    number: usize,
    turn: u64,
) -> Result<Ticket, Fault>
    ensures told { (es : List Exchange) × (C.told client.new ≡ C.told client.old ++ es)
        × MatchResult result (λ ticket. (ticket ≤ (C.known client.new).durable) × IsCountedCommit number (C.known client.new).durable es) (λ fault. (fault ≢ Fault.Device) × (fault ≢ Fault.NotQuiet) → AddNothing es) }
    ensures known { (C.known client.old).durable ≤ (C.known client.new).durable }
{
    begin_and_give(alloc, client, number, turn)?;
    client.commit_durable()
}

// All accounts have together what they had. Who has scanned them goes on to change two, or rolls back.
fn scan<C: Client>(
    alloc: Global,
    client: &mut C,
    number: usize,
    turn: u64,
    notes: &mut Notes,
) -> Result<(), Fault>
    ensures told { (es : List Exchange) × (C.told client.new ≡ C.told client.old ++ es)
        × MatchResult result (λ _. CountsAll number (C.known client.new).durable notes.old.commits notes.new.commits es) (λ fault. CountsNone notes.old.commits notes.new.commits fault es) }
    ensures known { (C.known client.old).durable ≤ (C.known client.new).durable }
{
    if sum_of_all(client)? != FIRST * ACCOUNTS as u64 {
        return Err(Fault::NotQuiet);
    }
    if turn % ABORTED == 0 {
        client.call(Call::Abort)?;
        notes.aborts = notes.aborts.saturating_add(1);
        return Ok(());
    }
    give(alloc, client, number, turn)?;
    commit(client, notes)
}

// A transaction begins, and scans all accounts: what they have together.
fn sum_of_all<C: Client>(client: &mut C) -> Result<u64, Fault>
    ensures left { HasLeftCounters (C.told client.old) (C.told client.new) }
    ensures known { (C.known client.old).durable ≤ (C.known client.new).durable }
{
    client.call(Call::Begin)?;
    let Answer::Scanned(pairs) = client.call(Call::Scan(StoreId(0)))? else {
        return Err(Fault::NotQuiet);
    };
    Ok(sum_of(&pairs))
}

// Modulo 2 to the 64th.
fn sum_of(pairs: &Pairs) -> u64 {
    let mut sum = 0u64;
    for nth in 0..pairs.len() {
        if let Some((_, bytes)) = pairs.get(nth) {
            sum = sum.wrapping_add(number_of(bytes).unwrap_or(0));
        }
    }
    sum
}

// A transaction stays open for a while, with a lock that others wait for, and goes back to its savepoints.
fn hold<C: Client>(
    alloc: Global,
    client: &mut C,
    number: usize,
    turn: u64,
    notes: &mut Notes,
) -> Result<(), Fault>
    ensures told { (es : List Exchange) × (C.told client.new ≡ C.told client.old ++ es)
        × MatchResult result (λ _. CountsAll number (C.known client.new).durable notes.old.commits notes.new.commits es) (λ fault. CountsNone notes.old.commits notes.new.commits fault es) }
    ensures known { (C.known client.old).durable ≤ (C.known client.new).durable }
{
    client.call(Call::Begin)?;
    change_twice_and_go_back(alloc, client, turn)?;
    notes.backs = notes.backs.saturating_add(1);
    give(alloc, client, number, turn)?;
    pause();
    commit(client, notes)
}

fn change_twice_and_go_back<C: Client>(
    alloc: Global,
    client: &mut C,
    turn: u64,
) -> Result<(), Fault>
    ensures nothing { HasCommittedNothing (C.told client.old) (C.told client.new) }
    ensures left { IfOk result (λ _. HasLeftCounters (C.told client.old) (C.told client.new)) }
    ensures known { (C.known client.old).durable ≤ (C.known client.new).durable }
{
    let from = (turn % ACCOUNTS as u64) as u16;
    client.call(Call::Savepoint)?;
    add(alloc, client, account(from), 500)?;
    client.call(Call::Savepoint)?;
    add(alloc, client, account(from), 500)?;
    pause();
    client.call(Call::BackTo(1))?;
    client.call(Call::BackTo(0))?;
    Ok(())
}

fn pause() {
    for _ in 0..HELD {
        yield_now();
    }
}
