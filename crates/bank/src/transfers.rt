//! What the clients of the bank do: each has a session and a thread of its own.
ghost use Rattle.std.specs.Prelude.{◌≡◌, ◌≢◌, ◌≤◌, ◌<◌, ◌+◌, ◌%◌, ◌^◌, ◌++◌, ◌∷◌, [], ℕ, IfOk, List, MatchOption, MatchResult, Ok, length};
ghost use Rattle.shore_types.specs.declared.faults.Fault.TheVariants as Fault;
ghost use Rattle.shore_model.specs.declared.calls.Answer.TheVariants as Answer;
ghost use Rattle.shore_model.specs.declared.calls.Call.TheVariants as Call;
ghost use Rattle.shore_model.specs.declared.calls.Exchange.{Exchange};
ghost use Rattle.shore_shared.specs.NoCommits.{CommitNothing};
ghost use Rattle.bank.specs.Claims.{Adds, ComesTo, HasMade, IsLookedAt, IsOpened, IsTransfer, bytes_of};

use shore_model::{Answer, Call};
use shore_shared::{Client, Job};
use shore_types::{Bytes, Fault, PageId, Rid, Sequence, StoreId};
use std::alloc::Global;
use std::thread::yield_now;

/// How many clients there are: each has an account.
pub const CLIENTS: u16 = 8;

const TRANSFERS: u16 = 400;

const FIRST: u64 = 1_000;

/// What the clients do one behind another, each of these tasks at the same time.
#[derive(Drop)]
pub enum Task {
    /// Each opens its account.
    Open,
    /// Each makes its transfers, and comes to how many were victims of deadlocks.
    Transfer,
    /// Each looks what its account has.
    Look,
}

impl Job for Task {
    type Done = u64;

    ghost use Rattle.bank.specs.Claims.{Claimed};

    ghost says = { Claimed };

    fn work<C: Client>(&self, alloc: Global, number: usize, client: &mut C) -> Result<u64, Fault> {
        let account = (number % CLIENTS as usize) as u16;
        match self {
            Task::Open => open(alloc, client),
            Task::Transfer => make_transfers(alloc, client, account),
            Task::Look => look(alloc, client, account),
        }
    }
}

fn open<C: Client>(alloc: Global, client: &mut C) -> Result<u64, Fault>
    ensures { IfOk result (λ has. (has ≡ 1000) × (es : List Exchange) × (C.told client.new ≡ C.told client.old ++ es) × IsOpened (C.known client.new).durable 1000 es) }
{
    begin(client)?;
    let Answer::Inserted(_) = client.call(Call::Insert(StoreId(0), text_of(alloc, FIRST)?))? else {
        return Err(Fault::NotQuiet);
    };
    commit(client)?;
    Ok(FIRST)
}

fn look<C: Client>(alloc: Global, client: &mut C, account: u16) -> Result<u64, Fault>
    ensures { IfOk result (λ has. (es : List Exchange) × (C.told client.new ≡ C.told client.old ++ es) × IsLookedAt (C.known client.new).durable account has es) }
{
    begin(client)?;
    let has = add(alloc, client, account, 0)?;
    commit(client)?;
    Ok(has)
}

// What a client's turn comes to: a transfer, or one that is to be made again, since it was a victim, or since the log was full.
#[derive(Clone, Copy)]
enum Turn {
    Made,
    Victim,
    Full,
}

// From this account on, one after another gives to its neighbour. The answer is how many were victims.
fn make_transfers<C: Client>(alloc: Global, client: &mut C, account: u16) -> Result<u64, Fault>
    requires account { account < 8 }
    requires told { C.told client.old ≡ [] }
    ensures { IfOk result (λ _. HasMade (C.known client.new).durable account 400 (C.told client.new)) }
{
    let (mut made, mut victims) = (0u16, 0u64);
    for _ in 0..u64::MAX {
        if made == TRANSFERS {
            return Ok(victims);
        }
        match take_turn(alloc, client, (account + made) % CLIENTS)? {
            Turn::Made => made += 1,
            Turn::Victim => victims = victims.saturating_add(1),
            Turn::Full => {}
        }
    }
    Err(Fault::LogFull)
}

// A transfer from this account. One that was a victim is rolled back, and so is one that found the log full, maybe before it began, until a checkpoint frees that.
fn take_turn<C: Client>(alloc: Global, client: &mut C, from: u16) -> Result<Turn, Fault>
    ensures told { (es : List Exchange) × (C.told client.new ≡ C.told client.old ++ es) × IfOk result (λ turn. ComesTo (C.known client.new).durable from turn es) }
    ensures known { (C.known client.old).durable ≤ (C.known client.new).durable }
{
    match transfer(alloc, client, from, from ^ 1) {
        Ok(()) => Ok(Turn::Made),
        Err(Fault::Deadlock { .. }) => {
            client.call(Call::Abort)?;
            Ok(Turn::Victim)
        }
        Err(Fault::LogFull) => {
            let _ended = client.call(Call::Abort);
            Ok(Turn::Full)
        }
        Err(fault) => Err(fault),
    }
}

// Others may come between its halves, so that some meet in a deadlock.
fn transfer<C: Client>(alloc: Global, client: &mut C, from: u16, to: u16) -> Result<(), Fault>
    ensures told { (es : List Exchange) × (C.told client.new ≡ C.told client.old ++ es)
        × MatchResult result (λ _. IsTransfer (C.known client.new).durable from to es) (λ fault. fault ≢ Fault.Device → fault ≢ Fault.NotQuiet → CommitNothing es) }
    ensures known { (C.known client.old).durable ≤ (C.known client.new).durable }
{
    begin(client)?;
    add(alloc, client, from, u64::MAX)?;
    yield_now();
    add(alloc, client, to, 1)?;
    commit(client)?;
    Ok(())
}

fn begin<C: Client>(client: &mut C) -> Result<(), Fault>
    ensures told { (es : List Exchange) × (C.told client.new ≡ C.told client.old ++ es) × CommitNothing es
        × IfOk result (λ _. (txn : ℕ) × (es ≡ record { call = Call.Begin; reply = Ok (Answer.Began txn) } ∷ [])) }
    ensures known { (C.known client.old).durable ≤ (C.known client.new).durable }
{
    let Answer::Began(_) = client.call(Call::Begin)? else {
        return Err(Fault::NotQuiet);
    };
    Ok(())
}

// It is answered once it is durable. `Device` if that is not known, and `NotQuiet` if it was answered something else.
fn commit<C: Client>(client: &mut C) -> Result<(), Fault>
    ensures told { (es : List Exchange) × (C.told client.new ≡ C.told client.old ++ es)
        × MatchResult result (λ _. (ticket : ℕ) × (ticket ≤ (C.known client.new).durable) × (es ≡ record { call = Call.Commit; reply = Ok (Answer.Committed ticket) } ∷ []))
        (λ fault. fault ≢ Fault.Device → fault ≢ Fault.NotQuiet → CommitNothing es) }
    ensures known { (C.known client.old).durable ≤ (C.known client.new).durable }
{
    match client.commit_durable() {
        Ok(_) => Ok(()),
        Err(cause) => Err(cause),
    }
}

// Adds to an account, modulo 2 to the 64th. The answer is what it has then.
fn add<C: Client>(alloc: Global, client: &mut C, slot: u16, amount: u64) -> Result<u64, Fault>
    ensures told { (es : List Exchange) × (C.told client.new ≡ C.told client.old ++ es) × CommitNothing es × IfOk result (λ has. Adds slot amount has es) }
    ensures known { (C.known client.old).durable ≤ (C.known client.new).durable }
{
    let (store, page) = (StoreId(0), 0);
    let page = PageId { store, page };
    let id = Rid { page, slot };
    let Answer::Got(bytes) = client.call(Call::GetForUpdate(id))? else {
        return Err(Fault::NotQuiet);
    };
    let Some(before) = amount_in(bytes.as_slice()) else {
        return Err(Fault::NoRecord);
    };
    let has = before.wrapping_add(amount);
    let Answer::Updated = client.call(Call::Update(id, text_of(alloc, has)?))? else {
        return Err(Fault::NotQuiet);
    };
    Ok(has)
}

fn text_of(alloc: Global, amount: u64) -> Result<Bytes, Fault>
    ensures { IfOk result (λ bytes. bytes ≡ bytes_of amount) }
{
    Ok(Sequence::from_vec(Vec::from_slice(alloc, &amount.to_le_bytes())?))
}

// None if these are not eight bytes.
fn amount_in(bytes: &[u8]) -> Option<u64>
    ensures { MatchOption result (length bytes.now ≢ 8) (λ amount. (amount < 2 ^ 64) × (bytes.now ≡ bytes_of amount)) }
{
    match bytes {
        [a, b, c, d, e, f, g, h] => Some(u64::from_le_bytes([*a, *b, *c, *d, *e, *f, *g, *h])),
        _ => None,
    }
}
