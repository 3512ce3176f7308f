//! A transaction that runs alone.
ghost use Rattle.std.specs.Prelude.{◌≡◌, ◌↔◌, ◌+◌, ◌∷◌, [], List, ℕ, length, take, slice_get, unwrap_or, IsTrue, IsSomeAnd, OnOk, IfOk, IfSome, IfNone, None};
ghost use Rattle.std.specs.Option.{option_copied};
ghost use Rattle.shore_types.specs.declared.ids.Rid.{Rid};
ghost use Rattle.std.specs.FinMap.{get};
ghost use Rattle.shore_model.specs.Histories.{calls_of, exchange_of};
ghost use Rattle.shore_model.specs.Records.{WriteSet};
ghost use Rattle.shore_model.specs.Alone as alone_runs;
ghost use Rattle.shore_model.specs.Alone.{Alone, IsAbsent, IsRight, MayRefuse, MayReply, MayReplyAll, after, after_answer, after_reply, record_named_by};

use shore_model::rid_map::{copy_writes, overlaid};
use shore_model::{Answer, Call, Entry, Exchange, Progress, RidMap};
use shore_types::{Bytes, Fault, Granule, Pairs, Rid, Sequence, StoreId, TxnId};
use std::alloc::{AllocError, Global};

/// How far a transaction has come that has called nothing yet.
pub fn start(alloc: Global) -> Progress
    ensures { result ≡ alone_runs.start }
{
    Progress {
        writes: RidMap::new(alloc),
        saved: Sequence::new(alloc),
    }
}

// Goes on by an answer.
fn take_answer(
    alloc: Global,
    progress: &mut Progress,
    call: &Call,
    answer: &Answer,
) -> Result<(), AllocError>
    ensures { OnOk result (progress.new ≡ after_answer progress.old call.now answer.now) }
{
    match (call, answer) {
        (Call::Insert(_, bytes), Answer::Inserted(id)) => {
            progress.writes.insert(*id, Some(bytes.try_clone(alloc)?))?;
        }
        (Call::Update(id, bytes), _) => {
            progress.writes.insert(*id, Some(bytes.try_clone(alloc)?))?;
        }
        (Call::Delete(id), _) => progress.writes.insert(*id, None)?,
        (Call::Savepoint, _) => progress.saved.push(copy_writes(alloc, &progress.writes)?)?,
        (Call::BackTo(k), _) => go_back(alloc, progress, *k)?,
        _ => {}
    }
    Ok(())
}

/// Goes on by an entry of a history, if it is a call of the transaction.
pub fn enter(
    alloc: Global,
    progress: &mut Progress,
    txn: TxnId,
    entry: &Entry,
) -> Result<(), AllocError>
    ensures { OnOk result (progress.new ≡ after progress.old (calls_of txn (entry.now ∷ []))) }
{
    if let Some(exchange) = call_of(txn, entry) {
        take_reply(alloc, progress, exchange)?;
    }
    Ok(())
}

// Goes on by a reply.
fn take_reply(alloc: Global, progress: &mut Progress, exchange: &Exchange) -> Result<(), AllocError>
    ensures { OnOk result (progress.new ≡ after_reply progress.old exchange.now.call exchange.now.reply) }
{
    if let Ok(answer) = &exchange.reply {
        take_answer(alloc, progress, &exchange.call, answer)?;
    }
    Ok(())
}

// Goes back to a savepoint. One that is not there changes nothing.
fn go_back(alloc: Global, progress: &mut Progress, index: usize) -> Result<(), AllocError>
    ensures writes { OnOk result (progress.new.writes ≡ unwrap_or (slice_get progress.old.saved index) progress.old.writes) }
    ensures saved { OnOk result (progress.new.saved ≡ take (index + 1) progress.old.saved) }
{
    if let Some(kept) = progress.saved.as_slice().get(index) {
        progress.writes = copy_writes(alloc, kept)?;
        progress.saved.truncate(index + 1);
    }
    Ok(())
}

// The answer is right if the transaction finds these records and has this many savepoints.
fn is_right(
    alloc: Global,
    found: &RidMap<Bytes>,
    saved: usize,
    call: &Call,
    answer: &Answer,
) -> Result<bool, AllocError>
    ensures { IfOk result (λ yes. IsTrue yes ↔ IsRight found.now saved call.now answer.now) }
{
    match call {
        Call::Begin => Ok(matches!(answer, Answer::Began(_))),
        Call::Get(id) => Ok(is_got(found.get(*id), answer)),
        Call::GetForUpdate(id) => Ok(is_got(found.get(*id), answer)),
        Call::Insert(store, _) => Ok(is_inserted(found, *store, answer)),
        Call::Update(id, _) => Ok(found.get(*id).is_some() && matches!(answer, Answer::Updated)),
        Call::Delete(id) => Ok(found.get(*id).is_some() && matches!(answer, Answer::Deleted)),
        Call::Scan(store) => {
            let pairs = found.scan(alloc, *store)?;
            Ok(is_scanned(&pairs, answer))
        }
        Call::Lock(_, _) => Ok(matches!(answer, Answer::Locked)),
        Call::TryLock(_, _) => Ok(matches!(answer, Answer::Locked)),
        Call::Savepoint => Ok(is_saved(saved, answer)),
        Call::BackTo(index) => Ok(*index < saved && matches!(answer, Answer::WentBack)),
        Call::Commit => Ok(matches!(answer, Answer::Committed(_))),
        Call::Abort => Ok(matches!(answer, Answer::Aborted)),
        Call::Prepare(_) => Ok(matches!(answer, Answer::Prepared)),
        Call::Resolve(_, _) => Ok(matches!(answer, Answer::Resolved)),
        Call::InDoubt => Ok(matches!(answer, Answer::AreInDoubt(_))),
    }
}

fn is_got(bytes: Option<&Bytes>, answer: &Answer) -> bool
    ensures { IsTrue result ↔ IsSomeAnd (option_copied bytes.entry) (λ bytes. answer.now ≡ Answer.Got bytes) }
{
    match (bytes, answer) {
        (Some(bytes), Answer::Got(got)) => *got == *bytes,
        _ => false,
    }
}

fn is_inserted(found: &RidMap<Bytes>, store: StoreId, answer: &Answer) -> bool
    ensures { IsTrue result ↔ ((id : Rid) × (answer.now ≡ Answer.Inserted id) × (id.page.store ≡ store) × (get found.now id ≡ None)) }
{
    match answer {
        Answer::Inserted(id) => id.page.store == store && found.get(*id).is_none(),
        _ => false,
    }
}

fn is_scanned(pairs: &Pairs, answer: &Answer) -> bool
    ensures { IsTrue result ↔ (answer.now ≡ Answer.Scanned pairs.now) }
{
    match answer {
        Answer::Scanned(scanned) => scanned.equals(pairs),
        _ => false,
    }
}

fn is_saved(index: usize, answer: &Answer) -> bool
    ensures { IsTrue result ↔ (answer.now ≡ Answer.Saved index) }
{
    match answer {
        Answer::Saved(saved) => *saved == index,
        _ => false,
    }
}

// A refusal may come to the call if the transaction finds these records, of pages of so many slots.
fn may_refuse(slots: u16, found: &RidMap<Bytes>, call: &Call, fault: &Fault) -> bool
    ensures { IsTrue result ↔ MayRefuse slots found.now call.now fault.now }
{
    match fault {
        Fault::NoRecord => match named_by(call) {
            Some(id) => is_absent(slots, found, id),
            None => false,
        },
        _ => true,
    }
}

fn is_absent(slots: u16, found: &RidMap<Bytes>, id: Rid) -> bool
    ensures { IsTrue result ↔ IsAbsent slots found.now id }
{
    let slot = id.slot;
    found.get(id).is_none() || slot >= slots
}

fn named_by(call: &Call) -> Option<Rid>
    ensures { result ≡ record_named_by call.now }
{
    match call {
        Call::Get(id) => Some(*id),
        Call::GetForUpdate(id) => Some(*id),
        Call::Update(id, _) => Some(*id),
        Call::Delete(id) => Some(*id),
        Call::Lock(Granule::Record(id), _) => Some(*id),
        Call::TryLock(Granule::Record(id), _) => Some(*id),
        _ => None,
    }
}

// The reply may come to a transaction that has come so far.
fn may_reply(
    alloc: Global,
    slots: u16,
    records: &RidMap<Bytes>,
    progress: &Progress,
    exchange: &Exchange,
) -> Result<bool, AllocError>
    ensures { IfOk result (λ yes. IsTrue yes ↔ MayReply slots records.now progress.now exchange.now.call exchange.now.reply) }
{
    let found = overlaid(alloc, records, &progress.writes)?;
    match &exchange.reply {
        Ok(answer) => is_right(
            alloc,
            &found,
            progress.saved.as_slice().len(),
            &exchange.call,
            answer,
        ),
        Err(fault) => Ok(may_refuse(slots, &found, &exchange.call, fault)),
    }
}

// The entry, if it is a call of the transaction, may have its reply when the transaction has come so far.
fn may_enter(
    alloc: Global,
    slots: u16,
    records: &RidMap<Bytes>,
    progress: &Progress,
    txn: TxnId,
    entry: &Entry,
) -> Result<bool, AllocError>
    ensures { IfOk result (λ yes. IsTrue yes ↔ MayReplyAll slots records.now progress.now (calls_of txn (entry.now ∷ []))) }
{
    match call_of(txn, entry) {
        Some(exchange) => may_reply(alloc, slots, records, progress, exchange),
        None => Ok(true),
    }
}

// The call with its answer that the entry is, if it is one of the transaction.
fn call_of(txn: TxnId, entry: &Entry) -> Option<&Exchange>
    ensures { option_copied result ≡ exchange_of txn entry.now }
{
    match entry {
        Entry::Exchanged {
            session: _,
            txn: of,
            exchange,
        } if *of == txn => Some(exchange),
        _ => None,
    }
}

/// What a transaction writes that runs alone on the records, of pages of so many slots, and has its calls answered as in the history. There is
/// nothing if no such run has these answers.
pub fn alone(
    alloc: Global,
    slots: u16,
    records: &RidMap<Bytes>,
    entries: &[Entry],
    txn: TxnId,
) -> Result<Option<RidMap<Option<Bytes>>>, AllocError>
    ensures found { IfOk result (λ found. IfSome found (λ writes. Alone slots records.now (calls_of txn entries.now) writes)) }
    ensures none { IfOk result (λ found. IfNone found ((writes : WriteSet) → Alone slots records.now (calls_of txn entries.now) writes → ⊥)) }
{
    let mut progress = start(alloc);
    for entry in entries {
        if !may_enter(alloc, slots, records, &progress, txn, entry)? {
            return Ok(None);
        }
        enter(alloc, &mut progress, txn, entry)?;
    }
    Ok(Some(progress.writes))
}
