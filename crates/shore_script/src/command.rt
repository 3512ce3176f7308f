//! A line of the script.
ghost use Rattle.std.specs.Prelude.{◌≡◌, ◌≢◌, ◌∷◌, [], IfOk, IfSome, codes};
ghost use Rattle.shore_model.specs.Calls.{IsServed};
ghost use Rattle.shore_script.specs.Commands.{IsServedCommand};
ghost use Rattle.shore_script.specs.Lines.{AsksIn, InWords, IsCallOf, IsLineOf, TextAsks};
ghost use Rattle.shore_script.specs.Reading.{Reads};
ghost use Rattle.shore_script.specs.Words.{AskCall, AskPlain, outcome_word};
ghost use Rattle.shore_types.specs.Names.{device_name};

use crate::counting::Counting;
use crate::fuses::Fuse;
use crate::lines::MAX_LINE_BYTES;
use crate::words;
use shore_disk::Pick;
use shore_model::{Call, Outcome};
use shore_types::{Device, SessionId, Ticket};
use std::alloc::{AllocError, Global};

/// What a line of the script asks for.
#[derive(Drop)]
pub enum Command {
    /// An empty line, or a remark.
    Nothing,
    /// A call of a session.
    Ask(SessionId, Call),
    /// A commit of a session, of which its ticket is told, and which is not forced.
    Lazy(SessionId),
    /// The wait of a session's call for a lock is taken back.
    GiveUp(SessionId),
    /// Whether the commit of a ticket is durable.
    Durable(Ticket),
    /// Every waiting record is forced.
    Force,
    /// Every dirty page with a durable number is written back.
    Flush,
    /// A checkpoint begins.
    BeginCheckpoint,
    /// The checkpoint that has begun ends, and the log's anchor moves to it.
    EndCheckpoint,
    /// A checkpoint begins and ends.
    Checkpoint,
    /// The power is lost, and the manager opened again. The line may pick what becomes of writes that were not synced.
    Crash(Option<Pick>),
    /// A device gets this fuse.
    Fuse(Fuse),
    /// A device gets this fuse as the next crash opens it. The last one of a device counts.
    NextFuse(Fuse),
    /// Every record in place.
    Dump,
    /// Every record of the log.
    Log,
    /// Every lock, held or waited for.
    Locks,
    /// Threads, each with a session of its own, count a record up.
    Threads(Counting),
}

/// What a line asks for. `Ok(None)`: it is too long, no UTF-8 or no line of the script.
pub fn read_line(alloc: Global, line: &[u8]) -> Result<Option<Command>, AllocError>
    ensures served { IfOk result (λ found. IfSome found IsServedCommand) }
    ensures asks { IfOk result (Reads (IsLineOf line.now)) }
{
    if line.len() > MAX_LINE_BYTES {
        return Ok(None);
    }
    match str::from_utf8(line) {
        Ok(line) => parse(alloc, line),
        Err(_) => Ok(None),
    }
}

fn parse(alloc: Global, line: &str) -> Result<Option<Command>, AllocError>
    ensures served { IfOk result (λ found. IfSome found IsServedCommand) }
    ensures asks { IfOk result (Reads (TextAsks line.now)) }
{
    if line.is_empty() || line.starts_with('#') {
        return Ok(Some(Command::Nothing));
    }
    match line.split_once(' ') {
        Some((first, rest)) => match words::session(first) {
            Some(session) => session_command(alloc, session, rest),
            None => Ok(plain_command(line)),
        },
        None => Ok(plain_command(line)),
    }
}

// A lazy commit of the session, that its wait is taken back, or a call.
fn session_command(
    alloc: Global,
    session: SessionId,
    text: &str,
) -> Result<Option<Command>, AllocError>
    ensures served { IfOk result (λ found. IfSome found IsServedCommand) }
    ensures asks { IfOk result (Reads (AsksIn text.now session)) }
{
    match text {
        "lazy" => Ok(Some(Command::Lazy(session))),
        "giveup" => Ok(Some(Command::GiveUp(session))),
        text => call_command(alloc, session, text),
    }
}

// A call of the session.
fn call_command(
    alloc: Global,
    session: SessionId,
    text: &str,
) -> Result<Option<Command>, AllocError>
    ensures served { IfOk result (λ found. IfSome found IsServedCommand) }
    ensures asks { IfOk result (Reads (IsCallOf text.now session)) }
{
    match call_of(alloc, text)? {
        Some(call) => Ok(Some(Command::Ask(session, call))),
        None => Ok(None),
    }
}

// What is no call.
fn plain_command(text: &str) -> Option<Command>
    ensures served { IfSome result IsServedCommand }
    ensures asks { Reads (InWords AskPlain text.now) result }
{
    match text.split_once(' ') {
        Some((word, rest)) => match rest.split_once(' ') {
            Some((first, others)) => match others.split_once(' ') {
                Some((second, third)) => command_with_three(word, first, second, third),
                None => command_with_two(word, first, others),
            },
            None => command_with_one(word, rest),
        },
        None => command_of_a_word(text),
    }
}

fn command_of_a_word(word: &str) -> Option<Command>
    ensures served { IfSome result IsServedCommand }
    ensures asks { Reads (AskPlain (word.now ∷ [])) result }
{
    match word {
        "force" => Some(Command::Force),
        "flush" => Some(Command::Flush),
        "checkpoint" => Some(Command::Checkpoint),
        "crash" => Some(Command::Crash(None)),
        "dump" => Some(Command::Dump),
        "log" => Some(Command::Log),
        "locks" => Some(Command::Locks),
        _ => None,
    }
}

fn command_with_one(word: &str, object: &str) -> Option<Command>
    ensures served { IfSome result IsServedCommand }
    ensures asks { Reads (AskPlain (word.now ∷ object.now ∷ [])) result }
{
    match word {
        "crash" => crash_of(object),
        "checkpoint" => half_of_checkpoint(object),
        "durable" => Some(Command::Durable(words::ticket(object)?)),
        _ => None,
    }
}

fn half_of_checkpoint(word: &str) -> Option<Command>
    ensures served { IfSome result IsServedCommand }
    ensures asks { Reads (AskPlain (codes "checkpoint" ∷ word.now ∷ [])) result }
{
    match word {
        "begin" => Some(Command::BeginCheckpoint),
        "end" => Some(Command::EndCheckpoint),
        _ => None,
    }
}

fn command_with_two(word: &str, object: &str, number: &str) -> Option<Command>
    ensures served { IfSome result IsServedCommand }
    ensures asks { Reads (AskPlain (word.now ∷ object.now ∷ number.now ∷ [])) result }
{
    match word {
        "crash" => mixed_crash(object, number),
        _ => fuse_command(word, object, number),
    }
}

fn fuse_command(word: &str, device: &str, calls: &str) -> Option<Command>
    requires { word.now ≢ codes "crash" }
    ensures served { IfSome result IsServedCommand }
    ensures asks { Reads (AskPlain (word.now ∷ device.now ∷ calls.now ∷ [])) result }
{
    let fuse = Fuse {
        device: device_of(device)?,
        calls: words::number(calls)?,
    };
    match word {
        "fuse" => Some(Command::Fuse(fuse)),
        "nextfuse" => Some(Command::NextFuse(fuse)),
        _ => None,
    }
}

fn mixed_crash(word: &str, bits: &str) -> Option<Command>
    ensures served { IfSome result IsServedCommand }
    ensures asks { Reads (AskPlain (codes "crash" ∷ word.now ∷ bits.now ∷ [])) result }
{
    match word {
        "mixed" => Some(Command::Crash(Some(Pick::Mixed(words::number(bits)?)))),
        _ => None,
    }
}

fn command_with_three(word: &str, first: &str, second: &str, third: &str) -> Option<Command>
    ensures served { IfSome result IsServedCommand }
    ensures asks { Reads (AskPlain (word.now ∷ first.now ∷ second.now ∷ third.now ∷ [])) result }
{
    match word {
        "threads" => Some(Command::Threads(Counting {
            threads: words::threads(first)?,
            rounds: words::rounds(second)?,
            record: words::record(third)?,
        })),
        _ => None,
    }
}

fn device_of(word: &str) -> Option<Device>
    ensures { Reads (λ device. word.now ≡ device_name device) result }
{
    match word {
        "log" => Some(Device::Log),
        "volume" => Some(Device::Volume),
        _ => None,
    }
}

fn crash_of(word: &str) -> Option<Command>
    ensures served { IfSome result IsServedCommand }
    ensures asks { Reads (AskPlain (codes "crash" ∷ word.now ∷ [])) result }
{
    match word {
        "old" => Some(Command::Crash(Some(Pick::Old))),
        "new" => Some(Command::Crash(Some(Pick::New))),
        "noise" => Some(Command::Crash(Some(Pick::Noise))),
        _ => None,
    }
}

fn call_of(alloc: Global, text: &str) -> Result<Option<Call>, AllocError>
    ensures served { IfOk result (λ found. IfSome found IsServed) }
    ensures asks { IfOk result (Reads (InWords AskCall text.now)) }
{
    match text.split_once(' ') {
        Some((word, rest)) => match rest.split_once(' ') {
            Some((first, second)) => call_with_two(alloc, word, first, second),
            None => call_with_a_word(alloc, word, rest),
        },
        None => Ok(call_of_a_word(text)),
    }
}

fn call_of_a_word(word: &str) -> Option<Call>
    ensures served { IfSome result IsServed }
    ensures asks { Reads (AskCall (word.now ∷ [])) result }
{
    match word {
        "begin" => Some(Call::Begin),
        "commit" => Some(Call::Commit),
        "abort" => Some(Call::Abort),
        "savepoint" => Some(Call::Savepoint),
        "indoubt" => Some(Call::InDoubt),
        _ => None,
    }
}

fn call_with_a_word(alloc: Global, word: &str, object: &str) -> Result<Option<Call>, AllocError>
    ensures served { IfOk result (λ found. IfSome found IsServed) }
    ensures asks { IfOk result (Reads (AskCall (word.now ∷ object.now ∷ []))) }
{
    match word {
        "prepare" => prepare_of(alloc, object),
        _ => Ok(call_with_one(word, object)),
    }
}

fn call_with_one(word: &str, object: &str) -> Option<Call>
    requires { word.now ≢ codes "prepare" }
    ensures served { IfSome result IsServed }
    ensures asks { Reads (AskCall (word.now ∷ object.now ∷ [])) result }
{
    match word {
        "back" => Some(Call::BackTo(words::index(object)?)),
        "get" => Some(Call::Get(words::record(object)?)),
        "getu" => Some(Call::GetForUpdate(words::record(object)?)),
        "delete" => Some(Call::Delete(words::record(object)?)),
        "scan" => Some(Call::Scan(words::store(object)?)),
        _ => None,
    }
}

fn call_with_two(
    alloc: Global,
    word: &str,
    first: &str,
    second: &str,
) -> Result<Option<Call>, AllocError>
    ensures served { IfOk result (λ found. IfSome found IsServed) }
    ensures asks { IfOk result (Reads (AskCall (word.now ∷ first.now ∷ second.now ∷ []))) }
{
    match word {
        "insert" => insert_of(alloc, first, second),
        "update" => update_of(alloc, first, second),
        "lock" => Ok(lock_of(first, second)),
        "try" => Ok(try_of(first, second)),
        "resolve" => resolve_of(alloc, first, second),
        _ => Ok(None),
    }
}

fn lock_of(granule: &str, mode: &str) -> Option<Call>
    ensures served { IfSome result IsServed }
    ensures asks { Reads (AskCall (codes "lock" ∷ granule.now ∷ mode.now ∷ [])) result }
{
    Some(Call::Lock(words::granule(granule)?, words::mode(mode)?))
}

fn try_of(granule: &str, mode: &str) -> Option<Call>
    ensures served { IfSome result IsServed }
    ensures asks { Reads (AskCall (codes "try" ∷ granule.now ∷ mode.now ∷ [])) result }
{
    Some(Call::TryLock(words::granule(granule)?, words::mode(mode)?))
}

fn insert_of(alloc: Global, store: &str, bytes: &str) -> Result<Option<Call>, AllocError>
    ensures served { IfOk result (λ found. IfSome found IsServed) }
    ensures asks { IfOk result (Reads (AskCall (codes "insert" ∷ store.now ∷ bytes.now ∷ []))) }
{
    let Some(store) = words::store(store) else {
        return Ok(None);
    };
    match words::bytes(alloc, bytes)? {
        Some(bytes) => Ok(Some(Call::Insert(store, bytes))),
        None => Ok(None),
    }
}

fn update_of(alloc: Global, id: &str, bytes: &str) -> Result<Option<Call>, AllocError>
    ensures served { IfOk result (λ found. IfSome found IsServed) }
    ensures asks { IfOk result (Reads (AskCall (codes "update" ∷ id.now ∷ bytes.now ∷ []))) }
{
    let Some(id) = words::record(id) else {
        return Ok(None);
    };
    match words::bytes(alloc, bytes)? {
        Some(bytes) => Ok(Some(Call::Update(id, bytes))),
        None => Ok(None),
    }
}

fn prepare_of(alloc: Global, global: &str) -> Result<Option<Call>, AllocError>
    ensures served { IfOk result (λ found. IfSome found IsServed) }
    ensures asks { IfOk result (Reads (AskCall (codes "prepare" ∷ global.now ∷ []))) }
{
    match words::global(alloc, global)? {
        Some(global) => Ok(Some(Call::Prepare(global))),
        None => Ok(None),
    }
}

fn resolve_of(alloc: Global, global: &str, outcome: &str) -> Result<Option<Call>, AllocError>
    ensures served { IfOk result (λ found. IfSome found IsServed) }
    ensures asks { IfOk result (Reads (AskCall (codes "resolve" ∷ global.now ∷ outcome.now ∷ []))) }
{
    let Some(outcome) = outcome_of(outcome) else {
        return Ok(None);
    };
    match words::global(alloc, global)? {
        Some(global) => Ok(Some(Call::Resolve(global, outcome))),
        None => Ok(None),
    }
}

fn outcome_of(word: &str) -> Option<Outcome>
    ensures { Reads (λ outcome. word.now ≡ outcome_word outcome) result }
{
    match word {
        "commit" => Some(Outcome::Commit),
        "abort" => Some(Outcome::Abort),
        _ => None,
    }
}
