//! What each client does, without an end.
ghost use Rattle.std.specs.Prelude.{◌≡◌, ◌≢◌, ◌≤◌, ◌<◌, ◌^◌, ◌++◌, ◌∷◌, [], IfOk, IsTrue, List, MatchOption, MatchResult, Ok, length};
ghost use Rattle.std.specs.Int.{to_le_bytes, w64};
ghost use Rattle.shore_types.specs.declared.faults.Fault.TheVariants as Fault;
ghost use Rattle.shore_disk.specs.Device.{Writes};
ghost use Rattle.shore_model.specs.declared.calls.Answer.TheVariants as Answer;
ghost use Rattle.shore_model.specs.declared.calls.Call.TheVariants as Call;
ghost use Rattle.shore_model.specs.declared.calls.Exchange.{Exchange};
ghost use Rattle.shore_shared.specs.NoCommits.{CommitNothing};
ghost use Rattle.turmoil.specs.Commits.{Adds, ComesTo, HasBegun, HasCommittedNothing, HasLeftCounters, IsNoted};
ghost use Rattle.turmoil.specs.Commits as commits;

use shore_disk::{Disk, FileCause, FileDisk, FilePlace};
use shore_model::{Answer, Call};
use shore_shared::{Client, Job};
use shore_types::{Bytes, Fault, PageId, Rid, Sequence, StoreId};
use std::alloc::Global;
use std::thread::yield_now;

/// How many accounts there are, on one page.
pub const ACCOUNTS: u16 = 8;

/// What each has in the beginning.
pub const FIRST: u64 = 1_000;

/// No more clients may run.
pub const MOST_CLIENTS: usize = 16;

/// Of so many transactions one is rolled back.
pub const ABORTED: u64 = 7;

// .. and one goes back to a savepoint in its midst.
const BACK: u64 = 4;

// The text of its notes: four numbers, the least byte first.
const NOTE_BYTES: usize = 32;

/// What a client notes in its file once a commit was answered: its commits, and how often it was a victim, rolled back and went back.
#[derive(Clone, Copy)]
pub struct Notes {
    pub commits: u64,
    pub victims: u64,
    pub aborts: u64,
    pub backs: u64,
}

/// What each client does. It notes what it was answered in a file of the folder.
#[derive(Drop)]
pub struct Turmoil<'r, 'f> {
    pub rt: &'r HostRuntime,
    pub folder: &'f str,
}

impl<'r, 'f> Job for Turmoil<'r, 'f> {
    // How many commits its last notes tell.
    type Done = u64;

    ghost use Rattle.turmoil.specs.Commits.{IsNoted};

    ghost says = { λ _ number commits es seen. IsNoted seen.durable number commits es };

    fn work<C: Client>(&self, alloc: Global, number: usize, client: &mut C) -> Result<u64, Fault> {
        let mut file = self.note_file(number)?;
        let mut notes = Notes {
            commits: commits_of(client, number)?,
            victims: 0,
            aborts: 0,
            backs: 0,
        };
        for turn in number as u64..u64::MAX {
            take_turn(alloc, client, number, turn, &mut notes)?;
            write_notes(&mut file, &*client, number, &notes)?;
        }
        Ok(notes.commits)
    }
}

impl<'r, 'f> Turmoil<'r, 'f> {
    /// The file of a client's notes, which may be there from a life before.
    pub fn note_file(&self, number: usize) -> Result<FileDisk, Fault> {
        let path = format!(in self.rt.alloc(); "{}/notes.{number}", self.folder)?;
        let place = of_device(FilePlace::look(self.rt, path.as_str()))?;
        if place.is_empty() {
            return of_device(place.cleared(self.rt, NOTE_BYTES as u64));
        }
        drop(place);
        of_device(FileDisk::open(self.rt, path.as_str()))
    }
}

fn of_device<T>(answer: Result<T, FileCause>) -> Result<T, Fault> {
    match answer {
        Ok(value) => Ok(value),
        Err(_) => Err(Fault::Device),
    }
}

// They tell of a client, after what it was told, and are of its number.
fn write_notes<D: Disk, C: Client>(
    file: &mut D,
    _client: &C,
    _number: usize,
    notes: &Notes,
) -> Result<(), Fault>
    requires { IsNoted (C.known _client.now).durable _number notes.now.commits (C.told _client.now) }
    ensures { IsTrue (D.is_honest file.old) → Writes 0 (commits.text_of notes.now) result (D.history file.old) (D.history file.new) }
{
    write_text(file, notes)
}

/// Refused by `Device` too if somebody has cut the file.
pub fn write_text<D: Disk>(file: &mut D, notes: &Notes) -> Result<(), Fault>
    ensures { IsTrue (D.is_honest file.old) → Writes 0 (commits.text_of notes.now) result (D.history file.old) (D.history file.new) }
{
    if file.len() < NOTE_BYTES as u64 {
        return Err(Fault::Device);
    }
    file.write_at(0, &text_of(notes))?;
    Ok(())
}

#[tactic(auto, unfolding(crate::specs::Commits::text_of))]
fn text_of(notes: &Notes) -> [u8; NOTE_BYTES]
    ensures { result ≡ commits.text_of notes.now }
{
    let mut text = [0; NOTE_BYTES];
    text[0..8].copy_from_slice(&notes.commits.to_le_bytes());
    text[8..16].copy_from_slice(&notes.victims.to_le_bytes());
    text[16..24].copy_from_slice(&notes.aborts.to_le_bytes());
    text[24..32].copy_from_slice(&notes.backs.to_le_bytes());
    text
}

/// How many commits the client's counters tell, modulo 2 to the 64th.
pub fn commits_of<C: Client>(client: &mut C, number: usize) -> Result<u64, Fault>
    requires { C.told client.old ≡ [] }
    ensures { IfOk result (λ begun. HasBegun number begun (C.told client.new)) }
{
    client.call(Call::Begin)?;
    let mut commits = 0u64;
    for from in 0..ACCOUNTS {
        commits = commits.wrapping_add(number_at(client, counter(number, from))?);
    }
    client.call(Call::Abort)?;
    Ok(commits)
}

fn number_at<C: Client>(client: &mut C, id: Rid) -> Result<u64, Fault>
    ensures { IfOk result (λ has. (has < 2 ^ 64) × (C.told client.new ≡ C.told client.old ++ record { call = Call.Get id; reply = Ok (Answer.Got (to_le_bytes w64 has)) } ∷ [])) }
{
    let Answer::Got(bytes) = client.call(Call::Get(id))? else {
        return Err(Fault::NotQuiet);
    };
    let Some(has) = number_of(bytes.as_slice()) else {
        return Err(Fault::NoRecord);
    };
    Ok(has)
}

// A transaction. One that is a victim, or finds the log full, is rolled back. A commit is counted if it was answered and is durable, and none else.
fn take_turn<C: Client>(
    alloc: Global,
    client: &mut C,
    number: usize,
    turn: u64,
    notes: &mut Notes,
) -> Result<(), Fault>
    ensures told { (es : List Exchange) × (C.told client.new ≡ C.told client.old ++ es) × IfOk result (λ _. ComesTo number (C.known client.new).durable notes.old.commits notes.new.commits es) }
    ensures known { (C.known client.old).durable ≤ (C.known client.new).durable }
{
    match transaction(alloc, client, number, turn, notes) {
        Err(Fault::Deadlock { .. }) => {
            notes.victims = notes.victims.saturating_add(1);
            client.call(Call::Abort)?;
            Ok(())
        }
        Err(Fault::LogFull) => {
            // It may have been refused before it began.
            let _ended = client.call(Call::Abort);
            yield_now();
            Ok(())
        }
        answer => answer,
    }
}

/// The client's counter for the account that gives tells how often it made it do so. In some turns all is rolled back.
pub fn transaction<C: Client>(
    alloc: Global,
    client: &mut C,
    number: usize,
    turn: u64,
    notes: &mut Notes,
) -> Result<(), Fault>
    ensures told { (es : List Exchange) × (C.told client.new ≡ C.told client.old ++ es)
        × MatchResult result (λ _. ComesTo number (C.known client.new).durable notes.old.commits notes.new.commits es)
        (λ fault. (notes.new.commits ≡ notes.old.commits) × (fault ≢ Fault.Device → fault ≢ Fault.NotQuiet → CommitNothing es)) }
    ensures known { (C.known client.old).durable ≤ (C.known client.new).durable }
{
    let from = (turn % ACCOUNTS as u64) as u16;
    transfer(alloc, client, from, turn, notes)?;
    if turn % ABORTED == 0 {
        client.call(Call::Abort)?;
        notes.aborts = notes.aborts.saturating_add(1);
        return Ok(());
    }
    add(alloc, client, counter(number, from), 1)?;
    match client.commit_durable() {
        Ok(_) => {
            notes.commits = notes.commits.wrapping_add(1);
            Ok(())
        }
        Err(fault) => Err(fault),
    }
}

// A transaction begins, in which this account gives another a unit.
fn transfer<C: Client>(
    alloc: Global,
    client: &mut C,
    from: u16,
    turn: u64,
    notes: &mut Notes,
) -> Result<(), Fault>
    ensures nothing { HasCommittedNothing (C.told client.old) (C.told client.new) }
    ensures left { IfOk result (λ _. HasLeftCounters (C.told client.old) (C.told client.new)) }
    ensures known { (C.known client.old).durable ≤ (C.known client.new).durable }
    ensures same { notes.new.commits ≡ notes.old.commits }
{
    client.call(Call::Begin)?;
    add(alloc, client, account(from), u64::MAX)?;
    change_and_go_back(alloc, client, from, turn, notes)?;
    add(alloc, client, account(from ^ 1), 1)
}

// In some turns the account is changed and that is gone back over.
fn change_and_go_back<C: Client>(
    alloc: Global,
    client: &mut C,
    from: u16,
    turn: u64,
    notes: &mut Notes,
) -> Result<(), Fault>
    ensures nothing { HasCommittedNothing (C.told client.old) (C.told client.new) }
    ensures left { IfOk result (λ _. HasLeftCounters (C.told client.old) (C.told client.new)) }
    ensures known { (C.known client.old).durable ≤ (C.known client.new).durable }
    ensures same { notes.new.commits ≡ notes.old.commits }
{
    if turn % BACK != 0 {
        return Ok(());
    }
    client.call(Call::Savepoint)?;
    add(alloc, client, account(from), 500)?;
    client.call(Call::BackTo(0))?;
    notes.backs = notes.backs.saturating_add(1);
    Ok(())
}

/// Adds to a record, modulo 2 to the 64th.
pub fn add<C: Client>(alloc: Global, client: &mut C, id: Rid, amount: u64) -> Result<(), Fault>
    ensures nothing { HasCommittedNothing (C.told client.old) (C.told client.new) }
    ensures adds { IfOk result (λ _. (es : List Exchange) × (C.told client.new ≡ C.told client.old ++ es) × Adds id amount es) }
    ensures known { (C.known client.old).durable ≤ (C.known client.new).durable }
{
    let Answer::Got(bytes) = client.call(Call::GetForUpdate(id))? else {
        return Err(Fault::NotQuiet);
    };
    let Some(has) = number_of(bytes.as_slice()) else {
        return Err(Fault::NoRecord);
    };
    client.call(Call::Update(id, bytes_of(alloc, has.wrapping_add(amount))?))?;
    Ok(())
}

pub fn account(slot: u16) -> Rid
    ensures { result ≡ commits.account slot }
{
    let page = PageId {
        store: StoreId(0),
        page: 0,
    };
    Rid { page, slot }
}

pub fn counter(number: usize, from: u16) -> Rid
    ensures { result ≡ commits.counter number from }
{
    let page = PageId {
        store: StoreId(1 + (number % MOST_CLIENTS) as u32),
        page: 0,
    };
    Rid { page, slot: from }
}

/// The bytes of a number, the least first.
pub fn bytes_of(alloc: Global, number: u64) -> Result<Bytes, Fault>
    ensures { IfOk result (λ bytes. bytes ≡ to_le_bytes w64 number) }
{
    Ok(Sequence::from_vec(Vec::from_slice(alloc, &number.to_le_bytes())?))
}

/// .. and back. None if these are not eight bytes.
pub fn number_of(bytes: &[u8]) -> Option<u64>
    ensures { MatchOption result (length bytes.now ≢ 8) (λ number. (number < 2 ^ 64) × (bytes.now ≡ to_le_bytes w64 number)) }
{
    match bytes {
        [a, b, c, d, e, f, g, h] => Some(u64::from_le_bytes([*a, *b, *c, *d, *e, *f, *g, *h])),
        _ => None,
    }
}
