//! A manager in memory, and the life of one whose workers pass a gate, with its tape.
ghost use Rattle.std.specs.Prelude.{◌≡◌};
ghost use Rattle.std.specs.Arc.{arc_value};
ghost use Rattle.std.specs.Thread.{IsSend};
ghost use Rattle.shore_core.specs.Cores.{first_of, geometry_of};
ghost use Rattle.shore_disk.specs.Device.{size};
ghost use Rattle.shore_disk.specs.MemDisk.{history_of};
ghost use Rattle.shore_log.specs.Settled.{cut_of_log, records_of_log};
ghost use Rattle.shore_held.specs.Comings.{Beginning};

use shore_core::Step;
use shore_disk::{Disk, MemDisk};
use shore_model::{Answer, Call};
use shore_queue::{Numbers, QueueTail};
use shore_shared::{
    Client, Gate, Job, Named, Opened, Queued, Seat, Serves, Session, Shared, Taped, in_threads,
};
use shore_types::{Bytes, Fault, Geometry, PageId, Rid, Sequence, StoreId, Version};
use shore_world::{World, format, volume_bytes};
use std::alloc::Global;
use std::marker::Brand;
use std::sync::Wait;
use std::sync::atomic::{AtomicU64, Ordering};
use std::thread;
use std::thread::{Threads, sleep};
use std::time::{Clock, Duration};

pub(super) type Life<N, B, R> = Shared<N, B, QueueTail<N, B, R>, MemDisk, MemDisk>;

/// The frames of a pool: more than a volume here has pages.
pub(super) const FRAMES: usize = 16;

/// The pages of the store.
pub(super) const PAGES: u32 = 4;

/// Twenty seconds at least, also where each thread has to wait for a processor.
pub(super) const MOST_NAPS: u32 = 20_000;

/// Both devices of a manager, formatted: a log of so many bytes, and a store of these pages.
pub(super) fn devices(alloc: Global, log_bytes: usize) -> Result<(MemDisk, MemDisk), Fault> {
    let geometry = Geometry {
        version: Version::One,
        pair: 1,
        max_locks: 4_096,
        stores: Sequence::from_vec(Vec::from_elem(alloc, PAGES, 1)?),
    };
    let mut log = MemDisk::new(alloc, Vec::from_elem(alloc, 0u8, log_bytes)?)?;
    let volume_len = volume_bytes(&geometry) as usize;
    let mut volume = MemDisk::new(alloc, Vec::from_elem(alloc, 0u8, volume_len)?)?;
    format(alloc, &mut log, &mut volume, &geometry)?;
    Ok((log, volume))
}

/// A manager over both.
pub(super) fn manager<L: Disk + Drop, V: Disk + Drop>(
    alloc: Global,
    log: L,
    volume: V,
) -> Result<World<L, V>, Fault> {
    match World::open(alloc, log, volume, FRAMES) {
        Ok(world) => Ok(world),
        Err((fault, _, _)) => Err(fault),
    }
}

/// What the jobs of a life came to, each of all its clients, and the tape of the manager.
#[derive(Drop)]
pub(super) struct Lived<D: Drop> {
    pub(super) done: Vec<Vec<D>>,
    pub(super) tape: Tape,
}

/// A tape, and how the trail was cut behind it.
#[derive(Drop)]
pub(super) struct Tape {
    pub(super) entries: Vec<Taped>,
    // Amid a transaction the trail is not cut, and the tape stays.
    pub(super) stays: bool,
    // Behind all it is cut, and leaves the tape empty.
    pub(super) is_cut: bool,
}

/// The jobs of clients, one behind the other, while the three workers of a manager pass a gate.
pub(super) fn live<R: Threads + Wait + Clock + Sync + Send + Copy, J: Job + Sync, W: Gate + Sync>(
    rt: R,
    alloc: Global,
    log_bytes: usize,
    sessions: u32,
    jobs: &[J],
    gate: &W,
) -> Result<Lived<J::Done>, Fault> {
    let (log, volume) = devices(alloc, log_bytes)?;
    match Opened::of(alloc, manager(alloc, log, volume)?) {
        Ok(opened) => with_numbers::<Brand, R, J, W>(rt, alloc, opened, sessions, jobs, gate),
        Err((fault, world)) => {
            let _devices = world.into_devices();
            Err(fault)
        }
    }
}

fn with_numbers<
    N: Numbers + Send + Sync,
    R: Threads + Wait + Clock + Sync + Send + Copy,
    J: Job + Sync,
    W: Gate + Sync,
>(
    rt: R,
    alloc: Global,
    opened: Opened<MemDisk, MemDisk>,
    sessions: u32,
    jobs: &[J],
    gate: &W,
) -> Result<Lived<J::Done>, Fault>
    requires { first_of opened.core ≡ N.first_number }
{
    match Queued::<N, MemDisk, MemDisk>::of(alloc, opened) {
        Ok(queued) => with_names::<N, Brand, R, J, W>(rt, alloc, queued, sessions, jobs, gate),
        Err((fault, opened)) => {
            let _devices = opened.into_world().into_devices();
            Err(fault)
        }
    }
}

fn with_names<
    N: Numbers + Send + Sync,
    B: Named + Send + Sync,
    R: Threads + Wait + Clock + Sync + Send + Copy,
    J: Job + Sync,
    W: Gate + Sync,
>(
    rt: R,
    alloc: Global,
    queued: Queued<N, MemDisk, MemDisk>,
    sessions: u32,
    jobs: &[J],
    gate: &W,
) -> Result<Lived<J::Done>, Fault>
    requires first { first_of queued.opened.core ≡ N.first_number }
    requires ledger { (queued.opened.blank.name ≡ B.name) × (queued.opened.blank.parts ≡ B.parts) × (B.all ≡ B.parts) }
    requires words { queued.opened.words.table.shared.table_id ≡ B.table }
    requires queue { (arc_value queued.channel).queue ≡ B.queue }
    requires before { (B.before ≡ records_of_log queued.opened.log) × (B.cut ≡ cut_of_log queued.opened.log) }
    requires layout { (geometry_of queued.opened.core ≡ B.geometry) × (size (history_of queued.opened.log.device) ≡ B.log_bytes) }
    requires nothing_owed { (start : Beginning) → B.honest start → ⊥ }
{
    let life = queued.shared::<B, R>(rt, alloc);
    life.start_tape(&rt, alloc);
    let done = with_sessions(rt, alloc, &life, sessions, jobs, gate)?;
    let tape = tape_of(rt, alloc, &life)?;
    Ok(Lived { done, tape })
}

fn tape_of<N: Numbers, B: Named, R: Wait + Copy>(
    rt: R,
    alloc: Global,
    life: &Life<N, B, R>,
) -> Result<Tape, Fault> {
    let Some(mut last) = life.session(&rt) else {
        return Err(Fault::NotQuiet);
    };
    last.call(&rt, alloc, life, Call::Begin)?;
    let stays = is_refused(&life.cut_trail(&rt));
    let Some(entries) = life.take_tape(&rt) else {
        return Err(Fault::Memory);
    };
    life.start_tape(&rt, alloc);
    last.call(&rt, alloc, life, Call::Abort)?;
    let is_cut = is_cut(&life.cut_trail(&rt)) && is_empty(&life.take_tape(&rt));
    Ok(Tape {
        entries,
        stays,
        is_cut,
    })
}

fn is_refused(step: &Step) -> bool {
    match step {
        Step::Refused(Fault::NotQuiet) => true,
        _ => false,
    }
}

fn is_cut(step: &Step) -> bool {
    match step {
        Step::Done(Answer::Cut) => true,
        _ => false,
    }
}

fn is_empty(tape: &Option<Vec<Taped>>) -> bool {
    match tape {
        Some(entries) => entries.is_empty(),
        None => false,
    }
}

fn with_sessions<
    N: Numbers + Send + Sync,
    B: Named + Send + Sync,
    R: Threads + Wait + Clock + Sync + Send + Copy,
    J: Job + Sync,
    W: Gate + Sync,
>(
    rt: R,
    alloc: Global,
    life: &Life<N, B, R>,
    count: u32,
    jobs: &[J],
    gate: &W,
) -> Result<Vec<Vec<J::Done>>, Fault> {
    let mut sessions = Vec::new(alloc);
    for _ in 0..count {
        match life.session(&rt) {
            Some(session) => sessions.push(session)?,
            None => return Err(Fault::NotQuiet),
        }
    }
    with_workers(rt, alloc, life, sessions, jobs, gate)
}

// A manager as what starts its workers sees it: nobody has to look into it to send it to threads.
trait Works<B: Named, R> {
    fn seat_of(&self, rt: &R) -> Seat<B>;

    fn write_log<W: Gate>(&self, rt: &R, alloc: Global, seat: &mut Seat<B>, gate: &W);

    fn write_back<W: Gate>(&self, rt: &R, seat: &mut Seat<B>, gate: &W);

    fn make_checkpoints<W: Gate>(&self, rt: &R, alloc: Global, seat: &mut Seat<B>, gate: &W);

    fn stop(&self, seat: &mut Seat<B>);
}

impl<N: Numbers, B: Named, R: Wait + Clock + Copy> Works<B, R> for Life<N, B, R> {
    fn seat_of(&self, rt: &R) -> Seat<B> {
        self.seat(rt)
    }

    fn write_log<W: Gate>(&self, rt: &R, alloc: Global, seat: &mut Seat<B>, gate: &W) {
        self.log_writer(rt, alloc, seat, gate);
    }

    fn write_back<W: Gate>(&self, rt: &R, seat: &mut Seat<B>, gate: &W) {
        self.flusher(rt, seat, gate);
    }

    fn make_checkpoints<W: Gate>(&self, rt: &R, alloc: Global, seat: &mut Seat<B>, gate: &W) {
        self.checkpointer(rt, alloc, seat, gate);
    }

    fn stop(&self, seat: &mut Seat<B>) {
        self.ask_stop(seat);
    }
}

fn with_workers<
    'a,
    B: Named + Send + Sync,
    R: Threads + Wait + Clock + Sync + Send + Copy,
    S: Works<B, R> + Serves<B, R> + Sync,
    J: Job + Sync,
    W: Gate + Sync,
>(
    rt: R,
    alloc: Global,
    life: &'a S,
    sessions: Vec<Session<B>>,
    jobs: &[J],
    gate: &'a W,
) -> Result<Vec<Vec<J::Done>>, Fault> {
    let mut last = life.seat_of(&rt);
    thread::scope(
        thread::scope_env(),
        &rt,
        move |scope| -> Result<Vec<Vec<J::Done>>, Fault>
            requires { IsSend B.row × IsSend J.Done.row }
        {
            let (mut one, mut two, mut three) = (
                life.seat_of(&rt),
                life.seat_of(&rt),
                life.seat_of(&rt),
            );
            let writer = scope.spawn(move || life.write_log(&rt, alloc, &mut one, gate));
            let flusher = scope.spawn(move || life.write_back(&rt, &mut two, gate));
            let checkpointer = scope.spawn(move || life.make_checkpoints(
                &rt, alloc, &mut three, gate,
            ));
            let done = if writer.is_ok() && flusher.is_ok() && checkpointer.is_ok() {
                one_by_one(rt, alloc, life, sessions, jobs)
            } else {
                Err(Fault::Memory)
            };
            life.stop(&mut last);
            done
        },
    )
}

// Each job of all clients, in threads, once the one before it has ended.
fn one_by_one<
    B: Named + Send + Sync,
    R: Threads + Wait + Clock + Sync + Send + Copy,
    S: Serves<B, R> + Sync,
    J: Job + Sync,
>(
    rt: R,
    alloc: Global,
    life: &S,
    sessions: Vec<Session<B>>,
    jobs: &[J],
) -> Result<Vec<Vec<J::Done>>, Fault> {
    let (mut sessions, mut done) = (sessions, Vec::new(alloc));
    for job in jobs {
        let (back, came_to) = in_threads(rt, alloc, life, sessions, job);
        sessions = back;
        done.push(came_to?)?;
    }
    Ok(done)
}

/// The record that is counted up.
pub(super) const RECORD: Rid = Rid {
    page: PageId {
        store: StoreId(0),
        page: 0,
    },
    slot: 0,
};

pub(super) fn bytes_of(alloc: Global, number: u64) -> Result<Bytes, Fault> {
    Ok(Sequence::from_vec(Vec::from_slice(alloc, &number.to_le_bytes())?))
}

pub(super) fn number_of(bytes: &[u8]) -> u64 {
    match bytes {
        [a, b, c, d, e, f, g, h] => u64::from_le_bytes([*a, *b, *c, *d, *e, *f, *g, *h]),
        _ => 0,
    }
}

fn number_in(answer: &Answer) -> u64 {
    match answer {
        Answer::Got(bytes) => number_of(bytes.as_slice()),
        _ => 0,
    }
}

/// The record is made, with the number 0.
pub(super) fn insert(alloc: Global, client: &mut impl Client) -> Result<(), Fault> {
    client.call(Call::Begin)?;
    client.call(Call::Insert(StoreId(0), bytes_of(alloc, 0)?))?;
    client.commit_durable()?;
    Ok(())
}

/// One more, in a transaction that is not committed.
pub(super) fn add_one(alloc: Global, client: &mut impl Client) -> Result<(), Fault> {
    client.call(Call::Begin)?;
    let found = client.call(Call::GetForUpdate(RECORD))?;
    let bytes = bytes_of(alloc, number_in(&found).wrapping_add(1))?;
    client.call(Call::Update(RECORD, bytes))?;
    Ok(())
}

/// The number, in a transaction of its own.
pub(super) fn read(client: &mut impl Client) -> Result<u64, Fault> {
    client.call(Call::Begin)?;
    let found = client.call(Call::Get(RECORD))?;
    client.call(Call::Commit)?;
    Ok(number_in(&found))
}

/// Whether the word came to this.
pub(super) fn comes(clock: &impl Clock, word: &AtomicU64, wanted: u64) -> bool {
    comes_within(clock, word, wanted, MOST_NAPS)
}

/// .. within so many naps of a millisecond.
pub(super) fn comes_within(clock: &impl Clock, word: &AtomicU64, wanted: u64, naps: u32) -> bool {
    for _ in 0..naps {
        if word.load(Ordering::SeqCst) >= wanted {
            return true;
        }
        sleep(clock, Duration::from_millis(1));
    }
    false
}

/// What a call was refused with, 0 if it was answered.
pub(super) fn told(reply: Result<Answer, Fault>) -> u64 {
    match reply {
        Ok(_) => 0,
        Err(fault) => u64::from(fault.number()),
    }
}
