//! A manager over two devices, in memory or over files, its sessions, and the calls that the works make.
ghost use Rattle.std.specs.Prelude.{◌≤◌};
ghost use Rattle.shore_model.specs.Calls.{IsServed};
ghost use Rattle.shore_types.specs.declared.layout.TheConstants.{MAX_POOL_FRAMES, MIN_POOL_FRAMES};
ghost use Rattle.shore_world.specs.Events.{IsServedEvent};

use bench_parts::counted::CountDisk;
use bench_parts::layout::{STORE, geometry, volume_bytes};
use bench_parts::records::{hundred_bytes, record_of};
use shore_model::{Answer, Call};
use shore_types::layout::MAX_POOL_FRAMES;
use shore_types::{Fault, Geometry, Granule, Mode, PageId, Pairs, SessionId};
use shore_world::{Event, Step, World, format};
use std::alloc::Global;

/// The session that is measured.
pub const SESSION: SessionId = SessionId(1);

/// The sessions beside it: as many transactions as there may be.
pub const LAST_SESSION: u32 = 256;

const LOG_BYTES: u64 = 1 << 26;

/// As many as there may be, so that each call is measured with its pages in memory.
pub const FRAMES: usize = MAX_POOL_FRAMES;

/// The devices of the log and of the volume.
pub type Pair = (CountDisk, CountDisk);

/// A manager with its memory. In a box, since each function that moves what is not would be dear to prove: a world has many fields. It is no `Drop`, so that each
/// ends by `into_devices`: one that went out of scope would have a `drop` to prove of every part that it has.
pub struct Manager {
    // What the records that it is handed are made with.
    alloc: Global,
    /// The manager over its two devices.
    pub world: Box<World<CountDisk, CountDisk>>,
}

/// A manager over devices in memory, whose one store has so many pages.
pub fn new_manager(alloc: Global, pages: u32) -> Result<Manager, Fault> {
    let geometry = geometry(alloc, 4_096, pages)?;
    let log = CountDisk::in_memory(alloc, LOG_BYTES)?;
    let volume = CountDisk::in_memory(alloc, volume_bytes(pages))?;
    formatted(alloc, (log, volume), &geometry, FRAMES)
}

/// The manager of a pair of devices that is formatted first. What is written is counted from then on.
pub fn formatted(
    alloc: Global,
    pair: Pair,
    geometry: &Geometry,
    frames: usize,
) -> Result<Manager, Fault>
    requires some { MIN_POOL_FRAMES ≤ frames }
    requires most { frames ≤ MAX_POOL_FRAMES }
{
    let (mut log, mut volume) = pair;
    format(alloc, &mut log, &mut volume, geometry)?;
    opened(alloc, (log.counted_anew(), volume.counted_anew()), frames)
}

/// The manager of a pair of devices, with so many frames for pages.
pub fn opened(alloc: Global, pair: Pair, frames: usize) -> Result<Manager, Fault>
    requires some { MIN_POOL_FRAMES ≤ frames }
    requires most { frames ≤ MAX_POOL_FRAMES }
{
    let (log, volume) = pair;
    match World::open(alloc, log, volume, frames) {
        Ok(world) => match Box::new(alloc, world) {
            Ok(world) => Ok(Manager { alloc, world }),
            Err(refused) => {
                refused.value.into_devices();
                Err(Fault::Memory)
            }
        },
        Err((fault, _, _)) => Err(fault),
    }
}

impl Manager {
    /// The devices of a manager that ends.
    pub fn into_devices(self) -> Pair {
        let Manager { alloc: _, world } = self;
        Box::into_inner(world).into_devices()
    }

    /// What gives it memory.
    pub fn alloc(&self) -> Global {
        self.alloc
    }

    /// The records in place.
    pub fn records(&mut self) -> Result<Pairs, Fault> {
        self.world.dump(self.alloc, STORE)
    }

    /// How many records the log has.
    pub fn logged(&self) -> u64 {
        self.world.last().0
    }

    /// Whether an event was done; else it waits, or there was nothing to do.
    fn is_done(&mut self, event: Event) -> Result<bool, Fault>
        requires { IsServedEvent event }
    {
        match self.world.step(self.alloc, event) {
            Step::Done(_) => Ok(true),
            Step::Refused(fault) => Err(fault),
            Step::Waits(_) | Step::Nothing => Ok(false),
        }
    }

    /// A call of a session. Whether it was answered; else it waits.
    pub fn ask(&mut self, session: SessionId, call: Call) -> Result<bool, Fault>
        requires { IsServed call }
    {
        self.is_done(Event::Call(session, call))
    }

    /// Whether a call of a session was answered.
    pub fn has_answered(&mut self, session: SessionId, call: Call) -> bool
        requires { IsServed call }
    {
        matches!(self.ask(session, call), Ok(true))
    }

    /// An insert of the session that is measured.
    pub fn insert(&mut self) -> Result<bool, Fault> {
        self.insert_of(SESSION)
    }

    /// An insert of a session.
    pub fn insert_of(&mut self, session: SessionId) -> Result<bool, Fault> {
        let call = Call::Insert(STORE, hundred_bytes(self.alloc)?);
        self.ask(session, call)
    }

    /// A session's update of one of the first thousand records.
    pub fn update(&mut self, session: SessionId, round: u64) -> Result<bool, Fault> {
        let call = Call::Update(record_of(round), hundred_bytes(self.alloc)?);
        self.ask(session, call)
    }

    /// The records that a scan of the store shows.
    pub fn scan(&mut self) -> Result<Pairs, Fault> {
        match self
            .world
            .step(self.alloc, Event::Call(SESSION, Call::Scan(STORE)))
        {
            Step::Done(Answer::Scanned(pairs)) => Ok(pairs),
            Step::Refused(fault) => Err(fault),
            _ => Err(Fault::Failed),
        }
    }

    /// How many records the store shows in parts of so many, by one list.
    pub fn scan_in_parts(&mut self, most: usize) -> Result<u64, Fault> {
        let mut list = Pairs::new(self.alloc);
        let mut count = 0u64;
        let mut next = Some(PageId {
            store: STORE,
            page: 0,
        });
        for _ in 0..u64::MAX {
            let Some(first) = next else {
                break;
            };
            next = self.world.dump_part(self.alloc, first, most, &mut list)?;
            count = count.saturating_add(list.len() as u64);
        }
        Ok(count)
    }

    /// Begins a transaction that has the whole store, so that it asks for no lock of a record.
    pub fn begin_alone(&mut self) -> Result<bool, Fault> {
        self.ask(SESSION, Call::Begin)?;
        self.ask(SESSION, Call::Lock(Granule::Store(STORE), Mode::EX))
    }

    /// Makes so many records in a transaction that has the whole store, and commits it.
    pub fn fill(&mut self, records: u64) -> Result<(), Fault> {
        self.begin_alone()?;
        for _ in 0..records {
            self.insert()?;
        }
        self.commit(SESSION)
    }

    /// Commits the transaction of a session, and forces all records of the log.
    pub fn commit(&mut self, session: SessionId) -> Result<(), Fault> {
        self.ask(session, Call::Commit)?;
        self.force()
    }

    /// Makes every record of the log durable, as many at a time as a frame holds.
    pub fn force(&mut self) -> Result<(), Fault> {
        for _ in 0..u64::MAX {
            if !self.is_done(Event::ForceStage)? {
                break;
            }
            self.is_done(Event::ForceOpen)?;
        }
        Ok(())
    }

    /// Writes every dirty page with a durable number back.
    pub fn write_back(&mut self) -> Result<(), Fault> {
        for _ in 0..u64::MAX {
            if !self.is_done(Event::FlushStep)? {
                break;
            }
        }
        Ok(())
    }

    /// A whole checkpoint, with a force of what its steps wait for.
    pub fn checkpoint(&mut self) -> Result<(), Fault> {
        for _ in 0..u64::MAX {
            match self.world.step(self.alloc, Event::CheckpointStep) {
                Step::Done(Answer::Moved) => break,
                Step::Done(_) => {}
                Step::Nothing => self.force()?,
                Step::Refused(fault) => return Err(fault),
                Step::Waits(_) => return Err(Fault::Failed),
            }
        }
        Ok(())
    }

    /// The answer to the session's call that waited. It is the fault `Failed` if the call waits still.
    pub fn resume(&mut self, session: SessionId) -> Result<(), Fault> {
        if self.is_done(Event::Resume(session))? {
            Ok(())
        } else {
            Err(Fault::Failed)
        }
    }
}
