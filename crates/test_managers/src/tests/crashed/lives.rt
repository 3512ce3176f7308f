//! A manager from its open to the loss of power.
use super::devices::{Calls, Devices, Manager, cut_off};
use super::doings::Turn;
use super::log_copies::copy_of_log;
use super::short_histories::ShortHistory;
use super::trouble::{Trouble, require};
use shore_disk::MemDisk;
use shore_model::{LogRecord, Opening, RidMap};
use shore_types::{Bytes, Geometry, Lsn, Sequence, SessionId, Version};
use shore_world::format;
use slow_histories::decisions::acknowledged;
use std::alloc::Global;

/// What a pair told as a manager was opened on it.
#[derive(Drop)]
pub(super) struct Ground {
    pub(super) opening: Opening,
    /// The records in place: with what those in doubt have written.
    pub(super) shown: RidMap<Bytes>,
    /// The log at the end of the open.
    pub(super) found: Vec<LogRecord>,
    /// How many of its records were there before the restart, which read those from the tail on; those behind are its own.
    pub(super) read: usize,
}

/// A pair that no manager has open, and what it told at its last open.
#[derive(Drop)]
pub(super) struct Pair {
    pub(super) ground: Ground,
    pub(super) devices: Devices,
}

/// A log device of the least length and a volume of a store of two pages and eight of one, formatted: more pages than a manager has frames.
pub(super) fn formatted(alloc: Global) -> Result<Pair, Trouble> {
    formatted_of(alloc, &[2, 1, 1, 1, 1, 1, 1, 1, 1])
}

/// Such a pair with stores of so many pages, ten in all.
pub(super) fn formatted_of(alloc: Global, stores: &[u32]) -> Result<Pair, Trouble> {
    let geometry = Geometry {
        version: Version::One,
        pair: 1,
        max_locks: 1024,
        stores: Sequence::from_vec(Vec::from_slice(alloc, stores)?),
    };
    let mut devices = empty(alloc)?;
    if format(alloc, &mut devices.log, &mut devices.volume, &geometry).is_err() {
        return Err(Trouble("the format was refused"));
    }
    let opening = Opening {
        slots: Version::One.slot_limit(),
        records: RidMap::new(alloc),
        in_doubt: Sequence::new(alloc),
    };
    let ground = Ground {
        opening,
        shown: RidMap::new(alloc),
        found: Vec::new(alloc),
        read: 0,
    };
    Ok(Pair { ground, devices })
}

// Devices of zeros.
fn empty(alloc: Global) -> Result<Devices, Trouble> {
    Ok(Devices {
        log: MemDisk::new(alloc, Vec::from_elem(alloc, 0u8, 135168)?)?,
        volume: MemDisk::new(alloc, Vec::from_elem(alloc, 0u8, 352256)?)?,
    })
}

/// What a manager has answered and logged.
#[derive(Drop)]
pub(super) struct Past {
    pub(super) history: ShortHistory,
    /// How many commits were acknowledged.
    pub(super) acknowledged: usize,
    /// The records of the log, forced or not.
    pub(super) list: Vec<LogRecord>,
    pub(super) durable: usize,
}

/// The past of a manager, of which so many records are durable. What it has answered is a history, and a sound one.
pub(super) fn past_of(
    alloc: Global,
    ground: &Ground,
    history: ShortHistory,
    durable: Lsn,
) -> Result<Past, Trouble> {
    history.check(alloc, &ground.opening)?;
    let acknowledged = acknowledged(alloc, history.entries())?.as_slice().len();
    let list = copy_of_log(alloc, history.log())?;
    Ok(Past {
        history,
        acknowledged,
        list,
        durable: durable.0 as usize,
    })
}

/// What a manager leaves when it is cut off.
#[derive(Drop)]
pub(super) struct Life {
    pub(super) past: Past,
    pub(super) devices: Devices,
    /// How many writes and syncs passed in the events behind the fuses.
    pub(super) passed: Calls,
}

/// Opens a manager on these devices, makes the first events, and then the others behind fuses.
pub(super) fn live(
    alloc: Global,
    ground: &Ground,
    devices: Devices,
    before: &[Turn],
    turns: &[Turn],
    fuses: Calls,
) -> Result<Life, Trouble> {
    let mut world = devices.open(alloc)?;
    let past = make_behind(alloc, ground, &mut world, before, turns, fuses);
    let (devices, passed) = cut_off(world, fuses);
    Ok(Life {
        past: past?,
        devices,
        passed,
    })
}

// Makes the first events, sets the fuses, and makes the others.
fn make_behind(
    alloc: Global,
    ground: &Ground,
    world: &mut Manager,
    before: &[Turn],
    turns: &[Turn],
    fuses: Calls,
) -> Result<Past, Trouble> {
    let mut history = ShortHistory::over(alloc, &ground.found)?;
    make_each(alloc, ground, world, &mut history, before)?;
    world.set_log_fuse(fuses.log);
    world.set_volume_fuse(fuses.volume);
    make_each(alloc, ground, world, &mut history, turns)?;
    past_of(alloc, ground, history, world.durable())
}

/// How many records the log has.
pub(super) fn logged(world: &Manager) -> u64 {
    world.last().0
}

/// Makes the events, and notes what each comes to. Behind the one that is told of a failure the manager has failed, and before it has not.
pub(super) fn make_each(
    alloc: Global,
    ground: &Ground,
    world: &mut Manager,
    history: &mut ShortHistory,
    turns: &[Turn],
) -> Result<(), Trouble> {
    for turn in turns {
        let (number, doing) = *turn;
        let session = SessionId(number);
        let waited = world.waiting(alloc)?.len();
        let event = doing.event(alloc, session, logged(world))?;
        let step = world.step(alloc, event);
        let waiting = world.waiting(alloc)?;
        history.note_appended(alloc, waiting.get(waited..).unwrap_or(&[]))?;
        history.note_tickets(doing, world, &step)?;
        history.note(alloc, &ground.opening, session, doing, step)?;
        let is_told = world.has_failed() == history.has_failed();
        require(is_told, "a failure that is not told")?;
    }
    Ok(())
}
