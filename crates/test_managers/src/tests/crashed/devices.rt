//! Pairs of devices in memory, and managers that are opened on them.
use super::trouble::Trouble;
use shore_disk::{Disk, FuseDisk, MemDisk, OnceDisk, Pick};
use shore_types::Fault;
use shore_types::layout::MIN_POOL_FRAMES;
use shore_world::World;
use std::alloc::{AllocError, Global};

/// A device that can be made to fail: at one call alone, or from one write or sync on.
type FailingDisk = FuseDisk<OnceDisk<MemDisk>>;

/// A manager of a pair whose devices can be made to fail. It is in a box, since each function that moves what is not would be dear to prove. It is lent, and
/// `cut_off` takes it apart: one that is dropped would be dear too.
pub(super) type Manager = Box<World<FailingDisk, FailingDisk>>;

/// How many writes and syncs of each device pass before it fails, or have passed.
#[derive(Clone, Copy)]
pub(super) struct Calls {
    pub(super) log: u64,
    pub(super) volume: u64,
}

/// Fuses that no run blows, and calls that no run reaches.
pub(super) const NO_FUSES: Calls = Calls {
    log: u64::MAX,
    volume: u64::MAX,
};

/// What a loss of power makes of the writes since the last sync.
#[derive(Clone, Copy, Debug)]
pub(super) enum Loss {
    /// The same of all of them.
    Each(Pick),
    /// In turn, so many bytes are as they were written, and so many as they were before.
    Mixed(usize),
}

/// The ways in which both devices lose power.
pub(super) const LOSSES: [Loss; 6] = [
    Loss::Each(Pick::Old),
    Loss::Each(Pick::New),
    Loss::Each(Pick::Noise),
    Loss::Each(EVERY_OTHER),
    Loss::Mixed(1),
    Loss::Mixed(SECTOR),
];

/// Of the writes of each device every other one stands, the first of them among those.
pub(super) const EVERY_OTHER: Pick = Pick::Mixed(0x5555_5555_5555_5555);

const SECTOR: usize = 512;

/// The log device and the volume.
#[derive(Drop)]
pub(super) struct Devices {
    pub(super) log: MemDisk,
    pub(super) volume: MemDisk,
}

impl Devices {
    /// Both lose power at once, with a pick for each.
    pub(super) fn lose_power(&mut self, of_log: Pick, of_volume: Pick) {
        self.log.crash(of_log);
        self.volume.crash(of_volume);
    }

    /// What both are after they have lost power at once, in the same way.
    pub(super) fn lose(self, alloc: Global, loss: Loss) -> Result<Devices, AllocError> {
        let Devices {
            mut log,
            mut volume,
        } = self;
        match loss {
            Loss::Each(pick) => {
                log.crash(pick);
                volume.crash(pick);
                Ok(Devices { log, volume })
            }
            Loss::Mixed(run) => Ok(Devices {
                log: mixed(alloc, log, run)?,
                volume: mixed(alloc, volume, run)?,
            }),
        }
    }

    /// Devices with the bytes that reads of these give, all of them stable.
    pub(super) fn copy(&self, alloc: Global) -> Result<Devices, AllocError> {
        Ok(Devices {
            log: MemDisk::new(alloc, self.log.bytes().to_vec(alloc)?)?,
            volume: MemDisk::new(alloc, self.volume.bytes().to_vec(alloc)?)?,
        })
    }

    /// Opens a manager on them; they do not fail.
    pub(super) fn open(self, alloc: Global) -> Result<Manager, Trouble> {
        match self.open_failing(alloc, NO_FUSES)? {
            Opened::Manager(manager) => Ok(manager),
            Opened::Refused(_) => Err(Trouble("the open was refused")),
        }
    }

    /// Opens a manager on them, of which each fails at the call of this number alone, counted from 0, reads too.
    pub(super) fn open_failing(self, alloc: Global, at: Calls) -> Result<Opened, Trouble> {
        let log = FuseDisk::new(OnceDisk::new(self.log, at.log), NO_FUSES.log);
        let volume = FuseDisk::new(OnceDisk::new(self.volume, at.volume), NO_FUSES.volume);
        match World::open(alloc, log, volume, MIN_POOL_FRAMES) {
            Ok(world) => match Box::new(alloc, world) {
                Ok(manager) => Ok(Opened::Manager(manager)),
                Err(refused) => {
                    let (_log, _volume) = refused.value.into_devices();
                    Err(Trouble("no memory for a manager"))
                }
            },
            Err((Fault::Device, log, volume)) => Ok(Opened::Refused(inside(log, volume))),
            Err(_) => Err(Trouble("the open is refused for another cause")),
        }
    }

    /// What a loss of power leaves of an open that is cut off as a fuse blows, or of one that came to its end before; and whether it was cut off.
    pub(super) fn open_cut_off(
        self,
        alloc: Global,
        fuses: Calls,
        loss: Loss,
    ) -> Result<(Devices, bool), Trouble> {
        let log = FuseDisk::new(OnceDisk::new(self.log, NO_FUSES.log), fuses.log);
        let volume = FuseDisk::new(OnceDisk::new(self.volume, NO_FUSES.volume), fuses.volume);
        match World::open(alloc, log, volume, MIN_POOL_FRAMES) {
            Ok(world) => {
                let (log, volume) = world.into_devices();
                Ok((inside(log, volume).lose(alloc, loss)?, false))
            }
            Err((fault, log, volume)) => {
                let left = inside(log, volume).lose(alloc, loss)?;
                if matches!(fault, Fault::Device) {
                    Ok((left, true))
                } else {
                    Err(Trouble("the open is refused for another cause"))
                }
            }
        }
    }
}

/// What an open comes to of whose calls one may fail.
pub(super) enum Opened {
    Manager(Manager),
    /// A call failed, and the devices are handed back.
    Refused(Devices),
}

// Every other run of so many bytes loses what was not synced.
fn mixed(alloc: Global, disk: MemDisk, run: usize) -> Result<MemDisk, AllocError> {
    let mut disk = disk;
    let mut bytes = disk.bytes().to_vec(alloc)?;
    disk.crash(Pick::Old);
    let mut left = run;
    let mut is_lost = false;
    for (at, before) in disk.bytes().iter().enumerate() {
        if left == 0 {
            left = run;
            is_lost = !is_lost;
        }
        left = left.saturating_sub(1);
        if is_lost {
            if let Some(byte) = bytes.get_mut(at) {
                *byte = *before;
            }
        }
    }
    MemDisk::new(alloc, bytes)
}

// The devices inside.
fn inside(log: FailingDisk, volume: FailingDisk) -> Devices {
    Devices {
        log: log.into_inner().into_inner(),
        volume: volume.into_inner().into_inner(),
    }
}

/// The devices of a manager that is cut off, and how many writes and syncs each of them has passed of the calls that it was to pass.
pub(super) fn cut_off(world: Manager, fuses: Calls) -> (Devices, Calls) {
    let (log, volume) = Box::into_inner(world).into_devices();
    let passed = Calls {
        log: fuses.log.saturating_sub(log.calls_left()),
        volume: fuses.volume.saturating_sub(volume.calls_left()),
    };
    (inside(log, volume), passed)
}

/// The devices of a manager that is cut off, and whether a call of them has failed.
pub(super) fn cut_off_failing(world: Manager) -> (Devices, bool) {
    let (log, volume) = Box::into_inner(world).into_devices();
    let has_failed = log.failures() > 0 || volume.failures() > 0;
    (inside(log, volume), has_failed)
}
