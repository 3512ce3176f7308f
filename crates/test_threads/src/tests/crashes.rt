//! A stop at each device call, while threads count a record up.
use super::life::{FRAMES, PAGES, add_one, bytes_of, devices, insert, manager, number_of};
use shore_disk::{FuseDisk, MemDisk, Pick};
use shore_model::Call;
use shore_shared::{Client, Job, serve};
use shore_types::{Fault, PageId, Rid, Sequence, StoreId, Version};
use shore_world::World;
use std::alloc::{AllocError, Global};
use std::sync::Wait;
use std::test::Fail;
use std::thread::{Threads, yield_now};
use std::time::Clock;

const THREADS: u32 = 4;

// A life ends by its stop, long before so many rounds.
const MOST_ROUNDS: u32 = 1_000_000;

// So many records of the greatest length fill the pages up to the last, which has one of them.
const LARGE_RECORDS: u32 = 7;

// The calls after which a device stops.
const MOST_CALLS: u64 = 100;

const NEVER: u64 = u64::MAX;

type Fused = FuseDisk<MemDisk>;

// The record is made, and one in the first place of each other page.
#[derive(Drop)]
struct Make;

impl Job for Make {
    type Done = ();

    ghost use Rattle.std.specs.Prelude.{⊤};

    // Nothing is claimed of it.
    ghost says = { λ _ _ _ _ _. ⊤ };

    fn work<C: Client>(&self, alloc: Global, _number: usize, client: &mut C) -> Result<(), Fault> {
        insert(alloc, client)?;
        for _ in 0..LARGE_RECORDS {
            let bytes = Sequence::from_vec(Vec::from_elem(
                alloc,
                0u8,
                Version::One.record_limit(),
            )?);
            client.call(Call::Begin)?;
            client.call(Call::Insert(StoreId(0), bytes))?;
            client.commit_durable()?;
        }
        Ok(())
    }
}

// The record is counted up by each client, and a record of another page is changed with it, until a device has stopped. It comes to the commits that were answered.
#[derive(Drop)]
struct Count;

impl Job for Count {
    type Done = u64;

    ghost use Rattle.std.specs.Prelude.{⊤};

    // Nothing is claimed of it.
    ghost says = { λ _ _ _ _ _. ⊤ };

    fn work<C: Client>(&self, alloc: Global, _number: usize, client: &mut C) -> Result<u64, Fault> {
        let mut answered = 0u64;
        for round in 0..MOST_ROUNDS {
            match count_up(alloc, client, round) {
                Ok(()) => answered = answered.saturating_add(1),
                Err(Fault::LogFull) => {
                    let _ended = client.call(Call::Abort);
                    yield_now();
                }
                Err(_) => {
                    // The manager has failed, and says so from now on.
                    if !matches!(client.call(Call::Begin), Err(Fault::Failed)) {
                        return Err(Fault::NotQuiet);
                    }
                    break;
                }
            }
        }
        Ok(answered)
    }
}

fn count_up(alloc: Global, client: &mut impl Client, round: u32) -> Result<(), Fault> {
    add_one(alloc, client)?;
    let page = PageId {
        store: StoreId(0),
        page: 1 + round % (PAGES - 1),
    };
    let bytes = bytes_of(alloc, round as u64)?;
    client.call(Call::Update(Rid { page, slot: 0 }, bytes))?;
    client.commit_durable()?;
    Ok(())
}

// The bytes of both devices with the record.
fn begun<R: Threads + Wait + Clock + Sync + Send + Copy>(
    rt: R,
    alloc: Global,
) -> Result<(MemDisk, MemDisk), Fault> {
    let (log, volume) = devices(alloc, Version::One.least_log() as usize)?;
    let world = manager(alloc, log, volume)?;
    let (left, served) = serve(rt, alloc, world, 1, &[Make]);
    let devices = left.into_devices();
    served?;
    Ok(devices)
}

// What a loss of power makes of the writes since the last sync.
#[derive(Clone, Copy)]
enum Loss {
    // The same of all of them.
    Each(Pick),
    // One byte is as it was written, the next one as it was before, and so on.
    Mixed,
}

// Every other write stands, the first among those.
const EVERY_OTHER: Pick = Pick::Mixed(0x5555_5555_5555_5555);

// What a device is after it has lost power.
fn lost(alloc: Global, disk: MemDisk, loss: Loss) -> Result<MemDisk, AllocError> {
    let mut disk = disk;
    match loss {
        Loss::Each(pick) => {
            disk.crash(pick);
            Ok(disk)
        }
        Loss::Mixed => mixed(alloc, disk),
    }
}

fn mixed(alloc: Global, disk: MemDisk) -> Result<MemDisk, AllocError> {
    let mut disk = disk;
    let mut bytes = disk.bytes().to_vec(alloc)?;
    disk.crash(Pick::Old);
    let mut is_lost = false;
    for (at, before) in disk.bytes().iter().enumerate() {
        if is_lost {
            if let Some(byte) = bytes.get_mut(at) {
                *byte = *before;
            }
        }
        is_lost = !is_lost;
    }
    MemDisk::new(alloc, bytes)
}

// What a life with fuses leaves.
#[derive(Drop)]
struct Ended {
    // The commits that were answered.
    answered: u64,
    // Whether its fuse went.
    went: bool,
    log: MemDisk,
    volume: MemDisk,
}

// A life with these fuses; None if its open was stopped.
fn ended_with<R: Threads + Wait + Clock + Sync + Send + Copy>(
    rt: R,
    alloc: Global,
    log: &[u8],
    volume: &[u8],
    fuses: (u64, u64),
) -> Result<Option<Ended>, Fault> {
    let log = FuseDisk::new(MemDisk::new(alloc, log.to_vec(alloc)?)?, fuses.0);
    let volume = FuseDisk::new(MemDisk::new(alloc, volume.to_vec(alloc)?)?, fuses.1);
    let world = match World::<Fused, Fused>::open(alloc, log, volume, FRAMES) {
        Ok(world) => world,
        Err((fault, log, volume)) => {
            return if has_stopped(&log, &volume) {
                Ok(None)
            } else {
                Err(fault)
            };
        }
    };
    let (left, served) = serve(rt, alloc, world, THREADS, &[Count]);
    let (log, volume) = left.into_devices();
    let mut answered = 0u64;
    for counts in served? {
        for count in counts {
            answered = answered.saturating_add(count);
        }
    }
    Ok(Some(Ended {
        answered,
        went: has_stopped(&log, &volume),
        log: log.into_inner(),
        volume: volume.into_inner(),
    }))
}

fn has_stopped(log: &Fused, volume: &Fused) -> bool {
    log.calls_left() == 0 || volume.calls_left() == 0
}

// The number of the record after an open.
fn found(alloc: Global, log: MemDisk, volume: MemDisk) -> Result<u64, Fault> {
    let mut world = manager(alloc, log, volume)?;
    let shown = world.dump(alloc, StoreId(0));
    let _devices = world.into_devices();
    let pairs = shown?;
    match pairs.get(0) {
        Some((_, bytes)) => Ok(number_of(bytes)),
        None => Err(Fault::NoRecord),
    }
}

// What an open with these fuses leaves if it is stopped and then loses power; None if it is not stopped.
fn stopped_open(
    alloc: Global,
    log: &[u8],
    volume: &[u8],
    fuses: (u64, u64),
    loss: Loss,
) -> Result<Option<(MemDisk, MemDisk)>, Fault> {
    let log = FuseDisk::new(MemDisk::new(alloc, log.to_vec(alloc)?)?, fuses.0);
    let volume = FuseDisk::new(MemDisk::new(alloc, volume.to_vec(alloc)?)?, fuses.1);
    match World::<Fused, Fused>::open(alloc, log, volume, FRAMES) {
        Ok(world) => {
            let _devices = world.into_devices();
            Ok(None)
        }
        Err((fault, log, volume)) => {
            if !has_stopped(&log, &volume) {
                return Err(fault);
            }
            let log = lost(alloc, log.into_inner(), loss)?;
            let volume = lost(alloc, volume.into_inner(), loss)?;
            Ok(Some((log, volume)))
        }
    }
}

// Whether an open with these fuses is stopped. One after it has to show this number.
fn is_stopped(
    alloc: Global,
    log: &[u8],
    volume: &[u8],
    fuses: (u64, u64),
    loss: Loss,
    wanted: u64,
) -> Result<bool, Fault> {
    let Some((log, volume)) = stopped_open(alloc, log, volume, fuses, loss)? else {
        return Ok(false);
    };
    if found(alloc, log, volume)? == wanted {
        Ok(true)
    } else {
        Err(Fault::NotQuiet)
    }
}

// The open is stopped at each call of either device. Answers how often it was.
fn stop_opens(
    alloc: Global,
    log: &[u8],
    volume: &[u8],
    loss: Loss,
    wanted: u64,
) -> Result<u64, Fault> {
    let mut stopped = 0u64;
    for calls in 0..MOST_CALLS {
        let of_log = is_stopped(alloc, log, volume, (calls, NEVER), loss, wanted)?;
        let of_volume = is_stopped(alloc, log, volume, (NEVER, calls), loss, wanted)?;
        if !of_log && !of_volume {
            return Ok(stopped);
        }
        stopped = stopped.saturating_add(u64::from(of_log) + u64::from(of_volume));
    }
    Err(Fault::NotQuiet)
}

// What an open shows after a life and a loss of power, and how many opens were stopped before that, if they are to be.
fn shown_after(
    alloc: Global,
    life: Ended,
    loss: Loss,
    stops_opens: bool,
) -> Result<(u64, u64), Fault> {
    let Ended { log, volume, .. } = life;
    let log = lost(alloc, log, loss)?;
    let volume = lost(alloc, volume, loss)?;
    let log_copy = MemDisk::new(alloc, log.bytes().to_vec(alloc)?)?;
    let volume_copy = MemDisk::new(alloc, volume.bytes().to_vec(alloc)?)?;
    let number = found(alloc, log_copy, volume_copy)?;
    let stopped = if stops_opens {
        stop_opens(alloc, log.bytes(), volume.bytes(), loss, number)?
    } else {
        0
    };
    Ok((number, stopped))
}

// How many lives, and how many opens after them, ended in a stop.
#[derive(Clone, Copy)]
struct Stopped {
    lives: u64,
    opens: u64,
}

// Each life shows what was answered, and of each thread one commit more at most. After each eighth one the opens are stopped too.
fn lives_shown<R: Threads + Wait + Clock + Sync + Send + Copy>(
    rt: R,
    alloc: Global,
    of_log: bool,
    loss: Loss,
) -> Result<Stopped, Fail> {
    let refused = |fault: Fault| Fail::new(format_args!("{fault}"));
    let (log, volume) = begun(rt, alloc).map_err(refused)?;
    let mut stopped = Stopped { lives: 0, opens: 0 };
    for calls in 0..=MOST_CALLS {
        let fuses = if of_log {
            (calls, NEVER)
        } else {
            (NEVER, calls)
        };
        let life = ended_with(rt, alloc, log.bytes(), volume.bytes(), fuses).map_err(refused)?;
        let Some(life) = life else {
            continue;
        };
        let (answered, went) = (life.answered, life.went);
        let shown = shown_after(alloc, life, loss, calls % 8 == 0);
        let (number, opens) = shown.map_err(refused)?;
        if number < answered || number > answered.saturating_add(THREADS as u64) {
            return Err(Fail::new(format_args!(
                "{number} after {calls} calls, where {answered} were answered"
            )));
        }
        if !went {
            return Err(Fail::new(format_args!("a life of {calls} calls ended before they did")));
        }
        stopped.lives = stopped.lives.saturating_add(1);
        stopped.opens = stopped.opens.saturating_add(opens);
    }
    Ok(stopped)
}

// Tells how many were stopped. The lives that are not counted were stopped amid their open.
fn tell(rt: &HostRuntime, stopped: Stopped) -> Result<(), Fail> {
    let Stopped { lives, opens } = stopped;
    println!(rt; "{lives} lives and {opens} opens ended in a stop")?;
    if lives <= MOST_CALLS / 2 || opens == 0 {
        return Err(Fail::new(format_args!("too few were stopped")));
    }
    Ok(())
}

#[test]
fn crash_in_threads_of_the_log_loses_writes(rt: HostRuntime) -> Result<(), Fail> {
    tell(
        &rt,
        lives_shown(rt, rt.alloc(), true, Loss::Each(Pick::Old))?,
    )
}

#[test]
fn crash_in_threads_of_the_log_keeps_writes(rt: HostRuntime) -> Result<(), Fail> {
    tell(
        &rt,
        lives_shown(rt, rt.alloc(), true, Loss::Each(Pick::New))?,
    )
}

#[test]
fn crash_in_threads_of_the_log_leaves_noise(rt: HostRuntime) -> Result<(), Fail> {
    tell(
        &rt,
        lives_shown(rt, rt.alloc(), true, Loss::Each(Pick::Noise))?,
    )
}

#[test]
fn crash_in_threads_of_the_log_mixes_writes(rt: HostRuntime) -> Result<(), Fail> {
    tell(
        &rt,
        lives_shown(rt, rt.alloc(), true, Loss::Each(EVERY_OTHER))?,
    )
}

#[test]
fn crash_in_threads_of_the_log_mixes_bytes(rt: HostRuntime) -> Result<(), Fail> {
    tell(&rt, lives_shown(rt, rt.alloc(), true, Loss::Mixed)?)
}

#[test]
fn crash_in_threads_of_the_volume_loses_writes(rt: HostRuntime) -> Result<(), Fail> {
    tell(
        &rt,
        lives_shown(rt, rt.alloc(), false, Loss::Each(Pick::Old))?,
    )
}

#[test]
fn crash_in_threads_of_the_volume_keeps_writes(rt: HostRuntime) -> Result<(), Fail> {
    tell(
        &rt,
        lives_shown(rt, rt.alloc(), false, Loss::Each(Pick::New))?,
    )
}

#[test]
fn crash_in_threads_of_the_volume_leaves_noise(rt: HostRuntime) -> Result<(), Fail> {
    tell(
        &rt,
        lives_shown(rt, rt.alloc(), false, Loss::Each(Pick::Noise))?,
    )
}

#[test]
fn crash_in_threads_of_the_volume_mixes_writes(rt: HostRuntime) -> Result<(), Fail> {
    tell(
        &rt,
        lives_shown(rt, rt.alloc(), false, Loss::Each(EVERY_OTHER))?,
    )
}

#[test]
fn crash_in_threads_of_the_volume_mixes_bytes(rt: HostRuntime) -> Result<(), Fail> {
    tell(&rt, lives_shown(rt, rt.alloc(), false, Loss::Mixed)?)
}
