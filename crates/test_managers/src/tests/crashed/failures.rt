//! Runs of which one call of a device fails, a read or a write or a sync, and no other.
use super::crashes::check_crash;
use super::devices::{Calls, Devices, Loss, NO_FUSES, Opened, cut_off_failing};
use super::doings::Turn;
use super::lives::{Ground, Pair, Past, formatted, make_each, past_of};
use super::short_histories::ShortHistory;
use super::trouble::{Trouble, require};
use shore_types::Lsn;
use std::alloc::Global;

// No run here makes so many calls of a device.
const MOST_CALLS: u64 = 1000;

/// A manager of a formatted pair is opened and given these events, once for each call of either device, with that call failing and no other. It is told, once. It loses
/// power then, and the next open has to show what was acknowledged. Answers how many runs met their failure.
pub(super) fn check_failures(alloc: Global, turns: &[Turn], loss: Loss) -> Result<u64, Trouble> {
    let mut met = 0u64;
    for call in 0..MOST_CALLS {
        let log = Calls {
            log: call,
            ..NO_FUSES
        };
        let volume = Calls {
            volume: call,
            ..NO_FUSES
        };
        let of_log = fail_once(alloc, turns, log, loss)?;
        let of_volume = fail_once(alloc, turns, volume, loss)?;
        if !of_log && !of_volume {
            return Ok(met);
        }
        met = met.saturating_add(u64::from(of_log) + u64::from(of_volume));
    }
    Err(Trouble("a run makes too many calls"))
}

// Whether a run meets the failure. What it leaves is opened again.
fn fail_once(alloc: Global, turns: &[Turn], at: Calls, loss: Loss) -> Result<bool, Trouble> {
    let Pair { ground, devices } = formatted(alloc)?;
    let Run {
        past,
        devices,
        has_failed,
    } = make_run(alloc, &ground, devices, turns, at)?;
    let devices = devices.lose(alloc, loss)?;
    let _left = check_crash(alloc, &ground, &past, devices)?;
    Ok(has_failed)
}

// What a run leaves.
struct Run {
    past: Past,
    devices: Devices,
    has_failed: bool,
}

fn make_run(
    alloc: Global,
    ground: &Ground,
    devices: Devices,
    turns: &[Turn],
    at: Calls,
) -> Result<Run, Trouble> {
    let mut history = ShortHistory::over(alloc, &ground.found)?;
    let mut world = match devices.open_failing(alloc, at)? {
        Opened::Manager(world) => world,
        Opened::Refused(devices) => {
            let past = past_of(alloc, ground, history, Lsn(0))?;
            return Ok(Run {
                past,
                devices,
                has_failed: true,
            });
        }
    };
    let made = make_each(alloc, ground, &mut world, &mut history, turns);
    let durable = world.durable();
    let past = past_of(alloc, ground, history, durable);
    let (devices, has_failed) = cut_off_failing(world);
    made?;
    let past = past?;
    require(
        past.history.has_failed() == has_failed,
        "a failure that nobody is told",
    )?;
    Ok(Run {
        past,
        devices,
        has_failed,
    })
}
