//! Restarts that are cut off.
use super::crashes::{are_in_place, check_crash};
use super::devices::{Calls, Devices, Loss, Manager, NO_FUSES, cut_off};
use super::doubts::check_given_back;
use super::lives::{Ground, Pair, Past};
use super::log_copies::log_of;
use super::trouble::{Trouble, require};
use std::alloc::Global;

// No restart here makes so many writes and syncs of a device.
const MOST_CALLS: u64 = 1000;

/// The restart of what a crash left is cut off at each call of a device, twice in a row, and then made whole. Answers how many were cut off. The first
/// call of each device is left out: it is a sync, before which nothing is written. The last fuses let the restart through.
pub(super) fn check_cuts(
    alloc: Global,
    ground: &Ground,
    past: &Past,
    devices: &Devices,
    loss: Loss,
) -> Result<u64, Trouble> {
    let Pair { ground: wanted, .. } = check_crash(alloc, ground, past, devices.copy(alloc)?)?;
    cut_at_each(alloc, devices, &wanted, loss)
}

fn cut_at_each(
    alloc: Global,
    devices: &Devices,
    wanted: &Ground,
    loss: Loss,
) -> Result<u64, Trouble> {
    let mut cuts = 0u64;
    for calls in 1..MOST_CALLS {
        let of_log = cut_twice(alloc, devices, wanted, log_fuse(calls), loss)?;
        let of_volume = cut_twice(alloc, devices, wanted, volume_fuse(calls), loss)?;
        if of_log == 0 && of_volume == 0 {
            return Ok(cuts);
        }
        cuts = cuts.saturating_add(of_log).saturating_add(of_volume);
    }
    Err(Trouble("a restart makes too many calls"))
}

fn log_fuse(calls: u64) -> Calls {
    Calls {
        log: calls,
        ..NO_FUSES
    }
}

fn volume_fuse(calls: u64) -> Calls {
    Calls {
        volume: calls,
        ..NO_FUSES
    }
}

/// As `check_cuts`, and the restart behind each one that is cut off is cut off at each of its own calls.
pub(super) fn check_deep_cuts(
    alloc: Global,
    ground: &Ground,
    past: &Past,
    devices: &Devices,
    loss: Loss,
) -> Result<u64, Trouble> {
    let Pair { ground: wanted, .. } = check_crash(alloc, ground, past, devices.copy(alloc)?)?;
    let mut cuts = 0u64;
    for calls in 1..MOST_CALLS {
        let of_log = cut_behind(alloc, devices, &wanted, log_fuse(calls), loss)?;
        let of_volume = cut_behind(alloc, devices, &wanted, volume_fuse(calls), loss)?;
        if of_log == 0 && of_volume == 0 {
            return Ok(cuts);
        }
        cuts = cuts.saturating_add(of_log).saturating_add(of_volume);
    }
    Err(Trouble("a restart makes too many calls"))
}

// How many are cut off from a restart on that this fuse cuts off; none if it lets that one through.
fn cut_behind(
    alloc: Global,
    devices: &Devices,
    wanted: &Ground,
    fuses: Calls,
    loss: Loss,
) -> Result<u64, Trouble> {
    let (once, is_cut_off) = devices.copy(alloc)?.open_cut_off(alloc, fuses, loss)?;
    if !is_cut_off {
        return Ok(0);
    }
    let behind = cut_at_each(alloc, &once, wanted, loss)?;
    Ok(behind.saturating_add(1))
}

// How many of two restarts in a row are cut off by this fuse, with a whole one behind them; none if it lets the first one through.
fn cut_twice(
    alloc: Global,
    devices: &Devices,
    wanted: &Ground,
    fuses: Calls,
    loss: Loss,
) -> Result<u64, Trouble> {
    let (once, is_cut_off) = devices.copy(alloc)?.open_cut_off(alloc, fuses, loss)?;
    if !is_cut_off {
        return Ok(0);
    }
    let (twice, is_cut_off_again) = once.open_cut_off(alloc, fuses, loss)?;
    let _left = check_whole(alloc, twice, wanted)?;
    Ok(1 + u64::from(is_cut_off_again))
}

/// A whole restart shows what one that was not cut off does, and leaves the same log.
pub(super) fn check_whole(
    alloc: Global,
    devices: Devices,
    wanted: &Ground,
) -> Result<Devices, Trouble> {
    let mut world = devices.open(alloc)?;
    let judged = require_restarted(alloc, &mut world, wanted);
    let (devices, _) = cut_off(world, NO_FUSES);
    judged?;
    Ok(devices)
}

fn require_restarted(alloc: Global, world: &mut Manager, wanted: &Ground) -> Result<(), Trouble> {
    let found = log_of(alloc, world, &wanted.found)?;
    require(
        world.durable() == world.last()
            && found.len() == wanted.found.len()
            && found.starts_with(&wanted.found),
        "another log behind a restart that was cut off",
    )?;
    let is_shown = are_in_place(alloc, world, &wanted.shown)?;
    require(is_shown, "the dump was refused")?;
    check_given_back(alloc, world, &wanted.found, &wanted.opening)
}
