//! Locks: the tables of modes, harmony along paths, and who waits for whom.
use super::modes::mode_of;
use super::steps::{Step, add, is_remark};
use super::words::Words;
use shore_model::{Hold, Request};
use shore_types::Mode;
use slow_locks::holds::{harmony, stand_together, well_rooted};
use slow_locks::requests::{are_requests, held_by_all, is_cycle, placed_last, queue_at, waits_for};
use std::alloc::{AllocError, Global};

// A request reads `1 IX - 0`: a transaction, what it holds, what it wants, and the granule. A line without a colon adds some,
// parted by `;`. `run:` begins anew, and `placed:` adds a request as one that has begun to wait. `harmony:` and `discord:`,
// `together:` and `apart:`, `rooted:` and `unrooted:`, `requests:` and `doubled:` judge the list with these requests too.
const LOCKS: &str = "
run: conversion_to_six
# 1 holds SIX and 2 IS on the store, below IX and IS on the volume; 3 wants IX on the store.
1 IX - v; 2 IS - v; 3 IX - v; 3 - IX 0; 1 SIX - 0; 2 IS - 0
rooted:
harmony:
apart: 4 IX - 0
unrooted: 4 IX - 0
queue: 0 1 2 3
waits: 3 1
free: 3 2

run: a_reader_below_a_writer
# The modes meet on no granule, and yet are not in harmony.
1 EX - 0
together: 2 SH - 0.0.0
discord: 2 SH - 0.0.0
discord: 2 UD - 0.0.0
discord: 2 SH - v
harmony: 2 SH - 1.0.0
harmony: 1 SH - 0.0.0

run: a_six_reads
discord: 1 SIX - 0; 2 EX - 0.0.0
harmony: 1 IX - 0; 2 EX - 0.0.0

run: update_mode_refuses_new_readers
2 SH - 0.0.0; 3 UD - 0.0.0; 4 - SH 0.0.0
waits: 4 3
free: 4 2
free: 3 2

run: conversion_deadlock
2 SH EX 0.0.0; 3 SH EX 0.0.0
cycle: 3 2
no cycle: 3
no cycle:

run: one_got_the_record
2 SH EX 0.0.0; 3 SH - 0.0.0
no cycle: 3 2

run: cycle_through_a_queue
# 2 waits behind 3, whom it is not refused by.
1 SH - 0.0; 2 EX - 0.1; 3 - EX 0.0; 2 - SH 0.0; 1 - SH 0.1
cycle: 3 1 2
no cycle: 3 2 1
free: 2 1
free: 3 2

run: conversion_stands_before_new_waiters
1 SH - 0.0; 2 SH - 0.0; 3 - EX 0.0
doubled: 1 SH SIX 0.0
placed: 1 SH SIX 0.0
requests:
order: 2 3 1
queue: 0.0 2 1 3
waits: 3 1
free: 1 3
";

impl Step for Request {
    fn read(_: Global, words: &mut Words) -> Request {
        Request {
            txn: words.txn(),
            held: mode_or_none(words),
            wanted: mode_or_none(words),
            granule: words.granule(),
        }
    }
}

fn mode_or_none(words: &mut Words) -> Option<Mode> {
    let word = words.word();
    let mode = mode_of(word);
    words.require(mode.is_some() || word == "-");
    mode
}

#[test]
fn locks(rt: HostRuntime) -> Result<(), AllocError> {
    let mut requests = Vec::new(rt.alloc());
    for line in LOCKS.lines() {
        assert!(rt; play(rt.alloc(), &mut requests, line)?, "{line}");
    }
    Ok(())
}

fn play(alloc: Global, requests: &mut Vec<Request>, line: &str) -> Result<bool, AllocError> {
    if is_remark(line) {
        return Ok(true);
    }
    match line.split_once(':') {
        Some((verb, rest)) => judge(alloc, requests, verb, rest),
        None => add(alloc, requests, line),
    }
}

fn judge(
    alloc: Global,
    requests: &mut Vec<Request>,
    verb: &str,
    rest: &str,
) -> Result<bool, AllocError> {
    let mut words = Words::of(rest);
    match verb {
        "run" => {
            requests.clear();
            Ok(true)
        }
        "placed" => place(alloc, requests, rest),
        "order" => Ok(are_in_order(requests, &mut words)),
        "queue" => is_queue(alloc, requests, &mut words),
        "waits" | "free" => waits(alloc, requests, &mut words, verb == "waits"),
        "cycle" | "no cycle" => closes(alloc, requests, &mut words, verb == "cycle"),
        _ => judge_with(alloc, requests, verb, rest),
    }
}

fn place(alloc: Global, requests: &mut Vec<Request>, rest: &str) -> Result<bool, AllocError> {
    let is_right = add(alloc, requests, rest)?;
    let Some((placed, before)) = requests.split_last() else {
        return Ok(false);
    };
    let after = placed_last(alloc, before, *placed)?;
    *requests = after.into_vec();
    Ok(is_right)
}

fn are_in_order(requests: &[Request], words: &mut Words) -> bool {
    for request in requests {
        if words.txn() != request.txn {
            return false;
        }
    }
    words.end()
}

fn is_queue(alloc: Global, requests: &[Request], words: &mut Words) -> Result<bool, AllocError> {
    let queue = queue_at(alloc, requests, words.granule())?;
    Ok(are_in_order(queue.as_slice(), words))
}

fn waits(
    alloc: Global,
    requests: &[Request],
    words: &mut Words,
    wanted: bool,
) -> Result<bool, AllocError> {
    let waiter = words.txn();
    let other = words.txn();
    Ok(words.end() && waits_for(alloc, requests, waiter, other)? == wanted)
}

fn closes(
    alloc: Global,
    requests: &[Request],
    words: &mut Words,
    wanted: bool,
) -> Result<bool, AllocError> {
    let members = words.txns(alloc);
    Ok(words.end() && is_cycle(alloc, requests, members.as_slice())? == wanted)
}

// Judges the list with these requests too, which are then taken back.
fn judge_with(
    alloc: Global,
    requests: &mut Vec<Request>,
    verb: &str,
    rest: &str,
) -> Result<bool, AllocError> {
    let length = requests.len();
    let is_right = add(alloc, requests, rest)?;
    let held = held_by_all(alloc, requests)?;
    let is_right = is_right && is_as(verb, requests, held.as_slice());
    requests.truncate(length);
    Ok(is_right)
}

fn is_as(verb: &str, requests: &[Request], held: &[Hold]) -> bool {
    match verb {
        "harmony" => harmony(held),
        "discord" => !harmony(held),
        "together" => stand_together(held),
        "apart" => !stand_together(held),
        "rooted" => well_rooted(held),
        "unrooted" => !well_rooted(held),
        "requests" => are_requests(requests),
        "doubled" => !are_requests(requests),
        _ => false,
    }
}
