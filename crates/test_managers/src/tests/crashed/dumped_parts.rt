//! Dumps in parts: those of a store that lie behind one another are its dump.
use super::devices::{Manager, NO_FUSES, cut_off};
use super::doings::{Doing, Turn};
use super::lives::{Ground, Pair, formatted_of, make_each};
use super::short_histories::ShortHistory;
use super::trouble::{Trouble, require};
use shore_types::{Fault, PageId, Pairs, StoreId};
use std::alloc::Global;
use std::test::Fail;

// The store that is dumped has four pages, and the others come to six.
const STORES: [u32; 7] = [4, 1, 1, 1, 1, 1, 1];

const STORE: StoreId = StoreId(0);

const PAGES: u32 = 4;

/// Three records on the first page, two on the second, and one on the third. The shortest log has room for these, for the deletes behind them, and for the undo of both.
const RECORDS: [Turn; 7] = [
    (1, Doing::Begin),
    (1, Doing::InsertOf(0, 0x10, 3_900)),
    (1, Doing::InsertOf(0, 0x11, 100)),
    (1, Doing::InsertOf(0, 0x12, 3_900)),
    (1, Doing::InsertOf(0, 0x20, 4_000)),
    (1, Doing::InsertOf(0, 0x21, 300)),
    (1, Doing::InsertOf(0, 0x30, 3_900)),
];

/// The one amid the first page, and all of the second.
const DELETES: [Turn; 3] = [
    (1, Doing::DeleteOf((0, 0, 1))),
    (1, Doing::DeleteOf((0, 1, 0))),
    (1, Doing::DeleteOf((0, 1, 1))),
];

const A_COMMIT: [Turn; 1] = [(1, Doing::Commit)];

// A part has at least one page, and else ends behind as many records as these.
const MOSTS: [usize; 3] = [0, 1, 1_000];

// How many records a store has, and how many parts are needed for each of these.
type Wanted = (usize, [u32; 3]);

/// The parts of a store with at least so many records each, joined, and how many they are. All are read into this list.
fn joined_parts(
    alloc: Global,
    world: &mut Manager,
    most: usize,
    list: &mut Pairs,
) -> Result<(Pairs, u32), Trouble> {
    let mut joined = Pairs::new(alloc);
    let mut next = Some(PageId {
        store: STORE,
        page: 0,
    });
    let mut parts = 0u32;
    for _ in 0..PAGES {
        let Some(first) = next else {
            break;
        };
        let Ok(behind) = world.dump_part(alloc, first, most, list) else {
            return Err(Trouble("a part was refused"));
        };
        push_all(&mut joined, list)?;
        next = behind;
        parts = parts.saturating_add(1);
    }
    require(next.is_none(), "more parts than pages")?;
    Ok((joined, parts))
}

fn push_all(joined: &mut Pairs, list: &Pairs) -> Result<(), Trouble> {
    for index in 0..list.len() {
        if let Some((id, bytes)) = list.get(index) {
            joined.push(id, bytes)?;
        }
    }
    Ok(())
}

/// The dump has so many records, and the parts are the dump, and so many.
fn check_parts(
    alloc: Global,
    world: &mut Manager,
    list: &mut Pairs,
    wanted: Wanted,
) -> Result<(), Trouble> {
    let (records, counts) = wanted;
    let Ok(dump) = world.dump(alloc, STORE) else {
        return Err(Trouble("a dump was refused"));
    };
    require(dump.len() == records, "not so many records")?;
    for index in 0..MOSTS.len() {
        let (joined, parts) = joined_parts(alloc, world, MOSTS[index], list)?;
        require(joined.equals(&dump), "the parts are not the dump")?;
        require(parts == counts[index], "not so many parts")?;
    }
    Ok(())
}

/// No part begins on a page behind the last one of its store, or in a store that is not there.
fn check_no_page(alloc: Global, world: &mut Manager, list: &mut Pairs) -> Result<(), Trouble> {
    for (store, page) in [(0u32, PAGES), (1, 1), (7, 0)] {
        let first = PageId {
            store: StoreId(store),
            page,
        };
        let answer = world.dump_part(alloc, first, 1, list);
        let is_refused = matches!(answer, Err(Fault::NoPage));
        require(is_refused, "a part of no page")?;
    }
    Ok(())
}

// An empty store, then one with undecided records, some of them deleted, and then with what was committed.
fn check_dumps(alloc: Global, ground: &Ground, world: &mut Manager) -> Result<(), Trouble> {
    let mut history = ShortHistory::over(alloc, &ground.found)?;
    let mut list = Pairs::new(alloc);
    check_parts(alloc, world, &mut list, (0, [4, 1, 1]))?;
    make_each(alloc, ground, world, &mut history, &RECORDS)?;
    check_parts(alloc, world, &mut list, (6, [4, 4, 1]))?;
    make_each(alloc, ground, world, &mut history, &DELETES)?;
    check_parts(alloc, world, &mut list, (3, [4, 3, 1]))?;
    make_each(alloc, ground, world, &mut history, &A_COMMIT)?;
    check_parts(alloc, world, &mut list, (3, [4, 3, 1]))?;
    check_no_page(alloc, world, &mut list)
}

#[test]
fn parts_are_the_dump(rt: HostRuntime) -> Result<(), Fail> {
    let alloc = rt.alloc();
    let Pair { ground, devices } = formatted_of(alloc, &STORES)?;
    let mut world = devices.open(alloc)?;
    let checked = check_dumps(alloc, &ground, &mut world);
    let (_devices, _) = cut_off(world, NO_FUSES);
    checked?;
    Ok(())
}
