//! Logs as analysis sees them, written out by hand: the tables that they give, and records that do not mean what they have to.
use super::log_lines::entries;
use super::logs::play;
use super::words::Words;
use shore_analysis::{NotAnalysed, Tables, analyse};
use shore_model::{LogRecord, Payload};
use shore_types::{Geometry, Granule, Lsn, PageId, Rid, Sequence, StoreId, TxnId, Version};
use std::alloc::{AllocError, Global};

// The volume has the `geometry` below. A line without a colon adds records, parted by `;`. `run:` begins anew. `gives:` has the
// tables of the list so far: the next transaction's number, how many have not ended and each as `1 active 1 3 3 0`, and the
// pages, each with the first record that changes it. `meant:` says that with these records too each means what it has to; `unmeant:`
// that the last of these is the first that does not. `crowd:` adds so many transactions, each with one Change.
const LOGS: &str = "
run: an_empty_log
gives: 1 0

run: those_that_have_not_ended
1 0 change 0.0.0 - aa; 7 0 change 0.1.0 - bb; 1 1 change 1.0.5 - cc; 3 0 change 0.0.1 - dd; 3 4 commit
gives: 8 2 1 active 1 3 3 0 7 active 2 2 2 0 0.0 1 0.1 2 1.0 3
7 2 compensation 0.1.0 0 -
gives: 8 2 1 active 1 3 3 0 7 rolling_back 2 6 0 0 0.0 1 0.1 2 1.0 3
7 6 end; 1 3 commit
gives: 8 0 0.0 1 0.1 2 1.0 3

run: a_page_that_a_compensation_changes_first
1 0 change 0.1.0 - aa; 1 1 compensation 0.1.0 0 -; 1 2 change 0.0.0 - bb
gives: 2 1 1 active 1 3 3 0 0.0 3 0.1 1

run: changes_behind_a_savepoint
1 0 change 0.0.0 - aa; 1 1 change 0.0.0 aa bb; 1 2 compensation 0.0.0 1 aa; 1 3 change 0.0.0 aa cc
gives: 2 1 1 active 1 4 4 0 0.0 1
meant: 1 4 compensation 0.0.0 1 aa; 1 5 compensation 0.0.0 0 -; 1 6 end
unmeant: 1 4 compensation 0.0.0 3 aa
unmeant: 1 4 compensation 0.0.0 2 aa
unmeant: 1 4 compensation 0.0.0 0 aa
unmeant: 1 4 compensation 0.0.1 1 aa
unmeant: 1 4 compensation 0.0.0 1 bb
unmeant: 1 4 compensation 0.0.0 1 -
unmeant: 2 0 compensation 0.0.0 1 aa
unmeant: 1 4 end
1 4 compensation 0.0.0 1 aa
gives: 2 1 1 rolling_back 1 5 1 0 0.0 1
meant: 1 5 commit
unmeant: 1 5 end
unmeant: 1 5 compensation 0.0.0 1 aa
1 5 compensation 0.0.0 0 -
gives: 2 1 1 rolling_back 1 6 0 0 0.0 1
unmeant: 1 6 compensation 0.0.0 0 -

run: nobody_goes_on_behind_the_end
1 0 change 0.0.0 - aa; 1 1 commit; 2 0 end
gives: 3 0 0.0 1
meant: 3 0 change 0.0.0 aa bb
unmeant: 1 2 change 0.0.0 aa bb
unmeant: 1 0 change 0.0.0 aa bb
unmeant: 1 2 commit
unmeant: 2 3 commit
unmeant: 2 0 end

run: each_record_names_the_one_before_it
1 0 change 0.0.0 - aa; 2 0 change 0.0.1 - bb
meant: 1 1 commit
unmeant: 1 0 commit
unmeant: 1 2 commit
unmeant: 1 3 commit
unmeant: 3 2 commit

run: numbers_of_transactions
unmeant: 0 0 commit
unmeant: 4611686018427387904 0 commit
4611686018427387903 0 commit
gives: 4611686018427387904 0

run: ids_outside_the_geometry
meant: 1 0 change 0.1.2041 - aa
unmeant: 1 0 change 0.1.2042 - aa
unmeant: 1 0 change 0.2.0 - aa
unmeant: 1 0 change 1.1.0 - aa
unmeant: 1 0 change 2.0.0 - aa

run: prepared_transactions
1 0 change 0.0.0 - aa; 1 1 change 0.0.1 - bb; 1 2 compensation 0.0.1 1 -
unmeant: 1 3 rollback_decided
unmeant: 1 3 prepare g1
# A change that was put back counts too.
unmeant: 1 3 prepare g1 0.0.0
unmeant: 1 3 prepare g1 0.0.0 0.0.2
unmeant: 1 3 prepare g1 1
unmeant: 1 3 prepare g1 0.0 2.0
unmeant: 1 3 prepare g1 0.0 0.2
unmeant: 1 3 prepare g1 0.0 0.1.2042
unmeant: 1 3 prepare g1 0.0.1 0.0.0
unmeant: 1 3 prepare g1 0.0.0 0.0.0 0.0.1
unmeant: 1 3 prepare g1 0.0.0 0.0
meant: 1 3 prepare g1 0.0 0.1.2041
meant: 1 3 prepare g1 0
meant: 1 3 prepare g1 v
meant: 2 0 prepare g1
1 3 prepare g1 0.0.0 0.0.1
gives: 2 1 1 prepared 1 4 1 4 0.0 1
meant: 1 4 commit
meant: 1 4 rollback_decided
unmeant: 1 4 change 0.0.0 aa bb
unmeant: 1 4 compensation 0.0.0 0 -
unmeant: 1 4 end
unmeant: 1 4 prepare g2 0.0.0 0.0.1
1 4 rollback_decided
gives: 2 1 1 rolling_back 1 5 1 4 0.0 1
unmeant: 1 5 commit
unmeant: 1 5 end
unmeant: 1 5 change 0.0.0 aa bb
unmeant: 1 5 rollback_decided
unmeant: 1 5 prepare g2 0.0.0 0.0.1
1 5 compensation 0.0.0 0 -
gives: 2 1 1 rolling_back 1 6 0 4 0.0 1
unmeant: 1 6 commit
meant: 1 6 end

run: a_prepared_transaction_with_nothing_to_undo
1 0 prepare g1; 2 0 prepare g1
gives: 3 2 1 prepared 1 1 0 1 2 prepared 2 2 0 2
unmeant: 1 1 end
1 1 rollback_decided
meant: 1 3 end

run: kinds_that_are_not_served
1 0 change 0.0.0 - aa
unmeant: 0 0 checkpoint_begin
unmeant: 0 0 checkpoint_end 1 2 0
unmeant: 0 0 anchor 1 1

run: images_and_other_transactions_are_not_asked_for
1 0 change 0.0.0 aa bb
meant: 2 0 change 0.0.0 cc dd

run: a_crowd
# 256 transactions that have not ended are taken, and no more.
crowd: 256
meant:
unmeant: 257 0 change 0.0.0 - -
9 9 commit; 257 0 change 0.0.0 - -
meant:
unmeant: 258 0 change 0.0.0 - -
";

#[test]
fn analysis(rt: HostRuntime) -> Result<(), AllocError> {
    let mut list = Vec::new(rt.alloc());
    for line in LOGS.lines() {
        assert!(rt; play(rt.alloc(), &mut list, line)?, "{line}");
    }
    Ok(())
}

/// Whether no record is refused, or the last is the first that is.
pub(super) fn is_refused_as(
    verb: &str,
    alloc: Global,
    list: &[LogRecord],
) -> Result<bool, AllocError> {
    let refused = refused_at(alloc, list)?;
    match verb {
        "meant" => Ok(refused == 0),
        "unmeant" => Ok(refused == list.len() as u64),
        _ => Ok(false),
    }
}

/// Store 0 has two pages, store 1 has one.
pub(super) fn geometry(alloc: Global) -> Result<Geometry, AllocError> {
    Ok(Geometry {
        version: Version::One,
        pair: 1,
        max_locks: 16,
        stores: Sequence::from_vec(vec![in alloc; 2u32, 1]?),
    })
}

// The number of the record that is refused, 0 if none is.
fn refused_at(alloc: Global, list: &[LogRecord]) -> Result<u64, AllocError> {
    match analyse(alloc, &geometry(alloc)?, list) {
        Ok(_) => Ok(0),
        Err(refusal) => number_in(refusal),
    }
}

/// The number of the record that is refused.
pub(super) fn number_in(refusal: NotAnalysed) -> Result<u64, AllocError> {
    match refusal {
        NotAnalysed::Unlawful(number) => Ok(number.0),
        NotAnalysed::Memory => Err(AllocError),
    }
}

/// Whether the tables of a list are as told.
pub(super) fn gives(
    alloc: Global,
    list: &[LogRecord],
    words: &mut Words,
) -> Result<bool, AllocError> {
    match analyse(alloc, &geometry(alloc)?, list) {
        Ok(tables) => Ok(are_tables(alloc, &tables, words)),
        Err(_) => Ok(false),
    }
}

fn are_tables(alloc: Global, tables: &Tables, words: &mut Words) -> bool {
    if tables.next != words.txn() || tables.txns != entries(alloc, words) {
        return false;
    }
    for dirty in tables.dirty.as_slice() {
        if words.granule() != Granule::Page(dirty.page) || words.lsn() != dirty.recovery {
            return false;
        }
    }
    words.end()
}

/// Adds so many transactions that have not ended.
pub(super) fn add_crowd(list: &mut Vec<LogRecord>, words: &mut Words) -> Result<bool, AllocError> {
    let count = words.number();
    for number in 0..count {
        list.push(LogRecord {
            txn: TxnId(number + 1),
            previous: Lsn(0),
            payload: change(),
        })?;
    }
    Ok(words.end())
}

fn change() -> Payload {
    let page = PageId {
        store: StoreId(0),
        page: 0,
    };
    Payload::Change {
        id: Rid { page, slot: 0 },
        before: None,
        after: None,
    }
}
