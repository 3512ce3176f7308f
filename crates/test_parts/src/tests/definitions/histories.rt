//! Histories: which are sound, what they show, and what of them is kept.
use super::steps::{Step, add, is_remark};
use super::words::Words;
use shore_model::{Decision, Entry, InDoubt, Opening, RidMap};
use shore_types::{GlobalId, Sequence, TxnId, Version};
use slow_histories::decisions::{in_doubt, is_kept};
use slow_histories::replays::shown_records;
use slow_histories::sessions::is_history;
use slow_histories::turns::is_sound;
use std::alloc::{AllocError, Global};

// A line without a colon adds entries, parted by `;`. `run:` begins anew, `record:` and `doubt:` say what the open found.
// `sound:` and `unsound:` say that all so far is a history, with these entries too, and whether its answers are right; `no
// history:` that it is none with the last of these entries, and is one without it. `kept:` and `lost:` say whether a crash may keep
// just these decisions, `shown:` which records they come to, and `in doubt:` whom they leave in doubt.
const HISTORIES: &str = "
run: commit_survives_crash
1 1 begin -> began 1; 1 1 insert 0 aa -> at 0.0.0; decided commit 1; 1 1 commit -> ticket 2; asked 2 yes
sound:
kept: commit 1
shown: commit 1 = 0.0.0 aa
lost:
shown:

run: lazy_commit
# Nothing is acknowledged by a ticket alone, nor by an ask of another number. The reader's commit is never kept without the writer's.
1 1 begin -> began 1; 1 1 insert 0 aa -> at 0.0.0; decided commit 1; 1 1 commit -> ticket 2
2 2 begin -> began 2; 2 2 get 0.0.0 -> got aa; decided commit 2; 2 2 commit -> ticket 3; asked 2 no; asked 1 yes; asked 9 yes
sound:
kept:
kept: commit 1
kept: commit 1; commit 2
lost: commit 2
asked 2 yes
sound:
lost:
kept: commit 1
kept: commit 1; commit 2
asked 3 yes
lost: commit 1
kept: commit 1; commit 2

run: an_ask_before_its_commit
1 1 begin -> began 1; asked 1 yes; decided commit 1; 1 1 commit -> ticket 1
kept:
kept: commit 1

run: locks_go_before_the_record
# Who reads what another has written commits first.
1 1 begin -> began 1; 1 1 insert 0 aa -> at 0.0.0; 2 2 begin -> began 2; 2 2 get 0.0.0 -> got aa
unsound: decided commit 2; 2 2 commit -> ticket 2; decided commit 1; 1 1 commit -> ticket 3
sound: decided commit 1; 1 1 commit -> ticket 2; decided commit 2; 2 2 commit -> ticket 3

run: a_reader_s_commit_has_no_record
1 1 begin -> began 1; 1 1 commit -> ticket 1; asked 1 yes
lost:
lost: commit 1

run: a_committed_transaction_is_left
1 1 begin -> began 1; decided commit 1; 1 1 commit -> ticket 1
sound: 1 0 get 0.0.0 -> refused NoTransaction
no history: 1 1 get 0.0.0 -> refused NoRecord
no history: 1 1 commit -> ticket 2

run: failed_force
# The force of the second commit failed: after the crash its record is there or not. What was acknowledged is kept.
1 1 begin -> began 1; 1 1 insert 0 aa -> at 0.0.0; decided commit 1; 1 1 commit -> ticket 2; asked 2 yes
1 2 begin -> began 2; 1 2 insert 0 bb -> at 0.0.1; decided commit 2; 1 2 commit -> ticket 4; 1 0 begin -> refused Failed; asked 4 no
sound:
kept: commit 1; commit 2
shown: commit 1; commit 2 = 0.0.0 aa 0.0.1 bb
kept: commit 1
shown: commit 1 = 0.0.0 aa
lost:
lost: commit 2
shown: commit 2 = 0.0.1 bb

run: nothing_is_kept_without_what_was_decided_before_it
1 1 begin -> began 1; 2 2 begin -> began 2; decided commit 1; decided commit 2
kept: commit 1; commit 2
kept: commit 1
kept:
lost: commit 2
lost: commit 2; commit 1
lost: commit 1; commit 2; commit 2

run: waiter_gets_the_old_bytes
1 1 begin -> began 1; 1 1 insert 0 aa -> at 0.0.0; decided commit 1; 1 1 commit -> ticket 2
1 2 begin -> began 2; 1 2 update 0.0.0 bb -> updated; 2 3 begin -> began 3; 1 2 abort -> aborted
sound: 2 3 get 0.0.0 -> got aa; decided commit 3
unsound: 2 3 get 0.0.0 -> got bb; decided commit 3

run: rollback_to_a_savepoint
1 1 begin -> began 1; 1 1 insert 0 aa -> at 0.0.0; 1 1 savepoint -> saved 0; 1 1 update 0.0.0 bb -> updated
1 1 delete 0.0.0 -> deleted; 1 1 get 0.0.0 -> refused NoRecord; 1 1 back 1 -> refused NoSavepoint; 1 1 back 0 -> went_back
1 1 get 0.0.0 -> got aa; decided commit 1; 1 1 commit -> ticket 6
sound:
shown: commit 1 = 0.0.0 aa

run: answer_at_the_prepare
# Transaction 2 gets a record and prepares; then 3 updates it and commits. The answer is right at the prepare, no longer at the commit.
1 1 begin -> began 1; 1 1 insert 0 aa -> at 0.0.0; decided commit 1; 1 1 commit -> ticket 2; 1 2 begin -> began 2
unsound: 1 2 get 0.0.0 -> got dd; decided prepare 2 g3; \
    2 3 begin -> began 3; 2 3 update 0.0.0 dd -> updated; decided commit 3; decided commit 2
1 2 get 0.0.0 -> got aa; 1 2 insert 0 cc -> at 0.0.1; decided prepare 2 g3; 1 2 prepare g3 -> prepared
2 3 begin -> began 3; 2 3 update 0.0.0 dd -> updated; decided commit 3; 2 3 commit -> ticket 6
decided commit 2; 3 2 resolve commit g3 -> resolved
sound:
kept: commit 1; prepare 2 g3; commit 3; commit 2
shown: commit 1; prepare 2 g3; commit 3; commit 2 = 0.0.0 dd 0.0.1 cc
in doubt: commit 1; prepare 2 g3; commit 3; commit 2 =
lost: commit 1; prepare 2 g3; commit 3
shown: commit 1; prepare 2 g3; commit 3 = 0.0.0 dd 0.0.1 cc
in doubt: commit 1; prepare 2 g3; commit 3 = 2 g3

run: prepared_survives_crash
1 1 begin -> began 1; 1 1 insert 0 aa -> at 0.0.0; decided prepare 1 g1; 1 1 prepare g1 -> prepared; 1 1 commit -> refused IsPrepared
sound:
kept: prepare 1 g1
shown: prepare 1 g1 = 0.0.0 aa
in doubt: prepare 1 g1 = 1 g1
lost:
shown:
in doubt:

run: prepared_is_resolved
# After the crash another session resolves it while transaction 2 waits, which then gets what it wrote.
doubt: 1 0.0.0 g1 aa
2 2 begin -> began 2
unsound: 2 2 get 0.0.0 -> got aa; decided commit 2; 2 2 commit -> ticket 3; decided roll_back 1
decided commit 1; 3 1 resolve commit g1 -> resolved; 2 2 get 0.0.0 -> got aa; decided commit 2; 2 2 commit -> ticket 4
sound:
lost:
shown: = 0.0.0 aa
in doubt: = 1 g1
lost: roll_back 1
shown: roll_back 1 =
in doubt: roll_back 1 =

run: a_resolve_to_abort_is_acknowledged
doubt: 1 0.0.0 g1 aa
decided roll_back 1; 2 1 resolve abort g1 -> resolved
kept: roll_back 1
lost:

run: scan_misses_an_insert
record: 0.0.0 aa
1 2 begin -> began 2; 2 3 begin -> began 3
unsound: 1 2 scan 0 -> scanned 1 0.0.0 aa; 2 3 insert 0 aa -> at 0.0.1; decided commit 3; decided commit 2
sound: 1 2 scan 0 -> scanned 2 0.0.0 aa 0.0.1 aa; 2 3 insert 0 aa -> at 0.0.1; decided commit 3; decided commit 2
unsound: 1 2 scan 0 -> scanned 2 0.0.1 aa 0.0.0 aa; 2 3 insert 0 aa -> at 0.0.1; decided commit 3; decided commit 2

run: slot_read_as_absent
record: 0.0.0 aa
1 2 begin -> began 2; 2 3 begin -> began 3; 1 2 get 0.0.1 -> refused NoRecord
sound: decided commit 2; 2 3 insert 0 bb -> at 0.0.1; decided commit 3
unsound: 2 3 insert 0 bb -> at 0.0.1; decided commit 3; decided commit 2

run: a_record_that_is_there_is_read_as_absent
# Without its commit the transaction has no turn.
record: 0.0.0 aa
1 2 begin -> began 2
sound: 1 2 get 0.0.2042 -> refused NoRecord; decided commit 2
sound: 1 2 get 0.0.0 -> refused NoRecord
unsound: 1 2 get 0.0.0 -> refused NoRecord; decided commit 2

run: what_is_there_and_what_is_absent
record: 0.0.0 aa
1 1 begin -> began 1
sound: 1 1 insert 0 bb -> at 0.0.1; decided commit 1
unsound: 1 1 insert 0 bb -> at 0.0.0; decided commit 1
unsound: 1 1 insert 0 bb -> at 1.0.1; decided commit 1
sound: 1 1 update 0.0.0 bb -> updated; decided commit 1
unsound: 1 1 update 0.0.1 bb -> updated; decided commit 1
sound: 1 1 delete 0.0.0 -> deleted; decided commit 1
unsound: 1 1 delete 0.0.1 -> deleted; decided commit 1
sound: 1 1 get 0.0.0 -> got aa; decided commit 1
unsound: 1 1 get 0.0.0 -> got bb; decided commit 1
sound: 1 1 getu 0.0.0 -> got aa; decided commit 1
unsound: 1 1 getu 0.0.0 -> got bb; decided commit 1
unsound: 1 1 getu 0.0.1 -> got aa; decided commit 1

run: savepoints_count_from_0
1 1 begin -> began 1
unsound: 1 1 savepoint -> saved 1; decided commit 1
1 1 savepoint -> saved 0
sound: decided commit 1
sound: 1 1 back 0 -> went_back; decided commit 1
unsound: 1 1 back 1 -> went_back; decided commit 1

run: back_keeps_its_own_savepoint_and_drops_later_ones
1 1 begin -> began 1; 1 1 savepoint -> saved 0; 1 1 savepoint -> saved 1; 1 1 back 0 -> went_back
sound: 1 1 back 0 -> went_back; decided commit 1
sound: 1 1 savepoint -> saved 1; decided commit 1
unsound: 1 1 savepoint -> saved 0; decided commit 1
unsound: 1 1 savepoint -> saved 2; decided commit 1
unsound: 1 1 back 1 -> went_back; decided commit 1

run: commits_count_in_their_order
1 1 begin -> began 1; 1 1 insert 0 aa -> at 0.0.0; 1 1 update 0.0.0 bb -> updated; decided commit 1; 1 1 commit -> ticket 3
1 2 begin -> began 2; 1 2 update 0.0.0 cc -> updated; decided commit 2; 1 2 commit -> ticket 5
sound:
shown: commit 1; commit 2 = 0.0.0 cc
shown: commit 2; commit 1 = 0.0.0 bb

run: a_prepare_lays_nothing
1 1 begin -> began 1; 1 1 insert 0 aa -> at 0.0.0; decided prepare 1 g1; 1 1 prepare g1 -> prepared
2 2 begin -> began 2
sound: 2 2 get 0.0.0 -> refused NoRecord; decided commit 2
unsound: 2 2 get 0.0.0 -> got aa; decided commit 2
2 2 insert 0 bb -> at 0.0.0; decided commit 2; 2 2 commit -> ticket 4
shown: prepare 1 g1; roll_back 1 =
shown: prepare 1 g1; commit 2; commit 1 = 0.0.0 aa

run: calls_belong_to_their_sessions
doubt: 1 0.0.0 g1 aa
no history: 1 1 begin -> began 1
1 2 begin -> began 2; decided commit 2; 1 2 commit -> ticket 3; 1 0 savepoint -> refused NoTransaction
sound:
no history: 1 2 get 0.0.0 -> got bb

run: numbers_of_transactions_rise
no history: 1 0 begin -> began 0
1 2 begin -> began 2; 1 2 abort -> aborted
sound: 1 3 begin -> began 3
no history: 1 2 begin -> began 2
no history: 1 1 begin -> began 1
no history: 2 3 begin -> began 4

run: an_aborted_transaction_is_left
1 1 begin -> began 1; 1 1 abort -> aborted
sound: 1 0 get 0.0.0 -> refused NoTransaction
no history: 1 1 get 0.0.0 -> got aa

run: a_prepared_transaction_is_left_at_its_decision
1 1 begin -> began 1
no history: decided roll_back 1
decided prepare 1 g1; 1 1 prepare g1 -> prepared
no history: 1 0 commit -> refused NoTransaction
sound: decided roll_back 1
decided commit 1
sound: 1 0 commit -> refused NoTransaction
no history: 1 1 commit -> refused IsPrepared

run: global_id_is_used_again
# It names the transaction that was prepared last.
doubt: 1 0.0.0 g1 aa
decided roll_back 1; 1 2 begin -> began 2; decided prepare 2 g1; 1 2 prepare g1 -> prepared; decided commit 2
sound: 1 2 resolve commit g1 -> resolved
no history: 1 1 resolve commit g1 -> resolved
";

/// What an open found, and what happened since.
#[derive(Drop)]
struct Run {
    opening: Opening,
    entries: Vec<Entry>,
}

fn new_run(alloc: Global) -> Run {
    Run {
        opening: Opening {
            slots: Version::One.slot_limit(),
            records: RidMap::new(alloc),
            in_doubt: Sequence::new(alloc),
        },
        entries: Vec::new(alloc),
    }
}

#[test]
fn histories(rt: HostRuntime) -> Result<(), AllocError> {
    let mut run = new_run(rt.alloc());
    for line in HISTORIES.lines() {
        assert!(rt; play(rt.alloc(), &mut run, line)?, "{line}");
    }
    Ok(())
}

fn play(alloc: Global, run: &mut Run, line: &str) -> Result<bool, AllocError> {
    if is_remark(line) {
        return Ok(true);
    }
    match line.split_once(':') {
        Some(("run", _)) => {
            *run = new_run(alloc);
            Ok(true)
        }
        Some((verb, rest)) => judge(alloc, run, verb, rest),
        None => add(alloc, &mut run.entries, line),
    }
}

fn judge(alloc: Global, run: &mut Run, verb: &str, rest: &str) -> Result<bool, AllocError> {
    let mut words = Words::of(rest);
    match verb {
        "record" => Ok(find_record(alloc, &mut run.opening, &mut words)),
        "doubt" => Ok(find_doubt(alloc, &mut run.opening, &mut words)),
        "sound" | "unsound" | "no history" => judge_with(alloc, run, verb, rest),
        _ => judge_decisions(alloc, run, verb, rest),
    }
}

fn find_record(alloc: Global, opening: &mut Opening, words: &mut Words) -> bool {
    let id = words.rid();
    let bytes = words.bytes(alloc);
    opening.records.insert(id, bytes).is_ok() && words.end()
}

fn find_doubt(alloc: Global, opening: &mut Opening, words: &mut Words) -> bool {
    let doubt = InDoubt::read(alloc, words);
    opening.in_doubt.push(doubt).is_ok() && words.end()
}

// Judges all so far with these entries too, which are then taken back.
fn judge_with(alloc: Global, run: &mut Run, verb: &str, rest: &str) -> Result<bool, AllocError> {
    let length = run.entries.len();
    let is_right = add(alloc, &mut run.entries, rest)? && is_as(verb, alloc, run)?;
    run.entries.truncate(length);
    Ok(is_right)
}

fn is_as(verb: &str, alloc: Global, run: &Run) -> Result<bool, AllocError> {
    match verb {
        "no history" => is_spoiled_by_last(alloc, &run.opening, &run.entries),
        _ => Ok(
            is_history(alloc, &run.opening, &run.entries)?
                && is_sound(alloc, &run.opening, &run.entries)? == (verb == "sound"),
        ),
    }
}

fn is_spoiled_by_last(
    alloc: Global,
    opening: &Opening,
    entries: &[Entry],
) -> Result<bool, AllocError> {
    match entries.split_last() {
        Some((_, before)) => {
            Ok(is_history(alloc, opening, before)? && !is_history(alloc, opening, entries)?)
        }
        None => Ok(false),
    }
}

fn judge_decisions(alloc: Global, run: &Run, verb: &str, rest: &str) -> Result<bool, AllocError> {
    let (made, left) = match rest.split_once('=') {
        Some(parts) => parts,
        None => (rest, ""),
    };
    let mut decisions = Vec::new(alloc);
    if !add(alloc, &mut decisions, made)? {
        return Ok(false);
    }
    judge_made(alloc, run, verb, &decisions, &mut Words::of(left))
}

fn judge_made(
    alloc: Global,
    run: &Run,
    verb: &str,
    made: &[Decision],
    words: &mut Words,
) -> Result<bool, AllocError> {
    match verb {
        "kept" => is_kept(alloc, &run.entries, made),
        "lost" => Ok(!is_kept(alloc, &run.entries, made)?),
        "shown" => are_shown(alloc, run, made, words),
        "in doubt" => are_in_doubt(alloc, run, made, words),
        _ => Ok(false),
    }
}

fn are_shown(
    alloc: Global,
    run: &Run,
    made: &[Decision],
    words: &mut Words,
) -> Result<bool, AllocError> {
    let shown = shown_records(alloc, &run.opening, &run.entries, made)?;
    Ok(words.are_records(&shown))
}

fn are_in_doubt(
    alloc: Global,
    run: &Run,
    made: &[Decision],
    words: &mut Words,
) -> Result<bool, AllocError> {
    let found = in_doubt(alloc, &run.opening, made)?;
    Ok(are_pairs(found.as_slice(), words))
}

fn are_pairs(found: &[(TxnId, GlobalId)], words: &mut Words) -> bool {
    for (of, global) in found {
        if words.txn() != *of || words.word().as_bytes() != global.as_slice() {
            return false;
        }
    }
    words.end()
}
