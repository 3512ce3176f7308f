//! Logs of worked runs, written out by hand, with what they tell, and lists that no run leaves.
use super::analysis::{add_crowd, gives, is_refused_as};
use super::kept_logs::{is_refused_behind, keeps};
use super::steps::{add, is_remark};
use super::words::Words;
use shore_model::LogRecord;
use slow_logs::lawful_logs::is_lawful;
use slow_logs::recovered_records::records_told;
use std::alloc::{AllocError, Global};

// A line without a colon adds records, parted by `;`. `run:` begins anew. `tells:` says that the list so far is lawful and tells
// just these records. `lawful:` says that it is lawful with these records too; `unlawful:` that it is lawful with all of these
// but the last, and no more with the last.
const LOGS: &str = "
run: commit_survives_crash
1 0 change 0.0.0 - aa; 1 1 commit
tells: 0.0.0 aa
unlawful: 1 2 change 0.0.0 aa bb

run: flushed_loser_is_undone
1 0 change 0.0.0 - aa; 1 1 compensation 0.0.0 0 -
unlawful: 1 1 end
1 2 end
tells:
unlawful: 1 3 change 0.0.0 - aa
unlawful: 1 3 commit

run: rollback_to_a_savepoint
1 0 change 0.0.0 - aa; 1 1 change 0.0.0 aa bb; 1 2 change 0.0.0 bb -
1 3 compensation 0.0.0 2 bb; 1 4 compensation 0.0.0 1 aa; 1 5 commit
tells: 0.0.0 aa

run: crashes_in_restart
1 0 change 0.0.0 - aa; 1 1 commit; 2 0 change 0.0.0 aa bb; 2 3 change 0.0.0 bb cc; 2 4 compensation 0.0.0 3 bb
unlawful: 2 5 compensation 0.0.0 3 bb
unlawful: 2 5 end
2 5 compensation 0.0.0 0 aa; 2 6 end
tells: 0.0.0 aa

run: a_change_has_what_stands_there_as_its_before_image
unlawful: 1 0 change 0.0.0 aa bb
1 0 change 0.0.0 - aa
lawful: 1 1 change 0.0.0 aa cc
unlawful: 1 1 change 0.0.0 bb cc
unlawful: 1 1 change 0.0.0 - cc
lawful: 1 1 change 0.0.1 - cc

run: two_change_one_record
1 0 change 0.0.0 - aa
unlawful: 2 0 change 0.0.0 aa bb
lawful: 2 0 change 0.0.1 - bb
lawful: 1 1 commit; 2 0 change 0.0.0 aa bb
1 1 compensation 0.0.0 0 -
unlawful: 2 0 change 0.0.0 - bb
lawful: 1 2 end; 2 0 change 0.0.0 - bb

run: each_record_is_of_a_transaction_or_of_a_checkpoint
unlawful: 0 0 change 0.0.0 - aa
unlawful: 0 0 commit
unlawful: 1 0 checkpoint_begin
lawful: 0 0 checkpoint_begin
unlawful: 0 1 checkpoint_begin

run: each_record_names_the_one_before_it
1 0 change 0.0.0 - aa; 2 0 change 0.0.1 - bb
lawful: 1 1 commit
unlawful: 1 0 commit
unlawful: 1 2 commit
unlawful: 3 2 commit

run: a_compensation_answers_the_newest_change
1 0 change 0.0.0 - aa; 1 1 change 0.0.0 aa bb
lawful: 1 2 compensation 0.0.0 1 aa
unlawful: 1 2 compensation 0.0.1 1 aa
unlawful: 1 2 compensation 0.0.0 0 aa
unlawful: 1 2 compensation 0.0.0 2 aa
unlawful: 1 2 compensation 0.0.0 1 bb
unlawful: 1 2 compensation 0.0.0 1 -
unlawful: 2 0 compensation 0.0.0 0 -

run: prepared_survives_crash
1 0 change 0.0.0 - aa; 1 1 prepare g1 0.0.0
tells: 0.0.0 aa
1 2 commit
tells: 0.0.0 aa

run: prepared_change_is_aborted
1 0 change 0.0.0 - aa; 1 1 commit; 2 0 change 0.0.0 aa bb; 2 3 prepare g1 0.0.0
tells: 0.0.0 bb
2 4 rollback_decided
tells: 0.0.0 aa
2 5 compensation 0.0.0 0 aa; 2 6 end
tells: 0.0.0 aa

run: after_a_prepare_comes_its_decision
1 0 change 0.0.0 - aa
unlawful: 1 1 rollback_decided
1 1 prepare g1 0.0.0
lawful: 1 2 commit
lawful: 1 2 rollback_decided
unlawful: 1 2 change 0.0.0 aa bb
unlawful: 1 2 prepare g1 0.0.0
unlawful: 1 2 compensation 0.0.0 0 -
1 2 rollback_decided
lawful: 1 3 compensation 0.0.0 0 -
unlawful: 1 3 commit
unlawful: 1 3 rollback_decided
unlawful: 1 3 change 0.0.0 aa bb
unlawful: 1 3 prepare g1 0.0.0

run: a_reader_is_prepared
1 0 prepare g1
unlawful: 1 1 end
lawful: 1 1 rollback_decided; 1 2 end

run: a_prepare_lists_what_its_changes_lie_under
1 0 change 0.0.0 - aa
lawful: 1 1 prepare g1 0.0.0
lawful: 1 1 prepare g1 0.1 0.0
lawful: 1 1 prepare g1 0
lawful: 1 1 prepare g1 v
unlawful: 1 1 prepare g1
unlawful: 1 1 prepare g1 0.0.1
unlawful: 1 1 prepare g1 0.1
unlawful: 1 1 prepare g1 1
2 0 change 0.0.1 - bb
lawful: 1 1 prepare g1 0.0.0

run: checkpoint_in_two_halves
1 0 change 0.0.0 - aa; 0 0 checkpoint_begin; 1 1 commit
unlawful: 0 0 checkpoint_end 2 2 0
0 0 checkpoint_end 2 2 1 1 active 1 1 1 0; 0 0 anchor 2 1
tells: 0.0.0 aa

run: a_checkpoint_lists_those_not_ended_at_its_begin
# Transaction 1 has undone its second Change, 2 is prepared, 3 has committed; after the begin 1 undoes its first Change.
1 0 change 0.0.0 - aa; 2 0 change 0.0.1 - bb; 1 1 change 0.0.0 aa cc; 3 0 change 0.0.2 - dd; 3 4 commit
2 2 prepare g2 0.0.1; 1 3 compensation 0.0.0 1 aa; 0 0 checkpoint_begin; 1 7 compensation 0.0.0 0 -
lawful: 0 0 checkpoint_end 8 4 2 1 active 1 7 1 0 2 prepared 2 6 2 6
lawful: 0 0 checkpoint_end 8 9 2 1 rolling_back 1 7 1 0 2 prepared 2 6 2 6
unlawful: 0 0 checkpoint_end 0 4 2 1 active 1 7 1 0 2 prepared 2 6 2 6
unlawful: 0 0 checkpoint_end 7 4 2 1 active 1 7 1 0 2 prepared 2 6 2 6
unlawful: 0 0 checkpoint_end 9 4 2 1 active 1 7 1 0 2 prepared 2 6 2 6
unlawful: 0 0 checkpoint_end 11 4 2 1 active 1 7 1 0 2 prepared 2 6 2 6
unlawful: 0 0 checkpoint_end 8 3 2 1 active 1 7 1 0 2 prepared 2 6 2 6
unlawful: 0 0 checkpoint_end 8 4 2 1 prepared 1 7 1 0 2 prepared 2 6 2 6
unlawful: 0 0 checkpoint_end 8 4 2 1 active 2 7 1 0 2 prepared 2 6 2 6
unlawful: 0 0 checkpoint_end 8 4 2 1 active 1 3 1 0 2 prepared 2 6 2 6
unlawful: 0 0 checkpoint_end 8 4 2 1 active 1 9 1 0 2 prepared 2 6 2 6
unlawful: 0 0 checkpoint_end 8 4 2 1 active 1 7 3 0 2 prepared 2 6 2 6
unlawful: 0 0 checkpoint_end 8 4 2 1 active 1 7 0 0 2 prepared 2 6 2 6
unlawful: 0 0 checkpoint_end 8 4 2 1 active 1 7 1 6 2 prepared 2 6 2 6
unlawful: 0 0 checkpoint_end 8 4 2 1 active 1 7 1 0 2 active 2 6 2 6
unlawful: 0 0 checkpoint_end 8 4 2 1 active 1 7 1 0 2 prepared 2 6 2 0
unlawful: 0 0 checkpoint_end 8 4 2 2 prepared 2 6 2 6 1 active 1 7 1 0
unlawful: 0 0 checkpoint_end 8 4 3 1 active 1 7 1 0 1 active 1 7 1 0 2 prepared 2 6 2 6
unlawful: 0 0 checkpoint_end 8 4 3 1 active 1 7 1 0 2 prepared 2 6 2 6 3 active 4 5 4 0
unlawful: 0 0 checkpoint_end 8 4 3 1 active 1 7 1 0 2 prepared 2 6 2 6 4 active 0 0 0 0
unlawful: 0 0 checkpoint_end 8 4 1 1 active 1 7 1 0
unlawful: 0 0 checkpoint_end 8 4 1 2 prepared 2 6 2 6

run: later_commit_kept_earlier_lost
1 0 change 0.0.0 - aa; 2 0 change 0.0.1 - bb
lawful: 2 2 commit
1 1 commit
tells: 0.0.0 aa
2 2 commit
tells: 0.0.0 aa 0.0.1 bb

run: commits_count_in_their_order
1 0 change 0.0.0 - aa; 1 1 change 0.0.0 aa bb; 1 2 commit; 2 0 change 0.0.0 bb cc; 2 4 commit
tells: 0.0.0 cc

run: a_later_number_commits_first
2 0 change 0.0.0 - aa; 2 1 commit; 1 0 change 0.0.0 aa bb; 1 3 commit
tells: 0.0.0 bb
";

#[test]
fn logs(rt: HostRuntime) -> Result<(), AllocError> {
    let mut list = Vec::new(rt.alloc());
    for line in LOGS.lines() {
        assert!(rt; play(rt.alloc(), &mut list, line)?, "{line}");
    }
    Ok(())
}

/// Plays a line of these runs, or of those that analysis judges.
pub(super) fn play(
    alloc: Global,
    list: &mut Vec<LogRecord>,
    line: &str,
) -> Result<bool, AllocError> {
    if is_remark(line) {
        return Ok(true);
    }
    match line.split_once(':') {
        Some((verb, rest)) => judge(alloc, list, verb, rest),
        None => add(alloc, list, line),
    }
}

fn judge(
    alloc: Global,
    list: &mut Vec<LogRecord>,
    verb: &str,
    rest: &str,
) -> Result<bool, AllocError> {
    let mut words = Words::of(rest);
    match verb {
        "run" => {
            list.clear();
            Ok(true)
        }
        "crowd" => add_crowd(list, &mut words),
        "gives" => gives(alloc, list, &mut words),
        "tells" => tells(alloc, list, &mut words),
        "keeps" => keeps(alloc, list, &mut words),
        "behind" => judge_behind(alloc, list, rest),
        _ => judge_with(alloc, list, verb, rest),
    }
}

// Judges the list with these records too, which are then taken back.
fn judge_with(
    alloc: Global,
    list: &mut Vec<LogRecord>,
    verb: &str,
    rest: &str,
) -> Result<bool, AllocError> {
    let length = list.len();
    let is_right = add(alloc, list, rest)? && is_as(verb, alloc, list)?;
    list.truncate(length);
    Ok(is_right)
}

// Judges what is kept of the list with these records too, which are then taken back.
fn judge_behind(alloc: Global, list: &mut Vec<LogRecord>, rest: &str) -> Result<bool, AllocError> {
    let (told, records) = rest.split_once(';').unwrap_or((rest, ""));
    let length = list.len();
    let is_right = add(alloc, list, records)?
        && is_refused_behind(alloc, list, &mut Words::of(told))?;
    list.truncate(length);
    Ok(is_right)
}

fn is_as(verb: &str, alloc: Global, list: &[LogRecord]) -> Result<bool, AllocError> {
    match verb {
        "lawful" => is_lawful(alloc, list),
        "unlawful" => is_spoiled_by_last(alloc, list),
        _ => is_refused_as(verb, alloc, list),
    }
}

fn tells(alloc: Global, list: &[LogRecord], words: &mut Words) -> Result<bool, AllocError> {
    if !is_lawful(alloc, list)? {
        return Ok(false);
    }
    let told = records_told(alloc, list)?;
    Ok(words.are_records(&told))
}

fn is_spoiled_by_last(alloc: Global, list: &[LogRecord]) -> Result<bool, AllocError> {
    match list.split_last() {
        Some((_, before)) => Ok(is_lawful(alloc, before)? && !is_lawful(alloc, list)?),
        None => Ok(false),
    }
}
