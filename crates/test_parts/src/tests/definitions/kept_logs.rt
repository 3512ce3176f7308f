//! Logs whose front is cut off as analysis sees them, written out by hand: the tables that they give, and records that do not mean what they have to.
ghost use Rattle.std.specs.Prelude.{◌<◌};
ghost use Rattle.shore_types.specs.declared.layout.TheConstants.{LAST_OPENED};

use super::analysis::{geometry, number_in};
use super::log_lines::entries;
use super::logs::play;
use super::words::Words;
use shore_analysis::{KeptTables, analyse_kept};
use shore_model::LogRecord;
use shore_types::Lsn;
use shore_types::layout::LAST_OPENED;
use std::alloc::{AllocError, Global};

// The records are those of a whole log. `behind:` has how many first ones are cut off, the anchored checkpoint, 0 for none, and the number of the first
// kept one that is refused, 0 if none is; then records that are taken back. `keeps:` has how many are cut off, the anchored checkpoint, the number behind
// which redo begins, the next transaction's number, and those that have not ended, as above.
const LOGS: &str = "
run: nothing_is_cut_off
1 0 change 0.0.0 - aa; 0 0 checkpoint_begin; 1 1 commit; 0 0 checkpoint_end 2 2 1 1 active 1 1 1 0; 0 0 anchor 2 1
behind: 0 0 0
keeps: 0 0 0 2 0
keeps: 0 2 1 2 0

run: what_is_kept_begins_with_the_checkpoint
1 0 change 0.0.0 - aa; 1 1 commit; 0 0 checkpoint_begin; 0 0 checkpoint_end 3 2 0; 0 0 anchor 3 3
behind: 2 0 0
keeps: 2 3 2 2 0

run: a_transaction_crosses_the_tail
1 0 change 0.0.0 - aa; 1 1 change 0.0.1 - bb
behind: 1 0 2
behind: 1 0 2; 1 2 change 0.0.2 - cc
behind: 1 0 2; 1 2 prepare g1 0.0
behind: 1 0 0; 1 2 commit
behind: 1 0 0; 1 2 compensation 0.0.1 1 -; 1 3 compensation 0.0.0 0 -; 1 4 end
behind: 1 0 0; 1 2 compensation 0.0.1 2 -; 1 3 end
behind: 1 0 3; 1 2 compensation 0.0.1 3 -; 1 3 end
behind: 1 0 3; 1 1 commit
behind: 1 0 4; 1 2 commit; 1 3 commit
# A record behind one that is refused may still end it.
behind: 1 0 2; 2 3 change 0.0.3 - dd
behind: 1 0 3; 2 3 change 0.0.3 - dd; 1 2 commit
behind: 1 0 3; 0 0 commit; 1 2 end

run: an_older_end_lists_one_that_is_cut_off
1 0 change 0.0.0 - aa; 2 0 change 0.0.1 - bb; 0 0 checkpoint_begin; 1 1 commit; 2 2 commit
0 0 checkpoint_end 3 3 2 1 active 1 1 1 0 2 active 2 2 2 0; 0 0 checkpoint_begin; 0 0 checkpoint_end 7 3 0
behind: 0 0 0
behind: 1 0 0
behind: 4 0 0
behind: 5 0 0
keeps: 5 7 6 3 0
# One that has not ended by what is kept may not be listed so.
behind: 5 0 6; 1 4 change 0.0.2 - cc
behind: 0 0 9; 0 0 checkpoint_end 7 3 1 1 active 2 1 1 0
behind: 0 0 9; 0 0 checkpoint_end 7 3 1 1 active 1 2 1 0
behind: 0 0 9; 0 0 checkpoint_end 7 3 1 1 active 1 1 4 0
behind: 0 0 9; 0 0 checkpoint_end 7 3 1 1 prepared 1 1 1 0
behind: 0 0 9; 0 0 checkpoint_end 7 3 1 1 prepared 1 1 1 4
behind: 0 0 9; 0 0 checkpoint_end 7 3 1 1 active 1 1 1 9
behind: 0 0 9; 0 0 checkpoint_end 7 3 1 1 active 0 1 1 0
behind: 0 0 9; 0 0 checkpoint_end 7 3 2 2 active 2 2 2 0 1 active 1 1 1 0
behind: 0 0 9; 0 0 checkpoint_end 4 3 0
behind: 0 0 9; 0 0 checkpoint_end 9 3 0
behind: 0 0 9; 0 0 checkpoint_end 0 3 0
behind: 0 0 9; 0 0 checkpoint_end 7 4611686018427387905 0
behind: 0 0 0; 0 0 checkpoint_end 7 4611686018427387904 0
behind: 0 0 9; 0 1 checkpoint_begin
behind: 0 0 9; 3 0 checkpoint_begin
keeps: 5 6 0 1 0

run: the_anchored_end_lists_who_had_not_ended
1 0 change 0.0.0 - aa; 2 0 change 0.0.1 - bb; 2 2 commit; 0 0 checkpoint_begin; 0 0 checkpoint_end 4 3 1 1 active 1 1 1 0
behind: 0 4 0
behind: 1 4 5
behind: 1 4 0; 1 1 commit
behind: 1 4 0; 1 1 compensation 0.0.0 0 -; 1 6 end
behind: 1 4 5; 2 0 commit
# Of another checkpoint's End it is not asked, nor of a second one that names the same begin.
behind: 1 0 0
behind: 1 6 0; 0 0 checkpoint_begin; 0 0 checkpoint_end 6 3 0
behind: 1 6 7; 0 0 checkpoint_begin; 0 0 checkpoint_end 6 3 1 1 active 1 1 1 0
behind: 1 6 0; 0 0 checkpoint_begin; 0 0 checkpoint_end 6 3 0; 0 0 checkpoint_end 6 3 1 1 active 1 1 1 0

run: the_anchored_end_lists_one_in_doubt
1 0 change 0.0.0 - aa; 1 1 prepare g1 0.0; 0 0 checkpoint_begin; 0 0 checkpoint_end 3 2 1 1 prepared 1 2 1 2
behind: 0 3 0
behind: 2 3 4
behind: 2 3 0; 1 2 commit
";

#[test]
fn kept_logs(rt: HostRuntime) -> Result<(), AllocError> {
    let mut list = Vec::new(rt.alloc());
    for line in LOGS.lines() {
        assert!(rt; play(rt.alloc(), &mut list, line)?, "{line}");
    }
    Ok(())
}

/// Whether the record of the number that is told is the first that is refused, of those behind the first so many.
pub(super) fn is_refused_behind(
    alloc: Global,
    list: &[LogRecord],
    words: &mut Words,
) -> Result<bool, AllocError> {
    let cut = cut_in(words);
    let checkpoint = words.lsn();
    let number = words.number();
    Ok(refused_behind(alloc, cut, checkpoint, list)? == number && words.end())
}

// How many records are cut off, of a line: none if there cannot be so many.
fn cut_in(words: &mut Words) -> u64
    ensures { result < LAST_OPENED }
{
    let told = words.number();
    if told < LAST_OPENED { told } else { 0 }
}

fn refused_behind(
    alloc: Global,
    cut: u64,
    checkpoint: Lsn,
    list: &[LogRecord],
) -> Result<u64, AllocError>
    requires { cut < LAST_OPENED }
{
    match analyse_kept(alloc, &geometry(alloc)?, cut, checkpoint, behind(cut, list)) {
        Ok(_) => Ok(0),
        Err(refusal) => number_in(refusal),
    }
}

fn behind(cut: u64, list: &[LogRecord]) -> &[LogRecord] {
    list.get(cut as usize..).unwrap_or(&[])
}

/// Whether the tables of what is kept are as told.
pub(super) fn keeps(
    alloc: Global,
    list: &[LogRecord],
    words: &mut Words,
) -> Result<bool, AllocError> {
    let cut = cut_in(words);
    let checkpoint = words.lsn();
    match analyse_kept(alloc, &geometry(alloc)?, cut, checkpoint, behind(cut, list)) {
        Ok(tables) => Ok(are_tables(alloc, &tables, words)),
        Err(_) => Ok(false),
    }
}

fn are_tables(alloc: Global, tables: &KeptTables, words: &mut Words) -> bool {
    if tables.redo.begins_behind() != words.lsn() {
        return false;
    }
    tables.next == words.txn() && tables.txns == entries(alloc, words) && words.end()
}
