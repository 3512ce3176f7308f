//! Those in doubt, and what the log says of them.
ghost use Rattle.std.specs.Prelude.{◌≡◌, ℕ, List, Some, IfOk, IsPermutation, filter, map, option_map, reverse};
ghost use Rattle.shore_types.specs.declared.layout.Geometry.{Geometry};
ghost use Rattle.shore_model.specs.declared.log_records.LogRecord.{LogRecord};
ghost use Rattle.shore_model.specs.Logs.{IsTable, Lawful, in_doubt_in, is_prepared, unanswered, undo_next_of};
ghost use Rattle.laws_lives.specs.Doubts.{doubts_in};
ghost use Rattle.shore_analysis.specs.declared.analysis.Tables.{Tables};
ghost use Rattle.shore_analysis.specs.Doubts.{doubt_at, doubts_left, said_at};
ghost use Rattle.shore_analysis.specs.KeptMeant.{AreMeantKept};
ghost use Rattle.shore_analysis.specs.Meant.{AreMeant};
ghost use Rattle.shore_analysis.specs.Padded.{padded};
ghost use Rattle.laws_checkpoints.specs.KeptTables.{IsKeptTable};
ghost use Rattle.shore_analysis.specs.Tables.{AreTables};

use crate::kept_doubts::{prepare_behind, to_be_undone_behind};
use shore_model::{LogRecord, LogTxn};
use shore_types::{GlobalId, Granule, Lsn};
use std::alloc::{AllocError, Global};

/// The entries of those in doubt, in the order of their Prepares.
pub fn in_doubt(alloc: Global, txns: &[LogTxn]) -> Result<Vec<LogTxn>, AllocError>
    ensures entries { IfOk result (λ found. IsPermutation (filter (λ e. is_prepared e.state) txns.now) found.items) }
    ensures order { IfOk result (λ found. (g : Geometry) (log : List LogRecord) (tables : Tables) → AreMeant g log → AreTables log tables → tables.txns ≡ txns.now
        → map (λ e. e.txn) found.items ≡ in_doubt_in log) }
    ensures prepares { IfOk result (λ found. (g : Geometry) (log : List LogRecord) (tables : Tables) → AreMeant g log → AreTables log tables → tables.txns ≡ txns.now
        → map (λ e. doubt_at log e.prepare) found.items ≡ map (λ d. Some d) (doubts_in log)) }
    ensures kept_order { IfOk result (λ found. (g : Geometry) (log : List LogRecord) → AreMeantKept g 0 log → IsTable log txns.now → map (λ e. e.txn) found.items ≡ in_doubt_in log) }
    ensures kept_prepares { IfOk result (λ found. (g : Geometry) (log : List LogRecord) → AreMeantKept g 0 log → IsTable log txns.now
        → map (λ e. doubt_at log e.prepare) found.items ≡ map (λ d. Some d) (doubts_in log)) }
    ensures left_order { IfOk result (λ found. (g : Geometry) (cut : ℕ) (kept : List LogRecord) → AreMeantKept g cut kept → IsKeptTable cut kept txns.now
        → map (λ e. e.txn) found.items ≡ map (λ d. d.txn) (doubts_left (padded cut kept))) }
    ensures left_prepares { IfOk result (λ found. (g : Geometry) (cut : ℕ) (kept : List LogRecord) → AreMeantKept g cut kept → IsKeptTable cut kept txns.now
        → map (λ e. doubt_at (padded cut kept) e.prepare) found.items ≡ map (λ d. Some d) (doubts_left (padded cut kept))) }
    ensures lawful_order { IfOk result (λ found. (log : List LogRecord) → Lawful log → IsTable log txns.now → map (λ e. e.txn) found.items ≡ in_doubt_in log) }
    ensures lawful_prepares { IfOk result (λ found. (log : List LogRecord) → Lawful log → IsTable log txns.now
        → map (λ e. doubt_at log e.prepare) found.items ≡ map (λ d. Some d) (doubts_in log)) }
{
    let mut found = entries_in_doubt(alloc, txns)?;
    found.sort_unstable_by_key(|entry| entry.prepare.0);
    Ok(found)
}

fn entries_in_doubt(alloc: Global, txns: &[LogTxn]) -> Result<Vec<LogTxn>, AllocError>
    ensures { IfOk result (λ found. found.items ≡ filter (λ e. is_prepared e.state) txns.now) }
{
    txns.iter()
        .copied()
        .filter(|entry| entry.state.is_prepared())
        .collect(alloc)
}

/// What the Prepare of this number says.
pub fn prepare_at(log: &[LogRecord], number: Lsn) -> Option<(&GlobalId, &[Granule])>
    ensures { option_map (λ found. (found.0.now, found.1.now)) result ≡ said_at log.now number }
{
    prepare_behind(0, log, number)
}

/// The numbers of a transaction's Changes that are still to be undone, the oldest first, if the newest has this number, 0 for none.
pub fn to_be_undone(alloc: Global, log: &[LogRecord], newest: Lsn) -> Result<Vec<Lsn>, AllocError>
    ensures { IfOk result (λ numbers. (g : Geometry) (t : ℕ) → AreMeant g log.now → newest ≡ undo_next_of (unanswered t log.now)
        → numbers.items ≡ reverse (map (λ c. c.number) (unanswered t log.now))) }
{
    to_be_undone_behind(alloc, 0, log, newest)
}
