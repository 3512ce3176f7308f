//! The tables of a whole log.
ghost use Rattle.std.specs.Prelude.{◌≡◌, ℕ, IfErr, IfOk};
ghost use Rattle.shore_analysis.specs.declared.analysis.NotAnalysed.TheVariants.{Memory, Unlawful};
ghost use Rattle.shore_analysis.specs.Meant.{AreMeant, IsFirstUnmeant};
ghost use Rattle.shore_analysis.specs.Tables.{AreTables};

use crate::passes::Pass;
use shore_model::{DirtyPage, LogRecord, LogTxn};
use shore_types::{Geometry, Lsn, Sequence, TxnId};
use std::alloc::{AllocError, Global};

/// The tables of a log.
#[derive(Drop)]
pub struct Tables {
    /// The transactions that have a record and have not ended, rising by number.
    pub txns: Sequence<LogTxn>,
    /// The pages that records change, rising by store and page, each with the number of the first record that changes it.
    pub dirty: Sequence<DirtyPage>,
    /// 1 above the greatest number of a transaction, 1 if there is none.
    pub next: TxnId,
}

/// Why a log has no tables.
#[derive(Drop)]
pub enum NotAnalysed {
    /// An allocation failed.
    Memory,
    /// The log may not go on by the record of this number, the first such.
    Unlawful(Lsn),
}

impl From<AllocError> for NotAnalysed {
    ghost from_gives = { λ _ error. error ≡ Memory };

    fn from(_: AllocError) -> NotAnalysed {
        NotAnalysed::Memory
    }
}

/// The tables of a log, in one pass over its records.
pub fn analyse(
    alloc: Global,
    geometry: &Geometry,
    records: &[LogRecord],
) -> Result<Tables, NotAnalysed>
    ensures meant { IfOk result (λ tables. AreMeant geometry.now records.now) }
    ensures tables { IfOk result (AreTables records.now) }
    ensures unlawful { IfErr result (λ error. (n : ℕ) → error ≡ Unlawful n → IsFirstUnmeant geometry.now records.now n) }
{
    let mut pass = Pass::new(alloc);
    for index in 0..records.len() {
        if !pass.goes_on(geometry, &records[..index], &records[index])? {
            return Err(NotAnalysed::Unlawful(Lsn(index as u64 + 1)));
        }
    }
    Ok(pass.into_tables(alloc)?)
}
