//! What a restart makes of the records of a log alone. Analysis: one pass gives the transactions that have not ended and the pages that have been changed, or
//! the first record that a restart cannot work on. Undo of the losers: the records that take them back (ARIES: the analysis and undo passes).
#![tactic(auto)]

mod analysis;
mod anchored_end;
mod chains;
mod doubts;
mod kept_analysis;
mod kept_doubts;
mod kept_meaning;
mod kept_passes;
mod kept_tables;
pub mod laws;
mod losers;
mod passes;
mod prepares;
mod progress;
mod sizes;

pub use analysis::{NotAnalysed, Tables, analyse};
pub use chains::{record_at, record_behind};
pub use doubts::{in_doubt, prepare_at, to_be_undone};
pub use kept_analysis::analyse_kept;
pub use kept_doubts::{prepare_behind, to_be_undone_behind};
pub use kept_tables::{KeptTables, RedoTable};
pub use losers::Losers;
