//! Lives over plain data: what many sessions under hierarchical locks see beside each other, and why the history that they make is sound; the log that goes with
//! it; pages that are written back at any time under the write-ahead rule, redo, undo of the losers, and a restart that may be cut off and begun again (ARIES:
//! Mohan et al., 1992); and all of these as one manager after another. No code runs here.
#![tactic(auto)]

pub mod commits;
pub mod lives;
pub mod recovery;
pub mod sessions;
