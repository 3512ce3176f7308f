//! What the storage manager promises, as definitions, with the plain types that they speak of and a map from record ids.
//! The crates above stand on this one, so it has little to prove: the slow functions that compute the definitions for tests
//! are in crates of their own beside the chain.
#![tactic(auto)]

pub mod calls;
pub mod histories;
pub mod holds;
pub mod log_records;
pub mod progress;
pub mod requests;
pub mod rid_map;
pub mod rollbacks;
pub mod sessions;
pub mod step;
pub mod unanswered_changes;

pub use calls::{Answer, Call, Exchange, Outcome};
pub use histories::{Decision, Entry, InDoubt, Opening};
pub use holds::Hold;
pub use log_records::{DirtyPage, LogRecord, LogTxn, Payload, TxnState};
pub use progress::Progress;
pub use requests::{Group, Request};
pub use rid_map::RidMap;
pub use rollbacks::Rollback;
pub use sessions::SessionState;
pub use step::{Step, Wait};
pub use unanswered_changes::UnansweredChange;
