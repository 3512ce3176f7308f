//! Log records and their texts, version 1 of the format.
#![tactic(auto)]

mod costs;
mod laws;
mod lengths;
mod reading;
mod tables;
mod writing;

pub use costs::{change_cost, checkpoint_cost, compensation_cost, prepare_cost};
pub use laws::encoding_is_prefix_free;
pub use lengths::{MAX_TEXT_BYTES, encoded_len};
pub use reading::{decode, u32_at, u64_at};
pub use shore_model::{LogRecord, Payload};
pub use writing::{encode, granules_fit};
