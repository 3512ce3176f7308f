//! What lies under the locks of a manager for threads: the core with its trail under one, the log device with its end of the queue under the other; and what is done with both.
#![tactic(auto)]

mod asked;
mod both;
mod checkpointing;
mod core_held;
mod ends;
mod laws;
mod log_held;
mod names;
mod seat;
mod tape;

pub use asked::Asked;
pub use both::{keep_aside, meeting};
pub use checkpointing::checkpoint;
pub use core_held::{ALL_PARTS, CoreHeld};
pub use ends::Meeting;
pub use laws::{
    calls_are_steps_under_way, pairs_stand_amid_a_move, pairs_stand_at_each_moment,
    values_meet_at_each_moment,
};
pub use log_held::LogHeld;
pub use names::Named;
pub use seat::Seat;
pub use tape::{Taped, sum_of_answer, sum_of_fault};
