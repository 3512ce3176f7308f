//! The words that the threads of a manager share: how far its log is durable, whether its workers are to stop, and words to sleep on.
#![tactic(auto)]

mod laws;
mod rule;
mod wake_words;
mod words;

pub use laws::seats_agree_at_each_moment;
pub use rule::{Heard, Known, Noted, Notes, View, WordSeat};
pub use wake_words::WakeWords;
pub use words::Words;
