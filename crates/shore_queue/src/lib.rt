//! The way of log records from the core to a log device of its own lock: a queue with a core's log buffer at its one end.
#![tactic(auto)]

mod laws;
mod queue;
mod tail;

pub use laws::ends_agree_at_each_moment;
pub use queue::{
    Ends, InOrder, Numbers, Queue, QueuePass, compare, handed_on, made, receive, send,
};
pub use tail::{Channel, QueueTail, Queued};
