//! What is asked of the core.
use shore_model::Call;
use shore_types::Lsn;

/// What a session asks, a worker, or the log device tells.
#[derive(Drop)]
pub enum Asked {
    Call(Call),
    Resume,
    /// A session's wait for a lock is to be taken back.
    GiveUp,
    /// The log is durable up to this number.
    Told(Lsn),
    /// The next step of a checkpoint.
    Checkpoint,
    /// A device has failed.
    Failed,
}
