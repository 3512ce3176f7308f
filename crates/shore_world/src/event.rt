//! What the world is told to do.
ghost use Rattle.std.specs.Prelude.{◌≡◌, IfOk, OnErr};
ghost use Rattle.shore_world.specs.Events.{IsCall};

use shore_model::Call;
use shore_types::{SessionId, Ticket};
use std::alloc::{AllocError, Global};

/// One event.
#[derive(Drop)]
pub enum Event {
    /// A session makes a call.
    Call(SessionId, Call),
    /// A session goes on with its call that waits.
    Resume(SessionId),
    /// The wait of a session's call for a lock is taken back: the call is refused by `WouldBlock` if its request waits. It takes no memory.
    GiveUp(SessionId),
    /// Whether the Commit of a ticket that this manager gave is durable. It changes nothing, and is answered after a failure too.
    Ask(Ticket),
    /// The longest list of waiting records that one frame holds is written behind a closed gate.
    ForceStage,
    /// The gate of the staged frame is opened.
    ForceOpen,
    /// A batch of dirty pages with durable numbers, the first of the volume, is written back.
    FlushStep,
    /// The next of the four steps of a checkpoint.
    CheckpointStep,
    /// The trail of the answers may be let go, by whoever keeps one. It changes nothing.
    CutTrail,
}

impl Event {
    /// A second event that does the same.
    pub fn try_clone(&self, alloc: Global) -> Result<Event, AllocError>
        ensures event { IfOk result (λ event. event ≡ self.now) }
        ensures refused { OnErr result (IsCall self.now) }
    {
        Ok(match self {
            Event::Call(session, call) => Event::Call(*session, call.try_clone(alloc)?),
            Event::Resume(session) => Event::Resume(*session),
            Event::GiveUp(session) => Event::GiveUp(*session),
            Event::Ask(ticket) => Event::Ask(*ticket),
            Event::ForceStage => Event::ForceStage,
            Event::ForceOpen => Event::ForceOpen,
            Event::FlushStep => Event::FlushStep,
            Event::CheckpointStep => Event::CheckpointStep,
            Event::CutTrail => Event::CutTrail,
        })
    }
}
