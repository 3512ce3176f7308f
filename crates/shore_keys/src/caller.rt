//! Who makes calls.
ghost use Rattle.std.specs.Prelude.{◌≡◌, ◌++◌, ◌∷◌, [], List};
ghost use Rattle.shore_model.specs.Calls.{IsServed};
ghost use Rattle.shore_model.specs.declared.calls.Exchange.{Exchange};
ghost use Rattle.shore_keys.specs.Exchanges.{NotesCommit};

use shore_model::{Answer, Call};
use shore_types::{Fault, Ticket};

/// A session with what it talks to. It keeps a list of what was asked and answered, which costs nothing: contracts alone see it.
pub trait Caller {
    /// The calls with their answers, so far. What they are in the history of a manager, whoever implements this says.
    ghost trail: { Self → List Exchange };

    /// A call of the session, and its answer. How long it takes, and whether it waits for locks, whoever implements this says.
    fn call(&mut self, call: Call) -> Result<Answer, Fault>
        requires { IsServed call }
        ensures noted { trail self.new ≡ trail self.old ++ record { call = call; reply = result } ∷ [] };

    /// Commits, and answers once that is durable. Refused after an answered commit, it may be durable or not.
    fn commit_durable(&mut self) -> Result<Ticket, Fault>
        ensures noted { NotesCommit (trail self.old) (trail self.new) result };
}
