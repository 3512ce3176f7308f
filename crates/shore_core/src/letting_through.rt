//! Which of the calls that wait for locks may go on, for who wakes their sessions.
ghost use Rattle.std.specs.Prelude.{◌≡◌, ◌≤◌, ◌<◌, ◌↔◌, ℕ, IfNone, IfSome, IsTrue, Some, length, slice_get};
ghost use Rattle.shore_sessions.specs.declared.waits.WaitingCall.{WaitingCall};

use crate::core_calls::Core;
use shore_disk::Disk;
use shore_log::Tail;
use shore_types::SessionId;

impl<T: Tail, V: Disk> Core<T, V> {
    ghost use Rattle.shore_core.specs.Cores.{waits_of};
    ghost use Rattle.shore_core.specs.Waking.{IsLetThrough, NoneLetThrough};

    /// The session of the first call that waits, from this place of their list on, and may go on: it waits for a lock, and its transaction waits no more; or a device has
    /// failed. With it the place of the call.
    pub fn next_let_through(&self, from: usize) -> Option<(SessionId, usize)>
        ensures some { IfSome result (λ r. (w : WaitingCall) × (slice_get (waits_of self.now) r.1 ≡ Some w) × (w.session ≡ r.0) × IsLetThrough self.now w) }
        ensures first { IfSome result (λ r. (from ≤ r.1) × NoneLetThrough self.now from r.1) }
        ensures none { IfNone result (NoneLetThrough self.now from (length (waits_of self.now))) }
    {
        let place = if self.failed {
            from
        } else {
            self.control.next_let_through(from)?
        };
        let waiting = self.control.calls().get(place)?;
        Some((waiting.session, place))
    }
}
