//! The calls that wait.
ghost use Rattle.std.specs.Prelude.{◌≡◌, ◌≢◌, ◌<◌, ◌≤◌, ◌^◌, ◌++◌, ◌∷◌, [], ℕ, List, Some, All, AllPairs, IfNone, IfSome, IsFalse, IsOk, IsSome, IsTrue, OnOk, false, filter, length, not, slice_get, slice_index_or, true, ◌==◌};
ghost use Rattle.shore_model.specs.declared.calls.Outcome.{Outcome};
ghost use Rattle.shore_model.specs.declared.requests.Request.{Request};
ghost use Rattle.laws_lives.specs.Views.{IsAmong};
ghost use Rattle.shore_locks.specs.Tables.{is_waiting};
ghost use Rattle.shore_sessions.specs.Calls.{asks_resolve, awaits_record, cycle_noted, is_resolve};
ghost use Rattle.shore_sessions.specs.declared.waits.WaitingCall.{WaitingCall};

use shore_locks::{LetThrough, LockTable};
use shore_model::{Call, Wait};
use shore_types::{GlobalId, Sequence, SessionId, TxnId};
use std::alloc::{AllocError, Global};

/// A call of a session that waits, and what for.
#[derive(Drop)]
pub struct WaitingCall {
    /// The session that asked.
    pub session: SessionId,
    /// The number of its transaction, or of the one that it resolves.
    pub txn: TxnId,
    /// What it asked: a resume asks it again.
    pub call: Call,
    /// The lock, or the force, that it waits for.
    pub wait: Wait,
    /// The cycle of waits that its transaction is the victim of, if it is one: then it waits to be told so.
    pub cycle: Option<Sequence<TxnId>>,
}

/// The calls that wait. A session waits with one.
#[derive(Drop)]
pub(crate) struct Waits {
    /// The calls that wait, the oldest first: no two of a session (`once`).
    calls: Vec<WaitingCall>,
    // For each of them whether it was let through: it waits for a lock, and its transaction waits no more. It stands apart, so that not all calls are looked at (`alike`).
    let_through: Vec<bool>,
    ghost once: { AllPairs (λ (v w : WaitingCall). v.session ≢ w.session) calls.items },
    ghost alike: { length let_through.items ≡ length calls.items },
}

impl Waits {
    ghost use Rattle.shore_sessions.specs.Waits.{AreMarked, AreMarkedBut, HasCallRoom, HasNoCall, IsMarked, IsNoneMarked, calls_in};

    pub(crate) fn new(alloc: Global) -> Waits
        ensures { calls_in result ≡ [] }
    {
        Waits {
            calls: Vec::new(alloc),
            let_through: Vec::new(alloc),
        }
    }

    /// All of them, the oldest first.
    pub(crate) fn all(&self) -> &[WaitingCall]
        ensures { result.now ≡ calls_in self.now }
    {
        &self.calls
    }

    /// The call of a session that waits.
    pub(crate) fn of(&self, session: SessionId) -> Option<&WaitingCall>
        ensures some { IfSome result (λ w. IsAmong w.now (calls_in self.now) × (w.now.session ≡ session)) }
        ensures none { IfNone result (HasNoCall session self.now) }
    {
        let index = self.index_of(session)?;
        Some(&self.calls[index])
    }

    fn index_of(&self, session: SessionId) -> Option<usize>
        ensures some { IfSome result (λ i. (i < length (calls_in self.now)) × ((d : WaitingCall) → (slice_index_or (calls_in self.now) i d).session ≡ session)) }
        ensures none { IfNone result (HasNoCall session self.now) }
    {
        for (index, call) in self.calls.iter().enumerate() {
            if call.session == session {
                return Some(index);
            }
        }
        None
    }

    /// How many of them are resolves.
    pub(crate) fn resolves_waiting(&self) -> usize
        ensures count { result ≡ length (filter is_resolve (calls_in self.now)) }
        ensures few { result ≤ length (calls_in self.now) }
        ensures small { length (calls_in self.now) < 2 ^ 63 }
    {
        let mut count = 0;
        for call in &self.calls {
            if asks_to_resolve(&call.call) {
                count += 1;
            }
        }
        count
    }

    /// Whether one of them resolves the transaction that has this name.
    pub(crate) fn resolves(&self, global: &GlobalId) -> bool
        ensures some { IsTrue result → (w : WaitingCall) × (asked : Outcome) × IsAmong w (calls_in self.now) × (w.call ≡ Call.Resolve global.now asked) }
        ensures none { IsFalse result → All (λ w. (asked : Outcome) → w.call ≢ Call.Resolve global.now asked) (calls_in self.now) }
    {
        for waiting in &self.calls {
            if resolves_name(&waiting.call, global) {
                return true;
            }
        }
        false
    }

    // The call with which a transaction waits for a lock: it has one at most.
    fn index_of_asker(&self, txn: TxnId) -> Option<usize>
        ensures some { IfSome result (λ i. (i < length (calls_in self.now)) × ((d : WaitingCall) → (slice_index_or (calls_in self.now) i d).txn ≡ txn)
            × ((d : WaitingCall) → awaits_record (slice_index_or (calls_in self.now) i d) ≡ false)) }
        ensures none { IfNone result (All (λ w. w.txn ≡ txn → awaits_record w ≡ true) (calls_in self.now)) }
    {
        for (index, call) in self.calls.iter().enumerate() {
            if call.txn == txn && matches!(call.wait, Wait::Lock(_)) {
                return Some(index);
            }
        }
        None
    }

    /// The call with which a transaction waits for a lock is to be told this cycle. The answer is its session; None if no call of it waits for a lock.
    pub(crate) fn note_cycle(&mut self, txn: TxnId, cycle: Sequence<TxnId>) -> Option<SessionId>
        ensures noted { IfSome result (λ session. calls_in self.new ≡ cycle_noted session cycle (calls_in self.old)) }
        ensures some { IfSome result (λ session. (w : WaitingCall) × IsAmong w (calls_in self.old) × (w.session ≡ session) × (w.txn ≡ txn) × (awaits_record w ≡ false)) }
        ensures none { IfNone result (All (λ w. w.txn ≡ txn → awaits_record w ≡ true) (calls_in self.old)) }
        ensures same { IfNone result (calls_in self.new ≡ calls_in self.old) }
        ensures free { (session : ℕ) → HasNoCall session self.old → HasNoCall session self.new }
        ensures room { HasCallRoom self.old → HasCallRoom self.new }
        ensures marks { (rs : List Request) → AreMarked rs self.old → AreMarked rs self.new }
    {
        let index = self.index_of_asker(txn)?;
        let session = self.calls[index].session;
        self.calls[index].cycle = Some(cycle);
        Some(session)
    }

    /// Takes the memory for a call more. If that fails nothing has changed.
    pub(crate) fn reserve(&mut self) -> Result<(), AllocError>
        ensures room { OnOk result (HasCallRoom self.new) }
        ensures idle { HasCallRoom self.old → IsOk result }
        ensures same { calls_in self.new ≡ calls_in self.old }
        ensures marks { (rs : List Request) → AreMarked rs self.old → AreMarked rs self.new }
    {
        self.calls.reserve(1)?;
        self.let_through.reserve(1)?;
        Ok(())
    }

    /// A call waits from now on, or is let through at once.
    pub(crate) fn push(&mut self, call: WaitingCall, is_let_through: bool)
        requires room { HasCallRoom self.old }
        requires free { HasNoCall call.session self.old }
        ensures calls { calls_in self.new ≡ calls_in self.old ++ call ∷ [] }
        ensures marks { (rs : List Request) → AreMarked rs self.old → (awaits_record call ≡ false → is_waiting call.txn rs ≡ false → is_let_through ≡ true) → AreMarked rs self.new }
    {
        self.calls.push_reserved(call);
        self.let_through.push_reserved(is_let_through);
    }

    /// The call of a session waits no more, and is handed over.
    pub(crate) fn take(&mut self, session: SessionId) -> Option<WaitingCall>
        ensures some { IfSome result (λ w. IsAmong w (calls_in self.old) × (w.session ≡ session)) }
        ensures none { IfNone result (HasNoCall session self.old) }
        ensures free { HasNoCall session self.new }
        ensures room { IsSome result → HasCallRoom self.new }
        ensures left { calls_in self.new ≡ filter (λ (w : WaitingCall). not (w.session == session)) (calls_in self.old) }
        ensures marks { (rs : List Request) → AreMarked rs self.old → AreMarked rs self.new }
    {
        let index = self.index_of(session)?;
        self.let_through.remove(index);
        Some(self.calls.remove(index))
    }

    // ---- calls that were let through

    /// The place of the first call, from this one on, that was let through. None if no call was.
    pub(crate) fn next_let_through(&self, from: usize) -> Option<usize>
        ensures some { IfSome result (λ place. (from ≤ place) × (place < length (calls_in self.now)) × IsMarked place self.now) }
        ensures first { IfSome result (λ place. IsNoneMarked self.now from place) }
        ensures none { IfNone result (IsNoneMarked self.now from (length (calls_in self.now))) }
        ensures small { length (calls_in self.now) < 2 ^ 63 }
    {
        for place in from..self.let_through.len() {
            if self.let_through[place] {
                return Some(place);
            }
        }
        None
    }

    /// These transactions were let through, and with each its call. If they are more than are told, all calls are looked at.
    pub(crate) fn note_let_through(&mut self, let_through: &LetThrough, locks: &LockTable)
        ensures calls { calls_in self.new ≡ calls_in self.old }
        ensures room { HasCallRoom self.old → HasCallRoom self.new }
        ensures marks { AreMarkedBut let_through.now locks.now.requests self.old → AreMarked locks.now.requests self.new }
    {
        match let_through.all() {
            Some(txns) => {
                for txn in txns {
                    self.mark(*txn);
                }
            }
            None => self.mark_all(locks),
        }
    }

    /// There may be others, of whom it is not known who they are: then all calls are looked at.
    pub(crate) fn note_others(&mut self, may_be: bool, locks: &LockTable)
        ensures calls { calls_in self.new ≡ calls_in self.old }
        ensures room { HasCallRoom self.old → HasCallRoom self.new }
        ensures keeps { (n : ℕ) → IsMarked n self.old → IsMarked n self.new }
        ensures marks { IsTrue may_be → AreMarked locks.now.requests self.new }
        ensures none { may_be ≡ false → self.new ≡ self.old }
    {
        if may_be {
            self.mark_all(locks);
        }
    }

    // The calls of a transaction were let through.
    fn mark(&mut self, txn: TxnId)
        ensures calls { calls_in self.new ≡ calls_in self.old }
        ensures room { HasCallRoom self.old → HasCallRoom self.new }
        ensures keeps { (n : ℕ) → IsMarked n self.old → IsMarked n self.new }
        ensures marked { (n : ℕ) (w : WaitingCall) → slice_get (calls_in self.old) n ≡ Some w → w.txn ≡ txn → IsMarked n self.new }
        ensures only { (n : ℕ) (w : WaitingCall) → slice_get (calls_in self.old) n ≡ Some w → w.txn ≢ txn → IsMarked n self.new → IsMarked n self.old }
    {
        for place in 0..self.calls.len() {
            if self.calls[place].txn == txn {
                self.let_through[place] = true;
            }
        }
    }

    // Each call whose transaction does not wait was let through.
    fn mark_all(&mut self, locks: &LockTable)
        ensures calls { calls_in self.new ≡ calls_in self.old }
        ensures room { HasCallRoom self.old → HasCallRoom self.new }
        ensures keeps { (n : ℕ) → IsMarked n self.old → IsMarked n self.new }
        ensures marked { AreMarked locks.now.requests self.new }
        ensures only { (n : ℕ) (w : WaitingCall) → slice_get (calls_in self.old) n ≡ Some w → IsTrue (is_waiting w.txn locks.now.requests) → IsMarked n self.new → IsMarked n self.old }
    {
        for place in 0..self.calls.len() {
            if !locks.is_waiting(self.calls[place].txn) {
                self.let_through[place] = true;
            }
        }
    }
}

// Whether a call is a resolve.
fn asks_to_resolve(call: &Call) -> bool
    ensures { result ≡ asks_resolve call.now }
{
    matches!(call, Call::Resolve(..))
}

// Whether a call resolves the transaction that has this name.
fn resolves_name(call: &Call, global: &GlobalId) -> bool
    ensures some { IsTrue result → (asked : Outcome) × (call.now ≡ Call.Resolve global.now asked) }
    ensures none { IsFalse result → (asked : Outcome) → call.now ≢ Call.Resolve global.now asked }
{
    match call {
        Call::Resolve(resolved, _) => *resolved == *global,
        _ => false,
    }
}
