//! What is promised of locks and waits.
ghost use Rattle.std.specs.Prelude.{◌≡◌, ◌≢◌, ◌⊎◌, ◌<◌, ◌≤◌, ◌∷◌, ◌++◌, ℕ, List, [], All, false, length, take, true};
ghost use Rattle.shore_types.specs.declared.faults.Fault.{Fault};
ghost use Rattle.shore_types.specs.declared.faults.Fault.TheVariants as fault;
ghost use Rattle.shore_types.specs.declared.locking.Granule.{Granule};
ghost use Rattle.shore_model.specs.Calls.{IsServed};
ghost use Rattle.shore_model.specs.Histories.{RunsAloneAfter, decisions, free, session_state};
ghost use Rattle.shore_model.specs.Locks.{Harmony, WellRooted};
ghost use Rattle.shore_model.specs.Requests.{HasNoCycle, held_by_all};
ghost use Rattle.shore_model.specs.declared.calls.Answer.{Answer};
ghost use Rattle.shore_model.specs.declared.calls.Answer.TheVariants.{Aborted, Committed};
ghost use Rattle.shore_model.specs.declared.calls.Call.TheVariants.{Abort, Commit, Resolve};
ghost use Rattle.shore_model.specs.declared.calls.Call.{Call};
ghost use Rattle.shore_model.specs.declared.calls.Outcome.{Outcome};
ghost use Rattle.shore_model.specs.declared.histories.Decision.{Decision};
ghost use Rattle.shore_model.specs.declared.histories.Entry.{Entry};
ghost use Rattle.shore_model.specs.declared.histories.Opening.{Opening};
ghost use Rattle.shore_model.specs.declared.step.Step.TheVariants.{Done, Nothing, Refused, Waits};
ghost use Rattle.shore_model.specs.declared.step.Step.{Step};
ghost use Rattle.shore_model.specs.declared.step.Wait.TheVariants.{Durable, Lock};
ghost use Rattle.shore_locks.specs.Grants.{cancelled, released};
ghost use Rattle.shore_locks.specs.Tables.{is_waiting};
ghost use Rattle.laws_lives.specs.GranuleLocks.{HasLocksFor};
ghost use Rattle.laws_lives.specs.LogPrefixes.{decisions_in};
ghost use Rattle.laws_lives.specs.Sessions.{SessionTxn, in_txn};
ghost use Rattle.laws_lives.specs.Soundness.{decided_txn, history_from};
ghost use Rattle.laws_lives.specs.Views.{IsAmong};
ghost use Rattle.laws_calls.specs.LockChanges.{ChangesLocks};
ghost use Rattle.laws_calls.specs.Midway.{HasItsWait, Interlude, Intervene, IsMidway, cycles_among};
ghost use Rattle.laws_calls.specs.StateChanges.{answered};
ghost use Rattle.laws_calls.specs.Shapes.{EndsAtOnce, IsNoRefusal, ResolvesTxn, WaitsForItsRecord};
ghost use Rattle.laws_calls.specs.States.{DoesNotWait, IsOfSession, State, Waiting};
ghost use Rattle.shore_world.specs.declared.event.Event.TheVariants as event;
ghost use Rattle.shore_world.specs.declared.event.Event.{Event};
ghost use Rattle.shore_world.specs.declared.world.World.{World};
ghost use Rattle.shore_world.specs.Events.{IsServedEvent};
ghost use Rattle.shore_world.specs.EventMoves.{PlainMove};
ghost use Rattle.shore_world.specs.Exchanges.{waited_after};
ghost use Rattle.shore_world.specs.Promises.{GoesOnAs, HasStood, IsManagerOf, IsToldByItsFirst};
ghost use Rattle.laws_calls.specs.SessionWaits.{IsDecisionWait};
ghost use Rattle.shore_world.specs.Worlds.{Runs, Steps, durable_in, geometry_in, last_in, requests_in};

use shore_disk::Disk;

/// Locks in harmony: after each event no lock that is held conflicts with another along any path, each has its intentions on all that its granule lies in, and
/// no cycle of waits stands.
pub fn locks_are_in_harmony<L: Disk, V: Disk>()
    ensures held { (w : World L V L.Disk V.Disk) (o : Opening) (es : List Entry) (ws : List (ℕ × Call)) → IsManagerOf w o es ws →
        Harmony (held_by_all (requests_in w)) × WellRooted (held_by_all (requests_in w)) }
    ensures no_cycle { (w : World L V L.Disk V.Disk) (o : Opening) (es : List Entry) (ws : List (ℕ × Call)) → IsManagerOf w o es ws → HasNoCycle (requests_in w) }
{}

/// A cycle that is told stood: of a run from a manager in which no call waits, as one is that was just opened, each resume that is refused with a cycle is told one
/// that stood in the midst of an event of the run, perhaps of this very resume, from the session's transaction on, the greatest of it. It is told in that very
/// transaction: the one with which the cycle begins.
pub fn cycles_that_are_told_stood<L: Disk, V: Disk>()
    ensures stood { (w last new : World L V L.Disk V.Disk) (o : Opening) (es : List Entry) (events : List Event) (steps : List Step) (moves : List PlainMove) (session : ℕ) (cycle : List ℕ) →
        IsManagerOf w o es [] → All IsServedEvent events → Runs w events steps moves last → Steps last (event.Resume session) (Refused (fault.Deadlock cycle)) new →
        HasStood w o es [] (events ++ event.Resume session ∷ []) (steps ++ Refused (fault.Deadlock cycle) ∷ []) new session cycle }
    ensures first { (w last new : World L V L.Disk V.Disk) (o : Opening) (es : List Entry) (events : List Event) (steps : List Step) (moves : List PlainMove) (session : ℕ) (cycle : List ℕ) →
        IsManagerOf w o es [] → All IsServedEvent events → Runs w events steps moves last → Steps last (event.Resume session) (Refused (fault.Deadlock cycle)) new →
        IsToldByItsFirst new o (waited_after [] events steps) session cycle }
{}

/// Waits are true: who waits for a lock has a request that waits at that very granule. Only a prepare and a resolve wait for a record: for that of their
/// decision, which the log has, and which is not durable then; and as they are resumed they wait on only as long as that is so. A wait is taken back of a call alone whose
/// request waits, and neither waits after that.
pub fn waits_are_true<L: Disk, V: Disk>()
    ensures lock { (w new : World L V L.Disk V.Disk) (o : Opening) (es : List Entry) (ws : List (ℕ × Call)) (session : ℕ) (c : Call) (at : Granule) →
        IsManagerOf w o es ws → IsServed c → Steps w (event.Call session c) (Waits (Lock at)) new →
        (on : GoesOnAs new o es ws (event.Call session c) (Waits (Lock at))) × HasItsWait on.manager.now.state session at }
    ensures resumed { (w new : World L V L.Disk V.Disk) (o : Opening) (es : List Entry) (ws : List (ℕ × Call)) (session : ℕ) (at : Granule) →
        IsManagerOf w o es ws → Steps w (event.Resume session) (Waits (Lock at)) new →
        (on : GoesOnAs new o es ws (event.Resume session) (Waits (Lock at))) × HasItsWait on.manager.now.state session at }
    ensures record_of { (w new : World L V L.Disk V.Disk) (o : Opening) (es : List Entry) (ws : List (ℕ × Call)) (session n : ℕ) (c : Call) →
        (k : IsManagerOf w o es ws) → IsServed c → Steps w (event.Call session c) (Waits (Durable n)) new → (on : GoesOnAs new o es ws (event.Call session c) (Waits (Durable n)))
        × WaitsForItsRecord k.now.state session c n on.manager.now.state × (durable_in new < n) × (n ≤ last_in new) }
    ensures record_on { (w new : World L V L.Disk V.Disk) (o : Opening) (es : List Entry) (ws : List (ℕ × Call)) (session n : ℕ) →
        (k : IsManagerOf w o es ws) → Steps w (event.Resume session) (Waits (Durable n)) new →
        (waited : Waiting) × IsAmong waited k.now.state.waiting × (waited.session ≡ session) × (waited.wait ≡ Durable n)
        × IsDecisionWait (length k.found) k.now.state waited × (durable_in w < n) }
    ensures given_up { (w new : World L V L.Disk V.Disk) (o : Opening) (es : List Entry) (ws : List (ℕ × Call)) (session : ℕ) (f : Fault) →
        (k : IsManagerOf w o es ws) → Steps w (event.GiveUp session) (Refused f) new → ((at : Granule) × HasItsWait k.now.state session at)
        × ((on : GoesOnAs new o es ws (event.GiveUp session) (Refused f)) × DoesNotWait on.manager.now.state session
        × ((a : SessionTxn) × IsOfSession on.manager.now.state session a × (is_waiting a.txn (requests_in new) ≡ false))) }
{}

/// No reader is kept without what it read. All that the transaction has been answered which a session is in now it might have been answered alone, on what the decisions
/// of now have left, lazy commits too; and a prefix of a later log, such as a crash may leave, that has a decision of it has all of these.
pub fn readers_are_not_kept_alone<L: Disk, V: Disk>()
    ensures read { (w : World L V L.Disk V.Disk) (o : Opening) (es : List Entry) (ws : List (ℕ × Call)) (session t : ℕ) → IsManagerOf w o es ws → session_state session free es ≡ in_txn t → 0 < t →
        RunsAloneAfter (history_from o es) (decisions es) t }
    ensures kept { (w last : World L V L.Disk V.Disk) (o : Opening) (es : List Entry) (ws : List (ℕ × Call)) (events : List Event) (steps : List Step) (moves : List PlainMove) (session t : ℕ) →
        IsManagerOf w o es ws → All IsServedEvent events → Runs w events steps moves last → session_state session free es ≡ in_txn t → 0 < t →
        (made : List Entry) × ((on : IsManagerOf last o (es ++ made) (waited_after ws events steps)) × ((n : ℕ) (d before : Decision) → decided_txn d ≡ t →
        IsAmong d (decisions_in (length on.found) (take n on.now.state.log)) → IsAmong before (decisions es) → IsAmong before (decisions_in (length on.found) (take n on.now.state.log)))) }
{}

/// Locks only as asked: by a call the requests stay; or a commit or an abort is answered, or a resolve decided and carried out, and all of its transaction's go; or they
/// change as the call asks, whatever victims were taken on the way (`ChangesLocks`). So it is by a resume, for the call that waited. A wait that is taken back takes one request back. No other event changes them (`others`).
pub fn locks_change_only_as_asked<L: Disk, V: Disk>()
    ensures call { (w new : World L V L.Disk V.Disk) (o : Opening) (es : List Entry) (ws : List (ℕ × Call)) (session : ℕ) (c : Call) (step : Step) →
        (k : IsManagerOf w o es ws) → IsServed c → Steps w (event.Call session c) step new → (requests_in new ≡ requests_in w)
        ⊎ (((EndsAtOnce k.now.state c step × ((a : SessionTxn) × IsOfSession k.now.state session a × (requests_in new ≡ released a.txn (requests_in w))))
        ⊎ ((a : SessionTxn) × ResolvesTxn k.now.state c a × IsNoRefusal step × (requests_in new ≡ released a.txn (requests_in w))))
        ⊎ ((a : SessionTxn) × IsOfSession k.now.state session a × ((between : List Interlude)
        × ((between ≡ []) ⊎ ((mid : State) × IsMidway (geometry_in w) k.now.state session c between mid))
        × ChangesLocks (requests_in w) a.txn c (cycles_among between) (requests_in new)))) }
    ensures resume { (w new : World L V L.Disk V.Disk) (o : Opening) (es : List Entry) (ws : List (ℕ × Call)) (session : ℕ) (step : Step) →
        (k : IsManagerOf w o es ws) → Steps w (event.Resume session) step new → (requests_in new ≡ requests_in w)
        ⊎ ((waited : Waiting) × IsAmong waited k.now.state.waiting × (waited.session ≡ session) × ((a : SessionTxn) × IsOfSession k.now.state session a
        × ((between : List Interlude) × ((mid : State) × Intervene (geometry_in w) session k.now.state between mid)
        × ChangesLocks (requests_in w) a.txn waited.call (cycles_among between) (requests_in new)))) }
    ensures give_up { (w new : World L V L.Disk V.Disk) (o : Opening) (es : List Entry) (ws : List (ℕ × Call)) (session : ℕ) (step : Step) →
        (k : IsManagerOf w o es ws) → Steps w (event.GiveUp session) step new → ((step ≡ Nothing) × (requests_in new ≡ requests_in w))
        ⊎ ((f : Fault) × (step ≡ Refused f) × ((a : SessionTxn) × IsOfSession k.now.state session a × (requests_in new ≡ cancelled a.txn (requests_in w)))) }
    ensures others { (w new : World L V L.Disk V.Disk) (o : Opening) (es : List Entry) (ws : List (ℕ × Call)) (e : Event) (step : Step) → IsManagerOf w o es ws → IsServedEvent e →
        ((session : ℕ) (c : Call) → e ≢ event.Call session c) → ((session : ℕ) → e ≢ event.Resume session) → ((session : ℕ) → e ≢ event.GiveUp session) → Steps w e step new →
        requests_in new ≡ requests_in w }
{}

/// An answered call has its locks: its transaction holds then what the answer needs, by a lock of its own or by one above that covers it (`HasLocksFor`). So it is of a resume, for the call that waited.
pub fn answered_calls_have_locks<L: Disk, V: Disk>()
    ensures call { (w new : World L V L.Disk V.Disk) (o : Opening) (es : List Entry) (ws : List (ℕ × Call)) (session : ℕ) (c : Call) (answer : Answer) (a : SessionTxn) →
        (k : IsManagerOf w o es ws) → IsServed c → Steps w (event.Call session c) (Done answer) new → IsOfSession k.now.state session a →
        HasLocksFor (held_by_all (requests_in new)) a.txn c answer }
    ensures resume { (w new : World L V L.Disk V.Disk) (o : Opening) (es : List Entry) (ws : List (ℕ × Call)) (session : ℕ) (answer : Answer) →
        (k : IsManagerOf w o es ws) → Steps w (event.Resume session) (Done answer) new → (waited : Waiting) × IsAmong waited k.now.state.waiting × (waited.session ≡ session)
        × ((a : SessionTxn) → IsOfSession k.now.state session a → HasLocksFor (held_by_all (requests_in new)) a.txn waited.call answer) }
{}

/// Locks go with decisions: a resolve that is not refused leaves no request of the transaction that it resolves, nor does the answer of a commit or of an abort leave
/// one of its own.
pub fn locks_go_with_decisions<L: Disk, V: Disk>()
    ensures resolve { (w new : World L V L.Disk V.Disk) (o : Opening) (es : List Entry) (ws : List (ℕ × Call)) (session : ℕ) (global : List ℕ) (asked : Outcome) (step : Step) →
        (k : IsManagerOf w o es ws) → Steps w (event.Call session (Resolve global asked)) step new → IsNoRefusal step →
        (a : SessionTxn) × ResolvesTxn k.now.state (Resolve global asked) a × All (λ r. r.txn ≢ a.txn) (requests_in new) }
    ensures commit { (w new : World L V L.Disk V.Disk) (o : Opening) (es : List Entry) (ws : List (ℕ × Call)) (session ticket : ℕ) →
        (k : IsManagerOf w o es ws) → Steps w (event.Call session Commit) (Done (Committed ticket)) new →
        (a : SessionTxn) × IsOfSession k.now.state session a × All (λ r. r.txn ≢ a.txn) (requests_in new) }
    ensures abort { (w new : World L V L.Disk V.Disk) (o : Opening) (es : List Entry) (ws : List (ℕ × Call)) (session : ℕ) →
        (k : IsManagerOf w o es ws) → Steps w (event.Call session Abort) (Done Aborted) new →
        (a : SessionTxn) × IsOfSession k.now.state session a × All (λ r. r.txn ≢ a.txn) (requests_in new) }
{}
