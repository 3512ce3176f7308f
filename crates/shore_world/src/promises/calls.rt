//! What is promised of calls: what they answer, why they are refused, and what a rollback leaves.
ghost use Rattle.std.specs.Cmp.Lexicographic.{slice_cmp};
ghost use Rattle.std.specs.FinMap.{is_sorted};
ghost use Rattle.std.specs.List.Sorted.{IsStrictlySortedBy};
ghost use Rattle.std.specs.Ordering.{nat_cmp};
ghost use Rattle.std.specs.Prelude.{◌≡◌, ◌≢◌, ◌↔◌, ◌⊎◌, ◌<◌, ◌≤◌, ◌∷◌, ◌++◌, ℕ, Bool, List, [], IsTrue, None, Some, length, true};
ghost use Rattle.shore_types.specs.declared.faults.Device.{Device};
ghost use Rattle.shore_types.specs.declared.faults.Fault.{Fault};
ghost use Rattle.shore_types.specs.declared.faults.Fault.TheVariants as fault;
ghost use Rattle.shore_types.specs.Locking.{granule_cmp};
ghost use Rattle.shore_types.specs.declared.locking.Granule.{Granule};
ghost use Rattle.shore_model.specs.Calls.{IsServed};
ghost use Rattle.shore_model.specs.Histories.{decisions, free, in_doubt, session_state};
ghost use Rattle.shore_model.specs.Requests.{WaitsFor, held_by_all, placed_last};
ghost use Rattle.shore_model.specs.declared.requests.Request.{Request};
ghost use Rattle.shore_model.specs.declared.calls.Answer.{Answer};
ghost use Rattle.shore_model.specs.declared.calls.Answer.TheVariants.{AreInDoubt, Committed, IsDurable, WentBack};
ghost use Rattle.shore_model.specs.declared.calls.Call.TheVariants.{Abort, BackTo, Commit, InDoubt, Prepare, Resolve};
ghost use Rattle.shore_model.specs.declared.calls.Call.{Call};
ghost use Rattle.shore_model.specs.declared.calls.Outcome.{Outcome};
ghost use Rattle.shore_model.specs.declared.histories.Decision.{Decision};
ghost use Rattle.shore_model.specs.declared.histories.Entry.{Entry};
ghost use Rattle.shore_model.specs.declared.histories.Opening.{Opening};
ghost use Rattle.shore_model.specs.declared.log_records.Payload.TheVariants as logged;
ghost use Rattle.shore_model.specs.declared.rollbacks.Rollback.{Rollback};
ghost use Rattle.shore_model.specs.declared.rollbacks.Rollback.TheVariants.{Whole};
ghost use Rattle.shore_model.specs.declared.step.Step.TheVariants.{Done, Nothing, Refused, Waits};
ghost use Rattle.shore_model.specs.declared.step.Step.{Step};
ghost use Rattle.shore_model.specs.declared.step.Wait.TheVariants.{Durable};
ghost use Rattle.shore_model.specs.declared.step.Wait.{Wait};
ghost use Rattle.shore_locks.specs.Grants.{released};
ghost use Rattle.shore_locks.specs.Tables.{waiting_request};
ghost use Rattle.laws_lives.specs.LogPrefixes.{decisions_in};
ghost use Rattle.laws_lives.specs.Logged.{and_record};
ghost use Rattle.laws_lives.specs.SessionSteps.{AreExclusive};
ghost use Rattle.laws_lives.specs.Sessions.{SessionTxn};
ghost use Rattle.laws_lives.specs.Views.{IsAmong};
ghost use Rattle.laws_calls.specs.CallSteps.{CallStep, NeedsTxn, aborted};
ghost use Rattle.laws_calls.specs.Causes.{EarnsRefusal};
ghost use Rattle.laws_calls.specs.Midway.{AsksAgainIn, AsksIn, Interlude, Intervene, IsItsCycle, IsMidway, but_doomed, victims_among};
ghost use Rattle.laws_calls.specs.Resolves.{DecidesRollback, IsRollingBack, rollback_done};
ghost use Rattle.laws_calls.specs.Rollbacks.{Interrupts, IsInterrupted, IsUnwound};
ghost use Rattle.laws_calls.specs.StateChanges.{after_refusal, answered};
ghost use Rattle.laws_calls.specs.Shapes.{IsLackOfRoom, ResolvesTxn, rollback_of};
ghost use Rattle.laws_calls.specs.States.{IsOfSession, State, Waiting};
ghost use Rattle.laws_calls.specs.Victims.{TellsVictim};
ghost use Rattle.shore_world.specs.declared.event.Event.TheVariants as event;
ghost use Rattle.shore_world.specs.declared.event.Event.{Event};
ghost use Rattle.shore_world.specs.declared.world.World.{World};
ghost use Rattle.shore_world.specs.Promises.{GoesOnAs, IsAskedFor, IsManagerOf, gained};
ghost use Rattle.laws_calls.specs.SessionWaits.{HasTheFirst};
ghost use Rattle.shore_world.specs.Worlds.{IsUnchanged, Steps, durable_in, failed_in, geometry_in, last_in, requests_in};

use shore_disk::Disk;

/// Nothing is decided but by the call that asks for it: the records that a call appends decide nothing, or one thing, which it asks for (`IsAskedFor`), of the transaction
/// that its session is in or that it resolves. A commit decides as it is answered, and a prepare and a resolve before that. A resume, an ask, a force, a flush and a checkpoint
/// append no decision.
pub fn decisions_come_by_the_calls_that_ask_for_them<L: Disk, V: Disk>()
    ensures call { (w new : World L V L.Disk V.Disk) (o : Opening) (es : List Entry) (ws : List (ℕ × Call)) (session : ℕ) (c : Call) (step : Step) →
        (k : IsManagerOf w o es ws) → IsServed c → Steps w (event.Call session c) step new → (decisions_in 0 (gained w new) ≡ [])
        ⊎ ((a : SessionTxn) × (d : Decision) × (decisions_in 0 (gained w new) ≡ d ∷ []) × IsAskedFor a.txn c step d
        × (IsOfSession k.now.state session a ⊎ ResolvesTxn k.now.state c a)) }
    ensures others { (w new : World L V L.Disk V.Disk) (o : Opening) (es : List Entry) (ws : List (ℕ × Call)) (e : Event) (step : Step) →
        IsManagerOf w o es ws → ((session : ℕ) (c : Call) → e ≢ event.Call session c) → Steps w e step new → decisions_in 0 (gained w new) ≡ [] }
{}

/// A prepare that waits has appended its record, which lists, rising, all granules that its transaction holds in EX, and no others.
pub fn prepares_list_what_is_held<L: Disk, V: Disk>()
    ensures { (w new : World L V L.Disk V.Disk) (o : Opening) (es : List Entry) (ws : List (ℕ × Call)) (session n : ℕ) (global : List ℕ) → (k : IsManagerOf w o es ws) →
        Steps w (event.Call session (Prepare global)) (Waits (Durable n)) new → (on : GoesOnAs new o es ws (event.Call session (Prepare global)) (Waits (Durable n)))
        × ((a : SessionTxn) × IsOfSession k.now.state session a × ((granules : List Granule)
        × (on.manager.now.state.log ≡ and_record a.txn k.now.state.log (logged.Prepare global granules)) × AreExclusive (held_by_all (requests_in w)) a.txn granules
        × IsStrictlySortedBy granule_cmp granules)) }
{}

/// Who is in doubt is told to whoever asks: those, and nobody else, whom the history has prepared and not decided further, its opening's too, rising by the bytes of their
/// global ids.
pub fn those_in_doubt_are_listed<L: Disk, V: Disk>()
    ensures each { (w new : World L V L.Disk V.Disk) (o : Opening) (es : List Entry) (ws : List (ℕ × Call)) (session t : ℕ) (global : List ℕ) (pairs : List (List ℕ × ℕ)) →
        IsManagerOf w o es ws → Steps w (event.Call session InDoubt) (Done (AreInDoubt pairs)) new → IsAmong (global, t) pairs → IsAmong (t, global) (in_doubt o.in_doubt (decisions es)) }
    ensures all { (w new : World L V L.Disk V.Disk) (o : Opening) (es : List Entry) (ws : List (ℕ × Call)) (session t : ℕ) (global : List ℕ) (pairs : List (List ℕ × ℕ)) →
        IsManagerOf w o es ws → Steps w (event.Call session InDoubt) (Done (AreInDoubt pairs)) new → IsAmong (t, global) (in_doubt o.in_doubt (decisions es)) → IsAmong (global, t) pairs }
    ensures rising { (w new : World L V L.Disk V.Disk) (o : Opening) (es : List Entry) (ws : List (ℕ × Call)) (session : ℕ) (pairs : List (List ℕ × ℕ)) →
        IsManagerOf w o es ws → Steps w (event.Call session InDoubt) (Done (AreInDoubt pairs)) new → IsTrue (is_sorted (slice_cmp nat_cmp) pairs) }
{}

/// Undo is never refused: neither an abort nor a way back nor a resolve to abort is refused by `StoreFull`, `LogFull`, `LockTableFull` or as a victim.
pub fn undo_is_never_refused<L: Disk, V: Disk>()
    ensures { (w new : World L V L.Disk V.Disk) (o : Opening) (es : List Entry) (ws : List (ℕ × Call)) (session : ℕ) (c : Call) (r : Rollback) (f : Fault) →
        IsManagerOf w o es ws → IsServed c → Steps w (event.Call session c) (Refused f) new → rollback_of c ≡ Some r → IsLackOfRoom f → ⊥ }
{}

/// Nor is a resolve, either way, refused so.
pub fn resolves_are_never_refused_for_room<L: Disk, V: Disk>()
    ensures { (w new : World L V L.Disk V.Disk) (o : Opening) (es : List Entry) (ws : List (ℕ × Call)) (session : ℕ) (global : List ℕ) (asked : Outcome) (f : Fault) →
        IsManagerOf w o es ws → Steps w (event.Call session (Resolve global asked)) (Refused f) new → IsLackOfRoom f → ⊥ }
{}

/// A rollback that is refused was refused before it began, and left all as it was; or it was interrupted, and has put back the newest of its images, or none, and logged them (`IsUnwound`). So it is of
/// a resolve to abort, which has logged its decision before.
pub fn interrupted_rollbacks_keep_their_steps<L: Disk, V: Disk>()
    ensures call { (w new : World L V L.Disk V.Disk) (o : Opening) (es : List Entry) (ws : List (ℕ × Call)) (session : ℕ) (c : Call) (r : Rollback) (f : Fault) →
        (k : IsManagerOf w o es ws) → IsServed c → NeedsTxn c → rollback_of c ≡ Some r → Steps w (event.Call session c) (Refused f) new →
        (on : GoesOnAs new o es ws (event.Call session c) (Refused f)) × ((on.manager.now.state ≡ k.now.state)
        ⊎ ((a : SessionTxn) × IsOfSession k.now.state session a
        × ((mid : State) × IsUnwound k.now.state a r mid × Interrupts mid f × (on.manager.now.state ≡ after_refusal f mid)))) }
    ensures resolve { (w new : World L V L.Disk V.Disk) (o : Opening) (es : List Entry) (ws : List (ℕ × Call)) (session : ℕ) (global : List ℕ) (asked : Outcome) (f : Fault) →
        (k : IsManagerOf w o es ws) → IsServed (Resolve global asked) → Steps w (event.Call session (Resolve global asked)) (Refused f) new →
        (on : GoesOnAs new o es ws (event.Call session (Resolve global asked)) (Refused f)) × ((on.manager.now.state ≡ k.now.state)
        ⊎ ((b : SessionTxn) × (decided : State) × DecidesRollback k.now.state global b decided × IsInterrupted decided b Whole f on.manager.now.state)) }
{}

/// A rollback that was interrupted ends as one that was not. As long as the manager runs on, an abort that is refused leaves its transaction in a state from which an abort comes to what it would have come to before (`abort`),
/// and an abort that is answered comes to that (`aborts`); so whatever was put back by then, and however often it was refused, the same is left. So it is of a way back (`back`, `goes_back`), and of a resolve from its decision on, which it has
/// logged once (`resolve`).
pub fn interrupted_rollbacks_end_alike<L: Disk, V: Disk>()
    ensures abort { (w new : World L V L.Disk V.Disk) (o : Opening) (es : List Entry) (ws : List (ℕ × Call)) (session : ℕ) (f : Fault) (a : SessionTxn) →
        (k : IsManagerOf w o es ws) → IsOfSession k.now.state session a → Steps w (event.Call session Abort) (Refused f) new →
        f ≢ fault.Device → ((device : Device) (offset : ℕ) → f ≢ fault.Damaged device offset) → (on : GoesOnAs new o es ws (event.Call session Abort) (Refused f))
        × ((b : SessionTxn) × IsOfSession on.manager.now.state session b × (aborted on.manager.now.state b ≡ aborted k.now.state a)) }
    ensures aborts { (w new : World L V L.Disk V.Disk) (o : Opening) (es : List Entry) (ws : List (ℕ × Call)) (session : ℕ) (answer : Answer) (a : SessionTxn) →
        (k : IsManagerOf w o es ws) → IsOfSession k.now.state session a → Steps w (event.Call session Abort) (Done answer) new →
        (on : GoesOnAs new o es ws (event.Call session Abort) (Done answer)) × (on.manager.now.state ≡ aborted k.now.state a) }
    ensures back { (w new : World L V L.Disk V.Disk) (o : Opening) (es : List Entry) (ws : List (ℕ × Call)) (session n : ℕ) (f : Fault) (a : SessionTxn) →
        (k : IsManagerOf w o es ws) → IsOfSession k.now.state session a → n < length a.undo.marks → Steps w (event.Call session (BackTo n)) (Refused f) new →
        f ≢ fault.Device → ((device : Device) (offset : ℕ) → f ≢ fault.Damaged device offset) → (on : GoesOnAs new o es ws (event.Call session (BackTo n)) (Refused f))
        × ((b : SessionTxn) × IsOfSession on.manager.now.state session b × (n < length b.undo.marks)
        × (answered on.manager.now.state b (BackTo n) WentBack on.manager.now.state.counts ≡ answered k.now.state a (BackTo n) WentBack k.now.state.counts)) }
    ensures goes_back { (w new : World L V L.Disk V.Disk) (o : Opening) (es : List Entry) (ws : List (ℕ × Call)) (session n : ℕ) (answer : Answer) (a : SessionTxn) →
        (k : IsManagerOf w o es ws) → IsOfSession k.now.state session a → Steps w (event.Call session (BackTo n)) (Done answer) new →
        (on : GoesOnAs new o es ws (event.Call session (BackTo n)) (Done answer)) × (n < length a.undo.marks) × (answer ≡ WentBack)
        × (on.manager.now.state ≡ answered k.now.state a (BackTo n) WentBack k.now.state.counts) }
    ensures resolve { (w new : World L V L.Disk V.Disk) (o : Opening) (es : List Entry) (ws : List (ℕ × Call)) (session : ℕ) (global : List ℕ) (asked : Outcome) (f : Fault) →
        (k : IsManagerOf w o es ws) → IsServed (Resolve global asked) → Steps w (event.Call session (Resolve global asked)) (Refused f) new →
        f ≢ fault.Device → ((device : Device) (offset : ℕ) → f ≢ fault.Damaged device offset) → (on : GoesOnAs new o es ws (event.Call session (Resolve global asked)) (Refused f))
        × ((on.manager.now.state ≡ k.now.state) ⊎ ((b : SessionTxn) × (decided : State) × DecidesRollback k.now.state global b decided
        × ((later : SessionTxn) × IsRollingBack on.manager.now.state later global × (rollback_done on.manager.now.state later ≡ rollback_done decided b)))) }
{}

/// Refusals are earned: `EarnsRefusal` says for each fault what its cause is, in the state in which the call asked last (`AsksIn`, `AsksAgainIn`), from which one
/// step leads to what is left (`CallStep`): so it is the first cause in the order of a call. That is the state before the event, or one that victims have
/// left in the midst of it. A `Deadlock` is told with a cycle of waits that stood within this very event, or was to be told before. `Memory` has its
/// cause outside; of `Device`, `Damaged` and `NeedForce` the clauses `cause`, `damaged` and `unforced` of `World::step` say more. The limit of the lock table that `LockTableFull` comes at is the
/// label's (`full`, of a call).
pub fn refusals_are_earned<L: Disk, V: Disk>()
    ensures call { (w new : World L V L.Disk V.Disk) (o : Opening) (es : List Entry) (ws : List (ℕ × Call)) (session : ℕ) (c : Call) (f : Fault) →
        (k : IsManagerOf w o es ws) → IsServed c → Steps w (event.Call session c) (Refused f) new → ((cycle : List ℕ) → f ≢ fault.Deadlock cycle) → f ≢ fault.Memory →
        (on : GoesOnAs new o es ws (event.Call session c) (Refused f)) × ((last : State) × AsksIn (geometry_in w) k.now.state session c last
        × CallStep (geometry_in w) last session c (Refused f) on.manager.now.state × EarnsRefusal (geometry_in w) last session c f) }
    ensures resume { (w new : World L V L.Disk V.Disk) (o : Opening) (es : List Entry) (ws : List (ℕ × Call)) (session : ℕ) (f : Fault) →
        (k : IsManagerOf w o es ws) → Steps w (event.Resume session) (Refused f) new → ((cycle : List ℕ) → f ≢ fault.Deadlock cycle) → f ≢ fault.Memory →
        (on : GoesOnAs new o es ws (event.Resume session) (Refused f)) × ((waited : Waiting) × IsAmong waited k.now.state.waiting × (waited.session ≡ session)
        × ((IsTrue k.now.state.failed × (f ≡ fault.Failed)) ⊎ ((last : State) × AsksAgainIn (geometry_in w) k.now.state session last
        × CallStep (geometry_in w) last session waited.call (Refused f) on.manager.now.state × EarnsRefusal (geometry_in w) last session waited.call f))) }
    ensures victim { (w new : World L V L.Disk V.Disk) (o : Opening) (es : List Entry) (ws : List (ℕ × Call)) (session : ℕ) (c : Call) (cycle : List ℕ) →
        (k : IsManagerOf w o es ws) → IsServed c → Steps w (event.Call session c) (Refused (fault.Deadlock cycle)) new →
        (on : GoesOnAs new o es ws (event.Call session c) (Refused (fault.Deadlock cycle))) × HasTheFirst on.manager.now.state session cycle × ((between : List Interlude) × (mid : State)
        × IsMidway (geometry_in w) k.now.state session c between mid × IsItsCycle mid session cycle × ((later : List Interlude) × (from : State)
        × Intervene (geometry_in w) session mid later from × TellsVictim from session (Refused (fault.Deadlock cycle)) on.manager.now.state)) }
    ensures told { (w new : World L V L.Disk V.Disk) (o : Opening) (es : List Entry) (ws : List (ℕ × Call)) (session : ℕ) (cycle : List ℕ) →
        (k : IsManagerOf w o es ws) → Steps w (event.Resume session) (Refused (fault.Deadlock cycle)) new →
        (on : GoesOnAs new o es ws (event.Resume session) (Refused (fault.Deadlock cycle))) × HasTheFirst on.manager.now.state session cycle
        × (((waited : Waiting) × IsAmong waited k.now.state.waiting × (waited.session ≡ session) × (waited.cycle ≡ Some cycle))
        ⊎ ((between : List Interlude) × (mid : State) × Intervene (geometry_in w) session k.now.state between mid × IsItsCycle mid session cycle × ((later : List Interlude)
        × (from : State) × Intervene (geometry_in w) session mid later from × TellsVictim from session (Refused (fault.Deadlock cycle)) on.manager.now.state))) }
    ensures give_up { (w new : World L V L.Disk V.Disk) (o : Opening) (es : List Entry) (ws : List (ℕ × Call)) (session : ℕ) (f : Fault) →
        (k : IsManagerOf w o es ws) → Steps w (event.GiveUp session) (Refused f) new → (a : SessionTxn) × IsOfSession k.now.state session a
        × ((r : Request) × (waiting_request a.txn (requests_in w) ≡ Some r) × ((holder : ℕ) × (f ≡ fault.WouldBlock holder) × WaitsFor (placed_last r (requests_in w)) a.txn holder)) }
    ensures full { (w : World L V L.Disk V.Disk) (o : Opening) (es : List Entry) (ws : List (ℕ × Call)) (session : ℕ) (c : Call) (last : State) →
        (k : IsManagerOf w o es ws) → AsksIn (geometry_in w) k.now.state session c last → last.locks.limit ≡ (geometry_in w).max_locks }
{}

/// A refused call, but for a rollback, a refused resume, and a wait that is taken back leave all as it was, but for locks, the calls that wait, and the transactions that were taken as
/// victims on the way, which are doomed. Unless a device failed or a page was damaged the manager runs on if it ran, whatever the call was.
pub fn refused_calls_change_locks_and_victims_alone<L: Disk, V: Disk>()
    ensures call { (w new : World L V L.Disk V.Disk) (o : Opening) (es : List Entry) (ws : List (ℕ × Call)) (session : ℕ) (c : Call) (f : Fault) →
        (k : IsManagerOf w o es ws) → IsServed c → Steps w (event.Call session c) (Refused f) new → rollback_of c ≡ None →
        (on : GoesOnAs new o es ws (event.Call session c) (Refused f)) × ((between : List Interlude)
        × ((between ≡ []) ⊎ ((mid : State) × IsMidway (geometry_in w) k.now.state session c between mid))
        × (on.manager.now.state ≡ but_doomed k.now.state (victims_among between) on.manager.now.state)) }
    ensures resume { (w new : World L V L.Disk V.Disk) (o : Opening) (es : List Entry) (ws : List (ℕ × Call)) (session : ℕ) (f : Fault) →
        (k : IsManagerOf w o es ws) → Steps w (event.Resume session) (Refused f) new →
        (on : GoesOnAs new o es ws (event.Resume session) (Refused f)) × ((between : List Interlude)
        × ((mid : State) × Intervene (geometry_in w) session k.now.state between mid)
        × (on.manager.now.state ≡ but_doomed k.now.state (victims_among between) on.manager.now.state)) }
    ensures give_up { (w new : World L V L.Disk V.Disk) (o : Opening) (es : List Entry) (ws : List (ℕ × Call)) (session : ℕ) (f : Fault) →
        (k : IsManagerOf w o es ws) → Steps w (event.GiveUp session) (Refused f) new →
        (on : GoesOnAs new o es ws (event.GiveUp session) (Refused f)) × (on.manager.now.state ≡ but_doomed k.now.state [] on.manager.now.state) }
    ensures call_runs { (w new : World L V L.Disk V.Disk) (o : Opening) (es : List Entry) (ws : List (ℕ × Call)) (session : ℕ) (c : Call) (f : Fault) →
        IsManagerOf w o es ws → IsServed c → Steps w (event.Call session c) (Refused f) new → f ≢ fault.Device → ((device : Device) (offset : ℕ) → f ≢ fault.Damaged device offset) →
        failed_in new ≡ failed_in w }
    ensures resume_runs { (w new : World L V L.Disk V.Disk) (o : Opening) (es : List Entry) (ws : List (ℕ × Call)) (session : ℕ) (f : Fault) →
        IsManagerOf w o es ws → Steps w (event.Resume session) (Refused f) new → f ≢ fault.Device → ((device : Device) (offset : ℕ) → f ≢ fault.Damaged device offset) →
        failed_in new ≡ failed_in w }
    ensures give_up_runs { (w new : World L V L.Disk V.Disk) (o : Opening) (es : List Entry) (ws : List (ℕ × Call)) (session : ℕ) (step : Step) →
        IsManagerOf w o es ws → Steps w (event.GiveUp session) step new → failed_in new ≡ failed_in w }
{}

/// Tickets are true: a commit is answered at once, by the number of its record, which is the last of the log; its session is in no transaction then, and its locks are gone. A
/// ticket is told to be durable just if its record is, whatever has failed, and the world is what it was.
pub fn tickets_are_true<L: Disk, V: Disk>()
    ensures commit { (w new : World L V L.Disk V.Disk) (o : Opening) (es : List Entry) (ws : List (ℕ × Call)) (session ticket : ℕ) → (k : IsManagerOf w o es ws) →
        Steps w (event.Call session Commit) (Done (Committed ticket)) new → (a : SessionTxn) × IsOfSession k.now.state session a
        × (ticket ≡ last_in new) × (requests_in new ≡ released a.txn (requests_in w))
        × ((on : GoesOnAs new o es ws (event.Call session Commit) (Done (Committed ticket))) × (on.manager.now.state.log ≡ and_record a.txn k.now.state.log logged.Commit)
        × (session_state session free (es ++ on.made) ≡ free)) }
    ensures waits { (w new : World L V L.Disk V.Disk) (o : Opening) (es : List Entry) (ws : List (ℕ × Call)) (session : ℕ) (wait : Wait) →
        IsManagerOf w o es ws → Steps w (event.Call session Commit) (Waits wait) new → ⊥ }
    ensures asked { (w new : World L V L.Disk V.Disk) (o : Opening) (es : List Entry) (ws : List (ℕ × Call)) (ticket : ℕ) (step : Step) → IsManagerOf w o es ws →
        Steps w (event.Ask ticket) step new → (answer : Bool) × (step ≡ Done (IsDurable answer)) × ((answer ≡ true) ↔ (ticket ≤ durable_in w))
        × IsUnchanged w new }
{}
