//! Prepares and resolves: what a prepare's record lists, and what must not come of them.
ghost use Rattle.std.specs.Prelude.{◌+◌, ◌≡◌, ◌≢◌, ◌≤◌, ℕ, List, None, Some, ◌⊎◌, Contains, length, take, false, All};
ghost use Rattle.std.specs.List.Sorted.{IsStrictlySortedBy};
ghost use Rattle.shore_types.specs.Layout.{HasPage, HasStore};
ghost use Rattle.shore_types.specs.Locking.{granule_cmp};
ghost use Rattle.shore_types.specs.declared.faults.Fault.TheVariants.{BadGlobalId, GlobalIdInUse, LogFull, AlreadyActive, NoGlobalId, MustAbort};
ghost use Rattle.shore_types.specs.declared.layout.Geometry.{Geometry};
ghost use Rattle.shore_types.specs.declared.locking.Granule.{Granule};
ghost use Rattle.shore_model.specs.declared.calls.Answer.{Answer};
ghost use Rattle.shore_model.specs.declared.calls.Call.TheVariants.{Prepare, Resolve};
ghost use Rattle.shore_model.specs.declared.log_records.Payload.TheVariants as payload;
ghost use Rattle.shore_model.specs.declared.step.Step.{Step};
ghost use Rattle.shore_model.specs.declared.step.Step.TheVariants.{Done, Refused, Waits};
ghost use Rattle.shore_model.specs.declared.step.Wait.{Wait};
ghost use Rattle.laws_lives.specs.Logged.{and_record};
ghost use Rattle.laws_lives.specs.SessionSteps.{AreExclusive};
ghost use Rattle.laws_lives.specs.Sessions.{IsUnused, SessionTxn, txns_of};
ghost use Rattle.laws_calls.specs.CallSteps.{CallStep, ResumeStep};
ghost use Rattle.laws_calls.specs.WorkedPrepares.{ResolvesThrough};
ghost use Rattle.laws_calls.specs.WorkedRun.{first_page};
ghost use Rattle.laws_calls.specs.Prepares.{IsGlobalId, MayPrepare};
ghost use Rattle.laws_calls.specs.Shapes.{ForItsTxn, IsNoRefusal};
ghost use Rattle.laws_calls.specs.States.{HasPrepared, IsOfSession, State, HasNoTxn, Waiting};
ghost use Rattle.shore_model.specs.declared.calls.Outcome.{Outcome};
ghost use Rattle.shore_model.specs.declared.calls.Outcome.TheVariants as outcome;
ghost use Rattle.shore_model.specs.declared.calls.Answer.TheVariants.{Resolved};
ghost use Rattle.laws_calls.specs.Resolves.{IsResolvable, IsRollingBack, MayResolve};
ghost use Rattle.laws_calls.specs.Events.{IsStateAfter};
ghost use Rattle.shore_model.specs.declared.histories.Entry.{Entry};
ghost use Rattle.shore_model.specs.declared.histories.Opening.{Opening};
ghost use Rattle.shore_model.specs.declared.log_records.LogRecord.{LogRecord};
ghost use Rattle.laws_lives.specs.Views.{IsAmong};
ghost use Rattle.laws_lives.specs.LogPrefixes.{decisions_in};
ghost use Rattle.laws_calls.specs.CallHistories.{txn_under};
ghost use Rattle.shore_model.specs.declared.histories.Decision.TheVariants as decision;
ghost use Rattle.shore_types.specs.Versions.{record_limit};

/// A prepare waits for its record, and is not answered at once. The record lists, rising, all granules that its transaction may write, and no others. The session is
/// in the transaction still, which is prepared now, and the global id is in use. A prepare leaves the records in place, the undo lists, the locks and the slots.
pub fn prepares_list_what_is_held()
    ensures at_once { (g : Geometry) (s new : State) (session : ℕ) (global : List ℕ) (answer : Answer) → CallStep g s session (Prepare global) (Done answer) new → ⊥ }
    ensures logged { (g : Geometry) (s new : State) (session : ℕ) (global : List ℕ) (wait : Wait) → CallStep g s session (Prepare global) (Waits wait) new →
        (a : SessionTxn) × IsOfSession s session a × ((granules : List Granule) × (new.log ≡ and_record a.txn s.log (payload.Prepare global granules))
        × AreExclusive s.sessions.held a.txn granules × IsStrictlySortedBy granule_cmp granules) }
    ensures session { (g : Geometry) (s new : State) (session : ℕ) (global : List ℕ) (wait : Wait) → CallStep g s session (Prepare global) (Waits wait) new → HasPrepared new session }
    ensures in_use { (g : Geometry) (s new : State) (session : ℕ) (global : List ℕ) (wait : Wait) → CallStep g s session (Prepare global) (Waits wait) new →
        IsUnused new.sessions global → ⊥ }
    ensures in_place { (g : Geometry) (s new : State) (session : ℕ) (global : List ℕ) (step : Step) → CallStep g s session (Prepare global) step new →
        (new.sessions.records ≡ s.sessions.records) × (new.sessions.active ≡ s.sessions.active) × (new.locks ≡ s.locks) × (new.counts ≡ s.counts) }
{}

/// Prepares that must not come: under what is no global id, or one in use, without room for the record and one more, in a rollback, or of one that is prepared; and
/// refusals of prepares without their causes.
pub fn wrong_prepares_do_not_come()
    ensures bad_id { (g : Geometry) (s new : State) (session : ℕ) (global : List ℕ) (wait : Wait) →
        ¬ IsGlobalId g.version global → CallStep g s session (Prepare global) (Waits wait) new → ⊥ }
    ensures id_in_use { (g : Geometry) (s new : State) (session : ℕ) (global : List ℕ) (wait : Wait) →
        ¬ IsUnused s.sessions global → CallStep g s session (Prepare global) (Waits wait) new → ⊥ }
    ensures without_room { (g : Geometry) (s new : State) (session : ℕ) (global : List ℕ) (wait : Wait) →
        ForItsTxn s session (λ a. ¬ MayPrepare s a global) → CallStep g s session (Prepare global) (Waits wait) new → ⊥ }
    ensures in_a_rollback { (g : Geometry) (s new : State) (session : ℕ) (global : List ℕ) (wait : Wait) →
        ForItsTxn s session (λ a. a.undo.rolling ≢ None) → CallStep g s session (Prepare global) (Waits wait) new → ⊥ }
    ensures twice { (g : Geometry) (s new : State) (session : ℕ) (global : List ℕ) (wait : Wait) →
        HasPrepared s session → CallStep g s session (Prepare global) (Waits wait) new → ⊥ }
    ensures bad_though_good { (g : Geometry) (s new : State) (session : ℕ) (global : List ℕ) →
        IsGlobalId g.version global → CallStep g s session (Prepare global) (Refused BadGlobalId) new → ⊥ }
    ensures in_use_though_unused { (g : Geometry) (s new : State) (session : ℕ) (global : List ℕ) →
        IsUnused s.sessions global → CallStep g s session (Prepare global) (Refused GlobalIdInUse) new → ⊥ }
    ensures log_full_though_room { (g : Geometry) (s new : State) (session : ℕ) (global : List ℕ) →
        ForItsTxn s session (λ a. MayPrepare s a global) → CallStep g s session (Prepare global) (Refused LogFull) new → ⊥ }
{}

/// Resolves that must not come: of none in doubt, of one whose prepare is not answered, from a session in another transaction, to commit at once, or to commit one
/// that is being rolled back; an answer before the decision is durable, or another than that it is resolved; and refusals without their causes.
pub fn wrong_resolves_do_not_come()
    ensures of_none { (g : Geometry) (s new : State) (session : ℕ) (global : List ℕ) (asked : Outcome) (step : Step) →
        ((a : SessionTxn) → IsResolvable s a global ⊎ IsRollingBack s a global → ⊥) → IsNoRefusal step → CallStep g s session (Resolve global asked) step new → ⊥ }
    ensures unanswered { (g : Geometry) (o : Opening) (found : List LogRecord) (es : List Entry) (s new : State) (session t : ℕ) (global : List ℕ) (asked : Outcome) (step : Step) →
        IsStateAfter o found es s → IsAmong (record { txn = t; global = global; answered = false }) s.sessions.prepared → IsNoRefusal step →
        CallStep g s session (Resolve global asked) step new → ⊥ }
    ensures from_another { (g : Geometry) (s new : State) (session : ℕ) (global : List ℕ) (asked : Outcome) (step : Step) →
        ¬ MayResolve s session global → IsNoRefusal step → CallStep g s session (Resolve global asked) step new → ⊥ }
    ensures commit_at_once { (g : Geometry) (s new : State) (session : ℕ) (global : List ℕ) (answer : Answer) →
        CallStep g s session (Resolve global outcome.Commit) (Done answer) new → ⊥ }
    ensures commit_of_rolled_back { (g : Geometry) (o : Opening) (found : List LogRecord) (es : List Entry) (s new : State) (session : ℕ) (global : List ℕ) (a : SessionTxn) (step : Step) →
        IsStateAfter o found es s → IsRollingBack s a global → IsNoRefusal step → CallStep g s session (Resolve global outcome.Commit) step new → ⊥ }
    ensures undurable { (g : Geometry) (o : Opening) (found : List LogRecord) (es : List Entry) (s new : State) (session : ℕ) (global : List ℕ) (asked : Outcome) (answer : Answer) →
        IsStateAfter o found es s → CallStep g s session (Resolve global asked) (Done answer) new →
        Contains (decisions_in (length found) (take s.durable s.log)) (decision.RollBack (txn_under s.sessions global)) }
    ensures answered_other { (g : Geometry) (s new : State) (session : ℕ) (global : List ℕ) (asked : Outcome) (answer : Answer) →
        answer ≢ Resolved → CallStep g s session (Resolve global asked) (Done answer) new → ⊥ }
    ensures elsewhere_though_free { (g : Geometry) (s new : State) (session : ℕ) (global : List ℕ) (asked : Outcome) →
        MayResolve s session global → CallStep g s session (Resolve global asked) (Refused AlreadyActive) new → ⊥ }
    ensures none_though_there { (g : Geometry) (s new : State) (session : ℕ) (global : List ℕ) (asked : Outcome) (a : SessionTxn) →
        IsResolvable s a global ⊎ IsRollingBack s a global → CallStep g s session (Resolve global asked) (Refused NoGlobalId) new → ⊥ }
    ensures must_abort_though_none { (g : Geometry) (s new : State) (session : ℕ) (global : List ℕ) (asked : Outcome) →
        ((a : SessionTxn) → ¬ IsRollingBack s a global) ⊎ (asked ≡ outcome.Abort) → CallStep g s session (Resolve global asked) (Refused MustAbort) new → ⊥ }
{}

/// A resolve that is not refused leaves none of its transaction's locks and requests; the transaction is under way no more, and the session is in none. Its global
/// id is in use until the resolve is answered, and from then on unused.
pub fn resolves_end_transactions()
    ensures locks { (g : Geometry) (o : Opening) (found : List LogRecord) (es : List Entry) (s new : State) (session : ℕ) (global : List ℕ) (asked : Outcome) (step : Step) →
        IsStateAfter o found es s → IsNoRefusal step → CallStep g s session (Resolve global asked) step new →
        All (λ r. r.txn ≢ txn_under s.sessions global) new.locks.requests × All (λ h. h.txn ≢ txn_under s.sessions global) new.sessions.held }
    ensures ended { (g : Geometry) (o : Opening) (found : List LogRecord) (es : List Entry) (s new : State) (session : ℕ) (global : List ℕ) (asked : Outcome) (step : Step) →
        IsStateAfter o found es s → IsNoRefusal step → CallStep g s session (Resolve global asked) step new → IsAmong (txn_under s.sessions global) (txns_of new.sessions.active) → ⊥ }
    ensures free { (g : Geometry) (o : Opening) (found : List LogRecord) (es : List Entry) (s new : State) (session : ℕ) (global : List ℕ) (asked : Outcome) (step : Step) →
        IsStateAfter o found es s → IsNoRefusal step → CallStep g s session (Resolve global asked) step new → HasNoTxn new session }
    ensures in_use { (g : Geometry) (s new : State) (session : ℕ) (global : List ℕ) (asked : Outcome) (wait : Wait) →
        CallStep g s session (Resolve global asked) (Waits wait) new → IsUnused new.sessions global → ⊥ }
    ensures answered { (g : Geometry) (o : Opening) (found : List LogRecord) (es : List Entry) (s new : State) (session : ℕ) (global : List ℕ) (asked : Outcome) (answer : Answer) →
        IsStateAfter o found es s → CallStep g s session (Resolve global asked) (Done answer) new → IsUnused new.sessions global }
    ensures resumed { (g : Geometry) (o : Opening) (found : List LogRecord) (es : List Entry) (s new : State) (session : ℕ) →
        IsStateAfter o found es s → ResumeStep g s session (Done Resolved) new →
        (w : Waiting) × IsAmong w s.waiting × (w.session ≡ session) × ((global : List ℕ) × (asked : Outcome) × (w.call ≡ Resolve global asked) × IsUnused new.sessions global) }
{}

/// The conditions can be met: over an empty volume a session inserts a record and prepares, another resolves it, and the resolve is answered. To commit, the
/// record stays; to roll back, it is gone; and nobody is in doubt, under way or under locks.
pub fn a_prepare_and_its_resolve_come_through()
    ensures { (g : Geometry) (stream_bytes : ℕ) (bytes : List ℕ) → HasStore g 0 → HasPage g first_page → length bytes ≤ record_limit g.version → 96000 + record_limit g.version ≤ stream_bytes →
        ResolvesThrough g stream_bytes bytes outcome.Commit (Some bytes) (decision.Commit 1) × ResolvesThrough g stream_bytes bytes outcome.Abort None (decision.RollBack 1) }
{}
