//! Refusals that must not come: each without its cause, or with a change.
ghost use Rattle.std.specs.Prelude.{◌≡◌, ◌≢◌, ◌≤◌, ℕ, IsSome, IsTrue, List, Some, length, ◌<◌, true, false, None, Ok, Err};
ghost use Rattle.std.specs.FinMap.{get};
ghost use Rattle.shore_types.specs.Layout.{HasPage, HasStore};
ghost use Rattle.shore_types.specs.declared.faults.Device.{Device};
ghost use Rattle.shore_types.specs.declared.faults.Fault.{Fault};
ghost use Rattle.shore_types.specs.declared.faults.Fault.TheVariants as fault;
ghost use Rattle.shore_types.specs.declared.ids.Rid.{Rid};
ghost use Rattle.shore_types.specs.declared.layout.Geometry.{Geometry};
ghost use Rattle.shore_types.specs.declared.layout.TheConstants.{MAX_TRANSACTIONS};
ghost use Rattle.shore_types.specs.declared.locking.Granule.{Granule};
ghost use Rattle.shore_model.specs.declared.calls.Call.{Call};
ghost use Rattle.shore_model.specs.declared.calls.Call.TheVariants.{Commit, Begin, Delete, Get, GetForUpdate, Insert, TryLock, Update};
ghost use Rattle.shore_model.specs.declared.histories.Entry.{Entry};
ghost use Rattle.shore_model.specs.declared.histories.Opening.{Opening};
ghost use Rattle.shore_model.specs.declared.log_records.LogRecord.{LogRecord};
ghost use Rattle.laws_lives.specs.Sessions.{SessionTxn};
ghost use Rattle.shore_model.specs.declared.step.Step.TheVariants.{Done, Refused};
ghost use Rattle.laws_calls.specs.StateChanges.{CanLog, FitsAt};
ghost use Rattle.laws_calls.specs.CallSteps.{IsPlaceOf, ServesTxn, CallStep, behind_place, lock_outcome, place_outcome, txn_count};
ghost use Rattle.laws_calls.specs.LockedStates.{IsSessionsState};
ghost use Rattle.laws_calls.specs.States.{DoesNotWait, IsOfSession, State, HasNoTxn, IsInTxn, MayBegin};
ghost use Rattle.shore_types.specs.Locking.{level_of};
ghost use Rattle.shore_types.specs.declared.faults.Fault.TheVariants.{AlreadyActive, BadMode, Busy, Failed, IsPrepared, LockTableFull, LogFull, Memory, NeedForce, NoPage, NoRecord, NoStore, NoTransaction, StoreFull, TooLong, TooManyTransactions, WouldBlock};
ghost use Rattle.shore_types.specs.declared.locking.Granule.TheVariants.{Record};
ghost use Rattle.shore_types.specs.declared.locking.Mode.{Mode};
ghost use Rattle.shore_types.specs.declared.locking.Mode.TheVariants.{EX};
ghost use Rattle.shore_model.specs.Alone.{record_named_by};
ghost use Rattle.shore_model.specs.Modes.{is_allowed};
ghost use Rattle.shore_path.specs.Walks.{acquired};
ghost use Rattle.shore_path.specs.declared.answers.Acquired.TheVariants as acquire;
ghost use Rattle.shore_path.specs.declared.answers.OnConflict.TheVariants.{Refuse};
ghost use Rattle.laws_locks.specs.CallLocks.{Asked, lock_asked_by};
ghost use Rattle.laws_lives.specs.GranuleLocks.{HasLock};
ghost use Rattle.laws_calls.specs.Shapes.{ForItsTxn, rollback_of, store_lock, store_locked, with_locks_of};
ghost use Rattle.shore_types.specs.Versions.{record_limit, slot_limit};

/// Refusals of a manager or a session that must not come: each without its cause.
pub fn refusals_of_sessions_have_their_causes()
    ensures busy_though_idle { (g : Geometry) (s new : State) (session : ℕ) (c : Call) → DoesNotWait s session →
        CallStep g s session c (Refused Busy) new → ⊥ }
    ensures none_though_in_one { (g : Geometry) (s new : State) (session : ℕ) (c : Call) →
        IsInTxn s session → CallStep g s session c (Refused NoTransaction) new → ⊥ }
    ensures prepared_though_at_work { (g : Geometry) (s new : State) (session : ℕ) (c : Call) →
        ForItsTxn s session (λ a. CallStep g s session c (Refused IsPrepared) new → ⊥) }
    ensures prepared_though_free { (g : Geometry) (s new : State) (session : ℕ) (c : Call) →
        HasNoTxn s session → CallStep g s session c (Refused IsPrepared) new → ⊥ }
    ensures failed_though_running { (g : Geometry) (s new : State) (session : ℕ) (c : Call) → s.failed ≡ false →
        CallStep g s session c (Refused Failed) new → ⊥ }
    ensures too_many_below { (g : Geometry) (s new : State) (session : ℕ) (c : Call) →
        txn_count s < MAX_TRANSACTIONS → CallStep g s session c (Refused TooManyTransactions) new → ⊥ }
    ensures active_though_none { (g : Geometry) (s new : State) (session : ℕ) (c : Call) →
        HasNoTxn s session → CallStep g s session c (Refused AlreadyActive) new → ⊥ }
    ensures begin_full_though_room { (g : Geometry) (s new : State) (session : ℕ) → MayBegin s → CallStep g s session Begin (Refused LogFull) new → ⊥ }
    ensures commit_in_txn { (g : Geometry) (s new : State) (session : ℕ) (f : Fault) →
        ForItsTxn s session (λ b. ForItsTxn s session (λ a. a.undo.rolling ≡ None) →
        f ≢ Memory → s.failed ≡ false → DoesNotWait s session → CallStep g s session Commit (Refused f) new → ⊥) }
    ensures too_long_in_no_txn { (g : Geometry) (s new : State) (session : ℕ) (c : Call) →
        HasNoTxn s session → CallStep g s session c (Refused TooLong) new → ⊥ }
    ensures commit_forces_none { (g : Geometry) (s new : State) (session n : ℕ) → CallStep g s session Commit (Refused (NeedForce n)) new → ⊥ }
{}

/// Refusals of calls within a transaction that must not come: of a full store that has a place, or a log that has room or is asked too early; of a
/// record, a page or a store that is there, or bytes that are short; for a force of what is durable, or is not there.
pub fn refusals_of_calls_have_their_causes()
    ensures full_though_served { (g : Geometry) (s new : State) (session store : ℕ) (bytes : List ℕ) (id : Rid) →
        ForItsTxn s session (λ a. ServesTxn g (store_locked s a store bytes) a.txn store bytes id) →
        CallStep g s session (Insert store bytes) (Refused StoreFull) new → ⊥ }
    ensures update_full_though_fits { (g : Geometry) (s new : State) (session : ℕ) (id : Rid) (bytes : List ℕ) →
        FitsAt g.version s id (Some bytes) → CallStep g s session (Update id bytes) (Refused StoreFull) new → ⊥ }
    ensures log_before_page { (g : Geometry) (s new : State) (session : ℕ) (id : Rid) (bytes : List ℕ) →
        ¬ FitsAt g.version s id (Some bytes) → CallStep g s session (Update id bytes) (Refused LogFull) new → ⊥ }
    ensures update_log_full_though_room { (g : Geometry) (s new : State) (session : ℕ) (id : Rid) (bytes : List ℕ) →
        CanLog s id (Some bytes) → CallStep g s session (Update id bytes) (Refused LogFull) new → ⊥ }
    ensures delete_log_full_though_room { (g : Geometry) (s new : State) (session : ℕ) (id : Rid) →
        CanLog s id None → CallStep g s session (Delete id) (Refused LogFull) new → ⊥ }
    ensures insert_log_full_though_room { (g : Geometry) (s new : State) (session store : ℕ) (bytes : List ℕ) →
        ((id : Rid) → CanLog s id (Some bytes)) → CallStep g s session (Insert store bytes) (Refused LogFull) new → ⊥ }
    ensures insert_log_full_unlocked { (g : Geometry) (s new : State) (session store : ℕ) (bytes : List ℕ) →
        ForItsTxn s session (λ a. (id : Rid) → new ≢ behind_place (store_locked s a store bytes) a id) →
        CallStep g s session (Insert store bytes) (Refused LogFull) new → ⊥ }
    ensures get_none_though_there { (g : Geometry) (s new : State) (session : ℕ) (id : Rid) →
        id.slot < slot_limit g.version → IsSome (get s.sessions.records id) → CallStep g s session (Get id) (Refused NoRecord) new → ⊥ }
    ensures for_update_none_though_there { (g : Geometry) (s new : State) (session : ℕ) (id : Rid) →
        id.slot < slot_limit g.version → IsSome (get s.sessions.records id) → CallStep g s session (GetForUpdate id) (Refused NoRecord) new → ⊥ }
    ensures update_none_though_there { (g : Geometry) (s new : State) (session : ℕ) (id : Rid) (bytes : List ℕ) →
        id.slot < slot_limit g.version → IsSome (get s.sessions.records id) → CallStep g s session (Update id bytes) (Refused NoRecord) new → ⊥ }
    ensures delete_none_though_there { (g : Geometry) (s new : State) (session : ℕ) (id : Rid) →
        id.slot < slot_limit g.version → IsSome (get s.sessions.records id) → CallStep g s session (Delete id) (Refused NoRecord) new → ⊥ }
    ensures no_page_of_no_store { (g : Geometry) (s new : State) (session : ℕ) (id : Rid) →
        ¬ HasStore g id.page.store → CallStep g s session (Get id) (Refused NoPage) new → ⊥ }
    ensures no_page_though_there { (g : Geometry) (s new : State) (session : ℕ) (id : Rid) →
        HasPage g id.page → CallStep g s session (Get id) (Refused NoPage) new → ⊥ }
    ensures no_store_though_there { (g : Geometry) (s new : State) (session : ℕ) (id : Rid) →
        HasStore g id.page.store → CallStep g s session (Get id) (Refused NoStore) new → ⊥ }
    ensures too_long_though_short { (g : Geometry) (s new : State) (session store : ℕ) (bytes : List ℕ) →
        length bytes ≤ record_limit g.version → CallStep g s session (Insert store bytes) (Refused TooLong) new → ⊥ }
    ensures force_of_durable { (g : Geometry) (s new : State) (session : ℕ) (c : Call) (n : ℕ) →
        n ≤ s.durable → CallStep g s session c (Refused (NeedForce n)) new → ⊥ }
    ensures force_beyond_log { (g : Geometry) (s new : State) (session : ℕ) (c : Call) (n : ℕ) →
        rollback_of c ≡ None → length s.log < n → CallStep g s session c (Refused (NeedForce n)) new → ⊥ }
    ensures force_beyond_all { (g : Geometry) (s new : State) (session : ℕ) (c : Call) (n : ℕ) →
        length new.log < n → CallStep g s session c (Refused (NeedForce n)) new → ⊥ }
{}

/// Refusals by the lock table that must not come: for a holder, of a call that may wait or if nobody is in the way; of a mode that is allowed; of a table
/// that is full, if the locks of the call are taken, and of an insert those of its store and its place.
pub fn refusals_of_locks_have_their_causes()
    ensures blocked_though_may_wait { (g : Geometry) (s new : State) (session : ℕ) (c : Call) (holder : ℕ) →
        ((at : Granule) (mode : Mode) → c ≢ TryLock at mode) → CallStep g s session c (Refused (WouldBlock holder)) new → ⊥ }
    ensures blocked_though_free { (g : Geometry) (s new : State) (session : ℕ) (at : Granule) (mode : Mode) (holder : ℕ) →
        ForItsTxn s session (λ a. (acquired Refuse s.locks a.txn at mode).answer ≢ Err (WouldBlock holder)) →
        CallStep g s session (TryLock at mode) (Refused (WouldBlock holder)) new → ⊥ }
    ensures bad_mode_though_allowed { (g : Geometry) (s new : State) (session : ℕ) (c : Call) (lock : Asked) → lock_asked_by c ≡ Some lock →
        is_allowed (level_of lock.granule) lock.mode ≡ true → CallStep g s session c (Refused BadMode) new → ⊥ }
    ensures table_full_though_locked { (g : Geometry) (s new : State) (session : ℕ) (c : Call) (lock : Asked) → lock_asked_by c ≡ Some lock →
        ((store : ℕ) (bytes : List ℕ) → c ≢ Insert store bytes) → ForItsTxn s session (λ a. (lock_outcome s a c lock).answer ≡ Ok acquire.Done) →
        CallStep g s session c (Refused LockTableFull) new → ⊥ }
    ensures table_full_though_placed { (g : Geometry) (s new : State) (session store : ℕ) (bytes : List ℕ) →
        ForItsTxn s session (λ a. (lock_outcome s a (Insert store bytes) (store_lock store)).answer ≡ Ok acquire.Done) →
        ForItsTxn s session (λ a. (id : Rid) → IsPlaceOf g (store_locked s a store bytes) a.txn store bytes id → (place_outcome (store_locked s a store bytes) a id).answer ≡ Ok acquire.Done) →
        CallStep g s session (Insert store bytes) (Refused LockTableFull) new → ⊥ }
{}

/// A refusal changes locks alone, but for a rollback that is interrupted, and a device that failed or a page that was damaged, and no other, fails the
/// state. An insert whose log is full has locked its place, and who learns that a record is not there has its lock.
pub fn refusals_leave_locks_alone()
    ensures locks_alone { (g : Geometry) (s new : State) (session : ℕ) (c : Call) (f : Fault) → rollback_of c ≡ None → CallStep g s session c (Refused f) new →
        new ≡ with_locks_of new s }
    ensures device { (g : Geometry) (s new : State) (session : ℕ) (c : Call) → CallStep g s session c (Refused fault.Device) new → IsTrue new.failed }
    ensures damage { (g : Geometry) (s new : State) (session : ℕ) (c : Call) (device : Device) (offset : ℕ) →
        CallStep g s session c (Refused (fault.Damaged device offset)) new → IsTrue new.failed }
    ensures no_other { (g : Geometry) (s new : State) (session : ℕ) (c : Call) (f : Fault) → f ≢ fault.Device →
        ((device : Device) (offset : ℕ) → f ≢ fault.Damaged device offset) →
        CallStep g s session c (Refused f) new → new.failed ≡ s.failed }
    ensures log_full { (g : Geometry) (o : Opening) (found : List LogRecord) (es : List Entry) (s new : State) (session store : ℕ) (bytes : List ℕ) (a : SessionTxn) →
        IsSessionsState o found es s →
        IsOfSession s session a → CallStep g s session (Insert store bytes) (Refused LogFull) new →
        (id : Rid) × (¬ CanLog s id (Some bytes)) × HasLock new.sessions.held a.txn (Record id) EX }
    ensures absence { (g : Geometry) (o : Opening) (found : List LogRecord) (es : List Entry) (s new : State) (session : ℕ) (c : Call) (id : Rid) (lock : Asked) (a : SessionTxn) → IsSessionsState o found es s →
        record_named_by c ≡ Some id → id.slot < slot_limit g.version → lock_asked_by c ≡ Some lock → IsOfSession s session a →
        CallStep g s session c (Refused NoRecord) new → HasLock new.sessions.held a.txn lock.granule lock.mode }
{}
