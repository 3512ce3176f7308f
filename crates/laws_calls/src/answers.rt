//! Answers that must not come.
ghost use Rattle.std.specs.Prelude.{◌≡◌, ◌≢◌, ◌≤◌, ℕ, IsSome, IsTrue, List, Some, length, ◌+◌, ◌<◌, false, None, Ok};
ghost use Rattle.std.specs.Cmp.Lexicographic.{slice_cmp};
ghost use Rattle.std.specs.FinMap.{get, is_sorted};
ghost use Rattle.std.specs.Ordering.{nat_cmp};
ghost use Rattle.shore_types.specs.Layout.{HasGranule, HasPage, HasSlot, HasStore};
ghost use Rattle.shore_types.specs.declared.ids.Rid.{Rid};
ghost use Rattle.shore_types.specs.declared.layout.Geometry.{Geometry};
ghost use Rattle.shore_types.specs.declared.layout.TheConstants.{MAX_TRANSACTIONS};
ghost use Rattle.shore_types.specs.declared.locking.Granule.{Granule};
ghost use Rattle.shore_model.specs.declared.calls.Answer.{Answer};
ghost use Rattle.shore_model.specs.declared.calls.Answer.TheVariants.{AreInDoubt, Began, Committed, Deleted, Got, Inserted, Locked, Scanned, Updated};
ghost use Rattle.shore_model.specs.declared.calls.Call.{Call};
ghost use Rattle.shore_model.specs.declared.calls.Call.TheVariants.{Commit, Begin, Delete, Get, GetForUpdate, InDoubt, Insert, Scan, TryLock, Update};
ghost use Rattle.shore_model.specs.Records.{scan_of};
ghost use Rattle.laws_room.specs.Choosing.{IsBefore};
ghost use Rattle.shore_model.specs.Histories.{decisions, in_doubt};
ghost use Rattle.shore_model.specs.declared.histories.Entry.{Entry};
ghost use Rattle.shore_model.specs.declared.histories.Opening.{Opening};
ghost use Rattle.shore_model.specs.declared.log_records.LogRecord.{LogRecord};
ghost use Rattle.shore_model.specs.declared.step.Step.{Step};
ghost use Rattle.laws_lives.specs.Sessions.{SessionTxn, in_txn};
ghost use Rattle.laws_calls.specs.Events.{IsStateAfter};
ghost use Rattle.laws_lives.specs.Views.{IsAmong};
ghost use Rattle.shore_model.specs.declared.step.Step.TheVariants.{Done};
ghost use Rattle.shore_model.specs.declared.step.Wait.TheVariants.{Lock};
ghost use Rattle.laws_calls.specs.StateChanges.{CanLog, FitsAt};
ghost use Rattle.laws_calls.specs.CallSteps.{ServesTxn, CallStep, NeedsTxn, lock_outcome, place_outcome, txn_count};
ghost use Rattle.laws_calls.specs.States.{State, Waiting, next_number, HasNoTxn, IsInTxn, MayBegin};
ghost use Rattle.shore_types.specs.Locking.{level_of};
ghost use Rattle.shore_types.specs.declared.locking.Granule.TheVariants.{Record};
ghost use Rattle.shore_types.specs.declared.locking.Mode.{Mode};
ghost use Rattle.shore_types.specs.declared.locking.Mode.TheVariants.{EX};
ghost use Rattle.shore_model.specs.Modes.{is_allowed};
ghost use Rattle.shore_model.specs.declared.calls.Call.TheVariants as call;
ghost use Rattle.shore_path.specs.declared.answers.Acquired.TheVariants as acquire;
ghost use Rattle.laws_locks.specs.CallLocks.{Asked, CanLockNow, lock_asked_by};
ghost use Rattle.laws_calls.specs.Shapes.{ForItsTxn, store_locked};
ghost use Rattle.shore_types.specs.Versions.{record_limit};

/// Answers that must not come, though each other condition of theirs may hold.
pub fn wrong_answers_do_not_come()
    ensures other_bytes { (g : Geometry) (s new : State) (session : ℕ) (id : Rid) (x y : List ℕ) →
        get s.sessions.records id ≡ Some x → x ≢ y → CallStep g s session (Get id) (Done (Got y)) new → ⊥ }
    ensures other_bytes_for_update { (g : Geometry) (s new : State) (session : ℕ) (id : Rid) (x y : List ℕ) →
        get s.sessions.records id ≡ Some x → x ≢ y → CallStep g s session (GetForUpdate id) (Done (Got y)) new → ⊥ }
    ensures get_outside { (g : Geometry) (s new : State) (session : ℕ) (id : Rid) (answer : Answer) →
        ¬ HasSlot g id → CallStep g s session (Get id) (Done answer) new → ⊥ }
    ensures get_that_changes { (g : Geometry) (s new : State) (session : ℕ) (id : Rid) (answer : Answer) →
        new.sessions.records ≢ s.sessions.records → CallStep g s session (Get id) (Done answer) new → ⊥ }
    ensures other_scan { (g : Geometry) (s new : State) (session store : ℕ) (answer : Answer) →
        answer ≢ Scanned (scan_of store s.sessions.records) → CallStep g s session (Scan store) (Done answer) new → ⊥ }
    ensures update_of_none { (g : Geometry) (s new : State) (session : ℕ) (id : Rid) (bytes : List ℕ) (answer : Answer) →
        get s.sessions.records id ≡ None → CallStep g s session (Update id bytes) (Done answer) new → ⊥ }
    ensures update_without_place { (g : Geometry) (s new : State) (session : ℕ) (id : Rid) (bytes : List ℕ) (answer : Answer) →
        ¬ FitsAt g.version s id (Some bytes) → CallStep g s session (Update id bytes) (Done answer) new → ⊥ }
    ensures update_without_room { (g : Geometry) (s new : State) (session : ℕ) (id : Rid) (bytes : List ℕ) (answer : Answer) →
        ¬ CanLog s id (Some bytes) → CallStep g s session (Update id bytes) (Done answer) new → ⊥ }
    ensures update_too_long { (g : Geometry) (s new : State) (session : ℕ) (id : Rid) (bytes : List ℕ) (answer : Answer) →
        record_limit g.version < length bytes → CallStep g s session (Update id bytes) (Done answer) new → ⊥ }
    ensures delete_of_none { (g : Geometry) (s new : State) (session : ℕ) (id : Rid) (answer : Answer) →
        get s.sessions.records id ≡ None → CallStep g s session (Delete id) (Done answer) new → ⊥ }
    ensures delete_without_room { (g : Geometry) (s new : State) (session : ℕ) (id : Rid) (answer : Answer) →
        ¬ CanLog s id None → CallStep g s session (Delete id) (Done answer) new → ⊥ }
    ensures other_number { (g : Geometry) (s new : State) (session : ℕ) (answer : Answer) →
        answer ≢ Began s.sessions.next_txn → CallStep g s session Begin (Done answer) new → ⊥ }
    ensures begin_without_room { (g : Geometry) (s new : State) (session : ℕ) (answer : Answer) →
        ¬ MayBegin s → CallStep g s session Begin (Done answer) new → ⊥ }
    ensures begin_when_full { (g : Geometry) (s new : State) (session : ℕ) (answer : Answer) →
        MAX_TRANSACTIONS ≤ txn_count s → CallStep g s session Begin (Done answer) new → ⊥ }
    ensures second_begin { (g : Geometry) (s new : State) (session : ℕ) (answer : Answer) →
        IsInTxn s session → CallStep g s session Begin (Done answer) new → ⊥ }
    ensures in_no_txn { (g : Geometry) (s new : State) (session : ℕ) (c : Call) (answer : Answer) →
        NeedsTxn c → HasNoTxn s session → CallStep g s session c (Done answer) new → ⊥ }
    ensures while_waiting { (g : Geometry) (s new : State) (session : ℕ) (c : Call) (answer : Answer) (w : Waiting) →
        IsAmong w s.waiting → w.session ≡ session → CallStep g s session c (Done answer) new → ⊥ }
    ensures after_failure { (g : Geometry) (s new : State) (session : ℕ) (c : Call) (answer : Answer) →
        IsTrue s.failed → CallStep g s session c (Done answer) new → ⊥ }
    ensures commit_told_other { (g : Geometry) (s new : State) (session : ℕ) (answer : Answer) →
        answer ≢ Committed (next_number s) → CallStep g s session Commit (Done answer) new → ⊥ }
    ensures commit_unlogged { (g : Geometry) (s new : State) (session : ℕ) (answer : Answer) →
        new.log ≡ s.log → CallStep g s session Commit (Done answer) new → ⊥ }
    ensures unlocked { (g : Geometry) (s new : State) (session : ℕ) (c : Call) (answer : Answer) (lock : Asked) → lock_asked_by c ≡ Some lock →
        ForItsTxn s session (λ a. (lock_outcome s a c lock).answer ≢ Ok acquire.Done) → CallStep g s session c (Done answer) new → ⊥ }
{}

/// Answers that must not come, as they leave out what they say: a begin without its transaction or number, a change that is not in place or not logged, an
/// insert without its slot, another answer than the call's.
pub fn answers_are_done()
    ensures begin_left_out { (g : Geometry) (s new : State) (session : ℕ) (answer : Answer) →
        ((a : SessionTxn) → IsAmong a new.sessions.active → a.session ≡ session → new.sessions.seats session ≢ in_txn a.txn)
        → CallStep g s session Begin (Done answer) new → ⊥ }
    ensures begin_unnumbered { (g : Geometry) (s new : State) (session : ℕ) (answer : Answer) →
        new.sessions.next_txn ≢ s.sessions.next_txn + 1 → CallStep g s session Begin (Done answer) new → ⊥ }
    ensures update_left_out { (g : Geometry) (s new : State) (session : ℕ) (id : Rid) (bytes : List ℕ) (answer : Answer) →
        get new.sessions.records id ≢ Some bytes → CallStep g s session (Update id bytes) (Done answer) new → ⊥ }
    ensures update_unlogged { (g : Geometry) (s new : State) (session : ℕ) (id : Rid) (bytes : List ℕ) (answer : Answer) →
        new.log ≡ s.log → CallStep g s session (Update id bytes) (Done answer) new → ⊥ }
    ensures update_answered_other { (g : Geometry) (s new : State) (session : ℕ) (id : Rid) (bytes : List ℕ) (answer : Answer) →
        answer ≢ Updated → CallStep g s session (Update id bytes) (Done answer) new → ⊥ }
    ensures delete_left_out { (g : Geometry) (s new : State) (session : ℕ) (id : Rid) (answer : Answer) →
        get new.sessions.records id ≢ None → CallStep g s session (Delete id) (Done answer) new → ⊥ }
    ensures delete_unlogged { (g : Geometry) (s new : State) (session : ℕ) (id : Rid) (answer : Answer) →
        new.log ≡ s.log → CallStep g s session (Delete id) (Done answer) new → ⊥ }
    ensures delete_answered_other { (g : Geometry) (s new : State) (session : ℕ) (id : Rid) (answer : Answer) →
        answer ≢ Deleted → CallStep g s session (Delete id) (Done answer) new → ⊥ }
    ensures insert_without_slot { (g : Geometry) (s new : State) (session store : ℕ) (bytes : List ℕ) (id : Rid) →
        new.counts id.page ≤ id.slot → CallStep g s session (Insert store bytes) (Done (Inserted id)) new → ⊥ }
    ensures lock_answered_other { (g : Geometry) (s new : State) (session : ℕ) (at : Granule) (mode : Mode) (answer : Answer) →
        answer ≢ Locked → CallStep g s session (call.Lock at mode) (Done answer) new → ⊥ }
    ensures try_answered_other { (g : Geometry) (s new : State) (session : ℕ) (at : Granule) (mode : Mode) (answer : Answer) →
        answer ≢ Locked → CallStep g s session (TryLock at mode) (Done answer) new → ⊥ }
{}

/// No call is answered of what is not in the volume, nor for a mode that its granule may not be asked in.
pub fn answers_stay_in_the_volume()
    ensures for_update_outside { (g : Geometry) (s new : State) (session : ℕ) (id : Rid) (answer : Answer) →
        ¬ HasSlot g id → CallStep g s session (GetForUpdate id) (Done answer) new → ⊥ }
    ensures update_outside { (g : Geometry) (s new : State) (session : ℕ) (id : Rid) (bytes : List ℕ) (answer : Answer) →
        ¬ HasSlot g id → CallStep g s session (Update id bytes) (Done answer) new → ⊥ }
    ensures delete_outside { (g : Geometry) (s new : State) (session : ℕ) (id : Rid) (answer : Answer) →
        ¬ HasSlot g id → CallStep g s session (Delete id) (Done answer) new → ⊥ }
    ensures scan_outside { (g : Geometry) (s new : State) (session store : ℕ) (answer : Answer) →
        ¬ HasStore g store → CallStep g s session (Scan store) (Done answer) new → ⊥ }
    ensures lock_outside { (g : Geometry) (s new : State) (session : ℕ) (at : Granule) (mode : Mode) (answer : Answer) →
        ¬ HasGranule g at → CallStep g s session (call.Lock at mode) (Done answer) new → ⊥ }
    ensures try_outside { (g : Geometry) (s new : State) (session : ℕ) (at : Granule) (mode : Mode) (answer : Answer) →
        ¬ HasGranule g at → CallStep g s session (TryLock at mode) (Done answer) new → ⊥ }
    ensures lock_in_bad_mode { (g : Geometry) (s new : State) (session : ℕ) (at : Granule) (mode : Mode) (answer : Answer) →
        is_allowed (level_of at) mode ≡ false → CallStep g s session (call.Lock at mode) (Done answer) new → ⊥ }
    ensures try_in_bad_mode { (g : Geometry) (s new : State) (session : ℕ) (at : Granule) (mode : Mode) (answer : Answer) →
        is_allowed (level_of at) mode ≡ false → CallStep g s session (TryLock at mode) (Done answer) new → ⊥ }
{}

/// Answers of inserts that must not come: at a place above one that serves, one that cannot be locked now or was not, beyond the slot behind the last of its
/// page, over a record, without room, beside its store, or left out.
pub fn wrong_inserts_do_not_come()
    ensures above { (g : Geometry) (s new : State) (session store : ℕ) (bytes : List ℕ) (id lower : Rid) → IsBefore lower id →
        ForItsTxn s session (λ a. ServesTxn g (store_locked s a store bytes) a.txn store bytes lower) →
        CallStep g s session (Insert store bytes) (Done (Inserted id)) new → ⊥ }
    ensures unlockable { (g : Geometry) (s new : State) (session store : ℕ) (bytes : List ℕ) (id : Rid) →
        ForItsTxn s session (λ a. ¬ CanLockNow (store_locked s a store bytes).locks.requests a.txn (Record id) EX) →
        CallStep g s session (Insert store bytes) (Done (Inserted id)) new → ⊥ }
    ensures unlocked { (g : Geometry) (s new : State) (session store : ℕ) (bytes : List ℕ) (id : Rid) →
        ForItsTxn s session (λ a. (place_outcome (store_locked s a store bytes) a id).answer ≢ Ok acquire.Done) →
        CallStep g s session (Insert store bytes) (Done (Inserted id)) new → ⊥ }
    ensures beyond { (g : Geometry) (s new : State) (session store : ℕ) (bytes : List ℕ) (id : Rid) →
        s.counts id.page < id.slot → CallStep g s session (Insert store bytes) (Done (Inserted id)) new → ⊥ }
    ensures over { (g : Geometry) (s new : State) (session store : ℕ) (bytes : List ℕ) (id : Rid) →
        IsSome (get s.sessions.records id) → CallStep g s session (Insert store bytes) (Done (Inserted id)) new → ⊥ }
    ensures without_room { (g : Geometry) (s new : State) (session store : ℕ) (bytes : List ℕ) (id : Rid) →
        ¬ CanLog s id (Some bytes) → CallStep g s session (Insert store bytes) (Done (Inserted id)) new → ⊥ }
    ensures without_place { (g : Geometry) (s new : State) (session store : ℕ) (bytes : List ℕ) (id : Rid) →
        ¬ FitsAt g.version s id (Some bytes) → CallStep g s session (Insert store bytes) (Done (Inserted id)) new → ⊥ }
    ensures too_long { (g : Geometry) (s new : State) (session store : ℕ) (bytes : List ℕ) (answer : Answer) →
        record_limit g.version < length bytes → CallStep g s session (Insert store bytes) (Done answer) new → ⊥ }
    ensures elsewhere { (g : Geometry) (s new : State) (session store : ℕ) (bytes : List ℕ) (id : Rid) →
        id.page.store ≢ store → CallStep g s session (Insert store bytes) (Done (Inserted id)) new → ⊥ }
    ensures outside { (g : Geometry) (s new : State) (session store : ℕ) (bytes : List ℕ) (id : Rid) →
        ¬ HasPage g id.page → CallStep g s session (Insert store bytes) (Done (Inserted id)) new → ⊥ }
    ensures left_out { (g : Geometry) (s new : State) (session store : ℕ) (bytes : List ℕ) (id : Rid) →
        get new.sessions.records id ≢ Some bytes → CallStep g s session (Insert store bytes) (Done (Inserted id)) new → ⊥ }
    ensures unlogged { (g : Geometry) (s new : State) (session store : ℕ) (bytes : List ℕ) (id : Rid) →
        new.log ≡ s.log → CallStep g s session (Insert store bytes) (Done (Inserted id)) new → ⊥ }
{}

/// Who is in doubt is told to any session that does not wait: by their global ids, rising by the bytes, exactly those whom the decisions leave so.
pub fn those_in_doubt_are_listed()
    ensures each { (g : Geometry) (o : Opening) (found : List LogRecord) (es : List Entry) (s new : State) (session t : ℕ) (global : List ℕ) (pairs : List (List ℕ × ℕ)) →
        IsStateAfter o found es s → CallStep g s session InDoubt (Done (AreInDoubt pairs)) new → IsAmong (global, t) pairs → IsAmong (t, global) (in_doubt o.in_doubt (decisions es)) }
    ensures all { (g : Geometry) (o : Opening) (found : List LogRecord) (es : List Entry) (s new : State) (session t : ℕ) (global : List ℕ) (pairs : List (List ℕ × ℕ)) →
        IsStateAfter o found es s → CallStep g s session InDoubt (Done (AreInDoubt pairs)) new → IsAmong (t, global) (in_doubt o.in_doubt (decisions es)) → IsAmong (global, t) pairs }
    ensures rising { (g : Geometry) (s new : State) (session : ℕ) (pairs : List (List ℕ × ℕ)) →
        CallStep g s session InDoubt (Done (AreInDoubt pairs)) new → IsTrue (is_sorted (slice_cmp nat_cmp) pairs) }
    ensures answered_other { (g : Geometry) (s new : State) (session : ℕ) (answer : Answer) → ((pairs : List (List ℕ × ℕ)) → answer ≢ AreInDoubt pairs) →
        CallStep g s session InDoubt (Done answer) new → ⊥ }
    ensures changes_nothing { (g : Geometry) (s new : State) (session : ℕ) (step : Step) → CallStep g s session InDoubt step new → new ≡ s }
{}
