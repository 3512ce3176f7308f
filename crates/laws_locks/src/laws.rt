//! Laws of the locks that requests hold, each stated as the contract of an empty function.
ghost use Rattle.std.specs.Prelude.{◌≡◌, ◌≢◌, ◌⊎◌, ◌<◌, Ok, Err, ℕ, List, Some, All, IfErr, false};
ghost use Rattle.shore_types.specs.declared.faults.Fault.TheVariants.{LockTableFull};
ghost use Rattle.shore_types.specs.declared.ids.Rid.{Rid};
ghost use Rattle.shore_types.specs.declared.locking.Granule.{Granule};
ghost use Rattle.shore_types.specs.declared.locking.Granule.TheVariants.{Record};
ghost use Rattle.shore_types.specs.declared.locking.Mode.{Mode};
ghost use Rattle.shore_types.specs.declared.locking.Mode.TheVariants.{EX};
ghost use Rattle.shore_model.specs.declared.calls.Answer.{Answer};
ghost use Rattle.shore_model.specs.declared.calls.Answer.TheVariants.{Inserted};
ghost use Rattle.shore_model.specs.declared.calls.Call.{Call};
ghost use Rattle.shore_model.specs.declared.calls.Call.TheVariants.{Insert};
ghost use Rattle.shore_model.specs.declared.requests.Request.{Request};
ghost use Rattle.shore_model.specs.Requests.{held_by_all};
ghost use Rattle.shore_locks.specs.Grants.{released};
ghost use Rattle.shore_locks.specs.Orderly.{IsOrderly};
ghost use Rattle.shore_locks.specs.Tables.{Table, is_waiting};
ghost use Rattle.shore_path.specs.declared.answers.Acquired.TheVariants.{Done, Waiting};
ghost use Rattle.shore_path.specs.declared.answers.OnConflict.{OnConflict};
ghost use Rattle.shore_path.specs.declared.answers.OnConflict.TheVariants.{Refuse};
ghost use Rattle.shore_path.specs.Walks.{acquired};
ghost use Rattle.shore_path.specs.Acquires.{IsReached, MayRefuse, NoneWeaker, OthersOnlyGranted};
ghost use Rattle.shore_path.specs.Rooted.{AreRooted};
ghost use Rattle.laws_lives.specs.GranuleLocks.{HasLock, HasLocksFor};
ghost use Rattle.laws_lives.specs.SessionSteps.{MoveLocks, StepsTo};
ghost use Rattle.laws_lives.specs.Sessions.{Sessions, locks_moved, txns_of, without_locks};
ghost use Rattle.laws_lives.specs.Views.{IsAmong};
ghost use Rattle.laws_locks.specs.Acquires.{Leaves};
ghost use Rattle.laws_locks.specs.CallLocks.{Asked, CanLockNow, lock_asked_by};

/// What an acquire has reached is a lock, of the granule or implicitly by an ancestor's.
pub fn reached_granules_are_locked()
    ensures { (rs : List Request) (t : ℕ) (g : Granule) (mode : Mode) → IsReached rs t g mode → HasLock (held_by_all rs) t g mode }
{}

/// A call that has reached what it asks for has the locks for its answer; an insert, those of the place that it takes.
pub fn reached_locks_serve_calls()
    ensures calls { (rs : List Request) (t : ℕ) (c : Call) (answer : Answer) (lock : Asked) → lock_asked_by c ≡ Some lock → ((store : ℕ) (bytes : List ℕ) → c ≢ Insert store bytes)
        → IsReached rs t lock.granule lock.mode → HasLocksFor (held_by_all rs) t c answer }
    ensures insert { (rs : List Request) (t store : ℕ) (bytes : List ℕ) (id : Rid) → IsReached rs t (Record id) EX →
        HasLocksFor (held_by_all rs) t (Insert store bytes) (Inserted id) }
{}

/// What an acquire comes to and leaves, of orderly requests with their intentions, of one who does not wait.
pub fn acquires_leave_requests_in_order()
    ensures { (c : OnConflict) (table : Table) (t : ℕ) (target : Granule) (mode : Mode) → IsOrderly table.requests → is_waiting t table.requests ≡ false → AreRooted table.requests
        → Leaves table.requests (acquired c table t target mode) t target mode }
{}

/// An acquire is refused only with its cause, in the table as it then is: the level does not take the mode; a granule of the path has no node of the transaction,
/// and the table is full; or, if it may not wait, the transaction would wait for that holder on the path. It waits only if it may.
pub fn acquires_are_refused_with_cause()
    ensures refused { (c : OnConflict) (table : Table) (t : ℕ) (target : Granule) (mode : Mode) → IsOrderly table.requests → is_waiting t table.requests ≡ false →
        IfErr (acquired c table t target mode).answer (MayRefuse c record { limit = table.limit; requests = (acquired c table t target mode).requests } t target mode) }
    ensures waits { (table : Table) (t : ℕ) (target : Granule) (mode : Mode) (g : Granule) → IsOrderly table.requests → is_waiting t table.requests ≡ false →
        (acquired Refuse table t target mode).answer ≡ Ok (Waiting g) → ⊥ }
{}

/// A granule that a transaction could lock now is locked by a try, unless the table is full.
pub fn lockable_places_are_locked()
    ensures { (table : Table) (t : ℕ) (g : Granule) (mode : Mode) → CanLockNow table.requests t g mode →
        ((acquired Refuse table t g mode).answer ≡ Ok Done) ⊎ ((acquired Refuse table t g mode).answer ≡ Err LockTableFull) }
{}

/// Requests of which none becomes weaker move the locks of the sessions as they may move.
pub fn acquires_move_locks()
    ensures { (s : Sessions) (rs new : List Request) → s.held ≡ held_by_all rs → IsOrderly rs → IsOrderly new → AreRooted new → NoneWeaker rs new
        → All (λ r. r.txn < s.next_txn) new → StepsTo s (MoveLocks (held_by_all new)) (locks_moved s (held_by_all new)) }
{}

/// So does a release of one who has ended, whose locks are gone as he ends, and it leaves him no lock.
pub fn releases_move_locks()
    ensures moves { (s : Sessions) (rs : List Request) (t : ℕ) → s.held ≡ without_locks t (held_by_all rs) → IsOrderly rs → AreRooted rs
        → All (λ r. r.txn < s.next_txn) rs → (IsAmong t (txns_of s.active) → ⊥)
        → StepsTo s (MoveLocks (held_by_all (released t rs))) (locks_moved s (held_by_all (released t rs))) }
    ensures gone { (rs : List Request) (t : ℕ) → IsOrderly rs → All (λ h. h.txn ≢ t) (held_by_all (released t rs)) }
{}

/// Nobody but the one who asks begins to wait by an acquire, and nobody by a release.
pub fn others_do_not_begin_to_wait()
    ensures acquire { (rs new : List Request) (t u : ℕ) → OthersOnlyGranted rs new t → u ≢ t → is_waiting u rs ≡ false → is_waiting u new ≡ false }
    ensures release { (rs : List Request) (t u : ℕ) → IsOrderly rs → is_waiting u rs ≡ false → is_waiting u (released t rs) ≡ false }
{}

/// The requests that an acquire leaves are of those who had some before, and of him who asked.
pub fn acquires_keep_numbers()
    ensures { (rs new : List Request) (t n : ℕ) → All (λ r. r.txn < n) rs → t < n → OthersOnlyGranted rs new t → All (λ r. r.txn < n) new }
{}
