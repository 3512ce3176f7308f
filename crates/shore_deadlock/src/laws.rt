//! Laws of waits and of cycles, each stated as the contract of an empty function.
ghost use Rattle.std.specs.Prelude.{◌≡◌, ℕ, List, Some, Ok, false};
ghost use Rattle.shore_types.specs.declared.locking.Granule.{Granule};
ghost use Rattle.shore_types.specs.declared.locking.Mode.{Mode};
ghost use Rattle.shore_model.specs.declared.requests.Request.{Request};
ghost use Rattle.shore_model.specs.Requests.{AreRequests, HasNoCycle, WaitsFor};
ghost use Rattle.shore_locks.specs.declared.answers.Requested.TheVariants.{Waiting};
ghost use Rattle.shore_locks.specs.Orderly.{IsOrderly};
ghost use Rattle.shore_locks.specs.Grants.{after_request, after_try, answer_to, cancelled, released};
ghost use Rattle.shore_locks.specs.Tables.{Table, is_waiting, mode_held, waiting_request};
ghost use Rattle.shore_path.specs.declared.answers.Acquired.TheVariants.{Waiting as At};
ghost use Rattle.shore_path.specs.declared.answers.OnConflict.{OnConflict};
ghost use Rattle.shore_path.specs.Acquires.{NoneWeaker};
ghost use Rattle.shore_path.specs.Rooted.{AreRooted};
ghost use Rattle.shore_path.specs.Walks.{acquired};
ghost use Rattle.shore_cycles.specs.declared.victims.Victim.{Victim};
ghost use Rattle.shore_cycles.specs.Cycles.{IsOnEachCycle, after_victims};

/// If a transaction waits no more, nobody waits for somebody for whom he did not wait before.
pub fn cancel_adds_no_wait()
    ensures { (rs : List Request) (t a b : ℕ) → IsOrderly rs → WaitsFor (cancelled t rs) a b → WaitsFor rs a b }
{}

/// Nor if a transaction gives up all that it holds and wants.
pub fn release_adds_no_wait()
    ensures { (rs : List Request) (t a b : ℕ) → IsOrderly rs → WaitsFor (released t rs) a b → WaitsFor rs a b }
{}

/// A cancel makes nobody wait.
pub fn cancel_makes_nobody_wait()
    ensures { (rs : List Request) (t u : ℕ) → AreRequests rs → is_waiting u rs ≡ false → is_waiting u (cancelled t rs) ≡ false }
{}

/// A release makes nobody wait.
pub fn release_makes_nobody_wait()
    ensures { (rs : List Request) (t u : ℕ) → AreRequests rs → is_waiting u rs ≡ false → is_waiting u (released t rs) ≡ false }
{}

/// A cancel closes no cycle.
pub fn cancel_closes_no_cycle()
    ensures { (rs : List Request) (t : ℕ) → IsOrderly rs → HasNoCycle rs → HasNoCycle (cancelled t rs) }
{}

/// A release closes no cycle.
pub fn release_closes_no_cycle()
    ensures { (rs : List Request) (t : ℕ) → IsOrderly rs → HasNoCycle rs → HasNoCycle (released t rs) }
{}

/// A request that is granted, or for which there is no room, closes no cycle.
pub fn answered_request_closes_no_cycle()
    ensures { (table : Table) (t : ℕ) (g : Granule) (mode : Mode) → IsOrderly table.requests → is_waiting t table.requests ≡ false → HasNoCycle table.requests →
        (answer_to table t g mode ≡ Waiting → ⊥) → HasNoCycle (after_request table t g mode) }
{}

/// If there was no cycle, each one that a request closes passes the one who asked.
pub fn cycles_pass_the_asker()
    ensures { (table : Table) (t : ℕ) (g : Granule) (mode : Mode) → IsOrderly table.requests → is_waiting t table.requests ≡ false → HasNoCycle table.requests →
        IsOnEachCycle (after_request table t g mode) t }
{}

/// A request that never waits closes no cycle.
pub fn try_closes_no_cycle()
    ensures { (table : Table) (t : ℕ) (g : Granule) (mode : Mode) → IsOrderly table.requests → is_waiting t table.requests ≡ false → HasNoCycle table.requests →
        HasNoCycle (after_try table t g mode) }
{}

/// An acquire that does not wait closes no cycle.
pub fn acquire_closes_no_cycle()
    ensures { (c : OnConflict) (table : Table) (t : ℕ) (target : Granule) (mode : Mode) → IsOrderly table.requests → is_waiting t table.requests ≡ false → HasNoCycle table.requests →
        ((g : Granule) → (acquired c table t target mode).answer ≡ Ok (At g) → ⊥) → HasNoCycle (acquired c table t target mode).requests }
{}

/// If there was no cycle, each one that an acquire closes passes the one who asked.
pub fn acquired_cycles_pass_the_asker()
    ensures { (c : OnConflict) (table : Table) (t : ℕ) (target : Granule) (mode : Mode) → IsOrderly table.requests → is_waiting t table.requests ≡ false → HasNoCycle table.requests →
        IsOnEachCycle (acquired c table t target mode).requests t }
{}

/// If the requests with which victims wait are taken back, nobody's lock becomes weaker.
pub fn victims_weaken_nobody()
    ensures { (rs : List Request) (vs : List Victim) → IsOrderly rs → NoneWeaker rs (after_victims vs rs) }
{}

/// Then all requests that are left have their intentions, and those that are granted then too.
pub fn victims_keep_intentions()
    ensures { (rs : List Request) (vs : List Victim) → IsOrderly rs → AreRooted rs → AreRooted (after_victims vs rs) }
{}

/// Then nobody begins to wait.
pub fn victims_make_nobody_wait()
    ensures { (rs : List Request) (vs : List Victim) (u : ℕ) → IsOrderly rs → is_waiting u rs ≡ false → is_waiting u (after_victims vs rs) ≡ false }
{}

/// Who waited, and waits no more once the wait of another is taken back, holds what he wanted: he was granted.
pub fn cancel_wakes_by_a_grant()
    ensures { (rs : List Request) (t u : ℕ) (r : Request) → IsOrderly rs → waiting_request u rs ≡ Some r → (u ≡ t → ⊥) → is_waiting u (cancelled t rs) ≡ false →
        mode_held u r.granule (cancelled t rs) ≡ r.wanted }
{}

/// So it is once another has given up all that it holds and wants.
pub fn release_wakes_by_a_grant()
    ensures { (rs : List Request) (t u : ℕ) (r : Request) → IsOrderly rs → waiting_request u rs ≡ Some r → (u ≡ t → ⊥) → is_waiting u (released t rs) ≡ false →
        mode_held u r.granule (released t rs) ≡ r.wanted }
{}
