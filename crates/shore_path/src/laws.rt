//! Laws of locks along paths, each stated as the contract of an empty function.
ghost use Rattle.std.specs.Prelude.{◌≡◌, ◌↔◌, ◌⊎◌, ◌∷◌, [], ℕ, List, All, None, Ok, false, true};
ghost use Rattle.shore_types.specs.declared.ids.Rid.{Rid};
ghost use Rattle.shore_types.specs.declared.locking.Granule.{Granule};
ghost use Rattle.shore_types.specs.declared.locking.Granule.TheVariants.{Page, Record};
ghost use Rattle.shore_types.specs.declared.locking.Mode.{Mode};
ghost use Rattle.shore_types.specs.declared.locking.Mode.TheVariants.{EX, IX};
ghost use Rattle.shore_model.specs.declared.holds.Hold.{Hold};
ghost use Rattle.shore_model.specs.declared.requests.Request.{Request};
ghost use Rattle.shore_model.specs.Locks.{Agree, Harmony, IsRooted, StandTogether, WellRooted};
ghost use Rattle.shore_model.specs.Requests.{held_by_all};
ghost use Rattle.shore_locks.specs.Grants.{cancelled, in_the_way, released};
ghost use Rattle.shore_locks.specs.Orderly.{IsOrderly};
ghost use Rattle.shore_locks.specs.Tables.{Table, is_waiting, waiters_at};
ghost use Rattle.shore_path.specs.declared.answers.Acquired.TheVariants.{Done};
ghost use Rattle.shore_path.specs.declared.answers.OnConflict.{OnConflict};
ghost use Rattle.shore_path.specs.declared.answers.OnConflict.TheVariants.{Refuse, Wait};
ghost use Rattle.shore_path.specs.Acquires.{IsCoveredAbove, IsReached, NoOtherWeaker, NoneWeaker};
ghost use Rattle.shore_path.specs.Intending.{CoversRecords};
ghost use Rattle.shore_path.specs.Judging.{CanLockNow};
ghost use Rattle.shore_path.specs.Rooted.{AreRooted};
ghost use Rattle.shore_path.specs.Walks.{acquired};

/// Locks with their intentions, whose holders are compatible on each granule, are in harmony along every path.
pub fn intentions_give_harmony()
    ensures { (held : List Hold) → StandTogether held → WellRooted held → Harmony held }
{}

/// A lock whose intentions are held, and whose mode is compatible with those of the other holders, keeps harmony.
pub fn grant_keeps_harmony()
    ensures { (held : List Hold) (new : Hold) → StandTogether held → WellRooted held → IsRooted held new → All (Agree new) held →
        Harmony (new ∷ held) × WellRooted (new ∷ held) }
{}

/// What is held by requests that have their intentions, in a table, is well rooted and in harmony.
pub fn rooted_table_is_in_harmony()
    ensures { (rs : List Request) → IsOrderly rs → AreRooted rs → WellRooted (held_by_all rs) × Harmony (held_by_all rs) }
{}

/// In a table with no requests each has its intentions.
pub fn empty_table_is_rooted()
    ensures { AreRooted [] }
{}

/// An acquire that is Done if it may not wait is Done if it may, and leaves the same requests.
pub fn done_without_waiting()
    ensures { (table : Table) (t : ℕ) (target : Granule) (mode : Mode) → (acquired Refuse table t target mode).answer ≡ Ok Done →
        acquired Wait table t target mode ≡ acquired Refuse table t target mode }
{}

/// Who waited waits on after an acquire of another, unless it takes SH of a granule that somebody waits for: what is held refuses no less than before, but IS refuses UD, and
/// SH does not.
pub fn acquire_lets_nobody_through()
    ensures { (c : OnConflict) (table : Table) (t : ℕ) (target : Granule) (mode : Mode) (u : ℕ) → IsOrderly table.requests → is_waiting t table.requests ≡ false →
        (mode ≡ Mode.SH → waiters_at target table.requests ≡ []) → is_waiting u table.requests ≡ true → is_waiting u (acquired c table t target mode).requests ≡ true }
{}

/// A record that could be locked in EX now lies on a page that could be locked in IX.
pub fn records_need_their_page()
    ensures { (rs : List Request) (t : ℕ) (id : Rid) → CanLockNow rs t (Record id) EX → CanLockNow rs t (Page id.page) IX }
{}

/// Who holds what covers a store's records has each of them in EX without a request more.
pub fn covered_records_are_had()
    ensures had { (table : Table) (t : ℕ) (id : Rid) → CoversRecords table.requests t id.page.store →
        acquired Refuse table t (Record id) EX ≡ record { answer = Ok Done; requests = table.requests } }
    ensures reached { (rs : List Request) (t : ℕ) (id : Rid) → CoversRecords rs t id.page.store → IsReached rs t (Record id) EX }
    ensures free { (rs : List Request) (t : ℕ) (id : Rid) → CoversRecords rs t id.page.store → CanLockNow rs t (Record id) EX }
{}

/// On a page that could be locked in IX now, a record could be locked in EX if nobody is in the way in its own queue, or a lock above
/// covers it, and only then.
pub fn records_of_a_page_decide()
    ensures { (rs : List Request) (t : ℕ) (id : Rid) → IsOrderly rs → CanLockNow rs t (Page id.page) IX →
        CanLockNow rs t (Record id) EX ↔ ((in_the_way t (Record id) EX rs ≡ None) ⊎ IsCoveredAbove rs t (Record id) EX) }
{}

/// If a transaction waits no more, all requests that are left have their intentions, and those that are granted then too.
pub fn cancel_keeps_intentions()
    ensures { (rs : List Request) (t : ℕ) → IsOrderly rs → AreRooted rs → AreRooted (cancelled t rs) }
{}

/// So it is when a transaction gives up all that it has.
pub fn release_keeps_intentions()
    ensures { (rs : List Request) (t : ℕ) → IsOrderly rs → AreRooted rs → AreRooted (released t rs) }
{}

/// If a transaction waits no more, nobody's lock becomes weaker.
pub fn cancel_weakens_nobody()
    ensures { (rs : List Request) (t : ℕ) → IsOrderly rs → NoneWeaker rs (cancelled t rs) }
{}

/// If a transaction gives up all that it has, no lock of the others becomes weaker.
pub fn release_weakens_no_other()
    ensures { (rs : List Request) (t : ℕ) → IsOrderly rs → NoOtherWeaker rs (released t rs) t }
{}
