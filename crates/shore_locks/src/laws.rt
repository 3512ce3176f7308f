//! Laws over the list of requests, each stated as the contract of an empty function.
ghost use Rattle.std.specs.Prelude.{◌≡◌, ◌≢◌, ℕ, IsSome, List, None, Some, false};
ghost use Rattle.shore_types.specs.declared.locking.Granule.{Granule};
ghost use Rattle.shore_types.specs.declared.locking.Mode.{Mode};
ghost use Rattle.shore_model.specs.declared.requests.Request.{Request};
ghost use Rattle.shore_model.specs.Requests.{AreRequests, WaitsFor, placed_last};
ghost use Rattle.shore_nodes.specs.Orderly.{IsOrderly};
ghost use Rattle.shore_locks.specs.Grants.{after_grant, asking, cancelled, granted, in_its_way, obstacle, passed, put, released};
ghost use Rattle.shore_nodes.specs.Tables.{Table, is_waiting, mode_held, waiting_request};
ghost use Rattle.shore_locks.specs.Laws.{BlockedByOneInTheWay, FirstWaitersAreRefused, GrantedIsHeld, GrantsABeginning, OnlyGrants, RefusedChangesNothing, StaysQuiet, WaitsForSomebody, of_others, owners};

use crate::table::LockTable;

/// The requests of each table are orderly.
pub fn tables_are_orderly(table: &LockTable)
    ensures { IsOrderly table.now.requests }
{
    let _nodes = table.nodes();
}

/// In a table the first waiter of each queue has another holder that refuses it.
pub fn first_waiters_are_refused()
    ensures { (rs : List Request) → IsOrderly rs → FirstWaitersAreRefused rs }
{}

/// What a grant pass grants is a prefix of the queue's waiters.
pub fn grant_pass_grants_a_prefix()
    ensures { (rs : List Request) (g : Granule) → AreRequests rs → GrantsABeginning rs g }
{}

/// A release removes the transaction's requests and no others.
pub fn release_removes_its_own()
    ensures { (rs : List Request) (t : ℕ) → AreRequests rs → owners (released t rs) ≡ owners (of_others t rs) }
{}

/// A grant pass only grants.
pub fn grant_pass_only_grants()
    ensures { (rs : List Request) (g : Granule) → AreRequests rs → OnlyGrants rs (passed g rs) }
{}

/// After a request that is granted at once a grant pass would grant nobody, unless its transaction held IS and asked for SH: else what is held refuses no less
/// than before. IS refuses UD, and SH does not.
pub fn grant_leaves_nobody_to_grant()
    ensures { (rs : List Request) (t : ℕ) (g : Granule) (mode : Mode) → IsOrderly rs → is_waiting t rs ≡ false → obstacle (asking t g mode rs) rs ≡ None → (mode_held t g rs ≡ Some Mode.IS → mode ≢ Mode.SH) →
        after_grant t g mode rs ≡ put (granted (asking t g mode rs)) rs }
{}

/// A transaction whose request was cancelled waits no more.
pub fn cancelled_waits_no_more()
    ensures { (rs : List Request) (t : ℕ) → IsOrderly rs → is_waiting t (cancelled t rs) ≡ false }
{}

/// The transaction that a try names is one for whom the asker would wait.
pub fn blocked_names_a_blocker()
    ensures { (table : Table) (t : ℕ) (g : Granule) (mode : Mode) → BlockedByOneInTheWay table t g mode }
{}

/// Whoever waits in a table has somebody in the way; and whoever is in the way of a request is one for whom it would wait if it were made now.
pub fn waiters_have_somebody_in_the_way()
    ensures somebody { (rs : List Request) (t : ℕ) (r : Request) → IsOrderly rs → waiting_request t rs ≡ Some r → IsSome (in_its_way r rs) }
    ensures awaited { (rs : List Request) (r : Request) (u : ℕ) → IsSome r.wanted → in_its_way r rs ≡ Some u → WaitsFor (placed_last r rs) r.txn u }
{}

/// A transaction that begins to wait waits for somebody.
pub fn each_waiter_has_a_blocker()
    ensures { (table : Table) (t : ℕ) (g : Granule) (mode : Mode) → WaitsForSomebody table t g mode }
{}

/// What is granted is held, in the mode asked or in a stronger one.
pub fn granted_is_held()
    ensures { (table : Table) (t : ℕ) (g : Granule) (mode : Mode) → AreRequests table.requests → GrantedIsHeld table t g mode }
{}

/// Full and Blocked change nothing.
pub fn refused_changes_nothing()
    ensures { (table : Table) (t : ℕ) (g : Granule) (mode : Mode) → RefusedChangesNothing table t g mode }
{}

/// A transaction that does not wait waits afterwards only if it was told so: it may ask again.
pub fn waits_only_if_told_to()
    ensures { (table : Table) (t : ℕ) (g : Granule) (mode : Mode) → AreRequests table.requests → is_waiting t table.requests ≡ false → StaysQuiet table t g mode }
{}
