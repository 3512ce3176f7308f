//! The records of a store in parts, into a list that is handed back.
ghost use Rattle.std.specs.Prelude.{◌≡◌, ◌⊎◌, ◌<◌, ◌≤◌, ℕ, List, IfErr, IfOk, IfSome, IsErrAnd, IsTrue, length};
ghost use Rattle.shore_disk.specs.Cause.{HasCause};
ghost use Rattle.shore_types.specs.Layout.{HasPage};
ghost use Rattle.shore_types.specs.declared.faults.Fault.TheVariants as Fault;
ghost use Rattle.shore_model.specs.Records.{part_of};
ghost use Rattle.shore_heap.specs.Scans.{IsFrom, part_end};
ghost use Rattle.laws_calls.specs.StateChanges.{IsPageFault};
ghost use Rattle.laws_calls.specs.States.{State};
ghost use Rattle.laws_checkpoints.specs.CheckpointedStores.{CheckpointedStore};
ghost use Rattle.shore_core.specs.Cores.{IsSafe};

use crate::world::World;
use shore_disk::Disk;
use shore_types::{Fault, PageId, Pairs};
use std::alloc::Global;

impl<L: Disk, V: Disk> World<L, V> {
    ghost use Rattle.shore_core.specs.Cores.{last_of, volume_of};
    ghost use Rattle.shore_core.specs.Replies.{Earns, Fails, IsEarned, NeedsForce, ReadsPart, SameVolume};
    ghost use Rattle.shore_world.specs.Worlds.{HasFailedToRead, IsInState, IsLike, IsOverStore, IsPartOf, durable_in, failed_in, geometry_in, list_in};

    /// As `dump`, of the pages of a store from one on: of that page, and of more until there are so many records or the store ends. They replace what the list
    /// had, in its memory. Answers the page that comes next, none behind the last. A first page that is not there is `NoPage`, be it its store that is not:
    /// `NoStore` never comes. Behind a refusal the list may have what it had, or some of the records. Parts behind one another make the scan of a transaction that
    /// holds the store in SH all the while: no lock is taken here.
    pub fn dump_part(
        &mut self,
        alloc: Global,
        first: PageId,
        most: usize,
        list: &mut Pairs,
    ) -> Result<Option<PageId>, Fault>
        ensures shown { IfOk result (λ next. IsPartOf self.old first.store first.page (part_end (geometry_in self.old) first.store next) list.new) }

        // It goes on behind its first page, on a page that is there, if it has as many as were asked for, and only then: without its last page it has fewer.
        ensures next { IfOk result (λ next. IfSome next (λ id. (id.store ≡ first.store) × HasPage (geometry_in self.old) id × (first.page < id.page) × (most ≤ length list.new))) }
        ensures short { (front : List ℕ) (disk : ℕ → List ℕ) (s : State) (kept : CheckpointedStore) → IsInState self.old front disk s → IsSafe (geometry_in self.old) s
            → IsOverStore self.old disk s kept → IfOk result (λ next. (to : ℕ) → first.page < to → to < part_end (geometry_in self.old) first.store next
            → length (part_of first.store first.page to s.sessions.records) < most) }

        // As behind a dump.
        ensures like { ¬ IsErrAnd result Fails → IsLike self.old self.new }
        ensures fails { IsErrAnd result Fails → HasFailedToRead self.old self.new }
        ensures damaged { Earns self.old.core (IsFrom first) result }

        // A page behind the first is read only while there are fewer records than were asked for: no other refuses a part by its damage.
        ensures stops { (front : List ℕ) (disk : ℕ → List ℕ) (s : State) (kept : CheckpointedStore) → IsInState self.old front disk s → IsSafe (geometry_in self.old) s
            → IsOverStore self.old disk s kept → IfErr result (IsEarned (geometry_in self.old) disk (last_of self.old.core) (ReadsPart s first most)) }
        ensures forced { NeedsForce self.old.core result }
        ensures failed { IsTrue (failed_in self.old) → IfErr result (λ fault. fault ≡ Fault.Failed) }
        ensures served { IfOk result (λ _. HasPage (geometry_in self.old) first) }
        ensures refused { (front : List ℕ) (disk : ℕ → List ℕ) (s : State) (kept : CheckpointedStore) → IsInState self.old front disk s → IsSafe (geometry_in self.old) s
            → IsOverStore self.old disk s kept → IfErr result (λ fault. (IsTrue (failed_in self.old) × (fault ≡ Fault.Failed))
            ⊎ ((fault ≡ Fault.NoPage) × ¬ HasPage (geometry_in self.old) first) ⊎ (fault ≡ Fault.Memory) ⊎ IsPageFault s fault) }
        ensures volume { SameVolume self.old.core self.new.core }
        ensures list { list_in self.new ≡ list_in self.old }
        ensures durable { durable_in self.new ≡ durable_in self.old }
        ensures log { self.new.log ≡ self.old.log }
        ensures cause { HasCause result (V.faults (volume_of self.old.core)) (V.faults (volume_of self.new.core)) }
    {
        self.core.dump_part(alloc, first, most, list)
    }
}
