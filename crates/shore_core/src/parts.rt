//! The records of a store in parts, as they are in place.
ghost use Rattle.std.specs.Prelude.{◌≡◌, ◌⊎◌, ◌↔◌, ◌<◌, ◌≤◌, ℕ, false, IfErr, IfOk, IfSome, IsErrAnd, IsTrue, MatchResult, length};
ghost use Rattle.shore_types.specs.Layout.{HasPage};
ghost use Rattle.shore_types.specs.declared.faults.Fault.TheVariants as Fault;
ghost use Rattle.shore_model.specs.Records.{part_of};
ghost use Rattle.laws_calls.specs.StateChanges.{IsPageFault, after_refusal};
ghost use Rattle.shore_heap.specs.Scans.{IsFrom, part_end};
ghost use Rattle.shore_core.specs.Replies.{Fails};
ghost use Rattle.shore_txn.specs.Transactions.{room_in};

use crate::core_calls::Core;
use shore_disk::Disk;
use shore_log::Tail;
use shore_types::{Fault, LogEnds, Lsn, PageId, Pairs};
use std::alloc::Global;

impl<T: Tail, V: Disk> Core<T, V> {
    ghost use Rattle.shore_core.specs.Cores.{CoreComesTo, geometry_of, has_failed, heap_of, last_of, control_of, tail_of, txns_of};
    ghost use Rattle.shore_core.specs.Replies.{InEach, IsEarned, OnlyReads, ReadsPart, Serves, Stays};

    /// As `dump`, of the pages of a store from one on: of that page, and of more until there are so many records or the store ends. They replace what the list
    /// had. Answers the page that comes next, none behind the last. A first page that is not there is `NoPage`, be it its store that is not: `NoStore` never comes.
    /// Behind a refusal the list may have what it had, or some of the records.
    pub fn dump_part(
        &mut self,
        alloc: Global,
        first: PageId,
        most: usize,
        list: &mut Pairs,
    ) -> Result<Option<PageId>, Fault>
        ensures shown { InEach (λ front disk before s plain. IfOk result (λ next. list.new ≡ part_of first.store first.page (part_end (geometry_of self.old) first.store next) s.sessions.records)) self.old }
        ensures next { IfOk result (λ next. IfSome next (λ id. (id.store ≡ first.store) × HasPage (geometry_of self.old) id × (first.page < id.page) × (most ≤ length list.new))) }
        ensures short { InEach (λ front disk before s plain. IfOk result (λ next. (to : ℕ) → first.page < to → to < part_end (geometry_of self.old) first.store next
            → length (part_of first.store first.page to s.sessions.records) < most)) self.old }
        ensures left { InEach (λ front disk before s plain. MatchResult result (λ _. CoreComesTo self.new front before plain s) (λ f. CoreComesTo self.new front before plain (after_refusal f s))) self.old }
        ensures serves { Serves (IsFrom first) self.old result self.old self.new }
        ensures failed { IsTrue (has_failed self.old) → IfErr result (λ f. f ≡ Fault.Failed) }
        ensures still { IsTrue (has_failed self.old) → heap_of self.new ≡ heap_of self.old }
        ensures fails { IsTrue (has_failed self.new) ↔ (IsTrue (has_failed self.old) ⊎ IsErrAnd result Fails) }

        // A page behind the first is read only while there are fewer records than were asked for: no other refuses a part by its damage.
        ensures stops { InEach (λ front disk before s plain. IfErr result (IsEarned (geometry_of self.old) disk (last_of self.old) (ReadsPart s first most))) self.old }
        ensures served { IfOk result (λ _. HasPage (geometry_of self.old) first) }
        ensures refused { InEach (λ front disk before s plain. IfErr result (λ f. (IsTrue (has_failed self.old) × (f ≡ Fault.Failed))
            ⊎ ((f ≡ Fault.NoPage) × ¬ HasPage (geometry_of self.old) first) ⊎ (f ≡ Fault.Memory) ⊎ IsPageFault s f)) self.old }
        ensures tail { tail_of self.new ≡ tail_of self.old }
        ensures control { control_of self.new ≡ control_of self.old }
        ensures ring { (room_in (txns_of self.new)).stream_bytes ≡ (room_in (txns_of self.old)).stream_bytes }
    {
        if self.failed {
            return Err(Fault::Failed);
        }
        let PageId { store, page } = first;
        if !self.heap.geometry().has_page(PageId { store, page }) {
            return Err(Fault::NoPage);
        }
        let next = self.part_from(alloc, PageId { store, page }, most, list);
        if let Err(fault) = &next {
            self.note_failure(fault);
        }
        next
    }

    // The records from a page on that is there.
    fn part_from(
        &mut self,
        alloc: Global,
        first: PageId,
        most: usize,
        list: &mut Pairs,
    ) -> Result<Option<PageId>, Fault>
        requires { HasPage (geometry_of self.old) first }
        ensures shown { has_failed self.old ≡ false → InEach (λ front disk before s plain. IfOk result (λ next. list.new ≡ part_of first.store first.page (part_end (geometry_of self.old) first.store next) s.sessions.records)) self.old }
        ensures next { IfOk result (λ next. IfSome next (λ id. (id.store ≡ first.store) × HasPage (geometry_of self.old) id × (first.page < id.page) × (most ≤ length list.new))) }
        ensures short { has_failed self.old ≡ false → InEach (λ front disk before s plain. IfOk result (λ next. (to : ℕ) → first.page < to → to < part_end (geometry_of self.old) first.store next
            → length (part_of first.store first.page to s.sessions.records) < most)) self.old }
        ensures refused { has_failed self.old ≡ false → InEach (λ front disk before s plain. IfErr result (λ f. (f ≡ Fault.Memory) ⊎ IsPageFault s f)) self.old }
        ensures stops { has_failed self.old ≡ false → InEach (λ front disk before s plain. IfErr result (IsEarned (geometry_of self.old) disk (last_of self.old) (ReadsPart s first most))) self.old }
        ensures stays { InEach (λ front disk before s plain. Stays self.new result front before s plain) self.old }
        ensures serves { Serves (IsFrom first) self.old result self.old self.new }
        ensures reads { OnlyReads self.old self.new }
        ensures ring { (room_in (txns_of self.new)).stream_bytes ≡ (room_in (txns_of self.old)).stream_bytes }
    {
        let last = Lsn(self.tail.next().0 - 1);
        let ends = LogEnds {
            last,
            durable: self.durable,
        };
        self.heap
            .scan_part(alloc, first, most, list, self.control.txns(), &ends)
    }
}
