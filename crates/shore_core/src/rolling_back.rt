//! Savepoints and rollbacks.
ghost use Rattle.std.specs.Prelude.{◌≡◌, ◌⊎◌, ◌↔◌, ◌≤◌, ◌++◌, ◌∷◌, [], ℕ, None, Some, List, IfErr, IfOk, IfSome, IfNone, IsSomeAnd, IsTrue, OnOk, Ok, false, is_some, length};
ghost use Rattle.shore_types.specs.Images.{Image, image_len};
ghost use Rattle.shore_types.specs.Layout.{HasPage};
ghost use Rattle.shore_types.specs.declared.faults.Fault.TheVariants as Fault;
ghost use Rattle.shore_types.specs.declared.ids.Rid.{Rid};
ghost use Rattle.shore_model.specs.declared.calls.Call.TheVariants as Call;
ghost use Rattle.shore_model.specs.declared.log_records.LogRecord.{LogRecord};
ghost use Rattle.shore_page.specs.Room.{Fits};
ghost use Rattle.shore_heap.specs.Heaps.{frame_of};
ghost use Rattle.laws_lives.specs.Sessions.{SessionTxn};
ghost use Rattle.laws_lives.specs.UndoLists.{MayRoll, least_kept};
ghost use Rattle.shore_model.specs.declared.rollbacks.Rollback.TheVariants as Rollback;
ghost use Rattle.laws_calls.specs.Rollbacks.{Interrupts};
ghost use Rattle.laws_calls.specs.States.{DoesNotWait, HasPrepared, IsOfSession, State};
ghost use Rattle.laws_calls.specs.Resolves.{IsRollingBack};
ghost use Rattle.shore_sessions.specs.Controls.{HasNoWait, HasWaitRoom};
ghost use Rattle.shore_sessions.specs.Standing.{HasControl, IsAt};
ghost use Rattle.laws_lives.specs.Views.{IsAmong};
ghost use Rattle.shore_txn.specs.Transactions.{AtSeat, IsSeatIn, undos_in, room_in};
ghost use Rattle.shore_txn.specs.Transactions as table;
ghost use Rattle.shore_txn.specs.TxnStates.{is_in_doubt};
ghost use Rattle.shore_txn.specs.Txns.{as_session_txn, number_of, rolling_of, state_of};
ghost use Rattle.shore_txn.specs.declared.txn_state.TxnState.TheVariants as state;
ghost use Rattle.shore_txn.specs.declared.txn.Txn.{Txn};
ghost use Rattle.shore_core.specs.Undoing.{IsNext};

use crate::core_calls::Core;
use shore_disk::Disk;
use shore_log::Tail;
use shore_logrec::{LogRecord, Payload, compensation_cost};
use shore_model::{Answer, Rollback, Step};
use shore_txn::{Seat, Txn, TxnState};
use shore_types::images::{bytes_of, copy_of, len_of};
use shore_types::layout::MAX_SAVEPOINTS;
use shore_types::{Fault, Lsn, Rid};
use std::alloc::Global;

/// The newest change of a transaction, as it is put back: what `undo_of` reads of it, while it is in the undo list.
#[derive(Drop)]
struct Undo {
    /// The record that it changed.
    id: Rid,
    /// The length of the image before it, 0 for none.
    bytes: usize,
    /// What its Compensation costs, which is reserved for it.
    cost: u64,
    /// Its Compensation, with a copy of that image.
    logged: LogRecord,
}

impl<T: Tail, V: Disk> Core<T, V> {
    ghost use Rattle.shore_core.specs.Callers.{IsNotInDoubt, IsNotOpen, IsOfCaller, MayPutBack};
    ghost use Rattle.shore_core.specs.Cores.{control_of, geometry_of, has_failed, heap_of, last_of, txns_of, waits_of};
    ghost use Rattle.shore_core.specs.Replies.{InEach, MakesNoCall, OnlyReads, Reads, Replied, Serves, ServesCall, Stays};
    ghost use Rattle.shore_core.specs.Resolving.{EndsRollback};
    ghost use Rattle.shore_core.specs.Undoing.{Ends, PutsBack, Rewinds, Unwinds, WritesBack};

    // The transaction of the session that calls, if it is not prepared and may do more than end a rollback.
    pub(crate) fn active(&self, seat: &Seat) -> Result<&Txn, Fault>
        requires seated { IsSeatIn seat.now (txns_of self.now) }
        requires own { IsOfCaller seat.now (txns_of self.now) }
        ensures some { IfOk result (λ t. IsAmong t.now (table.txns_in (txns_of self.now)) × (number_of t.now ≡ seat.now.txn)) }
        ensures there { IfOk result (λ t. IsAmong (as_session_txn t.now) (undos_in (txns_of self.now))) }
        ensures of_session { IfOk result (λ t. (s : State) → HasControl (control_of self.now) s → IsOfSession s seat.now.session (as_session_txn t.now)) }
        ensures whole { IfOk result (λ t. (as_session_txn t.now).undo.rolling ≡ None) }
        ensures open { OnOk result (AtSeat seat.now (txns_of self.now) (λ t. state_of t ≡ state.Active)) }
        ensures refused { IfErr result (λ f. (f ≡ Fault.MustAbort) ⊎ (f ≡ Fault.IsPrepared)) }
        ensures not_open { IfErr result (λ f. (s : State) → HasControl (control_of self.now) s → IsNotOpen s seat.now.session f) }
    {
        let own = self.control.txn(seat);
        match own.state() {
            TxnState::Active => Ok(own),
            TxnState::Doomed | TxnState::RollingBack(_) => Err(Fault::MustAbort),
            TxnState::Preparing | TxnState::Prepared => Err(Fault::IsPrepared),
        }
    }

    // One that is prepared is not rolled back by its session.
    fn check_unprepared(&self, seat: &Seat) -> Result<(), Fault>
        requires seated { IsSeatIn seat.now (txns_of self.now) }
        requires own { IsOfCaller seat.now (txns_of self.now) }
        ensures unprepared { OnOk result (IsNotInDoubt seat.now (txns_of self.now)) }
        ensures refused { IfErr result (λ f. (f ≡ Fault.IsPrepared) × ((s : State) → HasControl (control_of self.now) s → HasPrepared s seat.now.session)) }
    {
        if self.control.txn(seat).is_in_doubt() {
            return Err(Fault::IsPrepared);
        }
        Ok(())
    }

    pub(crate) fn savepoint(&mut self, seat: &Seat) -> Result<Step, Fault>
        requires seated { IsSeatIn seat.now (txns_of self.old) }
        requires own { IsOfCaller seat.now (txns_of self.old) }
        ensures replied { has_failed self.old ≡ false → InEach (λ front disk before s store. DoesNotWait s seat.now.session → Replied seat.now.session Call.Savepoint result self.old self.new front before s store) self.old }
        ensures serves { ServesCall (Reads Call.Savepoint) self.old result self.old self.new }
        ensures heap { heap_of self.new ≡ heap_of self.old }
        ensures ring { (room_in (txns_of self.new)).stream_bytes ≡ (room_in (txns_of self.old)).stream_bytes }
    {
        let own = self.active(seat)?;
        if own.savepoints() >= MAX_SAVEPOINTS {
            return Err(Fault::TooManySavepoints);
        }
        let index = self.control.savepoint(seat)?;
        Ok(Step::Done(Answer::Saved(index)))
    }

    pub(crate) fn back_to(
        &mut self,
        alloc: Global,
        seat: &Seat,
        index: usize,
    ) -> Result<Step, Fault>
        requires free { HasNoWait seat.now.session (control_of self.old) }
        requires seated { IsSeatIn seat.now (txns_of self.old) }
        requires own { IsOfCaller seat.now (txns_of self.old) }
        ensures replied { has_failed self.old ≡ false → InEach (λ front disk before s store. DoesNotWait s seat.now.session → Replied seat.now.session (Call.BackTo index) result self.old self.new front before s store) self.old }
        ensures serves { ServesCall (Reads (Call.BackTo index)) self.new result self.old self.new }
        ensures ring { (room_in (txns_of self.new)).stream_bytes ≡ (room_in (txns_of self.old)).stream_bytes }
    {
        self.check_unprepared(seat)?;
        let own = self.control.txn(seat);
        if !may_go_back(own.state(), index) {
            return Err(Fault::MustAbort);
        }
        let Some(least) = own.mark(index) else {
            return Err(Fault::NoSavepoint);
        };
        self.put_back(alloc, seat, Rollback::To(index), least)?;
        self.control.go_back(seat, index);
        Ok(Step::Done(Answer::WentBack))
    }

    pub(crate) fn abort(&mut self, alloc: Global, seat: &Seat) -> Result<Step, Fault>
        requires free { HasNoWait seat.now.session (control_of self.old) }
        requires seated { IsSeatIn seat.now (txns_of self.old) }
        requires own { IsOfCaller seat.now (txns_of self.old) }
        ensures replied { has_failed self.old ≡ false → InEach (λ front disk before s store. DoesNotWait s seat.now.session → Replied seat.now.session (Call.Abort) result self.old self.new front before s store) self.old }
        ensures serves { ServesCall (Reads Call.Abort) self.new result self.old self.new }
        ensures ring { (room_in (txns_of self.new)).stream_bytes ≡ (room_in (txns_of self.old)).stream_bytes }
    {
        self.check_unprepared(seat)?;
        self.put_back(alloc, seat, Rollback::Whole, 0)?;
        self.end(seat)?;
        Ok(Step::Done(Answer::Aborted))
    }

    // Puts the newest changes of the transaction at a seat back until so many are left: the caller's own, or one that it resolves. What was put back before a
    // refusal stays so, and the same rollback goes on with the rest.
    pub(crate) fn put_back(
        &mut self,
        alloc: Global,
        seat: &Seat,
        rollback: Rollback,
        least: usize,
    ) -> Result<(), Fault>
        requires seated { IsSeatIn seat.now (txns_of self.old) }
        requires unprepared { IsNotInDoubt seat.now (txns_of self.old) }
        ensures unwinds { has_failed self.old ≡ false → InEach (λ front disk before s store. (a : SessionTxn) → DoesNotWait s seat.now.session → IsAt seat.now s a
            → MayPutBack s seat.now.session a rollback → MayRoll a.undo rollback → least ≡ least_kept a.undo rollback → least ≤ length a.undo.images → Unwinds self.new a rollback least result front before s store) self.old }
        ensures seated { IsSeatIn seat.now (txns_of self.new) }
        ensures unprepared { IsNotInDoubt seat.now (txns_of self.new) }
        ensures waits { waits_of self.new ≡ waits_of self.old }
        ensures memory { HasWaitRoom (control_of self.old) → HasWaitRoom (control_of self.new) }
        ensures serves { Serves (Reads Call.Abort) self.new result self.old self.new }
        ensures failed { has_failed self.new ≡ has_failed self.old }
        ensures ring { (room_in (txns_of self.new)).stream_bytes ≡ (room_in (txns_of self.old)).stream_bytes }
    {
        let count = self.control.txn(seat).undo().len();
        for _ in least..count {
            self.put_back_newest(alloc, seat, rollback)?;
        }
        Ok(())
    }

    // Puts the newest change of the transaction at a seat back. Its page is fetched while the image is still in the undo list, so that it comes with the
    // claim: only `log_undo` takes the image out.
    fn put_back_newest(
        &mut self,
        alloc: Global,
        seat: &Seat,
        rollback: Rollback,
    ) -> Result<(), Fault>
        requires seated { IsSeatIn seat.now (txns_of self.old) }
        requires unprepared { IsNotInDoubt seat.now (txns_of self.old) }
        ensures put_back { has_failed self.old ≡ false → InEach (λ front disk before s store. (a : SessionTxn) (kept : List (Rid × Image)) (e : Rid × Image) → IsAt seat.now s a
            → a.undo.images ≡ kept ++ e ∷ [] → PutsBack self.new a kept e rollback result front before s store) self.old }
        ensures rewinds { OnOk result (Rewinds self.old self.new) }
        ensures longer { last_of self.old ≤ last_of self.new }
        ensures seated { IsSeatIn seat.now (txns_of self.new) }
        ensures unprepared { IsNotInDoubt seat.now (txns_of self.new) }
        ensures waits { waits_of self.new ≡ waits_of self.old }
        ensures memory { HasWaitRoom (control_of self.old) → HasWaitRoom (control_of self.new) }
        ensures serves { Serves (Reads Call.Abort) self.new result self.old self.new }
        ensures failed { has_failed self.new ≡ has_failed self.old }
        ensures ring { (room_in (txns_of self.new)).stream_bytes ≡ (room_in (txns_of self.old)).stream_bytes }
    {
        let Some(undo) = self.undo_of(alloc, seat)? else {
            return Ok(());
        };
        self.reach(alloc, undo.id)?;
        // What the slot claims is enough for what it held, so this is never so.
        if !self.heap.fits(undo.id, undo.bytes) {
            return Err(Fault::StoreFull);
        }
        self.log_undo(seat, rollback, undo)
    }

    // Fetches the page of an id, if it is there.
    fn reach(&mut self, alloc: Global, id: Rid) -> Result<(), Fault>
        ensures there { OnOk result (HasPage (geometry_of self.old) id.page × IsTrue (is_some (frame_of (heap_of self.new) id.page))) }
        ensures refused { has_failed self.old ≡ false → InEach (λ front disk before s store. IfErr result (λ f. Interrupts s f ⊎ (HasPage (geometry_of self.old) id.page → ⊥))) self.old }
        ensures serves { Serves (λ page. page ≡ id.page) self.new result self.old self.new }
        ensures stays { InEach (λ front disk before s store. Stays self.new result front before s store) self.old }
        ensures wrote { OnOk result (WritesBack self.old self.new) }
        ensures reads { OnlyReads self.old self.new }
        ensures ring { (room_in (txns_of self.new)).stream_bytes ≡ (room_in (txns_of self.old)).stream_bytes }
    {
        if !self.heap.geometry().has_page(id.page) {
            return Err(Fault::NoPage);
        }
        self.fetch(alloc, id.page)
    }

    // Logs the Compensation of the newest change of the transaction at a seat, and makes it on its page, which is in a frame and has room. All memory was
    // taken before, and behind the record nothing can fail.
    fn log_undo(&mut self, seat: &Seat, rollback: Rollback, undo: Undo) -> Result<(), Fault>
        requires seated { IsSeatIn seat.now (txns_of self.old) }
        requires unprepared { IsNotInDoubt seat.now (txns_of self.old) }
        requires next { IsNext (txns_of self.old) seat.now.txn undo.id undo.bytes undo.cost undo.logged }
        requires there { HasPage (geometry_of self.old) undo.id.page }
        requires fits { IsSomeAnd (frame_of (heap_of self.old) undo.id.page) (λ f. Fits (geometry_of self.old).version f.page.slots undo.id.slot undo.bytes) }
        ensures put_back { has_failed self.old ≡ false → InEach (λ front disk before s store. (a : SessionTxn) (kept : List (Rid × Image)) (e : Rid × Image) → IsAt seat.now s a
            → a.undo.images ≡ kept ++ e ∷ [] → PutsBack self.new a kept e rollback result front before s store) self.old }
        ensures rewinds { OnOk result (Rewinds self.old self.new) }
        ensures longer { last_of self.old ≤ last_of self.new }
        ensures seated { IsSeatIn seat.now (txns_of self.new) }
        ensures unprepared { IsNotInDoubt seat.now (txns_of self.new) }
        ensures waits { waits_of self.new ≡ waits_of self.old }
        ensures memory { HasWaitRoom (control_of self.old) → HasWaitRoom (control_of self.new) }
        ensures no_call { MakesNoCall self.old self.new }
        ensures refused { IfErr result (λ f. f ≡ Fault.Memory) }
        ensures ring { (room_in (txns_of self.new)).stream_bytes ≡ (room_in (txns_of self.old)).stream_bytes }
    {
        let Undo { cost, logged, .. } = undo;
        let lsn = match self.tail.push(&logged) {
            Ok(lsn) => lsn,
            Err(fault) => return Err(fault),
        };
        let undone = self.control.note_compensation(seat, lsn, rollback, cost);
        self.heap.change(undone.id, lsn, bytes_of(&undone.before));
        self.heap.release_to(undone.id, usize::from(undone.claim));
        Ok(())
    }

    // What puts the newest change of the transaction at a seat back.
    fn undo_of(&self, alloc: Global, seat: &Seat) -> Result<Option<Undo>, Fault>
        requires { IsSeatIn seat.now (txns_of self.now) }
        ensures some { IfOk result (λ o. IfSome o (λ u. IsNext (txns_of self.now) seat.now.txn u.id u.bytes u.cost u.logged)) }
        ensures none { IfOk result (λ o. IfNone o ((a : SessionTxn) → IsAmong a (undos_in (txns_of self.now)) → a.txn ≡ seat.now.txn → a.undo.images ≡ [])) }
        ensures memory { IfErr result (λ f. f ≡ Fault.Memory) }
    {
        let own = self.control.txn(seat);
        let Some(newest) = own.newest() else {
            return Ok(None);
        };
        let logged = LogRecord {
            txn: own.id(),
            previous: own.last(),
            payload: Payload::Compensation {
                id: newest.id,
                after: copy_of(alloc, &newest.before)?,
                undo_next: own.undo_next(),
            },
        };
        Ok(Some(Undo {
            id: newest.id,
            bytes: newest.image_len(),
            cost: compensation_cost(len_of(&newest.before)),
            logged,
        }))
    }

    // Logs the End of the transaction at a seat, if it has logged anything, and ends it. Its room was reserved at the begin, and goes with it. All its changes
    // are put back by then; one that has any left is not ended. One that a resolve rolls back has its decision logged, and is not answered with this.
    pub(crate) fn end(&mut self, seat: &Seat) -> Result<(), Fault>
        requires free { HasNoWait seat.now.session (control_of self.old) }
        requires seated { IsSeatIn seat.now (txns_of self.old) }
        requires unprepared { IsNotInDoubt seat.now (txns_of self.old) }
        ensures ended { has_failed self.old ≡ false → InEach (λ front disk before s store. (a : SessionTxn) → IsOfSession s seat.now.session a → a.txn ≡ seat.now.txn → a.undo.images ≡ []
            → Ends self.new a result front before s store) self.old }
        ensures resolves { has_failed self.old ≡ false → InEach (λ front disk before s store. (a : SessionTxn) (global : List ℕ) → IsAt seat.now s a → IsRollingBack s a global → a.undo.images ≡ []
            → EndsRollback self.new a global result front before s store) self.old }
        ensures waits { waits_of self.new ≡ waits_of self.old }
        ensures memory { HasWaitRoom (control_of self.old) → HasWaitRoom (control_of self.new) }
        ensures refused { IfErr result (λ f. (f ≡ Fault.MustAbort) ⊎ (f ≡ Fault.Memory)) }
        ensures no_call { MakesNoCall self.old self.new }
        ensures heap { heap_of self.new ≡ heap_of self.old }
        ensures ring { (room_in (txns_of self.new)).stream_bytes ≡ (room_in (txns_of self.old)).stream_bytes }
    {
        let own = self.control.txn(seat);
        if own.newest().is_some() {
            return Err(Fault::MustAbort);
        }
        let (txn, previous) = (own.id(), own.last());
        if previous == Lsn(0) {
            self.control.end_abort(seat, false);
            return Ok(());
        }
        let payload = Payload::End;
        match self.tail.push(&LogRecord {
            txn,
            previous,
            payload,
        }) {
            Ok(_) => {
                self.control.end_abort(seat, true);
                Ok(())
            }
            Err(fault) => Err(fault),
        }
    }
}

// Whether a transaction may go back to a savepoint: a rollback that has begun only goes on, and one that is prepared waits for its decision.
fn may_go_back(state: TxnState, index: usize) -> bool
    ensures { IsTrue result ↔ ((is_in_doubt state ≡ false) × ((rolling_of state ≡ None) ⊎ (rolling_of state ≡ Some (Rollback.To index)))) }
{
    match state {
        TxnState::Active => true,
        TxnState::RollingBack(Rollback::To(begun)) => begun == index,
        TxnState::Doomed | TxnState::RollingBack(Rollback::Whole) => false,
        TxnState::Preparing | TxnState::Prepared => false,
    }
}
