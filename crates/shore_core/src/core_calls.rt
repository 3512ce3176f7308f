//! The calls of the sessions, and what the log device tells.
ghost use Rattle.laws_checkpoints.specs.CheckpointedStores.{CheckpointedStore};
ghost use Rattle.std.specs.Prelude.{◌≡◌, ◌⊎◌, ◌↔◌, ◌+◌, ◌≤◌, ◌<◌, ℕ, Bool, List, IsTrue, Ok, Err, false, length, true};
ghost use Rattle.shore_types.specs.declared.faults.Fault.TheVariants as Fault;
ghost use Rattle.shore_types.specs.declared.layout.TheConstants.{GREATEST_CHECKPOINT, LAST_LSN, LAST_OPENED, LONGEST_FRAME};
ghost use Rattle.shore_model.specs.declared.calls.Answer.TheVariants as Answer;
ghost use Rattle.shore_model.specs.declared.calls.Call.TheVariants as Call;
ghost use Rattle.shore_model.specs.declared.log_records.LogRecord.{LogRecord};
ghost use Rattle.shore_model.specs.declared.step.Step.TheVariants as Step;
ghost use Rattle.laws_calls.specs.StateChanges.{after_refusal, with_durable, with_failure};
ghost use Rattle.shore_model.specs.Calls.{IsServed};
ghost use Rattle.laws_calls.specs.CallSteps.{NeedsTxn};
ghost use Rattle.laws_calls.specs.States.{DoesNotWait, State};
ghost use Rattle.shore_sessions.specs.Controls.{HasNoWait, txns_in};
ghost use Rattle.shore_txn.specs.Transactions.{HasNoTxnOf, IsSeatIn, room_in};
ghost use Rattle.shore_txn.specs.Transactions as table;
ghost use Rattle.shore_txn.specs.Txns.{last_of};
ghost use Rattle.shore_txn.specs.declared.txn.Txn.{Txn};
ghost use Rattle.laws_lives.specs.Views.{IsAmong};

use shore_disk::Disk;
use shore_heap::Heap;
use shore_log::Tail;
use shore_model::{Answer, Call, Step, Wait};
use shore_sessions::Control;
use shore_txn::Seat;
use shore_types::layout::{ENDING_COST, LAST_LSN, LAST_TXN, MAX_TRANSACTIONS};
use shore_types::{Fault, Geometry, Lsn, SessionId, Ticket};
use std::alloc::Global;

/// The pages of a volume, the transactions of the sessions with their locks, and the log buffer that the records of changes go to.
#[derive(Drop)]
pub struct Core<T: Tail, V: Disk> {
    /// The pages of the volume, some of them in frames.
    pub(crate) heap: Heap<V>,
    /// The log buffer: the records that were not handed over yet, and the number of the next one (`some_number`, `numbers`).
    pub(crate) tail: T,
    /// The transactions, their locks and the calls that wait; no transaction has a record with a number to come (`earlier`).
    pub(crate) control: Control,
    /// The number up to which the log was forced, as `told`: below the next one (`forced`).
    pub(crate) durable: Lsn,
    /// Whether a device has failed or a page was damaged. Then every call is refused; `fail` and `note_failure` set it.
    pub(crate) failed: bool,
    ghost some_number: { 1 ≤ T.Tail.first tail + length (T.Tail.records tail) },
    ghost forced: { durable < T.Tail.first tail + length (T.Tail.records tail) },
    // There is a number for each record that is reserved for: none costs less than a byte.
    ghost numbers: { T.Tail.first tail + length (T.Tail.records tail) + (room_in (txns_in control)).reserved ≤ LAST_OPENED },
    ghost earlier: { (t : Txn) → IsAmong t (table.txns_in (txns_in control)) → last_of t < T.Tail.first tail + length (T.Tail.records tail) },
}

impl<T: Tail, V: Disk> Core<T, V> {
    ghost use Rattle.shore_core.specs.Callers.{IsOfCaller};
    ghost use Rattle.shore_core.specs.Cores.{CoreComesTo, IsIn, IsOver, control_of, durable_of, first_of, geometry_of, has_failed, heap_of, tail_of, txns_of, waiting_of};
    ghost use Rattle.shore_core.specs.Cores as cores;
    ghost use Rattle.shore_core.specs.Stores.{force_to};
    ghost use Rattle.shore_core.specs.Replies.{Called, Fails, InEach, Reads, Replied, Serves, ServesCall, Stays, Stepped, fault_at, forced_at};

    /// A call of a session. Refused in this order: `Failed` after a failure of a device or a damaged page, `Busy` while the session's earlier
    /// call waits, `AlreadyActive` or `NoTransaction`, `IsPrepared` if the transaction is prepared, `MustAbort` if it is a victim or its rollback was
    /// interrupted, as the call says before its locks, as its locks are refused, and as the call says behind them; `Memory` if an allocation failed, and
    /// `NeedForce(n)` if a page needs a frame that is free once the log is forced up to number n. A call that would wait in a cycle of which its transaction is
    /// the youngest is refused by `Deadlock`: that transaction is a victim, keeps its locks and its changes, and takes only an abort.
    ///
    /// A prepare is refused by `BadGlobalId`, `GlobalIdInUse` or `LogFull`; a resolve, of any session that is in no other transaction, by `AlreadyActive`,
    /// `NoGlobalId`, or to commit by `MustAbort` once a resolve has decided to roll back.
    ///
    /// A refused call has changed nothing but locks that were taken, and others that it doomed as victims, if it waited first; a rollback keeps the steps that
    /// it has made, that of a resolve its decision too: the same call goes on with the others. But after `Device` and `Damaged` every later call is refused.
    /// A call that waits for a lock goes on at a resume, once another has let it through; a prepare or a resolve that waits for its record, once its force is
    /// told. A commit never waits: it is answered with its ticket, and its locks are gone.
    pub fn call(&mut self, alloc: Global, session: SessionId, call: Call) -> Step
        requires { IsServed call }

        // It is a step of the manager over plain data, in whatever state it was, and work of the store beside it.
        ensures step { InEach (λ front disk before s store. Stepped session call result self.old self.new front before s store) self.old }

        // At any moment a page of the volume is as it was, or as it was in place with a durable number. `Damaged` names the page that could not be read, of
        // those that the call may read. `NeedForce` comes only if no page may leave its frame: its number is one that is not durable. A rollback has
        // changed pages before it asks.
        ensures serves { Serves (Reads call) (forced_at call self.old self.new) (fault_at result) self.old self.new }

        // After a failure no page is touched, and it stays one.
        ensures still { IsTrue (has_failed self.old) → heap_of self.new ≡ heap_of self.old }
        ensures stays_failed { IsTrue (has_failed self.old) → IsTrue (has_failed self.new) }
        ensures ring { (room_in (txns_of self.new)).stream_bytes ≡ (room_in (txns_of self.old)).stream_bytes }
    {
        if self.failed {
            return Step::Refused(Fault::Failed);
        }
        if self.control.waiting(session).is_some() {
            return Step::Refused(Fault::Busy);
        }
        match self.dispatch(alloc, session, call) {
            Ok(step) => step,
            Err(fault) => self.refuse(fault),
        }
    }

    // A refusal of a call, once a failure is noted.
    pub(crate) fn refuse(&mut self, fault: Fault) -> Step
        ensures refused { result ≡ Step.Refused fault }
        ensures left { (front : List ℕ) (before : List LogRecord) (s : State) (store : CheckpointedStore)
            → Stays {A = Unit {0}} self.old (Err fault) front before s store → CoreComesTo self.new front before store (after_refusal fault s) }
        ensures heap { heap_of self.new ≡ heap_of self.old }
        ensures durable { durable_of self.new ≡ durable_of self.old }
        ensures tail { tail_of self.new ≡ tail_of self.old }
        ensures ring { (room_in (txns_of self.new)).stream_bytes ≡ (room_in (txns_of self.old)).stream_bytes }
    {
        self.note_failure(&fault);
        Step::Refused(fault)
    }

    /// After a failure of a device, or a damaged page, every call is refused.
    pub(crate) fn note_failure(&mut self, fault: &Fault)
        ensures left { (front : List ℕ) (before : List LogRecord) (s : State) (store : CheckpointedStore)
            → Stays {A = Unit {0}} self.old (Err fault.now) front before s store → CoreComesTo self.new front before store (after_refusal fault.now s) }
        ensures fails { IsTrue (has_failed self.new) ↔ (IsTrue (has_failed self.old) ⊎ Fails fault.now) }
        ensures heap { heap_of self.new ≡ heap_of self.old }
        ensures durable { durable_of self.new ≡ durable_of self.old }
        ensures tail { tail_of self.new ≡ tail_of self.old }
        ensures control { control_of self.new ≡ control_of self.old }
        ensures ring { (room_in (txns_of self.new)).stream_bytes ≡ (room_in (txns_of self.old)).stream_bytes }
    {
        if matches!(fault, Fault::Device | Fault::Damaged { .. }) {
            self.failed = true;
        }
    }

    fn dispatch(&mut self, alloc: Global, session: SessionId, call: Call) -> Result<Step, Fault>
        requires free { HasNoWait session (control_of self.old) }
        ensures replied { has_failed self.old ≡ false → InEach (λ front disk before s store. DoesNotWait s session → Called session call result self.old self.new front before s store) self.old }
        ensures serves { ServesCall (Reads call) (forced_at call self.old self.new) result self.old self.new }
        ensures ring { (room_in (txns_of self.new)).stream_bytes ≡ (room_in (txns_of self.old)).stream_bytes }
    {
        match call {
            Call::Resolve(global, outcome) => self.resolve(alloc, session, global, outcome),
            Call::InDoubt => self.list_in_doubt(alloc, session),
            call => self.in_session(alloc, session, call),
        }
    }

    // A call that is about the session's own transaction. That is not looked for again: no call but its end takes a transaction out, so the seat stays
    // right.
    fn in_session(&mut self, alloc: Global, session: SessionId, call: Call) -> Result<Step, Fault>
        requires own { (call ≡ Call.Begin) ⊎ NeedsTxn call }
        requires free { HasNoWait session (control_of self.old) }
        ensures replied { has_failed self.old ≡ false → InEach (λ front disk before s store. DoesNotWait s session → Called session call result self.old self.new front before s store) self.old }
        ensures serves { ServesCall (Reads call) (forced_at call self.old self.new) result self.old self.new }
        ensures ring { (room_in (txns_of self.new)).stream_bytes ≡ (room_in (txns_of self.old)).stream_bytes }
    {
        match self.control.seat(session) {
            Some(seat) => self.in_txn(alloc, &seat, call),
            None => self.without_txn(alloc, session, &call),
        }
    }

    // A call of a session that has a transaction.
    fn in_txn(&mut self, alloc: Global, seat: &Seat, call: Call) -> Result<Step, Fault>
        requires inner { (call ≡ Call.Begin) ⊎ NeedsTxn call }
        requires free { HasNoWait seat.now.session (control_of self.old) }
        requires seated { IsSeatIn seat.now (txns_of self.old) }
        requires own { IsOfCaller seat.now (txns_of self.old) }
        ensures replied { has_failed self.old ≡ false → InEach (λ front disk before s store. DoesNotWait s seat.now.session → Called seat.now.session call result self.old self.new front before s store) self.old }
        ensures serves { ServesCall (Reads call) (forced_at call self.old self.new) result self.old self.new }
        ensures ring { (room_in (txns_of self.new)).stream_bytes ≡ (room_in (txns_of self.old)).stream_bytes }
    {
        match call {
            Call::Begin => Err(Fault::AlreadyActive),
            Call::Commit => self.commit(seat),
            Call::Prepare(global) => self.prepare(alloc, seat, global),
            Call::Savepoint => self.savepoint(seat),
            Call::BackTo(index) => self.back_to(alloc, seat, index),
            Call::Abort => self.abort(alloc, seat),
            call => self.with_txn(alloc, seat, call),
        }
    }

    // A call of a session that has no transaction.
    fn without_txn(&mut self, alloc: Global, session: SessionId, call: &Call) -> Result<Step, Fault>
        requires none { HasNoTxnOf session (txns_of self.old) }
        requires own { (call.now ≡ Call.Begin) ⊎ NeedsTxn call.now }
        ensures replied { has_failed self.old ≡ false → InEach (λ front disk before s store. DoesNotWait s session → Called session call.now result self.old self.new front before s store) self.old }
        ensures serves { ServesCall (Reads call.now) (forced_at call.now self.old self.new) result self.old self.new }
        ensures ring { (room_in (txns_of self.new)).stream_bytes ≡ (room_in (txns_of self.old)).stream_bytes }
    {
        match call {
            Call::Begin => self.begin(alloc, session),
            _ => Err(Fault::NoTransaction),
        }
    }

    // Whether the log has room for so much more, and numbers.
    pub(crate) fn admits(&self, need: u64) -> bool
        ensures { IsTrue result ↔ ((first_of self.now + length (waiting_of self.now) ≤ LAST_LSN)
            × ((room_in (txns_of self.now)).kept + (room_in (txns_of self.now)).reserved + need + LONGEST_FRAME + GREATEST_CHECKPOINT ≤ (room_in (txns_of self.now)).stream_bytes)) }
    {
        self.tail.next().0 <= LAST_LSN && self.control.admits(need)
    }

    fn begin(&mut self, alloc: Global, session: SessionId) -> Result<Step, Fault>
        requires { HasNoTxnOf session (txns_of self.old) }
        ensures replied { has_failed self.old ≡ false → InEach (λ front disk before s store. DoesNotWait s session → Replied session Call.Begin result self.old self.new front before s store) self.old }
        ensures serves { ServesCall (Reads Call.Begin) self.old result self.old self.new }
        ensures heap { heap_of self.new ≡ heap_of self.old }
        ensures ring { (room_in (txns_of self.new)).stream_bytes ≡ (room_in (txns_of self.old)).stream_bytes }
    {
        if self.control.count() >= MAX_TRANSACTIONS {
            return Err(Fault::TooManyTransactions);
        }
        if !self.admits(ENDING_COST) || self.control.next() >= LAST_TXN {
            return Err(Fault::LogFull);
        }
        let txn = self.control.begin(alloc, session)?;
        Ok(Step::Done(Answer::Began(txn)))
    }

    /// The log device has forced its records up to this number, which is no lower than what was told before.
    pub fn told(&mut self, durable: Lsn)
        requires no_lower { durable_of self.old ≤ durable }
        requires logged { durable ≤ cores.last_of self.old }
        ensures told { InEach (λ front disk before s store. IsIn front disk before self.new (with_durable durable s)
            × IsOver disk self.new (with_durable durable s) (force_to store durable)) self.old }
        ensures heap { heap_of self.new ≡ heap_of self.old }
        ensures tail { tail_of self.new ≡ tail_of self.old }
        ensures running { has_failed self.new ≡ has_failed self.old }
        ensures durable { durable_of self.new ≡ durable }
        ensures first { first_of self.new ≡ first_of self.old }
        ensures ring { (room_in (txns_of self.new)).stream_bytes ≡ (room_in (txns_of self.old)).stream_bytes }
    {
        self.durable = durable;
    }

    /// The number up to which the log is durable, as far as was told.
    pub fn durable(&self) -> Lsn
        ensures { result ≡ durable_of self.now }
    {
        self.durable
    }

    /// Whether the Commit of a ticket is durable, as far as was told. It is asked of the manager that gave the ticket: numbers that a crash lost are used
    /// again. Nothing changes, and a failure is none of its concern: what was durable stays so.
    pub fn ask(&self, ticket: Ticket) -> Step
        ensures answered { (answer : Bool) × (result ≡ Step.Done (Answer.IsDurable answer)) × ((answer ≡ true) ↔ (ticket ≤ durable_of self.now)) }
    {
        Step::Done(Answer::IsDurable(ticket.number() <= self.durable))
    }

    /// A device has failed: every later call answers `Failed`.
    pub fn fail(&mut self)
        ensures failed { InEach (λ front disk before s store. IsIn front disk before self.new (with_failure s) × IsOver disk self.new (with_failure s) store) self.old }
        ensures noted { IsTrue (has_failed self.new) }
        ensures heap { heap_of self.new ≡ heap_of self.old }
        ensures tail { tail_of self.new ≡ tail_of self.old }
        ensures durable { durable_of self.new ≡ durable_of self.old }
        ensures first { first_of self.new ≡ first_of self.old }
        ensures ring { (room_in (txns_of self.new)).stream_bytes ≡ (room_in (txns_of self.old)).stream_bytes }
    {
        self.failed = true;
    }

    pub fn has_failed(&self) -> bool
        ensures { result ≡ has_failed self.now }
    {
        self.failed
    }

    /// How the stores of its volume are laid out.
    pub fn geometry(&self) -> &Geometry
        ensures { result.now ≡ geometry_of self.now }
    {
        self.heap.geometry()
    }
}
