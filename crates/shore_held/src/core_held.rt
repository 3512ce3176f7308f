//! What lies under the core's lock.
ghost use Rattle.std.specs.Prelude.{◌≡◌, ◌≢◌, ◌⊎◌, ◌↔◌, ◌≤◌, ◌<◌, ◌+◌, ◌-◌, [], ◌∷◌, ◌++◌, length, ℕ, IfNone, IfSome, IsTrue, None, Some, false, slice_get, true};
ghost use Rattle.shore_types.specs.declared.faults.Fault.TheVariants as Fault;
ghost use Rattle.shore_types.specs.declared.layout.TheConstants.{LOG_FRONT_BYTES};
ghost use Rattle.shore_txn.specs.Transactions.{room_in};
ghost use Rattle.shore_check.specs.declared.stage.Stage.TheVariants as Stage;
ghost use Rattle.shore_model.specs.Calls.{IsServed};
ghost use Rattle.shore_model.specs.declared.step.Step.TheVariants as Step;
ghost use Rattle.shore_dwrite.specs.Syncs.{syncs_of};
ghost use Rattle.shore_pool.specs.Pools.{batch_of};
ghost use Rattle.shore_heap.specs.Heaps.{amid_of, history_of, honesty_of, pool_of};
ghost use Rattle.shore_core.specs.Cores.{durable_of, geometry_of, has_failed, heap_of, last_of, txns_of, volume_of, waiting_of, waits_of};
ghost use Rattle.shore_core.specs.TailHolders.{HoldsTail};
ghost use Rattle.shore_core.specs.Waking.{IsLetThrough, NoneLetThrough};
ghost use Rattle.shore_sessions.specs.declared.waits.WaitingCall.{WaitingCall};
ghost use Rattle.shore_core.specs.Flushing.{FlushSteps, TurnAnswers};
ghost use Rattle.shore_core.specs.Replies.{GaveUp, InEach, Reads, ReadsWaiting, Resumed, Serves, Stepped, fault_at, forced_at};
ghost use Rattle.shore_words.specs.Words.{listener, looker, AreBy, HasHeard, Listens, heard_of};
ghost use Rattle.shore_held.specs.Comings.{Beginning, HasAim, HasComeBy, IsAimOf, anchored_at};
ghost use Rattle.shore_held.specs.Trails.{calls_in, has_failure, moves_of, noted_in};
ghost use Rattle.shore_held.specs.declared.asked.Asked.TheVariants as Asked;
ghost use Rattle.shore_held.specs.declared.core_held.TheConstants.{ALL_PARTS};

use crate::asked::Asked;
use crate::names::Named;
use crate::seat::Seat;
use crate::tape::{Taped, note_on};
use http_server::Log as GhostLog;
use shore_core::{Core, Stage, Step, TailHolder};
use shore_disk::Disk;
use shore_log::{PlainTail, Tail};
use shore_model::Call;
use shore_pool::Amid;
use shore_txn::LogRoom;
use shore_types::{Fault, Lsn, SessionId};
use shore_words::Words;
use std::alloc::Global;
use std::snapshot::Snapshot;
use std::sync::ledger::{Book, Share};

/// How many parts the ledger has: one for each session that there may be, and one that stays.
pub const ALL_PARTS: u32 = 1_000;

/// The core with its checkpoint, and what was asked of it and what that came to. Contracts alone see the latter.
#[derive(Drop)]
pub struct CoreHeld<B: Named, T: Tail, V: Disk> {
    // The core.
    pub(crate) core: Core<T, V>,
    // How far a checkpoint has come.
    pub(crate) stage: Stage,
    // The trail: what was asked, by which session, and what it came to. It takes no memory.
    pub(crate) asked: GhostLog<Asked, SessionId>,
    pub(crate) stepped: GhostLog<Step, SessionId>,
    // What a test reads of it.
    pub(crate) tape: Option<Vec<Taped>>,
    // How many calls were made, and the parts of the ledger that no session has: of them no call is made.
    pub(crate) calls: Book<B>,
    pub(crate) rest: Share<B>,
    // How many sessions were made: each has a number of its own, and one part.
    pub(crate) made: u32,
    // What the core has seen of how far the log is durable, the anchor that counts, and where a move of it that has failed was to lead.
    pub(crate) seat: Seat<B>,
    // The seat that notes what each session hears, and tells who waits for the log that a device has failed.
    pub(crate) book: Seat<B>,
    ghost come_by: { (start : Beginning) → B.honest start → ∥ HasComeBy start B.cut B.before core stage (anchored_at seat.kept) (moves_of asked.items stepped.items) ∥₁ },
    ghost layout: { geometry_of core ≡ B.geometry },
    ghost ring: { (room_in (txns_of core)).stream_bytes + LOG_FRONT_BYTES ≡ B.log_bytes },
    ghost as_many: { length stepped.items ≡ length asked.items },
    ghost keeps: { seat.keeps ≡ true },
    ghost durable_seen: { durable_of core ≤ seat.seen },
    ghost aims: { HasAim seat.kept.aim → ∥ IsAimOf stage (durable_of core) seat.kept.aim ∥₁ },
    ghost counted: { calls.total ≡ calls_in asked.items },
    ghost parts: { rest.parts + made ≡ B.all },
    ghost none_kept: { rest.amount ≡ 0 },
    ghost booked: { (book.notes ≡ true) × (book.noted ≡ noted_in asked.items stepped.items) × (book.made ≡ made) },
    ghost failing: { book.failing ≡ true → IsTrue (has_failure asked.items) },
    ghost fails: { IsTrue (has_failure asked.items) → IsTrue (has_failed core) },
}

impl<B: Named, T: Tail, V: Disk> CoreHeld<B, T, V> {
    /// A core that was just opened, or whose events so far are not asked for.
    pub fn new(
        core: Core<T, V>,
        stage: Stage,
        calls: Book<B>,
        rest: Share<B>,
        seat: Seat<B>,
        book: Seat<B>,
    ) -> CoreHeld<B, T, V>
        requires calls { (calls.total ≡ 0) × (rest.parts ≡ B.all) × (rest.amount ≡ 0) }
        requires seat { (seat.keeps ≡ true) × (durable_of core ≤ seat.seen) × (seat.kept.aim ≡ (0, 0)) }
        requires book { (book.notes ≡ true) × (book.noted ≡ []) × (book.made ≡ 0) × (book.failing ≡ false) }
        requires layout { (geometry_of core ≡ B.geometry) × ((room_in (txns_of core)).stream_bytes + LOG_FRONT_BYTES ≡ B.log_bytes) }
        requires opened { (start : Beginning) → B.honest start → ∥ HasComeBy start B.cut B.before core stage (anchored_at seat.kept) [] ∥₁ }
        ensures { (result.core ≡ core) × (result.stage ≡ stage) × (result.asked.items ≡ []) × (result.stepped.items ≡ []) × (result.tape ≡ None) × (result.seat ≡ seat)
            × (result.made ≡ 0) }
    {
        CoreHeld {
            core,
            stage,
            asked: GhostLog::new(),
            stepped: GhostLog::new(),
            tape: None,
            calls,
            rest,
            made: 0,
            seat,
            book,
        }
    }

    /// A call of a session.
    pub fn call(
        &mut self,
        alloc: Global,
        words: &Words,
        session: SessionId,
        share: &mut Share<B>,
        ear: &mut Seat<B>,
        call: Call,
    ) -> Step
        requires words { (words.now.table.shared.table_id ≡ B.table) × (4 < B.table.words) }
        requires served { IsServed call }
        requires share { share.old.parts ≡ 1 }
        requires ear { Listens ear.old × (ear.old.session ≡ session) }
        ensures step { InEach (λ front disk before s store. Stepped session call result self.old.core self.new.core front before s store) self.old.core }
        // At any moment no page of the volume has a number above what the core knows to be durable, which its seat has seen.
        ensures serves { Serves (Reads call) (forced_at call self.old.core self.new.core) (fault_at result) self.old.core self.new.core }
        ensures still { IsTrue (has_failed self.old.core) → heap_of self.new.core ≡ heap_of self.old.core }
        ensures share { (share.new.parts ≡ 1) × (share.new.amount ≡ share.old.amount + 1) }
        // Its seat has heard it.
        ensures heard { ear.new ≡ record ear.old { heard = ear.old.heard ++ record { asked = Some call; step = result } ∷ [] } }
        ensures asked { self.new.asked.items ≡ self.old.asked.items ++ (Asked.Call call, session) ∷ [] }
        ensures stepped { self.new.stepped.items ≡ self.old.stepped.items ++ (result, session) ∷ [] }
        ensures tape { self.old.tape ≡ None → self.new.tape ≡ None }
        ensures same { (self.new.stage ≡ self.old.stage) × (self.new.made ≡ self.old.made) × (self.new.rest ≡ self.old.rest) × (self.new.seat ≡ self.old.seat) }
    {
        let asked = Asked::Call(call);
        self.asked = self.asked.and(&asked, &session);
        let Asked::Call(call) = asked else {
            unreachable!()
        };
        let (said, call) = with_snapshot(call);
        let step = self.core.call(alloc, session, call);
        self.stepped = self.stepped.and(&step, &session);
        note_on(&mut self.tape, session, &step);
        self.calls.add(share, 1);
        self.book.note(words, ear, &said, &step);
        step
    }

    /// A session goes on with its call that waits.
    pub fn resume(
        &mut self,
        alloc: Global,
        words: &Words,
        session: SessionId,
        share: &mut Share<B>,
        ear: &mut Seat<B>,
    ) -> Step
        requires words { (words.now.table.shared.table_id ≡ B.table) × (4 < B.table.words) }
        requires share { share.old.parts ≡ 1 }
        requires ear { Listens ear.old × (ear.old.session ≡ session) }
        ensures step { InEach (λ front disk before s store. Resumed session result self.old.core self.new.core front before s store) self.old.core }
        ensures serves { Serves (ReadsWaiting self.old.core session) self.old.core (fault_at result) self.old.core self.new.core }
        ensures still { IsTrue (has_failed self.old.core) → heap_of self.new.core ≡ heap_of self.old.core }
        ensures share { (share.new.parts ≡ 1) × (share.new.amount ≡ share.old.amount + 1) }
        // Its seat has heard it.
        ensures heard { ear.new ≡ record ear.old { heard = ear.old.heard ++ record { asked = None; step = result } ∷ [] } }
        ensures asked { self.new.asked.items ≡ self.old.asked.items ++ (Asked.Resume, session) ∷ [] }
        ensures stepped { self.new.stepped.items ≡ self.old.stepped.items ++ (result, session) ∷ [] }
        ensures tape { self.old.tape ≡ None → self.new.tape ≡ None }
        ensures same { (self.new.stage ≡ self.old.stage) × (self.new.made ≡ self.old.made) × (self.new.rest ≡ self.old.rest) × (self.new.seat ≡ self.old.seat) }
    {
        self.asked = self.asked.and(&Asked::Resume, &session);
        let step = self.core.resume(alloc, session);
        self.stepped = self.stepped.and(&step, &session);
        note_on(&mut self.tape, session, &step);
        self.calls.add(share, 1);
        self.book.note(words, ear, &Snapshot::of(&None), &step);
        step
    }

    /// A session's wait for a lock is taken back, if it waits for one. It counts as a call.
    pub fn give_up(
        &mut self,
        words: &Words,
        session: SessionId,
        share: &mut Share<B>,
        ear: &mut Seat<B>,
    ) -> Step
        requires words { (words.now.table.shared.table_id ≡ B.table) × (4 < B.table.words) }
        requires share { share.old.parts ≡ 1 }
        requires ear { Listens ear.old × (ear.old.session ≡ session) }
        ensures step { InEach (λ front disk before s store. GaveUp session result self.old.core self.new.core front before s store) self.old.core }
        ensures serves { Serves (λ page. ⊥) self.old.core (fault_at result) self.old.core self.new.core }
        ensures heap { heap_of self.new.core ≡ heap_of self.old.core }
        ensures share { (share.new.parts ≡ 1) × (share.new.amount ≡ share.old.amount + 1) }
        // Its seat has heard it as a step with which its call went on; if there was nothing to take back, it has heard nothing.
        ensures heard { result ≢ Step.Nothing → ear.new ≡ record ear.old { heard = ear.old.heard ++ record { asked = None; step = result } ∷ [] } }
        ensures unheard { result ≡ Step.Nothing → ear.new ≡ ear.old }
        ensures asked { self.new.asked.items ≡ self.old.asked.items ++ (Asked.GiveUp, session) ∷ [] }
        ensures stepped { self.new.stepped.items ≡ self.old.stepped.items ++ (result, session) ∷ [] }
        ensures tape { self.old.tape ≡ None → self.new.tape ≡ None }
        ensures same { (self.new.stage ≡ self.old.stage) × (self.new.made ≡ self.old.made) × (self.new.rest ≡ self.old.rest) × (self.new.seat ≡ self.old.seat) }
    {
        self.asked = self.asked.and(&Asked::GiveUp, &session);
        let step = self.core.give_up(session);
        self.stepped = self.stepped.and(&step, &session);
        note_on(&mut self.tape, session, &step);
        self.calls.add(share, 1);
        if is_nothing(&step) {
            return step;
        }
        let none = Snapshot::of(&None);
        self.book.note(words, ear, &none, &step);
        step
    }

    /// The core learns what its seat sees: how far the log is durable.
    pub fn look(&mut self, words: &Words) -> Lsn
        requires { (words.now.table.shared.table_id ≡ B.table) × (4 < B.table.words) }
        ensures seen { (self.new.seat ≡ record self.old.seat { seen = result }) × (self.old.seat.seen ≤ result) }
        ensures learned { result ≤ last_of self.old.core → durable_of self.new.core ≡ result }
        ensures records { (waiting_of self.new.core ≡ waiting_of self.old.core) × (has_failed self.new.core ≡ has_failed self.old.core) }
        ensures heap { heap_of self.new.core ≡ heap_of self.old.core }
        ensures trail { ((self.new.asked.items ≡ self.old.asked.items) × (self.new.stepped.items ≡ self.old.stepped.items))
            ⊎ ((n : ℕ) × (self.new.asked.items ≡ self.old.asked.items ++ (Asked.Told n, 0) ∷ []) × (self.new.stepped.items ≡ self.old.stepped.items ++ (Step.Nothing, 0) ∷ [])) }
        ensures same { (self.new.stage ≡ self.old.stage) × (self.new.made ≡ self.old.made) × (self.new.rest ≡ self.old.rest) }
        ensures tape { self.new.tape ≡ self.old.tape }
    {
        let seen = self.seat.look(words);
        self.learn(Lsn(seen));
        Lsn(seen)
    }

    /// The core learns that the log is durable up to a number that its seat has seen.
    pub fn learn(&mut self, number: Lsn)
        requires { number ≤ self.old.seat.seen }
        ensures learned { durable_of self.old.core ≤ number → number ≤ last_of self.old.core → durable_of self.new.core ≡ number }
        ensures records { (waiting_of self.new.core ≡ waiting_of self.old.core) × (has_failed self.new.core ≡ has_failed self.old.core) }
        ensures heap { heap_of self.new.core ≡ heap_of self.old.core }
        ensures same { (self.new.stage ≡ self.old.stage) × (self.new.made ≡ self.old.made) × (self.new.rest ≡ self.old.rest) × (self.new.seat ≡ self.old.seat) }
        ensures trail { ((self.new.asked.items ≡ self.old.asked.items) × (self.new.stepped.items ≡ self.old.stepped.items))
            ⊎ ((n : ℕ) × (self.new.asked.items ≡ self.old.asked.items ++ (Asked.Told n, 0) ∷ []) × (self.new.stepped.items ≡ self.old.stepped.items ++ (Step.Nothing, 0) ∷ [])) }
        ensures tape { self.new.tape ≡ self.old.tape }
    {
        // What was seen is durable, so it is a record's number; that cannot be known under this lock alone.
        let durable = least(number.0, self.core.last().0);
        if self.core.durable().0 < durable {
            self.core.told(Lsn(durable));
            self.asked = self.asked.and(&Asked::Told(Lsn(durable)), &SessionId(0));
            self.stepped = self.stepped.and(&Step::Nothing, &SessionId(0));
        }
    }

    /// How far the batch is that is on its way to the volume.
    pub fn amid(&self) -> Amid
        ensures { result ≡ amid_of (heap_of self.now.core) }
    {
        self.core.amid()
    }

    /// How many pages that batch has, or the last one had.
    pub fn batch_pages(&self) -> usize
        ensures { result ≡ length (batch_of (pool_of (heap_of self.now.core))) }
    {
        self.core.batch_pages()
    }

    /// A step of the flush that makes one sync: the core may be given back between two of them.
    pub fn flush_on(&mut self) -> Step
        ensures step { InEach (λ front disk before s store. FlushSteps result self.new.core front before s store) self.old.core }
        ensures answers { TurnAnswers self.old.core result self.new.core }
        ensures syncs { IsTrue (honesty_of (heap_of self.old.core)) → syncs_of (history_of (heap_of self.new.core)) ≤ syncs_of (history_of (heap_of self.old.core)) + 1 }
        ensures failed { IsTrue (has_failed self.old.core) → result ≡ Step.Refused Fault.Failed }
        ensures still { IsTrue (has_failed self.old.core) → heap_of self.new.core ≡ heap_of self.old.core }
        ensures serves { Serves (λ page. ⊥) self.old.core (fault_at result) self.old.core self.new.core }
        // It is in the trail if the volume fails.
        ensures fails { result ≡ Step.Refused Fault.Device
            → (self.new.asked.items ≡ self.old.asked.items ++ (Asked.Failed, 0) ∷ []) × (self.new.stepped.items ≡ self.old.stepped.items ++ (Step.Nothing, 0) ∷ []) }
        ensures trail { result ≢ Step.Refused Fault.Device → (self.new.asked.items ≡ self.old.asked.items) × (self.new.stepped.items ≡ self.old.stepped.items) }
        ensures same { (self.new.stage ≡ self.old.stage) × (self.new.made ≡ self.old.made) × (self.new.rest ≡ self.old.rest) × (self.new.seat ≡ self.old.seat) }
        ensures tape { self.new.tape ≡ self.old.tape }
    {
        let step = self.core.flush_on();
        if is_failure(&step) {
            self.asked = self.asked.and(&Asked::Failed, &SessionId(0));
            self.stepped = self.stepped.and(&Step::Nothing, &SessionId(0));
        }
        step
    }

    /// The log device has failed: every later call is refused, and then who waits for the log is told.
    pub fn fail(&mut self, words: &Words)
        requires { (words.now.table.shared.table_id ≡ B.table) × (4 < B.table.words) }
        ensures noted { IsTrue (has_failed self.new.core) }
        ensures told { self.new.book.failing ≡ true }
        ensures records { (waiting_of self.new.core ≡ waiting_of self.old.core) × (durable_of self.new.core ≡ durable_of self.old.core) }
        ensures heap { heap_of self.new.core ≡ heap_of self.old.core }
        ensures trail { (self.new.asked.items ≡ self.old.asked.items ++ (Asked.Failed, 0) ∷ []) × (self.new.stepped.items ≡ self.old.stepped.items ++ (Step.Nothing, 0) ∷ []) }
        ensures same { (self.new.stage ≡ self.old.stage) × (self.new.made ≡ self.old.made) × (self.new.rest ≡ self.old.rest) × (self.new.seat ≡ self.old.seat) }
        ensures tape { self.new.tape ≡ self.old.tape }
    {
        self.core.fail();
        self.asked = self.asked.and(&Asked::Failed, &SessionId(0));
        self.stepped = self.stepped.and(&Step::Nothing, &SessionId(0));
        self.book.tell_failure(words);
    }

    /// A new session: its number, which no other has, its part of the ledger, a seat to look with, and the one that hears what its calls come to. None once all parts but one
    /// are theirs.
    pub fn session(&mut self, words: &Words) -> Option<(SessionId, Share<B>, Seat<B>, Seat<B>)>
        requires words { (words.now.table.shared.table_id ≡ B.table) × (4 < B.table.words) }
        requires all { B.all ≡ ALL_PARTS }
        ensures fresh { IfSome result (λ s. (s.0 ≡ self.old.made + 1) × (s.0 < ALL_PARTS) × (s.1.parts ≡ 1) × (s.1.amount ≡ 0) × (s.2 ≡ looker self.old.seat.seen)) }
        ensures ear { IfSome result (λ s. (seen : ℕ) × (s.3 ≡ listener seen s.0 [])) }
        ensures made { IfSome result (λ s. self.new.made ≡ self.old.made + 1) }
        ensures none { IfNone result ((ALL_PARTS ≤ self.old.made + 1) × (self.new.made ≡ self.old.made)) }
        ensures same { (self.new.core ≡ self.old.core) × (self.new.stage ≡ self.old.stage) × (self.new.asked.items ≡ self.old.asked.items) × (self.new.stepped.items ≡ self.old.stepped.items)
            × (self.new.seat ≡ self.old.seat) }
        ensures tape { self.new.tape ≡ self.old.tape }
    {
        if self.made >= ALL_PARTS - 1 {
            return None;
        }
        let share = self.rest.split_off(1, 0);
        let seat = self.seat.reader(words);
        let ear = self.book.session(words);
        self.made += 1;
        Some((SessionId(self.made), share, seat, ear))
    }

    /// Shows that what a seat knows of a session is in the trail: it begins what the trail has of that session, and is all of it if the seat is the session's. The trail has nobody but the
    /// sessions made. If the seat has found that a device has failed, that is in the trail, and the core has failed.
    pub fn show(&mut self, words: &Words, ear: &mut Seat<B>)
        requires { (words.now.table.shared.table_id ≡ B.table) × (4 < B.table.words) }
        ensures heard { HasHeard (noted_in self.old.asked.items self.old.stepped.items) ear.old.session ear.old.heard }
        ensures whole { ear.old.listens ≡ true → heard_of ear.old.session (noted_in self.old.asked.items self.old.stepped.items) ≡ ear.old.heard }
        ensures by { AreBy self.old.made (noted_in self.old.asked.items self.old.stepped.items) }
        ensures failed { ear.old.failed ≡ true → IsTrue (has_failure self.old.asked.items) }
        ensures spent { ear.new ≡ record ear.old { session = 0; listens = false; heard = [] } }
        ensures same { (self.new.core ≡ self.old.core) × (self.new.stage ≡ self.old.stage) × (self.new.asked.items ≡ self.old.asked.items) × (self.new.stepped.items ≡ self.old.stepped.items)
            × (self.new.made ≡ self.old.made) × (self.new.rest ≡ self.old.rest) × (self.new.seat ≡ self.old.seat) }
        ensures tape { self.new.tape ≡ self.old.tape }
    {
        self.book.show(words, ear);
    }

    /// A share of nothing, for who gathers those of the sessions.
    pub fn none(&mut self) -> Share<B>
        ensures none { (result.parts ≡ 0) × (result.amount ≡ 0) }
        ensures core { (self.new.core ≡ self.old.core) × (self.new.asked.items ≡ self.old.asked.items) × (self.new.stepped.items ≡ self.old.stepped.items) }
        ensures same { (self.new.stage ≡ self.old.stage) × (self.new.made ≡ self.old.made) × (self.new.rest ≡ self.old.rest) × (self.new.seat ≡ self.old.seat) }
        ensures tape { self.new.tape ≡ self.old.tape }
    {
        self.rest.empty()
    }

    /// The core and its checkpoint, for the shares of all its sessions: these are as many calls as the trail has.
    pub fn into_core(self, sessions: Share<B>) -> (Core<T, V>, Stage)
        requires back { sessions.parts ≡ self.made }
        requires whole { B.all ≡ B.parts }
        ensures core { (result.0 ≡ self.core) × (result.1 ≡ self.stage) }
        ensures counted { sessions.amount ≡ calls_in self.asked.items }
    {
        let CoreHeld {
            core,
            stage,
            mut calls,
            mut rest,
            ..
        } = self;
        rest.merge(sessions);
        calls.audit(&mut rest);
        (core, stage)
    }

    /// How many sessions were made.
    pub fn sessions(&self) -> u32
        ensures { result ≡ self.now.made }
    {
        self.made
    }

    /// The number of the log's last record.
    pub fn last(&self) -> Lsn
        ensures { result ≡ last_of self.now.core }
    {
        self.core.last()
    }

    /// The number up to which the core knows the log to be durable.
    pub fn durable(&self) -> Lsn
        ensures { result ≡ durable_of self.now.core }
    {
        self.core.durable()
    }

    /// The session of the first call that waits, from this place of their list on, and may go on; with the place of the call.
    pub fn next_let_through(&self, from: usize) -> Option<(SessionId, usize)>
        ensures some { IfSome result (λ r. (w : WaitingCall) × (slice_get (waits_of self.now.core) r.1 ≡ Some w) × (w.session ≡ r.0) × IsLetThrough self.now.core w) }
        ensures first { IfSome result (λ r. (from ≤ r.1) × NoneLetThrough self.now.core from r.1) }
        ensures none { IfNone result (NoneLetThrough self.now.core from (length (waits_of self.now.core))) }
    {
        self.core.next_let_through(from)
    }

    /// The room of the log.
    pub fn room(&self) -> LogRoom
        ensures { result ≡ room_in (txns_of self.now.core) }
    {
        self.core.room()
    }

    /// Whom the log has to be kept for from furthest back on.
    pub fn tail_holder(&self) -> TailHolder
        ensures { HoldsTail (txns_of self.now.core) (heap_of self.now.core) result }
    {
        self.core.tail_holder()
    }

    /// Whether no checkpoint is under way.
    pub fn rests(&self) -> bool
        ensures { IsTrue result ↔ (self.now.stage ≡ Stage.Resting) }
    {
        matches!(self.stage, Stage::Resting)
    }

    /// A seat for one who looks.
    pub fn seat(&mut self, words: &Words) -> Seat<B>
        requires { (words.now.table.shared.table_id ≡ B.table) × (4 < B.table.words) }
        ensures same { (self.new.core ≡ self.old.core) × (self.new.stage ≡ self.old.stage) × (self.new.asked.items ≡ self.old.asked.items) × (self.new.stepped.items ≡ self.old.stepped.items)
            × (self.new.made ≡ self.old.made) × (self.new.rest ≡ self.old.rest) × (self.new.seat ≡ self.old.seat) }
        ensures new { result ≡ looker self.old.seat.seen }
        ensures tape { self.new.tape ≡ self.old.tape }
    {
        self.seat.reader(words)
    }
}

// A call, with what contracts know of it once it is gone.
fn with_snapshot(call: Call) -> (Snapshot<Option<Call>>, Call)
    ensures { (result.0.value ≡ Some call) × (result.1 ≡ call) }
{
    let said = Some(call);
    let shown = Snapshot::of(&said);
    let Some(call) = said else { unreachable!() };
    (shown, call)
}

fn least(a: u64, b: u64) -> u64
    ensures first { result ≤ a }
    ensures second { result ≤ b }
    ensures exact { a ≤ b → result ≡ a }
{
    if a < b { a } else { b }
}

// Whether the step changed nothing.
fn is_nothing(step: &Step) -> bool
    ensures { IsTrue result ↔ (step.now ≡ Step.Nothing) }
{
    matches!(step, Step::Nothing)
}

// Whether a device has failed in the step.
pub fn is_failure(step: &Step) -> bool
    ensures { IsTrue result ↔ (step.now ≡ Step.Refused Fault.Device) }
{
    matches!(step, Step::Refused(Fault::Device))
}

impl<B: Named, T: Tail + Drop, V: Disk> CoreHeld<B, T, V> {
    /// The volume's device, as it is: what was changed in memory alone is forgotten. Sessions may be missing.
    pub fn into_volume(self, alloc: Global) -> V
        ensures { result ≡ volume_of self.core }
    {
        let CoreHeld { core, .. } = self;
        let tail = PlainTail::new(alloc, Lsn(core.last().0 + 1));
        let (core, _) = core.with_tail(tail);
        core.into_volume().into_device()
    }
}
