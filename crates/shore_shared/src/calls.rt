//! The calls of a session, which wait.
ghost use Rattle.std.specs.Prelude.{◌≡◌, false, true, ◌↔◌, ◌⊎◌, ◌≤◌, ◌<◌, ◌+◌, ◌≢◌, ℕ, [], ◌∷◌, ◌++◌, List, IfErr, IfNone, IfOk, IfSome, IsTrue, MatchOption, Some, None};
ghost use Rattle.shore_types.specs.declared.faults.Fault as faults;
ghost use Rattle.shore_types.specs.declared.faults.Fault.TheVariants as Fault;
ghost use Rattle.shore_model.specs.declared.step.Step.TheVariants as Step;
ghost use Rattle.shore_model.specs.Calls.{IsServed};
ghost use Rattle.shore_model.specs.declared.calls.Answer.TheVariants as Answer;
ghost use Rattle.shore_model.specs.declared.calls.Call.{Call};
ghost use Rattle.shore_core.specs.Replies.{InEach, Reads, ReadsWaiting, Resumed, Serves, Stepped, fault_at, forced_at};
ghost use Rattle.shore_held.specs.declared.asked.Asked.TheVariants as Asked;
ghost use Rattle.shore_words.specs.declared.rule.Heard.{Heard};
ghost use Rattle.shore_shared.specs.Heard.{AwaitsLock, AwaitsLog, HasGoneOn, HasLooked, Hears, HearsCommit, IsAnswered, IsOfCommit, IsRefusal, IsRefusalOfCommit};

use crate::session::Session;
use crate::shared::{Shared, sleeper_of};
use crate::waiting::waits_for_lock;
use shore_core::{Step, Wait as Awaits};
use shore_disk::Disk;
use shore_held::{CoreHeld, Named};
use shore_log::Tail;
use shore_model::{Answer, Call};
use shore_queue::Numbers;
use shore_types::{Fault, Lsn, Ticket};
use shore_words::Words;
use std::alloc::Global;
use std::sync::{MutexGuard, Wait};
use std::time::Duration;

// A session that found the core's lock taken by so many steps in turn gives way.
const MOST_CROWDED: u32 = 8;

/// The step that a session makes under the core's lock: a call, or it goes on with that which waits.
pub fn session_step<B: Named, T: Tail, V: Disk>(
    alloc: Global,
    words: &Words,
    core: &mut CoreHeld<B, T, V>,
    session: &mut Session<B>,
    call: Option<Call>,
) -> Step
    requires served { (c : Call) → call ≡ Some c → IsServed c }
    requires words { (words.now.table.shared.table_id ≡ B.table) × (4 < B.table.words) }
    ensures call { (c : Call) → call ≡ Some c → InEach (λ front disk before s store. Stepped session.old.number c result core.old.core core.new.core front before s store) core.old.core }
    ensures resume { call ≡ None → InEach (λ front disk before s store. Resumed session.old.number result core.old.core core.new.core front before s store) core.old.core }
    // At any moment no page of the volume has a number above what the core knows to be durable, which its seat has seen.
    ensures call_serves { (c : Call) → call ≡ Some c → Serves (Reads c) (forced_at c core.old.core core.new.core) (fault_at result) core.old.core core.new.core }
    ensures resume_serves { call ≡ None → Serves (ReadsWaiting core.old.core session.old.number) core.old.core (fault_at result) core.old.core core.new.core }
    ensures asked { MatchOption call (core.new.asked.items ≡ core.old.asked.items ++ (Asked.Resume, session.old.number) ∷ [])
        (λ c. core.new.asked.items ≡ core.old.asked.items ++ (Asked.Call c, session.old.number) ∷ []) }
    ensures stepped { core.new.stepped.items ≡ core.old.stepped.items ++ (result, session.old.number) ∷ [] }
    ensures share { session.new.share.amount ≡ session.old.share.amount + 1 }
    ensures session { (session.new.number ≡ session.old.number) × (session.new.seat ≡ session.old.seat) }
    // The session has heard it.
    ensures heard { session.new.ear ≡ record session.old.ear { heard = session.old.ear.heard ++ record { asked = call; step = result } ∷ [] } }
    ensures same { (core.new.stage ≡ core.old.stage) × (core.new.made ≡ core.old.made) × (core.new.seat ≡ core.old.seat) }
{
    match call {
        Some(call) => core.call(
            alloc,
            words,
            session.number,
            &mut session.share,
            &mut session.ear,
            call,
        ),
        None => core.resume(
            alloc,
            words,
            session.number,
            &mut session.share,
            &mut session.ear,
        ),
    }
}

// The call that waits goes on if it may, and its wait is taken back if it waits still, under one hold of the core's lock: so a lock that was granted meanwhile is not lost. The answer is
// what the session has heard last.
fn back_step<B: Named, T: Tail, V: Disk>(
    alloc: Global,
    words: &Words,
    core: &mut CoreHeld<B, T, V>,
    session: &mut Session<B>,
) -> Step
    requires { (words.now.table.shared.table_id ≡ B.table) × (4 < B.table.words) }
    ensures same { (session.new.number ≡ session.old.number) × (session.new.seat ≡ session.old.seat) × (session.old.share.amount < session.new.share.amount) }
    ensures heard { HasGoneOn session.old.ear session.new.ear result }
{
    let step = session_step(alloc, words, core, session, None);
    if !waits_for_lock(&step) {
        return step;
    }
    let back = core.give_up(words, session.number, &mut session.share, &mut session.ear);
    // It has heard nothing if there was nothing to take back, and waits on.
    if is_nothing(&back) {
        return step;
    }
    back
}

// What a call that is over was answered.
fn answer_of(step: Step) -> Result<Answer, Fault>
    requires log { ¬ AwaitsLog step }
    requires lock { ¬ AwaitsLock step }
    ensures done { IfOk result (λ answer. step ≡ Step.Done answer) }
    ensures answered { IsAnswered step result }
{
    match step {
        Step::Done(answer) => Ok(answer),
        Step::Refused(fault) => Err(fault),
        Step::Waits(_) => Err(Fault::NotQuiet),
        Step::Nothing => Err(Fault::NotQuiet),
    }
}

// The number that has to be durable before the call goes on, or before it is made again.
fn number_awaited(step: &Step) -> Option<u64>
    ensures some { IfSome result (λ number. AwaitsLog step.now) }
    ensures none { IfNone result (¬ AwaitsLog step.now) }
{
    match step {
        Step::Waits(Awaits::Durable(number)) => Some(number.0),
        Step::Refused(Fault::NeedForce { number }) => Some(number.0),
        _ => None,
    }
}

// Whether the call waits for room in the log: the begin of a session that is in no transaction. In one it may hold the tail itself, and is refused at once.
fn needs_room(call: &Call, in_txn: bool) -> bool {
    matches!(call, Call::Begin) && !in_txn
}

fn is_log_full(step: &Step) -> bool {
    matches!(step, Step::Refused(Fault::LogFull))
}

fn is_refused(step: &Step) -> bool
    ensures { IsTrue result ↔ ((f : faults.Fault) × (step.now ≡ Step.Refused f)) }
{
    matches!(step, Step::Refused(_))
}

fn is_nothing(step: &Step) -> bool
    ensures { IsTrue result ↔ (step.now ≡ Step.Nothing) }
{
    matches!(step, Step::Nothing)
}

// Whether the session is in a transaction behind a step.
fn is_in_txn(was: bool, step: &Step) -> bool {
    match step {
        Step::Done(Answer::Began(_)) => true,
        Step::Done(Answer::Committed(_) | Answer::Aborted | Answer::Prepared | Answer::Resolved) =>
            { false }
        Step::Done(_) | Step::Waits(_) | Step::Refused(_) | Step::Nothing => was,
    }
}

// The ticket of a commit.
fn ticket_of(answer: &Answer) -> Option<Ticket>
    ensures some { IfSome result (λ ticket. answer.now ≡ Answer.Committed ticket) }
    ensures none { IfNone result ((ticket : ℕ) → answer.now ≢ Answer.Committed ticket) }
{
    match answer {
        Answer::Committed(ticket) => Some(Ticket::of(ticket.number())),
        _ => None,
    }
}

impl<B: Named> Session<B> {
    // A step of the session, with what the core has seen; who is let through by it is woken, still under the lock.
    fn step<N: Numbers, R: Wait, T: Tail, L: Disk, V: Disk>(
        &mut self,
        rt: &R,
        alloc: Global,
        shared: &Shared<N, B, T, L, V>,
        call: Option<Call>,
    ) -> Step
        requires { (c : Call) → call ≡ Some c → IsServed c }
        ensures same { (self.new.number ≡ self.old.number) × (self.new.seat ≡ self.old.seat) × (self.new.share.amount ≡ self.old.share.amount + 1) }
        ensures heard { self.new.ear ≡ record self.old.ear { heard = self.old.ear.heard ++ record { asked = call; step = result } ∷ [] } }
    {
        let mut core = self.take_core(rt, shared);
        core.look(&shared.words);
        let step = session_step(alloc, &shared.words, &mut core, self, call);
        shared.wake_let_through(&core);
        let more_taken = shared.freeing.note_step(&core.room(), self.number);
        drop(core);
        if more_taken {
            shared.note_taken();
        }
        if is_log_full(&step) {
            shared.note_full();
        }
        self.note_busy(shared, &step);
        step
    }

    // The core's lock. Where it is taken again and again, others make one call behind another, and turns would cost more than the calls: then this one leaves it to
    // them for a while.
    fn take_core<'a, N: Numbers, R: Wait, T: Tail, L: Disk, V: Disk>(
        &mut self,
        rt: &R,
        shared: &'a Shared<N, B, T, L, V>,
    ) -> MutexGuard<'a, CoreHeld<B, T, V>>
        ensures { (self.new.number ≡ self.old.number) × (self.new.share ≡ self.old.share) × (self.new.seat ≡ self.old.seat) × (self.new.ear ≡ self.old.ear) }
    {
        if let Some(core) = shared.core.try_lock() {
            self.crowded = 0;
            return core;
        }
        self.crowded = self.crowded.saturating_add(1);
        if self.crowded >= MOST_CROWDED {
            self.crowded = 0;
            shared.give_way(rt, self.number);
        }
        shared.lock_core(rt)
    }

    // The log writer gathers the commits of those that are busy: in a transaction, and waiting for no lock.
    fn note_busy<N: Numbers, T: Tail, L: Disk, V: Disk>(
        &mut self,
        shared: &Shared<N, B, T, L, V>,
        step: &Step,
    )
        ensures { (self.new.number ≡ self.old.number) × (self.new.share ≡ self.old.share) × (self.new.seat ≡ self.old.seat) × (self.new.ear ≡ self.old.ear) }
    {
        self.in_txn = is_in_txn(self.in_txn, step);
        let is_busy = self.in_txn && !waits_for_lock(step);
        if is_busy && !self.is_counted {
            shared.count_in();
        }
        if !is_busy && self.is_counted {
            shared.count_out();
        }
        self.is_counted = is_busy;
    }

    // Waits until the number is durable, and is not awaited with a commit meanwhile. Behind it the log writer awaits its next one. False if it finds that a device has failed.
    fn wait_for<N: Numbers, R: Wait, T: Tail, L: Disk, V: Disk>(
        &mut self,
        rt: &R,
        shared: &Shared<N, B, T, L, V>,
        number: Lsn,
    ) -> bool
        ensures seen { IsTrue result ↔ (number ≤ self.new.seat.seen) }
        ensures failed { result ≡ false → self.new.seat.failed ≡ true }
        ensures seat { HasLooked self.old.seat self.new.seat }
        ensures same { (self.new.number ≡ self.old.number) × (self.new.share ≡ self.old.share) × (self.new.ear ≡ self.old.ear) }
    {
        self.crowded = 0;
        let (turn, is_counted) = (shared.turn(), self.is_counted);
        let told = shared.wait_for(rt, &mut self.seat, &mut self.spared, is_counted, number);
        self.is_counted = shared.turn() != turn;
        told
    }

    // The first step of a call, which may have to be made again.
    fn first_step<N: Numbers, R: Wait, T: Tail, L: Disk, V: Disk>(
        &mut self,
        rt: &R,
        alloc: Global,
        shared: &Shared<N, B, T, L, V>,
        call: &Call,
    ) -> Step
        requires { IsServed call.now }
        ensures same { (self.new.number ≡ self.old.number) × (self.new.seat ≡ self.old.seat) }
        // It is made, or an allocation failed before.
        ensures made { ((self.new.share.amount ≡ self.old.share.amount + 1) × (self.new.ear ≡ record self.old.ear { heard = self.old.ear.heard ++ record { asked = Some call.now; step = result } ∷ [] }))
            ⊎ ((result ≡ Step.Refused Fault.Memory) × (self.new.share.amount ≡ self.old.share.amount) × (self.new.ear ≡ self.old.ear)) }
    {
        match call.try_clone(alloc) {
            Ok(copy) => self.step(rt, alloc, shared, Some(copy)),
            Err(_) => Step::Refused(Fault::Memory),
        }
    }

    /// A call of the session. It is answered once its locks are free, and a prepare or a resolve once its record is durable; a call that needs a force is made again
    /// behind it. A commit is answered with its ticket, before it is durable. `Device` if it finds, while it waits for the log, that a device has failed.
    pub fn call<N: Numbers, R: Wait, T: Tail, L: Disk, V: Disk>(
        &mut self,
        rt: &R,
        alloc: Global,
        shared: &Shared<N, B, T, L, V>,
        call: Call,
    ) -> Result<Answer, Fault>
        requires { IsServed call }
        ensures same { self.new.number ≡ self.old.number }
        ensures seat { HasLooked self.old.seat self.new.seat }
        // What is answered was asked of the core: each step counts.
        ensures counted { self.old.share.amount ≤ self.new.share.amount }
        ensures asked { IfOk result (λ _. self.old.share.amount < self.new.share.amount) }
        // .. and the session has heard it: steps behind which it waits, and last of all what it is answered.
        ensures heard { (more : List Heard) × (self.new.ear ≡ record self.old.ear { heard = self.old.ear.heard ++ more }) × Hears self.new.seat.failed call (Some call) more result }
        // A refusal is that of the last of them.
        ensures refused { IfErr result (λ fault. (more : List Heard) × (self.new.ear.heard ≡ self.old.ear.heard ++ more) × IsRefusal self.new.seat.failed more fault) }
    {
        self.call_within(rt, alloc, shared, call, None)
    }

    /// As `call`, but that no single wait for a lock is longer than this: else the call is refused by `WouldBlock`, and its transaction goes on. So it is refused too once the session
    /// is to wait for no lock (`Shared::give_up`). No clock is read: a nap that ends early ends the wait early.
    pub fn call_within<N: Numbers, R: Wait, T: Tail, L: Disk, V: Disk>(
        &mut self,
        rt: &R,
        alloc: Global,
        shared: &Shared<N, B, T, L, V>,
        call: Call,
        most: Option<Duration>,
    ) -> Result<Answer, Fault>
        requires { IsServed call }
        ensures same { self.new.number ≡ self.old.number }
        ensures seat { HasLooked self.old.seat self.new.seat }
        ensures counted { self.old.share.amount ≤ self.new.share.amount }
        ensures asked { IfOk result (λ _. self.old.share.amount < self.new.share.amount) }
        // It has heard steps behind which it waits, and last of all what it is answered. That its wait is taken back is one of them.
        ensures heard { (more : List Heard) × (self.new.ear ≡ record self.old.ear { heard = self.old.ear.heard ++ more }) × Hears self.new.seat.failed call (Some call) more result }
        ensures refused { IfErr result (λ fault. (more : List Heard) × (self.new.ear.heard ≡ self.old.ear.heard ++ more) × IsRefusal self.new.seat.failed more fault) }
    {
        if needs_room(&call, self.in_txn) {
            shared.wait_for_room(rt);
        }
        let mut glanced = shared.sleepers.glance(sleeper_of(self.number));
        let mut step = self.first_step(rt, alloc, shared, &call);
        for _ in rt.forever() {
            let mut gives_up = false;
            if let Some(number) = number_awaited(&step) {
                if !self.wait_for(rt, shared, Lsn(number)) {
                    return Err(Fault::Device);
                }
            } else if waits_for_lock(&step) {
                gives_up = self.is_over_for_lock(rt, shared, glanced, most);
            } else {
                return answer_of(step);
            }
            glanced = shared.sleepers.glance(sleeper_of(self.number));
            step = if is_refused(&step) {
                self.first_step(rt, alloc, shared, &call)
            } else {
                self.go_on(rt, alloc, shared, gives_up)
            };
        }
        unreachable!()
    }

    // Waits for a lock. Whether the wait is to be taken back: the time is over, or the session is to wait for none. That is asked after the glance, so no mark that is set is missed.
    fn is_over_for_lock<N: Numbers, R: Wait, T: Tail, L: Disk, V: Disk>(
        &self,
        rt: &R,
        shared: &Shared<N, B, T, L, V>,
        glanced: u64,
        most: Option<Duration>,
    ) -> bool {
        if shared.sleepers.is_unwanted(sleeper_of(self.number)) {
            return true;
        }
        match most {
            Some(most) => !shared.nap_for_lock(rt, self.number, glanced, most),
            None => {
                shared.sleep_for_lock(rt, self.number, glanced);
                false
            }
        }
    }

    // Goes on with its call that waits, or takes the wait back.
    fn go_on<N: Numbers, R: Wait, T: Tail, L: Disk, V: Disk>(
        &mut self,
        rt: &R,
        alloc: Global,
        shared: &Shared<N, B, T, L, V>,
        gives_up: bool,
    ) -> Step
        ensures same { (self.new.number ≡ self.old.number) × (self.new.seat ≡ self.old.seat) × (self.old.share.amount < self.new.share.amount) }
        ensures heard { HasGoneOn self.old.ear self.new.ear result }
    {
        if gives_up {
            return self.unwait(rt, alloc, shared);
        }
        self.step(rt, alloc, shared, None)
    }

    // Goes on with the call if it may, or takes its wait back.
    fn unwait<N: Numbers, R: Wait, T: Tail, L: Disk, V: Disk>(
        &mut self,
        rt: &R,
        alloc: Global,
        shared: &Shared<N, B, T, L, V>,
    ) -> Step
        ensures same { (self.new.number ≡ self.old.number) × (self.new.seat ≡ self.old.seat) × (self.old.share.amount < self.new.share.amount) }
        ensures heard { HasGoneOn self.old.ear self.new.ear result }
    {
        let mut core = self.take_core(rt, shared);
        core.look(&shared.words);
        let step = back_step(alloc, &shared.words, &mut core, self);
        shared.wake_let_through(&core);
        let more_taken = shared.freeing.note_step(&core.room(), self.number);
        drop(core);
        if more_taken {
            shared.note_taken();
        }
        if is_log_full(&step) {
            shared.note_full();
        }
        self.note_busy(shared, &step);
        step
    }

    /// Commits, and waits until that is durable. `Device` if it finds meanwhile that a device has failed: then the commit may be durable or not.
    pub fn commit_durable<N: Numbers, R: Wait, T: Tail, L: Disk, V: Disk>(
        &mut self,
        rt: &R,
        alloc: Global,
        shared: &Shared<N, B, T, L, V>,
    ) -> Result<Ticket, Fault>
        ensures durable { IfOk result (λ ticket. ticket ≤ self.new.seat.seen) }
        ensures same { self.new.number ≡ self.old.number }
        ensures seat { HasLooked self.old.seat self.new.seat }
        ensures asked { IfOk result (λ _. self.old.share.amount < self.new.share.amount) }
        // The ticket is that of its own Commit.
        ensures heard { (more : List Heard) × (self.new.ear ≡ record self.old.ear { heard = self.old.ear.heard ++ more }) × HearsCommit self.new.seat.failed more result }
        // A refusal is that of the last that it heard, but where a device has failed before the ticket was told to be durable.
        ensures refused { IfErr result (λ fault. (more : List Heard) × (self.new.ear.heard ≡ self.old.ear.heard ++ more) × IsRefusalOfCommit self.new.seat.failed more fault) }
    {
        let reply = self.call(rt, alloc, shared, Call::Commit);
        self.awaited(rt, shared, reply)
    }

    // Waits until a commit is durable that was answered so.
    pub(crate) fn awaited<N: Numbers, R: Wait, T: Tail, L: Disk, V: Disk>(
        &mut self,
        rt: &R,
        shared: &Shared<N, B, T, L, V>,
        reply: Result<Answer, Fault>,
    ) -> Result<Ticket, Fault>
        ensures durable { IfOk result (λ ticket. ticket ≤ self.new.seat.seen) }
        ensures seat { HasLooked self.old.seat self.new.seat }
        ensures same { (self.new.number ≡ self.old.number) × (self.new.share ≡ self.old.share) × (self.new.ear ≡ self.old.ear) }
        ensures of { IsOfCommit self.new.seat.failed reply result }
    {
        let answer = reply?;
        let Some(ticket) = ticket_of(&answer) else {
            return Err(Fault::NotQuiet);
        };
        if self.wait_for(rt, shared, ticket.number()) {
            Ok(ticket)
        } else {
            Err(Fault::Device)
        }
    }
}
