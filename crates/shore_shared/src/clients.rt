//! Clients of a manager for threads: a session with what it talks to, and a thread for each.
ghost use Rattle.std.specs.Prelude.{◌≡◌, ◌≤◌, ◌<◌, ◌+◌, ◌++◌, ◌∷◌, [], All, IfErr, IfOk, IsSome, List, None, Result, Some, map, vec_capacity, vec_len};
ghost use Rattle.shore_types.specs.declared.faults.Fault.{Fault};
ghost use Rattle.shore_model.specs.Calls.{IsServed};
ghost use Rattle.shore_model.specs.declared.calls.Answer.{Answer};
ghost use Rattle.shore_model.specs.declared.calls.Call.TheVariants as Call;
ghost use Rattle.shore_words.specs.declared.rule.Heard.{Heard};
ghost use Rattle.shore_shared.specs.Heard.{Hears, IsOfCommit};
ghost use Rattle.shore_shared.specs.Told.{AreClaimed, HasHeardSince, IsClaimed, IsWithin, Shown, exchanges_in, numbered, seen_by, shown_by};

use crate::session::Session;
use crate::shared::Shared;
use http_server::Log as GhostLog;
use shore_core::TailHolder;
use shore_disk::Disk;
use shore_held::Named;
use shore_model::{Answer, Call};
use shore_queue::{Numbers, QueueTail};
use shore_types::{Fault, SessionId, Ticket};
use std::alloc::Global;
use std::marker::{Brand, PhantomData};
use std::snapshot::Snapshot;
use std::sync::Wait;
use std::sync::atomic::{AtomicBool, Ordering};
use std::thread;
use std::thread::{Promise, PromisedHandle, SpawnError, Threads};
use std::time::Duration;

/// A session with what it talks to.
pub trait Client {
    ghost use Rattle.std.specs.Prelude.{◌≡◌, ◌≤◌, ◌++◌, ◌∷◌, [], IfOk, List, Result};
    ghost use Rattle.shore_types.specs.declared.faults.Fault.{Fault};
    ghost use Rattle.shore_model.specs.declared.calls.Answer.{Answer};
    ghost use Rattle.shore_model.specs.declared.calls.Call.TheVariants as Call;
    ghost use Rattle.shore_model.specs.declared.calls.Exchange.{Exchange};
    ghost use Rattle.shore_shared.specs.Heard.{IsOfCommit};
    ghost use Rattle.shore_shared.specs.Told.{IsWithin, Seen};

    /// What it was told since its job began: its calls, with their answers.
    ghost told: { Self → List Exchange };

    /// What it knows of its manager: the greatest number that is durable, and whether a device has failed.
    ghost known: { Self → Seen };

    /// As `Session::call`.
    fn call(&mut self, call: Call) -> Result<Answer, Fault>
        requires { IsServed call }
        ensures told { told self.new ≡ told self.old ++ record { call = call; reply = result } ∷ [] }
        ensures known { IsWithin (known self.old) (known self.new) };

    /// As `Session::call_within`: no single wait for a lock is longer than this.
    fn call_within(&mut self, call: Call, most: Duration) -> Result<Answer, Fault>
        requires { IsServed call }
        ensures told { told self.new ≡ told self.old ++ record { call = call; reply = result } ∷ [] }
        ensures known { IsWithin (known self.old) (known self.new) };

    /// As `Shared::give_up`; that stays so, in the jobs to come too, until it is welcome again. The session of the client of number n is that of number n + 1.
    fn give_up(&self, session: SessionId);

    /// As `Shared::welcome`.
    fn welcome(&self, session: SessionId);

    /// As `Shared::tail_holder`.
    fn tail_holder(&self) -> TailHolder;

    /// As `Session::commit_durable`.
    fn commit_durable(&mut self) -> Result<Ticket, Fault>
        ensures told { (reply : Result Answer Fault) × (told self.new ≡ told self.old ++ record { call = Call.Commit; reply = reply } ∷ []) × IsOfCommit (known self.new).failed reply result }
        ensures durable { IfOk result (λ ticket. ticket ≤ (known self.new).durable) }
        ensures known { IsWithin (known self.old) (known self.new) };
}

/// A manager as a client sees it in its thread: nobody has to look into it to send it there.
pub trait Serves<B: Named, R> {
    /// As `Session::call_within`, or `Session::call` if there is no time.
    fn call_of(
        &self,
        rt: &R,
        alloc: Global,
        session: &mut Session<B>,
        call: Call,
        most: Option<Duration>,
    ) -> Result<Answer, Fault>
        requires { IsServed call }
        ensures seen { IsWithin (seen_by session.old.seat) (seen_by session.new.seat) }
        ensures heard { (more : List Heard) × (session.new.ear ≡ record session.old.ear { heard = session.old.ear.heard ++ more }) × Hears session.new.seat.failed call (Some call) more result };

    /// As `Shared::give_up`.
    fn give_up_of(&self, session: SessionId);

    /// As `Shared::welcome`.
    fn welcome_of(&self, session: SessionId);

    /// As `Shared::tail_holder`.
    fn tail_holder_of(&self, rt: &R) -> TailHolder;

    /// As `Session::awaited`: what a commit that was answered so comes to, once its number is durable.
    fn await_of(
        &self,
        rt: &R,
        session: &mut Session<B>,
        reply: Result<Answer, Fault>,
    ) -> Result<Ticket, Fault>
        ensures seen { IsWithin (seen_by session.old.seat) (seen_by session.new.seat) }
        ensures durable { IfOk result (λ ticket. ticket ≤ session.new.seat.seen) }
        ensures heard { session.new.ear ≡ session.old.ear }
        ensures of { IsOfCommit session.new.seat.failed reply result };
}

impl<N: Numbers, B: Named, R: Wait + Copy, L: Disk, V: Disk> Serves<B, R>
    for Shared<N, B, QueueTail<N, B, R>, L, V> {
    fn call_of(
        &self,
        rt: &R,
        alloc: Global,
        session: &mut Session<B>,
        call: Call,
        most: Option<Duration>,
    ) -> Result<Answer, Fault> {
        session.call_within(rt, alloc, self, call, most)
    }

    fn give_up_of(&self, session: SessionId) {
        self.give_up(session);
    }

    fn welcome_of(&self, session: SessionId) {
        self.welcome(session);
    }

    fn tail_holder_of(&self, rt: &R) -> TailHolder {
        self.tail_holder(rt)
    }

    fn await_of(
        &self,
        rt: &R,
        session: &mut Session<B>,
        reply: Result<Answer, Fault>,
    ) -> Result<Ticket, Fault> {
        session.awaited(rt, self, reply)
    }
}

// How a session was as its client began. It is picked where it is.
trait Begins {
    ghost use Rattle.shore_shared.specs.Told.{Shown};

    ghost first: { Shown };
}

impl Begins for Brand {
    ghost use Rattle.std.specs.Prelude.{[], false};

    ghost first = { record { session = 0; heard = []; seen = record { durable = 0; failed = false } } };
}

// The handles of a client, and what it was told since its job began. Contracts alone see the latter.
#[derive(Drop)]
struct Talk<'m, E: Begins, B: Named, R: Copy, S: Serves<B, R>> {
    rt: R,
    alloc: Global,
    manager: &'m S,
    session: Session<B>,
    told: GhostLog<Snapshot<Call>, Result<Answer, Fault>>,
    of: PhantomData<E>,
    ghost same: { (session.ear.session ≡ E.first.session) × IsWithin E.first.seen (seen_by session.seat) },
    ghost heard: { ∥ HasHeardSince session.seat.failed E.first.heard session.ear.heard (exchanges_in told.items) ∥₁ },
}

impl<'m, E: Begins, B: Named, R: Copy, S: Serves<B, R>> Client for Talk<'m, E, B, R, S> {
    ghost use Rattle.shore_shared.specs.Told.{exchanges_in, seen_by};

    ghost told = { λ t. exchanges_in t.told.items };

    ghost known = { λ t. seen_by t.session.seat };

    fn call(&mut self, call: Call) -> Result<Answer, Fault> {
        let asked = Snapshot::of(&call);
        let reply = self
            .manager
            .call_of(&self.rt, self.alloc, &mut self.session, call, None);
        self.told = self.told.and(&asked, &reply);
        reply
    }

    fn call_within(&mut self, call: Call, most: Duration) -> Result<Answer, Fault> {
        let asked = Snapshot::of(&call);
        let reply = self
            .manager
            .call_of(&self.rt, self.alloc, &mut self.session, call, Some(most));
        self.told = self.told.and(&asked, &reply);
        reply
    }

    fn give_up(&self, session: SessionId) {
        self.manager.give_up_of(session);
    }

    fn welcome(&self, session: SessionId) {
        self.manager.welcome_of(session);
    }

    fn tail_holder(&self) -> TailHolder {
        self.manager.tail_holder_of(&self.rt)
    }

    fn commit_durable(&mut self) -> Result<Ticket, Fault> {
        let asked = Snapshot::of(&Call::Commit);
        let reply = self.manager.call_of(
            &self.rt,
            self.alloc,
            &mut self.session,
            Call::Commit,
            None,
        );
        self.told = self.told.and(&asked, &reply);
        self.manager.await_of(&self.rt, &mut self.session, reply)
    }
}

/// What the clients do.
pub trait Job {
    ghost use Rattle.std.specs.Prelude.{◌≡◌, [], ℕ, IfOk, List};
    ghost use Rattle.shore_model.specs.declared.calls.Exchange.{Exchange};
    ghost use Rattle.shore_shared.specs.Told.{Seen};

    /// What it comes to.
    type Done: Drop + Send;

    /// What its author claims: of the job, the number of the client, what it came to, the calls and answers of that client meanwhile, and what is so of the manager.
    ghost says: { Self → ℕ → Self.Done → List Exchange → Seen → Type 0 };

    /// What the client of this number does, from 0 on.
    fn work<C: Client>(
        &self,
        alloc: Global,
        number: usize,
        client: &mut C,
    ) -> Result<Self::Done, Fault>
        requires { C.told client.old ≡ [] }
        ensures { IfOk result (λ done. says self.now number done (C.told client.new) (C.known client.new)) };
}

// What is kept of a job in another thread: its claim holds of what the session heard and saw there. It was so as its client began.
#[derive(Drop)]
struct Said<J, B: Named> {
    job: Snapshot<J>,
    number: usize,
    began: Snapshot<Session<B>>,
}

impl<J: Job, B: Named> Promise<(Session<B>, Result<J::Done, Fault>)> for Said<J, B> {
    ghost use Rattle.std.specs.Prelude.{IfOk};
    ghost use Rattle.shore_shared.specs.Told.{IsClaimed, shown_by};

    ghost kept_by = { λ p r. IfOk r.1 (λ done. IsClaimed (J.says p.job.value p.number done) (shown_by p.began.value.ear p.began.value.seat) (shown_by r.0.ear r.0.seat)) };
}

// A client's thread: its session comes back, with what its job came to.
type Working<J, B> = PromisedHandle<(Session<B>, Result<<J as Job>::Done, Fault>), Said<J, B>>;

// The job of one client, unless it was called off before. Its session comes back.
fn done_by<B: Named, R: Copy, S: Serves<B, R>, J: Job>(
    rt: R,
    alloc: Global,
    number: usize,
    manager: &S,
    session: Session<B>,
    job: &J,
    called_off: &AtomicBool,
) -> (Session<B>, Result<J::Done, Fault>)
    ensures { IfOk result.1 (λ done. IsClaimed (J.says job.now number done) (shown_by session.ear session.seat) (shown_by result.0.ear result.0.seat)) }
{
    if called_off.load(Ordering::Acquire) {
        return (session, Err(Fault::Memory));
    }
    done_from::<Brand, B, R, S, J>(rt, alloc, number, manager, session, job)
}

// .. where it was picked how its session was.
fn done_from<E: Begins, B: Named, R: Copy, S: Serves<B, R>, J: Job>(
    rt: R,
    alloc: Global,
    number: usize,
    manager: &S,
    session: Session<B>,
    job: &J,
) -> (Session<B>, Result<J::Done, Fault>)
    requires { shown_by session.ear session.seat ≡ E.first }
    ensures { IfOk result.1 (λ done. IsClaimed (J.says job.now number done) E.first (shown_by result.0.ear result.0.seat)) }
{
    let mut talk: Talk<'_, E, B, R, S> = Talk {
        rt,
        alloc,
        manager,
        session,
        told: GhostLog::new(),
        of: PhantomData,
    };
    let done = job.work(alloc, number, &mut talk);
    (talk.session, done)
}

/// A job by all sessions, each in a thread of its own. The sessions come back, and what the job came to, in their order. Refused by the fault of the first of these clients that was
/// refused, by `Memory` if an allocation failed or a thread could not be started; then too each that was started has ended, and all sessions are back.
pub fn in_threads<
    'a,
    B: Named + Send + Sync,
    R: Threads + Wait + Sync + Send + Copy,
    S: Serves<B, R> + Sync,
    J: Job + Sync,
>(
    rt: R,
    alloc: Global,
    manager: &'a S,
    sessions: Vec<Session<B>>,
    job: &'a J,
) -> (Vec<Session<B>>, Result<Vec<J::Done>, Fault>)
    ensures back { vec_len result.0 ≡ vec_len sessions }
    // The claim of each holds of what its session has heard meanwhile.
    ensures claimed { IfOk result.1 (λ done. AreClaimed (J.says job.now) 0 (map (λ s. shown_by s.ear s.seat) sessions.items) done.items (map (λ s. shown_by s.ear s.seat) result.0.items)) }
{
    let called_off = AtomicBool::new(false);
    let off = &called_off;
    thread::scope(
        thread::scope_env(),
        &rt,
        move |scope| -> (Vec<Session<B>>, Result<Vec<J::Done>, Fault>)
            ensures back { vec_len result.0 ≡ vec_len sessions }
            ensures claimed { IfOk result.1 (λ all. AreClaimed (J.says job.entry.now) 0 (map (λ s. shown_by s.ear s.seat) sessions.items) all.items (map (λ s. shown_by s.ear s.seat) result.0.items)) }
        {
            let (count, all) = (sessions.len(), Snapshot::of(&sessions));
            // There is room for all that comes back before the first thread begins, so no session is lost.
            let Ok(mut threads) = Vec::<Working<J, B>>::with_capacity(alloc, count) else {
                return (sessions, Err(Fault::Memory));
            };
            let Ok(mut back) = Vec::with_capacity(alloc, count) else {
                return (sessions, Err(Fault::Memory));
            };
            let Ok(done) = Vec::with_capacity(alloc, count) else {
                return (sessions, Err(Fault::Memory));
            };
            for session in sessions {
                let number = threads.len();
                let said = Said {
                    job: Snapshot::of(job),
                    number,
                    began: Snapshot::of(&session),
                };
                let answer = scope.spawn_with(
                    said,
                    move || -> (Session<B>, Result<J::Done, Fault>)
                        ensures { IfOk result.1 (λ done. IsClaimed (J.says job.entry.now number done) (shown_by session.ear session.seat) (shown_by result.0.ear result.0.seat)) }
                    { done_by(rt, alloc, number, manager, session, job, off) },
                );
                if let Some((session, _)) = started(answer, off, &mut threads) {
                    put(&mut back, session);
                }
            }
            let is_off = !back.is_empty();
            let (back, done) = joined(&rt, job, threads, back, done);
            if is_off {
                return (back, Err(Fault::Memory));
            }
            (back, done)
        },
    )
}

// A thread was started; or all jobs that were not begun are called off, and what this one comes to is here at once.
fn started<T: Drop, P: Promise<T>, F: FnOnce() -> T>(
    answer: Result<PromisedHandle<T, P>, SpawnError<F>>,
    off: &AtomicBool,
    threads: &mut Vec<PromisedHandle<T, P>>,
) -> Option<T>
    requires runs { IfErr answer (λ e. F.pre e.value) }
    requires room { vec_len threads.old < vec_capacity threads.old }
    ensures ok { IfOk answer (λ thread. ((threads.new.items ≡ threads.old.items ++ thread ∷ []) × (vec_len threads.new ≡ vec_len threads.old + 1)) × (result ≡ None)) }
    ensures err { IfErr answer (λ _. (threads.new.items ≡ threads.old.items) × IsSome result) }
    ensures room { vec_capacity threads.old ≤ vec_capacity threads.new }
{
    match answer {
        Ok(thread) => {
            put(threads, thread);
            None
        }
        Err(refused) => {
            off.store(true, Ordering::Release);
            Some((refused.value)())
        }
    }
}

// There is room for it.
fn put<T: Drop>(list: &mut Vec<T>, it: T)
    requires { vec_len list.old < vec_capacity list.old }
    ensures items { list.new.items ≡ list.old.items ++ it ∷ [] }
    ensures len { vec_len list.new ≡ vec_len list.old + 1 }
    ensures room { vec_capacity list.old ≤ vec_capacity list.new }
{
    let Ok(()) = list.push(it) else {
        unreachable!()
    };
}

// All that clients come to, with their sessions behind those that are back.
fn joined<B: Named, R: Threads, J: Job>(
    rt: &R,
    job: &J,
    threads: Vec<Working<J, B>>,
    back: Vec<Session<B>>,
    done: Vec<J::Done>,
) -> (Vec<Session<B>>, Result<Vec<J::Done>, Fault>)
    requires back { vec_len back + vec_len threads ≤ vec_capacity back }
    requires done { (vec_len done ≡ 0) × (vec_len threads ≤ vec_capacity done) }
    ensures back { vec_len result.0 ≡ vec_len back + vec_len threads }
    ensures claimed { (first : List Shown) → vec_len back ≡ 0 → map (λ h. (h.promise.number, shown_by h.promise.began.value.ear h.promise.began.value.seat)) threads.items ≡ numbered 0 first
        → All (λ h. h.promise.job.value ≡ job.now) threads.items → IfOk result.1 (λ all. AreClaimed (J.says job.now) 0 first all.items (map (λ s. shown_by s.ear s.seat) result.0.items)) }
{
    let (mut back, mut done, mut refused) = (back, done, None);
    for thread in threads {
        let (session, came_to) = thread.join(rt);
        put(&mut back, session);
        match came_to {
            Ok(it) => put(&mut done, it),
            Err(fault) => refused = refused.or(Some(fault)),
        }
    }
    match refused {
        None => (back, Ok(done)),
        Some(fault) => (back, Err(fault)),
    }
}
