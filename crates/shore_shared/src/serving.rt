//! The life of a manager for threads, from a world to a world: its names are picked, its workers turn, and the jobs of its clients go on meanwhile.
ghost use Rattle.std.specs.Prelude.{◌≡◌, ◌⊎◌, ◌∷◌, ℕ, IfOk, IsTrue, List, [], false, length, map};
ghost use Rattle.std.specs.Arc.{arc_value};
ghost use Rattle.std.specs.Thread.{IsSend};
ghost use Rattle.shore_types.specs.declared.faults.Fault.{Fault};
ghost use Rattle.shore_core.specs.Cores.{first_of, geometry_of, volume_of};
ghost use Rattle.shore_disk.specs.Device.{size};
ghost use Rattle.shore_fronts.specs.Volumes.{volume_bytes};
ghost use Rattle.laws_images.specs.StandsBehind.{anchored_by};
ghost use Rattle.shore_log.specs.Settled.{anchor_of, cut_of_log, records_of_log};
ghost use Rattle.shore_model.specs.declared.histories.Entry.{Entry};
ghost use Rattle.shore_model.specs.declared.histories.Opening.{Opening};
ghost use Rattle.shore_model.specs.declared.log_records.LogRecord.{LogRecord};
ghost use Rattle.shore_model.specs.declared.step.Step.{Step};
ghost use Rattle.shore_held.specs.Comings.{Beginning, HasComeBy};
ghost use Rattle.shore_held.specs.Logs.{IsKept};
ghost use Rattle.shore_world.specs.Legs.{IsUpIn};
ghost use Rattle.shore_held.specs.Worlds.{begins_with};
ghost use Rattle.shore_held.specs.Trails.{has_failure, noted_in};
ghost use Rattle.shore_held.specs.declared.asked.Asked.{Asked};
ghost use Rattle.shore_shared.specs.HandedBack.{AreHandedBack};
ghost use Rattle.shore_shared.specs.Lives.{AreKept, HasEnded};
ghost use Rattle.shore_shared.specs.Remains.{IfDevices, IfWorld};
ghost use Rattle.shore_shared.specs.Told.{AllHold, AreAllClaimed, AreFresh, ClaimsHold, Shown, seen_in, shown_by};
ghost use Rattle.shore_shared.specs.declared.serving.Left.TheVariants as left;
ghost use Rattle.shore_world.specs.declared.world.World.{World};
ghost use Rattle.shore_world.specs.Worlds.{IsUnchanged, cut_in, durable_in, failed_in, geometry_in, history_in, list_in, volume_history_in};

use crate::clients::{Job, Serves, in_threads};
use crate::gate::Open;
use crate::opening::{Opened, Queued};
use crate::session::Session;
use crate::shared::Shared;
use shore_disk::Disk;
use shore_held::{Named, Seat};
use shore_queue::{Numbers, QueueTail};
use shore_types::Fault;
use shore_world::World;
use std::alloc::Global;
use std::marker::Brand;
use std::sync::Wait;
use std::thread;
use std::thread::Threads;
use std::time::Clock;

/// What is left of a world behind its threads.
#[derive(Drop)]
pub enum Left<L: Disk, V: Disk> {
    /// The world.
    World(World<L, V>),
    /// Its devices alone, log first, and what refused the world: `Memory`; or `NotQuiet`, if not all sessions came back.
    Devices(L, V, Fault),
}

impl<L: Disk, V: Disk> Left<L, V> {
    /// Both devices, log first: the manager ends here.
    pub fn into_devices(self) -> (L, V)
        ensures world { (w : World L V L.Disk V.Disk) → self ≡ left.World w → (result.0 ≡ w.log.device) × (result.1 ≡ volume_of w.core) }
        ensures devices { (log : L) (volume : V) (refusal : Fault) → self ≡ left.Devices log volume refusal → result ≡ (log, volume) }
    {
        match self {
            Left::World(world) => world.into_devices(),
            Left::Devices(log, volume, _) => (log, volume),
        }
    }
}

/// Serves so many sessions with a world, which comes back: one job after another, each by all sessions at the same time, and what they came to, in the order of the jobs and
/// of the sessions. `Failed` and `NotQuiet` as `Opened::of` has them; `NotQuiet` too if there are not so many sessions; and as `in_threads` refuses a job, behind which no
/// other is begun. What the jobs came to stands as well where the devices come back alone.
pub fn serve<
    J: Job + Sync,
    R: Threads + Wait + Clock + Sync + Send + Copy,
    L: Disk + Send,
    V: Disk + Send,
>(
    rt: R,
    alloc: Global,
    world: World<L, V>,
    sessions: u32,
    jobs: &[J],
) -> (Left<L, V>, Result<Vec<Vec<J::Done>>, Fault>)
    // A world comes back as it was, or by one trail its threads have led it on from whatever state and store of a manager it was at. Then each job was done by so many clients, and what its
    // author claims of each holds: of calls and answers of one session that the trail has in their order, and of what is so now: how far the log is durable, and whether the trail has a device's failure. If it has,
    // the world has failed.
    ensures world { IfWorld result.0 (λ w. (IsUnchanged world w × IfOk result.1 (λ all. ⊥)) ⊎ ((geometry_in w ≡ geometry_in world) × (size (history_in w) ≡ size (history_in world)) × (asked : List (Asked × ℕ)) × (stepped : List (Step × ℕ))
        × ((opening : Opening) (found : List LogRecord) (entries : List Entry) → (up : IsUpIn world opening found entries) → ∥ HasEnded (begins_with up) (cut_in world) (list_in world) asked stepped w ∥₁)
        × (IsTrue (has_failure asked) → IsTrue (failed_in w)) × IfOk result.1 (λ all. AllHold J.says (noted_in asked stepped) (seen_in (durable_in w) asked) sessions jobs.now (map (λ row. row.items) all.items)))) }
    // Devices that come back alone are as long as they were, and may be opened: what was durable before is in the log then, and what its clients knew to be durable meanwhile. What is claimed of the jobs
    // that were done holds of one trail that has led there, as of a world.
    ensures devices { IfDevices result.0 (λ log volume. (size (L.Disk.history log) ≡ size (history_in world)) × (size (V.Disk.history volume) ≡ size (volume_history_in world))
        × (asked : List (Asked × ℕ)) × (stepped : List (Step × ℕ)) × (stable : ℕ) × (durable : ℕ)
        × IfOk result.1 (λ all. ClaimsHold J.says (noted_in asked stepped) (seen_in durable asked) sessions jobs.now (map (λ row. row.items) all.items))
        × ((opening : Opening) (found : List LogRecord) (entries : List Entry) → (up : IsUpIn world opening found entries)
        → ∥ AreHandedBack (begins_with up) asked stepped (geometry_in world) (size (history_in world)) stable (durable_in world ∷ durable ∷ []) (L.Disk.history log) (V.Disk.history volume) ∥₁)) }
{
    match Opened::of(alloc, world) {
        Ok(opened) => with_numbers::<Brand, J, R, L, V>(rt, alloc, opened, sessions, jobs),
        Err((fault, world)) => (Left::World(world), Err(fault)),
    }
}

// The number of the first record that goes through the queue was picked.
fn with_numbers<
    N: Numbers + Send + Sync,
    J: Job + Sync,
    R: Threads + Wait + Clock + Sync + Send + Copy,
    L: Disk + Send,
    V: Disk + Send,
>(
    rt: R,
    alloc: Global,
    opened: Opened<L, V>,
    sessions: u32,
    jobs: &[J],
) -> (Left<L, V>, Result<Vec<Vec<J::Done>>, Fault>)
    requires { first_of opened.core ≡ N.first_number }
    ensures world { IfWorld result.0 (λ w. (geometry_in w ≡ geometry_of opened.core) × (size (history_in w) ≡ size (L.Disk.history opened.log.device)) × (asked : List (Asked × ℕ)) × (stepped : List (Step × ℕ))
        × ((start : Beginning) → AreKept start opened.core opened.log opened.stage → ∥ HasEnded start (cut_of_log opened.log) (records_of_log opened.log) asked stepped w ∥₁)
        × (IsTrue (has_failure asked) → IsTrue (failed_in w)) × IfOk result.1 (λ all. AllHold J.says (noted_in asked stepped) (seen_in (durable_in w) asked) sessions jobs.now (map (λ row. row.items) all.items))) }
    ensures devices { IfDevices result.0 (λ log volume. (size (L.Disk.history log) ≡ size (L.Disk.history opened.log.device)) × (size (V.Disk.history volume) ≡ volume_bytes (geometry_of opened.core))
        × (asked : List (Asked × ℕ)) × (stepped : List (Step × ℕ)) × (stable : ℕ) × (durable : ℕ)
        × IfOk result.1 (λ all. ClaimsHold J.says (noted_in asked stepped) (seen_in durable asked) sessions jobs.now (map (λ row. row.items) all.items))
        × ((start : Beginning) → AreKept start opened.core opened.log opened.stage
        → ∥ AreHandedBack start asked stepped (geometry_of opened.core) (size (L.Disk.history opened.log.device)) stable (start.first.state.durable ∷ durable ∷ []) (L.Disk.history log) (V.Disk.history volume) ∥₁)) }
{
    match Queued::<N, L, V>::of(alloc, opened) {
        Ok(queued) => with_names::<N, Brand, J, R, L, V>(rt, alloc, queued, sessions, jobs),
        Err((fault, opened)) => (Left::World(opened.into_world()), Err(fault)),
    }
}

// .. and all other names.
fn with_names<
    N: Numbers + Send + Sync,
    B: Named + Send + Sync,
    J: Job + Sync,
    R: Threads + Wait + Clock + Sync + Send + Copy,
    L: Disk + Send,
    V: Disk + Send,
>(
    rt: R,
    alloc: Global,
    queued: Queued<N, L, V>,
    count: u32,
    jobs: &[J],
) -> (Left<L, V>, Result<Vec<Vec<J::Done>>, Fault>)
    requires first { first_of queued.opened.core ≡ N.first_number }
    requires ledger { (queued.opened.blank.name ≡ B.name) × (queued.opened.blank.parts ≡ B.parts) × (B.all ≡ B.parts) }
    requires words { queued.opened.words.table.shared.table_id ≡ B.table }
    requires queue { (arc_value queued.channel).queue ≡ B.queue }
    requires before { (B.before ≡ records_of_log queued.opened.log) × (B.cut ≡ cut_of_log queued.opened.log) }
    requires layout { (geometry_of queued.opened.core ≡ B.geometry) × (size (L.Disk.history queued.opened.log.device) ≡ B.log_bytes) }
    requires core { (start : Beginning) → B.honest start → ∥ HasComeBy start B.cut B.before queued.opened.core queued.opened.stage (anchored_by (anchor_of queued.opened.log)) [] ∥₁ }
    requires log { (start : Beginning) → B.honest start → ∥ IsKept B.geometry B.log_bytes queued.opened.log false (0, 0) ∥₁ }
    ensures world { IfWorld result.0 (λ w. (geometry_in w ≡ B.geometry) × (size (history_in w) ≡ B.log_bytes) × (asked : List (Asked × ℕ)) × (stepped : List (Step × ℕ)) × ((start : Beginning) → B.honest start → ∥ HasEnded start B.cut B.before asked stepped w ∥₁)
        × (IsTrue (has_failure asked) → IsTrue (failed_in w)) × IfOk result.1 (λ all. AllHold J.says (noted_in asked stepped) (seen_in (durable_in w) asked) count jobs.now (map (λ row. row.items) all.items))) }
    ensures devices { IfDevices result.0 (λ log volume. (size (L.Disk.history log) ≡ B.log_bytes) × (size (V.Disk.history volume) ≡ volume_bytes B.geometry)
        × (asked : List (Asked × ℕ)) × (stepped : List (Step × ℕ)) × (stable : ℕ) × (durable : ℕ)
        × IfOk result.1 (λ all. ClaimsHold J.says (noted_in asked stepped) (seen_in durable asked) count jobs.now (map (λ row. row.items) all.items))
        × ((start : Beginning) → B.honest start → ∥ AreHandedBack start asked stepped B.geometry B.log_bytes stable (start.first.state.durable ∷ durable ∷ []) (L.Disk.history log) (V.Disk.history volume) ∥₁)) }
{
    let shared = queued.shared::<B, R>(rt, alloc);
    let (sessions, done) = with_sessions(rt, alloc, &shared, count, jobs);
    match shared.into_world(&rt, sessions) {
        Ok(world) => (Left::World(world), done),
        Err((fault, shared, sessions)) => {
            let (log, volume) = shared.into_devices(alloc, sessions);
            (Left::Devices(log, volume, fault), done)
        }
    }
}

// All sessions that there are, numbered from 1 on, do one job after another. They come back.
fn with_sessions<
    N: Numbers + Send + Sync,
    B: Named + Send + Sync,
    J: Job + Sync,
    R: Threads + Wait + Clock + Sync + Send + Copy,
    L: Disk + Send,
    V: Disk + Send,
>(
    rt: R,
    alloc: Global,
    shared: &Shared<N, B, QueueTail<N, B, R>, L, V>,
    count: u32,
    jobs: &[J],
) -> (Vec<Session<B>>, Result<Vec<Vec<J::Done>>, Fault>)
    ensures { IfOk result.1 (λ all. (first : List Shown) × (length first ≡ count) × AreFresh 1 first
        × AreAllClaimed J.says first jobs.now (map (λ row. row.items) all.items) (map (λ s. shown_by s.ear s.seat) result.0.items)) }
{
    // A session that is made has its place: without all of them there is no world after the threads.
    let Ok(mut sessions) = Vec::with_capacity(alloc, count as usize) else {
        return (Vec::new(alloc), Err(Fault::Memory));
    };
    for number in 0..count {
        let Some(session) = shared.session(&rt) else {
            return (sessions, Err(Fault::NotQuiet));
        };
        let is_next = session.is_next_of(number);
        let Ok(()) = sessions.push(session) else {
            unreachable!()
        };
        if !is_next {
            return (sessions, Err(Fault::NotQuiet));
        }
    }
    with_workers(rt, alloc, shared, sessions, jobs)
}

// A manager as what starts its workers sees it: nobody has to look into it to send it to threads.
trait Works<B: Named, R> {
    fn seat_of(&self, rt: &R) -> Seat<B>;

    fn write_log(&self, rt: &R, alloc: Global, seat: &mut Seat<B>);

    fn write_back(&self, rt: &R, seat: &mut Seat<B>);

    fn make_checkpoints(&self, rt: &R, alloc: Global, seat: &mut Seat<B>);

    fn stop(&self, seat: &mut Seat<B>);
}

impl<N: Numbers, B: Named, R: Wait + Clock + Copy, L: Disk, V: Disk> Works<B, R>
    for Shared<N, B, QueueTail<N, B, R>, L, V> {
    fn seat_of(&self, rt: &R) -> Seat<B> {
        self.seat(rt)
    }

    fn write_log(&self, rt: &R, alloc: Global, seat: &mut Seat<B>) {
        self.log_writer(rt, alloc, seat, &Open);
    }

    fn write_back(&self, rt: &R, seat: &mut Seat<B>) {
        self.flusher(rt, seat, &Open);
    }

    fn make_checkpoints(&self, rt: &R, alloc: Global, seat: &mut Seat<B>) {
        self.checkpointer(rt, alloc, seat, &Open);
    }

    fn stop(&self, seat: &mut Seat<B>) {
        self.ask_stop(seat);
    }
}

// The workers turn as long as the jobs go on. Without all three no job is begun.
fn with_workers<
    'a,
    B: Named + Send + Sync,
    J: Job + Sync,
    R: Threads + Wait + Clock + Sync + Send + Copy,
    S: Works<B, R> + Serves<B, R> + Sync,
>(
    rt: R,
    alloc: Global,
    manager: &'a S,
    sessions: Vec<Session<B>>,
    jobs: &[J],
) -> (Vec<Session<B>>, Result<Vec<Vec<J::Done>>, Fault>)
    ensures { IfOk result.1 (λ all. AreAllClaimed J.says (map (λ s. shown_by s.ear s.seat) sessions.items) jobs.now (map (λ row. row.items) all.items) (map (λ s. shown_by s.ear s.seat) result.0.items)) }
{
    let mut last = manager.seat_of(&rt);
    thread::scope(
        thread::scope_env(),
        &rt,
        move |scope| -> (Vec<Session<B>>, Result<Vec<Vec<J::Done>>, Fault>)
            requires { IsSend B.row × IsSend J.Done.row }
            ensures { IfOk result.1 (λ all. AreAllClaimed J.says (map (λ s. shown_by s.ear s.seat) sessions.items) jobs.entry.now (map (λ row. row.items) all.items) (map (λ s. shown_by s.ear s.seat) result.0.items)) }
        {
            let (mut one, mut two, mut three) = (
                manager.seat_of(&rt),
                manager.seat_of(&rt),
                manager.seat_of(&rt),
            );
            let writer = scope.spawn(move || manager.write_log(&rt, alloc, &mut one));
            let flusher = scope.spawn(move || manager.write_back(&rt, &mut two));
            let checkpointer = scope.spawn(move || manager.make_checkpoints(
                &rt, alloc, &mut three,
            ));
            let done = if writer.is_ok() && flusher.is_ok() && checkpointer.is_ok() {
                in_turn(rt, alloc, manager, sessions, jobs)
            } else {
                (sessions, Err(Fault::Memory))
            };
            manager.stop(&mut last);
            done
        },
    )
}

// One job after another, each by all sessions.
fn in_turn<
    B: Named + Send + Sync,
    J: Job + Sync,
    R: Threads + Wait + Clock + Sync + Send + Copy,
    S: Serves<B, R> + Sync,
>(
    rt: R,
    alloc: Global,
    manager: &S,
    sessions: Vec<Session<B>>,
    jobs: &[J],
) -> (Vec<Session<B>>, Result<Vec<Vec<J::Done>>, Fault>)
    ensures { IfOk result.1 (λ all. AreAllClaimed J.says (map (λ s. shown_by s.ear s.seat) sessions.items) jobs.now (map (λ row. row.items) all.items) (map (λ s. shown_by s.ear s.seat) result.0.items)) }
{
    let (mut sessions, mut all) = (sessions, Vec::new(alloc));
    for job in jobs {
        let (back, done) = in_threads(rt, alloc, manager, sessions, job);
        sessions = back;
        match done {
            Ok(done) => {
                if all.push(done).is_err() {
                    return (sessions, Err(Fault::Memory));
                }
            }
            Err(fault) => return (sessions, Err(fault)),
        }
    }
    (sessions, Ok(all))
}
