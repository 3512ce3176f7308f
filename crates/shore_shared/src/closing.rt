//! The end of a manager for threads: its parts are a world again, or its devices are handed back.
ghost use Rattle.std.specs.Prelude.{◌≡◌, ◌≢◌, ◌⊎◌, ◌≤◌, ◌<◌, ◌+◌, ◌++◌, ◌∷◌, ℕ, [], All, List, IfErr, IfOk, IsTrue, OnOk, length, map, sum, true, vec_len};
ghost use Rattle.shore_check.specs.Stages.{bytes_to_log, records_to_log};
ghost use Rattle.shore_log.specs.Told.{aside_for};
ghost use Rattle.shore_core.specs.Cores.{durable_of, has_failed, last_of, waiting_of};
ghost use Rattle.shore_types.specs.declared.faults.Fault.TheVariants as Fault;
ghost use Rattle.shore_model.specs.declared.log_records.LogRecord.{LogRecord};
ghost use Rattle.shore_model.specs.declared.step.Step.{Step};
ghost use Rattle.shore_disk.specs.Device.{size};
ghost use Rattle.shore_fronts.specs.Volumes.{volume_bytes};
ghost use Rattle.shore_world.specs.Worlds.{durable_in, failed_in, geometry_in, history_in};
ghost use Rattle.shore_held.specs.Comings.{Beginning};
ghost use Rattle.shore_held.specs.Logs.{Follows, known_in};
ghost use Rattle.shore_held.specs.Trails.{calls_in, has_failure, noted_in};
ghost use Rattle.shore_held.specs.declared.asked.Asked.{Asked};
ghost use Rattle.shore_shared.specs.HandedBack.{AreHandedBack};
ghost use Rattle.shore_shared.specs.Lives.{HasEnded};
ghost use Rattle.shore_words.specs.Words.{AreBy, heard_of};

use crate::session::Session;
use crate::shared::Shared;
use crate::turns::take_all;
use shore_disk::Disk;
use shore_held::{CoreHeld, LogHeld, Named, keep_aside, meeting};
use shore_log::Tail;
use shore_queue::{Numbers, QueueTail};
use shore_types::{Fault, Lsn};
use shore_words::Words;
use shore_world::World;
use std::alloc::Global;
use std::sync::Wait;
use std::sync::ledger::Share;

impl<N: Numbers, B: Named, R: Wait + Copy, L: Disk, V: Disk> Shared<
    N,
    B,
    QueueTail<N, B, R>,
    L,
    V,
> {
    /// The world of both locks' values, with all its sessions back; records may wait for a force, as in any world. If a device has failed, so has the world. `NotQuiet` if a
    /// session is missing, and `Memory` if an allocation failed: then all comes back.
    pub fn into_world(
        self,
        rt: &R,
        sessions: Vec<Session<B>>,
    ) -> Result<World<L, V>, (Fault, Self, Vec<Session<B>>)>
        requires { B.all ≡ B.parts }
        // One trail has led here from wherever the core began, of as many calls as the sessions' shares say; each session has heard what the trail has of it, in its order; and it has nobody else. If a session
        // has found that a device has failed, the trail has that; then the world has failed.
        ensures ended { IfOk result (λ w. (asked : List (Asked × ℕ)) × (stepped : List (Step × ℕ)) × (length stepped ≡ length asked) × (calls_in asked ≡ sum (map (λ s. s.share.amount) sessions.items))
            × All (λ s. heard_of s.number (noted_in asked stepped) ≡ s.ear.heard) sessions.items × AreBy (vec_len sessions) (noted_in asked stepped)
            × (IsTrue (has_failure asked) → IsTrue (failed_in w)) × All (λ s. s.seat.failed ≡ true → IsTrue (has_failure asked)) sessions.items
            × ((start : Beginning) → B.honest start → ∥ HasEnded start B.cut B.before asked stepped w ∥₁)) }
        ensures layout { IfOk result (λ w. (geometry_in w ≡ B.geometry) × (size (history_in w) ≡ B.log_bytes)) }
        // What a session knew to be durable is: the commits that it was told of among it.
        ensures seen { IfOk result (λ w. All (λ s. s.seat.seen ≤ durable_in w) sessions.items) }
        ensures report { IfOk result (λ w. w.report ≡ self.report) }
        ensures refused { IfErr result (λ e. (e.0 ≡ Fault.NotQuiet) ⊎ (e.0 ≡ Fault.Memory)) }
        ensures back { IfErr result (λ e. (e.1.report ≡ self.report) × (e.2 ≡ sessions)) }
    {
        let (words, sleepers, report, mut core, mut held) = self.taken_apart();
        if let Err(fault) = end(rt, &words, &mut core, &mut held, sessions.len()) {
            let shared = Shared::of(words, sleepers, report, core, held);
            return Err((fault, shared, sessions));
        }
        let none = core.none();
        let calls = gathered(&words, &mut core, &mut held, none, sessions);
        let (core, stage) = core.into_core(calls);
        let (log, tail) = held.into_log();
        let (core, _) = core.with_tail(tail);
        Ok(World::from_parts(core, log, stage, report))
    }

    /// Both devices, as they are: what was changed in memory alone is forgotten. They may be opened again. Other sessions than these may be missing.
    pub fn into_devices(self, alloc: Global, sessions: Vec<Session<B>>) -> (L, V)
        // One trail has led here, which has a device's failure if a session has found one, and whatever pair of images a loss of power leaves now stands for a prefix of its log with all that was durable as it
        // began, and all that these sessions have seen to be durable. Each of them has heard what the trail has of it, in its order.
        ensures stand { (asked : List (Asked × ℕ)) × (stepped : List (Step × ℕ)) × (stable : ℕ) × All (λ s. s.seat.failed ≡ true → IsTrue (has_failure asked)) sessions.items × ((start : Beginning) → B.honest start →
            ∥ AreHandedBack start asked stepped B.geometry B.log_bytes stable (start.first.state.durable ∷ map (λ s. s.seat.seen) sessions.items) (L.Disk.history result.0) (V.Disk.history result.1) ∥₁)
            × All (λ s. heard_of s.number (noted_in asked stepped) ≡ s.ear.heard) sessions.items }
        ensures long { (size (L.Disk.history result.0) ≡ B.log_bytes) × (size (V.Disk.history result.1) ≡ volume_bytes B.geometry) }
    {
        let (words, _, _, mut core, mut held) = self.taken_apart();
        let forced = held.tell(&words);
        let mut reader = core.seat(&words);
        meeting(&words, &mut core, &mut held, &mut reader);
        core.learn(forced);
        let none = core.none();
        drop(gathered(&words, &mut core, &mut held, none, sessions));
        // Its contract says what a loss of power leaves of the log device, failed or not.
        held.has_failed();
        let (log, _) = held.into_log();
        let log = log.into_device();
        (log, core.into_volume(alloc))
    }
}

// The shares of the sessions, as one. What their seats have seen was told, and so was a failure that one of them has found; what each has heard is in the trail, which has nobody but the sessions made.
fn gathered<N: Numbers, B: Named, T: Tail, L: Disk, V: Disk>(
    words: &Words,
    core: &mut CoreHeld<B, T, V>,
    held: &mut LogHeld<N, B, L>,
    calls: Share<B>,
    sessions: Vec<Session<B>>,
) -> Share<B>
    requires words { (words.now.table.shared.table_id ≡ B.table) × (4 < B.table.words) }
    requires none { (calls.parts ≡ 0) × (calls.amount ≡ 0) }
    ensures parts { result.parts ≡ vec_len sessions }
    ensures amount { result.amount ≡ sum (map (λ s. s.share.amount) sessions.items) }
    ensures seen { All (λ s. s.seat.seen ≤ held.old.told) sessions.items }
    ensures heard { All (λ s. heard_of s.number (noted_in core.old.asked.items core.old.stepped.items) ≡ s.ear.heard) sessions.items }
    ensures by { AreBy core.old.made (noted_in core.old.asked.items core.old.stepped.items) }
    ensures failed { All (λ s. s.seat.failed ≡ true → IsTrue (has_failure core.old.asked.items)) sessions.items }
    ensures same { held.new ≡ held.old }
    ensures trail { (core.new.asked.items ≡ core.old.asked.items) × (core.new.stepped.items ≡ core.old.stepped.items) }
    ensures core { (core.new.core ≡ core.old.core) × (core.new.stage ≡ core.old.stage) × (core.new.made ≡ core.old.made) × (core.new.rest ≡ core.old.rest) × (core.new.seat ≡ core.old.seat) }
{
    let mut looker = core.seat(words);
    core.show(words, &mut looker);
    let mut calls = calls;
    for session in sessions {
        let Session {
            share,
            mut seat,
            mut ear,
            ..
        } = session;
        held.compare(words, &mut seat);
        core.show(words, &mut seat);
        core.show(words, &mut ear);
        calls.merge(share);
    }
    calls
}

// All that is queued is taken in: no push has less than one record, so it looks no more often than so many records were sent, and once more. The two have met, so the log device knows what was sent.
fn take_rest<N: Numbers, B: Named, R: Wait + Copy, L: Disk, V: Disk>(
    rt: &R,
    core: &CoreHeld<B, QueueTail<N, B, R>, V>,
    held: &mut LogHeld<N, B, L>,
) -> Result<(), Fault>
    requires follows { Follows B.cut B.before held.old.got held.old.cut held.old.list }
    requires met { held.old.met ≡ waiting_of core.now.core }
    requires last { last_of core.now.core ≡ B.cut + length B.before + length (waiting_of core.now.core) }
    ensures follows { OnOk result (Follows B.cut B.before held.new.got held.new.cut held.new.list) }
    ensures taken { OnOk result (held.new.waits ≡ []) }
    ensures texts { OnOk result (held.new.textless ≡ 0) }
    ensures all { OnOk result (length (waiting_of core.now.core) ≤ length held.new.got) }
    ensures refused { IfErr result (λ fault. fault ≡ Fault.Memory) }
{
    let sent = core.last().0.saturating_sub(held.last().0);
    take_all(rt, held, sent)?;
    // What it has taken in follows what was kept: its contract says so.
    held.has_failed();
    Ok(())
}

// The core learns of a failure of the log device.
fn note_failure<N: Numbers, B: Named, T: Tail, L: Disk, V: Disk>(
    words: &Words,
    core: &mut CoreHeld<B, T, V>,
    held: &LogHeld<N, B, L>,
)
    requires { (words.now.table.shared.table_id ≡ B.table) × (4 < B.table.words) }
    ensures failed { IsTrue held.now.failed → IsTrue (has_failed core.new.core) }
    ensures records { (waiting_of core.new.core ≡ waiting_of core.old.core) × (durable_of core.new.core ≡ durable_of core.old.core) }
    ensures same { (core.new.made ≡ core.old.made) × (core.new.seat ≡ core.old.seat) }
{
    if held.has_failed() {
        core.fail(words);
    }
}

// All that is queued is taken in, and the core learns what is durable, and of a failure of the log device; and room is kept aside for what a checkpoint under way has to log still. The locks are not needed: nobody shares the two any more.
fn end<N: Numbers, B: Named, R: Wait + Copy, L: Disk, V: Disk>(
    rt: &R,
    words: &Words,
    core: &mut CoreHeld<B, QueueTail<N, B, R>, V>,
    held: &mut LogHeld<N, B, L>,
    sessions: usize,
) -> Result<(), Fault>
    requires { (words.now.table.shared.table_id ≡ B.table) × (4 < B.table.words) }
    ensures whole { IfOk result (λ _. core.new.made ≡ sessions) }
    ensures records { IfOk result (λ _. (gone : List LogRecord) × (B.before ++ waiting_of core.new.core ≡ gone ++ held.new.list) × (held.new.cut ≡ B.cut + length gone)) }
    ensures taken { IfOk result (λ _. held.new.waits ≡ []) }
    ensures texts { IfOk result (λ _. held.new.textless ≡ 0) }
    ensures last { IfOk result (λ _. last_of core.new.core ≡ held.new.cut + length held.new.list) }
    ensures durable { IfOk result (λ _. (durable_of core.new.core ≡ held.new.cut + length held.new.stable) × (held.new.told ≡ durable_of core.new.core)) }
    ensures anchor { IfOk result (λ _. core.new.seat.kept ≡ known_in held.new) }
    ensures failed { IfOk result (λ _. IsTrue held.new.failed → IsTrue (has_failed core.new.core)) }
    ensures aside { IfOk result (λ _. held.new.aside ≡ aside_for (records_to_log core.new.stage) (bytes_to_log core.new.stage)) }
    ensures refused { IfErr result (λ fault. ((fault ≡ Fault.NotQuiet) × (core.old.made ≢ sessions)) ⊎ (fault ≡ Fault.Memory)) }
{
    if core.sessions() as usize != sessions {
        return Err(Fault::NotQuiet);
    }
    let mut first = core.seat(words);
    meeting(words, core, held, &mut first);
    held.has_failed();
    take_rest(rt, core, held)?;
    note_failure(words, core, held);
    let told = held.tell(words);
    let mut reader = core.seat(words);
    meeting(words, core, held, &mut reader);
    core.learn(told);
    keep_aside(core, held)?;
    Ok(())
}
