//! A manager for threads is made of a world in two steps, each of which picks names: first the number of the first record that goes through the queue, and then all others.
ghost use Rattle.std.specs.Prelude.{◌≡◌, ◌⊎◌, ◌<◌, ◌+◌, List, [], IfOk, IfErr, IsSome, IsTrue, None, false, length, true};
ghost use Rattle.std.specs.Arc.{arc_value};
ghost use Rattle.crossbeam_queue.specs.SegTies.{IsSegPassOf};
ghost use Rattle.shore_check.specs.declared.stage.Stage.{Stage};
ghost use Rattle.shore_core.specs.Checkpointing.{KeepsFor};
ghost use Rattle.shore_core.specs.Cores.{durable_of, first_of, geometry_of, has_failed, told_of, txns_of, waiting_of};
ghost use Rattle.shore_disk.specs.Device.{size};
ghost use Rattle.shore_txn.specs.Transactions.{room_in};
ghost use Rattle.shore_types.specs.declared.faults.Fault.TheVariants as Fault;
ghost use Rattle.shore_types.specs.declared.layout.TheConstants.{LOG_FRONT_BYTES};
ghost use Rattle.laws_images.specs.StandsBehind.{anchored_by};
ghost use Rattle.shore_log.specs.Settled.{IsSpelled, KnowsRoom, anchor_of, cut_of_log, records_of_log, stable};
ghost use Rattle.shore_queue.specs.Queues.{ends};
ghost use Rattle.shore_model.specs.declared.histories.Entry.{Entry};
ghost use Rattle.shore_model.specs.declared.histories.Opening.{Opening};
ghost use Rattle.shore_model.specs.declared.log_records.LogRecord.{LogRecord};
ghost use Rattle.shore_held.specs.Comings.{Beginning, HasComeBy};
ghost use Rattle.shore_held.specs.Logs.{IsKept};
ghost use Rattle.shore_world.specs.Legs.{IsUpIn};
ghost use Rattle.shore_held.specs.Worlds.{begins_with};
ghost use Rattle.shore_held.specs.declared.core_held.TheConstants.{ALL_PARTS};
ghost use Rattle.shore_shared.specs.Lives.{AreKept, anchored_in};
ghost use Rattle.shore_words.specs.Words as known;

use crate::shared::{SLEEPERS, Shared};
use shore_core::{Core, Stage};
use shore_disk::Disk;
use shore_held::{ALL_PARTS, CoreHeld, LogHeld, Named, Seat};
use shore_log::{LogDev, PlainTail};
use shore_queue::{Channel, Numbers, QueuePass, QueueTail, made};
use shore_types::{Fault, Lsn};
use shore_words::{WakeWords, WordSeat, Words};
use shore_world::{Report, World};
use std::alloc::{AllocError, Global};
use std::sync::ledger::Blank;
use std::sync::{Arc, Wait};

/// What a world becomes before its parts have names: they and the words, of which one seat knows all.
#[derive(Drop)]
pub struct Opened<L: Disk, V: Disk> {
    pub(crate) core: Core<PlainTail, V>,
    pub(crate) log: LogDev<L>,
    pub(crate) stage: Stage,
    pub(crate) report: Report,
    pub(crate) words: Words,
    pub(crate) sleepers: WakeWords,
    pub(crate) teller: WordSeat,
    pub(crate) blank: Blank,
    ghost numbers: { first_of core ≡ cut_of_log log + 1 + length (records_of_log log) },
    ghost durable: { durable_of core ≡ cut_of_log log + length (stable log) },
    ghost emptied: { waiting_of core ≡ [] },
    ghost running: { has_failed core ≡ false },
    ghost still: { log.staged ≡ None },
    ghost ring: { (room_in (txns_of core)).stream_bytes + LOG_FRONT_BYTES ≡ size (L.Disk.history log.device) },
    ghost knows: { KnowsRoom log (told_of core) },
    ghost spelled: { IsSpelled log },
    ghost aside: { KeepsFor stage (told_of core) },
    ghost told: { teller.me ≡ (known.teller (cut_of_log log + length (stable log)) (anchored_in log), []) },
    ghost whose: { (teller.table_id ≡ words.table.shared.table_id) × (4 < words.table.shared.table_id.words) },
    ghost parts: { blank.parts ≡ ALL_PARTS },
}

impl<L: Disk, V: Disk> Opened<L, V> {
    ghost use Rattle.shore_world.specs.Worlds.{IsUnchanged, cut_in, failed_in, geometry_in, history_in, list_in};

    /// The parts of a world. `Failed` after a failure of a device or a damaged page, `NotQuiet` while a frame is under way, `Memory` if an allocation failed: the world comes
    /// back, and nothing else has changed but that records may have been handed over to its log device.
    pub fn of(alloc: Global, mut world: World<L, V>) -> Result<Opened<L, V>, (Fault, World<L, V>)>
        ensures parts { IfOk result (λ o. (cut_of_log o.log ≡ cut_in world) × (records_of_log o.log ≡ list_in world) × (o.stage ≡ world.stage) × (o.report ≡ world.report)) }
        ensures running { IfOk result (λ o. (failed_in world ≡ false) × (world.log.staged ≡ None)) }
        ensures layout { IfOk result (λ o. (geometry_of o.core ≡ geometry_in world) × (size (L.Disk.history o.log.device) ≡ size (history_in world))) }
        // A world at the state and the store of a manager has what is kept under both locks.
        ensures kept { IfOk result (λ o. (opening : Opening) (found : List LogRecord) (entries : List Entry) → (up : IsUpIn world opening found entries) → AreKept (begins_with up) o.core o.log o.stage) }
        ensures refused { IfErr result (λ e. (IsTrue (failed_in world) × (e.0 ≡ Fault.Failed)) ⊎ ((failed_in world ≡ false) × IsSome world.log.staged × (e.0 ≡ Fault.NotQuiet))
            ⊎ ((failed_in world ≡ false) × (world.log.staged ≡ None) × (e.0 ≡ Fault.Memory))) }
        ensures unchanged { IfErr result (λ e. IsUnchanged world e.1) }
    {
        if let Err(fault) = world.hand_over() {
            return Err((fault, world));
        }
        let (words, sleepers, teller) = match words_of(alloc, &world) {
            Ok(made) => made,
            Err(_) => return Err((Fault::Memory, world)),
        };
        let (core, log, stage, report) = world.into_parts();
        Ok(Opened {
            core,
            log,
            stage,
            report,
            words,
            sleepers,
            teller,
            blank: Blank::new(ALL_PARTS as u64),
        })
    }

    /// The world that it was made of: no names were picked.
    pub fn into_world(self) -> World<L, V>
        ensures { (result.core ≡ self.core) × (result.log ≡ self.log) × (result.stage ≡ self.stage) × (result.report ≡ self.report) }
    {
        let Opened {
            core,
            log,
            stage,
            report,
            ..
        } = self;
        World::from_parts(core, log, stage, report)
    }

    /// The number of the first record that will go through the queue.
    pub fn next(&self) -> Lsn
        ensures { result ≡ first_of self.now.core }
    {
        self.core.next()
    }
}

fn words_of<L: Disk, V: Disk>(
    alloc: Global,
    world: &World<L, V>,
) -> Result<(Words, WakeWords, WordSeat), AllocError>
    ensures { IfOk result (λ made. (made.2.table_id ≡ made.0.table.shared.table_id) × (4 < made.0.table.shared.table_id.words)
        × (made.2.me ≡ (known.teller (cut_of_log world.now.log + length (stable world.now.log)) (anchored_in world.now.log), []))) }
{
    let (words, teller) = Words::new(
        alloc,
        world.durable().0,
        world.checkpoint().0,
        world.tail().0,
    )?;
    Ok((words, WakeWords::new(alloc, SLEEPERS)?, teller))
}

/// .. with the queue, and the passes of both ends.
#[derive(Drop)]
pub struct Queued<N: Numbers, L: Disk, V: Disk> {
    pub(crate) opened: Opened<L, V>,
    pub(crate) channel: Arc<Channel<N>, Global>,
    pub(crate) ours: Arc<Channel<N>, Global>,
    pub(crate) sender: QueuePass,
    pub(crate) receiver: QueuePass,
    ghost sends: { IsSegPassOf (arc_value channel).queue sender × (sender.me.view.client ≡ ends true false [] []) },
    ghost receives: { IsSegPassOf (arc_value channel).queue receiver × (receiver.me.view.client ≡ ends false true [] []) },
    ghost same: { (arc_value ours).queue ≡ (arc_value channel).queue },
}

impl<N: Numbers, L: Disk, V: Disk> Queued<N, L, V> {
    /// .. of which the first number was picked.
    pub fn of(alloc: Global, opened: Opened<L, V>) -> Result<Queued<N, L, V>, (Fault, Opened<L, V>)>
        requires { first_of opened.core ≡ N.first_number }
        ensures ok { IfOk result (λ q. q.opened ≡ opened) }
        ensures err { IfErr result (λ e. (e.0 ≡ Fault.Memory) × (e.1 ≡ opened)) }
    {
        match channel_of(alloc) {
            Ok((channel, ours, sender, receiver)) => Ok(Queued {
                opened,
                channel,
                ours,
                sender,
                receiver,
            }),
            Err(_) => Err((Fault::Memory, opened)),
        }
    }

    /// The manager for threads, once all names were picked.
    pub fn shared<B: Named, R: Wait + Copy>(
        self,
        rt: R,
        alloc: Global,
    ) -> Shared<N, B, QueueTail<N, B, R>, L, V>
        requires first { first_of self.opened.core ≡ N.first_number }
        requires ledger { (self.opened.blank.name ≡ B.name) × (self.opened.blank.parts ≡ B.parts) × (B.all ≡ B.parts) }
        requires words { self.opened.words.table.shared.table_id ≡ B.table }
        requires queue { (arc_value self.channel).queue ≡ B.queue }
        requires before { (B.before ≡ records_of_log self.opened.log) × (B.cut ≡ cut_of_log self.opened.log) }
        requires layout { (geometry_of self.opened.core ≡ B.geometry) × (size (L.Disk.history self.opened.log.device) ≡ B.log_bytes) }
        requires core { (start : Beginning) → B.honest start → ∥ HasComeBy start B.cut B.before self.opened.core self.opened.stage (anchored_by (anchor_of self.opened.log)) [] ∥₁ }
        requires log { (start : Beginning) → B.honest start → ∥ IsKept B.geometry B.log_bytes self.opened.log false (0, 0) ∥₁ }
        ensures { result.report ≡ self.opened.report }
    {
        let Queued {
            opened,
            channel,
            ours,
            sender,
            receiver,
        } = self;
        let Opened {
            core,
            log,
            stage,
            report,
            words,
            sleepers,
            teller,
            blank,
        } = opened;
        let (calls, rest) = blank.open::<B>();
        let mut teller = Seat::<B>::of(teller);
        let seat = teller.keeper(&words);
        let book = teller.scribe(&words);
        let tail = QueueTail::<N, B, R>::new(rt, alloc, ours, sender, core.next());
        let (core, _) = core.with_tail(tail);
        let core = CoreHeld::new(core, stage, calls, rest, seat, book);
        let log = LogHeld::new(alloc, log, channel, receiver, teller);
        Shared::of(words, sleepers, report, core, log)
    }
}

// A queue with both its owners, and both passes.
fn channel_of<N: Numbers>(
    alloc: Global,
) -> Result<
    (
        Arc<Channel<N>, Global>,
        Arc<Channel<N>, Global>,
        QueuePass,
        QueuePass,
    ),
    AllocError,
>
    ensures { IfOk result (λ m. IsSegPassOf (arc_value m.0).queue m.2 × (m.2.me.view.client ≡ ends true false [] []) × IsSegPassOf (arc_value m.0).queue m.3
        × (m.3.me.view.client ≡ ends false true [] []) × ((arc_value m.1).queue ≡ (arc_value m.0).queue)) }
{
    let (queue, sender, receiver) = made::<N>(alloc)?;
    let channel = Arc::new(alloc, Channel { queue })?;
    let ours = Arc::try_clone(&channel)?;
    Ok((channel, ours, sender, receiver))
}
