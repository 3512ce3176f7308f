//! What lies under the log device's lock.
ghost use Rattle.std.specs.Prelude.{◌≡◌, ◌≢◌, ◌⊎◌, ◌↔◌, ◌≤◌, ◌<◌, ◌+◌, ◌-◌, ◌^◌, [], ◌++◌, length, take, ℕ, List, IfErr, IsOk, IsTrue, OnErr, OnOk, Ok, Err, false, true};
ghost use Rattle.std.specs.Arc.{arc_value};
ghost use Rattle.crossbeam_queue.specs.SegTies.{IsSegPassOf};
ghost use Rattle.shore_types.specs.declared.faults.Fault.TheVariants as Fault;
ghost use Rattle.shore_types.specs.declared.layout.TheConstants.{LAST_OPENED};
ghost use Rattle.shore_disk.specs.Cause.{HasCause};
ghost use Rattle.shore_disk.specs.Device as devices;
ghost use Rattle.shore_log.specs.PlainTails.{first_of, told_in, waiting_in};
ghost use Rattle.shore_log.specs.Settled.{IsSpelled, KnowsRoom, cut_of_log, records_of_log, stable};
ghost use Rattle.shore_log.specs.Told.{aside_for};
ghost use Rattle.shore_model.specs.declared.log_records.LogRecord.{LogRecord};
ghost use Rattle.shore_queue.specs.Queues.{ends};
ghost use Rattle.shore_words.specs.Words.{known, looker};
ghost use Rattle.shore_held.specs.Comings.{Beginning};
ghost use Rattle.shore_held.specs.Logs.{Follows, HasNoPlace, IsKept, LeavesHeld, LeavesStable, LogState, aside_of, count_of, free_of, textless_of};

use crate::names::Named;
use crate::seat::Seat;
use shore_disk::Disk;
use shore_log::{LogDev, PlainTail, Tail};
use shore_queue::{Channel, Numbers, QueuePass, receive};
use shore_types::{Fault, Lsn};
use shore_words::Words;
use std::alloc::Global;
use std::marker::{Model, PhantomData};
use std::sync::{Arc, Wait};

/// The log device with its end of the queue, and the seat that tells how far it is durable.
#[derive(Drop)]
pub struct LogHeld<N: Numbers, B: Named, L: Disk> {
    // The log device.
    pub(crate) log: LogDev<L>,
    // The queue, and the end that receives.
    pub(crate) channel: Arc<Channel<N>, Global>,
    pub(crate) pass: QueuePass,
    // What came through the queue and was not taken in yet: an allocation failed. At the end it is the log buffer of the log device.
    pub(crate) next: PlainTail,
    // Whether it knows as that what there is room for.
    pub(crate) ready: bool,
    // The seat that tells how far the log is durable, and knows the anchor.
    pub(crate) seat: Seat<B>,
    // Whether the device has failed.
    pub(crate) failed: bool,
    of: PhantomData<B>,
}

impl<N: Numbers, B: Named, L: Disk> Model for LogHeld<N, B, L> {
    ghost Value = { LogState };

    ghost view = { λ h. record { anchors = h.log.anchors; cut = cut_of_log h.log; list = records_of_log h.log ++ waiting_in h.next; waits = waiting_in h.next; stable = stable h.log; staged = count_of h.log.staged; got = h.pass.me.view.client.got; met = h.pass.me.view.client.sent; told = h.seat.told; aim = h.seat.anchor.aim; failed = h.failed; free = free_of h.log; textless = textless_of h.log.read (h.log.count - h.log.forced); aside = aside_of h.ready (told_in h.next); faults = L.Disk.faults h.log.device; history = L.Disk.history h.log.device } };

    ghost invariant = { λ h. ((arc_value h.channel).queue ≡ B.queue) × IsSegPassOf B.queue h.pass × (h.pass.me.view.client ≡ ends false true h.pass.me.view.client.sent h.pass.me.view.client.got)
        × Follows B.cut B.before h.pass.me.view.client.got (cut_of_log h.log) (records_of_log h.log ++ waiting_in h.next)
        × (first_of h.next ≡ cut_of_log h.log + 1 + length (records_of_log h.log)) × (N.first_number ≡ B.cut + 1 + length B.before)
        × (h.seat.tells ≡ true) × (h.seat.anchor ≡ record { checkpoint = h.log.anchors.anchor.checkpoint; tail = h.log.anchors.anchor.tail; aim = h.seat.anchor.aim }) × (h.seat.told ≤ cut_of_log h.log + length (stable h.log))
        × (devices.size (L.Disk.history h.log.device) ≡ B.log_bytes)
        × ((start : Beginning) → B.honest start → ∥ IsKept B.geometry B.log_bytes h.log h.failed h.seat.anchor.aim ∥₁)
        × (h.failed ≡ false → h.seat.anchor.aim ≡ (0, 0))
        × (h.ready ≡ true → KnowsRoom h.log (told_in h.next)) };
}

impl<N: Numbers, B: Named, L: Disk> LogHeld<N, B, L> {
    pub fn new(
        alloc: Global,
        log: LogDev<L>,
        channel: Arc<Channel<N>, Global>,
        pass: QueuePass,
        seat: Seat<B>,
    ) -> LogHeld<N, B, L>
        requires queue { ((arc_value channel).queue ≡ B.queue) × IsSegPassOf B.queue pass × (pass.me.view.client ≡ ends false true [] []) }
        requires before { (records_of_log log ≡ B.before) × (cut_of_log log ≡ B.cut) × (N.first_number ≡ B.cut + 1 + length B.before) }
        requires few { N.first_number ≤ LAST_OPENED }
        requires seat { (seat.tells ≡ true) × (seat.anchor ≡ known log.anchors.anchor.checkpoint log.anchors.anchor.tail) × (seat.told ≤ cut_of_log log + length (stable log)) }
        requires long { devices.size (L.Disk.history log.device) ≡ B.log_bytes }
        requires kept { (start : Beginning) → B.honest start → ∥ IsKept B.geometry B.log_bytes log false (0, 0) ∥₁ }
        ensures { (result.anchors ≡ log.anchors) × (result.list ≡ records_of_log log) × (result.waits ≡ []) × (result.cut ≡ cut_of_log log) × (result.stable ≡ stable log) × (result.staged ≡ count_of log.staged) × (result.got ≡ []) × (result.met ≡ []) × (result.told ≡ seat.told)
            × (result.aim ≡ (0, 0)) × (result.failed ≡ false) × (result.free ≡ free_of log) × (result.faults ≡ L.Disk.faults log.device) × (result.history ≡ L.Disk.history log.device) }
    {
        let next = PlainTail::new(alloc, Lsn(log.last().0 + 1));
        LogHeld {
            log,
            channel,
            pass,
            next,
            ready: false,
            seat,
            failed: false,
            of: PhantomData,
        }
    }

    /// Takes in what came through the queue and waits for memory, and then one push more. False if there was none more: then all came that this end knows to be sent. `Memory` if an allocation failed: nothing is lost.
    pub fn take_one<R: Wait>(&mut self, rt: &R) -> Result<bool, Fault>
        ensures same { (self.new.anchors ≡ self.old.anchors) × (self.new.cut ≡ self.old.cut) × (self.new.stable ≡ self.old.stable) × (self.new.staged ≡ self.old.staged) × (self.new.told ≡ self.old.told) × (self.new.failed ≡ self.old.failed)
            × (self.new.aim ≡ self.old.aim) × (self.new.history ≡ self.old.history) × (self.new.met ≡ self.old.met) × (self.new.free ≡ self.old.free) × (self.new.faults ≡ self.old.faults) }
        ensures texts { OnOk result (self.new.textless ≡ 0) × (self.old.textless ≡ 0 → self.new.textless ≡ 0) }
        ensures more { (more : List LogRecord) × (self.new.list ≡ self.old.list ++ more) × (self.new.got ≡ self.old.got ++ more) }
        ensures none { result ≡ Ok false → (self.new.list ≡ self.old.list) × (self.new.got ≡ self.old.got) }
        ensures some { result ≡ Ok true → length self.old.got < length self.new.got }
        ensures emptied { result ≡ Ok false → (rest : List LogRecord) × (self.old.got ≡ self.old.met ++ rest) }
        ensures taken { OnOk result (self.new.waits ≡ []) }
        ensures only_memory { IfErr result (λ fault. fault ≡ Fault.Memory) }
    {
        self.ready = false;
        self.log.take_in(&mut self.next)?;
        match receive(rt, &self.channel.queue, &mut self.pass) {
            Some(records) => {
                self.next = records;
                self.log.take_in(&mut self.next)?;
                Ok(true)
            }
            None => Ok(false),
        }
    }

    /// Stages the longest list of its records that one frame holds, where no frame is staged: it is written behind the durable ones, and does not count yet. The answer is whether a frame is
    /// staged then; if not, all that it took in is durable. `LogFull` and `Memory` change nothing; after `Device` it is not called any more.
    pub fn stage(&mut self, alloc: Global) -> Result<bool, Fault>
        ensures same { (self.new.anchors ≡ self.old.anchors) × (self.new.cut ≡ self.old.cut) × (self.new.list ≡ self.old.list) × (self.new.waits ≡ self.old.waits) × (self.new.got ≡ self.old.got)
            × (self.new.met ≡ self.old.met) × (self.new.told ≡ self.old.told) × (self.new.aim ≡ self.old.aim) }
        ensures unforced { self.new.stable ≡ self.old.stable }
        ensures failed { IsTrue self.old.failed → (result ≡ Err Fault.Device) × (self.new ≡ self.old) }
        ensures others { IfErr result (λ fault. (fault ≡ Fault.Device) ⊎ (fault ≡ Fault.Memory) ⊎ (fault ≡ Fault.LogFull)) }
        ensures full { result ≡ Err Fault.LogFull → HasNoPlace self.old }
        // It is never refused memory for what came through the queue.
        ensures idle { self.old.textless ≡ 0 → result ≢ Err Fault.Memory }
        ensures cause { self.old.failed ≡ false → HasCause result self.old.faults self.new.faults }
        ensures none { result ≡ Ok false → (self.new.staged ≡ 0) × (self.new.list ≡ self.new.stable ++ self.new.waits) }
        ensures staged { result ≡ Ok true → (0 < self.new.staged) × (length self.new.stable + self.new.staged + length self.new.waits ≤ length self.new.list) }
        // A frame that was staged before is not staged anew, and whoever stages knows of no move of the anchor that has failed.
        ensures under_way { 0 < self.old.staged → OnOk result (self.new ≡ self.old) }
        ensures unaimed { OnOk result (self.old.aim ≡ (0, 0)) }
        ensures refused { IfErr result (λ fault. (fault ≡ Fault.Device) ⊎ (self.new ≡ self.old)) }
        // A loss of power at any moment of it leaves what was durable, and nothing of that frame.
        ensures leaves { (self.old.failed ≡ false) → (start : Beginning) → B.honest start → ∥ LeavesStable B.geometry B.log_bytes self.old self.new.history ∥₁ }
        ensures any_moment { (start : Beginning) → B.honest start → ∥ LeavesHeld B.geometry B.log_bytes self.old self.new.history ∥₁ }
        ensures broken { OnOk result (self.new.failed ≡ self.old.failed) }
        ensures breaks { IfErr result (λ fault. IsTrue self.new.failed ↔ (fault ≡ Fault.Device)) }
    {
        if self.failed {
            return Err(Fault::Device);
        }
        match self.log.stage(alloc) {
            Ok(_) => Ok(self.log.is_staged()),
            Err(fault) => {
                self.failed = is_device(&fault);
                Err(fault)
            }
        }
    }

    /// Opens the gate of the frame that is staged: it counts from then on. False if none is staged. After `Device`, its only error, it is not called any more.
    pub fn open(&mut self) -> Result<bool, Fault>
        ensures same { (self.new.anchors ≡ self.old.anchors) × (self.new.cut ≡ self.old.cut) × (self.new.list ≡ self.old.list) × (self.new.waits ≡ self.old.waits) × (self.new.got ≡ self.old.got)
            × (self.new.met ≡ self.old.met) × (self.new.told ≡ self.old.told) × (self.new.aim ≡ self.old.aim) }
        ensures failed { IsTrue self.old.failed → (result ≡ Err Fault.Device) × (self.new ≡ self.old) }
        ensures cause { self.old.failed ≡ false → HasCause result self.old.faults self.new.faults }
        ensures unforced { OnErr result (self.new.stable ≡ self.old.stable) }
        ensures none { result ≡ Ok false → (self.new ≡ self.old) × (self.old.staged ≡ 0) }
        ensures opened { result ≡ Ok true → (0 < self.old.staged) × (length self.new.stable ≡ length self.old.stable + self.old.staged) × (self.new.staged ≡ 0) }
        // A loss of power at any moment of it leaves a prefix of the records, with all that were durable before; or what a move of the anchor has left that failed before.
        ensures any_moment { (start : Beginning) → B.honest start → ∥ LeavesHeld B.geometry B.log_bytes self.old self.new.history ∥₁ }
        ensures only_device { IfErr result (λ fault. fault ≡ Fault.Device) }
        ensures breaks { IsTrue self.new.failed ↔ (result ≡ Err Fault.Device) }
    {
        if self.failed {
            return Err(Fault::Device);
        }
        match self.log.open_staged() {
            Ok(durable) => Ok(durable.is_some()),
            Err(fault) => {
                self.failed = true;
                Err(fault)
            }
        }
    }

    /// Opens the gate of the frame that is staged, and by the same sync stages the longest list of the records after it that one frame holds, if there are any, and place and memory for it: so
    /// each frame takes one sync as long as records wait. False if none is staged. After `Device`, its only error, it is not called any more.
    pub fn open_and_stage(&mut self, alloc: Global) -> Result<bool, Fault>
        ensures same { (self.new.anchors ≡ self.old.anchors) × (self.new.cut ≡ self.old.cut) × (self.new.list ≡ self.old.list) × (self.new.waits ≡ self.old.waits) × (self.new.got ≡ self.old.got)
            × (self.new.met ≡ self.old.met) × (self.new.told ≡ self.old.told) × (self.new.aim ≡ self.old.aim) }
        ensures failed { IsTrue self.old.failed → (result ≡ Err Fault.Device) × (self.new ≡ self.old) }
        ensures cause { self.old.failed ≡ false → HasCause result self.old.faults self.new.faults }
        ensures unforced { OnErr result (self.new.stable ≡ self.old.stable) }
        ensures none { result ≡ Ok false → (self.new ≡ self.old) × (self.old.staged ≡ 0) }
        // What was staged counts now, and nothing of the next frame.
        ensures opened { result ≡ Ok true → (0 < self.old.staged) × (length self.new.stable ≡ length self.old.stable + self.old.staged) }
        // Where what waits came through the queue a frame is staged if there is place for it.
        ensures goes_on { self.old.textless ≡ 0 → result ≡ Ok true → self.new.staged ≡ 0 → (self.new.list ≡ self.new.stable ++ self.new.waits) ⊎ HasNoPlace self.new }
        ensures texts { self.old.textless ≡ 0 → self.new.textless ≡ 0 }
        ensures staged { result ≡ Ok true → length self.new.stable + self.new.staged + length self.new.waits ≤ length self.new.list }
        // A loss of power at any moment of it leaves a prefix of the records, with all that were durable before; or what a move of the anchor has left that failed before.
        ensures any_moment { (start : Beginning) → B.honest start → ∥ LeavesHeld B.geometry B.log_bytes self.old self.new.history ∥₁ }
        ensures only_device { IfErr result (λ fault. fault ≡ Fault.Device) }
        ensures breaks { IsTrue self.new.failed ↔ (result ≡ Err Fault.Device) }
    {
        if self.failed {
            return Err(Fault::Device);
        }
        let opened = self.log.open_and_stage(alloc);
        self.failed = opened.is_err();
        Ok(opened?.is_some())
    }

    /// Whether a frame is staged.
    pub fn is_staged(&self) -> bool
        ensures { IsTrue result ↔ (0 < self.now.staged) }
    {
        self.log.is_staged()
    }

    /// Forces the longest list of its records that one frame holds, or the frame that is staged: stages it and opens its gate. False if all that it took in is durable. After `Device` it is not called any more.
    pub fn force(&mut self, alloc: Global) -> Result<bool, Fault>
        ensures same { (self.new.anchors ≡ self.old.anchors) × (self.new.cut ≡ self.old.cut) × (self.new.list ≡ self.old.list) × (self.new.waits ≡ self.old.waits) × (self.new.got ≡ self.old.got)
            × (self.new.met ≡ self.old.met) × (self.new.told ≡ self.old.told) × (self.new.aim ≡ self.old.aim) }
        ensures failed { IsTrue self.old.failed → (result ≡ Err Fault.Device) × (self.new ≡ self.old) }
        ensures others { IfErr result (λ fault. (fault ≡ Fault.Device) ⊎ (fault ≡ Fault.Memory) ⊎ (fault ≡ Fault.LogFull)) }
        ensures full { result ≡ Err Fault.LogFull → HasNoPlace self.old }
        ensures idle { self.old.textless ≡ 0 → result ≢ Err Fault.Memory }
        ensures cause { self.old.failed ≡ false → HasCause result self.old.faults self.new.faults }
        ensures unforced { OnErr result (self.new.stable ≡ self.old.stable) }
        ensures none { result ≡ Ok false → (self.new.stable ≡ self.old.stable) × (self.new.list ≡ self.new.stable ++ self.new.waits) }
        // A loss of power at any moment of it leaves a prefix of the records, with all that were durable before; or what a move of the anchor has left that failed before.
        ensures any_moment { (start : Beginning) → B.honest start → ∥ LeavesHeld B.geometry B.log_bytes self.old self.new.history ∥₁ }
        ensures forced { result ≡ Ok true → length self.old.stable < length self.new.stable }
        ensures unstaged { OnOk result (self.new.staged ≡ 0) }
        ensures broken { OnOk result (self.new.failed ≡ self.old.failed) }
        ensures breaks { IfErr result (λ fault. IsTrue self.new.failed ↔ (fault ≡ Fault.Device)) }
    {
        if !self.stage(alloc)? {
            return Ok(false);
        }
        self.open()
    }

    /// Tells how far it is durable.
    pub fn tell(&mut self, words: &Words) -> Lsn
        requires { (words.now.table.shared.table_id ≡ B.table) × (4 < B.table.words) }
        ensures told { (result ≡ self.new.told) × (self.new.told ≡ self.new.cut + length self.new.stable) }
        ensures same { (self.new.anchors ≡ self.old.anchors) × (self.new.cut ≡ self.old.cut) × (self.new.list ≡ self.old.list) × (self.new.waits ≡ self.old.waits) × (self.new.stable ≡ self.old.stable) × (self.new.staged ≡ self.old.staged) × (self.new.got ≡ self.old.got)
            × (self.new.met ≡ self.old.met) × (self.new.aim ≡ self.old.aim) × (self.new.failed ≡ self.old.failed) × (self.new.history ≡ self.old.history)
            × (self.new.free ≡ self.old.free) × (self.new.textless ≡ self.old.textless) × (self.new.faults ≡ self.old.faults) }
    {
        let durable = self.log.durable().number();
        self.seat.tell(words, durable.0);
        durable
    }

    /// Shows that what a seat has seen was told.
    pub fn compare(&mut self, words: &Words, seat: &mut Seat<B>)
        requires { (words.now.table.shared.table_id ≡ B.table) × (4 < B.table.words) }
        ensures same { (self.new ≡ self.old) × (seat.new ≡ seat.old) }
        ensures seen { seat.old.seen ≤ self.old.told }
        ensures told { self.old.told ≤ self.old.cut + length self.old.stable }
    {
        self.seat.compare(words, seat);
    }

    /// A seat that has seen all that was told.
    pub fn seat(&mut self, words: &Words) -> Seat<B>
        requires { (words.now.table.shared.table_id ≡ B.table) × (4 < B.table.words) }
        ensures same { self.new ≡ self.old }
        ensures seen { result ≡ looker self.old.told }
    {
        let mut any = self.seat.reader(words);
        self.seat.compare(words, &mut any);
        self.seat.reader(words)
    }

    /// The number of the last record that it took in.
    pub fn last(&self) -> Lsn
        ensures { result + length self.now.waits ≡ self.now.cut + length self.now.list }
    {
        self.log.last()
    }

    /// Whether the device has failed. A loss of power leaves a prefix of its records now, with all that are durable; or what a move of the anchor that has failed has left (`left`).
    pub fn has_failed(&self) -> bool
        ensures noted { result ≡ self.now.failed }
        ensures unaimed { self.now.failed ≡ false → self.now.aim ≡ (0, 0) }
        ensures few { length self.now.stable + length self.now.waits ≤ length self.now.list }
        ensures first { self.now.anchors.anchor.tail ≡ self.now.cut + 1 }
        ensures told { self.now.told ≤ self.now.cut + length self.now.stable }
        ensures follows { Follows B.cut B.before self.now.got self.now.cut self.now.list }
        ensures stable { self.now.stable ≡ take (length self.now.stable) self.now.list }
        // As long as it has not failed that is what is durable, and nothing of a frame that is staged.
        ensures stays { self.now.failed ≡ false → (start : Beginning) → B.honest start → ∥ LeavesStable B.geometry B.log_bytes self.now self.now.history ∥₁ }
        ensures left { (start : Beginning) → B.honest start → ∥ LeavesHeld B.geometry B.log_bytes self.now self.now.history ∥₁ }
    {
        self.failed
    }

    /// Keeps room aside for so many records with so many bytes of texts in all, in the log buffer that `into_log` hands out. `Memory` if an allocation failed, never for nothing. All else stays.
    pub fn keep_aside(&mut self, count: usize, bytes: usize) -> Result<(), Fault>
        requires few { (count < 2 ^ 30) × (bytes < 2 ^ 30) }
        requires taken { self.old.waits ≡ [] }
        requires texts { self.old.textless ≡ 0 }
        ensures idle { count ≡ 0 → bytes ≡ 0 → IsOk result }
        ensures kept { OnOk result (self.new.aside ≡ aside_for count bytes) }
        ensures same { self.new ≡ record self.old { aside = self.new.aside } }
        ensures refused { IfErr result (λ fault. fault ≡ Fault.Memory) }
    {
        self.ready = false;
        self.log.tell_room(&mut self.next);
        self.next.keep_aside(count, bytes)?;
        self.ready = true;
        Ok(())
    }

    /// The log device, and a log buffer for one caller that goes with it: it has what was not taken in, and keeps room aside as it was told.
    pub fn into_log(self) -> (LogDev<L>, PlainTail)
        ensures log { (result.0.anchors ≡ self.anchors) × (cut_of_log result.0 ≡ self.cut) × (stable result.0 ≡ self.stable) × (self.list ≡ records_of_log result.0 ++ self.waits)
            × (L.Disk.history result.0.device ≡ self.history) }
        ensures long { devices.size (L.Disk.history result.0.device) ≡ B.log_bytes }
        ensures spelled { self.textless ≡ 0 → IsSpelled result.0 }
        ensures kept { (start : Beginning) → B.honest start → ∥ IsKept B.geometry B.log_bytes result.0 self.failed self.aim ∥₁ }
        ensures waits { (waiting_in result.1 ≡ self.waits) × (first_of result.1 ≡ cut_of_log result.0 + 1 + length (records_of_log result.0)) }
        ensures knows { self.waits ≡ [] → self.textless ≡ 0 → KnowsRoom result.0 (told_in result.1) }
        ensures aside { self.waits ≡ [] → self.textless ≡ 0 → (told_in result.1).aside ≡ self.aside }
    {
        let LogHeld {
            log,
            mut next,
            ready,
            ..
        } = self;
        if ready {
            return (log, next);
        }
        log.tell_room(&mut next);
        (log, next)
    }
}

fn is_device(fault: &Fault) -> bool
    ensures { IsTrue result ↔ (fault.now ≡ Fault.Device) }
{
    matches!(fault, Fault::Device)
}
