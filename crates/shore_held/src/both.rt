//! What the values under both locks say together.
ghost use Rattle.std.specs.Prelude.{◌≡◌, ◌≤◌, ◌<◌, ◌+◌, [], ◌++◌, false, true, length, ℕ, IfErr, IsOk, List, OnOk};
ghost use Rattle.shore_types.specs.declared.faults.Fault.TheVariants as Fault;
ghost use Rattle.shore_check.specs.Stages.{bytes_to_log, records_to_log};
ghost use Rattle.shore_log.specs.Told.{aside_for};
ghost use Rattle.crossbeam_queue.specs.SegTies.{IsSegPassOf};
ghost use Rattle.shore_core.specs.Cores.{durable_of, has_failed, heap_of, waiting_of};
ghost use Rattle.shore_core.specs.Cores as cores;
ghost use Rattle.shore_model.specs.declared.log_records.LogRecord.{LogRecord};
ghost use Rattle.shore_queue.specs.Queues.{ends};
ghost use Rattle.shore_held.specs.Comings.{HasAim, IsAimOf};
ghost use Rattle.shore_held.specs.Logs.{known_in};

use crate::core_held::CoreHeld;
use crate::ends::Meeting;
use crate::log_held::LogHeld;
use crate::names::Named;
use crate::seat::Seat;
use shore_core::Probe;
use shore_disk::Disk;
use shore_log::Tail;
use shore_logrec::LogRecord;
use shore_queue::{Numbers, QueuePass, QueueTail, handed_on};
use shore_types::{Fault, Lsn};
use shore_words::Words;
use std::marker::{Model, PhantomData};
use std::sync::Wait;

// The other end of the queue, while it is compared with the core's. It is seen as what it knows to be sent, and what it has received.
#[derive(Drop)]
struct OtherEnd<B: Named> {
    pass: QueuePass,
    of: PhantomData<B>,
}

impl<B: Named> Model for OtherEnd<B> {
    ghost Value = { List LogRecord × List LogRecord };

    ghost view = { λ e. (e.pass.me.view.client.sent, e.pass.me.view.client.got) };

    ghost invariant = { λ e. IsSegPassOf B.queue e.pass × (e.pass.me.view.client ≡ ends false true e.pass.me.view.client.sent e.pass.me.view.client.got) };
}

impl<N: Numbers, B: Named, R: Wait + Copy> Probe<QueueTail<N, B, R>> for OtherEnd<B> {
    ghost tells = { λ old tail new. (new ≡ (tail, old.1)) × ((rest : List LogRecord) × (tail ≡ old.1 ++ rest)) };

    fn touch(&mut self, tail: &mut QueueTail<N, B, R>) {
        tail.compare(&mut self.pass);
    }
}

/// With both locks: the log device's records are a prefix of the core's, and what was seen is durable. From now on the log device knows what was sent.
pub fn meeting<N: Numbers, B: Named, R: Wait + Copy, L: Disk, V: Disk>(
    words: &Words,
    core: &mut CoreHeld<B, QueueTail<N, B, R>, V>,
    held: &mut LogHeld<N, B, L>,
    seat: &mut Seat<B>,
) -> Meeting
    requires { (words.now.table.shared.table_id ≡ B.table) × (4 < B.table.words) }
    ensures same { (waiting_of core.new.core ≡ waiting_of core.old.core) × (durable_of core.new.core ≡ durable_of core.old.core) × (has_failed core.new.core ≡ has_failed core.old.core)
        × (core.new.stage ≡ core.old.stage) × (core.new.asked.items ≡ core.old.asked.items) × (core.new.stepped.items ≡ core.old.stepped.items) × (core.new.made ≡ core.old.made)
        × (core.new.rest ≡ core.old.rest) }
    ensures heap { heap_of core.new.core ≡ heap_of core.old.core }
    ensures tape { core.new.tape ≡ core.old.tape }
    ensures core_seat { (core.new.seat.seen ≡ held.old.told) × (core.old.seat.seen ≤ core.new.seat.seen) × (core.new.seat.kept ≡ core.old.seat.kept) }
    ensures one_anchor { (core.old.seat.kept ≡ known_in held.old) × (held.old.anchors.anchor.tail ≡ held.old.cut + 1) }
    // A move of the anchor that has failed was the last step of the core's checkpoint.
    ensures aims { HasAim held.old.aim → ∥ IsAimOf core.old.stage (durable_of core.old.core) held.old.aim ∥₁ }
    ensures same_log { held.new ≡ record held.old { met = waiting_of core.old.core } }
    ensures begins { (gone rest : List LogRecord) × (B.before ++ waiting_of core.old.core ≡ gone ++ (held.old.list ++ rest)) × (held.old.cut ≡ B.cut + length gone) }
    ensures all { cores.last_of core.old.core ≡ B.cut + length B.before + length (waiting_of core.old.core) }
    ensures numbers { (result.core_end ≡ cores.last_of core.old.core) × (result.device_end ≡ held.old.cut + length held.old.stable) × (seat.new ≡ record seat.old { seen = result.seen }) × (seat.old.seen ≤ result.seen) }
    ensures order { (result.seen ≤ result.device_end) × (result.device_end ≤ result.core_end) }
    ensures core_seen { (durable_of core.old.core ≤ core.old.seat.seen) × (core.old.seat.seen ≤ held.old.cut + length held.old.stable) }
{
    let pass = handed_on(&held.channel.queue, &mut held.pass);
    let mut end = OtherEnd::<B> {
        pass,
        of: PhantomData,
    };
    core.core.probe(&mut end);
    let OtherEnd { pass, .. } = end;
    held.pass = pass;
    held.seat.meet(words, &mut core.seat);
    let seen = seat.look(words);
    held.seat.compare(words, seat);
    Meeting {
        core_end: core.core.last(),
        device_end: held.log.durable().number(),
        seen: Lsn(seen),
    }
}

/// Keeps room aside, in the log buffer of the log device, for all that the core's checkpoint under way still has to log. `Memory` if an allocation failed, never where it has nothing to log.
pub fn keep_aside<N: Numbers, B: Named, T: Tail, L: Disk, V: Disk>(
    core: &CoreHeld<B, T, V>,
    held: &mut LogHeld<N, B, L>,
) -> Result<(), Fault>
    requires taken { held.old.waits ≡ [] }
    requires texts { held.old.textless ≡ 0 }
    ensures idle { records_to_log core.now.stage ≡ 0 → IsOk result }
    ensures kept { OnOk result (held.new.aside ≡ aside_for (records_to_log core.now.stage) (bytes_to_log core.now.stage)) }
    ensures same { held.new ≡ record held.old { aside = held.new.aside } }
    ensures refused { IfErr result (λ fault. fault ≡ Fault.Memory) }
{
    held.keep_aside(core.stage.records_to_log(), core.stage.bytes_to_log())
}
