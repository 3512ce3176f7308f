//! The core's end of the queue: a log buffer that sends each record on as it gets it.
ghost use Rattle.std.specs.Prelude.{◌≡◌, ◌+◌, [], ◌++◌, List, length, true, false};
ghost use Rattle.std.specs.Arc.{arc_value};
ghost use Rattle.crossbeam_queue.specs.SegTies.{IsSegPassOf};
ghost use Rattle.shore_model.specs.declared.log_records.LogRecord.{LogRecord};
ghost use Rattle.shore_queue.specs.Queues.{ends};

use crate::queue::{Numbers, Queue, QueuePass, compare, send};
use shore_log::{PlainTail, Tail};
use shore_logrec::LogRecord;
use shore_types::{Fault, Lsn};
use std::alloc::Global;
use std::marker::{Brand, Model, PhantomData};
use std::sync::{Arc, Wait};

/// Names the queue that both ends are of.
pub trait Queued {
    ghost use Rattle.crossbeam_queue.specs.SegTies.{SegId};
    ghost use Rattle.std.specs.declared.alloc.Global.{Global};

    ghost queue: { SegId Global };
}

impl Queued for Brand {
    ghost use Rattle.shore_queue.specs.Names.{no_queue};

    ghost queue = { no_queue (record { memory = record { seal = tt } }) };
}

/// The queue, which goes with the last of its owners.
pub struct Channel<N: Numbers> {
    /// The queue.
    pub queue: Queue<N>,
}

impl<N: Numbers> Drop for Channel<N> {
    fn drop(self) {
        let Channel { queue } = self;
        queue.destroy();
    }
}

/// A log buffer that keeps nothing: what is pushed is encoded, and its text sent to the other end. Contracts see it as the records that were sent.
#[derive(Drop)]
pub struct QueueTail<N: Numbers, B: Queued, R: Wait + Copy> {
    // The handle of the pushes.
    rt: R,
    // The memory of the texts.
    alloc: Global,
    // The queue, of which the other end owns a part.
    channel: Arc<Channel<N>, Global>,
    // The end that sends.
    pass: QueuePass,
    // The number of the next record.
    next: u64,
    // The names that it has.
    of: PhantomData<B>,
}

impl<N: Numbers, B: Queued, R: Wait + Copy> Model for QueueTail<N, B, R> {
    ghost Value = { List LogRecord };

    ghost view = { λ t. t.pass.me.view.client.sent };

    ghost invariant = { λ t. ((arc_value t.channel).queue ≡ B.queue) × IsSegPassOf B.queue t.pass
        × (t.pass.me.view.client ≡ ends true false t.pass.me.view.client.sent [])
        × (t.next ≡ N.first_number + length t.pass.me.view.client.sent) };
}

impl<N: Numbers, B: Queued, R: Wait + Copy> QueueTail<N, B, R> {
    /// A log buffer that has sent nothing yet, and whose first record has this number.
    pub fn new(
        rt: R,
        alloc: Global,
        channel: Arc<Channel<N>, Global>,
        pass: QueuePass,
        next: Lsn,
    ) -> QueueTail<N, B, R>
        requires queue { (arc_value channel).queue ≡ B.queue }
        requires pass { IsSegPassOf B.queue pass × (pass.me.view.client ≡ ends true false [] []) }
        requires next { next ≡ N.first_number }
        ensures { result ≡ [] }
    {
        QueueTail {
            rt,
            alloc,
            channel,
            pass,
            next: next.0,
            of: PhantomData,
        }
    }

    /// Shows that what was received at the other end is a prefix of what was sent. This end is as before; the other knows what was sent by now.
    pub fn compare(&mut self, receiver: &mut QueuePass)
        requires { IsSegPassOf B.queue receiver.old × (receiver.old.me.view.client ≡ ends false true receiver.old.me.view.client.sent receiver.old.me.view.client.got) }
        ensures sent { self.new ≡ self.old }
        ensures same { IsSegPassOf B.queue receiver.new }
        ensures receiver { receiver.new.me.view.client ≡ ends false true self.old receiver.old.me.view.client.got }
        ensures begins { (rest : List LogRecord) × (self.old ≡ receiver.old.me.view.client.got ++ rest) }
    {
        compare(&self.rt, &self.channel.queue, &mut self.pass, receiver);
    }
}

impl<N: Numbers, B: Queued, R: Wait + Copy> Tail for QueueTail<N, B, R> {
    ghost use Rattle.shore_queue.specs.Names.{nothing_told};

    ghost first = { λ t. N.first_number };

    ghost records = { λ t. t };

    ghost told = { λ t. nothing_told };

    // Each record that is sent takes its own room.
    ghost keeps = { false };

    fn push(&mut self, logged: &LogRecord) -> Result<Lsn, Fault> {
        let number = self.next;
        let mut one = PlainTail::new(self.alloc, Lsn(number));
        one.push(logged)?;
        match send(&self.rt, &self.channel.queue, &mut self.pass, one) {
            Ok(()) => {
                self.next = number + 1;
                Ok(Lsn(number))
            }
            Err(_) => Err(Fault::Memory),
        }
    }

    fn keep_aside(&mut self, count: usize, bytes: usize) -> Result<(), Fault> {
        Ok(())
    }

    fn push_kept(&mut self, logged: &LogRecord) -> Result<Lsn, Fault> {
        self.push(logged)
    }

    fn next(&self) -> Lsn {
        Lsn(self.next)
    }
}
