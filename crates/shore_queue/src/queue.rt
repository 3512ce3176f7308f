//! A queue of log buffers, whose rule says what was received: the records that were received, and then those that the queue holds, are those that were sent.
ghost use Rattle.std.specs.Prelude.{◌≡◌, ◌<◌, ◌+◌, true, false, [], ◌++◌, length, List, IfOk, MatchResult, MatchOption, None};
ghost use Rattle.crossbeam_queue.specs.SegTies.{IsSegPassOf};
ghost use Rattle.shore_model.specs.declared.log_records.LogRecord.{LogRecord};
ghost use Rattle.shore_log.specs.PlainTails.{first_of, waiting_in};
ghost use Rattle.shore_queue.specs.Queues.{ends, records_in};

use crossbeam_queue::protocol::{Join, Lesson, Outcome, Protocol, Split};
use crossbeam_queue::{RuledSegQueue, SegPass};
use shore_log::PlainTail;
use shore_logrec::LogRecord;
use std::alloc::{AllocError, Global};
use std::collections::LinkedList;
use std::marker::{Brand, PhantomData};
use std::sync::Wait;

/// Which number the first record has that goes through the queue.
pub trait Numbers {
    ghost use Rattle.std.specs.Prelude.{ℕ};

    ghost first_number: { ℕ };
}

impl Numbers for Brand {
    ghost first_number = { 0 };
}

/// Whether a pass may send or receive, and the records that it has sent and received. No value of it is made.
pub struct Ends {
    /// Whether it may send.
    pub sends: bool,
    /// Whether it may receive.
    pub receives: bool,
    /// What was sent, if it may send; else the first of it, so far as it knows.
    pub sent: LinkedList<LogRecord>,
    /// What was received, if it may receive.
    pub got: LinkedList<LogRecord>,
}

/// The rule: what is received is a prefix of what was sent, nothing that is sent is empty, and the numbers follow each other.
pub struct InOrder<N: Numbers> {
    // Its numbers begin where these do.
    of: PhantomData<N>,
}

impl<N: Numbers> Protocol<PlainTail, Ends> for InOrder<N> {
    ghost use Rattle.std.specs.Prelude.{true, []};
    ghost use Rattle.shore_queue.specs.Queues.{ends, Relays};

    ghost holds = { Relays N.first_number };

    ghost first = { ends true true [] [] };
}

// The end that receives goes to a pass of its own, which knows what was sent by then, and comes back.
struct Roles;

impl Split<Ends> for Roles {
    ghost use Rattle.std.specs.Prelude.{true, false, []};
    ghost use Rattle.shore_queue.specs.Queues.{ends};

    ghost left = { λ v. ends true false v.sent [] };

    ghost right = { λ v. ends false true v.sent v.got };
}

impl Join<Ends> for Roles {
    ghost use Rattle.std.specs.Prelude.{true, false, []};
    ghost use Rattle.shore_queue.specs.Queues.{ends};

    ghost both = { λ v w. ends true true v.sent w.got };

    ghost spent = { ends false false [] [] };
}

// All that a pass knows goes to a new one.
struct Whole;

impl Split<Ends> for Whole {
    ghost use Rattle.std.specs.Prelude.{false, []};
    ghost use Rattle.shore_queue.specs.Queues.{ends};

    ghost left = { λ _. ends false false [] [] };

    ghost right = { λ v. v };
}

struct Sent;

impl Outcome<PlainTail, Ends> for Sent {
    ghost then = { λ v x w. w ≡ ends v.sends v.receives (v.sent ++ waiting_in x) v.got };
}

struct Got<N: Numbers> {
    // Its numbers begin where these do.
    of: PhantomData<N>,
}

impl<N: Numbers> Outcome<PlainTail, Ends> for Got<N> {
    ghost then = { λ v x w. (w ≡ ends v.sends v.receives v.sent (v.got ++ waiting_in x)) × (first_of x ≡ N.first_number + length v.got) × (0 < length (waiting_in x)) };
}

impl<N: Numbers> Lesson<PlainTail, Ends> for Got<N> {
    ghost fact = { λ v items. (rest : List LogRecord) × (v.got ++ records_in items ≡ v.sent ++ rest) };
}

struct Total;

impl Lesson<PlainTail, Ends> for Total {
    ghost fact = { λ v items. v.sent ≡ v.got ++ records_in items };
}

/// The queue. What it holds are log buffers, each with the records of a push.
pub type Queue<N> = RuledSegQueue<PlainTail, Ends, InOrder<N>>;

/// What one end knows. It takes no memory but that of a block that the queue has not linked yet.
pub type QueuePass = SegPass<PlainTail, Ends>;

/// A queue, the pass of the end that sends and that of the end that receives.
pub fn made<N: Numbers>(alloc: Global) -> Result<(Queue<N>, QueuePass, QueuePass), AllocError>
    ensures { IfOk result (λ made. IsSegPassOf made.0 made.1 × IsSegPassOf made.0 made.2 × (made.1.me.view.client ≡ ends true false [] []) × (made.2.me.view.client ≡ ends false true [] [])) }
{
    let (queue, mut sender) = Queue::<N>::with_rule(alloc)?;
    let receiver = queue.another::<Roles>(&mut sender);
    Ok((queue, sender, receiver))
}

/// Sends the records of a log buffer, which have the next numbers. It comes back if an allocation failed, or behind some 2^62 pushes.
pub fn send<N: Numbers, R: Wait>(
    rt: &R,
    queue: &Queue<N>,
    pass: &mut QueuePass,
    records: PlainTail,
) -> Result<(), PlainTail>
    requires pass { IsSegPassOf queue.now pass.old × (pass.old.me.view.client ≡ ends true false pass.old.me.view.client.sent []) }
    requires numbers { first_of records ≡ N.first_number + length pass.old.me.view.client.sent }
    requires some { 0 < length (waiting_in records) }
    ensures same { IsSegPassOf queue.now pass.new }
    ensures sent { MatchResult result (λ _. pass.new.me.view.client ≡ ends true false (pass.old.me.view.client.sent ++ waiting_in records) [])
        (λ x. (x ≡ records) × (pass.new.me.view.client ≡ pass.old.me.view.client)) }
{
    queue.push_as::<Sent, R>(rt, pass, records)
}

/// Receives the oldest of them. None only if there was none at one moment of the call: then all was received that this end knows to be sent.
pub fn receive<N: Numbers, R: Wait>(
    rt: &R,
    queue: &Queue<N>,
    pass: &mut QueuePass,
) -> Option<PlainTail>
    requires { IsSegPassOf queue.now pass.old × (pass.old.me.view.client ≡ ends false true pass.old.me.view.client.sent pass.old.me.view.client.got) }
    ensures same { IsSegPassOf queue.now pass.new }
    ensures got { MatchOption result (pass.new.me.view.client ≡ pass.old.me.view.client) (λ x. (pass.new.me.view.client ≡ ends false true pass.old.me.view.client.sent (pass.old.me.view.client.got ++ waiting_in x))
        × (first_of x ≡ N.first_number + length pass.old.me.view.client.got) × (0 < length (waiting_in x))) }
    ensures none { result ≡ None → (rest : List LogRecord) × (pass.old.me.view.client.got ≡ pass.old.me.view.client.sent ++ rest) }
{
    queue.pop_as::<Got<N>, R>(rt, pass)
}

/// What the end that receives knows goes to a new pass; the other knows nothing any more.
pub fn handed_on<N: Numbers>(queue: &Queue<N>, receiver: &mut QueuePass) -> QueuePass
    requires { IsSegPassOf queue.now receiver.old × (receiver.old.me.view.client ≡ ends false true receiver.old.me.view.client.sent receiver.old.me.view.client.got) }
    ensures { IsSegPassOf queue.now result × (result.me.view.client ≡ receiver.old.me.view.client)
        × IsSegPassOf queue.now receiver.new × (receiver.new.me.view.client ≡ ends false false [] []) }
{
    queue.another::<Whole>(receiver)
}

/// Shows that what was received is a prefix of what was sent. Both passes know what they did, and the end that receives then knows what was sent.
pub fn compare<N: Numbers, R: Wait>(
    rt: &R,
    queue: &Queue<N>,
    sender: &mut QueuePass,
    receiver: &mut QueuePass,
)
    requires sender { IsSegPassOf queue.now sender.old × (sender.old.me.view.client ≡ ends true false sender.old.me.view.client.sent []) }
    requires receiver { IsSegPassOf queue.now receiver.old × (receiver.old.me.view.client ≡ ends false true receiver.old.me.view.client.sent receiver.old.me.view.client.got) }
    ensures same { IsSegPassOf queue.now sender.new × IsSegPassOf queue.now receiver.new }
    ensures sender { sender.new.me.view.client ≡ sender.old.me.view.client }
    ensures receiver { receiver.new.me.view.client ≡ ends false true sender.old.me.view.client.sent receiver.old.me.view.client.got }
    ensures begins { (rest : List LogRecord) × (sender.old.me.view.client.sent ≡ receiver.old.me.view.client.got ++ rest) }
{
    let whole = handed_on(queue, receiver);
    queue.absorb::<Roles>(sender, whole);
    queue.len_as::<Total, R>(rt, sender);
    *receiver = queue.another::<Roles>(sender);
}
