//! Records that cross a thread, through the queue.
ghost use Rattle.std.specs.Prelude.{◌≡◌, ◌+◌, ◌<◌, [], length, true, false};
ghost use Rattle.std.specs.Arc.{arc_value};
ghost use Rattle.crossbeam_queue.specs.SegTies.{IsSegPassOf};
ghost use Rattle.shore_queue.specs.Queues.{ends};

use shore_log::Tail;
use shore_model::{LogRecord, Payload};
use shore_queue::{Channel, Numbers, QueuePass, QueueTail, Queued, made, receive};
use shore_types::{Fault, Lsn, TxnId};
use std::alloc::Global;
use std::marker::Brand;
use std::sync::{Arc, Wait};
use std::test::Fail;
use std::thread::{Threads, join, yield_now};

const RECORDS: u64 = 1_000;

// Sends so many records, each of a transaction of its own.
fn send_all<T: Tail>(tail: &mut T) -> Result<(), Fault>
    requires { (T.first tail.old ≡ 1) × (T.records tail.old ≡ []) }
{
    for round in 0..RECORDS {
        let logged = LogRecord {
            txn: TxnId(round + 1),
            previous: Lsn(0),
            payload: Payload::Commit,
        };
        tail.push(&logged)?;
    }
    Ok(())
}

// Receives so many, and answers how many came in their turn.
fn receive_all<N: Numbers, R: Wait>(
    rt: &R,
    alloc: Global,
    channel: &Channel<N>,
    mut pass: QueuePass,
) -> Result<u64, Fault>
    requires { IsSegPassOf channel.now.queue pass × (pass.me.view.client ≡ ends false true [] []) }
{
    let mut came: u64 = 0;
    let mut in_turn: u64 = 0;
    for _ in rt.forever() {
        if came >= RECORDS {
            break;
        }
        let Some(one) = receive(rt, &channel.queue, &mut pass) else {
            yield_now();
            continue;
        };
        for logged in one.waiting(alloc)? {
            came = came.wrapping_add(1);
            if logged.txn.0 == came {
                in_turn = in_turn.wrapping_add(1);
            }
        }
    }
    Ok(in_turn)
}

fn with_numbers<N: Numbers + Send + Sync, R: Threads + Wait + Sync + Send + Copy>(
    rt: R,
    alloc: Global,
) -> Result<u64, Fault>
    requires { N.first_number ≡ 1 }
{
    let (queue, sender, receiver) = made::<N>(alloc)?;
    let channel = Arc::new(alloc, Channel { queue })?;
    with_names::<N, Brand, R>(rt, alloc, channel, sender, receiver)
}

fn with_names<
    N: Numbers + Send + Sync,
    B: Queued + Send + Sync,
    R: Threads + Wait + Sync + Send + Copy,
>(
    rt: R,
    alloc: Global,
    channel: Arc<Channel<N>, Global>,
    sender: QueuePass,
    receiver: QueuePass,
) -> Result<u64, Fault>
    requires first { N.first_number ≡ 1 }
    requires queue { (arc_value channel).queue ≡ B.queue }
    requires sender { IsSegPassOf B.queue sender × (sender.me.view.client ≡ ends true false [] []) }
    requires receiver { IsSegPassOf B.queue receiver × (receiver.me.view.client ≡ ends false true [] []) }
{
    let tail = QueueTail::<N, B, R>::new(rt, alloc, Arc::try_clone(&channel)?, sender, Lsn(1));
    let channel: &Channel<N> = &channel;
    let (sent, in_turn) = join(
        &rt,
        move ||
            requires { (tail ≡ []) × (N.first_number ≡ 1) }
        {
            let mut tail = tail;
            send_all(&mut tail)
        },
        move ||
            requires { IsSegPassOf channel.now.queue receiver × (receiver.me.view.client ≡ ends false true [] []) }
        { receive_all(&rt, alloc, channel, receiver) },
    );
    sent?;
    in_turn
}

#[test]
fn what_is_sent_is_received_in_turn(rt: HostRuntime) -> Result<(), Fail> {
    match with_numbers::<Brand, _>(rt, rt.alloc()) {
        Ok(in_turn) => assert_eq!(rt; in_turn, RECORDS),
        Err(fault) => return Err(Fail::new(format_args!("{fault}"))),
    }
    Ok(())
}
