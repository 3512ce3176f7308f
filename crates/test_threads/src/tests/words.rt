//! What threads learn of each other by the words.
ghost use Rattle.std.specs.Prelude.{◌≡◌, true};
ghost use Rattle.shore_words.specs.Words.{IsOf};

use shore_words::{WakeWords, WordSeat, Words};
use std::alloc::{AllocError, Global};
use std::sync::Wait;
use std::test::Fail;
use std::thread::{Threads, join};

const ROUNDS: u64 = 1_000;

#[test]
fn what_is_told_is_seen(rt: HostRuntime) -> Result<(), Fail> {
    let (words, mut teller) = Words::new(rt.alloc(), 3, 0, 1)?;
    let mut reader = words.reader(&mut teller);
    assert_eq!(rt; words.seen(&mut reader), 3);
    words.tell(&mut teller, 3);
    words.tell(&mut teller, 7);
    let mut another = words.reader(&mut reader);
    assert_eq!(rt; words.seen(&mut another), 7);
    assert_eq!(rt; words.seen(&mut reader), 7);
    assert!(rt; !words.stopping(&mut teller));
    words.ask_stop(&mut another);
    assert!(rt; words.stopping(&mut teller));
    assert!(rt; words.stopping(&mut reader));
    Ok(())
}

#[test]
fn a_failure_is_found_once_it_was_told(rt: HostRuntime) -> Result<(), Fail> {
    let (words, mut teller) = Words::new(rt.alloc(), 3, 0, 1)?;
    let mut reader = words.reader(&mut teller);
    assert!(rt; !words.has_failed(&mut reader));
    words.tell_failure(&mut teller);
    assert!(rt; words.has_failed(&mut reader));
    assert!(rt; !words.stopping(&mut reader));
    Ok(())
}

// Sleeps until the number is seen.
fn wait_for<R: Wait>(
    rt: &R,
    words: &Words,
    sleepers: &WakeWords,
    seat: &mut WordSeat,
    sleeper: u32,
    number: u64,
)
    requires { IsOf words.now.table.shared.table_id seat.old }
    ensures { seat.new.table_id ≡ seat.old.table_id }
{
    for _ in rt.forever() {
        let glanced = sleepers.glance(sleeper);
        if words.seen(seat) >= number {
            return;
        }
        sleepers.sleep(rt, sleeper, glanced);
    }
}

// Tells each number in turn, wakes the other end, and sleeps until that has told it too.
fn play<R: Wait>(
    rt: &R,
    sleepers: &WakeWords,
    mine: &Words,
    theirs: &Words,
    mut teller: WordSeat,
    mut reader: WordSeat,
    ends: [u32; 2],
) -> u64
    requires mine { IsOf mine.now.table.shared.table_id teller × (teller.me.0.tells ≡ true) × (teller.me.0.told ≡ 0) }
    requires theirs { IsOf theirs.now.table.shared.table_id reader }
{
    let [me, other] = ends;
    for round in 0..ROUNDS {
        mine.tell(&mut teller, round + 1);
        sleepers.wake(other);
        wait_for(rt, theirs, sleepers, &mut reader, me, round + 1);
    }
    theirs.seen(&mut reader)
}

fn game<R: Threads + Wait + Sync>(rt: &R, alloc: Global) -> Result<(u64, u64), AllocError> {
    let (first, mut one) = Words::new(alloc, 0, 0, 1)?;
    let (second, mut two) = Words::new(alloc, 0, 0, 1)?;
    let sees_two = second.reader(&mut two);
    let sees_one = first.reader(&mut one);
    let sleepers = WakeWords::new(alloc, 2)?;
    let (first, second, sleepers) = (&first, &second, &sleepers);
    Ok(join(
        rt,
        move ||
            requires mine { IsOf first.now.table.shared.table_id one × (one.me.0.tells ≡ true) × (one.me.0.told ≡ 0) }
            requires theirs { IsOf second.now.table.shared.table_id sees_two }
        { play(rt, sleepers, first, second, one, sees_two, [0, 1]) },
        move ||
            requires mine { IsOf second.now.table.shared.table_id two × (two.me.0.tells ≡ true) × (two.me.0.told ≡ 0) }
            requires theirs { IsOf first.now.table.shared.table_id sees_one }
        { play(rt, sleepers, second, first, two, sees_one, [1, 0]) },
    ))
}

#[test]
fn no_wake_is_lost(rt: HostRuntime) -> Result<(), Fail> {
    let ends = game(&rt, rt.alloc())?;
    assert_eq!(rt; ends, (ROUNDS, ROUNDS));
    Ok(())
}
