//! Prepared transactions between their records and their answers, which no script shows: a line of one forces the log before the next.
use super::devices::{Manager, NO_FUSES, cut_off};
use super::lives::{Pair, formatted};
use super::trouble::{Trouble, require};
use shore_model::{Answer, Call, Outcome};
use shore_types::{GlobalId, Sequence, SessionId, StoreId};
use shore_world::{Event, Step, Wait};
use std::alloc::{AllocError, Global};
use std::test::Fail;

/// What a session does; a global id has one byte.
#[derive(Clone, Copy)]
enum Doing {
    Begin,
    /// Into the store of this number.
    Insert(u32),
    Prepare(u8),
    Resolve(u8, Outcome),
    InDoubt,
    Lock,
    Resume,
    /// All that waits is forced, by both steps.
    Force,
}

/// What it comes to.
#[derive(Clone, Copy)]
enum Wanted {
    Done,
    /// It waits for the record of this number.
    Waits(u64),
    /// So many are in doubt.
    InDoubt(usize),
    /// It is refused by the fault of this number.
    Fault(u8),
    /// It waits for a lock.
    Blocked,
}

type Row = (u32, Doing, Wanted);

/// A prepare that is not answered: its id is in use, and it is in doubt, but nobody can resolve it yet.
const A_PREPARE_TO_ANSWER: [Row; 19] = [
    (1, Doing::Begin, Wanted::Done),
    (1, Doing::Insert(0), Wanted::Done),
    (2, Doing::Begin, Wanted::Done),
    (1, Doing::Prepare(7), Wanted::Waits(2)),
    (1, Doing::Begin, Wanted::Fault(14)),
    (1, Doing::Resolve(7, Outcome::Commit), Wanted::Fault(14)),
    (1, Doing::InDoubt, Wanted::Fault(14)),
    (3, Doing::InDoubt, Wanted::InDoubt(1)),
    (3, Doing::Resolve(7, Outcome::Commit), Wanted::Fault(20)),
    (3, Doing::Resolve(7, Outcome::Abort), Wanted::Fault(20)),
    (2, Doing::Prepare(7), Wanted::Fault(19)),
    (2, Doing::Resolve(7, Outcome::Abort), Wanted::Fault(2)),
    (1, Doing::Resume, Wanted::Waits(2)),
    (1, Doing::Force, Wanted::Done),
    // It is durable, and still not answered.
    (3, Doing::Resolve(7, Outcome::Commit), Wanted::Fault(20)),
    (1, Doing::Resume, Wanted::Done),
    (1, Doing::Begin, Wanted::Fault(2)),
    (1, Doing::Insert(0), Wanted::Fault(17)),
    (1, Doing::Resolve(7, Outcome::Commit), Wanted::Waits(3)),
];

/// A resolve to commit that is not answered: its transaction has let its locks go and is in doubt no more, its own session is free, and its id is in use.
const A_COMMIT_TO_ANSWER: [Row; 19] = [
    (1, Doing::Begin, Wanted::Done),
    (1, Doing::Insert(0), Wanted::Done),
    (1, Doing::Prepare(7), Wanted::Waits(2)),
    (1, Doing::Force, Wanted::Done),
    (1, Doing::Resume, Wanted::Done),
    (2, Doing::Begin, Wanted::Done),
    (2, Doing::Lock, Wanted::Blocked),
    (3, Doing::Resolve(7, Outcome::Commit), Wanted::Waits(3)),
    (2, Doing::Resume, Wanted::Done),
    (4, Doing::InDoubt, Wanted::InDoubt(0)),
    (3, Doing::Begin, Wanted::Fault(14)),
    (1, Doing::Begin, Wanted::Done),
    (1, Doing::Prepare(7), Wanted::Fault(19)),
    (4, Doing::Resolve(7, Outcome::Commit), Wanted::Fault(20)),
    (3, Doing::Resume, Wanted::Waits(3)),
    (1, Doing::Force, Wanted::Done),
    (1, Doing::Prepare(7), Wanted::Fault(19)),
    (3, Doing::Resume, Wanted::Done),
    (1, Doing::Prepare(7), Wanted::Waits(4)),
];

/// A resolve to abort that is not answered: the changes are put back and the locks are gone in its first step; its decision has number 3, and its End 5.
const AN_ABORT_TO_ANSWER: [Row; 17] = [
    (1, Doing::Begin, Wanted::Done),
    (1, Doing::Insert(0), Wanted::Done),
    (1, Doing::Prepare(7), Wanted::Waits(2)),
    (1, Doing::Force, Wanted::Done),
    (1, Doing::Resume, Wanted::Done),
    (2, Doing::Begin, Wanted::Done),
    (2, Doing::Lock, Wanted::Blocked),
    (1, Doing::Resolve(7, Outcome::Abort), Wanted::Waits(3)),
    (2, Doing::Resume, Wanted::Done),
    (4, Doing::InDoubt, Wanted::InDoubt(0)),
    (4, Doing::Resolve(7, Outcome::Abort), Wanted::Fault(20)),
    (2, Doing::Prepare(7), Wanted::Fault(19)),
    (1, Doing::Begin, Wanted::Fault(14)),
    (1, Doing::Force, Wanted::Done),
    (1, Doing::Resume, Wanted::Done),
    (1, Doing::Begin, Wanted::Done),
    (2, Doing::Prepare(7), Wanted::Waits(6)),
];

/// A resolve to abort that needs a force in its midst: its changes are on nine pages, and there are eight frames. It is decided by then, so a resolve to commit must abort, and the session that
/// prepared is free; its id is in use, and it is in doubt no more. It goes on as it is called again, and is answered at once, for the decision is durable.
const A_ROLLBACK_TO_GO_ON: [Row; 26] = [
    (1, Doing::Begin, Wanted::Done),
    (1, Doing::Insert(1), Wanted::Done),
    (1, Doing::Insert(2), Wanted::Done),
    (1, Doing::Insert(3), Wanted::Done),
    (1, Doing::Insert(4), Wanted::Done),
    (1, Doing::Insert(5), Wanted::Done),
    (1, Doing::Insert(6), Wanted::Done),
    (1, Doing::Insert(7), Wanted::Done),
    (1, Doing::Insert(8), Wanted::Done),
    (1, Doing::Force, Wanted::Done),
    (1, Doing::Insert(0), Wanted::Done),
    (1, Doing::Prepare(7), Wanted::Waits(10)),
    (1, Doing::Force, Wanted::Done),
    (1, Doing::Resume, Wanted::Done),
    (2, Doing::Resolve(7, Outcome::Abort), Wanted::Fault(22)),
    (2, Doing::Resolve(7, Outcome::Commit), Wanted::Fault(13)),
    (4, Doing::InDoubt, Wanted::InDoubt(0)),
    (3, Doing::Begin, Wanted::Done),
    (3, Doing::Prepare(7), Wanted::Fault(19)),
    (3, Doing::Resolve(7, Outcome::Abort), Wanted::Fault(2)),
    (1, Doing::Begin, Wanted::Done),
    (2, Doing::Force, Wanted::Done),
    (2, Doing::Resolve(7, Outcome::Abort), Wanted::Done),
    (2, Doing::Resolve(7, Outcome::Abort), Wanted::Fault(20)),
    (3, Doing::Prepare(7), Wanted::Waits(22)),
    (1, Doing::Prepare(7), Wanted::Fault(19)),
];

#[test]
fn prepares_and_resolves_before_their_answers(rt: HostRuntime) -> Result<(), Fail> {
    for rows in [
        A_PREPARE_TO_ANSWER.as_slice(),
        A_COMMIT_TO_ANSWER.as_slice(),
        AN_ABORT_TO_ANSWER.as_slice(),
        A_ROLLBACK_TO_GO_ON.as_slice(),
    ] {
        if let Err(Trouble(what)) = play(rt.alloc(), rows) {
            return Err(Fail::new(format_args!("{what}")));
        }
    }
    Ok(())
}

// Plays a run on a new pair.
fn play(alloc: Global, rows: &[Row]) -> Result<(), Trouble> {
    let Pair { devices, .. } = formatted(alloc)?;
    let mut world = devices.open(alloc)?;
    let played = play_on(alloc, &mut world, rows);
    let (_devices, _calls) = cut_off(world, NO_FUSES);
    played
}

fn play_on(alloc: Global, world: &mut Manager, rows: &[Row]) -> Result<(), Trouble> {
    for row in rows {
        let (session, doing, wanted) = *row;
        let step = step_of(alloc, world, SessionId(session), doing)?;
        require(is_wanted(&step, wanted), "a step comes to something else")?;
    }
    Ok(())
}

fn step_of(
    alloc: Global,
    world: &mut Manager,
    session: SessionId,
    doing: Doing,
) -> Result<Step, AllocError> {
    let call = match doing {
        Doing::Begin => Call::Begin,
        Doing::Insert(store) => Call::Insert(StoreId(store), byte(alloc, 0xaa)?),
        Doing::Prepare(name) => Call::Prepare(byte(alloc, name)?),
        Doing::Resolve(name, outcome) => Call::Resolve(byte(alloc, name)?, outcome),
        Doing::InDoubt => Call::InDoubt,
        Doing::Lock => Call::Scan(StoreId(0)),
        Doing::Resume => return Ok(world.step(alloc, Event::Resume(session))),
        Doing::Force => {
            let _staged = world.step(alloc, Event::ForceStage);
            return Ok(world.step(alloc, Event::ForceOpen));
        }
    };
    Ok(world.step(alloc, Event::Call(session, call)))
}

fn byte(alloc: Global, byte: u8) -> Result<GlobalId, AllocError> {
    Ok(Sequence::from_vec(Vec::from_slice(alloc, &[byte])?))
}

fn is_wanted(step: &Step, wanted: Wanted) -> bool {
    match (step, wanted) {
        (Step::Done(Answer::AreInDoubt(found)), Wanted::InDoubt(count)) => {
            found.as_slice().len() == count
        }
        (Step::Done(_), Wanted::Done) => true,
        (Step::Waits(Wait::Durable(number)), Wanted::Waits(wanted)) => number.0 == wanted,
        (Step::Waits(Wait::Lock(_)), Wanted::Blocked) => true,
        (Step::Refused(fault), Wanted::Fault(number)) => fault.number() == number,
        _ => false,
    }
}
