//! Every answer that a session got is the one that the trail has for that call: the tape beside the trail has a number for each.
ghost use Rattle.shore_model.specs.Calls.{IsServed};

use super::life::{Lived, live};
use shore_model::{Answer, Call};
use shore_shared::{Client, Job, Open, Taped, sum_of_answer, sum_of_fault};
use shore_types::{Bytes, Fault, PageId, Rid, Sequence, StoreId};
use std::alloc::Global;
use std::sync::Wait;
use std::test::Fail;
use std::thread::Threads;
use std::time::Clock;

const WRITERS: u32 = 4;

const ROUNDS: u16 = 50;

// The first makes two records. Then they lock both in either order, so some of their calls wait, and some are victims. Each comes to the sums of what it was answered.
#[derive(Drop)]
enum Task {
    Insert,
    Write,
}

impl Job for Task {
    type Done = Vec<u64>;

    ghost use Rattle.std.specs.Prelude.{⊤};

    // Nothing is claimed of it.
    ghost says = { λ _ _ _ _ _. ⊤ };

    fn work<C: Client>(
        &self,
        alloc: Global,
        number: usize,
        client: &mut C,
    ) -> Result<Vec<u64>, Fault> {
        let heard = Vec::new(alloc);
        let mut writer = Writer {
            alloc,
            client,
            heard,
        };
        match self {
            Task::Insert if number == 0 => writer.insert_two()?,
            Task::Insert => {}
            Task::Write => writer.write(number % 2 == 0)?,
        }
        let Writer { heard, .. } = writer;
        Ok(heard)
    }
}

// One of them, and the sums of what it was answered.
#[derive(Drop)]
struct Writer<'c, C: Client> {
    alloc: Global,
    client: &'c mut C,
    heard: Vec<u64>,
}

impl<'c, C: Client> Writer<'c, C> {
    fn ask(&mut self, call: Call) -> Result<Answer, Fault>
        requires { IsServed call }
    {
        let reply = self.client.call(call);
        let sum = match &reply {
            Ok(answer) => sum_of_answer(answer),
            Err(fault) => sum_of_fault(fault),
        };
        self.heard.push(sum)?;
        reply
    }

    fn insert_two(&mut self) -> Result<(), Fault> {
        self.ask(Call::Begin)?;
        for number in 0..2 {
            self.ask(Call::Insert(StoreId(0), bytes_of(self.alloc, number)?))?;
        }
        self.ask(Call::Commit)?;
        Ok(())
    }

    fn write_both(&mut self, slots: [u16; 2], number: u64) -> Result<(), Fault> {
        self.ask(Call::Begin)?;
        for slot in slots {
            self.ask(Call::GetForUpdate(record(slot)))?;
            self.ask(Call::Update(record(slot), bytes_of(self.alloc, number)?))?;
        }
        self.ask(Call::Scan(StoreId(0)))?;
        self.ask(Call::Commit)?;
        Ok(())
    }

    fn write(&mut self, is_even: bool) -> Result<(), Fault> {
        for round in 0..ROUNDS {
            let slots = if (round % 2 == 0) == is_even {
                [0, 1]
            } else {
                [1, 0]
            };
            match self.write_both(slots, u64::from(round)) {
                Ok(()) => {}
                Err(Fault::Deadlock { .. }) => {
                    self.ask(Call::Abort)?;
                }
                Err(fault) => return Err(fault),
            }
        }
        Ok(())
    }
}

// How many answers all of them got, if each is on the tape.
fn all_taped<R: Threads + Wait + Clock + Sync + Send + Copy>(
    rt: R,
    alloc: Global,
) -> Result<usize, Fault> {
    let tasks = [Task::Insert, Task::Write];
    let lived = live(rt, alloc, 1 << 22, WRITERS, &tasks, &Open)?;
    if !lived.tape.stays || !lived.tape.is_cut {
        return Err(Fault::NotQuiet);
    }
    let mut all = 0usize;
    for nth in 0..WRITERS {
        let heard = heard_by(alloc, &lived, nth as usize)?;
        if !are_taped(lived.tape.entries.as_slice(), nth + 1, heard.as_slice()) {
            return Err(Fault::NoTransaction);
        }
        all = all.saturating_add(heard.len());
    }
    Ok(all)
}

// What one of them was answered in its life.
fn heard_by(alloc: Global, lived: &Lived<Vec<u64>>, nth: usize) -> Result<Vec<u64>, Fault> {
    let mut heard = Vec::new(alloc);
    for done in lived.done.iter() {
        if let Some(sums) = done.get(nth) {
            for sum in sums.iter() {
                heard.push(*sum)?;
            }
        }
    }
    Ok(heard)
}

// Whether the session's answers are those on the tape, in this order, and no more.
fn are_taped(tape: &[Taped], session: u32, answers: &[u64]) -> bool {
    let mut at = 0;
    for entry in tape {
        if entry.session.0 == session {
            if let Some(sum) = entry.sum {
                if at >= answers.len() || answers[at] != sum {
                    return false;
                }
                at += 1;
            }
        }
    }
    at == answers.len()
}

fn record(slot: u16) -> Rid {
    Rid {
        page: PageId {
            store: StoreId(0),
            page: 0,
        },
        slot,
    }
}

fn bytes_of(alloc: Global, number: u64) -> Result<Bytes, Fault> {
    Ok(Sequence::from_vec(Vec::from_slice(alloc, &number.to_le_bytes())?))
}

#[test]
fn answers_are_the_trail(rt: HostRuntime) -> Result<(), Fail> {
    match all_taped(rt, rt.alloc()) {
        // Each round has a begin at least, and what ends it.
        Ok(all) if all >= WRITERS as usize * ROUNDS as usize * 2 => Ok(()),
        Ok(all) => Err(Fail::new(format_args!("{all} answers"))),
        Err(fault) => Err(Fail::new(format_args!("{fault}"))),
    }
}
