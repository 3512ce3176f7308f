//! The rounds of a client.
use crate::latencies::Latencies;
use crate::works::{Plan, Work, change, update, update_twice};
use bench_parts::host::Host;
use shore_model::Call;
use shore_shared::{Client, Job};
use shore_types::{Fault, Granule, Mode, Rid};
use std::alloc::Global;
use std::thread;
use std::time::Duration;

// How long a client thinks.
const THINKS_MICROS: u64 = 500;

/// How many rounds a client did, how many of them were refused since the log was full, and when they began and ended, in nanoseconds of the run. Where calls alone are timed, they begin at 0 and end at what these took.
#[derive(Clone, Copy)]
pub struct Span {
    pub done: u64,
    pub refused: u64,
    pub began: u64,
    pub ended: u64,
    pub latencies: Latencies,
}

/// What is done, the records, and the clock.
#[derive(Drop)]
pub struct Rounds<'a> {
    pub plan: Plan,
    pub records: Vec<Rid>,
    pub host: Host<'a>,
}

impl<'a> Job for Rounds<'a> {
    type Done = Span;

    ghost use Rattle.std.specs.Prelude.{⊤};

    // Nothing is claimed of it.
    ghost says = { λ _ _ _ _ _. ⊤ };

    fn work<C: Client>(&self, alloc: Global, number: usize, client: &mut C) -> Result<Span, Fault> {
        let nth = if self.plan.work == Work::Record {
            0
        } else {
            number
        };
        let Some(record) = self.records.get(nth) else {
            return Err(Fault::NoRecord);
        };
        let done = self.plan.rounds as u64;
        let mut refused = 0u64;
        let mut latencies = Latencies::new();
        let (began, ended) = match self.plan.work {
            Work::Lock => (0, self.lock(client, record)?),
            Work::Commit => (0, self.commit(alloc, client, record)?),
            Work::Short | Work::Middle => {
                let began = self.host.nanos();
                for round in 0..self.plan.rounds {
                    refused = refused.saturating_add(self.lazily(alloc, client, record, round)?);
                }
                (began, self.host.nanos())
            }
            Work::Latency => {
                let began = self.host.nanos();
                self.time_commits(alloc, client, record, &mut latencies)?;
                (began, self.host.nanos())
            }
            Work::Idle
            | Work::Gets
            | Work::Pages
            | Work::Page
            | Work::Record
            | Work::Think
            | Work::Updates => {
                let began = self.host.nanos();
                self.go_on(alloc, client, record)?;
                (began, self.host.nanos())
            }
        };
        Ok(Span {
            done,
            refused,
            began,
            ended,
            latencies,
        })
    }
}

impl<'a> Rounds<'a> {
    // The rounds of a work that is timed as a whole.
    fn go_on(&self, alloc: Global, client: &mut impl Client, record: &Rid) -> Result<(), Fault> {
        match self.plan.work {
            Work::Idle => {
                thread::sleep(self.host.rt, Duration::from_secs(self.plan.rounds as u64));
            }
            Work::Gets => {
                client.call(Call::Begin)?;
                for _ in 0..self.plan.rounds {
                    client.call(Call::Get(*record))?;
                }
                client.call(Call::Commit)?;
            }
            Work::Updates => {
                client.call(Call::Begin)?;
                for round in 0..self.plan.rounds {
                    change(alloc, client, *record, (round % 256) as u8)?;
                }
                client.commit_durable()?;
            }
            Work::Think => {
                for round in 0..self.plan.rounds {
                    thread::sleep(self.host.rt, Duration::from_micros(THINKS_MICROS));
                    update(alloc, client, *record, (round % 256) as u8)?;
                    client.commit_durable()?;
                }
            }
            Work::Pages
            | Work::Page
            | Work::Record
            | Work::Latency
            | Work::Lock
            | Work::Commit
            | Work::Short
            | Work::Middle => {
                for round in 0..self.plan.rounds {
                    update(alloc, client, *record, (round % 256) as u8)?;
                    client.commit_durable()?;
                }
            }
        }
        Ok(())
    }

    // Each commit is timed from its call to its answer, which comes once it is durable.
    fn time_commits(
        &self,
        alloc: Global,
        client: &mut impl Client,
        record: &Rid,
        latencies: &mut Latencies,
    ) -> Result<(), Fault> {
        for round in 0..self.plan.rounds {
            update(alloc, client, *record, (round % 256) as u8)?;
            let start = self.host.nanos();
            client.commit_durable()?;
            latencies.note(self.host.nanos_since(start));
        }
        Ok(())
    }

    // A lazy transaction of two updates, begun again until there is room for it. The answer is how often there was none.
    fn lazily(
        &self,
        alloc: Global,
        client: &mut impl Client,
        record: &Rid,
        round: u32,
    ) -> Result<u64, Fault> {
        let mut refused = 0u64;
        for _ in 0..u32::MAX {
            match update_twice(alloc, client, *record, (round % 256) as u8) {
                Ok(()) => break,
                Err(Fault::LogFull) => refused = refused.saturating_add(1),
                Err(fault) => return Err(fault),
            }
            let _rolled_back = client.call(Call::Abort);
        }
        client.call(Call::Commit)?;
        Ok(refused)
    }

    // One call of each round is timed: it has the core's lock for all of it but the taking. These come to the nanoseconds.
    fn lock(&self, client: &mut impl Client, record: &Rid) -> Result<u64, Fault> {
        let mut nanos = 0u64;
        for _ in 0..self.plan.rounds {
            client.call(Call::Begin)?;
            let start = self.host.nanos();
            client.call(Call::Lock(Granule::Record(*record), Mode::EX))?;
            nanos = nanos.saturating_add(self.host.nanos_since(start));
            client.call(Call::Commit)?;
        }
        Ok(nanos)
    }

    fn commit(&self, alloc: Global, client: &mut impl Client, record: &Rid) -> Result<u64, Fault> {
        let mut nanos = 0u64;
        for round in 0..self.plan.rounds {
            update(alloc, client, *record, (round % 256) as u8)?;
            let start = self.host.nanos();
            client.call(Call::Commit)?;
            nanos = nanos.saturating_add(self.host.nanos_since(start));
        }
        // All of them are durable in the end.
        update(alloc, client, *record, 0)?;
        client.commit_durable()?;
        Ok(nanos)
    }
}
