//! The works, and what they begin with.
use shore_model::{Answer, Call};
use shore_shared::{Client, Job};
use shore_types::{Bytes, Fault, Rid, Sequence, StoreId};
use std::alloc::Global;

/// A kind of work.
#[derive(Clone, Copy, PartialEq)]
pub enum Work {
    /// Each thread updates a record on a page of its own.
    Pages,
    /// .. a record of its own on the page of all.
    Page,
    /// .. the same record.
    Record,
    /// .. a record on a page of its own, and thinks for half a millisecond before each.
    Think,
    /// .. a record on a page of its own, and each commit is timed alone.
    Latency,
    /// Each thread gets a record of its own.
    Gets,
    /// The threads do nothing; the workers turn for so many seconds.
    Idle,
    /// One thread locks a record, in transactions of their own: the time of that call.
    Lock,
    /// .. updates a record and commits lazily: the time of the commit.
    Commit,
    /// Each thread makes lazy transactions of 500 bytes of log, over a log of 1 megabyte: how many are refused.
    Short,
    /// .. of 4 megabytes.
    Middle,
    /// Each thread makes all its updates in one transaction.
    Updates,
}

/// The work of a name.
pub fn named(name: &str) -> Option<Work> {
    match name {
        "pages" => Some(Work::Pages),
        "page" => Some(Work::Page),
        "record" => Some(Work::Record),
        "think" => Some(Work::Think),
        "latency" => Some(Work::Latency),
        "gets" => Some(Work::Gets),
        "idle" => Some(Work::Idle),
        "lock" => Some(Work::Lock),
        "commit" => Some(Work::Commit),
        "short" => Some(Work::Short),
        "middle" => Some(Work::Middle),
        "updates" => Some(Work::Updates),
        _ => None,
    }
}

/// What is done, by how many threads, how often each.
#[derive(Clone, Copy)]
pub struct Plan {
    pub work: Work,
    pub threads: u16,
    pub rounds: u32,
}

const BYTES: usize = 100;

fn bytes_of(alloc: Global, byte: u8) -> Result<Bytes, Fault> {
    Ok(Sequence::from_vec(Vec::from_elem(alloc, byte, BYTES)?))
}

/// The record of each thread is made.
#[derive(Drop)]
pub struct Fill {
    pub plan: Plan,
}

impl Job for Fill {
    type Done = Vec<Rid>;

    ghost use Rattle.std.specs.Prelude.{⊤};

    // Nothing is claimed of it.
    ghost says = { λ _ _ _ _ _. ⊤ };

    fn work<C: Client>(
        &self,
        alloc: Global,
        _number: usize,
        client: &mut C,
    ) -> Result<Vec<Rid>, Fault> {
        let mut found = Vec::new(alloc);
        client.call(Call::Begin)?;
        for nth in 0..self.plan.threads {
            let store = match self.plan.work {
                Work::Pages
                | Work::Think
                | Work::Latency
                | Work::Gets
                | Work::Short
                | Work::Middle
                | Work::Updates => nth % 64,
                Work::Page | Work::Record | Work::Idle | Work::Lock | Work::Commit => 0,
            };
            if let Answer::Inserted(rid) = client.call(Call::Insert(
                StoreId(store as u32),
                bytes_of(alloc, 0)?,
            ))? {
                found.push(rid)?;
            }
        }
        client.commit_durable()?;
        Ok(found)
    }
}

/// An update.
pub fn change(alloc: Global, client: &mut impl Client, record: Rid, byte: u8) -> Result<(), Fault> {
    client.call(Call::Update(record, bytes_of(alloc, byte)?))?;
    Ok(())
}

/// A transaction of one update, which is not committed.
pub fn update(alloc: Global, client: &mut impl Client, record: Rid, byte: u8) -> Result<(), Fault> {
    client.call(Call::Begin)?;
    change(alloc, client, record, byte)
}

/// .. of two.
pub fn update_twice(
    alloc: Global,
    client: &mut impl Client,
    record: Rid,
    byte: u8,
) -> Result<(), Fault> {
    update(alloc, client, record, byte)?;
    client.call(Call::Update(record, bytes_of(alloc, 0)?))?;
    Ok(())
}
