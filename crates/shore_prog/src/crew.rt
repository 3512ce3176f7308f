//! What each of the threads does that count a record up.
ghost use Rattle.std.specs.Prelude.{◌≡◌, ◌≢◌, ◌≤◌, ◌<◌, ◌^◌, ◌++◌, ◌∷◌, [], IfOk, List, MatchOption, OnErr, Result, length};
ghost use Rattle.std.specs.Int.{to_le_bytes, w64};
ghost use Rattle.shore_types.specs.declared.faults.Fault.{Fault};
ghost use Rattle.shore_model.specs.declared.calls.Answer.{Answer};
ghost use Rattle.shore_model.specs.declared.calls.Call.TheVariants as Call;
ghost use Rattle.shore_model.specs.declared.calls.Exchange.{Exchange};
ghost use Rattle.shore_prog.specs.Counted.{AreCounted, CountsUp};

use shore_model::{Answer, Call};
use shore_script::Counting;
use shore_shared::{Client, Job};
use shore_types::{Bytes, Fault, Rid, Sequence};
use std::alloc::Global;

/// A thread's transactions. One whose call is refused is rolled back, and is the last.
#[derive(Drop)]
pub struct CountUp {
    /// The record, and how many transactions each thread makes.
    pub counting: Counting,
}

impl Job for CountUp {
    type Done = ();

    ghost use Rattle.shore_prog.specs.Served.{Claimed};

    ghost says = { Claimed };

    fn work<C: Client>(&self, alloc: Global, _number: usize, client: &mut C) -> Result<(), Fault> {
        add_all(alloc, client, &self.counting)
    }
}

fn add_all<C: Client>(alloc: Global, client: &mut C, counting: &Counting) -> Result<(), Fault>
    requires { C.told client.old ≡ [] }
    ensures counted { IfOk result (λ _. AreCounted (C.known client.new).durable counting.now.record counting.now.rounds (C.told client.new)) }
    ensures ended { OnErr result ((before : List Exchange) × (reply : Result Answer Fault) × (C.told client.new ≡ before ++ record { call = Call.Abort; reply = reply } ∷ [])) }
{
    for _ in 0..counting.rounds {
        if let Err(fault) = add_one(alloc, client, &counting.record) {
            // The fault is told that came first.
            let _ended = client.call(Call::Abort);
            return Err(fault);
        }
    }
    Ok(())
}

// A transaction that adds one to the record. It is answered once it is durable. `NoRecord` if the record has not the bytes of a number, which it has as long as nobody else is there.
fn add_one<C: Client>(alloc: Global, client: &mut C, id: &Rid) -> Result<(), Fault>
    ensures counted { IfOk result (λ _. (es : List Exchange) × (C.told client.new ≡ C.told client.old ++ es) × CountsUp (C.known client.new).durable id.now es) }
    ensures known { (C.known client.old).durable ≤ (C.known client.new).durable }
{
    let Answer::Began(_) = client.call(Call::Begin)? else {
        return Err(Fault::NotQuiet);
    };
    let Answer::Got(bytes) = client.call(Call::GetForUpdate(*id))? else {
        return Err(Fault::NotQuiet);
    };
    let Some(before) = number_in(bytes.as_slice()) else {
        return Err(Fault::NoRecord);
    };
    let after = bytes_of(alloc, before.wrapping_add(1))?;
    let Answer::Updated = client.call(Call::Update(*id, after))? else {
        return Err(Fault::NotQuiet);
    };
    client.commit_durable()?;
    Ok(())
}

fn bytes_of(alloc: Global, number: u64) -> Result<Bytes, Fault>
    ensures { IfOk result (λ bytes. bytes ≡ to_le_bytes w64 number) }
{
    Ok(Sequence::from_vec(Vec::from_slice(alloc, &number.to_le_bytes())?))
}

// None if these are not eight bytes.
fn number_in(bytes: &[u8]) -> Option<u64>
    ensures { MatchOption result (length bytes.now ≢ 8) (λ number. (number < 2 ^ 64) × (bytes.now ≡ to_le_bytes w64 number)) }
{
    match bytes {
        [a, b, c, d, e, f, g, h] => Some(u64::from_le_bytes([*a, *b, *c, *d, *e, *f, *g, *h])),
        _ => None,
    }
}
