//! Calls of the manager whose answers are taken apart. Each is refused only if the call was: an answer of another kind is `Damaged`, and never comes where the transaction may commit.
ghost use Rattle.std.specs.Prelude.{◌≡◌, ◌≢◌, IfErr, IfOk};
ghost use Rattle.shore_types.specs.declared.ids.Rid.{Rid};
ghost use Rattle.shore_model.specs.declared.calls.Answer.TheVariants as Answer;
ghost use Rattle.shore_keys.specs.Exchanges.{GoesOn};
ghost use Rattle.shore_keys.specs.Calls.{Deletes, Gets, Inserts, Tries, Updates};

use crate::caller::Caller;
use crate::refusals::Refusal;
use shore_model::{Answer, Call};
use shore_types::{Bytes, Granule, Mode, Rid, StoreId};

/// The record.
pub fn got<C: Caller>(client: &mut C, id: &Rid) -> Result<Bytes, Refusal>
    ensures { GoesOn (Gets id.now result) (C.trail client.old) (C.trail client.new) }
{
    match client.call(Call::Get(*id)) {
        Ok(Answer::Got(bytes)) => Ok(bytes),
        Ok(_) => Err(Refusal::Damaged),
        Err(fault) => Err(Refusal::Call(fault)),
    }
}

// The id that an insert was answered.
fn id_in(answer: &Answer) -> Result<Rid, Refusal>
    ensures ok { IfOk result (λ id. answer.now ≡ Answer.Inserted id) }
    ensures err { IfErr result (λ _. (id : Rid) → answer.now ≢ Answer.Inserted id) }
{
    match answer {
        Answer::Inserted(id) => Ok(*id),
        _ => Err(Refusal::Damaged),
    }
}

/// A record more, and where it is.
pub fn inserted<C: Caller>(client: &mut C, store: StoreId, text: Bytes) -> Result<Rid, Refusal>
    ensures { GoesOn (Inserts store text result) (C.trail client.old) (C.trail client.new) }
{
    match client.call(Call::Insert(store, text)) {
        Ok(answer) => id_in(&answer),
        Err(fault) => Err(Refusal::Call(fault)),
    }
}

/// The record is this from now on.
pub fn updated<C: Caller>(client: &mut C, id: &Rid, text: Bytes) -> Result<(), Refusal>
    ensures { GoesOn (Updates id.now text result) (C.trail client.old) (C.trail client.new) }
{
    match client.call(Call::Update(*id, text)) {
        Ok(Answer::Updated) => Ok(()),
        Ok(_) => Err(Refusal::Damaged),
        Err(fault) => Err(Refusal::Call(fault)),
    }
}

/// The record is gone.
pub fn deleted<C: Caller>(client: &mut C, id: &Rid) -> Result<(), Refusal>
    ensures { GoesOn (Deletes id.now result) (C.trail client.old) (C.trail client.new) }
{
    match client.call(Call::Delete(*id)) {
        Ok(Answer::Deleted) => Ok(()),
        Ok(_) => Err(Refusal::Damaged),
        Err(fault) => Err(Refusal::Call(fault)),
    }
}

/// Whether the record is locked in EX, for which it does not wait.
pub fn tried<C: Caller>(client: &mut C, id: &Rid) -> bool
    ensures { GoesOn Tries (C.trail client.old) (C.trail client.new) }
{
    match client.call(Call::TryLock(Granule::Record(*id), Mode::EX)) {
        Ok(_) => true,
        Err(_) => false,
    }
}
