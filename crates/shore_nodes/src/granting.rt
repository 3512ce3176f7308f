//! The waiters of a queue, granted in one walk over its nodes for each of their groups.
ghost use Rattle.std.specs.Prelude.{◌≡◌, ◌<◌, ◌&&◌, ℕ, List, MatchOption, Some, false, length, true};
ghost use Rattle.slab.specs.Slab.{get};
ghost use Rattle.shore_types.specs.Locking.{same_granule};
ghost use Rattle.shore_model.specs.declared.requests.Group.TheVariants.{Conversions};
ghost use Rattle.shore_model.specs.declared.requests.Request.{Request};
ghost use Rattle.shore_model.specs.Requests.{is_in_group};
ghost use Rattle.shore_rings.specs.declared.ring.Link.{Link};
ghost use Rattle.shore_nodes.specs.Grants.{passed};
ghost use Rattle.shore_nodes.specs.LetThrough.{TellsFirst};
ghost use Rattle.shore_nodes.specs.Nodes.{IsLinked, requests_in};
ghost use Rattle.shore_nodes.specs.Granting.{CanWalk, IsWalked, new_waiters};

use crate::judgements::{granted, is_at, is_in};
use crate::let_through::LetThrough;
use crate::nodes::set_slot;
use crate::tallies::Tally;
use shore_model::Request;
use shore_model::requests::Group;
use shore_rings::Rings;
use shore_types::Granule;
use slab::Slab;

/// Grants the waiters of a granule in the order of its ring, conversions first, up to the first whom another holder refuses. The tally
/// counts the queue. Who was granted is noted.
pub fn grant_waiters(
    slots: &mut Slab<Request>,
    queues: &Rings,
    heads: usize,
    head: usize,
    granule: &Granule,
    counted: Tally,
    let_through: &mut LetThrough,
)
    requires { head < length queues.now }
    ensures capacity { slots.new.capacity ≡ slots.old.capacity }
    ensures are_linked { (lists owners : List Link) (ks : List ℕ) → CanWalk heads slots.old queues.now lists owners head granule.now Conversions (new_waiters granule.now (requests_in slots.old ks)) counted ks →
        IsLinked heads slots.new queues.now lists owners ks }
    ensures granted { (lists owners : List Link) (ks : List ℕ) → CanWalk heads slots.old queues.now lists owners head granule.now Conversions (new_waiters granule.now (requests_in slots.old ks)) counted ks →
        requests_in slots.new ks ≡ passed granule.now (requests_in slots.old ks) }
    ensures told { (lists owners : List Link) (ks : List ℕ) → CanWalk heads slots.old queues.now lists owners head granule.now Conversions (new_waiters granule.now (requests_in slots.old ks)) counted ks →
        TellsFirst granule.now (requests_in slots.old ks) (requests_in slots.new ks) let_through.old let_through.new }
{
    let mut tally = counted;
    if grant_group(
        slots,
        queues,
        heads,
        head,
        granule,
        Group::Conversions,
        &mut tally,
        let_through,
    ) {
        grant_group(
            slots,
            queues,
            heads,
            head,
            granule,
            Group::NewWaiters,
            &mut tally,
            let_through,
        );
    }
}

// Grants the waiters of one group, and answers whether none of them was refused. Each is judged by the counts without its own hold.
fn grant_group(
    slots: &mut Slab<Request>,
    queues: &Rings,
    heads: usize,
    head: usize,
    granule: &Granule,
    group: Group,
    tally: &mut Tally,
    let_through: &mut LetThrough,
) -> bool
    requires { head < length queues.now }
    ensures capacity { slots.new.capacity ≡ slots.old.capacity }
    ensures walked { (lists owners : List Link) (ks : List ℕ) (behind : List Request) → CanWalk heads slots.old queues.now lists owners head granule.now group behind tally.old ks →
        IsWalked heads slots.old slots.new queues.now lists owners granule.now behind tally.new result ks }
    ensures told { (lists owners : List Link) (ks : List ℕ) (behind : List Request) → CanWalk heads slots.old queues.now lists owners head granule.now group behind tally.old ks →
        TellsFirst granule.now (requests_in slots.old ks) (requests_in slots.new ks) let_through.old let_through.new }
{
    if !tally.may_have(group) {
        return true;
    }
    let mut node = queues.after(head);
    let mut left = slots.len();
    while left > 0 && node != head {
        let key = node.saturating_sub(heads);
        if let Some(waiter) = waiter_at(slots, key, granule, group) {
            tally.take_out(&waiter);
            if !tally.allow(waiter.wanted) {
                return false;
            }
            let granted = granted(&waiter);
            set_slot(slots, key, &granted);
            tally.add(&granted);
            let_through.note(granted.txn);
        }
        node = queues.after(node);
        left -= 1;
    }
    true
}

// The request at a key, if it is of a group and for the granule.
fn waiter_at(slots: &Slab<Request>, key: usize, granule: &Granule, group: Group) -> Option<Request>
    ensures { MatchOption result
        ((r : Request) → get slots.now key ≡ Some r → (same_granule r.granule granule.now && is_in_group group r) ≡ false)
        (λ r. (get slots.now key ≡ Some r) × ((same_granule r.granule granule.now && is_in_group group r) ≡ true)) }
{
    let request = slots.get(key)?;
    if is_at(request, granule) && is_in(request, group) {
        Some(*request)
    } else {
        None
    }
}
