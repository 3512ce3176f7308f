//! Which frame to look at next when one is needed: a clock's hand goes round and passes over those that were used since it came by.
ghost use Rattle.std.specs.Prelude.{◌≡◌, ◌<◌, ◌+◌, IfOk, IfSome, false, slice_set, true};
ghost use Rattle.shore_pool.specs.Clocks.{around, hand_of, marks_of, place_passed, places_of};

use std::alloc::{AllocError, Global};

/// Places in a circle, each with a mark that it was used, and a hand.
#[derive(Drop)]
pub struct Clock {
    // Whether each place was used since the hand came by.
    used: Vec<bool>,
    // The place to look at next; the first, if it is behind the last.
    hand: usize,
}

impl Clock {
    pub fn new(alloc: Global, places: usize) -> Result<Clock, AllocError>
        ensures { IfOk result (λ clock. places_of clock ≡ places) }
    {
        Ok(Clock {
            used: Vec::from_elem(alloc, false, places)?,
            hand: 0,
        })
    }

    /// Marks a place as used.
    pub fn touch(&mut self, place: usize)
        ensures places { places_of self.new ≡ places_of self.old }
        ensures marks { marks_of self.new ≡ slice_set (marks_of self.old) place true }
        ensures hand { hand_of self.new ≡ hand_of self.old }
    {
        if let Some(used) = self.used.get_mut(place) {
            *used = true;
        }
    }

    /// The place at the hand, which goes on; None if it was used, and its mark is taken away.
    pub fn pass(&mut self) -> Option<usize>
        ensures within { IfSome result (λ place. place < places_of self.old) }
        ensures places { places_of self.new ≡ places_of self.old }
        ensures place { result ≡ place_passed (marks_of self.old) (hand_of self.old) }
        ensures marks { marks_of self.new ≡ slice_set (marks_of self.old) (hand_of self.old) false }
        ensures hand { hand_of self.new ≡ around (places_of self.old) (hand_of self.old + 1) }
    {
        let place = if self.hand < self.used.len() {
            self.hand
        } else {
            0
        };
        if place >= self.used.len() {
            return None;
        }
        self.hand = place + 1;
        let was_used = self.used[place];
        self.used[place] = false;
        if was_used { None } else { Some(place) }
    }
}
