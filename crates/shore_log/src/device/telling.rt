//! What a log buffer is told of the room at the log device, so that it brings what is lacking.
ghost use Rattle.std.specs.Prelude.{◌≡◌, []};

use super::LogDev;
use crate::PlainTail;
use crate::tail::Known;
use shore_disk::Disk;

impl<D: Disk> LogDev<D> {
    ghost use Rattle.shore_log.specs.PlainTails.{first_of, told_in, waiting_in};
    ghost use Rattle.shore_log.specs.Settled.{IsSpelled, KnowsRoom};
    ghost use Rattle.shore_log.specs.Told.{aside_for};

    /// Tells a log buffer what there is room for, of which nothing is kept aside; nothing as long as a record waits there, or here one that `take` took.
    pub fn tell_room(&self, tail: &mut PlainTail)
        ensures knows { waiting_in tail.old ≡ [] → IsSpelled self.now → KnowsRoom self.now (told_in tail.new) }
        ensures aside { waiting_in tail.old ≡ [] → IsSpelled self.now → (told_in tail.new).aside ≡ aside_for 0 0 }
        ensures same { (first_of tail.new ≡ first_of tail.old) × (waiting_in tail.new ≡ waiting_in tail.old) }
    {
        if !tail.is_empty() || !self.is_spelled() {
            return;
        }
        let entries = Known {
            held: self.frames.len() + (self.count - self.forced),
            room: self.frames.capacity(),
        };
        let texts = Known {
            held: self.bytes.len(),
            room: self.bytes.capacity(),
        };
        tail.learn(entries, texts);
    }

    /// Tells a log buffer how little is held after a force.
    pub fn tell_left(&self, tail: &mut PlainTail)
        ensures knows { KnowsRoom self.now (told_in tail.old) → KnowsRoom self.now (told_in tail.new) }
        ensures aside { (told_in tail.new).aside ≡ (told_in tail.old).aside }
        ensures same { (first_of tail.new ≡ first_of tail.old) × (waiting_in tail.new ≡ waiting_in tail.old) }
    {
        let waiting = self.count - self.forced;
        tail.hold_no_more(self.frames.len() + waiting, self.bytes.len());
    }
}
