//! What both ends of the queue say at one moment: the rule holds between any two steps of any threads, so the views that passes have at the same time are of one state of the queue.
ghost use Rattle.std.specs.Prelude.{◌≡◌, ◌++◌, ℕ, List, true};
ghost use mathlib.Core.Option.{some};
ghost use lib.ListN.{get_elem?};
ghost use Rattle.shore_log.specs.declared.tail.PlainTail.{PlainTail};
ghost use Rattle.shore_model.specs.declared.log_records.LogRecord.{LogRecord};
ghost use Rattle.shore_queue.specs.Queues.{Relays};
ghost use Rattle.shore_queue.specs.declared.queue.Ends.{Ends};

/// At any moment what was received is a prefix of what was sent by then. Each end is in a thread of its own, or under a lock of its own: nobody has to hold both for that.
pub fn ends_agree_at_each_moment()
    ensures { (first : ℕ) (items : List PlainTail) (views : List Ends) (sender receiver : ℕ) (v w : Ends) → Relays first items views → get_elem? views sender ≡ some v →
        get_elem? views receiver ≡ some w → v.sends ≡ true → w.receives ≡ true → (rest : List LogRecord) × (v.sent ≡ w.got ++ rest) }
{}
