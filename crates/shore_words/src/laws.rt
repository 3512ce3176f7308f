//! What the seats of the words say at one moment: the rule holds between any two steps of any threads, so the views that seats have at the same time are of one state of the words.
ghost use Rattle.std.specs.Prelude.{◌≡◌, ◌<◌, ◌≤◌, ℕ, true};
ghost use mathlib.Core.Option.{some};
ghost use lib.ListN.{get_elem?};
ghost use Rattle.atomic_table.specs.Table.{State};
ghost use Rattle.shore_words.specs.Words.{heard_of, AreBy, HasHeard, IsTold};
ghost use Rattle.shore_words.specs.declared.rule.View.{View};

/// At any moment each seat has seen no more than the one that tells has told by then (`seen`), and the one that keeps has the anchor that the one that tells knows (`one`). Each of them is
/// under a lock of its own, or in a thread of its own: nobody has to hold two of them for that. What a seat knows of a session begins what is noted of it by then, and is all of it if it is
/// the session's own (`heard`); nobody else is noted than the sessions made (`by`); and who found that a device has failed found what the one that notes has told by then (`failed`).
pub fn seats_agree_at_each_moment()
    ensures seen { (s : State ℕ View) (teller seat : ℕ) (t v : View) → IsTold s → get_elem? s.views teller ≡ some t → get_elem? s.views seat ≡ some v → t.tells ≡ true → v.seen ≤ t.told }
    ensures one { (s : State ℕ View) (teller keeper : ℕ) (t k : View) → IsTold s → get_elem? s.views teller ≡ some t → get_elem? s.views keeper ≡ some k → t.tells ≡ true → k.keeps ≡ true →
        k.kept ≡ t.anchor }
    ensures heard { (s : State ℕ View) (book ear : ℕ) (b e : View) → IsTold s → get_elem? s.views book ≡ some b → get_elem? s.views ear ≡ some e → b.notes ≡ true →
        HasHeard b.noted e.session e.heard × (e.session ≤ b.made) × (e.listens ≡ true → (heard_of e.session b.noted ≡ e.heard) × (0 < e.session)) }
    ensures by { (s : State ℕ View) (book : ℕ) (b : View) → IsTold s → get_elem? s.views book ≡ some b → b.notes ≡ true → AreBy b.made b.noted }
    ensures failed { (s : State ℕ View) (book seat : ℕ) (b v : View) → IsTold s → get_elem? s.views book ≡ some b → get_elem? s.views seat ≡ some v → b.notes ≡ true → v.failed ≡ true → b.failing ≡ true }
{}
