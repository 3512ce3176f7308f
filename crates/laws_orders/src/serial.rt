//! What follows from the order of turns, for any history. Each law is the contract of an empty function.
ghost use Rattle.std.specs.Prelude.{ℕ, Bool, false, take, true};
ghost use Rattle.shore_model.specs.Histories.{History, Sound, decisions, serial, shown, writes_in};
ghost use Rattle.laws_orders.specs.InTurns.{IsInOrder, RunInTurns, shown_with};

/// Where the order of turns is a serial order of a history, its transactions may have run alone, one after another in the order of their turns, each with the answers that it had. So it is of any first
/// decisions, as a crash may keep them. The committed ones leave the serial records; with those in doubt at their turns as well it is what is shown; and so it is for any of those in doubt.
pub fn transactions_run_one_by_one()
    ensures committed { (h : History) (n : ℕ) → IsInOrder h → RunInTurns h (λ t. false) (take n (decisions h.entries)) (serial (writes_in h) h.opening.records (take n (decisions h.entries))) }
    ensures shown { (h : History) (n : ℕ) → IsInOrder h → RunInTurns h (λ t. true) (take n (decisions h.entries)) (shown h (take n (decisions h.entries))) }
    ensures any { (h : History) (n : ℕ) (chosen : ℕ → Bool) → IsInOrder h → RunInTurns h chosen (take n (decisions h.entries)) (shown_with h chosen (take n (decisions h.entries))) }
{}

/// Such a history is sound.
pub fn histories_in_order_are_sound()
    ensures { (h : History) → IsInOrder h → Sound h }
{}
