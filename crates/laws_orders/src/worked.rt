//! The order of turns, tried by hand. Each law is the contract of an empty function.
ghost use Rattle.std.specs.Prelude.{◌≡◌, ◌≢◌, ◌∷◌, ℕ, List, [], Some};
ghost use Rattle.std.specs.FinMap.{get};
ghost use Rattle.shore_types.specs.declared.ids.Rid.{Rid};
ghost use Rattle.shore_model.specs.declared.histories.Decision.TheVariants.{Commit, Prepare};
ghost use Rattle.shore_model.specs.declared.histories.Entry.{Entry};
ghost use Rattle.shore_model.specs.Histories.{Sound, decisions};
ghost use Rattle.shore_model.specs.Records.{Records};
ghost use Rattle.laws_lives.specs.Sessions.{Sessions};
ghost use Rattle.laws_lives.specs.Soundness.{RunsTo, history_from, opening_with};
ghost use Rattle.laws_lives.specs.WorkedRun.{just_opened};
ghost use Rattle.laws_orders.specs.InTurns.{IsInOrder, LeavesTheSame, SoundInOrder};
ghost use Rattle.laws_orders.specs.WorkedTurns.{commits_between, lost_update, read_though_undone, read_too_late, read_too_soon, written_over};

/// A transaction may commit between the prepare of another and its commit, beside its locks: a run of events that come, and its history is in order.
pub fn transactions_commit_between()
    ensures { (o : Records) (a b : Rid) (x y z global : List ℕ) (ticket : ℕ) → a ≢ b → get o a ≡ Some x → get o b ≡ Some y →
        (last : Sessions) × (made : List Entry) × RunsTo (just_opened 2042 o) (commits_between o a b x z global ticket) [] last made
        × (decisions made ≡ Prepare 2 global ∷ Commit 1 ∷ Commit 2 ∷ []) × IsInOrder (history_from (opening_with 2042 o) made) }
{}

/// A history in which the update of one is lost, who has read what another had prepared over, is sound by itself; but no order of turns explains it.
pub fn lost_updates_are_not_in_order()
    ensures sound { (o : Records) (a : Rid) (x z v : List ℕ) → get o a ≡ Some x → Sound (history_from (opening_with 2042 o) (lost_update a x z v)) }
    ensures not { (o : Records) (a : Rid) (x z v : List ℕ) → get o a ≡ Some x → x ≢ z → SoundInOrder (history_from (opening_with 2042 o) (lost_update a x z v)) → ⊥ }
{}

/// Nor are these in order: one who reads what is prepared and may be rolled back; one who reads what was there before a commit; one who reads what was rolled back. And where write sets
/// lie over each other, all may be answered right in the order of turns, and yet this does not leave what the order of commits leaves.
pub fn wrong_orders_do_not_come()
    ensures too_soon { (o : Records) (a : Rid) (x z : List ℕ) → get o a ≡ Some x → x ≢ z → SoundInOrder (history_from (opening_with 2042 o) (read_too_soon a z)) → ⊥ }
    ensures too_late { (o : Records) (a : Rid) (x z : List ℕ) → get o a ≡ Some x → x ≢ z → SoundInOrder (history_from (opening_with 2042 o) (read_too_late a x z)) → ⊥ }
    ensures undone { (o : Records) (a : Rid) (x z : List ℕ) → get o a ≡ Some x → x ≢ z → SoundInOrder (history_from (opening_with 2042 o) (read_though_undone a z)) → ⊥ }
    ensures written_over { (o : Records) (a : Rid) (x z v : List ℕ) → get o a ≡ Some x → z ≢ v →
        SoundInOrder (history_from (opening_with 2042 o) (written_over a z v)) × (LeavesTheSame (history_from (opening_with 2042 o) (written_over a z v)) → ⊥) }
{}
