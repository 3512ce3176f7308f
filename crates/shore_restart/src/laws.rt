//! Laws of those in doubt at a restart, each as a function that does nothing.
ghost use Rattle.std.specs.Prelude.{◌≡◌, ◌↔◌, ◌+◌, ◌*◌, ℕ, List, drop, length};
ghost use Rattle.shore_types.specs.declared.layout.Geometry.{Geometry};
ghost use Rattle.shore_model.specs.declared.holds.Hold.{Hold};
ghost use Rattle.shore_model.specs.declared.log_records.LogRecord.{LogRecord};
ghost use Rattle.shore_model.specs.Logs.{Lawful};
ghost use Rattle.shore_analysis.specs.Doubts.{doubts_left};
ghost use Rattle.shore_analysis.specs.KeptMeant.{AreMeantKept};
ghost use Rattle.shore_analysis.specs.Padded.{padded};
ghost use Rattle.shore_restart.specs.Anchors.{EndsBehind};
ghost use Rattle.laws_lives.specs.Doubts.{AreRestored, DoubtsStand, NeedMore, doubts_in};
ghost use Rattle.laws_room.specs.LogRooms.{owed_by_all};
ghost use Rattle.shore_types.specs.declared.layout.TheConstants.{ENDING_COST};
ghost use Rattle.shore_txn.specs.Transactions.{prepared_in, undos_in};
ghost use Rattle.shore_txn.specs.declared.transactions.Transactions.{Transactions};
ghost use Rattle.shore_restart.specs.Doubts.{AreLocksOf, CanHold, CannotHold, IsRefusedBy, IsTaken, prepared_told, reserved_told, undos_told};
ghost use Rattle.shore_restart.specs.GivenBack.{HasDoubts};

/// Those in doubt can all hold what is theirs exactly if they stand beside each other and their locks have no more nodes than there may be. Else there is one
/// Prepare by which they cannot, and no other.
pub fn doubts_hold_if_they_stand()
    ensures stand { (g : Geometry) (log : List LogRecord) (limit : ℕ) → AreMeantKept g 0 log
        → CanHold limit (doubts_in log) ↔ (DoubtsStand log × (NeedMore limit (doubts_in log) → ⊥)) }
    ensures none { (log : List LogRecord) (limit n : ℕ) → CanHold limit (doubts_left log) → CannotHold limit log n → ⊥ }
    ensures one { (log : List LogRecord) (limit n m : ℕ) → CannotHold limit log n → CannotHold limit log m → n ≡ m }
    ensures taken { (g : Geometry) (cut checkpoint : ℕ) (kept : List LogRecord) (n : ℕ) → IsTaken g cut checkpoint kept → IsRefusedBy g cut checkpoint kept n → ⊥ }
{}

/// With all of them the locks are those that the log says.
pub fn locks_of_all_are_restored()
    ensures { (log : List LogRecord) (held : List Hold) → AreLocksOf (doubts_in log) held ↔ AreRestored log held }
{}

/// A table with those in doubt is that of sessions in which they are under way and prepared, in the order of their Prepares, and owes what is reserved.
pub fn doubts_are_those_of_sessions()
    ensures undos { (log : List LogRecord) (txns : Transactions) → HasDoubts log txns → undos_in txns ≡ undos_told log }
    ensures prepared { (log : List LogRecord) (txns : Transactions) → HasDoubts log txns → prepared_in txns ≡ prepared_told log }
    ensures reserved { (log : List LogRecord) → reserved_told log ≡ owed_by_all (undos_told log) + ENDING_COST * length (doubts_left log) }
{}

/// Those in doubt that have not ended are all in doubt, where a log is lawful, or whole and such as analysis takes; and by what is kept of a lawful log they are
/// those in doubt by the whole log.
pub fn those_in_doubt_have_not_ended()
    ensures meant { (g : Geometry) (log : List LogRecord) → AreMeantKept g 0 log → doubts_left log ≡ doubts_in log }
    ensures lawful { (log : List LogRecord) → Lawful log → doubts_left log ≡ doubts_in log }
    ensures kept { (g : Geometry) (cut : ℕ) (log : List LogRecord) → Lawful log → EndsBehind cut log → AreMeantKept g cut (drop cut log)
        → doubts_left (padded cut (drop cut log)) ≡ doubts_in log }
{}
