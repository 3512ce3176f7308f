//! Laws of analysis, each as a function that does nothing.
ghost use Rattle.std.specs.Prelude.{◌≡◌, ◌⊎◌, ◌<◌, ◌↔◌, ◌++◌, ◌∷◌, [], ℕ, All, IsTrue, List, drop, false, filter, take};
ghost use Rattle.shore_types.specs.declared.layout.Geometry.{Geometry};
ghost use Rattle.shore_model.specs.declared.log_records.LogRecord.{LogRecord};
ghost use Rattle.shore_model.specs.declared.log_records.LogTxn.{LogTxn};
ghost use Rattle.shore_model.specs.Logs.{IsTable, Lawful, Lists, is_in_doubt, is_of_checkpoint, is_prepared, unanswered, undo_next_of};
ghost use Rattle.laws_lives.specs.Undo.{IsLoser, IsUndoneTo, undo_record};
ghost use Rattle.laws_lives.specs.Pages.{LoggedPages};
ghost use Rattle.laws_checkpoints.specs.KeptLogs.{IsKeptUnended, MayBeCut};
ghost use Rattle.laws_checkpoints.specs.KeptTables.{IsKeptTable};
ghost use Rattle.shore_analysis.specs.declared.analysis.Tables.{Tables};
ghost use Rattle.shore_analysis.specs.declared.kept_tables.KeptTables.{KeptTables};
ghost use Rattle.shore_analysis.specs.AnchoredMeant.{AreMeantAnchored, IsFirstUnmeantAnchored};
ghost use Rattle.shore_analysis.specs.Doubts.{doubt_at, kept_doubt_at, kept_said_at, said_at};
ghost use Rattle.shore_analysis.specs.KeptMeant.{AreInLimits, AreMeantKept, IsWholeIn};
ghost use Rattle.shore_analysis.specs.KeptTables.{AreKeptTables};
ghost use Rattle.shore_analysis.specs.Losers.{IsNextToUndo, IsUndoneInOrder, is_of_loser};
ghost use Rattle.shore_analysis.specs.Meant.{AreMeant, MayBeNext, IsCrowded, IsFirstUnmeant, IsInBounds, IsServedKind};
ghost use Rattle.shore_analysis.specs.Padded.{padded};
ghost use Rattle.shore_analysis.specs.Tables.{AreTables};

/// Each record of a lawful log in bounds means what it has to, if its kinds are served: no record of such a log is refused.
pub fn lawful_logs_are_meant()
    ensures meant { (g : Geometry) (rs : List LogRecord) → Lawful rs → All (IsInBounds g) rs → All (λ r. IsServedKind r.payload) rs → ((n : ℕ) → IsCrowded (take n rs) → ⊥)
        → AreMeant g rs }
    ensures none { (g : Geometry) (rs : List LogRecord) (n : ℕ) → AreMeant g rs → IsFirstUnmeant g rs n → ⊥ }
{}

/// The table lists the losers, whom undo has to end, and those in doubt, whom it leaves.
pub fn tables_list_the_losers()
    ensures losers { (g : Geometry) (rs : List LogRecord) (tables : Tables) → AreMeant g rs → AreTables rs tables
        → (t : ℕ) → Lists (filter is_of_loser tables.txns) t ↔ IsLoser rs t }
    ensures doubts { (g : Geometry) (rs : List LogRecord) (tables : Tables) → AreMeant g rs → AreTables rs tables
        → (t : ℕ) → Lists (filter (λ e. is_prepared e.state) tables.txns) t ↔ IsTrue (is_in_doubt t rs) }
{}

/// A log that was analysed goes on by the records of undo, whichever loser takes its turn, so that analysis takes the longer log too.
pub fn undo_goes_on()
    ensures undo { (g : Geometry) (rs : List LogRecord) (t : ℕ) → AreMeant g rs → IsLoser rs t → MayBeNext g rs (undo_record rs t) }
    ensures longer { (g : Geometry) (rs : List LogRecord) (r : LogRecord) → AreMeant g rs → MayBeNext g rs r → AreMeant g (rs ++ r ∷ []) }
{}

/// A record of undo more: the log is still the one that was found, with turns of undo behind it. So it is with turns in their order, which are turns
/// of undo.
pub fn turns_of_undo_go_on()
    ensures begins { (found : List LogRecord) → IsUndoneTo found [] found }
    ensures in_order { (found : List LogRecord) (turns : List ℕ) (log : List LogRecord) (t : ℕ) → IsUndoneInOrder found turns log → IsLoser log t → IsNextToUndo log t
        → IsUndoneInOrder found (turns ++ t ∷ []) (log ++ undo_record log t ∷ []) }
    ensures undone { (found : List LogRecord) (turns : List ℕ) (log : List LogRecord) → IsUndoneInOrder found turns log → IsUndoneTo found turns log }
    ensures goes_on { (found : List LogRecord) (turns : List ℕ) (log : List LogRecord) (t : ℕ) → IsUndoneTo found turns log → IsLoser log t
        → IsUndoneTo found (turns ++ t ∷ []) (log ++ undo_record log t ∷ []) }
{}

/// An End follows its loser's last Compensation at once: if a loser had something to be undone when it was next, and has nothing behind that, nobody
/// else is next.
pub fn ends_follow_at_once()
    ensures { (log : List LogRecord) (t u : ℕ) → IsLoser log t → IsNextToUndo log t → 0 < undo_next_of (unanswered t log)
        → unanswered t (log ++ undo_record log t ∷ []) ≡ [] → IsLoser (log ++ undo_record log t ∷ []) u → IsNextToUndo (log ++ undo_record log t ∷ []) u → u ≡ t }
{}

/// Where nothing is cut off, and no record is a checkpoint's, what is kept is judged as a whole log is, and its table is the whole log's.
pub fn whole_logs_are_kept_whole()
    ensures meant { (g : Geometry) (rs : List LogRecord) → AreMeant g rs → AreMeantKept g 0 rs }
    ensures back { (g : Geometry) (rs : List LogRecord) → All (λ r. is_of_checkpoint r.payload ≡ false) rs → AreMeantKept g 0 rs → AreMeant g rs }
    ensures table { (rs : List LogRecord) (txns : List LogTxn) → IsKeptTable 0 rs txns ↔ IsTable rs txns }
{}

/// The table of what is kept of a lawful log that may be cut is that of the whole log. So the losers of the one are those of the other.
pub fn kept_tables_are_of_the_whole()
    ensures { (log : List LogRecord) (volume : LoggedPages) (cut checkpoint : ℕ) (tables : KeptTables) → Lawful log → MayBeCut log volume cut
        → AreKeptTables cut checkpoint (drop cut log) tables → IsTable log tables.txns }
{}

/// No lawful log that may be cut is refused, behind any checkpoint whose begin is kept: each kept record means what it has to, and that one's End lists nobody by a record that is cut off
/// but one that has ended since. Beside the log's own law its ids, granules, pages, numbers, images and global ids have to lie in their bounds, and no more transactions may be unended at once than there may be.
pub fn kept_records_are_not_refused()
    ensures meant { (g : Geometry) (log : List LogRecord) (volume : LoggedPages) (cut : ℕ) → Lawful log → AreInLimits g log → ((n : ℕ) → IsCrowded (take n log) → ⊥)
        → MayBeCut log volume cut → AreMeantKept g cut (drop cut log) }
    ensures anchored { (g : Geometry) (log : List LogRecord) (volume : LoggedPages) (cut checkpoint : ℕ) → Lawful log → AreInLimits g log → ((n : ℕ) → IsCrowded (take n log) → ⊥)
        → MayBeCut log volume cut → (checkpoint ≡ 0) ⊎ (cut < checkpoint) → AreMeantAnchored g cut checkpoint (drop cut log) }
    ensures none { (g : Geometry) (cut checkpoint : ℕ) (kept : List LogRecord) (n : ℕ) → AreMeantAnchored g cut checkpoint kept → IsFirstUnmeantAnchored g cut checkpoint kept n → ⊥ }
    ensures whole { (g : Geometry) (cut : ℕ) (kept : List LogRecord) (t : ℕ) → AreMeantKept g cut kept → IsKeptUnended cut kept t → IsWholeIn cut kept t }
{}

/// Records of undo may go on kept ones: each means what it has to behind those before it.
pub fn records_of_undo_are_kept()
    ensures { (g : Geometry) (cut : ℕ) (kept : List LogRecord) (t : ℕ) → AreMeantKept g cut kept → IsLoser (padded cut kept) t
        → AreMeantKept g cut (kept ++ undo_record (padded cut kept) t ∷ []) }
{}

/// What a record says that is not cut off is said under its number by what is kept: of one in doubt its Prepare is not.
pub fn kept_prepares_say_the_same()
    ensures { (log : List LogRecord) (cut n : ℕ) → cut < n → (kept_doubt_at cut (drop cut log) n ≡ doubt_at log n) × (kept_said_at cut (drop cut log) n ≡ said_at log n) }
{}
