//! A law of the texts, as a function that does nothing.
ghost use Rattle.std.specs.Prelude.{◌≡◌, ◌++◌, List, ℕ};
ghost use Rattle.shore_model.specs.declared.log_records.LogRecord.{LogRecord};
ghost use Rattle.shore_logrec.specs.Text.{Fits, text};

/// No record's text begins another's, so bytes are the texts of one list of records at most.
pub fn encoding_is_prefix_free()
    ensures { (a b : LogRecord) (xs ys : List ℕ) → Fits a → Fits b
        → text a ++ xs ≡ text b ++ ys → (a ≡ b) × (xs ≡ ys) }
{}
