//! The names by which the values under the two locks speak of one another.
use shore_queue::Queued;
use std::marker::Brand;
use std::sync::ledger::Ledger;

/// Names the words, the parts of the ledger of calls, the records that the log device kept as the core was opened, and how both devices are laid out.
pub trait Named: Ledger + Queued {
    ghost use Rattle.std.specs.Prelude.{List, ℕ};
    ghost use Rattle.atomic_table.specs.Seated.{TableId};
    ghost use Rattle.shore_types.specs.declared.layout.Geometry.{Geometry};
    ghost use Rattle.shore_model.specs.declared.log_records.LogRecord.{LogRecord};
    ghost use Rattle.shore_held.specs.Comings.{Beginning};

    ghost table: { TableId };

    ghost all: { ℕ };

    /// How many records of the log were cut off then, and those that were kept.
    ghost cut: { ℕ };

    ghost before: { List LogRecord };

    /// How the volume is laid out, and how long the log device is.
    ghost geometry: { Geometry };

    ghost log_bytes: { ℕ };

    /// Of a state of a manager that the core may begin with: whether it does, both devices are honest, and what was opened stood for a log and pages.
    ghost honest: { Beginning → Type 0 };
}

impl Named for Brand {
    ghost use Rattle.std.specs.Prelude.{[]};
    ghost use Rattle.shore_types.specs.declared.versions.Version.TheVariants.{One};
    ghost use Rattle.shore_words.specs.Words.{no_words};

    ghost table = { no_words };

    ghost all = { 0 };

    ghost cut = { 0 };

    ghost before = { [] };

    ghost geometry = { record { version = One; pair = 0; max_locks = 0; stores = [] } };

    ghost log_bytes = { 0 };

    ghost honest = { λ start. ⊥ };
}
