//! Laws over the words of the script, each stated as the contract of an empty function.
ghost use Rattle.std.specs.Prelude.{◌≡◌, ◌^◌, ◌≤◌, ℕ, List};
ghost use Rattle.hex.specs.Hex.{IsBytes};
ghost use Rattle.shore_types.specs.declared.ids.Rid.{Rid};
ghost use Rattle.shore_types.specs.declared.locking.Granule.{Granule};
ghost use Rattle.shore_script.specs.Bytes.{SpellsBytes};
ghost use Rattle.shore_script.specs.Ids.{IsGranule, IsNumber, IsRecord};
ghost use Rattle.shore_script.specs.Texts.{bytes_text};

/// A word is of one value at most.
pub fn words_are_of_one_value()
    ensures number { (limit : ℕ) (word : List ℕ) (a b : ℕ) → limit ≤ 2 ^ 64 → IsNumber limit word a → IsNumber limit word b → a ≡ b }
    ensures id { (word : List ℕ) (a b : Rid) → IsRecord word a → IsRecord word b → a ≡ b }
    ensures granule { (word : List ℕ) (a b : Granule) → IsGranule word a → IsGranule word b → a ≡ b }
    ensures bytes { (word a b : List ℕ) → SpellsBytes word a → SpellsBytes word b → a ≡ b }
{}

/// What is printed of bytes is read as these bytes.
pub fn printed_bytes_are_read_back()
    ensures { (bytes : List ℕ) → IsBytes bytes → SpellsBytes (bytes_text bytes) bytes }
{}
