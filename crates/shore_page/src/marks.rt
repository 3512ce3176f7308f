//! A mark for each byte of a page, as a bit of a word.
ghost use Rattle.std.specs.Prelude.{◌≡◌, ◌+◌, ◌-◌, ◌*◌, ◌^◌, ◌<◌, ◌≤◌, ℕ, false, length, slice_index, slice_set, bit_or, IsTrue};
ghost use Rattle.std.specs.Int.{bit_at};
ghost use Rattle.shore_page.specs.Reading.{marks_of, Marks, IsTaken, MarksBits, mark_at};

use shore_types::layout::MAX_PAGE_BYTES;

/// The bits of a word.
const WORD: usize = 64;

/// The words with a mark for each byte of a page of any version.
pub const MARK_WORDS: usize = MAX_PAGE_BYTES / WORD;

// The bits of a word from one on, up to another.
fn bits(from: usize, to: usize) -> u64
    requires order { from < to }
    requires within { to ≤ 64 }
    ensures { result ≡ 2 ^ to - 2 ^ from }
{
    (u64::MAX >> (WORD - to)) - ((1 << from) - 1)
}

// Marks bits of one word that have no mark yet; false if one has.
fn mark_word(words: &mut [u64], word: usize, from: usize, to: usize) -> bool
    requires there { word < length words.old }
    requires order { from < to }
    requires within { to ≤ 64 }
    ensures free { IsTrue result → (bit : ℕ) → from ≤ bit → bit < to → bit_at (slice_index words.old word) bit ≡ 0 }
    ensures marked { IsTrue result
        → words.new ≡ slice_set words.old word (bit_or (slice_index words.old word) (2 ^ to - 2 ^ from)) }
    ensures taken { result ≡ false → (bit : ℕ) × (from ≤ bit) × (bit < to) × (bit_at (slice_index words.old word) bit ≡ 1) }
    ensures len { length words.new ≡ length words.old }
{
    let mask = bits(from, to);
    if words[word] & mask != 0 {
        return false;
    }
    words[word] |= mask;
    true
}

// Marks bits that have no mark yet, word by word; false if one has.
fn mark_bits(words: &mut [u64], from: usize, to: usize) -> bool
    requires order { from < to }
    requires within { to ≤ 64 * length words.old }
    requires small { to ≤ 65536 }
    ensures free { IsTrue result → MarksBits words.old words.new from to }
    ensures taken { result ≡ false → (position : ℕ) × (from ≤ position) × (position < to) × (mark_at words.old position ≡ 1) }
    ensures len { length words.new ≡ length words.old }
{
    for word in from / WORD..(to - 1) / WORD + 1 {
        let start = WORD * word;
        let low = from.max(start) - start;
        let high = to.min(start + WORD) - start;
        if !mark_word(words, word, low, high) {
            return false;
        }
    }
    true
}

/// Marks places that have no mark yet; false if one has.
pub fn mark(words: &mut [u64], from: usize, to: usize) -> bool
    requires order { from ≤ to }
    requires within { to ≤ 64 * length words.old }
    requires small { to ≤ 65536 }
    ensures free { IsTrue result → (count : ℕ) → to ≤ count → Marks (marks_of words.old count) (marks_of words.new count) from to }
    ensures taken { result ≡ false → (count : ℕ) → to ≤ count → IsTaken (marks_of words.old count) from to }
    ensures len { length words.new ≡ length words.old }
{
    from == to || mark_bits(words, from, to)
}
