//! Laws of a log in a ring, each stated as the contract of an empty function.
ghost use Rattle.std.specs.Prelude.{◌≡◌, ◌⊎◌, ◌≤◌, ◌<◌, ◌+◌, ◌++◌, [], ◌∷◌, ℕ, List, length, take, drop};
ghost use Rattle.std.specs.List.{sum_by};
ghost use Rattle.shore_disk.specs.Device.{overwritten};
ghost use Rattle.shore_types.specs.declared.layout.TheConstants.{FRAME_SHARE, LOG_FRONT_BYTES};
ghost use Rattle.shore_gate.specs.declared.gates.TheConstants.{OPEN};
ghost use Rattle.shore_model.specs.declared.log_records.LogRecord.{LogRecord};
ghost use Rattle.shore_logrec.specs.Text.{cost_of, texts};
ghost use Rattle.shore_frames.specs.Frames.{AreGroups, GivesBehindFrom, GivesFrom, GivesWithOrWithoutFrom, behind_gate, joined, number_behind, text};
ghost use Rattle.shore_frames.specs.Places.{from_place, stream_of, turned_by};
ghost use Rattle.shore_frames.specs.Rings.{IsRing, IsRingWritten, TornRing, written_at};

/// Seen from a place, a write behind it is a write in a row, be it in one part or in two, as long as it ends within one turn; and so is a read. From a
/// later place the ring is seen turned further. From place 0 the stream is seen as it stands.
pub fn rings_are_rows()
    ensures first { (stream : List ℕ) → from_place 0 stream ≡ stream }
    ensures turned { (stream : List ℕ) (place more : ℕ) → 0 < length stream → more ≤ length stream →
        from_place (place + more) stream ≡ turned_by more (from_place place stream) }
    ensures written { (stream bytes : List ℕ) (place behind : ℕ) → 0 < length stream → behind + length bytes ≤ length stream → 0 < length bytes →
        from_place place (written_at (place + behind) bytes stream) ≡ overwritten (from_place place stream) behind bytes }
    ensures read { (stream : List ℕ) (place behind n : ℕ) → 0 < length stream → behind + n ≤ length stream →
        take n (from_place (place + behind) stream) ≡ take n (drop behind (from_place place stream)) }
{}

/// A force in a ring. The frame is written behind the closed gate, in one write or in two: a crash at any moment of them leaves the durable records, whatever
/// bytes stand in the frame's range, and whatever frames of earlier turns stand behind it. Then the gate is written: a crash leaves the records with the
/// frame or without it; and once it is open the ring has one frame more, and a closed gate behind it.
pub fn forces_keep_rings()
    ensures stage { (front image new : List ℕ) (tail place n : ℕ) (gs : List (List LogRecord)) → take LOG_FRONT_BYTES image ≡ front → 0 < length (stream_of image) →
        IsRing (stream_of image) tail place gs → length (text tail gs) + 1 + n ≤ length (stream_of image) →
        TornRing (place + (length (text tail gs) + 1)) n image new → GivesBehindFrom front tail place (joined gs) new }
    ensures staged { (image new : List ℕ) (tail place : ℕ) (gs : List (List LogRecord)) (g : List LogRecord) → 0 < length (stream_of image) →
        (r : IsRing (stream_of image) tail place gs) → length (text tail gs) + (1 + FRAME_SHARE) + length (texts g) ≤ length (stream_of image) →
        IsRingWritten (place + (length (text tail gs) + 1)) (behind_gate (number_behind tail gs) (texts g) ++ 0 ∷ []) image new →
        (rest : List ℕ) × (from_place place (stream_of new) ≡ text tail gs ++ r.gate ∷ (behind_gate (number_behind tail gs) (texts g) ++ 0 ∷ rest)) }
    ensures open { (front image new : List ℕ) (tail place : ℕ) (gs : List (List LogRecord)) (g : List LogRecord) (gate : ℕ) (rest : List ℕ) →
        take LOG_FRONT_BYTES image ≡ front → 0 < length (stream_of image) → AreGroups tail (gs ++ g ∷ []) →
        from_place place (stream_of image) ≡ text tail gs ++ gate ∷ (behind_gate (number_behind tail gs) (texts g) ++ 0 ∷ rest) →
        length (text tail gs) + 1 ≤ length (stream_of image) → TornRing (place + length (text tail gs)) 1 image new →
        GivesWithOrWithoutFrom front tail place (joined gs) g new }
    ensures opened { (image new : List ℕ) (tail place : ℕ) (gs : List (List LogRecord)) (g : List LogRecord) (gate : ℕ) (rest : List ℕ) →
        0 < length (stream_of image) → AreGroups tail (gs ++ g ∷ []) →
        from_place place (stream_of image) ≡ text tail gs ++ gate ∷ (behind_gate (number_behind tail gs) (texts g) ++ 0 ∷ rest) →
        length (text tail gs) + 1 ≤ length (stream_of image) → IsRingWritten (place + length (text tail gs)) (OPEN ∷ []) image new →
        IsRing (stream_of new) tail place (gs ++ g ∷ []) }
{}

/// What an image gives from a tail on is a ring, and the other way round. A cut writes nothing: the same image, read from a later frame on, gives the
/// records of that frame and of those behind it.
pub fn cuts_change_nothing()
    ensures gives { (image : List ℕ) (tail place : ℕ) (rs : List LogRecord) → 0 < length (stream_of image) → GivesFrom tail place rs image →
        (gs : List (List LogRecord)) × IsRing (stream_of image) tail place gs × (rs ≡ joined gs) }
    ensures given { (image : List ℕ) (tail place : ℕ) (gs : List (List LogRecord)) → 0 < length (stream_of image) → IsRing (stream_of image) tail place gs →
        GivesFrom tail place (joined gs) image }
    ensures cut { (stream : List ℕ) (tail place : ℕ) (gs hs : List (List LogRecord)) → 0 < length stream → IsRing stream tail place (gs ++ hs) →
        IsRing stream (number_behind tail gs) (place + length (text tail gs)) hs }
    ensures records { (gs hs : List (List LogRecord)) → joined (gs ++ hs) ≡ joined gs ++ joined hs }
{}

/// If what the records from the tail on cost, waiting ones too, leaves one byte of the stream, the longest frame of the waiting records has its place between
/// head and tail, with a closed gate behind it. So the bytes of the longest frame that every sum leaves are more than enough.
pub fn next_frames_fit()
    ensures { (tail : ℕ) (gs : List (List LogRecord)) (waiting : List LogRecord) (count reserved stream_bytes : ℕ) → AreGroups tail gs → 1 ≤ count → count ≤ length waiting →
        sum_by (λ r. cost_of r.payload) (joined gs) + sum_by (λ r. cost_of r.payload) waiting + reserved + 1 ≤ stream_bytes →
        length (text tail gs) + 1 + (FRAME_SHARE + length (texts (take count waiting))) ≤ stream_bytes }
{}
