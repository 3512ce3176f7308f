//! The laws of the room of a log that is a ring, each stated as the contract of an empty function.
ghost use Rattle.std.specs.Prelude.{◌≡◌, ◌⊎◌, ◌≤◌, ◌<◌, ◌+◌, ◌-◌, ◌*◌, ℕ, List, length};
ghost use Rattle.shore_types.specs.declared.layout.TheConstants.{ENDING_COST, GREATEST_CHECKPOINT, LAST_OPENED, LONGEST_FRAME, MAX_POOL_FRAMES, MAX_TRANSACTIONS};
ghost use Rattle.shore_model.specs.declared.log_records.DirtyPage.{DirtyPage};
ghost use Rattle.shore_model.specs.declared.log_records.LogTxn.{LogTxn};
ghost use Rattle.shore_model.specs.declared.log_records.Payload.TheVariants.{Anchor, CheckpointBegin, CheckpointEnd};
ghost use Rattle.shore_logrec.specs.Text.{cost_of};
ghost use Rattle.laws_lives.specs.SessionSteps.{SessionEvent, StepsTo};
ghost use Rattle.laws_lives.specs.Sessions.{SessionTxn, Sessions};
ghost use Rattle.laws_room.specs.LogRooms.{EventAdmits, HasLogRoom, LogRoom, RoomAfter};
ghost use Rattle.laws_checkpoints.specs.RingRooms.{ANCHOR_COST, AdmitsCheckpoint, HasRingRoom, IsFullForGood, RingLeadTo, RingLeadsTo, RingRoom, RingStep, checkpoint_cost, end_cost, filled_by_calls, filled_by_crash, of_a_megabyte};

/// Whatever is admitted, paid for, checkpointed and cut: what is reserved has its room, and the End and the Anchor record of a checkpoint that has begun have
/// theirs, with numbers, and the longest frame besides. So none of these is ever refused, and the frame that carries them fits.
pub fn rings_keep_room()
    ensures step { (r : RingRoom) (e : RingStep) (new : RingRoom) → HasRingRoom r → RingLeadsTo r e new → HasRingRoom new }
    ensures steps { (r : RingRoom) (steps : List RingStep) (last : RingRoom) → HasRingRoom r → RingLeadTo r steps last → HasRingRoom last }
    ensures completes { (r : RingRoom) → HasRingRoom r → (r.room.kept + r.room.reserved + r.to_log + LONGEST_FRAME ≤ r.room.stream_bytes) × (r.room.last_lsn + r.to_log < LAST_OPENED) }
    ensures again { (room : LogRoom) (txns pages freed : ℕ) → AdmitsCheckpoint room (checkpoint_cost txns pages) freed → freed ≤ room.kept →
        room.kept + checkpoint_cost txns pages - freed + room.reserved + LONGEST_FRAME + GREATEST_CHECKPOINT ≤ room.stream_bytes }
    ensures opens { (doubts : ℕ) (undos : List SessionTxn) (room : LogRoom) → HasLogRoom LONGEST_FRAME doubts undos room → HasRingRoom (record { room = room; to_log = 0 }) }
    ensures spares { (doubts : ℕ) (undos : List SessionTxn) (r : RingRoom) → HasLogRoom 0 doubts undos r.room → HasRingRoom r →
        HasLogRoom (LONGEST_FRAME + r.to_log) doubts undos r.room }
{}

/// The sums leave ways to a log that is full for good: no call and no checkpoint is admitted any more, however much it would free. Power lost before an anchor
/// is moved leaves the checkpoint's records in the log, and frees nothing; so do 195 checkpoints with empty tables, each lost so. And so does a checkpoint with
/// full tables that frees nothing, with calls up to their limit before its End, and rollbacks behind it.
pub fn a_ring_may_be_full_for_good()
    ensures has_room { HasRingRoom (of_a_megabyte 0 0 0 0) }
    ensures by_calls { RingLeadTo (of_a_megabyte 0 0 0 0) filled_by_calls (of_a_megabyte 982993 0 4003 0) × IsFullForGood (of_a_megabyte 982993 0 4003 0) }
    ensures by_a_crash { RingLeadTo (of_a_megabyte 0 0 0 0) filled_by_crash (of_a_megabyte 983027 0 2003 0) × IsFullForGood (of_a_megabyte 983027 0 2003 0) }
    ensures by_crashes { (kept last_lsn stream_bytes n txns pages freed : ℕ) → kept + LONGEST_FRAME + GREATEST_CHECKPOINT ≡ stream_bytes → 195 ≤ n →
        AdmitsCheckpoint (record { kept = kept + checkpoint_cost 0 0 * n; reserved = 0; stream_bytes = stream_bytes; last_lsn = last_lsn }) (checkpoint_cost txns pages) freed → ⊥ }
{}

/// Each event of the sessions is a step of the ring's room, or leaves it as it is: so the room of a checkpoint that has begun is kept, whatever calls come
/// between its records, lazy commits, prepares and resolves among them.
pub fn events_keep_ring_room()
    ensures steps { (s new : Sessions) (e : SessionEvent) (r : RingRoom) (later : LogRoom) → HasLogRoom 0 (length s.prepared) s.active r.room → StepsTo s e new → EventAdmits s e r.room
        → RoomAfter s e r.room later → (later ≡ r.room) ⊎ ((step : RingStep) × RingLeadsTo r step (record r { room = later })) }
    ensures kept { (s new : Sessions) (e : SessionEvent) (r : RingRoom) (later : LogRoom) → HasLogRoom 0 (length s.prepared) s.active r.room → HasRingRoom r → StepsTo s e new
        → EventAdmits s e r.room → RoomAfter s e r.room later → HasRingRoom (record r { room = later }) }
{}

/// What the ring's room counts for the records of a checkpoint is what their encodings take, and the greatest has full tables.
pub fn checkpoint_costs_are_those_of_records()
    ensures begin { cost_of CheckpointBegin ≡ ENDING_COST }
    ensures end { (begin next : ℕ) (txns : List LogTxn) (dirty : List DirtyPage) → cost_of (CheckpointEnd begin next txns dirty) ≡ end_cost (length txns) (length dirty) }
    ensures anchor { (checkpoint tail : ℕ) → cost_of (Anchor checkpoint tail) ≡ ANCHOR_COST }
    ensures greatest { GREATEST_CHECKPOINT ≡ checkpoint_cost MAX_TRANSACTIONS MAX_POOL_FRAMES }
    ensures fits { (txns pages : ℕ) → txns ≤ MAX_TRANSACTIONS → pages ≤ MAX_POOL_FRAMES → checkpoint_cost txns pages ≤ GREATEST_CHECKPOINT }
{}
