//! What the steps of a checkpoint are in the life of a store, each stated as the contract of an empty function.
ghost use Rattle.std.specs.Prelude.{◌≡◌, ◌≤◌, ◌+◌, [], ◌∷◌, ℕ, List, IsTrue, length};
ghost use Rattle.shore_types.specs.declared.layout.TheConstants.{ENDING_COST, MAX_TRANSACTIONS};
ghost use Rattle.shore_model.specs.declared.log_records.DirtyPage.{DirtyPage};
ghost use Rattle.shore_model.specs.declared.log_records.LogTxn.{LogTxn};
ghost use Rattle.shore_model.specs.Logs.{rise_above};
ghost use Rattle.laws_room.specs.LogRooms.{LogRoom};
ghost use Rattle.laws_checkpoints.specs.Checkpoints.{Checkpoint, cut_point};
ghost use Rattle.laws_checkpoints.specs.CheckpointedStores.{AreTablesNow, BeginCheckpoint, CheckpointedLeadsTo, CheckpointedStore, EndCheckpoint, MoveAnchor, NameCheckpoint, NoCheckpoint};
ghost use Rattle.laws_checkpoints.specs.RingRooms.{ANCHOR_COST, AdmitsCheckpoint, LogAnchor, LogBegin, LogEnd, RingLeadsTo, checkpoint_cost, checkpoint_logged, end_cost};
ghost use Rattle.shore_check.specs.declared.stage.Begun.{Begun};
ghost use Rattle.shore_check.specs.declared.stage.Ended.{Ended};
ghost use Rattle.shore_check.specs.declared.stage.Named.{Named};
ghost use Rattle.shore_check.specs.declared.stage.Stage.TheVariants as stage;
ghost use Rattle.shore_check.specs.Events.{after_begin, after_end, after_move, after_name};
ghost use Rattle.shore_check.specs.Stages.{IsAt, IsBegun, IsEnded, IsNamed, to_log};
ghost use Rattle.shore_check.specs.Tables.{AreListedNow, AreTxns, Takes};

/// Each step of a checkpoint is one of the life of the store, and its owner's stage is that of the store then. It begins with the tables as they are now,
/// whatever order they were listed in; its End says just that, whatever was logged between.
pub fn steps_are_events()
    ensures tables { (s : CheckpointedStore) (number next : ℕ) (txns : List LogTxn) (dirty : List DirtyPage) (c : Checkpoint) (b : Begun) → AreListedNow s next txns dirty →
        Takes number next txns dirty c → IsBegun c b → AreTablesNow s next c.txns c.dirty }
    ensures begins { (s : CheckpointedStore) (next : ℕ) (txns : List LogTxn) (dirty : List DirtyPage) (c : Checkpoint) (b : Begun) → IsAt stage.Resting s.stage →
        s.store.redone ≡ length s.store.log → AreListedNow s next txns dirty → Takes (length s.store.log + 1) next txns dirty c → IsBegun c b →
        CheckpointedLeadsTo s (BeginCheckpoint next c.txns c.dirty) (after_begin s c) × IsAt (stage.Begun b) (after_begin s c).stage }
    ensures ends { (s : CheckpointedStore) (b : Begun) → IsAt (stage.Begun b) s.stage → s.store.redone ≡ length s.store.log →
        (c : Checkpoint) × IsBegun c b × CheckpointedLeadsTo s EndCheckpoint (after_end s c)
        × ((e : Ended) → IsEnded c (length s.store.log + 1) e → IsAt (stage.Ended e) (after_end s c).stage) }
    ensures names { (s : CheckpointedStore) (e : Ended) → IsAt (stage.Ended e) s.stage → s.store.redone ≡ length s.store.log → e.number ≤ s.store.durable →
        (c : Checkpoint) × IsEnded c e.number e × CheckpointedLeadsTo s NameCheckpoint (after_name s c)
        × ((m : Named) → IsNamed c (length s.store.log + 1) m → IsAt (stage.Named m) (after_name s c).stage) }
    ensures moves { (s : CheckpointedStore) (m : Named) (tail : ℕ) → IsAt (stage.Named m) s.stage → m.number ≤ s.store.durable → s.anchored.tail ≤ tail → tail ≤ m.mark.tail →
        (c : Checkpoint) × IsNamed c m.number m × CheckpointedLeadsTo s (MoveAnchor tail) (after_move s c tail) × IsAt stage.Resting (after_move s c tail).stage }
{}

/// Each is a step of the log's room too: once its begin was admitted, the End and the Anchor record have theirs.
pub fn steps_have_room()
    ensures begins { (room : LogRoom) (c : Checkpoint) (b : Begun) (freed : ℕ) → IsBegun c b → AdmitsCheckpoint room (checkpoint_cost (length c.txns) (length c.dirty)) freed →
        RingLeadsTo (record { room = room; to_log = to_log stage.Resting }) (LogBegin (length c.txns) (length c.dirty) freed)
        (record { room = checkpoint_logged ENDING_COST room; to_log = to_log (stage.Begun b) }) }
    ensures ends { (room : LogRoom) (c : Checkpoint) (b : Begun) (e : Ended) → IsBegun c b →
        RingLeadsTo (record { room = room; to_log = to_log (stage.Begun b) }) (LogEnd (end_cost (length c.txns) (length c.dirty)))
        (record { room = checkpoint_logged (end_cost (length c.txns) (length c.dirty)) room; to_log = to_log (stage.Ended e) }) }
    ensures names { (room : LogRoom) (e : Ended) (m : Named) →
        RingLeadsTo (record { room = room; to_log = to_log (stage.Ended e) }) LogAnchor (record { room = checkpoint_logged ANCHOR_COST room; to_log = to_log (stage.Named m) }) }
{}

/// Transactions that rise are listed once each: a table that is in order already may be handed to `begin`.
pub fn rising_transactions_may_be_listed()
    ensures { (txns : List LogTxn) → length txns ≤ MAX_TRANSACTIONS → IsTrue (rise_above 0 txns) → AreTxns txns }
{}

/// A checkpoint in two halves, worked by hand: transaction 1 has inserted into page 0.0, which is record 1, as the checkpoint begins with record 2. What
/// comes between its begin and its End, a commit and a flush of that page, changes neither: the first record has to be kept.
pub fn two_halves_keep_the_first_record()
    ensures cut { (e : LogTxn) (d : DirtyPage) → e.first ≡ 1 → d.recovery ≡ 1 → cut_point (record { begin = 2; next = 2; txns = e ∷ []; dirty = d ∷ [] }) ≡ 1 }
    ensures cost { (checkpoint_cost 0 0 ≡ 138) × (checkpoint_cost 1 1 ≡ 195) }
{}
