//! The laws of fuzzy checkpoints, each stated as the contract of an empty function.
ghost use Rattle.std.specs.Prelude.{◌≡◌, ◌⊎◌, ◌≤◌, ◌<◌, ◌+◌, ◌-◌, ◌++◌, ◌↔◌, ℕ, List, [], ◌∷◌, None, Some, true, drop, length, map, take, slice_get};
ghost use Rattle.std.specs.FinMap.{get};
ghost use Rattle.std.specs.List.{AllByRecursion};
ghost use Rattle.std.specs.Ordering.{eq_by_cmp};
ghost use Rattle.shore_types.specs.Ids.{page_cmp};
ghost use Rattle.shore_types.specs.Images.{Image};
ghost use Rattle.shore_types.specs.declared.ids.PageId.{PageId};
ghost use Rattle.shore_types.specs.declared.ids.Rid.{Rid};
ghost use Rattle.shore_model.specs.declared.histories.Entry.{Entry};
ghost use Rattle.shore_model.specs.declared.histories.Opening.{Opening};
ghost use Rattle.shore_model.specs.declared.log_records.DirtyPage.{DirtyPage};
ghost use Rattle.shore_model.specs.declared.log_records.LogRecord.{LogRecord};
ghost use Rattle.shore_model.specs.declared.log_records.LogTxn.{LogTxn};
ghost use Rattle.shore_model.specs.Logs.{Lawful, MayFollow, image_in, image_of_record, is_of_checkpoint, records_of, records_told};
ghost use Rattle.laws_lives.specs.DirtyPages.{HasAllUpTo, TableCovers, surely_on_page};
ghost use Rattle.laws_lives.specs.Doubts.{TracksDoubts, doubts_in};
ghost use Rattle.laws_lives.specs.LogPrefixes.{LogDecides};
ghost use Rattle.laws_lives.specs.LogTells.{IsLogAfter};
ghost use Rattle.laws_lives.specs.Pages.{AreAsOfOwnNumbers, LoggedPage, LoggedPages, redone_on, redone_on_all, rid_on};
ghost use Rattle.laws_lives.specs.Recovery.{CrashMayLeave, LeadsTo, RecoveryEvent, after_crash, with_page_written};
ghost use Rattle.laws_lives.specs.Sessions.{Sessions};
ghost use Rattle.laws_lives.specs.Tickets.{AreTickets};
ghost use Rattle.laws_lives.specs.Undo.{IsLoser};
ghost use Rattle.laws_lives.specs.WholeLogs.{IsWholeLog};
ghost use Rattle.laws_checkpoints.specs.Checkpoints.{Checkpoint, TableIsRight, cut_of, cut_point, end_among, redo_behind};
ghost use Rattle.laws_checkpoints.specs.CheckpointedStores.{AreTablesNow, BeginCheckpoint, CheckpointedEvent, CheckpointedLeadTo, CheckpointedLeadsTo, CheckpointedStore, EndCheckpoint, MoveAnchor, NameCheckpoint, StoreEvent, awaited_by, begun_now, formatted_store};
ghost use Rattle.laws_checkpoints.specs.KeptLogs.{KeepsNoLosers, MayBeCut};
ghost use Rattle.laws_checkpoints.specs.KeptRestarts.{KeptLeadTo, KeptStore, seen_behind};
ghost use Rattle.laws_checkpoints.specs.MeantBehind.{AreMeantBehind};
ghost use Rattle.laws_checkpoints.specs.StoresInOrder.{IsInOrder, IsLeftByCrash};
ghost use Rattle.laws_checkpoints.specs.WorkedCheckpoint.{across_the_tail, flushed_and_checkpointed, inserted, its_records};

/// Each event keeps the order of a checkpointed store: begin, End, Anchor record and move of a checkpoint, any other events between them, and a loss of
/// power at any moment. A formatted pair is in order. The store goes on by each as one without checkpoints may: a record is appended, or nothing of it
/// changes; and redo begins behind a crash where the pages lack none.
pub fn checkpoints_keep_order()
    ensures first { IsInOrder formatted_store }
    ensures kept { (s : CheckpointedStore) (events : List CheckpointedEvent) (last : CheckpointedStore) → IsInOrder s → CheckpointedLeadTo s events last → IsInOrder last }
    ensures moves { (s : CheckpointedStore) (e : CheckpointedEvent) (new : CheckpointedStore) → IsInOrder s → CheckpointedLeadsTo s e new →
        (new.store ≡ s.store) ⊎ ((m : RecoveryEvent) × LeadsTo s.store m new.store) }
{}

/// The naming of a checkpoint and the move of the anchor each wait for the record that the step before it has logged, which is the log's last then; a begin and an
/// End wait for nothing.
pub fn steps_await_the_record_before()
    ensures ended { (s new : CheckpointedStore) → CheckpointedLeadsTo s EndCheckpoint new → awaited_by new.stage ≡ Some (length new.store.log) }
    ensures named { (s new : CheckpointedStore) → CheckpointedLeadsTo s NameCheckpoint new → awaited_by new.stage ≡ Some (length new.store.log) }
    ensures begun { (s new : CheckpointedStore) (next : ℕ) (txns : List LogTxn) (dirty : List DirtyPage) → CheckpointedLeadsTo s (BeginCheckpoint next txns dirty) new →
        awaited_by new.stage ≡ None }
    ensures moved { (s new : CheckpointedStore) (tail : ℕ) → CheckpointedLeadsTo s (MoveAnchor tail) new → awaited_by new.stage ≡ None }
    ensures goes_on { (s new : CheckpointedStore) (n : ℕ) → CheckpointedLeadsTo s NameCheckpoint new ⊎ ((tail : ℕ) × CheckpointedLeadsTo s (MoveAnchor tail) new) →
        awaited_by s.stage ≡ Some n → n ≤ s.store.durable }
{}

/// Whenever power is lost, what is left may be opened from the anchor's tail on: no page lacks a record from before it, nobody from before it is still to
/// end, the anchored checkpoint with its End is among what is kept, and redo may begin where that says, which is behind the tail.
pub fn crashes_leave_what_may_be_cut()
    ensures left { (s : CheckpointedStore) (n : ℕ) (left : LoggedPages) → IsInOrder s → s.store.durable ≤ n → n ≤ length s.store.log → CrashMayLeave s.store left →
        IsLeftByCrash s.anchored (take n s.store.log) left }
    ensures now { (s : CheckpointedStore) → IsInOrder s → MayBeCut s.store.log s.store.volume (cut_of s.anchored) }
{}

/// Redo may pass over a page up to the records that a right table says are on it: to do them again would change nothing, and a record that the page lacks
/// comes behind them. A right table covers the pages. It stays right of a longer log and of what a crash leaves of it, whatever is redone on the pages,
/// and with any page written that has what is before the begin.
pub fn redo_passes_over_pages()
    ensures over { (log : List LogRecord) (begin : ℕ) (dirty : List DirtyPage) (pages : LoggedPages) (p : PageId) (n : ℕ) (r : LogRecord) → TableIsRight log begin dirty pages →
        slice_get log n ≡ Some r → n < surely_on_page begin dirty p → redone_on (n + 1) (image_in r.payload) p (pages p) ≡ pages p }
    ensures lacks { (log : List LogRecord) (begin : ℕ) (dirty : List DirtyPage) (pages : LoggedPages) (p : PageId) (n : ℕ) (r : LogRecord) (e : Rid × Image) → TableIsRight log begin dirty pages →
        slice_get log n ≡ Some r → image_in r.payload ≡ Some e → eq_by_cmp page_cmp p e.0.page ≡ true → (pages p).number ≤ n → surely_on_page begin dirty p ≤ n }
    ensures covers { (log : List LogRecord) (begin : ℕ) (dirty : List DirtyPage) (pages : LoggedPages) → begin ≤ length log + 1 → AreAsOfOwnNumbers log pages →
        TableIsRight log begin dirty pages → TableCovers log begin dirty pages }
    ensures redone { (log : List LogRecord) (begin : ℕ) (dirty : List DirtyPage) (pages : LoggedPages) (n : ℕ) (r : LogRecord) → TableIsRight log begin dirty pages →
        TableIsRight log begin dirty (redone_on_all n r pages) }
    ensures longer { (log more : List LogRecord) (begin : ℕ) (dirty : List DirtyPage) (pages : LoggedPages) → begin ≤ length log + 1 → TableIsRight log begin dirty pages →
        TableIsRight (log ++ more) begin dirty pages }
    ensures cut { (log : List LogRecord) (begin n : ℕ) (dirty : List DirtyPage) (pages : LoggedPages) → TableIsRight log begin dirty pages → TableIsRight (take n log) begin dirty pages }
    ensures flushed { (log : List LogRecord) (begin : ℕ) (dirty : List DirtyPage) (pages : LoggedPages) (p : PageId) (page : LoggedPage) → TableIsRight log begin dirty pages →
        HasAllUpTo log p page (begin - 1) → TableIsRight log begin dirty (with_page_written pages p page) }
{}

/// The cut point is the least of the begin's number, the recovery numbers and the first numbers. A checkpoint that begins has one that is not below the
/// anchor's tail: so its record is among those that are kept, and the tail never falls.
pub fn cut_points_are_least()
    ensures least { (c : Checkpoint) → (cut_point c ≤ c.begin) × AllByRecursion (λ d. cut_point c ≤ d.recovery) c.dirty × AllByRecursion (λ e. cut_point c ≤ e.first) c.txns }
    ensures greatest { (c : Checkpoint) (n : ℕ) → n ≤ c.begin → AllByRecursion (λ d. n ≤ d.recovery) c.dirty → AllByRecursion (λ e. n ≤ e.first) c.txns → n ≤ cut_point c }
    ensures rises { (s : CheckpointedStore) (next : ℕ) (txns : List LogTxn) (dirty : List DirtyPage) → IsInOrder s → s.store.redone ≡ length s.store.log →
        AreTablesNow s next txns dirty → s.anchored.tail ≤ cut_point (begun_now s.store next txns dirty) }
    ensures all_is_flushed { cut_point (record { begin = 3; next = 2; txns = []; dirty = [] }) ≡ 3 }
    ensures one_page_is_dirty { (p : PageId) → cut_point (record { begin = 4; next = 2; txns = []; dirty = (record { page = p; recovery = 2 }) ∷ [] }) ≡ 2 }
{}

/// A record of a checkpoint changes nothing that the log tells: the records, who is in doubt, who is a loser, and each transaction's records. So it keeps
/// all that ties the log to the sessions, and may come between any two of their events.
pub fn checkpoint_records_tell_nothing()
    ensures told { (log : List LogRecord) (r : LogRecord) → is_of_checkpoint r.payload ≡ true →
        (records_told (log ++ r ∷ []) ≡ records_told log) × (doubts_in (log ++ r ∷ []) ≡ doubts_in log) × ((id : Rid) → image_of_record (log ++ r ∷ []) id ≡ image_of_record log id) }
    ensures txns { (log : List LogRecord) (r : LogRecord) (t : ℕ) → is_of_checkpoint r.payload ≡ true → r.txn ≡ 0 → 0 < t →
        (records_of t (log ++ r ∷ []) ≡ records_of t log) × (IsLoser (log ++ r ∷ []) t ↔ IsLoser log t) }
    ensures whole { (log : List LogRecord) (r : LogRecord) (s : Sessions) → MayFollow log r → is_of_checkpoint r.payload ≡ true → IsWholeLog log s → IsWholeLog (log ++ r ∷ []) s }
    ensures tells { (log : List LogRecord) (r : LogRecord) (o : Opening) (es : List Entry) (s : Sessions) → Lawful log → MayFollow log r → is_of_checkpoint r.payload ≡ true → 0 < s.next_txn →
        IsLogAfter o es s log → IsLogAfter o es s (log ++ r ∷ []) }
    ensures decides { (log : List LogRecord) (r : LogRecord) (base : ℕ) (o : Opening) (es : List Entry) → Lawful log → MayFollow log r → is_of_checkpoint r.payload ≡ true →
        LogDecides base o es log → LogDecides base o es (log ++ r ∷ []) }
    ensures doubts { (log : List LogRecord) (r : LogRecord) (s : Sessions) → Lawful log → MayFollow log r → is_of_checkpoint r.payload ≡ true →
        TracksDoubts log s → TracksDoubts (log ++ r ∷ []) s }
    ensures tickets { (log : List LogRecord) (r : LogRecord) (base : ℕ) (es : List Entry) → AreTickets base log es → AreTickets base (log ++ r ∷ []) es }
{}

/// Two runs, worked by hand. A page is flushed, and a checkpoint is made: its begin is the tail, and what is kept are the checkpoint's own records. A
/// transaction crosses the tail: its second record and its Commit are kept, and mean what they have to; without the Commit they would not.
pub fn checkpoints_cut_logs()
    ensures flushed { (bytes : List ℕ) → (last : CheckpointedStore) × CheckpointedLeadTo formatted_store (flushed_and_checkpointed bytes) last
        × (last.anchored ≡ record { checkpoint = 3; tail = 3 }) × (drop (cut_of last.anchored) last.store.log ≡ its_records 3) }
    ensures crosses { (bytes : List ℕ) → AreMeantBehind 1 (across_the_tail bytes) }
    ensures wants_its_end { (bytes : List ℕ) → AreMeantBehind 1 (inserted 1 1 bytes ∷ []) → ⊥ }
{}

/// After a crash a restart that knows the kept records alone keeps the store in order, so power may be lost in it too; and once it has redone them all and no
/// loser is left, the pages in place show what the whole log told that the crash kept.
pub fn restarts_by_kept_records_show_all()
    ensures in_order { (s : CheckpointedStore) (events : List RecoveryEvent) (last : KeptStore) → IsInOrder s → KeptLeadTo (seen_behind (cut_of s.anchored) s.store) events last →
        (whole : CheckpointedStore) × CheckpointedLeadTo s (map StoreEvent events) whole × (last ≡ seen_behind (cut_of whole.anchored) whole.store) × IsInOrder whole }
    ensures shows { (s : CheckpointedStore) (n : ℕ) (left : LoggedPages) (events : List RecoveryEvent) (last : KeptStore) → IsInOrder s → s.store.durable ≤ n → n ≤ length s.store.log →
        CrashMayLeave s.store left →
        KeptLeadTo (seen_behind (cut_of s.anchored) (after_crash s.store n left (redo_behind (end_among s.anchored.checkpoint (take n s.store.log))))) events last →
        last.redone ≡ last.cut + length last.kept → KeepsNoLosers last.cut last.kept →
        (p : PageId) (i : ℕ) → (last.in_place p).slots i ≡ get (records_told (take n s.store.log)) (rid_on p i) }
{}
