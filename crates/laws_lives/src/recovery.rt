//! The laws of recovery, each stated as the contract of an empty function.
ghost use Rattle.std.specs.Prelude.{◌≡◌, ◌≢◌, ◌≤◌, ◌<◌, ◌+◌, ◌-◌, ◌++◌, ◌∷◌, [], ℕ, List, None, Some, false, length, map, max, take, true, slice_get, unwrap_or};
ghost use Rattle.std.specs.FinMap.{get};
ghost use Rattle.std.specs.List.{AllByRecursion};
ghost use Rattle.shore_types.specs.declared.ids.PageId.{PageId};
ghost use Rattle.shore_types.specs.declared.ids.Rid.{Rid};
ghost use Rattle.shore_model.specs.declared.log_records.DirtyPage.{DirtyPage};
ghost use Rattle.shore_model.specs.declared.log_records.LogRecord.{LogRecord};
ghost use Rattle.shore_model.specs.Logs.{Lawful, MayFollow, has, image_in, image_of_record, in_doubt_in, is_commit, is_over, is_prepare, last_of, logged_writes, records_told, unanswered};
ghost use Rattle.shore_model.specs.Records.{WriteSet, overlays};
ghost use Rattle.laws_lives.specs.LogTells.{records_committed};
ghost use Rattle.laws_lives.specs.Views.{IsAmong};
ghost use Rattle.laws_lives.specs.DirtyPages.{HasAllUpTo, TableCovers, redo_begins_behind};
ghost use Rattle.laws_lives.specs.Pages.{LoggedPage, LoggedPages, IsAsOfOwnNumber, LacksNone, AreAsOfOwnNumbers, PagesLackNone, empty_page, redone_on, rid_on};
ghost use Rattle.laws_lives.specs.Recovery.{RecoveryState, RecoveryEvent, IsRecoverable, CrashMayLeave, LeadTo, MayCrash, after_crash, with_page_written};
ghost use Rattle.laws_lives.specs.Restarts.{IsRestartOf, RestartsTo};
ghost use Rattle.laws_lives.specs.Savepoints.{AnswersAbove, HasNoOtherWriter, IsSavedAt};
ghost use Rattle.laws_lives.specs.Undo.{HasNoLosers, IsUndoneTo};
ghost use Rattle.laws_lives.specs.UndoChains.{IsUndoChain, LastNamesNext};
ghost use Rattle.laws_lives.specs.Writers.{HasOneWriterAtMost, changes_id, image_committed};

/// A page that lacks none of the first n records lacks none of the first n + 1, once the next is redone on it.
pub fn redo_goes_on()
    ensures { (log : List LogRecord) (p : PageId) (n : ℕ) (r : LogRecord) (page : LoggedPage) → slice_get log n ≡ Some r →
        LacksNone log p n page → LacksNone log p (n + 1) (redone_on (n + 1) (image_in r.payload) p page) }
{}

/// The invariant holds after any events, crashes among them.
pub fn pages_are_kept()
    ensures { (s : RecoveryState) (events : List RecoveryEvent) (last : RecoveryState) → IsRecoverable s → LeadTo s events last → IsRecoverable last }
{}

/// Any pages that a crash may leave are as of their own numbers in any log that it may leave, and redo may begin at its first record.
pub fn crash_leaves_pages_that_stand()
    ensures stands { (s : RecoveryState) (n : ℕ) (left : LoggedPages) → IsRecoverable s → s.durable ≤ n → n ≤ length s.log → CrashMayLeave s left →
        AreAsOfOwnNumbers (take n s.log) left }
    ensures from_the_first { (log : List LogRecord) (left : LoggedPages) → AreAsOfOwnNumbers log left → PagesLackNone log 0 left }
{}

/// Once every record is redone, each slot in place is as the whole log leaves it.
pub fn redo_is_whole()
    ensures { (s : RecoveryState) → IsRecoverable s → s.redone ≡ length s.log →
        (p : PageId) (i : ℕ) → (s.in_place p).slots i ≡ image_of_record s.log (rid_on p i) }
{}

/// In a lawful log each id has one writer at most. The log leaves what is committed, overlaid by the writes of those that have not ended;
/// once no loser is left, that is what it tells.
pub fn lawful_lists_leave()
    ensures writer { (log : List LogRecord) (id : Rid) → Lawful log → HasOneWriterAtMost log id }
    ensures running { (log : List LogRecord) (id : Rid) (ts : List ℕ) → Lawful log → AllByRecursion (λ t. is_over t log ≡ false) ts →
        ((t : ℕ) → has (changes_id id) t log ≡ true → is_over t log ≡ false → IsAmong t ts) →
        image_of_record log id ≡ get (overlays (records_committed log) (map (logged_writes log) ts)) id }
    ensures told { (log : List LogRecord) (id : Rid) → Lawful log → HasNoLosers log → image_of_record log id ≡ get (records_told log) id }
{}

/// However often a restart loses power, the log that it works on stays lawful, tells just what that log told which was found at first, and has
/// the same transactions in doubt. Once all is redone and no loser is left, the pages in place show what was found.
pub fn restart_is_repeatable()
    ensures goes_on { (found : List LogRecord) (s : RecoveryState) (events : List RecoveryEvent) (last : RecoveryState) → IsRecoverable s →
        IsRestartOf found s → RestartsTo s events last → IsRecoverable last × IsRestartOf found last }
    ensures same { (found : List LogRecord) (s : RecoveryState) → Lawful found → IsRestartOf found s →
        Lawful s.log × (records_told s.log ≡ records_told found) × (in_doubt_in s.log ≡ in_doubt_in found) }
    ensures shows { (found : List LogRecord) (s : RecoveryState) → Lawful found → IsRecoverable s → IsRestartOf found s →
        s.redone ≡ length s.log → HasNoLosers s.log →
        (p : PageId) (i : ℕ) → (s.in_place p).slots i ≡ get (records_told found) (rid_on p i) }
    ensures after_a_crash { (s : RecoveryState) (n : ℕ) (left : LoggedPages) (begin : ℕ) (events : List RecoveryEvent) (last : RecoveryState) →
        IsRecoverable s → Lawful s.log → MayCrash s n left begin → RestartsTo (after_crash s n left begin) events last →
        last.redone ≡ length last.log → HasNoLosers last.log →
        (p : PageId) (i : ℕ) → (last.in_place p).slots i ≡ get (records_told (take n s.log)) (rid_on p i) }
{}

/// From every lawful log there are turns of undo that leave no loser.
pub fn undo_ends()
    ensures { (log : List LogRecord) → Lawful log → (ts : List ℕ) × (last : List LogRecord) × IsUndoneTo log ts last × HasNoLosers last }
{}

/// Each unanswered Change stands at its number, and before it the older ones were the unanswered ones. While a transaction has neither prepared
/// nor ended, its last record says which is to be undone next.
pub fn undo_follows_the_chain()
    ensures chain { (log : List LogRecord) (t : ℕ) → IsUndoChain log t (unanswered t log) }
    ensures next { (log : List LogRecord) (t : ℕ) → Lawful log → 0 < t → has is_prepare t log ≡ false → is_over t log ≡ false →
        0 < last_of t log → LastNamesNext log t }
{}

/// A savepoint may be taken of what a transaction has written. It stays right with every record of others and with its own, as long as
/// Compensations answer Changes above its depth alone; back at its depth, what it saved stands over what is committed by then.
pub fn savepoints_come_back()
    ensures taken { (log : List LogRecord) (t : ℕ) (W : WriteSet) →
        ((id : Rid) → has (changes_id id) t log ≡ false → get W id ≡ None) →
        ((id : Rid) → HasNoOtherWriter log t id → image_of_record log id ≡ unwrap_or (get W id) (image_committed log id)) →
        IsSavedAt log t W (length (unanswered t log)) }
    ensures others { (log : List LogRecord) (r : LogRecord) (t : ℕ) (W : WriteSet) (depth : ℕ) → Lawful log → MayFollow log r →
        is_over t log ≡ false → IsSavedAt log t W depth → r.txn ≢ t → IsSavedAt (log ++ r ∷ []) t W depth }
    ensures own { (log : List LogRecord) (r : LogRecord) (W : WriteSet) (depth : ℕ) → MayFollow log r → IsSavedAt log r.txn W depth →
        is_commit r.payload ≡ false → AnswersAbove log r.txn depth r.payload → IsSavedAt (log ++ r ∷ []) r.txn W depth }
    ensures back { (log : List LogRecord) (t : ℕ) (W : WriteSet) (id : Rid) → IsSavedAt log t W (length (unanswered t log)) →
        HasNoOtherWriter log t id → image_of_record log id ≡ unwrap_or (get W id) (image_committed log id) }
{}

/// By a right table of dirty pages, redo may begin behind the record that it gives, and may pass over a page up to the records that it surely
/// has. A longer log, a flush, and a crash that cuts the log behind the checkpoint's begin leave it right. Whether a page lacks a record can be
/// seen one by one: it lacks none of the first n if all of them that change it have numbers up to its own.
pub fn redo_may_begin_late()
    ensures begins { (log : List LogRecord) (begin : ℕ) (dirty : List DirtyPage) (pages : LoggedPages) → TableCovers log begin dirty pages →
        PagesLackNone log (redo_begins_behind begin dirty) pages }
    ensures skips { (log : List LogRecord) (p : PageId) (n sure : ℕ) (page : LoggedPage) → n + 1 ≤ sure →
        LacksNone log p (max n sure) page → LacksNone log p (max (n + 1) sure) page }
    ensures longer { (log more : List LogRecord) (begin : ℕ) (dirty : List DirtyPage) (pages : LoggedPages) →
        TableCovers log begin dirty pages → TableCovers (log ++ more) begin dirty pages }
    ensures flushed { (log : List LogRecord) (begin : ℕ) (dirty : List DirtyPage) (pages : LoggedPages) (p : PageId) (page : LoggedPage) (n : ℕ) →
        TableCovers log begin dirty pages → begin - 1 ≤ n → LacksNone log p n page → TableCovers log begin dirty (with_page_written pages p page) }
    ensures cut { (log : List LogRecord) (begin : ℕ) (dirty : List DirtyPage) (pages : LoggedPages) (n : ℕ) → TableCovers log begin dirty pages →
        begin - 1 ≤ n → ((p : PageId) → (pages p).number ≤ n) → n ≤ length log → TableCovers (take n log) begin dirty pages }
    ensures one_by_one { (log : List LogRecord) (p : PageId) (page : LoggedPage) (n : ℕ) → n ≤ length log → IsAsOfOwnNumber log p page →
        HasAllUpTo log p page n → LacksNone log p n page }
{}

/// The invariant holds of an empty log and empty pages that carry 0.
pub fn format_is_recoverable()
    ensures { IsRecoverable (record { log = []; durable = 0; redone = 0; volume = λ p. empty_page; in_place = λ p. empty_page }) }
{}

/// From every state of a lawful log there are steps of a restart after which all is redone and no loser is left.
pub fn restarts_can_come_through()
    ensures { (s : RecoveryState) → IsRecoverable s → Lawful s.log →
        (events : List RecoveryEvent) × (last : RecoveryState) × RestartsTo s events last × (last.redone ≡ length last.log) × HasNoLosers last.log }
{}
