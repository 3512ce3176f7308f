//! The laws of commits that are answered before they are durable, and of their tickets, each stated as the contract of an empty function.
ghost use Rattle.std.specs.Prelude.{◌≡◌, ◌≢◌, ◌<◌, ◌≤◌, ◌↔◌, ◌∷◌, ◌++◌, ℕ, Bool, List, [], true, false, All, None, Some, length, take};
ghost use Rattle.std.specs.FinMap.{get};
ghost use Rattle.std.specs.List.{AllByRecursion};
ghost use Rattle.shore_types.specs.declared.ids.Rid.{Rid};
ghost use Rattle.shore_model.specs.declared.histories.Decision.{Decision};
ghost use Rattle.shore_model.specs.declared.histories.Decision.TheVariants.{Commit, Prepare};
ghost use Rattle.shore_model.specs.declared.histories.Entry.{Entry};
ghost use Rattle.shore_model.specs.declared.histories.Entry.TheVariants.{Asked};
ghost use Rattle.shore_model.specs.declared.histories.Opening.{Opening};
ghost use Rattle.shore_model.specs.declared.log_records.LogRecord.{LogRecord};
ghost use Rattle.shore_model.specs.Histories.{Kept, Sound, acknowledged, decisions, free, tickets};
ghost use Rattle.shore_model.specs.Locks.{MayRead};
ghost use Rattle.shore_model.specs.Records.{Records};
ghost use Rattle.laws_lives.specs.Doubts.{IsOpeningOf};
ghost use Rattle.laws_lives.specs.LogPrefixes.{IsDecidedIn, LogDecides, decisions_in};
ghost use Rattle.laws_lives.specs.ManagerSteps.{TellsTicket, ManagerState, ManagerStepsTo, RunsOver, Serve, decision_resolved};
ghost use Rattle.laws_lives.specs.Recovery.{RecoveryEvent, RecoveryState};
ghost use Rattle.laws_lives.specs.SessionSteps.{AppendCommit, Ask, KeepsLocks, SessionEvent, StepsTo};
ghost use Rattle.laws_lives.specs.Sessions.{IsFree, PreparedTxn, ResolvedTxn, SessionTxn, Sessions, txns_of};
ghost use Rattle.laws_lives.specs.Soundness.{IsSoundAfter, decided_txn, history_from, opening_with, serial_after, written_by};
ghost use Rattle.laws_lives.specs.Stretches.{IsUpAfter, MayBeFound, MayFailAs, Stretch};
ghost use Rattle.laws_lives.specs.Tickets.{AreTickets, IsTicket, answered_durable};
ghost use Rattle.laws_lives.specs.Views.{IsAmong};
ghost use Rattle.laws_lives.specs.WholeLogs.{IsOpenOn, RunsWithLog};
ghost use Rattle.laws_lives.specs.WorkedCommits.{asked_too_low, lazily_committed, read_too_early, unrecorded};
ghost use Rattle.laws_lives.specs.WorkedRun.{just_opened};

/// As the record of a commit is appended, its locks go, those of others stay, its transaction is under way no longer, and its session is in none.
pub fn commits_end_at_once()
    ensures locks { (s new : Sessions) (a : SessionTxn) (ticket : ℕ) → StepsTo s (AppendCommit a ticket) new → All (λ h. h.txn ≢ a.txn) new.held }
    ensures others { (s new : Sessions) (a : SessionTxn) (ticket t : ℕ) → StepsTo s (AppendCommit a ticket) new → t ≢ a.txn → KeepsLocks s.held new.held t }
    ensures gone { (s new : Sessions) (a : SessionTxn) (ticket : ℕ) → StepsTo s (AppendCommit a ticket) new → IsAmong a.txn (txns_of new.active) → ⊥ }
    ensures freed { (s new : Sessions) (a : SessionTxn) (ticket : ℕ) → StepsTo s (AppendCommit a ticket) new → new.seats a.session ≡ free }
{}

/// A ticket is the number of its commit's record, in the log of the manager that gave it, behind all that this manager's first restart found. So no two of its
/// commits have the same; a number of which it has given no ticket, as one that another manager gave, acknowledges nothing when it is asked for.
pub fn tickets_name_commits()
    ensures number { (o : Opening) (s : RecoveryState) (l : Stretch) (ticket t : ℕ) → MayBeFound s → IsOpeningOf s.log o → IsUpAfter o s l → IsAmong (ticket, t) (tickets l.made) →
        IsTicket (length s.log) l.last.store.log ticket t }
    ensures one { (base : ℕ) (log : List LogRecord) (ticket t u : ℕ) → IsTicket base log ticket t → IsTicket base log ticket u → t ≡ u }
    ensures of_others { (es : List Entry) (ticket : ℕ) (durable : Bool) → AllByRecursion (λ p. p.0 ≢ ticket) (tickets es) → acknowledged (es ++ Asked ticket durable ∷ []) ≡ acknowledged es }
{}

/// It can be asked in each state whether a ticket is durable, and this changes nothing. The answer is yes exactly if as many records are durable. Whoever sees by other means that
/// they are, of however many tickets, may take that for such an answer: what any crash keeps, keeps these commits.
pub fn tickets_are_answered()
    ensures always { (m : ManagerState) (ticket : ℕ) → (durable : Bool) × ManagerStepsTo m (Serve (Ask ticket durable) []) m }
    ensures exactly { (m new : ManagerState) (ticket : ℕ) (durable : Bool) (works : List RecoveryEvent) → ManagerStepsTo m (Serve (Ask ticket durable) works) new →
        ((durable ≡ true) ↔ (ticket ≤ m.store.durable)) × (new.sessions ≡ m.sessions) × (new.store.log ≡ m.store.log) }
    ensures seen { (o : Opening) (s : RecoveryState) (l : Stretch) (failing : RecoveryState) (seen : List ℕ) (n : ℕ) → MayBeFound s → IsOpeningOf s.log o → IsUpAfter o s l → MayFailAs l.last failing →
        AllByRecursion (λ ticket. ticket ≤ failing.durable) seen → failing.durable ≤ n → n ≤ length failing.log →
        Kept (l.made ++ answered_durable seen) (decisions_in (length s.log) (take n failing.log)) }
{}

/// Whoever reads what another's commit has left comes later in the log, also if it changes nothing itself. What a transaction may read, and has not written, is what the
/// decisions so far have left. And whatever prefix of a later log keeps a decision of a transaction that is under way now keeps all those decisions. Its ticket is above all that
/// were given before.
pub fn readers_come_later()
    ensures reads { (o : Opening) (es : List Entry) (s : Sessions) (a : SessionTxn) (id : Rid) → IsSoundAfter o es s → IsAmong a s.active → a.undo.rolling ≡ None → MayRead s.held a.txn id →
        get (written_by o es a.txn) id ≡ None → get s.records id ≡ get (serial_after o es) id }
    ensures kept { (base : ℕ) (o : Opening) (es : List Entry) (s last : Sessions) (log all : List LogRecord) (events : List SessionEvent) (made : List Entry) (t n : ℕ) (d : Decision) →
        IsSoundAfter o es s → LogDecides base o es log → IsAmong t (txns_of s.active) → IsFree s t → RunsWithLog s log events es last all made →
        decided_txn d ≡ t → IsAmong d (decisions_in base (take n all)) → AllByRecursion (λ before. IsAmong before (decisions_in base (take n all))) (decisions es) }
    ensures ticket { (base durable : ℕ) (log : List LogRecord) (es : List Entry) (a : SessionTxn) (ticket earlier t : ℕ) → AreTickets base log es → IsAmong (earlier, t) (tickets es) →
        TellsTicket durable log (AppendCommit a ticket) → earlier < ticket }
{}

/// Whoever waits for the answer of a prepare or of a resolve has the record of its decision in the log: once that is forced, the answer may come.
pub fn waits_end_with_a_force()
    ensures prepares { (o : Opening) (found all : List LogRecord) (first last : Sessions) (events : List SessionEvent) (made : List Entry) (p : PreparedTxn) → IsOpenOn o found first →
        RunsWithLog first found events [] last all made → IsAmong p last.prepared → p.answered ≡ false → IsDecidedIn all (Prepare p.txn p.global) }
    ensures resolves { (o : Opening) (found all : List LogRecord) (first last : Sessions) (events : List SessionEvent) (made : List Entry) (r : ResolvedTxn) → IsOpenOn o found first →
        RunsWithLog first found events [] last all made → IsAmong r last.resolving → IsDecidedIn all (decision_resolved r) }
{}

/// One session commits and another reads what it wrote and commits, and nothing is durable: nothing is acknowledged, and a crash may leave nothing. Once the record of the first commit
/// is durable, its ticket is, and the commit is acknowledged.
pub fn lazy_commits_are_acknowledged_later()
    ensures not_yet { (o : Records) (a : Rid) (x z : List ℕ) → get o a ≡ Some x →
        (last : Sessions) × (made : List Entry) × RunsOver (just_opened 2042 o) [] 0 (lazily_committed o a z false) [] last made
        × (decisions made ≡ Commit 1 ∷ Commit 2 ∷ []) × (acknowledged made ≡ []) × Kept made [] }
    ensures then { (o : Records) (a : Rid) (x z : List ℕ) → get o a ≡ Some x →
        (last : Sessions) × (made : List Entry) × RunsOver (just_opened 2042 o) [] 0 (lazily_committed o a z true) [] last made
        × (acknowledged made ≡ Commit 1 ∷ []) × (Kept made [] → ⊥) × Kept made (Commit 1 ∷ []) }
{}

/// What goes wrong otherwise. If the locks of a commit went before its record is appended, who reads what it wrote could come first, and the history is not sound. If a ticket
/// were below its Commit, it would be told durable while a crash may still lose the commit. And if a reader committed with no record, it would be acknowledged with no decision.
pub fn wrong_commits_are_not_kept()
    ensures early { (o : Records) (a : Rid) (x z : List ℕ) → get o a ≡ Some x → x ≢ z → Sound (history_from (opening_with 2042 o) (read_too_early a z)) → ⊥ }
    ensures below { (a : Rid) (z : List ℕ) → Kept (asked_too_low a z) [] → ⊥ }
    ensures unrecorded { (a : Rid) (z : List ℕ) (ds : List Decision) → Kept (unrecorded a z) ds → ⊥ }
{}
