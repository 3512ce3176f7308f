//! The laws of lives, each stated as the contract of an empty function.
ghost use Rattle.std.specs.Prelude.{◌≡◌, ◌≤◌, [], ℕ, List, length, map, take};
ghost use Rattle.std.specs.FinMap.{empty, get};
ghost use Rattle.shore_types.specs.declared.ids.Rid.{Rid};
ghost use Rattle.shore_model.specs.declared.histories.Entry.{Entry};
ghost use Rattle.shore_model.specs.declared.log_records.LogRecord.{LogRecord};
ghost use Rattle.shore_model.specs.Histories.{IsHistory, Kept, Sound, in_doubt, shown};
ghost use Rattle.shore_model.specs.Lives.{IsLife};
ghost use Rattle.shore_model.specs.Logs.{Lawful, image_of_record, records_told};
ghost use Rattle.shore_model.specs.declared.histories.Opening.{Opening};
ghost use Rattle.shore_model.specs.Lives.{next_opening};
ghost use Rattle.laws_lives.specs.Doubts.{AreRestored, IsOpeningOf, TracksDoubts, undo_in};
ghost use Rattle.laws_lives.specs.Sessions.{SessionTxn, pair_of, txns_of};
ghost use Rattle.laws_lives.specs.Views.{IsAmong};
ghost use Rattle.laws_lives.specs.Recovery.{IsRecoverable, RecoveryState};
ghost use Rattle.laws_lives.specs.LogPrefixes.{TellsItsDecisions, decisions_in};
ghost use Rattle.laws_lives.specs.LogTells.{IsLogAfter};
ghost use Rattle.laws_lives.specs.Logged.{log_after};
ghost use Rattle.laws_lives.specs.SessionSteps.{SessionEvent, StepsTo};
ghost use Rattle.laws_lives.specs.Sessions.{Sessions};
ghost use Rattle.laws_lives.specs.ManagerSteps.{RunsOver};
ghost use Rattle.laws_lives.specs.Soundness.{IsSoundAfter, SessionsAgree, history_from, opening_with, written_by};
ghost use Rattle.laws_lives.specs.Stretches.{AreStretches, IsStretch, IsUpAfter, MayBeFound, MayFailAs, OpensGiveBack, OpensShow, Stretch, just_formatted, left_at_last, left_by_crash, opening_after, span_of, spans_of};
ghost use Rattle.laws_lives.specs.WholeLogs.{IsOpenOn, IsWholeLog, RunsWithLog};

/// Each event of the sessions keeps the log whole, and a whole log leaves at each id the record in place. So it is after any events from an
/// open on, in which transactions may be in doubt; then the log is lawful, as is each prefix of it, and the history is sound.
pub fn lists_are_whole()
    ensures each { (o : Opening) (es : List Entry) (old new : Sessions) (e : SessionEvent) (log : List LogRecord) →
        IsSoundAfter o es old → IsLogAfter o es old log → TracksDoubts log old → IsWholeLog log old → StepsTo old e new → IsWholeLog (log_after log old e) new }
    ensures in_place { (o : Opening) (es : List Entry) (s : Sessions) (log : List LogRecord) (id : Rid) →
        IsSoundAfter o es s → IsLogAfter o es s log → IsWholeLog log s → image_of_record log id ≡ get s.records id }
    ensures run { (o : Opening) (found log : List LogRecord) (first last : Sessions) (events : List SessionEvent) (made : List Entry) →
        IsOpenOn o found first → RunsWithLog first found events [] last log made →
        Lawful log × ((n : ℕ) → Lawful (take n log)) × IsWholeLog log last × IsLogAfter o made last log
        × ((id : Rid) → image_of_record log id ≡ get last.records id)
        × IsHistory (history_from o made) × Sound (history_from o made) × SessionsAgree o made last × TracksDoubts log last }
{}

/// A manager that has opened over a restart, with crashes in it or none, and works on, with pages flushed whenever the write-ahead rule lets
/// them be: the open showed what the found log tells, the history is sound, the log lawful, and the pages have the records in place. Whenever
/// power is lost, in the midst of an event too, each prefix of the log that has all that is durable keeps every acknowledged decision, tells what
/// its decisions show, and opens as they say.
pub fn managers_stay_up()
    ensures opens { (o : Opening) (s : RecoveryState) (l : Stretch) → MayBeFound s → IsOpeningOf s.log o → IsUpAfter o s l → l.first.records ≡ records_told s.log }
    ensures sound { (o : Opening) (s : RecoveryState) (l : Stretch) → MayBeFound s → IsOpeningOf s.log o → IsUpAfter o s l →
        IsHistory (history_from o l.made) × Sound (history_from o l.made) × Lawful l.last.store.log × IsRecoverable l.last.store }
    ensures pages { (o : Opening) (s : RecoveryState) (l : Stretch) (id : Rid) → MayBeFound s → IsOpeningOf s.log o → IsUpAfter o s l →
        (l.last.store.in_place id.page).slots id.slot ≡ get l.last.sessions.records id }
    ensures kept { (o : Opening) (s : RecoveryState) (l : Stretch) (failing : RecoveryState) (n : ℕ) → MayBeFound s → IsOpeningOf s.log o → IsUpAfter o s l → MayFailAs l.last failing →
        failing.durable ≤ n → n ≤ length failing.log →
        Kept l.made (decisions_in (length s.log) (take n failing.log)) × TellsItsDecisions (length s.log) o (written_by o l.made) (take n failing.log)
        × (records_told (take n failing.log) ≡ shown (history_from o l.made) (decisions_in (length s.log) (take n failing.log))) }
{}

/// Any number of stretches, from a format on or from whatever else may be found, are a life: each history is sound, each crash keeps what was
/// acknowledged, and the kept decisions make the next opening. Each open shows what the log told that its stretch found, which is what its opening shows: with the
/// changes of those in doubt in place; and it gives exactly those in doubt back whom its opening has. What the last crash leaves may be found again, and opens as the kept decisions say.
pub fn lives_go_on()
    ensures life { (o : Opening) (s : RecoveryState) (ls : List Stretch) → MayBeFound s → IsOpeningOf s.log o → AreStretches o s ls →
        IsLife o (spans_of s ls) (opening_after o (spans_of s ls)) }
    ensures shown { (o : Opening) (s : RecoveryState) (ls : List Stretch) → MayBeFound s → IsOpeningOf s.log o → AreStretches o s ls → OpensShow o s ls }
    ensures doubts { (o : Opening) (s : RecoveryState) (ls : List Stretch) → AreStretches o s ls → OpensGiveBack o s ls }
    ensures left { (o : Opening) (s : RecoveryState) (ls : List Stretch) → MayBeFound s → IsOpeningOf s.log o → AreStretches o s ls →
        MayBeFound (left_at_last s ls) × IsOpeningOf (left_at_last s ls).log (opening_after o (spans_of s ls)) }
    ensures first { (slots : ℕ) → MayBeFound just_formatted × IsOpeningOf just_formatted.log (opening_with slots empty) }
{}

/// Exactly those return in doubt after a crash whom the kept decisions leave so, under way, with undo lists that undo them, with EX on the granules of their Prepares and
/// IX above them, and nothing else is held.
pub fn doubts_return()
    ensures { (o : Opening) (s : RecoveryState) (l next : Stretch) → MayBeFound s → IsOpeningOf s.log o → IsStretch o s l → IsUpAfter (next_opening o (span_of s l)) (left_by_crash l) next →
        let kept = decisions_in (length s.log) (take l.survive l.failing.log) in
        let doubts = in_doubt o.in_doubt kept in
        (map pair_of next.first.prepared ≡ doubts) × (txns_of next.first.active ≡ map (λ p. p.0) doubts)
        × ((a : SessionTxn) → IsAmong a next.first.active → a.undo ≡ undo_in next.ready.log a.txn) × AreRestored next.ready.log next.first.held
        × (next.first.records ≡ shown (history_from o l.made) kept) }
{}

/// Nothing that the sessions may do is lost by the join: from whatever may be found a restart comes through, and over it sessions open of which
/// every run can happen, with a crash after it, if its tickets are those of the log, whatever is durable before each event, and its answers are as that allows.
pub fn sessions_can_act()
    ensures { (o : Opening) (s : RecoveryState) → MayBeFound s → IsOpeningOf s.log o →
        (ready : RecoveryState) × (first : Sessions) × ((events : List SessionEvent) (last : Sessions) (made : List Entry) → RunsOver first ready.log ready.durable events [] last made →
        (l : Stretch) × IsStretch o s l × (l.first ≡ first) × (l.ready ≡ ready) × (l.made ≡ made) × (l.last.sessions ≡ last)) }
{}
