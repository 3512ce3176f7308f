//! The laws of the control, each stated as the contract of an empty function.
ghost use Rattle.std.specs.Prelude.{◌≡◌, ℕ, List, Ok, false};
ghost use Rattle.shore_types.specs.declared.ids.Rid.{Rid};
ghost use Rattle.shore_types.specs.declared.locking.Granule.TheVariants.{Record};
ghost use Rattle.shore_types.specs.declared.locking.Mode.TheVariants.{EX};
ghost use Rattle.shore_model.specs.declared.histories.Entry.{Entry};
ghost use Rattle.shore_model.specs.declared.histories.Opening.{Opening};
ghost use Rattle.shore_model.specs.declared.log_records.LogRecord.{LogRecord};
ghost use Rattle.shore_locks.specs.Tables.{is_waiting};
ghost use Rattle.shore_path.specs.declared.answers.Acquired.TheVariants.{Done};
ghost use Rattle.shore_path.specs.declared.answers.OnConflict.{OnConflict};
ghost use Rattle.shore_path.specs.Walks.{acquired};
ghost use Rattle.laws_room.specs.Claims.{NoOthers};
ghost use Rattle.laws_lives.specs.Logged.{next_to_undo};
ghost use Rattle.laws_lives.specs.LogTells.{MatchesUndo};
ghost use Rattle.laws_lives.specs.Sessions.{ResolvedTxn, SessionTxn, Sessions};
ghost use Rattle.laws_lives.specs.Soundness.{SessionsAgree};
ghost use Rattle.laws_calls.specs.LockedStates.{IsSessionsState};
ghost use Rattle.laws_calls.specs.Resolves.{resolve_told};
ghost use Rattle.laws_calls.specs.States.{HasSeat, State};
ghost use Rattle.shore_txn.specs.Txns.{entries_of, number_of};
ghost use Rattle.shore_txn.specs.UndoEntries.{images_of, number_behind};
ghost use Rattle.shore_txn.specs.declared.txn.Txn.{Txn};
ghost use Rattle.shore_sessions.specs.Seated.{NamesDiffer};
ghost use Rattle.shore_sessions.specs.Standing.{HasControl, HasControlBut, IsLogged};
ghost use Rattle.shore_sessions.specs.declared.control.Control.{Control};

/// A transaction that has locked a record for writing is the only one with an image of it to put back.
pub fn writers_are_alone()
    ensures { (o : Opening) (found : List LogRecord) (es : List Entry) (s : State) (a : SessionTxn) (on_conflict : OnConflict) (id : Rid) →
        IsSessionsState o found es s → HasSeat s.sessions a → is_waiting a.txn s.locks.requests ≡ false
        → (acquired on_conflict s.locks a.txn (Record id) EX).answer ≡ Ok Done → NoOthers s.sessions.active a.txn id }
{}

/// A transaction that has its records in a log tells what a Compensation of its newest change names there, and its undo list is that of the log.
pub fn undo_lists_are_logged()
    ensures undo_next { (log : List LogRecord) (t : Txn) → IsLogged log t → number_behind (entries_of t) ≡ next_to_undo (number_of t) log }
    ensures images { (log : List LogRecord) (t : Txn) → IsLogged log t → MatchesUndo log (number_of t) (images_of (entries_of t)) }
{}

/// By a history, no global id is in use for two transactions.
pub fn names_in_use_differ()
    ensures { (o : Opening) (es : List Entry) (s : Sessions) → SessionsAgree o es s → NamesDiffer s }
{}

/// A resolve whose rollback has ended, and which does not wait, is answered: the control stands for the state in which it is.
pub fn ended_rollbacks_are_answered()
    ensures { (control : Control) (s : State) (session : ℕ) (r : ResolvedTxn) → HasControlBut r control s → HasControl control (resolve_told s session r) }
{}
