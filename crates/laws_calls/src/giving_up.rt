//! A wait for a lock that is taken back: what goes on, what is left, and when it can be.
ghost use Rattle.std.specs.Prelude.{◌≡◌, ◌++◌, ℕ, List, [], false, true};
ghost use Rattle.shore_types.specs.declared.faults.Fault.TheVariants as fault;
ghost use Rattle.shore_types.specs.declared.locking.Granule.{Granule};
ghost use Rattle.shore_model.specs.declared.histories.Entry.{Entry};
ghost use Rattle.shore_model.specs.declared.histories.Opening.{Opening};
ghost use Rattle.shore_model.specs.declared.log_records.LogRecord.{LogRecord};
ghost use Rattle.shore_model.specs.Requests.{HasNoCycle, WaitsFor, placed_last};
ghost use Rattle.shore_model.specs.declared.step.Step.{Step};
ghost use Rattle.shore_model.specs.declared.step.Step.TheVariants.{Nothing, Refused};
ghost use Rattle.shore_model.specs.declared.step.Wait.TheVariants.{Lock};
ghost use Rattle.shore_locks.specs.Tables.{is_waiting};
ghost use Rattle.shore_path.specs.Acquires.{NoneWeaker, OthersOnlyGranted};
ghost use Rattle.laws_lives.specs.Sessions.{SessionTxn};
ghost use Rattle.laws_lives.specs.Views.{IsAmong};
ghost use Rattle.laws_calls.specs.CallHistories.{IsRoomyState};
ghost use Rattle.laws_calls.specs.Events.{IsStateAfter, entries_of_resume};
ghost use Rattle.laws_calls.specs.GivingUp.{GivesUp, GiveUpStep};
ghost use Rattle.laws_calls.specs.Midway.{but_doomed};
ghost use Rattle.laws_calls.specs.SessionWaits.{AllWaitThere};
ghost use Rattle.laws_calls.specs.States.{DoesNotWait, IsOfSession, State, Waiting};
ghost use Rattle.shore_types.specs.declared.versions.Version.{Version};

/// A wait that is taken back goes on with the history, by the entry of a call that is refused. Room on pages and in the log stays, each request is where its call waits, and no
/// cycle of waits comes.
pub fn waits_taken_back_keep_state()
    ensures state { (o : Opening) (found : List LogRecord) (es : List Entry) (old new : State) (session : ℕ) (step : Step) → IsStateAfter o found es old →
        GivesUp old session step new → IsStateAfter o found (es ++ entries_of_resume old session step) new }
    ensures room { (v : Version) (old new : State) (session : ℕ) (step : Step) → IsRoomyState v old → GiveUpStep old session step new → IsRoomyState v new }
    ensures there { (o : Opening) (found : List LogRecord) (es : List Entry) (old new : State) (session : ℕ) (step : Step) → IsStateAfter o found es old → AllWaitThere old →
        GivesUp old session step new → AllWaitThere new }
    ensures cycles { (o : Opening) (found : List LogRecord) (es : List Entry) (old new : State) (session : ℕ) (step : Step) → IsStateAfter o found es old →
        HasNoCycle old.locks.requests → GivesUp old session step new → HasNoCycle new.locks.requests }
{}

/// It changes locks and calls that wait, and nothing else; nobody is doomed. The session's call waits no more, and its transaction stays, with what it held. Others keep
/// their requests, or are granted what they wait for.
pub fn waits_taken_back_change_waits_alone()
    ensures alone { (old new : State) (session : ℕ) (step : Step) → GiveUpStep old session step new → new ≡ but_doomed old [] new }
    ensures idle { (old new : State) (session : ℕ) (step : Step) → GivesUp old session step new → DoesNotWait new session }
    ensures quiet { (o : Opening) (found : List LogRecord) (es : List Entry) (old new : State) (session : ℕ) (step : Step) → IsStateAfter o found es old → (h : GivesUp old session step new) →
        is_waiting h.txn.txn new.locks.requests ≡ false }
    ensures others { (o : Opening) (found : List LogRecord) (es : List Entry) (old new : State) (session : ℕ) (step : Step) → IsStateAfter o found es old → (h : GivesUp old session step new) →
        OthersOnlyGranted old.locks.requests new.locks.requests h.txn.txn }
    ensures none_weaker { (o : Opening) (found : List LogRecord) (es : List Entry) (old new : State) (session : ℕ) (step : Step) → IsStateAfter o found es old →
        GivesUp old session step new → NoneWeaker old.locks.requests new.locks.requests }
    ensures transaction { (old new : State) (session : ℕ) (step : Step) → (h : GivesUp old session step new) → IsOfSession new session h.txn }
{}

/// Whoever is named is one for whom the transaction would wait if it asked now. As long as no device has failed each wait in the lock table can be taken back, and where
/// there is nothing to take back the session's transaction does not wait there.
pub fn waits_can_be_taken_back()
    ensures named { (old new : State) (session : ℕ) (step : Step) → (h : GivesUp old session step new) → WaitsFor (placed_last h.request old.locks.requests) h.txn.txn h.holder }
    ensures can { (o : Opening) (found : List LogRecord) (es : List Entry) (s : State) (session : ℕ) (w : Waiting) (at : Granule) (a : SessionTxn) → IsStateAfter o found es s →
        s.failed ≡ false → IsAmong w s.waiting → w.session ≡ session → w.wait ≡ Lock at → IsOfSession s session a → is_waiting a.txn s.locks.requests ≡ true →
        (holder : ℕ) × (new : State) × GivesUp s session (Refused (fault.WouldBlock holder)) new }
    ensures nothing { (o : Opening) (found : List LogRecord) (es : List Entry) (s new : State) (session : ℕ) (a : SessionTxn) → IsStateAfter o found es s → s.failed ≡ false →
        IsOfSession s session a → GiveUpStep s session Nothing new → is_waiting a.txn s.locks.requests ≡ false }
{}
