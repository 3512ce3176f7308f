//! Laws, each the contract of an empty function.
ghost use Rattle.std.specs.Prelude.{◌≡◌, ◌++◌, ◌∷◌, [], ℕ, Bool, List, Option, Result, Ok, Err, Some, slice_get, take};
ghost use Rattle.shore_model.specs.declared.histories.Decision.TheVariants as Decision;
ghost use Rattle.shore_model.specs.declared.histories.Decision.{Decision as Decided};
ghost use Rattle.shore_model.specs.declared.histories.Entry.{Entry};
ghost use Rattle.shore_model.specs.declared.calls.Exchange.{Exchange};
ghost use Rattle.shore_model.specs.declared.progress.Progress.{Progress};
ghost use Rattle.shore_model.specs.Alone.{after_reply};
ghost use Rattle.shore_model.specs.Histories.{History, RunsAloneAfter, Sound, calls_of, decisions, serial, writes_in};
ghost use Rattle.shore_model.specs.Records.{Records};
ghost use Rattle.shore_keys.specs.declared.maps.KeyMap.{KeyMap};
ghost use Rattle.shore_keys.specs.declared.refusals.Refusal.{Refusal};
ghost use Rattle.shore_keys.specs.Exchanges.{GoesOn};
ghost use Rattle.shore_keys.specs.Maps.{Finds, Map, Mends, Puts, Represents, Takes};
ghost use Rattle.shore_keys.specs.Joined.{Act, Acts, AreRight, Found, Leaves, NonePrepares, PutIn, TakenOut, after_commits, history_over};

/// In a sound history in which nobody prepares, each committed transaction's acts were right on the map that those before it have left (`right`), and after any of the decisions the serial records represent the map
/// that the acts so far leave (`represents`): so what a crash keeps does, which is a beginning of them.
pub fn sound_histories_are_maps()
    ensures right { (k : KeyMap) (slots : ℕ) (R : Records) (es : List Entry) (m : Map) (acts : ℕ → List Act) → Sound (history_over slots R es) → NonePrepares (decisions es) → Represents R k m
        → ((t : ℕ) → Acts k (calls_of t es) (acts t)) → (n t : ℕ) → slice_get (decisions es) n ≡ Some (Decision.Commit t)
        → AreRight (acts t) (after_commits acts (take n (decisions es)) m) }
    ensures represents { (k : KeyMap) (slots : ℕ) (R : Records) (es : List Entry) (m : Map) (acts : ℕ → List Act) → Sound (history_over slots R es) → NonePrepares (decisions es) → Represents R k m
        → ((t : ℕ) → Acts k (calls_of t es) (acts t)) → (n : ℕ)
        → Represents (serial (writes_in (history_over slots R es)) R (take n (decisions es))) k (after_commits acts (take n (decisions es)) m) }
{}

/// What a transaction that has not ended was told stands before its commit too: if it runs alone on the records that some decisions leave, as a manager promises of one that is not prepared, and of those that decisions have left that
/// represent a map, its acts were right on that map.
pub fn readers_are_told_the_map()
    ensures { (k : KeyMap) (h : History) (before : List Decided) (t : ℕ) (m : Map) (acts : List Act) → RunsAloneAfter h before t → Represents (serial (writes_in h) h.opening.records before) k m
        → Acts k (calls_of t h.entries) acts → AreRight acts m }
{}

/// The way to `Acts`, from what a transaction's calls have said, one after another: it begins with no act (`begins`), each find, put and take adds one (`found`, `put`, `taken`), and what leaves the map adds none (`leaves`).
pub fn acts_go_on()
    ensures begins { (k : KeyMap) → Acts k [] [] }
    ensures found { (k : KeyMap) (es more : List Exchange) (acts : List Act) (key : List ℕ) (value : Option (List ℕ)) → Acts k es acts → GoesOn (Finds k key (Ok value)) es more
        → Acts k more (acts ++ Found key value ∷ []) }
    ensures put { (k : KeyMap) (es more : List Exchange) (acts : List Act) (key value : List ℕ) → Acts k es acts → GoesOn (Puts {A = Unit {0}} k key value (Ok tt)) es more
        → Acts k more (acts ++ PutIn key value ∷ []) }
    ensures taken { (k : KeyMap) (es more : List Exchange) (acts : List Act) (key : List ℕ) (was : Bool) → Acts k es acts → GoesOn (Takes k key (Ok was)) es more
        → Acts k more (acts ++ TakenOut key was ∷ []) }
    ensures leaves { (k : KeyMap) (es more : List Exchange) (acts : List Act) → Acts k es acts → GoesOn (Leaves k) es more → Acts k more acts }
{}

/// What leaves a map: a find, put or take that is refused, each mend, and each other call that changes nothing, as a begin, a get, or a commit.
pub fn refusals_leave_the_map()
    ensures find { (k : KeyMap) (es more : List Exchange) (key : List ℕ) (fault : Refusal) → GoesOn (Finds k key (Err fault)) es more → GoesOn (Leaves k) es more }
    ensures put { (k : KeyMap) (es more : List Exchange) (key value : List ℕ) (fault : Refusal) → GoesOn (Puts {A = Unit {0}} k key value (Err fault)) es more → GoesOn (Leaves k) es more }
    ensures take { (k : KeyMap) (es more : List Exchange) (key : List ℕ) (fault : Refusal) → GoesOn (Takes k key (Err fault)) es more → GoesOn (Leaves k) es more }
    ensures mend { (k : KeyMap) (es more : List Exchange) (result : Result (Unit {0}) Refusal) → GoesOn (Mends k result) es more → GoesOn (Leaves k) es more }
    ensures other { (k : KeyMap) (es : List Exchange) (e : Exchange) → ((p : Progress) → after_reply p e.call e.reply ≡ p) → GoesOn (Leaves k) es (es ++ e ∷ []) }
{}
