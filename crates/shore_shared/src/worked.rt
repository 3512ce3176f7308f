//! A life of clients worked by hand, and for each word of what clients are told the shortest run that it does not fit. Each law is the contract of an empty function.
ghost use Rattle.std.specs.Prelude.{◌≡◌, ◌≢◌, ◌<◌, ◌++◌, ◌∷◌, ℕ, Bool, false, true, List, [], None, Some, Result, Ok, Err};
ghost use Rattle.shore_types.specs.declared.faults.Fault.{Fault};
ghost use Rattle.shore_types.specs.declared.faults.Fault.TheVariants as fault;
ghost use Rattle.shore_types.specs.declared.locking.Granule.{Granule};
ghost use Rattle.shore_model.specs.declared.calls.Answer.{Answer};
ghost use Rattle.shore_model.specs.declared.calls.Answer.TheVariants as answer;
ghost use Rattle.shore_model.specs.declared.calls.Call.{Call};
ghost use Rattle.shore_model.specs.declared.calls.Exchange.{Exchange};
ghost use Rattle.shore_model.specs.declared.step.Step.{Step};
ghost use Rattle.shore_model.specs.declared.step.Step.TheVariants as made;
ghost use Rattle.shore_model.specs.declared.step.Wait.{Wait};
ghost use Rattle.shore_model.specs.declared.step.Wait.TheVariants as wait;
ghost use Rattle.shore_words.specs.declared.rule.Heard.{Heard};
ghost use Rattle.shore_words.specs.declared.rule.Noted.{Noted};
ghost use Rattle.shore_shared.specs.Clients.{IsClientsLife, IsFromTrail};
ghost use Rattle.shore_shared.specs.Heard.{AwaitsLog, Hears, IsOfCommit};
ghost use Rattle.shore_shared.specs.Told.{AllHold, AreAllClaimed, AreClaimed, AreFresh, AreInTrail, AreTold, HasHeardSince, IsClaimed, Seen, Shown};
ghost use Rattle.shore_shared.specs.WorkedLife.{asks, by, claims_what_was_told, failed_with, goes_on, has_heard, is_told, unfailed, waits_and_is_repeated, worked_ends, worked_trail};

use crate::clients::Job;

/// A call that waits for a lock, goes on, needs a force, is made again and is done is answered by what it was done with (`call`). Two clients do two jobs, one of them with such a call while the other
/// goes on: what is claimed of each holds of their trail, and of a log in which the ticket of the one that commits is durable (`life`).
pub fn clients_wait_and_are_answered()
    ensures call { (failed : Bool) (c : Call) (g : Granule) (n : ℕ) (a : Answer) → Hears failed c (Some c) (waits_and_is_repeated c g n a) (Ok a) }
    ensures life { (txn ticket : ℕ) (c : Call) (g : Granule) (n : ℕ) (a : Answer) →
        AllHold claims_what_was_told (worked_trail txn ticket c g n a) (unfailed ticket) 2 (0 ∷ 1 ∷ []) (worked_ends txn ticket c a) }
{}

/// No call is answered what it did not come to: an answer that no step gave, or another; a refusal as an answer, or the other way round; a wait, or the need of a force. None is refused for lack of memory amid its
/// wait, and none by a device whose log it does not await, or while none has failed.
pub fn answers_that_no_step_gave()
    ensures nowhere { (c : Call) (a : Answer) → Hears true c (Some c) [] (Ok a) → ⊥ }
    ensures unasked { (c : Call) (f : Fault) → f ≢ fault.Memory → Hears true c (Some c) [] (Err f) → ⊥ }
    ensures other { (c : Call) (a b : Answer) → a ≢ b → Hears true c (Some c) (asks c (made.Done a) ∷ []) (Ok b) → ⊥ }
    ensures refused { (c : Call) (f : Fault) (a : Answer) → Hears true c (Some c) (asks c (made.Refused f) ∷ []) (Ok a) → ⊥ }
    ensures done { (c : Call) (a : Answer) (f : Fault) → Hears true c (Some c) (asks c (made.Done a) ∷ []) (Err f) → ⊥ }
    ensures nothing { (c : Call) (a : Answer) → Hears true c (Some c) (asks c made.Nothing ∷ []) (Ok a) → ⊥ }
    ensures waits { (c : Call) (w : Wait) (a : Answer) → Hears true c (Some c) (asks c (made.Waits w) ∷ []) (Ok a) → ⊥ }
    ensures force { (c : Call) (n : ℕ) → Hears true c (Some c) (asks c (made.Refused (fault.NeedForce n)) ∷ []) (Err (fault.NeedForce n)) → ⊥ }
    ensures amid { (c : Call) (w : Wait) → Hears true c (Some c) (asks c (made.Waits w) ∷ []) (Err fault.Memory) → ⊥ }
    ensures lock { (c : Call) (g : Granule) → Hears true c (Some c) (asks c (made.Waits (wait.Lock g)) ∷ []) (Err fault.Device) → ⊥ }
    ensures unfailed { (c : Call) (step : Step) → AwaitsLog step → Hears false c (Some c) (asks c step ∷ []) (Err fault.Device) → ⊥ }
{}

/// Nor does a session make another call than its client's, or that one twice, or one that waits anew, nor does it go on with one that is to be made again, or with one that was refused for good.
pub fn calls_that_were_not_the_clients()
    ensures another { (c d : Call) (step : Step) (later : List Heard) (r : Result Answer Fault) → d ≢ c → Hears true c (Some c) (asks d step ∷ later) r → ⊥ }
    ensures twice { (c : Call) (a : Answer) (h : Heard) (later : List Heard) (r : Result Answer Fault) → Hears true c (Some c) (asks c (made.Done a) ∷ h ∷ later) r → ⊥ }
    ensures anew { (c : Call) (w : Wait) (step : Step) (later : List Heard) (r : Result Answer Fault) → Hears true c (Some c) (asks c (made.Waits w) ∷ asks c step ∷ later) r → ⊥ }
    ensures instead { (c : Call) (n : ℕ) (step : Step) (later : List Heard) (r : Result Answer Fault) →
        Hears true c (Some c) (asks c (made.Refused (fault.NeedForce n)) ∷ goes_on step ∷ later) r → ⊥ }
    ensures after { (c : Call) (f : Fault) (h : Heard) (later : List Heard) (r : Result Answer Fault) → ((n : ℕ) → f ≢ fault.NeedForce n) → Hears true c (Some c) (asks c (made.Refused f) ∷ h ∷ later) r → ⊥ }
{}

/// An awaited commit comes to no other ticket than its call was answered with, to none where that was refused, and is refused by nothing but the device where it has one, and not while none has failed.
pub fn tickets_that_no_commit_has()
    ensures other { (a : Answer) (ticket : ℕ) → a ≢ answer.Committed ticket → IsOfCommit true (Ok a) (Ok ticket) → ⊥ }
    ensures refused { (f : Fault) (ticket : ℕ) → IsOfCommit true (Err f) (Ok ticket) → ⊥ }
    ensures fault { (ticket : ℕ) (f : Fault) → f ≢ fault.Device → IsOfCommit true (Ok (answer.Committed ticket)) (Err f) → ⊥ }
    ensures unfailed { (ticket : ℕ) → IsOfCommit false (Ok (answer.Committed ticket)) (Err fault.Device) → ⊥ }
{}

/// A client is told no more and no less than its session heard, and in that order; since some time, it has forgotten nothing.
pub fn clients_that_were_told_otherwise()
    ensures less { (h : Heard) (later : List Heard) → AreTold true [] (h ∷ later) → ⊥ }
    ensures more { (c : Call) (a : Answer) → AreTold true (is_told c a ∷ []) [] → ⊥ }
    ensures order { (c d : Call) (a b : Answer) → d ≢ c → AreTold true (is_told c a ∷ is_told d b ∷ []) (asks d (made.Done b) ∷ asks c (made.Done a) ∷ []) → ⊥ }
    ensures forgotten { (h : Heard) (es : List Exchange) → HasHeardSince true (h ∷ []) [] es → ⊥ }
    ensures since { (before : List Heard) (h : Heard) → HasHeardSince true before (before ++ h ∷ []) [] → ⊥ }
{}

/// No claim is of another session, of fewer clients than there are or of more, of a number that is not known to be durable or was known before, of a failure that was forgotten, of another client, or of calls that were not made.
pub fn claims_that_do_not_hold<J: Job>()
    ensures session { (heard : List Heard) (seen : Seen) → IsClaimed (λ told seen. told ≡ []) (has_heard 1 heard seen) (has_heard 2 heard seen) → ⊥ }
    ensures forgets { (heard : List Heard) (low more : ℕ) → low < more → IsClaimed (λ told seen. told ≡ []) (has_heard 1 heard (unfailed more)) (has_heard 1 heard (unfailed low)) → ⊥ }
    ensures failure { (heard : List Heard) (n : ℕ) → IsClaimed (λ told seen. told ≡ []) (has_heard 1 heard (failed_with n)) (has_heard 1 heard (unfailed n)) → ⊥ }
    ensures number { (heard : List Heard) → IsClaimed (λ told seen. seen.durable ≡ 3) (has_heard 1 heard (unfailed 3)) (has_heard 1 heard (unfailed 4)) → ⊥ }
    ensures told { (heard : List Heard) (c : Call) (a : Answer) (seen : Seen) →
        IsClaimed (λ told seen. told ≡ []) (has_heard 1 heard seen) (has_heard 1 (heard ++ asks c (made.Done a) ∷ []) seen) → ⊥ }
    ensures fewer { (job : J) (b : Shown) → AreClaimed (J.says job) 0 (b ∷ []) [] [] → ⊥ }
    ensures lost { (job : J) (b : Shown) (d : J.Done) → AreClaimed (J.says job) 0 (b ∷ []) (d ∷ []) [] → ⊥ }
    ensures nobody { (job : J) (d : J.Done) → AreClaimed (J.says job) 0 [] (d ∷ []) [] → ⊥ }
    ensures made_up { (job : J) (a : Shown) → AreClaimed (J.says job) 0 [] [] (a ∷ []) → ⊥ }
    ensures another { (b c x y : Shown) → AreClaimed (λ client d told seen. client ≡ d) 0 (b ∷ c ∷ []) (0 ∷ 0 ∷ []) (x ∷ y ∷ []) → ⊥ }
{}

/// Nor are the claims of jobs of which one was not done, of ends of no job, of jobs in another order, or of sessions that have called between them.
pub fn jobs_that_were_not_done<J: Job>()
    ensures not { (before after : List Shown) (job : J) → AreAllClaimed J.says before (job ∷ []) [] after → ⊥ }
    ensures nobodys { (before after : List Shown) (done : List J.Done) → AreAllClaimed J.says before [] (done ∷ []) after → ⊥ }
    ensures order { (b : Shown) (after : List Shown) → AreAllClaimed {J = ℕ} {D = ℕ} (λ job client d told seen. job ≡ d) (b ∷ []) (0 ∷ 1 ∷ []) ((1 ∷ []) ∷ (0 ∷ []) ∷ []) after → ⊥ }
    ensures between { (h : Heard) → AreAllClaimed J.says (has_heard 1 [] (unfailed 0) ∷ []) [] [] (has_heard 1 (h ∷ []) (unfailed 0) ∷ []) → ⊥ }
{}

/// Sessions that begin have the numbers from 1 on, each once, and have heard nothing.
pub fn sessions_that_are_not_fresh()
    ensures number { (heard : List Heard) → AreFresh 1 (has_heard 2 heard (unfailed 0) ∷ []) → ⊥ }
    ensures again { AreFresh 1 (has_heard 1 [] (unfailed 0) ∷ has_heard 1 [] (unfailed 0) ∷ []) → ⊥ }
    ensures heard { (h : Heard) → AreFresh 1 (has_heard 1 (h ∷ []) (unfailed 0) ∷ []) → ⊥ }
{}

/// A trail fits no session of another number, none that has heard what it has not or has not heard what it has, or that in another order, and none that has seen more than is durable, or a failure where there was none.
pub fn sessions_that_are_in_no_trail()
    ensures number { (heard : List Heard) → AreInTrail [] (unfailed 0) 1 (has_heard 2 heard (unfailed 0) ∷ []) → ⊥ }
    ensures more { (h : Heard) → AreInTrail [] (unfailed 0) 1 (has_heard 1 (h ∷ []) (unfailed 0) ∷ []) → ⊥ }
    ensures less { (h : Heard) → AreInTrail (by 1 h ∷ []) (unfailed 0) 1 (has_heard 1 [] (unfailed 0) ∷ []) → ⊥ }
    ensures order { (c d : Call) (a : Answer) → d ≢ c → AreInTrail (by 1 (asks c (made.Done a)) ∷ by 1 (asks d (made.Done a)) ∷ []) (unfailed 0) 1
        (has_heard 1 (asks d (made.Done a) ∷ asks c (made.Done a) ∷ []) (unfailed 0) ∷ []) → ⊥ }
    ensures others { (h : Heard) → AreInTrail (by 2 h ∷ []) (unfailed 0) 1 (has_heard 1 [] (unfailed 0) ∷ has_heard 2 [] (unfailed 0) ∷ []) → ⊥ }
    ensures seen { AreInTrail [] (unfailed 4) 1 (has_heard 1 [] (unfailed 5) ∷ []) → ⊥ }
    ensures failure { AreInTrail [] (unfailed 4) 1 (has_heard 1 [] (failed_with 4) ∷ []) → ⊥ }
{}

/// So the claims hold of no trail in which a session was called before the first job or after the last, or that has one of another number; and of no job that was not done.
pub fn claims_of_no_serve<J: Job>()
    ensures called { (h : Heard) → AllHold J.says (by 1 h ∷ []) (unfailed 0) 1 [] [] → ⊥ }
    ensures stranger { (h : Heard) → AllHold J.says (by 2 h ∷ []) (unfailed 0) 1 [] [] → ⊥ }
    ensures not { (noted : List Noted) (is : Seen) (clients : ℕ) (job : J) → AllHold J.says noted is clients (job ∷ []) [] → ⊥ }
    ensures fewer { (noted : List Noted) (is : Seen) (job : J) → AllHold J.says noted is 1 (job ∷ []) ([] ∷ []) → ⊥ }
{}

/// What is told of a trail by its clients' lives is as narrow: no answer is from it that it has not, or has of another session, of another call, or of one that went on and was never made; nor is a refusal of the call, or a device's failure where none has failed.
/// No life leaves out what the trail has of its session, a job, what a job came to, or a claim.
pub fn lives_in_no_trail<J: Job>()
    ensures nowhere { (c : Call) (a : Answer) → IsFromTrail [] true 1 (is_told c a) → ⊥ }
    ensures session { (c : Call) (a : Answer) → IsFromTrail (by 2 (asks c (made.Done a)) ∷ []) true 1 (is_told c a) → ⊥ }
    ensures call { (c d : Call) (a : Answer) → d ≢ c → IsFromTrail (by 1 (asks d (made.Done a)) ∷ []) true 1 (is_told c a) → ⊥ }
    ensures other { (c : Call) (a b : Answer) → b ≢ a → IsFromTrail (by 1 (asks c (made.Done b)) ∷ []) true 1 (is_told c a) → ⊥ }
    ensures unasked { (c : Call) (a : Answer) → IsFromTrail (by 1 (goes_on (made.Done a)) ∷ []) true 1 (is_told c a) → ⊥ }
    ensures refused { (c : Call) → IsFromTrail [] true 1 (record { call = c; reply = Err fault.NoTransaction }) → ⊥ }
    ensures unfailed { (c : Call) → IsFromTrail [] false 1 (record { call = c; reply = Err fault.Device }) → ⊥ }
    ensures heard { (h : Heard) → IsClientsLife J.says (by 1 h ∷ []) (unfailed 0) 0 [] [] [] → ⊥ }
    ensures job { (noted : List Noted) (is : Seen) (job : J) (told : List (List Exchange)) → IsClientsLife J.says noted is 0 (job ∷ []) [] told → ⊥ }
    ensures ends { (done : List J.Done) → IsClientsLife J.says [] (unfailed 0) 0 [] (done ∷ []) [] → ⊥ }
    ensures claim { (noted : List Noted) (told : List (List Exchange)) → IsClientsLife {J = ℕ} {D = ℕ} (λ job client d told seen. seen.durable ≡ 5) noted (unfailed 4) 0 (0 ∷ []) ((0 ∷ []) ∷ []) told → ⊥ }
{}
