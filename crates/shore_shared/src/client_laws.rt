//! What `AllHold` of a world that `serve` gives back says of each client, as laws, each stated as the contract of an empty function.
ghost use Rattle.std.specs.Prelude.{◌≡◌, ◌⊎◌, ◌≢◌, ◌<◌, ◌+◌, ℕ, All, Bool, Contains, Err, List, None, Result, Some, flat_map};
ghost use Rattle.shore_types.specs.declared.faults.Fault.{Fault};
ghost use Rattle.shore_types.specs.declared.faults.Fault.TheVariants as fault;
ghost use Rattle.shore_model.specs.declared.calls.Answer.{Answer};
ghost use Rattle.shore_model.specs.declared.calls.Call.{Call};
ghost use Rattle.shore_model.specs.declared.calls.Call.TheVariants as call;
ghost use Rattle.shore_model.specs.declared.calls.Exchange.{Exchange};
ghost use Rattle.shore_model.specs.declared.log_records.LogRecord.{LogRecord};
ghost use Rattle.shore_model.specs.declared.step.Step.{Step};
ghost use Rattle.laws_calls.specs.Events.{Called, GaveUp, Resumed};
ghost use Rattle.shore_world.specs.EventMoves.{OfManager};
ghost use Rattle.shore_held.specs.Comings.{Beginning};
ghost use Rattle.shore_held.specs.Trails.{moves_of, noted_in};
ghost use Rattle.shore_held.specs.declared.asked.Asked.{Asked};
ghost use Rattle.shore_words.specs.declared.rule.Noted.{Noted};
ghost use Rattle.shore_world.specs.declared.world.World.{World};
ghost use Rattle.shore_shared.specs.Clients.{ComesOfCommit, IsClientsLife, IsFromTrail, IsReplyToCommit, StandsIn};
ghost use Rattle.shore_shared.specs.Heard.{IsOfCommit};
ghost use Rattle.shore_shared.specs.Lives.{HasEnded};
ghost use Rattle.shore_shared.specs.Told.{AllHold, Seen};

use crate::clients::Job;
use shore_disk::Disk;

/// Each client's life is in the trail: what it was told in one job after another is all that the trail has of its session, which has the number after the client's, and it stands there in that
/// order. What the author of each job claims holds of what the client was told in it, and of what is so of the manager now.
pub fn clients_were_told_the_trail<J: Job>()
    ensures { (noted : List Noted) (is : Seen) (clients : ℕ) (jobs : List J) (done : List (List J.Done)) → AllHold J.says noted is clients jobs done → (client : ℕ) → client < clients →
        ∥ ((told : List (List Exchange)) × IsClientsLife J.says noted is client jobs done told) ∥₁ }
{}

/// So no client was told what did not come to be: each answer is what its call came to in the trail, asked by that very session; and each refusal is so too, but for `Memory`,
/// for `Device` if a device has failed, and for `NotQuiet`, which no manager's client is told (below). As long as no device has failed, nobody was told of one but by what the trail has. A commit that was answered with
/// its ticket stands there, done, with that ticket.
pub fn answers_stand_in_the_trail<J: Job>()
    ensures { (noted : List Noted) (is : Seen) (client : ℕ) (jobs : List J) (done : List (List J.Done)) (told : List (List Exchange)) → IsClientsLife J.says noted is client jobs done told →
        All (IsFromTrail noted is.failed (client + 1)) (flat_map (λ es. es) told) }
{}

/// What stands in the trail is a step of the manager: what a session asked is a call of it, and what it went on with a resume, or a wait that it took back, each with what that came to. So what clients were told is what the manager answered whose
/// promises go on after its threads.
pub fn what_is_noted_is_a_step()
    ensures call { (asked : List (Asked × ℕ)) (stepped : List (Step × ℕ)) (session : ℕ) (c : Call) (step : Step) → StandsIn (noted_in asked stepped) session (Some c) step →
        Contains (moves_of asked stepped) (OfManager (Called session c step)) }
    ensures resume { (asked : List (Asked × ℕ)) (stepped : List (Step × ℕ)) (session : ℕ) (step : Step) → StandsIn (noted_in asked stepped) session None step →
        Contains (moves_of asked stepped) (OfManager (Resumed session step)) ⊎ Contains (moves_of asked stepped) (OfManager (GaveUp session step)) }
{}

/// Over a manager a Commit comes to its ticket at once, or is refused, and it never waits (`steps`). So each Commit of a client is answered by its ticket or refused, and not as `NotQuiet` (`replies`); nor is then a commit that
/// the client awaits (`awaited`). The world is one that `serve` gives back.
pub fn commits_are_answered_by_tickets<J: Job, L: Disk, V: Disk>()
    ensures steps { (start : Beginning) (cut : ℕ) (kept : List LogRecord) (asked : List (Asked × ℕ)) (stepped : List (Step × ℕ)) (w : World L V L.Disk V.Disk) → HasEnded start cut kept asked stepped w →
        (session : ℕ) (step : Step) → StandsIn (noted_in asked stepped) session (Some call.Commit) step → ComesOfCommit step }
    ensures replies { (start : Beginning) (cut : ℕ) (kept : List LogRecord) (asked : List (Asked × ℕ)) (stepped : List (Step × ℕ)) (w : World L V L.Disk V.Disk) → HasEnded start cut kept asked stepped w →
        (is : Seen) (client : ℕ) (jobs : List J) (done : List (List J.Done)) (told : List (List Exchange)) → IsClientsLife J.says (noted_in asked stepped) is client jobs done told →
        All (λ e. e.call ≡ call.Commit → IsReplyToCommit e.reply) (flat_map (λ es. es) told) }
    ensures awaited { (failed : Bool) (reply : Result Answer Fault) (f : Fault) → IsReplyToCommit reply → IsOfCommit failed reply (Err f) → f ≢ fault.NotQuiet }
{}

/// Over a manager no client is told `NotQuiet`: the core refuses no call so, no call comes to nothing, and a call that waits still waits as its session goes on with it, whatever others did meanwhile.
/// The world is one that `serve` gives back.
pub fn no_client_is_told_not_quiet<J: Job, L: Disk, V: Disk>()
    ensures { (start : Beginning) (cut : ℕ) (kept : List LogRecord) (asked : List (Asked × ℕ)) (stepped : List (Step × ℕ)) (w : World L V L.Disk V.Disk) → HasEnded start cut kept asked stepped w →
        (is : Seen) (client : ℕ) (jobs : List J) (done : List (List J.Done)) (told : List (List Exchange)) → IsClientsLife J.says (noted_in asked stepped) is client jobs done told →
        All (λ e. e.reply ≢ Err fault.NotQuiet) (flat_map (λ es. es) told) }
{}
