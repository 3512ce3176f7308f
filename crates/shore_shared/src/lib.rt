//! A manager for sessions in threads: the core and the log device under locks of their own, the sessions' calls, which wait, and the workers.
#![tactic(auto)]

mod calls;
mod client_laws;
mod clients;
mod closing;
mod flushing;
mod freeing;
mod gate;
mod gathering;
mod laws;
mod opening;
mod pacing;
mod promises;
mod serving;
mod session;
mod shared;
mod taping;
mod turns;
mod waiting;
mod worked;
mod workers;

pub use calls::session_step;
pub use client_laws::{
    answers_stand_in_the_trail, clients_were_told_the_trail, commits_are_answered_by_tickets,
    no_client_is_told_not_quiet, what_is_noted_is_a_step,
};
pub use clients::{Client, Job, Serves, in_threads};
pub use gate::{Gate, Open, Place, Role};
pub use laws::{
    anchors_count_while_nothing_fails, devices_handed_back_are_stays, managers_are_up,
    moments_are_stays, moves_of_the_anchor_are_stays, refused_serves_leave_the_manager,
    what_is_held_is_a_manager, what_is_held_leads_to_a_moment, worlds_behind_threads_are_up,
    worlds_behind_threads_stand,
};
pub use opening::{Opened, Queued};
pub use promises::{
    promises_go_on_behind_threads, threads_are_legs, two_uses_of_threads_are_a_life,
};
pub use serving::{Left, serve};
pub use session::Session;
pub use shared::Shared;
pub use shore_held::{
    CoreHeld, LogHeld, Meeting, Named, Seat, Taped, meeting, sum_of_answer, sum_of_fault,
};
pub use worked::{
    answers_that_no_step_gave, calls_that_were_not_the_clients, claims_of_no_serve,
    claims_that_do_not_hold, clients_that_were_told_otherwise, clients_wait_and_are_answered,
    jobs_that_were_not_done, lives_in_no_trail, sessions_that_are_in_no_trail,
    sessions_that_are_not_fresh, tickets_that_no_commit_has,
};
