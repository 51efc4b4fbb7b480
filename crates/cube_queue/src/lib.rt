//! The search that settles the leaves of a tree, by workers in threads, or by one in the caller's.
//!
//! This is the front door of the search: jobs and their outcomes, the dealing machine, the board and the stop word are handed on.
#![tactic(auto)]

mod closing;
mod gathering;
mod in_turn;
mod joining;
mod leaf_jobs;
mod opening;
mod participants;
mod promised;
mod putting;
mod running;
mod searching;
mod settler;
mod settling;
mod shared_search;
mod starting;
mod working;

pub use cube_jobs::{
    BadOption, Gate, Job, OpenGate, Options, Outcome, SearchCause, SearchFault, Settled,
};
pub use dealing::laws::every_run;
pub use dealing::{Event, EventCause, GivenOutcome, Machine};
pub use job_board::{Account, Board, CollectorSeat, DealerSeat, WorkerSeat};
pub use searching::search;
pub use stop_word::{StopSeat, StopWord};
