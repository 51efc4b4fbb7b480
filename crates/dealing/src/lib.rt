//! The dealing machine: jobs go from a queue to workers, in which they are in flight, and their outcomes through a second queue into a
//! ledger. Over every list of events, each job is in exactly one place, and is settled by the worker that took it.
#![tactic(auto)]

mod event;
mod given_outcome;
mod hands;
pub mod laws;
mod machine;
mod refused;

pub use event::Event;
pub use given_outcome::GivenOutcome;
pub use machine::Machine;
pub use refused::{EventCause, Refused};
