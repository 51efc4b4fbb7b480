//! Propagation: what the reads of a log say of the order of its operations, until nothing more follows.
//!
//! Nothing here is believed. So nothing is proved of it but that it is safe and comes to an end, and a look past the end of a table
//! reads a fixed value.
#![tactic(auto)]

mod adding_pairs;
mod agenda;
mod conflict;
mod narrowing;
mod propagation;
mod reach;
mod reader_rules;
mod rounds;
mod waking;

pub use conflict::{Conflict, Propagated, Stop};
pub use propagation::{Propagation, TrailMark};
