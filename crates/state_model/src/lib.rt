//! A model of a trace's clauses along a schedule that searches of its states find.
//!
//! Nothing here is believed. So nothing is proved of it but that it is safe and comes to an end, and a look past the end of a table
//! reads a fixed value.
#![tactic(auto)]

mod model;
mod state_schedules;

pub use state_schedules::{StateSearchKind, model_by_states};
