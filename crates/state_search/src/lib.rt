//! Search for a schedule of a short trace over its states: what is placed of each process, and what each location holds.
//!
//! Nothing here is believed. So nothing is proved of it but that it is safe and comes to an end, and a look past the end of a table
//! reads a fixed value.
#![tactic(auto)]

mod layer;
mod path;
mod prices;
mod recent_states;
mod state;
mod state_search;
mod valued_log;

pub use state_search::{Breadth, schedule_by_states};
