//! Makers of clauses over orders of many operations at once: by counting, and by waiting.
#![tactic(auto)]

pub mod counted_members;
pub mod counting;
mod distinct_sources;
pub mod left_ends;
pub mod left_sources;
pub mod tally;
pub mod waiting;
