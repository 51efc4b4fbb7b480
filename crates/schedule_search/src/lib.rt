//! A search for a schedule: walks, beams, and windows, which guess that operations whose estimated places lie far apart stand in that order.
//!
//! A guess may be wrong, so only schedules come of it, which the caller judges. Nothing is proved of it but that it is safe and comes to an
//! end, and a look past the end of a table reads a fixed value.
#![tactic(auto)]

mod beams;
mod counted_cores;
mod estimated_places;
mod first_propagation;
mod guessed_windows;
mod searching;

pub use searching::{ScheduleSearch, SearchEnding, is_refuted_by_walk};
