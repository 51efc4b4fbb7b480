//! Traces as logs of numbers, for searches.
//!
//! Nothing here is believed. So nothing is proved of it but that it is safe and comes to an end, and a look past the end of a table
//! reads a fixed value.
#![tactic(auto)]

mod reading;
mod time_pairs;

pub use reading::{location_names, log_of, names_of, numbers_of_names};
