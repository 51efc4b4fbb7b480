//! Which operations of a trace write a location, by the value that they leave and by their process.
#![tactic(auto)]

pub mod operation_place;
pub mod place_table;
pub mod rising_places;
pub mod runs;
pub mod trace_writers;
pub mod writer_classes;
