//! Counting: each update reads a write that no other update reads, and the last write of a location is read by none. So updates and last writes
//! that have fewer possible sources together than they are contradict the log.
//!
//! Nothing here is believed. So nothing is proved of it but that it is safe and comes to an end, and a look past the end of a table
//! reads a fixed value.
#![tactic(auto)]

mod class_counts;
mod source_counting;
mod source_takers;

pub use class_counts::crowded_class;
pub use source_counting::{Counted, count_sources};
