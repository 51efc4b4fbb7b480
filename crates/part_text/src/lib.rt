//! The texts of a part: the names that make it up, and the part itself, with the names of its operations in the whole or without.
#![tactic(auto)]

pub mod laws;
pub mod name_line;
pub mod named_part;
pub mod part_writer;
