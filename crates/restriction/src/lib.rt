//! What remains of a trace if a function says what stays of each of its operations.
//!
//! What remains of a process keeps its order and gets new places. A schedule is restricted to what remains, under the new names.
//! Its laws hold for every such function. Which operations stay, and why the restriction of a legal schedule is legal, is for the
//! crates above: `reducer`, and `part_law`.
#![tactic(auto)]

pub mod laws;
pub mod left_places;
pub mod left_value;
pub mod renamed;
