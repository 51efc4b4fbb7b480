//! Makes the part of a trace that some chosen operations make up.
//!
//! If the part has no legal schedule, the trace has none, whichever operations are chosen. So the choice need not be trusted.
#![tactic(auto)]

pub mod choice;
pub mod finals;
pub mod laws;
pub mod left;
pub mod left_names;
pub mod listing;
pub mod pairs;
pub mod part;
pub mod part_fault;
pub mod renamed;
pub mod selection;
pub mod sources;
pub mod staying;
pub mod writer_table;
pub mod writers;
