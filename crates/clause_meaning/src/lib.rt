//! What each clause of a trace's clause list says.
//!
//! The list is cut into runs of neighbouring clauses of one kind. A caller that has to know where the clauses of a kind stand goes over the runs, with
//! a `match` that names each kind.
#![tactic(auto)]

pub mod clause_runs;
pub mod laws;
pub mod meaning;
pub mod run;
mod run_length;
mod run_list;
mod within_run;
