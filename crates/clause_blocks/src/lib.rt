//! The clauses of a trace's formula, in blocks: program order, transitivity, what is read, final values, before pairs.
#![tactic(auto)]

mod final_clauses;
pub mod formula;
pub mod laws;
mod line_run;
mod line_runs;
mod listed_clauses;
pub mod meaning;
mod parallel_transitivity;
pub mod pieces;
mod ranks;
mod read_clauses;
pub mod stream_cnf;
mod table_search;
pub mod trace_clauses;
mod transitivity;
mod transitivity_lines;
mod triple_table;
mod unit_clauses;
mod void_clauses;
