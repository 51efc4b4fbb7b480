//! The check of certificates of reasons: the clauses of its lines, and the derivation that refutes them.
#![tactic(auto)]

pub mod before_places;
mod clause_lines;
pub mod gathered_pieces;
pub mod laws;
mod line_clause;
pub mod reasons_check;
pub mod reasons_fault;
pub mod trace_tables;
