//! The reader of formulas' texts (DIMACS): which formula a text spells, or what its first fault is.
#![tactic(auto)]

mod cnf_body;
mod cnf_fault;
mod cnf_header;
pub mod cnf_laws;
mod cnf_lines;
mod cnf_reader;
mod cnf_words;

pub use cnf_fault::{CnfCause, CnfFault};
pub use cnf_reader::read_cnf;
