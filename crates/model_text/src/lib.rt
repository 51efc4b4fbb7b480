//! The reader of solvers' answers: which truth values an answer spells, or what its first fault is.
#![tactic(auto)]

mod model_fault;
mod model_line;
mod model_reader;
pub mod model_text_laws;

pub use model_fault::{ModelCause, ModelFault};
pub use model_reader::read_model;
