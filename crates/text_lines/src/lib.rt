//! What lines, words and numbers are in the texts of `vsc`, and how they are cut and read.
//!
//! Every reader of a text stands on these definitions.
#![tactic(auto)]

pub mod comments;
pub mod fault;
pub mod first_fault;
pub mod lines;
pub mod numbers;
pub mod plain_fault;
pub mod words;
