//! The variables of a trace's formula: what each stands for, and its number.
//!
//! There are three kinds. An order variable says which of two operations stands before the other. A choice variable says
//! from where a reading operation has its value. A final variable says which writer of a location is the last one.
#![tactic(auto)]

mod before_numbers;
pub mod candidate;
mod choice_variables;
mod final_variables;
mod known_pairs;
pub mod laws;
pub mod layout;
mod numbering;
mod order_literal;
pub mod ranges;
mod read_candidates;
mod split_variables;
