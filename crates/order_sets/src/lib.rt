//! A strict order of a few hundred elements as sets of bits, closed at each pair that is added, and the numbers of its
//! variables, of the clauses that say that it is transitive, and of those that say what a choice means.
//!
//! Nothing here is trusted: callers check what comes of it, by a model's evaluation or by a derivation's check.
#![tactic(auto)]

mod choice_clauses;
mod element;
mod element_sets;
mod order_matrix;
mod order_numbers;
mod triple_ids;

pub use choice_clauses::ChoiceClauses;
pub use element::Element;
pub use element_sets::{ElementSets, MAX_ELEMENTS, next_bit, next_element};
pub use order_matrix::{Implied, OrderMatrix};
pub use order_numbers::{pair_count, transitivity_count, variable_of_pair};
pub use triple_ids::TripleIds;
