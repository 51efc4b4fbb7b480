//! LRAT derivations (Cruz-Filipe, Heule, Hunt, Kaufmann, Schneider-Kamp: CADE 2017): what they are, whether one shows
//! that a formula has no model in a cube, and their texts.
#![tactic(auto)]

mod active_clauses;
mod added_clauses;
pub mod checker;
mod count_changes;
mod counted_clauses;
pub mod derivation;
pub mod derivation_copies;
pub mod formula_counts;
mod groups;
mod hidden_ids;
mod hint_groups;
pub mod hints;
pub mod ids;
mod justification;
pub mod laws;
mod listed_number;
mod literal_counts;
pub mod lrat_fault;
pub mod lrat_laws;
pub mod lrat_number;
pub mod lrat_reader;
pub mod lrat_writer;
mod marks;
pub mod other_cubes;
pub mod pieces;
mod propagation;
mod rat;
pub mod refusal;
mod short_numbers;
mod true_literals;
