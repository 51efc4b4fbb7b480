//! A clause-learning solver: it answers a formula with a model, or with a derivation that there is none.
//!
//! - `solve` takes a formula, a cube, hints and a budget.
//! - `PreparedFormula` is what all cubes of a formula share, and `solve_cube` searches one of them.
//! - `SourceCounter` only counts, within a budget of its own.
//! - `Answer` is its answer.
//! - `EncodingHints` says which clauses are the transitivity of an order.
//!
//! This crate has the search: unit propagation, conflict analysis, restarts, reductions and decisions. Its clauses are in the crate
//! `clause_database`, the true literals in `assignment_trail`, and the proof log, with the budget, in `proof_log`.
//!
//! The solver is untrusted. So nothing is proved of its answers but that they keep to the budget, and its tables keep no invariants: a read
//! past the end of one gives a fixed value.
#![tactic(auto)]

mod analyze;
mod before_cubes;
mod first_values;
mod hints;
mod learning;
mod minimise;
mod prepared_formula;
mod propagate;
mod reduce;
mod reductions;
mod restart;
mod schedule_heuristic;
mod search;
mod seat;
mod sharing;
mod solving;
mod source_count;
mod source_counter;
mod told_reads;
mod units;
mod wanted;
mod whole;

pub use clause_database::{EncodingHints, LastWriter, ReadsFromTable, ReadsFromVariable};
pub use order_sets::Element;
pub use prepared_formula::PreparedFormula;
pub use proof_log::{Answer, CubeSolver};
pub use search::Search;
pub use solving::{solve, solve_cube};
pub use source_counter::SourceCounter;
