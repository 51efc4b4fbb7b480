//! Why an order is in conflict: from the conflict backwards to the decisions that it rests on, and the clause that is learned.
//!
//! Nothing here is believed. So nothing is proved of it but that it is safe and comes to an end, and a look past the end of a table
//! reads a fixed value.
#![tactic(auto)]

mod analysis;
mod clause_grounds;
mod conflict_core;
mod learned_clauses;
mod learning;
mod pair_cycle;
mod process_chain;
mod process_set;
mod reasons;
mod way_search;

pub use analysis::{Analysis, Backjump};
pub use conflict_core::core_of_conflict;
pub use learned_clauses::{LearnedClauses, Literal};
pub use learning::Learning;
pub use pair_cycle::pairs_of_cycle;
pub use process_chain::ProcessChain;
pub use process_set::ProcessSet;
pub use reasons::order_beside;
pub use way_search::{WayQuestion, WaySearch};
