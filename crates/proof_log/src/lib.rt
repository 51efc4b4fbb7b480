//! What a search has learned, as a derivation that keeps to a budget.
//!
//! - `ProofLog` keeps the clauses that were learned, each with its hints, and makes a derivation of them.
//! - `Attempt` is a search with a log of its own. It analyses at most as many conflicts as its budget has, each of which makes one
//!   addition. `search_alone` runs one by turns, and `take_turns` two; after each turn it looks for a derivation that takes no further
//!   conflict. The search is any `Learner`, of which nothing is promised.
//! - `Answer` is the result: a model, a derivation within the budget, or open.
//! - `SharingLearner` is a search that hands `SharedClauses` to others of the same formula, and takes in theirs. A `LogChain` has the logs of
//!   such searches one after the other, and makes one derivation of them.
//! - `LoggedAdditions` is a log or a chain for those who add further steps.
//! - `CubeSolver` is what answers the cubes of a formula, each within a budget.
//! - `within` and `refuted_within` keep derivations that no search has made to a budget.
//! - `codes` makes literals of a formula codes, and the other way round. It hands on the numbers of variables, literals and clauses that
//!   `formula_numbers` has.
//!
//! So what is proved of an answer, that it keeps to its budget, is proved here, whatever the search does. Whether a derivation is right the
//! checker decides.
#![tactic(auto)]

mod answer;
mod attempt;
pub mod codes;
mod cube_solver;
mod learner;
mod limit;
mod log_chain;
mod logged_additions;
mod proof_log;
mod searching;
mod shared_clauses;

pub use answer::Answer;
pub use attempt::{Attempt, TURN, search_alone, take_turns};
pub use cube_solver::CubeSolver;
pub use formula_numbers::ClauseId;
pub use learner::{Learner, SharingLearner};
pub use limit::{refuted_within, within};
pub use log_chain::LogChain;
pub use logged_additions::LoggedAdditions;
pub use proof_log::ProofLog;
pub use searching::SearchEnd;
pub use shared_clauses::{SharedClause, SharedClauses};
