//! Variables, literals and clauses of a formula by their numbers, each kind with a type of its own.
//!
//! - `Variable` and `LiteralCode`: a literal is a place in tables, twice its variable, plus one if it is negative.
//! - `ClauseId` is the number of a clause, as a derivation cites it.
#![tactic(auto)]

mod clause_id;
mod literal_code;

pub use clause_id::ClauseId;
pub use literal_code::{ALWAYS, LiteralCode, NEVER, Variable};
