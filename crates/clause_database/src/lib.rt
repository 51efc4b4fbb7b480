//! The clauses of a formula as a search keeps them, and what a caller knows of them.
//!
//! - `FormulaLoader` reads a formula once, and sorts its clauses by their sizes.
//! - `SmallClauses` has those of two and three literals, by the literals that are in them.
//! - `Store` has the longer ones and those that were learned, one after the other, and `Watches` says which of these are visited when a
//!   literal becomes false.
//! - `StoredClause` is the place of a clause there.
//! - `EncodingHints` and `ReadsFromTable` are what a caller knows: the clauses of an order and of its reads are named by arithmetic, and
//!   never read.
//! - `Reason` is the reason of a literal, and `ReasonClause` its clause, wherever its literals are.
//!
//! Nothing is proved of what they hold: a read past the end of a table gives a fixed value.
#![tactic(auto)]

mod encoding_hints;
mod formula_loader;
mod reads_from;
mod reason;
mod small_clauses;
mod store;
mod stored_clause;
mod watches;

pub use encoding_hints::EncodingHints;
pub use formula_loader::{FormulaLoader, Unit, number_of};
pub use reads_from::{LastWriter, ReadsFromTable, ReadsFromVariable};
pub use reason::{Reason, ReasonClause};
pub use small_clauses::{Others, SmallClause, SmallClauses};
pub use store::{DROPPED, Store};
pub use stored_clause::StoredClause;
pub use watches::{Watch, Watches, watch_at};
