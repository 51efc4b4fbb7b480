//! What stands before what, as rows of places that are kept closed, and the pairs that they were made of.
//!
//! Nothing here is believed. So nothing is proved of it but that it is safe and comes to an end, and a look past the end of a table
//! reads a fixed value.
#![tactic(auto)]

mod closed_rows;
mod ordered_pairs;
mod pairs_by_second;
mod sweeping;

pub use closed_rows::{ChangedEntries, ClosedRows, RowEntry, RowKind};
pub use ordered_pairs::{NO_PAIR, OrderedPair, OrderedPairs, PairReason};
pub use pairs_by_second::PairsBySecond;
pub use sweeping::{Sweeps, close_rows};
