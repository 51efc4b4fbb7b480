//! The matching of updates with their possible sources, and why there may be none that gives each update a source.
//!
//! - `MatchingInstance` says which clauses and variables of a formula speak of readers and their sources.
//! - `KnownOrder` is the order that is known for sure.
//! - `find_contradiction` looks for a Hall violator, and for a cycle of reads-from.
//! - `has_hall_violator` says whether it would find something, from `SourceSets` alone, which take less time to make.
//! - `GreedyMatching` mostly shows that it would not, in less time yet.
//!
//! Nothing here is trusted: the crate `counting_proofs` writes a derivation of what is found, and the checker decides. So nothing is proved
//! of it, and a read past the end of a table gives a fixed value.
#![tactic(auto)]

mod contradiction;
mod greedy_matching;
mod grid;
mod hall_violator;
mod infeasibility;
mod known_order;
mod last_writers;
mod matching;
mod matching_instance;
mod reader_id;
mod source_cycle;
mod source_id;
mod source_place;
mod source_sets;

pub use contradiction::{Kind, SourceContradiction, find_contradiction};
pub use greedy_matching::GreedyMatching;
pub use grid::Grid;
pub use hall_violator::HallViolator;
pub use infeasibility::has_hall_violator;
pub use known_order::{KnownOrder, OrderClauses};
pub use last_writers::LastWriters;
pub use matching_instance::{MatchingInstance, Reader, ReadsFromEdge, Update};
pub use reader_id::ReaderId;
pub use source_cycle::SourceCycle;
pub use source_id::SourceId;
pub use source_place::SourcePlace;
pub use source_sets::SourceSets;
