//! Short derivations of contradictions of counting, as Cook's of the pigeonhole principle (Cook, "A short proof of the pigeon hole
//! principle using extended resolution", 1976).
//!
//! An update leaves another value than it read, so no two updates read from the same write. If some updates have fewer possible sources
//! than there are updates, no schedule is legal. Resolution, and so a search that learns clauses, needs exponentially many steps for this
//! (Haken, 1985); with definitions of new variables the steps grow with the cube of the number of sources.
//!
//! - `find_contradiction` looks for such updates, and `has_hall_violator` says sooner whether there are any. They, with their arguments and
//!   results, are in the crate `source_matching`.
//! - `refute` writes the derivation, if it takes at most as many steps as the budget has.
//!
//! Nothing here is trusted: a derivation must pass the checker. So nothing is proved of it but that it keeps to the budget, and a read past
//! the end of a table gives a fixed value.
#![tactic(auto)]

mod codes;
mod cycles;
mod elimination;
mod last_writer;
mod proof_writer;
mod refutation;
mod replay;
mod rows;
mod shortages;
mod step_log;
mod taken;
mod units;

pub use refutation::{Premises, refute};
pub use source_matching::{
    GreedyMatching, KnownOrder, MatchingInstance, OrderClauses, Reader, ReadsFromEdge,
    SourceContradiction, SourceId, SourceSets, Update, find_contradiction, has_hall_violator,
};
pub use step_log::Free;
