//! The literals that are true, in the order of their assignment, and what follows from them without a stored clause.
//!
//! - `Trail` has the true literals, the place and the reason of each, and the saved phases.
//! - `OrderedTrail` is a trail with an order: with each literal all that transitivity implies becomes true, and `follow_reads` finds what
//!   the reads-from clauses imply, by sets of bits. It makes the reason clause of a literal when conflict analysis asks for it.
//! - `Candidates` are the choices that are open, and those that are made.
//! - `Activities` says which variable is decided next. A variable whose assignment is undone can be decided again.
//!
//! Nothing is proved of what they hold: a read past the end of a table gives a fixed value.
#![tactic(auto)]

mod activities;
mod candidates;
mod drawing;
mod follow_reads;
mod ordered_trail;
mod trail;

pub use activities::Activities;
pub use candidates::Candidates;
pub use ordered_trail::OrderedTrail;
pub use trail::{FALSE, OPEN, TRUE, Trail, VariableState};
