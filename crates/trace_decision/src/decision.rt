//! What is decided of a trace.
use crate::refutation::Refutation;
use dimacs::Cube;
use plain_lists::PlainList;
use trace_semantics::schedule::Schedule;

/// What is decided of a trace.
#[derive(Drop)]
pub enum Decision {
    /// This is a legal schedule of the whole trace.
    Consistent(Schedule),
    /// There is none, as this shows: each of the tree's cubes, which cover, is refuted.
    Inconsistent(Refutation),
    /// A legal schedule may be in these cubes, and nowhere else.
    Unknown(PlainList<Cube>),
}
