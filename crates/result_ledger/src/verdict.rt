//! Verdicts.
use dimacs::Assignment;
use plain_lists::PlainList;

/// The verdict that follows from the answers for all leaves of a tree.
#[derive(Drop)]
pub enum Verdict {
    /// The answer for this leaf is a model, and for no lower one.
    Consistent(u32, Assignment),
    /// No leaf has a model for its answer, and each of this number of leaves has a derivation that can be written and is accepted.
    Inconsistent(u32),
    /// No leaf has a model for its answer, and these, rising, have no such derivation.
    Unknown(PlainList<u32>),
}
