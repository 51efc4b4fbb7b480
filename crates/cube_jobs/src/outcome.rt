//! A worker's answer for a cube. It is untrusted.
use dimacs::Assignment;
use lrat_check::derivation::Derivation;

/// A worker's answer for a cube. It is checked by the caller, and may be wrong.
#[derive(Drop)]
pub enum Outcome {
    /// A model of the formula that makes all literals of the cube true.
    Model(Assignment),
    /// A derivation that shows that there is none.
    Refuted(Derivation),
    /// The search ended without either, as when its budget was used up or memory ran out. The ledger takes it for an answer, so the leaf is not searched
    /// again unless it is split.
    Open,
    /// The cube was not searched, since a lower leaf has a model.
    Skipped,
}
