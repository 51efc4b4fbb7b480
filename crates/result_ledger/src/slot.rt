//! What a ledger holds of a leaf.
use cube_jobs::Outcome;
use dimacs::Cube;

/// A leaf: its cube, and the answer that was entered for it, if one was.
#[derive(Drop)]
pub struct Slot {
    pub(crate) cube: Cube,
    pub(crate) outcome: Option<Outcome>,
}
