//! How far a search has come.
use cube_tree::Tree;
use result_ledger::{Ledger, Verdict};

/// A tree, the ledger of its leaves, and the verdict that follows from it.
#[derive(Drop)]
pub(crate) struct Decided {
    pub(crate) tree: Tree,
    pub(crate) ledger: Ledger,
    pub(crate) verdict: Verdict,
}

/// The next thing that a search does after a round.
#[derive(Drop)]
pub(crate) enum Next {
    /// It has ended here, since there are no new leaves.
    Ended(Decided),
    /// One more round was made.
    Searched(Decided),
}
