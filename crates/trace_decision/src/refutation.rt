//! What shows that a trace has no legal schedule.
use cube_tree::Tree;
use lrat_check::derivation::Derivation;
use plain_lists::PlainList;

/// A tree, and derivations for its leaves, in their order.
#[derive(Drop)]
pub struct Refutation {
    /// The tree whose cubes cover.
    pub tree: Tree,
    /// What shows of each cube that no model makes all its literals true.
    pub derivations: PlainList<Derivation>,
}
