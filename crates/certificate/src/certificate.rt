//! Certificates.

use cube_tree::Tree;
use lrat_check::derivation::Derivation;
use plain_lists::PlainList;

/// The derivation for one leaf of a tree.
#[derive(Drop)]
pub struct Section {
    /// The leaf's number, counted from 0 and from left to right.
    pub leaf: u32,
    /// What is to show that no model makes all literals of the leaf's cube true.
    pub derivation: Derivation,
}

/// A tree, and derivations for its leaves. Nothing is known of it before it was checked.
pub struct Certificate {
    /// The tree whose cubes cover.
    pub tree: Tree,
    /// The sections, in the order of the text.
    pub sections: PlainList<Section>,
}

/// Drops the tree and the sections in one call. A derived `Drop` would drop each at every exit of a function that owns a certificate, which makes its proof longer.
impl Drop for Certificate {
    fn drop(self) {
        let Certificate {
            tree: _tree,
            sections: _sections,
        } = self;
    }
}
