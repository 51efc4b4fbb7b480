//! The place of a leaf among the nodes of a tree.

ghost use Rattle.std.specs.Prelude.{◌≤◌, MatchOption};
ghost use Rattle.cube_tree.specs.TreeFault.{leaf_count};
ghost use Rattle.cube_tree.specs.LeafPlace.{IsLeafAt};

use crate::node::Node;

/// The place of the leaf of this number, counted from 0.
pub(crate) fn leaf_place(nodes: &[Node], k: usize) -> Option<usize>
    ensures { MatchOption result (leaf_count nodes.now ≤ k) (λ place. IsLeafAt nodes.now k place) }
{
    let mut passed = 0usize;
    for place in 0..nodes.len() {
        if let Node::Leaf = nodes[place] {
            if passed == k {
                return Some(place);
            }
            passed += 1;
        }
    }
    None
}
