//! Trees that split on variables.

ghost use Rattle.std.specs.Prelude.{◌≡◌, ◌≤◌, ◌<◌, length};
ghost use Rattle.cube_tree.specs.CubeTree.{IsCubeTree, leaves, cubes_of};
ghost use Rattle.cube_tree.specs.Covers.{Covers};
ghost use Rattle.cube_tree.specs.Nodes.{AreNodes, nodes_of, tree_of};
ghost use Rattle.cube_tree.specs.TreeFault.{leaf_count};

use crate::node::Node;
use std::marker::Model;

/// A tree whose nodes split on a variable or are leaves. It is at most 20 splits deep and has at most 1,024 leaves. In the
/// left tree of a split its variable is true, in the right tree false.
pub struct Tree {
    /// In preorder: a split, then the nodes of its left tree, then those of its right tree. Leaves are numbered from left to right.
    nodes: Vec<Node>,
}

/// Drops the nodes in one call. A derived `Drop` would drop each at every exit of a function that owns a tree, which makes its proof longer.
impl Drop for Tree {
    fn drop(self) {
        let Tree { nodes: _nodes } = self;
    }
}

impl Model for Tree {
    ghost use Rattle.cube_tree.specs.CubeTree.{CubeTree};
    ghost use Rattle.cube_tree.specs.Nodes.{tree_code, tree_of, AreNodes};

    ghost Value = { CubeTree };

    ghost coded = { tree_code };

    ghost view = { λ tree. tree_of tree.nodes.items };

    ghost invariant = { λ tree. AreNodes tree.nodes.items };
}

/// The number of nodes that are leaves.
fn count_leaves(nodes: &[Node]) -> u32
    requires { length nodes.now < 4096 }
    ensures { result ≡ leaf_count nodes.now }
{
    let mut leaves = 0;
    let mut rest = nodes;
    while let Some((node, after)) = rest.split_first() {
        if let Node::Leaf = node {
            leaves += 1;
        }
        rest = after;
    }
    leaves
}

impl Tree {
    /// The tree of these nodes. By the contract they are one whole tree in preorder within the limits; nothing is checked when run.
    pub(crate) fn of_nodes(nodes: Vec<Node>) -> Tree
        requires { AreNodes nodes.items }
        ensures { result ≡ tree_of nodes.items }
    {
        Tree { nodes }
    }

    /// The nodes in preorder. Its tree is within the limits.
    pub(crate) fn nodes(&self) -> &[Node]
        ensures nodes { result.now ≡ nodes_of self.now }
        ensures tree { IsCubeTree self.now }
    {
        self.nodes.as_slice()
    }

    /// The number of leaves.
    pub fn leaves(&self) -> u32
        ensures { result ≡ leaves self.now }
    {
        count_leaves(self.nodes())
    }

    /// Hands its caller, in proofs alone, what each tree keeps: it is within the limits, and its cubes cover. Whatever the truth values
    /// of the variables are, they make all literals of one leaf's cube true, and of no other. Does nothing when run.
    pub fn recall_cover(&self)
        ensures tree { IsCubeTree self.now }
        ensures covers { Covers (cubes_of self.now) }
    {
        let _nodes = self.nodes();
    }
}
