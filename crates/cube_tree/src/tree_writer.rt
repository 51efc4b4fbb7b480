//! The writer of a tree's text.

ghost use Rattle.std.specs.Prelude.{◌≡◌, IfOk};
ghost use Rattle.std.specs.List.{flat_map};
ghost use Rattle.cube_tree.specs.NodeText.{node_text};
ghost use Rattle.cube_tree.specs.TreeText.{tree_text};

use crate::node::Node;
use crate::node_line::push_node_line;
use crate::tree::Tree;
use std::alloc::{AllocError, Global};

/// The lines of the nodes, in their order.
fn write_nodes(alloc: Global, nodes: &[Node]) -> Result<Vec<u8>, AllocError>
    ensures { IfOk result (λ text. text.items ≡ flat_map node_text nodes.now) }
{
    let mut text = Vec::new(alloc);
    for node in nodes {
        push_node_line(&mut text, *node)?;
    }
    Ok(text)
}

/// The canonical text of the tree: a line for each node in preorder, each ended by a line feed.
pub fn write_tree(alloc: Global, tree: &Tree) -> Result<Vec<u8>, AllocError>
    ensures { IfOk result (λ text. text.items ≡ tree_text tree.now) }
{
    let text = write_nodes(alloc, tree.nodes())?;
    Ok(text)
}
