//! Full trees of the split variables of a trace.

ghost use Rattle.std.specs.Prelude.{◌≡◌, ◌≤◌, ◌++◌, true, length, take, IfOk, OnOk};
ghost use Rattle.var_layout.specs.Split.{splits};
ghost use Rattle.std.specs.List.{list_all};
ghost use Rattle.cube_tree.specs.CubeTree.{full_tree, is_variable};
ghost use Rattle.cube_tree.specs.Nodes.{nodes_of};

use crate::node::Node;
use crate::tree::Tree;
use std::alloc::{AllocError, Global};
use var_layout::layout::Layout;

/// Puts the nodes of the full tree of these variables after the others. It calls itself as deep as there are variables.
fn push_full_tree(nodes: &mut Vec<Node>, variables: &[u32]) -> Result<(), AllocError>
    ensures { OnOk result (nodes.new.items ≡ nodes.old.items ++ nodes_of (full_tree variables.now)) }
{
    match variables.split_first() {
        None => {
            nodes.push(Node::Leaf)?;
            Ok(())
        }
        Some((variable, others)) => {
            nodes.push(Node::Split(*variable))?;
            push_full_tree(nodes, others)?;
            push_full_tree(nodes, others)
        }
    }
}

/// The full tree of these variables.
fn full_tree_of(alloc: Global, variables: &[u32]) -> Result<Tree, AllocError>
    requires few { length variables.now ≤ 10 }
    requires variables { list_all is_variable variables.now ≡ true }
    ensures { IfOk result (λ tree. tree ≡ full_tree variables.now) }
{
    let mut nodes = Vec::new(alloc);
    push_full_tree(&mut nodes, variables)?;
    Ok(Tree::of_nodes(nodes))
}

/// The full tree whose splits at depth k are of the k-th split variable of the layout, from 0. It is as deep as is asked, or as
/// there are split variables. At depth 10 it has 1,024 leaves, which is the limit of a tree.
pub fn grow(alloc: Global, layout: &Layout, depth: u32) -> Result<Tree, AllocError>
    requires { depth ≤ 10 }
    ensures { IfOk result (λ tree. tree ≡ full_tree (take depth (splits layout.now))) }
{
    layout.recall_limits();
    let variables = layout.first_splits(alloc, depth as usize)?;
    full_tree_of(alloc, variables.as_slice())
}
