//! The reader of a tree's text.

ghost use Rattle.std.specs.Prelude.{◌≡◌, None, Some, reverse, IfOk, IfErr, MatchResult, OnOk};
ghost use Rattle.text_lines.specs.Fault.{IsRefusal};
ghost use Rattle.text_lines.specs.Words.{words_of};
ghost use Rattle.cube_tree.specs.TreeFault.{HasTreeFault, node_of, node_fault, due_below};
ghost use Rattle.cube_tree.specs.TreeText.{SpellsTree};

use crate::limits::{MAX_DEPTH, MAX_LEAVES};
use crate::node::Node;
use crate::node_line::read_node;
use crate::tree::Tree;
use crate::tree_fault::TreeCause;
use std::alloc::{AllocError, Global};
use text_lines::fault::PlacedFault;
use text_lines::lines::cut_line;

/// The node on the line, which is due at this depth, the number of splits above it, after this number of leaves.
fn take_line(line: &[u8], depth: u32, leaves: usize) -> Result<Node, TreeCause>
    ensures { MatchResult result
        (λ node. (node_of (words_of line.now) ≡ Some node) × (node_fault depth leaves (Some node) ≡ None))
        (λ cause. node_fault depth leaves (node_of (words_of line.now)) ≡ Some cause) }
{
    match read_node(line) {
        None => Err(TreeCause::BadLine),
        Some(Node::Split(variable)) => {
            if depth as usize >= MAX_DEPTH {
                return Err(TreeCause::TooDeep);
            }
            Ok(Node::Split(variable))
        }
        Some(Node::Leaf) => {
            if leaves >= MAX_LEAVES {
                return Err(TreeCause::TooManyLeaves);
            }
            Ok(Node::Leaf)
        }
    }
}

/// Puts the depths of the nodes that are due below a node at this depth after the others.
fn push_due(due: &mut Vec<u32>, node: Node, depth: u32) -> Result<(), AllocError>
    requires { node_fault depth 0 (Some node) ≡ None }
    ensures { OnOk result (reverse due.new.items ≡ due_below node depth (reverse due.old.items)) }
{
    if let Node::Split(_) = node {
        due.push(depth + 1)?;
        due.push(depth + 1)?;
    }
    Ok(())
}

/// The tree that the text spells at its beginning, and the number of bytes that its lines take. What stands after them is not read.
///
/// A line is `leaf`, or `split` and the number of a variable; after a split stand the lines of its left and then those of
/// its right tree. No line is skipped. The error is the first fault of the text, with its line, counted from 1, or
/// `OutOfMemory`, which says nothing of the text.
pub fn read_tree(alloc: Global, text: &[u8]) -> Result<(Tree, usize), PlacedFault<TreeCause>>
    ensures spelled { IfOk result (λ read. SpellsTree text.now read.0 read.1) }
    ensures faulty { IfErr result (λ fault. IsRefusal (HasTreeFault text.now) fault) }
{
    let mut nodes = Vec::new(alloc);
    // The depths of the nodes that are still to come, the next one last. The tree ends when none is left.
    let mut due = Vec::new(alloc);
    due.push(0)?;
    let mut leaves = 0usize;
    let mut number = 0usize;
    let mut bytes = 0usize;
    let mut rest = text;
    while let Some(depth) = due.pop() {
        number += 1;
        let Some((line, after)) = cut_line(rest) else {
            return Err(PlacedFault::At(TreeCause::BadLine, number));
        };
        let node = match take_line(line, depth, leaves) {
            Ok(node) => node,
            Err(cause) => return Err(PlacedFault::At(cause, number)),
        };
        push_due(&mut due, node, depth)?;
        if let Node::Leaf = node {
            leaves += 1;
        }
        nodes.push(node)?;
        bytes += line.len() + 1;
        rest = after;
    }
    // The last line may end with the text, without the line feed that was counted.
    Ok((Tree::of_nodes(nodes), text.len().min(bytes)))
}
