//! The line of a node in a tree's text.

ghost use Rattle.std.specs.Prelude.{◌≡◌, ◌++◌, OnOk};
ghost use Rattle.text_lines.specs.Words.{words_of};
ghost use Rattle.cube_tree.specs.TreeFault.{node_of, variable_of};
ghost use Rattle.cube_tree.specs.NodeText.{node_text};

use crate::node::Node;
use dimacs::MAX_VARIABLE;
use itoa::Buffer;
use std::alloc::AllocError;
use text_lines::numbers::read_plain;
use text_lines::words::{cut_word, is_word};

/// The variable that the word writes as a plain number from 1 on.
fn read_variable(word: &[u8]) -> Option<u32>
    ensures { result ≡ variable_of word.now }
{
    let variable = read_plain(word, u64::from(MAX_VARIABLE))?;
    if variable == 0 {
        return None;
    }
    Some(variable as u32)
}

/// The node that the line says. A further word after it makes the line wrong.
pub(crate) fn read_node(line: &[u8]) -> Option<Node>
    ensures { result ≡ node_of (words_of line.now) }
{
    let (word, rest) = cut_word(line)?;
    let Some((number, rest)) = cut_word(rest) else {
        if is_word(word, "leaf") {
            return Some(Node::Leaf);
        }
        return None;
    };
    if cut_word(rest).is_some() || !is_word(word, "split") {
        return None;
    }
    match read_variable(number) {
        Some(variable) => Some(Node::Split(variable)),
        None => None,
    }
}

/// Appends the line of the node.
pub(crate) fn push_node_line(text: &mut Vec<u8>, node: Node) -> Result<(), AllocError>
    ensures { OnOk result (text.new.items ≡ text.old.items ++ node_text node) }
{
    match node {
        Node::Leaf => {
            text.extend_from_slice(b"leaf\n")?;
            Ok(())
        }
        Node::Split(variable) => {
            let mut buffer = Buffer::new();
            text.extend_from_slice(b"split ")?;
            text.extend_from_slice(buffer.format(variable).as_bytes())?;
            text.extend_from_slice(b"\n")?;
            Ok(())
        }
    }
}
