//! Trees with one more split.

ghost use Rattle.std.specs.Prelude.{◌≡◌, ◌≤◌, ◌<◌, ◌+◌, ◌∷◌, ◌++◌, [], None, Some, length, drop, take, slice_index_or, IfOk, IfErr, MatchResult};
ghost use Rattle.text_lines.specs.Fault.{IsRefusalAt};
ghost use Rattle.cube_tree.specs.CubeTree.{leaves, cubes_of, with_split};
ghost use Rattle.cube_tree.specs.Nodes.{nodes_of};
ghost use Rattle.cube_tree.specs.SplitFault.{split_fault};

use crate::leaf_cubes::cubes;
use crate::leaf_place::leaf_place;
use crate::limits::{MAX_DEPTH, MAX_LEAVES};
use crate::node::Node;
use crate::split_fault::SplitCause;
use crate::tree::Tree;
use dimacs::MAX_VARIABLE;
use std::alloc::{AllocError, Global};
use text_lines::fault::PlacedFault;

/// Why the leaf is not split, if it is not. Of several reasons the one with the lowest number is named, which is asked for first.
fn fault_of_split(alloc: Global, tree: &Tree, k: u32) -> Result<Option<SplitCause>, AllocError>
    ensures { IfOk result (λ fault. fault ≡ split_fault tree.now k) }
{
    let cubes = cubes(alloc, tree)?;
    let k = k as usize;
    if k >= cubes.len() {
        return Ok(Some(SplitCause::NoSuchLeaf));
    }
    if cubes.len() >= MAX_LEAVES {
        return Ok(Some(SplitCause::TooManyLeaves));
    }
    let cube = &cubes[k];
    if cube.as_slice().len() >= MAX_DEPTH {
        return Ok(Some(SplitCause::TooDeep));
    }
    Ok(None)
}

/// The nodes with the one at this place replaced by a split of the variable and two leaves.
fn nodes_with_split(
    alloc: Global,
    nodes: &[Node],
    place: usize,
    variable: u32,
) -> Result<Vec<Node>, AllocError>
    requires { place < length nodes.now }
    ensures { IfOk result (λ new. new.items ≡ take place nodes.now ++ Node.Split variable ∷ (Node.Leaf ∷ (Node.Leaf ∷ drop (place + 1) nodes.now))) }
{
    let mut new = Vec::new(alloc);
    new.extend_from_slice(&nodes[..place])?;
    new.push(Node::Split(variable))?;
    new.push(Node::Leaf)?;
    new.push(Node::Leaf)?;
    new.extend_from_slice(&nodes[place + 1..])?;
    Ok(new)
}

/// The tree with the leaf of this number, counted from 0, split on the variable.
fn tree_with_split(alloc: Global, tree: &Tree, k: u32, variable: u32) -> Result<Tree, AllocError>
    requires first { 1 ≤ variable }
    requires last { variable ≤ MAX_VARIABLE }
    requires split { split_fault tree.now k ≡ None }
    ensures { IfOk result (λ new. new ≡ with_split k variable tree.now) }
{
    let nodes = tree.nodes();
    let Some(place) = leaf_place(nodes, k as usize) else {
        // The contract rules out the cause `NoSuchLeaf`.
        unreachable!();
    };
    let nodes = nodes_with_split(alloc, nodes, place, variable)?;
    Ok(Tree::of_nodes(nodes))
}

/// The tree with the leaf of this number, counted from 0, split on the variable. The leaf becomes two, and the numbers of
/// the leaves after it rise by one. The error has the tree as it was, and why its leaf is not split.
pub fn split_leaf(
    alloc: Global,
    tree: Tree,
    k: u32,
    variable: u32,
) -> Result<Tree, (Tree, PlacedFault<SplitCause>)>
    requires first { 1 ≤ variable }
    requires last { variable ≤ MAX_VARIABLE }
    ensures split { IfOk result (λ new. (new ≡ with_split k variable tree) × (split_fault tree k ≡ None)) }
    ensures refused { IfErr result (λ refused. (refused.0 ≡ tree) × IsRefusalAt (λ cause. split_fault tree k ≡ Some cause) k refused.1) }
{
    match fault_of_split(alloc, &tree, k) {
        Ok(None) => match tree_with_split(alloc, &tree, k, variable) {
            Ok(new) => Ok(new),
            Err(_) => Err((tree, PlacedFault::OutOfMemory)),
        },
        Ok(Some(cause)) => Err((tree, PlacedFault::At(cause, k as usize))),
        Err(_) => Err((tree, PlacedFault::OutOfMemory)),
    }
}
