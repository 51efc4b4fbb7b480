//! The cubes of a tree's leaves.

ghost use Rattle.std.specs.Prelude.{◌≡◌, ◌≤◌, length, IfOk};
ghost use Rattle.cube_tree.specs.CubeTree.{cubes_of};

use crate::laws::a_cube_for_each_leaf;
use crate::node::Node;
use crate::tree::Tree;
use dimacs::{Cube, Lit};
use std::alloc::{AllocError, Global};

/// The cube of each leaf, by the leaves' numbers. A cube's literals stand from the root on: the variable to the left, its
/// negation to the right.
pub fn cubes(alloc: Global, tree: &Tree) -> Result<Vec<Cube>, AllocError>
    ensures { IfOk result (λ cubes. cubes.items ≡ cubes_of tree.now) }
{
    let mut cubes = Vec::new(alloc);
    let mut due = Vec::new(alloc);
    due.push(Cube::empty(alloc))?;
    let mut rest = tree.nodes();
    // The cubes of the nodes that are still to come, the next one last. A tree's nodes end just when none is left.
    while let Some((node, after)) = rest.split_first() {
        let Some(cube) = due.pop() else {
            break;
        };
        match node {
            Node::Leaf => cubes.push(cube)?,
            Node::Split(variable) => {
                let literal = Lit::positive(*variable);
                // The right tree is pushed first, since the left one comes first.
                due.push(cube.with(alloc, literal.negated()))?;
                due.push(cube.with(alloc, literal))?;
            }
        }
        rest = after;
    }
    Ok(cubes)
}

/// Returns the cube of each leaf, by the leaves' numbers, and says that they are at most 1,024.
pub fn bounded_cubes(alloc: Global, tree: &Tree) -> Result<Vec<Cube>, AllocError>
    ensures cubes { IfOk result (λ cubes. cubes.items ≡ cubes_of tree.now) }
    ensures few { IfOk result (λ cubes. length cubes.items ≤ 1024) }
{
    tree.recall_cover();
    a_cube_for_each_leaf();
    let cubes = cubes(alloc, tree)?;
    Ok(cubes)
}
