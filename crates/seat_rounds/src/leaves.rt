//! The leaves of a tree.

ghost use Rattle.std.specs.Prelude.{IfOk};
ghost use Rattle.cube_jobs.specs.Results.{AreLeaves};
ghost use Rattle.cube_tree.specs.CubeTree.{cubes_of};

use cube_tree::Tree;
use cube_tree::laws::a_cube_for_each_leaf;
use std::alloc::{AllocError, Global};

/// Returns all leaves of the tree, rising.
#[tactic(auto, using(crate::proofs::LeafLemmas::none_yet, crate::proofs::LeafLemmas::one_more, crate::proofs::LeafLemmas::are_leaves))]
pub(crate) fn leaves_of(alloc: Global, tree: &Tree) -> Result<Vec<u32>, AllocError>
    ensures { IfOk result (λ leaves. AreLeaves (cubes_of tree.now) leaves.items) }
{
    a_cube_for_each_leaf();
    let count = tree.leaves();
    let mut leaves = Vec::with_capacity(alloc, count as usize)?;
    for leaf in 0..count {
        leaves.push(leaf)?;
    }
    Ok(leaves)
}
