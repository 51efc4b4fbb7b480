//! Laws of trees and their cubes.
//!
//! A law's body is empty, or calls other laws: what it says is proved in the folder of its name in `proofs/laws`, or needs no
//! answer. Who calls it has what it says in proofs; the call does nothing when run.

ghost use Rattle.std.specs.Prelude.{◌≡◌, ◌∷◌, ◌++◌, [], ℕ, ℤ, pos, neg_ℤ, List, length, IsTrue};
ghost use Rattle.cube_tree.specs.CubeTree.{CubeTree, leaves, splits_variables, cubes_of, with_split};
ghost use Rattle.cube_tree.specs.Covers.{Covers};

/// Each tree covers, also where a path splits a variable twice.
pub fn trees_cover()
    ensures { (tree : CubeTree) → IsTrue (splits_variables tree) → Covers (cubes_of tree) }
{}

/// A tree has as many cubes as leaves.
pub fn a_cube_for_each_leaf()
    ensures { (tree : CubeTree) → length (cubes_of tree) ≡ leaves tree }
{}

/// A leaf that is split becomes two, whose cubes are its own with the variable and with its negation after it. All others keep
/// their cubes and their order.
pub fn split_changes_one_leaf()
    ensures { (tree : CubeTree) (v : ℕ) (before : List (List ℤ)) (cube : List ℤ) (after : List (List ℤ)) → cubes_of tree ≡ before ++ cube ∷ after →
        cubes_of (with_split (length before) v tree) ≡ before ++ (cube ++ pos v ∷ []) ∷ ((cube ++ neg_ℤ (pos v) ∷ []) ∷ after) }
{}
