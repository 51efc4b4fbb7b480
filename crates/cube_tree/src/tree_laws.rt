//! Laws of a tree's text.
//!
//! A law's body is empty, or calls other laws: what it says is proved in the folder of its name in `proofs/tree_laws`, or needs no
//! answer. Who calls it has what it says in proofs; the call does nothing when run.

ghost use Rattle.std.specs.Prelude.{◌≡◌, ◌≤◌, ◌⊎◌, ◌++◌, ℕ, List, length, drop};
ghost use Rattle.text_lines.specs.Lines.{lines_of};
ghost use Rattle.cube_tree.specs.declared.tree_fault.TreeCause.{TreeCause};
ghost use Rattle.cube_tree.specs.CubeTree.{CubeTree, IsCubeTree};
ghost use Rattle.cube_tree.specs.TreeFault.{HasTreeFault};
ghost use Rattle.cube_tree.specs.TreeText.{SpellsTree, tree_lines, tree_text};

/// A text spells one tree at most, in one number of bytes.
pub fn one_tree()
    ensures { (text : List ℕ) (s t : CubeTree) (m n : ℕ) → SpellsTree text s m → SpellsTree text t n → (s ≡ t) × (m ≡ n) }
{}

/// A text has at most one first fault.
pub fn one_tree_fault()
    ensures { (text : List ℕ) (c d : TreeCause) (p q : ℕ) → HasTreeFault text c p → HasTreeFault text d q → (c ≡ d) × (p ≡ q) }
{}

/// A text that spells a tree has no fault.
pub fn never_spelled_and_faulty()
    ensures { (text : List ℕ) (tree : CubeTree) (bytes : ℕ) (cause : TreeCause) (line : ℕ) →
        SpellsTree text tree bytes → HasTreeFault text cause line → ⊥ }
{}

/// Each text spells a tree or has a first fault.
pub fn spelled_or_faulty()
    ensures { (text : List ℕ) →
        ((tree : CubeTree) × ((bytes : ℕ) × SpellsTree text tree bytes)) ⊎ ((cause : TreeCause) × ((line : ℕ) × HasTreeFault text cause line)) }
{}

/// The canonical text of a tree, whatever stands after it, spells the tree, and takes its own bytes.
pub fn canonical_spells()
    ensures { (tree : CubeTree) (behind : List ℕ) → IsCubeTree tree → SpellsTree (tree_text tree ++ behind) tree (length (tree_text tree)) }
{}

/// The bytes of a tree are no more than those of the text, and the lines after them are the text's other lines.
pub fn other_lines_are_behind()
    ensures { (text : List ℕ) (tree : CubeTree) (bytes : ℕ) → SpellsTree text tree bytes →
        (bytes ≤ length text) × (lines_of (drop bytes text) ≡ drop (length (tree_lines tree)) (lines_of text)) }
{}
