//! The formulas and trees of the tests, from their texts.

use crate::expectations::ample;
use cnf_text::read_cnf;
use cube_tree::{Tree, read_tree, write_tree};
use dimacs::{Formula, Lit};
use lrat_check::derivation::Derivation;
use lrat_check::lrat_reader::read_lrat;
use std::alloc::{AllocError, Global};
use std::process::Abort;

/// Store buffering: each of two processes writes one location, and then reads the initial value of the other's. It has no model.
pub const STORE_BUFFERING: &str =
    "p cnf 8 14\n1 0\n6 0\n-1 -4 2 0\n1 4 -2 0\n-1 -5 3 0\n1 5 -3 0\n-2 -6 3 0\n2 6 -3 0\n-4 -6 5 0\n4 6 -5 0\n7 0\n-7 4 0\n8 0\n-8 -3 0\n";

/// A process writes the initial value again, and another one reads it. There are two models: 1, -2, 3 and -1, 2, -3.
pub const WRITTEN_AGAIN: &str = "p cnf 3 3\n2 3 0\n-2 -1 0\n-3 1 0\n";

/// A read of the initial value, though another process writes the location: the read comes first, so variable 1 is false.
pub const READS_FIRST: &str = "p cnf 2 2\n2 0\n-2 -1 0\n";

/// The formula that the text spells.
pub fn formula_of(rt: &impl Abort, alloc: Global, text: &str) -> Formula {
    ample(rt, read_cnf(alloc, text.as_bytes()))
}

/// The tree that the text spells.
pub fn tree_of(rt: &impl Abort, alloc: Global, text: &[u8]) -> Tree {
    let (tree, _) = ample(rt, read_tree(alloc, text));
    tree
}

/// The derivation that the text spells.
pub fn derivation_of(rt: &impl Abort, alloc: Global, text: &str) -> Derivation {
    ample(rt, read_lrat(alloc, text.as_bytes()))
}

/// Returns whether this is the text of the tree.
pub fn is_text(alloc: Global, tree: &Tree, text: &[u8]) -> Result<bool, AllocError> {
    Ok(write_tree(alloc, tree)?.as_slice() == text)
}

/// The literals of these numbers.
pub fn literals_of(alloc: Global, numbers: &[i32]) -> Result<Vec<Lit>, AllocError> {
    let mut literals = Vec::new(alloc);
    for number in numbers {
        literals.push(Lit::new(*number).unwrap_or_default())?;
    }
    Ok(literals)
}

/// Returns whether these are the literals of these numbers.
pub fn are_literals(alloc: Global, literals: &[Lit], numbers: &[i32]) -> Result<bool, AllocError> {
    Ok(literals_of(alloc, numbers)?.as_slice() == literals)
}
