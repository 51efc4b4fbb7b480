//! Open leaves are split.
ghost use Rattle.std.specs.Prelude.{◌≡◌, ◌<◌, ◌≤◌, ◌&&◌, ℕ, length, not, IfOk, IfSome};
ghost use Rattle.std.specs.List.{Contains};
ghost use Rattle.cube_tree.specs.CubeTree.{cubes_of, is_variable};
ghost use Rattle.result_ledger.specs.Ledger.{cubes_in};
ghost use Rattle.trace_decision.specs.Rounds as rounds;
ghost use Rattle.trace_decision.specs.Rounds.{AreAfterSplits, IsSplitIfPossible};

use cube_tree::laws::split_changes_one_leaf;
use cube_tree::{Tree, split_leaf};
use dimacs::{Lit, MAX_VARIABLE};
use result_ledger::Ledger;
use std::alloc::{AllocError, Global};
use text_lines::fault::PlacedFault;

/// Returns whether one of the literals is of the variable.
fn has_variable(cube: &[Lit], variable: u32) -> bool
    ensures { result ≡ rounds.has_variable cube.now variable }
{
    cube.iter().any(|literal| literal.variable() == variable)
}

/// Returns whether the cube can be split on the variable.
fn is_free(cube: &[Lit], variable: u32) -> bool
    ensures { result ≡ (is_variable variable && not (rounds.has_variable cube.now variable)) }
{
    1 <= variable && variable <= MAX_VARIABLE && !has_variable(cube, variable)
}

/// The first of these variables that the cube does not have.
fn next_variable(variables: &[u32], cube: &[Lit]) -> Option<u32>
    ensures first { result ≡ rounds.first_free variables.now cube.now }
    ensures fits { IfSome result (λ variable. (1 ≤ variable) × (variable ≤ MAX_VARIABLE)) }
{
    variables
        .iter()
        .copied()
        .find(|variable| is_free(cube, *variable))
}

/// The tree and its ledger with this leaf split on the first of the variables that its cube does not have. They stay as they
/// are where there is no such variable, or where the tree may not grow.
fn split_one(
    alloc: Global,
    variables: &[u32],
    tree: Tree,
    ledger: Ledger,
    leaf: u32,
) -> Result<(Tree, Ledger), AllocError>
    requires cubes { cubes_in ledger ≡ cubes_of tree }
    requires leaf { leaf < length ledger }
    ensures cubes { IfOk result (λ after. cubes_in after.1 ≡ cubes_of after.0) }
    ensures split { IfOk result (λ after. IsSplitIfPossible variables.now leaf ledger after.1) }
{
    let Some(variable) = next_variable(variables, ledger.cube(leaf)) else {
        return Ok((tree, ledger));
    };
    split_changes_one_leaf();
    match split_leaf(alloc, tree, leaf, variable) {
        Ok(tree) => match ledger.split(alloc, leaf, &tree) {
            Ok(ledger) => Ok((tree, ledger)),
            Err((_, error)) => Err(error),
        },
        Err((tree, PlacedFault::At(_, _))) => Ok((tree, ledger)),
        Err((_, PlacedFault::OutOfMemory)) => Err(AllocError),
    }
}

/// The tree and its ledger with these leaves split, rising, except those that cannot be. A leaf's number is that before the first split.
pub(crate) fn split_all(
    alloc: Global,
    variables: &[u32],
    tree: Tree,
    ledger: Ledger,
    leaves: &[u32],
) -> Result<(Tree, Ledger), AllocError>
    requires cubes { cubes_in ledger ≡ cubes_of tree }
    requires leaves { (leaf : ℕ) → Contains leaves.now leaf → leaf < length ledger }
    ensures cubes { IfOk result (λ after. cubes_in after.1 ≡ cubes_of after.0) }
    ensures split { IfOk result (λ after. AreAfterSplits variables.now leaves.now 0 ledger after.1) }
{
    let before = ledger.leaves();
    let mut tree = tree;
    let mut ledger = ledger;
    for leaf in leaves {
        // The leaves rise, so each split before this one has put one more leaf before this leaf.
        let more = ledger.leaves() - before;
        let (next_tree, next_ledger) = split_one(alloc, variables, tree, ledger, *leaf + more)?;
        tree = next_tree;
        ledger = next_ledger;
    }
    Ok((tree, ledger))
}
