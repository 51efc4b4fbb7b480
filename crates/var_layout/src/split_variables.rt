//! The order variables of operations in conflict.
//!
//! Cubes are made by splits on the first of these variables. Program order has the order of operations of one process, and what is read does not depend
//! directly on the order of two operations that are not in conflict.

ghost use Rattle.std.specs.Prelude.{◌≡◌, ◌<◌, ◌++◌, ◌==◌, ◌&&◌, ◌||◌, [], map, take, not, IfOk, OnOk};
ghost use Rattle.std.specs.List.{list_any};
ghost use Rattle.trace_semantics.specs.Trace.{operation_count};
ghost use Rattle.var_layout.specs.Numbers.{in_one_process, other_writers};
ghost use Rattle.var_layout.specs.OrderVariables.{numbers_above};
ghost use Rattle.var_layout.specs.Split as split;

use crate::layout::Layout;
use crate::order_literal::order_var;
use std::alloc::{AllocError, Global};

/// Returns whether operation j writes where operation i works.
fn is_written_by(layout: &Layout, i: usize, j: usize) -> bool
    ensures { result ≡ list_any (λ w. w == j) (other_writers layout.now i) }
{
    layout.other_writers(i).iter().any(|w| *w == j)
}

/// Returns whether they are in conflict and of different processes.
fn is_split(layout: &Layout, i: usize, j: usize) -> bool
    ensures { result ≡ (not (in_one_process layout.now i j) && (list_any (λ w. w == j) (other_writers layout.now i) || list_any (λ w. w == i) (other_writers layout.now j))) }
{
    !layout.in_one_process(i, j) && (is_written_by(layout, i, j) || is_written_by(layout, j, i))
}

/// Puts the variables of the pairs in conflict that begin with operation i, the lower one, after the others.
fn push_splits(variables: &mut Vec<u32>, layout: &Layout, i: usize) -> Result<(), AllocError>
    requires { i < operation_count layout.now }
    ensures { OnOk result (variables.new.items ≡ variables.old.items ++ split.splits_among layout.now (map (λ j. (i, j)) (numbers_above (operation_count layout.now) i))) }
{
    layout.recall_limits();
    let count = layout.operations();
    for j in i + 1..count {
        if is_split(layout, i, j) {
            variables.push(order_var(count as u32, i as u32, j as u32))?;
        }
    }
    Ok(())
}

/// Puts at least `most` of the variables of pairs in conflict into a list that has none yet, or all.
pub(crate) fn push_first_splits(
    variables: &mut Vec<u32>,
    layout: &Layout,
    most: usize,
) -> Result<(), AllocError>
    requires { variables.old.items ≡ [] }
    ensures { OnOk result (take most variables.new.items ≡ take most (split.splits layout.now)) }
{
    for i in 0..layout.operations() {
        if variables.len() >= most {
            return Ok(());
        }
        push_splits(variables, layout, i)?;
    }
    Ok(())
}

/// The variables of all pairs in conflict.
pub(crate) fn all_splits(alloc: Global, layout: &Layout) -> Result<Vec<u32>, AllocError>
    ensures { IfOk result (λ variables. variables.items ≡ split.splits layout.now) }
{
    let mut variables = Vec::new(alloc);
    for i in 0..layout.operations() {
        push_splits(&mut variables, layout, i)?;
    }
    Ok(variables)
}
