//! The clauses of a void variable.

ghost use Rattle.std.specs.Prelude.{◌≡◌, ◌++◌, OnOk};
ghost use Rattle.clause_blocks.specs.Blocks as blocks;
ghost use Rattle.clause_blocks.specs.Ranges.{FitsFormula};

use dimacs::{Clause, Lit};
use std::alloc::{AllocError, Global};

/// Appends the two clauses of a void variable, of which each assignment makes one false: the formula of a trace whose reading operation
/// has no candidate, or whose final value nothing leaves, has no model.
pub(crate) fn push_void(
    alloc: Global,
    variable: u32,
    clauses: &mut Vec<Clause>,
) -> Result<(), AllocError>
    requires { FitsFormula variable }
    ensures { OnOk result (clauses.new.items ≡ clauses.old.items ++ blocks.void_clauses variable) }
{
    let chosen = Lit::positive(variable);
    clauses.push(Clause::unit(alloc, chosen))?;
    clauses.push(Clause::unit(alloc, chosen.negated()))?;
    Ok(())
}
