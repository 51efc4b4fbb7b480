//! The before pairs by number.

ghost use Rattle.std.specs.Prelude.{◌≡◌, map, IfOk};
ghost use Rattle.trace_semantics.specs.declared.operation.OpName.{OpName as Named};
ghost use Rattle.var_layout.specs.Numbers.{number_of};

use crate::numbering::Numbering;
use std::alloc::{AllocError, Global};
use trace_semantics::operation::OpName;

/// The numbers of both operations of each pair. A trace's pairs are of its own operations, so each name has a number.
pub(crate) fn before_numbers(
    alloc: Global,
    numbering: &Numbering<'_>,
    before: &[(OpName, OpName)],
) -> Result<Vec<(usize, usize)>, AllocError>
    ensures { IfOk result (λ pairs. pairs.items ≡ map (λ (pair : Named × Named). (number_of numbering.now pair.0, number_of numbering.now pair.1)) before.now) }
{
    let mut pairs = Vec::with_capacity(alloc, before.len())?;
    for pair in before {
        let first = numbering.number_of(&pair.0);
        let second = numbering.number_of(&pair.1);
        pairs.push((first, second))?;
    }
    Ok(pairs)
}
