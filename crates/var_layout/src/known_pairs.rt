//! The pairs of operations, by number, of which a trace says that the first stands before the second.

ghost use Rattle.std.specs.Prelude.{◌≡◌, ◌++◌, ◌==◌, ℕ, map, IfOk, OnOk};
ghost use Rattle.std.specs.List.{filter, list_any};
ghost use Rattle.var_layout.specs.KnownPairs as known;

use crate::before_numbers::before_numbers;
use crate::numbering::Numbering;
use std::alloc::{AllocError, Global};
use trace_semantics::known_order::{ends_before, says_times};
use trace_semantics::operation::Span;
use trace_semantics::trace::Trace;

/// When the operation of this number was under way, if the trace says so.
fn span_at(numbering: &Numbering<'_>, i: usize) -> Option<Span>
    ensures { result ≡ known.span_at_number numbering.now i }
{
    match numbering.op(i) {
        Some(op) => op.span(),
        None => None,
    }
}

/// Returns whether times put i before j, and program order does not: its clauses say that already.
fn is_timed(numbering: &Numbering<'_>, i: usize, j: usize) -> bool
    ensures { result ≡ known.is_timed numbering.now i j }
{
    ends_before(span_at(numbering, i), span_at(numbering, j)) && !numbering.in_program_order(i, j)
}

/// Returns whether i is the first of the pair.
fn begins_with(pair: (usize, usize), i: usize) -> bool
    ensures { result ≡ (pair.0 == i) }
{
    pair.0 == i
}

/// The second of each pair of which i is the first.
fn paired_with(alloc: Global, pairs: &[(usize, usize)], i: usize) -> Result<Vec<usize>, AllocError>
    ensures { IfOk result (λ found. found.items ≡ map (λ (pair : ℕ × ℕ). pair.1) (filter (λ (pair : ℕ × ℕ). pair.0 == i) pairs.now)) }
{
    let mut found = Vec::new(alloc);
    for pair in pairs {
        if begins_with(*pair, i) {
            found.push(pair.1)?;
        }
    }
    Ok(found)
}

/// Returns whether j is among these.
fn is_among(numbers: &[usize], j: usize) -> bool
    ensures { result ≡ list_any (λ (k : ℕ). k == j) numbers.now }
{
    numbers.iter().any(|k| *k == j)
}

/// Returns whether a before pair puts i before j, or times do.
fn is_said(numbering: &Numbering<'_>, paired: &[usize], i: usize, j: usize) -> bool
    requires { paired.now ≡ known.paired_after numbering.now i }
    ensures { result ≡ known.is_said numbering.now i j }
{
    is_among(paired, j) || is_timed(numbering, i, j)
}

/// Appends the pairs of which i is the first.
fn push_said_after(
    numbering: &Numbering<'_>,
    said: &mut Vec<(usize, usize)>,
    paired: &[usize],
    i: usize,
) -> Result<(), AllocError>
    requires { paired.now ≡ known.paired_after numbering.now i }
    ensures { OnOk result (said.new.items ≡ said.old.items ++ known.said_after numbering.now i) }
{
    for j in 0..numbering.count() {
        if is_said(numbering, paired, i, j) {
            said.push((i, j))?;
        }
    }
    Ok(())
}

/// Returns all pairs, by rising first and then second number, if an operation has times. `before` has the before pairs by number.
fn said_pairs(
    alloc: Global,
    numbering: &Numbering<'_>,
    before: &[(usize, usize)],
) -> Result<Vec<(usize, usize)>, AllocError>
    requires { before.now ≡ map (known.numbers_of numbering.now) numbering.now.before }
    ensures { IfOk result (λ said. said.items ≡ known.known_pairs numbering.now) }
{
    let mut said = Vec::new(alloc);
    for i in 0..numbering.count() {
        let paired = paired_with(alloc, before, i)?;
        push_said_after(numbering, &mut said, paired.as_slice(), i)?;
    }
    Ok(said)
}

/// The pairs of operations of which the trace says that the first stands before the second, by its before pairs or by times. Without times
/// they are the before pairs alone, which a trace has in the same rising order, and not all pairs of operations need be tried.
pub(crate) fn known_pairs(
    alloc: Global,
    numbering: &Numbering<'_>,
    trace: &Trace,
) -> Result<Vec<(usize, usize)>, AllocError>
    requires { numbering.now ≡ trace.now }
    ensures { IfOk result (λ said. said.items ≡ known.known_pairs numbering.now) }
{
    numbering.recall_invariant();
    let before = before_numbers(alloc, numbering, trace.before())?;
    if says_times(trace) {
        said_pairs(alloc, numbering, before.as_slice())
    } else {
        Ok(before)
    }
}
