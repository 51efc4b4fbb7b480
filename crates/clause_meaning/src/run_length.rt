//! How many clauses a run has.

ghost use Rattle.std.specs.Prelude.{◌≡◌, length};
ghost use Rattle.trace_semantics.specs.Trace.{operation_count};
ghost use Rattle.var_layout.specs.Numbers as numbers;
ghost use Rattle.var_layout.specs.Tables.{final_writers};
ghost use Rattle.clause_meaning.specs.Meanings.{meanings_of_run, triples_from};

use crate::run::ClauseRun;
use var_layout::layout::Layout;

/// The number of those of the writers that are not this one. One less than all would be right only if this one is among them, and once, which the contract
/// does not require.
fn count_others(writer: usize, writers: &[usize]) -> usize
    ensures { result ≡ length (numbers.others writer writers.now) }
{
    writers.iter().copied().filter(|w| *w != writer).count()
}

/// The number of clauses of transitivity of which this operation is the lowest of three: two for each pair of operations above it.
fn count_triples(layout: &Layout, lowest: usize) -> usize
    ensures { result ≡ length (triples_from (operation_count layout.now) lowest) }
{
    layout.recall_limits();
    let above = layout.operations().saturating_sub(lowest).saturating_sub(1);
    above * above.saturating_sub(1)
}

/// The writers of a final value's location, or none if there is no such final value.
pub(crate) fn writers_of_final(layout: &Layout, k: usize) -> &[usize]
    ensures { result.now ≡ final_writers layout.now k }
{
    if k < layout.final_values() {
        layout.final_writers(k)
    } else {
        &[]
    }
}

/// The number of clauses of a run. It must agree with what `clause_blocks` makes: each later run would be found at a wrong place.
pub(crate) fn length_of(layout: &Layout, run: ClauseRun) -> usize
    ensures { result ≡ length (meanings_of_run layout.now run) }
{
    layout.recall_limits();
    match run {
        ClauseRun::ProgramOrder(_) | ClauseRun::HasSource(_) | ClauseRun::HasLast(_) => 1,
        ClauseRun::NoSource { .. } | ClauseRun::NoLast { .. } => 2,
        ClauseRun::TriplesFrom(i) => count_triples(layout, i),
        ClauseRun::FromInitial { reader, .. } => layout.other_writers(reader).len(),
        ClauseRun::FromWriter { reader, source, .. } => {
            1 + count_others(source, layout.other_writers(reader))
        }
        ClauseRun::FromLast {
            final_value,
            last,
            ..
        } => count_others(last, writers_of_final(layout, final_value)),
        ClauseRun::BeforePairs => layout.before().len(),
    }
}
