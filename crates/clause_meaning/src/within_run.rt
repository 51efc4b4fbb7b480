//! What the clause at a place of a run says.
//!
//! A reader that has nothing to read from, or a final value that nothing leaves, has a void variable. It is true by one clause and false by another, so
//! the formula has no model.

ghost use Rattle.std.specs.Prelude.{◌≡◌, ◌≤◌, ◌∷◌, [], true, false, slice_get};
ghost use Rattle.trace_semantics.specs.Trace.{operation_count};
ghost use Rattle.var_layout.specs.Numbers as numbers;
ghost use Rattle.clause_meaning.specs.Meanings.{meanings_of_run, triples_from};

use crate::meaning::ClauseMeaning;
use crate::run::ClauseRun;
use crate::run_length::writers_of_final;
use var_layout::layout::Layout;

/// The one at this place, counted from 0, of those of the writers that are not this one.
fn other_at(writer: usize, writers: &[usize], place: usize) -> Option<usize>
    ensures { result ≡ slice_get (numbers.others writer writers.now) place }
{
    let mut rest = place;
    for other in writers {
        if *other != writer {
            if rest == 0 {
                return Some(*other);
            }
            rest -= 1;
        }
    }
    None
}

/// The meaning of the clause at this place, counted from 0, of those of n operations of which i is the lowest of three. They stand by rising
/// middle and then highest operation, two for each, since three operations can stand in a cycle in two directions. So a middle operation j has two for
/// each of the n - j - 1 above it. A trace has at most 160 operations that are kept.
fn triple_at(n: usize, i: usize, place: usize) -> Option<ClauseMeaning>
    requires { n ≤ 160 }
    ensures { result ≡ slice_get (triples_from n i) place }
{
    if i >= n {
        return None;
    }
    let mut rest = place;
    for j in i + 1..n {
        let with_middle = 2 * (n - j - 1);
        if rest < with_middle {
            return Some(ClauseMeaning::NoCycle {
                lowest: i,
                middle: j,
                highest: j + 1 + rest / 2,
                is_second: rest % 2 == 1,
            });
        }
        rest -= with_middle;
    }
    None
}

/// The meaning of the clause at this place, of those of a reader that reads from the source: first that it stands after the source, and then
/// one clause for each other writer.
fn of_source(
    layout: &Layout,
    reader: usize,
    variable: u32,
    source: usize,
    place: usize,
) -> Option<ClauseMeaning>
    ensures { result ≡ slice_get (meanings_of_run layout.now (ClauseRun.FromWriter reader variable source)) place }
{
    if place == 0 {
        return Some(ClauseMeaning::AfterSource {
            reader,
            variable,
            source,
        });
    }
    let writer = other_at(source, layout.other_writers(reader), place - 1)?;
    Some(ClauseMeaning::NotBetween {
        reader,
        variable,
        source,
        writer,
    })
}

/// The meaning of the clause at this place, of those of a reader that has the initial value.
fn of_initial(layout: &Layout, reader: usize, variable: u32, place: usize) -> Option<ClauseMeaning>
    ensures { result ≡ slice_get (meanings_of_run layout.now (ClauseRun.FromInitial reader variable)) place }
{
    let writer = *layout.other_writers(reader).get(place)?;
    Some(ClauseMeaning::BeforeWriter {
        reader,
        variable,
        writer,
    })
}

/// The meaning of the clause at this place, of those of a last writer.
fn of_last(
    layout: &Layout,
    final_value: usize,
    variable: u32,
    last: usize,
    place: usize,
) -> Option<ClauseMeaning>
    ensures { result ≡ slice_get (meanings_of_run layout.now (ClauseRun.FromLast final_value variable last)) place }
{
    let writer = other_at(last, writers_of_final(layout, final_value), place)?;
    Some(ClauseMeaning::BeforeLast {
        final_value,
        variable,
        last,
        writer,
    })
}

/// The meaning of the clause of the pair at this place.
fn of_pair(layout: &Layout, place: usize) -> Option<ClauseMeaning>
    ensures { result ≡ slice_get (meanings_of_run layout.now ClauseRun.BeforePairs) place }
{
    let pair = *layout.before().get(place)?;
    Some(ClauseMeaning::BeforePair(pair.0, pair.1))
}

/// The meaning, if the place is the first.
fn only(meaning: ClauseMeaning, place: usize) -> Option<ClauseMeaning>
    ensures { result ≡ slice_get (meaning ∷ []) place }
{
    if place == 0 { Some(meaning) } else { None }
}

/// Returns whether the clause at this place of two is the second of them.
fn is_second_at(place: usize) -> Option<bool>
    ensures { result ≡ slice_get (false ∷ true ∷ []) place }
{
    match place {
        0 => Some(false),
        1 => Some(true),
        _ => None,
    }
}

/// The meaning at this place of the two clauses of a reader that has nothing to read from.
fn of_no_source(reader: usize, variable: u32, place: usize) -> Option<ClauseMeaning>
    ensures { result ≡ slice_get (ClauseMeaning.NoSource reader variable false ∷ ClauseMeaning.NoSource reader variable true ∷ []) place }
{
    let is_second = is_second_at(place)?;
    Some(ClauseMeaning::NoSource {
        reader,
        variable,
        is_second,
    })
}

/// The meaning at this place of the two clauses of a final value that nothing leaves.
fn of_no_last(final_value: usize, variable: u32, place: usize) -> Option<ClauseMeaning>
    ensures { result ≡ slice_get (ClauseMeaning.NoLast final_value variable false ∷ ClauseMeaning.NoLast final_value variable true ∷ []) place }
{
    let is_second = is_second_at(place)?;
    Some(ClauseMeaning::NoLast {
        final_value,
        variable,
        is_second,
    })
}

/// The meaning of the clause at this place of the run, counted from 0, or none past its end.
pub(crate) fn meaning_in(layout: &Layout, run: ClauseRun, place: usize) -> Option<ClauseMeaning>
    ensures { result ≡ slice_get (meanings_of_run layout.now run) place }
{
    layout.recall_limits();
    match run {
        ClauseRun::ProgramOrder(i) => only(ClauseMeaning::ProgramOrder(i), place),
        ClauseRun::TriplesFrom(i) => triple_at(layout.operations(), i, place),
        ClauseRun::HasSource(r) => only(ClauseMeaning::HasSource(r), place),
        ClauseRun::NoSource { reader, variable } => of_no_source(reader, variable, place),
        ClauseRun::FromInitial { reader, variable } => of_initial(layout, reader, variable, place),
        ClauseRun::FromWriter {
            reader,
            variable,
            source,
        } => of_source(layout, reader, variable, source, place),
        ClauseRun::HasLast(k) => only(ClauseMeaning::HasLast(k), place),
        ClauseRun::NoLast {
            final_value,
            variable,
        } => of_no_last(final_value, variable, place),
        ClauseRun::FromLast {
            final_value,
            variable,
            last,
        } => of_last(layout, final_value, variable, last, place),
        ClauseRun::BeforePairs => of_pair(layout, place),
    }
}
