//! Hints for the solver about the structure of a trace's encoding. Untrusted: an error here can only slow the search down. So no verdict would
//! show one, and `tests_engines` asks of the clauses that they name what they say.

use clause_blocks::trace_clauses::TraceClauses;
use clause_meaning::clause_runs::ClauseRuns;
use clause_meaning::run::ClauseRun;
use proof_log::ClauseId;
use proof_log::codes::Variable;
use solver::{Element, EncodingHints, LastWriter, ReadsFromTable, ReadsFromVariable};
use std::alloc::{AllocError, Global};
use var_layout::layout::Layout;

/// A number of operations, or of clauses, as the solver takes it. At most 160 operations are kept, so theirs always fits.
fn number_of(count: usize) -> u32 {
    u32::try_from(count).unwrap_or(u32::MAX)
}

/// Returns the operation of this number, from 0, as the solver takes it.
fn element_of(operation: usize) -> Element {
    Element::new(number_of(operation))
}

/// Returns the id of the clause at this place, as the solver counts clauses: from 1.
fn id_at(place: usize) -> ClauseId {
    ClauseId::new(number_of(place).saturating_add(1))
}

/// Returns hints that name the clauses of transitivity.
pub fn guide_to_order<'a>(clauses: &TraceClauses) -> EncodingHints<'a> {
    let operations = clauses.layout().operations();
    EncodingHints::with_order(number_of(operations), id_at(clauses.transitivity_start()))
}

/// Adds the other writers of the location of each operation.
fn add_writers(reads_from: &mut ReadsFromTable, layout: &Layout) {
    for operation in 0..layout.operations() {
        for writer in layout.other_writers(operation) {
            reads_from.add_writer(element_of(operation), element_of(*writer));
        }
    }
}

/// Adds the choice of the run, if it is of one, where `first` is the first of its clauses and `has_last` the last clause which says that some writer
/// leaves a final value. Returns that one for the next run.
fn add_run(
    reads_from: &mut ReadsFromTable,
    run: ClauseRun,
    first: ClauseId,
    has_last: ClauseId,
) -> Result<ClauseId, AllocError> {
    match run {
        ClauseRun::FromInitial { reader, variable } => {
            reads_from.add_choice(ReadsFromVariable {
                variable: Variable::new(variable),
                reader: element_of(reader),
                writer: None,
                first,
            })?
        }
        ClauseRun::FromWriter {
            reader,
            variable,
            source,
        } => reads_from.add_choice(ReadsFromVariable {
            variable: Variable::new(variable),
            reader: element_of(reader),
            writer: Some(element_of(source)),
            first,
        })?,
        ClauseRun::HasLast(_) => return Ok(first),
        ClauseRun::FromLast { variable, last, .. } => reads_from.add_last_writer(LastWriter {
            variable: Variable::new(variable),
            writer: element_of(last),
            clause: has_last,
            first,
        })?,
        // No clause of these speaks of a choice. A new kind of run does not compile until it is named here.
        ClauseRun::ProgramOrder(_)
        | ClauseRun::TriplesFrom(_)
        | ClauseRun::HasSource(_)
        | ClauseRun::NoSource { .. }
        | ClauseRun::NoLast { .. }
        | ClauseRun::BeforePairs => {}
    }
    Ok(has_last)
}

/// Returns who writes what others read, and which clauses say what is read and which writers are the last ones.
pub fn reads_from_table(
    alloc: Global,
    clauses: &TraceClauses,
) -> Result<ReadsFromTable, AllocError> {
    let layout = clauses.layout();
    let mut reads_from = ReadsFromTable::new(alloc, number_of(layout.operations()))?;
    add_writers(&mut reads_from, layout);
    let runs = ClauseRuns::of(alloc, clauses)?;
    // The run that names the clause stands before those of the writers that need it.
    let mut has_last = ClauseId::NONE;
    for k in 0..runs.count() {
        has_last = add_run(&mut reads_from, runs.run(k), id_at(runs.start(k)), has_last)?;
    }
    Ok(reads_from)
}
