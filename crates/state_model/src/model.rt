//! The model of a trace's clauses along a schedule: what stands before what in it, and what is read from whom.

use clause_blocks::trace_clauses::TraceClauses;
use clause_meaning::clause_runs::ClauseRuns;
use clause_meaning::run::ClauseRun;
use dimacs::Assignment;
use numbered_log::OperationId;
use std::alloc::{AllocError, Global};
use total_tables::{at, put, size};
use var_layout::layout::Layout;

/// The place of an operation that the schedule does not have. It stands behind all others, since it is the largest number.
const NOWHERE: u32 = 0xffff_ffff;

/// The places of operations in a schedule, by their numbers in the layout.
#[derive(Drop)]
struct Places<'a> {
    layout: &'a Layout,
    places: Vec<u32>,
}

impl<'a> Places<'a> {
    /// The places of these operations. The log of a trace and its layout number operations alike, from 0, by process and then place.
    fn of(
        alloc: Global,
        layout: &'a Layout,
        schedule: &[OperationId],
    ) -> Result<Places<'a>, AllocError> {
        let mut places = vec![in alloc; NOWHERE; layout.operations()]?;
        for place in 0..size(schedule) {
            let number = at(schedule, place, OperationId::FIRST);
            put(places.as_mut_slice(), number.number(), place);
        }
        Ok(Places { layout, places })
    }

    fn place(&self, operation: usize) -> u32 {
        if operation < self.places.len() {
            self.places[operation]
        } else {
            NOWHERE
        }
    }

    /// Returns whether the first stands before the second.
    fn is_before(&self, first: usize, second: usize) -> bool {
        self.place(first) < self.place(second)
    }

    /// Returns whether the reader reads what the source has left: no other writer of the location stands between.
    fn reads_from(&self, reader: usize, source: usize) -> bool {
        for writer in self.layout.other_writers(reader) {
            if self.is_before(source, *writer) && self.is_before(*writer, reader) {
                return false;
            }
        }
        self.is_before(source, reader)
    }

    /// Returns whether the reader reads the initial value: no writer of the location stands before it.
    fn reads_initial(&self, reader: usize) -> bool {
        for writer in self.layout.other_writers(reader) {
            if self.is_before(*writer, reader) {
                return false;
            }
        }
        true
    }

    /// Returns whether the writer leaves the final value: no writer of the location stands behind it.
    fn is_last(&self, writer: usize) -> bool {
        for other in self.layout.other_writers(writer) {
            if self.is_before(writer, *other) {
                return false;
            }
        }
        true
    }

    /// Returns the values of the order variables, which are those of the pairs of operations in their order.
    fn order_values(&self, alloc: Global) -> Result<Vec<bool>, AllocError> {
        let operations = self.layout.operations();
        let mut values = Vec::with_capacity(alloc, self.layout.count() as usize)?;
        for first in 0..operations {
            for second in first..operations {
                if first < second {
                    values.push(self.is_before(first, second))?;
                }
            }
        }
        Ok(values)
    }

    /// Returns the variable of the run and its value, if the run is of a choice.
    fn choice(&self, run: ClauseRun) -> Option<(u32, bool)> {
        match run {
            ClauseRun::FromInitial { reader, variable } => {
                Some((variable, self.reads_initial(reader)))
            }
            ClauseRun::FromWriter {
                reader,
                variable,
                source,
            } => Some((variable, self.reads_from(reader, source))),
            ClauseRun::FromLast { variable, last, .. } => Some((variable, self.is_last(last))),
            // None of these is of a choice. A new kind of run does not compile until it is named here.
            ClauseRun::ProgramOrder(_)
            | ClauseRun::TriplesFrom(_)
            | ClauseRun::HasSource(_)
            | ClauseRun::NoSource { .. }
            | ClauseRun::HasLast(_)
            | ClauseRun::NoLast { .. }
            | ClauseRun::BeforePairs => None,
        }
    }
}

/// The model of these clauses that the schedule is, if it has all operations and is legal.
pub(crate) fn model_along(
    alloc: Global,
    clauses: &TraceClauses,
    schedule: &[OperationId],
) -> Result<Assignment, AllocError> {
    let places = Places::of(alloc, clauses.layout(), schedule)?;
    let mut values = places.order_values(alloc)?;
    for _ in size(values.as_slice())..clauses.layout().count() {
        values.push(false)?;
    }
    let runs = ClauseRuns::of(alloc, clauses)?;
    for k in 0..runs.count() {
        if let Some(choice) = places.choice(runs.run(k)) {
            let variable = choice.0;
            // Variables are counted from 1.
            put(values.as_mut_slice(), variable.wrapping_sub(1), choice.1);
        }
    }
    Ok(Assignment::new(values))
}
