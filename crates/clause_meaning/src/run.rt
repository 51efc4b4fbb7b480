//! Runs of the clause list: neighbouring clauses of one kind.

/// The clauses of a run, of operations by their numbers and of final values by their places in the trace's list, both from 0.
#[derive(Clone, Copy)]
pub enum ClauseRun {
    /// The one clause that the operation stands before the next one of its process.
    ProgramOrder(usize),
    /// Those of three operations of which this one is the lowest. There are none for the last two operations.
    TriplesFrom(usize),
    /// The one clause that the operation reads from somewhere.
    HasSource(usize),
    /// The two clauses of a reader that has nothing to read from.
    NoSource {
        reader: usize,
        variable: u32,
    },
    /// Those of what it means that the reader has the initial value.
    FromInitial {
        reader: usize,
        variable: u32,
    },
    /// Those of what it means that the reader reads from the source.
    FromWriter {
        reader: usize,
        variable: u32,
        source: usize,
    },
    /// The one clause that some writer leaves the final value.
    HasLast(usize),
    /// The two clauses of a final value that nothing leaves.
    NoLast {
        final_value: usize,
        variable: u32,
    },
    /// Those of what it means that the writer leaves the final value.
    FromLast {
        final_value: usize,
        variable: u32,
        last: usize,
    },
    /// One for each pair of operations of which the trace says that the first stands before the second, in the order of `Layout::before`. Each list
    /// ends with this run, which may be empty.
    BeforePairs,
}
