//! What one clause says.

/// What a clause says, of operations by their numbers and of final values by their places in the trace's list, both from 0.
#[derive(Clone, Copy)]
pub enum ClauseMeaning {
    /// The operation stands before the next one of its process.
    ProgramOrder(usize),
    /// The order of three operations has no cycle. The first of their two clauses: if the lowest stands before the middle one, and that before
    /// the highest, the lowest stands before the highest. The second: the same with all three orders turned round.
    NoCycle {
        lowest: usize,
        middle: usize,
        highest: usize,
        is_second: bool,
    },
    /// The operation reads from somewhere.
    HasSource(usize),
    /// The operation has nothing to read from: the first of two clauses that contradict each other, or the second. The first is the void
    /// variable, the second its negation.
    NoSource {
        reader: usize,
        variable: u32,
        is_second: bool,
    },
    /// If the reader has the initial value, as the variable says, it stands before the writer.
    BeforeWriter {
        reader: usize,
        variable: u32,
        writer: usize,
    },
    /// If the reader reads from the source, as the variable says, it stands after it.
    AfterSource {
        reader: usize,
        variable: u32,
        source: usize,
    },
    /// If the reader reads from the source, as the variable says, the writer does not stand between them.
    NotBetween {
        reader: usize,
        variable: u32,
        source: usize,
        writer: usize,
    },
    /// One of the writers leaves the final value.
    HasLast(usize),
    /// Nothing leaves the final value: the first of two clauses that contradict each other, or the second, as for `NoSource`.
    NoLast {
        final_value: usize,
        variable: u32,
        is_second: bool,
    },
    /// If the writer `last` leaves the final value, as the variable says, the other one stands before it.
    BeforeLast {
        final_value: usize,
        variable: u32,
        last: usize,
        writer: usize,
    },
    /// The trace says that the first operation stands before the second.
    BeforePair(usize, usize),
}
