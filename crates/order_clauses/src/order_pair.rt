//! Orders of two operations.

use writer_table::operation_place::OperationPlace;

/// The first operation stands before the second.
#[derive(Clone, Copy, Debug, PartialEq, Eq, Hash)]
pub struct OrderPair {
    pub first: OperationPlace,
    pub second: OperationPlace,
}

impl OrderPair {
    ghost use Rattle.std.specs.Prelude.{◌≡◌, ◌==◌};
    ghost use Rattle.order_clauses.specs.Turned.{turned};

    /// The second operation stands before the first.
    pub fn turned(self) -> OrderPair
        ensures { result ≡ turned self }
    {
        OrderPair {
            first: self.second,
            second: self.first,
        }
    }

    /// Returns whether the first operation comes before the second by the number of its process, and then by its place. Of a pair and its turned one just
    /// one is rising, if its operations are two.
    pub fn is_rising(self) -> bool {
        self.first.process < self.second.process
            || (self.first.process == self.second.process && self.first.place < self.second.place)
    }

    /// Returns whether both operations are of one process.
    pub fn is_of_one_process(self) -> bool
        ensures { result ≡ (self.first.process == self.second.process) }
    {
        self.first.process == self.second.process
    }
}
