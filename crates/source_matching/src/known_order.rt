//! The known order of operations. Its clauses are named by arithmetic: a table of them would have an entry for each triple.

use formula_numbers::{ClauseId, LiteralCode};
use order_sets::{Element, ElementSets, variable_of_pair};

/// An order of operations: how many there are, and the first clause which says that it is transitive. These clauses and
/// the variables of the order are numbered as `order_sets` does.
#[derive(Clone, Copy)]
pub struct OrderClauses {
    pub operations: u32,
    pub first: ClauseId,
}

impl OrderClauses {
    /// Returns the literal that says that the first operation stands before the second.
    pub fn before(self, first: Element, second: Element) -> LiteralCode {
        let variable = variable_of_pair(self.operations, first, second);
        LiteralCode::of(variable, first < second)
    }
}

/// The order that is known for sure, and which operations write which location.
#[derive(Clone, Copy)]
pub struct KnownOrder<'a> {
    pub order: OrderClauses,
    /// For each operation those others that write its location.
    pub writers: &'a ElementSets,
    /// For each operation those that surely come after it.
    pub successors: &'a ElementSets,
}
