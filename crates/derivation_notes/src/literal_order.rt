//! The two operations of which a literal of the order speaks.

use dimacs::Lit;

/// The operations of which the literal says that the first stands before the second, if its variable is one of the order of this many
/// operations. Variables count from 1, and no literal has 0. Those of the order come first, one for each pair `i < j` and row by row:
/// (0, 1), (0, 2), .., then (1, 2) and so on, as `var_layout` numbers them. A negative literal says that `j` stands before `i`.
pub fn order_of(operations: usize, literal: Lit) -> Option<(usize, usize)> {
    let mut rest = literal.variable() as usize - 1;
    for i in 0..operations {
        // The number of pairs whose lower operation is `i`.
        let row = operations - 1 - i;
        if rest < row {
            let j = i + 1 + rest;
            return Some(if literal.is_positive() {
                (i, j)
            } else {
                (j, i)
            });
        }
        rest -= row;
    }
    None
}
