//! Clauses that are true under all assignments.

use proof_log::codes::{ALWAYS, LiteralCode};

/// Returns whether one of two literals is true under all assignments.
fn is_settled(first: LiteralCode, second: LiteralCode) -> bool {
    first == ALWAYS || second == ALWAYS || first.negated() == second
}

/// Returns whether a clause of these literals is a tautology. A step of one is left out, so `ALWAYS` is never written. `NEVER`, which fills up
/// shorter clauses, makes none, also if it stands there twice.
pub fn is_tautology(literals: [LiteralCode; 3]) -> bool {
    let [first, second, third] = literals;
    is_settled(first, second) || is_settled(first, third) || is_settled(second, third)
}
