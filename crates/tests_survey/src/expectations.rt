//! What the tests ask of an answer. They know nothing of how it was reached, so that a test takes little to prove.

use std::process::Abort;

/// The answer of a call that has memory enough.
pub fn ample<T, E: Drop>(rt: &impl Abort, outcome: Result<T, E>) -> T {
    outcome.ok().expect(rt, "no memory, or a refused text")
}

/// Asserts what is found in the case of this number.
pub fn expect(rt: &impl Abort, is_right: bool, number: usize) {
    assert!(rt; is_right, "in case {number}");
}
