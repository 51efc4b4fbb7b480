//! What is wanted of a run of an engine: its answer, and what its sink takes.

use crate::expectations::expect;
use std::process::Abort;
use verdict_report::{Fault, Status};

/// The answer that is wanted of an engine, and the bytes that its sink has to take.
#[derive(Clone, Copy)]
pub struct WantedRun<'a> {
    pub answer: Result<Status, Fault>,
    pub taken: &'a [u8],
}

/// A run that ends as a device fails, after its sink has taken these bytes.
pub fn cut_off(taken: &[u8]) -> WantedRun<'_> {
    WantedRun {
        answer: Err(Fault::Device),
        taken,
    }
}

/// Asserts what an engine has answered, and what its sink has taken, in the case of this number.
pub fn assert_run(
    rt: &impl Abort,
    answer: Result<Status, Fault>,
    taken: &[u8],
    wanted: WantedRun<'_>,
    number: usize,
) {
    expect(rt, answer == wanted.answer, number);
    expect(rt, taken == wanted.taken, number);
}
