//! Truth values as schedules, with the formula of a trace. `tests/examples/decode.txt` has these without it.

ghost use Rattle.std.specs.Prelude.{◌≡◌};
ghost use Rattle.clause_blocks.specs.Clauses.{formula_of};

use crate::expectations::{ample, expect};
use crate::traces::{HAND_OFF, STORE_BUFFERING, reduced_of};
use clause_blocks::formula::formula;
use dimacs::{Assignment, Formula};
use reducer::reduced::Reduced;
use schedule_decode::decode::decode;
use schedule_decode::decode_fault::DecodeFault;
use schedule_text::schedule_writer::write_schedule;
use std::alloc::{AllocError, Global};
use std::process::Abort;
use std::thread::Threads;
use trace_semantics::schedule::Schedule;

/// A process writes the initial value again, and another one reads it.
const WRITTEN_AGAIN: &str = "vsc 1\ninit x 0\nproc P\nW x 0\nproc Q\nR x 0\n";

/// A trace, the truth values of the variables 1, 2 and so on, and the schedule, or the fault as it is printed.
type DecodingCase = (&'static str, &'static [bool], &'static str);

const TOLD: [DecodingCase; 9] = [
    ("vsc 1\n", &[], ""),
    (HAND_OFF, &[true, true], "P.1\nQ.1\n"),
    (WRITTEN_AGAIN, &[true, false, true], "P.1\nQ.1\n"),
    (WRITTEN_AGAIN, &[false, true, false], "Q.1\nP.1\n"),
    (HAND_OFF, &[true, false], "2 NotAModel at 1"),
    (HAND_OFF, &[false, true], "2 NotAModel at 2"),
    // 0 before 1 and 1 before 2, but 2 before 0: of the lowest operation
    (
        STORE_BUFFERING,
        &[true, false, false, true, false, true, true, true],
        "2 NotAModel at 3",
    ),
    // 1 before 2 and 2 before 3, but 3 before 1: of the next one
    (
        STORE_BUFFERING,
        &[true, true, true, true, false, true, true, true],
        "2 NotAModel at 9",
    ),
    // P first, but Q reads the initial value: the last clause of all
    (STORE_BUFFERING, &[true; 8], "2 NotAModel at 14"),
];

/// The formula of the trace.
fn formula_of_trace<R: Threads + Sync + Abort>(rt: &R, alloc: Global, reduced: &Reduced) -> Formula
    ensures { result ≡ formula_of reduced.now.kept }
{
    match formula(alloc, rt, reduced, 1) {
        Ok(formula) => formula,
        Err(_) => panic!(rt; "there is no memory"),
    }
}

/// Returns whether this schedule was found, or this fault.
fn is_told(
    alloc: Global,
    decoded: Result<Schedule, DecodeFault>,
    answer: &str,
) -> Result<bool, AllocError> {
    match decoded {
        Ok(schedule) => Ok(write_schedule(alloc, &schedule)?.as_slice() == answer.as_bytes()),
        Err(fault) => Ok(fault.to_string(alloc)?.as_str() == answer),
    }
}

/// Asserts that this becomes of these truth values.
fn assert_told<R: Threads + Sync + Abort>(
    rt: &R,
    alloc: Global,
    trace: &str,
    values: &[bool],
    answer: &str,
) {
    let reduced = reduced_of(rt, alloc, trace);
    let formula = formula_of_trace(rt, alloc, &reduced);
    let assignment = Assignment::new(ample(rt, Vec::from_slice(alloc, values)));
    let decoded = decode(alloc, &reduced, &formula, &assignment);
    let is_right = ample(rt, is_told(alloc, decoded, answer));
    expect(rt, is_right, answer.len());
}

#[test]
fn decodes_models_and_refuses_what_is_none(rt: HostRuntime) {
    for (trace, values, answer) in &TOLD {
        assert_told(&rt, rt.alloc(), trace, values, answer);
    }
}
