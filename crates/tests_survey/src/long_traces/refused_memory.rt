//! A survey that may be refused memory: it says so, or what it reports is right. `tests/refused-memory` runs this with each request for
//! memory refused in turn, so nothing here asks for what is `ample` of a call that takes memory.

use crate::expectations::expect;
use crate::long_traces::answers::texts_of;
use crate::long_traces::traces::STORE_BUFFERING;
use std::process::Abort;
use survey::BySaturation;
use verdict_report::{Fault, Status};

/// Asserts that what is written goes with the outcome, of a trace that has no legal schedule.
fn assert_is_right(
    rt: &impl Abort,
    outcome: Result<Status, Fault>,
    names: &[u8],
    part: &[u8],
    report: &[u8],
) {
    match outcome {
        Ok(Status::Yes) => expect(rt, false, 18),
        Ok(Status::No) => expect(rt, report.starts_with(b"INCONSISTENT "), 19),
        Ok(Status::Unknown) => {
            expect(rt, report.starts_with(b"UNKNOWN "), 20);
            expect(rt, names.is_empty() && part.is_empty(), 20);
        }
        Err(fault) => expect(
            rt,
            fault == Fault::OutOfMemory || fault == Fault::Device,
            21,
        ),
    }
}

// A sink in memory that finds none fails, as a device does.
#[test]
fn a_survey_is_right_or_lacks_memory(rt: HostRuntime) {
    let survey = BySaturation { budget: 1_000_000 };
    let found = texts_of(rt.alloc(), &rt, STORE_BUFFERING, &survey);
    assert_is_right(
        &rt,
        found.outcome,
        found.names.as_slice(),
        found.part.as_slice(),
        found.report.as_slice(),
    );
}
