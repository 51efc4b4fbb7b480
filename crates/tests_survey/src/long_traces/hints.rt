//! What is reported with a hint: it is the answer if it is a legal schedule, and else it turns no verdict.

use crate::expectations::{ample, expect};
use crate::long_traces::answers::{Answered, answer_of_survey, answer_with};
use crate::long_traces::lying_surveyors::{Liar, Lie};
use crate::long_traces::traces::{HAND_OFF, STORE_BUFFERING, with_many_writes};
use schedule_text::schedule_fault::ScheduleCause;
use std::alloc::Global;
use std::process::Abort;
use survey::BySaturation;
use trace_text::trace_fault::TraceCause;
use verdict_report::{Fault, Status};

/// Asserts that this is answered and reported, in the case of this number.
fn assert_is(
    rt: &impl Abort,
    found: &Answered,
    outcome: Result<Status, Fault>,
    report: &[u8],
    number: usize,
) {
    expect(rt, found.outcome == outcome, number);
    expect(rt, found.report.as_slice() == report, number);
}

/// Two writes, each of a process of its own, to two locations: both orders are legal.
const APART: &str = "vsc 1\nproc P\nW x 1\nproc Q\nW y 1\n";

// The hint is the answer as it stands, before the surveyor is asked.
#[test]
fn answers_a_legal_hint(rt: HostRuntime) {
    let liar = Liar::of(Lie::Schedule(1, 2));
    let found = answer_with(rt.alloc(), &rt, APART, "P.1\nQ.1\n", &liar, 10_000);
    assert_is(&rt, &found, Ok(Status::Yes), b"CONSISTENT\nP.1\nQ.1\n", 1);
    let found = answer_with(
        rt.alloc(),
        &rt,
        APART,
        "# as recorded\nQ.1\n\nP.1",
        &liar,
        10_000,
    );
    assert_is(&rt, &found, Ok(Status::Yes), b"CONSISTENT\nQ.1\nP.1\n", 2);
}

// Hints of no name, of some names, of all in a wrong order, of one twice, and of operations that are not there.
#[test]
fn a_wrong_hint_turns_no_verdict(rt: HostRuntime) {
    let hints = [
        "",
        "Q.1\n",
        "Q.2\nQ.1\nP.2\nP.1\n",
        "P.1\nP.1\nQ.1\nQ.1\n",
        "P.9\nX.1\nP.1\n",
    ];
    let survey = BySaturation { budget: 1_000_000 };
    for hint in hints {
        let core = b"INCONSISTENT operations=4 cubes=1\nP.1\nP.2\nQ.1\nQ.2\n";
        let found = answer_with(rt.alloc(), &rt, STORE_BUFFERING, hint, &survey, 10_000);
        assert_is(&rt, &found, Ok(Status::No), core, 3);
        let found = answer_with(rt.alloc(), &rt, HAND_OFF, hint, &survey, 10_000);
        assert_is(&rt, &found, Ok(Status::Yes), b"CONSISTENT\nP.1\nQ.1\n", 4);
    }
}

/// The operations of the long hand-off, in a legal order.
fn long_hint(alloc: Global, rt: &impl Abort) -> String {
    let mut hint = String::new(alloc);
    ample(rt, hint.push_str("P.1\nQ.1\n"));
    for place in 1..=200u32 {
        let line = ample(rt, format!(in alloc; "R.{place}\n"));
        ample(rt, hint.push_str(line.as_str()));
    }
    hint
}

// A survey that may take no step decides nothing of a long trace, but with a legal hint it has nothing to do.
#[test]
fn a_legal_hint_needs_no_step(rt: HostRuntime) {
    let survey = BySaturation { budget: 0 };
    let long = ample(&rt, with_many_writes(rt.alloc(), HAND_OFF));
    answer_of_survey(rt.alloc(), &rt, long.as_str(), 0, Status::Unknown, 5);
    let hint = long_hint(rt.alloc(), &rt);
    let found = answer_with(
        rt.alloc(),
        &rt,
        long.as_str(),
        hint.as_str(),
        &survey,
        10_000,
    );
    expect(&rt, found.outcome == Ok(Status::Yes), 6);
    let schedule = found.report.as_slice().strip_prefix(b"CONSISTENT\n");
    expect(&rt, schedule.unwrap_or(b"") == hint.as_bytes(), 6);
}

// The trace's fault comes first.
#[test]
fn refuses_a_faulty_hint(rt: HostRuntime) {
    let survey = BySaturation { budget: 0 };
    let fault = Fault::Schedule(ScheduleCause::BadNumber, 2);
    let found = answer_with(rt.alloc(), &rt, HAND_OFF, "P.1\nQ.0\n", &survey, 10_000);
    assert_is(&rt, &found, Err(fault), b"", 7);
    let fault = Fault::Trace(TraceCause::Header, 1);
    let found = answer_with(rt.alloc(), &rt, "vsc 9\n", "P.1\nQ.0\n", &survey, 10_000);
    assert_is(&rt, &found, Err(fault), b"", 8);
}
