//! What is reported of traces with the help of a survey, and of a surveyor that lies.

use crate::expectations::{ample, expect};
use crate::long_traces::answers::{answer_of_survey, answer_with};
use crate::long_traces::buffered_runs::buffered_run;
use crate::long_traces::lying_surveyors::{Liar, Lie};
use crate::long_traces::traces::{
    HAND_OFF, LEARNED_BEFORE, STALE_MESSAGE, STALE_REASONS, STORE_BUFFERING, counted_lock,
    with_many_writes,
};
use dimacs::MemorySink;
use std::alloc::Global;
use std::process::Abort;
use std::sync::Wait;
use std::thread::Threads;
use survey::BySaturation;
use surveyor::{Finding, Surveyor};
use trace_text::trace_reader::read_trace;
use verdict_report::{ShortSource, Status, run_judge};

/// What has to be answered and reported of a trace.
#[derive(Clone, Copy)]
struct WantedReport {
    status: Status,
    report: &'static [u8],
}

/// The answer on store buffering, also among other operations.
const CORE_OF_FOUR: WantedReport = WantedReport {
    status: Status::No,
    report: b"INCONSISTENT operations=4 cubes=1\nP.1\nP.2\nQ.1\nQ.2\n",
};

/// The answer on the hand-off.
const HANDED_OFF: WantedReport = WantedReport {
    status: Status::Yes,
    report: b"CONSISTENT\nP.1\nQ.1\n",
};

/// Asserts what is reported of the trace, in the case of this number.
fn assert_reports<R: Threads + Wait + Abort + Sync, S: Surveyor>(
    alloc: Global,
    rt: &R,
    trace: &str,
    surveyor: &S,
    wanted: WantedReport,
    number: usize,
) {
    let found = answer_with(alloc, rt, trace, "", surveyor, 10_000);
    expect(rt, found.outcome == Ok(wanted.status), number);
    expect(rt, found.report.as_slice() == wanted.report, number);
}

// Nothing that a surveyor says turns a verdict.
#[test]
fn decides_whatever_a_surveyor_says(rt: HostRuntime) {
    let lies = [
        Lie::Schedule(1, 2),
        Lie::Schedule(9, 9),
        Lie::Core(1, 2),
        Lie::Core(1, 1),
        Lie::Core(9, 1),
        Lie::Reasons(b'x'),
        Lie::Nothing,
    ];
    for lie in lies {
        let liar = Liar::of(lie);
        assert_reports(rt.alloc(), &rt, STORE_BUFFERING, &liar, CORE_OF_FOUR, 1);
        assert_reports(rt.alloc(), &rt, HAND_OFF, &liar, HANDED_OFF, 2);
        let long = ample(&rt, with_many_writes(rt.alloc(), STORE_BUFFERING));
        let wanted = WantedReport {
            status: Status::Unknown,
            report: b"UNKNOWN placed=7 undecided=3\n",
        };
        assert_reports(rt.alloc(), &rt, long.as_str(), &liar, wanted, 3);
    }
}

// The survey finds the four operations among two hundred.
#[test]
fn finds_the_core_of_a_long_trace(rt: HostRuntime) {
    let survey = BySaturation { budget: 1_000_000 };
    let long = ample(&rt, with_many_writes(rt.alloc(), STORE_BUFFERING));
    let text = long.as_str();
    assert_reports(rt.alloc(), &rt, text, &survey, CORE_OF_FOUR, 4);
    assert_reports(rt.alloc(), &rt, STORE_BUFFERING, &survey, CORE_OF_FOUR, 5);
}

// A budget of no step finds nothing, and what is small is decided all the same.
#[test]
fn says_how_far_it_came(rt: HostRuntime) {
    let survey = BySaturation { budget: 0 };
    let long = ample(&rt, with_many_writes(rt.alloc(), STORE_BUFFERING));
    let wanted = WantedReport {
        status: Status::Unknown,
        report: b"UNKNOWN placed=0 undecided=0\n",
    };
    assert_reports(rt.alloc(), &rt, long.as_str(), &survey, wanted, 6);
    assert_reports(rt.alloc(), &rt, HAND_OFF, &survey, HANDED_OFF, 7);
}

// The survey finds a schedule of a long trace, which a judge takes.
#[test]
fn finds_a_schedule_of_a_long_trace(rt: HostRuntime) {
    let long = ample(&rt, with_many_writes(rt.alloc(), HAND_OFF));
    let text = long.as_str();
    let found = answer_of_survey(rt.alloc(), &rt, text, 1_000_000, Status::Yes, 8);
    let schedule = found.report.as_slice().strip_prefix(b"CONSISTENT\n");
    expect(&rt, schedule.is_some(), 8);
    let mut trace = ShortSource::new(long.as_bytes(), 99);
    let mut names = ShortSource::new(schedule.unwrap_or(b""), 99);
    let mut answer = MemorySink::new(rt.alloc());
    let outcome = run_judge(rt.alloc(), &mut trace, &mut names, &mut answer);
    expect(&rt, outcome == Ok(Status::Yes), 9);
}

// A lock that is acquired once too often: no small part shows it, and a survey that may take no step decides nothing.
#[test]
fn decides_nothing_without_a_step(rt: HostRuntime) {
    let lock = ample(&rt, counted_lock(rt.alloc()));
    let text = lock.as_str();
    let found = answer_of_survey(rt.alloc(), &rt, text, 0, Status::Unknown, 10);
    let report = found.report.as_slice();
    expect(&rt, report.starts_with(b"UNKNOWN placed="), 10);
}

/// The number of steps that a survey of the trace with this budget reports.
fn steps_of(alloc: Global, rt: &impl Abort, trace: &str, budget: u64) -> u64 {
    let trace = ample(rt, read_trace(alloc, trace.as_bytes()));
    let survey = BySaturation { budget };
    let overview = ample(rt, survey.survey(alloc, &trace, &[]));
    overview.extent.steps
}

// A small budget is spent but for the quarter that is kept for a core, and of a large one some is left.
#[test]
fn reports_the_steps_that_it_took(rt: HostRuntime) {
    let long = ample(&rt, with_many_writes(rt.alloc(), STORE_BUFFERING));
    let trace = long.as_str();
    expect(&rt, steps_of(rt.alloc(), &rt, trace, 0) == 0, 21);
    expect(&rt, steps_of(rt.alloc(), &rt, trace, 1) == 1, 22);
    expect(&rt, steps_of(rt.alloc(), &rt, trace, 100) == 75, 23);
    let steps = steps_of(rt.alloc(), &rt, trace, 1_000_000);
    expect(&rt, steps > 75 && steps < 1_000_000, 24);
}

/// Returns whether the survey of the trace with this budget finds a core that it has refuted itself: of another one it gives reasons.
fn finds_core(alloc: Global, rt: &impl Abort, trace: &str, budget: u64) -> bool {
    let trace = ample(rt, read_trace(alloc, trace.as_bytes()));
    let survey = BySaturation { budget };
    let overview = ample(rt, survey.survey(alloc, &trace, &[]));
    matches!(&overview.finding, Finding::Core(_names))
}

// The budget of the first walk ends after it has learned pairs of no decision. The last walk rests on them, and its core has what they rest on.
#[test]
fn knows_why_an_earlier_walk_has_learned_a_pair(rt: HostRuntime) {
    expect(
        &rt,
        finds_core(rt.alloc(), &rt, LEARNED_BEFORE, 500_000),
        25,
    );
}

// A walk refutes this run by many clauses, and takes most of the budget. The certificate is made of the few clauses on which the refutation rests: to
// derive all of them anew would take more than is left.
#[test]
fn certifies_what_a_long_walk_has_refuted(rt: HostRuntime) {
    let text = ample(&rt, buffered_run(rt.alloc(), 1016, 600));
    let trace = ample(&rt, read_trace(rt.alloc(), text.as_str().as_bytes()));
    let survey = BySaturation { budget: 4_500_000 };
    let overview = ample(&rt, survey.survey(rt.alloc(), &trace, &[]));
    let is_first = matches!(&overview.finding, Finding::Reasons(_text));
    let is_second = matches!(&overview.otherwise, Finding::Reasons(_text));
    expect(&rt, is_first || is_second, 28);
}

// By hand: Q.1 reads what P.2 leaves, Q.2 the initial value that P.1 writes over, and no cycle is of these four. P.3 stands in a comment alone.
#[test]
fn names_the_operations_that_the_lines_name(rt: HostRuntime) {
    let liar = Liar::of(Lie::Certificate(STALE_REASONS));
    let wanted = WantedReport {
        status: Status::No,
        report: b"INCONSISTENT operations=4 reasons=3\nP.1\nP.2\nQ.1\nQ.2\n",
    };
    assert_reports(rt.alloc(), &rt, STALE_MESSAGE, &liar, wanted, 26);
}
