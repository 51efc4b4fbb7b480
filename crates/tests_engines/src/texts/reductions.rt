//! A trace without its repeated local reads, and a schedule with them again.

use crate::expectations::ample;
use reducer::expand::expand;
use reducer::laws::kept_is_a_trace;
use reducer::reduced::{Reduced, reduce};
use schedule_judge::judge::judge;
use schedule_text::schedule_reader::read_schedule;
use schedule_text::schedule_writer::write_schedule;
use std::alloc::Global;
use std::process::Abort;
use trace_semantics::judgement::Judgement;
use trace_semantics::laws::legal_exactly_where_faultless;
use trace_semantics::limits::Limits;
use trace_semantics::schedule::Schedule;
use trace_semantics::trace::Trace;
use trace_text::trace_reader::read_trace;
use trace_text::trace_writer::write_trace;

/// Two runs of reads, with an operation of another process that a pair and an origin tie to the third one.
const TIED: &str =
    "vsc 2\nproc P\nW x 1\nR x 1\nW y 2\nR y 2\nR y 2\nproc Q\nR y 2 from P 3\nbefore P 3 Q 1\n";

/// What is kept of it.
const KEPT: &str = "vsc 2\nproc P\nW x 1\nW y 2\nproc Q\nR y 2 from P 2\nbefore P 2 Q 1\n";

/// A schedule of what is kept, and with the dropped reads.
const ORDER: &str = "P.1\nP.2\nQ.1\n";

const WHOLE_ORDER: &str = "P.1\nP.2\nP.3\nP.4\nP.5\nQ.1\n";

/// Asserts that the schedule is a legal one of the trace.
fn assert_legal(rt: &impl Abort, alloc: Global, trace: &Trace, schedule: &Schedule) {
    let judgement = ample(rt, judge(alloc, trace, schedule));
    assert!(rt; matches!(judgement, Judgement::Legal));
}

/// The schedule with the dropped reads put back, where it is a legal one of the kept trace.
fn expanded(rt: &impl Abort, alloc: Global, reduced: &Reduced, schedule: &Schedule) -> Schedule {
    kept_is_a_trace();
    legal_exactly_where_faultless();
    match judge(alloc, reduced.kept(), schedule) {
        Ok(Judgement::Legal) => ample(rt, expand(alloc, reduced, schedule)),
        Ok(_) => panic!(rt; "the schedule is not legal"),
        Err(_) => panic!(rt; "there is no memory"),
    }
}

/// Asserts that this is the text of the schedule.
fn assert_text(rt: &impl Abort, alloc: Global, schedule: &Schedule, text: &str) {
    let written = ample(rt, write_schedule(alloc, schedule));
    assert!(rt; written.as_slice() == text.as_bytes());
}

/// Asserts that this is the text of what is kept.
fn assert_kept(rt: &impl Abort, alloc: Global, reduced: &Reduced, text: &str) {
    let written = ample(rt, write_trace(alloc, reduced.kept()));
    assert!(rt; written.as_slice() == text.as_bytes());
}

#[test]
fn drops_repeated_reads_and_puts_them_back(rt: HostRuntime) {
    let alloc = rt.alloc();
    let trace = ample(&rt, read_trace(alloc, TIED.as_bytes()));
    let reduced = ample(&rt, reduce(alloc, &trace));
    assert_kept(&rt, alloc, &reduced, KEPT);
    let schedule = ample(&rt, read_schedule(alloc, Limits::Small, ORDER.as_bytes()));
    let whole = expanded(&rt, alloc, &reduced, &schedule);
    assert_text(&rt, alloc, &whole, WHOLE_ORDER);
    assert_legal(&rt, alloc, &trace, &whole);
}

/// The text of a process with this number of writes.
fn writes(rt: &impl Abort, alloc: Global, count: u32) -> Vec<u8> {
    let mut text = ample(rt, Vec::from_slice(alloc, b"vsc 1\nproc P\n"));
    for _ in 0..count {
        ample(rt, text.extend_from_slice(b"W x 1\n"));
    }
    text
}

#[test]
fn keeps_160_operations_at_most(rt: HostRuntime) {
    let text = writes(&rt, rt.alloc(), 161);
    let trace = ample(&rt, read_trace(rt.alloc(), text.as_slice()));
    let Err(fault) = reduce(rt.alloc(), &trace) else {
        panic!(&rt; "161 operations are kept");
    };
    let line = ample(&rt, fault.to_string(rt.alloc()));
    assert!(&rt; line.as_str() == "2 StillTooLarge at 161");
}
