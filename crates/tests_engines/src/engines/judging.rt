//! The engine that judges, over devices that move a byte a call and fail at one of their calls.

use crate::expectations::expect;
use crate::short_devices::failing_at;
use crate::traces::HAND_OFF;
use dimacs::{MemorySink, ShortSink};
use std::alloc::Global;
use std::process::Abort;
use verdict_report::{Fault, ShortSource, Status, run_judge, write_fault};

/// The order that explains the read of the hand-off.
const SCHEDULE: &str = "P.1\nQ.1\n";

/// Asserts what a run over these sources answers and writes.
fn assert_runs(
    rt: &impl Abort,
    alloc: Global,
    mut trace: ShortSource<'_>,
    mut schedule: ShortSource<'_>,
    answer: Result<Status, Fault>,
    line: &[u8],
) {
    let mut output = MemorySink::new(alloc);
    let outcome = run_judge(alloc, &mut trace, &mut schedule, &mut output);
    assert!(rt; outcome == answer);
    assert!(rt; output.as_slice() == line);
}

#[test]
fn tells_each_failure_of_a_source(rt: HostRuntime) {
    let [last, behind] = [HAND_OFF.len() + 1, SCHEDULE.len() + 1];
    for call in 1..=last {
        let schedule = failing_at(SCHEDULE, behind + 1);
        let trace = failing_at(HAND_OFF, call);
        assert_runs(&rt, rt.alloc(), trace, schedule, Err(Fault::Device), b"");
    }
    for call in 1..=behind {
        let trace = failing_at(HAND_OFF, last + 1);
        let schedule = failing_at(SCHEDULE, call);
        assert_runs(&rt, rt.alloc(), trace, schedule, Err(Fault::Device), b"");
    }
    let trace = failing_at(HAND_OFF, last + 1);
    let schedule = failing_at(SCHEDULE, behind + 1);
    assert_runs(
        &rt,
        rt.alloc(),
        trace,
        schedule,
        Ok(Status::Yes),
        b"LEGAL\n",
    );
}

#[test]
fn reads_both_texts_before_it_judges_one(rt: HostRuntime) {
    let trace = ShortSource::new(b"no trace", 7);
    assert_runs(
        &rt,
        rt.alloc(),
        trace,
        failing_at("", 1),
        Err(Fault::Device),
        b"",
    );
}

/// Asserts what is answered and written where the sink fails at this call: this prefix of the line.
fn assert_front_of_line(
    rt: &impl Abort,
    alloc: Global,
    schedule: &str,
    call: usize,
    answer: Result<Status, Fault>,
    front: &[u8],
) {
    let mut trace = ShortSource::new(HAND_OFF.as_bytes(), 7);
    let mut names = ShortSource::new(schedule.as_bytes(), 7);
    let mut output = ShortSink::new(alloc, 1).failing_at(call as u64);
    let outcome = run_judge(alloc, &mut trace, &mut names, &mut output);
    expect(rt, outcome == answer, call);
    expect(rt, output.as_slice() == front, call);
}

/// Asserts what is answered and written where the sink fails at each of its calls, and after the last one.
fn assert_fronts(rt: &impl Abort, alloc: Global, schedule: &str, status: Status, line: &[u8]) {
    for call in 1..=line.len() {
        let answer = Err(Fault::Device);
        assert_front_of_line(rt, alloc, schedule, call, answer, &line[..call - 1]);
    }
    let behind = line.len().wrapping_add(1);
    assert_front_of_line(rt, alloc, schedule, behind, Ok(status), line);
}

#[test]
fn tells_each_failure_of_the_sink(rt: HostRuntime) {
    assert_fronts(&rt, rt.alloc(), SCHEDULE, Status::Yes, b"LEGAL\n");
    let line = b"ILLEGAL 4 WrongRead at 1\n";
    assert_fronts(&rt, rt.alloc(), "Q.1\n", Status::No, line);
}

/// The line of a fault.
const REFUSAL: &[u8] = b"refused: device\n";

/// Asserts that the sink has this prefix of the line of a fault where it fails at this call.
fn assert_front_of_refusal(rt: &impl Abort, alloc: Global, call: usize, front: &[u8]) {
    let mut error = ShortSink::new(alloc, 1).failing_at(call as u64);
    let told = write_fault(&Fault::Device, &mut error);
    expect(rt, told.is_ok() == (call > REFUSAL.len()), call);
    expect(rt, error.as_slice() == front, call);
}

#[test]
fn writes_a_front_of_the_line_of_a_fault(rt: HostRuntime) {
    for call in 1..=REFUSAL.len() + 1 {
        assert_front_of_refusal(&rt, rt.alloc(), call, &REFUSAL[..call - 1]);
    }
}
