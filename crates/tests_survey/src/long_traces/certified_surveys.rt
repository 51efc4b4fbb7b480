//! What a survey writes beside its report: the certificate, the names of a core, and its part.

use crate::expectations::{ample, expect};
use crate::long_traces::answers::{SURVEY, Written, texts_of};
use crate::long_traces::lying_surveyors::{Liar, Lie};
use crate::long_traces::traces::{
    HAND_OFF, after_many_writes, counted_lock, ring, with_many_writes,
};
use dimacs::MemorySink;
use std::alloc::Global;
use std::process::Abort;
use std::sync::Wait;
use std::thread::Threads;
use survey::BySaturation;
use surveyor::Surveyor;
use verdict_report::{ShortSource, Status, run_recheck};

/// Gives what is written of the trace with the help of the surveyor, if it is decided with this status, in the case of this number.
fn written_of<R: Threads + Wait + Abort + Sync, S: Surveyor>(
    alloc: Global,
    rt: &R,
    trace: &str,
    surveyor: &S,
    status: Status,
    number: usize,
) -> Written {
    let found = texts_of(alloc, rt, trace, surveyor);
    expect(rt, found.outcome == Ok(status), number);
    found
}

/// Asserts that the certificate that was written is accepted for the trace, in the case of this number.
fn assert_accepts(alloc: Global, rt: &impl Abort, trace: &[u8], found: &Written, number: usize) {
    let mut trace = ShortSource::new(trace, 99);
    let mut text = ShortSource::new(found.certificate.as_slice(), 99);
    let mut answer = MemorySink::new(alloc);
    let outcome = run_recheck(alloc, &mut trace, &mut text, &mut answer);
    expect(rt, outcome == Ok(Status::Yes), number);
}

// The part has the names in the whole, and the certificate is one for it.
#[test]
fn certifies_the_part_of_a_core(rt: HostRuntime) {
    let long = ample(&rt, after_many_writes(rt.alloc()));
    let found = written_of(rt.alloc(), &rt, long.as_str(), &SURVEY, Status::No, 11);
    let names: &[u8] = b"P.201\nP.202\nQ.1\nQ.2\n";
    expect(&rt, found.names.as_slice() == names, 11);
    let part: &[u8] =
        b"vsc 1\ninit x 0\ninit y 0\nproc P\n# P.201\nW x 1\n# P.202\nR y 0\nproc Q\n# Q.1\nW y 1\n# Q.2\nR x 0\n";
    expect(&rt, found.part.as_slice() == part, 12);
    assert_accepts(rt.alloc(), &rt, found.part.as_slice(), &found, 13);
}

/// Asserts that no core was named, in the case of this number.
fn assert_without_core(rt: &impl Abort, found: &Written, number: usize) {
    expect(rt, found.names.as_slice().is_empty(), number);
    expect(rt, found.part.as_slice().is_empty(), number);
}

const BACK: &str = "vsc 2\nproc P\nW x 1\nW x 2\nbefore P 2 P 1\n";

// A pair that goes back in one process is in no part, so there is no core, and the certificate is one for the whole.
#[test]
fn certifies_the_whole_without_a_core(rt: HostRuntime) {
    let liar = Liar::of(Lie::Core(1, 2));
    let found = written_of(rt.alloc(), &rt, BACK, &liar, Status::No, 14);
    assert_without_core(&rt, &found, 14);
    assert_accepts(rt.alloc(), &rt, BACK.as_bytes(), &found, 15);
}

// A core of 180 operations has no part that a formula decides, so the certificate is one of reasons, and accepted for the whole.
#[test]
fn certifies_the_whole_by_reasons(rt: HostRuntime) {
    let survey = BySaturation { budget: 20_000_000 };
    let trace = ample(&rt, ring(rt.alloc()));
    let found = written_of(rt.alloc(), &rt, trace.as_str(), &survey, Status::No, 18);
    let header: &[u8] = b"vsc-reasons 1\n";
    expect(&rt, found.certificate.as_slice().starts_with(header), 18);
    assert_without_core(&rt, &found, 18);
    assert_accepts(rt.alloc(), &rt, trace.as_bytes(), &found, 19);
}

/// Asserts that nothing is written beside the report, in the case of this number.
fn assert_silent(rt: &impl Abort, found: &Written, number: usize) {
    expect(rt, found.certificate.as_slice().is_empty(), number);
    assert_without_core(rt, found, number);
}

// With another report than INCONSISTENT nothing is written beside it.
#[test]
fn writes_the_report_alone_with_another_answer(rt: HostRuntime) {
    let long = ample(&rt, with_many_writes(rt.alloc(), HAND_OFF));
    let found = written_of(rt.alloc(), &rt, long.as_str(), &SURVEY, Status::Yes, 16);
    assert_silent(&rt, &found, 16);
    let lock = ample(&rt, counted_lock(rt.alloc()));
    let none = BySaturation { budget: 0 };
    let found = written_of(rt.alloc(), &rt, lock.as_str(), &none, Status::Unknown, 17);
    assert_silent(&rt, &found, 17);
}
