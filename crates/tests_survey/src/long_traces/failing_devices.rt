//! Surveys over a source that hands out a byte a call and sinks that take a byte a call, of which one fails at one of its calls.

use crate::expectations::expect;
use crate::long_traces::answers::{
    SURVEY, Sinks, SurveyDevices, answer_over, texts_of, written_to,
};
use crate::long_traces::traces::{STORE_BUFFERING, no_hint};
use dimacs::ShortSink;
use std::alloc::Global;
use std::process::Abort;
use std::sync::Wait;
use std::thread::Threads;
use verdict_report::{Fault, ShortSource, Status};

/// What is reported of store buffering: its core is all of it.
const REPORT: &[u8] = b"INCONSISTENT operations=4 cubes=1\nP.1\nP.2\nQ.1\nQ.2\n";

/// The names of that core.
const NAMES: &[u8] = b"P.1\nP.2\nQ.1\nQ.2\n";

/// Its part.
const PART: &[u8] =
    b"vsc 1\ninit x 0\ninit y 0\nproc P\n# P.1\nW x 1\n# P.2\nR y 0\nproc Q\n# Q.1\nW y 1\n# Q.2\nR x 0\n";

/// A source of store buffering that does not fail.
fn store_buffering() -> ShortSource<'static> {
    ShortSource::new(STORE_BUFFERING.as_bytes(), 1)
}

/// A source of store buffering that fails at this call. The call after the last byte reports the end.
fn failing_at(call: usize) -> ShortSource<'static> {
    store_buffering().failing_at(call as u64)
}

/// A sink that does not fail.
fn sink(alloc: Global) -> ShortSink {
    ShortSink::new(alloc, 1)
}

/// A sink that fails at the call after a number of calls.
fn sink_failing_after(alloc: Global, count: usize) -> ShortSink {
    sink(alloc).failing_at(count.wrapping_add(1) as u64)
}

/// Returns whether the first bytes of the text were taken, this many of them.
fn is_front(taken: &[u8], text: &[u8], length: usize) -> bool {
    taken.len() == length && text.starts_with(taken)
}

/// Devices for store buffering without a hint that do not fail.
fn sound_devices(alloc: Global) -> SurveyDevices<'static, 'static> {
    SurveyDevices {
        trace: store_buffering(),
        hint: no_hint(),
        report: sink(alloc),
    }
}

/// Asserts that a survey over these devices ends as one of them fails, and how many bytes of the report its sink takes.
fn assert_cut_off<R: Threads + Wait + Abort + Sync>(
    alloc: Global,
    rt: &R,
    devices: SurveyDevices<'_, '_>,
    taken: usize,
    number: usize,
) {
    let found = answer_over(alloc, rt, devices, &SURVEY, 10_000);
    expect(rt, found.outcome == Err(Fault::Device), number);
    expect(rt, is_front(found.report.as_slice(), REPORT, taken), number);
}

/// The number of bytes that each sink of a survey that certifies takes, if this is the whole certificate.
#[derive(Clone, Copy)]
struct TakenBytes<'a> {
    whole: &'a [u8],
    certificate: usize,
    names: usize,
    part: usize,
    report: usize,
}

/// No sink takes a byte.
const NOTHING: TakenBytes<'static> = TakenBytes {
    whole: b"",
    certificate: 0,
    names: 0,
    part: 0,
    report: 0,
};

/// Asserts that a survey that certifies ends as one of these devices fails, and how many bytes of the certificate, the names, the part and
/// the report its sinks take.
fn assert_certified_cut_off<R: Threads + Wait + Abort + Sync>(
    alloc: Global,
    rt: &R,
    trace: ShortSource<'_>,
    sinks: Sinks,
    taken: TakenBytes<'_>,
    number: usize,
) {
    let found = written_to(alloc, rt, trace, sinks, &SURVEY);
    expect(rt, found.outcome == Err(Fault::Device), number);
    let certificate = found.certificate.as_slice();
    let is_right = is_front(certificate, taken.whole, taken.certificate);
    expect(rt, is_right, number);
    let is_right = is_front(found.names.as_slice(), NAMES, taken.names);
    expect(rt, is_right, number);
    let is_right = is_front(found.part.as_slice(), PART, taken.part);
    expect(rt, is_right, number);
    let is_right = is_front(found.report.as_slice(), REPORT, taken.report);
    expect(rt, is_right, number);
}

/// The certificate that is written where nothing fails. `certified_surveys` has it checked.
fn whole_certificate<R: Threads + Wait + Abort + Sync>(alloc: Global, rt: &R) -> ShortSink {
    let found = texts_of(alloc, rt, STORE_BUFFERING, &SURVEY);
    expect(rt, found.outcome == Ok(Status::No), 0);
    expect(rt, found.names.as_slice() == NAMES, 0);
    expect(rt, found.part.as_slice() == PART, 0);
    expect(rt, found.report.as_slice() == REPORT, 0);
    found.certificate
}

/// The places of the sinks, in the order in which they take their texts.
const CERTIFICATE_SINK: usize = 0;

const NAMES_SINK: usize = 1;

const PART_SINK: usize = 2;

const REPORT_SINK: usize = 3;

/// The number of bytes that the sink of this place takes of a text of this length, if the one of the place `failing` fails after `count`
/// bytes: all before that one, and nothing behind it.
fn taken_at(place: usize, length: usize, failing: usize, count: usize) -> usize {
    if place < failing {
        length
    } else if place == failing {
        count
    } else {
        0
    }
}

/// The sink of this place, which fails after `count` bytes if it is the one that fails.
fn sink_at(alloc: Global, place: usize, failing: usize, count: usize) -> ShortSink {
    if place == failing {
        sink_failing_after(alloc, count)
    } else {
        sink(alloc)
    }
}

/// Asserts how many bytes the sinks take where the one of this place fails after `count` bytes, and this is the whole certificate.
fn assert_front<R: Threads + Wait + Abort + Sync>(
    alloc: Global,
    rt: &R,
    whole: &[u8],
    failing: usize,
    count: usize,
) {
    let sinks = Sinks {
        certificate: sink_at(alloc, CERTIFICATE_SINK, failing, count),
        names: sink_at(alloc, NAMES_SINK, failing, count),
        part: sink_at(alloc, PART_SINK, failing, count),
        report: sink_at(alloc, REPORT_SINK, failing, count),
    };
    let taken = TakenBytes {
        whole,
        certificate: taken_at(CERTIFICATE_SINK, whole.len(), failing, count),
        names: taken_at(NAMES_SINK, NAMES.len(), failing, count),
        part: taken_at(PART_SINK, PART.len(), failing, count),
        report: taken_at(REPORT_SINK, REPORT.len(), failing, count),
    };
    assert_certified_cut_off(alloc, rt, store_buffering(), sinks, taken, count);
}

/// Asserts so of each count below the length of the text of the sink of this place.
fn assert_fronts<R: Threads + Wait + Abort + Sync>(
    alloc: Global,
    rt: &R,
    failing: usize,
    length: usize,
) {
    let certificate = whole_certificate(alloc, rt);
    for count in 0..length {
        assert_front(alloc, rt, certificate.as_slice(), failing, count);
    }
}

#[test]
fn writes_nothing_if_the_source_fails(rt: HostRuntime) {
    for call in 1..=STORE_BUFFERING.len() + 1 {
        let alloc = rt.alloc();
        let mut devices = sound_devices(alloc);
        devices.trace = failing_at(call);
        assert_cut_off(alloc, &rt, devices, 0, call);
        let sinks = Sinks {
            certificate: sink(alloc),
            names: sink(alloc),
            part: sink(alloc),
            report: sink(alloc),
        };
        assert_certified_cut_off(alloc, &rt, failing_at(call), sinks, NOTHING, call);
    }
}

#[test]
fn writes_a_prefix_of_the_report_if_its_sink_fails(rt: HostRuntime) {
    for count in 0..REPORT.len() {
        let alloc = rt.alloc();
        let mut devices = sound_devices(alloc);
        devices.report = sink_failing_after(alloc, count);
        assert_cut_off(alloc, &rt, devices, count, count);
    }
}

#[test]
fn writes_nothing_if_the_hint_fails(rt: HostRuntime) {
    for call in 1..=NAMES.len() + 1 {
        let alloc = rt.alloc();
        let mut devices = sound_devices(alloc);
        devices.hint = ShortSource::new(NAMES, 1).failing_at(call as u64);
        assert_cut_off(alloc, &rt, devices, 0, call);
    }
}

#[test]
fn writes_a_prefix_of_the_certificate_alone_if_its_sink_fails(rt: HostRuntime) {
    let length = whole_certificate(rt.alloc(), &rt).as_slice().len();
    assert_fronts(rt.alloc(), &rt, CERTIFICATE_SINK, length);
}

#[test]
fn writes_a_prefix_of_the_names_after_the_certificate(rt: HostRuntime) {
    assert_fronts(rt.alloc(), &rt, NAMES_SINK, NAMES.len());
}

#[test]
fn writes_a_prefix_of_the_part_after_the_names(rt: HostRuntime) {
    assert_fronts(rt.alloc(), &rt, PART_SINK, PART.len());
}

#[test]
fn writes_a_prefix_of_the_report_after_the_part(rt: HostRuntime) {
    assert_fronts(rt.alloc(), &rt, REPORT_SINK, REPORT.len());
}
