//! Verdicts with certificates, over a source and two sinks that move a byte a call and fail at one of their calls.

use crate::engines::rechecks::assert_accepted;
use crate::engines::verdicts::{DECIDED_TRACES, DecidedTrace, options_of};
use crate::expectations::expect;
use crate::short_devices::{failing_at, sink_failing_at, source_of};
use cube_jobs::{OpenGate, SearchRun};
use dimacs::ShortSink;
use std::alloc::Global;
use std::process::Abort;
use std::sync::Wait;
use std::thread::Threads;
use verdict_report::{Fault, ShortSource, Status, run_certified_verify};

/// How many verdicts have a certificate: they are the first ones.
const CERTIFIED: usize = 2;

/// What the certificates begin with.
const HEADS: [&[u8]; CERTIFIED] = [
    b"vsc-cert 1\nsplit 3\nleaf\nleaf\nproof 0\n",
    b"vsc-cert 1\nleaf\nproof 0\n",
];

/// What is written of the certificates that are accepted.
const LINES: [&[u8]; CERTIFIED] = [b"ACCEPTED cubes=2\n", b"ACCEPTED cubes=1\n"];

/// The devices of a run.
#[derive(Drop)]
struct Devices {
    trace: ShortSource<'static>,
    cert: ShortSink,
    out: ShortSink,
}

/// Returns devices for the trace that move a byte a call, and do not fail.
fn devices_of(alloc: Global, verdict: &DecidedTrace) -> Devices {
    Devices {
        trace: source_of(verdict.trace),
        cert: ShortSink::new(alloc, 1),
        out: ShortSink::new(alloc, 1),
    }
}

/// What came of a run: its answer, and the sinks of the certificate and of the report.
#[derive(Drop)]
struct CertifiedRun {
    answer: Result<Status, Fault>,
    cert: ShortSink,
    out: ShortSink,
}

/// Runs the engine that certifies over these devices.
fn run_over<R: Threads + Wait + Abort + Sync>(
    alloc: Global,
    rt: &R,
    verdict: &DecidedTrace,
    devices: Devices,
) -> CertifiedRun {
    let options = options_of(rt, verdict);
    let Devices {
        mut trace,
        mut cert,
        mut out,
    } = devices;
    let run = SearchRun {
        alloc,
        rt,
        options: &options,
        gate: &OpenGate,
    };
    let answer = run_certified_verify(&run, &mut trace, &mut cert, &mut out);
    CertifiedRun { answer, cert, out }
}

/// Returns what the sink takes of the certificate if no device fails. Which derivations it has is not fixed.
fn whole_certificate<R: Threads + Wait + Abort + Sync>(
    alloc: Global,
    rt: &R,
    verdict: &DecidedTrace,
) -> ShortSink {
    let CertifiedRun { answer, cert, out } = run_over(
        alloc,
        rt,
        verdict,
        devices_of(alloc, verdict),
    );
    expect(rt, answer == Ok(Status::No), 0);
    expect(rt, out.as_slice() == verdict.report, 0);
    cert
}

/// The answer that is wanted of a run that certifies, and what the sinks of the certificate and of the report have to take.
#[derive(Clone, Copy)]
struct WantedCertifiedRun<'a> {
    answer: Result<Status, Fault>,
    certificate: &'a [u8],
    report: &'a [u8],
}

/// A run that ends as a device fails, after its sinks have taken these bytes.
fn cut_off<'a>(certificate: &'a [u8], report: &'a [u8]) -> WantedCertifiedRun<'a> {
    WantedCertifiedRun {
        answer: Err(Fault::Device),
        certificate,
        report,
    }
}

/// Asserts what the engine that certifies answers over these devices, and what each of the sinks takes.
fn assert_certifies<R: Threads + Wait + Abort + Sync>(
    alloc: Global,
    rt: &R,
    verdict: &DecidedTrace,
    devices: Devices,
    wanted: WantedCertifiedRun<'_>,
    number: usize,
) {
    let run = run_over(alloc, rt, verdict, devices);
    expect(rt, run.answer == wanted.answer, number);
    expect(rt, run.cert.as_slice() == wanted.certificate, number);
    expect(rt, run.out.as_slice() == wanted.report, number);
}

#[test]
fn writes_certificates_that_are_accepted(rt: HostRuntime) {
    for number in 0..CERTIFIED {
        let verdict = &DECIDED_TRACES[number];
        let whole = whole_certificate(rt.alloc(), &rt, verdict);
        expect(&rt, whole.as_slice().starts_with(HEADS[number]), number);
        assert_accepted(
            rt.alloc(),
            &rt,
            verdict.trace,
            whole.as_slice(),
            LINES[number],
        );
    }
}

/// Asserts that nothing is taken if the source fails at this call.
fn assert_certifies_none<R: Threads + Wait + Abort + Sync>(
    alloc: Global,
    rt: &R,
    verdict: &DecidedTrace,
    call: usize,
) {
    let mut devices = devices_of(alloc, verdict);
    devices.trace = failing_at(verdict.trace, call);
    let wanted = cut_off(b"", b"");
    assert_certifies(alloc, rt, verdict, devices, wanted, call);
}

#[test]
fn writes_nothing_if_the_source_fails(rt: HostRuntime) {
    for verdict in &DECIDED_TRACES {
        for call in 1..=verdict.trace.len() + 1 {
            assert_certifies_none(rt.alloc(), &rt, verdict, call);
        }
    }
}

/// Returns devices of which the sink of the certificate fails at this call.
fn failing_certificate(alloc: Global, verdict: &DecidedTrace, call: usize) -> Devices {
    let mut devices = devices_of(alloc, verdict);
    devices.cert = sink_failing_at(alloc, call);
    devices
}

/// Returns devices of which the sink of the report fails at this call.
fn failing_report(alloc: Global, verdict: &DecidedTrace, call: usize) -> Devices {
    let mut devices = devices_of(alloc, verdict);
    devices.out = sink_failing_at(alloc, call);
    devices
}

#[test]
fn writes_no_report_if_the_sink_of_the_certificate_fails(rt: HostRuntime) {
    for verdict in &DECIDED_TRACES[..CERTIFIED] {
        let sink = whole_certificate(rt.alloc(), &rt, verdict);
        let whole = sink.as_slice();
        for count in 0..whole.len() {
            let devices = failing_certificate(rt.alloc(), verdict, count + 1);
            let wanted = cut_off(&whole[..count], b"");
            assert_certifies(rt.alloc(), &rt, verdict, devices, wanted, count);
        }
    }
}

#[test]
fn asks_nothing_of_the_sink_of_the_certificate_for_another_report(rt: HostRuntime) {
    for verdict in &DECIDED_TRACES[CERTIFIED..] {
        let wanted = WantedCertifiedRun {
            answer: Ok(verdict.status),
            certificate: b"",
            report: verdict.report,
        };
        let devices = failing_certificate(rt.alloc(), verdict, 1);
        assert_certifies(rt.alloc(), &rt, verdict, devices, wanted, 1);
    }
}

#[test]
fn writes_the_whole_certificate_before_the_report(rt: HostRuntime) {
    for verdict in &DECIDED_TRACES[..CERTIFIED] {
        let sink = whole_certificate(rt.alloc(), &rt, verdict);
        let whole = sink.as_slice();
        let report = verdict.report;
        for count in 0..report.len() {
            let devices = failing_report(rt.alloc(), verdict, count + 1);
            let wanted = cut_off(whole, &report[..count]);
            assert_certifies(rt.alloc(), &rt, verdict, devices, wanted, count);
        }
        let wanted = WantedCertifiedRun {
            answer: Ok(verdict.status),
            certificate: whole,
            report,
        };
        let devices = failing_report(rt.alloc(), verdict, report.len() + 1);
        assert_certifies(rt.alloc(), &rt, verdict, devices, wanted, report.len());
    }
}
