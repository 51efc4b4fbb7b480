//! Verdicts of traces, over a source and a sink that move a byte a call and fail at one of their calls.

use crate::engines::wanted_runs::{WantedRun, assert_run, cut_off};
use crate::expectations::ample;
use crate::short_devices::{SIZES, failing_at, sink_failing_at};
use crate::traces::{HAND_OFF, STORE_BUFFERING, UNWRITTEN};
use cube_jobs::{OpenGate, Options};
use dimacs::ShortSink;
use std::alloc::Global;
use std::process::Abort;
use std::sync::Wait;
use std::thread::Threads;
use verdict_report::{Fault, ShortSource, Status, run_verify};

/// A trace, the numbers of a search by one worker, and the verdict.
pub struct DecidedTrace {
    pub trace: &'static str,
    pub split: u32,
    pub budget: u64,
    pub rounds: u32,
    pub status: Status,
    pub report: &'static [u8],
}

/// A trace for each kind of verdict. Store buffering splits on variable 3 first.
pub static DECIDED_TRACES: [DecidedTrace; 4] = [
    DecidedTrace {
        trace: STORE_BUFFERING,
        split: 1,
        budget: 100,
        rounds: 1,
        status: Status::No,
        report: b"INCONSISTENT cubes=2\n",
    },
    DecidedTrace {
        trace: UNWRITTEN,
        split: 0,
        budget: 100,
        rounds: 1,
        status: Status::No,
        report: b"INCONSISTENT cubes=1\n",
    },
    DecidedTrace {
        trace: HAND_OFF,
        split: 1,
        budget: 100,
        rounds: 1,
        status: Status::Yes,
        report: b"CONSISTENT\nP.1\nQ.1\n",
    },
    DecidedTrace {
        trace: STORE_BUFFERING,
        split: 0,
        budget: 0,
        rounds: 2,
        status: Status::Unknown,
        report: b"UNKNOWN open=2\nopen 3 0\nopen -3 0\n",
    },
];

/// The numbers of the search for the verdict.
pub fn options_of(rt: &impl Abort, verdict: &DecidedTrace) -> Options {
    let options = Options::new(1, verdict.split, verdict.budget, verdict.rounds);
    ample(rt, options)
}

/// The devices of a run.
#[derive(Drop)]
struct Devices {
    trace: ShortSource<'static>,
    out: ShortSink,
}

/// Returns devices for the trace that move at most this number of bytes a call, and do not fail.
fn devices_of(alloc: Global, verdict: &DecidedTrace, size: usize) -> Devices {
    Devices {
        trace: ShortSource::new(verdict.trace.as_bytes(), size),
        out: ShortSink::new(alloc, size),
    }
}

/// Asserts what the engine that verifies answers over these devices, and what the sink takes.
fn assert_verifies<R: Threads + Wait + Abort + Sync>(
    alloc: Global,
    rt: &R,
    verdict: &DecidedTrace,
    devices: Devices,
    wanted: WantedRun<'_>,
    number: usize,
) {
    let options = options_of(rt, verdict);
    let Devices { mut trace, mut out } = devices;
    let outcome = run_verify(alloc, rt, &mut trace, &options, &OpenGate, &mut out);
    assert_run(rt, outcome, out.as_slice(), wanted, number);
}

/// Asserts that the sink takes this prefix of the report if it fails at the call after it.
fn assert_prefix<R: Threads + Wait + Abort + Sync>(
    alloc: Global,
    rt: &R,
    verdict: &DecidedTrace,
    prefix: &[u8],
) {
    let call = prefix.len().wrapping_add(1);
    let answer = if prefix == verdict.report {
        Ok(verdict.status)
    } else {
        Err(Fault::Device)
    };
    let mut devices = devices_of(alloc, verdict, 1);
    devices.out = sink_failing_at(alloc, call);
    let wanted = WantedRun {
        answer,
        taken: prefix,
    };
    assert_verifies(alloc, rt, verdict, devices, wanted, call);
}

#[test]
fn reports_of_single_bytes_what_it_reports_of_whole_texts(rt: HostRuntime) {
    for verdict in &DECIDED_TRACES {
        let wanted = WantedRun {
            answer: Ok(verdict.status),
            taken: verdict.report,
        };
        for size in SIZES {
            let devices = devices_of(rt.alloc(), verdict, size);
            assert_verifies(rt.alloc(), &rt, verdict, devices, wanted, size);
        }
    }
}

#[test]
fn reports_nothing_if_the_source_fails(rt: HostRuntime) {
    for verdict in &DECIDED_TRACES {
        for call in 1..=verdict.trace.len() + 1 {
            let mut devices = devices_of(rt.alloc(), verdict, 1);
            devices.trace = failing_at(verdict.trace, call);
            assert_verifies(rt.alloc(), &rt, verdict, devices, cut_off(b""), call);
        }
    }
}

#[test]
fn reports_a_prefix_if_the_sink_fails(rt: HostRuntime) {
    for verdict in &DECIDED_TRACES {
        for count in 0..=verdict.report.len() {
            assert_prefix(rt.alloc(), &rt, verdict, &verdict.report[..count]);
        }
    }
}
