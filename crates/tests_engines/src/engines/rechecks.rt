//! Certificates of traces and of parts that are checked, over sources and a sink that move a byte a call and fail at one of their calls.

use crate::engines::text_runs::{
    RunText, TextEngine, TextRun, assert_needs, assert_prefixes, assert_sizes,
};
use crate::engines::wanted_runs::{WantedRun, assert_run};
use crate::short_devices::source_of;
use crate::traces::{
    CERTIFICATE, HAND_OFF, ONE_LEAF, STORE_BUFFERING, STORE_BUFFERING_BESIDE, UNWRITTEN,
    WRITTEN_OTHERWISE,
};
use certificate::CertCause;
use dimacs::ShortSink;
use std::alloc::Global;
use std::process::Abort;
use trace_part::part_fault::PartCause;
use verdict_report::{Fault, ShortSource, Status, run_recheck};

/// How many of the runs check a certificate of a part: they are the first ones.
const OF_PARTS: usize = 4;

/// How many of the runs are made with devices that fail: those of parts, and the first one of a whole trace.
const CUT_OFF: usize = 5;

/// Certificates by hand, of parts and of whole traces, the first of these of store buffering, and texts that are refused.
static RUNS: [TextRun; 9] = [
    TextRun {
        engine: TextEngine::PartRecheck,
        trace: WRITTEN_OTHERWISE,
        cert: ONE_LEAF,
        names: "Q.2\nP.1\n",
        answer: Ok(Status::Yes),
        written: b"ACCEPTED cubes=1\n",
    },
    TextRun {
        engine: TextEngine::PartRecheck,
        trace: STORE_BUFFERING_BESIDE,
        cert: CERTIFICATE,
        names: "Q.1\nQ.2\nP.1\nP.2\n",
        answer: Ok(Status::Yes),
        written: b"ACCEPTED cubes=2\n",
    },
    TextRun {
        engine: TextEngine::PartRecheck,
        trace: WRITTEN_OTHERWISE,
        cert: ONE_LEAF,
        names: "Q.2\n\nP.3\n",
        answer: Err(Fault::Part(PartCause::UnknownOp, 3)),
        written: b"",
    },
    TextRun {
        engine: TextEngine::PartRecheck,
        trace: WRITTEN_OTHERWISE,
        cert: "vsc-cert 1\nleaf\n",
        names: "Q.2\n",
        answer: Err(Fault::Cert(CertCause::Missing, 0)),
        written: b"",
    },
    TextRun {
        engine: TextEngine::Recheck,
        trace: STORE_BUFFERING,
        cert: CERTIFICATE,
        names: "",
        answer: Ok(Status::Yes),
        written: b"ACCEPTED cubes=2\n",
    },
    TextRun {
        engine: TextEngine::Recheck,
        trace: UNWRITTEN,
        cert: ONE_LEAF,
        names: "",
        answer: Ok(Status::Yes),
        written: b"ACCEPTED cubes=1\n",
    },
    TextRun {
        engine: TextEngine::Recheck,
        trace: UNWRITTEN,
        cert: "vsc-cert 1\nleaf\n",
        names: "",
        answer: Err(Fault::Cert(CertCause::Missing, 0)),
        written: b"",
    },
    TextRun {
        engine: TextEngine::Recheck,
        trace: UNWRITTEN,
        cert: "vsc-cert 1\nleaf\nproof 0\n3 0 1 2\nend\n",
        names: "",
        answer: Err(Fault::Cert(CertCause::BadLrat, 4)),
        written: b"",
    },
    TextRun {
        engine: TextEngine::Recheck,
        trace: HAND_OFF,
        cert: ONE_LEAF,
        names: "",
        answer: Err(Fault::Cert(CertCause::Derivation, 0)),
        written: b"",
    },
];

/// Asserts that a certificate is accepted of the trace, and what is written of it.
pub fn assert_accepted(alloc: Global, rt: &impl Abort, trace: &str, cert: &[u8], line: &[u8]) {
    let mut trace = source_of(trace);
    let mut cert = ShortSource::new(cert, 1);
    let mut out = ShortSink::new(alloc, 1);
    let answer = run_recheck(alloc, &mut trace, &mut cert, &mut out);
    let wanted = WantedRun {
        answer: Ok(Status::Yes),
        taken: line,
    };
    assert_run(rt, answer, out.as_slice(), wanted, 0);
}

#[test]
fn answers_to_single_bytes_as_to_whole_texts(rt: HostRuntime) {
    assert_sizes(rt.alloc(), &rt, &RUNS);
}

#[test]
fn accepts_nothing_if_a_source_fails(rt: HostRuntime) {
    assert_needs(rt.alloc(), &rt, &RUNS[..CUT_OFF], RunText::Trace);
    assert_needs(rt.alloc(), &rt, &RUNS[..CUT_OFF], RunText::Cert);
    assert_needs(rt.alloc(), &rt, &RUNS[..OF_PARTS], RunText::Names);
}

#[test]
fn writes_a_prefix_of_the_line_if_the_sink_fails(rt: HostRuntime) {
    assert_prefixes(rt.alloc(), &rt, &RUNS[..CUT_OFF]);
}
