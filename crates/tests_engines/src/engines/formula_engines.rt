//! The engines that translate, decode and check proofs, over devices that move few bytes a call or fail at one of their calls.

use crate::engines::text_runs::{
    RunText, TextEngine, TextRun, assert_asks_no_more, assert_needs, assert_prefixes,
};
use crate::expectations::expect;
use crate::short_devices::failing_at;
use crate::traces::HAND_OFF;
use dimacs::{MemorySink, ShortSink};
use std::alloc::Global;
use std::process::Abort;
use std::thread::Threads;
use verdict_report::{Fault, ShortSource, Status, run_cnf};

/// The text of the clause list of the hand-off.
const CNF: &[u8] = b"p cnf 2 2\n2 0\n-2 1 0\n";

/// A model that is decoded, and a proof that is checked. None of these engines reads names.
static RUNS: [TextRun; 2] = [
    TextRun {
        engine: TextEngine::Decode,
        trace: HAND_OFF,
        cert: "v 1 2 0\n",
        names: "",
        answer: Ok(Status::Yes),
        written: b"P.1\nQ.1\n",
    },
    TextRun {
        engine: TextEngine::Lrat,
        trace: "p cnf 1 2\n1 0\n-1 0\n",
        cert: "3 0 1 2 0\n",
        names: "",
        answer: Ok(Status::Yes),
        written: b"ACCEPTED\n",
    },
];

/// Asserts what becomes of the clause list of the hand-off where the sink fails at this call.
fn assert_writes<R: Threads + Sync + Abort>(rt: &R, alloc: Global, call: usize, front: &[u8]) {
    let mut source = ShortSource::new(HAND_OFF.as_bytes(), 1);
    let mut sink = ShortSink::new(alloc, 1).failing_at(call as u64);
    let outcome = run_cnf(alloc, rt, &mut source, 1, &mut sink);
    expect(rt, outcome.is_ok() == (call > CNF.len()), call);
    expect(
        rt,
        outcome == Ok(Status::Yes) || outcome == Err(Fault::Device),
        call,
    );
    expect(rt, sink.as_slice() == front, call);
}

/// Asserts that nothing is written of the hand-off where the source fails at this call.
fn assert_translates_nothing<R: Threads + Sync + Abort>(rt: &R, alloc: Global, call: usize) {
    let mut source = failing_at(HAND_OFF, call);
    let mut output = MemorySink::new(alloc);
    let outcome = run_cnf(alloc, rt, &mut source, 1, &mut output);
    expect(rt, outcome == Err(Fault::Device), call);
    expect(rt, output.as_slice().is_empty(), call);
}

#[test]
fn writes_a_front_of_a_formula_where_the_sink_fails(rt: HostRuntime) {
    for call in 1..=CNF.len() + 1 {
        assert_writes(&rt, rt.alloc(), call, &CNF[..call - 1]);
    }
}

#[test]
fn translates_nothing_where_the_source_fails(rt: HostRuntime) {
    for call in 1..=HAND_OFF.len() + 1 {
        assert_translates_nothing(&rt, rt.alloc(), call);
    }
}

#[test]
fn decodes_and_accepts_nothing_where_a_source_fails(rt: HostRuntime) {
    assert_needs(rt.alloc(), &rt, &RUNS, RunText::Trace);
    assert_needs(rt.alloc(), &rt, &RUNS, RunText::Cert);
    assert_asks_no_more(rt.alloc(), &rt, &RUNS, RunText::Cert);
}

#[test]
fn writes_fronts_of_answers_where_the_sink_fails(rt: HostRuntime) {
    assert_prefixes(rt.alloc(), &rt, &RUNS);
}
