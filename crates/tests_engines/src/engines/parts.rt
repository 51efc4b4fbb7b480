//! Parts of traces, over sources and a sink that move a byte a call and fail at one of their calls.

use crate::engines::text_runs::{
    RunText, TextEngine, TextRun, assert_needs, assert_prefixes, assert_sizes,
};
use crate::traces::{HAND_OFF, WRITTEN_OTHERWISE};
use trace_part::part_fault::PartCause;
use verdict_report::{Fault, Status};

/// Parts by hand, and names that make up none.
static RUNS: [TextRun; 5] = [
    TextRun {
        engine: TextEngine::Part(false),
        trace: WRITTEN_OTHERWISE,
        cert: "",
        names: "Q.2\nP.1\n",
        answer: Ok(Status::Yes),
        written: b"vsc 1\nproc P\nW x 1\nproc Q\nR x 2\n",
    },
    TextRun {
        engine: TextEngine::Part(false),
        trace: WRITTEN_OTHERWISE,
        cert: "",
        names: "Q.1\n",
        answer: Ok(Status::Yes),
        written: b"vsc 1\nproc P\nproc Q\n",
    },
    TextRun {
        engine: TextEngine::Part(true),
        trace: WRITTEN_OTHERWISE,
        cert: "",
        names: "P.2\n",
        answer: Ok(Status::Yes),
        written: b"vsc 1\nproc P\n# P.2\nW y 1\nproc Q\n",
    },
    TextRun {
        engine: TextEngine::Part(false),
        trace: HAND_OFF,
        cert: "",
        names: "P.1\n\nP.2\n",
        answer: Err(Fault::Part(PartCause::UnknownOp, 3)),
        written: b"",
    },
    TextRun {
        engine: TextEngine::Part(true),
        trace: HAND_OFF,
        cert: "",
        names: "P.1\nP.1\n",
        answer: Err(Fault::Part(PartCause::RepeatedOp, 2)),
        written: b"",
    },
];

#[test]
fn makes_of_single_bytes_what_it_makes_of_whole_texts(rt: HostRuntime) {
    assert_sizes(rt.alloc(), &rt, &RUNS);
}

#[test]
fn makes_no_part_if_a_source_fails(rt: HostRuntime) {
    assert_needs(rt.alloc(), &rt, &RUNS, RunText::Trace);
    assert_needs(rt.alloc(), &rt, &RUNS, RunText::Names);
}

#[test]
fn writes_a_prefix_of_the_part_if_the_sink_fails(rt: HostRuntime) {
    assert_prefixes(rt.alloc(), &rt, &RUNS);
}
