//! What is written for each piece, and what is answered.

use crate::expectations::{ample, expect};
use batch_report::{BatchRun, BatchSearch, PlainForm, VerdictTally, run_batch};
use cube_jobs::Options;
use dimacs::{MemorySink, ShortSink, Sink, SinkFault};
use std::alloc::Global;
use std::process::Abort;
use std::sync::Wait;
use std::thread::Threads;
use survey::BySaturation;
use trace_text::trace_fault::TraceCause;
use verdict_report::{Fault, ShortSource, Status};

/// A search of a batch by this number of workers.
pub fn search_by(rt: &impl Abort, workers: u32) -> BatchSearch {
    let options = ample(rt, Options::new(1, 3, 100_000, 1));
    BatchSearch {
        workers,
        short: options,
        long: options,
    }
}

/// What was counted in a batch of what the source hands out.
fn batch_of<R: Threads + Wait + Abort + Sync, W: Sink>(
    alloc: Global,
    rt: &R,
    source: &mut ShortSource<'_>,
    tally: VerdictTally,
    workers: u32,
    out: &mut W,
) -> Result<VerdictTally, SinkFault> {
    let search = search_by(rt, workers);
    let surveyor = BySaturation { budget: 1_000_000 };
    let run = BatchRun {
        alloc,
        rt,
        file: "t",
        form: &PlainForm,
        search: &search,
        surveyor: &surveyor,
    };
    run_batch(&run, source, tally, out)
}

/// The outcome of a batch that wrote all its lines.
fn outcome_of(counted: Result<VerdictTally, SinkFault>) -> Option<Result<Status, Fault>> {
    match counted {
        Ok(tally) => Some(tally.outcome()),
        Err(_) => None,
    }
}

/// A consistent trace after a comment, an inconsistent one, and one with a fault in line 15.
pub const THREE: &[u8] =
    b"# one\n\nvsc 1\nproc P\nW x 1\nvsc 1\ninit x 0\ninit y 0\nproc P\nW x 1\nR y 0\nproc Q\nW y 1\nR x 0\nvsc x\n";

/// What is written of them.
const LINES: &[u8] =
    b"t:1 CONSISTENT\nt:2 INCONSISTENT cubes=4\nt:3 refused: trace 3 Header at 15\n";

/// How a batch has to end, and the lines that it has to write.
#[derive(Clone, Copy)]
struct WantedBatch {
    outcome: Result<Status, Fault>,
    lines: &'static [u8],
}

/// A batch with a text that is refused for this fault, and these lines.
fn refused(fault: Fault, lines: &'static [u8]) -> WantedBatch {
    WantedBatch {
        outcome: Err(fault),
        lines,
    }
}

/// Asserts how a batch of one text ends, and what it writes of it, in the case of this number.
fn assert_writes<R: Threads + Wait + Abort + Sync>(
    rt: &R,
    alloc: Global,
    mut source: ShortSource<'_>,
    workers: u32,
    wanted: WantedBatch,
    number: usize,
) {
    let mut out = MemorySink::new(alloc);
    let counted = batch_of(
        alloc,
        rt,
        &mut source,
        VerdictTally::new(),
        workers,
        &mut out,
    );
    expect(rt, outcome_of(counted) == Some(wanted.outcome), number);
    expect(rt, out.as_slice() == wanted.lines, number);
}

#[test]
fn writes_a_line_for_each_piece(rt: HostRuntime) {
    let wanted = WantedBatch {
        outcome: Ok(Status::No),
        lines: LINES,
    };
    for workers in 1..3u32 {
        let source = ShortSource::new(THREE, 7);
        assert_writes(&rt, rt.alloc(), source, workers, wanted, 1);
    }
}

#[test]
fn refuses_with_the_first_refusal(rt: HostRuntime) {
    let source = ShortSource::new(b"vsc 1\nvsc 1\nproc\nvsc\n", 99);
    let lines =
        b"t:1 CONSISTENT\nt:2 refused: trace 4 UnknownLine at 3\nt:3 refused: trace 3 Header at 4\n";
    let wanted = refused(Fault::Trace(TraceCause::UnknownLine, 3), lines);
    assert_writes(&rt, rt.alloc(), source, 1, wanted, 2);
}

#[test]
fn writes_a_prefix_if_the_sink_fails(rt: HostRuntime) {
    let alloc = rt.alloc();
    for call in 1..8u64 {
        let mut source = ShortSource::new(THREE, 99);
        let mut out = ShortSink::new(alloc, 10).failing_at(call);
        let outcome = batch_of(alloc, &rt, &mut source, VerdictTally::new(), 1, &mut out);
        let is_failure = match outcome {
            Err(SinkFault::Device) => true,
            _ => false,
        };
        expect(&rt, is_failure, 1);
        expect(&rt, LINES.starts_with(out.as_slice()), 2);
    }
}

#[test]
fn refuses_what_cannot_be_read(rt: HostRuntime) {
    let source = ShortSource::new(THREE, 7).failing_at(3);
    let wanted = refused(Fault::Device, b"t:1 refused: device\n");
    assert_writes(&rt, rt.alloc(), source, 1, wanted, 3);
}

// Sixteen calls make a block, of 80 bytes, in which the first trace ends.
#[test]
fn writes_the_lines_of_earlier_blocks_if_the_source_fails(rt: HostRuntime) {
    let source = ShortSource::new(THREE, 5).failing_at(17);
    let wanted = refused(Fault::Device, b"t:1 CONSISTENT\nt:2 refused: device\n");
    assert_writes(&rt, rt.alloc(), source, 1, wanted, 4);
}

#[test]
fn counts_on_behind_another_text(rt: HostRuntime) {
    let alloc = rt.alloc();
    let mut first = ShortSource::new(THREE, 99);
    let mut out = MemorySink::new(alloc);
    let Ok(tally) = batch_of(alloc, &rt, &mut first, VerdictTally::new(), 1, &mut out) else {
        return expect(&rt, false, 1);
    };
    let mut second = ShortSource::new(b"vsc 1\n", 99);
    let outcome = batch_of(alloc, &rt, &mut second, tally, 1, &mut out);
    // The second text alone would be a yes, and it is numbered by itself.
    expect(&rt, outcome_of(outcome) == Some(Ok(Status::No)), 2);
    expect(&rt, out.as_slice().ends_with(b"at 15\nt:1 CONSISTENT\n"), 3);
}

// The first block ends within the second line `vsc 1`, or within a line `vscs` that begins no trace.
#[test]
fn cuts_no_piece_within_a_line(rt: HostRuntime) {
    let lines = b"t:1 CONSISTENT\nt:2 refused: trace 4 UnknownLine at 6\n";
    let wanted = refused(Fault::Trace(TraceCause::UnknownLine, 6), lines);
    for size in 1..9usize {
        let source = ShortSource::new(b"vsc 1\nproc P\nW x 1\nvsc 1\nproc P\nvscs 1\n", size);
        assert_writes(&rt, rt.alloc(), source, 1, wanted, size);
    }
}
