//! Verdicts of several workers, one of which is held at its gate until a cube of another one is settled.

use crate::expectations::{ample, expect};
use cube_jobs::{Gate, Options};
use dimacs::MemorySink;
use std::alloc::Global;
use std::process::Abort;
use std::sync::Wait;
use std::sync::atomic::{AtomicBool, Ordering};
use std::thread::{Threads, yield_now};
use verdict_report::{ShortSource, Status, run_verify};

/// Each of two processes writes, and does not see what the other one wrote. Its tree splits on two variables.
const STORE_BUFFERING: &str =
    "vsc 1\ninit x 0\ninit y 0\nproc P\nW x 1\nR y 0\nproc Q\nW y 1\nR x 0\n";

/// A process writes the initial value again, and another one reads it: both orders are legal, and each is in a cube of its own.
const WRITTEN_AGAIN: &str = "vsc 1\ninit x 0\nproc P\nW x 0\nproc Q\nR x 0\n";

/// The number of looks that a held worker takes before it gives up.
const MAX_LOOKS: u32 = 1_000_000;

/// A gate that holds the cube of one ticket before it is searched until that of another one is settled.
#[derive(Drop)]
struct VerdictGate {
    held: u32,
    awaited: u32,
    is_settled: AtomicBool,
    gave_up: AtomicBool,
}

impl VerdictGate {
    /// A gate that holds the cube of one ticket until that of the awaited one is settled.
    fn new(held: u32, awaited: u32) -> VerdictGate {
        VerdictGate {
            held,
            awaited,
            is_settled: AtomicBool::new(false),
            gave_up: AtomicBool::new(false),
        }
    }

    /// Waits until the awaited cube is settled, but not for ever.
    fn hold(&self) {
        for _look in 0..MAX_LOOKS {
            if self.is_settled.load(Ordering::SeqCst) {
                return;
            }
            yield_now();
        }
        self.gave_up.store(true, Ordering::SeqCst);
    }
}

impl Gate for VerdictGate {
    fn before(&self, _worker: u32, ticket: u32) {
        if ticket == self.held {
            self.hold();
        }
    }

    fn after(&self, _worker: u32, ticket: u32) {
        if ticket == self.awaited {
            self.is_settled.store(true, Ordering::SeqCst);
        }
    }
}

/// A search of a trace by this number of workers, over a tree of at most this depth, and what it reports.
#[derive(Clone, Copy)]
struct ReportedSearch {
    trace: &'static str,
    workers: u32,
    split: u32,
    status: Status,
    report: &'static [u8],
}

/// Asserts what the search reports if the cube of one ticket is held until that of another one is settled.
fn assert_reports<R: Threads + Wait + Abort + Sync>(
    alloc: Global,
    rt: &R,
    search: ReportedSearch,
    gate: &VerdictGate,
) {
    let number = search.workers as usize;
    let options = ample(rt, Options::new(search.workers, search.split, 100, 1));
    let mut source = ShortSource::new(search.trace.as_bytes(), 7);
    let mut output = MemorySink::new(alloc);
    let outcome = run_verify(alloc, rt, &mut source, &options, gate, &mut output);
    expect(rt, outcome == Ok(search.status), number);
    expect(rt, output.as_slice() == search.report, number);
    let gave_up = gate.gave_up.load(Ordering::SeqCst);
    expect(rt, !gave_up, number);
}

// Jobs are taken in the order of their tickets. With one thread alone, ticket 1 would never be settled while ticket 0 is held.
#[test]
fn reports_though_the_first_cube_waits_for_the_second(rt: HostRuntime) {
    for workers in [2, 8] {
        let gate = VerdictGate::new(0, 1);
        let search = ReportedSearch {
            trace: STORE_BUFFERING,
            workers,
            split: 3,
            status: Status::No,
            report: b"INCONSISTENT cubes=4\n",
        };
        assert_reports(rt.alloc(), &rt, search, &gate);
    }
}

// The first cube has P.1 before Q.1, and the second one the other order. The worker that is held at the second cube sees a mark below
// it, so it skips that cube; held at the first one, it searches it all the same, though there is a model in the second. The lowest
// cube with a model stands in either case.
#[test]
fn reports_the_schedule_of_the_lowest_cube(rt: HostRuntime) {
    for (held, awaited) in [(1, 0), (0, 1), (2, 2)] {
        let gate = VerdictGate::new(held, awaited);
        let search = ReportedSearch {
            trace: WRITTEN_AGAIN,
            workers: 2,
            split: 1,
            status: Status::Yes,
            report: b"CONSISTENT\nP.1\nQ.1\n",
        };
        assert_reports(rt.alloc(), &rt, search, &gate);
    }
}
