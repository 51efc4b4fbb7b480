//! Searches that may be refused memory. With memory enough these tests show that they answer rightly; `tests/refused-memory` runs them
//! with each request for memory refused in turn: a search that was refused says so, and answers rightly where it is asked again.

use crate::solving::traced::{Access, Traced, TracedMistake, formula_of_trace};
use lrat_check::checker::check;
use solver::{Answer, solve};
use std::alloc::{AllocError, Global};
use std::process::Abort;
use std::test::Fail;
use text_lines::fault::PlacedFault;

/// The answer of a solver that is asked again where it was refused memory.
fn answer_of(alloc: Global, trace: &Traced, budget: u64) -> Result<Answer, AllocError> {
    match solve(alloc, &trace.formula, &[], trace.encoding(), budget) {
        Ok(answer) => Ok(answer),
        Err(_) => solve(alloc, &trace.formula, &[], trace.encoding(), budget),
    }
}

/// Returns whether the answer is a derivation that the checker accepts, or cannot check since memory ran out.
fn is_refuted(alloc: Global, trace: &Traced, answer: &Answer) -> bool {
    let Answer::Refuted(derivation) = answer else {
        return false;
    };
    match check(alloc, &trace.formula, &[], derivation) {
        Ok(_) => true,
        Err(fault) => fault == PlacedFault::OutOfMemory,
    }
}

/// What an operation reads and what it writes.
type ReadAndWrite = (Option<u16>, Option<u16>);

/// The trace of these processes of four operations each.
fn trace_of(alloc: Global, processes: &[[ReadAndWrite; 4]]) -> Result<Traced, AllocError> {
    let mut accesses = Vec::new(alloc);
    for process in processes {
        let mut is_first = true;
        for (reads, writes) in process {
            accesses.push(Access {
                reads: *reads,
                writes: *writes,
                is_first,
            })?;
            is_first = false;
        }
    }
    formula_of_trace(alloc, accesses.as_slice(), None, TracedMistake::NONE)
}

/// Asserts that the solver finds that the trace has no legal schedule.
fn assert_refuted(
    rt: &impl Abort,
    alloc: Global,
    processes: &[[ReadAndWrite; 4]],
) -> Result<(), AllocError> {
    let trace = trace_of(alloc, processes)?;
    let answer = answer_of(alloc, &trace, 1000)?;
    assert!(rt; is_refuted(alloc, &trace, &answer));
    Ok(())
}

#[test]
fn a_search_ends_with_a_right_answer_or_none(rt: HostRuntime) -> Result<(), Fail> {
    let alloc = rt.alloc();
    let processes = [
        [
            (None, Some(1)),
            (None, Some(0)),
            (None, Some(1)),
            (Some(2), None),
        ],
        [
            (None, Some(2)),
            (Some(0), Some(2)),
            (Some(2), None),
            (Some(0), Some(2)),
        ],
        [
            (Some(2), None),
            (Some(1), None),
            (Some(2), Some(0)),
            (Some(2), Some(2)),
        ],
    ];
    assert_refuted(&rt, alloc, &processes)?;
    Ok(())
}

#[test]
fn so_does_one_along_a_schedule(rt: HostRuntime) -> Result<(), Fail> {
    let alloc = rt.alloc();
    let processes = [
        [
            (Some(1), None),
            (Some(2), Some(1)),
            (None, Some(1)),
            (Some(2), Some(2)),
        ],
        [
            (Some(2), Some(0)),
            (Some(2), Some(1)),
            (Some(2), Some(1)),
            (Some(1), Some(2)),
        ],
        [
            (None, Some(2)),
            (None, Some(0)),
            (Some(0), Some(2)),
            (None, Some(2)),
        ],
    ];
    assert_refuted(&rt, alloc, &processes)?;
    Ok(())
}

#[test]
fn so_does_a_count_of_sources(rt: HostRuntime) -> Result<(), Fail> {
    let alloc = rt.alloc();
    let up = [(Some(0), Some(1)); 4];
    let down = [
        (Some(1), Some(0)),
        (Some(1), Some(0)),
        (Some(0), Some(1)),
        (Some(0), Some(1)),
    ];
    assert_refuted(&rt, alloc, &[up, down])?;
    Ok(())
}
