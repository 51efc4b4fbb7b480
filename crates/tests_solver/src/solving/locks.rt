//! Locks whose releases are missing: the traces for which the solver searches along a schedule.

use crate::expectations::{ample, expect};
use crate::solving::answers::{Shown, solved};
use crate::solving::traced::{Access, Traced, TracedMistake, formula_of_trace};
use crate::solving::whole_formulas::{are_one, refuted};
use solver::PreparedFormula;
use std::alloc::{AllocError, Global};
use std::process::Abort;

/// Conflicts that are too few, although more than half of the operations are updates, and the search along a schedule begins.
const TOO_FEW: u64 = 300;

/// The search is enough for a model, also where it comes second. A derivation by counting takes more steps.
const BUDGET: u64 = 3000;

/// Steps enough for a derivation by counting.
const ENOUGH: u64 = 100_000;

/// Each of three processes takes a lock and gives it back four times, but this number of them do not give it back at the end.
fn lock(alloc: Global, broken: u32) -> Result<Traced, AllocError> {
    let mut accesses = Vec::new(alloc);
    for process in 0..3u32 {
        for round in 0..4u32 {
            accesses.push(Access {
                reads: Some(0),
                writes: Some(1),
                is_first: round == 0,
            })?;
            if round < 3 || process >= broken {
                accesses.push(Access {
                    reads: None,
                    writes: Some(0),
                    is_first: false,
                })?;
            }
        }
    }
    formula_of_trace(alloc, accesses.as_slice(), None, TracedMistake::NONE)
}

/// Gives what this number of conflicts shows of the lock that this number of processes does not give back.
fn locked(rt: &impl Abort, alloc: Global, broken: u32, budget: u64) -> Shown {
    let trace = ample(rt, lock(alloc, broken));
    solved(rt, alloc, &trace.formula, &[], trace.encoding(), budget)
}

#[test]
fn locks_are_searched_along_a_schedule_or_counted(rt: HostRuntime) {
    let none = locked(&rt, rt.alloc(), 0, BUDGET);
    expect(&rt, none == Shown::Model, 0);
    let one = locked(&rt, rt.alloc(), 1, BUDGET);
    expect(&rt, one == Shown::Model, 1);
    let two = locked(&rt, rt.alloc(), 2, TOO_FEW);
    expect(&rt, two == Shown::Nothing, 2);
    let two = locked(&rt, rt.alloc(), 2, BUDGET);
    expect(&rt, two == Shown::Nothing, 3);
    let two = locked(&rt, rt.alloc(), 2, ENOUGH);
    expect(&rt, matches!(two, Shown::NoModel(_)), 4);
}

#[test]
fn one_count_refutes_all_cubes(rt: HostRuntime) {
    let alloc = rt.alloc();
    let trace = ample(&rt, lock(alloc, 2));
    let prepared = PreparedFormula::of(alloc, &trace.formula, trace.encoding());
    let mut prepared = ample(&rt, prepared);
    ample(&rt, prepared.count_whole(alloc, 1, ENOUGH));
    let one = ample(&rt, refuted(alloc, &trace.formula, &prepared, 2));
    let other = ample(&rt, refuted(alloc, &trace.formula, &prepared, -2));
    expect(&rt, are_one(&one, &other), 0);
}
