//! Updates that leave no source for the final value, which the solver finds by counting.

use crate::expectations::{ample, expect};
use crate::solving::answers::{Shown, solved};
use crate::solving::traced::{Access, Traced, TracedMistake, formula_of_trace};
use std::alloc::{AllocError, Global};
use std::process::Abort;

/// Updates that go from 0 to 1, and as many from 1 to 0.
const EACH: u32 = 7;

/// Steps that are enough to count, and conflicts that are too few.
const BUDGET: u64 = 1500;

/// As many updates up as down, each in a process of its own, with this final value and this mistake in what is known.
fn up_and_down(
    alloc: Global,
    final_value: Option<u16>,
    mistake: TracedMistake,
) -> Result<Traced, AllocError> {
    let mut accesses = Vec::new(alloc);
    for (from, to) in [(0, 1), (1, 0)] {
        for _ in 0..EACH {
            accesses.push(Access {
                reads: Some(from),
                writes: Some(to),
                is_first: true,
            })?;
        }
    }
    formula_of_trace(alloc, accesses.as_slice(), final_value, mistake)
}

/// Gives what is shown of it.
fn shown(
    rt: &impl Abort,
    alloc: Global,
    final_value: Option<u16>,
    mistake: TracedMistake,
) -> Shown {
    let trace = ample(rt, up_and_down(alloc, final_value, mistake));
    solved(rt, alloc, &trace.formula, &[], trace.encoding(), BUDGET)
}

/// Seven updates down and the final value 1 would need eight updates up.
#[test]
fn final_values_are_counted(rt: HostRuntime) {
    let unknown = shown(&rt, rt.alloc(), None, TracedMistake::NONE);
    expect(&rt, unknown == Shown::Model, 0);
    let right = shown(&rt, rt.alloc(), Some(0), TracedMistake::NONE);
    expect(&rt, right == Shown::Model, 1);
    let wrong = shown(&rt, rt.alloc(), Some(1), TracedMistake::NONE);
    expect(&rt, matches!(wrong, Shown::NoModel(_)), 2);
}

/// Each up may have the initial value and each down, each down may have each up, and then come the variables of the final value.
const FIRST_LAST: u32 = EACH * (EACH + 1) + EACH * EACH + 1;

/// Mistakes in what is known of one writer that may be the last one.
const MISTAKES: [TracedMistake; 3] = [
    TracedMistake {
        clauses: 1,
        only: FIRST_LAST,
        ..TracedMistake::NONE
    },
    TracedMistake {
        variables: 1,
        only: FIRST_LAST,
        ..TracedMistake::NONE
    },
    TracedMistake {
        writers: 1,
        only: FIRST_LAST,
        ..TracedMistake::NONE
    },
];

/// What is counted with a mistake is refused.
#[test]
fn mistakes_in_final_values_cost_the_answer(rt: HostRuntime) {
    for number in 0..MISTAKES.len() {
        let shown = shown(&rt, rt.alloc(), Some(1), MISTAKES[number]);
        expect(&rt, shown == Shown::Mistake, number);
    }
}
