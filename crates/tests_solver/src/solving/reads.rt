//! Formulas with an order, with reads and with a final value that the guide knows: those of small random traces of one location.

use crate::expectations::{ample, expect};
use crate::solving::answers::{Shown, solved};
use crate::solving::formulas::literals_of;
use crate::solving::plain_solver::has_model;
use crate::solving::random_formulas::{Random, agrees};
use crate::solving::traced::{Access, Traced, TracedMistake, formula_of_trace};
use dimacs::Lit;
use solver::EncodingHints;
use std::alloc::{AllocError, Global};
use std::process::Abort;

/// A value of which there are two.
fn random_value(random: &mut Random) -> u16 {
    random.next() % 2
}

/// Gives what an operation does, at random.
fn random_access(random: &mut Random, is_first: bool) -> Access {
    let kind = random.next() % 5;
    let reads = if kind < 3 {
        Some(random_value(random))
    } else {
        None
    };
    let writes = if kind != 2 {
        Some(random_value(random))
    } else {
        None
    };
    Access {
        reads,
        writes,
        is_first,
    }
}

/// A random trace of two processes of three operations each, mostly with a final value, with this mistake in what is known of it.
fn random_trace(
    alloc: Global,
    random: &mut Random,
    mistake: TracedMistake,
) -> Result<Traced, AllocError> {
    let mut accesses = Vec::new(alloc);
    for place in 0..6u32 {
        accesses.push(random_access(random, place == 0 || place == 3))?;
    }
    let final_value = if random.next() % 3 == 0 {
        None
    } else {
        Some(random_value(random))
    };
    formula_of_trace(alloc, accesses.as_slice(), final_value, mistake)
}

/// Returns whether the answers with and without the guide are those of the plain solver in a cube: where the guide has a mistake an answer
/// may show nothing, and what it shows is so.
fn agree(
    rt: &impl Abort,
    alloc: Global,
    trace: &Traced,
    cube: &[Lit],
    mistake: TracedMistake,
) -> bool {
    let known = ample(rt, has_model(alloc, &trace.formula, cube));
    let alone = solved(
        rt,
        alloc,
        &trace.formula,
        cube,
        EncodingHints::none(),
        100_000,
    );
    let guided = solved(rt, alloc, &trace.formula, cube, trace.encoding(), 1000);
    let shows = guided != Shown::Mistake && guided != Shown::Nothing;
    let is_right = agrees(guided, known) || !shows && mistake != TracedMistake::NONE;
    is_right && agrees(alone, known)
}

/// Asserts that the answers for a random trace agree, by themselves and in a random cube.
fn assert_agreed(
    rt: &impl Abort,
    alloc: Global,
    random: &mut Random,
    mistake: TracedMistake,
    number: usize,
) {
    let trace = ample(rt, random_trace(alloc, random, mistake));
    let numbers = [random.literal(1, 15), random.literal(1, 15)];
    let cube = ample(rt, literals_of(alloc, &numbers));
    let is_right = agree(rt, alloc, &trace, &[], mistake);
    expect(rt, is_right, number);
    let is_right = agree(rt, alloc, &trace, cube.as_slice(), mistake);
    expect(rt, is_right, number);
}

#[test]
fn solves_reads_with_right_guides(rt: HostRuntime) {
    let mut random = Random::new(5);
    for number in 0..300 {
        assert_agreed(&rt, rt.alloc(), &mut random, TracedMistake::NONE, number);
    }
}

/// What may be wrong in a guide.
const MISTAKES: [TracedMistake; 17] = [
    TracedMistake {
        clauses: 1,
        ..TracedMistake::NONE
    },
    TracedMistake {
        clauses: 7,
        ..TracedMistake::NONE
    },
    TracedMistake {
        clauses: 100,
        ..TracedMistake::NONE
    },
    TracedMistake {
        clauses: u32::MAX,
        ..TracedMistake::NONE
    },
    TracedMistake {
        clauses: 1,
        only: 2,
        ..TracedMistake::NONE
    },
    TracedMistake {
        variables: 1,
        ..TracedMistake::NONE
    },
    TracedMistake {
        variables: 5,
        ..TracedMistake::NONE
    },
    TracedMistake {
        variables: 1,
        only: 3,
        ..TracedMistake::NONE
    },
    TracedMistake {
        readers: 1,
        ..TracedMistake::NONE
    },
    TracedMistake {
        readers: 3,
        ..TracedMistake::NONE
    },
    TracedMistake {
        readers: 1,
        only: 1,
        ..TracedMistake::NONE
    },
    TracedMistake {
        readers: 2,
        only: 4,
        ..TracedMistake::NONE
    },
    TracedMistake {
        writers: 1,
        ..TracedMistake::NONE
    },
    TracedMistake {
        writers: 3,
        ..TracedMistake::NONE
    },
    TracedMistake {
        writers: 1,
        only: 1,
        ..TracedMistake::NONE
    },
    TracedMistake {
        writers: 2,
        only: 5,
        ..TracedMistake::NONE
    },
    TracedMistake {
        clauses: 3,
        variables: 2,
        readers: 1,
        writers: 1,
        ..TracedMistake::NONE
    },
];

/// Whatever is wrong in a guide, no wrong answer passes.
#[test]
fn wrong_guides_to_reads_cost_no_truth(rt: HostRuntime) {
    let mut random = Random::new(6);
    for number in 0..MISTAKES.len() {
        for _ in 0..40 {
            assert_agreed(&rt, rt.alloc(), &mut random, MISTAKES[number], number);
        }
    }
}
