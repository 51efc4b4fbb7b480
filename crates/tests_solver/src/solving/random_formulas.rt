//! Random formulas, some with repeated literals, with tautologies and with clauses without literals, by themselves and in cubes.

use crate::expectations::{ample, expect};
use crate::solving::answers::{Shown, solved};
use crate::solving::formulas::{add, formula_of, literals_of};
use crate::solving::plain_solver::has_model;
use dimacs::{Clause, Formula};
use proof_log::ClauseId;
use solver::EncodingHints;
use std::alloc::{AllocError, Global};
use std::process::Abort;

/// Numbers that look random, and are the same in each run.
#[derive(Drop)]
pub struct Random {
    state: u64,
}

impl Random {
    /// The numbers of this seed.
    pub fn new(seed: u64) -> Random {
        Random {
            state: seed.wrapping_mul(0x9E37_79B9_7F4A_7C15) | 1,
        }
    }

    /// A number below 1000.
    pub fn next(&mut self) -> u16 {
        self.state ^= self.state << 13;
        self.state ^= self.state >> 7;
        self.state ^= self.state << 17;
        ((self.state >> 32) % 1000) as u16
    }

    /// A literal of one of the given number of variables from this one on.
    pub fn literal(&mut self, first: u16, variables: u16) -> i32 {
        if variables == 0 {
            return 1;
        }
        let variable = i32::from(self.next() % variables) + i32::from(first);
        if self.next() % 2 == 0 {
            variable
        } else {
            -variable
        }
    }
}

/// Adds a clause of this number of random literals over eight variables, which may repeat.
fn add_random(
    alloc: Global,
    random: &mut Random,
    clauses: &mut Vec<Clause>,
    length: u16,
) -> Result<(), AllocError> {
    let mut numbers = Vec::new(alloc);
    for _ in 0..length {
        numbers.push(random.literal(1, 8))?;
    }
    add(alloc, clauses, numbers.as_slice())
}

/// A random formula over eight variables.
pub fn random_formula(alloc: Global, random: &mut Random) -> Result<Formula, AllocError> {
    let mut clauses = Vec::new(alloc);
    for _ in 0..20 + random.next() % 16 {
        let kind = random.next();
        let length = if kind < 5 {
            0
        } else if kind < 30 {
            1
        } else if kind < 200 {
            2
        } else if kind < 800 {
            3
        } else {
            5
        };
        add_random(alloc, random, &mut clauses, length)?;
    }
    Ok(formula_of(alloc, 8, clauses))
}

/// Asserts that the solver finds what the plain solver finds, in the cube of these literals.
pub fn assert_solved(
    rt: &impl Abort,
    alloc: Global,
    formula: &Formula,
    cube: &[i32],
    encoding: EncodingHints,
) {
    let literals = ample(rt, literals_of(alloc, cube));
    let answer = solved(rt, alloc, formula, literals.as_slice(), encoding, 100_000);
    let known = ample(rt, has_model(alloc, formula, literals.as_slice()));
    expect(rt, agrees(answer, known), cube.len());
}

/// Returns whether an answer shows what the plain solver has found out.
pub fn agrees(answer: Shown, known: Option<bool>) -> bool {
    match answer {
        Shown::Model => known == Some(true),
        Shown::NoModel(_) => known == Some(false),
        Shown::Nothing => false,
        Shown::Mistake => false,
    }
}

#[test]
fn solves_random_formulas(rt: HostRuntime) {
    let alloc = rt.alloc();
    let mut random = Random::new(1);
    for _ in 0..400 {
        let formula = ample(&rt, random_formula(alloc, &mut random));
        assert_solved(&rt, alloc, &formula, &[], EncodingHints::none());
        let cube = [random.literal(1, 8), random.literal(1, 8)];
        assert_solved(&rt, alloc, &formula, &cube, EncodingHints::none());
    }
}

/// Wrong guides: how many elements the order has, and which clause is the first one of its transitivity.
const WRONG: [(u32, u32); 7] = [(4, 1), (3, 5), (4, 20), (5, 1), (192, 1), (193, 0), (3, 0)];

/// Asserts that an answer with this guide shows nothing, or what is so.
fn assert_true(
    rt: &impl Abort,
    alloc: Global,
    formula: &Formula,
    encoding: EncodingHints,
    known: bool,
) {
    let is_true = match solved(rt, alloc, formula, &[], encoding, 1000) {
        Shown::Model => known,
        Shown::NoModel(_) => !known,
        Shown::Nothing => true,
        Shown::Mistake => true,
    };
    expect(rt, is_true, 0);
}

/// Whatever is wrong about a guide, what an answer shows is so.
#[test]
fn wrong_guides_cost_no_truth(rt: HostRuntime) {
    let alloc = rt.alloc();
    let mut random = Random::new(2);
    for _ in 0..100 {
        let formula = ample(&rt, random_formula(alloc, &mut random));
        let known = ample(&rt, has_model(alloc, &formula, &[])) == Some(true);
        for (elements, first) in &WRONG {
            let encoding = EncodingHints::with_order(*elements, ClauseId::new(*first));
            assert_true(&rt, alloc, &formula, encoding, known);
        }
    }
}
