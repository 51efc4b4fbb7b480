//! The checker beside a plain one: on derivations of which it is known what must be said of them, on derivations of the solver, and on
//! damaged ones of both.

use crate::expectations::{ample, expect};
use crate::solving::damage::damaged;
use crate::solving::formulas::{PIGEONHOLE, STORE_BUFFERING, listed, literals_of};
use crate::solving::known_derivations::{FAMILIES, Family, LARGEST};
use crate::solving::plain_checker::plain_check;
use crate::solving::random_formulas::{Random, random_formula};
use cnf_text::read_cnf;
use dimacs::{Formula, Lit};
use lrat_check::checker::check;
use lrat_check::derivation::Derivation;
use lrat_check::lrat_reader::read_lrat;
use lrat_check::refusal::Refusal;
use solver::{Answer, EncodingHints, solve};
use std::alloc::{AllocError, Global};
use std::process::Abort;

/// A formula, and the literals of a cube.
#[derive(Clone, Copy)]
struct FormulaInCube<'a> {
    formula: &'a Formula,
    cube: &'a [Lit],
}

/// The formula in this cube.
fn in_cube<'a>(formula: &'a Formula, cube: &'a [Lit]) -> FormulaInCube<'a> {
    FormulaInCube { formula, cube }
}

/// Asserts that both checkers accept the derivation, or refuse it for the same cause at the same step. Why they refuse it, if they do.
fn same_answer(
    rt: &impl Abort,
    alloc: Global,
    problem: FormulaInCube<'_>,
    derivation: &Derivation,
) -> Option<Refusal> {
    let FormulaInCube { formula, cube } = problem;
    let plain = plain_check(alloc, formula, cube, derivation).err();
    let real = check(alloc, formula, cube, derivation).err();
    expect(rt, plain == real, derivation.steps().len());
    real
}

/// Asserts that both checkers say the same of this number of damaged derivations. Returns the number of those that are accepted.
fn assert_same_damaged(
    rt: &impl Abort,
    alloc: Global,
    random: &mut Random,
    problem: FormulaInCube<'_>,
    derivation: &Derivation,
    count: u32,
) -> u32 {
    let mut accepted: u32 = 0;
    for _ in 0..count {
        let other = ample(rt, damaged(alloc, random, derivation));
        let answer = same_answer(rt, alloc, problem, &other);
        accepted = accepted.wrapping_add(u32::from(answer.is_none()));
    }
    accepted
}

/// Asserts that both checkers accept the solver's derivation, if it finds one, and say the same of this number of damaged ones. Returns the
/// number of those that are accepted.
fn assert_same_solved(
    rt: &impl Abort,
    alloc: Global,
    random: &mut Random,
    problem: FormulaInCube<'_>,
    count: u32,
) -> u32 {
    let FormulaInCube { formula, cube } = problem;
    let answer = ample(
        rt,
        solve(alloc, formula, cube, EncodingHints::none(), 100_000),
    );
    let Answer::Refuted(derivation) = answer else {
        return 0;
    };
    let refused = same_answer(rt, alloc, problem, &derivation);
    expect(rt, refused.is_none(), 0);
    assert_same_damaged(rt, alloc, random, problem, &derivation, count)
}

#[test]
fn checkers_agree(rt: HostRuntime) {
    let alloc = rt.alloc();
    let mut random = Random::new(7);
    for _ in 0..200 {
        let formula = ample(&rt, random_formula(alloc, &mut random));
        let numbers = [random.literal(1, 8), random.literal(1, 8)];
        let cube = ample(&rt, literals_of(alloc, &numbers));
        assert_same_solved(&rt, alloc, &mut random, in_cube(&formula, &[]), 10);
        let problem = in_cube(&formula, cube.as_slice());
        assert_same_solved(&rt, alloc, &mut random, problem, 10);
    }
    let pigeons = ample(&rt, listed(alloc, 12, &PIGEONHOLE));
    let buffers = ample(&rt, listed(alloc, 8, &STORE_BUFFERING));
    for formula in [&pigeons, &buffers] {
        let accepted = assert_same_solved(&rt, alloc, &mut random, in_cube(formula, &[]), 400);
        assert!(rt; accepted > 0 && accepted < 400);
    }
}

/// The text of these pieces.
fn joined(alloc: Global, pieces: &[&str]) -> Result<Vec<u8>, AllocError> {
    let mut text = Vec::new(alloc);
    for piece in pieces {
        text.extend_from_slice(piece.as_bytes())?;
    }
    Ok(text)
}

/// The derivation that the text of these pieces spells.
fn derivation_of(rt: &impl Abort, alloc: Global, pieces: &[&str]) -> Derivation {
    let text = ample(rt, joined(alloc, pieces));
    ample(rt, read_lrat(alloc, text.as_slice()))
}

/// Asserts that both checkers say of these derivations what is known, and the same of this number of damaged ones of each. Returns the
/// number of those that are accepted.
fn assert_known(
    rt: &impl Abort,
    alloc: Global,
    random: &mut Random,
    family: &Family,
    count: u32,
) -> u32 {
    let (text, numbers, known) = *family;
    let formula = ample(rt, read_cnf(alloc, text.as_bytes()));
    let cube = ample(rt, literals_of(alloc, numbers));
    let problem = in_cube(&formula, cube.as_slice());
    let mut accepted: u32 = 0;
    for number in 0..known.len() {
        let (pieces, refused) = known[number];
        let derivation = derivation_of(rt, alloc, pieces);
        let answer = same_answer(rt, alloc, problem, &derivation);
        expect(rt, answer == refused, number);
        let more = assert_same_damaged(rt, alloc, random, problem, &derivation, count);
        accepted = accepted.wrapping_add(more);
    }
    accepted
}

#[test]
fn both_checkers_say_what_is_known(rt: HostRuntime) {
    let mut random = Random::new(8);
    let mut accepted: u32 = 0;
    for family in &FAMILIES {
        let more = assert_known(&rt, rt.alloc(), &mut random, family, 20);
        accepted = accepted.wrapping_add(more);
    }
    assert!(rt; accepted > 100 && accepted < 1000);
    for family in &LARGEST {
        assert_known(&rt, rt.alloc(), &mut random, family, 0);
    }
}
