//! Derivations that serve more than one cube, and copies of derivations. The formula is the one of four clauses over two variables that no
//! values make true. So its clauses have the ids 1 to 4, and the literal of a cube of one has the id 5.

use crate::expectations::{ample, expect};
use crate::solving::formulas::literals_of;
use cnf_text::read_cnf;
use lrat_check::checker::check;
use lrat_check::derivation::Derivation;
use lrat_check::derivation_copies::{are_same, copied};
use lrat_check::lrat_reader::read_lrat;
use lrat_check::lrat_writer::write_lrat;
use lrat_check::other_cubes::are_served;
use std::alloc::Global;
use std::process::Abort;

const FORMULA: &str = "p cnf 2 4\n1 2 0\n-1 2 0\n1 -2 0\n-1 -2 0\n";

/// A derivation that names no cube: it defines a new variable, derives the second one, and drops what it needs no more.
const WHOLE: &str = "6 3 1 0 0\n7 -3 -1 0 -6 0\n8 2 0 1 2 0\n8 d 1 2 6 0\n9 0 8 3 4 0\n";

/// Derivations, two cubes, and whether what is accepted for the first serves the second.
const SERVED: [(&str, &[i32], &[i32], bool); 12] = [
    (WHOLE, &[1], &[-1], true),
    (WHOLE, &[1], &[2], true),
    (WHOLE, &[-2], &[-2], true),
    // The second cube alone has the negation of the 2 that is added.
    (WHOLE, &[1], &[-2], false),
    // It has that of the pivot of a definition, too.
    (WHOLE, &[1], &[-3], false),
    (WHOLE, &[1], &[1, 2], false),
    // The id of the cube's literal is a hint, that of a group's clause, one that is added, or one that is dropped.
    ("6 0 5 3 4 0\n", &[1], &[-1], false),
    ("6 3 1 0 -5 0\n7 0 8 3 4 0\n", &[1], &[-1], false),
    ("5 2 0 1 2 0\n6 0 5 3 4 0\n", &[1], &[-1], false),
    ("8 d 5 0\n8 2 0 1 2 0\n9 0 8 3 4 0\n", &[1], &[-1], false),
    // Two literals have the ids 5 and 6.
    (WHOLE, &[1, 2], &[-1, 2], false),
    ("1000 2 0 1 2 0\n7 0 1000 3 4 0\n", &[1, 2], &[-1, 2], true),
];

/// Derivations that differ from the one of a definition and a deletion in one number, or in a step.
const OTHERS: [&str; 7] = [
    "7 3 1 0 2 -6 0\n8 d 1 2 0\n",
    "6 3 -1 0 2 -6 0\n8 d 1 2 0\n",
    "6 3 1 0 2 6 0\n8 d 1 2 0\n",
    "6 3 1 0 2 0\n8 d 1 2 0\n",
    "6 3 1 0 2 -6 0\n9 d 1 2 0\n",
    "6 3 1 0 2 -6 0\n8 d 1 3 0\n",
    "6 3 1 0 2 -6 0\n",
];

/// The derivation of which these differ.
const ONE: &str = "6 3 1 0 2 -6 0\n8 d 1 2 0\n";

/// The derivation that the text spells.
fn derivation_of(rt: &impl Abort, alloc: Global, text: &str) -> Derivation {
    ample(rt, read_lrat(alloc, text.as_bytes()))
}

#[test]
fn serves_cubes_that_it_does_not_name(rt: HostRuntime) {
    let alloc = rt.alloc();
    for number in 0..SERVED.len() {
        let (text, first, second, serves) = SERVED[number];
        let derivation = derivation_of(&rt, alloc, text);
        let first = ample(&rt, literals_of(alloc, first));
        let second = ample(&rt, literals_of(alloc, second));
        let served = are_served(4, first.as_slice(), second.as_slice(), &derivation);
        expect(&rt, served == serves, number);
    }
}

#[test]
fn is_accepted_for_each_cube_that_it_serves(rt: HostRuntime) {
    let alloc = rt.alloc();
    let formula = ample(&rt, read_cnf(alloc, FORMULA.as_bytes()));
    let derivation = derivation_of(&rt, alloc, WHOLE);
    for number in [1, -1, 2] {
        let cube = ample(&rt, literals_of(alloc, &[number]));
        assert!(rt; check(alloc, &formula, cube.as_slice(), &derivation).is_ok());
    }
    // The definition's pivot is opposed by the cube's own clause, for which there is no group.
    let cube = ample(&rt, literals_of(alloc, &[-3]));
    assert!(rt; check(alloc, &formula, cube.as_slice(), &derivation).is_err());
}

#[test]
fn copies_are_the_same(rt: HostRuntime) {
    let alloc = rt.alloc();
    let derivation = derivation_of(&rt, alloc, WHOLE);
    let copy = ample(&rt, copied(alloc, &derivation));
    assert!(rt; are_same(&derivation, &copy));
    let written = ample(&rt, write_lrat(alloc, &copy));
    assert!(rt; written.as_slice() == WHOLE.as_bytes());
}

#[test]
fn one_number_makes_another_derivation(rt: HostRuntime) {
    let alloc = rt.alloc();
    let one = derivation_of(&rt, alloc, ONE);
    for number in 0..OTHERS.len() {
        let other = derivation_of(&rt, alloc, OTHERS[number]);
        expect(&rt, !are_same(&one, &other), number);
        expect(&rt, !are_same(&other, &one), number);
    }
}
