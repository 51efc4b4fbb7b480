//! Literals, clauses, formulas and their text, and truth values.

use crate::expectations::{ample, expect};
use dimacs::{
    Assignment, Clause, Formula, Lit, MAX_VARIABLE, ShortSink, SinkFault, recall_literals,
    write_cnf,
};
use std::alloc::Global;
use std::process::Abort;

/// The literals of these numbers, of which none is 0.
pub fn literals_of(rt: &impl Abort, alloc: Global, numbers: &[i32]) -> Vec<Lit> {
    let mut literals = Vec::new(alloc);
    for number in numbers {
        ample(rt, literals.push(Lit::new(*number).unwrap_or_default()));
    }
    literals
}

/// The clauses of these numbers.
fn clauses_of(rt: &impl Abort, alloc: Global, lists: &[&[i32]]) -> Vec<Clause> {
    let mut clauses = Vec::new(alloc);
    for numbers in lists {
        let literals = literals_of(rt, alloc, numbers);
        let clause = ample(rt, Clause::from_slice(alloc, literals.as_slice()));
        ample(rt, clauses.push(clause));
    }
    clauses
}

/// The formula of these clauses, which are over its variables.
pub fn formula_of(rt: &impl Abort, alloc: Global, variables: u32, lists: &[&[i32]]) -> Formula {
    let clauses = clauses_of(rt, alloc, lists);
    if !Formula::fits(variables, clauses.as_slice()) {
        panic!(rt; "a clause is not over the variables");
    }
    Formula::new(variables, clauses)
}

/// A number of variables, clauses, and the text of the formula.
type FormulaCase = (u32, &'static [&'static [i32]], &'static str);

const WRITTEN: [FormulaCase; 3] = [
    (0, &[], "p cnf 0 0\n"),
    (2, &[&[2], &[-2, 1]], "p cnf 2 2\n2 0\n-2 1 0\n"),
    (
        4_194_304,
        &[&[], &[4, -4, 4_194_304, -4_194_304, 10, -9]],
        "p cnf 4194304 2\n0\n4 -4 4194304 -4194304 10 -9 0\n",
    ),
];

/// Returns whether the formula's text reaches a sink that takes the given number of bytes a call.
fn is_written(alloc: Global, formula: &Formula, most: usize, text: &[u8]) -> bool {
    let mut sink = ShortSink::new(alloc, most);
    write_cnf(alloc, formula, &mut sink).is_ok() && sink.as_slice() == text
}

/// Returns whether a sink that takes a byte a call and fails at its eighth has the first seven, and the failure is reported.
fn is_begun(alloc: Global, formula: &Formula, text: &[u8]) -> bool {
    let mut sink = ShortSink::new(alloc, 1).failing_at(8);
    let written = write_cnf(alloc, formula, &mut sink);
    matches!(written, Err(SinkFault::Device)) && text.len() >= 7 && sink.as_slice() == &text[..7]
}

#[test]
fn writes_formulas(rt: HostRuntime) {
    for (variables, lists, text) in &WRITTEN {
        let formula = formula_of(&rt, rt.alloc(), *variables, lists);
        for most in [1, 7, usize::MAX] {
            expect(
                &rt,
                is_written(rt.alloc(), &formula, most, text.as_bytes()),
                most,
            );
        }
        assert!(rt; is_begun(rt.alloc(), &formula, text.as_bytes()));
    }
    assert!(rt; !Formula::fits(1, clauses_of(&rt, rt.alloc(), &[&[2]]).as_slice()));
}

#[test]
fn gives_its_parts_back(rt: HostRuntime) {
    let formula = formula_of(&rt, rt.alloc(), 2, &[&[2], &[-2, 1]]);
    formula.recall_invariant();
    let clauses = formula.into_clauses();
    assert!(rt; clauses.len() == 2);
    assert!(rt; Formula::fits(MAX_VARIABLE, clauses.as_slice()));
    let again = Formula::new(MAX_VARIABLE, clauses);
    assert!(rt; again.variables() == MAX_VARIABLE && again.clauses().len() == 2);
}

#[test]
fn gives_values_to_variables(rt: HostRuntime) {
    let values = ample(&rt, Vec::from_slice(rt.alloc(), &[true, false]));
    let assignment = Assignment::new(values);
    for (variable, value) in [(0, false), (1, true), (2, false), (u32::MAX, false)] {
        expect(&rt, assignment.value(variable) == value, variable as usize);
    }
    assert!(rt; assignment.makes(&[]));
    assert!(rt; assignment.makes(literals_of(&rt, rt.alloc(), &[1, -2, -3]).as_slice()));
    assert!(rt; !assignment.makes(literals_of(&rt, rt.alloc(), &[1, 2]).as_slice()));
    assert!(rt; !assignment.makes(literals_of(&rt, rt.alloc(), &[-1]).as_slice()));
    assert!(rt; assignment.satisfies(&[Lit::positive(2), Lit::positive(1)]));
    assert!(rt; assignment.into_values().as_slice() == [true, false].as_slice());
}

#[test]
fn keeps_literals(rt: HostRuntime) {
    for number in [0, 4_194_305, -4_194_305, i32::MIN] {
        assert!(rt; Lit::new(number).is_none(), "at {number}");
    }
    let last = Lit::positive(MAX_VARIABLE).negated();
    assert!(rt; Lit::new(-4_194_304) == Some(last));
    assert!(rt; last.variable() == MAX_VARIABLE && last.number() == -4_194_304);
    assert!(rt; !last.is_positive() && last.negated() == Lit::positive(MAX_VARIABLE));
}

/// Returns whether these are the literals of the clause.
fn is_of(clause: Clause, literals: &[Lit]) -> bool {
    clause.as_slice() == literals
}

#[test]
fn keeps_literals_in_clauses(rt: HostRuntime) {
    let alloc = rt.alloc();
    let [first, second] = [Lit::positive(7), Lit::positive(9).negated()];
    let last = Lit::positive(MAX_VARIABLE).negated();
    recall_literals(&[first, second, last]);
    assert!(rt; is_of(Clause::unit(alloc, first), &[first]));
    assert!(rt; is_of(Clause::binary(alloc, first, second), &[first, second]));
    let clause = Clause::ternary(alloc, first, second, last);
    assert!(rt; clause.is_over(MAX_VARIABLE) && !clause.is_over(9));
    assert!(rt; is_of(clause, &[first, second, last]));
}
