//! Formulas with an order that the guide knows.

use crate::expectations::ample;
use crate::solving::formulas::{STORE_BUFFERING, add, formula_of};
use crate::solving::random_formulas::{Random, assert_solved};
use dimacs::{Clause, Formula};
use proof_log::ClauseId;
use solver::EncodingHints;
use std::alloc::{AllocError, Global};

/// Some random clauses, the transitivity of an order of four, and more random clauses, over ten variables of which the first six
/// are those of the order. The first clause of transitivity is reported too. It has the clauses 3 to 10 of store buffering.
fn random_order(alloc: Global, random: &mut Random) -> Result<(Formula, ClauseId), AllocError> {
    let mut clauses: Vec<Clause> = Vec::new(alloc);
    let mut first = ClauseId::new(1);
    for _ in 0..random.next() % 3 {
        let numbers = [random.literal(1, 6), random.literal(1, 10)];
        add(alloc, &mut clauses, &numbers)?;
        first = first.next();
    }
    for numbers in &STORE_BUFFERING[2..10] {
        add(alloc, &mut clauses, *numbers)?;
    }
    for _ in 0..14 + random.next() % 14 {
        let numbers = [
            random.literal(7, 4),
            random.literal(1, 6),
            random.literal(1, 6),
        ];
        add(alloc, &mut clauses, &numbers)?;
    }
    for _ in 0..random.next() % 8 {
        let numbers = [random.literal(1, 6), random.literal(7, 4)];
        add(alloc, &mut clauses, &numbers)?;
    }
    Ok((formula_of(alloc, 10, clauses), first))
}

#[test]
fn solves_orders_with_and_without_a_guide(rt: HostRuntime) {
    let alloc = rt.alloc();
    let mut random = Random::new(3);
    for _ in 0..200 {
        let (formula, first) = ample(&rt, random_order(alloc, &mut random));
        let with_order = EncodingHints::with_order(4, first);
        assert_solved(&rt, alloc, &formula, &[], EncodingHints::none());
        assert_solved(&rt, alloc, &formula, &[], with_order);
        let cube = [random.literal(1, 6), random.literal(1, 6)];
        assert_solved(&rt, alloc, &formula, &cube, with_order);
    }
}
