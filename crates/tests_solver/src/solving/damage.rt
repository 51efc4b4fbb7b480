//! Derivations with something wrong in them.

use crate::solving::random_formulas::Random;
use dimacs::{Clause, Lit};
use lrat_check::derivation::{Derivation, Step};
use lrat_check::hints::Hints;
use lrat_check::ids::Ids;
use std::alloc::{AllocError, Global};

/// The hints, of which one is left out, is another number, or begins a group.
fn other_hints(alloc: Global, random: &mut Random, hints: &[i64]) -> Result<Hints, AllocError> {
    let kind = random.next() % 4;
    let chosen = random.next() % 8;
    let mut place: u16 = 0;
    let mut numbers = Vec::new(alloc);
    for hint in hints {
        if place != chosen {
            numbers.push(*hint)?;
        } else if kind == 1 {
            numbers.push(i64::from(random.next() % 40))?;
        } else if kind == 2 {
            numbers.push(0i64.wrapping_sub(*hint))?;
        } else if kind == 3 {
            numbers.push(0i64.wrapping_sub(i64::from(random.next() % 40)))?;
            numbers.push(*hint)?;
        }
        place = place.wrapping_add(1);
    }
    Ok(Hints::new(numbers))
}

/// The clause, of which one literal is left out, negated, or there twice.
fn other_literals(
    alloc: Global,
    random: &mut Random,
    literals: &[Lit],
) -> Result<Clause, AllocError> {
    let kind = random.next() % 4;
    let chosen = random.next() % 3;
    let mut place: u16 = 0;
    let mut others = Vec::new(alloc);
    for literal in literals {
        if place != chosen || kind == 3 {
            others.push(*literal)?;
        }
        if place == chosen && kind > 0 {
            others.push(literal.negated())?;
        }
        place = place.wrapping_add(1);
    }
    Clause::from_slice(alloc, others.as_slice())
}

/// Adds a copy of the step, mostly a true one.
fn add_copy(
    alloc: Global,
    random: &mut Random,
    steps: &mut Vec<Step>,
    step: &Step,
) -> Result<(), AllocError> {
    let Step::Addition {
        id,
        literals,
        hints,
    } = step
    else {
        return Ok(());
    };
    let kind = random.next() % 16;
    if kind == 0 {
        return Ok(());
    }
    if kind == 1 {
        let dropped = [u64::from(random.next() % 40)];
        let ids = Ids::from_slice(alloc, &dropped)?;
        steps.push(Step::Deletion { first: 0, ids })?;
    }
    let id = if kind == 2 {
        u64::from(random.next() % 40)
    } else {
        *id
    };
    let numbers = hints.to_vec(alloc)?;
    let hints = if kind == 3 || kind == 4 {
        other_hints(alloc, random, numbers.as_slice())?
    } else {
        Hints::new(numbers)
    };
    let literals = if kind == 5 {
        other_literals(alloc, random, literals.as_slice())?
    } else {
        Clause::from_slice(alloc, literals.as_slice())?
    };
    steps.push(Step::Addition {
        id,
        literals,
        hints,
    })?;
    Ok(())
}

/// The derivation with something wrong in some of its steps.
pub fn damaged(
    alloc: Global,
    random: &mut Random,
    derivation: &Derivation,
) -> Result<Derivation, AllocError> {
    let mut steps = Vec::new(alloc);
    for step in derivation.steps() {
        add_copy(alloc, random, &mut steps, step)?;
    }
    Ok(Derivation::new(steps))
}
