//! A checker of derivations for tests alone: it keeps a plain list of clauses, and goes through it for each hint.

use dimacs::{Formula, Lit};
use lrat_check::derivation::{Derivation, Step};
use lrat_check::refusal::{Refusal, StepFault};
use std::alloc::{AllocError, Global};

/// A clause with its id, as the numbers of its literals.
#[derive(Drop)]
struct NumberedClause {
    id: u64,
    literals: Vec<i32>,
    is_active: bool,
}

/// The negation of the literal.
fn negation(literal: i32) -> i32 {
    0i32.wrapping_sub(literal)
}

/// Returns whether the literal is among these.
fn has(literals: &[i32], literal: i32) -> bool {
    for other in literals {
        if *other == literal {
            return true;
        }
    }
    false
}

/// The numbers of the literals.
fn numbers_of(alloc: Global, literals: &[Lit]) -> Result<Vec<i32>, AllocError> {
    let mut numbers = Vec::new(alloc);
    for literal in literals {
        numbers.push(literal.number())?;
    }
    Ok(numbers)
}

/// The active clause of this id, if there is one.
fn find(clauses: &[NumberedClause], id: u64) -> Option<&[i32]> {
    for clause in clauses {
        if clause.is_active && clause.id == id {
            return Some(clause.literals.as_slice());
        }
    }
    None
}

/// The literal that the clause leaves open where these are true: 0 where there is none, and nothing where there are two.
fn left_open(clause: &[i32], trues: &[i32]) -> Option<i32> {
    let mut open: i32 = 0;
    for literal in clause {
        if has(trues, negation(*literal)) || *literal == open {
            continue;
        }
        if open != 0 {
            return None;
        }
        open = *literal;
    }
    Some(open)
}

/// Follows the hints before the first group from literals that are true. Returns whether there is a conflict.
fn follow(
    clauses: &[NumberedClause],
    trues: &mut Vec<i32>,
    hints: &[i64],
    number: usize,
) -> Result<bool, Refusal> {
    for hint in hints {
        if *hint < 0 {
            return Ok(false);
        }
        let Some(clause) = find(clauses, hint.unsigned_abs()) else {
            return Err(Refusal::At(StepFault::UnknownHint, number));
        };
        match left_open(clause, trues.as_slice()) {
            None => return Err(Refusal::At(StepFault::NotUnit, number)),
            Some(0) => return Ok(true),
            Some(unit) => trues.push(unit)?,
        }
    }
    Ok(false)
}

/// A group of hints: the id of its clause, and the hints behind that. Those of the group stand at the front of these.
#[derive(Clone, Copy)]
struct HintGroup<'a> {
    id: u64,
    hints: &'a [i64],
}

/// Takes the group, where these literals are reached.
fn settle(
    alloc: Global,
    clauses: &[NumberedClause],
    pivot: i32,
    reached: &[i32],
    group: HintGroup<'_>,
    number: usize,
) -> Result<(), Refusal> {
    let Some(clause) = find(clauses, group.id) else {
        return Err(Refusal::At(StepFault::UnknownHint, number));
    };
    if !has(clause, negation(pivot)) {
        return Err(Refusal::At(StepFault::NotOpposed, number));
    }
    let mut trues = Vec::new(alloc);
    for literal in reached {
        trues.push(*literal)?;
    }
    for literal in clause {
        if *literal != negation(pivot) {
            if has(reached, *literal) {
                return Ok(());
            }
            trues.push(negation(*literal))?;
        }
    }
    if follow(clauses, &mut trues, group.hints, number)? {
        return Ok(());
    }
    Err(Refusal::At(StepFault::NoConflict, number))
}

/// Returns whether one of the groups is of this id.
fn has_group(hints: &[i64], id: u64) -> bool {
    for hint in hints {
        if *hint < 0 && hint.unsigned_abs() == id {
            return true;
        }
    }
    false
}

/// Returns whether an active clause holds the pivot's negation and has no group.
fn lacks_group(clauses: &[NumberedClause], pivot: i32, hints: &[i64]) -> bool {
    for clause in clauses {
        if clause.is_active
            && has(clause.literals.as_slice(), negation(pivot))
            && !has_group(hints, clause.id)
        {
            return true;
        }
    }
    false
}

/// Takes all groups, where these literals are reached.
fn settle_all(
    alloc: Global,
    clauses: &[NumberedClause],
    literals: &[i32],
    reached: &[i32],
    hints: &[i64],
    number: usize,
) -> Result<(), Refusal> {
    let mut groups: u32 = 0;
    let pivot = if literals.is_empty() { 0 } else { literals[0] };
    for place in 0..hints.len() {
        let hint = hints[place];
        if hint < 0 {
            groups = groups.wrapping_add(1);
            if pivot == 0 {
                return Err(Refusal::At(StepFault::NoPivot, number));
            }
            let group = HintGroup {
                id: hint.unsigned_abs(),
                hints: &hints[place + 1..],
            };
            settle(alloc, clauses, pivot, reached, group, number)?;
        }
    }
    if pivot == 0 || groups == 0 && lacks_group(clauses, pivot, hints) {
        return Err(Refusal::At(StepFault::NoConflict, number));
    }
    if lacks_group(clauses, pivot, hints) {
        return Err(Refusal::At(StepFault::GroupMissing, number));
    }
    Ok(())
}

/// Returns whether the hints justify the clause of these literals.
fn justify(
    alloc: Global,
    clauses: &[NumberedClause],
    literals: &[i32],
    hints: &[i64],
    number: usize,
) -> Result<(), Refusal> {
    let mut trues = Vec::new(alloc);
    for literal in literals {
        if has(literals, negation(*literal)) {
            return Ok(());
        }
        trues.push(negation(*literal))?;
    }
    if follow(clauses, &mut trues, hints, number)? {
        return Ok(());
    }
    settle_all(alloc, clauses, literals, trues.as_slice(), hints, number)
}

/// Takes the clauses of these ids away.
fn drop_all(clauses: &mut [NumberedClause], ids: &[u64]) {
    for clause in clauses.iter_mut() {
        for id in ids {
            if clause.id == *id {
                clause.is_active = false;
            }
        }
    }
}

/// The clauses at the start: those of the formula, and the literals of the cube.
fn at_start(
    alloc: Global,
    formula: &Formula,
    cube: &[Lit],
) -> Result<Vec<NumberedClause>, AllocError> {
    let mut clauses = Vec::new(alloc);
    let mut id: u64 = 0;
    for clause in formula.clauses() {
        id = id.wrapping_add(1);
        clauses.push(NumberedClause {
            id,
            literals: numbers_of(alloc, clause.as_slice())?,
            is_active: true,
        })?;
    }
    for literal in cube {
        id = id.wrapping_add(1);
        clauses.push(NumberedClause {
            id,
            literals: numbers_of(alloc, &[*literal])?,
            is_active: true,
        })?;
    }
    Ok(clauses)
}

/// Checks the derivation, as the checker does.
pub fn plain_check(
    alloc: Global,
    formula: &Formula,
    cube: &[Lit],
    derivation: &Derivation,
) -> Result<(), Refusal> {
    let mut clauses = at_start(alloc, formula, cube)?;
    let mut number: usize = 0;
    for step in derivation.steps() {
        number = number.wrapping_add(1);
        match step {
            Step::Deletion { ids, .. } => drop_all(clauses.as_mut_slice(), ids.as_slice()),
            Step::Addition {
                id,
                literals,
                hints,
            } => {
                if find(clauses.as_slice(), *id).is_some() {
                    return Err(Refusal::At(StepFault::IdInUse, number));
                }
                let literals = numbers_of(alloc, literals.as_slice())?;
                let hints = hints.to_vec(alloc)?;
                justify(
                    alloc,
                    clauses.as_slice(),
                    literals.as_slice(),
                    hints.as_slice(),
                    number,
                )?;
                if literals.is_empty() {
                    return Ok(());
                }
                clauses.push(NumberedClause {
                    id: *id,
                    literals,
                    is_active: true,
                })?;
            }
        }
    }
    Err(Refusal::At(StepFault::NoEmptyClause, number.wrapping_add(1)))
}
