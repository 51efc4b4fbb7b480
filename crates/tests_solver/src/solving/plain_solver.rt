//! A solver for tests alone: it scans the clause list for a clause with one open literal, decides where there is none, goes back to the
//! last decision where a clause is false, and learns nothing.

use dimacs::{Clause, Formula, Lit};
use std::alloc::{AllocError, Global};

/// The largest number of assignments of one literal that are made.
const MAX_STEPS: u32 = 10_000_000;

/// A literal that is true, and whether its negation has yet to be tried.
#[derive(Clone, Copy)]
struct Tried {
    literal: Lit,
    is_decision: bool,
}

/// Returns whether this number is among those of the literals that are true.
fn is_true(trail: &[Tried], number: i32) -> bool {
    for tried in trail {
        if tried.literal.number() == number {
            return true;
        }
    }
    false
}

/// The state of a clause.
#[derive(Clone, Copy)]
enum ClauseState {
    /// A literal of it is true.
    Satisfied,
    /// All are false.
    Falsified,
    /// This one alone is open, and all others are false.
    Unit(Lit),
    /// This one is the first of several that are open.
    Open(Lit),
}

/// The state of a clause with one more literal, which is open.
fn with_open(standing: ClauseState, literal: Lit) -> ClauseState {
    match standing {
        ClauseState::Satisfied => ClauseState::Satisfied,
        ClauseState::Falsified => ClauseState::Unit(literal),
        ClauseState::Unit(first) => {
            if first.number() == literal.number() {
                standing
            } else {
                ClauseState::Open(first)
            }
        }
        ClauseState::Open(first) => ClauseState::Open(first),
    }
}

/// The state of the clause.
fn standing_of(clause: &[Lit], trail: &[Tried]) -> ClauseState {
    let mut standing = ClauseState::Falsified;
    for literal in clause {
        if is_true(trail, literal.number()) {
            return ClauseState::Satisfied;
        }
        if !is_true(trail, literal.negated().number()) {
            standing = with_open(standing, *literal);
        }
    }
    standing
}

/// What is asked for by clauses and by one more, which stands so: that one is false before that one leaves a literal alone, and this
/// before that a literal can be decided.
fn more_urgent(next: ClauseState, standing: ClauseState) -> ClauseState {
    match standing {
        ClauseState::Satisfied => next,
        ClauseState::Falsified => ClauseState::Falsified,
        ClauseState::Unit(literal) => match next {
            ClauseState::Falsified => next,
            _ => ClauseState::Unit(literal),
        },
        ClauseState::Open(literal) => match next {
            ClauseState::Satisfied => ClauseState::Open(literal),
            _ => next,
        },
    }
}

/// Gives what the clauses ask for: a literal that one of them leaves alone, else one that can be decided. Falsified where one of them is,
/// satisfied where all are.
fn next_of(clauses: &[Clause], trail: &[Tried]) -> ClauseState {
    let mut next = ClauseState::Satisfied;
    for clause in clauses {
        next = more_urgent(next, standing_of(clause.as_slice(), trail));
    }
    next
}

/// Takes back what was made true up to the last decision, and tries its negation. Returns whether there was one.
fn go_back(trail: &mut Vec<Tried>) -> Result<bool, AllocError> {
    for _ in 0..trail.len() {
        let Some(last) = trail.pop() else {
            return Ok(false);
        };
        if last.is_decision {
            trail.push(Tried {
                literal: last.literal.negated(),
                is_decision: false,
            })?;
            return Ok(true);
        }
    }
    Ok(false)
}

/// Returns whether the formula has a model that makes all literals of the cube true, if that is found out.
pub fn has_model(
    alloc: Global,
    formula: &Formula,
    cube: &[Lit],
) -> Result<Option<bool>, AllocError> {
    let mut trail: Vec<Tried> = Vec::new(alloc);
    for literal in cube {
        if is_true(trail.as_slice(), literal.negated().number()) {
            return Ok(Some(false));
        }
        let literal = *literal;
        let is_decision = false;
        trail.push(Tried {
            literal,
            is_decision,
        })?;
    }
    for _ in 0..MAX_STEPS {
        match next_of(formula.clauses(), trail.as_slice()) {
            ClauseState::Satisfied => return Ok(Some(true)),
            ClauseState::Falsified => {
                if !go_back(&mut trail)? {
                    return Ok(Some(false));
                }
            }
            ClauseState::Unit(literal) => trail.push(Tried {
                literal,
                is_decision: false,
            })?,
            ClauseState::Open(literal) => trail.push(Tried {
                literal,
                is_decision: true,
            })?,
        }
    }
    Ok(None)
}
