//! The hint at which a step of a derivation fails.

use cnf_text::read_cnf;
use dimacs::{ClauseList, Lit};
use known_literals::{ClauseEffect, KnownLiterals};
use lrat_check::derivation::Step;
use lrat_check::lrat_reader::read_lrat;
use note_text::{GrowingText, Notes, decimal};
use std::alloc::{AllocError, Global};

/// The most hints that are followed.
const MAX_FOLLOWED: usize = 200;

/// Adds the literal as it stands in a text.
fn add_number(words: &mut GrowingText, literal: Lit) {
    if literal.is_positive() {
        words.add(&[b" "]);
    } else {
        words.add(&[b" -"]);
    }
    words.add(&[decimal(literal.variable() as u64).as_slice()]);
}

/// Adds the literals as they stand in a text.
fn add_numbers(words: &mut GrowingText, literals: &[Lit]) {
    for literal in literals {
        add_number(words, *literal);
    }
}

/// What the last step says that speaks of a clause.
#[derive(Clone, Copy)]
enum LastWord<'d> {
    /// It adds the clause of these literals.
    Added(&'d [Lit]),
    /// It drops the clause.
    Dropped,
    /// There is no such step.
    Silence,
}

/// Returns whether the number is among these.
fn is_among(ids: &[u64], id: u64) -> bool {
    for other in ids {
        if *other == id {
            return true;
        }
    }
    false
}

/// Gives what the last of these steps says that speaks of the clause of this id.
fn last_word<'d>(steps: &'d [Step], id: u64) -> LastWord<'d> {
    for k in (0..steps.len()).rev() {
        match &steps[k] {
            Step::Addition {
                id: added,
                literals,
                ..
            } => {
                if *added == id {
                    return LastWord::Added(literals.as_slice());
                }
            }
            Step::Deletion { ids, .. } => {
                if is_among(ids.as_slice(), id) {
                    return LastWord::Dropped;
                }
            }
        }
    }
    LastWord::Silence
}

/// A hint and its place among the hints of its step, counted from 1.
#[derive(Clone, Copy)]
struct PlacedHint {
    id: u64,
    place: u64,
}

/// Notes that there is no such clause.
fn note_unknown(notes: &mut Notes, hint: PlacedHint) {
    let place = decimal(hint.place);
    let id = decimal(hint.id);
    notes.note(&[
        b"hint ",
        place.as_slice(),
        b" is ",
        id.as_slice(),
        b", and there is no such clause at this step",
    ]);
}

/// Notes that two literals of the clause are not false.
fn note_open(alloc: Global, notes: &mut Notes, hint: PlacedHint, literals: &[Lit], open: [Lit; 2]) {
    let place = decimal(hint.place);
    let id = decimal(hint.id);
    let mut clause = GrowingText::new(alloc);
    clause.add(&[
        b"hint ",
        place.as_slice(),
        b" is clause ",
        id.as_slice(),
        b":",
    ]);
    add_numbers(&mut clause, literals);
    clause.add(&[b" 0"]);
    notes.note_text(&[], &clause);
    let mut two = GrowingText::new(alloc);
    add_numbers(&mut two, &open);
    notes.note_text(&[b"two of its literals are not false:"], &two);
}

/// Follows a hint, by what the known literals make of its clause. The answer is whether to go on with the next hint: not after a
/// contradiction, with which the step is shown, and not after a hint that fails.
fn follow(
    alloc: Global,
    notes: &mut Notes,
    known: &mut KnownLiterals,
    hint: PlacedHint,
    literals: &[Lit],
) -> Result<bool, AllocError> {
    match known.effect_on(literals) {
        ClauseEffect::Contradiction => Ok(false),
        ClauseEffect::Implies(literal) => {
            known.add(literal)?;
            Ok(true)
        }
        ClauseEffect::Open(first, second) => {
            note_open(alloc, notes, hint, literals, [first, second]);
            Ok(false)
        }
    }
}

/// Follows the hint by a literal of the cube, which is a clause, or notes that there is no such clause.
fn follow_literal(
    alloc: Global,
    notes: &mut Notes,
    known: &mut KnownLiterals,
    literal: Option<&Lit>,
    hint: PlacedHint,
) -> Result<bool, AllocError> {
    match literal {
        Some(literal) => follow(alloc, notes, known, hint, &[*literal]),
        None => {
            note_unknown(notes, hint);
            Ok(false)
        }
    }
}

/// The clauses that hints of a step can name.
#[derive(Drop)]
struct NamedClauses<'d, L> {
    /// Those of a formula, with the numbers from 1 on.
    list: &'d L,
    /// The literals of the cube, which are clauses after those of the list.
    cube: &'d [Lit],
    /// The steps before the one whose hints are followed, with the clauses that they add.
    earlier: &'d [Step],
}

/// Follows the hint by the clause that it names. Earlier steps go first, since one may have dropped a clause of the list, or given its number
/// to another.
fn follow_named<L: ClauseList>(
    alloc: Global,
    notes: &mut Notes,
    known: &mut KnownLiterals,
    clauses: &NamedClauses<'_, L>,
    hint: PlacedHint,
) -> Result<bool, AllocError> {
    match last_word(clauses.earlier, hint.id) {
        LastWord::Added(literals) => return follow(alloc, notes, known, hint, literals),
        LastWord::Dropped => {
            note_unknown(notes, hint);
            return Ok(false);
        }
        LastWord::Silence => {}
    }
    let place = usize::try_from(hint.id.saturating_sub(1)).unwrap_or(usize::MAX);
    let list = clauses.list;
    let count = list.count();
    if place >= count {
        let literal = clauses.cube.get(place - count);
        return follow_literal(alloc, notes, known, literal, hint);
    }
    let clause = list.clause(place);
    follow(alloc, notes, known, hint, clause.as_slice())
}

/// Follows the hints up to the first that fails, with all literals of the added clause false. Groups, which begin with a negative hint, are
/// not followed.
fn follow_hints<L: ClauseList>(
    alloc: Global,
    notes: &mut Notes,
    clauses: &NamedClauses<'_, L>,
    literals: &[Lit],
    hints: &[i64],
) -> Result<(), AllocError> {
    let mut known = KnownLiterals::new(alloc);
    for literal in literals {
        known.add(literal.negated())?;
    }
    let mut place: u64 = 0;
    for hint in hints.get(..MAX_FOLLOWED).unwrap_or(hints) {
        place = place.saturating_add(1);
        if *hint <= 0 {
            return Ok(());
        }
        let placed = PlacedHint {
            id: hint.unsigned_abs(),
            place,
        };
        if !follow_named(alloc, notes, &mut known, clauses, placed)? {
            return Ok(());
        }
    }
    Ok(())
}

/// Adds at which hint the step of this number fails, counted from 1, in a derivation from these clauses and the literals of the cube. Adds
/// the clause of that hint too.
pub(crate) fn explain_hint_of<L: ClauseList>(
    alloc: Global,
    notes: &mut Notes,
    clauses: &L,
    cube: &[Lit],
    steps: &[Step],
    step: u64,
) -> Result<(), AllocError> {
    let number = usize::try_from(step.saturating_sub(1)).unwrap_or(usize::MAX);
    if number >= steps.len() {
        return Ok(());
    }
    if let Step::Addition {
        literals,
        hints,
        ..
    } = &steps[number]
    {
        let hints = hints.to_vec(alloc)?;
        let earlier = &steps[..number];
        let named = NamedClauses {
            list: clauses,
            cube,
            earlier,
        };
        follow_hints(alloc, notes, &named, literals.as_slice(), hints.as_slice())?;
    }
    Ok(())
}

/// Does so for the texts of a formula and of a derivation.
pub(crate) fn explain_hint(
    alloc: Global,
    notes: &mut Notes,
    cnf: &[u8],
    proof: &[u8],
    step: u64,
) -> Result<(), AllocError> {
    let (Ok(formula), Ok(derivation)) = (read_cnf(alloc, cnf), read_lrat(alloc, proof)) else {
        return Ok(());
    };
    explain_hint_of(alloc, notes, &formula, &[], derivation.steps(), step)
}
