//! The numbers of a derivation's text.
//!
//! Each is a number as solvers write it (`SolverNumber`): a minus or none, and a magnitude, which is missing from 2^64 on. A 0 with a minus is no number.
//! Of lists `short_numbers` reads the short words at once, which are most; all others come here.

ghost use Rattle.std.specs.Prelude.{◌≡◌, ◌≤◌, ℤ, pos, nat_abs, Some, None, IsTrue, MatchOption, MatchResult};
ghost use Rattle.dimacs.specs.Literal.{is_literal};
ghost use Rattle.lrat_check.specs.LratFaults.{literal_fault, hint_fault, id_fault, first_fault};
ghost use Rattle.lrat_check.specs.LratText.{is_id, is_id_number, most_id};
ghost use Rattle.text_lines.specs.Numbers.{solver_number};

use crate::lrat_fault::LratCause;
use dimacs::{Lit, MAX_VARIABLE};
use text_lines::numbers::{SolverNumber, read_solver_number};

/// The largest id: it and its negative both fit the `i64` of a hint.
pub const MAX_ID: u64 = 9_223_372_036_854_775_807;

/// Returns whether the number is an id of a clause.
pub fn is_id(number: u64) -> bool
    ensures { result ≡ is_id number }
{
    0 < number && number <= MAX_ID
}

/// Returns whether the hint is an id or the negative of one.
pub fn is_hint(hint: i64) -> bool
    ensures { result ≡ is_id_number hint }
{
    is_id(hint.unsigned_abs())
}

/// The id that the word writes, or 0, which ends a list of ids.
pub fn read_id(word: &[u8]) -> Result<u64, LratCause>
    ensures { MatchResult result
        (λ id. (solver_number word.now ≡ Some (pos id)) × (id ≤ most_id))
        (λ cause. id_fault (solver_number word.now) ≡ Some cause) }
{
    let Some(number) = read_solver_number(word) else {
        return Err(LratCause::BadNumber);
    };
    if number.is_negative {
        return Err(LratCause::BadNumber);
    }
    match number.magnitude {
        Some(id) if id <= MAX_ID => Ok(id),
        _ => Err(LratCause::BadNumber),
    }
}

/// The number from `least` to the largest id that the word writes. `least` is 1 for the id of an addition, and 0 for the first number of a
/// deletion, which names no clause.
pub fn read_first(word: &[u8], least: u64) -> Result<u64, LratCause>
    ensures { MatchResult result
        (λ id. (solver_number word.now ≡ Some (pos id)) × (least ≤ id) × (id ≤ most_id))
        (λ cause. first_fault least (solver_number word.now) ≡ Some cause) }
{
    let id = read_id(word)?;
    if id < least {
        return Err(LratCause::BadNumber);
    }
    Ok(id)
}

/// The hint that the word writes, or nothing if it writes 0.
pub fn read_hint(word: &[u8]) -> Result<Option<i64>, LratCause>
    ensures { MatchResult result
        (λ found. MatchOption found (solver_number word.now ≡ Some (pos 0)) (λ hint. (solver_number word.now ≡ Some hint) × IsTrue (is_id_number hint)))
        (λ cause. hint_fault (solver_number word.now) ≡ Some cause) }
{
    let Some(number) = read_solver_number(word) else {
        return Err(LratCause::BadNumber);
    };
    match number.magnitude {
        Some(0) => Ok(None),
        Some(id) if id <= MAX_ID => {
            let hint = id as i64;
            if number.is_negative {
                Ok(Some(-hint))
            } else {
                Ok(Some(hint))
            }
        }
        _ => Err(LratCause::BadNumber),
    }
}

/// The literal that the word writes, or nothing if it writes 0.
pub fn read_literal(word: &[u8]) -> Result<Option<Lit>, LratCause>
    ensures { MatchResult result
        (λ found. MatchOption found (solver_number word.now ≡ Some (pos 0)) (λ literal. (solver_number word.now ≡ Some literal) × IsTrue (is_literal literal)))
        (λ cause. literal_fault (solver_number word.now) ≡ Some cause) }
{
    let Some(number) = read_solver_number(word) else {
        return Err(LratCause::BadNumber);
    };
    match number.magnitude {
        Some(0) => Ok(None),
        Some(variable) if variable <= u64::from(MAX_VARIABLE) => {
            Ok(Some(Lit::signed(variable as u32, number.is_negative)))
        }
        _ => Err(LratCause::BadNumber),
    }
}
