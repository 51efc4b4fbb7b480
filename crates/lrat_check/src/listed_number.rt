//! Numbers of lists on a line of a derivation: literals, hints and ids. A 0 ends each list.

ghost use Rattle.std.specs.Prelude.{◌≡◌, ℤ, Bool, Option, pos, true, false, Some, None, map, IfOk, MatchOption, MatchResult};
ghost use Rattle.lrat_check.specs.LratFaults.{is_zero};
ghost use Rattle.lrat_check.specs.ShortNumbers.{ReadsOn};
ghost use Rattle.lrat_check.specs.declared.lrat_fault.LratCause.{LratCause};
ghost use Rattle.text_lines.specs.Numbers.{solver_number};

use crate::lrat_fault::LratCause;
use crate::lrat_number::{read_hint, read_id, read_literal};
use crate::short_numbers::{push_short_hints, push_short_ids, push_short_literals};
use dimacs::Lit;
use std::alloc::AllocError;

/// A number of such a list.
pub(crate) trait ListedNumber: Copy {
    /// What is wrong with a word that has to be such a number or 0.
    ghost fault: { Option ℤ → Option LratCause };

    /// Whether an integer is such a number.
    ghost passes: { ℤ → Bool };

    /// The integer that it is.
    ghost number: { Self → ℤ };

    /// Gives its caller, in proofs alone, that `fault` finds nothing wrong with such a number or with 0, and that such a number is not 0. `read_list`
    /// is for all kinds of numbers, and knows of `fault`, `passes` and `number` only what this trait says. Does nothing when run.
    fn recall_right()
        ensures listed { (listed : Self) → passes (number listed) ≡ true → (fault (Some (number listed)) ≡ None) × (is_zero (Some (number listed)) ≡ false) }
        ensures zero { fault (Some (pos 0)) ≡ None };

    /// The number that the word writes, or nothing if it writes 0.
    fn read(word: &[u8]) -> Result<Option<Self>, LratCause>
        ensures { MatchResult result
            (λ found. MatchOption found (solver_number word.now ≡ Some (pos 0)) (λ listed. (solver_number word.now ≡ Some (number listed)) × (passes (number listed) ≡ true)))
            (λ cause. fault (solver_number word.now) ≡ Some cause) };

    /// Adds the numbers that are short at the front of the line, up to a 0 or another word. Gives what follows, from the 0 or that word on.
    fn push_short<'x>(numbers: &mut Vec<Self>, line: &'x [u8]) -> Result<&'x [u8], AllocError>
        ensures { IfOk result (λ rest. ReadsOn fault passes (map number numbers.old.items) line.now (map number numbers.new.items) rest.now) };
}

/// The id of a clause.
impl ListedNumber for u64 {
    ghost use Rattle.std.specs.Prelude.{pos};
    ghost use Rattle.lrat_check.specs.LratFaults.{id_fault};
    ghost use Rattle.lrat_check.specs.LratText.{is_id_number};

    ghost fault = { id_fault };

    ghost passes = { is_id_number };

    ghost number = { λ id. pos id };

    fn recall_right() {}

    fn read(word: &[u8]) -> Result<Option<u64>, LratCause> {
        match read_id(word) {
            Ok(id) => {
                if id == 0 {
                    return Ok(None);
                }
                Ok(Some(id))
            }
            Err(cause) => Err(cause),
        }
    }

    #[inline(always)]
    fn push_short<'x>(ids: &mut Vec<u64>, line: &'x [u8]) -> Result<&'x [u8], AllocError> {
        push_short_ids(ids, line)
    }
}

/// A hint.
impl ListedNumber for i64 {
    ghost use Rattle.lrat_check.specs.LratFaults.{hint_fault};
    ghost use Rattle.lrat_check.specs.LratText.{is_id_number};

    ghost fault = { hint_fault };

    ghost passes = { is_id_number };

    ghost number = { λ hint. hint };

    fn recall_right() {}

    fn read(word: &[u8]) -> Result<Option<i64>, LratCause> {
        read_hint(word)
    }

    #[inline(always)]
    fn push_short<'x>(hints: &mut Vec<i64>, line: &'x [u8]) -> Result<&'x [u8], AllocError> {
        push_short_hints(hints, line)
    }
}

impl ListedNumber for Lit {
    ghost use Rattle.dimacs.specs.Literal.{is_literal};
    ghost use Rattle.lrat_check.specs.LratFaults.{literal_fault};

    ghost fault = { literal_fault };

    ghost passes = { is_literal };

    ghost number = { λ literal. literal };

    fn recall_right() {}

    fn read(word: &[u8]) -> Result<Option<Lit>, LratCause> {
        read_literal(word)
    }

    #[inline(always)]
    fn push_short<'x>(literals: &mut Vec<Lit>, line: &'x [u8]) -> Result<&'x [u8], AllocError> {
        push_short_literals(literals, line)
    }
}
