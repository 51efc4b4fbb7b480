//! The words of a formula's text as literals and as ends of clauses.

ghost use Rattle.std.specs.Prelude.{◌≡◌, ◌≤◌, ℤ, pos, true, Some, None, MatchResult, MatchOption};
ghost use Rattle.text_lines.specs.Numbers.{solver_number};
ghost use Rattle.cnf_text.specs.CnfReading.{number_fault};
ghost use Rattle.dimacs.specs.Literal.{is_literal_up_to};

use crate::cnf_fault::CnfCause;
use dimacs::{Lit, MAX_VARIABLE};
use text_lines::numbers::read_solver_number;

/// The literal that the word writes; nothing if it writes 0.
pub(crate) fn read_literal(word: &[u8], variables: u32) -> Result<Option<Lit>, CnfCause>
    requires { variables ≤ MAX_VARIABLE }
    ensures { MatchResult result
        (λ found. MatchOption found (solver_number word.now ≡ Some (pos 0)) (λ literal. (solver_number word.now ≡ Some literal) × (is_literal_up_to variables literal ≡ true)))
        (λ cause. number_fault variables word.now ≡ Some cause) }
{
    let Some(number) = read_solver_number(word) else {
        return Err(CnfCause::BadNumber);
    };
    // no magnitude: it is 2^64 or more
    let Some(variable) = number.magnitude else {
        return Err(CnfCause::VariableTooLarge);
    };
    if variable > u64::from(variables) {
        return Err(CnfCause::VariableTooLarge);
    }
    if variable == 0 {
        return Ok(None);
    }
    Ok(Some(Lit::signed(variable as u32, number.is_negative)))
}
