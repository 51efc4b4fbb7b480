//! Literals of formulas as codes, and back.

use dimacs::Lit;
pub use formula_numbers::{ALWAYS, LiteralCode, NEVER, Variable};

/// Returns the code of the literal.
#[inline(always)]
pub fn code_of(literal: Lit) -> LiteralCode {
    LiteralCode::of(Variable::new(literal.variable()), literal.is_positive())
}

/// Returns the literal of the code. The codes of the two constants are of no variable and would give literals of the variable 1, so callers leave them
/// out before.
pub fn literal_of(code: LiteralCode) -> Lit {
    let number = i32::try_from(code.variable().number()).unwrap_or(0);
    let literal = Lit::new(number).unwrap_or_default();
    if code.is_positive() {
        literal
    } else {
        literal.negated()
    }
}
