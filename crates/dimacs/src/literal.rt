//! Literals: a variable or its negation.
ghost use Rattle.std.specs.Prelude.{◌≡◌, ◌≤◌, ◌↔◌, ℕ, pos, neg_ℤ, nat_abs, Bool, not, IsTrue, IsSome, if◌then◌else◌, IfSome};
ghost use Rattle.std.specs.Int.{is_positive};
ghost use Rattle.dimacs.specs.Assignment.{makes_true};
ghost use Rattle.dimacs.specs.Literal.{is_literal, is_literal_up_to};

use std::marker::Model;

/// The largest number of a variable, 2^22. So numbers of literals fit `i32`, and negation never overflows.
pub const MAX_VARIABLE: u32 = 4_194_304;

/// A variable or its negation, as DIMACS numbers it: the variable's number, or the negative of that.
#[derive(Clone, Copy, PartialEq, Eq)]
pub struct Lit {
    number: i32,
}

impl Model for Lit {
    ghost use Rattle.std.specs.Prelude.{ℤ, IsTrue};
    ghost use Rattle.dimacs.specs.Literal.{is_literal};

    ghost Value = { ℤ };

    ghost view = { λ literal. literal.number };

    ghost invariant = { λ literal. IsTrue (is_literal literal.number) };

    ghost inverse = { λ z. record { number = z } };
}

impl Lit {
    /// The literal of this number, if it is one.
    pub fn new(number: i32) -> Option<Lit>
        ensures literal { IsSome result ↔ IsTrue (is_literal number) }
        ensures number { IfSome result (λ literal. literal ≡ number) }
    {
        if number == 0 || number.unsigned_abs() > MAX_VARIABLE {
            return None;
        }
        Some(Lit { number })
    }

    /// The literal that says that the variable is true.
    pub fn positive(variable: u32) -> Lit
        requires first { 1 ≤ variable }
        requires last { variable ≤ MAX_VARIABLE }
        ensures { result ≡ pos variable }
    {
        Lit {
            number: variable as i32,
        }
    }

    /// The literal that says that the variable is true, or, with a minus, that it is false.
    #[inline(always)]
    pub fn signed(variable: u32, is_negative: bool) -> Lit
        requires first { 1 ≤ variable }
        requires last { variable ≤ MAX_VARIABLE }
        ensures { result ≡ (if is_negative then neg_ℤ (pos variable) else pos variable) }
    {
        let literal = Lit::positive(variable);
        if is_negative {
            literal.negated()
        } else {
            literal
        }
    }

    /// The opposite literal, of the same variable.
    pub fn negated(self) -> Lit
        ensures number { result ≡ neg_ℤ self }
        ensures opposite { (value : ℕ → Bool) → makes_true value result ≡ not (makes_true value self) }
    {
        Lit {
            number: -self.number,
        }
    }

    /// Its number, never 0.
    pub fn number(self) -> i32
        ensures number { result ≡ self }
        ensures literal { IsTrue (is_literal result) }
    {
        self.number
    }

    /// Its variable.
    pub fn variable(self) -> u32
        ensures number { result ≡ nat_abs self }
        ensures first { 1 ≤ result }
        ensures last { result ≤ MAX_VARIABLE }
    {
        self.number.unsigned_abs()
    }

    /// Returns whether its variable is among 1 to that.
    pub fn is_over(self, variables: u32) -> bool
        ensures { result ≡ is_literal_up_to variables self }
    {
        self.variable() <= variables
    }

    /// Returns whether it says that its variable is true.
    pub fn is_positive(self) -> bool
        ensures { result ≡ is_positive self }
    {
        self.number > 0
    }
}

impl Default for Lit {
    ghost is_default = { λ literal. literal ≡ pos 1 };

    fn default() -> Lit {
        // 0 is no literal, so a default must be another; it fills places of arrays
        Lit { number: 1 }
    }
}
