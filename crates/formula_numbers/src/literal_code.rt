//! Literals and variables by their numbers, each kind with a type of its own.

/// The number of a variable of a formula, from 1.
#[derive(Clone, Copy, PartialEq, Eq)]
pub struct Variable {
    number: u32,
}

/// A literal as a place in tables: twice its variable, plus one if it is negative. Only this type takes a code apart.
#[derive(Clone, Copy, PartialEq, Eq)]
pub struct LiteralCode {
    code: u32,
}

// No variable is 0, so two codes are free for constants.

/// A literal that is never true. It fills up clauses of fewer literals.
pub const NEVER: LiteralCode = LiteralCode { code: 0 };

/// A literal that is always true: the negation of the one that is never true.
pub const ALWAYS: LiteralCode = LiteralCode { code: 1 };

impl Variable {
    /// No variable.
    pub const NONE: Variable = Variable { number: 0 };

    /// The variable of this number.
    #[inline(always)]
    pub fn new(number: u32) -> Variable {
        Variable { number }
    }

    /// Its number.
    #[inline(always)]
    pub fn number(self) -> u32 {
        self.number
    }

    /// The variable behind this one.
    #[inline(always)]
    pub fn next(self) -> Variable {
        Variable::new(self.number.wrapping_add(1))
    }

    /// The literal that is true if the variable is.
    #[inline(always)]
    pub fn positive(self) -> LiteralCode {
        LiteralCode::new(self.number.wrapping_mul(2))
    }

    /// The literal that is true if the variable is false.
    #[inline(always)]
    pub fn negative(self) -> LiteralCode {
        LiteralCode::new(self.number.wrapping_mul(2) | 1)
    }
}

impl LiteralCode {
    /// The literal of this code.
    #[inline(always)]
    pub fn new(code: u32) -> LiteralCode {
        LiteralCode { code }
    }

    /// The literal of this variable and this sign.
    #[inline(always)]
    pub fn of(variable: Variable, is_positive: bool) -> LiteralCode {
        if is_positive {
            variable.positive()
        } else {
            variable.negative()
        }
    }

    /// The number of literals over this many variables, those that are constants among them.
    #[inline(always)]
    pub fn count_over(variables: u32) -> u32 {
        variables.wrapping_mul(2).wrapping_add(2)
    }

    /// Its code, a place in tables.
    #[inline(always)]
    pub fn code(self) -> u32 {
        self.code
    }

    /// Its variable.
    #[inline(always)]
    pub fn variable(self) -> Variable {
        Variable::new(self.code >> 1)
    }

    /// Its negation.
    #[inline(always)]
    pub fn negated(self) -> LiteralCode {
        LiteralCode::new(self.code ^ 1)
    }

    /// Returns whether it says that its variable is true.
    #[inline(always)]
    pub fn is_positive(self) -> bool {
        self.code & 1 == 0
    }
}
