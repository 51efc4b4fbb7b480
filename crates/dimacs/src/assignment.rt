//! Assignments: a truth value for each variable.
ghost use Rattle.std.specs.Prelude.{◌≡◌, IfOk};
ghost use Rattle.dimacs.specs.Assignment.{value_of, makes_true, makes_all, makes_some};

use crate::literal::Lit;
use std::alloc::{AllocError, Global};
use std::marker::Model;

/// A truth value for each variable: those of 1, 2 and so on, and false past its end.
pub struct Assignment {
    /// Element k is the value of the variable k + 1.
    values: Vec<bool>,
}

/// Drops the values in one call. A derived `Drop` would drop each at every exit of a function that owns an assignment, which makes its proof longer.
impl Drop for Assignment {
    fn drop(self) {
        let Assignment { values: _values } = self;
    }
}

impl Model for Assignment {
    ghost use Rattle.std.specs.Prelude.{List, Bool};

    ghost Value = { List Bool };

    ghost view = { λ assignment. assignment.values.items };
}

impl Assignment {
    /// The assignment of these values to the variables 1, 2 and so on.
    pub fn new(values: Vec<bool>) -> Assignment
        ensures { result ≡ values.items }
    {
        Assignment { values }
    }

    /// A copy of it.
    pub fn copied(&self, alloc: Global) -> Result<Assignment, AllocError>
        ensures { IfOk result (λ copy. copy ≡ self.now) }
    {
        Ok(Assignment {
            values: Vec::from_slice(alloc, self.values.as_slice())?,
        })
    }

    /// The values of the variables 1, 2 and so on.
    pub fn into_values(self) -> Vec<bool>
        ensures { result.items ≡ self }
    {
        let Self { values } = self;
        values
    }

    /// The value of the variable.
    pub fn value(&self, variable: u32) -> bool
        ensures { result ≡ value_of self.now variable }
    {
        let place = variable as usize;
        1 <= place && place <= self.values.len() && self.values[place - 1]
    }

    /// Returns whether it makes the literal true.
    fn makes_one(&self, literal: Lit) -> bool
        ensures { result ≡ makes_true (value_of self.now) literal }
    {
        self.value(literal.variable()) == literal.is_positive()
    }

    /// Returns whether it makes all of the literals true.
    pub fn makes(&self, literals: &[Lit]) -> bool
        ensures { result ≡ makes_all (value_of self.now) literals.now }
    {
        literals.iter().all(|literal| self.makes_one(*literal))
    }

    /// Returns whether it makes one of the literals true.
    pub fn satisfies(&self, clause: &[Lit]) -> bool
        ensures { result ≡ makes_some (value_of self.now) clause.now }
    {
        clause.iter().any(|literal| self.makes_one(*literal))
    }
}
