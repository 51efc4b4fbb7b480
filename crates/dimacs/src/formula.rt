//! Formulas in conjunctive normal form.
ghost use Rattle.std.specs.Prelude.{◌≡◌, ◌↔◌, not, position, IsTrue, IsOk, IfErr};
ghost use Rattle.std.specs.List.{list_all};
ghost use Rattle.dimacs.specs.Formula.{is_formula};
ghost use Rattle.dimacs.specs.Literal.{is_clause};
ghost use Rattle.dimacs.specs.Assignment.{value_of, makes_some};
ghost use Rattle.dimacs.specs.Models.{IsModel, IsFirstFalse};

use crate::assignment::Assignment;
use crate::clause::Clause;
use std::marker::Model;

/// A number of variables, and clauses over them.
#[derive(Drop)]
pub struct Formula {
    variables: u32,
    clauses: Vec<Clause>,
}

impl Model for Formula {
    ghost use Rattle.std.specs.Prelude.{IsTrue};
    ghost use Rattle.dimacs.specs.Formula.{FormulaValue, is_formula};

    ghost Value = { FormulaValue };

    ghost view = { λ f. record { variables = f.variables; clauses = f.clauses.items } };

    ghost invariant = { λ f. IsTrue (is_formula (record { variables = f.variables; clauses = f.clauses.items })) };
}

/// The first clause that an assignment makes false.
#[derive(Clone, Copy, PartialEq, Eq)]
pub struct FirstFalse {
    /// Its number in the formula, counted from 1.
    pub clause: usize,
}

/// The first clause of which the assignment makes no literal true, counted from 0. `FirstFalse` counts from 1.
pub fn first_false(clauses: &[Clause], assignment: &Assignment) -> Option<usize>
    ensures { result ≡ position (λ clause. not (makes_some (value_of assignment.now) clause)) clauses.now }
{
    clauses
        .iter()
        .position(|clause| !assignment.satisfies(clause.as_slice()))
}

/// Hands its caller, in proofs alone, what clauses keep: each is a clause of literals. Does nothing when run.
fn recall_clauses(clauses: &[Clause])
    ensures { IsTrue (list_all is_clause clauses.now) }
{
    for clause in clauses {
        let _literals = clause.as_slice();
    }
}

impl Formula {
    /// Returns whether the clauses are over the variables 1 to that, as `new` asks.
    pub fn fits(variables: u32, clauses: &[Clause]) -> bool
        ensures { result ≡ is_formula (record { variables = variables; clauses = clauses.now }) }
    {
        clauses.iter().all(|clause| clause.is_over(variables))
    }

    /// The formula of these clauses over the variables 1 to that.
    pub fn new(variables: u32, clauses: Vec<Clause>) -> Formula
        requires { IsTrue (is_formula (record { variables = variables; clauses = clauses.items })) }
        ensures { result ≡ record { variables = variables; clauses = clauses.items } }
    {
        Formula { variables, clauses }
    }

    /// Hands its caller, in proofs alone, what each formula keeps: its clauses are over its variables, and each of them is a clause of
    /// literals. Does nothing when run.
    pub fn recall_invariant(&self)
        ensures formula { IsTrue (is_formula self.now) }
        ensures clauses { IsTrue (list_all is_clause self.now.clauses) }
    {
        recall_clauses(self.clauses.as_slice());
    }

    /// The number of variables.
    pub fn variables(&self) -> u32
        ensures { result ≡ self.now.variables }
    {
        self.variables
    }

    /// Its clauses, in order.
    pub fn clauses(&self) -> &[Clause]
        ensures { result.now ≡ self.now.clauses }
    {
        self.clauses.as_slice()
    }

    /// Consumes the formula and returns its clauses in order.
    pub fn into_clauses(self) -> Vec<Clause>
        ensures { result.items ≡ self.clauses }
    {
        let Formula { clauses, .. } = self;
        clauses
    }

    /// Checks whether the assignment is a model: it makes a literal of each clause true. If not, the first clause of which
    /// it makes none true.
    pub fn eval(&self, assignment: &Assignment) -> Result<(), FirstFalse>
        ensures model { IsOk result ↔ IsModel (value_of assignment.now) self.now.clauses }
        ensures first { IfErr result (λ found. IsFirstFalse (value_of assignment.now) self.now.clauses found.clause) }
    {
        match first_false(self.clauses.as_slice(), assignment) {
            Some(before) => Err(FirstFalse { clause: before + 1 }),
            None => Ok(()),
        }
    }
}
