//! Lists of clauses, however they are kept.
ghost use Rattle.std.specs.Prelude.{◌≡◌, ◌<◌, ◌↔◌, [], length, slice_index_or, IsTrue, IsOk, IfErr};
ghost use Rattle.std.specs.List.{list_all};
ghost use Rattle.dimacs.specs.Formula.{FormulaValue, is_formula};
ghost use Rattle.dimacs.specs.Literal.{is_clause};
ghost use Rattle.dimacs.specs.Assignment.{value_of};
ghost use Rattle.dimacs.specs.Models.{IsModel, IsFirstFalse};

use crate::assignment::Assignment;
use crate::formula::{FirstFalse, Formula};
use crate::listed_clause::ListedClause;

/// A formula that is seen by its clauses: stored ones, or ones that are made when they are asked for. An evaluation, a
/// check or a search needs no more of it, so large formulas need not be stored.
pub trait ClauseList {
    /// The number of variables, and the clauses in their order.
    ghost formula: { Self → FormulaValue };

    /// The number of variables.
    fn variables(&self) -> u32
        ensures { result ≡ (formula self.now).variables };

    /// The number of clauses.
    fn count(&self) -> usize
        ensures { result ≡ length (formula self.now).clauses };

    /// The clause at this place, counted from 0.
    fn clause(&self, place: usize) -> ListedClause<'_>
        requires { place < length (formula self.now).clauses }
        ensures { result ≡ slice_index_or (formula self.now).clauses place [] };

    /// Hands its caller, in proofs alone, what each formula keeps: its clauses are over its variables, and each of them is a clause of
    /// literals. Does nothing when run.
    fn recall_invariant(&self)
        ensures formula { IsTrue (is_formula (formula self.now)) }
        ensures clauses { IsTrue (list_all is_clause (formula self.now).clauses) };

    /// Checks whether the assignment is a model: it makes a literal of each clause true. If not, the first clause of which
    /// it makes none true.
    fn eval(&self, assignment: &Assignment) -> Result<(), FirstFalse>
        ensures model { IsOk result ↔ IsModel (value_of assignment.now) (formula self.now).clauses }
        ensures first { IfErr result (λ found. IsFirstFalse (value_of assignment.now) (formula self.now).clauses found.clause) }
    {
        for place in 0..self.count() {
            if !assignment.satisfies(self.clause(place).as_slice()) {
                return Err(FirstFalse { clause: place + 1 });
            }
        }
        Ok(())
    }
}

impl ClauseList for Formula {
    ghost formula = { λ formula. formula };

    fn variables(&self) -> u32 {
        Formula::variables(self)
    }

    fn count(&self) -> usize {
        self.clauses().len()
    }

    fn clause(&self, place: usize) -> ListedClause<'_> {
        ListedClause::lent(&self.clauses()[place])
    }

    fn recall_invariant(&self) {
        Formula::recall_invariant(self)
    }

    fn eval(&self, assignment: &Assignment) -> Result<(), FirstFalse> {
        Formula::eval(self, assignment)
    }
}
