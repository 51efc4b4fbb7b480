//! The clause list of a reduced trace as a formula that is seen by its clauses.
//!
//! A piece of the list is stored clauses, or the clauses of transitivity of one lowest operation. Those of transitivity are almost all, so they are not stored:
//! each is made by its place when it is asked for.

ghost use Rattle.std.specs.Prelude.{◌≡◌, ◌<◌, [], length, slice_index_or, IsTrue, OnOk, IfErr};
ghost use Rattle.dimacs.specs.Assignment.{value_of};
ghost use Rattle.dimacs.specs.Models.{IsModel, IsFirstFalse};
ghost use Rattle.trace_semantics.specs.Trace.{operation_count};
ghost use Rattle.clause_blocks.specs.Blocks as blocks;
ghost use Rattle.clause_blocks.specs.Pieces.{clauses_in};
ghost use Rattle.clause_blocks.specs.Triples.{clause_of_triple};

use crate::laws::{clauses_are_clauses, few_clauses, formula_is_over_its_variables};
use crate::pieces::Piece;
use crate::ranks::puts_in_order;
use crate::trace_clauses::TraceClauses;
use crate::transitivity::count_transitivity_from;
use crate::triple_table::Triple;
use dimacs::{Assignment, Clause, ClauseList, FirstFalse, ListedClause, first_false};
use var_layout::layout::Layout;

/// The clause of transitivity that a triple stands for: the first says that the lowest stands before the highest if it stands before the
/// middle one and that before the highest; the second says the same with all three orders turned round.
fn cycle_clause<'a>(layout: &Layout, triple: Triple) -> ListedClause<'a>
    requires first { triple.lowest < triple.middle }
    requires second { triple.middle < triple.highest }
    requires within { triple.highest < operation_count layout.now }
    ensures { result ≡ clause_of_triple (operation_count layout.now) triple }
{
    let first = layout.order_lit(triple.lowest, triple.middle);
    let second = layout.order_lit(triple.middle, triple.highest);
    let across = layout.order_lit(triple.lowest, triple.highest);
    if triple.is_second {
        ListedClause::ternary(first, second, across.negated())
    } else {
        ListedClause::ternary(first.negated(), second.negated(), across)
    }
}

/// Checks whether the assignment makes these clauses true. If not, the error is the first one that it makes false, counted from 1.
fn eval_stored(stored: &[Clause], assignment: &Assignment) -> Result<(), FirstFalse>
    ensures model { OnOk result (IsModel (value_of assignment.now) stored.now) }
    ensures first { IfErr result (λ found. IsFirstFalse (value_of assignment.now) stored.now found.clause) }
{
    match first_false(stored, assignment) {
        Some(place) => Err(FirstFalse { clause: place + 1 }),
        None => Ok(()),
    }
}

impl TraceClauses {
    /// The clause at this place of those of which i is the lowest operation of three, counted from 0.
    fn clause_from(&self, i: usize, place: usize) -> ListedClause<'_>
        requires { place < length (blocks.transitivity_from (operation_count self.now) i) }
        ensures { result ≡ slice_index_or (blocks.transitivity_from (operation_count self.now) i) place [] }
    {
        cycle_clause(self.layout(), self.triples().triple(i, place))
    }

    /// The clause at this place of a piece, counted from 0.
    fn clause_in<'a>(&'a self, piece: Piece<'a>, place: usize) -> ListedClause<'a>
        requires { place < length (clauses_in (operation_count self.now) piece) }
        ensures { result ≡ slice_index_or (clauses_in (operation_count self.now) piece.entry) place [] }
    {
        match piece {
            Piece::Stored(clauses) => ListedClause::lent(&clauses[place]),
            Piece::TransitivityFrom(i) => self.clause_from(i, place),
        }
    }

    /// Checks whether the assignment makes the clauses true of which i is the lowest operation of three. If not, the first one that it
    /// makes false.
    fn eval_from(&self, i: usize, assignment: &Assignment) -> Result<(), FirstFalse>
        ensures model { OnOk result (IsModel (value_of assignment.now) (blocks.transitivity_from (operation_count self.now) i)) }
        ensures first { IfErr result (λ found. IsFirstFalse (value_of assignment.now) (blocks.transitivity_from (operation_count self.now) i) found.clause) }
    {
        self.recall_limits();
        for place in 0..count_transitivity_from(self.layout().operations(), i) {
            if !assignment.satisfies(self.clause_from(i, place).as_slice()) {
                return Err(FirstFalse { clause: place + 1 });
            }
        }
        Ok(())
    }

    /// Checks whether the assignment makes the clauses of a piece true. If not, the first of them that it makes false. If it puts the
    /// operations in an order, those of transitivity are not evaluated, since they are true then.
    fn eval_piece(
        &self,
        piece: Piece<'_>,
        in_order: bool,
        assignment: &Assignment,
    ) -> Result<(), FirstFalse>
        requires { IsTrue in_order → IsModel (value_of assignment.now) (blocks.transitivity (operation_count self.now)) }
        ensures model { OnOk result (IsModel (value_of assignment.now) (clauses_in (operation_count self.now) piece.entry)) }
        ensures first { IfErr result (λ found. IsFirstFalse (value_of assignment.now) (clauses_in (operation_count self.now) piece.entry) found.clause) }
    {
        match piece {
            Piece::Stored(stored) => eval_stored(stored, assignment),
            Piece::TransitivityFrom(_) if in_order => Ok(()),
            Piece::TransitivityFrom(i) => self.eval_from(i, assignment),
        }
    }
}

impl ClauseList for TraceClauses {
    ghost use Rattle.clause_blocks.specs.Clauses.{formula_of};

    ghost formula = { λ clauses. formula_of clauses };

    fn variables(&self) -> u32 {
        self.layout().count()
    }

    fn count(&self) -> usize {
        self.clause_count()
    }

    fn clause(&self, place: usize) -> ListedClause<'_> {
        let k = self.piece_at(place);
        self.clause_in(self.piece(k), place - self.start(k))
    }

    /// Transitivity is evaluated clause by clause only if the assignment does not put the operations in an order.
    fn eval(&self, assignment: &Assignment) -> Result<(), FirstFalse> {
        self.recall_limits();
        few_clauses();
        let in_order = puts_in_order(self.layout(), assignment);
        for k in 0..self.pieces() {
            if let Err(found) = self.eval_piece(self.piece(k), in_order, assignment) {
                return Err(FirstFalse {
                    clause: self.start(k) + found.clause,
                });
            }
        }
        Ok(())
    }

    fn recall_invariant(&self) {
        self.recall_limits();
        formula_is_over_its_variables();
        clauses_are_clauses();
    }
}
