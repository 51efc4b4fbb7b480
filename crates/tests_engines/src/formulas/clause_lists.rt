//! Lists of clauses, however they are kept: what the calls answer.

use crate::expectations::{ample, expect};
use crate::traces::{HAND_OFF, STORE_BUFFERING, THREE_WRITERS, reduced_of};
use clause_blocks::formula::formula;
use clause_blocks::trace_clauses::TraceClauses;
use cnf_text::read_cnf;
use dimacs::{Assignment, Clause, ClauseList, FirstFalse, Formula, ListedClause, Lit};
use std::alloc::Global;
use std::process::Abort;

/// A formula that is evaluated clause by clause, as a list that writes no `eval` of its own is.
#[derive(Drop)]
struct PlainList {
    formula: Formula,
}

impl ClauseList for PlainList {
    ghost formula = { λ list. list.formula };

    fn variables(&self) -> u32 {
        self.formula.variables()
    }

    fn count(&self) -> usize {
        self.formula.clauses().len()
    }

    fn clause(&self, place: usize) -> ListedClause<'_> {
        ListedClause::lent(&self.formula.clauses()[place])
    }

    fn recall_invariant(&self) {
        self.formula.recall_invariant();
    }
}

/// The number of the first clause that the truth values of the variables 1, 2 and so on make false, or 0.
fn first_false<F: ClauseList>(rt: &impl Abort, alloc: Global, list: &F, values: &[bool]) -> usize {
    let assignment = Assignment::new(ample(rt, Vec::from_slice(alloc, values)));
    match list.eval(&assignment) {
        Ok(()) => 0,
        Err(FirstFalse { clause }) => clause,
    }
}

/// Asserts what a list of the two clauses of the hand-off answers.
fn assert_answers<F: ClauseList>(rt: &impl Abort, alloc: Global, list: &F) {
    list.recall_invariant();
    assert!(rt; list.variables() == 2 && list.count() == 2);
    assert!(rt; first_false(rt, alloc, list, &[true, true]) == 0);
    assert!(rt; first_false(rt, alloc, list, &[false, true]) == 2);
    assert!(rt; first_false(rt, alloc, list, &[true, false]) == 1);
    assert!(rt; first_false(rt, alloc, list, &[]) == 1);
}

#[test]
fn answers_however_it_is_kept(rt: HostRuntime) {
    let reduced = reduced_of(&rt, rt.alloc(), HAND_OFF);
    let clauses = ample(&rt, TraceClauses::of(rt.alloc(), &reduced));
    assert_answers(&rt, rt.alloc(), &clauses);
    for workers in [1, 2, 8] {
        let formula = ample(&rt, formula(rt.alloc(), &rt, &reduced, workers));
        assert_answers(&rt, rt.alloc(), &formula);
        assert_answers(&rt, rt.alloc(), &PlainList { formula });
    }
}

/// The clauses of store buffering. Its four operations have the order variables 1 to 6, and its two reads 7 and 8.
const STORE_BUFFERING_CLAUSES: &str =
    "p cnf 8 14\n1 0\n6 0\n-1 -4 2 0\n1 4 -2 0\n-1 -5 3 0\n1 5 -3 0\n-2 -6 3 0\n2 6 -3 0\n-4 -6 5 0\n4 6 -5 0\n7 0\n-7 4 0\n8 0\n-8 -3 0\n";

/// Returns whether the list has this clause at this place.
fn has_clause(list: &TraceClauses, place: usize, clause: &Clause) -> bool {
    place < list.count() && list.clause(place).as_slice() == clause.as_slice()
}

#[test]
fn gives_each_clause_of_a_trace_by_its_number(rt: HostRuntime) {
    let reduced = reduced_of(&rt, rt.alloc(), STORE_BUFFERING);
    let list = ample(&rt, TraceClauses::of(rt.alloc(), &reduced));
    let wanted = ample(
        &rt,
        read_cnf(rt.alloc(), STORE_BUFFERING_CLAUSES.as_bytes()),
    );
    let clauses = wanted.clauses();
    assert!(rt; list.variables() == 8 && list.count() == clauses.len());
    for place in 0..clauses.len() {
        let is_right = has_clause(&list, place, &clauses[place]);
        expect(&rt, is_right, place);
    }
}

/// Returns whether these are the same clauses in the same order.
fn are_same(left: &[Clause], right: &[Clause]) -> bool {
    if left.len() != right.len() {
        return false;
    }
    for place in 0..left.len() {
        if left[place].as_slice() != right[place].as_slice() {
            return false;
        }
    }
    true
}

#[test]
fn makes_the_same_clauses_with_more_workers(rt: HostRuntime) {
    for text in &[HAND_OFF, STORE_BUFFERING, THREE_WRITERS] {
        let reduced = reduced_of(&rt, rt.alloc(), text);
        let alone = ample(&rt, formula(rt.alloc(), &rt, &reduced, 1));
        for workers in [2, 8] {
            let made = ample(&rt, formula(rt.alloc(), &rt, &reduced, workers));
            assert!(rt; made.variables() == alone.variables());
            assert!(rt;
                are_same(made.clauses(), alone.clauses()),
                "with {workers} workers"
            );
        }
    }
}

/// Returns whether these are the literals of the clause.
fn is_of(clause: ListedClause<'_>, literals: &[Lit]) -> bool {
    clause.as_slice() == literals
}

#[test]
fn makes_clauses_without_memory(rt: HostRuntime) {
    let [first, second, third] = [
        Lit::positive(7),
        Lit::positive(9).negated(),
        Lit::positive(8),
    ];
    assert!(rt; is_of(ListedClause::unit(first), &[first]));
    assert!(rt; is_of(ListedClause::binary(first, second), &[first, second]));
    let made = ListedClause::ternary(first, second, third);
    assert!(rt; is_of(made, &[first, second, third]));
    let clause = Clause::ternary(rt.alloc(), third, second, first);
    assert!(rt; is_of(ListedClause::lent(&clause), &[third, second, first]));
}
