//! Hints about the structure of an encoding.

use crate::reads_from::{ReadsFromTable, ReadsFromVariable};
use order_sets::{Element, MAX_ELEMENTS, pair_count, transitivity_count, variable_of_pair};
use proof_log::ClauseId;
use proof_log::codes::Variable;
use total_tables::size;

/// Hints of the caller of `solve` about the formula: which of its clauses are the transitivity of an order.
///
/// The order is of elements 0 to n - 1. Its variables are `y(i,j) = i * (2n - i - 1) / 2 + (j - i)` for i below j, which says
/// that i stands before j. Its clauses are `-y(i,j) -y(j,k) y(i,k)` and then `y(i,j) y(j,k) -y(i,k)`, for all i below j below k in
/// lexicographic order, and stand one after the other. They are never read, since they are 98 of 100 clauses of a trace: the
/// search keeps the order as sets of bits, and names the clauses by arithmetic.
///
/// Untrusted: wrong hints make the search take other clauses for these, so that it may answer with a model that is none or a derivation
/// that the checker refuses, as any faulty solver may. An error here can only slow the search down: the caller evaluates the model or
/// checks the derivation, and no contract rests on the hints.
#[derive(Clone, Copy)]
pub struct EncodingHints<'a> {
    /// The number of elements of the order; 0 if there are no hints.
    elements: u32,
    /// The id of the first transitivity clause, counted from 1. Without hints it is 1: the loader then passes over no clause.
    first: ClauseId,
    reads_from: Option<&'a ReadsFromTable>,
}

impl<'a> EncodingHints<'a> {
    /// Returns no hints.
    pub fn none() -> EncodingHints<'a> {
        EncodingHints {
            elements: 0,
            first: ClauseId::new(1),
            reads_from: None,
        }
    }

    /// Hints that the formula has the transitivity clauses of an order of this many events, from this id on, counted from 1. Returns no
    /// hints unless there are 3 to 192 events: sets of bits have room for 192, and below 3 there are no such clauses.
    pub fn with_order(elements: u32, first: ClauseId) -> EncodingHints<'a> {
        if elements < 3 || elements > MAX_ELEMENTS {
            return EncodingHints::none();
        }
        EncodingHints {
            elements,
            first,
            reads_from: None,
        }
    }

    /// Adds hints about reads-from variables. They are ignored if they are of another number of events.
    pub fn with_reads_from(self, reads_from: &'a ReadsFromTable) -> EncodingHints<'a> {
        if reads_from.elements() != self.elements {
            return self;
        }
        EncodingHints {
            reads_from: Some(reads_from),
            ..self
        }
    }

    /// Returns those hints that fit a formula of this many variables and clauses. Others would name what the formula does not have; they are
    /// dropped here once, so that no search looks for that.
    pub fn fitting(self, variables: u32, clauses: usize) -> EncodingHints<'a> {
        let pairs = pair_count(self.elements);
        if pairs > variables
            || self.first == ClauseId::NONE
            || self.end_id().number() as usize > clauses.saturating_add(1)
        {
            return EncodingHints::none();
        }
        let last = pairs.saturating_add(size(self.choices()));
        if last > variables {
            return EncodingHints {
                reads_from: None,
                ..self
            };
        }
        self
    }

    /// Returns the reads-from variables, if there are hints about them.
    pub fn reads_from(self) -> Option<&'a ReadsFromTable> {
        self.reads_from
    }

    /// Returns the reads-from variables by number, with gaps. The first entry is for the variable behind those of the order.
    pub fn choices(self) -> &'a [Option<ReadsFromVariable>] {
        match self.reads_from {
            Some(reads_from) => reads_from.choices(),
            None => &[],
        }
    }

    pub fn elements(self) -> u32 {
        self.elements
    }

    /// Returns the order variable of these two events.
    pub fn variable_of_pair(self, a: Element, b: Element) -> Variable {
        variable_of_pair(self.elements, a, b)
    }

    /// Returns the id of the first transitivity clause.
    pub fn first(self) -> ClauseId {
        self.first
    }

    /// Returns the id after the last transitivity clause.
    pub fn end_id(self) -> ClauseId {
        self.first.ahead(transitivity_count(self.elements))
    }
}
