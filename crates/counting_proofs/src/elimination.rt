//! Elimination of operations, one after the other, by resolution on the order. The steps grow with the square of their
//! number.
//!
//! One of finitely many operations is the first of them, or the last: none of the others stands on that side of it, so by its clause its own literal is true.
//! The clause which says that one of the own literals is true is what `cycles` and `last_writer` go on with.

use crate::step_log::StepLog;
use order_sets::{Element, TripleIds};
use proof_log::ClauseId;
use proof_log::codes::{LiteralCode, NEVER};
use source_matching::{Grid, OrderClauses};
use std::alloc::{AllocError, Global};
use total_tables::{at, put, size};

/// On which side of an operation those others stand of which its clause speaks.
#[derive(Clone, Copy)]
pub enum Side {
    Before,
    Behind,
}

/// Operations, each with a clause which says that one of some others stands on this side of it, or that its own literal is true. When one
/// is eliminated, what stands on that side of it takes its place.
pub struct Elimination {
    order: OrderClauses,
    cycles: TripleIds,
    side: Side,
    operations: Vec<Element>,
    /// For each operation 1 at those others of which its clause speaks.
    others: Grid<u8>,
    /// For each operation its own literal, or the constant that is never true.
    own: Vec<LiteralCode>,
    /// For each operation 1 at those whose own literals its clause has.
    owners: Grid<u8>,
    clauses: Vec<ClauseId>,
}

/// Drops the tables in one call. A derived `Drop` would drop each at every exit of a function that owns an elimination, which makes its proof longer.
impl Drop for Elimination {
    fn drop(self) {
        let Elimination {
            order: _,
            cycles: _cycles,
            side: _,
            operations: _operations,
            others: _others,
            own: _own,
            owners: _owners,
            clauses: _clauses,
        } = self;
    }
}

impl Elimination {
    /// Starts with these operations, with their own literals and without clauses.
    pub fn of(
        alloc: Global,
        order: OrderClauses,
        side: Side,
        operations: Vec<Element>,
        own: Vec<LiteralCode>,
    ) -> Result<Elimination, AllocError> {
        let count = size(operations.as_slice());
        Ok(Elimination {
            order,
            cycles: TripleIds::new(alloc, order.operations, order.first)?,
            side,
            others: Grid::new(alloc, count, count, 0)?,
            own,
            owners: Grid::new(alloc, count, count, 0)?,
            clauses: vec![in alloc; ClauseId::NONE; operations.len()]?,
            operations,
        })
    }

    /// Returns the place of this operation among those that are eliminated, or `u32::MAX` if it is none of them: at that place the tables record nothing.
    pub fn place_of(&self, operation: Element) -> u32 {
        let place = self
            .operations
            .as_slice()
            .iter()
            .position(|other| *other == operation);
        match place {
            Some(place) => u32::try_from(place).unwrap_or(u32::MAX),
            None => u32::MAX,
        }
    }

    /// Returns the literal that says that the other one stands on this side of the operation.
    pub fn literal(&self, other: Element, operation: Element) -> LiteralCode {
        match self.side {
            Side::Before => self.order.before(other, operation),
            Side::Behind => self.order.before(operation, other),
        }
    }

    /// Returns the number of the transitivity clause which says that what stands on this side of the one between stands on this side of the
    /// operation, if the one between does.
    pub fn step(&self, other: Element, between: Element, operation: Element) -> i64 {
        let clause = match self.side {
            Side::Before => self.cycles.of_cycle(other, between, operation),
            Side::Behind => self.cycles.of_cycle(operation, between, other),
        };
        clause.hint()
    }

    /// Records the clause of the operation at this place, which has its own literal and speaks of others.
    pub fn set_clause(&mut self, place: u32, clause: ClauseId) {
        put(self.clauses.as_mut_slice(), place, clause);
        self.owners.set(place, place, 1);
    }

    /// Returns the clause of the operation at this place.
    fn clause(&self, place: u32) -> ClauseId {
        at(self.clauses.as_slice(), place, ClauseId::NONE)
    }

    /// Records that the clause of the operation at this place speaks of the one at that place.
    pub fn set_other(&mut self, place: u32, other: u32) {
        self.others.set(place, other, 1);
    }

    /// Resolves the last operation out of the clause of this one. The negation of the new clause makes the clause of this operation say that the last
    /// stands on this side of it; with that each transitivity clause denies one literal of the last one's clause, which is then false. If
    /// that clause has a literal on this operation, it is the opposite order, and false already.
    fn leave_out(
        &mut self,
        alloc: Global,
        log: &mut StepLog,
        last: u32,
        place: u32,
    ) -> Result<(), AllocError> {
        let operation = at(self.operations.as_slice(), place, Element::NONE);
        let out = at(self.operations.as_slice(), last, Element::NONE);
        let mut literals = Vec::new(alloc);
        let mut hints = Vec::new(alloc);
        hints.push(self.clause(place).hint())?;
        for other in 0..last {
            let its = at(self.operations.as_slice(), other, Element::NONE);
            if other != place && self.others.get(last, other) == 1 {
                hints.push(self.step(its, out, operation))?;
                self.others.set(place, other, 1);
            }
            if self.others.get(place, other) == 1 {
                literals.push(self.literal(its, operation))?;
            }
        }
        self.add_owners(&mut literals, last, place)?;
        hints.push(self.clause(last).hint())?;
        let id = log.add(literals.as_slice(), hints.as_slice())?;
        put(self.clauses.as_mut_slice(), place, id);
        Ok(())
    }

    /// Adds the own literals of the clauses of both.
    fn add_owners(
        &mut self,
        literals: &mut Vec<LiteralCode>,
        last: u32,
        place: u32,
    ) -> Result<(), AllocError> {
        for owner in 0..size(self.operations.as_slice()) {
            if self.owners.get(last, owner) == 1 {
                self.owners.set(place, owner, 1);
            }
            if self.owners.get(place, owner) == 1 {
                literals.push(at(self.own.as_slice(), owner, NEVER))?;
            }
        }
        Ok(())
    }

    /// Eliminates one operation after the other, and deletes the clauses that no later step needs, so that the checker holds one for each
    /// operation that is left. Returns the number of the clause that is left: one of the own literals is true.
    pub fn run(&mut self, alloc: Global, log: &mut StepLog) -> Result<ClauseId, AllocError> {
        for last in (1..size(self.operations.as_slice())).rev() {
            let mut old = Vec::new(alloc);
            for place in 0..last {
                if self.others.get(place, last) == 1 {
                    old.push(self.clause(place))?;
                    self.leave_out(alloc, log, last, place)?;
                }
            }
            old.push(self.clause(last))?;
            log.delete(old.as_slice())?;
        }
        Ok(self.clause(0))
    }
}
