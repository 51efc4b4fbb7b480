//! The operations that a conflict of no decision rests on.

use crate::analysis::Analysis;
use crate::learned_clauses::LearnedClauses;
use crate::learning::Learning;
use numbered_log::{NOBODY, OperationId};
use order_propagation::Propagation;
use std::alloc::{AllocError, Global};
use total_tables::{at, put, size};

/// The operations that the conflict of propagation rests on, by rising numbers, if no walk has learned anything.
pub fn core_of_conflict(
    alloc: Global,
    order: &mut Propagation<'_>,
) -> Result<Option<Vec<OperationId>>, AllocError> {
    let mut learning = Learning::new(alloc, order.log().count())?;
    learning.core_of_conflict(alloc, order)
}

impl Analysis {
    /// Goes back from what was asked to the trace, and returns the operations that were named on the way, by rising numbers: ends of pairs,
    /// readers, what their lost sources were lost by, and the same of each learned clause that was used. Their part, with all possible
    /// sources of its readers, should be in conflict. None if not all grounds of clauses were kept, or if the budget is spent before.
    pub fn find_core(
        &mut self,
        alloc: Global,
        order: &Propagation<'_>,
        clauses: &LearnedClauses,
    ) -> Result<Option<Vec<OperationId>>, AllocError> {
        self.asks_all = true;
        if !self.grounds.is_whole() {
            return Ok(None);
        }
        // What was marked for the clause at which a walk has ended stays marked: the core goes on from it.
        self.is_needed = vec![in alloc; false; self.grounds.count() as usize]?;
        self.take_used(order)?;
        // What a pair, or the clause that it uses, rests on was there before it and has smaller numbers; so each marked pair is still to come when it is
        // marked.
        for number in (0..self.highest.wrapping_add(1)).rev() {
            self.count_look();
            if self.is_spent(order) {
                return Ok(None);
            }
            if at(self.is_marked.as_slice(), number, false) {
                let pair = order.pairs().pair(number);
                self.name_ends(pair)?;
                self.ask_reason(order, clauses, pair)?;
                self.take_used(order)?;
            }
        }
        Ok(Some(self.all_named(alloc)?))
    }

    /// Returns whether the core that was found last rests on the learned clause, be it by way of others.
    pub fn is_needed(&self, clause: u32) -> bool {
        at(self.is_needed.as_slice(), clause, false)
    }

    /// The operations that the derivation of the learned clause names, if there was room for them.
    pub fn named_by(&self, clause: u32) -> &[OperationId] {
        self.grounds.operations.list(clause)
    }

    /// Takes over what the clauses rest on that were used.
    fn take_used(&mut self, order: &Propagation<'_>) -> Result<(), AllocError> {
        for _ in 0..u64::MAX {
            let Some(clause) = self.used.pop() else {
                break;
            };
            if !at(self.is_needed.as_slice(), clause, true) {
                put(self.is_needed.as_mut_slice(), clause, true);
                self.take_grounds(order, clause)?;
            }
        }
        Ok(())
    }

    /// Takes over what the clause rests on.
    fn take_grounds(&mut self, order: &Propagation<'_>, clause: u32) -> Result<(), AllocError> {
        let begin = self.grounds.operations.begin(clause);
        for place in begin..self.grounds.operations.end(clause) {
            let operation = self.grounds.operations.entry(place, NOBODY);
            self.name(operation)?;
        }
        let begin = self.grounds.clauses.begin(clause);
        for place in begin..self.grounds.clauses.end(clause) {
            let used = self.grounds.clauses.entry(place, 0);
            self.used.push(used)?;
        }
        let begin = self.grounds.pairs.begin(clause);
        for place in begin..self.grounds.pairs.end(clause) {
            let pair = self.grounds.pairs.entry(place, 0);
            self.mark(order, pair)?;
        }
        Ok(())
    }

    /// All that was named, by rising numbers.
    fn all_named(&self, alloc: Global) -> Result<Vec<OperationId>, AllocError> {
        let mut named = Vec::new(alloc);
        for operation in OperationId::first(size(self.is_named.as_slice())) {
            if at(self.is_named.as_slice(), operation.number(), false) {
                named.push(operation)?;
            }
        }
        Ok(named)
    }
}
