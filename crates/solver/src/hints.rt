//! LRAT hints of a learned clause: the clauses by which unit propagation refutes its negation, in the order of their use.

use crate::analyze::{NEEDED, SEEN, UNSEEN};
use crate::search::Search;
use proof_log::codes::{LiteralCode, Variable};
use std::alloc::AllocError;

impl<'a> Search<'a> {
    /// Returns the true literal of an assigned variable. For one without a value the answer has no meaning.
    #[inline(always)]
    pub(crate) fn true_literal(&self, variable: Variable) -> LiteralCode {
        let state = self.trail.trail.state(variable);
        self.trail.trail.literal(state.place)
    }

    /// Marks the antecedents of this variable as needed, but for those in the learned clause, which its negation makes false.
    fn need_causes(&mut self, variable: Variable) -> Result<(), AllocError> {
        let reason = self.trail.reason(&self.store, self.true_literal(variable));
        for number in 0..reason.count {
            let literal = reason.literal(self.store.words(), number);
            let antecedent = literal.variable();
            let mark = self.mark(antecedent);
            if mark == SEEN || mark == NEEDED {
                continue;
            }
            if mark == UNSEEN {
                self.set_mark(antecedent, NEEDED)?;
            } else {
                // It is redundant, and so in `marked` already.
                self.change_mark(antecedent, NEEDED);
            }
            self.pending.push(antecedent)?;
        }
        Ok(())
    }

    /// Gathers the hints of the learned clause. First come the reasons of literals that are true at level 0 or were left out by
    /// minimisation, in trail order, so that each becomes unit when it is reached; then the resolved clauses, from the last one back to
    /// the conflict, since propagation runs against the direction of resolution.
    pub(crate) fn gather_hints(&mut self) -> Result<(), AllocError> {
        self.needed.clear();
        // Each variable is pending once, so there are no more turns than literals on the trail.
        for _ in 0..=self.trail.trail.count() {
            let Some(variable) = self.pending.pop() else {
                break;
            };
            let place = self.trail.trail.state(variable).place;
            self.needed.push(place)?;
            self.need_causes(variable)?;
        }
        self.needed.sort_unstable();
        self.hints.clear();
        for place in &self.needed {
            let literal = self.trail.trail.literal(*place);
            let id = self.trail.reason(&self.store, literal).id;
            self.hints.push(id)?;
        }
        for id in self.resolved.iter().rev() {
            self.hints.push(*id)?;
        }
        Ok(())
    }
}
