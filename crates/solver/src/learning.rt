//! The search as a `Learner`: conflict-driven clause learning, one addition of the proof for each conflict.

use crate::search::Search;
use assignment_trail::TRUE;
use dimacs::Assignment;
use lrat_check::derivation::Derivation;
use proof_log::codes::{LiteralCode, Variable};
use proof_log::{ClauseId, Learner, ProofLog};
use std::alloc::AllocError;

impl<'a> Learner for Search<'a> {
    fn meets_conflict(&mut self) -> Result<bool, AllocError> {
        self.conflict = self.propagate_and_decide()?;
        Ok(self.conflict.is_some())
    }

    fn learn(&mut self) -> Result<(), AllocError> {
        let Some(conflict) = self.conflict.take() else {
            return Ok(());
        };
        self.note_first_values();
        self.analyze(conflict)
    }

    fn learned(&self) -> &[LiteralCode] {
        self.learned.as_slice()
    }

    fn hints(&self) -> &[ClauseId] {
        self.hints.as_slice()
    }

    fn go_on(&mut self, id: ClauseId) -> Result<(), AllocError> {
        self.backjump_and_assert(id)?;
        self.after_conflict()
    }

    /// Looks for a Hall violator at level 0.
    fn refute_at_root(
        &mut self,
        log: &ProofLog,
        budget: u64,
    ) -> Result<Option<Derivation>, AllocError> {
        if budget == 0 || !self.goes_back_to_count()? {
            return Ok(None);
        }
        self.refute_by_counting(log, budget)
    }

    /// Returns the model. A partial order takes the values of a total order that extends it, and any other open variable is false.
    fn model(&self) -> Result<Assignment, AllocError> {
        let ranks = self.trail.ranks(self.alloc)?;
        let mut values = Vec::with_capacity(self.alloc, self.variables as usize)?;
        for place in 0..self.variables {
            let variable = Variable::new(place).next();
            let value = match self.trail.by_rank(ranks.as_slice(), variable) {
                Some(value) => value,
                None => self.trail.value(variable.positive()) == TRUE,
            };
            values.push(value)?;
        }
        Ok(Assignment::new(values))
    }
}
