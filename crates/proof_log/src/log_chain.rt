//! Logs of several searches that make one derivation.

ghost use Rattle.std.specs.Prelude.{◌≡◌, ◌≤◌, ◌+◌, length, IfOk, OnOk};

use crate::logged_additions::LoggedAdditions;
use crate::proof_log::{ProofLog, mark};
use formula_numbers::ClauseId;
use lrat_check::derivation::{Derivation, Step};
use std::alloc::{AllocError, Global};
use std::marker::Model;

/// Logs one after the other, where what an addition rests on has a smaller number, and stands in the same log or in an earlier one. Contracts see
/// the number of all additions.
pub struct LogChain {
    /// The number of the first addition.
    first: ClauseId,
    logs: Vec<ProofLog>,
}

/// Drops the logs in one call.
impl Drop for LogChain {
    fn drop(self) {
        let LogChain {
            first: _,
            logs: _logs,
        } = self;
    }
}

impl Model for LogChain {
    ghost use Rattle.std.specs.Prelude.{ℕ};
    ghost use Rattle.std.specs.List.{sum};

    ghost Value = { ℕ };

    ghost view = { λ chain. sum chain.logs.items };
}

impl LogChain {
    /// Starts without logs. No addition has a number below this one.
    pub fn new(alloc: Global, first: ClauseId) -> LogChain
        ensures { result ≡ 0 }
    {
        LogChain {
            first,
            logs: Vec::new(alloc),
        }
    }

    /// Adds a log behind the others.
    pub fn push(&mut self, log: ProofLog) -> Result<(), AllocError>
        ensures { OnOk result (self.new ≡ self.old + log) }
    {
        self.logs.push(log)?;
        Ok(())
    }

    /// Returns one more than the largest number of an addition, counted from the first number.
    fn width(&self) -> u32 {
        let mut width = 0;
        for log in &self.logs {
            width = width.max(log.next_id().since(self.first));
        }
        width
    }

    /// Returns 1 for each addition on which these clauses rest, by its number from the first one on. The logs are asked from the last one back, since an
    /// addition rests on those of its own log and of earlier ones.
    fn needed(&self, alloc: Global, clauses: &[ClauseId]) -> Result<Vec<u8>, AllocError> {
        let mut needed = vec![in alloc; 0; self.width() as usize]?;
        mark(clauses, self.first, needed.as_mut_slice());
        for log in self.logs.iter().rev() {
            log.mark_needed(self.first, needed.as_mut_slice());
        }
        Ok(needed)
    }

    /// Returns those additions as steps that are marked, or have no mark at all.
    fn marked_steps(&self, alloc: Global, marks: &[u8]) -> Result<Vec<Step>, AllocError>
        ensures { IfOk result (λ steps. length steps.items ≤ self.now) }
    {
        let mut steps = Vec::new(alloc);
        for log in &self.logs {
            log.push_marked(alloc, self.first, marks, &mut steps)?;
        }
        Ok(steps)
    }

    /// Returns the derivation of the clause of this number, trimmed to the additions on which it rests. If there is no memory to mark these, it has
    /// all of them.
    pub fn derivation(&self, alloc: Global, clause: ClauseId) -> Result<Derivation, AllocError>
        ensures { IfOk result (λ derivation. length derivation ≤ self.now) }
    {
        let needed = match self.needed(alloc, &[clause]) {
            Ok(needed) => needed,
            Err(_) => Vec::new(alloc),
        };
        let steps = self.marked_steps(alloc, needed.as_slice())?;
        Ok(Derivation::new(steps))
    }
}

impl LoggedAdditions for LogChain {
    fn free_id(&self) -> ClauseId {
        self.first.ahead(self.width())
    }

    fn steps_to(&self, alloc: Global, clauses: &[ClauseId]) -> Result<Vec<Step>, AllocError> {
        let needed = self.needed(alloc, clauses)?;
        self.marked_steps(alloc, needed.as_slice())
    }
}
