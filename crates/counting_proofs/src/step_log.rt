//! The steps of a derivation as they are written.

use dimacs::{Clause, Lit, MAX_VARIABLE};
use lrat_check::derivation::{Derivation, Step};
use lrat_check::hints::Hints;
use lrat_check::ids::Ids;
use proof_log::ClauseId;
use proof_log::codes::{LiteralCode, NEVER, Variable, literal_of};
use std::alloc::{AllocError, Global};

/// The first free numbers: all above them are free too.
#[derive(Clone, Copy)]
pub struct Free {
    /// The number of the next clause.
    pub clause: ClauseId,
    /// The next variable.
    pub variable: Variable,
}

/// The steps of a derivation up to a bound. What does not fit is left out, and then there is no derivation: one past
/// the budget is of no use, so no memory is spent on it.
#[derive(Drop)]
pub struct StepLog {
    alloc: Global,
    steps: Vec<Step>,
    /// The number of the next clause. It grows for clauses that are left out too.
    next_id: ClauseId,
    next_variable: Variable,
    /// Number of further steps for which there is room.
    left: u64,
    /// Whether nothing was left out.
    is_whole: bool,
}

/// Returns the literals of these codes, each once, without the constant that is never true: steps of three literals are filled up with it, and
/// at the border of a count two of them may be the same.
fn literals_of(alloc: Global, codes: &[LiteralCode]) -> Result<Vec<Lit>, AllocError> {
    let mut literals: Vec<Lit> = Vec::with_capacity(alloc, codes.len())?;
    for code in codes {
        let literal = literal_of(*code);
        let is_new = *code != NEVER && !literals.as_slice().iter().any(|other| *other == literal);
        if is_new {
            literals.push(literal)?;
        }
    }
    Ok(literals)
}

impl StepLog {
    /// Starts with these steps, to which others are added up to `most_steps` in all. What they add has the free numbers.
    pub fn new(alloc: Global, steps: Vec<Step>, free: Free, most_steps: u64) -> StepLog {
        StepLog {
            alloc,
            left: most_steps.saturating_sub(steps.len() as u64),
            steps,
            next_id: free.clause,
            next_variable: free.variable,
            is_whole: true,
        }
    }

    /// Returns the literal of a new variable.
    pub fn new_variable(&mut self) -> LiteralCode {
        let variable = self.next_variable;
        self.next_variable = variable.next();
        if variable.number() > MAX_VARIABLE {
            self.spoil();
        }
        variable.positive()
    }

    /// Records that there will be no derivation.
    pub fn spoil(&mut self) {
        self.is_whole = false;
    }

    /// Adds the step, if there is room for it.
    fn push(&mut self, step: Step) -> Result<(), AllocError> {
        if self.left == 0 {
            self.spoil();
            return Ok(());
        }
        self.left = self.left.saturating_sub(1);
        self.steps.push(step)?;
        Ok(())
    }

    /// Adds the clause of these literals with these hints. Returns its number.
    pub fn add(&mut self, literals: &[LiteralCode], hints: &[i64]) -> Result<ClauseId, AllocError> {
        let id = self.next_id;
        self.next_id = id.next();
        let literals = literals_of(self.alloc, literals)?;
        self.push(Step::Addition {
            id: u64::from(id.number()),
            literals: Clause::from_slice(self.alloc, literals.as_slice())?,
            hints: Hints::compact(self.alloc, hints)?,
        })?;
        Ok(id)
    }

    /// Deletes the clauses of these numbers.
    pub fn delete(&mut self, ids: &[ClauseId]) -> Result<(), AllocError> {
        let mut numbers = Vec::with_capacity(self.alloc, ids.len())?;
        for id in ids {
            numbers.push(u64::from(id.number()))?;
        }
        self.push(Step::Deletion {
            first: u64::from(self.next_id.number()),
            ids: Ids::from_slice(self.alloc, numbers.as_slice())?,
        })
    }

    /// Returns the derivation, if nothing was left out.
    pub fn into_derivation(self) -> Option<Derivation> {
        let StepLog {
            steps,
            is_whole,
            ..
        } = self;
        if is_whole {
            Some(Derivation::new(steps))
        } else {
            None
        }
    }
}
