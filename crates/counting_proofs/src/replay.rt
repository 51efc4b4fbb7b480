//! The hints of a step, found by unit propagation.

use proof_log::ClauseId;
use proof_log::codes::{ALWAYS, LiteralCode, NEVER};
use std::alloc::{AllocError, Global};

/// A clause of at most three literals that may be a hint.
#[derive(Clone, Copy)]
pub struct ShortClause {
    /// Its number, or none if it is a tautology.
    pub id: ClauseId,
    /// Its literals, filled up with the constant that is never true.
    pub literals: [LiteralCode; 3],
}

impl ShortClause {
    /// Returns a tautology. It is no hint.
    pub fn tautology() -> ShortClause {
        ShortClause {
            id: ClauseId::NONE,
            literals: [ALWAYS; 3],
        }
    }
}

/// The state of a unit propagation from the negation of a clause, hint by hint. It keeps a list and no table: a step has a few literals
/// only.
#[derive(Drop)]
pub struct Replay {
    /// The literals that are true. `ALWAYS` is the first of them, so the constant that fills up a clause counts as false.
    trues: Vec<LiteralCode>,
    hints: Vec<i64>,
    /// Whether a conflict was reached: a clause all of whose literals are false.
    has_conflict: bool,
}

impl Replay {
    /// Starts with nothing implied.
    pub fn new(alloc: Global) -> Replay {
        Replay {
            trues: Vec::new(alloc),
            hints: Vec::new(alloc),
            has_conflict: false,
        }
    }

    /// Begins with the literals of this clause as false, and nothing else known.
    pub fn begin(&mut self, literals: [LiteralCode; 3]) -> Result<(), AllocError> {
        self.has_conflict = false;
        self.hints.clear();
        self.trues.clear();
        self.trues.push(ALWAYS)?;
        for literal in literals {
            self.trues.push(literal.negated())?;
        }
        Ok(())
    }

    fn is_true(&self, literal: LiteralCode) -> bool {
        self.trues.as_slice().iter().any(|other| *other == literal)
    }

    /// Returns `NEVER` if all literals of the clause are false, and its literal if exactly one is open. Returns `None` if a literal is
    /// true, or if two are open. Notes ask the same of the literals of a text (`known_literals`); a clause here has three codes, of which `NEVER` fills up.
    fn unit_or_conflict(&self, known: ShortClause) -> Option<LiteralCode> {
        let mut left = NEVER;
        for literal in known.literals {
            if self.is_true(literal) {
                return None;
            }
            if self.is_true(literal.negated()) || literal == left {
                continue;
            }
            if left != NEVER {
                return None;
            }
            left = literal;
        }
        Some(left)
    }

    /// Adds the clause as a hint if it is unit or false. A unit clause makes its literal true; a false one is a conflict, after which no
    /// more hints are added. Any other clause is left out, since the checker refuses it as a hint.
    pub fn propagate(&mut self, known: ShortClause) -> Result<(), AllocError> {
        if self.has_conflict || known.id == ClauseId::NONE {
            return Ok(());
        }
        let Some(left) = self.unit_or_conflict(known) else {
            return Ok(());
        };
        if left == NEVER {
            return self.add_unchecked(known.id);
        }
        self.hints.push(known.id.hint())?;
        self.trues.push(left)?;
        Ok(())
    }

    /// Adds the clause of this number as a hint without a look at its literals, which the caller knows. The last one that is added so is
    /// the conflict, and any before it are unit. It counts as a conflict at once, so `propagate` adds nothing after it.
    pub fn add_unchecked(&mut self, id: ClauseId) -> Result<(), AllocError> {
        self.hints.push(id.hint())?;
        self.has_conflict = true;
        Ok(())
    }

    /// Returns whether a conflict was reached: a clause all of whose literals are false.
    pub fn has_conflict(&self) -> bool {
        self.has_conflict
    }

    pub fn hints(&self) -> &[i64] {
        self.hints.as_slice()
    }
}
