//! Implied steps, and definitions of new variables (extended resolution).

use crate::codes::is_tautology;
use crate::replay::{Replay, ShortClause};
use crate::step_log::StepLog;
use lrat_check::derivation::Derivation;
use proof_log::ClauseId;
use proof_log::codes::{ALWAYS, LiteralCode, NEVER};
use std::alloc::{AllocError, Global};

/// A literal with the clauses of its definition, in the order in which they are added. A place without a clause has a tautology.
#[derive(Clone, Copy)]
pub struct Definition {
    pub literal: LiteralCode,
    pub clauses: [ShortClause; 4],
}

impl Definition {
    /// Returns the definition of a literal that stands for itself: it has no clauses.
    pub fn same(literal: LiteralCode) -> Definition {
        Definition {
            literal,
            clauses: [ShortClause::tautology(); 4],
        }
    }
}

/// Returns the hint that begins a group for the clause. Here a group has no further hints, since the resolvent with its clause is a tautology.
/// The clause must have a number: of `ClauseId::NONE` the hint is 0, which begins no group.
fn group(known: ShortClause) -> i64 {
    -i64::from(known.id.number())
}

/// Adds the numbers of those of the clauses that have one.
pub fn add_ids(ids: &mut Vec<ClauseId>, clauses: &[ShortClause]) -> Result<(), AllocError> {
    for known in clauses {
        if known.id != ClauseId::NONE {
            ids.push(known.id)?;
        }
    }
    Ok(())
}

/// Writes steps into a log.
#[derive(Drop)]
pub struct ProofWriter {
    log: StepLog,
    replay: Replay,
    /// The clause of the step at hand.
    literals: [LiteralCode; 3],
}

impl ProofWriter {
    /// Begins to write into this log.
    pub fn new(alloc: Global, log: StepLog) -> ProofWriter {
        ProofWriter {
            log,
            replay: Replay::new(alloc),
            literals: [NEVER; 3],
        }
    }

    /// Returns the log.
    pub fn log(&mut self) -> &mut StepLog {
        &mut self.log
    }

    /// Returns the derivation, if nothing was left out.
    pub fn into_derivation(self) -> Option<Derivation> {
        let ProofWriter { log, .. } = self;
        log.into_derivation()
    }

    /// Begins the step of this clause.
    pub fn begin(&mut self, literals: [LiteralCode; 3]) -> Result<(), AllocError> {
        self.literals = literals;
        self.replay.begin(literals)
    }

    /// Offers the clause as a hint of the step. It becomes one only if it is unit or false, since the checker refuses any other hint.
    pub fn offer(&mut self, known: ShortClause) -> Result<(), AllocError> {
        self.replay.propagate(known)
    }

    /// Adds the clause of this number as a hint of the step, without a look at its literals. The last one that is added so must be false
    /// after all hints before it.
    ///
    /// It is for clauses that the caller knows by number alone, as those of the formula: one on a reader's choices may have more literals than a
    /// `ShortClause` has room for. The step then counts as complete, and only the checker would find that it is not.
    pub fn add_hint(&mut self, id: ClauseId) -> Result<(), AllocError> {
        self.replay.add_unchecked(id)
    }

    /// Adds the step. One whose clause is a tautology is left out.
    pub fn add(&mut self) -> Result<ShortClause, AllocError> {
        if is_tautology(self.literals) {
            return Ok(ShortClause::tautology());
        }
        // The checker would refuse the step, so no derivation is handed out.
        if !self.replay.has_conflict() {
            self.log.spoil();
        }
        let id = self.log.add(&self.literals, self.replay.hints())?;
        Ok(ShortClause {
            id,
            literals: self.literals,
        })
    }

    /// Adds the step of this clause, of which these may be hints, in this order. One that is not unit at its turn is passed over and not tried
    /// again, so each must stand behind those that make it unit.
    pub fn derive(
        &mut self,
        literals: [LiteralCode; 3],
        hints: &[ShortClause],
    ) -> Result<ShortClause, AllocError> {
        self.begin(literals)?;
        for known in hints {
            self.offer(*known)?;
        }
        self.add()
    }

    /// Adds a clause of a definition, by resolution on its first literal (RAT). Each clause with the negation of that literal has a group,
    /// so the order in which a definition's clauses are added is the one on which its hints rest. The first literal is the new variable or its
    /// negation, and is no constant. The first clause that is opposed may be a tautology alone, the second only if both are.
    fn define(
        &mut self,
        literals: [LiteralCode; 3],
        opposed: (ShortClause, ShortClause),
    ) -> Result<ShortClause, AllocError> {
        if literals[1] == ALWAYS || literals[2] == ALWAYS {
            return Ok(ShortClause::tautology());
        }
        let (first, second) = opposed;
        let id = if second.id == ClauseId::NONE {
            self.log.add(&literals, &[])?
        } else if first.id == ClauseId::NONE {
            self.log.add(&literals, &[group(second)])?
        } else {
            self.log.add(&literals, &[group(first), group(second)])?
        };
        Ok(ShortClause { id, literals })
    }

    /// Defines a literal that is true if one of two is. If one is a constant or both are the same, that takes no variable and no line.
    pub fn define_or(
        &mut self,
        first: LiteralCode,
        second: LiteralCode,
    ) -> Result<Definition, AllocError> {
        if first == NEVER {
            return Ok(Definition::same(second));
        }
        if second == NEVER || second == first {
            return Ok(Definition::same(first));
        }
        let nothing = (ShortClause::tautology(), ShortClause::tautology());
        let literal = self.log.new_variable();
        let by_first = self.define([literal, first.negated(), NEVER], nothing)?;
        let by_second = self.define([literal, second.negated(), NEVER], nothing)?;
        let only = self.define([literal.negated(), first, second], (by_first, by_second))?;
        Ok(Definition {
            literal,
            clauses: [by_first, by_second, only, ShortClause::tautology()],
        })
    }

    /// Defines a literal that is true if the first is, or the other two are. Counts are such literals (`CountRow::add_counts`): at least k of some
    /// readers have one of the first sources if k of those before the last of them have, or if k - 1 have and the last one has one too.
    pub fn define_either(
        &mut self,
        alone: LiteralCode,
        together: (LiteralCode, LiteralCode),
    ) -> Result<Definition, AllocError> {
        let (one, other) = together;
        // With a part that is never true `by_both` would be a tautology, and `define` would then leave out the group of `by_alone` too.
        if alone == ALWAYS || one == NEVER || other == NEVER {
            return Ok(Definition::same(alone));
        }
        if alone == NEVER && one == ALWAYS {
            return Ok(Definition::same(other));
        }
        if alone == NEVER && other == ALWAYS {
            return Ok(Definition::same(one));
        }
        let nothing = (ShortClause::tautology(), ShortClause::tautology());
        let literal = self.log.new_variable();
        let by_alone = self.define([literal, alone.negated(), NEVER], nothing)?;
        let by_both = self.define([literal, one.negated(), other.negated()], nothing)?;
        let opposed = (by_alone, by_both);
        let needs_one = self.define([literal.negated(), alone, one], opposed)?;
        let needs_other = self.define([literal.negated(), alone, other], opposed)?;
        Ok(Definition {
            literal,
            clauses: [by_alone, by_both, needs_one, needs_other],
        })
    }
}
