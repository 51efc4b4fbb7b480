//! Recursive minimisation of learned clauses: a literal that the others imply is left out (Sörensson and Biere, "Minimizing learned
//! clauses", 2009). Shorter clauses propagate sooner, and cost the checker less.

use crate::analyze::{NEEDED, REDUNDANT, UNSEEN};
use crate::search::Search;
use proof_log::codes::{LiteralCode, NEVER, Variable};
use std::alloc::AllocError;
use total_tables::{at, put, size};

/// Bound on the antecedents that are visited for one literal. A literal that exceeds it is kept, so that minimisation stays cheap.
const FUEL: u32 = 2000;

impl<'a> Search<'a> {
    /// Returns the bit of the variable's level, one of 32. A level whose bit is missing among those of the clause has no literal in it, so
    /// a walk that meets it can stop early.
    #[inline(always)]
    fn level_bit(&self, variable: Variable) -> u32 {
        1 << (self.trail.trail.state(variable).level & 31)
    }

    /// Returns the bits of the levels of the learned clause's literals. Levels that differ by a multiple of 32 share a bit, so
    /// a bit that is there proves nothing.
    fn levels_of_learned(&self) -> u32 {
        let mut levels: u32 = 0;
        for literal in &self.learned {
            levels |= self.level_bit(literal.variable());
        }
        levels
    }

    /// Visits the antecedents of this variable, and puts those that need a further visit on the stack. One with a mark is in the clause or implied
    /// by it, and one of level 0 is false for good. Returns whether one of them cannot be implied by the rest of the clause: a decision, or one of a
    /// level that the clause has not.
    fn leads_elsewhere(&mut self, variable: Variable, levels: u32) -> Result<bool, AllocError> {
        let literal = self.true_literal(variable);
        let reason = self.trail.reason(&self.store, literal);
        for number in 0..reason.count {
            let other = reason.literal(self.store.words(), number);
            let antecedent = other.variable();
            if self.mark(antecedent) != UNSEEN || self.trail.trail.state(antecedent).level == 0 {
                continue;
            }
            if self.trail.was_decided(other) || levels & self.level_bit(antecedent) == 0 {
                return Ok(true);
            }
            self.set_mark(antecedent, REDUNDANT)?;
            self.stack.push(antecedent)?;
        }
        Ok(false)
    }

    /// Returns whether the other literals of the learned clause imply this one. Visited variables stay marked as implied if so, so that no
    /// walk of this clause visits them again, and lose their marks if not.
    fn is_implied(&mut self, literal: LiteralCode, levels: u32) -> Result<bool, AllocError> {
        if self.trail.was_decided(literal) {
            return Ok(false);
        }
        let before = size(self.marked.as_slice());
        self.stack.clear();
        self.stack.push(literal.variable())?;
        for _ in 0..FUEL {
            let Some(variable) = self.stack.pop() else {
                return Ok(true);
            };
            if self.leads_elsewhere(variable, levels)? {
                break;
            }
        }
        for place in before..size(self.marked.as_slice()) {
            let variable = at(self.marked.as_slice(), place, Variable::NONE);
            self.change_mark(variable, UNSEEN);
        }
        self.marked.truncate(before as usize);
        Ok(false)
    }

    /// Minimises the learned clause, but for its first literal, which it asserts. The reasons that show a literal to be implied become hints.
    pub(crate) fn minimise(&mut self) -> Result<(), AllocError> {
        let levels = self.levels_of_learned();
        let mut kept: u32 = 1;
        self.removed.clear();
        for place in 1..size(self.learned.as_slice()) {
            let literal = at(self.learned.as_slice(), place, NEVER);
            if self.is_implied(literal, levels)? {
                self.removed.push(literal.variable())?;
            } else {
                put(self.learned.as_mut_slice(), kept, literal);
                kept = kept.wrapping_add(1);
            }
        }
        self.learned.truncate(kept as usize);
        for variable in &self.removed {
            put(self.marks.as_mut_slice(), variable.number(), NEEDED);
            self.pending.push(*variable)?;
        }
        Ok(())
    }
}
