//! The trail: true literals in the order of their assignment.

use crate::drawing::drawn;
use clause_database::{Reason, StoredClause};
use proof_log::codes::{ALWAYS, LiteralCode, NEVER, Variable};
use std::alloc::{AllocError, Global};
use total_tables::{at, put, size};

// These are bits, so that one `|` of the values of two literals says whether one is false and none is true.

/// The literal has no value yet.
pub const OPEN: u8 = 0;

pub const TRUE: u8 = 1;

pub const FALSE: u8 = 2;

/// Level, place and reason of an assigned variable.
#[derive(Clone, Copy)]
pub struct VariableState {
    /// Decision level.
    pub level: u32,
    /// Place on the trail.
    pub place: u32,
    pub reason: Reason,
}

/// The trail. Values are kept by literal and not by variable, so that reading one is a single load.
#[derive(Drop)]
pub struct Trail {
    values: Vec<u8>,
    /// The state of each variable. It has a meaning only while the variable has a value: when that is undone, it stays.
    states: Vec<VariableState>,
    /// The true literals, up to `count`.
    literals: Vec<LiteralCode>,
    count: u32,
    /// Place of the first literal that has not been propagated.
    head: u32,
    /// Place at which each level begins, from level 1 on: that of level k is the entry k - 1.
    limits: Vec<u32>,
    level: u32,
    /// Saved phases (Pipatsrisawat and Darwiche, 2007): the last value of each variable, which is tried first; 1 for false.
    phases: Vec<u8>,
}

impl Trail {
    /// Starts with an empty trail over this number of variables. The first `tried_true` of them are tried as true first, the others as
    /// false: so a clause "one of these" decides last, which took a third to a sixth of the conflicts in a trial.
    pub fn new(alloc: Global, variables: u32, tried_true: u32) -> Result<Trail, AllocError> {
        let places = variables.wrapping_add(1) as usize;
        let nothing = VariableState {
            level: 0,
            place: 0,
            reason: Reason::Decision,
        };
        let mut values = vec![in alloc; OPEN; LiteralCode::count_over(variables) as usize]?;
        // What fills up short clauses is false from the start, so that propagation has no case for it.
        put(values.as_mut_slice(), NEVER.code(), FALSE);
        put(values.as_mut_slice(), ALWAYS.code(), TRUE);
        let mut trail = Trail {
            values,
            states: vec![in alloc; nothing; places]?,
            literals: vec![in alloc; NEVER; places]?,
            count: 0,
            head: 0,
            limits: vec![in alloc; 0; places.saturating_add(1)]?,
            level: 0,
            phases: vec![in alloc; 1; places]?,
        };
        trail.try_first_as_begun(tried_true);
        Ok(trail)
    }

    /// The first `tried_true` variables are tried as true first, the others as false.
    pub fn try_first_as_begun(&mut self, tried_true: u32) {
        self.try_false_first();
        for variable in 0..tried_true {
            put(self.phases.as_mut_slice(), variable.wrapping_add(1), 0);
        }
    }

    /// Each variable is tried first with the value that it has here, 0 for true and 1 for false. Any other number leaves the variable as it is. From time to
    /// time `solver` gives the values of its longest trail without a conflict, in which a variable that had none has such a number.
    pub fn try_first(&mut self, values: &[u8]) {
        for variable in 0..size(values) {
            let value = at(values, variable, 1);
            if value <= 1 {
                put(self.phases.as_mut_slice(), variable, value);
            }
        }
    }

    /// Each variable is tried first with the opposite value.
    pub fn try_opposite_first(&mut self) {
        for phase in self.phases.iter_mut() {
            *phase ^= 1;
        }
    }

    /// Draws the value that each variable is tried with first, as this seed has it.
    pub fn draw_first_values(&mut self, seed: u32) {
        for number in 0..size(self.phases.as_slice()) {
            let bits = drawn(seed, Variable::new(number));
            let phase = if bits & 1 == 0 { 0 } else { 1 };
            put(self.phases.as_mut_slice(), number, phase);
        }
    }

    /// All variables are tried as false first.
    pub fn try_false_first(&mut self) {
        for phase in self.phases.iter_mut() {
            *phase = 1;
        }
    }

    #[inline(always)]
    pub fn value(&self, literal: LiteralCode) -> u8 {
        at(self.values.as_slice(), literal.code(), OPEN)
    }

    /// Returns the values of all literals, by code.
    #[inline(always)]
    pub fn values(&self) -> &[u8] {
        self.values.as_slice()
    }

    /// Returns level, place and reason of the variable.
    #[inline(always)]
    pub fn state(&self, variable: Variable) -> VariableState {
        let nothing = VariableState {
            level: 0,
            place: 0,
            reason: Reason::Decision,
        };
        at(self.states.as_slice(), variable.number(), nothing)
    }

    /// Redirects the reason of the variable to this clause, after the store was compacted.
    pub fn move_cause(&mut self, variable: Variable, clause: StoredClause) {
        let mut state = self.state(variable);
        state.reason = Reason::Stored { clause };
        put(self.states.as_mut_slice(), variable.number(), state);
    }

    /// Returns the length of the trail.
    pub fn count(&self) -> u32 {
        self.count
    }

    #[inline(always)]
    pub fn literal(&self, place: u32) -> LiteralCode {
        at(self.literals.as_slice(), place, NEVER)
    }

    /// Returns the decision level.
    pub fn level(&self) -> u32 {
        self.level
    }

    /// Returns the literal of the variable in its saved phase.
    pub fn tried_first(&self, variable: Variable) -> LiteralCode {
        let phase = at(self.phases.as_slice(), variable.number(), 0);
        LiteralCode::of(variable, phase & 1 == 0)
    }

    /// Assigns the literal.
    #[inline(always)]
    pub fn push(&mut self, literal: LiteralCode, reason: Reason) {
        put(self.values.as_mut_slice(), literal.code(), TRUE);
        put(self.values.as_mut_slice(), literal.negated().code(), FALSE);
        let state = VariableState {
            level: self.level,
            place: self.count,
            reason,
        };
        let variable = literal.variable();
        put(self.states.as_mut_slice(), variable.number(), state);
        put(self.literals.as_mut_slice(), self.count, literal);
        self.count = self.count.wrapping_add(1);
    }

    /// Returns the next literal to be propagated.
    #[inline(always)]
    pub fn next(&mut self) -> Option<LiteralCode> {
        if self.head >= self.count {
            return None;
        }
        let literal = self.literal(self.head);
        self.head = self.head.wrapping_add(1);
        Some(literal)
    }

    /// Opens a new decision level.
    pub fn begin_level(&mut self) {
        put(self.limits.as_mut_slice(), self.level, self.count);
        self.level = self.level.wrapping_add(1);
    }

    /// Returns the place where the level above this one begins.
    pub fn limit(&self, level: u32) -> u32 {
        at(self.limits.as_slice(), level, self.count)
    }

    /// Undoes the last assignment, saves its phase and returns its literal.
    #[inline(always)]
    pub fn pop(&mut self) -> LiteralCode {
        self.count = self.count.wrapping_sub(1);
        let literal = self.literal(self.count);
        put(self.values.as_mut_slice(), literal.code(), OPEN);
        put(self.values.as_mut_slice(), literal.negated().code(), OPEN);
        let phase = if literal.is_positive() { 0 } else { 1 };
        let variable = literal.variable();
        put(self.phases.as_mut_slice(), variable.number(), phase);
        literal
    }

    /// Truncates to this level, whose literals have all been propagated. The later ones have been popped before.
    pub fn resume(&mut self, level: u32) {
        self.level = level;
        self.head = self.count;
    }
}
