//! Unit clauses at level 0, added to the proof on demand: each is a step of the budget, and most literals are never cited.

use crate::analyze::{NEEDED, UNSEEN};
use crate::search::Search;
use proof_log::codes::{LiteralCode, Variable};
use proof_log::{ClauseId, ProofLog};
use std::alloc::{AllocError, Global};
use total_tables::{at, put};

/// Unit clauses that other steps cite.
#[derive(Drop)]
pub struct UnitClauses {
    /// Those that are neither in the formula nor in the cube.
    pub log: ProofLog,
    /// Id of the unit clause of each variable, or none.
    ids: Vec<ClauseId>,
}

impl UnitClauses {
    /// Starts without clauses, over this number of variables. The first one that is added has this number.
    pub fn new(alloc: Global, variables: u32, first: ClauseId) -> Result<UnitClauses, AllocError> {
        Ok(UnitClauses {
            log: ProofLog::new(alloc, first),
            ids: vec![in alloc; ClauseId::NONE; variables.wrapping_add(1) as usize]?,
        })
    }

    /// Returns the number of the variable's clause, or none.
    fn id(&self, variable: Variable) -> ClauseId {
        at(self.ids.as_slice(), variable.number(), ClauseId::NONE)
    }
}

impl<'a> Search<'a> {
    /// Marks the antecedents of this variable as needed, unless it has a unit clause of its own.
    fn need_causes_of_unit(
        &mut self,
        units: &UnitClauses,
        variable: Variable,
    ) -> Result<(), AllocError> {
        if units.id(variable) != ClauseId::NONE {
            return Ok(());
        }
        let reason = self.trail.reason(&self.store, self.true_literal(variable));
        for number in 0..reason.count {
            let literal = reason.literal(self.store.words(), number);
            let antecedent = literal.variable();
            if self.mark(antecedent) == UNSEEN {
                self.set_mark(antecedent, NEEDED)?;
                self.pending.push(antecedent)?;
            }
        }
        Ok(())
    }

    /// Gathers the hints of the variable's unit clause: the reasons of all that is needed, in trail order.
    fn gather_hints_of_unit(
        &mut self,
        units: &UnitClauses,
        variable: Variable,
    ) -> Result<(), AllocError> {
        self.needed.clear();
        self.pending.clear();
        self.hints.clear();
        self.set_mark(variable, NEEDED)?;
        self.pending.push(variable)?;
        // Each variable is pending once, so there are no more turns than literals on the trail.
        for _ in 0..=self.trail.trail.count() {
            let Some(next) = self.pending.pop() else {
                break;
            };
            let place = self.trail.trail.state(next).place;
            self.needed.push(place)?;
            self.need_causes_of_unit(units, next)?;
        }
        self.needed.sort_unstable();
        for place in &self.needed {
            let literal = self.trail.trail.literal(*place);
            let mut id = units.id(literal.variable());
            if id == ClauseId::NONE {
                id = self.trail.reason(&self.store, literal).id;
            }
            self.hints.push(id)?;
        }
        self.clear_marks();
        Ok(())
    }

    /// Returns the id of a unit clause with this literal, which is true at level 0, and adds one if there is none yet.
    pub(crate) fn unit(
        &mut self,
        units: &mut UnitClauses,
        literal: LiteralCode,
    ) -> Result<ClauseId, AllocError> {
        let variable = literal.variable();
        let mut id = units.id(variable);
        if id != ClauseId::NONE {
            return Ok(id);
        }
        // A unit clause of the formula or of the cube is named as it is, and takes no step.
        let reason = self.trail.reason(&self.store, literal);
        id = reason.id;
        if reason.count != 0 {
            self.gather_hints_of_unit(units, variable)?;
            id = units.log.next_id();
            units.log.add(&[literal], self.hints.as_slice())?;
        }
        put(units.ids.as_mut_slice(), variable.number(), id);
        Ok(id)
    }
}
