//! What is searched before the cubes of a formula are.

use crate::prepared_formula::PreparedFormula;
use crate::schedule_heuristic::suits_a_schedule;
use crate::search::Search;
use crate::solving::{CubeSearch, begin, search_cube};
use crate::whole::{CubeRefutation, WholeRefutation};
use assignment_trail::Activities;
use dimacs::Lit;
use proof_log::codes::{LiteralCode, NEVER, Variable, literal_of};
use proof_log::{Answer, Attempt};
use std::alloc::{AllocError, Global};
use total_tables::{at, put, size};

/// Conflicts of the search of the first cube. Without it some traces with a schedule in that cube took three times as long: the search of the
/// formula itself comes upon the same cube first, but by another course, which took far more conflicts.
/// They are a turn. With more of them the other threads would wait longer.
const FIRST_CUBE_CONFLICTS: u64 = 500;

/// The most steps of a derivation by counting that is taken for the first cube.
const FIRST_CUBE_STEPS: u64 = 2000;

/// The activities of a search of fewer conflicts are not handed on: they say little. Those of others brought 41 traces without a schedule
/// from 152 conflicts to 120 (geometric mean).
const TELLING_CONFLICTS: u64 = 10;

/// Conflicts of a first search of the formula itself, if the first cube is refuted, or two fifths of those that this took, if they are more. Many
/// formulas take no more, and one with a model in a later cube loses little by it.
const SHORT_CONFLICTS: u64 = 25;

/// Conflicts after which the formula itself is searched, if the first cube is refuted. A model in a later cube is often found in fewer.
const CUBES_CONFLICTS: u64 = 600;

/// At most this many cubes are searched before the formula itself.
const FIRST_CUBES: u32 = 16;

/// The least budget with which anything is searched before the cubes.
const LEAST_BUDGET: u64 = 4000;

/// Conflicts of the search of the formula itself, by one thread. If it takes more, this search is handed on, so that others that share what they
/// learn go on with it.
const WHOLE_CONFLICTS: u64 = 500;

/// Conflicts of a search of the formula itself that takes turns with one along a schedule. It is not handed on.
const SCHEDULE_CONFLICTS: u64 = 8000;

/// Returns these variables of splits, one for each number.
fn variables_of(alloc: Global, splits: &[u32]) -> Result<Vec<Variable>, AllocError> {
    let mut variables = Vec::with_capacity(alloc, splits.len())?;
    for number in splits {
        variables.push(Variable::new(*number))?;
    }
    Ok(variables)
}

/// Returns the codes of the literals of the first cube over these variables: all of them are true in it.
fn first_cube(alloc: Global, splits: &[u32]) -> Result<Vec<LiteralCode>, AllocError> {
    let mut codes = Vec::with_capacity(alloc, splits.len())?;
    for number in splits {
        codes.push(Variable::new(*number).positive())?;
    }
    Ok(codes)
}

/// Goes on to the next cube, whose last true variable is false and those after it true. Returns whether there is one.
fn go_to_next(codes: &mut Vec<LiteralCode>) -> bool {
    let mut place = size(codes.as_slice());
    for _ in 0..codes.len() {
        place = place.wrapping_sub(1);
        let code = at(codes.as_slice(), place, NEVER);
        put(codes.as_mut_slice(), place, code.negated());
        if code.is_positive() {
            return true;
        }
    }
    false
}

fn literals_of(alloc: Global, codes: &[LiteralCode]) -> Result<Vec<Lit>, AllocError> {
    let mut literals = Vec::with_capacity(alloc, codes.len())?;
    for code in codes {
        literals.push(literal_of(*code))?;
    }
    Ok(literals)
}

impl<'a> PreparedFormula<'a> {
    /// Enters what was found in this cube. Returns whether it is refuted.
    fn enter(&mut self, cube: Vec<Lit>, answer: Answer) -> Result<bool, AllocError> {
        match answer {
            Answer::Model(model) => {
                self.model = Some(model);
                Ok(false)
            }
            Answer::Refuted(derivation) => {
                self.refuted_cubes
                    .push(CubeRefutation { cube, derivation })?;
                Ok(true)
            }
            Answer::Open => Ok(false),
        }
    }

    /// Searches the first cube. If it is refuted, a search of the formula itself begins with the activities that this one has ended
    /// with. Returns whether it is refuted.
    fn search_first_cube(
        &mut self,
        alloc: Global,
        codes: &[LiteralCode],
    ) -> Result<bool, AllocError> {
        let cube = literals_of(alloc, codes)?;
        let id = self.id_in_cube(cube.len());
        let mut search = begin(alloc, self, cube.as_slice())?;
        if let Some(counted) = search.count_sources(id, FIRST_CUBE_STEPS)? {
            return self.enter(cube, counted);
        }
        let mut first = Attempt::new(alloc, search, id);
        let searched = CubeSearch {
            alloc,
            prepared: self,
            cube: cube.as_slice(),
            first_id: id,
        };
        let answer = searched.search_begun(&mut first, FIRST_CUBE_CONFLICTS)?;
        let is_refuted = self.enter(cube, answer)?;
        if is_refuted && first.log.additions() >= TELLING_CONFLICTS {
            let ended = Activities::after(
                alloc,
                &first.search().activities,
                self.wanted.as_slice(),
            )?;
            self.activities = Some(ended);
        }
        Ok(is_refuted)
    }

    /// Searches the cubes after the first, until one is not refuted or the conflicts of all of them are used up. Returns whether that settles
    /// the formula: there is a model, or no cube is left. The codes are those of the first cube, which counts as one of `FIRST_CUBES`.
    fn search_next_cubes(
        &mut self,
        alloc: Global,
        codes: &mut Vec<LiteralCode>,
        conflicts: u64,
    ) -> Result<bool, AllocError> {
        let begun = self.conflicts();
        for _ in 1..FIRST_CUBES {
            if !go_to_next(codes) {
                return Ok(true);
            }
            let left = conflicts.saturating_sub(self.conflicts().saturating_sub(begun));
            if left == 0 {
                return Ok(false);
            }
            let cube = literals_of(alloc, codes.as_slice())?;
            let id = self.id_in_cube(cube.len());
            let answer = search_cube(alloc, self, cube.as_slice(), id, left)?;
            if !self.enter(cube, answer)? {
                return Ok(self.model.is_some());
            }
        }
        Ok(false)
    }

    /// Searches the formula itself, in at most this many conflicts. The variables of the splits are decided before all others, so this search goes
    /// from leaf to leaf, and what it learns in one leaf serves the next. A derivation is the answer for each cube. Returns whether the formula
    /// is settled.
    fn search_itself(
        &mut self,
        alloc: Global,
        splits: &[u32],
        conflicts: u64,
    ) -> Result<bool, AllocError> {
        self.leading = variables_of(alloc, splits)?;
        let id = self.id_in_cube(splits.len());
        let answer = search_cube(alloc, self, &[], id, conflicts)?;
        Ok(self.know(splits.len(), answer))
    }

    /// Enters what was found of the formula itself, with ids that leave room for this many literals of a cube. Returns whether that settles it.
    /// The checker counts a cube's literals as unit clauses behind those of the formula, and the steps behind them, so a derivation serves each cube of
    /// at most this number of literals. What searches of states and searches in threads find of the formula is entered here too, by `trace_decision`.
    pub fn know(&mut self, literals: usize, answer: Answer) -> bool {
        match answer {
            Answer::Refuted(derivation) => {
                self.refutation = Some(WholeRefutation {
                    literals,
                    derivation,
                });
                true
            }
            Answer::Model(model) => {
                self.model = Some(model);
                true
            }
            Answer::Open => false,
        }
    }

    /// Searches the formula itself likewise, by a search that shares what it learns. If this settles nothing, the search is handed on, unless it
    /// took turns with one along a schedule: handed on to four it took 35 thousand conflicts for a trace that these two schedule in 8 thousand.
    fn search_to_hand_on(
        &mut self,
        alloc: Global,
        splits: &[u32],
        budget: u64,
    ) -> Result<Option<Attempt<Search<'a>>>, AllocError> {
        self.leading = variables_of(alloc, splits)?;
        let id = self.id_in_cube(splits.len());
        let mut search = begin(alloc, self, &[])?;
        if let Some(counted) = search.count_sources(id, budget.min(SCHEDULE_CONFLICTS))? {
            self.know(splits.len(), counted);
            return Ok(None);
        }
        search.begin_to_share();
        let takes_turns = suits_a_schedule(&search.trail);
        let most = if takes_turns {
            SCHEDULE_CONFLICTS
        } else {
            WHOLE_CONFLICTS
        };
        let mut first = Attempt::new(alloc, search, id);
        let searched = CubeSearch {
            alloc,
            prepared: self,
            cube: &[],
            first_id: id,
        };
        let answer = searched.search_begun(&mut first, budget.min(most))?;
        if self.know(splits.len(), answer) || takes_turns {
            return Ok(None);
        }
        Ok(Some(first))
    }

    /// Searches a little of the formula itself and then the cubes after the first, which is refuted and took this many conflicts. Returns whether
    /// the formula is settled.
    fn search_further(
        &mut self,
        alloc: Global,
        splits: &[u32],
        codes: &mut Vec<LiteralCode>,
        taken: u64,
    ) -> Result<bool, AllocError> {
        let short = SHORT_CONFLICTS.max((taken / 5).wrapping_mul(2));
        if self.search_itself(alloc, splits, short)? {
            return Ok(true);
        }
        let left = CUBES_CONFLICTS.saturating_sub(taken).saturating_sub(short);
        self.search_next_cubes(alloc, codes, left)
    }

    /// Searches the cubes over these variables and the formula itself for a little while, unless it was refuted by counting: the first cube, and if
    /// that is refuted, the next ones; and then the formula itself. A derivation for the formula itself is the answer for each cube, and one for
    /// a cube is the answer for that cube. A model is the answer for the cube that it is in, and the other cubes then stay open. Nothing is
    /// searched if the budget is small: that is left to the cubes. If the last search is left open, it is returned: `begin_seats` has the others
    /// that go on with it.
    pub fn search_whole(
        &mut self,
        alloc: Global,
        splits: &[u32],
        budget: u64,
    ) -> Result<Option<Attempt<Search<'a>>>, AllocError> {
        if splits.is_empty() || budget < LEAST_BUDGET || self.refutation.is_some() {
            return Ok(None);
        }
        let mut codes = first_cube(alloc, splits)?;
        let before = self.conflicts();
        let is_refuted = self.search_first_cube(alloc, codes.as_slice())?;
        if self.model.is_some() {
            return Ok(None);
        }
        let taken = self.conflicts().saturating_sub(before);
        if is_refuted && self.search_further(alloc, splits, &mut codes, taken)? {
            return Ok(None);
        }
        self.search_to_hand_on(alloc, splits, budget)
    }
}
