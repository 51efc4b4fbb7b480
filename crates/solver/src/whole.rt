//! What is known of a formula before its cubes are searched.

ghost use Rattle.std.specs.Prelude.{◌≤◌, length, IfOk, IfSome};
ghost use Rattle.proof_log.specs.Answers.{IsWithin};

use crate::prepared_formula::PreparedFormula;
use crate::solving::begin;
use crate::source_count::has_updates;
use dimacs::{Assignment, Lit};
use lrat_check::derivation::Derivation;
use lrat_check::derivation_copies::copied;
use proof_log::{Answer, ClauseId, ProofLog, refuted_within};
use std::alloc::{AllocError, Global};

/// A derivation that the formula itself has no model.
#[derive(Drop)]
pub(crate) struct WholeRefutation {
    /// It serves cubes of at most this number of literals. Its ids begin after theirs, and it cites none of them.
    pub(crate) literals: usize,
    pub(crate) derivation: Derivation,
}

impl WholeRefutation {
    /// Returns the answer for this cube, if it serves the cube and fits the budget.
    fn answer(&self, alloc: Global, cube: &[Lit], budget: u64) -> Result<Option<Answer>, AllocError>
        ensures { IfOk result (λ found. IfSome found (λ answer. IsWithin budget answer)) }
    {
        if cube.len() > self.literals {
            return Ok(None);
        }
        let copy = copied(alloc, &self.derivation)?;
        Ok(refuted_within(copy, budget))
    }
}

/// A derivation that a cube has no model.
#[derive(Drop)]
pub(crate) struct CubeRefutation {
    pub(crate) cube: Vec<Lit>,
    pub(crate) derivation: Derivation,
}

impl CubeRefutation {
    /// Returns the answer for the cube, if it fits the budget.
    fn answer(&self, alloc: Global, budget: u64) -> Result<Option<Answer>, AllocError>
        ensures { IfOk result (λ found. IfSome found (λ answer. IsWithin budget answer)) }
    {
        let copy = copied(alloc, &self.derivation)?;
        Ok(refuted_within(copy, budget))
    }
}

/// Returns a copy of the model, if it makes the cube true.
fn model_in(
    alloc: Global,
    model: &Assignment,
    cube: &[Lit],
) -> Result<Option<Assignment>, AllocError> {
    if !model.makes(cube) {
        return Ok(None);
    }
    let copy = model.copied(alloc)?;
    Ok(Some(copy))
}

impl<'a> PreparedFormula<'a> {
    /// Returns a derivation of at most `budget` steps, with ids from `first` on, if counting finds a contradiction of the formula itself.
    fn refute_whole(
        &self,
        alloc: Global,
        first: ClauseId,
        budget: u64,
    ) -> Result<Option<Derivation>, AllocError>
        ensures { IfOk result (λ found. IfSome found (λ derivation. length derivation ≤ budget)) }
    {
        let mut search = begin(alloc, self, &[])?;
        search.refute_by_counting(&ProofLog::new(alloc, first), budget)
    }

    /// Looks for a Hall violator of the formula itself, before its cubes of this many literals are searched. If one is found, and can be
    /// refuted in at most `budget` steps, the derivation is the answer for each of these cubes, and none is searched. Without
    /// read-modify-writes there is none to look for.
    pub fn count_whole(
        &mut self,
        alloc: Global,
        literals: usize,
        budget: u64,
    ) -> Result<(), AllocError> {
        if literals == 0 || !has_updates(self.encoding) {
            return Ok(());
        }
        let first = self.id_in_cube(literals);
        if let Some(derivation) = self.refute_whole(alloc, first, budget)? {
            self.refutation = Some(WholeRefutation {
                literals,
                derivation,
            });
        }
        Ok(())
    }

    /// Returns the number of steps of the derivation for the formula itself, or 0 if there is none.
    pub fn refutation_steps(&self) -> usize {
        match &self.refutation {
            Some(refutation) => refutation.derivation.steps().len(),
            None => 0,
        }
    }

    /// Returns the place of the cube among those that are refuted, or one past them. They are at most sixteen, so they are looked through. A cube is
    /// found only if its literals come in the same order.
    fn place_of(&self, cube: &[Lit]) -> usize {
        for place in 0..self.refuted_cubes.len() {
            if self.refuted_cubes[place].cube.as_slice() == cube {
                return place;
            }
        }
        self.refuted_cubes.len()
    }

    /// Returns the answer for this cube that follows from what is known of the formula itself, if there is one. If a model is known, a cube that
    /// it is not in stays open: one model is enough, so that cube need not be searched.
    pub(crate) fn known_answer(
        &self,
        alloc: Global,
        cube: &[Lit],
        budget: u64,
    ) -> Result<Option<Answer>, AllocError>
        ensures { IfOk result (λ found. IfSome found (λ answer. IsWithin budget answer)) }
    {
        if let Some(model) = &self.model {
            return match model_in(alloc, model, cube)? {
                Some(copy) => Ok(Some(Answer::Model(copy))),
                None => Ok(Some(Answer::Open)),
            };
        }
        if let Some(refutation) = &self.refutation {
            return refutation.answer(alloc, cube, budget);
        }
        match self.refuted_cubes.get(self.place_of(cube)) {
            Some(refutation) => refutation.answer(alloc, budget),
            None => Ok(None),
        }
    }
}
