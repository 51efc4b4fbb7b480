//! A round in which some seats look for a model in other ways.

use crate::round::{Round, leaf_of};
use dimacs::{Assignment, Lit};
use proof_log::{Answer, CubeSolver, SharingLearner};
use std::alloc::{AllocError, Global};
use std::sync::Mutex;

/// Ways to look for a model that take no conflict. Nothing is promised of what they find.
pub trait ModelSearch {
    /// The number of ways.
    fn ways(&self) -> usize;

    /// The number of rounds whose conflicts a seat has in about the time of a look.
    fn rounds(&self) -> u64;

    /// Looks for a model in the way of this number, from 0.
    fn look(&self, alloc: Global, way: usize) -> Result<Option<Assignment>, AllocError>;
}

/// A round, of which the job of each of the first seats looks for a model in one of these ways.
#[derive(Drop)]
pub(crate) struct RoundBeside<'a, S, M> {
    round: &'a Round<S>,
    models: M,
    /// What was found, by the number of the way.
    found: Vec<Mutex<Option<Assignment>>>,
}

impl<'a, S: SharingLearner + Drop, M: ModelSearch + Drop> RoundBeside<'a, S, M> {
    pub(crate) fn new(
        alloc: Global,
        round: &'a Round<S>,
        models: M,
    ) -> Result<RoundBeside<'a, S, M>, AllocError> {
        let mut found = Vec::new(alloc);
        for _ in 0..models.ways() {
            found.push(Mutex::new(None))?;
        }
        Ok(RoundBeside {
            round,
            models,
            found,
        })
    }

    /// Returns the model of the first way that has found one, once the jobs have ended. There were this many leaves: a way without one is tried now.
    pub(crate) fn model(
        &mut self,
        alloc: Global,
        leaves: usize,
    ) -> Result<Option<Assignment>, AllocError> {
        for slot in self.found.iter_mut() {
            let model = slot.get_mut().take();
            if model.is_some() {
                return Ok(model);
            }
        }
        for way in leaves..self.models.ways() {
            let model = self.models.look(alloc, way)?;
            if model.is_some() {
                return Ok(model);
            }
        }
        Ok(None)
    }
}

impl<S: SharingLearner + Drop, M: ModelSearch + Drop> CubeSolver for RoundBeside<'_, S, M> {
    fn solve(&self, alloc: Global, cube: &[Lit], budget: u64) -> Result<Answer, AllocError> {
        let way = leaf_of(cube);
        let Some(slot) = self.found.get(way) else {
            return self.round.solve(alloc, cube, budget);
        };
        // The seat takes in what the others gave, which they give once.
        self.round.run_seat(way, 0);
        // A leaf is dealt once, so its slot is free.
        if let Some(mut guard) = slot.try_lock() {
            *guard = self.models.look(alloc, way)?;
        }
        Ok(Answer::Open)
    }

    fn take_conflicts(&self) -> u64 {
        self.round.take_conflicts()
    }
}
