//! A round: what its jobs share.

ghost use Rattle.proof_log.specs.Answers.{IsWithin};

use crate::seat::Seat;
use dimacs::Lit;
use proof_log::{Answer, CubeSolver, SharedClauses, SharingLearner};
use std::alloc::{AllocError, Global};
use std::sync::Mutex;

/// The seats, each of which the job of one leaf runs, what they gave after the round before, and how many conflicts a seat may have.
#[derive(Drop)]
pub(crate) struct Round<S> {
    /// By the number of the leaf that stands for the seat, from 0.
    pub(crate) seats: Vec<Mutex<Seat<S>>>,
    /// By the number of the seat that gave them. They stay the same while the round runs, so that what a seat takes in does not depend on which runs first.
    pub(crate) given: Vec<SharedClauses>,
    pub(crate) conflicts: u64,
}

/// Returns the number of the leaf of this cube in a full tree, from 0. The cube's literals stand from the root on, and a negative one leads to the right:
/// they are the number's bits, the highest first.
pub(crate) fn leaf_of(cube: &[Lit]) -> usize {
    let mut leaf: usize = 0;
    for literal in cube {
        leaf = leaf.wrapping_mul(2);
        if !literal.is_positive() {
            leaf = leaf.wrapping_add(1);
        }
    }
    leaf
}

impl<S: SharingLearner + Drop> Round<S> {
    /// Runs the seat of this number, if there is one, for at most this many conflicts.
    pub(crate) fn run_seat(&self, number: usize, conflicts: u64) {
        let Some(slot) = self.seats.get(number) else {
            return;
        };
        // A leaf is dealt once, so its seat is free.
        if let Some(mut guard) = slot.try_lock() {
            let seat = &mut *guard;
            seat.run(number, self.given.as_slice(), conflicts);
        }
    }
}

impl<S: SharingLearner + Drop> CubeSolver for Round<S> {
    fn solve(&self, _alloc: Global, cube: &[Lit], _budget: u64) -> Result<Answer, AllocError> {
        // The budget of a cube is not asked: a seat goes by the conflicts of the round, and the answer, which is open, has no steps.
        self.run_seat(leaf_of(cube), self.conflicts);
        Ok(Answer::Open)
    }

    // The round counts the additions of its seats, and reports them itself.
    fn take_conflicts(&self) -> u64 {
        0
    }
}
