//! A seat: a search that takes part in rounds.

use proof_log::{Attempt, ClauseId, ProofLog, SearchEnd, SharedClauses, SharingLearner};
use std::alloc::AllocError;

/// A search, and how its last round has ended. One that has found no memory has no end, and is left out from then on.
#[derive(Drop)]
pub(crate) struct Seat<S> {
    pub(crate) attempt: Attempt<S>,
    /// `None` if it found no memory.
    pub(crate) end: Option<SearchEnd>,
    /// Whether it is open and a derivation may be found that takes no further conflict.
    pub(crate) is_refutable: bool,
}

impl<S: SharingLearner + Drop> Seat<S> {
    /// Starts with a search that is open.
    pub(crate) fn new(attempt: Attempt<S>) -> Seat<S> {
        Seat {
            attempt,
            end: Some(SearchEnd::Open),
            is_refutable: false,
        }
    }

    /// Takes in what the other seats gave, and goes on for at most this many conflicts. If it is open then, it looks whether it is refuted without a further
    /// one. That is done here, where all seats do it side by side, and not between the rounds.
    fn try_to_run(
        &mut self,
        number: usize,
        given: &[SharedClauses],
        conflicts: u64,
    ) -> Result<SearchEnd, AllocError> {
        for other in 0..given.len() {
            if other != number {
                self.attempt.take(&given[other])?;
            }
        }
        let end = self.attempt.run_on(conflicts)?;
        self.is_refutable = end == SearchEnd::Open && self.attempt.is_refutable_at_root()?;
        Ok(end)
    }

    /// Runs its round, if it takes part: it has this number, the seats gave these clauses, and it goes on for at most this many conflicts.
    pub(crate) fn run(&mut self, number: usize, given: &[SharedClauses], conflicts: u64) {
        self.is_refutable = false;
        if self.end.is_none() {
            return;
        }
        self.end = match self.try_to_run(number, given, conflicts) {
            Ok(end) => Some(end),
            Err(_) => None,
        };
    }

    /// Returns its log, and begins one whose first addition will have this number.
    pub(crate) fn begin_log(&mut self, first: ClauseId) -> ProofLog {
        self.attempt.begin_log(first)
    }
}
