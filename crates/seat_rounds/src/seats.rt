//! The seats between two rounds, and all that they have learned.

ghost use Rattle.std.specs.Prelude.{IfOk, IfSome};
ghost use Rattle.proof_log.specs.Answers.{IsWithin};

use crate::round::Round;
use crate::seat::Seat;
use proof_log::{Answer, Attempt, ClauseId, LogChain, SearchEnd, SharingLearner, refuted_within};
use std::alloc::{AllocError, Global};
use std::sync::Mutex;

/// The seats, with the logs that were collected.
#[derive(Drop)]
pub(crate) struct Seats<S> {
    alloc: Global,
    pub(crate) round: Round<S>,
    /// The logs of all rounds before the last one, and of that one too once a derivation was looked for, in the order in which a derivation may use them.
    chain: LogChain,
    /// A number that no addition has, and none after it.
    next: ClauseId,
}

impl<S: SharingLearner + Drop> Seats<S> {
    /// Starts with these searches. Only the first may have learned clauses already.
    pub(crate) fn new(alloc: Global, attempts: Vec<Attempt<S>>) -> Result<Seats<S>, AllocError> {
        let mut first = ClauseId::NONE;
        let mut next = ClauseId::NONE;
        if let Some(attempt) = attempts.first() {
            first = attempt.log.first_id();
            next = attempt.log.next_id();
        }
        let mut seats = Vec::with_capacity(alloc, attempts.len())?;
        for attempt in attempts {
            seats.push(Mutex::new(Seat::new(attempt)))?;
        }
        Ok(Seats {
            alloc,
            round: Round {
                seats,
                given: Vec::new(alloc),
                conflicts: 0,
            },
            chain: LogChain::new(alloc, first),
            next,
        })
    }

    /// The number of seats.
    pub(crate) fn count(&self) -> u64 {
        self.round.seats.len() as u64
    }

    /// Returns how many additions the seats have made in the last round.
    pub(crate) fn additions(&mut self) -> u64 {
        let mut additions: u64 = 0;
        for slot in self.round.seats.iter_mut() {
            let seat = slot.get_mut();
            additions = additions.saturating_add(seat.attempt.log.additions());
        }
        additions
    }

    /// Puts the logs of the last round behind those of the rounds before, by the number of the seat. What a seat takes in was given before the round, so an
    /// addition rests on its own log and on those of earlier rounds, as `LogChain` asks. Each seat begins a log for a round of this
    /// many conflicts, with numbers that no other has.
    fn collect_logs(&mut self, conflicts: u64) -> Result<(), AllocError> {
        // A conflict makes at most one addition, so a seat needs at most this number of ids.
        let step = u32::try_from(conflicts).unwrap_or(u32::MAX);
        for slot in self.round.seats.iter_mut() {
            let seat = slot.get_mut();
            self.chain.push(seat.begin_log(self.next))?;
            self.next = self.next.ahead(step);
        }
        Ok(())
    }

    /// Collects what each seat has learned in the last round and gives to the others.
    fn collect_clauses(&mut self) -> Result<(), AllocError> {
        self.round.given.clear();
        for slot in self.round.seats.iter_mut() {
            let seat = slot.get_mut();
            self.round.given.push(seat.attempt.give())?;
        }
        Ok(())
    }

    /// Makes all ready for a round in which each seat has at most this many conflicts.
    pub(crate) fn begin_round(&mut self, conflicts: u64) -> Result<(), AllocError> {
        self.collect_logs(conflicts)?;
        self.collect_clauses()?;
        self.round.conflicts = conflicts;
        Ok(())
    }

    /// Returns the derivation of the clause of this number, the empty one, as an answer.
    fn refutation(&mut self, clause: ClauseId, budget: u64) -> Result<Answer, AllocError>
        ensures { IfOk result (λ answer. IsWithin budget answer) }
    {
        self.collect_logs(0)?;
        let derivation = self.chain.derivation(self.alloc, clause)?;
        match refuted_within(derivation, budget) {
            Some(answer) => Ok(answer),
            None => Ok(Answer::Open),
        }
    }

    /// Returns whether an open seat may have a derivation that takes no further conflict.
    fn is_refutable(&mut self) -> bool {
        for slot in self.round.seats.iter_mut() {
            let seat = slot.get_mut();
            if seat.is_refutable {
                return true;
            }
        }
        false
    }

    /// Returns the answer of the first open seat that has a derivation which takes no further conflict, of at most `budget` steps. It may rest on what any seat
    /// has learned in any round. A seat whose derivation is longer is asked again after each round.
    fn refutation_at_root(&mut self, budget: u64) -> Result<Option<Answer>, AllocError>
        ensures { IfOk result (λ found. IfSome found (λ answer. IsWithin budget answer)) }
    {
        if !self.is_refutable() {
            return Ok(None);
        }
        self.collect_logs(0)?;
        for slot in self.round.seats.iter_mut() {
            let seat = slot.get_mut();
            if seat.is_refutable
                && let Some(answer) = seat.attempt.refute_by_chain(&self.chain, budget)?
            {
                return Ok(Some(answer));
            }
        }
        Ok(None)
    }

    /// Returns the answer of the first seat that has ended with one: a model, or a derivation of at most `budget` steps. If the derivation is longer, the answer is
    /// `Open`, and the search ends with it.
    fn answer_of_ended(&mut self, budget: u64) -> Result<Option<Answer>, AllocError>
        ensures { IfOk result (λ found. IfSome found (λ answer. IsWithin budget answer)) }
    {
        for slot in self.round.seats.iter_mut() {
            let seat = slot.get_mut();
            match seat.end {
                Some(SearchEnd::Satisfied) => {
                    let model = seat.attempt.model()?;
                    return Ok(Some(Answer::Model(model)));
                }
                Some(SearchEnd::Refuted) => {
                    // Its last addition, the empty clause. It is asked before the logs are collected, after which this log is empty.
                    let clause = seat.attempt.log.next_id().previous();
                    let answer = self.refutation(clause, budget)?;
                    return Ok(Some(answer));
                }
                _ => (),
            }
        }
        Ok(None)
    }

    /// Returns the answer of the last round, if it has one: that of the first seat that has ended, or else of the first that is refuted without a further
    /// conflict.
    pub(crate) fn answer(&mut self, budget: u64) -> Result<Option<Answer>, AllocError>
        ensures { IfOk result (λ found. IfSome found (λ answer. IsWithin budget answer)) }
    {
        let found = self.answer_of_ended(budget)?;
        if found.is_some() {
            return Ok(found);
        }
        self.refutation_at_root(budget)
    }
}
