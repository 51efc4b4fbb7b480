//! A search with a log of its own.

ghost use Rattle.std.specs.Prelude.{◌≡◌, ◌≤◌, ◌+◌, OnOk, IfOk, IfSome};
ghost use Rattle.proof_log.specs.Answers.{IsWithin};
ghost use Rattle.proof_log.specs.Outcomes.{TakesConflict};

use crate::answer::Answer;
use crate::learner::{Learner, SharingLearner};
use crate::limit::refuted_within;
use crate::log_chain::LogChain;
use crate::proof_log::ProofLog;
use crate::searching::{SearchEnd, search_on};
use crate::shared_clauses::SharedClauses;
use dimacs::Assignment;
use formula_numbers::ClauseId;
use lrat_check::derivation::Derivation;
use std::alloc::{AllocError, Global};
use std::mem;

/// Conflicts per turn. Turns have equal length, so alternating two searches costs at most about twice the time of the better one.
pub const TURN: u64 = 500;

/// A search with its proof log. It can be suspended between any two conflicts.
#[derive(Drop)]
pub struct Attempt<S> {
    alloc: Global,
    search: S,
    /// The clauses that the search has learned.
    pub log: ProofLog,
}

/// Returns the derivation as an answer, if there is one of at most `budget` steps.
fn answer_within(found: Option<Derivation>, budget: u64) -> Option<Answer>
    ensures { IfSome result (λ answer. IsWithin budget answer) }
{
    refuted_within(found?, budget)
}

impl<S: Learner + Drop> Attempt<S> {
    /// Starts with this search and an empty log, whose first addition will have this number.
    pub fn new(alloc: Global, search: S, first: ClauseId) -> Attempt<S>
        ensures { result.log ≡ 0 }
    {
        Attempt {
            alloc,
            search,
            log: ProofLog::new(alloc, first),
        }
    }

    pub fn search(&self) -> &S {
        &self.search
    }

    /// Goes on with the search for at most `budget` conflicts. Returns an answer if one was found before the next conflict.
    pub fn run(&mut self, budget: u64) -> Result<Option<Answer>, AllocError>
        ensures within { OnOk result (self.new.log ≤ self.old.log + budget) }
        ensures answer { IfOk result (λ found. IfSome found (λ answer. IsWithin (self.old.log + budget) answer)) }
    {
        match search_on(&mut self.search, &mut self.log, budget)? {
            SearchEnd::Satisfied => {
                let model = self.search.model()?;
                Ok(Some(Answer::Model(model)))
            }
            SearchEnd::Refuted => {
                let derivation = self.log.derivation(self.alloc)?;
                Ok(Some(Answer::Refuted(derivation)))
            }
            SearchEnd::Open => Ok(None),
        }
    }

    /// Goes on with the search for at most `budget` conflicts, and says how that has ended. It makes no derivation: what is learned may rest on
    /// additions of other logs.
    pub fn run_on(&mut self, budget: u64) -> Result<SearchEnd, AllocError>
        ensures within { OnOk result (self.new.log ≤ self.old.log + budget) }
        ensures refuted { IfOk result (λ outcome. TakesConflict budget outcome) }
    {
        search_on(&mut self.search, &mut self.log, budget)
    }

    /// Returns the values of all variables, once nothing is left to decide.
    pub fn model(&self) -> Result<Assignment, AllocError> {
        self.search.model()
    }

    /// Returns the log, and begins an empty one, whose first addition will have this number.
    pub fn begin_log(&mut self, first: ClauseId) -> ProofLog
        ensures taken { result ≡ self.old.log }
        ensures empty { self.new.log ≡ 0 }
    {
        mem::replace(&mut self.log, ProofLog::new(self.alloc, first))
    }

    /// Returns an answer that takes no further conflict, if there is one: a derivation of at most `budget` steps.
    fn refute_at_root(&mut self, budget: u64) -> Result<Option<Answer>, AllocError>
        ensures log { OnOk result (self.new.log ≡ self.old.log) }
        ensures answer { IfOk result (λ found. IfSome found (λ answer. IsWithin budget answer)) }
    {
        let found = self.search.refute_at_root(&self.log, budget)?;
        Ok(answer_within(found, budget))
    }

    /// Takes a turn of at most `share` conflicts, and then, if others are left, looks for a derivation that takes no further one.
    pub fn take_turn(&mut self, share: u64, left: u64) -> Result<Option<Answer>, AllocError>
        ensures within { OnOk result (self.new.log ≤ self.old.log + share) }
        ensures answer { IfOk result (λ found. IfSome found (λ answer. IsWithin (self.old.log + share + left) answer)) }
    {
        if let Some(answer) = self.run(share)? {
            return Ok(Some(answer));
        }
        self.refute_at_root(left)
    }
}

impl<S: SharingLearner + Drop> Attempt<S> {
    /// Returns the clauses that the search has learned since it last gave some, but for those that it gives to none.
    pub fn give(&mut self) -> SharedClauses
        ensures { self.new.log ≡ self.old.log }
    {
        self.search.give()
    }

    /// Goes back to level 0, and takes in clauses that another search has learned. They are no additions of this log.
    pub fn take(&mut self, clauses: &SharedClauses) -> Result<(), AllocError>
        ensures { OnOk result (self.new.log ≡ self.old.log) }
    {
        self.search.take(clauses)
    }

    /// Returns whether `refute_by_chain` may find an answer at level 0. If so, the search stands there.
    pub fn is_refutable_at_root(&mut self) -> Result<bool, AllocError>
        ensures { OnOk result (self.new.log ≡ self.old.log) }
    {
        self.search.is_refutable_at_root()
    }

    /// Returns an answer that takes no further conflict, if there is one at level 0: a derivation of at most `budget` steps, some of which may be additions of
    /// this chain. It is asked only after `is_refutable_at_root` has said yes.
    pub fn refute_by_chain(
        &mut self,
        chain: &LogChain,
        budget: u64,
    ) -> Result<Option<Answer>, AllocError>
        ensures log { OnOk result (self.new.log ≡ self.old.log) }
        ensures answer { IfOk result (λ found. IfSome found (λ answer. IsWithin budget answer)) }
    {
        let found = self.search.refute_by_chain(chain, budget)?;
        Ok(answer_within(found, budget))
    }

    /// From now on the search goes on in rounds with others. Its log stays as it is.
    pub fn begin_rounds(&mut self)
        ensures { self.new.log ≡ self.old.log }
    {
        self.search.begin_rounds();
    }
}

/// Runs an attempt by turns, until it has an answer or has analysed `budget` conflicts and met one more. There are turns though nothing is
/// run beside it, since sources are counted again after each: if one is excluded by a case distinction alone, the search does not end by
/// itself. With a budget of 0 it takes one turn, which finds a model that needs no conflict.
pub fn search_alone<S: Learner + Drop>(
    attempt: &mut Attempt<S>,
    budget: u64,
) -> Result<Answer, AllocError>
    ensures { IfOk result (λ answer. IsWithin (attempt.old.log + budget) answer) }
{
    let mut left = budget;
    loop {
        let share = left.min(TURN);
        left -= share;
        if let Some(answer) = attempt.take_turn(share, left)? {
            return Ok(answer);
        }
        if left == 0 {
            return Ok(Answer::Open);
        }
    }
}

/// Runs two attempts by turns, until one of them has an answer or both together have analysed `budget` conflicts and met one more. With a budget of 0
/// neither gets a turn, unlike in `search_alone`.
pub fn take_turns<S: Learner + Drop>(
    first: &mut Attempt<S>,
    second: &mut Attempt<S>,
    budget: u64,
) -> Result<Answer, AllocError>
    ensures { IfOk result (λ answer. IsWithin (first.old.log + second.old.log + budget) answer) }
{
    let mut left = budget;
    loop {
        let share = left.min(TURN);
        if share == 0 {
            return Ok(Answer::Open);
        }
        left -= share;
        if let Some(answer) = first.take_turn(share, left)? {
            return Ok(answer);
        }
        let rest = left.min(TURN);
        left -= rest;
        if let Some(answer) = second.take_turn(rest, left)? {
            return Ok(answer);
        }
    }
}
