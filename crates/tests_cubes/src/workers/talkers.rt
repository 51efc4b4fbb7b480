//! Searches that share what they learn, and lie, find no memory or say that they are refuted in the end.

use dimacs::Assignment;
use lrat_check::derivation::Derivation;
use proof_log::codes::{LiteralCode, Variable};
use proof_log::{
    Attempt, ClauseId, Learner, LogChain, LoggedAdditions, ProofLog, SharedClauses, SharingLearner,
};
use std::alloc::{AllocError, Global};
use std::mem;

/// The number of the first addition: after one clause of a formula.
const FIRST: u32 = 2;

/// What a search comes to in the end.
#[derive(Clone, Copy, PartialEq, Eq)]
pub enum TalkEnd {
    /// It says that there is no model.
    Lies,
    /// It finds no memory.
    FindsNoMemory,
    /// It goes on, but after the round it has a derivation that takes no further conflict: all on which its last clause rests.
    IsRefutable,
}

/// A search that would lie after more conflicts than it is ever given: it comes to no end.
pub const LATER: (u32, TalkEnd) = (1000, TalkEnd::Lies);

/// A search that meets a conflict whenever it is asked. What it learns says that the first variable is true, and rests on what it learned last and on
/// all that it took since. With the last conflict that it is to have it comes to its end.
#[derive(Drop)]
pub struct Talker {
    alloc: Global,
    left: u32,
    end: TalkEnd,
    learned: Vec<LiteralCode>,
    hints: Vec<ClauseId>,
    next_hints: Vec<ClauseId>,
    given: SharedClauses,
}

impl Talker {
    /// A search that comes to this end with this number of conflicts.
    fn new(alloc: Global, conflicts: u32, end: TalkEnd) -> Talker {
        Talker {
            alloc,
            left: conflicts,
            end,
            learned: Vec::new(alloc),
            hints: Vec::new(alloc),
            next_hints: Vec::new(alloc),
            given: SharedClauses::new(alloc),
        }
    }
}

impl Learner for Talker {
    fn meets_conflict(&mut self) -> Result<bool, AllocError> {
        Ok(true)
    }

    fn learn(&mut self) -> Result<(), AllocError> {
        self.left = self.left.saturating_sub(1);
        if self.left == 0 && self.end == TalkEnd::FindsNoMemory {
            return Err(AllocError);
        }
        self.hints = mem::replace(&mut self.next_hints, Vec::new(self.alloc));
        self.learned.clear();
        if self.left > 0 || self.end == TalkEnd::IsRefutable {
            self.learned.push(Variable::new(1).positive())?;
        }
        Ok(())
    }

    fn learned(&self) -> &[LiteralCode] {
        self.learned.as_slice()
    }

    fn hints(&self) -> &[ClauseId] {
        self.hints.as_slice()
    }

    fn go_on(&mut self, id: ClauseId) -> Result<(), AllocError> {
        self.next_hints.push(id)?;
        self.given.add(self.learned.as_slice(), id, 1)
    }

    fn refute_at_root(
        &mut self,
        _log: &ProofLog,
        _budget: u64,
    ) -> Result<Option<Derivation>, AllocError> {
        Ok(None)
    }

    fn model(&self) -> Result<Assignment, AllocError> {
        Ok(Assignment::new(Vec::new(self.alloc)))
    }
}

impl SharingLearner for Talker {
    fn begin_rounds(&mut self) {}

    fn give(&mut self) -> SharedClauses {
        mem::replace(&mut self.given, SharedClauses::new(self.alloc))
    }

    fn take(&mut self, clauses: &SharedClauses) -> Result<(), AllocError> {
        for place in 0..clauses.count() {
            self.next_hints.push(clauses.clause(place).id)?;
        }
        Ok(())
    }

    fn is_refutable_at_root(&mut self) -> Result<bool, AllocError> {
        Ok(self.left == 0)
    }

    fn refute_by_chain(
        &mut self,
        chain: &LogChain,
        _budget: u64,
    ) -> Result<Option<Derivation>, AllocError> {
        let steps = chain.steps_to(self.alloc, self.next_hints.as_slice())?;
        Ok(Some(Derivation::new(steps)))
    }
}

/// Searches that come to these ends, each with the conflict of this number.
pub fn talkers(alloc: Global, ends: &[(u32, TalkEnd)]) -> Result<Vec<Attempt<Talker>>, AllocError> {
    let mut searches = Vec::with_capacity(alloc, ends.len())?;
    for (conflicts, end) in ends {
        let talker = Talker::new(alloc, *conflicts, *end);
        searches.push(Attempt::new(alloc, talker, ClauseId::new(FIRST)))?;
    }
    Ok(searches)
}
