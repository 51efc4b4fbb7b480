//! Hall violators at level 0: readers that cannot all have a source. This is a pigeonhole principle, of which resolution, and so a search
//! that learns clauses, has only proofs of exponential size (Haken, "The intractability of resolution", 1985). So it is looked for, and
//! refuted, by counting: before the first decision, and again after each turn or round of a search, since learned clauses may exclude more sources.
//!
//! A budget bounds the conflicts of a search, and the steps of a derivation too. A turn is a share of it, at most 500 conflicts (`TURN`).

ghost use Rattle.std.specs.Prelude.{◌≤◌, length, IfOk, IfSome};
ghost use Rattle.proof_log.specs.Answers.{IsWithin};

use crate::search::Search;
use crate::told_reads::{has_enough_sources, matching_instance, possible_sources};
use crate::units::UnitClauses;
use assignment_trail::OrderedTrail;
use clause_database::{EncodingHints, ReadsFromTable};
use counting_proofs::{
    Free, KnownOrder, MatchingInstance, OrderClauses, Premises, SourceContradiction,
    find_contradiction, has_hall_violator, refute,
};
use lrat_check::derivation::{Derivation, Step};
use order_sets::Element;
use proof_log::codes::{LiteralCode, Variable};
use proof_log::{Answer, ClauseId, LoggedAdditions, ProofLog, TURN, refuted_within};
use std::alloc::AllocError;

/// Returns the order that is known at level 0.
fn known_order<'b>(
    encoding: EncodingHints<'_>,
    trail: &'b OrderedTrail<'_>,
    reads_from: &'b ReadsFromTable,
) -> KnownOrder<'b> {
    KnownOrder {
        order: OrderClauses {
            operations: encoding.elements(),
            first: encoding.first(),
        },
        writers: reads_from.writers(),
        successors: trail.order().successors(),
    }
}

/// Returns whether there is a read-modify-write. Without one, readers can share their sources, so there is no Hall violator.
pub(crate) fn has_updates(encoding: EncodingHints<'_>) -> bool {
    let Some(reads_from) = encoding.reads_from() else {
        return false;
    };
    for number in 0..reads_from.elements() {
        let element = Element::new(number);
        if reads_from.is_update(element) {
            return true;
        }
    }
    false
}

/// Returns a bound on the steps of its derivation: those of the count, and one for each literal on which it rests.
fn most_steps(found: &SourceContradiction) -> u64 {
    found
        .most_steps()
        .saturating_add(found.rests_on().len() as u64)
}

impl<'a> Search<'a> {
    /// Returns whether there is a read-modify-write.
    pub(crate) fn has_updates(&self) -> bool {
        has_updates(self.encoding)
    }

    /// Returns whether there is a Hall violator. It is asked at level 0. Mostly there is none, so a greedy matching is tried first.
    fn has_hall_violator(&self, reads_from: &ReadsFromTable) -> Result<bool, AllocError> {
        let known = known_order(self.encoding, &self.trail, reads_from);
        if has_enough_sources(self.alloc, &self.trail, reads_from, known)? {
            return Ok(false);
        }
        let possible = possible_sources(self.alloc, &self.trail, reads_from)?;
        has_hall_violator(self.alloc, possible, known)
    }

    /// Derives each of these literals as a unit clause at level 0. Returns the ids of the unit clauses, the proof steps that add them,
    /// after those steps of the log on which they rest, and the next free id.
    fn unit_clauses<L: LoggedAdditions>(
        &mut self,
        literals: &[LiteralCode],
        log: &L,
    ) -> Result<(Vec<ClauseId>, Vec<Step>, ClauseId), AllocError> {
        let alloc = self.alloc;
        let mut units = UnitClauses::new(alloc, self.variables, log.free_id())?;
        let mut clauses = Vec::new(alloc);
        for literal in literals {
            clauses.push(self.unit(&mut units, *literal)?)?;
        }
        let mut cited = Vec::from_slice(alloc, clauses.as_slice())?;
        cited.extend_from_slice(units.log.cited())?;
        let mut steps = log.steps_to(alloc, cited.as_slice())?;
        steps.append(&mut units.log.steps(alloc)?)?;
        Ok((clauses, steps, units.log.next_id()))
    }

    /// Goes back to level 0, and returns whether sources can be counted there. If no event reads and writes there is nothing to count, and going back would only
    /// disturb the search.
    pub(crate) fn goes_back_to_count(&mut self) -> Result<bool, AllocError> {
        Ok(self.has_updates() && self.resume_at_root()?)
    }

    /// Returns whether there is a Hall violator at level 0, to which it goes back if there is anything to count.
    pub(crate) fn lacks_sources(&mut self) -> Result<bool, AllocError> {
        if !self.goes_back_to_count()? {
            return Ok(false);
        }
        match self.encoding.reads_from() {
            Some(reads_from) => self.has_hall_violator(reads_from),
            None => Ok(false),
        }
    }

    /// Returns a contradiction at level 0, if there is one, and what is known of all readers. Nothing must be decided. After a conflict at level 0 it is
    /// not looked for.
    fn contradiction(&self) -> Result<Option<(MatchingInstance, SourceContradiction)>, AllocError> {
        let Some(reads_from) = self.encoding.reads_from() else {
            return Ok(None);
        };
        if self.conflict.is_some() || !self.has_hall_violator(reads_from)? {
            return Ok(None);
        }
        let reads = matching_instance(self.alloc, &self.trail, reads_from)?;
        let known = known_order(self.encoding, &self.trail, reads_from);
        match find_contradiction(self.alloc, &reads, known)? {
            Some(found) => Ok(Some((reads, found))),
            None => Ok(None),
        }
    }

    /// Returns a derivation of the contradiction, if it takes at most `budget` steps. The log has what was learned.
    fn refute_contradiction<L: LoggedAdditions>(
        &mut self,
        reads: &MatchingInstance,
        found: &SourceContradiction,
        log: &L,
        budget: u64,
    ) -> Result<Option<Derivation>, AllocError>
        ensures { IfOk result (λ found. IfSome found (λ derivation. length derivation ≤ budget)) }
    {
        let Some(reads_from) = self.encoding.reads_from() else {
            return Ok(None);
        };
        if found.most_steps() > budget {
            return Ok(None);
        }
        let (clauses, steps, next) = self.unit_clauses(found.rests_on(), log)?;
        let free = Free {
            clause: next,
            variable: Variable::new(self.variables).next(),
        };
        let given = Premises {
            steps,
            clauses: clauses.as_slice(),
            free,
        };
        let known = known_order(self.encoding, &self.trail, reads_from);
        refute(self.alloc, given, reads, found, known, budget)
    }

    /// Returns a derivation of at most `budget` steps, if there is a contradiction of readers and sources. The log has what was learned,
    /// and nothing is decided. It is called after a turn and after a round, and for a formula before its cubes are searched (`whole.rt`). If the derivation takes more steps,
    /// the search goes on, or begins.
    pub(crate) fn refute_by_counting<L: LoggedAdditions>(
        &mut self,
        log: &L,
        budget: u64,
    ) -> Result<Option<Derivation>, AllocError>
        ensures { IfOk result (λ found. IfSome found (λ derivation. length derivation ≤ budget)) }
    {
        match self.contradiction()? {
            Some((reads, found)) => self.refute_contradiction(&reads, &found, log, budget),
            None => Ok(None),
        }
    }

    /// Returns an answer within the budget, if counting finds a contradiction before the search begins. The first step of its derivation
    /// has this number. If that takes more steps than the budget has, the answer is open, since a search will hardly find a derivation.
    /// Only a budget of one turn is searched: its end is near.
    pub(crate) fn count_sources(
        &mut self,
        first: ClauseId,
        budget: u64,
    ) -> Result<Option<Answer>, AllocError>
        ensures { IfOk result (λ found. IfSome found (λ answer. IsWithin budget answer)) }
    {
        if budget == 0 {
            return Ok(None);
        }
        let Some((reads, found)) = self.contradiction()? else {
            return Ok(None);
        };
        let nothing = ProofLog::new(self.alloc, first);
        match self.refute_contradiction(&reads, &found, &nothing, budget)? {
            Some(derivation) => Ok(refuted_within(derivation, budget)),
            None if budget > TURN && most_steps(&found) > budget => Ok(Some(Answer::Open)),
            None => Ok(None),
        }
    }
}
