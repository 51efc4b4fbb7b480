//! Why a trace has no legal schedule, by the derivation of a contradiction.

ghost use Rattle.std.specs.Prelude.{◌≡◌, ◌⊎◌, []};
ghost use Rattle.clause_blocks.specs.Clauses.{clauses_of};
ghost use Rattle.dimacs.specs.Models.{HasNoModelIn};
ghost use Rattle.lrat_check.specs.Checked.{IsAccepted};
ghost use Rattle.trace_semantics.specs.Legal.{HasNoSchedule};

use crate::needed_steps::{NeededSteps, needed_steps};
use crate::rests::Rests;
use crate::story::Story;
use crate::telling::Teller;
use clause_blocks::trace_clauses::TraceClauses;
use clause_meaning::clause_runs::ClauseRuns;
use dimacs::ClauseList;
use lrat_check::checker::check;
use lrat_check::derivation::Derivation;
use lrat_check::refusal::Refusal;
use note_text::{Notes, decimal};
use reducer::reduced::reduce;
use std::alloc::{AllocError, Global};
use trace_semantics::trace::Trace;
use verdict_notes::{ShownPlaces, kept_ops};

/// The most hints of a derivation that is said clause by clause, those of all steps together.
const MAX_HINTS: u64 = 60;

/// The most steps of a derivation that is said clause by clause.
const MAX_STEPS: u64 = 5;

/// A search for a derivation that the clauses of a trace contradict each other. Nothing is promised but that the call returns: what it
/// answers may be no derivation.
pub trait Deriver {
    /// The derivation, if one was found.
    fn derivation_of(
        &self,
        alloc: Global,
        clauses: &TraceClauses,
    ) -> Result<Option<Derivation>, AllocError>;
}

/// How much of a derivation was noted.
#[derive(Clone, Copy, Debug, PartialEq, Eq)]
pub enum Telling {
    /// All of it, in sentences.
    InSentences,
    /// On what it rests, or nothing.
    NotInSentences,
    /// Nothing, since the checker refuses it.
    Refused,
}

/// Notes why the trace has no legal schedule, if a derivation is found and the checker accepts it: a short one sentence by sentence, and
/// of a long one on what it rests, with its operations named by these places.
pub fn explain_derivation<D: Deriver>(
    alloc: Global,
    notes: &mut Notes,
    trace: &Trace,
    places: &ShownPlaces,
    deriver: &D,
) -> Result<Telling, AllocError>
    ensures explained { (notes.new ≡ notes.old) ⊎ HasNoSchedule trace.now }
{
    let Ok(reduced) = reduce(alloc, trace) else {
        return Ok(Telling::NotInSentences);
    };
    let clauses = TraceClauses::of(alloc, &reduced)?;
    match deriver.derivation_of(alloc, &clauses)? {
        Some(derivation) => explain_checked(alloc, notes, trace, places, &clauses, &derivation),
        None => Ok(Telling::NotInSentences),
    }
}

/// Notes the derivation, if the checker accepts it.
fn explain_checked(
    alloc: Global,
    notes: &mut Notes,
    trace: &Trace,
    places: &ShownPlaces,
    clauses: &TraceClauses,
    derivation: &Derivation,
) -> Result<Telling, AllocError>
    ensures accepted { (notes.new ≡ notes.old) ⊎ IsAccepted (clauses_of clauses.now) [] derivation.now }
    ensures sound { (notes.new ≡ notes.old) ⊎ HasNoModelIn (clauses_of clauses.now) [] }
{
    match check(alloc, clauses, &[], derivation) {
        Ok(_) => explain_accepted(alloc, notes, trace, places, clauses, derivation),
        Err(Refusal::At(_, _)) => Ok(Telling::Refused),
        Err(Refusal::OutOfMemory) => Err(AllocError),
    }
}

/// Notes the derivation, which the checker has accepted.
fn explain_accepted(
    alloc: Global,
    notes: &mut Notes,
    trace: &Trace,
    places: &ShownPlaces,
    clauses: &TraceClauses,
    derivation: &Derivation,
) -> Result<Telling, AllocError>
    requires { IsAccepted (clauses_of clauses.now) [] derivation.now }
{
    let ops = kept_ops(alloc, trace, places)?;
    // Clauses name operations by their numbers among those that the reduction keeps. Both must number the same ones.
    if ops.len() != clauses.layout().operations() {
        return Ok(Telling::NotInSentences);
    }
    let Some(needed) = needed_steps(alloc, derivation, clauses.count() as u64)? else {
        return Ok(Telling::NotInSentences);
    };
    let meanings = ClauseRuns::of(alloc, clauses)?;
    let rests = Rests::of(alloc, clauses, &meanings, &needed)?;
    let story = Story::new(alloc, ops);
    if needed.count() > MAX_STEPS || needed.hints() > MAX_HINTS {
        rests.explain(notes, &story, needed.count());
        return Ok(Telling::NotInSentences);
    }
    let mut teller = Teller::new(alloc, clauses, meanings, story);
    if !tell_steps(&mut teller, &needed)? {
        return Ok(Telling::NotInSentences);
    }
    let used = rests.count_clauses();
    explain_extent(notes, used, clauses.count() as u64);
    teller.story.note_all(notes);
    Ok(Telling::InSentences)
}

/// Says all steps, in the order of the derivation: the list has the last one first. The answer is whether each of them ends with a contradiction.
/// If one does not, what was said goes nowhere, since sentences are noted only by `note_all`.
fn tell_steps(teller: &mut Teller<'_>, needed: &NeededSteps<'_>) -> Result<bool, AllocError> {
    let steps = needed.steps.as_slice();
    for k in (0..steps.len()).rev() {
        let number = (steps.len() - k) as u64;
        if !teller.tell(needed, &steps[k], number)? {
            return Ok(false);
        }
    }
    Ok(true)
}

/// Notes how many clauses contradict each other, of all clauses of the formula.
fn explain_extent(notes: &mut Notes, used: u64, all: u64) {
    let used = decimal(used);
    let all = decimal(all);
    notes.note(&[
        b"a contradiction of ",
        used.as_slice(),
        b" clauses, of ",
        all.as_slice(),
        b" in all:",
    ]);
}
