//! The search of the whole formula where one search of it has stopped: four searches go on, and searches of the trace's states look for a schedule.

use clause_blocks::trace_clauses::TraceClauses;
use cube_jobs::{Gate, SearchFault, SearchRun};
use cube_tree::{Tree, grow};
use dimacs::Assignment;
use proof_log::Attempt;
use seat_rounds::{ModelSearch, SeatSearch};
use solver::{Answer, PreparedFormula, Search};
use state_model::{StateSearchKind, model_by_states};
use std::alloc::{AllocError, Global};
use std::sync::Wait;
use std::thread::Threads;
use trace_semantics::trace::Trace;

/// The depth of a full tree with a leaf for each of the four searches that share what they learn, which `begin_seats` gives. If the trace has fewer
/// split variables, the tree has fewer leaves, and the searches without a leaf wait.
const SEATS_DEPTH: u32 = 2;

/// The rounds of the four searches before the broad searches of states. An easy trace is decided in fewer.
const ROUNDS_BEFORE_BROAD: u64 = 8;

/// Of four traces that the broad searches scheduled, the first one scheduled three.
const BROAD_SEARCHES: [StateSearchKind; 2] = [StateSearchKind::Broad, StateSearchKind::Spendthrift];

/// The rounds whose conflicts the other two of the four have meanwhile. They take about as long as a broad search.
const ROUNDS_BESIDE_BROAD: u64 = 5;

/// The rounds between these and the patient search, which takes up to half a second.
const ROUNDS_BEFORE_PATIENT: u64 = 80;

/// The rounds whose conflicts the other three have meanwhile.
const ROUNDS_BESIDE_PATIENT: u64 = 10;

/// The trace that is searched, and its clauses.
#[derive(Clone, Copy)]
pub(crate) struct KeptTrace<'a> {
    pub(crate) trace: &'a Trace,
    pub(crate) clauses: &'a TraceClauses,
}

/// Searches of the trace's states of these kinds.
#[derive(Clone, Copy)]
struct StateSearches<'a> {
    kept: KeptTrace<'a>,
    kinds: &'a [StateSearchKind],
    /// The rounds whose conflicts one of the four has in about the time of such a search.
    rounds: u64,
}

impl ModelSearch for StateSearches<'_> {
    fn ways(&self) -> usize {
        self.kinds.len()
    }

    fn rounds(&self) -> u64 {
        self.rounds
    }

    fn look(&self, alloc: Global, way: usize) -> Result<Option<Assignment>, AllocError> {
        match self.kinds.get(way) {
            Some(kind) => model_by_states(alloc, self.kept.trace, self.kept.clauses, *kind),
            None => Ok(None),
        }
    }
}

/// The four searches, and what they are run with.
#[derive(Drop)]
struct WholeSearch<'r, 'a, R, G> {
    run: &'r SearchRun<'r, R, G>,
    kept: KeptTrace<'r>,
    tree: Tree,
    seats: SeatSearch<Search<'a>>,
}

impl<'r, 'a, R: Threads + Wait + Sync, G: Gate> WholeSearch<'r, 'a, R, G> {
    /// Goes on for at most this many rounds.
    fn go_on(&mut self, rounds: u64) -> Result<Option<Answer>, SearchFault> {
        let budget = self.run.options.budget();
        self.seats
            .go_on(self.run, self.kept.clauses, &self.tree, rounds, budget)
    }

    /// Has searches of states take the jobs of some of the four for a round. The others have the conflicts of this many rounds.
    fn look_beside(
        &mut self,
        kinds: &[StateSearchKind],
        rounds: u64,
    ) -> Result<Option<Answer>, SearchFault> {
        let budget = self.run.options.budget();
        let states = StateSearches {
            kept: self.kept,
            kinds,
            rounds,
        };
        self.seats
            .look_beside(self.run, self.kept.clauses, &self.tree, states, budget)
    }
}

/// Goes on where one search of the whole formula has stopped: a narrow search of the trace's states looks for a schedule, and then four searches go on until the
/// budget is used up. Two broad searches of states take the jobs of two of them for a round, and later a patient one that of one.
pub(crate) fn search_on<'a, R: Threads + Wait + Sync, G: Gate>(
    run: &SearchRun<'_, R, G>,
    kept: KeptTrace<'_>,
    prepared: &PreparedFormula<'a>,
    first: Attempt<Search<'a>>,
) -> Result<Answer, SearchFault> {
    let alloc = run.alloc;
    let budget = run.options.budget();
    let narrow = StateSearchKind::Narrow;
    if let Some(model) = model_by_states(alloc, kept.trace, kept.clauses, narrow)? {
        return Ok(Answer::Model(model));
    }
    let mut whole = WholeSearch {
        run,
        kept,
        tree: grow(alloc, kept.clauses.layout(), SEATS_DEPTH)?,
        seats: SeatSearch::new(alloc, prepared.begin_seats(alloc, first)?, budget)?,
    };
    match whole.go_on(ROUNDS_BEFORE_BROAD)? {
        // If the conflicts are used up, a schedule is looked for nevertheless.
        None | Some(Answer::Open) => (),
        Some(answer) => return Ok(answer),
    }
    if let Some(answer) = whole.look_beside(&BROAD_SEARCHES, ROUNDS_BESIDE_BROAD)? {
        return Ok(answer);
    }
    // The patient search is not made if the conflicts are used up before: a small budget asks for a soon answer.
    if let Some(answer) = whole.go_on(ROUNDS_BEFORE_PATIENT)? {
        return Ok(answer);
    }
    if let Some(answer) = whole.look_beside(&[StateSearchKind::Patient], ROUNDS_BESIDE_PATIENT)? {
        return Ok(answer);
    }
    // Each round takes a conflict off the budget at least, so there is no further round after as many.
    let answer = whole.go_on(budget)?;
    Ok(answer.unwrap_or(Answer::Open))
}
