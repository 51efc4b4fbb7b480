//! What to try if a trace is not decided.

use crate::open_cubes::explain_open_cubes;
use crate::shown_places::ShownPlaces;
use cube_jobs::limits::{MAX_BUDGET, MAX_ROUNDS, MAX_WORKERS};
use note_text::{Notes, decimal};
use std::alloc::{AllocError, Global};
use trace_semantics::trace::Trace;

/// A budget with which most searches end that end at all, in conflicts of a cube.
const LARGE_BUDGET: u64 = 1_000_000;

/// What a search was allowed.
#[derive(Clone, Copy)]
pub struct SearchEffort {
    /// Threads that searched.
    pub workers: u32,
    /// Conflicts of a cube, after which its search was given up.
    pub budget: u64,
    /// Rounds of the search.
    pub rounds: u32,
}

/// Notes what to try if the search of the trace was given up, and of the report, if it is at hand, which cubes are open.
/// The report is what the search has written to standard output; a long one is not kept. The places are those under which notes name operations.
pub fn explain_undecided(
    alloc: Global,
    notes: &mut Notes,
    trace: &Trace,
    places: &ShownPlaces,
    effort: SearchEffort,
    report: Option<&[u8]>,
) -> Result<(), AllocError> {
    if let Some(report) = report {
        explain_open_cubes(alloc, notes, trace, places, report)?;
    }
    advise_budget(notes, effort.budget);
    advise_rounds(notes, effort.rounds);
    advise_workers(notes, effort.workers);
    Ok(())
}

/// The next budget to try: the large one first, then ten times as much, up to what the option takes.
fn next_budget(budget: u64) -> u64 {
    if budget < LARGE_BUDGET {
        LARGE_BUDGET
    } else {
        budget.saturating_mul(10).min(MAX_BUDGET)
    }
}

/// Notes which budget to try.
fn advise_budget(notes: &mut Notes, budget: u64) {
    if budget >= MAX_BUDGET {
        return;
    }
    let next = decimal(next_budget(budget));
    let now = decimal(budget);
    notes.note(&[
        b"try --budget ",
        next.as_slice(),
        b" in place of ",
        now.as_slice(),
        b": it bounds proofs by counting too",
    ]);
}

/// Notes that the most of an option may be tried, and for what, if there are fewer now.
fn advise_most(notes: &mut Notes, now: u32, most: u32, option: &[u8], why: &[u8]) {
    if now < most {
        notes.note(&[b"try ", option, b" ", decimal(most as u64).as_slice(), why]);
    }
}

/// Notes how many rounds to try.
fn advise_rounds(notes: &mut Notes, rounds: u32) {
    let why = b": each round splits the cubes that are open";
    advise_most(notes, rounds, MAX_ROUNDS, b"--rounds", why);
}

/// Notes how many workers to try.
fn advise_workers(notes: &mut Notes, workers: u32) {
    let why = b", if there are as many processors: it searches more cubes at once";
    advise_most(notes, workers, MAX_WORKERS, b"--workers", why);
}
