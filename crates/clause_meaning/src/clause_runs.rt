//! The runs of a trace's clause list, and what the clause at a place says.

ghost use Rattle.std.specs.Prelude.{◌≡◌, ◌<◌, ◌≤◌, ◌+◌, Some, length, map, slice_get, IfOk};
ghost use Rattle.std.specs.List.{range_with_len};
ghost use Rattle.clause_meaning.specs.Runs as list;
ghost use Rattle.clause_meaning.specs.Starts.{meanings, start_of};

use crate::laws::clauses_say_their_meanings;
use crate::meaning::ClauseMeaning;
use crate::run::ClauseRun;
use crate::run_length::length_of;
use crate::run_list::runs_of;
use crate::within_run::meaning_in;
use clause_blocks::laws::few_clauses;
use clause_blocks::trace_clauses::TraceClauses;
use std::alloc::{AllocError, Global};
use std::marker::Model;
use var_layout::layout::Layout;

/// The runs of a clause list, and where each begins.
#[derive(Drop)]
pub struct ClauseRuns<'a> {
    layout: &'a Layout,
    /// In the order of the clause list. A run may be empty.
    runs: Vec<ClauseRun>,
    /// The number of clauses before each run, and of all after the last one: one entry more than runs.
    starts: Vec<u32>,
}

impl<'a> Model for ClauseRuns<'a> {
    ghost use Rattle.trace_semantics.specs.Trace.{TraceValue};
    ghost use Rattle.clause_meaning.specs.Starts.{AreRuns};

    ghost Value = { TraceValue };

    ghost view = { λ runs. runs.layout.now };

    ghost invariant = { λ runs. AreRuns runs.layout.now runs.runs.items runs.starts.items };
}

/// The number of clauses before each run, and at the end the number of all.
fn starts_of(alloc: Global, layout: &Layout, runs: &[ClauseRun]) -> Result<Vec<u32>, AllocError>
    requires { runs.now ≡ list.runs layout.now }
    ensures { IfOk result (λ starts. starts.items ≡ map (start_of layout.now) (range_with_len 0 (length (list.runs layout.now) + 1))) }
{
    layout.recall_limits();
    few_clauses();
    clauses_say_their_meanings();
    let mut starts = Vec::new(alloc);
    let mut before = 0;
    for k in 0..runs.len() {
        starts.push(before)?;
        before += length_of(layout, runs[k]) as u32;
    }
    starts.push(before)?;
    Ok(starts)
}

impl<'a> ClauseRuns<'a> {
    /// The runs of this clause list.
    pub fn of(alloc: Global, clauses: &'a TraceClauses) -> Result<ClauseRuns<'a>, AllocError>
        ensures { IfOk result (λ runs. runs ≡ clauses.now) }
    {
        let layout = clauses.layout();
        let runs = runs_of(alloc, layout)?;
        let starts = starts_of(alloc, layout, runs.as_slice())?;
        Ok(ClauseRuns {
            layout,
            runs,
            starts,
        })
    }

    /// The number of runs.
    pub fn count(&self) -> usize
        ensures { result ≡ length (list.runs self.now) }
    {
        self.runs.len()
    }

    /// The run under this number, counted from 0.
    pub fn run(&self, k: usize) -> ClauseRun
        requires { k < length (list.runs self.now) }
        ensures { slice_get (list.runs self.now) k ≡ Some result }
    {
        self.runs[k]
    }

    /// The number of clauses before the run under this number.
    pub fn start(&self, k: usize) -> usize
        requires { k < length (list.runs self.now) }
        ensures { result ≡ start_of self.now k }
    {
        let starts = self.starts.as_slice();
        starts[k] as usize
    }

    /// The number of clauses before the run after the one under this number.
    fn end_of(&self, k: usize) -> usize
        requires { k < length (list.runs self.now) }
        ensures { result ≡ start_of self.now (k + 1) }
    {
        let starts = self.starts.as_slice();
        starts[k + 1] as usize
    }

    /// The meaning of the clause at this place of the list, counted from 0, or none past its end.
    pub fn meaning_at(&self, place: usize) -> Option<ClauseMeaning>
        ensures { result ≡ slice_get (meanings self.now) place }
    {
        for k in 0..self.count() {
            let end = self.end_of(k);
            if place < end {
                let first = self.start(k);
                return meaning_in(self.layout, self.run(k), place - first);
            }
        }
        None
    }
}
