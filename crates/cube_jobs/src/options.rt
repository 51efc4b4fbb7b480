//! The options of a search.
ghost use Rattle.std.specs.Prelude.{◌≡◌, ◌≤◌, ◌↔◌, IsOk, IfOk, IfErr, MatchResult, Some, None, Err};
ghost use Rattle.cube_jobs.specs.Options.{OptionsValue, bad_option};

use crate::limits::{MAX_BUDGET, MAX_ROUNDS, MAX_SPLIT, MAX_WORKERS};
use std::marker::Model;
use text_lines::fault::FaultCause;

/// The limits of a search: workers, depth, conflicts and rounds. No verdict rests on them.
#[derive(Clone, Copy)]
pub struct Options {
    workers: u32,
    split: u32,
    budget: u64,
    rounds: u32,
}

impl Model for Options {
    ghost use Rattle.std.specs.Prelude.{◌≡◌, None};
    ghost use Rattle.cube_jobs.specs.Options.{OptionsValue, bad_option};

    ghost Value = { OptionsValue };

    ghost view = { λ o. record { workers = o.workers; split = o.split; budget = o.budget; rounds = o.rounds } };

    ghost invariant = { λ o. bad_option (record { workers = o.workers; split = o.split; budget = o.budget; rounds = o.rounds }) ≡ None };

    ghost inverse = { λ o. record { workers = o.workers; split = o.split; budget = o.budget; rounds = o.rounds } };
}

/// The first of the options that is out of its range.
#[derive(Clone, Copy, Debug, PartialEq, Eq)]
pub enum BadOption {
    /// Not 1 to 8 workers.
    Workers,
    /// A first split deeper than 10.
    Split,
    /// A budget above 1,000,000,000.
    Budget,
    /// Not 1 to 4 rounds.
    Rounds,
}

impl FaultCause for BadOption {
    ghost use Rattle.cube_jobs.specs.Options.{cause_number, cause_name};

    ghost number_of = { cause_number };

    ghost name_of = { cause_name };

    // From 2 on: 1 is no cause, since it says that memory ran out.
    fn number(&self) -> u8 {
        match self {
            BadOption::Workers => 2,
            BadOption::Split => 3,
            BadOption::Budget => 4,
            BadOption::Rounds => 5,
        }
    }

    fn name(&self) -> &'static str {
        match self {
            BadOption::Workers => "Workers",
            BadOption::Split => "Split",
            BadOption::Budget => "Budget",
            BadOption::Rounds => "Rounds",
        }
    }
}

impl Options {
    /// The options of these numbers: workers from 1 to 8, a first split of depth 0 to 10, a budget of 0 to 1,000,000,000
    /// conflicts a cube, and rounds from 1 to 4. Else the first of them that is out of its range.
    pub fn new(workers: u32, split: u32, budget: u64, rounds: u32) -> Result<Options, BadOption>
        ensures { MatchResult result
            (λ options. (options ≡ record { workers = workers; split = split; budget = budget; rounds = rounds }) × (bad_option options ≡ None))
            (λ bad. bad_option (record { workers = workers; split = split; budget = budget; rounds = rounds }) ≡ Some bad) }
    {
        if workers < 1 || workers > MAX_WORKERS {
            return Err(BadOption::Workers);
        }
        if split > MAX_SPLIT {
            return Err(BadOption::Split);
        }
        if budget > MAX_BUDGET {
            return Err(BadOption::Budget);
        }
        if rounds < 1 || rounds > MAX_ROUNDS {
            return Err(BadOption::Rounds);
        }
        Ok(Options {
            workers,
            split,
            budget,
            rounds,
        })
    }

    /// The number of workers that search, from 1 to 8.
    pub fn workers(&self) -> u32
        ensures workers { result ≡ self.now.workers }
        ensures some { 1 ≤ result }
        ensures few { result ≤ 8 }
    {
        self.workers
    }

    /// The largest depth of the first tree, from 0 to 10.
    pub fn split(&self) -> u32
        ensures split { result ≡ self.now.split }
        ensures few { result ≤ 10 }
    {
        self.split
    }

    /// Conflicts per cube, after which it stays open.
    pub fn budget(&self) -> u64
        ensures { result ≡ self.now.budget }
    {
        self.budget
    }

    /// The largest number of rounds, from 1 to 4. Between two of them the open leaves are split.
    pub fn rounds(&self) -> u32
        ensures rounds { result ≡ self.now.rounds }
        ensures some { 1 ≤ result }
        ensures few { result ≤ 4 }
    {
        self.rounds
    }
}

/// Returns the number of workers, at most one for each leaf, and so 0 if there is no leaf. Callers take 0 and 1 alike: they start no thread.
pub fn needed(workers: u32, leaves: usize) -> u32
    ensures few { result ≤ workers }
    ensures used { result ≤ leaves }
{
    if leaves < workers as usize {
        leaves as u32
    } else {
        workers
    }
}
