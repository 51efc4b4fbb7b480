//! The ranges of a search's options.

use crate::expectations::expect;
use cube_jobs::{BadOption, Options};

/// Workers, the depth of the first tree, a budget and rounds, and the first of them that is out of its range.
type OptionsCase = (u32, u32, u64, u32, Option<BadOption>);

const TOLD: [OptionsCase; 8] = [
    (1, 0, 0, 1, None),
    (8, 10, 1_000_000_000, 4, None),
    (0, 0, 0, 1, Some(BadOption::Workers)),
    (9, 11, 1_000_000_001, 0, Some(BadOption::Workers)),
    (1, 11, 1_000_000_001, 5, Some(BadOption::Split)),
    (1, 10, 1_000_000_001, 5, Some(BadOption::Budget)),
    (1, 10, 0, 0, Some(BadOption::Rounds)),
    (1, 10, 0, 5, Some(BadOption::Rounds)),
];

/// Returns whether this is reported of these options, which keep their numbers where none is out of its range.
fn is_told(workers: u32, split: u32, budget: u64, rounds: u32, bad: Option<BadOption>) -> bool {
    match Options::new(workers, split, budget, rounds) {
        Ok(options) => {
            let are_first = options.workers() == workers && options.split() == split;
            let are_last = options.budget() == budget && options.rounds() == rounds;
            bad.is_none() && are_first && are_last
        }
        Err(told) => bad == Some(told),
    }
}

#[test]
fn tells_the_first_option_out_of_range(rt: HostRuntime) {
    for (workers, split, budget, rounds, bad) in &TOLD {
        let is_right = is_told(*workers, *split, *budget, *rounds, *bad);
        expect(&rt, is_right, *split as usize);
    }
}
