//! Searches that share what they learn: each number of workers finds the same, one that lies is found out, one without memory is left out, and one is refuted
//! after a round.

use crate::workers::searches::{formula_of, tree_of};
use crate::workers::talkers::{LATER, TalkEnd, talkers};
use cube_jobs::{OpenGate, Options, SearchRun};
use dimacs::{Assignment, Formula};
use lrat_check::checker::check;
use lrat_check::derivation::{Derivation, Step};
use lrat_check::derivation_copies::are_same;
use proof_log::Answer;
use seat_rounds::{ModelSearch, SeatSearch};
use std::alloc::{AllocError, Global};
use std::process::Abort;
use std::sync::Wait;
use std::thread::Threads;

/// It has a model, so a search that refutes it lies.
pub const ONE_CLAUSE: &str = "p cnf 2 1\n1 2 0\n";

/// A leaf for each of four searches.
pub const FOUR_LEAVES: &[u8] = b"split 1\nsplit 2\nleaf\nleaf\nsplit 2\nleaf\nleaf\n";

/// A leaf for the first search alone.
const ONE_LEAF: &[u8] = b"leaf\n";

/// Conflicts of all four together: they are enough for six rounds of 100 each.
const BUDGET: u64 = 2400;

/// Four searches. The second and the third lie in the fifth round, and the third after fewer conflicts.
const TWO_LIE: [(u32, TalkEnd); 4] = [LATER, (475, TalkEnd::Lies), (450, TalkEnd::Lies), LATER];

/// The same, but that the second finds no memory in the midst of the third round.
const ONE_WITHOUT_MEMORY: [(u32, TalkEnd); 4] = [
    LATER,
    (250, TalkEnd::FindsNoMemory),
    (450, TalkEnd::Lies),
    LATER,
];

/// Four searches that find no memory, the last one in the second round.
const NONE_WITH_MEMORY: [(u32, TalkEnd); 4] = [
    (1, TalkEnd::FindsNoMemory),
    (100, TalkEnd::FindsNoMemory),
    (2, TalkEnd::FindsNoMemory),
    (101, TalkEnd::FindsNoMemory),
];

/// Four searches, the second and the third of which are refuted without a further conflict after the fifth round.
const TWO_REFUTABLE: [(u32, TalkEnd); 4] = [
    LATER,
    (450, TalkEnd::IsRefutable),
    (430, TalkEnd::IsRefutable),
    LATER,
];

/// The same, but that the third lies in the fifth round.
const ONE_LIES_BESIDE_A_REFUTABLE: [(u32, TalkEnd); 4] = [
    LATER,
    (450, TalkEnd::IsRefutable),
    (430, TalkEnd::Lies),
    LATER,
];

/// The answer that this number of workers finds by searches of these ends, with a derivation of at most this many steps.
fn answer_within<R: Threads + Wait + Abort + Sync>(
    alloc: Global,
    rt: &R,
    formula: &Formula,
    ends: &[(u32, TalkEnd)],
    workers: u32,
    steps: u64,
) -> Answer {
    let tree = tree_of(rt, alloc, FOUR_LEAVES);
    let Ok(options) = Options::new(workers, 3, BUDGET, 1) else {
        panic!(rt; "an option is out of its range")
    };
    let Ok(searches) = talkers(alloc, ends) else {
        panic!(rt; "out of memory")
    };
    let run = SearchRun {
        alloc,
        rt,
        options: &options,
        gate: &OpenGate,
    };
    let Ok(mut seats) = SeatSearch::new(alloc, searches, BUDGET) else {
        panic!(rt; "out of memory")
    };
    // Six rounds use up the conflicts, so the answer is there in the seventh at the latest.
    for _ in 0..7 {
        match seats.go_on(&run, formula, &tree, 1, steps) {
            Ok(Some(answer)) => return answer,
            Ok(None) => (),
            Err(_) => panic!(rt; "there is no memory, or no thread"),
        }
    }
    panic!(rt; "there is no answer in seven rounds")
}

/// The answer that this number of workers finds by searches of these ends.
fn answer_by<R: Threads + Wait + Abort + Sync>(
    alloc: Global,
    rt: &R,
    formula: &Formula,
    ends: &[(u32, TalkEnd)],
    workers: u32,
) -> Answer {
    answer_within(alloc, rt, formula, ends, workers, BUDGET)
}

/// The derivation that was found.
fn found(rt: &impl Abort, answer: Answer) -> Derivation {
    match answer {
        Answer::Refuted(derivation) => derivation,
        _ => panic!(rt; "there is no derivation"),
    }
}

/// Asserts that each number of workers finds the same derivation by searches of these ends, of this length.
fn assert_found<R: Threads + Wait + Abort + Sync>(
    alloc: Global,
    rt: &R,
    ends: &[(u32, TalkEnd)],
    length: usize,
) {
    let formula = formula_of(rt, alloc, ONE_CLAUSE);
    let alone = found(rt, answer_by(alloc, rt, &formula, ends, 1));
    assert!(rt; alone.steps().len() == length);
    for workers in &[2_u32, 4, 8] {
        let together = found(rt, answer_by(alloc, rt, &formula, ends, *workers));
        assert!(rt; are_same(&alone, &together), "{workers} workers");
    }
}

// Each addition of the second search rests on the one before it, and the first of a round on all of the round before. So its 475 additions are needed,
// and of each other search 400: what they learned in four rounds. A search without memory is left out: then the third one lies with its 450th addition.
// It rests on 400 of the first and of the fourth, and on the 249 of the second before its memory ended.
#[test]
fn each_number_of_workers_finds_the_same(rt: HostRuntime) {
    assert_found(rt.alloc(), &rt, &TWO_LIE, 1675);
    assert_found(rt.alloc(), &rt, &ONE_WITHOUT_MEMORY, 1499);
}

// The derivation of the second has its 500 additions of five rounds, and of each other search the 400 of the four rounds before: these are all that it has
// taken. The additions of the fifth round have ids from 1602 on, 100 for each search. One that ends in that round comes before it, with 430 of its own.
#[test]
fn a_search_is_refuted_after_a_round_by_what_all_have_learned(rt: HostRuntime) {
    assert_found(rt.alloc(), &rt, &TWO_REFUTABLE, 1700);
    assert_found(rt.alloc(), &rt, &ONE_LIES_BESIDE_A_REFUTABLE, 1630);
    let alloc = rt.alloc();
    let formula = formula_of(&rt, alloc, ONE_CLAUSE);
    let derivation = found(&rt, answer_by(alloc, &rt, &formula, &TWO_REFUTABLE, 4));
    assert!(&rt;
        matches!(
            derivation.steps().last(),
            Some(Step::Addition { id: 1801, .. })
        )
    );
}

// After the fifth round no derivation is short enough, and after the sixth it is longer.
#[test]
fn after_a_derivation_that_is_too_long_the_search_goes_on(rt: HostRuntime) {
    let alloc = rt.alloc();
    let formula = formula_of(&rt, alloc, ONE_CLAUSE);
    let answer = answer_within(alloc, &rt, &formula, &TWO_REFUTABLE, 4, 1699);
    assert!(&rt; matches!(answer, Answer::Open));
    let answer = answer_within(alloc, &rt, &formula, &TWO_REFUTABLE, 4, 1700);
    assert!(&rt; matches!(answer, Answer::Refuted(_)));
}

#[test]
fn a_search_that_lies_is_found_out(rt: HostRuntime) {
    let alloc = rt.alloc();
    let formula = formula_of(&rt, alloc, ONE_CLAUSE);
    let derivation = found(&rt, answer_by(alloc, &rt, &formula, &TWO_LIE, 4));
    assert!(&rt; check(alloc, &formula, &[], &derivation).is_err());
}

#[test]
fn searches_without_memory_leave_the_formula_open(rt: HostRuntime) {
    let alloc = rt.alloc();
    let formula = formula_of(&rt, alloc, ONE_CLAUSE);
    for workers in &[1_u32, 4] {
        let answer = answer_by(alloc, &rt, &formula, &NONE_WITH_MEMORY, *workers);
        assert!(&rt; matches!(answer, Answer::Open), "{workers} workers");
    }
}

/// Two ways to look for a model of `ONE_CLAUSE`. The first finds none, and the second, if it is to find one, that in which the second variable alone is true.
#[derive(Clone, Copy)]
pub struct TwoWays {
    pub finds: bool,
}

impl ModelSearch for TwoWays {
    fn ways(&self) -> usize {
        2
    }

    fn rounds(&self) -> u64 {
        5
    }

    fn look(&self, alloc: Global, way: usize) -> Result<Option<Assignment>, AllocError> {
        if way == 0 || !self.finds {
            return Ok(None);
        }
        let mut values = Vec::with_capacity(alloc, 2)?;
        values.push(false)?;
        values.push(true)?;
        Ok(Some(Assignment::new(values)))
    }
}

/// Returns whether this is the model of the second way.
pub fn is_of_second_way(answer: &Option<Answer>) -> bool {
    match answer {
        Some(Answer::Model(model)) => !model.value(1) && model.value(2),
        _ => false,
    }
}

/// The answer of a round of four searches, of which the second and the third are to lie, while the first two look for a model in two ways. The leaves of the
/// tree stand for the searches. All together have this budget, and each that goes on has the conflicts of five rounds.
fn answer_beside<R: Threads + Wait + Abort + Sync>(
    rt: &R,
    alloc: Global,
    finds: bool,
    leaves: &[u8],
    workers: u32,
    budget: u64,
) -> Option<Answer> {
    let formula = formula_of(rt, alloc, ONE_CLAUSE);
    let tree = tree_of(rt, alloc, leaves);
    let Ok(options) = Options::new(workers, 3, BUDGET, 1) else {
        panic!(rt; "an option is out of its range")
    };
    let Ok(searches) = talkers(alloc, &TWO_LIE) else {
        panic!(rt; "out of memory")
    };
    let run = SearchRun {
        alloc,
        rt,
        options: &options,
        gate: &OpenGate,
    };
    let Ok(mut seats) = SeatSearch::new(alloc, searches, budget) else {
        panic!(rt; "out of memory")
    };
    match seats.look_beside(&run, &formula, &tree, TwoWays { finds }, BUDGET) {
        Ok(answer) => answer,
        Err(_) => panic!(rt; "there is no memory, or no thread"),
    }
}

// The third search lies in this round too, but the model comes first. Without conflicts a model is looked for nevertheless, and so it is in a way
// whose search has no leaf.
#[test]
fn a_model_is_found_beside_the_searches(rt: HostRuntime) {
    for workers in &[1_u32, 2, 4, 8] {
        for budget in &[BUDGET, 0] {
            let answer = answer_beside(&rt, rt.alloc(), true, FOUR_LEAVES, *workers, *budget);
            assert!(&rt; is_of_second_way(&answer), "{workers} workers");
        }
    }
    let answer = answer_beside(&rt, rt.alloc(), true, ONE_LEAF, 4, BUDGET);
    assert!(&rt; is_of_second_way(&answer));
}

// The second search waits: else it would have lied with its 475th addition, and come before the third, which lies with its 450th.
#[test]
fn searches_go_on_beside_those_that_look_for_a_model(rt: HostRuntime) {
    for workers in &[1_u32, 2, 4, 8] {
        match answer_beside(&rt, rt.alloc(), false, FOUR_LEAVES, *workers, BUDGET) {
            Some(Answer::Refuted(derivation)) => {
                assert!(&rt; derivation.steps().len() == 450, "{workers} workers");
            }
            _ => panic!(&rt; "there is no derivation"),
        }
    }
    let answer = answer_beside(&rt, rt.alloc(), false, FOUR_LEAVES, 4, 0);
    assert!(&rt; answer.is_none());
}
