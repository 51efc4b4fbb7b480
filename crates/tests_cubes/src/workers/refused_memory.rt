//! Searches that share what they learn may be refused memory in each of their rounds: then one of them is left out or skips a round, or the call says so. With
//! memory enough the test shows that the call succeeds; `tests/refused-memory` runs it with each request for memory refused in turn.

use crate::expectations::{ample, expect};
use crate::workers::seats::{FOUR_LEAVES, ONE_CLAUSE, TwoWays, is_of_second_way};
use crate::workers::talkers::{LATER, TalkEnd, talkers};
use cnf_text::read_cnf;
use cube_jobs::{OpenGate, Options, SearchRun};
use cube_tree::{Tree, read_tree};
use dimacs::Formula;
use proof_log::Answer;
use seat_rounds::SeatSearch;
use std::alloc::{AllocError, Global};
use std::process::Abort;
use std::sync::Wait;
use std::test::Fail;
use std::thread::Threads;
use text_lines::plain_fault::PlainFault;

/// Conflicts of all four together: each has 200 in a first round and 50 in a second one.
const BUDGET: u64 = 1000;

/// Four searches. The second lies in the second round.
const ONE_LIES: [(u32, TalkEnd); 4] = [LATER, (230, TalkEnd::Lies), LATER, LATER];

/// The steps that are needed: the 230 of the second search, and 200 of each other one, which are its first round.
const NEEDED: usize = 830;

/// The steps that are needed if one of the others has none.
const LEAST: usize = 630;

/// The steps of all rounds.
const MOST: usize = 980;

/// The formula of one clause.
fn formula_if_memory(alloc: Global) -> Result<Formula, AllocError> {
    match read_cnf(alloc, ONE_CLAUSE.as_bytes()) {
        Ok(formula) => Ok(formula),
        Err(_) => Err(AllocError),
    }
}

/// The tree of four leaves.
fn tree_if_memory(alloc: Global) -> Result<Tree, AllocError> {
    match read_tree(alloc, FOUR_LEAVES) {
        Ok((tree, _)) => Ok(tree),
        Err(_) => Err(AllocError),
    }
}

/// What one worker finds, or nothing if the call says that there is no memory: in rounds, or in one in which two searches look for a model.
fn found_once<R: Threads + Wait + Abort + Sync>(
    alloc: Global,
    rt: &R,
    formula: &Formula,
    tree: &Tree,
    looks: bool,
) -> Result<Option<Answer>, AllocError> {
    let options = ample(rt, Options::new(1, 3, BUDGET, 1));
    let searches = talkers(alloc, &ONE_LIES)?;
    let run = SearchRun {
        alloc,
        rt,
        options: &options,
        gate: &OpenGate,
    };
    let mut seats = SeatSearch::new(alloc, searches, BUDGET)?;
    let found = if looks {
        seats.look_beside(&run, formula, tree, TwoWays { finds: true }, BUDGET)
    } else {
        seats.go_on(&run, formula, tree, BUDGET, BUDGET)
    };
    match found {
        Ok(answer) => Ok(answer),
        Err(fault) => {
            expect(rt, matches!(fault, PlainFault::OutOfMemory), 0);
            Ok(None)
        }
    }
}

/// Returns how many steps the answer has, which is 0 for one that is open.
fn length_of(rt: &impl Abort, answer: &Option<Answer>) -> usize {
    match answer {
        Some(Answer::Refuted(derivation)) => derivation.steps().len(),
        Some(Answer::Model(_)) => panic!(rt; "there is a model"),
        Some(Answer::Open) => 0,
        None => 0,
    }
}

#[test]
fn a_round_without_memory_gives_no_other_answer(rt: HostRuntime) -> Result<(), Fail> {
    let formula = formula_if_memory(rt.alloc())?;
    let tree = tree_if_memory(rt.alloc())?;
    let found = found_once(rt.alloc(), &rt, &formula, &tree, false)?;
    let length = length_of(&rt, &found);
    if length == NEEDED {
        return Ok(());
    }
    expect(
        &rt,
        length == 0 || (LEAST <= length && length <= MOST),
        length,
    );
    let again = found_once(rt.alloc(), &rt, &formula, &tree, false)?;
    let length = length_of(&rt, &again);
    expect(&rt, length == NEEDED, length);
    Ok(())
}

#[test]
fn a_look_without_memory_finds_no_other_model(rt: HostRuntime) -> Result<(), Fail> {
    let formula = formula_if_memory(rt.alloc())?;
    let tree = tree_if_memory(rt.alloc())?;
    let found = found_once(rt.alloc(), &rt, &formula, &tree, true)?;
    if is_of_second_way(&found) {
        return Ok(());
    }
    expect(&rt, found.is_none(), 0);
    let again = found_once(rt.alloc(), &rt, &formula, &tree, true)?;
    expect(&rt, is_of_second_way(&again), 0);
    Ok(())
}
