//! Searches in threads: what one worker waits for, another one does.

use cnf_text::read_cnf;
use cube_jobs::{Gate, OpenGate, Options, Outcome, Settled};
use cube_queue::search;
use cube_tree::{Tree, read_tree};
use dimacs::{Assignment, Formula};
use result_ledger::{Ledger, Verdict};
use solver::{EncodingHints, PreparedFormula};
use std::alloc::Global;
use std::process::Abort;
use std::sync::Wait;
use std::sync::atomic::{AtomicBool, Ordering};
use std::thread::{Threads, yield_now};

/// A process writes the initial value again, and another one reads it. There are two models: 1, -2, 3 and -1, 2, -3.
const WRITTEN_AGAIN: &str = "p cnf 3 3\n2 3 0\n-2 -1 0\n-3 1 0\n";

/// Each choice of truth values for three variables is ruled out by one clause.
const ALL_RULED_OUT: &str =
    "p cnf 3 8\n1 2 3 0\n1 2 -3 0\n1 -2 3 0\n1 -2 -3 0\n-1 2 3 0\n-1 2 -3 0\n-1 -2 3 0\n-1 -2 -3 0\n";

/// A leaf for each choice of truth values for three variables. The cube of leaf 0 is 1, 2, 3, that of leaf 1 is 1, 2, -3, and so on: the
/// model 1, -2, 3 is in leaf 2, and -1, 2, -3 in leaf 5.
const EIGHT_LEAVES: &[u8] =
    b"split 1\nsplit 2\nsplit 3\nleaf\nleaf\nsplit 3\nleaf\nleaf\nsplit 2\nsplit 3\nleaf\nleaf\nsplit 3\nleaf\nleaf\n";

/// A leaf for each truth value of the first variable.
const TWO_LEAVES: &[u8] = b"split 1\nleaf\nleaf\n";

/// The number of looks that a held worker takes before it gives up.
const MAX_LOOKS: u32 = 1_000_000;

/// Tickets in a row, from the first to the last.
#[derive(Clone, Copy)]
struct TicketRange {
    first: u32,
    last: u32,
}

impl TicketRange {
    /// Returns whether this ticket is one of them.
    fn has(self, ticket: u32) -> bool {
        self.first <= ticket && ticket <= self.last
    }
}

/// No ticket of eight leaves.
const NO_TICKET: TicketRange = TicketRange { first: 8, last: 8 };

/// A gate that holds some cubes before they are searched until another one is settled.
#[derive(Drop)]
struct SearchGate {
    held: TicketRange,
    awaited: u32,
    is_settled: AtomicBool,
    gave_up: AtomicBool,
}

impl SearchGate {
    /// A gate that holds the cubes of these tickets until that of the awaited one is settled.
    fn new(held: TicketRange, awaited: u32) -> SearchGate {
        SearchGate {
            held,
            awaited,
            is_settled: AtomicBool::new(false),
            gave_up: AtomicBool::new(false),
        }
    }

    /// Waits until the awaited cube is settled, but not for ever.
    fn hold(&self) {
        for _look in 0..MAX_LOOKS {
            if self.is_settled.load(Ordering::SeqCst) {
                return;
            }
            yield_now();
        }
        self.gave_up.store(true, Ordering::SeqCst);
    }
}

impl Gate for SearchGate {
    fn before(&self, _worker: u32, ticket: u32) {
        if self.held.has(ticket) {
            self.hold();
        }
    }

    fn after(&self, _worker: u32, ticket: u32) {
        if ticket == self.awaited {
            self.is_settled.store(true, Ordering::SeqCst);
        }
    }
}

/// The formula of the text.
pub fn formula_of(rt: &impl Abort, alloc: Global, text: &str) -> Formula {
    match read_cnf(alloc, text.as_bytes()) {
        Ok(formula) => formula,
        Err(_) => panic!(rt; "the formula is refused"),
    }
}

/// The tree of the text.
pub fn tree_of(rt: &impl Abort, alloc: Global, text: &[u8]) -> Tree {
    match read_tree(alloc, text) {
        Ok((tree, _)) => tree,
        Err(_) => panic!(rt; "the tree is refused"),
    }
}

/// The findings of a search of all leaves with this number of workers.
fn results_of<R: Threads + Wait + Abort + Sync, G: Gate + Sync>(
    alloc: Global,
    rt: &R,
    formula: &Formula,
    tree: &Tree,
    workers: u32,
    gate: &G,
) -> Vec<Settled> {
    let Ok(options) = Options::new(workers, 3, 100, 1) else {
        panic!(rt; "an option is out of its range")
    };
    let Ok(ledger) = Ledger::new(alloc, tree) else {
        panic!(rt; "out of memory")
    };
    let Ok(which) = ledger.unanswered(alloc) else {
        panic!(rt; "out of memory")
    };
    let Ok(prepared) = PreparedFormula::of(alloc, formula, EncodingHints::none()) else {
        panic!(rt; "out of memory")
    };
    match search(
        alloc,
        rt,
        formula,
        &prepared,
        tree,
        which.as_slice(),
        &options,
        gate,
    ) {
        Ok(results) => results,
        Err(_) => panic!(rt; "there are no results"),
    }
}

/// The verdict that follows from the results, each of which the ledger of the tree takes.
fn verdict_of<R: Threads + Abort + Sync>(
    alloc: Global,
    rt: &R,
    formula: &Formula,
    tree: &Tree,
    results: Vec<Settled>,
) -> Verdict {
    let Ok(ledger) = Ledger::new(alloc, tree) else {
        panic!(rt; "out of memory")
    };
    let mut ledger = ledger;
    for settled in results {
        assert!(rt; ledger.enter(settled).is_ok());
    }
    match ledger.confirm(alloc, rt, formula, 8) {
        Ok(verdict) => verdict,
        Err(_) => panic!(rt; "out of memory"),
    }
}

/// Returns whether there is one result of each of the eight leaves, and no other.
fn are_of_eight_leaves(results: &[Settled]) -> bool {
    let mut seen = 0_u32;
    for settled in results {
        seen |= 1_u32.checked_shl(settled.ticket()).unwrap_or(0);
    }
    results.len() == 8 && seen == 255
}

/// Returns whether these are the values of the variables 1, 2 and 3.
fn has_values(truth: &Assignment, first: bool, second: bool, third: bool) -> bool {
    truth.value(1) == first && truth.value(2) == second && truth.value(3) == third
}

/// Returns whether the result may be one of `WRITTEN_AGAIN`. In the leaves 2 and 5 there is a model and no other. Each other cube makes a
/// clause false: `-2 -1` in the leaves 0 and 1, `2 3` in 3 and 7, `-3 1` in 4 and 6. Leaf 2 is the lowest one with a model, so nothing up
/// to it is skipped. No cube stays open.
fn may_be_of_written_again(settled: &Settled) -> bool {
    let leaf = settled.ticket();
    match settled.outcome() {
        Outcome::Model(truth) => {
            (leaf == 2 && has_values(truth, true, false, true))
                || (leaf == 5 && has_values(truth, false, true, false))
        }
        Outcome::Refuted(_) => leaf != 2 && leaf != 5,
        Outcome::Skipped => leaf > 2,
        Outcome::Open => false,
    }
}

/// Returns whether the results are those of the eight leaves for `WRITTEN_AGAIN`, and those of these tickets were skipped.
fn are_of_written_again(results: &[Settled], skipped: TicketRange) -> bool {
    for settled in results {
        let is_past = skipped.has(settled.ticket());
        let is_skipped = matches!(settled.outcome(), Outcome::Skipped);
        if !may_be_of_written_again(settled) || (is_past && !is_skipped) {
            return false;
        }
    }
    are_of_eight_leaves(results)
}

/// Returns whether the verdict is the model of this leaf.
fn is_model_of(verdict: &Verdict, of: u32) -> bool {
    match verdict {
        Verdict::Consistent(leaf, truth) => *leaf == of && has_values(truth, true, false, true),
        Verdict::Inconsistent(_) => false,
        Verdict::Unknown(_) => false,
    }
}

/// Returns whether the results are a model in leaf 0 and that leaf 1 was skipped, in either order.
fn is_second_skipped(results: &[Settled]) -> bool {
    let mut first = false;
    let mut second = false;
    for settled in results {
        match settled.outcome() {
            Outcome::Model(truth) => {
                first = settled.ticket() == 0 && has_values(truth, true, false, true);
            }
            Outcome::Skipped => second = settled.ticket() == 1,
            Outcome::Refuted(_) => return false,
            Outcome::Open => return false,
        }
    }
    results.len() == 2 && first && second
}

/// Returns whether the results are those of the eight leaves, and each leaf is refuted.
fn are_all_refuted(results: &[Settled]) -> bool {
    for settled in results {
        if !matches!(settled.outcome(), Outcome::Refuted(_)) {
            return false;
        }
    }
    are_of_eight_leaves(results)
}

/// Asserts what this number of workers finds behind the gate for `ALL_RULED_OUT`: each leaf is refuted, and the ledger accepts that.
fn assert_refutes_all<R: Threads + Wait + Abort + Sync, G: Gate + Sync>(
    alloc: Global,
    rt: &R,
    tree: &Tree,
    workers: u32,
    gate: &G,
) {
    let formula = formula_of(rt, alloc, ALL_RULED_OUT);
    let results = results_of(alloc, rt, &formula, tree, workers, gate);
    assert!(rt; are_all_refuted(results.as_slice()), "{workers} workers");
    let verdict = verdict_of(alloc, rt, &formula, tree, results);
    assert!(rt;
        matches!(verdict, Verdict::Inconsistent(8)),
        "{workers} workers"
    );
}

/// Asserts what this number of workers finds behind the gate for `WRITTEN_AGAIN`: what may be found there, with these tickets skipped, and
/// the model of leaf 2 as the verdict, whatever else was skipped.
fn assert_finds_leaf_2<R: Threads + Wait + Abort + Sync, G: Gate + Sync>(
    alloc: Global,
    rt: &R,
    tree: &Tree,
    workers: u32,
    gate: &G,
    skipped: TicketRange,
) {
    let formula = formula_of(rt, alloc, WRITTEN_AGAIN);
    let results = results_of(alloc, rt, &formula, tree, workers, gate);
    let are_right = are_of_written_again(results.as_slice(), skipped);
    assert!(rt; are_right, "{workers} workers");
    let verdict = verdict_of(alloc, rt, &formula, tree, results);
    assert!(rt; is_model_of(&verdict, 2), "{workers} workers");
}

/// The number of workers, the cubes that are held, and the cube that is awaited.
const HELD: [(u32, TicketRange, u32); 3] = [
    (2, TicketRange { first: 0, last: 0 }, 7),
    (8, TicketRange { first: 0, last: 0 }, 7),
    (8, TicketRange { first: 0, last: 6 }, 7),
];

// Jobs are taken in the order of their tickets. So one of two workers settles seven cubes while the other one is held. With seven of
// eight workers held, each at a cube of its own, the awaited cube is left for the eighth: with fewer threads than that it would never
// be settled.
#[test]
fn another_worker_goes_on_where_one_is_held(rt: HostRuntime) {
    let alloc = rt.alloc();
    let tree = tree_of(&rt, alloc, EIGHT_LEAVES);
    for (workers, held, awaited) in &HELD {
        let gate = SearchGate::new(*held, *awaited);
        assert_refutes_all(alloc, &rt, &tree, *workers, &gate);
        assert!(&rt; !gate.gave_up.load(Ordering::SeqCst), "{workers} workers");
    }
}

/// The number of workers, and the cubes that are held until leaf 2 is settled.
const HELD_ABOVE: [(u32, TicketRange); 4] = [
    (2, TicketRange { first: 5, last: 5 }),
    (8, TicketRange { first: 5, last: 5 }),
    (2, TicketRange { first: 3, last: 7 }),
    (8, TicketRange { first: 3, last: 7 }),
];

// A worker that finds a model marks its ticket before it gives the result, and a worker looks at the mark after it was held. So what was
// held until leaf 2 is settled has to be skipped: the cube with the other model too, and all that lie above.
#[test]
fn skips_what_lies_above_a_model(rt: HostRuntime) {
    let alloc = rt.alloc();
    let tree = tree_of(&rt, alloc, EIGHT_LEAVES);
    for (workers, held) in &HELD_ABOVE {
        let gate = SearchGate::new(*held, 2);
        assert_finds_leaf_2(alloc, &rt, &tree, *workers, &gate, *held);
        assert!(&rt; !gate.gave_up.load(Ordering::SeqCst), "{workers} workers");
    }
}

// Two hundred of each formula. If no worker is held, no ticket has to be skipped.
#[test]
fn two_hundred_searches_lose_nothing(rt: HostRuntime) {
    let alloc = rt.alloc();
    let tree = tree_of(&rt, alloc, EIGHT_LEAVES);
    for _search in 0..200 {
        assert_refutes_all(alloc, &rt, &tree, 8, &OpenGate);
        assert_finds_leaf_2(alloc, &rt, &tree, 8, &OpenGate, NO_TICKET);
    }
}

// The tree has a split on the first variable: the model 1, -2, 3 is in leaf 0, and -1, 2, -3 in leaf 1. The search of leaf 1 is held until
// leaf 0 is settled.
#[test]
fn skips_the_second_of_two_leaves_after_a_model_in_the_first(rt: HostRuntime) {
    let alloc = rt.alloc();
    let tree = tree_of(&rt, alloc, TWO_LEAVES);
    let formula = formula_of(&rt, alloc, WRITTEN_AGAIN);
    let gate = SearchGate::new(TicketRange { first: 1, last: 1 }, 0);
    let results = results_of(alloc, &rt, &formula, &tree, 2, &gate);
    assert!(&rt; !gate.gave_up.load(Ordering::SeqCst));
    assert!(&rt; is_second_skipped(results.as_slice()));
    let verdict = verdict_of(alloc, &rt, &formula, &tree, results);
    assert!(&rt; is_model_of(&verdict, 0));
}
