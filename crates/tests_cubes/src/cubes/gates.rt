//! When a gate is called, and what is searched behind it.

use crate::cubes::searches::results_of;
use crate::cubes::texts::{WRITTEN_AGAIN, formula_of, tree_of};
use crate::expectations::{ample, expect};
use cube_jobs::{Gate, Options, Outcome, Settled};
use std::sync::atomic::{AtomicU64, Ordering};

/// A gate that notes its calls, each as a digit: how many jobs a round has when it begins, 2t + 1 before the job of ticket t, and 2t + 2
/// after it.
#[derive(Drop)]
struct NotingGate {
    calls: AtomicU64,
}

impl NotingGate {
    /// Notes a call of this digit.
    fn note(&self, digit: u64) {
        let before = self.calls.load(Ordering::SeqCst);
        let after = before.wrapping_mul(10).wrapping_add(digit);
        self.calls.store(after, Ordering::SeqCst);
    }
}

impl Gate for NotingGate {
    fn begin_round(&self, jobs: usize) {
        self.note(jobs as u64);
    }

    fn before(&self, _worker: u32, ticket: u32) {
        self.note(u64::from(ticket.wrapping_mul(2).wrapping_add(1)));
    }

    fn after(&self, _worker: u32, ticket: u32) {
        self.note(u64::from(ticket.wrapping_mul(2).wrapping_add(2)));
    }
}

/// Returns whether the result is of this leaf, and says that the first leaf has a model and that others were skipped.
fn is_of_leaf(settled: &Settled, leaf: usize) -> bool {
    let is_said = match settled.outcome() {
        Outcome::Model(_) => leaf == 0,
        Outcome::Skipped => leaf > 0,
        Outcome::Refuted(_) => false,
        Outcome::Open => false,
    };
    is_said && settled.ticket() as usize == leaf
}

#[test]
fn calls_the_gate_and_skips_after_a_model(rt: HostRuntime) {
    let alloc = rt.alloc();
    let formula = formula_of(&rt, alloc, WRITTEN_AGAIN);
    let tree = tree_of(&rt, alloc, b"split 1\nleaf\nsplit 2\nleaf\nleaf\n");
    let options = ample(&rt, Options::new(1, 3, 100, 1));
    let gate = NotingGate {
        calls: AtomicU64::new(0),
    };
    let found = results_of(&rt, alloc, &formula, &tree, &options, &gate);
    let results = ample(&rt, found);
    assert!(&rt; gate.calls.load(Ordering::SeqCst) == 3_123_456 && results.len() == 3);
    let mut leaf = 0usize;
    for settled in &results {
        expect(&rt, is_of_leaf(settled, leaf), leaf);
        leaf = leaf.wrapping_add(1);
    }
}
