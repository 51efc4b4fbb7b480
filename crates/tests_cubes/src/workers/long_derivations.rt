//! A long derivation for the one leaf of a tree, of which each worker checks a piece: any number of them comes to the same verdict.

use crate::workers::confirmations::{ALL_RULED_OUT, are_open};
use crate::workers::searches::{formula_of, tree_of};
use cube_jobs::{Job, Outcome};
use dimacs::{Clause, Lit};
use lrat_check::derivation::{Derivation, Step};
use lrat_check::hints::Hints;
use result_ledger::Ledger;
use std::alloc::{AllocError, Global};
use std::process::Abort;
use std::test::Fail;

/// How many steps the derivations have.
const STEPS: u64 = 6_000;

/// The hints of a step, of which the first and the last would do. A derivation with 100,000 steps and hints together is checked in pieces.
const HINTS: [i64; 20] = [1, 1, 1, 1, 1, 1, 1, 1, 1, 1, 1, 1, 1, 1, 1, 1, 1, 1, 1, 2];

/// No step of a derivation stands there.
const NOWHERE: u64 = 10_000;

/// The places of a step that is wrong and of the empty clause, and the leaves that stay open: none if the derivation is accepted.
type DerivationCase = (u64, u64, &'static [u32]);

const CASES: [DerivationCase; 6] = [
    (NOWHERE, 5_999, &[]),
    (NOWHERE, NOWHERE, &[0]),
    (5_900, 5_999, &[0]),
    (10, 5_999, &[0]),
    // What stands behind the empty clause is not looked at.
    (5_900, 2_000, &[]),
    (NOWHERE, 1, &[]),
];

/// The step that adds the clause of these literals under this id.
fn addition(alloc: Global, id: u64, literals: &[Lit], hints: &[i64]) -> Result<Step, AllocError> {
    Ok(Step::Addition {
        id,
        literals: Clause::from_slice(alloc, literals)?,
        hints: Hints::compact(alloc, hints)?,
    })
}

/// The step at this place. It adds the first variable by the first two clauses; a wrong step cites the first alone. At the place of the empty clause it
/// adds that.
fn step_at(alloc: Global, place: u64, wrong: u64, empty: u64) -> Result<Step, AllocError> {
    let id = place.saturating_add(5);
    let first = Lit::new(1).unwrap_or_default();
    if place == wrong {
        addition(alloc, id, &[first], &[1])
    } else if place == empty {
        addition(alloc, id, &[], &[5, 3, 4])
    } else {
        addition(alloc, id, &[first], &HINTS)
    }
}

/// A derivation of many steps with a wrong one and the empty clause at these places.
fn derivation_with(alloc: Global, wrong: u64, empty: u64) -> Result<Derivation, AllocError> {
    let mut steps = Vec::new(alloc);
    for place in 0..STEPS {
        steps.push(step_at(alloc, place, wrong, empty)?)?;
    }
    Ok(Derivation::new(steps))
}

/// The ledger of a tree of one leaf, with this derivation for its answer.
fn ledger_with(rt: &impl Abort, alloc: Global, derivation: Derivation) -> Result<Ledger, Fail> {
    let tree = tree_of(rt, alloc, b"leaf\n");
    let mut ledger = Ledger::new(alloc, &tree)?;
    let answer = Job::new(alloc, 0, &[]).settle(Outcome::Refuted(derivation));
    assert!(rt; ledger.enter(answer).is_ok());
    Ok(ledger)
}

#[test]
fn pieces_of_a_long_derivation_are_found_the_same(rt: HostRuntime) -> Result<(), Fail> {
    let alloc = rt.alloc();
    let formula = formula_of(&rt, alloc, ALL_RULED_OUT);
    for (wrong, empty, open) in &CASES {
        let derivation = derivation_with(alloc, *wrong, *empty)?;
        let ledger = ledger_with(&rt, alloc, derivation)?;
        assert!(&rt; ledger.leaves() == 1);
        for workers in 1..5 {
            let is_right = are_open(&rt, alloc, &formula, &ledger, workers, *open)?;
            assert!(&rt; is_right, "{workers} workers");
        }
    }
    Ok(())
}
