//! Conflicts that an answer takes.

use crate::expectations::{ample, expect};
use crate::solving::answers::{Shown, solved};
use crate::solving::formulas::{PIGEONHOLE, STORE_BUFFERING, listed};
use dimacs::Formula;
use proof_log::ClauseId;
use proof_log::codes::Variable;
use solver::{Element, EncodingHints, ReadsFromTable, ReadsFromVariable};
use std::alloc::{AllocError, Global};
use std::process::Abort;

/// Gives what is known of the reads of store buffering: each of the two takes place before the other process writes.
fn store_buffering_reads(alloc: Global) -> Result<ReadsFromTable, AllocError> {
    let mut reads_from = ReadsFromTable::new(alloc, 4)?;
    reads_from.add_writer(Element::new(1), Element::new(2));
    reads_from.add_writer(Element::new(3), Element::new(0));
    for (variable, reader, first) in [(7, 1, 12), (8, 3, 14)] {
        reads_from.add_choice(ReadsFromVariable {
            variable: Variable::new(variable),
            reader: Element::new(reader),
            writer: None,
            first: ClauseId::new(first),
        })?;
    }
    Ok(reads_from)
}

/// Asserts that one conflict shows that the formula has no model, and that none shows nothing.
fn assert_one_conflict(rt: &impl Abort, alloc: Global, formula: &Formula, encoding: EncodingHints) {
    let nothing = solved(rt, alloc, formula, &[], encoding, 0);
    expect(rt, nothing == Shown::Nothing, 0);
    let no_model = solved(rt, alloc, formula, &[], encoding, 1);
    expect(rt, no_model == Shown::NoModel(1), 1);
}

#[test]
fn store_buffering_takes_one_conflict(rt: HostRuntime) {
    let formula = ample(&rt, listed(rt.alloc(), 8, &STORE_BUFFERING));
    let reads_from = ample(&rt, store_buffering_reads(rt.alloc()));
    let with_order = EncodingHints::with_order(4, ClauseId::new(3));
    let with_reads = with_order.with_reads_from(&reads_from);
    for encoding in [EncodingHints::none(), with_order, with_reads] {
        assert_one_conflict(&rt, rt.alloc(), &formula, encoding);
    }
}

#[test]
fn a_clause_without_literals_takes_one_conflict(rt: HostRuntime) {
    let formula = ample(&rt, listed(rt.alloc(), 1, &[&[]]));
    assert_one_conflict(&rt, rt.alloc(), &formula, EncodingHints::none());
}

/// Returns whether this number of conflicts shows that the formula has no model. Else they show nothing.
fn is_refuted(rt: &impl Abort, alloc: Global, formula: &Formula, budget: u64) -> bool {
    match solved(rt, alloc, formula, &[], EncodingHints::none(), budget) {
        Shown::NoModel(_) => true,
        Shown::Nothing => false,
        _ => panic!(rt; "a model is found, or an answer is refused"),
    }
}

#[test]
fn pigeons_take_the_same_budget_each_time(rt: HostRuntime) {
    let formula = ample(&rt, listed(rt.alloc(), 12, &PIGEONHOLE));
    let mut least = 0;
    for budget in 0..100u64 {
        if is_refuted(&rt, rt.alloc(), &formula, budget) {
            least = if least == 0 { budget } else { least };
        } else {
            // Fewer were not enough either.
            expect(&rt, least == 0, budget as usize);
        }
    }
    assert!(rt; least > 1);
}
