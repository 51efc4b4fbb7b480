//! Orders of two operations as chains of shorter ones.

use crate::facts::{Facts, OrderReason};
use std::alloc::{AllocError, Global};
use verdict_notes::KeptOp;

/// The most steps in which a chain is taken apart. Of a trace that is noted at most 160 operations are kept, so a chain that meets none of them
/// twice takes fewer than 320. Before a contradiction is reached the known orders may have a cycle, and then chains may be far longer.
const MAX_STEPS: u64 = 2_000;

/// The operations from the first to the second, both included, each of which stands before the next one for a reason that is no chain. If
/// the bound is reached, the chain is a front of the whole one, and does not reach the second operation.
pub fn chain_between(
    alloc: Global,
    facts: &Facts,
    first: usize,
    second: usize,
) -> Result<Vec<usize>, AllocError> {
    let mut chain = Vec::new(alloc);
    chain.push(first)?;
    let mut due = Vec::new(alloc);
    due.push((first, second))?;
    for _ in 0..MAX_STEPS {
        let Some((from, to)) = due.pop() else {
            break;
        };
        match facts.reason_of(from, to) {
            Some(OrderReason::Through(middle)) => {
                // The last pair is taken first, so the nearer half comes last and the chain grows from its first operation on.
                due.push((middle, to))?;
                due.push((from, middle))?;
            }
            _ => chain.push(to)?,
        }
    }
    Ok(chain)
}

/// Returns whether the first operation stands before the second in one process.
pub fn is_program_order(ops: &[KeptOp<'_>], first: usize, second: usize) -> bool {
    match (ops.get(first), ops.get(second)) {
        (Some(first), Some(second)) => {
            first.process == second.process && first.place < second.place
        }
        _ => false,
    }
}

/// The chain without the operations that stand between two others of their process: program order leads over them. The first and the last
/// operation are always kept. Neighbours are those of the whole chain, so of a run of one process its two ends are left.
pub fn shortened(
    alloc: Global,
    ops: &[KeptOp<'_>],
    chain: &[usize],
) -> Result<Vec<usize>, AllocError> {
    let mut kept = Vec::new(alloc);
    for k in 0..chain.len() {
        if !is_inner(ops, chain, k) {
            kept.push(chain[k])?;
        }
    }
    Ok(kept)
}

/// Returns whether the operation at this place stands between its neighbours in their process.
fn is_inner(ops: &[KeptOp<'_>], chain: &[usize], k: usize) -> bool {
    if k == 0 || k >= chain.len() {
        return false;
    }
    match chain.get(k + 1) {
        Some(next) => {
            is_program_order(ops, chain[k - 1], chain[k]) && is_program_order(ops, chain[k], *next)
        }
        None => false,
    }
}
