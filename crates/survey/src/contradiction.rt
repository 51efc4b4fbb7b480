//! The contradiction of a part, and what it follows from.
//!
//! `shrinking` looks by it whether fewer operations of a core explain its contradiction, and `another` whether a part of the trace without
//! the operations of other cores has a contradiction too. Both make the part of what they get and refute it again before they use it.

use crate::given_order::GivenOrder;
use crate::log_part::{Chosen, log_part_of};
use conflict_analysis::core_of_conflict;
use numbered_log::{Budget, NumberedLog, OperationId};
use order_propagation::{Propagated, Propagation};
use source_counting::crowded_class;
use std::alloc::{AllocError, Global};
use total_tables::at;

/// Propagates the order of the part of the chosen operations. If that contradicts itself, gives the operations from which the contradiction follows, by
/// their numbers in the whole trace. Gives `None` if propagation finds no contradiction, and also if the budget runs out before: then
/// nothing is known of the part.
///
/// If the budget runs out while the contradiction is explained, the operations may be too few for a contradiction, and the budget is spent.
/// `operations` and `chosen` are the same set, as a list by rising numbers and as a table. `forced` is the whole trace with the order that
/// its program order and pairs force.
pub fn contradicting(
    alloc: Global,
    forced: &GivenOrder<'_>,
    operations: &[OperationId],
    chosen: &Chosen,
    budget: &mut Budget,
) -> Result<Option<Vec<OperationId>>, AllocError> {
    let part = log_part_of(alloc, forced, operations, chosen, budget)?;
    let mut order = Propagation::new(alloc, &part.log, *budget)?;
    let outcome = order.propagate_in_rounds()?;
    let mut core = None;
    if outcome == Propagated::Conflict {
        core = core_of_conflict(alloc, &mut order)?;
    }
    *budget = order.budget();
    let Some(named) = core else {
        return Ok(None);
    };
    let mut found = Vec::new(alloc);
    for operation in &named {
        found.push(at(
            part.numbers.as_slice(),
            operation.number(),
            OperationId::FIRST,
        ))?;
    }
    Ok(Some(found))
}

/// Returns whether the log is refuted by propagation or by counting.
pub fn is_refuted(
    alloc: Global,
    log: &NumberedLog,
    budget: &mut Budget,
) -> Result<bool, AllocError> {
    let mut order = Propagation::new(alloc, log, *budget)?;
    order.spend(log.count() as u64);
    let is_crowded = crowded_class(alloc, log, order.classes())?.is_some();
    let is_refuted = is_crowded || order.propagate_in_rounds()? == Propagated::Conflict;
    *budget = order.budget();
    Ok(is_refuted)
}
