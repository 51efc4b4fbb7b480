//! The first propagation of a log, which is cut where windows promise more.

use crate::searching::{give_back, keep_all_but};
use numbered_log::NumberedLog;
use order_propagation::{Propagated, Propagation};
use std::alloc::AllocError;

/// The number of operations above which a log is large.
const LARGE_LOG: u32 = 1 << 17;

/// Returns the number by which the budget is divided to give what propagation may take if many readers have several sources. In a large log it
/// finds little in that time, and the windows find more.
fn part_of_propagation(log: &NumberedLog) -> u64 {
    if log.count() > LARGE_LOG { 64 } else { 8 }
}

/// Narrows in rounds, and propagates. If more than an eighth of the operations are readers with several sources then, what is left has a part
/// of the budget.
pub(crate) fn propagate_at_first(order: &mut Propagation<'_>) -> Result<Propagated, AllocError> {
    let narrowed = order.narrow_in_rounds()?;
    if narrowed != Propagated::Done {
        return Ok(narrowed);
    }
    let mut part: u64 = 1;
    if order.undecided() > order.log().count() / 8 {
        part = part_of_propagation(order.log());
    }
    let rest = keep_all_but(order, part);
    let propagated = order.propagate()?;
    give_back(order, rest);
    Ok(propagated)
}
