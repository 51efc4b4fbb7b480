//! Beam searches of logs of many updates, one after the other.

use beam_search::{Beam, BeamEnding, BeamSearch};
use numbered_log::{Budget, OperationId};
use order_propagation::Propagation;
use placing_walk::has_many_updates;
use std::alloc::{AllocError, Global};

/// The number of beams.
const BEAMS: u32 = 6;

/// The beam of this number. They are narrow, since a beam gets wider where that is needed, and differ in their random numbers.
fn beam(number: u32) -> Beam {
    Beam {
        width: 60,
        imbalance: 30,
        seed: number,
    }
}

/// Searches the log with one beam after the other, within two thirds of the budget, if many of its operations are updates. Returns the schedule
/// if there is one.
pub(crate) fn try_beams(
    alloc: Global,
    order: &mut Propagation<'_>,
) -> Result<Option<Vec<OperationId>>, AllocError> {
    if !has_many_updates(order.log()) || !BeamSearch::can_search(order.log(), order.classes()) {
        return Ok(None);
    }
    let mut rest = order.budget();
    let third = rest.left() / 3;
    let mut budget = rest.share(third.wrapping_mul(2));
    let schedule = schedule_of_beams(alloc, order, &mut budget)?;
    rest.give_back(budget);
    order.set_budget(rest);
    Ok(schedule)
}

/// Searches with one beam after the other, each within half of what is left.
fn schedule_of_beams(
    alloc: Global,
    order: &Propagation<'_>,
    budget: &mut Budget,
) -> Result<Option<Vec<OperationId>>, AllocError> {
    // The table of next writers has about this number of entries.
    let entries = (order.log().count() as u64).saturating_mul(order.classes().count() as u64);
    budget.spend(entries);
    let mut search = BeamSearch::new(alloc, order.log(), order.classes(), order.rows())?;
    for number in 0..BEAMS {
        let mut part = budget.share(budget.left() / 2);
        let ending = search.run(alloc, beam(number), &mut part)?;
        budget.give_back(part);
        if ending == BeamEnding::Scheduled {
            return Ok(Some(Vec::from_slice(alloc, search.schedule())?));
        }
    }
    Ok(None)
}
