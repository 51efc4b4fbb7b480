//! Another contradiction of the same trace, whose core may be smaller.
//!
//! All numbers of steps here are looks at entries of tables, as a `Budget` counts them.

use crate::contradiction::contradicting;
use crate::given_order::GivenOrder;
use crate::log_part::Chosen;
use crate::shrinking::Core;
use numbered_log::{Budget, OperationId};
use std::alloc::{AllocError, Global};
use total_tables::at;

/// Operations of a core that is small enough.
pub const SMALL: u32 = 8;

/// The largest number of other contradictions that are looked for. Each costs a saturation of the whole trace.
const MAX_TRIES: u32 = 60;

/// The largest number of contradictions that are looked for apart from all before.
const MAX_APART: u32 = 8;

/// The number of steps that the search for others may take in any case. Beyond it, it takes at most as many as the first core did: what
/// makes a core somewhat smaller is not worth more than what found it.
const LEAST_FOR_ANOTHER: u64 = 4_000_000;

/// The operations of a core beyond which its part may be too large to be refuted.
const LARGE: u32 = 40;

/// The number of steps that the search for others may take in any case if the core is large.
const LEAST_FOR_LARGE: u64 = 60_000_000;

/// The steps that the search for others may take: about as many as found the core, or some. A large core is worth more of them, since its
/// part may be too large to be refuted. `spent` is what the survey took to find the first core.
fn steps_for_another(core: &Core<'_>, spent: u64) -> u64 {
    if core.count() > LARGE {
        spent.max(LEAST_FOR_LARGE)
    } else {
        spent.max(LEAST_FOR_ANOTHER)
    }
}

/// A core that is found in a part of the trace, before it is made smaller. What the part loses, no part of it finds again, so the core is
/// one of the whole.
fn core_within<'a>(
    alloc: Global,
    forced: &'a GivenOrder<'a>,
    within: &Chosen,
    budget: &mut Budget,
) -> Result<Option<Core<'a>>, AllocError> {
    let operations = within.all(alloc)?;
    let Some(found) = contradicting(alloc, forced, operations.as_slice(), within, budget)? else {
        return Ok(None);
    };
    let mut core = Core::new(alloc, forced, found)?;
    core.complete(budget)?;
    if !core.is_refuted(budget)? {
        return Ok(None);
    }
    Ok(Some(core))
}

/// Makes the core smaller, or puts another one in its place. Others are looked for as long as it has more than eight operations, with no more
/// steps than the `spent` ones that found it, or some. They come first since the price of making a core smaller grows with the square of
/// its operations.
pub fn make_smaller<'a>(
    alloc: Global,
    forced: &'a GivenOrder<'a>,
    core: &mut Core<'a>,
    spent: u64,
    budget: &mut Budget,
) -> Result<(), AllocError> {
    let steps = steps_for_another(core, spent);
    let mut share = budget.share(steps);
    apart_from_each(alloc, forced, core, &mut share)?;
    // With a small budget the share is all of it, and the core could not be made smaller with nothing left.
    let rest = share.left();
    budget.give_back(share);
    core.shrink(budget)?;
    let mut share = budget.share(rest);
    without_each(alloc, forced, core, &mut share)?;
    budget.give_back(share);
    Ok(())
}

/// Looks for other cores, each without all operations of those before it, and keeps the smallest: a log that is wrong is mostly wrong in
/// many places.
fn apart_from_each<'a>(
    alloc: Global,
    forced: &'a GivenOrder<'a>,
    best: &mut Core<'a>,
    budget: &mut Budget,
) -> Result<(), AllocError> {
    let mut within = Chosen::new(alloc, forced.log().count(), true)?;
    within.set_all(best.operations(), false);
    for _ in 0..MAX_APART {
        if best.count() <= SMALL || budget.is_spent() {
            break;
        }
        if !finds_core(alloc, forced, &mut within, best, budget)? {
            break;
        }
    }
    Ok(())
}

/// Looks for a core in this part, takes its operations out of the part, and goes on from it if it is smaller. Returns whether there is one.
fn finds_core<'a>(
    alloc: Global,
    forced: &'a GivenOrder<'a>,
    within: &mut Chosen,
    best: &mut Core<'a>,
    budget: &mut Budget,
) -> Result<bool, AllocError> {
    let Some(core) = core_within(alloc, forced, within, budget)? else {
        return Ok(false);
    };
    within.set_all(core.operations(), false);
    best.take_if_smaller(core);
    Ok(true)
}

/// Leaves out one of the core's operations from the whole trace, looks for a core there, and goes on from a smaller one.
fn without_each<'a>(
    alloc: Global,
    forced: &'a GivenOrder<'a>,
    best: &mut Core<'a>,
    budget: &mut Budget,
) -> Result<(), AllocError> {
    let mut within = Chosen::new(alloc, forced.log().count(), true)?;
    let mut place: u32 = 0;
    for _ in 0..MAX_TRIES {
        if place >= best.count() || best.count() <= SMALL || budget.is_spent() {
            break;
        }
        let operation = at(best.operations(), place, OperationId::FIRST);
        within.set(operation, false);
        if finds_smaller_core(alloc, forced, &within, best, budget)? {
            place = 0;
        } else {
            within.set(operation, true);
            place = place.wrapping_add(1);
        }
    }
    Ok(())
}

/// Looks for a core in this part, makes it smaller, and goes on from it if it is smaller than the best one. Returns whether it is.
fn finds_smaller_core<'a>(
    alloc: Global,
    forced: &'a GivenOrder<'a>,
    within: &Chosen,
    best: &mut Core<'a>,
    budget: &mut Budget,
) -> Result<bool, AllocError> {
    let Some(mut core) = core_within(alloc, forced, within, budget)? else {
        return Ok(false);
    };
    core.shrink(budget)?;
    Ok(best.take_if_smaller(core))
}
