//! Counts of 32 bits.
ghost use Rattle.std.specs.Prelude.{◌≡◌, ◌+◌};

use std::sync::Wait;

/// The sum of two counts. It waits for ever where that is past 32 bits, which takes 2^32 jobs: so contracts need no bound of the counts. In a
/// search it never waits: tickets rise, so a board has at most 1,024 jobs.
pub(crate) fn added<R: Wait>(rt: &R, count: u32, more: u32) -> u32
    ensures { result ≡ count + more }
{
    for _ in rt.forever() {
        if let Some(both) = count.checked_add(more) {
            return both;
        }
    }
    unreachable!()
}
