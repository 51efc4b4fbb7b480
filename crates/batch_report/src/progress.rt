//! How far a batch came.

ghost use Rattle.std.specs.Prelude.{◌≡◌, ◌≤◌, true};

use crate::tally::VerdictTally;

/// How far a batch came.
#[derive(Clone, Copy)]
pub(crate) struct BatchProgress {
    /// The number of lines of the pieces of the file that are decided, from its beginning.
    pub before: usize,
    /// The number of these pieces.
    pub number: usize,
    /// What was counted of them, and of the files before.
    pub tally: VerdictTally,
}

impl BatchProgress {
    /// Of no piece, after this was counted.
    pub(crate) fn new(tally: VerdictTally) -> BatchProgress
        ensures before { result.before ≡ 0 }
        ensures number { result.number ≡ 0 }
        ensures tally { result.tally ≡ tally }
    {
        BatchProgress {
            before: 0,
            number: 0,
            tally,
        }
    }
}

/// The most lines and the most pieces of a file with which a block is begun. A block adds at most one for each of its 268,435,456 bytes, so sums stay
/// below the 9 * 10^18 of the contracts, and within 64 bits.
const MOST_COUNTED: usize = 4_000_000_000_000_000_000;

impl BatchProgress {
    /// Returns whether another block can be counted.
    pub(crate) fn has_room(self) -> bool
        ensures { result ≡ true → (self.before ≤ 4000000000000000000) × (self.number ≤ 4000000000000000000) }
    {
        self.before <= MOST_COUNTED && self.number <= MOST_COUNTED
    }
}
