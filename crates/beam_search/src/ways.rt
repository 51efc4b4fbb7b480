//! In how many orders a beam comes to a state.

/// The number of orders of writers by which the beam has come to a state, as a multiple of the same small number for all states of a layer.
///
/// A state to which more ways lead has more room around it, so more ways mostly go on from it too. Without these numbers beams scheduled none of
/// 17 logs of two values, and seven with them.
#[derive(Clone, Copy, PartialEq, Eq)]
pub(crate) struct Ways {
    /// It is never 0.
    count: u64,
}

/// The bits of the highest number of a layer, so that the sum over all parents of a state cannot overflow.
const BITS: u32 = 44;

/// The worth of twice as many ways: 20 for each factor e. A beam chooses states by their worth (`worth.rt`), to which that of the ways is added. A read or
/// an update that is placed is worth as much as that (`state.rt`).
const WORTH_OF_TWICE: u64 = 14;

impl Ways {
    /// The ways to the first state, of which there is one.
    pub(crate) const FIRST: Ways = Ways { count: 1 << 43 };

    /// The ways by either.
    #[inline(always)]
    pub(crate) fn or(self, others: Ways) -> Ways {
        Ways {
            count: self.count.wrapping_add(others.count),
        }
    }

    /// Returns by which power of two to divide the number, so that it has as many bits as the highest of a layer should have.
    #[inline(always)]
    pub(crate) fn excess(self) -> u32 {
        let bits = 64_u32.saturating_sub(self.count.leading_zeros());
        bits.saturating_sub(BITS)
    }

    /// The number divided by this power of two. Of the fewest ways one is left.
    #[inline(always)]
    pub(crate) fn without(self, excess: u32) -> Ways {
        Ways {
            count: (self.count >> (excess & 63)).max(1),
        }
    }

    /// The worth of the ways: the logarithm of their number, linear between powers of two.
    #[inline(always)]
    pub(crate) fn worth(self) -> i64 {
        let exponent = 63_u32.saturating_sub(self.count.leading_zeros());
        // The four bits behind the highest one. The shift loses nothing while the number is below 2 to the power of 60.
        let sixteenths = ((self.count << 4) >> (exponent & 63)) & 15;
        let logarithm = ((exponent as u64) << 4).wrapping_add(sixteenths);
        (logarithm.wrapping_mul(WORTH_OF_TWICE) >> 4) as i64
    }
}
