//! What a state costs: of two states in which as many operations are placed the cheaper one leads to a schedule more often.

/// Prices are in tenths, so that states differ in price by a small weight of spare times too.
const TENTHS: u32 = 10;

/// What it costs that few plain writes can still come over a value.
#[derive(Clone, Copy)]
pub(crate) struct Prices {
    spare_weight: u32,
}

impl Prices {
    /// The prices in which a value over which no plain write can come costs this much. A process with one operation left costs 1.
    pub(crate) fn new(spare_weight: u32) -> Prices {
        Prices { spare_weight }
    }

    /// The price of a process that has this number of operations left. Its square, so states whose processes are equally far are the cheapest.
    #[inline(always)]
    pub(crate) fn of_rest(self, rest: u32) -> u32 {
        rest.wrapping_mul(rest).wrapping_mul(TENTHS)
    }

    /// The price of a value over which this number of plain writes can come: the fewer, the sooner an update lacks a source.
    #[inline(always)]
    pub(crate) fn of_spare(self, spare: u32) -> u32 {
        let shares = spare.min(1000).wrapping_add(1);
        if shares == 0 {
            return 0;
        }
        self.spare_weight.wrapping_mul(TENTHS) / shares
    }

    /// The sum of the prices of these values.
    pub(crate) fn of_all(self, spare: &[u32]) -> u32 {
        let mut sum: u32 = 0;
        for number in spare {
            sum = sum.wrapping_add(self.of_spare(*number));
        }
        sum
    }
}
