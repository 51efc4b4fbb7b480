//! How evenly a location's plain writes are left for its values. A plain write can only come over a value for which no update waits. So
//! where these writes are left to few of the values, most orders of them end dead, many layers later.

use crate::classed_log::{ClassLeft, NOTHING_LEFT};
use crate::worth::signed;
use possible_sources::ClassId;
use total_tables::{at, size};

/// The cost of one squared difference, in units of what may be expected by chance.
const UNEVENNESS: u64 = 20;

/// What is left of the classes of a location once this class has changed.
#[derive(Clone, Copy)]
pub(crate) struct Changed {
    pub(crate) class: ClassId,
    pub(crate) left: ClassLeft,
}

/// What there is in all of a location's classes.
#[derive(Clone, Copy)]
struct InAll {
    spare: u64,
    times: u64,
}

impl Changed {
    /// Nothing has changed.
    pub(crate) const NOTHING: Changed = Changed {
        class: ClassId::NONE,
        left: NOTHING_LEFT,
    };

    /// Returns what is left of the class, given what was left of each.
    #[inline(always)]
    fn left_of(self, before: &[ClassLeft], class: ClassId) -> ClassLeft {
        if class == self.class {
            return self.left;
        }
        at(before, class.number(), NOTHING_LEFT)
    }

    /// The cost of how unevenly plain writes are left to these classes of a location: the squared differences from an even share, each in units of its
    /// expected square if as many were drawn by chance.
    pub(crate) fn unevenness(self, before: &[ClassLeft], members: &[ClassId]) -> i64 {
        let mut all = InAll { spare: 0, times: 0 };
        for place in 0..size(members) {
            let its = self.left_of(before, at(members, place, ClassId::NONE));
            all.spare = all.spare.wrapping_add(its.spare as u64);
            all.times = all.times.wrapping_add(its.times as u64);
        }
        let mut cost: u64 = 0;
        for place in 0..size(members) {
            let its = self.left_of(before, at(members, place, ClassId::NONE));
            cost = cost.wrapping_add(all.cost_of(its));
        }
        signed(cost)
    }
}

impl InAll {
    /// The cost of a class: d² / (v + 1), where d is what it has more or less than its share, and v is the variance of that. Both are taken times the
    /// number of times in all, since that number may not divide them. If the class is held n times, and p is the part that plain writes have of the times
    /// in all, v is n p (1 - p). The product of `UNEVENNESS` and the square wraps if the scaled difference exceeds about 960 million, as it may in logs of
    /// some 100,000 writes of a location; then the cost says nothing.
    fn cost_of(self, its: ClassLeft) -> u64 {
        let times = its.times as u64;
        let share = times.wrapping_mul(self.spare);
        let own = (its.spare as u64).wrapping_mul(self.times);
        let difference = own.max(share).wrapping_sub(own.min(share));
        let others = self.times.saturating_sub(self.spare);
        let variance = share.wrapping_mul(others);
        let expected = variance.wrapping_add(self.times.wrapping_mul(self.times));
        let square = difference.wrapping_mul(difference);
        square.wrapping_mul(UNEVENNESS) / expected.max(1)
    }
}
