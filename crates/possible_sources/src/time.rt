//! Times of what is derived.

/// A time on the trail: all that was derived has one, and follows from what has earlier ones.
#[derive(Clone, Copy)]
pub struct Time {
    pub count: u32,
}

impl Time {
    /// The time before all others.
    pub const START: Time = Time { count: 0 };

    #[inline(always)]
    pub fn next(self) -> Time {
        Time {
            count: self.count.wrapping_add(1),
        }
    }

    /// Returns whether this time comes before the other.
    #[inline(always)]
    pub fn is_before(self, other: Time) -> bool {
        self.count < other.count
    }
}
