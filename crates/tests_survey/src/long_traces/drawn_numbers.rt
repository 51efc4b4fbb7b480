//! Numbers that are drawn.

/// A generator of numbers, by its state.
#[derive(Clone, Copy)]
pub struct DrawnNumbers {
    state: u64,
}

impl DrawnNumbers {
    /// The numbers of this seed.
    pub fn new(seed: u64) -> DrawnNumbers {
        DrawnNumbers { state: seed }
    }

    /// The next number below the limit.
    pub fn below(&mut self, limit: u64) -> u64 {
        self.state = self
            .state
            .wrapping_mul(0x5851_f42d_4c95_7f2d)
            .wrapping_add(0x1405_7b7e_f767_814f);
        (self.state >> 33) % limit.max(1)
    }

    /// The next number below the limit, which is small.
    pub fn small(&mut self, limit: u32) -> u32 {
        (self.below(limit as u64) & 0xffff_ffff) as u32
    }
}
