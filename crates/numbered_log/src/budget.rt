//! The work that is left, in steps.

/// A number of steps that may still be taken. A step is a look at an entry of a table, more or less. It is steps and not seconds, so that a
/// run can be repeated.
#[derive(Clone, Copy)]
pub struct Budget {
    left: u64,
}

impl Budget {
    /// A budget of this number of steps.
    pub fn new(steps: u64) -> Budget {
        Budget { left: steps }
    }

    /// Takes these steps away, or all if there are fewer.
    #[inline(always)]
    pub fn spend(&mut self, steps: u64) {
        self.left = self.left.saturating_sub(steps);
    }

    /// Takes all steps away, if there is no more room to go on. So a full list needs no ending of its own.
    pub fn use_up(&mut self) {
        self.left = 0;
    }

    /// Returns whether no step is left.
    #[inline(always)]
    pub fn is_spent(&self) -> bool {
        self.left == 0
    }

    pub fn left(&self) -> u64 {
        self.left
    }

    /// Takes away at most the given number of steps, which are a budget of their own. What is not spent of it comes back by `give_back`.
    pub fn share(&mut self, most: u64) -> Budget {
        let steps = self.left.min(most);
        self.left = self.left.saturating_sub(steps);
        Budget { left: steps }
    }

    /// Takes back what is left of a share.
    pub fn give_back(&mut self, share: Budget) {
        self.left = self.left.saturating_add(share.left);
    }
}
