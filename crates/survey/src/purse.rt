//! The steps that a survey may take in all.
ghost use Rattle.std.specs.Prelude.{◌≡◌, ◌+◌, ◌≤◌, min};

/// A number of steps, of which some are left. What is left only falls, whatever work gives back.
#[derive(Clone, Copy)]
pub(crate) struct Purse {
    all: u64,
    left: u64,
}

impl Purse {
    /// A purse of this number of steps, of which none is taken.
    pub(crate) fn new(steps: u64) -> Purse
        ensures all { result.all ≡ steps }
        ensures left { result.left ≡ steps }
    {
        Purse {
            all: steps,
            left: steps,
        }
    }

    /// The number of steps that are left.
    pub(crate) fn left(&self) -> u64
        ensures { result ≡ self.now.left }
    {
        self.left
    }

    /// Takes what work has taken that had all that was left, and gives this back. More than it had is not taken back.
    pub(crate) fn settle(&mut self, rest: u64)
        ensures all { self.new.all ≡ self.old.all }
        ensures left { self.new.left ≡ min self.old.left rest }
    {
        self.left = self.left.min(rest);
    }

    /// The number of steps that were taken.
    pub(crate) fn taken(&self) -> u64
        requires { self.now.left ≤ self.now.all }
        ensures { result + self.now.left ≡ self.now.all }
    {
        self.all - self.left
    }
}
