//! Steps of a derivation.

use conflict_analysis::Literal;
use std::alloc::{AllocError, Global};
use total_tables::{at, piece, size};

/// What a step follows from.
#[derive(Clone, Copy, PartialEq, Eq)]
pub(crate) enum DerivationHint {
    /// The clause of the line of this number.
    Line(u32),
    /// The clause of the step of this number.
    Step(u32),
}

/// Steps, each a clause with what it follows from, in the order of unit propagation.
pub(crate) struct DerivationSteps {
    literals: Vec<Literal>,
    hints: Vec<DerivationHint>,
    /// The places at which the first step begins, and for each step the places behind it.
    literal_ends: Vec<u32>,
    hint_ends: Vec<u32>,
}

/// Drops each table in one call. A derived `Drop` would drop each at every exit of a function that owns steps, which makes its proof longer.
impl Drop for DerivationSteps {
    fn drop(self) {
        let DerivationSteps {
            literals: _literals,
            hints: _hints,
            literal_ends: _literal_ends,
            hint_ends: _hint_ends,
        } = self;
    }
}

/// The most hints of all steps, at 8 bytes each.
const MOST_HINTS: u32 = 1 << 23;

impl DerivationSteps {
    /// No step.
    pub(crate) fn new(alloc: Global) -> Result<DerivationSteps, AllocError> {
        Ok(DerivationSteps {
            literals: Vec::new(alloc),
            hints: Vec::new(alloc),
            literal_ends: vec![in alloc; 0; 1]?,
            hint_ends: vec![in alloc; 0; 1]?,
        })
    }

    /// The number of steps.
    pub(crate) fn count(&self) -> u32 {
        size(self.literal_ends.as_slice()).wrapping_sub(1)
    }

    /// Returns whether there is no room for more.
    pub(crate) fn is_full(&self) -> bool {
        size(self.hints.as_slice()) > MOST_HINTS
    }

    /// Adds a step, and returns its number.
    pub(crate) fn add(
        &mut self,
        literals: &[Literal],
        hints: &[DerivationHint],
    ) -> Result<u32, AllocError> {
        let number = self.count();
        for literal in literals {
            self.literals.push(*literal)?;
        }
        for hint in hints {
            self.hints.push(*hint)?;
        }
        let end = size(self.literals.as_slice());
        self.literal_ends.push(end)?;
        let end = size(self.hints.as_slice());
        self.hint_ends.push(end)?;
        Ok(number)
    }

    /// The literals of the step.
    pub(crate) fn literals(&self, number: u32) -> &[Literal] {
        let begin = at(self.literal_ends.as_slice(), number, 0);
        let end = at(self.literal_ends.as_slice(), number.wrapping_add(1), 0);
        piece(self.literals.as_slice(), begin, end)
    }

    /// The hints of the step.
    pub(crate) fn hints(&self, number: u32) -> &[DerivationHint] {
        let begin = at(self.hint_ends.as_slice(), number, 0);
        let end = at(self.hint_ends.as_slice(), number.wrapping_add(1), 0);
        piece(self.hints.as_slice(), begin, end)
    }
}
