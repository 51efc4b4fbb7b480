//! The hints of one step, each once.

use crate::derivation_steps::DerivationHint;
use std::alloc::{AllocError, Global};
use total_tables::{at, put, size};

/// The hints of the step at hand.
pub(crate) struct HintList {
    hints: Vec<DerivationHint>,
    /// For each line and each step the turn in which it was added last, so that nothing is cleared for the next step.
    line_turns: Vec<u32>,
    step_turns: Vec<u32>,
    /// The number of the step at hand, from 1, since 0 stands for no turn.
    turn: u32,
}

/// Drops each table in one call. A derived `Drop` would drop each at every exit of a function that owns a list, which makes its proof longer.
impl Drop for HintList {
    fn drop(self) {
        let HintList {
            hints: _hints,
            line_turns: _line_turns,
            step_turns: _step_turns,
            turn: _,
        } = self;
    }
}

/// Notes that the number comes up in this turn. Returns whether it came up before. The number must be that of a line or step, since the table gets entries
/// up to it; so `Explanation::finish` derives nothing if a reason has none.
fn note(turns: &mut Vec<u32>, number: u32, turn: u32) -> Result<bool, AllocError> {
    for _ in size(turns.as_slice())..number.saturating_add(1) {
        turns.push(0)?;
    }
    let is_old = at(turns.as_slice(), number, turn) == turn;
    put(turns.as_mut_slice(), number, turn);
    Ok(is_old)
}

impl HintList {
    /// No hint.
    pub(crate) fn new(alloc: Global) -> HintList {
        HintList {
            hints: Vec::new(alloc),
            line_turns: Vec::new(alloc),
            step_turns: Vec::new(alloc),
            turn: 0,
        }
    }

    /// Begins the hints of another step.
    pub(crate) fn begin(&mut self) {
        self.hints.clear();
        self.turn = self.turn.wrapping_add(1);
    }

    /// Adds the hint, unless the step has it.
    pub(crate) fn add(&mut self, hint: DerivationHint) -> Result<(), AllocError> {
        let is_old = match hint {
            DerivationHint::Line(number) => note(&mut self.line_turns, number, self.turn)?,
            DerivationHint::Step(number) => note(&mut self.step_turns, number, self.turn)?,
        };
        if !is_old {
            self.hints.push(hint)?;
        }
        Ok(())
    }

    pub(crate) fn as_slice(&self) -> &[DerivationHint] {
        self.hints.as_slice()
    }
}
