//! What may be wrong with the text of a derivation.

use text_lines::fault::{FaultCause, PlacedFault};

/// What is wrong with a line of a derivation's text.
#[derive(Clone, Copy, Debug, PartialEq, Eq)]
pub enum LratCause {
    /// A word after the last `0`.
    BadLine,
    /// A word that is no number, or a number out of its range.
    BadNumber,
    /// The line ends before its last `0`.
    Unended,
}

/// Why a text is not read as a derivation: its first fault and its line, counted from 1, or that memory ran out.
pub type LratFault = PlacedFault<LratCause>;

impl FaultCause for LratCause {
    ghost use Rattle.lrat_check.specs.LratFault.{cause_number, cause_name};

    ghost number_of = { cause_number };

    ghost name_of = { cause_name };

    /// The number that a refusal prints before the name, as `refused: lrat 4 Unended at 1`, and that `vsc refusals` lists. It begins at 2, since 1
    /// says in each table of causes that memory ran out.
    fn number(&self) -> u8 {
        match self {
            LratCause::BadLine => 2,
            LratCause::BadNumber => 3,
            LratCause::Unended => 4,
        }
    }

    fn name(&self) -> &'static str {
        match self {
            LratCause::BadLine => "BadLine",
            LratCause::BadNumber => "BadNumber",
            LratCause::Unended => "Unended",
        }
    }
}
