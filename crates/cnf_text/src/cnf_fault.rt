//! What may be wrong with the text of a formula.

use text_lines::fault::{FaultCause, PlacedFault};

/// What is wrong with a formula's text.
#[derive(Clone, Copy, Debug, PartialEq, Eq)]
pub enum CnfCause {
    /// The first line that is not skipped does not begin with the word `p`, or there is none.
    NoHeader,
    /// That line is not `p cnf` and two numbers within their limits.
    BadHeader,
    /// A word that is no number.
    BadNumber,
    /// A literal of a variable that the header does not announce.
    VariableTooLarge,
    /// Fewer clauses than the header announces.
    CountMismatch,
    /// The last clause has no 0 at its end.
    Unended,
    /// A word after the last clause that the header announces.
    Trailing,
}

/// Why a text is not read as a formula: its first fault and its line, counted from 1, or that memory ran out.
pub type CnfFault = PlacedFault<CnfCause>;

impl FaultCause for CnfCause {
    ghost use Rattle.cnf_text.specs.CnfCauses.{cause_number, cause_name};

    ghost number_of = { cause_number };

    ghost name_of = { cause_name };

    fn number(&self) -> u8 {
        match self {
            // 1 says that memory ran out, for faults of all kinds
            CnfCause::NoHeader => 2,
            CnfCause::BadHeader => 3,
            CnfCause::BadNumber => 4,
            CnfCause::VariableTooLarge => 5,
            CnfCause::CountMismatch => 6,
            CnfCause::Unended => 7,
            CnfCause::Trailing => 8,
        }
    }

    fn name(&self) -> &'static str {
        match self {
            CnfCause::NoHeader => "NoHeader",
            CnfCause::BadHeader => "BadHeader",
            CnfCause::BadNumber => "BadNumber",
            CnfCause::VariableTooLarge => "VariableTooLarge",
            CnfCause::CountMismatch => "CountMismatch",
            CnfCause::Unended => "Unended",
            CnfCause::Trailing => "Trailing",
        }
    }
}
