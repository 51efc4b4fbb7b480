//! Why an assignment is not decoded.

use text_lines::fault::{FaultCause, PlacedFault};

/// What is wrong with an assignment that is not decoded.
#[derive(Clone, Copy, Debug, PartialEq, Eq)]
pub enum DecodeCause {
    /// It is no model: the clause of this number, counted from 1, is the first that it makes false.
    NotAModel,
}

/// Why an assignment is not decoded: a cause and the number of a clause, or that memory ran out.
pub type DecodeFault = PlacedFault<DecodeCause>;

impl FaultCause for DecodeCause {
    ghost use Rattle.schedule_decode.specs.DecodeCauses.{cause_number, cause_name};

    ghost number_of = { cause_number };

    ghost name_of = { cause_name };

    /// The number that a refusal prints before the name. It begins at 2, since 1 says in each table of causes that memory ran out.
    fn number(&self) -> u8 {
        match self {
            DecodeCause::NotAModel => 2,
        }
    }

    fn name(&self) -> &'static str {
        match self {
            DecodeCause::NotAModel => "NotAModel",
        }
    }
}
