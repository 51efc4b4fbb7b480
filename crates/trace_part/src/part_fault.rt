//! Faults of a choice of operations, for which no part is made.

use text_lines::fault::{FaultCause, PlacedFault};

/// Faults of the names of a choice.
#[derive(Clone, Copy, Debug, PartialEq, Eq)]
pub enum PartCause {
    /// The trace has no operation of this name.
    UnknownOp,
    /// An earlier name is the same.
    RepeatedOp,
}

/// The fault for which no part is made: a cause and the place of the name among the names, counted from 1, or that memory ran out.
pub type PartFault = PlacedFault<PartCause>;

impl FaultCause for PartCause {
    ghost use Rattle.trace_part.specs.PartCauses.{cause_number, cause_name};

    ghost number_of = { cause_number };

    ghost name_of = { cause_name };

    fn number(&self) -> u8 {
        match self {
            // 1 says that memory ran out, for faults of all kinds
            PartCause::UnknownOp => 2,
            PartCause::RepeatedOp => 3,
        }
    }

    fn name(&self) -> &'static str {
        match self {
            PartCause::UnknownOp => "UnknownOp",
            PartCause::RepeatedOp => "RepeatedOp",
        }
    }
}
