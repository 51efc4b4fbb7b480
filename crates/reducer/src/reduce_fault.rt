//! Why a trace is not reduced.

use text_lines::fault::{FaultCause, PlacedFault};

/// What is wrong with a trace that is not reduced.
#[derive(Clone, Copy, Debug, PartialEq, Eq)]
pub enum ReduceCause {
    /// More than 160 operations are left. The number at which the fault is placed is how many.
    StillTooLarge,
}

/// Why a trace is not reduced: a cause and how many operations are left, or that memory ran out.
pub type ReduceFault = PlacedFault<ReduceCause>;

impl FaultCause for ReduceCause {
    ghost use Rattle.reducer.specs.ReduceCauses.{cause_number, cause_name};

    ghost number_of = { cause_number };

    ghost name_of = { cause_name };

    fn number(&self) -> u8 {
        match self {
            // 1 was that memory ran out, which all faults share now. A number is printed, and is not used again for another cause.
            ReduceCause::StillTooLarge => 2,
        }
    }

    fn name(&self) -> &'static str {
        match self {
            ReduceCause::StillTooLarge => "StillTooLarge",
        }
    }
}
