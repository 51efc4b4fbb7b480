//! What may be wrong with the text of a schedule.

use text_lines::fault::{FaultCause, PlacedFault};

/// What is wrong with a line of a schedule text.
#[derive(Clone, Copy, Debug, PartialEq, Eq)]
pub enum ScheduleCause {
    /// More than one word, no `.`, or no name before the first `.`.
    BadName,
    /// What follows the first `.` is no plain number from 1 to the highest place that the limits allow.
    BadNumber,
    /// One name more than the limits allow.
    TooMany,
}

/// Why a text is not read as a schedule: its first fault and its line, counted from 1, or that memory ran out.
pub type ScheduleFault = PlacedFault<ScheduleCause>;

impl FaultCause for ScheduleCause {
    ghost use Rattle.schedule_text.specs.ScheduleCauses.{cause_number, cause_name};

    ghost number_of = { cause_number };

    ghost name_of = { cause_name };

    fn number(&self) -> u8 {
        match self {
            // 1 says that memory ran out, for faults of all kinds
            ScheduleCause::BadName => 2,
            ScheduleCause::BadNumber => 3,
            ScheduleCause::TooMany => 4,
        }
    }

    fn name(&self) -> &'static str {
        match self {
            ScheduleCause::BadName => "BadName",
            ScheduleCause::BadNumber => "BadNumber",
            ScheduleCause::TooMany => "TooMany",
        }
    }
}
