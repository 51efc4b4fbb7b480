//! Why a derivation is refused.

use text_lines::fault::{FaultCause, PlacedFault};

/// What is wrong with a step of a derivation, or with its end.
#[derive(Clone, Copy, Debug, PartialEq, Eq)]
pub enum StepFault {
    /// A hint is the id of no active clause.
    UnknownHint,
    /// Two or more distinct literals of a hint's clause are not false.
    NotUnit,
    /// The hints end without a conflict.
    NoConflict,
    /// The id of an added clause is that of an active one.
    IdInUse,
    /// The derivation ends without the empty clause.
    NoEmptyClause,
    /// The clause of a group does not hold the negation of the pivot, the added clause's first literal.
    NotOpposed,
    /// The empty clause has a group: it has no pivot.
    NoPivot,
    /// An active clause that holds the negation of the pivot has no group.
    GroupMissing,
}

/// Why a derivation is refused: the first step that fails, counted from 1, or that memory ran out. If the empty clause is
/// missing, the step is the one after the last.
pub type Refusal = PlacedFault<StepFault>;

impl FaultCause for StepFault {
    ghost use Rattle.lrat_check.specs.Refusal.{fault_number, fault_name};

    ghost number_of = { fault_number };

    ghost name_of = { fault_name };

    /// The number that a refusal prints before the name. It begins at 2, since 1 says in each table of causes that memory ran out.
    fn number(&self) -> u8 {
        match self {
            StepFault::UnknownHint => 2,
            StepFault::NotUnit => 3,
            StepFault::NoConflict => 4,
            StepFault::IdInUse => 5,
            StepFault::NoEmptyClause => 6,
            StepFault::NotOpposed => 7,
            StepFault::NoPivot => 8,
            StepFault::GroupMissing => 9,
        }
    }

    fn name(&self) -> &'static str {
        match self {
            StepFault::UnknownHint => "UnknownHint",
            StepFault::NotUnit => "NotUnit",
            StepFault::NoConflict => "NoConflict",
            StepFault::IdInUse => "IdInUse",
            StepFault::NoEmptyClause => "NoEmptyClause",
            StepFault::NotOpposed => "NotOpposed",
            StepFault::NoPivot => "NoPivot",
            StepFault::GroupMissing => "GroupMissing",
        }
    }
}
