//! Why a line of a certificate makes no clause.

use text_lines::fault::FaultCause;
use text_lines::plain_fault::PlainFault;

/// What is wrong with a line of reasons.
#[derive(Clone, Copy, Debug, PartialEq, Eq)]
pub enum ReasonCause {
    /// The trace has no such operation.
    NoOperation,
    /// The operation reads nothing; or a counting line counts it, and it is no update.
    NoReader,
    /// The operation neither writes the location nor reads another value there, or it is the reader itself.
    NoWitness,
    /// The witness is the source that it is to hide.
    HidesItself,
    /// The reader may read the initial value, and no piece takes it.
    InitialLeft,
    /// A cycle is too short, or has a step from an operation to itself.
    BadCycle,
    /// The trace has no before pair of the first operation and the second, or the first had not ended before the second began.
    NoPair,
    /// There are enough sources for those that are counted.
    EnoughSources,
    /// The clause always holds.
    AlwaysTrue,
    /// There are more variables than can be numbered.
    TooManyVariables,
    /// The first line is not `vsc-reasons 1`, or there is none.
    BadHeader,
    /// The line is of no known form.
    BadLine,
    /// Both operations of a variable are of one process.
    OneProcess,
    /// A second piece where there may be one, of one kind for a process, for the initial value, or for all others; or a member that a counting
    /// line counts twice.
    SecondPiece,
    /// No operation writes the location, and its final value is the initial one, or none; or no operation writes a location whose end is counted.
    NoWriter,
    /// An operation may be the last writer, and no piece takes it.
    LastLeft,
    /// An operation may come before all of those that wait.
    SourceBefore,
}

/// Why a line makes no clause: a cause, or that memory ran out.
pub type ReasonRefusal = PlainFault<ReasonCause>;

impl FaultCause for ReasonCause {
    ghost use Rattle.reason_clauses.specs.Cause.{cause_number, cause_name};

    ghost number_of = { cause_number };

    ghost name_of = { cause_name };

    // The numbers are those of docs/REASONS.md. 1 is that memory ran out, and no cause has 6.
    fn number(&self) -> u8 {
        match self {
            ReasonCause::NoOperation => 2,
            ReasonCause::NoReader => 3,
            ReasonCause::NoWitness => 4,
            ReasonCause::HidesItself => 5,
            ReasonCause::InitialLeft => 7,
            ReasonCause::BadCycle => 8,
            ReasonCause::NoPair => 9,
            ReasonCause::EnoughSources => 10,
            ReasonCause::AlwaysTrue => 11,
            ReasonCause::TooManyVariables => 12,
            ReasonCause::BadHeader => 13,
            ReasonCause::BadLine => 14,
            ReasonCause::OneProcess => 15,
            ReasonCause::SecondPiece => 16,
            ReasonCause::NoWriter => 17,
            ReasonCause::LastLeft => 18,
            ReasonCause::SourceBefore => 19,
        }
    }

    fn name(&self) -> &'static str {
        match self {
            ReasonCause::NoOperation => "NoOperation",
            ReasonCause::NoReader => "NoReader",
            ReasonCause::NoWitness => "NoWitness",
            ReasonCause::HidesItself => "HidesItself",
            ReasonCause::InitialLeft => "InitialLeft",
            ReasonCause::BadCycle => "BadCycle",
            ReasonCause::NoPair => "NoPair",
            ReasonCause::EnoughSources => "EnoughSources",
            ReasonCause::AlwaysTrue => "AlwaysTrue",
            ReasonCause::TooManyVariables => "TooManyVariables",
            ReasonCause::BadHeader => "BadHeader",
            ReasonCause::BadLine => "BadLine",
            ReasonCause::OneProcess => "OneProcess",
            ReasonCause::SecondPiece => "SecondPiece",
            ReasonCause::NoWriter => "NoWriter",
            ReasonCause::LastLeft => "LastLeft",
            ReasonCause::SourceBefore => "SourceBefore",
        }
    }
}
