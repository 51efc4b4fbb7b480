//! What may be wrong with the text of a trace.

use text_lines::fault::{FaultCause, PlacedFault};
use text_lines::plain_fault::PlainFault;

/// What is wrong with a line of a trace text, or with the whole. A refusal prints its number and its name, as `refused: trace 4 UnknownLine at 3`. Both are
/// part of the output, as docs/FORMATS.md lists it, so they are written out below and not derived from the variants.
#[derive(Clone, Copy, Debug, PartialEq, Eq)]
pub enum TraceCause {
    /// A byte above 127.
    NotAscii,
    /// The header is missing, or the line that should be it is another.
    Header,
    /// The line is of no form of the table.
    UnknownLine,
    /// A word that should be a name is none.
    BadName,
    /// A word that should be a number is none, or is out of its range.
    BadNumber,
    /// A second `init` line of a location.
    InitTwice,
    /// A second `final` line of a location.
    FinalTwice,
    /// A second `proc` line of a name.
    ProcTwice,
    /// An operation before the first `proc` line.
    OpOutsideProc,
    /// An `init` or `final` line after the first `proc` line.
    LateHeaderLine,
    /// The 65th process.
    TooManyProcs,
    /// The 4,097th operation, in version 3 the 1,048,577th.
    TooManyOps,
    /// The 4,097th location, in version 3 the 65,537th.
    TooManyLocations,
    /// A `before` or `from` that names no operation of the trace.
    NoSuchOp,
    /// A `before` of an operation and itself.
    BeforeItself,
    /// The 4,097th `before` line, in version 3 the 4,194,305th.
    TooManyBefore,
    /// The end of an operation is below its start.
    EndsBeforeStart,
}

/// Why a text is not read as a trace: its first fault and its line, counted from 1, or that memory ran out.
pub type TraceFault = PlacedFault<TraceCause>;

/// Why a line is not taken, if the line is known to the caller alone. The caller gives it the number of the line by `at`.
pub(crate) type LineRefusal = PlainFault<TraceCause>;

impl FaultCause for TraceCause {
    ghost use Rattle.trace_text.specs.TraceCauses.{cause_number, cause_name};

    ghost number_of = { cause_number };

    ghost name_of = { cause_name };

    fn number(&self) -> u8 {
        match self {
            // 1 says that memory ran out, for faults of all kinds
            TraceCause::NotAscii => 2,
            TraceCause::Header => 3,
            TraceCause::UnknownLine => 4,
            TraceCause::BadName => 5,
            TraceCause::BadNumber => 6,
            TraceCause::InitTwice => 7,
            TraceCause::FinalTwice => 8,
            TraceCause::ProcTwice => 9,
            TraceCause::OpOutsideProc => 10,
            TraceCause::LateHeaderLine => 11,
            TraceCause::TooManyProcs => 12,
            TraceCause::TooManyOps => 13,
            TraceCause::TooManyLocations => 14,
            TraceCause::NoSuchOp => 15,
            TraceCause::BeforeItself => 16,
            TraceCause::TooManyBefore => 17,
            TraceCause::EndsBeforeStart => 18,
        }
    }

    fn name(&self) -> &'static str {
        match self {
            TraceCause::NotAscii => "NotAscii",
            TraceCause::Header => "Header",
            TraceCause::UnknownLine => "UnknownLine",
            TraceCause::BadName => "BadName",
            TraceCause::BadNumber => "BadNumber",
            TraceCause::InitTwice => "InitTwice",
            TraceCause::FinalTwice => "FinalTwice",
            TraceCause::ProcTwice => "ProcTwice",
            TraceCause::OpOutsideProc => "OpOutsideProc",
            TraceCause::LateHeaderLine => "LateHeaderLine",
            TraceCause::TooManyProcs => "TooManyProcs",
            TraceCause::TooManyOps => "TooManyOps",
            TraceCause::TooManyLocations => "TooManyLocations",
            TraceCause::NoSuchOp => "NoSuchOp",
            TraceCause::BeforeItself => "BeforeItself",
            TraceCause::TooManyBefore => "TooManyBefore",
            TraceCause::EndsBeforeStart => "EndsBeforeStart",
        }
    }
}
