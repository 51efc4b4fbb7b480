//! What is said of a schedule.

use std::fmt;

/// Why a list of names is no legal schedule.
#[derive(Clone, Copy, Debug, PartialEq, Eq)]
pub enum IllegalCause {
    /// The trace has no operation of this name.
    UnknownOp,
    /// The operation came before.
    RepeatedOp,
    /// An earlier operation of its process has not come yet.
    OutOfProgramOrder,
    /// It reads another value than its location holds there.
    WrongRead,
    /// Some operation is missing.
    MissingOp,
    /// A location holds another value in the end than the trace says.
    WrongFinal,
    /// An operation that the trace puts before it, by a before pair or by times, has not come yet.
    BeforeBroken,
    /// Its value is not from where the trace says.
    WrongSource,
}

/// What is said of a schedule.
#[derive(Clone, Copy, Debug, PartialEq, Eq)]
pub enum Judgement {
    /// It is a legal schedule of the trace.
    Legal,
    /// The first fault, by its cause and its place. Places count from 1; a fault of the whole has the place after the last.
    Illegal(IllegalCause, usize),
}

impl IllegalCause {
    ghost use Rattle.std.specs.Prelude.{◌≡◌};
    ghost use Rattle.trace_semantics.specs.JudgementText.{number_of, name_of};

    /// Its number.
    pub fn number(&self) -> u8
        ensures { result ≡ number_of self.now }
    {
        match self {
            IllegalCause::UnknownOp => 1,
            IllegalCause::RepeatedOp => 2,
            IllegalCause::OutOfProgramOrder => 3,
            IllegalCause::WrongRead => 4,
            IllegalCause::MissingOp => 5,
            IllegalCause::WrongFinal => 6,
            IllegalCause::BeforeBroken => 7,
            IllegalCause::WrongSource => 8,
        }
    }

    /// Its name.
    pub fn name(&self) -> &'static str
        ensures { result.now ≡ name_of self.now }
    {
        match self {
            IllegalCause::UnknownOp => "UnknownOp",
            IllegalCause::RepeatedOp => "RepeatedOp",
            IllegalCause::OutOfProgramOrder => "OutOfProgramOrder",
            IllegalCause::WrongRead => "WrongRead",
            IllegalCause::MissingOp => "MissingOp",
            IllegalCause::WrongFinal => "WrongFinal",
            IllegalCause::BeforeBroken => "BeforeBroken",
            IllegalCause::WrongSource => "WrongSource",
        }
    }
}

impl fmt::Display for Judgement {
    ghost use Rattle.std.specs.Prelude.{Some};
    ghost use Rattle.trace_semantics.specs.JudgementText.{printed};

    ghost output = { λ judgement. Some (printed judgement) };

    fn fmt<W: fmt::Write>(&self, f: &mut fmt::Formatter<W>) -> fmt::Result {
        match self {
            Judgement::Legal => write!(f, "LEGAL"),
            Judgement::Illegal(cause, place) => {
                let number = cause.number();
                let name = cause.name();
                write!(f, "ILLEGAL {number} {name} at {place}")
            }
        }
    }
}
