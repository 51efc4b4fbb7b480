//! Why an engine refuses.

ghost use Rattle.std.specs.Prelude.{◌≡◌, Some};

use certificate::CertCause;
use cnf_text::CnfCause;
use cube_jobs::SearchCause;
use lrat_check::lrat_fault::LratCause;
use lrat_check::refusal::StepFault;
use model_text::ModelCause;
use reason_clauses::cause::ReasonCause;
use reducer::reduce_fault::ReduceCause;
use schedule_decode::decode_fault::DecodeCause;
use schedule_text::schedule_fault::ScheduleCause;
use text_lines::fault::FaultCause;
use thiserror::Error;
use trace_part::part_fault::PartCause;
use trace_text::trace_fault::TraceCause;

/// Why an engine refuses: the first refusal of its parts, in the order of its inputs. A part that refuses has an area here, with its
/// cause and the place of it.
#[derive(Clone, Copy, Debug, PartialEq, Eq, Error)]
pub enum Fault {
    /// There was no memory.
    #[error("memory")]
    OutOfMemory,
    /// A source or a sink failed.
    #[error("device")]
    Device,
    /// An input has more bytes than the limit.
    #[error("input 2 InputTooLong")]
    InputTooLong,
    /// The first fault of the trace and its line, counted from 1.
    #[error("trace {number} {name} at {1}", number = .0.number(), name = .0.name())]
    Trace(TraceCause, usize),
    /// The first fault of the schedule and its line, counted from 1.
    #[error("schedule {number} {name} at {1}", number = .0.number(), name = .0.name())]
    Schedule(ScheduleCause, usize),
    /// The first name that makes up no part, and its line, counted from 1.
    #[error("part {number} {name} at {1}", number = .0.number(), name = .0.name())]
    Part(PartCause, usize),
    /// The first fault of the model and its line, counted from 1.
    #[error("model {number} {name} at {1}", number = .0.number(), name = .0.name())]
    Model(ModelCause, usize),
    /// The first fault of the formula and its line, counted from 1.
    #[error("cnf {number} {name} at {1}", number = .0.number(), name = .0.name())]
    Cnf(CnfCause, usize),
    /// The first fault of the proof's text and its line, counted from 1.
    #[error("lrat {number} {name} at {1}", number = .0.number(), name = .0.name())]
    Lrat(LratCause, usize),
    /// What is wrong with the trace after its reduction, and how many operations are left.
    #[error("reduce {number} {name} at {1}", number = .0.number(), name = .0.name())]
    Reduce(ReduceCause, usize),
    /// What is wrong with the truth values, and the number of the first clause that they make false, counted from 1.
    #[error("decode {number} {name} at {1}", number = .0.number(), name = .0.name())]
    Decode(DecodeCause, usize),
    /// What is wrong with the first step of the proof that fails, and its number, counted from 1.
    #[error("check {number} {name} at {1}", number = .0.number(), name = .0.name())]
    Check(StepFault, usize),
    /// What is wrong with the certificate: with its text, and the line, counted from 1; or with what it has for a leaf, and the leaf's
    /// number, counted from 0.
    #[error("cert {number} {name} at {1}", number = .0.number(), name = .0.name())]
    Cert(CertCause, usize),
    /// What is wrong with a line of a certificate of reasons, and its number, counted from 1.
    #[error("reasons {number} {name} at {1}", number = .0.number(), name = .0.name())]
    Reasons(ReasonCause, usize),
    /// Why the search has no results. If memory ran out, it is `OutOfMemory`, as everywhere.
    #[error("search {number} {name}", number = .0.number(), name = .0.name())]
    Search(SearchCause),
}

/// What is reported of a fault.
#[derive(Drop)]
pub(crate) struct FaultLine {
    /// What refused.
    pub area: &'static str,
    /// The number, where it is printed. Without it the line has the area alone, and neither the name nor a place.
    pub number: Option<u8>,
    /// The name.
    pub name: &'static str,
    /// The place, where there is one.
    pub place: Option<usize>,
}

/// Gives what is reported of a cause at a place.
fn located<C: FaultCause>(area: &'static str, cause: &C, place: usize) -> FaultLine
    ensures area { result.area.now ≡ area.now }
    ensures number { result.number ≡ Some (C.number_of cause.now) }
    ensures name { result.name.now ≡ C.name_of cause.now }
    ensures place { result.place ≡ Some place }
{
    FaultLine {
        area,
        number: Some(cause.number()),
        name: cause.name(),
        place: Some(place),
    }
}

impl Fault {
    ghost use Rattle.std.specs.Prelude.{◌≡◌};
    ghost use Rattle.verdict_report.specs.Fault.{told, area_of, number_of, name_of, place_of};

    /// Gives what is reported of it.
    pub(crate) fn told(&self) -> FaultLine
        ensures area { result.area.now ≡ (told self.now).area }
        ensures number { result.number ≡ (told self.now).number }
        ensures name { result.name.now ≡ (told self.now).name }
        ensures place { result.place ≡ (told self.now).place }
    {
        match self {
            Fault::OutOfMemory => FaultLine {
                area: "memory",
                number: None,
                name: "OutOfMemory",
                place: None,
            },
            Fault::Device => FaultLine {
                area: "device",
                number: None,
                name: "Device",
                place: None,
            },
            Fault::InputTooLong => FaultLine {
                area: "input",
                number: Some(2),
                name: "InputTooLong",
                place: None,
            },
            Fault::Trace(cause, line) => located("trace", cause, *line),
            Fault::Schedule(cause, line) => located("schedule", cause, *line),
            Fault::Part(cause, line) => located("part", cause, *line),
            Fault::Model(cause, line) => located("model", cause, *line),
            Fault::Cnf(cause, line) => located("cnf", cause, *line),
            Fault::Lrat(cause, line) => located("lrat", cause, *line),
            Fault::Reduce(cause, left) => located("reduce", cause, *left),
            Fault::Decode(cause, clause) => located("decode", cause, *clause),
            Fault::Check(cause, step) => located("check", cause, *step),
            Fault::Cert(cause, place) => located("cert", cause, *place),
            Fault::Reasons(cause, line) => located("reasons", cause, *line),
            Fault::Search(cause) => FaultLine {
                area: "search",
                number: Some(cause.number()),
                name: cause.name(),
                place: None,
            },
        }
    }

    /// Gives what refused: `memory`, `device`, `input`, `trace`, `schedule`, `part`, `model`, `cnf`, `lrat`, `reduce`, `decode`, `check`,
    /// `cert`, `reasons` or `search`.
    pub fn area(&self) -> &'static str
        ensures { result.now ≡ area_of self.now }
    {
        self.told().area
    }

    /// Its number among the faults of its area. A fault of the device has none. That memory ran out has number 1 in all areas, and it is not printed.
    pub fn number(&self) -> Option<u8>
        ensures { result ≡ number_of self.now }
    {
        match self {
            Fault::OutOfMemory => Some(1),
            _ => self.told().number,
        }
    }

    /// Its name.
    pub fn name(&self) -> &'static str
        ensures { result.now ≡ name_of self.now }
    {
        self.told().name
    }

    /// The line at which it stands, counted from 1, how many operations are left, the number of a clause, a step, or a
    /// leaf.
    pub fn place(&self) -> Option<usize>
        ensures { result ≡ place_of self.now }
    {
        self.told().place
    }
}
