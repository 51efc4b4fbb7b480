//! All refusals, each with what it means. A new cause has to be added to its list here; `tests/refusals` looks whether each is there, in the
//! order of the sources.

use crate::meanings::Explained;
use certificate::CertCause;
use cnf_text::CnfCause;
use cube_jobs::SearchCause;
use lrat_check::lrat_fault::LratCause;
use lrat_check::refusal::StepFault;
use model_text::ModelCause;
use note_text::{Notes, decimal};
use reason_clauses::cause::ReasonCause;
use reducer::reduce_fault::ReduceCause;
use schedule_decode::decode_fault::DecodeCause;
use schedule_text::schedule_fault::ScheduleCause;
use trace_part::part_fault::PartCause;
use trace_text::trace_fault::TraceCause;

const TRACE: [TraceCause; 17] = [
    TraceCause::NotAscii,
    TraceCause::Header,
    TraceCause::UnknownLine,
    TraceCause::BadName,
    TraceCause::BadNumber,
    TraceCause::InitTwice,
    TraceCause::FinalTwice,
    TraceCause::ProcTwice,
    TraceCause::OpOutsideProc,
    TraceCause::LateHeaderLine,
    TraceCause::TooManyProcs,
    TraceCause::TooManyOps,
    TraceCause::TooManyLocations,
    TraceCause::NoSuchOp,
    TraceCause::BeforeItself,
    TraceCause::TooManyBefore,
    TraceCause::EndsBeforeStart,
];

const SCHEDULE: [ScheduleCause; 3] = [
    ScheduleCause::BadName,
    ScheduleCause::BadNumber,
    ScheduleCause::TooMany,
];

const PART: [PartCause; 2] = [PartCause::UnknownOp, PartCause::RepeatedOp];

const MODEL: [ModelCause; 5] = [
    ModelCause::SaysUnsatisfiable,
    ModelCause::BadLine,
    ModelCause::BadNumber,
    ModelCause::Clash,
    ModelCause::Unended,
];

const CNF: [CnfCause; 7] = [
    CnfCause::NoHeader,
    CnfCause::BadHeader,
    CnfCause::BadNumber,
    CnfCause::VariableTooLarge,
    CnfCause::CountMismatch,
    CnfCause::Unended,
    CnfCause::Trailing,
];

const LRAT: [LratCause; 3] = [LratCause::BadLine, LratCause::BadNumber, LratCause::Unended];

const REDUCE: [ReduceCause; 1] = [ReduceCause::StillTooLarge];

const DECODE: [DecodeCause; 1] = [DecodeCause::NotAModel];

const CHECK: [StepFault; 8] = [
    StepFault::UnknownHint,
    StepFault::NotUnit,
    StepFault::NoConflict,
    StepFault::IdInUse,
    StepFault::NoEmptyClause,
    StepFault::NotOpposed,
    StepFault::NoPivot,
    StepFault::GroupMissing,
];

const CERT: [CertCause; 10] = [
    CertCause::Header,
    CertCause::BadTree,
    CertCause::TooDeep,
    CertCause::TooManyLeaves,
    CertCause::BadLine,
    CertCause::BadLrat,
    CertCause::Stranger,
    CertCause::Double,
    CertCause::Missing,
    CertCause::Derivation,
];

const REASONS: [ReasonCause; 17] = [
    ReasonCause::NoOperation,
    ReasonCause::NoReader,
    ReasonCause::NoWitness,
    ReasonCause::HidesItself,
    ReasonCause::InitialLeft,
    ReasonCause::BadCycle,
    ReasonCause::NoPair,
    ReasonCause::EnoughSources,
    ReasonCause::AlwaysTrue,
    ReasonCause::TooManyVariables,
    ReasonCause::BadHeader,
    ReasonCause::BadLine,
    ReasonCause::OneProcess,
    ReasonCause::SecondPiece,
    ReasonCause::NoWriter,
    ReasonCause::LastLeft,
    ReasonCause::SourceBefore,
];

const SEARCH: [SearchCause; 2] = [SearchCause::Cut, SearchCause::NoThread];

/// Adds a line for a refusal: its area, its number, its name, and what it means.
fn list_one(notes: &mut Notes, area: &str, number: &[u8], name: &str, meaning: &str) {
    notes.line(&[
        area.as_bytes(),
        b" ",
        number,
        b" ",
        name.as_bytes(),
        b": ",
        meaning.as_bytes(),
    ]);
}

/// Adds a line for the cause.
fn list_cause<C: Explained>(notes: &mut Notes, area: &str, cause: &C) {
    let number = decimal(u64::from(cause.number()));
    list_one(
        notes,
        area,
        number.as_slice(),
        cause.name(),
        cause.meaning(),
    );
}

/// Adds a line for each of the causes.
fn list_causes<C: Explained>(notes: &mut Notes, area: &str, causes: &[C]) {
    for cause in causes {
        list_cause(notes, area, cause);
    }
}

/// Adds a line for each refusal of a text.
fn list_of_texts(notes: &mut Notes) {
    list_causes(notes, "trace", &TRACE);
    list_causes(notes, "schedule", &SCHEDULE);
    list_causes(notes, "part", &PART);
    list_causes(notes, "model", &MODEL);
    list_causes(notes, "cnf", &CNF);
    list_causes(notes, "lrat", &LRAT);
}

/// Adds a line for each refusal of what the texts spell.
fn list_of_checks(notes: &mut Notes) {
    list_causes(notes, "reduce", &REDUCE);
    list_causes(notes, "decode", &DECODE);
    list_causes(notes, "check", &CHECK);
    list_causes(notes, "cert", &CERT);
    list_causes(notes, "reasons", &REASONS);
    list_causes(notes, "search", &SEARCH);
}

/// Adds a line for each refusal that `vsc` prints, with what it means.
pub fn refusal_list(notes: &mut Notes) {
    list_of_texts(notes);
    list_of_checks(notes);
    notes.line(&[b"input 2 InputTooLong: a file has more than 268435456 bytes"]);
    notes.line(&[b"memory: memory ran out"]);
    notes.line(&[b"device: a file cannot be opened, read or written, or standard output failed"]);
}
