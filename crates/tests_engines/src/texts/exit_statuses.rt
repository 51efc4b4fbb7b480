//! The exit status of each outcome, and the line of each kind of fault.

use crate::expectations::{ample, expect};
use certificate::CertCause;
use cnf_text::CnfCause;
use cube_jobs::SearchCause;
use dimacs::MemorySink;
use lrat_check::lrat_fault::LratCause;
use lrat_check::refusal::StepFault;
use model_text::ModelCause;
use reason_clauses::cause::ReasonCause;
use reducer::reduce_fault::ReduceCause;
use schedule_decode::decode_fault::DecodeCause;
use schedule_text::schedule_fault::ScheduleCause;
use std::alloc::Global;
use std::process::Abort;
use trace_part::part_fault::PartCause;
use trace_text::trace_fault::TraceCause;
use verdict_report::{Fault, Status, exit_status, write_fault};

#[test]
fn gives_a_status_for_each_answer(rt: HostRuntime) {
    for (answer, status) in [(Status::Yes, 0), (Status::No, 1), (Status::Unknown, 3)] {
        expect(&rt, exit_status(&Ok(answer)) == status, status as usize);
    }
}

/// Faults, the exit status of each, and its line.
const FAULTS: [(Fault, u8, &str); 16] = [
    (Fault::OutOfMemory, 2, "refused: memory\n"),
    (Fault::Device, 4, "refused: device\n"),
    (Fault::InputTooLong, 2, "refused: input 2 InputTooLong\n"),
    (
        Fault::Trace(TraceCause::TooManyOps, 4099),
        2,
        "refused: trace 13 TooManyOps at 4099\n",
    ),
    (
        Fault::Schedule(ScheduleCause::BadName, 1),
        2,
        "refused: schedule 2 BadName at 1\n",
    ),
    (
        Fault::Part(PartCause::UnknownOp, 3),
        2,
        "refused: part 2 UnknownOp at 3\n",
    ),
    (
        Fault::Model(ModelCause::Clash, 2),
        2,
        "refused: model 5 Clash at 2\n",
    ),
    (
        Fault::Cnf(CnfCause::Trailing, 5),
        2,
        "refused: cnf 8 Trailing at 5\n",
    ),
    (
        Fault::Lrat(LratCause::Unended, 1),
        2,
        "refused: lrat 4 Unended at 1\n",
    ),
    (
        Fault::Reduce(ReduceCause::StillTooLarge, 161),
        2,
        "refused: reduce 2 StillTooLarge at 161\n",
    ),
    (
        Fault::Decode(DecodeCause::NotAModel, 2),
        2,
        "refused: decode 2 NotAModel at 2\n",
    ),
    (
        Fault::Check(StepFault::NoConflict, 1),
        2,
        "refused: check 4 NoConflict at 1\n",
    ),
    (
        Fault::Cert(CertCause::Missing, 1),
        2,
        "refused: cert 10 Missing at 1\n",
    ),
    (
        Fault::Reasons(ReasonCause::NoPair, 3),
        2,
        "refused: reasons 9 NoPair at 3\n",
    ),
    (
        Fault::Search(SearchCause::Cut),
        2,
        "refused: search 2 Cut\n",
    ),
    (
        Fault::Search(SearchCause::NoThread),
        2,
        "refused: search 3 NoThread\n",
    ),
];

/// Asserts what is reported of a fault. The derived text is the line's, without the word before it.
fn assert_told(rt: &impl Abort, alloc: Global, fault: Fault, status: u8, line: &str) {
    let mut error = MemorySink::new(alloc);
    let told = write_fault(&fault, &mut error).is_ok();
    expect(rt, told && error.as_slice() == line.as_bytes(), line.len());
    let derived = ample(rt, fault.to_string(alloc));
    let text = ample(rt, format!(in alloc; "refused: {derived}\n"));
    expect(rt, text.as_str() == line, line.len());
    expect(rt, exit_status(&Err(fault)) == status, line.len());
}

#[test]
fn tells_each_kind_of_fault(rt: HostRuntime) {
    for (fault, status, line) in &FAULTS {
        assert_told(&rt, rt.alloc(), *fault, *status, line);
    }
}
