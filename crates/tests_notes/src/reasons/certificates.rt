//! Certificates of reasons: some that are accepted, and one for each way to be refused.

use crate::expectations::{ample, expect};
use lrat_check::lrat_fault::LratCause;
use lrat_check::refusal::StepFault;
use reason_check::reasons_check::{AcceptedReasons, check_reasons};
use reason_check::reasons_fault::ReasonsFault;
use reason_clauses::cause::ReasonCause;
use std::alloc::Global;
use std::process::Abort;
use trace_text::trace_reader::read_trace;

/// The second process sees the flag and not the data that was written before it.
const STALE_DATA: &str =
    "vsc 1\ninit data 0\ninit flag 0\nproc P\nW data 1\nW flag 1\nproc Q\nR flag 1\nR data 0\n";

/// Two pairs that go round.
const ROUND: &str =
    "vsc 2\nproc P\nW x 1\nW x 2\nproc Q\nW x 3\nW x 4\nbefore P 2 Q 1\nbefore Q 2 P 1\n";

/// Three acquires and the end want the value 0, and two releases and the beginning leave it.
const MISSING_RELEASE: &str =
    "vsc 1\ninit l 0\nfinal l 0\nproc P\nU l 0 1\nW l 0\nU l 0 1\nproc Q\nU l 0 1\nW l 0\n";

/// The end of x wants the second write, and then a read of the first one comes too late.
const LATE_READ: &str =
    "vsc 1\ninit x 0\nfinal x 5\nproc P\nW x 4\nW x 5\nW f 1\nproc Q\nR f 1\nR x 4\n";

/// Each process reads what the other one writes afterwards, and no operation writes z, which ends with another value than it begins with.
const THIN_AIR: &str = "vsc 1\ninit z 0\nfinal z 1\nproc P\nR x 1\nW y 1\nproc Q\nR y 1\nW x 1\n";

/// P reads within its turn at the lock what Q writes in its own, which Q does not end.
const UNENDED_TURN: &str =
    "vsc 1\ninit l 0\ninit x 0\nproc P\nU l 0 1\nR x 1\nW l 0\nproc Q\nU l 0 1\nW x 1\n";

/// The read of the initial value begins after a write of another one had ended; the second read had ended before both, the third has no times, and
/// the last one begins when the write ends.
const LATE_START: &str =
    "vsc 3\ninit x 0\nproc P\nW x 1 at 10 20\nproc Q\nR x 0 at 21 30\nR x 1 at 5 9\nR x 1\nW y 1 at 40 41\nR x 1 at 20 50\n";

/// Asserts what the check of the certificate, without its header, answers for the trace.
fn assert_checked(
    rt: &impl Abort,
    alloc: Global,
    trace_text: &str,
    text: &str,
    wanted: Result<AcceptedReasons, ReasonsFault>,
    number: usize,
) {
    let trace = ample(rt, read_trace(alloc, trace_text.as_bytes()));
    let found = check_reasons(alloc, &trace, text.as_bytes());
    expect(rt, found == wanted, number);
}

/// Certificates of how many clauses are accepted.
const ACCEPTED: [(&str, &str, usize); 13] = [
    (
        STALE_DATA,
        "vsc-reasons 1\nc P.1 P.2 Q.1 Q.2\ns Q.1\ns Q.2 i P.1\np\n4 0 2 3 1 0\n",
        3,
    ),
    (
        ROUND,
        "vsc-reasons 1\nb P.2 Q.1\n\n# and back\nb Q.2 P.1\nc P.1 P.2 Q.1 Q.2\np\n4 0 1 2 3 0\n",
        3,
    ),
    (
        ROUND,
        "vsc-reasons 1\nv P.1 Q.1\nb P.2 Q.1\nb Q.2 P.1\nc P.1 P.2 Q.1\nc P.1 Q.1 Q.2\np\n5 0 1 2 4 3 0\n",
        4,
    ),
    (
        MISSING_RELEASE,
        "vsc-reasons 1\nN l 0\nwhatever follows\n",
        1,
    ),
    (
        LATE_READ,
        "vsc-reasons 1\nl x h Q.2 P.2\nl x H Q.2\ns Q.1\nc P.2 P.3 Q.1 Q.2\np\n5 0 1 3 4 0\n",
        4,
    ),
    (
        UNENDED_TURN,
        "vsc-reasons 1\nn r P.1 r Q.1 f P.3\ns P.2\nc P.2 P.3 Q.1 Q.2\np\n4 0 1 2 3 0\n",
        3,
    ),
    (
        MISSING_RELEASE,
        "vsc-reasons 1\nn r P.1 r P.3 r Q.1 l l\nwhatever follows\n",
        1,
    ),
    (
        LATE_READ,
        "vsc-reasons 1\nn l x h Q.2 P.2\ns Q.1\nc P.2 P.3 Q.1 Q.2\np\n4 0 1 2 3 0\n",
        3,
    ),
    (THIN_AIR, "vsc-reasons 1\nl z\n", 1),
    (THIN_AIR, "vsc-reasons 1\nw r P.1 r Q.1\n", 1),
    (
        THIN_AIR,
        "vsc-reasons 1\nw m P.1 Q.2 r Q.1\ns P.1\np\n3 0 1 2 0\n",
        2,
    ),
    (
        LATE_START,
        "vsc-reasons 1\nt Q.2 P.1\nt P.1 Q.1\ns Q.1 i P.1\np\n4 0 2 3 0\n",
        3,
    ),
    (LATE_START, "vsc-reasons 1\nt Q.2 Q.1\n", 1),
];

#[test]
fn certificates_are_accepted(rt: HostRuntime) {
    for k in 0..ACCEPTED.len() {
        let (trace, text, clauses) = ACCEPTED[k];
        assert_checked(
            &rt,
            rt.alloc(),
            trace,
            text,
            Ok(AcceptedReasons { clauses }),
            k,
        );
    }
}

/// Lines after the header, and what is wrong with which.
const REFUSED_LINES: [(&str, ReasonCause, usize); 12] = [
    ("vsc-reasons 2\nN l 0\n", ReasonCause::BadHeader, 1),
    ("", ReasonCause::BadHeader, 1),
    ("vsc-reasons 1\n\n# z\nz P.1\n", ReasonCause::BadLine, 4),
    ("vsc-reasons 1\nc P1\n", ReasonCause::BadLine, 2),
    ("vsc-reasons 1\nb P.1 Q.1 Q.2\n", ReasonCause::BadLine, 2),
    ("vsc-reasons 1\nc P.1 P.3\n", ReasonCause::NoOperation, 2),
    ("vsc-reasons 1\nc P.1\n", ReasonCause::BadCycle, 2),
    ("vsc-reasons 1\nc P.1 P.2\n", ReasonCause::AlwaysTrue, 2),
    ("vsc-reasons 1\nb P.1 Q.1\n", ReasonCause::NoPair, 2),
    ("vsc-reasons 1\nv P.1 P.2\n", ReasonCause::OneProcess, 2),
    (
        "vsc-reasons 1\ns Q.1 f P.1 f P.2\n",
        ReasonCause::SecondPiece,
        2,
    ),
    ("vsc-reasons 1\nN flag 1\n", ReasonCause::EnoughSources, 2),
];

/// Lines of a last writer and of operations that wait, and why they are refused.
const REFUSED_ENDS: [(&str, ReasonCause); 11] = [
    ("l", ReasonCause::BadLine),
    ("l x f P.2", ReasonCause::BadLine),
    ("l x", ReasonCause::LastLeft),
    ("l x h Q.1 P.2", ReasonCause::NoWitness),
    ("l x H P.2", ReasonCause::HidesItself),
    ("l nobody", ReasonCause::NoWriter),
    ("w", ReasonCause::BadLine),
    ("w r Q.2 H P.2", ReasonCause::BadLine),
    ("w m Q.1 Q.1", ReasonCause::BadCycle),
    ("w m Q.2 P.1 m P.2 Q.2", ReasonCause::SourceBefore),
    ("w r Q.1", ReasonCause::SourceBefore),
];

/// Lines that count with pieces, and why they are refused.
const REFUSED_COUNTS: [(&str, ReasonCause); 14] = [
    ("n", ReasonCause::EnoughSources),
    ("n m P.1 Q.1", ReasonCause::BadLine),
    ("n f P.3 r Q.1", ReasonCause::BadLine),
    ("n r P.1 H P.3", ReasonCause::BadLine),
    ("n l l f P.1", ReasonCause::BadLine),
    ("n r Q.1 f P.3 f P.3", ReasonCause::SecondPiece),
    ("n r P.1 r P.1", ReasonCause::SecondPiece),
    ("n l nobody l nobody", ReasonCause::SecondPiece),
    ("n r P.2", ReasonCause::NoReader),
    ("n r Q.1 i P.2", ReasonCause::NoWitness),
    ("n r Q.1 h P.3 P.3", ReasonCause::HidesItself),
    ("n l nobody", ReasonCause::NoWriter),
    ("n r P.1 r Q.1", ReasonCause::EnoughSources),
    ("n r P.1 i P.3", ReasonCause::AlwaysTrue),
];

/// Lines of times, and why they are refused.
const REFUSED_TIMES: [(&str, ReasonCause); 9] = [
    ("t P.1", ReasonCause::BadLine),
    ("t P.1 Q.1 Q.2", ReasonCause::BadLine),
    ("t P.1 Q.6", ReasonCause::NoOperation),
    ("t Q.1 P.1", ReasonCause::NoPair),
    ("t P.1 Q.3", ReasonCause::NoPair),
    ("t P.1 Q.5", ReasonCause::NoPair),
    ("t Q.3 P.1", ReasonCause::NoPair),
    ("b P.1 Q.1", ReasonCause::NoPair),
    ("t Q.1 Q.4", ReasonCause::AlwaysTrue),
];

/// Asserts that the line, which follows the header, is refused so.
fn assert_line_refused(
    rt: &impl Abort,
    alloc: Global,
    trace_text: &str,
    line: &str,
    cause: ReasonCause,
    number: usize,
) {
    let Ok(text) = format!(in alloc; "vsc-reasons 1\n{line}\n") else {
        panic!(rt; "there is no memory");
    };
    let wanted = Err(ReasonsFault::Line(cause, 2));
    assert_checked(rt, alloc, trace_text, &text, wanted, number);
}

/// Asserts so of each of these lines.
fn assert_lines_refused(
    rt: &impl Abort,
    alloc: Global,
    trace_text: &str,
    refused: &[(&str, ReasonCause)],
) {
    for k in 0..refused.len() {
        let (line, cause) = refused[k];
        assert_line_refused(rt, alloc, trace_text, line, cause, k);
    }
}

#[test]
fn ends_and_waiting_are_refused(rt: HostRuntime) {
    assert_lines_refused(&rt, rt.alloc(), LATE_READ, &REFUSED_ENDS);
}

#[test]
fn counts_are_refused(rt: HostRuntime) {
    assert_lines_refused(&rt, rt.alloc(), UNENDED_TURN, &REFUSED_COUNTS);
}

#[test]
fn times_are_refused(rt: HostRuntime) {
    assert_lines_refused(&rt, rt.alloc(), LATE_START, &REFUSED_TIMES);
}

#[test]
fn lines_are_refused(rt: HostRuntime) {
    for k in 0..REFUSED_LINES.len() {
        let (text, cause, line) = REFUSED_LINES[k];
        let wanted = Err(ReasonsFault::Line(cause, line));
        assert_checked(&rt, rt.alloc(), STALE_DATA, text, wanted, k);
    }
}

/// Derivations, and what is wrong with them.
const REFUSED_DERIVATIONS: [(&str, ReasonsFault); 3] = [
    (
        "vsc-reasons 1\nc P.1 P.2 Q.1 Q.2\np\n2 0 1\n",
        ReasonsFault::Lrat(LratCause::Unended, 4),
    ),
    (
        "vsc-reasons 1\nc P.1 P.2 Q.1 Q.2\np\n2 0 1 0\n",
        ReasonsFault::Step(StepFault::NotUnit, 1),
    ),
    (
        "vsc-reasons 1\nc P.1 P.2 Q.1 Q.2\n",
        ReasonsFault::Step(StepFault::NoEmptyClause, 1),
    ),
];

#[test]
fn derivations_are_refused(rt: HostRuntime) {
    for k in 0..REFUSED_DERIVATIONS.len() {
        let (text, fault) = REFUSED_DERIVATIONS[k];
        assert_checked(&rt, rt.alloc(), STALE_DATA, text, Err(fault), k);
    }
}
