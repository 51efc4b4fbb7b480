//! What is noted of verdicts.

use explanation::{AskedCommand, SearchEffort, explain};
use note_text::NamedText;
use std::alloc::Global;
use std::process::Abort;
use trace_text::trace_fault::TraceCause;
use verdict_report::{Fault, Status};

/// Each of two processes writes, and does not see what the other one wrote.
const STORE_BUFFERING: &str =
    "vsc 1\ninit x 0\ninit y 0\nproc P\nW x 1\nR y 0\nproc Q\nW y 1\nR x 0\n";

/// What a search is allowed if no option says so.
const USUAL: SearchEffort = SearchEffort {
    workers: 4,
    budget: 100_000,
    rounds: 1,
};

/// The most that a search may be allowed.
const LARGEST: SearchEffort = SearchEffort {
    workers: 8,
    budget: 1_000_000_000,
    rounds: 4,
};

/// A file of this name and text.
fn file<'t>(name: &'t str, text: &'t str) -> NamedText<'t> {
    NamedText {
        name,
        bytes: Some(text.as_bytes()),
        failure: None,
    }
}

/// The search of a trace, which gives this report and a certificate of this length.
fn search<'t>(
    trace: &'t str,
    effort: SearchEffort,
    report: Option<&'t [u8]>,
    certificate_length: Option<u64>,
) -> AskedCommand<'t> {
    AskedCommand::Verify {
        trace: file("t.trace", trace),
        effort,
        report,
        certificate_length,
    }
}

/// Asserts what is noted, in the case of this number.
fn assert_notes(
    alloc: Global,
    rt: &impl Abort,
    asked: &AskedCommand<'_>,
    status: Status,
    wanted: &str,
    number: usize,
) {
    let outcome: Result<Status, Fault> = Ok(status);
    let notes = explain(alloc, asked, &outcome, None);
    assert!(rt; notes.as_slice() == wanted.as_bytes(), "in case {number}");
}

/// Traces, schedules and why these are illegal.
const ILLEGAL: [(&str, &str, &str); 9] = [
    (
        "vsc 1\ninit x 0\nproc P\nW x 1\nproc Q\nR x 0\n",
        "P.1\nQ.1\n",
        "note: Q.1 reads 0 at x, which holds 1, written by P.1\n",
    ),
    (
        "vsc 1\nproc P\nW x 1\nproc Q\nR x 1\n",
        "Q.1\nP.1\n",
        "note: Q.1 reads 1 at x, which holds no value: nothing has written it, and it has no init line\n",
    ),
    (
        "vsc 1\nproc P\nW x 1\n",
        "Z.1\n",
        "note: Z.1 is no operation of the trace, which has no process Z\n",
    ),
    (
        "vsc 1\nproc P\nW x 1\n",
        "P.1\nP.1\n",
        "note: P.1 stands at place 1 already\n",
    ),
    (
        "vsc 1\nproc P\nW x 1\nW x 2\n",
        "P.2\nP.1\n",
        "note: P.2 comes before P.1, which stands above it in the process\n",
    ),
    (
        "vsc 1\nproc P\nW x 1\nproc Q\nR x 1\n",
        "P.1\n",
        "note: Q.1 is not in the schedule\n",
    ),
    (
        "vsc 1\ninit x 0\nfinal x 0\nproc P\nW x 1\n",
        "P.1\n",
        "note: the final value of x is 0, and x holds 1, written by P.1\n",
    ),
    (
        "vsc 2\nproc P\nW x 1\nproc Q\nW y 1\nbefore P 1 Q 1\n",
        "Q.1\nP.1\n",
        "note: Q.1 comes before P.1, which a before line puts before it\n",
    ),
    (
        "vsc 2\ninit x 0\nproc P\nW x 0\nproc Q\nR x 0 from init\n",
        "P.1\nQ.1\n",
        "note: Q.1 reads x from init, and x holds 0, written by P.1\n",
    ),
];

#[test]
fn says_why_a_schedule_is_illegal(rt: HostRuntime) {
    for number in 0..ILLEGAL.len() {
        let (trace, schedule, wanted) = ILLEGAL[number];
        let asked = AskedCommand::Judge {
            trace: file("t.trace", trace),
            schedule: file("t.schedule", schedule),
        };
        assert_notes(rt.alloc(), &rt, &asked, Status::No, wanted, number);
    }
}

/// Traces of which no order of the operations gives some value, and the notes.
const SOURCELESS: [(&str, &str); 6] = [
    (
        "vsc 1\nproc P\nW x 1\nproc Q\nR x 0\n",
        "note: Q.1 reads 0 at x, which nothing writes, and x has no init line\nnote: if x held 0 at first, the line `init x 0` is missing above the first proc line\nnote: this alone rules out all schedules\n",
    ),
    (
        "vsc 1\ninit x 7\nproc P\nU x 1 1\n",
        "note: P.1 reads 1 at x, which nothing else writes, and init x is 7\nnote: this alone rules out all schedules\n",
    ),
    (
        "vsc 2\ninit x 0\nproc P\nW x 1\nW y 2\nproc Q\nR x 2 from P 2\nR x 1 from init\n",
        "note: Q.1 reads 2 at x from P.2, which does not write 2 to x\nnote: Q.2 reads 1 at x from init, and init x is 0\nnote: each of these alone rules out all schedules\n",
    ),
    (
        "vsc 1\nfinal x 5\nfinal y 6\nproc P\nW x 1\n",
        "note: the final value of x is 5, which none of its writes leaves\nnote: the final value of y is 6, and nothing writes it, and y has no init line\nnote: each of these alone rules out all schedules\n",
    ),
    (
        "vsc 1\nproc P\nR x 1\nR x 2\nR x 3\nR x 4\nR x 5\nR x 6\nR x 7\n",
        "note: P.1 reads 1 at x, which nothing writes, and x has no init line\nnote: P.2 reads 2 at x, which nothing writes, and x has no init line\nnote: P.3 reads 3 at x, which nothing writes, and x has no init line\nnote: P.4 reads 4 at x, which nothing writes, and x has no init line\nnote: P.5 reads 5 at x, which nothing writes, and x has no init line\nnote: reads without a source beside these: 2\nnote: each of these alone rules out all schedules\n",
    ),
    (
        STORE_BUFFERING,
        "note: a contradiction of 8 clauses, of 14 in all:\nnote: P.2 R y 0 reads the initial value: nothing else writes that value\nnote: Q.2 R x 0 reads the initial value: nothing else writes that value\nnote: P.2 reads the initial value, so Q.1 W y 1 stands after it\nnote: P.1 < P.2 < Q.1 < Q.2\nnote: P.1 W x 1 stands before Q.2, which reads the initial value: contradiction\n",
    ),
];

#[test]
fn says_why_a_trace_is_inconsistent(rt: HostRuntime) {
    for number in 0..SOURCELESS.len() {
        let (trace, wanted) = SOURCELESS[number];
        let asked = search(trace, USUAL, None, None);
        assert_notes(rt.alloc(), &rt, &asked, Status::No, wanted, number);
    }
}

#[test]
fn says_what_to_try(rt: HostRuntime) {
    let advice =
        "note: try --budget 1000000 in place of 100000: it bounds proofs by counting too\nnote: try --rounds 4: each round splits the cubes that are open\nnote: try --workers 8, if there are as many processors: it searches more cubes at once\n";
    let asked = search(STORE_BUFFERING, USUAL, None, None);
    assert_notes(rt.alloc(), &rt, &asked, Status::Unknown, advice, 1);
    let report = b"UNKNOWN open=2\nopen 3 0\nopen -3 0\n";
    let asked = search(STORE_BUFFERING, LARGEST, Some(report), None);
    let cubes =
        "note: cubes that are open: 2; a legal schedule can only be in one of them\nnote: open: P.1 before Q.2\nnote: open: Q.2 before P.1\n";
    assert_notes(rt.alloc(), &rt, &asked, Status::Unknown, cubes, 2);
}

#[test]
fn says_how_a_certificate_gets_shorter_and_what_it_shows(rt: HostRuntime) {
    let trace = "vsc 1\nproc P\nR x 1\n";
    let asked = search(trace, USUAL, None, Some(268_435_457));
    let wanted =
        "note: P.1 reads 1 at x, which nothing writes, and x has no init line\nnote: this alone rules out all schedules\nnote: the certificate has 268435457 bytes, and vsc recheck reads at most 268435456\nnote: --split 0 gives one proof in place of one for each cube, and mostly a shorter certificate\n";
    assert_notes(rt.alloc(), &rt, &asked, Status::No, wanted, 1);
    let asked = AskedCommand::Recheck {
        trace: file("t.trace", trace),
        cert: file("t.cert", ""),
        names: Some(file("t.names", "P.1\n")),
    };
    let wanted =
        "note: t.trace has no legal schedule: each proof was checked\nnote: the operations that are named suffice for that\n";
    assert_notes(rt.alloc(), &rt, &asked, Status::Yes, wanted, 2);
}

#[test]
fn says_why_a_text_is_refused(rt: HostRuntime) {
    let asked = AskedCommand::Cnf {
        trace: file("t.trace", "vsc 4\n"),
    };
    let outcome: Result<Status, Fault> = Err(Fault::Trace(TraceCause::Header, 1));
    let notes = explain(rt.alloc(), &asked, &outcome, None);
    assert!(rt; !notes.is_empty(), "there is no note");
}
