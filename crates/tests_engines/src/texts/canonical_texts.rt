//! Traces and schedules that are written: as they were read, and as they were built.
ghost use Rattle.std.specs.Prelude.{◌≡◌, ◌++◌, ◌∷◌, []};

use crate::expectations::{ample, expect};
use schedule_text::schedule_reader::read_schedule;
use schedule_text::schedule_writer::write_schedule;
use std::alloc::{AllocError, Global};
use std::process::Abort;
use trace_semantics::limits::Limits;
use trace_semantics::name::Name;
use trace_semantics::operation::{Op, OpName, Origin, Span};
use trace_semantics::trace::{Operations, Process, Trace};
use trace_text::trace_reader::read_trace;
use trace_text::trace_writer::write_trace;

/// Asserts that the text spells the trace of this canonical text.
fn assert_written(rt: &impl Abort, alloc: Global, text: &str, canonical: &str) {
    let trace = ample(rt, read_trace(alloc, text.as_bytes()));
    let written = ample(rt, write_trace(alloc, &trace));
    expect(rt, written.as_slice() == canonical.as_bytes(), text.len());
}

/// A trace with everything that version 2 has, its lines in no order, with comments, blank lines and tabs.
const SCATTERED: &str =
    "\t# no order\n\n vsc\t2 \r\nbefore Q 1 P 2\ninit y 7\r\n  init x 0\nfinal y 18446744073709551615\n\
init X 1\nfinal _a 0\ninit x1 3\nproc Q\nU x  0 1 from init\n# inside\nbefore P 1 P 2\n  R y 7 from init\n\nproc P\n\
before Q 1 P 2\nU X 1 0\nR x\t1 from Q 1\nproc P10\nproc P9\nW y 18446744073709551615\n before P 1 Q 2 \nU X 0 1 from P 1\nbefore P9 2 P 1";

/// The same trace: values by location in byte order, processes in their order, pairs by process and place, each once.
const IN_ORDER: &str =
    "vsc 2\ninit X 1\ninit x 0\ninit x1 3\ninit y 7\nfinal _a 0\nfinal y 18446744073709551615\n\
proc Q\nU x 0 1 from init\nR y 7 from init\nproc P\nU X 1 0\nR x 1 from Q 1\nproc P10\n\
proc P9\nW y 18446744073709551615\nU X 0 1 from P 1\n\
before Q 1 P 2\nbefore P 1 Q 2\nbefore P 1 P 2\nbefore P9 2 P 1\n";

/// Pairs in no order, some of them twice, of a process of ten operations and one of two.
const PAIRS: &str =
    "vsc 2\nproc Z\nW x 1\nW x 1\nW x 1\nW x 1\nW x 1\nW x 1\nW x 1\nW x 1\nW x 1\nW x 1\nproc A\nW x 1\nW x 1\n\
before Z 10 A 1\nbefore A 2 Z 10\nbefore Z 9 A 1\nbefore A 2 Z 9\nbefore Z 10 A 1\n\
before A 1 Z 10\nbefore Z 9 Z 10\nbefore A 1 A 2\nbefore A 2 Z 10\nbefore Z 9 A 1\n";

/// The same trace, with its pairs by number, each once.
const SORTED_PAIRS: &str =
    "vsc 2\nproc Z\nW x 1\nW x 1\nW x 1\nW x 1\nW x 1\nW x 1\nW x 1\nW x 1\nW x 1\nW x 1\nproc A\nW x 1\nW x 1\n\
before Z 9 Z 10\nbefore Z 9 A 1\nbefore Z 10 A 1\n\
before A 1 Z 10\nbefore A 1 A 2\nbefore A 2 Z 9\nbefore A 2 Z 10\n";

/// Texts, and what is written of their traces.
const WRITTEN: [(&str, &str); 7] = [
    (SCATTERED, IN_ORDER),
    // A later version is written only where it is needed.
    ("vsc 2", "vsc 1\n"),
    ("vsc 3", "vsc 1\n"),
    (
        "vsc 3\nproc P\nW x 1\nR x 1 from P 1",
        "vsc 2\nproc P\nW x 1\nR x 1 from P 1\n",
    ),
    (
        "vsc 2\ninit y 0\n# c\ninit  x 0\nproc P\nW x 1",
        "vsc 1\ninit x 0\ninit y 0\nproc P\nW x 1\n",
    ),
    (
        "vsc 2\nproc P\nW x 1\nR x 1\nR x 1 from P 1",
        "vsc 2\nproc P\nW x 1\nR x 1\nR x 1 from P 1\n",
    ),
    (PAIRS, SORTED_PAIRS),
];

#[test]
fn writes_scattered_lines_in_order(rt: HostRuntime) {
    for (text, canonical) in &WRITTEN {
        assert_written(&rt, rt.alloc(), text, canonical);
    }
}

/// Texts that are written as they are.
const CANONICAL: [&str; 8] = [
    IN_ORDER,
    "vsc 1\n",
    "vsc 1\ninit x 0\nfinal x 0\nproc P\nU x 0 1\nproc Q\nU x 1 0\n",
    "vsc 1\ninit x 18446744073709551615\nfinal x 5\n",
    "vsc 1\ninit A 0\ninit Z 0\ninit _ 0\ninit a 0\ninit a0 0\ninit aa 0\ninit z 0\nfinal A 1\nfinal a 1\n",
    "vsc 1\nproc Q\nproc P\nproc A\nW x 1\nproc _\n",
    "vsc 2\nproc P\nW x 1\nproc Q\nW x 2\nbefore Q 1 P 1\n",
    "vsc 2\nproc init\nR x 0 from init\nR x 0 from init 1\n",
];

#[test]
fn writes_canonical_texts_as_they_are(rt: HostRuntime) {
    for text in &CANONICAL {
        assert_written(&rt, rt.alloc(), text, text);
    }
}

/// Appends a line with a number in it.
fn push_line(rt: &impl Abort, text: &mut String, line: Result<String, AllocError>) {
    ample(rt, text.push_str(ample(rt, line).as_str()));
}

/// The text of a process of 4,096 operations, of which the first one stands before all others and after the last one.
fn large_text(rt: &impl Abort, alloc: Global) -> String {
    let mut text = ample(rt, String::from_str(alloc, "vsc 2\nproc P\n"));
    for number in 1..=4096u32 {
        push_line(rt, &mut text, format!(in alloc; "W x{number} {number}\n"));
    }
    for place in 2..=4096u32 {
        push_line(rt, &mut text, format!(in alloc; "before P 1 P {place}\n"));
    }
    ample(rt, text.push_str("before P 4096 P 1\n"));
    text
}

#[test]
fn writes_4096_operations_and_pairs(rt: HostRuntime) {
    let text = large_text(&rt, rt.alloc());
    assert_written(&rt, rt.alloc(), text.as_str(), text.as_str());
}

/// Asserts that a text of this head, and of lines that have these words before and after a number from `first` to `last`, is written as it is.
fn assert_written_of(
    rt: &impl Abort,
    alloc: Global,
    head: &str,
    words: [&str; 2],
    first: u32,
    last: u32,
) {
    let [before, after] = words;
    let mut text = ample(rt, String::from_str(alloc, head));
    for number in first..=last {
        push_line(
            rt,
            &mut text,
            format!(in alloc; "{before}{number}{after}\n"),
        );
    }
    assert_written(rt, alloc, text.as_str(), text.as_str());
}

#[test]
fn writes_version_3_of_4097_operations(rt: HostRuntime) {
    let head = "vsc 3\nproc P\n";
    assert_written_of(&rt, rt.alloc(), head, ["W x ", ""], 1, 4097);
}

#[test]
fn writes_version_3_of_4097_locations(rt: HostRuntime) {
    let words = ["init a", " 0"];
    assert_written_of(&rt, rt.alloc(), "vsc 3\n", words, 1000, 5096);
}

/// The name of these bytes.
fn name_of(rt: &impl Abort, alloc: Global, bytes: &[u8]) -> Name
    ensures { result ≡ bytes.now }
{
    match Name::copy_of(alloc, bytes) {
        Ok(name) => name,
        Err(_) => panic!(rt; "there is no memory"),
    }
}

/// Appends the operation.
fn push_op(rt: &impl Abort, ops: &mut Vec<Op>, op: Op)
    ensures { ops.new.items ≡ ops.old.items ++ op ∷ [] }
{
    match ops.push(op) {
        Ok(()) => (),
        Err(_) => panic!(rt; "there is no memory"),
    }
}

/// A trace of one process. It writes a location, reads the initial value of another, and updates what it wrote.
fn trace_of_three(rt: &impl Abort, alloc: Global) -> Result<Trace, AllocError> {
    let mut ops = Vec::new(alloc);
    let location = name_of(rt, alloc, b"x");
    let write = Op::Write {
        location,
        value: 1,
        span: None,
    };
    push_op(rt, &mut ops, write);
    let read = Op::Read {
        location: name_of(rt, alloc, b"y"),
        value: 18446744073709551615,
        origin: Origin::Initial,
        span: None,
    };
    push_op(rt, &mut ops, read);
    let first = OpName {
        process: name_of(rt, alloc, b"P0"),
        place: 1,
    };
    let update = Op::Update {
        location: name_of(rt, alloc, b"x"),
        read: 1,
        left: 20,
        origin: Origin::Operation(first),
        span: None,
    };
    push_op(rt, &mut ops, update);
    let mut processes = Vec::new(alloc);
    processes.push(Process {
        name: name_of(rt, alloc, b"P0"),
        operations: Operations::new(ops),
    })?;
    Ok(Trace::new(processes, Vec::new(alloc), Vec::new(alloc), Vec::new(alloc)))
}

/// A trace of one process that writes and reads a location, each at a time.
fn trace_with_times(rt: &impl Abort, alloc: Global) -> Result<Trace, AllocError> {
    let mut ops = Vec::new(alloc);
    let write = Op::Write {
        location: name_of(rt, alloc, b"x"),
        value: 1,
        span: Some(Span { start: 0, end: 5 }),
    };
    push_op(rt, &mut ops, write);
    let read = Op::Read {
        location: name_of(rt, alloc, b"x"),
        value: 1,
        origin: Origin::Any,
        span: Some(Span {
            start: 5,
            end: 18446744073709551615,
        }),
    };
    push_op(rt, &mut ops, read);
    let mut processes = Vec::new(alloc);
    processes.push(Process {
        name: name_of(rt, alloc, b"P0"),
        operations: Operations::new(ops),
    })?;
    Ok(Trace::new(processes, Vec::new(alloc), Vec::new(alloc), Vec::new(alloc)))
}

#[test]
fn writes_times(rt: HostRuntime) {
    let trace = ample(&rt, trace_with_times(&rt, rt.alloc()));
    let text = ample(&rt, write_trace(rt.alloc(), &trace));
    let expected = "vsc 3\nproc P0\nW x 1 at 0 5\nR x 1 at 5 18446744073709551615\n";
    assert!(rt; text.as_slice() == expected.as_bytes());
}

#[test]
fn writes_a_trace_that_was_built(rt: HostRuntime) {
    let trace = ample(&rt, trace_of_three(&rt, rt.alloc()));
    let text = ample(&rt, write_trace(rt.alloc(), &trace));
    let expected =
        "vsc 2\nproc P0\nW x 1\nR y 18446744073709551615 from init\nU x 1 20 from P0 1\n";
    assert!(rt; text.as_slice() == expected.as_bytes());
}

/// Asserts that this is the text of the schedule that it spells.
fn assert_schedule(rt: &impl Abort, alloc: Global, text: &str) {
    let schedule = ample(rt, read_schedule(alloc, Limits::Small, text.as_bytes()));
    let written = ample(rt, write_schedule(alloc, &schedule));
    expect(rt, written.as_slice() == text.as_bytes(), text.len());
}

#[test]
fn writes_schedules_as_they_are(rt: HostRuntime) {
    for text in ["", "P.1\nQ.1\n", "Q.1\nP.1\nQ.1\n_.65535\ninit.10\n"] {
        assert_schedule(&rt, rt.alloc(), text);
    }
    let schedule = ample(
        &rt,
        read_schedule(rt.alloc(), Limits::Small, b"#\nQ_7.65535"),
    );
    assert!(&rt; schedule.names().len() == 1);
    let names = schedule.into_names();
    assert!(&rt; names.len() == 1 && names[0].place == 65535);
    assert!(&rt; names[0].process.as_bytes() == b"Q_7".as_slice());
}
