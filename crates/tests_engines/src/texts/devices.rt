//! Sinks and sources in memory, some of which move few bytes a call or fail at one.

use crate::expectations::{ample, expect};
use dimacs::{
    Failed, FailureCount, MemorySink, ShortSink, Sink, SinkFault, Transcript, write_whole,
};
use std::alloc::Global;
use std::process::Abort;
use verdict_report::{ReadFault, ShortSource, read_whole};

const TEXT: &str = "p cnf 3 4\n";

/// The largest number of bytes that a sink takes a call, the number of those of the text that it takes at once, and what is left of the
/// text.
const TAKEN: [(usize, usize, &str); 4] = [
    (0, 1, " cnf 3 4\n"),
    (1, 1, " cnf 3 4\n"),
    (4, 4, "f 3 4\n"),
    (usize::MAX, 10, ""),
];

/// Asserts that a sink takes this number of bytes at once, and then what is left.
fn assert_takes(rt: &impl Abort, alloc: Global, most: usize, count: usize, rest: &str) {
    let mut sink = ShortSink::new(alloc, most);
    expect(rt, sink.write(TEXT.as_bytes()).ok() == Some(count), most);
    expect(rt, sink.write(b"").ok() == Some(0), most);
    expect(rt, write_whole(&mut sink, rest.as_bytes()).is_ok(), most);
    expect(rt, sink.as_slice() == TEXT.as_bytes(), most);
}

#[test]
fn takes_so_many_bytes_a_call(rt: HostRuntime) {
    for (most, count, rest) in &TAKEN {
        assert_takes(&rt, rt.alloc(), *most, *count, rest);
    }
    let mut sink = MemorySink::new(rt.alloc());
    assert!(rt; sink.write(TEXT.as_bytes()).ok() == Some(10));
    assert!(rt; sink.as_slice() == TEXT.as_bytes());
}

/// Asserts that a sink that fails at this call has this prefix of the text, and takes the rest then: it fails once.
fn assert_front(rt: &impl Abort, alloc: Global, call: usize, front: &[u8], rest: &[u8]) {
    let mut sink = ShortSink::new(alloc, 1).failing_at(call as u64);
    let is_written = write_whole(&mut sink, TEXT.as_bytes()).is_ok();
    expect(rt, is_written == (call > TEXT.len()), call);
    expect(rt, sink.as_slice() == front, call);
    expect(rt, write_whole(&mut sink, rest).is_ok(), call);
    expect(rt, sink.as_slice() == TEXT.as_bytes(), call);
}

#[test]
fn writes_a_front_where_a_call_fails(rt: HostRuntime) {
    let text = TEXT.as_bytes();
    for call in 1..=text.len() + 1 {
        assert_front(&rt, rt.alloc(), call, &text[..call - 1], &text[call - 1..]);
    }
}

/// Returns whether the whole text is read from a source that hands out at most the given number of bytes a call.
fn is_read(alloc: Global, most: usize) -> bool {
    let mut source = ShortSource::new(TEXT.as_bytes(), most);
    match read_whole(alloc, &mut source) {
        Ok(read) => read.as_slice() == TEXT.as_bytes(),
        Err(_) => false,
    }
}

/// Returns whether it is reported that the source fails at this call.
fn is_failure_told(alloc: Global, call: usize) -> bool {
    let mut source = ShortSource::new(TEXT.as_bytes(), 1).failing_at(call as u64);
    matches!(read_whole(alloc, &mut source), Err(ReadFault::Device))
}

#[test]
fn reads_whole_texts_or_tells_the_failure(rt: HostRuntime) {
    for most in [1, 3, 10, usize::MAX] {
        expect(&rt, is_read(rt.alloc(), most), most);
    }
    for call in 1..=TEXT.len() + 1 {
        expect(&rt, is_failure_told(rt.alloc(), call), call);
    }
}

#[test]
fn keeps_what_only_clauses_see(rt: HostRuntime) {
    let mut transcript = Transcript::new();
    transcript.extend(b"1 2 0\n");
    let mut failures = FailureCount::new();
    failures.rise();
    let line = ample(&rt, SinkFault::from(Failed).to_string(rt.alloc()));
    assert!(rt; line.as_str() == "2 Device");
}
