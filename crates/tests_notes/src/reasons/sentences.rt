//! Notes on certificates of reasons, of each kind of line.

use crate::expectations::{ample, expect};
use reason_notes::notes_of_reasons;
use std::alloc::Global;
use std::process::Abort;
use trace_text::trace_reader::read_trace;

/// Asserts what is noted of the certificate of the trace.
fn assert_noted(
    rt: &impl Abort,
    alloc: Global,
    trace_text: &str,
    text: &str,
    wanted: &str,
    number: usize,
) {
    let trace = ample(rt, read_trace(alloc, trace_text.as_bytes()));
    let found = ample(rt, notes_of_reasons(alloc, &trace, text.as_bytes()));
    let is_wanted = match &found {
        Some(notes) => notes.as_slice() == wanted.as_bytes(),
        None => wanted.is_empty(),
    };
    expect(rt, is_wanted, number);
}

/// Traces, certificates, and what is noted.
const NOTED: [(&str, &str, &str); 10] = [
    (
        "vsc 1\ninit data 0\ninit flag 0\nproc P\nW data 1\nW flag 1\nproc Q\nR flag 1\nR data 0\n",
        "vsc-reasons 1\n# the flag\ns Q.1\ns Q.2 i P.1\nc P.1 P.2 Q.1 Q.2\np\n4 0 1 2 3 0\n",
        "note: Q.1 reads 1 at flag, from an operation before it: P.2 before Q.1\nnote: Q.2 reads 0 at data, from the initial value, which P.1 would hide, or from an operation before it: Q.2 before P.1\nnote: no schedule has P.1 before P.2 before Q.1 before Q.2 before P.1: Q.1 before P.2, or P.1 before Q.2\n",
    ),
    (
        "vsc 2\nproc P\nW x 1\nW x 2\nproc Q\nW x 3\nW x 4\nbefore P 2 Q 1\nbefore Q 2 P 1\n",
        "vsc-reasons 1\nv P.1 Q.1\nb P.2 Q.1\nb Q.2 P.1\nc P.1 P.2 Q.1 Q.2\np\n4 0 1 2 3 0\n",
        "note: by a before line: P.2 before Q.1\nnote: by a before line: Q.2 before P.1\nnote: no schedule has P.1 before P.2 before Q.1 before Q.2 before P.1: Q.1 before P.2, or P.1 before Q.2\n",
    ),
    (
        "vsc 1\ninit l 0\nfinal l 0\nproc P\nU l 0 1\nW l 0\nU l 0 1\nproc Q\nU l 0 1\nW l 0\n",
        "vsc-reasons 1\nN l 0\nwhatever follows\n",
        "note: 3 updates and the final value must have a 0 of their own at l, and only 2 operations and the initial value can give one: contradiction\n",
    ),
    (
        "vsc 1\ninit x 0\nfinal x 5\nproc P\nW x 4\nW x 5\nW f 1\nproc Q\nR f 1\nR x 4\n",
        "vsc-reasons 1\nl x h Q.2 P.2\ns Q.1\nc P.2 P.3 Q.1 Q.2\np\n4 0 1 2 3 0\n",
        "note: the final value of x is 5, from P.2 or earlier in its process, which Q.2 would hide: Q.2 before P.2\nnote: Q.1 reads 1 at f, from an operation before it: P.3 before Q.1\nnote: no schedule has P.2 before P.3 before Q.1 before Q.2 before P.2: Q.1 before P.3, or P.2 before Q.2\n",
    ),
    (
        "vsc 1\ninit l 0\ninit x 0\nproc P\nU l 0 1\nR x 1\nW l 0\nproc Q\nU l 0 1\nW x 1\n",
        "vsc-reasons 1\nn r P.1 r Q.1 f P.3\ns P.2\nc P.2 P.3 Q.1 Q.2\np\n4 0 1 2 3 0\n",
        "note: each of these must have a source of its own, and the sources that are left to them are too few; P.1 reads 0 at l; Q.1 reads 0 at l, from P.3 or later in its process, before it: P.3 before Q.1\nnote: P.2 reads 1 at x, from an operation before it: Q.2 before P.2\nnote: no schedule has P.2 before P.3 before Q.1 before Q.2 before P.2: Q.1 before P.3, or P.2 before Q.2\n",
    ),
    (
        "vsc 1\ninit z 0\nfinal z 1\nproc P\nR x 1\nW y 1\nproc Q\nR y 1\nW x 1\n",
        "vsc-reasons 1\nl z\n",
        "note: the final value of z is 1, which no last write of a process leaves: contradiction\n",
    ),
    (
        "vsc 1\ninit z 0\nfinal z 1\nproc P\nR x 1\nW y 1\nproc Q\nR y 1\nW x 1\n",
        "vsc-reasons 1\nw m P.1 Q.2 r Q.1\ns P.1\np\n3 0 1 2 0\n",
        "note: one of these would have to come first; P.1, which waits for Q.2; Q.1 reads 1 at y: P.1 before Q.2\nnote: P.1 reads 1 at x, from an operation before it: Q.2 before P.1\n",
    ),
    (
        "vsc 1\ninit z 0\nfinal z 1\nproc P\nR x 1\nW y 1\nproc Q\nR y 1\nW x 1\n",
        "vsc-reasons 1\ns P.1\n",
        "",
    ),
    (
        "vsc 2\nproc P\nW x 1\nproc Q\nW x 1\nproc S\nW x 2\nproc R\nR x 1\nbefore P 1 S 1\nbefore Q 1 S 1\nbefore S 1 R 1\n",
        "vsc-reasons 1\ns R.1 H S.1\ns R.1 L S.1\nb P.1 S.1\nb Q.1 S.1\nb S.1 R.1\np\n6 0 3 4 5 1 0\n",
        "note: R.1 reads 1 at x, from any other, which S.1 would hide: S.1 before P.1, or R.1 before S.1, or S.1 before Q.1\nnote: R.1 reads 1 at x, from any other, and S.1 stands after that or before it: P.1 before S.1, or S.1 before R.1, or Q.1 before S.1\nnote: by a before line: P.1 before S.1\nnote: by a before line: Q.1 before S.1\nnote: by a before line: S.1 before R.1\n",
    ),
    (
        "vsc 3\ninit x 0\nproc P\nW x 1 at 10 20\nproc Q\nR x 0 at 21 30\n",
        "vsc-reasons 1\nt P.1 Q.1\ns Q.1 i P.1\np\n3 0 1 2 0\n",
        "note: by their times: P.1 before Q.1\nnote: Q.1 reads 0 at x, from the initial value, which P.1 would hide, or from an operation before it: Q.1 before P.1\n",
    ),
];

#[test]
fn lines_are_noted(rt: HostRuntime) {
    for number in 0..NOTED.len() {
        let (trace, text, wanted) = NOTED[number];
        assert_noted(&rt, rt.alloc(), trace, text, wanted, number);
    }
}
