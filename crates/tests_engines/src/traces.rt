//! Traces, and certificates of those that have no legal schedule.

use crate::expectations::ample;
use reducer::reduced::{Reduced, reduce};
use std::alloc::Global;
use std::process::Abort;
use trace_text::trace_reader::read_trace;

/// A process writes a value, and another one reads it. The one legal schedule is P.1, Q.1.
pub const HAND_OFF: &str = "vsc 1\nproc P\nW x 1\nproc Q\nR x 1\n";

/// Each of two processes writes a location, and reads the other one as it was at the start.
pub const STORE_BUFFERING: &str =
    "vsc 1\ninit x 0\ninit y 0\nproc P\nW x 1\nR y 0\nproc Q\nW y 1\nR x 0\n";

/// A certificate of store buffering. Variable 3 says that P.1 stands before Q.2. If it does, the read of Q is wrong by clauses 13 and 14;
/// if it does not, the read of P is wrong.
pub const CERTIFICATE: &str =
    "vsc-cert 1\nsplit 3\nleaf\nleaf\nproof 0\n16 0 13 14 15 0\nend\nproof 1\n16 0 1 2 11 12 3 7 15 0\nend\n";

/// A process reads what nothing writes. Its formula has the clauses 1, `1`, and 2, `-1`.
pub const UNWRITTEN: &str = "vsc 1\nproc P\nR x 1\n";

/// A certificate of each formula whose first two clauses are a variable and its negation.
pub const ONE_LEAF: &str = "vsc-cert 1\nleaf\nproof 0\n3 0 1 2 0\nend\n";

/// A process writes two locations, and another one reads a value of the second that was written and one of the first that was not.
pub const WRITTEN_OTHERWISE: &str = "vsc 1\nproc P\nW x 1\nW y 1\nproc Q\nR y 1\nR x 2\n";

/// Store buffering, beside a process that writes a location of its own.
pub const STORE_BUFFERING_BESIDE: &str =
    "vsc 1\ninit x 0\ninit y 0\nproc P\nW x 1\nR y 0\nproc Q\nW y 1\nR x 0\nproc S\nW z 1\n";

/// Three processes write one location, and two of them read there too.
pub const THREE_WRITERS: &str =
    "vsc 1\ninit x 0\nproc P\nW x 1\nW x 2\nR x 4\nproc Q\nW x 3\nW x 4\nR x 2\nproc S\nW x 5\nW x 6\n";

/// Updates and a read that have a choice, a read and a final value that have none, a final value from the start, one that two writers leave, and a
/// `before` line. The five operations have the order variables 1 to 10.
pub const ALL_FAMILIES: &str =
    "vsc 2\ninit b 3\ninit x 0\nfinal a 7\nfinal b 3\nfinal x 1\nproc P\nW x 1\nU x 1 2\nproc Q\nR y 4\nU x 2 1\nproc S\nR x 1\nbefore P 1 S 1\n";

/// Three updates, of which each may read the initial value or from another one, and any may be the last.
pub const UPDATES: &str =
    "vsc 1\ninit x 0\nfinal x 0\nproc P\nU x 0 0\nproc Q\nU x 0 0\nproc S\nU x 0 0\n";

/// The trace of this text, reduced.
pub fn reduced_of(rt: &impl Abort, alloc: Global, text: &str) -> Reduced {
    let trace = ample(rt, read_trace(alloc, text.as_bytes()));
    ample(rt, reduce(alloc, &trace))
}
