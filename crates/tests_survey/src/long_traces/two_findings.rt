//! Surveyors that say two things of a trace: the first that shows something is the answer.

use crate::expectations::{ample, expect};
use crate::long_traces::answers::answer_with;
use crate::long_traces::lying_surveyors::{Liar, Lie};
use crate::long_traces::traces::{LOST_UPDATE, with_many_writes};
use std::alloc::Global;
use std::process::Abort;
use std::sync::Wait;
use std::thread::Threads;
use verdict_report::Status;

/// The report on a lost update of which the surveyor finds the two operations.
const BY_CORE: &[u8] = b"INCONSISTENT operations=2 cubes=1\nP.1\nP.2\n";

/// The report on one of which the surveyor has a certificate that counts.
const BY_REASONS: &[u8] = b"INCONSISTENT operations=0 reasons=1\n";

/// The report on one of which nothing is shown.
const UNDECIDED: &[u8] = b"UNKNOWN placed=7 undecided=3\n";

/// Asserts what is reported of a lost update among two hundred writes, of which a search of the whole decides nothing, if the search of a
/// core has this budget of conflicts, in the case of this number.
fn assert_reports<R: Threads + Wait + Abort + Sync>(
    alloc: Global,
    rt: &R,
    liar: &Liar,
    budget: u64,
    report: &[u8],
    number: usize,
) {
    let trace = ample(rt, with_many_writes(alloc, LOST_UPDATE));
    let found = answer_with(alloc, rt, trace.as_str(), "", liar, budget);
    let status = if report == UNDECIDED {
        Status::Unknown
    } else {
        Status::No
    };
    expect(rt, found.outcome == Ok(status), number);
    expect(rt, found.report.as_slice() == report, number);
}

/// What is found first, what is found second, the report, and the case's number. `x` is not even a location of the lost update, and the
/// second of its operations has a schedule alone.
const CASES: [(Lie, Lie, &[u8], usize); 8] = [
    (Lie::Core(1, 2), Lie::Reasons(b'x'), BY_CORE, 31),
    (Lie::Core(1, 2), Lie::Reasons(b'l'), BY_CORE, 32),
    (Lie::Core(2, 2), Lie::Reasons(b'l'), BY_REASONS, 33),
    (Lie::Core(2, 2), Lie::Reasons(b'x'), UNDECIDED, 34),
    (Lie::Reasons(b'l'), Lie::Core(1, 2), BY_REASONS, 35),
    (Lie::Reasons(b'x'), Lie::Core(1, 2), BY_CORE, 36),
    (Lie::Schedule(1, 2), Lie::Reasons(b'l'), BY_REASONS, 37),
    (Lie::Nothing, Lie::Core(1, 2), BY_CORE, 38),
];

#[test]
fn asks_the_second_finding_if_the_first_shows_nothing(rt: HostRuntime) {
    for (lie, otherwise, report, number) in &CASES {
        let liar = Liar {
            lie: *lie,
            otherwise: *otherwise,
        };
        assert_reports(rt.alloc(), &rt, &liar, 10_000, *report, *number);
    }
}

// The search of the core gives up at once, and the certificate is the answer.
#[test]
fn answers_by_reasons_where_the_search_of_a_core_gives_up(rt: HostRuntime) {
    let liar = Liar {
        lie: Lie::Core(1, 2),
        otherwise: Lie::Reasons(b'l'),
    };
    assert_reports(rt.alloc(), &rt, &liar, 0, BY_REASONS, 41);
}
