//! Tests of what is said of short traces.

use crate::{PieceDetails, PieceSearch, details_of, push_members};
use cube_jobs::Options;
use std::alloc::Global;
use std::sync::Wait;
use std::thread::Threads;
use survey::BySaturation;

/// Two processes that write and then read what the other one wrote too late.
const STORE_BUFFERING: &[u8] =
    b"vsc 1\ninit x 0\ninit y 0\nproc P\nW x 1\nR y 0\nproc Q\nW y 1\nR x 0\n";

/// A write and a read of it.
const HAND_OFF: &[u8] = b"vsc 1\nproc P\nW x 1\nproc Q\nR x 1\n";

/// The details of the trace in this text, by a search with this budget.
fn found<R: Threads + Wait + Sync>(
    alloc: Global,
    rt: &R,
    text: &[u8],
    budget: u64,
) -> Option<PieceDetails> {
    let options = Options::new(1, 0, budget, 2).ok()?;
    let surveyor = BySaturation { budget: 1_000_000 };
    let search = PieceSearch {
        short: &options,
        long: &options,
        surveyor: &surveyor,
    };
    details_of(alloc, rt, text, &search, true).ok()?
}

/// The details of a trace, and the members that say them.
#[derive(Drop)]
struct Said {
    details: PieceDetails,
    members: Vec<u8>,
}

/// The details of the trace in this text, by a search with this budget, and the members that say them.
fn said_of<R: Threads + Wait + Sync>(
    alloc: Global,
    rt: &R,
    text: &[u8],
    budget: u64,
) -> Option<Said> {
    let details = found(alloc, rt, text, budget)?;
    let mut members = Vec::new(alloc);
    push_members(alloc, &mut members, &details).ok()?;
    Some(Said { details, members })
}

#[test]
fn schedule_of_a_consistent_trace(rt: HostRuntime) {
    let Some(said) = said_of(rt.alloc(), &rt, HAND_OFF, 100_000) else {
        return;
    };
    assert!(rt; said.members.as_slice() == b",\"schedule\":[\"P.1\",\"Q.1\"]".as_slice());
    assert!(rt; said.details.certificate.is_empty() && said.details.picture.is_empty());
}

#[test]
fn why_of_an_inconsistent_trace(rt: HostRuntime) {
    let Some(said) = said_of(rt.alloc(), &rt, STORE_BUFFERING, 100_000) else {
        return;
    };
    assert!(rt; said.members.as_slice().starts_with(b",\"why\":[\""));
    assert!(rt; said.members.as_slice().ends_with(b"\"]"));
    assert!(rt;
        said.details
            .certificate
            .as_slice()
            .starts_with(b"vsc-cert 1\n")
    );
    assert!(rt; said.details.names.is_empty());
    assert!(rt; said.details.picture.as_slice().starts_with(b"<?xml"));
}

#[test]
fn cubes_of_an_open_trace(rt: HostRuntime) {
    let Some(said) = said_of(rt.alloc(), &rt, STORE_BUFFERING, 0) else {
        return;
    };
    assert!(rt; said.members.as_slice() == b",\"open_cubes\":[[3],[-3]]".as_slice());
}

#[test]
fn nothing_of_no_trace(rt: HostRuntime) {
    assert!(rt; found(rt.alloc(), &rt, b"vsc 1\nproc P\nW x 01\n", 0).is_none());
}
