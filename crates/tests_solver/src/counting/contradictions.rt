//! Locks, lost updates, final values and rounds, with enough sources and without.

use crate::counting::derivations::{MatchingProblem, accepted};
use crate::counting::one_location::{Location, LocationWriter, Spelling};
use counting_proofs::find_contradiction;
use source_matching::Kind;
use std::alloc::{AllocError, Global};
use std::test::Fail;

/// What is found: the number of readers that cannot all have a source, or none, and whether a derivation of that was written and accepted.
#[derive(Clone, Copy)]
struct Found {
    readers: u32,
    is_refuted: bool,
}

/// The number of readers.
fn readers_of(kind: &Kind) -> u32 {
    match kind {
        Kind::HallViolator(shortage) | Kind::LastWriters(_, shortage) => shortage.readers(),
        Kind::SourceCycle(cycle) => u32::try_from(cycle.readers().len()).unwrap_or(0),
    }
}

/// Looks for a contradiction, and has its derivation checked.
fn find(alloc: Global, location: Location<'_>, budget: u64) -> Result<Found, AllocError> {
    let spelling = Spelling::of(alloc, location)?;
    let known = spelling.known();
    let Some(contradiction) = find_contradiction(alloc, &spelling.reads, known)? else {
        return Ok(Found {
            readers: 0,
            is_refuted: false,
        });
    };
    let readers = readers_of(contradiction.kind());
    let said = MatchingProblem {
        reads: &spelling.reads,
        known,
    };
    let is_refuted = accepted(alloc, &spelling, said, &contradiction, budget)?;
    Ok(Found {
        readers,
        is_refuted,
    })
}

/// A write of 0.
pub const WRITE: LocationWriter = LocationWriter {
    reads: None,
    leaves: 0,
};

/// An update from one value to another.
pub fn update(from: u32, to: u32) -> LocationWriter {
    LocationWriter {
        reads: Some(from),
        leaves: to,
    }
}

/// Each of these writers the given number of times: all of the first, then all of the second, and so on.
pub fn times(
    alloc: Global,
    writers: &[(LocationWriter, u32)],
) -> Result<Vec<LocationWriter>, AllocError> {
    let mut all = Vec::new(alloc);
    for (writer, count) in writers {
        for _ in 0..*count {
            all.push(*writer)?;
        }
    }
    Ok(all)
}

/// These writers one after the other, the given number of times.
pub fn rounds(
    alloc: Global,
    writers: &[LocationWriter],
    count: u32,
) -> Result<Vec<LocationWriter>, AllocError> {
    let mut all = Vec::new(alloc);
    for _ in 0..count {
        all.extend_from_slice(writers)?;
    }
    Ok(all)
}

/// A location of these writers, each in a process of its own, that holds 0 at the start.
pub fn from_zero<'a>(writers: &'a [LocationWriter]) -> Location<'a> {
    Location {
        writers,
        in_process: 1,
        initial: 0,
        last: None,
        seed: 1,
        excluded: 0,
    }
}

/// Returns whether this number of readers is found to be a contradiction, and that is shown; or nothing is found, for no reader.
fn is_found(alloc: Global, location: Location<'_>, readers: u32) -> Result<bool, AllocError> {
    let found = find(alloc, location, 10_000)?;
    Ok(found.readers == readers && found.is_refuted == (readers > 0))
}

/// Locks with this number of releases, of this kind: one acquire too many is a contradiction from two missing releases on, or from one on
/// if the lock is free in the end.
fn locks_are_told_apart(
    alloc: Global,
    releases: u32,
    release: LocationWriter,
) -> Result<bool, AllocError> {
    let more = releases.wrapping_add(1);
    let broken = times(
        alloc,
        &[(update(0, 1), more.wrapping_add(1)), (release, releases)],
    )?;
    let whole = times(alloc, &[(update(0, 1), more), (release, releases)])?;
    let is_free_at_end = Location {
        last: Some(0),
        ..from_zero(whole.as_slice())
    };
    // With no release nothing leaves the final value.
    let readers = if releases == 0 {
        1
    } else {
        more.wrapping_add(1)
    };
    Ok(
        is_found(alloc, from_zero(broken.as_slice()), more.wrapping_add(1))?
            && is_found(alloc, from_zero(whole.as_slice()), 0)?
            && is_found(alloc, is_free_at_end, readers)?,
    )
}

/// Updates from 1 over 2 to 3 and on to 1, this number of each, which have no first one if the location does not hold 2 at the start.
fn cycles_are_told_apart(alloc: Global, count: u32) -> Result<bool, AllocError> {
    let updates = rounds(alloc, &[update(1, 2), update(2, 3), update(3, 1)], count)?;
    let cycle = from_zero(updates.as_slice());
    let with_first = Location {
        initial: 2,
        ..cycle
    };
    Ok(is_found(alloc, cycle, count.wrapping_mul(3))? && is_found(alloc, with_first, 0)?)
}

/// Processes, by their number, that take a lock and give it back, which is not free at the start: each release is read, and so none is the
/// last writer. A write more at the end of each process may be the last one.
fn last_writers_are_told_apart(alloc: Global, processes: u32) -> Result<bool, AllocError> {
    let taken = rounds(alloc, &[update(0, 1), WRITE], processes)?;
    let closed = rounds(alloc, &[update(0, 1), WRITE, update(1, 2)], processes)?;
    let never_free = Location {
        in_process: 2,
        initial: 3,
        ..from_zero(taken.as_slice())
    };
    let with_last = Location {
        in_process: 3,
        initial: 3,
        ..from_zero(closed.as_slice())
    };
    Ok(is_found(alloc, never_free, processes.wrapping_add(1))? && is_found(alloc, with_last, 0)?)
}

#[test]
fn refutes_what_has_too_few_sources(rt: HostRuntime) -> Result<(), Fail> {
    let alloc = rt.alloc();
    for count in 0..9u32 {
        assert!(rt;
            locks_are_told_apart(alloc, count, WRITE)?,
            "{count} writes"
        );
        assert!(rt;
            locks_are_told_apart(alloc, count, update(1, 0))?,
            "{count} updates"
        );
        assert!(rt;
            count == 0 || cycles_are_told_apart(alloc, count)?,
            "{count} rounds"
        );
        assert!(rt;
            count == 0 || last_writers_are_told_apart(alloc, count)?,
            "{count} ends"
        );
    }
    Ok(())
}

/// Returns whether a contradiction is found and shown if this number of 1000 choices is excluded. With none it is of all updates that read
/// 0.
fn is_refuted_with(alloc: Global, seed: u64, excluded: u64) -> Result<bool, AllocError> {
    let releases = u32::try_from(seed % 12).unwrap_or(0);
    let acquires = releases.wrapping_add(2);
    let writers = times(alloc, &[(update(0, 1), acquires), (update(1, 0), releases)])?;
    let location = Location {
        seed,
        excluded,
        ..from_zero(writers.as_slice())
    };
    let found = find(alloc, location, 10_000)?;
    Ok(found.is_refuted && (excluded > 0 || found.readers == acquires))
}

/// From 2 readers of 1 source to 13 of 12.
#[test]
fn refutes_where_no_choice_is_excluded(rt: HostRuntime) -> Result<(), Fail> {
    for seed in 0..12u64 {
        assert!(rt; is_refuted_with(rt.alloc(), seed, 0)?, "{seed}");
    }
    Ok(())
}

/// Twice from 2 readers to 13.
#[test]
fn refutes_where_choices_are_excluded(rt: HostRuntime) -> Result<(), Fail> {
    let alloc = rt.alloc();
    for seed in 1..25u64 {
        for excluded in [100, 300, 600] {
            assert!(rt;
                is_refuted_with(alloc, seed, excluded)?,
                "{seed} {excluded}"
            );
        }
    }
    for budget in [0, 1, 80] {
        let writers = times(alloc, &[(update(0, 1), 4), (WRITE, 2)])?;
        let found = find(alloc, from_zero(writers.as_slice()), budget)?;
        assert!(rt; found.readers == 4 && !found.is_refuted, "{budget}");
    }
    Ok(())
}
