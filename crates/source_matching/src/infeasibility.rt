//! Infeasible sets of readers: why no matching of readers and sources exists.

use crate::known_order::KnownOrder;
use crate::last_writers::{LastWriters, candidates_of, writers_without_end};
use crate::matching::Matching;
use crate::reader_id::ReaderId;
use crate::source_cycle::{SourceCycle, find_cycle};
use crate::source_sets::SourceSets;
use std::alloc::{AllocError, Global};

/// A reason why not all readers can have a source, by the numbers of readers.
#[derive(Drop)]
pub enum Infeasibility {
    /// A Hall violator: together they have one source fewer than they are (Hall, "On representatives of subsets", 1935).
    HallViolator(Vec<ReaderId>),
    /// A cycle of reads-from: none of these updates can come first.
    SourceCycle(SourceCycle),
    /// A Hall violator in which the last writer of a location counts as one more reader.
    LastWriters(LastWriters, Vec<ReaderId>),
}

/// Looks for a Hall violator with the last writer of a location among its readers. That one has the number after those of all readers.
fn find_ending(
    alloc: Global,
    known: KnownOrder<'_>,
    matching: &mut Matching,
) -> Result<Option<Infeasibility>, AllocError> {
    let writers = writers_without_end(alloc, matching.possible(), matching.free(), known)?;
    for writer in &writers {
        let candidates = candidates_of(alloc, known, *writer)?;
        let sources = matching.possible().sources();
        // One that no reader may have as its source is free to be the last writer. The sets have no bit for it, so the matching would not see it.
        let may_be_read = candidates
            .iter()
            .all(|candidate| candidate.number() < sources);
        if may_be_read && matching.has_none_for(candidates.as_slice())? {
            let mut readers = Vec::new(alloc);
            readers.extend_from_slice(matching.reached())?;
            let ending = LastWriters::of(alloc, known, *writer, candidates)?;
            return Ok(Some(Infeasibility::LastWriters(ending, readers)));
        }
    }
    Ok(None)
}

/// Looks for an infeasible set of readers: a Hall violator, a cycle of reads-from, and then a Hall violator in which the last writer of a
/// location without a final value is one more reader.
pub fn find_lack(
    alloc: Global,
    possible: SourceSets,
    known: KnownOrder<'_>,
) -> Result<Option<Infeasibility>, AllocError> {
    let mut matching = Matching::of(alloc, possible)?;
    let readers = matching.smallest_shortage(alloc)?;
    if !readers.is_empty() {
        return Ok(Some(Infeasibility::HallViolator(readers)));
    }
    if let Some(cycle) = find_cycle(alloc, matching.possible())? {
        return Ok(Some(Infeasibility::SourceCycle(cycle)));
    }
    find_ending(alloc, known, &mut matching)
}

/// Returns whether `find_contradiction` finds something if these sources are possible. This takes less time, since it needs no choices: a search
/// asks after each turn and round, and mostly finds nothing.
pub fn has_hall_violator(
    alloc: Global,
    possible: SourceSets,
    known: KnownOrder<'_>,
) -> Result<bool, AllocError> {
    let found = find_lack(alloc, possible, known)?;
    Ok(found.is_some())
}
