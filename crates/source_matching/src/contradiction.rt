//! Contradictions: why not all readers can have a source of their own.

use crate::hall_violator::HallViolator;
use crate::infeasibility::{Infeasibility, find_lack};
use crate::known_order::KnownOrder;
use crate::last_writers::LastWriters;
use crate::matching_instance::{MatchingInstance, Reader};
use crate::reader_id::ReaderId;
use crate::source_cycle::SourceCycle;
use crate::source_sets::SourceSets;
use formula_numbers::{ClauseId, LiteralCode, Variable};
use std::alloc::{AllocError, Global};
use total_tables::size;

/// Why there is no legal schedule.
#[derive(Drop)]
pub enum Kind {
    /// A Hall violator: some readers have fewer sources than there are readers.
    HallViolator(HallViolator),
    /// A cycle of reads-from: none of these updates can come first.
    SourceCycle(SourceCycle),
    /// A Hall violator in which the last writer of a location counts as one more reader.
    LastWriters(LastWriters, HallViolator),
}

/// A contradiction, and the literals on which it rests.
#[derive(Drop)]
pub struct SourceContradiction {
    kind: Kind,
    rests_on: Vec<LiteralCode>,
}

impl SourceContradiction {
    /// Why there is no legal schedule.
    pub fn kind(&self) -> &Kind {
        &self.kind
    }

    /// Returns the literals on which it rests. Each of them is true in the input: a choice is excluded, or an operation surely
    /// comes after another. Only these become unit clauses of the proof, so a literal that is left out here makes the checker refuse the
    /// derivation.
    pub fn rests_on(&self) -> &[LiteralCode] {
        self.rests_on.as_slice()
    }

    /// Returns a bound on the steps that `refute` of the crate `counting_proofs` takes for it, besides those that it is given.
    pub fn most_steps(&self) -> u64 {
        match &self.kind {
            Kind::HallViolator(shortage) => shortage.most_steps(),
            Kind::SourceCycle(cycle) => cycle.most_steps(),
            Kind::LastWriters(ending, shortage) => {
                shortage.most_steps().wrapping_add(ending.most_steps())
            }
        }
    }
}

/// Adds the literals which say that choices of these readers are excluded.
fn add_excluded(
    literals: &mut Vec<LiteralCode>,
    reads: &MatchingInstance,
    readers: &[ReaderId],
) -> Result<(), AllocError> {
    for reader in readers {
        for number in reads.first_choice(*reader)..reads.first_choice(reader.next()) {
            let choice = reads.choice(number);
            if choice.is_excluded {
                literals.push(choice.literal().negated())?;
            }
        }
    }
    Ok(())
}

/// Adds the last writer as one more reader, after all others. Its choices have no variables yet. `counting_proofs` makes these readers once more, with
/// variables, and names the choices by the numbers that they have here: so both have them in the order of the candidates.
fn with_last_reader(
    alloc: Global,
    reads: &MatchingInstance,
    ending: &LastWriters,
) -> Result<MatchingInstance, AllocError> {
    let mut all = reads.copied(alloc)?;
    all.add_reader(Reader {
        update: None,
        clause: ClauseId::NONE,
    })?;
    for candidate in 0..size(ending.candidates()) {
        all.add_choice(ending.choice(candidate, Variable::NONE, ClauseId::NONE))?;
    }
    Ok(all)
}

/// Returns a Hall violator of these readers with the last writer as one more reader.
fn contradiction_of_ending(
    alloc: Global,
    reads: &MatchingInstance,
    known: KnownOrder<'_>,
    ending: LastWriters,
    readers: &[ReaderId],
) -> Result<SourceContradiction, AllocError> {
    let all = with_last_reader(alloc, reads, &ending)?;
    let mut rests_on = Vec::new(alloc);
    add_excluded(&mut rests_on, &all, readers)?;
    for writer in ending.writers() {
        if let Some(candidate) = ending.candidate_behind(known, *writer) {
            rests_on.push(known.order.before(*writer, candidate))?;
        }
    }
    let shortage = HallViolator::of(alloc, &all, readers)?;
    Ok(SourceContradiction {
        kind: Kind::LastWriters(ending, shortage),
        rests_on,
    })
}

/// Returns a Hall violator of these readers.
fn contradiction_of_shortage(
    alloc: Global,
    reads: &MatchingInstance,
    readers: &[ReaderId],
) -> Result<SourceContradiction, AllocError> {
    let mut rests_on = Vec::new(alloc);
    add_excluded(&mut rests_on, reads, readers)?;
    let kind = Kind::HallViolator(HallViolator::of(alloc, reads, readers)?);
    Ok(SourceContradiction { kind, rests_on })
}

/// Returns the cycle of reads-from of these updates.
fn contradiction_of_cycle(
    alloc: Global,
    reads: &MatchingInstance,
    cycle: SourceCycle,
) -> Result<SourceContradiction, AllocError> {
    let mut rests_on = Vec::new(alloc);
    add_excluded(&mut rests_on, reads, cycle.readers())?;
    let kind = Kind::SourceCycle(cycle);
    Ok(SourceContradiction { kind, rests_on })
}

/// Looks for an infeasible set of readers: a Hall violator, a cycle of reads-from, and then a Hall violator in which the last writer of a
/// location without a final value is one more reader. The last one is tried last, since it adds the steps of a last writer to those of a
/// count.
pub fn find_contradiction(
    alloc: Global,
    reads: &MatchingInstance,
    known: KnownOrder<'_>,
) -> Result<Option<SourceContradiction>, AllocError> {
    let possible = SourceSets::of(alloc, reads)?;
    let Some(lack) = find_lack(alloc, possible, known)? else {
        return Ok(None);
    };
    let found = match lack {
        Infeasibility::HallViolator(readers) => contradiction_of_shortage(
            alloc,
            reads,
            readers.as_slice(),
        )?,
        Infeasibility::SourceCycle(cycle) => contradiction_of_cycle(alloc, reads, cycle)?,
        Infeasibility::LastWriters(ending, readers) => {
            contradiction_of_ending(alloc, reads, known, ending, readers.as_slice())?
        }
    };
    Ok(Some(found))
}
