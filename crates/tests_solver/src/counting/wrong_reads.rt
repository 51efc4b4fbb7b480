//! A mistake in what is said of a formula costs the derivation, and never truth: none is written, or the checker refuses it.

use crate::counting::contradictions::{WRITE, from_zero, rounds, times, update};
use crate::counting::derivations::{MatchingProblem, accepted};
use crate::counting::one_location::{Location, Spelling};
use counting_proofs::{
    KnownOrder, MatchingInstance, OrderClauses, Reader, ReadsFromEdge, find_contradiction,
};
use proof_log::codes::Variable;
use source_matching::ReaderId;
use std::alloc::{AllocError, Global};
use std::test::Fail;

/// Steps that are enough for all that is written here.
const BUDGET: u64 = 10_000;

/// By how much numbers are too large in what is said. Nothing is wrong where all are 0.
#[derive(Clone, Copy)]
struct ReadsMistake {
    /// The number of the first clause which says that the order is transitive.
    order: u32,
    /// The numbers of the clauses which say that a reader has a source.
    readers: u32,
    /// The numbers of the first clauses of choices.
    choices: u32,
    /// The variables of choices.
    variables: u32,
}

const NOTHING: ReadsMistake = ReadsMistake {
    order: 0,
    readers: 0,
    choices: 0,
    variables: 0,
};

/// Mistakes in the numbers of clauses on readers.
const OF_CLAUSES: [ReadsMistake; 5] = [
    ReadsMistake {
        readers: 1,
        ..NOTHING
    },
    ReadsMistake {
        readers: u32::MAX,
        ..NOTHING
    },
    ReadsMistake {
        choices: 1,
        ..NOTHING
    },
    ReadsMistake {
        choices: u32::MAX,
        ..NOTHING
    },
    ReadsMistake {
        readers: 1_000_000,
        choices: 1_000_000,
        ..NOTHING
    },
];

/// Mistakes in the variables of choices.
const OF_VARIABLES: [ReadsMistake; 2] = [
    ReadsMistake {
        variables: 1,
        ..NOTHING
    },
    ReadsMistake {
        variables: 1_000_000,
        ..NOTHING
    },
];

/// Mistakes in the numbers of clauses on the order.
const OF_ORDERS: [ReadsMistake; 3] = [
    ReadsMistake {
        order: 1,
        ..NOTHING
    },
    ReadsMistake {
        order: u32::MAX,
        ..NOTHING
    },
    ReadsMistake {
        order: 1_000_000,
        ..NOTHING
    },
];

/// The choice with the mistake in it.
fn mistaken_choice(choice: ReadsFromEdge, mistake: ReadsMistake) -> ReadsFromEdge {
    ReadsFromEdge {
        variable: Variable::new(choice.variable.number().wrapping_add(mistake.variables)),
        first: choice.first.ahead(mistake.choices),
        ..choice
    }
}

/// What is said of readers and of their choices in place of what is so.
#[derive(Clone, Copy)]
enum Untruth {
    /// Numbers with this mistake in them.
    Mistaken(ReadsMistake),
    /// That the initial value is no source.
    LeavesOutInitial,
    /// That the initial value is a source that is excluded.
    ExcludesInitial,
}

impl Untruth {
    /// Gives what is said of the reader.
    fn of_reader(self, reader: Reader) -> Reader {
        match self {
            Untruth::Mistaken(mistake) => Reader {
                clause: reader.clause.ahead(mistake.readers),
                ..reader
            },
            _ => reader,
        }
    }

    /// Gives what is said of the choice, if anything is.
    fn of_choice(self, choice: ReadsFromEdge) -> Option<ReadsFromEdge> {
        let is_initial = choice.place.is_none();
        match self {
            Untruth::Mistaken(mistake) => Some(mistaken_choice(choice, mistake)),
            Untruth::LeavesOutInitial if is_initial => None,
            Untruth::LeavesOutInitial => Some(choice),
            Untruth::ExcludesInitial => Some(ReadsFromEdge {
                is_excluded: choice.is_excluded || is_initial,
                ..choice
            }),
        }
    }

    /// Gives what is said of these readers.
    fn told(self, alloc: Global, reads: &MatchingInstance) -> Result<MatchingInstance, AllocError> {
        let mut said = MatchingInstance::new(alloc);
        for number in 0..reads.readers() {
            let reader = ReaderId::new(number);
            said.add_reader(self.of_reader(reads.reader(reader)))?;
            for choice in reads.first_choice(reader)..reads.first_choice(reader.next()) {
                if let Some(choice) = self.of_choice(reads.choice(choice)) {
                    said.add_choice(choice)?;
                }
            }
        }
        Ok(said)
    }
}

/// Returns whether a derivation is accepted that is written with this mistake. What it is of is found without it.
fn is_accepted(
    alloc: Global,
    location: Location<'_>,
    mistake: ReadsMistake,
) -> Result<bool, AllocError> {
    let spelling = Spelling::of(alloc, location)?;
    let known = spelling.known();
    let Some(contradiction) = find_contradiction(alloc, &spelling.reads, known)? else {
        return Ok(false);
    };
    let reads = Untruth::Mistaken(mistake).told(alloc, &spelling.reads)?;
    let order = OrderClauses {
        first: known.order.first.ahead(mistake.order),
        ..known.order
    };
    let said = MatchingProblem {
        reads: &reads,
        known: KnownOrder { order, ..known },
    };
    accepted(alloc, &spelling, said, &contradiction, BUDGET)
}

/// Returns whether a derivation is accepted that is written without a mistake, and none with one of these.
fn is_lost_by(
    alloc: Global,
    location: Location<'_>,
    mistakes: &[ReadsMistake],
) -> Result<bool, AllocError> {
    let mut is_lost = is_accepted(alloc, location, NOTHING)?;
    for mistake in mistakes {
        is_lost = is_lost && !is_accepted(alloc, location, *mistake)?;
    }
    Ok(is_lost)
}

#[test]
fn mistakes_cost_the_derivation(rt: HostRuntime) -> Result<(), Fail> {
    let alloc = rt.alloc();
    let lock = times(alloc, &[(update(0, 1), 4), (update(1, 0), 2)])?;
    let lock = from_zero(lock.as_slice());
    let cycle = rounds(alloc, &[update(1, 2), update(2, 3), update(3, 1)], 2)?;
    let cycle = from_zero(cycle.as_slice());
    let taken = rounds(alloc, &[update(0, 1), WRITE], 4)?;
    let taken = Location {
        in_process: 2,
        initial: 3,
        ..from_zero(taken.as_slice())
    };
    assert!(rt; is_lost_by(alloc, lock, &OF_CLAUSES)?, "too few sources");
    assert!(rt; is_lost_by(alloc, lock, &OF_VARIABLES)?, "variables");
    assert!(rt; is_lost_by(alloc, cycle, &OF_CLAUSES)?, "no first one");
    assert!(rt; is_lost_by(alloc, cycle, &OF_ORDERS)?, "its order");
    assert!(rt; is_lost_by(alloc, taken, &OF_CLAUSES)?, "no last one");
    assert!(rt; is_lost_by(alloc, taken, &OF_ORDERS)?, "the order of ends");
    Ok(())
}

/// Returns whether a derivation of what is found by an untruth is accepted, if anything is found.
fn accepted_by(
    alloc: Global,
    location: Location<'_>,
    untruth: Untruth,
) -> Result<Option<bool>, AllocError> {
    let spelling = Spelling::of(alloc, location)?;
    let known = spelling.known();
    let reads = untruth.told(alloc, &spelling.reads)?;
    let Some(contradiction) = find_contradiction(alloc, &reads, known)? else {
        return Ok(None);
    };
    let said = MatchingProblem {
        reads: &reads,
        known,
    };
    let is_accepted = accepted(alloc, &spelling, said, &contradiction, BUDGET)?;
    Ok(Some(is_accepted))
}

/// Returns whether a derivation of what is found is accepted where all writers are said to be of one process, if anything is found.
fn accepted_in_one_process(
    alloc: Global,
    location: Location<'_>,
) -> Result<Option<bool>, AllocError> {
    let spelling = Spelling::of(alloc, location)?;
    let in_one = Spelling::of(
        alloc,
        Location {
            in_process: 1000,
            ..location
        },
    )?;
    let said = MatchingProblem {
        reads: &spelling.reads,
        known: in_one.known(),
    };
    let Some(contradiction) = find_contradiction(alloc, said.reads, said.known)? else {
        return Ok(None);
    };
    let is_accepted = accepted(alloc, &spelling, said, &contradiction, BUDGET)?;
    Ok(Some(is_accepted))
}

/// Contradictions that are found by mistake alone: locks with a source for each acquire.
#[test]
fn no_contradiction_is_shown_by_mistake(rt: HostRuntime) -> Result<(), Fail> {
    let alloc = rt.alloc();
    for releases in 0..6u32 {
        let acquires = releases.wrapping_add(1);
        let lock = times(alloc, &[(update(0, 1), acquires), (WRITE, releases)])?;
        let lock = from_zero(lock.as_slice());
        for untruth in [Untruth::ExcludesInitial, Untruth::LeavesOutInitial] {
            let accepted = accepted_by(alloc, lock, untruth)?;
            assert!(rt; accepted == Some(false), "{releases}");
        }
    }
    let taken = rounds(alloc, &[update(0, 1), WRITE], 4)?;
    let taken = Location {
        in_process: 2,
        initial: 3,
        ..from_zero(taken.as_slice())
    };
    assert!(rt; accepted_in_one_process(alloc, taken)? == Some(false));
    Ok(())
}
