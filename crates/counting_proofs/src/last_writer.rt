//! The last writer of a location as one more reader.

use crate::elimination::{Elimination, Side};
use crate::step_log::StepLog;
use crate::units::UnitTable;
use order_sets::Element;
use proof_log::ClauseId;
use proof_log::codes::{LiteralCode, NEVER};
use source_matching::{KnownOrder, LastWriters, MatchingInstance, Reader};
use std::alloc::{AllocError, Global};
use total_tables::{at, size};

/// The definition of each candidate: the literal which says that it is the last writer, the first of the clauses which say that
/// no other writer comes after it, and the clause which says that one does if it is not the last one.
#[derive(Clone, Copy)]
struct Defined {
    literal: LiteralCode,
    first: ClauseId,
    only: ClauseId,
}

/// The writers of a location, and what is cited of them.
#[derive(Clone, Copy)]
struct CitedWriters<'a> {
    ending: &'a LastWriters,
    known: KnownOrder<'a>,
    units: &'a UnitTable,
}

/// Adds the definition of a literal which says that this candidate is the last writer: all others stand before it. The long clause is added
/// first: the short ones are RAT on the new variable, and their hints name it. They follow one after the other by rising numbers of writers,
/// as `ChoiceClauses` counts on from the first to the one against a given writer.
fn define_last(
    alloc: Global,
    log: &mut StepLog,
    ending: &LastWriters,
    known: KnownOrder<'_>,
    candidate: Element,
) -> Result<Defined, AllocError> {
    let literal = log.new_variable();
    let mut literals = Vec::new(alloc);
    literals.push(literal)?;
    for writer in ending.writers() {
        if *writer != candidate {
            literals.push(known.order.before(candidate, *writer))?;
        }
    }
    let only = log.add(literals.as_slice(), &[])?;
    for writer in ending.writers() {
        if *writer != candidate {
            let comes_before = known.order.before(*writer, candidate);
            let group = -i64::from(only.number());
            log.add(&[literal.negated(), comes_before], &[group])?;
        }
    }
    Ok(Defined {
        literal,
        first: only.next(),
        only,
    })
}

/// Adds the clause which says that the candidate is the last writer, or another candidate comes after it: any other writer has a candidate
/// behind it, by a unit clause. So if no candidate stands behind this one, none of the writers does.
fn add_clause(
    alloc: Global,
    log: &mut StepLog,
    cited: CitedWriters<'_>,
    elimination: &mut Elimination,
    candidate: Element,
    defined: Defined,
) -> Result<(), AllocError> {
    let CitedWriters {
        ending,
        known,
        units,
    } = cited;
    let place = elimination.place_of(candidate);
    let mut literals = Vec::new(alloc);
    let mut hints = Vec::new(alloc);
    literals.push(defined.literal)?;
    for other in ending.candidates() {
        if *other != candidate {
            literals.push(elimination.literal(*other, candidate))?;
            elimination.set_other(place, elimination.place_of(*other));
        }
    }
    for writer in ending.writers() {
        let Some(later) = ending.candidate_behind(known, *writer) else {
            continue;
        };
        let comes_before = known.order.before(*writer, later);
        hints.push(units.hint(comes_before))?;
        if later != candidate {
            hints.push(elimination.step(later, *writer, candidate))?;
        }
    }
    hints.push(defined.only.hint())?;
    let clause = log.add(literals.as_slice(), hints.as_slice())?;
    elimination.set_clause(place, clause);
    log.delete(&[defined.only])
}

/// Returns the readers with one more after them, which has the last writer as its source. Its choices stand in the order of the candidates, as in
/// `source_matching`, where the Hall violator was made: it names choices by their numbers.
fn with_last_reader(
    alloc: Global,
    reads: &MatchingInstance,
    ending: &LastWriters,
    defined: &[Defined],
    clause: ClauseId,
) -> Result<MatchingInstance, AllocError> {
    let mut all = reads.copied(alloc)?;
    all.add_reader(Reader {
        update: None,
        clause,
    })?;
    let mut candidate: u32 = 0;
    for its in defined {
        let variable = its.literal.variable();
        all.add_choice(ending.choice(candidate, variable, its.first))?;
        candidate = candidate.wrapping_add(1);
    }
    Ok(all)
}

/// Adds the steps which say that one of the candidates is the last writer, and none of the others then comes after it. Returns all readers,
/// with one more that has the last writer as its source.
pub fn add_last_writer(
    alloc: Global,
    log: &mut StepLog,
    reads: &MatchingInstance,
    ending: &LastWriters,
    known: KnownOrder<'_>,
    units: &UnitTable,
) -> Result<MatchingInstance, AllocError> {
    let nothing = Defined {
        literal: NEVER,
        first: ClauseId::NONE,
        only: ClauseId::NONE,
    };
    let mut defined = Vec::new(alloc);
    let mut own = Vec::new(alloc);
    let mut operations = Vec::new(alloc);
    for candidate in ending.candidates() {
        let its = define_last(alloc, log, ending, known, *candidate)?;
        defined.push(its)?;
        own.push(its.literal)?;
        operations.push(*candidate)?;
    }
    // Of each candidate a clause says that it is the last writer, or that another comes behind it. Once all are eliminated, what is left is the
    // clause that one of them is the last writer.
    let mut elimination = Elimination::of(alloc, known.order, Side::Behind, operations, own)?;
    let cited = CitedWriters {
        ending,
        known,
        units,
    };
    for place in 0..size(ending.candidates()) {
        let candidate = at(ending.candidates(), place, Element::NONE);
        let its = at(defined.as_slice(), place, nothing);
        add_clause(alloc, log, cited, &mut elimination, candidate, its)?;
    }
    let clause = elimination.run(alloc, log)?;
    with_last_reader(alloc, reads, ending, defined.as_slice(), clause)
}
