//! Builds the input of the source matching from the reads-from variables of the search.

use assignment_trail::{FALSE, OrderedTrail};
use clause_database::{LastWriter, ReadsFromTable, ReadsFromVariable};
use counting_proofs::{
    GreedyMatching, KnownOrder, MatchingInstance, Reader, ReadsFromEdge as Source, SourceId,
    SourceSets, Update,
};
use order_sets::Element;
use proof_log::codes::Variable;
use std::alloc::{AllocError, Global};
use total_tables::{at, size};

/// Returns whether the reads-from variable is false.
fn is_excluded(trail: &OrderedTrail<'_>, variable: Variable) -> bool {
    trail.value(variable.positive()) == FALSE
}

/// Returns the place of each event among the writers of its location.
///
/// From it follows the number of a choice's clause that forbids the event to stand between the reader and its source. Many choices name one writer, so
/// each place is counted once.
fn places_of(alloc: Global, reads_from: &ReadsFromTable) -> Result<Vec<u32>, AllocError> {
    let mut places = Vec::with_capacity(alloc, reads_from.elements() as usize)?;
    for element in 0..reads_from.elements() {
        places.push(reads_from.place_of_writer(Element::new(element)))?;
    }
    Ok(places)
}

/// Returns the initial value of the reader's location, of which the number is above those of all events.
fn first_value(reads_from: &ReadsFromTable, reader: Element) -> SourceId {
    let location = reads_from.location(reader).number();
    SourceId::new(reads_from.elements().wrapping_add(location))
}

/// What the sources of readers are looked up in: what is true, the reads-from variables, and the places of the events among the writers of their
/// locations.
#[derive(Clone, Copy)]
struct ReadSources<'s, 'a> {
    trail: &'s OrderedTrail<'a>,
    reads_from: &'s ReadsFromTable,
    places: &'s [u32],
}

impl<'s, 'a> ReadSources<'s, 'a> {
    /// Returns the place of the event among the writers of its location.
    fn place_of(self, element: Element) -> u32 {
        at(self.places, element.number(), 0)
    }

    /// Returns the choice as an edge from its reader to a source, with the number of the first of its clauses in the formula, by which a derivation
    /// cites them. An edge that is excluded is made too, and flagged: the clause of its reader has its variable, and a derivation that cites that
    /// clause has to cite why the variable is false.
    fn source_of(self, choice: ReadsFromVariable) -> Source {
        let (source, place) = match choice.writer {
            Some(writer) => (SourceId::of(writer), Some(self.place_of(writer))),
            None => (first_value(self.reads_from, choice.reader), None),
        };
        Source {
            source,
            place,
            variable: choice.variable,
            first: choice.first,
            is_excluded: is_excluded(self.trail, choice.variable),
        }
    }

    /// Returns the last writer as a source of the final value.
    fn source_of_last(self, last: LastWriter) -> Source {
        Source {
            source: SourceId::of(last.writer),
            place: Some(self.place_of(last.writer)),
            variable: last.variable,
            first: last.first,
            is_excluded: is_excluded(self.trail, last.variable),
        }
    }

    /// Adds the read-modify-writes.
    fn tell_updates(self, reads: &mut MatchingInstance) -> Result<(), AllocError> {
        // No element: choices of one reader stand one after the other, and the first one adds it.
        let mut reader = Element::NONE;
        for choice in self.reads_from.choices() {
            let Some(choice) = choice else {
                continue;
            };
            if !self.reads_from.writes(choice.reader) {
                continue;
            }
            if choice.reader != reader {
                reader = choice.reader;
                let update = Update {
                    operation: reader,
                    place: self.place_of(reader),
                };
                reads.add_reader(Reader {
                    update: Some(update),
                    // The clause which says that one of its choices is made stands before those of its first choice.
                    clause: choice.first.previous(),
                })?;
            }
            reads.add_choice(self.source_of(*choice))?;
        }
        Ok(())
    }

    /// Adds the final values.
    fn tell_finals(self, reads: &mut MatchingInstance) -> Result<(), AllocError> {
        let mut place: u32 = 0;
        for last in self.reads_from.last_writers() {
            if self.reads_from.begins_location(place) {
                reads.add_reader(Reader {
                    update: None,
                    clause: last.clause,
                })?;
            }
            reads.add_choice(self.source_of_last(*last))?;
            place = place.wrapping_add(1);
        }
        Ok(())
    }
}

/// Returns the readers that need a source of their own, with all their edges, of which those that are excluded are flagged.
pub fn matching_instance(
    alloc: Global,
    trail: &OrderedTrail<'_>,
    reads_from: &ReadsFromTable,
) -> Result<MatchingInstance, AllocError> {
    let mut reads = MatchingInstance::new(alloc);
    let places = places_of(alloc, reads_from)?;
    let sources = ReadSources {
        trail,
        reads_from,
        places: places.as_slice(),
    };
    sources.tell_updates(&mut reads)?;
    sources.tell_finals(&mut reads)?;
    Ok(reads)
}

/// Adds a read-modify-write with its possible sources. Answers whether there is room for all of them: only the initial value can lack it.
fn add_update(
    trail: &OrderedTrail<'_>,
    reads_from: &ReadsFromTable,
    element: Element,
    sets: &mut SourceSets,
) -> Result<bool, AllocError> {
    sets.add_update(element, &trail.candidates.writers)?;
    let variable = reads_from.variable_without_writer(element);
    if variable == Variable::NONE || is_excluded(trail, variable) {
        return Ok(true);
    }
    let source = first_value(reads_from, element);
    sets.add_source(source);
    Ok(source.number() < sets.sources())
}

/// Adds the final values with their possible last writers.
fn add_finals(
    trail: &OrderedTrail<'_>,
    reads_from: &ReadsFromTable,
    sets: &mut SourceSets,
) -> Result<(), AllocError> {
    let mut place: u32 = 0;
    for last in reads_from.last_writers() {
        if reads_from.begins_location(place) {
            sets.add_reader(None)?;
        }
        if !is_excluded(trail, last.variable) {
            sets.add_source(SourceId::of(last.writer));
        }
        place = place.wrapping_add(1);
    }
    Ok(())
}

/// Returns the matching instance as sets of bits, if there is room for all sources in this many numbers.
fn sources_below(
    alloc: Global,
    trail: &OrderedTrail<'_>,
    reads_from: &ReadsFromTable,
    sources: u32,
) -> Result<Option<SourceSets>, AllocError> {
    let elements = reads_from.elements();
    let readers = elements.wrapping_add(size(reads_from.last_writers()));
    let mut sets = SourceSets::new(alloc, readers, sources)?;
    for number in 0..elements {
        let element = Element::new(number);
        if reads_from.is_update(element) && !add_update(trail, reads_from, element, &mut sets)? {
            return Ok(None);
        }
    }
    if sets.readers() > 0 {
        add_finals(trail, reads_from, &mut sets)?;
    }
    Ok(Some(sets))
}

/// Returns the same as sets, most of which the trail already has: the readers of `matching_instance`, and their possible sources. There is
/// no reader if no element reads and writes, since the final values of several locations have no source in common.
///
/// The initial value has a number above those of all elements, and mostly not far above, so sets of fewer words are tried first. No number is twice
/// that of the elements or more, since each location is named by an element.
pub fn possible_sources(
    alloc: Global,
    trail: &OrderedTrail<'_>,
    reads_from: &ReadsFromTable,
) -> Result<SourceSets, AllocError> {
    let elements = reads_from.elements();
    let few = elements.wrapping_add(1);
    if let Some(sets) = sources_below(alloc, trail, reads_from, few)? {
        return Ok(sets);
    }
    let all = elements.wrapping_mul(2);
    match sources_below(alloc, trail, reads_from, all)? {
        Some(sets) => Ok(sets),
        None => SourceSets::new(alloc, 0, 0),
    }
}

/// Returns whether a greedy matching saturates all readers. It does if there is no read-modify-write, since the final values of different
/// locations have no source in common.
pub fn has_enough_sources(
    alloc: Global,
    trail: &OrderedTrail<'_>,
    reads_from: &ReadsFromTable,
    known: KnownOrder<'_>,
) -> Result<bool, AllocError> {
    let mut glance = GreedyMatching::new(alloc, known, &trail.candidates.writers)?;
    for number in 0..reads_from.elements() {
        let element = Element::new(number);
        if reads_from.is_update(element) {
            let variable = reads_from.variable_without_writer(element);
            let may_have_first = variable != Variable::NONE && !is_excluded(trail, variable);
            glance.add_update(element, may_have_first);
        }
    }
    if !glance.has_updates() {
        return Ok(true);
    }
    let mut place: u32 = 0;
    for last in reads_from.last_writers() {
        if reads_from.begins_location(place) {
            glance.add_location(last.writer)?;
        }
        if !is_excluded(trail, last.variable) {
            glance.add_end(last.writer);
        }
        place = place.wrapping_add(1);
    }
    glance.shows_enough(alloc)
}
