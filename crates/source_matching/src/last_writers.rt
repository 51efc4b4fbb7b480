//! The last writer of a location.

use crate::known_order::KnownOrder;
use crate::matching_instance::ReadsFromEdge;
use crate::reader_id::ReaderId;
use crate::source_id::SourceId;
use crate::source_sets::SourceSets;
use formula_numbers::{ClauseId, Variable};
use order_sets::{Element, next_element};
use std::alloc::{AllocError, Global};
use total_tables::{at, put};

/// The writers of a location by rising numbers, and those of them that may be the last one. No update reads from the last one, so if the
/// final value is not known, a reader may still be added, which has these as its sources. Without it a count misses the contradictions that
/// only the last writer closes.
#[derive(Drop)]
pub struct LastWriters {
    writers: Vec<Element>,
    candidates: Vec<Element>,
}

/// Returns whether no writer of its location surely comes after this one.
pub fn may_be_last(known: KnownOrder<'_>, writer: Element) -> bool {
    // The next one of its process has mostly a number in the same word.
    let likeliest = writer.word();
    if known.writers.word(writer, likeliest) & known.successors.word(writer, likeliest) != 0 {
        return false;
    }
    (0..known.writers.words()).all(|number| {
        known.writers.word(writer, number) & known.successors.word(writer, number) == 0
    })
}

/// Returns a word of the set of writers of this one's location, itself among them.
#[inline(always)]
pub fn location_word(known: KnownOrder<'_>, writer: Element, number: u32) -> u64 {
    let others = known.writers.word(writer, number);
    if writer.word() == number {
        others | writer.bit()
    } else {
        others
    }
}

/// Returns the writers of this one's location, itself among them, by rising numbers.
fn writers_of_location(
    alloc: Global,
    known: KnownOrder<'_>,
    writer: Element,
) -> Result<Vec<Element>, AllocError> {
    let mut writers = Vec::new(alloc);
    for number in 0..known.writers.words() {
        let mut word = location_word(known, writer, number);
        for _ in 0..64 {
            let Some(other) = next_element(&mut word, number) else {
                break;
            };
            writers.push(other)?;
        }
    }
    Ok(writers)
}

/// Returns those writers of this one's location that may be the last one.
pub fn candidates_of(
    alloc: Global,
    known: KnownOrder<'_>,
    writer: Element,
) -> Result<Vec<Element>, AllocError> {
    let writers = writers_of_location(alloc, known, writer)?;
    let mut candidates = Vec::new(alloc);
    for candidate in &writers {
        if may_be_last(known, *candidate) {
            candidates.push(*candidate)?;
        }
    }
    Ok(candidates)
}

impl LastWriters {
    /// Makes the writers of this one's location, with these candidates.
    pub fn of(
        alloc: Global,
        known: KnownOrder<'_>,
        writer: Element,
        candidates: Vec<Element>,
    ) -> Result<LastWriters, AllocError> {
        let writers = writers_of_location(alloc, known, writer)?;
        Ok(LastWriters {
            writers,
            candidates,
        })
    }

    /// Returns a bound on the steps which say that one of the candidates is the last one: for each candidate a definition with a clause for each
    /// writer, one clause with a deletion, and the steps that eliminate it from the clauses of the others.
    pub fn most_steps(&self) -> u64 {
        let writers = self.writers.len() as u64;
        let candidates = self.candidates.len() as u64;
        let sum = writers.saturating_add(candidates).saturating_add(4);
        candidates.saturating_mul(sum)
    }

    pub fn writers(&self) -> &[Element] {
        self.writers.as_slice()
    }

    /// Returns those that may be the last one.
    pub fn candidates(&self) -> &[Element] {
        self.candidates.as_slice()
    }

    /// Returns one of the candidates that surely comes after this writer, which is no candidate. It is the same one at each call: the literal
    /// that says so becomes a unit clause of the proof, and later steps name just that one.
    pub fn candidate_behind(&self, known: KnownOrder<'_>, writer: Element) -> Option<Element> {
        let mut found = None;
        for candidate in &self.candidates {
            if known.successors.has(writer, *candidate) {
                found = Some(*candidate);
            }
        }
        found
    }

    /// Returns the choice of the writer at this place among the candidates, counted from 0, with this variable, if its clauses begin with this one.
    pub fn choice(&self, candidate: u32, variable: Variable, first: ClauseId) -> ReadsFromEdge {
        let source = at(self.candidates.as_slice(), candidate, Element::NONE);
        let mut place: u32 = 0;
        for writer in &self.writers {
            if *writer < source {
                place = place.wrapping_add(1);
            }
        }
        ReadsFromEdge {
            source: SourceId::of(source),
            place: Some(place),
            variable,
            first,
            is_excluded: false,
        }
    }
}

/// Returns whether a free source may be the last writer of this one's location. (Of those in a word only the last one is examined, which is the
/// likeliest. If one is missed, `find_ending` searches in full.)
fn has_free_end(known: KnownOrder<'_>, free: &[u64], writer: Element) -> bool {
    for number in 0..known.writers.words() {
        let word = known.writers.word(writer, number) & at(free, number, 0);
        let last = number.wrapping_mul(64).wrapping_add(63);
        let last = Element::new(last.wrapping_sub(word.leading_zeros()));
        if word != 0 && may_be_last(known, last) {
            return true;
        }
    }
    false
}

/// Adds the writer and all others of its location to the set.
fn add_location(known: KnownOrder<'_>, done: &mut [u64], writer: Element) {
    for number in 0..known.writers.words() {
        let word = at(done, number, 0) | location_word(known, writer, number);
        put(done, number, word);
    }
}

/// Returns a writer of each location that has an update and no final value among the readers, but for those where one of these free sources
/// may be the last writer: there one more reader has a source.
pub fn writers_without_end(
    alloc: Global,
    possible: &SourceSets,
    free: &[u64],
    known: KnownOrder<'_>,
) -> Result<Vec<Element>, AllocError> {
    let mut done = vec![in alloc; 0; known.writers.words() as usize]?;
    for number in 0..possible.readers() {
        let reader = ReaderId::new(number);
        if possible.update(reader).is_none()
            && let Some(source) = possible.first(reader)
        {
            add_location(known, done.as_mut_slice(), source.writer());
        }
    }
    let mut writers = Vec::new(alloc);
    for number in 0..possible.readers() {
        let reader = ReaderId::new(number);
        if let Some(update) = possible.update(reader)
            && at(done.as_slice(), update.word(), u64::MAX) & update.bit() == 0
        {
            add_location(known, done.as_mut_slice(), update);
            if !has_free_end(known, free, update) {
                writers.push(update)?;
            }
        }
    }
    Ok(writers)
}
