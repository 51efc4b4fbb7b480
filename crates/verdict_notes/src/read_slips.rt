//! What was probably meant by a read without a source, or by a final value that nothing leaves.

use crate::nearest::{near_location, near_location_of, near_value};
use crate::sentence::Sentence;
use crate::shown_places::ShownPlaces;
use crate::sourceless_reads::{MissingSource, PlacedRead};
use note_text::Notes;
use std::alloc::Global;
use trace_semantics::operation::Op;
use trace_semantics::trace::Trace;

/// A trace, and the places under which its operations are named.
#[derive(Clone, Copy)]
struct ShownTrace<'t> {
    trace: &'t Trace,
    places: &'t ShownPlaces,
}

/// A writer, by the number of its process and its place there, both counted from 0.
#[derive(Clone, Copy)]
struct PlacedWriter {
    number: usize,
    k: usize,
}

/// What a writer has to write: to this location, this value, or both.
#[derive(Clone, Copy)]
struct WriterWanted<'w> {
    location: Option<&'w [u8]>,
    value: Option<u64>,
}

/// The writers that were found: none, one, or more than one, with the first of them.
#[derive(Clone, Copy)]
enum FoundWriter {
    Nothing,
    One(PlacedWriter),
    Several(PlacedWriter),
}

impl<'w> WriterWanted<'w> {
    /// Returns whether the operation writes this.
    fn is_met(self, op: &Op) -> bool {
        let Some(written) = op.written_value() else {
            return false;
        };
        let is_there = match self.location {
            Some(location) => op.location().as_bytes() == location,
            None => true,
        };
        let is_value = match self.value {
            Some(value) => written == value,
            None => true,
        };
        is_there && is_value
    }

    /// The writers that the trace has of it.
    fn found(self, trace: &Trace) -> FoundWriter {
        let mut found = FoundWriter::Nothing;
        let processes = trace.processes();
        for number in 0..processes.len() {
            let ops = processes[number].operations.as_slice();
            for k in 0..ops.len() {
                if self.is_met(&ops[k]) {
                    found = found.and(PlacedWriter { number, k });
                }
            }
        }
        found
    }
}

impl FoundWriter {
    /// The same with one more writer.
    fn and(self, writer: PlacedWriter) -> FoundWriter {
        match self {
            FoundWriter::Nothing => FoundWriter::One(writer),
            FoundWriter::One(first) => FoundWriter::Several(first),
            FoundWriter::Several(first) => FoundWriter::Several(first),
        }
    }

    /// The first of them.
    fn first(self) -> Option<PlacedWriter> {
        match self {
            FoundWriter::Nothing => None,
            FoundWriter::One(writer) => Some(writer),
            FoundWriter::Several(writer) => Some(writer),
        }
    }
}

/// The notes that are added to, and the trace that they speak of.
#[derive(Drop)]
struct SlipNotes<'n, 't> {
    alloc: Global,
    notes: &'n mut Notes,
    shown: ShownTrace<'t>,
}

/// Adds the name of the writer.
fn add_writer(sentence: &mut Sentence, shown: ShownTrace<'_>, writer: PlacedWriter) {
    if let Some(process) = shown.trace.processes().get(writer.number) {
        let place = shown.places.at(writer.number, writer.k);
        sentence.add_name(process.name.as_bytes(), place);
    }
}

/// Adds who writes this, or else that it is an initial value. The caller has found that the trace has one of the two.
fn add_origin(sentence: &mut Sentence, shown: ShownTrace<'_>, wanted: WriterWanted<'_>) {
    match wanted.found(shown.trace).first() {
        Some(writer) => {
            sentence.add(&[b", which "]);
            add_writer(sentence, shown, writer);
            sentence.add(&[b" writes?"])
        }
        None => sentence.add(&[b", which has an init line?"]),
    }
}

impl SlipNotes<'_, '_> {
    /// Notes that the location near this one may be meant.
    fn note_near_location(&mut self, location: &[u8], near: &[u8]) {
        let mut sentence = Sentence::new(self.alloc);
        sentence.add(&[b"is ", location, b" meant to be ", near]);
        let wanted = WriterWanted {
            location: Some(near),
            value: None,
        };
        add_origin(&mut sentence, self.shown, wanted);
        sentence.note(self.notes);
    }

    /// Notes that the value near this one may be meant, which the location gets.
    fn note_near_value(&mut self, location: &[u8], value: u64, near: u64) {
        let mut sentence = Sentence::new(self.alloc);
        sentence.add(&[b"is "]);
        sentence.add_value(value);
        sentence.add(&[b" meant to be "]);
        sentence.add_value(near);
        let wanted = WriterWanted {
            location: Some(location),
            value: Some(near),
        };
        add_origin(&mut sentence, self.shown, wanted);
        sentence.note(self.notes);
    }

    /// Notes that one operation alone writes the value, to another location than this: if several do, none is plainly meant. The answer is whether it
    /// is so.
    fn note_only_writer(&mut self, location: &[u8], value: u64) -> bool {
        let wanted = WriterWanted {
            location: None,
            value: Some(value),
        };
        let FoundWriter::One(writer) = wanted.found(self.shown.trace) else {
            return false;
        };
        let Some(process) = self.shown.trace.processes().get(writer.number) else {
            return false;
        };
        let Some(op) = process.operations.as_slice().get(writer.k) else {
            return false;
        };
        let written = op.location().as_bytes();
        if written == location {
            return false;
        }
        let mut sentence = Sentence::new(self.alloc);
        sentence.add_value(value);
        sentence.add(&[b" is written by "]);
        add_writer(&mut sentence, self.shown, writer);
        sentence.add(&[b" alone, to ", written]);
        sentence.note(self.notes);
        true
    }
}

/// Returns whether the location gets no value at all.
fn is_without_value(trace: &Trace, location: &[u8]) -> bool {
    for entry in trace.initial() {
        if entry.0.as_bytes() == location {
            return false;
        }
    }
    let wanted = WriterWanted {
        location: Some(location),
        value: None,
    };
    wanted.found(trace).first().is_none()
}

/// The location that was probably meant in place of this one, where this value is read: a near one that gets the value, or any near one if
/// this location gets no value at all, and so is perhaps no location.
fn meant_location<'t>(trace: &'t Trace, location: &[u8], value: u64) -> Option<&'t [u8]> {
    let near = near_location_of(trace, location, value);
    if near.is_none() && is_without_value(trace, location) {
        near_location(trace, location)
    } else {
        near
    }
}

/// Notes what was probably meant by a read that has no source, if that is plain: a location of nearly the same name, a location that alone
/// gets the value, or a value of nearly the same digits. The answer is whether there is a note.
pub fn note_slip(
    alloc: Global,
    notes: &mut Notes,
    places: &ShownPlaces,
    reader: &PlacedRead<'_>,
    missing: MissingSource<'_>,
) -> bool {
    let (MissingSource::Unwritten, Some(value)) = (missing, reader.op.value_read()) else {
        return false;
    };
    let trace = reader.trace;
    let mut slips = SlipNotes {
        alloc,
        notes,
        shown: ShownTrace { trace, places },
    };
    let location = reader.op.location().as_bytes();
    if let Some(near) = meant_location(trace, location, value) {
        slips.note_near_location(location, near);
        return true;
    }
    if slips.note_only_writer(location, value) {
        return true;
    }
    match near_value(trace, location, value) {
        Some(near) => {
            slips.note_near_value(location, value, near);
            true
        }
        None => false,
    }
}

/// Notes which location was probably meant by a final value that nothing leaves at this one, if that is plain.
pub fn note_final_slip(
    alloc: Global,
    notes: &mut Notes,
    trace: &Trace,
    places: &ShownPlaces,
    location: &[u8],
    value: u64,
) {
    if let Some(near) = meant_location(trace, location, value) {
        let mut slips = SlipNotes {
            alloc,
            notes,
            shown: ShownTrace { trace, places },
        };
        slips.note_near_location(location, near);
    }
}
