//! Reads that have no source, whatever the order is.

use crate::held_value::initial_value;
use crate::named_operations::{is_named, operation_of, origin_of, place_after};
use crate::sentence::Sentence;
use crate::shown_places::ShownPlaces;
use note_text::{Notes, decimal};
use std::alloc::Global;
use trace_part::sources::leaves;
use trace_part::writer_table::WriterTable;
use trace_part::writers::ChosenWriter;
use trace_semantics::operation::{Op, OpName, Origin};
use trace_semantics::trace::Trace;

/// An operation that reads, by its place in the trace.
#[derive(Clone, Copy)]
pub struct PlacedRead<'t> {
    pub trace: &'t Trace,
    /// The number of its process, counted from 0.
    pub number: usize,
    /// Its place in the process, counted from 0.
    pub k: usize,
    pub op: &'t Op,
}

/// Why a read has no source.
#[derive(Clone, Copy)]
pub enum MissingSource<'t> {
    /// Nothing else writes the value there, and it is not the initial one.
    Unwritten,
    /// By its line it reads the initial value, which is another one or none.
    NotInitial,
    /// By its line it reads from this operation, which does not write its value there.
    NotFrom(&'t OpName),
    /// By its line it reads from itself.
    FromItself,
}

/// Returns whether the writer is the operation at this place.
fn is_itself(writer: &ChosenWriter, number: usize, k: usize) -> bool {
    writer.name.process as usize == number && writer.name.place as u64 == place_after(k)
}

/// Returns whether another operation writes the value, of these writers.
fn is_written_by_another(writers: &[ChosenWriter], number: usize, k: usize, value: u64) -> bool {
    for writer in writers {
        if !is_itself(writer, number, k) && leaves(writer, value) {
            return true;
        }
    }
    false
}

/// Returns whether the operation of this name writes the value at the location.
fn writes(trace: &Trace, name: &OpName, location: &[u8], value: u64) -> bool {
    match operation_of(trace, name) {
        Some(op) => { op.location().as_bytes() == location && op.written_value() == Some(value) }
        None => false,
    }
}

impl<'t> PlacedRead<'t> {
    /// The name of its process.
    fn process(&self) -> &'t [u8] {
        let processes = self.trace.processes();
        if self.number < processes.len() {
            processes[self.number].name.as_bytes()
        } else {
            b""
        }
    }

    /// Returns why the read of this value has no source, if it has none.
    fn missing_source_of(&self, table: &WriterTable<'t>, value: u64) -> Option<MissingSource<'t>> {
        let location = self.op.location().as_bytes();
        let is_initial = initial_value(self.trace, location) == Some(value);
        match origin_of(self.op) {
            Some(Origin::Initial) => {
                if is_initial {
                    None
                } else {
                    Some(MissingSource::NotInitial)
                }
            }
            Some(Origin::Operation(name)) => self.missing_from(name, value),
            Some(Origin::Any) => {
                let writers = table.writers_at(location);
                if is_initial || is_written_by_another(writers, self.number, self.k, value) {
                    None
                } else {
                    Some(MissingSource::Unwritten)
                }
            }
            None => None,
        }
    }

    /// Returns why the value cannot be from the operation of this name, if it cannot.
    fn missing_from(&self, name: &'t OpName, value: u64) -> Option<MissingSource<'t>> {
        if is_named(name, self.process(), place_after(self.k)) {
            return Some(MissingSource::FromItself);
        }
        if writes(self.trace, name, self.op.location().as_bytes(), value) {
            return None;
        }
        Some(MissingSource::NotFrom(name))
    }

    /// Returns why it has no source, if it reads and has none.
    pub fn missing_source(&self, table: &WriterTable<'t>) -> Option<MissingSource<'t>> {
        match self.op.value_read() {
            Some(value) => self.missing_source_of(table, value),
            None => None,
        }
    }

    /// Returns whether it reads a 0 that nothing writes, at a location without an initial value.
    pub fn wants_initial_zero(&self, missing: MissingSource<'t>) -> bool {
        let is_unwritten = match missing {
            MissingSource::Unwritten => true,
            MissingSource::NotInitial => true,
            MissingSource::NotFrom(_) => false,
            MissingSource::FromItself => false,
        };
        let location = self.op.location().as_bytes();
        is_unwritten
            && self.op.value_read() == Some(0)
            && initial_value(self.trace, location).is_none()
    }

    /// Notes that it has no source.
    pub fn explain(
        &self,
        alloc: Global,
        notes: &mut Notes,
        places: &ShownPlaces,
        missing: MissingSource<'t>,
    ) {
        let Some(read) = self.op.value_read() else {
            return;
        };
        let location = self.op.location().as_bytes();
        let mut sentence = Sentence::new(alloc);
        sentence.add_name(self.process(), places.at(self.number, self.k));
        sentence.add_read(read, location);
        self.add_missing_source(&mut sentence, places, missing, read);
        sentence.note(notes);
    }

    /// Adds why it has no source.
    fn add_missing_source(
        &self,
        sentence: &mut Sentence,
        places: &ShownPlaces,
        missing: MissingSource<'t>,
        read: u64,
    ) {
        let location = self.op.location().as_bytes();
        match missing {
            MissingSource::Unwritten => {
                // An update that leaves what it reads writes the value itself, and is no source of its own.
                let words: &[u8] = if self.op.written_value() == self.op.value_read() {
                    b", which nothing else writes, and "
                } else {
                    b", which nothing writes, and "
                };
                sentence.add(&[words]);
                sentence.add_initial(self.trace, location)
            }
            MissingSource::NotInitial => {
                sentence.add(&[b" from init, and "]);
                sentence.add_initial(self.trace, location)
            }
            MissingSource::NotFrom(name) => {
                sentence.add(&[b" from "]);
                sentence.add_name(name.process.as_bytes(), places.of_name(self.trace, name));
                let value = decimal(read);
                sentence.add(&[
                    b", which does not write ",
                    value.as_slice(),
                    b" to ",
                    location,
                ])
            }
            MissingSource::FromItself => sentence.add(&[b" from itself"]),
        }
    }
}
