//! What rules out each schedule without a search.

use crate::read_slips::{note_final_slip, note_slip};
use crate::shown_places::ShownPlaces;
use crate::sourceless_finals::{explain_final_value, may_be_final};
use crate::sourceless_reads::{MissingSource, PlacedRead};
use note_text::{Notes, decimal};
use std::alloc::{AllocError, Global};
use trace_part::listing::writer_table;
use trace_part::writer_table::WriterTable;
use trace_semantics::op_set::OpSet;
use trace_semantics::trace::{Process, Trace};

/// The most reads, and the most final values, that are named.
const MAX_NAMED: u64 = 5;

/// The reads without a source so far.
#[derive(Clone, Copy)]
struct SourcelessReads<'t> {
    count: u64,
    /// A location without an initial value at which a named one reads 0, and nothing else was probably meant.
    bare: Option<&'t [u8]>,
}

impl<'t> SourcelessReads<'t> {
    /// Notes the read, unless enough are named, and gives what is then known.
    fn noted(
        self,
        alloc: Global,
        notes: &mut Notes,
        places: &ShownPlaces,
        reader: &PlacedRead<'t>,
        missing: MissingSource<'t>,
    ) -> SourcelessReads<'t> {
        let mut bare = self.bare;
        if self.count < MAX_NAMED {
            reader.explain(alloc, notes, places, missing);
            let is_told = note_slip(alloc, notes, places, reader, missing);
            if !is_told && reader.wants_initial_zero(missing) {
                bare = Some(reader.op.location().as_bytes());
            }
        }
        SourcelessReads {
            count: self.count.saturating_add(1),
            bare,
        }
    }
}

/// The tables by which reads and final values without a source are found.
#[derive(Clone, Copy)]
struct SourceTables<'t, 'l> {
    trace: &'t Trace,
    writers: &'l WriterTable<'t>,
    places: &'l ShownPlaces,
}

/// Notes which reads of the process of this number have no source, after these ones.
fn explain_process<'t>(
    alloc: Global,
    notes: &mut Notes,
    tables: SourceTables<'t, '_>,
    process: &'t Process,
    number: usize,
    before: SourcelessReads<'t>,
) -> SourcelessReads<'t> {
    let ops = process.operations.as_slice();
    let mut found = before;
    for k in 0..ops.len() {
        let reader = PlacedRead {
            trace: tables.trace,
            number,
            k,
            op: &ops[k],
        };
        if let Some(missing) = reader.missing_source(tables.writers) {
            found = found.noted(alloc, notes, tables.places, &reader, missing);
        }
    }
    found
}

/// Notes how a location gets its initial value, if one of a value 0 is missing. It is said once, of the last such location.
fn advise_initial(notes: &mut Notes, bare: Option<&[u8]>) {
    if let Some(location) = bare {
        notes.note(&[
            b"if ",
            location,
            b" held 0 at first, the line `init ",
            location,
            b" 0` is missing above the first proc line",
        ]);
    }
}

/// Notes which reads have no source, and how many there are.
fn explain_reads<'t>(alloc: Global, notes: &mut Notes, tables: SourceTables<'t, '_>) -> u64 {
    let processes = tables.trace.processes();
    let mut found = SourcelessReads {
        count: 0,
        bare: None,
    };
    for number in 0..processes.len() {
        found = explain_process(alloc, notes, tables, &processes[number], number, found);
    }
    explain_rest(notes, b"reads without a source beside these: ", found.count);
    advise_initial(notes, found.bare);
    found.count
}

/// Notes which final values no order of the operations leaves, and how many there are.
fn explain_finals<'t>(alloc: Global, notes: &mut Notes, tables: SourceTables<'t, '_>) -> u64 {
    let trace = tables.trace;
    let mut count: u64 = 0;
    for entry in trace.final_values() {
        let location = entry.0.as_bytes();
        let writers = tables.writers.writers_at(location);
        if !may_be_final(trace, writers, location, entry.1) {
            if count < MAX_NAMED {
                explain_final_value(alloc, notes, trace, writers, location, entry.1);
                note_final_slip(alloc, notes, trace, tables.places, location, entry.1);
            }
            count = count.saturating_add(1);
        }
    }
    count
}

/// Notes how many more there are than were named.
fn explain_rest(notes: &mut Notes, what: &[u8], count: u64) {
    if count <= MAX_NAMED {
        return;
    }
    let rest = decimal(count - MAX_NAMED);
    notes.note(&[what, rest.as_slice()]);
}

/// Notes what rules out each schedule, whatever the order is: reads and final values of values that nothing gives. The answer is
/// whether there is something.
pub fn explain_sourceless(
    alloc: Global,
    notes: &mut Notes,
    trace: &Trace,
    places: &ShownPlaces,
) -> Result<bool, AllocError> {
    let set = OpSet::new(alloc);
    let writers = writer_table(alloc, trace, &set)?;
    let tables = SourceTables {
        trace,
        writers: &writers,
        places,
    };
    let reads = explain_reads(alloc, notes, tables);
    let finals = explain_finals(alloc, notes, tables);
    explain_rest(notes, b"such final values beside these: ", finals);
    let all = reads.saturating_add(finals);
    if all == 0 {
        return Ok(false);
    }
    let which: &[u8] = if all == 1 { b"this" } else { b"each of these" };
    notes.note(&[which, b" alone rules out all schedules"]);
    Ok(true)
}
