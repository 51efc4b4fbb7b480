//! A trace as a log of numbers, and the names of these.

use crate::time_pairs::add_times;
use numbered_log::{
    LocationId, NO_NUMBER, NOBODY, NumberedLog, NumberedOrigin, NumberedPair, Operation,
    OperationId, ProcessId, ProcessPlace,
};
use std::alloc::{AllocError, Global};
use total_tables::{at, size};
use trace_semantics::name::Name;
use trace_semantics::name_table::NameTable;
use trace_semantics::operation::{Op, OpName, Origin as Told};
use trace_semantics::trace::{Process, Trace};

/// The number of the name in a table, or `NO_NUMBER`.
fn number_in(table: &NameTable<'_>, name: &Name) -> u32 {
    match table.get(name.as_bytes()) {
        Some(number) => (number & 0xffff_ffff) as u32,
        None => NO_NUMBER,
    }
}

/// Names of locations, which get numbers in the order in which they come.
#[derive(Drop)]
struct Locations<'a> {
    table: NameTable<'a>,
    count: u32,
}

impl<'a> Locations<'a> {
    /// The location of this name.
    fn number(&self, name: &Name) -> LocationId {
        LocationId::new(number_in(&self.table, name))
    }

    /// Gives the location the next number, counted from 0, unless it has one.
    fn enter(&mut self, name: &'a Name) -> Result<(), AllocError> {
        if self.table.get(name.as_bytes()).is_none() {
            self.table.insert(name.as_bytes(), self.count as u64)?;
            self.count = self.count.wrapping_add(1);
        }
        Ok(())
    }
}

/// The locations on which operations work, or of which a final value is known, numbered as they come. `location_names` goes the same way.
fn locations_of(alloc: Global, trace: &Trace) -> Result<Locations<'_>, AllocError> {
    let mut locations = Locations {
        table: NameTable::new(alloc),
        count: 0,
    };
    for process in trace.processes() {
        for op in process.operations.as_slice() {
            locations.enter(op.location())?;
        }
    }
    for value in trace.final_values() {
        locations.enter(&value.0)?;
    }
    Ok(locations)
}

/// The numbers by which operations are named.
#[derive(Drop)]
struct Starts<'a> {
    processes: NameTable<'a>,
    /// For each process the number of its first operation.
    starts: Vec<OperationId>,
}

impl<'a> Starts<'a> {
    /// Numbers the processes of the trace as they come, from 0, and their operations one after the other.
    fn of(alloc: Global, trace: &'a Trace) -> Result<Starts<'a>, AllocError> {
        let mut starts = Starts {
            processes: NameTable::new(alloc),
            starts: Vec::new(alloc),
        };
        let mut start = OperationId::FIRST;
        for process in trace.processes() {
            let number = size(starts.starts.as_slice());
            starts
                .processes
                .insert(process.name.as_bytes(), number as u64)?;
            starts.starts.push(start)?;
            start = start.ahead(size(process.operations.as_slice()));
        }
        Ok(starts)
    }

    /// The number of the operation of this name, if there is one. A name that the trace has not gets the number of another operation, or of none: a
    /// caller that may have such asks `has` before.
    fn number(&self, name: &OpName) -> OperationId {
        let process = number_in(&self.processes, &name.process);
        let start = at(self.starts.as_slice(), process, NOBODY);
        start.at_place(ProcessPlace::new(name.place as u32))
    }

    /// Returns whether the trace has an operation of this name.
    fn has(&self, trace: &Trace, name: &OpName) -> bool {
        let process = number_in(&self.processes, &name.process) as usize;
        match trace.processes().get(process) {
            Some(process) => {
                name.place >= 1 && name.place as usize <= process.operations.as_slice().len()
            }
            None => false,
        }
    }

    fn origin(&self, origin: &Told) -> NumberedOrigin {
        match origin {
            Told::Any => NumberedOrigin::Any,
            Told::Initial => NumberedOrigin::Initial,
            Told::Operation(name) => NumberedOrigin::Operation(self.number(name)),
        }
    }

    /// The operation, without its process and place, which `NumberedLog::add_operation` gives it.
    fn operation(&self, location: LocationId, op: &Op) -> Operation {
        let origin = match op {
            Op::Read { origin, .. } => self.origin(origin),
            Op::Write { .. } => NumberedOrigin::Any,
            Op::Update { origin, .. } => self.origin(origin),
        };
        let needed = op.value_read();
        let left = op.written_value();
        Operation {
            process: ProcessId::FIRST,
            place: ProcessPlace::START,
            location,
            reads: needed.is_some(),
            writes: left.is_some(),
            needed: value_or_nothing(needed),
            left: value_or_nothing(left),
            origin,
        }
    }
}

/// The value, or 0 for one that is never asked for.
fn value_or_nothing(value: Option<u64>) -> u64 {
    match value {
        Some(value) => value,
        None => 0,
    }
}

/// The trace as numbers.
pub fn log_of(alloc: Global, trace: &Trace) -> Result<NumberedLog, AllocError> {
    let locations = locations_of(alloc, trace)?;
    let starts = Starts::of(alloc, trace)?;
    numbered(alloc, trace, &locations, &starts)
}

/// The trace as these numbers.
fn numbered(
    alloc: Global,
    trace: &Trace,
    locations: &Locations<'_>,
    starts: &Starts<'_>,
) -> Result<NumberedLog, AllocError> {
    let mut log = NumberedLog::new(alloc, locations.count)?;
    fill(&mut log, trace, locations, starts)?;
    add_times(alloc, trace, &mut log)?;
    Ok(log)
}

/// Adds what the trace says to a log without operations.
fn fill(
    log: &mut NumberedLog,
    trace: &Trace,
    locations: &Locations<'_>,
    starts: &Starts<'_>,
) -> Result<(), AllocError> {
    for value in trace.initial() {
        log.set_initial(locations.number(&value.0), Some(value.1));
    }
    for value in trace.final_values() {
        log.set_last(locations.number(&value.0), Some(value.1));
    }
    for process in trace.processes() {
        for op in process.operations.as_slice() {
            let location = locations.number(op.location());
            log.add_operation(starts.operation(location, op))?;
        }
        log.end_process()?;
    }
    for pair in trace.before() {
        let first = starts.number(&pair.0);
        let second = starts.number(&pair.1);
        log.add_pair(NumberedPair {
            first,
            second,
            is_timed: false,
        })?;
    }
    Ok(())
}

/// The name of an operation of this process.
fn name_at(alloc: Global, process: &Process, place: ProcessPlace) -> Result<OpName, AllocError> {
    Ok(OpName {
        process: Name::copy_of(alloc, process.name.as_bytes())?,
        place: place.number(),
    })
}

/// The names of these operations.
pub fn names_of(
    alloc: Global,
    trace: &Trace,
    log: &NumberedLog,
    operations: &[OperationId],
) -> Result<Vec<OpName>, AllocError> {
    let mut names = Vec::with_capacity(alloc, operations.len())?;
    let processes = trace.processes();
    for number in operations {
        let operation = log.operation(*number);
        let process = operation.process.number() as usize;
        if process < processes.len() {
            names.push(name_at(alloc, &processes[process], operation.place)?)?;
        }
    }
    Ok(names)
}

/// The numbers of those of these names that the trace has, in the given order. So they may be fewer than the names.
pub fn numbers_of_names(
    alloc: Global,
    trace: &Trace,
    names: &[OpName],
) -> Result<Vec<OperationId>, AllocError> {
    let mut numbers = Vec::new(alloc);
    let starts = Starts::of(alloc, trace)?;
    for name in names {
        if starts.has(trace, name) {
            numbers.push(starts.number(name))?;
        }
    }
    Ok(numbers)
}

/// The names of the log's locations, by number.
pub fn location_names<'a>(alloc: Global, trace: &'a Trace) -> Result<Vec<&'a [u8]>, AllocError> {
    let locations = locations_of(alloc, trace)?;
    let mut names = Vec::new(alloc);
    for process in trace.processes() {
        for op in process.operations.as_slice() {
            add_location(&mut names, &locations, op.location())?;
        }
    }
    for value in trace.final_values() {
        add_location(&mut names, &locations, &value.0)?;
    }
    Ok(names)
}

/// Adds the name of the location, if its number comes next. One of a smaller number has its name already.
fn add_location<'a>(
    names: &mut Vec<&'a [u8]>,
    locations: &Locations<'_>,
    name: &'a Name,
) -> Result<(), AllocError> {
    if locations.number(name).number() == size(names.as_slice()) {
        names.push(name.as_bytes())?;
    }
    Ok(())
}
