//! Memory after the first operations of a schedule.

ghost use Rattle.std.specs.Prelude.{◌≡◌, List, ℕ, IfOk, OnOk, []};
ghost use Rattle.std.specs.List.{slice_get};
ghost use Rattle.std.specs.Option.{option_copied, option_and_then};
ghost use Rattle.trace_semantics.specs.declared.operation.OpName.{OpName};
ghost use Rattle.trace_semantics.specs.Judgement as judgement;
ghost use Rattle.schedule_judge.specs.Memory.{IsMemoryAfter, Runs, Writes, writer_of};
ghost use Rattle.trace_semantics.specs.Operation as operation;
ghost use Rattle.trace_semantics.specs.NameNumbers.{number_of};
ghost use Rattle.trace_semantics.specs.Trace.{TraceValue};

use std::alloc::{AllocError, Global};
use trace_semantics::held_value::is_held;
use trace_semantics::name::Name;
use trace_semantics::name_table::NameTable;
use trace_semantics::operation::{Op, OpName, Origin};

/// What each location holds, and which name of the schedule wrote it last.
#[derive(Drop)]
pub struct Memory<'a> {
    /// The value of each location that was written or has an initial value.
    pub values: NameTable<'a>,
    /// For each location that an operation wrote, the place of its name in the schedule, from 0. Initial values have no writer.
    pub writers: NameTable<'a>,
}

/// Returns whether two names are the same.
fn same_op(m: &OpName, n: &OpName) -> bool
    ensures { result ≡ operation.same_op m.now n.now }
{
    m.process.as_bytes() == n.process.as_bytes() && m.place == n.place
}

/// Returns whether the operation is this one.
fn is_the_op(writer: Option<&OpName>, name: &OpName) -> bool
    ensures { result ≡ judgement.is_the_op (option_copied writer.entry) name.now }
{
    match writer {
        None => false,
        Some(other) => same_op(other, name),
    }
}

/// The name at this place of the schedule, from 0.
fn name_at(names: &[OpName], place: Option<u64>) -> Option<&OpName>
    ensures { option_copied result ≡ option_and_then (slice_get names.now) place }
{
    match place {
        Some(k) => names.get(k as usize),
        None => None,
    }
}

impl<'a> Memory<'a> {
    /// Memory before the first operation.
    pub fn new(alloc: Global, initial: &'a [(Name, u64)]) -> Result<Memory<'a>, AllocError>
        ensures { IfOk result (λ memory. (t : TraceValue) (names : List OpName) → t.initial ≡ initial.now → IsMemoryAfter t names [] memory) }
    {
        let values = NameTable::of_values(alloc, initial)?;
        let writers = NameTable::with_capacity(alloc, initial.len())?;
        Ok(Memory { values, writers })
    }

    /// Returns whether the operation reads here what its location holds. An operation that reads nothing does.
    pub fn reads_right(&self, op: &'a Op) -> bool
        ensures { result ≡ judgement.is_right_read (number_of self.now.values (operation.location_of op.now)) (operation.value_read op.now) }
    {
        match op.value_read() {
            None => true,
            Some(value) => self.holds(op.location().as_bytes(), value),
        }
    }

    /// The name that wrote the location last.
    fn last_writer(&self, names: &'a [OpName], location: &'a [u8]) -> Option<&'a OpName>
        ensures { option_copied result ≡ writer_of names.now self.now location.now }
    {
        name_at(names, self.writers.get(location))
    }

    /// Returns whether the origin names what last wrote the location.
    fn is_from(&self, names: &'a [OpName], location: &'a [u8], origin: &'a Origin) -> bool
        ensures { result ≡ judgement.is_right_source (writer_of names.now self.now location.now) origin.now }
    {
        match origin {
            Origin::Any => true,
            Origin::Initial => self.last_writer(names, location).is_none(),
            Origin::Operation(name) => is_the_op(self.last_writer(names, location), name),
        }
    }

    /// Returns whether the operation reads here from where its origin says. It must be asked before `run`: an update would else have itself as
    /// the last writer.
    pub fn has_right_source(&self, names: &'a [OpName], op: &'a Op) -> bool
        ensures { result ≡ judgement.is_right_source (writer_of names.now self.now (operation.location_of op.now)) (operation.origin_of op.now) }
    {
        match op {
            Op::Read {
                location,
                origin,
                ..
            } => self.is_from(names, location.as_bytes(), origin),
            Op::Write { .. } => true,
            Op::Update {
                location,
                origin,
                ..
            } => self.is_from(names, location.as_bytes(), origin),
        }
    }

    /// Returns whether the location holds the value.
    pub fn holds(&self, location: &'a [u8], value: u64) -> bool
        ensures { result ≡ judgement.is_held (number_of self.now.values location.now) value }
    {
        is_held(self.values.get(location), value)
    }

    /// Writes the value to the location, by the name at this place.
    fn write(&mut self, location: &'a [u8], value: u64, place: usize) -> Result<(), AllocError>
        ensures { OnOk result (Writes self.old location.now value place self.new) }
    {
        self.values.insert(location, value)?;
        self.writers.insert(location, place as u64)
    }

    /// Runs the operation, which is the one of the name at this place.
    pub fn run(&mut self, op: &'a Op, place: usize) -> Result<(), AllocError>
        ensures { OnOk result (Runs self.old op.now place self.new) }
    {
        match op.written_value() {
            Some(value) => self.write(op.location().as_bytes(), value, place),
            None => Ok(()),
        }
    }
}
