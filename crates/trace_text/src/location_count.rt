//! How many locations a trace names.
//!
//! The text of a trace is written in the earliest version that has room for it (`trace_writer.rt`). Version 3 has room for more locations than 1 and 2.

ghost use Rattle.std.specs.Prelude.{◌≡◌, ◌++◌, [], List, ℕ, IfOk, OnOk, map, nat_lt};
ghost use Rattle.std.specs.List.{flat_map};
ghost use Rattle.trace_semantics.specs.declared.limits.Limits.TheVariants.{Small};
ghost use Rattle.trace_semantics.specs.declared.trace.Process.{Process as Listed};
ghost use Rattle.trace_semantics.specs.Limits.{max_locations};
ghost use Rattle.trace_semantics.specs.Operation.{location_of};
ghost use Rattle.trace_semantics.specs.Trace.{location_count};
ghost use Rattle.trace_text.specs.LocationCount.{IsCountOf, CountsOne};

use std::alloc::{AllocError, Global};
use trace_semantics::limits::Limits;
use trace_semantics::name::Name;
use trace_semantics::name_table::NameTable;
use trace_semantics::operation::Op;
use trace_semantics::trace::{Process, Trace};

/// The different names among some, counted until they are more than versions 1 and 2 allow.
#[derive(Drop)]
struct LocationCount<'a> {
    names: NameTable<'a>,
    /// The number of names, or one more than versions 1 and 2 allow if there are more than that.
    count: usize,
}

impl<'a> LocationCount<'a> {
    /// Nothing is counted yet.
    fn new(alloc: Global) -> LocationCount<'a>
        ensures { IsCountOf [] result }
    {
        LocationCount {
            names: NameTable::new(alloc),
            count: 0,
        }
    }

    /// Counts one more name.
    fn add(&mut self, name: &'a [u8]) -> Result<(), AllocError>
        ensures { OnOk result (CountsOne self.old self.new name.now) }
    {
        if self.names.get(name).is_some() {
            return Ok(());
        }
        self.names.insert(name, 0)?;
        if self.count <= Limits::Small.max_locations() {
            self.count += 1;
        }
        Ok(())
    }

    /// Counts the locations of these values.
    fn add_values(&mut self, values: &'a [(Name, u64)]) -> Result<(), AllocError>
        ensures { OnOk result ((names : List (List ℕ)) → IsCountOf names self.old → IsCountOf (names ++ map (λ (entry : List ℕ × ℕ). entry.0) values.now) self.new) }
    {
        for entry in values {
            self.add(entry.0.as_bytes())?;
        }
        Ok(())
    }

    /// Counts the locations of these operations.
    fn add_operations(&mut self, operations: &'a [Op]) -> Result<(), AllocError>
        ensures { OnOk result ((names : List (List ℕ)) → IsCountOf names self.old → IsCountOf (names ++ map location_of operations.now) self.new) }
    {
        for operation in operations {
            self.add(operation.location().as_bytes())?;
        }
        Ok(())
    }

    /// Counts the locations of the operations of these processes.
    fn add_processes(&mut self, processes: &'a [Process]) -> Result<(), AllocError>
        ensures { OnOk result ((names : List (List ℕ)) → IsCountOf names self.old → IsCountOf (names ++ flat_map (λ (p : Listed). map location_of p.operations) processes.now) self.new) }
    {
        for process in processes {
            self.add_operations(process.operations.as_slice())?;
        }
        Ok(())
    }
}

/// Returns whether the trace names more locations than versions 1 and 2 allow.
pub fn has_many_locations(alloc: Global, trace: &Trace) -> Result<bool, AllocError>
    ensures { IfOk result (λ many. many ≡ nat_lt (max_locations Small) (location_count trace.now)) }
{
    let mut locations = LocationCount::new(alloc);
    locations.add_values(trace.initial())?;
    locations.add_values(trace.final_values())?;
    locations.add_processes(trace.processes())?;
    Ok(locations.count > Limits::Small.max_locations())
}
