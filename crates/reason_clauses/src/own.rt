//! The source that a reader may have in its own process.

ghost use Rattle.std.specs.Prelude.{◌≡◌, ◌≤◌, ◌<◌, ◌-◌, ◌⊎◌, ℕ, length, slice_index, false, true, Some, None, IsSome};
ghost use Rattle.std.specs.List.{Contains};
ghost use Rattle.trace_semantics.specs.ValueAfter.{value_left_at};
ghost use Rattle.writer_table.specs.Runs.{IsIn};
ghost use Rattle.writer_table.specs.Writers.{HoldsWriters};
ghost use Rattle.order_clauses.specs.Numbered.{named, IsKnown};
ghost use Rattle.reason_clauses.specs.Numbered.{at_number};
ghost use Rattle.reason_clauses.specs.OwnLast.{IsOwnLast, IsOwnSource};
ghost use Rattle.reason_clauses.specs.PossibleSources.{IsOwnExact};

use crate::lookups::{find_operation, is_from};
use restriction::left_value::left_at;
use trace_semantics::operation::Origin;
use trace_semantics::trace::Trace;
use writer_table::operation_place::OperationPlace;
use writer_table::rising_places::RisingPlaces;
use writer_table::runs::Run;
use writer_table::trace_writers::TraceWriters;

/// The last of the first places, or 0 if they are none.
fn last_of_first(places: &[u32], count: usize) -> u32
    requires inside { count ≤ length places.now }
    ensures some { 0 < count → result ≡ slice_index places.now (count - 1) }
    ensures none { count ≡ 0 → result ≡ 0 }
{
    if count == 0 { 0 } else { places[count - 1] }
}

/// The last of the places, or 0.
pub fn last_of(places: &RisingPlaces) -> u32
    ensures above { (k : ℕ) → Contains places.now k → k ≤ result }
    ensures member { 1 ≤ result → Contains places.now result }
{
    let slice = places.as_slice();
    last_of_first(slice, slice.len())
}

/// The last of the places up to the bound, or 0.
pub fn last_to(places: &RisingPlaces, bound: u32) -> u32
    ensures above { (k : ℕ) → Contains places.now k → k ≤ bound → k ≤ result }
    ensures within { result ≤ bound }
    ensures member { 1 ≤ result → Contains places.now result }
{
    last_of_first(places.as_slice(), places.count_to(bound))
}

/// The later of this place and the last one of the run up to the bound, if the run is of the process.
fn later_of(last: u32, run: &Run, process: u32, bound: u32) -> u32
    ensures least { last ≤ result }
    ensures above { (k : ℕ) → run.now.process ≡ process → Contains run.now.places k → k ≤ bound → k ≤ result }
    ensures within { last ≤ bound → result ≤ bound }
    ensures member { (result ≡ last) ⊎ ((run.now.process ≡ process) × Contains run.now.places result) }
{
    if run.process != process {
        return last;
    }
    let later = last_to(&run.places, bound);
    if later <= last {
        return last;
    }
    later
}

/// The last place of the process in the runs up to the bound, or 0.
fn last_in(runs: &[Run], process: u32, bound: u32) -> u32
    ensures above { (k : ℕ) → IsIn runs.now process k → k ≤ bound → k ≤ result }
    ensures within { result ≤ bound }
    ensures member { (result ≡ 0) ⊎ IsIn runs.now process result }
{
    let mut last = 0;
    for run in runs {
        last = later_of(last, run, process, bound);
    }
    last
}

/// Returns what the operation leaves at the location; none if the trace has no such operation, or it writes nothing there.
pub fn left_there(trace: &Trace, n: OperationPlace, location: &[u8]) -> Option<u64>
    ensures known { IsSome result → IsKnown trace.now n }
    ensures same { IsKnown trace.now n → value_left_at trace.now location.now (named trace.now n) ≡ result }
{
    match find_operation(trace, n) {
        Some(op) => left_at(op, location),
        None => None,
    }
}

/// The place of the last operation before the reader in its process that writes the location; 0 if there is none.
fn own_last(trace: &Trace, locations: &TraceWriters, reader: OperationPlace, location: &[u8]) -> u32
    requires holds { HoldsWriters trace.now locations.now }
    requires kind { locations.now.classes.by_value ≡ false }
    ensures { IsOwnLast trace.now reader location.now result }
{
    trace.recall_invariant();
    let bound = reader.place.saturating_sub(1);
    // A table by location asks for no value, so 0 stands for any.
    last_in(locations.runs(location, 0), reader.process, bound)
}

/// Returns whether the operation leaves the value at the location.
fn leaves(trace: &Trace, n: OperationPlace, location: &[u8], value: u64) -> bool
    ensures found { IsKnown trace.now n → value_left_at trace.now location.now (named trace.now n) ≡ Some value → result ≡ true }
    ensures only { result ≡ true → IsKnown trace.now n × (value_left_at trace.now location.now (named trace.now n) ≡ Some value) }
{
    left_there(trace, n, location) == Some(value)
}

/// The place of the source that the reader may have in its own process, or 0: the last writer of the location before it, if it leaves
/// the value and may be read from. No earlier one is a source, since the last one stands between it and the reader.
pub fn own_source(
    trace: &Trace,
    locations: &TraceWriters,
    reader: OperationPlace,
    location: &[u8],
    value: u64,
    origin: &Origin,
) -> u32
    requires holds { HoldsWriters trace.now locations.now }
    requires kind { locations.now.classes.by_value ≡ false }
    ensures source { IsOwnSource trace.now reader origin.now location.now value result }
    ensures exact { IsOwnExact trace.now reader origin.now location.now value result }
{
    let last = own_last(trace, locations, reader, location);
    let n = OperationPlace {
        process: reader.process,
        place: last,
    };
    if !leaves(trace, n, location, value) {
        return 0;
    }
    if !is_from(trace, origin, n) {
        return 0;
    }
    last
}
