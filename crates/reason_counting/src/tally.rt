//! How many operations want a value at a location, and how many leave it there.

ghost use Rattle.std.specs.Prelude.{◌≡◌, ◌≤◌, ◌<◌, ◌+◌, ◌^◌, ◌∷◌, ◌++◌, [], List, ℕ};
ghost use Rattle.trace_semantics.specs.declared.operation.Op.{Op as Operation};
ghost use Rattle.restriction.specs.Restriction.{left_by};
ghost use Rattle.reason_clauses.specs.Makers.{read_by};
ghost use Rattle.reason_counting.specs.Tallies.{IsTallyOf, IsTallyOfTrace};

use restriction::left_value::left_at;
use trace_semantics::held_value::is_held;
use trace_semantics::operation::Op;
use trace_semantics::trace::Trace;

/// The updates of a location among some operations that read a value there, the operations that leave it there, and whether any
/// writes the location.
#[derive(Clone, Copy, Debug, PartialEq, Eq)]
pub struct Tally {
    /// Number of the updates that read the value there.
    pub wanting: usize,
    /// Number of the operations that leave the value there, updates among them.
    pub leaving: usize,
    /// Whether any of the operations writes the location, be it another value.
    pub is_written: bool,
}

/// Returns what the operation reads at the location, if it reads there.
fn read_at(op: &Op, location: &[u8]) -> Option<u64>
    ensures { result ≡ read_by location.now op.now }
{
    if op.location().as_bytes() == location {
        op.value_read()
    } else {
        None
    }
}

/// The tally of no operation.
fn nothing(location: &[u8], value: u64) -> Tally
    ensures { IsTallyOf location.now value [] result }
{
    Tally {
        wanting: 0,
        leaving: 0,
        is_written: false,
    }
}

/// The tally of one operation.
fn tally_of_one(op: &Op, location: &[u8], value: u64) -> Tally
    ensures { IsTallyOf location.now value (op.now ∷ []) result }
{
    let left = left_at(op, location);
    let is_written = left.is_some();
    let is_wanting = is_held(read_at(op, location), value) && is_written;
    Tally {
        wanting: usize::from(is_wanting),
        leaving: usize::from(is_held(left, value)),
        is_written,
    }
}

/// The tally of the operations of two.
fn together(first: Tally, second: Tally) -> Tally
    requires wanting { first.wanting + second.wanting < 2 ^ 64 }
    requires leaving { first.leaving + second.leaving < 2 ^ 64 }
    ensures { (location : List ℕ) (value : ℕ) (front back : List Operation) → IsTallyOf location value front first → IsTallyOf location value back second → IsTallyOf location value (front ++ back) result }
{
    Tally {
        wanting: first.wanting + second.wanting,
        leaving: first.leaving + second.leaving,
        is_written: first.is_written || second.is_written,
    }
}

/// The tally of these operations.
fn tally_of_operations(operations: &[Op], location: &[u8], value: u64) -> Tally
    ensures { IsTallyOf location.now value operations.now result }
{
    let mut tally = nothing(location, value);
    for k in 0..operations.len() {
        tally = together(tally, tally_of_one(&operations[k], location, value));
    }
    tally
}

/// The tally of all operations of the trace.
pub fn tally_of(trace: &Trace, location: &[u8], value: u64) -> Tally
    ensures { IsTallyOfTrace trace.now location.now value result }
{
    trace.recall_invariant();
    let processes = trace.processes();
    let mut tally = nothing(location, value);
    for q in 0..processes.len() {
        let operations = processes[q].operations.as_slice();
        tally = together(tally, tally_of_operations(operations, location, value));
    }
    tally
}
