//! When the operations of a process had ended, so that the last that had before some time is found by bisection.

ghost use Rattle.std.specs.Prelude.{◌≡◌, ◌≤◌, ℕ, List, true, false, nat_le, IfOk, length};
ghost use Rattle.std.specs.List.Sorted.{IsPartitionedBy, IsPartitionPoint};
ghost use Rattle.trace_semantics.specs.declared.operation.Op.{Op as Listed};
ghost use Rattle.forced_order.specs.Times as times;

use crate::times::span_in;
use std::alloc::{AllocError, Global};
use std::marker::Model;
use trace_semantics::operation::{Op, Span};
use trace_semantics::trace::Trace;

/// When it had ended; without times the latest time that can be written. No start is above that, so an operation without times never counts as
/// ended.
fn end_of(span: Option<Span>) -> u64
    ensures { result ≡ times.end_of span }
{
    match span {
        Some(span) => span.end,
        None => u64::MAX,
    }
}

/// Returns the lower of two numbers.
fn lower_of(a: u64, b: u64) -> u64
    ensures { times.IsLower a b result }
{
    if a < b { a } else { b }
}

/// Of the operations of a process the least end of the last one, of the last two, and so on.
#[derive(Drop)]
pub struct LeastEnds {
    /// Element i is the least end of the last i + 1 operations, so no element is above an earlier one.
    ends: Vec<u64>,
}

impl Model for LeastEnds {
    ghost use Rattle.std.specs.Prelude.{List, ℕ};

    ghost Value = { List ℕ };

    ghost view = { λ least. least.ends.items };
}

impl LeastEnds {
    ghost use Rattle.std.specs.Prelude.{◌≡◌, IfOk, List};
    ghost use Rattle.trace_semantics.specs.declared.operation.Op.{Op as Listed};
    ghost use Rattle.forced_order.specs.Times.{AreLeastEnds, IsLastEnded};

    /// Returns the least ends of these operations.
    fn of_operations(alloc: Global, ops: &[Op]) -> Result<LeastEnds, AllocError>
        ensures { IfOk result (AreLeastEnds ops.now) }
    {
        let mut ends = Vec::with_capacity(alloc, ops.len())?;
        let mut least = u64::MAX;
        for i in 0..ops.len() {
            // from the last operation to the first; places count from 1
            least = lower_of(end_of(span_in(ops, ops.len() - i)), least);
            ends.push(least)?;
        }
        Ok(LeastEnds { ends })
    }

    /// Returns the place of the last operation that had ended before the span; 0 if none had.
    pub fn last_ended(&self, span: Span) -> usize
        ensures { (ops : List Listed) → AreLeastEnds ops self.now → IsLastEnded ops span result }
    {
        last_of(self.ends.as_slice(), span)
    }

    /// Returns the least end of this many of the last operations. No property rests on it. If that is no number of operations of the process, as 0
    /// when none is left, the answer is `u64::MAX`, below no start.
    pub fn of_last(&self, count: usize) -> u64 {
        if 0 < count && count <= self.ends.len() {
            self.ends[count - 1]
        } else {
            u64::MAX
        }
    }
}

/// Returns how many of the least ends are not before the start, where none is before it after one that is not.
fn count_from(ends: &[u64], start: u64) -> usize
    ensures bound { result ≤ length ends.now }
    ensures point { IsPartitionedBy (λ (end : ℕ). nat_le start end) ends.now → IsPartitionPoint (λ (end : ℕ). nat_le start end ≡ true) (λ (end : ℕ). nat_le start end ≡ false) ends.now result }
{
    ends.partition_point(|end| start <= *end)
}

/// Returns the place of the last operation that had ended before the span; 0 if none had. None of the last `count` operations had ended. The one
/// before these had, since it alone makes the next least end smaller.
fn last_of(ends: &[u64], span: Span) -> usize
    ensures { (ops : List Listed) → times.AreLeastEnds ops ends.now → times.IsLastEnded ops span result }
{
    let count = count_from(ends, span.start);
    ends.len() - count
}

/// Returns the least ends of each process.
pub fn ends_of(alloc: Global, trace: &Trace) -> Result<Vec<LeastEnds>, AllocError>
    ensures { IfOk result (λ ends. times.AreEnds trace.now.processes ends.items) }
{
    let processes = trace.processes();
    let mut ends = Vec::with_capacity(alloc, processes.len())?;
    for k in 0..processes.len() {
        ends.push(LeastEnds::of_operations(alloc, processes[k].operations.as_slice())?)?;
    }
    Ok(ends)
}
