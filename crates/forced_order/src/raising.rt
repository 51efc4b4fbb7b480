//! Raises the rows of a trace along the steps of its forced order. The row of an operation has for each process the last place that is known to stand
//! before it; to raise it along a step is to take in the row of the operation that the step begins with. The pairs are the trace's before pairs,
//! by number: of each the trace says that the first operation stands before the second.
//!
//! `closing` raises rows along a walk first, which is enough unless steps are cyclic, and then by `raise_all`, which goes along every step and so shows that
//! none is left. Each call is made before `either` joins its answer, so once a row has risen the later steps are taken all the same.

ghost use Rattle.std.specs.Prelude.{◌≡◌, ◌≤◌, ◌<◌, ◌+◌, nat_le, Some, IsSome, length};
ghost use Rattle.std.specs.List.{slice_get};
ghost use Rattle.trace_semantics.specs.declared.trace.Process.{Process as Listed};
ghost use Rattle.trace_semantics.specs.declared.limits.Limits.TheVariants.{Large};
ghost use Rattle.trace_semantics.specs.Limits.{max_operations};
ghost use Rattle.trace_semantics.specs.Trace.{IsTrace};
ghost use Rattle.forced_order.specs.Closed.{AreClosed, AreEndedClosed, ArePairsClosed, AreProcessesClosed, AreStepsClosed, AreTimesClosed, IsClosedAfter, IsClosedStep, IsTimeClosed};
ghost use Rattle.forced_order.specs.Forced.{numbered_pairs};
ghost use Rattle.forced_order.specs.Raised.{IsPass};
ghost use Rattle.forced_order.specs.Times.{AreEnds, span_by_number};

use crate::least_ends::LeastEnds;
use crate::numbered::OperationNumber;
use crate::rows::{OrderRows, either};
use crate::times::span_by_number;
use crate::walk::OrderStep;
use trace_semantics::operation::Span;
use trace_semantics::trace::Trace;

/// Returns the number of operations of the process under this number; 0 if there is no such process.
fn count_of(trace: &Trace, k: usize) -> usize
    requires trace { IsTrace trace.now }
    ensures count { (p : Listed) → slice_get trace.now.processes k ≡ Some p → result ≡ length p.operations }
    ensures found { 1 ≤ result → IsSome (slice_get trace.now.processes k) }
    ensures few { result ≤ max_operations Large }
{
    match trace.processes().get(k) {
        Some(process) => process.operations.as_slice().len(),
        None => 0,
    }
}

/// Raises the row of the operation after this one in its process. Returns whether that was news.
fn raise_next(rows: &mut OrderRows, trace: &Trace, n: OperationNumber) -> bool
    requires trace { IsTrace trace.now }
    ensures { IsPass trace.now result rows.old rows.new (λ order. (p : Listed) → slice_get trace.now.processes n.process ≡ Some p → 1 ≤ n.place → n.place < length p.operations → IsClosedStep order n (record { process = n.process; place = n.place + 1 })) }
{
    let count = count_of(trace, n.process as usize);
    if 1 <= n.place && (n.place as usize) < count {
        let next = OperationNumber {
            process: n.process,
            place: n.place + 1,
        };
        rows.raise_from(n, next)
    } else {
        false
    }
}

/// Raises the row of the second operation of the pair under this number. Nothing is proved of the steps of a walk, so a number of no pair raises no row.
fn raise_pair(
    rows: &mut OrderRows,
    trace: &Trace,
    pairs: &[(OperationNumber, OperationNumber)],
    k: usize,
) -> bool
    requires trace { IsTrace trace.now }
    requires pairs { pairs.now ≡ numbered_pairs trace.now }
    ensures { IsPass trace.now result rows.old rows.new (λ order. (pair : OperationNumber × OperationNumber) → slice_get pairs.now k ≡ Some pair → IsClosedStep order pair.0 pair.1) }
{
    if k < pairs.len() {
        let (first, second) = pairs[k];
        rows.raise_from(first, second)
    } else {
        false
    }
}

/// Returns whether it is the place of an operation; places are counted from 1.
fn is_place(place: usize) -> bool
    ensures { result ≡ nat_le 1 place }
{
    1 <= place
}

/// Returns the operation of these numbers.
fn operation_of(process: usize, place: usize) -> OperationNumber
    requires process { process < 64 }
    requires place { place ≤ max_operations Large }
    ensures { result ≡ record { process = process; place = place } }
{
    OperationNumber {
        process: process as u16,
        place: place as u32,
    }
}

/// Raises the row of n from the last operation of a process that had ended before n began. The earlier ones of that process need no step of their
/// own: they stand before the last one, whose row brings theirs.
fn raise_after(
    rows: &mut OrderRows,
    trace: &Trace,
    ends: &[LeastEnds],
    process: usize,
    n: OperationNumber,
    span: Span,
) -> bool
    requires trace { IsTrace trace.now }
    requires ends { AreEnds trace.now.processes ends.now }
    requires within { process < length ends.now }
    requires span { span_by_number trace.now.processes n ≡ Some span }
    ensures { IsPass trace.now result rows.old rows.new (λ order. IsClosedAfter trace.now.processes order process n) }
{
    let place = ends[process].last_ended(span);
    if is_place(place) {
        let last = operation_of(process, place);
        rows.raise_from(last, n)
    } else {
        false
    }
}

/// Raises the row of n from the operations of all processes that had ended before n began.
fn raise_within(
    rows: &mut OrderRows,
    trace: &Trace,
    ends: &[LeastEnds],
    n: OperationNumber,
    span: Span,
) -> bool
    requires trace { IsTrace trace.now }
    requires ends { AreEnds trace.now.processes ends.now }
    requires span { span_by_number trace.now.processes n ≡ Some span }
    ensures { IsPass trace.now result rows.old rows.new (λ order. IsTimeClosed trace.now.processes order n) }
{
    let mut rose = false;
    for process in 0..ends.len() {
        let more = raise_after(rows, trace, ends, process, n, span);
        rose = either(rose, more);
    }
    rose
}

/// Raises the row of n from the operations that had ended before n began, if n has times.
fn raise_timed(rows: &mut OrderRows, trace: &Trace, ends: &[LeastEnds], n: OperationNumber) -> bool
    requires trace { IsTrace trace.now }
    requires ends { AreEnds trace.now.processes ends.now }
    ensures { IsPass trace.now result rows.old rows.new (λ order. IsTimeClosed trace.now.processes order n) }
{
    match span_by_number(trace, n) {
        Some(span) => raise_within(rows, trace, ends, n, span),
        None => false,
    }
}

/// Raises a row along one step of a walk.
fn raise_step(
    rows: &mut OrderRows,
    trace: &Trace,
    pairs: &[(OperationNumber, OperationNumber)],
    ends: &[LeastEnds],
    step: OrderStep,
) -> bool
    requires trace { IsTrace trace.now }
    requires pairs { pairs.now ≡ numbered_pairs trace.now }
    requires ends { AreEnds trace.now.processes ends.now }
    ensures { IsPass trace.now result rows.old rows.new (λ order. Unit {0}) }
{
    match step {
        OrderStep::Next(n) => raise_next(rows, trace, n),
        OrderStep::Pair(k) => raise_pair(rows, trace, pairs, k),
        OrderStep::Times(n) => raise_timed(rows, trace, ends, n),
    }
}

/// Raises rows along the steps of a walk, and returns whether one was lower.
pub fn raise_along(
    rows: &mut OrderRows,
    trace: &Trace,
    pairs: &[(OperationNumber, OperationNumber)],
    ends: &[LeastEnds],
    steps: &[OrderStep],
) -> bool
    requires trace { IsTrace trace.now }
    requires pairs { pairs.now ≡ numbered_pairs trace.now }
    requires ends { AreEnds trace.now.processes ends.now }
    ensures { IsPass trace.now result rows.old rows.new (λ order. Unit {0}) }
{
    let mut rose = false;
    for step in steps {
        let more = raise_step(rows, trace, pairs, ends, *step);
        rose = either(rose, more);
    }
    rose
}

/// Raises rows along the steps of a walk from the last to the first, and returns whether one was lower. Steps that go back in the walk, as
/// some do if steps are cyclic, are each taken before those that follow on them.
pub fn raise_back(
    rows: &mut OrderRows,
    trace: &Trace,
    pairs: &[(OperationNumber, OperationNumber)],
    ends: &[LeastEnds],
    steps: &[OrderStep],
) -> bool
    requires trace { IsTrace trace.now }
    requires pairs { pairs.now ≡ numbered_pairs trace.now }
    requires ends { AreEnds trace.now.processes ends.now }
    ensures { IsPass trace.now result rows.old rows.new (λ order. Unit {0}) }
{
    let mut rose = false;
    for k in 0..steps.len() {
        let more = raise_step(rows, trace, pairs, ends, steps[steps.len() - 1 - k]);
        rose = either(rose, more);
    }
    rose
}

/// Raises the rows of a process along its program order, and returns whether one was lower.
fn raise_process(rows: &mut OrderRows, trace: &Trace, process: u16) -> bool
    requires trace { IsTrace trace.now }
    ensures { IsPass trace.now result rows.old rows.new (λ order. (p : Listed) → slice_get trace.now.processes process ≡ Some p → AreStepsClosed order process (length p.operations)) }
{
    let count = count_of(trace, process as usize);
    let mut rose = false;
    // the last place, which is `count`, has none after it
    for place in 1..count {
        let n = OperationNumber {
            process,
            place: place as u32,
        };
        let more = raise_next(rows, trace, n);
        rose = either(rose, more);
    }
    rose
}

/// Raises rows along program order, and returns whether one was lower.
fn raise_processes(rows: &mut OrderRows, trace: &Trace) -> bool
    requires trace { IsTrace trace.now }
    ensures { IsPass trace.now result rows.old rows.new (AreProcessesClosed trace.now.processes) }
{
    let mut rose = false;
    for k in 0..trace.processes().len() {
        // a trace has at most 64 processes, so the cast loses nothing, here and in `raise_times`
        let more = raise_process(rows, trace, k as u16);
        rose = either(rose, more);
    }
    rose
}

/// Raises rows along the before pairs, and returns whether one was lower.
fn raise_pairs(
    rows: &mut OrderRows,
    trace: &Trace,
    pairs: &[(OperationNumber, OperationNumber)],
) -> bool
    requires trace { IsTrace trace.now }
    requires pairs { pairs.now ≡ numbered_pairs trace.now }
    ensures { IsPass trace.now result rows.old rows.new (ArePairsClosed pairs.now) }
{
    let mut rose = false;
    for k in 0..pairs.len() {
        let more = raise_pair(rows, trace, pairs, k);
        rose = either(rose, more);
    }
    rose
}

/// Raises the rows of a process along the steps of times, and returns whether one was lower.
fn raise_times_of(rows: &mut OrderRows, trace: &Trace, ends: &[LeastEnds], process: u16) -> bool
    requires trace { IsTrace trace.now }
    requires ends { AreEnds trace.now.processes ends.now }
    ensures { IsPass trace.now result rows.old rows.new (λ order. (p : Listed) → slice_get trace.now.processes process ≡ Some p → AreEndedClosed trace.now.processes order process (length p.operations)) }
{
    let count = count_of(trace, process as usize);
    let mut rose = false;
    for k in 0..count {
        let n = OperationNumber {
            process,
            place: (k + 1) as u32,
        };
        let more = raise_timed(rows, trace, ends, n);
        rose = either(rose, more);
    }
    rose
}

/// Raises rows along the steps of times, and returns whether one was lower.
fn raise_times(rows: &mut OrderRows, trace: &Trace, ends: &[LeastEnds]) -> bool
    requires trace { IsTrace trace.now }
    requires ends { AreEnds trace.now.processes ends.now }
    ensures { IsPass trace.now result rows.old rows.new (AreTimesClosed trace.now.processes) }
{
    let mut rose = false;
    for k in 0..trace.processes().len() {
        let more = raise_times_of(rows, trace, ends, k as u16);
        rose = either(rose, more);
    }
    rose
}

/// Raises rows along program order and the before pairs, and returns whether one was lower.
fn raise_said(
    rows: &mut OrderRows,
    trace: &Trace,
    pairs: &[(OperationNumber, OperationNumber)],
) -> bool
    requires trace { IsTrace trace.now }
    requires pairs { pairs.now ≡ numbered_pairs trace.now }
    ensures { IsPass trace.now result rows.old rows.new (λ order. AreProcessesClosed trace.now.processes order × ArePairsClosed (numbered_pairs trace.now) order) }
{
    let first = raise_processes(rows, trace);
    let second = raise_pairs(rows, trace, pairs);
    either(first, second)
}

/// Raises rows once along all steps of the forced order, and returns whether one was lower. If not, the rows say all that is forced.
pub fn raise_all(
    rows: &mut OrderRows,
    trace: &Trace,
    pairs: &[(OperationNumber, OperationNumber)],
    ends: &[LeastEnds],
) -> bool
    requires trace { IsTrace trace.now }
    requires pairs { pairs.now ≡ numbered_pairs trace.now }
    requires ends { AreEnds trace.now.processes ends.now }
    ensures { IsPass trace.now result rows.old rows.new (AreClosed trace.now) }
{
    let said = raise_said(rows, trace, pairs);
    let timed = raise_times(rows, trace, ends);
    either(said, timed)
}
