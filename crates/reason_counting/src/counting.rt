//! There are fewer sources of a value than operations that want one each.

ghost use Rattle.std.specs.Prelude.{◌≡◌, ◌&&◌, [], length, OnOk, IfErr, if◌then◌else◌};
ghost use Rattle.text_lines.specs.declared.plain_fault.PlainFault.TheVariants.{For};
ghost use Rattle.trace_semantics.specs.Judgement.{is_held};
ghost use Rattle.trace_semantics.specs.Trace.{value_of};
ghost use Rattle.order_reasons.specs.Orders.{HoldsOfSchedules};
ghost use Rattle.reason_clauses.specs.declared.cause.ReasonCause.TheVariants.{EnoughSources};
ghost use Rattle.reason_counting.specs.Counts.{needs_of, sources_of, AreTooFew, AreEnough};
ghost use Rattle.reason_counting.specs.Tallies.{IsTallyOfTrace};

use crate::tally::{Tally, tally_of};
use reason_clauses::cause::{ReasonCause, ReasonRefusal};
use reason_clauses::held_at::is_held_at;
use trace_semantics::trace::Trace;

/// Returns whether the location is written and ends with the value.
fn is_end_wanting(trace: &Trace, location: &[u8], value: u64, is_written: bool) -> bool
    ensures { result ≡ (is_held (value_of trace.now.final_values location.now) value && is_written) }
{
    is_written && is_held_at(trace.final_values(), location, value)
}

/// One, if this holds.
fn one_if(holds: bool) -> usize
    ensures { result ≡ (if holds then 1 else 0) }
{
    usize::from(holds)
}

/// The number of those that want the value.
fn count_needs(trace: &Trace, location: &[u8], value: u64, tally: Tally) -> usize
    requires { IsTallyOfTrace trace.now location.now value tally }
    ensures { result ≡ length (needs_of trace.now location.now value) }
{
    trace.recall_invariant();
    tally.wanting + one_if(is_end_wanting(trace, location, value, tally.is_written))
}

/// The number of sources of the value.
fn count_sources(trace: &Trace, location: &[u8], value: u64, tally: Tally) -> usize
    requires { IsTallyOfTrace trace.now location.now value tally }
    ensures { result ≡ length (sources_of trace.now location.now value) }
{
    trace.recall_invariant();
    tally.leaving + one_if(is_held_at(trace.initial(), location, value))
}

/// Ok exactly if more updates of the location read the value than operations leave it there. Then the trace has no legal schedule: the
/// clause without orders holds. The initial value counts as a source, if it is this one, and the location's end as one that wants a
/// source, if the location is written and ends with the value.
pub fn too_few_sources(trace: &Trace, location: &[u8], value: u64) -> Result<(), ReasonRefusal>
    ensures holds { OnOk result (HoldsOfSchedules trace.now []) }
    ensures few { OnOk result (AreTooFew trace.now location.now value) }
    ensures enough { IfErr result (λ refusal. (refusal ≡ For EnoughSources) × AreEnough trace.now location.now value) }
{
    trace.recall_invariant();
    let tally = tally_of(trace, location, value);
    let needs = count_needs(trace, location, value, tally);
    let sources = count_sources(trace, location, value, tally);
    if sources < needs {
        Ok(())
    } else {
        Err(ReasonRefusal::For(ReasonCause::EnoughSources))
    }
}
