//! The check of a certificate of reasons.

ghost use Rattle.std.specs.Prelude.{◌<◌, ◌+◌, ◌^◌, length, IfErr, IfOk, OnOk};
ghost use Rattle.trace_semantics.specs.Legal.{HasNoSchedule};
ghost use Rattle.reason_check.specs.Accepted.{IsAcceptedReasons};
ghost use Rattle.reason_check.specs.Reading.{IsDerivationFor};
ghost use Rattle.reason_check.specs.Refused.{IsRefusedDerivation, IsRefusedReasons};
ghost use Rattle.reason_check.specs.Taken.{AreOver};

use crate::clause_lines::{DerivationText, read_clauses};
use crate::laws::accepted_has_no_schedule;
use crate::reasons_fault::ReasonsFault;
use lrat_check::checker::check;
use lrat_check::lrat_reader::read_lrat;
use order_clauses::reason_list::ReasonList;
use std::alloc::Global;
use trace_semantics::trace::Trace;

/// A certificate that shows that a trace has no legal schedule.
#[derive(Clone, Copy, Debug, PartialEq, Eq)]
pub struct AcceptedReasons {
    /// The number of its clauses.
    pub clauses: usize,
}

/// Checks that the derivation refutes the clauses.
fn check_derivation(
    alloc: Global,
    list: ReasonList,
    derivation: DerivationText<'_>,
) -> Result<(), ReasonsFault>
    requires over { AreOver list }
    requires fits { derivation.before + length derivation.text.now < 2 ^ 63 }
    ensures refutes { OnOk result (IsDerivationFor list.clauses.items derivation.entry.text.now) }
    ensures refused { IfErr result (IsRefusedDerivation list.clauses.items derivation.entry.before derivation.entry.text.now) }
{
    let steps = match read_lrat(alloc, derivation.text) {
        Ok(steps) => steps,
        Err(fault) => return Err(ReasonsFault::of_lrat(fault, derivation.before)),
    };
    let formula = list.into_formula()?;
    check(alloc, &formula, &[], &steps)?;
    Ok(())
}

/// Reads the lines of the certificate, and checks the derivation that follows, unless one of their clauses is empty.
fn read_and_check<'a>(
    alloc: Global,
    trace: &'a Trace,
    text: &'a [u8],
) -> Result<AcceptedReasons, ReasonsFault>
    ensures accepted { IfOk result (λ reasons. IsAcceptedReasons trace.now text.now reasons.clauses) }
    ensures refused { IfErr result (IsRefusedReasons trace.now text.now) }
{
    let mut list = ReasonList::new(alloc);
    let end = read_clauses(alloc, trace, text, &mut list)?;
    let clauses = list.count();
    match end {
        Some(derivation) => {
            check_derivation(alloc, list, derivation)?;
            Ok(AcceptedReasons { clauses })
        }
        None => Ok(AcceptedReasons { clauses }),
    }
}

/// Checks that the certificate shows that the trace has no legal schedule. Nothing of it is taken on trust: each line makes a clause
/// that follows from the trace, or is refused, and the derivation is checked against these clauses.
pub fn check_reasons<'a>(
    alloc: Global,
    trace: &'a Trace,
    text: &'a [u8],
) -> Result<AcceptedReasons, ReasonsFault>
    ensures accepted { IfOk result (λ reasons. IsAcceptedReasons trace.now text.now reasons.clauses) }
    ensures sound { OnOk result (HasNoSchedule trace.now) }
    ensures refused { IfErr result (IsRefusedReasons trace.now text.now) }
{
    accepted_has_no_schedule();
    trace.recall_invariant();
    let reasons = read_and_check(alloc, trace, text)?;
    Ok(reasons)
}
