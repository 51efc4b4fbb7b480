//! What a survey of a trace finds, and the trait of what makes one.
//!
//! What is found is untrusted, so nothing is promised of it.
#![tactic(auto)]

ghost use Rattle.std.specs.Prelude.{◌≤◌, ℕ, IfOk};
ghost use Rattle.surveyor.specs.declared.Overview.{Overview as Answer};
ghost use Rattle.trace_semantics.specs.Trace.{TraceValue};

use std::alloc::{AllocError, Global};
use trace_semantics::operation::OpName;
use trace_semantics::trace::Trace;

/// The progress of a survey, as numbers of operations, readers and steps.
#[derive(Clone, Copy)]
pub struct Extent {
    /// The most operations that were placed one after the other.
    pub placed: u32,
    /// The reads and final values that have more than one possible source.
    pub undecided: u32,
    /// The steps that it took.
    pub steps: u64,
}

/// A finding of a survey, which is untrusted. The caller judges the schedule, refutes the part of the core, or checks the certificate.
#[derive(Drop)]
pub enum Finding {
    /// A schedule that should be legal.
    Schedule(Vec<OpName>),
    /// Operations whose part should have no legal schedule.
    Core(Vec<OpName>),
    /// The text of a certificate of reasons that should be accepted for the trace.
    Reasons(Vec<u8>),
    /// None of these.
    Nothing,
}

/// The findings of a survey, and its progress.
#[derive(Drop)]
pub struct Overview {
    /// What is asked first.
    pub finding: Finding,
    /// What is asked if that shows nothing.
    pub otherwise: Finding,
    pub extent: Extent,
}

/// A surveyor: it looks over a trace for a schedule, or for operations by which it has none. Nothing is promised but that the call returns,
/// and that the steps which it reports are within its budget: what it finds may be wrong.
pub trait Surveyor {
    /// The most steps that it may report.
    ghost budget: { Self → ℕ };

    /// Whether it may find this in a trace: anything, unless it says otherwise. Clauses say by it that a finding is one of this surveyor.
    ghost finds: { Self → TraceValue → Answer → Type 0 } = { λ _ _ _. Unit {0} };

    /// The findings. The hint names operations in an order in which a schedule may have them. It may be wrong, and it is empty if there is none.
    fn survey(&self, alloc: Global, trace: &Trace, hint: &[OpName]) -> Result<Overview, AllocError>
        ensures found { IfOk result (λ overview. finds self.now trace.now overview) }
        ensures within { IfOk result (λ overview. overview.extent.steps ≤ budget self.now) };
}
