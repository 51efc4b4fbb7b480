//! What is decided of a trace with the help of a survey.

use surveyor::Extent;
use trace_decision::{Decision, Refutation};
use trace_part::part::TracePart;
use trace_semantics::schedule::Schedule;

/// Operations of a trace whose part has no legal schedule.
pub struct RefutedCore {
    /// Their names, by process and place, as the trace has them.
    pub names: Schedule,
    /// The part that they make up.
    pub part: TracePart,
    /// What shows that the part has no legal schedule.
    pub refutation: Refutation,
}

/// Drops each field. With a derived `Drop` every exit of a function that owns a core would drop their tables one by one, which is most of what
/// the proof of such a function would cost.
impl Drop for RefutedCore {
    fn drop(self) {
        let RefutedCore {
            names: _names,
            part: _part,
            refutation: _refutation,
        } = self;
    }
}

/// A certificate of reasons that was accepted for a trace.
pub struct ReasonCertificate {
    /// Its text.
    pub text: Vec<u8>,
    /// The number of clauses that its lines make.
    pub clauses: usize,
    /// The number of operations that its lines name.
    pub operations: usize,
    /// The names of these operations, by process and place, or none if they are more than 64.
    pub names: Schedule,
}

/// Drops each field, for the same reason.
impl Drop for ReasonCertificate {
    fn drop(self) {
        let ReasonCertificate {
            text: _text,
            clauses: _clauses,
            operations: _operations,
            names: _names,
        } = self;
    }
}

/// What is decided of a trace with the help of a survey.
pub enum Surveyed {
    /// What is shown of the trace as a whole.
    Decided(Decision),
    /// The trace has no legal schedule, since the part of this core has none.
    Refuted(RefutedCore),
    /// The trace has no legal schedule, since this certificate of reasons was accepted for it.
    Reasoned(ReasonCertificate),
    /// Nothing is shown. The survey came this far.
    Undecided(Extent),
}

/// Drops what it has, for the same reason.
impl Drop for Surveyed {
    fn drop(self) {
        match self {
            Surveyed::Decided(_decision) => {}
            Surveyed::Refuted(_core) => {}
            Surveyed::Reasoned(_reasons) => {}
            Surveyed::Undecided(_extent) => {}
        }
    }
}
