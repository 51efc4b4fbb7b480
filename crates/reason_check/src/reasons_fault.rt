//! Why a certificate of reasons is refused.

use lrat_check::lrat_fault::{LratCause, LratFault};
use lrat_check::refusal::{Refusal, StepFault};
use reason_clauses::cause::{ReasonCause, ReasonRefusal};
use std::alloc::AllocError;

/// Why a certificate of reasons is refused: the first fault of its lines, then of the derivation's text, then of its steps.
#[derive(Clone, Copy, Debug, PartialEq, Eq)]
pub enum ReasonsFault {
    /// Memory ran out.
    OutOfMemory,
    /// What is wrong with a line before the derivation, and the number of the line, counted from 1.
    Line(ReasonCause, usize),
    /// What is wrong with a line of the derivation, and the number of the line in the certificate.
    Lrat(LratCause, usize),
    /// What is wrong with the first step of the derivation that fails, and its number, counted from 1.
    Step(StepFault, usize),
}

impl ReasonsFault {
    ghost use Rattle.std.specs.Prelude.{◌≡◌, ◌<◌, ◌+◌, ◌^◌, ℕ};
    ghost use Rattle.lrat_check.specs.declared.lrat_fault.LratCause.{LratCause};
    ghost use Rattle.reason_check.specs.Refused.{fault_of_line, fault_of_lrat};
    ghost use Rattle.text_lines.specs.declared.fault.PlacedFault.TheVariants.{At};

    /// The refusal of the line of this number.
    pub fn of_line(refusal: ReasonRefusal, line: usize) -> ReasonsFault
        ensures { result ≡ fault_of_line refusal line }
    {
        match refusal {
            ReasonRefusal::OutOfMemory => ReasonsFault::OutOfMemory,
            ReasonRefusal::For(cause) => ReasonsFault::Line(cause, line),
        }
    }

    /// The fault of the text of a derivation that begins after this number of lines.
    pub(crate) fn of_lrat(fault: LratFault, before: usize) -> ReasonsFault
        requires { (cause : LratCause) (line : ℕ) → fault ≡ At cause line → before + line < 2 ^ 64 }
        ensures { result ≡ fault_of_lrat before fault }
    {
        match fault {
            LratFault::OutOfMemory => ReasonsFault::OutOfMemory,
            LratFault::At(cause, line) => ReasonsFault::Lrat(cause, before + line),
        }
    }
}

impl From<Refusal> for ReasonsFault {
    ghost use Rattle.std.specs.Prelude.{◌≡◌};
    ghost use Rattle.reason_check.specs.Refused.{fault_of_step};

    ghost from_gives = { λ refusal fault. fault ≡ fault_of_step refusal };

    fn from(refusal: Refusal) -> ReasonsFault {
        match refusal {
            Refusal::OutOfMemory => ReasonsFault::OutOfMemory,
            Refusal::At(fault, step) => ReasonsFault::Step(fault, step),
        }
    }
}

impl From<AllocError> for ReasonsFault {
    ghost use Rattle.std.specs.Prelude.{◌≡◌};
    ghost use Rattle.reason_check.specs.declared.reasons_fault.ReasonsFault.TheVariants.{OutOfMemory};

    ghost from_gives = { λ _ fault. fault ≡ OutOfMemory };

    fn from(_error: AllocError) -> ReasonsFault {
        ReasonsFault::OutOfMemory
    }
}
