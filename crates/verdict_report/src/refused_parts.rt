//! How a refusal of a part becomes one of an engine.
//!
//! An engine is what a command does, from bytes to bytes. Its parts are readers, checks and searches, mostly of other crates, each with a fault of its own.
//! Engines end a call of a part with `?`, which goes by these conversions.

ghost use Rattle.std.specs.Prelude.{◌≡◌};

use crate::fault::Fault;
use crate::reading::ReadFault;
use certificate::CertCause;
use cnf_text::CnfCause;
use cube_jobs::SearchFault;
use dimacs::{Failed, SinkFault};
use lrat_check::lrat_fault::LratCause;
use lrat_check::refusal::StepFault;
use model_text::ModelCause;
use reason_check::reasons_fault::ReasonsFault;
use reducer::reduce_fault::ReduceCause;
use schedule_decode::decode_fault::DecodeCause;
use schedule_text::schedule_fault::ScheduleCause;
use std::alloc::AllocError;
use text_lines::fault::{FaultCause, PlacedFault as PartFault};
use text_lines::plain_fault::PlainFault;
use trace_part::part_fault::PartCause;
use trace_text::trace_fault::TraceCause;

/// The causes of a part, which have an area among the faults of engines.
pub trait FaultArea: FaultCause {
    ghost use Rattle.std.specs.Prelude.{◌≡◌, ℕ};
    ghost use Rattle.verdict_report.specs.declared.fault.Fault.{Fault};

    ghost refusal: { Self → ℕ → Fault };

    /// The fault of an engine whose part refuses for this cause, at this place.
    fn refused(self, place: usize) -> Fault
        ensures { result ≡ refusal self place };
}

impl<C: FaultArea> From<PartFault<C>> for Fault {
    ghost use Rattle.std.specs.Prelude.{◌≡◌};
    ghost use Rattle.verdict_report.specs.Fault.{fault_of_part};

    ghost from_gives = { λ fault e. e ≡ fault_of_part C.refusal fault };

    fn from(fault: PartFault<C>) -> Fault {
        match fault {
            PartFault::OutOfMemory => Fault::OutOfMemory,
            PartFault::At(cause, place) => cause.refused(place),
        }
    }
}

impl FaultArea for TraceCause {
    ghost use Rattle.verdict_report.specs.declared.fault.Fault.TheVariants.{Trace};

    ghost refusal = { Trace };

    fn refused(self, line: usize) -> Fault {
        Fault::Trace(self, line)
    }
}

impl FaultArea for ScheduleCause {
    ghost use Rattle.verdict_report.specs.declared.fault.Fault.TheVariants.{Schedule};

    ghost refusal = { Schedule };

    fn refused(self, line: usize) -> Fault {
        Fault::Schedule(self, line)
    }
}

impl FaultArea for PartCause {
    ghost use Rattle.verdict_report.specs.declared.fault.Fault.TheVariants.{Part as Choice};

    ghost refusal = { Choice };

    fn refused(self, line: usize) -> Fault {
        Fault::Part(self, line)
    }
}

impl FaultArea for ModelCause {
    ghost use Rattle.verdict_report.specs.declared.fault.Fault.TheVariants.{Model};

    ghost refusal = { Model };

    fn refused(self, line: usize) -> Fault {
        Fault::Model(self, line)
    }
}

impl FaultArea for CnfCause {
    ghost use Rattle.verdict_report.specs.declared.fault.Fault.TheVariants.{Cnf};

    ghost refusal = { Cnf };

    fn refused(self, line: usize) -> Fault {
        Fault::Cnf(self, line)
    }
}

impl FaultArea for ReduceCause {
    ghost use Rattle.verdict_report.specs.declared.fault.Fault.TheVariants.{Reduce};

    ghost refusal = { Reduce };

    fn refused(self, left: usize) -> Fault {
        Fault::Reduce(self, left)
    }
}

impl FaultArea for DecodeCause {
    ghost use Rattle.verdict_report.specs.declared.fault.Fault.TheVariants.{Decode};

    ghost refusal = { Decode };

    fn refused(self, clause: usize) -> Fault {
        Fault::Decode(self, clause)
    }
}

impl FaultArea for LratCause {
    ghost use Rattle.verdict_report.specs.declared.fault.Fault.TheVariants.{Lrat};

    ghost refusal = { Lrat };

    fn refused(self, line: usize) -> Fault {
        Fault::Lrat(self, line)
    }
}

impl FaultArea for StepFault {
    ghost use Rattle.verdict_report.specs.declared.fault.Fault.TheVariants.{Check};

    ghost refusal = { Check };

    fn refused(self, step: usize) -> Fault {
        Fault::Check(self, step)
    }
}

impl FaultArea for CertCause {
    ghost use Rattle.verdict_report.specs.declared.fault.Fault.TheVariants.{Cert};

    ghost refusal = { Cert };

    fn refused(self, place: usize) -> Fault {
        Fault::Cert(self, place)
    }
}

impl From<ReadFault> for Fault {
    ghost use Rattle.std.specs.Prelude.{◌≡◌};
    ghost use Rattle.verdict_report.specs.Fault.{fault_of_reading};

    ghost from_gives = { λ fault e. e ≡ fault_of_reading fault };

    fn from(fault: ReadFault) -> Fault {
        match fault {
            ReadFault::OutOfMemory => Fault::OutOfMemory,
            ReadFault::Device => Fault::Device,
            ReadFault::TooLong => Fault::InputTooLong,
        }
    }
}

impl From<SearchFault> for Fault {
    ghost use Rattle.std.specs.Prelude.{◌≡◌};
    ghost use Rattle.verdict_report.specs.Fault.{fault_of_search};

    ghost from_gives = { λ fault e. e ≡ fault_of_search fault };

    fn from(fault: SearchFault) -> Fault {
        match fault {
            PlainFault::OutOfMemory => Fault::OutOfMemory,
            PlainFault::For(cause) => Fault::Search(cause),
        }
    }
}

impl From<SinkFault> for Fault {
    ghost use Rattle.std.specs.Prelude.{◌≡◌};
    ghost use Rattle.verdict_report.specs.Fault.{fault_of_sink};

    ghost from_gives = { λ fault e. e ≡ fault_of_sink fault };

    fn from(fault: SinkFault) -> Fault {
        match fault {
            SinkFault::OutOfMemory => Fault::OutOfMemory,
            SinkFault::Device => Fault::Device,
        }
    }
}

/// A certificate of reasons ends with a derivation. What is wrong with that is said as of any other LRAT proof, in its areas.
impl From<ReasonsFault> for Fault {
    ghost use Rattle.std.specs.Prelude.{◌≡◌};
    ghost use Rattle.verdict_report.specs.Fault.{fault_of_reasons};

    ghost from_gives = { λ fault e. e ≡ fault_of_reasons fault };

    fn from(fault: ReasonsFault) -> Fault {
        match fault {
            ReasonsFault::OutOfMemory => Fault::OutOfMemory,
            ReasonsFault::Line(cause, line) => Fault::Reasons(cause, line),
            ReasonsFault::Lrat(cause, line) => Fault::Lrat(cause, line),
            ReasonsFault::Step(fault, step) => Fault::Check(fault, step),
        }
    }
}

impl From<AllocError> for Fault {
    ghost use Rattle.std.specs.Prelude.{◌≡◌};
    ghost use Rattle.verdict_report.specs.declared.fault.Fault.TheVariants.{OutOfMemory};

    ghost from_gives = { λ _ e. e ≡ OutOfMemory };

    fn from(_error: AllocError) -> Fault {
        Fault::OutOfMemory
    }
}

impl From<Failed> for Fault {
    ghost use Rattle.std.specs.Prelude.{◌≡◌};
    ghost use Rattle.verdict_report.specs.declared.fault.Fault.TheVariants.{Device};

    ghost from_gives = { λ _ e. e ≡ Device };

    fn from(_failed: Failed) -> Fault {
        Fault::Device
    }
}
