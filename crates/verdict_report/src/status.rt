//! How an engine ends.

ghost use Rattle.std.specs.Prelude.{◌≡◌};
ghost use Rattle.verdict_report.specs.Fault.{exit_status_of, status_after};

use crate::fault::Fault;
use trace_semantics::judgement::Judgement;

/// The answer of an engine that does not refuse.
#[derive(Clone, Copy, Debug, PartialEq, Eq)]
pub enum Status {
    /// The schedule is legal, the proof accepted, the trace consistent, or the text written.
    Yes,
    /// The schedule is illegal, or the trace inconsistent.
    No,
    /// The search has not decided.
    Unknown,
}

impl Status {
    /// The status that goes with a judgement.
    pub fn after(judgement: Judgement) -> Status
        ensures { result ≡ status_after judgement }
    {
        match judgement {
            Judgement::Legal => Status::Yes,
            Judgement::Illegal(_, _) => Status::No,
        }
    }
}

/// The exit status of the program: 0 for yes, 1 for no, 2 for a refusal, 3 for unknown, 4 for a fault of the device.
pub fn exit_status(outcome: &Result<Status, Fault>) -> u8
    ensures { result ≡ exit_status_of outcome.now }
{
    match outcome {
        Ok(Status::Yes) => 0,
        Ok(Status::No) => 1,
        Ok(Status::Unknown) => 3,
        Err(Fault::Device) => 4,
        Err(_) => 2,
    }
}
