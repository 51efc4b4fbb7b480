//! The outcome of a batch.

ghost use Rattle.std.specs.Prelude.{◌≡◌};
ghost use Rattle.batch_report.specs.Outcome.{is_device, is_failure, is_no, is_unknown, no_tally, outcome_of_tally, refusal_in, tally_with, tally_with_all};

use crate::piece_verdict::PieceVerdict;
use verdict_report::{Fault, Status};

/// What of the verdicts so far counts for the outcome.
#[derive(Clone, Copy)]
pub struct VerdictTally {
    /// Whether a device failed. It is kept apart from the refusals, since it outweighs all else, and only the first refusal is kept.
    pub has_failed: bool,
    /// Whether some trace has no legal schedule.
    pub has_no: bool,
    /// The first refusal.
    pub refusal: Option<Fault>,
    /// Whether some trace is not decided.
    pub has_unknown: bool,
}

/// Returns whether the fault is that a device failed.
fn is_device(fault: &Fault) -> bool
    ensures { result ≡ is_device fault.now }
{
    matches!(fault, Fault::Device)
}

/// Returns whether a device failed.
fn is_failure(verdict: &PieceVerdict) -> bool
    ensures { result ≡ is_failure verdict.now }
{
    match verdict {
        PieceVerdict::Refused(fault) => is_device(fault),
        _ => false,
    }
}

/// Returns whether the trace has no legal schedule.
fn is_no(verdict: &PieceVerdict) -> bool
    ensures { result ≡ is_no verdict.now }
{
    matches!(
        verdict,
        PieceVerdict::Refuted { .. }
            | PieceVerdict::RefutedCore { .. }
            | PieceVerdict::Reasoned { .. }
    )
}

/// Returns whether the trace is not decided.
fn is_unknown(verdict: &PieceVerdict) -> bool
    ensures { result ≡ is_unknown verdict.now }
{
    matches!(
        verdict,
        PieceVerdict::Open { .. } | PieceVerdict::Undecided { .. }
    )
}

/// The refusal of the piece, if it is refused.
fn refusal_in(verdict: &PieceVerdict) -> Option<Fault>
    ensures { result ≡ refusal_in verdict.now }
{
    match verdict {
        PieceVerdict::Refused(fault) => Some(*fault),
        _ => None,
    }
}

impl VerdictTally {
    /// Of no verdict.
    pub fn new() -> VerdictTally
        ensures { result ≡ no_tally }
    {
        VerdictTally {
            has_failed: false,
            has_no: false,
            refusal: None,
            has_unknown: false,
        }
    }

    /// With one more verdict.
    pub(crate) fn with(self, verdict: &PieceVerdict) -> VerdictTally
        ensures { result ≡ tally_with self verdict.now }
    {
        let refusal = match self.refusal {
            Some(fault) => Some(fault),
            None => refusal_in(verdict),
        };
        VerdictTally {
            has_failed: self.has_failed || is_failure(verdict),
            has_no: self.has_no || is_no(verdict),
            refusal,
            has_unknown: self.has_unknown || is_unknown(verdict),
        }
    }

    /// With these verdicts.
    pub(crate) fn with_all(self, verdicts: &[PieceVerdict]) -> VerdictTally
        ensures { result ≡ tally_with_all self verdicts.now }
    {
        let mut tally = self;
        for verdict in verdicts {
            tally = tally.with(verdict);
        }
        tally
    }

    /// The outcome: that a device failed, or else that some trace has no legal schedule, or else the first refusal, or else that some trace is
    /// not decided, or else that each has a legal schedule.
    pub fn outcome(self) -> Result<Status, Fault>
        ensures { result ≡ outcome_of_tally self }
    {
        if self.has_failed {
            return Err(Fault::Device);
        }
        if self.has_no {
            return Ok(Status::No);
        }
        if let Some(fault) = self.refusal {
            return Err(fault);
        }
        if self.has_unknown {
            return Ok(Status::Unknown);
        }
        Ok(Status::Yes)
    }
}
