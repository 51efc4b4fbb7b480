//! What is said of a piece.

ghost use Rattle.std.specs.Prelude.{◌≡◌};
ghost use Rattle.batch_report.specs.PieceVerdicts.{verdict_of_decision, verdict_of_surveyed};

use survey_verdict::Surveyed;
use trace_decision::Decision;
use verdict_report::Fault;

/// What is said of a piece of a text, which should be a trace.
#[derive(Clone, Copy)]
pub enum PieceVerdict {
    /// The trace has a legal schedule.
    Consistent,
    /// It has none, as a refutation shows, whose number of cubes this is.
    Refuted { cubes: u32 },
    /// It has none, since the part of a core of this number of operations has none, and the refutation of the part has this number of cubes.
    RefutedCore { operations: usize, cubes: u32 },
    /// It has none, as a certificate of reasons shows, whose lines name this number of operations and make this number of clauses.
    Reasoned { operations: usize, reasons: usize },
    /// The search has left this number of cubes open.
    Open { left: usize },
    /// Nothing is decided. The survey has placed this number of operations at most, and this number of reads and final values had more than one
    /// possible source.
    Undecided { placed: u32, undecided: u32 },
    /// The piece is no trace, or there was no memory for it.
    Refused(Fault),
}

/// Gives the verdict of a decision.
pub(crate) fn verdict_of_decision(decision: &Decision) -> PieceVerdict
    ensures { result ≡ verdict_of_decision decision.now }
{
    match decision {
        Decision::Consistent(_) => PieceVerdict::Consistent,
        Decision::Inconsistent(refutation) => PieceVerdict::Refuted {
            cubes: refutation.tree.leaves(),
        },
        Decision::Unknown(cubes) => PieceVerdict::Open {
            left: cubes.as_slice().len(),
        },
    }
}

/// Gives the verdict of a survey.
pub(crate) fn verdict_of_surveyed(surveyed: &Surveyed) -> PieceVerdict
    ensures { result ≡ verdict_of_surveyed surveyed.now }
{
    match surveyed {
        Surveyed::Decided(decision) => verdict_of_decision(decision),
        Surveyed::Refuted(core) => PieceVerdict::RefutedCore {
            operations: core.names.names().len(),
            cubes: core.refutation.tree.leaves(),
        },
        Surveyed::Reasoned(reasons) => PieceVerdict::Reasoned {
            operations: reasons.operations,
            reasons: reasons.clauses,
        },
        Surveyed::Undecided(extent) => PieceVerdict::Undecided {
            placed: extent.placed,
            undecided: extent.undecided,
        },
    }
}
