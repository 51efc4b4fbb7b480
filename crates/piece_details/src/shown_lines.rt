//! What the lines of a report name.
ghost use Rattle.std.specs.Prelude.{◌≡◌};
ghost use Rattle.piece_details.specs.Details.{lines_shown};

use survey_verdict::Surveyed;
use trace_decision::Decision;

/// What the lines of a report behind its first one name.
#[derive(Clone, Copy)]
pub enum ShownLines {
    /// The operations of a legal schedule, in its order.
    Schedule,
    /// The operations of a core, or those that a certificate of reasons names.
    Core,
    /// Cubes that are left open.
    OpenCubes,
    /// There are no such lines.
    NoLines,
}

/// Gives what the lines name of the report on what is decided.
pub(crate) fn lines_shown(surveyed: &Surveyed) -> ShownLines
    ensures { result ≡ lines_shown surveyed.now }
{
    match surveyed {
        Surveyed::Decided(Decision::Consistent(_)) => ShownLines::Schedule,
        Surveyed::Decided(Decision::Inconsistent(_)) => ShownLines::NoLines,
        Surveyed::Decided(Decision::Unknown(_)) => ShownLines::OpenCubes,
        Surveyed::Refuted(_) => ShownLines::Core,
        Surveyed::Reasoned(_) => ShownLines::Core,
        Surveyed::Undecided(_) => ShownLines::NoLines,
    }
}
