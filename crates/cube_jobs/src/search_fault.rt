//! Why a search has no results.

use text_lines::fault::FaultCause;
use text_lines::plain_fault::PlainFault;

/// The fault of a search.
#[derive(Clone, Copy, Debug, PartialEq, Eq)]
pub enum SearchCause {
    /// The way from or to a worker was cut.
    Cut,
    /// A worker could not be started.
    NoThread,
}

/// The reason why a search has no results: its fault, or that memory ran out.
pub type SearchFault = PlainFault<SearchCause>;

impl FaultCause for SearchCause {
    ghost use Rattle.cube_jobs.specs.SearchCauses.{cause_number, cause_name};

    ghost number_of = { cause_number };

    ghost name_of = { cause_name };

    // From 2 on: 1 is no cause, since it says that memory ran out.
    fn number(&self) -> u8 {
        match self {
            SearchCause::Cut => 2,
            SearchCause::NoThread => 3,
        }
    }

    fn name(&self) -> &'static str {
        match self {
            SearchCause::Cut => "Cut",
            SearchCause::NoThread => "NoThread",
        }
    }
}
