//! How a search is asked for.

use cube_jobs::Options;

/// The options of a search, and whether its progress is reported.
#[derive(Clone, Copy)]
pub struct SearchRequest {
    /// How it goes about its work.
    pub options: Options,
    /// Whether its progress is reported on standard error.
    pub tells_progress: bool,
    /// The number of steps after which the survey before it is given up: that of `survey`, and nothing for `verify`, which has no survey.
    pub steps: Option<u64>,
}
