//! How a trace is searched.
ghost use Rattle.std.specs.Prelude.{◌≡◌};
ghost use Rattle.command_line.specs.CommandLine.{AreSearchNumbers, AreSurveyNumbers};
ghost use Rattle.command_run.specs.CommandRun.{search_of, survey_of};

use command_host::SearchRequest;
use command_line::{SearchNumbers, SurveyNumbers};
use cube_jobs::Options;

/// The split of a search after a survey: on how many variables it is split at first, so that there are up to 8 cubes. This and the next two
/// are what `verify` takes without options, and must be changed with its defaults.
const SURVEY_SPLIT: u32 = 3;

/// The budget of a search after a survey: conflicts for each cube.
const SURVEY_CONFLICTS: u64 = 100_000;

/// The rounds of a search after a survey.
const SURVEY_ROUNDS: u32 = 1;

/// The search of these numbers, which are within the ranges that `Options` takes, so none of them is refused.
pub(crate) fn search_of(numbers: SearchNumbers, tells_progress: bool) -> SearchRequest
    requires { AreSearchNumbers numbers }
    ensures { result ≡ search_of numbers tells_progress }
{
    let options = Options::new(
        numbers.workers,
        numbers.split,
        numbers.budget,
        numbers.rounds,
    )
    .unwrap();
    SearchRequest {
        options,
        tells_progress,
        steps: None,
    }
}

/// The survey of these numbers, and the searches after it, which go about their work as those of `verify` without options.
pub(crate) fn survey_of(survey: SurveyNumbers, tells_progress: bool) -> SearchRequest
    requires { AreSurveyNumbers survey }
    ensures { result ≡ survey_of survey tells_progress }
{
    let options = Options::new(
        survey.workers,
        SURVEY_SPLIT,
        SURVEY_CONFLICTS,
        SURVEY_ROUNDS,
    )
    .unwrap();
    SearchRequest {
        options,
        tells_progress,
        steps: Some(survey.budget),
    }
}
