//! The command `survey TRACE [--cert FILE] [--names FILE] [--part FILE] [--budget N] [--workers N] [--progress]
//! [--picture FILE] [--hint FILE]`.

ghost use Rattle.std.specs.Prelude.{◌≡◌, IfOk, IsSome, Some, codes, false, option_map};
ghost use Rattle.clap.specs.Words.{app_of, first_value, found_of};
ghost use Rattle.clap.specs.declared.builder.command.Command.TheViews.{out-Command};
ghost use Rattle.command_line.specs.Arguments.{HasFlag, HasNumber, HasWorkers, all_texts};
ghost use Rattle.command_line.specs.CommandLine.{AsksWith, survey_app};

use crate::arguments::{
    flag_of, optional_path_argument, optional_text_of, picture_argument, progress_argument,
    text_of, trace_argument,
};
use crate::building::{CommandHelp, new_command, with_two};
use crate::line::{CommandLine, Line, SurveyFiles, SurveyNumbers, command_line_of};
use crate::numbers::{SEARCHERS_HELP, budget_of, number_argument, workers_argument, workers_of};
use clap::{ArgMatches, Command};
use std::alloc::{AllocError, Global};

const HELP: CommandHelp = CommandHelp {
    name: "survey",
    about: "Decides whether a long trace is sequentially consistent, by a survey",
    example: "TRACE has up to 1048576 operations; if it is '-', standard input is read.
The answer is one of
    CONSISTENT, and a legal schedule of all operations, one name a line;
    INCONSISTENT operations=N cubes=M, and the N names of a core: the part that
        they make up, and so TRACE, has no legal schedule, as M proofs show;
    INCONSISTENT cubes=M alone: no core was found, but a search refuted TRACE;
    UNKNOWN placed=N undecided=M: nothing is shown, and the survey came so far.
A written FILE is made first, or stays as it was if nothing belongs there.
A hint is a schedule, as of 'tools/from-log --hint', which may be wrong.

Example, which can be pasted:
    printf 'vsc 1\\nproc P\\nW x 1\\nW y 1\\nproc Q\\nR y 1\\nR x 2\\n' > whole.trace
    vsc survey whole.trace --cert whole.cert --names whole.names
    vsc recheck whole.trace whole.cert --part whole.names

Exit status:
    0  the answer is CONSISTENT
    1  the answer is INCONSISTENT
    2  the command line, the trace or the hint is refused
    3  the answer is UNKNOWN
    4  a file or a standard stream failed",
};

const CERT_HELP: &str = "Writes the proofs of the core's part to FILE";

const NAMES_HELP: &str = "Writes the names of the core to FILE, one a line";

const PART_HELP: &str = "Writes the core's part to FILE, as a trace";

const STEPS_HELP: &str = "Most steps, 0 to 1000000000";

const HINT_HELP: &str = "Reads a schedule, maybe a legal one, and begins there";

/// The command, as `clap` takes it.
pub fn new_survey_command<'a>(alloc: Global) -> Result<Command<'a>, AllocError>
    ensures app { IfOk result (λ c. app_of c ≡ survey_app) }
    ensures local { IfOk result (λ c. (out-Command c).has_globals ≡ false) }
{
    let trace = trace_argument(alloc);
    let cert = optional_path_argument(alloc, "cert", "FILE", CERT_HELP);
    let command = with_two(new_command(alloc, HELP), trace, cert)?;
    let names = optional_path_argument(alloc, "names", "FILE", NAMES_HELP);
    let part = optional_path_argument(alloc, "part", "FILE", PART_HELP);
    let command = with_two(command, names, part)?;
    let budget = number_argument(alloc, "budget", "1000000000", 0, 1_000_000_000, STEPS_HELP);
    let workers = workers_argument(alloc, SEARCHERS_HELP);
    let command = with_two(command, budget, workers)?;
    let progress = progress_argument(alloc);
    let picture = picture_argument(alloc);
    let command = with_two(command, progress, picture)?;
    let hint = optional_path_argument(alloc, "hint", "FILE", HINT_HELP);
    command.arg(hint)
}

// The files that were given.
fn files_of<'a>(matches: &ArgMatches<'a>) -> SurveyFiles<'a>
    ensures cert { first_value (found_of matches.now) (codes "cert") ≡ option_map (λ path. path.now) result.cert }
    ensures names { first_value (found_of matches.now) (codes "names") ≡ option_map (λ path. path.now) result.names }
    ensures part { first_value (found_of matches.now) (codes "part") ≡ option_map (λ path. path.now) result.part }
    ensures hint { first_value (found_of matches.now) (codes "hint") ≡ option_map (λ path. path.now) result.hint }
{
    SurveyFiles {
        cert: optional_text_of(matches, "cert"),
        names: optional_text_of(matches, "names"),
        part: optional_text_of(matches, "part"),
        hint: optional_text_of(matches, "hint"),
    }
}

/// Gives what the matches of the command ask for.
pub fn survey_line<'a>(matches: &ArgMatches<'a>) -> CommandLine<'a>
    requires trace { IsSome (first_value (found_of matches.now) (codes "trace")) }
    requires budget { HasNumber (codes "budget") 0 1000000000 (found_of matches.now) }
    requires workers { HasWorkers (found_of matches.now) }
    requires progress { HasFlag (codes "progress") (found_of matches.now) }
    requires explain { HasFlag (codes "explain") (found_of matches.now) }
    requires no_explain { HasFlag (codes "no-explain") (found_of matches.now) }
    ensures { AsksWith (Some (codes "survey")) (first_value (found_of matches.now)) (all_texts (found_of matches.now)) result }
{
    let numbers = SurveyNumbers {
        workers: workers_of(matches),
        budget: budget_of(matches),
    };
    let line = Line::Survey {
        trace: text_of(matches, "trace"),
        files: files_of(matches),
        numbers,
        progress: flag_of(matches, "progress"),
    };
    command_line_of(matches, line)
}
