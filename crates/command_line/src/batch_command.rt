//! The command `batch FILE.. [--workers N] [--split N] [--budget N] [--json] [--schedules] [--keep FOLDER]`.

ghost use Rattle.std.specs.Prelude.{◌≡◌, IfErr, IfOk, Some, codes, false, option_map};
ghost use Rattle.clap.specs.Values.{bool_text};
ghost use Rattle.clap.specs.Words.{app_of, first_value, found_of};
ghost use Rattle.clap.specs.declared.builder.command.Command.TheViews.{out-Command};
ghost use Rattle.clap.specs.declared.error.kind.ErrorKind.TheVariants.{OutOfMemory};
ghost use Rattle.command_line.specs.Arguments.{HasFlag, HasNumber, HasWorkers, all_texts};
ghost use Rattle.command_line.specs.CommandLine.{AsksWith, batch_app};

use crate::arguments::{
    flag_argument, flag_of, optional_path_argument, optional_text_of, paths_argument, texts_of,
};
use crate::building::{CommandHelp, new_command, with_two};
use crate::line::{BatchNumbers, BatchOutput, CommandLine, Line, command_line_of};
use crate::line_fault::LineFault;
use crate::numbers::{
    budget_argument, budget_of, split_argument, split_of, workers_argument, workers_of,
};
use clap::{ArgMatches, Command};
use std::alloc::{AllocError, Global};

const HELP: CommandHelp = CommandHelp {
    name: "batch",
    about: "Decides many traces of one file or more, a line for each",
    example: "A trace begins at each line whose first word is 'vsc'. The line for a trace is
its file, a colon, its number in the file, a blank, and one of
    CONSISTENT
    INCONSISTENT cubes=N, or operations=N and more for a long trace
    UNKNOWN open=N, or placed=N undecided=N for a long trace
    refused: .., as other commands refuse a trace; lines are those of the file
Traces of which at most 160 operations are left are decided as by 'vsc verify',
and others as by 'vsc survey', which also explain an answer. '-' is standard
input. Of a file that cannot be read to its end, or with a trace of more than
268,000,000 bytes, a last line says so; files after it are decided as well.
With --json each line is an object: file, number, line, verdict, the numbers of
the verdict, and what else is known, as the core and the sentences of --explain.
With --keep each INCONSISTENT leaves files in FOLDER, named after its file and
number: its trace, its certificate, a picture, and the names of its part.

Example, which can be pasted:
    printf 'vsc 1\\nproc P\\nW x 1\\nvsc 1\\nproc P\\nR x 1\\n' | vsc batch -
It prints '-:1 CONSISTENT' and '-:2 INCONSISTENT cubes=1'.

Exit status, of which the first of 4, 1, 2, 3 counts:
    0  each answer is CONSISTENT
    1  an answer is INCONSISTENT
    2  the command line, a file or a trace is refused
    3  an answer is UNKNOWN
    4  a file or a standard stream failed",
};

const FILES_HELP: &str = "Files with traces, one after the other";

const WORKERS_HELP: &str = "How many threads decide traces, 1 to 8";

const JSON_HELP: &str = "Writes each line as an object of JSON";

const SCHEDULES_HELP: &str = "Puts the schedule of each CONSISTENT into its object";

const KEEP_HELP: &str = "Keeps what shows an INCONSISTENT in FOLDER, new or empty";

/// The command, as `clap` takes it.
pub fn new_batch_command<'a>(alloc: Global) -> Result<Command<'a>, AllocError>
    ensures app { IfOk result (λ c. app_of c ≡ batch_app) }
    ensures local { IfOk result (λ c. (out-Command c).has_globals ≡ false) }
{
    let traces = paths_argument(alloc, "traces", "FILE", FILES_HELP);
    let workers = workers_argument(alloc, WORKERS_HELP);
    let command = with_two(new_command(alloc, HELP), traces, workers)?;
    let split = split_argument(alloc);
    let budget = budget_argument(alloc);
    let command = with_two(command, split, budget)?;
    let json = flag_argument(alloc, "json", "json", JSON_HELP);
    let schedules = flag_argument(alloc, "schedules", "schedules", SCHEDULES_HELP);
    let command = with_two(command, json, schedules)?;
    let keep = optional_path_argument(alloc, "keep", "FOLDER", KEEP_HELP);
    command.arg(keep)
}

// What is written beside the verdicts.
fn output_of<'a>(matches: &ArgMatches<'a>) -> BatchOutput<'a>
    requires json { HasFlag (codes "json") (found_of matches.now) }
    requires schedules { HasFlag (codes "schedules") (found_of matches.now) }
    ensures json { first_value (found_of matches.now) (codes "json") ≡ Some (bool_text result.json) }
    ensures schedules { first_value (found_of matches.now) (codes "schedules") ≡ Some (bool_text result.schedules) }
    ensures keep { first_value (found_of matches.now) (codes "keep") ≡ option_map (λ path. path.now) result.keep }
{
    BatchOutput {
        json: flag_of(matches, "json"),
        schedules: flag_of(matches, "schedules"),
        keep: optional_text_of(matches, "keep"),
    }
}

/// Gives what the matches of the command ask for.
pub fn batch_line<'a>(alloc: Global, matches: &ArgMatches<'a>) -> Result<CommandLine<'a>, LineFault>
    requires workers { HasWorkers (found_of matches.now) }
    requires split { HasNumber (codes "split") 0 10 (found_of matches.now) }
    requires budget { HasNumber (codes "budget") 0 1000000000 (found_of matches.now) }
    requires json { HasFlag (codes "json") (found_of matches.now) }
    requires schedules { HasFlag (codes "schedules") (found_of matches.now) }
    requires explain { HasFlag (codes "explain") (found_of matches.now) }
    requires no_explain { HasFlag (codes "no-explain") (found_of matches.now) }
    ensures asks { IfOk result (AsksWith (Some (codes "batch")) (first_value (found_of matches.now)) (all_texts (found_of matches.now))) }
    ensures memory { IfErr result (λ kind. kind ≡ OutOfMemory) }
{
    let numbers = BatchNumbers {
        workers: workers_of(matches),
        split: split_of(matches),
        budget: budget_of(matches),
    };
    let line = Line::Batch {
        traces: texts_of(alloc, matches, "traces")?,
        numbers,
        output: output_of(matches),
    };
    Ok(command_line_of(matches, line))
}
