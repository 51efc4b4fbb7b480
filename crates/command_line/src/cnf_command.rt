//! The command `cnf TRACE [--workers N]`.

ghost use Rattle.std.specs.Prelude.{◌≡◌, IfOk, IsSome, Some, codes, false};
ghost use Rattle.clap.specs.Words.{app_of, first_value, found_of};
ghost use Rattle.clap.specs.declared.builder.command.Command.TheViews.{out-Command};
ghost use Rattle.command_line.specs.CommandLine.{AsksWith, cnf_app};
ghost use Rattle.command_line.specs.Arguments.{HasFlag, HasWorkers, all_texts};

use crate::arguments::{text_of, trace_argument};
use crate::building::{CommandHelp, new_command, with_two};
use crate::line::{CommandLine, Line, command_line_of};
use crate::numbers::{workers_argument, workers_of};
use clap::{ArgMatches, Command};
use std::alloc::{AllocError, Global};

const HELP: CommandHelp = CommandHelp {
    name: "cnf",
    about: "Writes the formula of a trace as DIMACS text",
    example: "The text goes to standard output. The trace alone fixes it. If TRACE is '-',
standard input is read.

Example, which can be pasted:
    printf 'vsc 1\\nproc P\\nW x 1\\nproc Q\\nR x 1\\n' | vsc cnf -
Its text is:
    p cnf 2 2
    2 0
    -2 1 0

Exit status:
    0  the text was written
    2  the command line or the trace is refused
    4  a file or a standard stream failed",
};

const WORKERS_HELP: &str = "How many threads may make the text, 1 to 8";

/// The command, as `clap` takes it.
pub fn new_cnf_command<'a>(alloc: Global) -> Result<Command<'a>, AllocError>
    ensures app { IfOk result (λ c. app_of c ≡ cnf_app) }
    ensures local { IfOk result (λ c. (out-Command c).has_globals ≡ false) }
{
    let trace = trace_argument(alloc);
    let workers = workers_argument(alloc, WORKERS_HELP);
    with_two(new_command(alloc, HELP), trace, workers)
}

/// Gives what the matches of the command ask for.
pub fn cnf_line<'a>(matches: &ArgMatches<'a>) -> CommandLine<'a>
    requires trace { IsSome (first_value (found_of matches.now) (codes "trace")) }
    requires workers { HasWorkers (found_of matches.now) }
    requires explain { HasFlag (codes "explain") (found_of matches.now) }
    requires no_explain { HasFlag (codes "no-explain") (found_of matches.now) }
    ensures { AsksWith (Some (codes "cnf")) (first_value (found_of matches.now)) (all_texts (found_of matches.now)) result }
{
    let line = Line::Cnf {
        trace: text_of(matches, "trace"),
        workers: workers_of(matches),
    };
    command_line_of(matches, line)
}
