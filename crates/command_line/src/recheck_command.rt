//! The command `recheck TRACE CERT [--part NAMES]`.

ghost use Rattle.std.specs.Prelude.{◌≡◌, IfOk, IsSome, Some, codes, false};
ghost use Rattle.clap.specs.Words.{app_of, first_value, found_of};
ghost use Rattle.clap.specs.declared.builder.command.Command.TheViews.{out-Command};
ghost use Rattle.command_line.specs.Arguments.{HasFlag, all_texts};
ghost use Rattle.command_line.specs.CommandLine.{AsksWith, recheck_app};

use crate::arguments::{optional_path_argument, optional_text_of, text_of};
use crate::building::CommandHelp;
use crate::line::{CommandLine, Line, command_line_of};
use crate::path_commands::{PathCommand, PathHelp, TRACE, new_path_command};
use clap::{ArgMatches, Command};
use std::alloc::{AllocError, Global};

const RECHECK: PathCommand = PathCommand {
    help: CommandHelp {
        name: "recheck",
        about: "Checks a certificate that a trace has no legal schedule",
        example: "Nothing is searched for, and whoever wrote CERT is not trusted. With --part it
is one of the part that 'vsc part TRACE NAMES' writes. ACCEPTED always says that
TRACE itself has no legal schedule. One of the files may be '-', standard input.

Example, which can be pasted:
    printf 'vsc 1\\nproc P\\nR x 1\\n' > unread
    printf 'vsc-cert 1\\nleaf\\nproof 0\\n3 0 1 2 0\\nend\\n' | vsc recheck unread -
The answer is ACCEPTED cubes=1: there is one case, and its proof takes the
clauses 1 and -1 of the trace, since nothing writes what P reads.

Exit status:
    0  the answer is ACCEPTED
    2  the command line or a file is refused, or a proof is wrong or missing
    4  a file or a standard stream failed",
    },
    first: TRACE,
    second: PathHelp {
        id: "cert",
        value_name: "CERT",
        help: "A file with a certificate, as 'vsc verify --cert' writes it",
    },
};

const PART_HELP: &str = "Takes CERT as one of the part of TRACE that NAMES names";

/// The command, as `clap` takes it.
pub fn new_recheck_command<'a>(alloc: Global) -> Result<Command<'a>, AllocError>
    ensures app { IfOk result (λ c. app_of c ≡ recheck_app) }
    ensures local { IfOk result (λ c. (out-Command c).has_globals ≡ false) }
{
    let part = optional_path_argument(alloc, "part", "NAMES", PART_HELP);
    new_path_command(alloc, RECHECK)?.arg(part)
}

/// Gives what the matches of the command ask for.
pub fn recheck_line<'a>(matches: &ArgMatches<'a>) -> CommandLine<'a>
    requires trace { IsSome (first_value (found_of matches.now) (codes "trace")) }
    requires cert { IsSome (first_value (found_of matches.now) (codes "cert")) }
    requires explain { HasFlag (codes "explain") (found_of matches.now) }
    requires no_explain { HasFlag (codes "no-explain") (found_of matches.now) }
    ensures { AsksWith (Some (codes "recheck")) (first_value (found_of matches.now)) (all_texts (found_of matches.now)) result }
{
    let line = Line::Recheck {
        trace: text_of(matches, "trace"),
        cert: text_of(matches, "cert"),
        part: optional_text_of(matches, "part"),
    };
    command_line_of(matches, line)
}
