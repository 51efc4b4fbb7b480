//! The command `part TRACE NAMES [--names]`.

ghost use Rattle.std.specs.Prelude.{◌≡◌, IfOk, IsSome, Some, codes, false};
ghost use Rattle.clap.specs.Words.{app_of, first_value, found_of};
ghost use Rattle.clap.specs.declared.builder.command.Command.TheViews.{out-Command};
ghost use Rattle.command_line.specs.Arguments.{HasFlag, all_texts};
ghost use Rattle.command_line.specs.CommandLine.{AsksWith, part_app};

use crate::arguments::{flag_argument, flag_of, text_of};
use crate::building::CommandHelp;
use crate::line::{CommandLine, Line, command_line_of};
use crate::path_commands::{PathCommand, PathHelp, TRACE, new_path_command};
use clap::{ArgMatches, Command};
use std::alloc::{AllocError, Global};

const PART: PathCommand = PathCommand {
    help: CommandHelp {
        name: "part",
        about: "Writes the part of a trace that some of its operations make up",
        example: "The part goes to standard output, as a trace. If it has no legal schedule, TRACE
has none, whatever was chosen. A read is left out, and an update becomes a
write, if an operation from which the value may be is not named. One of the two
files may be '-', standard input.

Example, which can be pasted:
    printf 'vsc 1\\nproc P\\nW x 1\\nW y 1\\nproc Q\\nR y 1\\nR x 2\\n' > whole.trace
    printf 'Q.2\\nP.1\\n' | vsc part whole.trace -
The answer is, line by line: vsc 1, proc P, W x 1, proc Q, R x 2.

Exit status:
    0  the part was written
    2  the command line or a file is refused
    4  a file or a standard stream failed",
    },
    first: TRACE,
    second: PathHelp {
        id: "names",
        value_name: "NAMES",
        help: "A file with names of operations, one a line, in any order",
    },
};

const SHOW_NAMES_HELP: &str = "Writes '# Q.2', the name in TRACE, before each operation";

/// The command, as `clap` takes it.
pub fn new_part_command<'a>(alloc: Global) -> Result<Command<'a>, AllocError>
    ensures app { IfOk result (λ c. app_of c ≡ part_app) }
    ensures local { IfOk result (λ c. (out-Command c).has_globals ≡ false) }
{
    // Its id is another one than its name, as `names` is the id of the path NAMES.
    let shows_names = flag_argument(alloc, "show-names", "names", SHOW_NAMES_HELP);
    new_path_command(alloc, PART)?.arg(shows_names)
}

/// Gives what the matches of the command ask for.
pub fn part_line<'a>(matches: &ArgMatches<'a>) -> CommandLine<'a>
    requires trace { IsSome (first_value (found_of matches.now) (codes "trace")) }
    requires names { IsSome (first_value (found_of matches.now) (codes "names")) }
    requires names_flag { HasFlag (codes "show-names") (found_of matches.now) }
    requires explain { HasFlag (codes "explain") (found_of matches.now) }
    requires no_explain { HasFlag (codes "no-explain") (found_of matches.now) }
    ensures { AsksWith (Some (codes "part")) (first_value (found_of matches.now)) (all_texts (found_of matches.now)) result }
{
    let line = Line::Part {
        trace: text_of(matches, "trace"),
        names: text_of(matches, "names"),
        shows_names: flag_of(matches, "show-names"),
    };
    command_line_of(matches, line)
}
