//! The command `refusals`.

ghost use Rattle.std.specs.Prelude.{◌≡◌, IfOk, Some, codes, false};
ghost use Rattle.clap.specs.Words.{app_of, first_value, found_of};
ghost use Rattle.clap.specs.declared.builder.command.Command.TheViews.{out-Command};
ghost use Rattle.command_line.specs.Arguments.{HasFlag, all_texts};
ghost use Rattle.command_line.specs.CommandLine.{AsksWith, refusals_app};

use crate::building::{CommandHelp, new_command};
use crate::line::{CommandLine, Line, command_line_of};
use clap::{ArgMatches, Command};
use std::alloc::{AllocError, Global};

const HELP: CommandHelp = CommandHelp {
    name: "refusals",
    about: "Lists all refusals, with a sentence on each",
    example: "A refusal is one line on standard error: 'refused: ', the file or the step that
it concerns, a number, a name, and usually 'at' and the number of a line. The
list goes to standard output, and no file is read.

Example, which can be pasted:
    vsc refusals | grep 'trace 4'

Exit status:
    0  the list was written
    2  the command line is refused
    4  standard output failed",
};

/// Builds the command `refusals` for `clap`, with no argument of its own. `new_program` adds `--explain` to it, as to each command, and
/// takes a `Result`, since others run out of memory while they are built.
pub fn new_refusals_command<'a>(alloc: Global) -> Result<Command<'a>, AllocError>
    ensures app { IfOk result (λ c. app_of c ≡ refusals_app) }
    ensures local { IfOk result (λ c. (out-Command c).has_globals ≡ false) }
{
    Ok(new_command(alloc, HELP))
}

/// Gives what the matches of the command ask for.
pub fn refusals_line<'a>(matches: &ArgMatches<'a>) -> CommandLine<'a>
    requires explain { HasFlag (codes "explain") (found_of matches.now) }
    requires no_explain { HasFlag (codes "no-explain") (found_of matches.now) }
    ensures { AsksWith (Some (codes "refusals")) (first_value (found_of matches.now)) (all_texts (found_of matches.now)) result }
{
    command_line_of(matches, Line::Refusals)
}
