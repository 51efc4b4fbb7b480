//! The commands that read two files and have no option of their own: `judge TRACE SCHEDULE`, `decode TRACE MODEL` and `lrat CNF PROOF`.

ghost use Rattle.std.specs.Prelude.{◌≡◌, IfOk, IsSome, Some, codes, false};
ghost use Rattle.clap.specs.Words.{app_of, first_value, found_of, new_app, rule_of, with_rule};
ghost use Rattle.clap.specs.declared.builder.command.Command.TheViews.{out-Command};
ghost use Rattle.command_line.specs.Arguments.{HasFlag, all_texts};
ghost use Rattle.command_line.specs.CommandLine.{AsksWith, required_path};

use crate::arguments::{TRACE_HELP, path_argument, text_of};
use crate::building::{CommandHelp, new_command, with_two};
use crate::line::{CommandLine, Line, command_line_of};
use clap::{Arg, ArgMatches, Command};
use std::alloc::{AllocError, Global};

/// A command that reads two files.
#[derive(Clone, Copy)]
pub struct PathCommand<'a> {
    /// The name, and what its help says.
    pub help: CommandHelp<'a>,
    /// The path that stands first.
    pub first: PathHelp<'a>,
    /// The path behind it.
    pub second: PathHelp<'a>,
}

/// The path of a file that a command reads, and what its help says of it.
#[derive(Clone, Copy)]
pub struct PathHelp<'a> {
    /// The id of the argument.
    pub id: &'a str,
    /// How usage and help name it.
    pub value_name: &'a str,
    /// The line on the file.
    pub help: &'a str,
}

/// `TRACE`.
pub const TRACE: PathHelp = PathHelp {
    id: "trace",
    value_name: "TRACE",
    help: TRACE_HELP,
};

/// `judge TRACE SCHEDULE`.
pub const JUDGE: PathCommand = PathCommand {
    help: CommandHelp {
        name: "judge",
        about: "Judges whether a schedule explains a trace",
        example: "One of the two files may be '-', standard input.

Example, which can be pasted:
    printf 'vsc 1\\nproc P\\nW x 1\\nproc Q\\nR x 1\\n' > hand-off.trace
    printf 'P.1\\nQ.1\\n' | vsc judge hand-off.trace -
The answer is LEGAL: P writes 1 to x, and then Q reads it.

Exit status:
    0  the answer is LEGAL
    1  the answer is ILLEGAL
    2  the command line or a file is refused
    4  a file or a standard stream failed",
    },
    first: TRACE,
    second: PathHelp {
        id: "schedule",
        value_name: "SCHEDULE",
        help: "A file with a schedule: the name of one operation a line",
    },
};

/// `decode TRACE MODEL`.
pub const DECODE: PathCommand = PathCommand {
    help: CommandHelp {
        name: "decode",
        about: "Turns a model of a trace's clause list into a schedule of the trace",
        example: "The schedule goes to standard output, one name a line, as 'vsc judge' reads it.
One of the two files may be '-', standard input.

Example, which can be pasted, with a model of the formula of 'vsc cnf':
    printf 'vsc 1\\nproc P\\nW x 1\\nproc Q\\nR x 1\\n' > hand-off.trace
    printf 'v 1 2 0\\n' | vsc decode hand-off.trace -
The answer is P.1, and below it Q.1.

Exit status:
    0  the schedule was written
    2  the command line or a file is refused, also if the answer is no model
    4  a file or a standard stream failed",
    },
    first: TRACE,
    second: PathHelp {
        id: "model",
        value_name: "MODEL",
        help: "A file with a solver's answer: 's' lines and 'v' lines",
    },
};

/// `lrat CNF PROOF`.
pub const LRAT: PathCommand = PathCommand {
    help: CommandHelp {
        name: "lrat",
        about: "Checks an LRAT proof that a formula has no model",
        example: "One of the two files may be '-', standard input.

Example, which can be pasted:
    printf 'p cnf 1 2\\n1 0\\n-1 0\\n' > both.cnf
    printf '3 0 1 2 0\\n' | vsc lrat both.cnf -
The answer is ACCEPTED: clauses 1 and 2 together give clause 3, which is empty.

Exit status:
    0  the answer is ACCEPTED
    2  the command line, a file or a step of the proof is refused
    4  a file or a standard stream failed",
    },
    first: PathHelp {
        id: "cnf",
        value_name: "CNF",
        help: "A file with a formula, as DIMACS text",
    },
    second: PathHelp {
        id: "proof",
        value_name: "PROOF",
        help: "A file with an LRAT proof",
    },
};

/// The argument for the path, which has to be given.
fn argument_of<'a>(alloc: Global, path: PathHelp<'a>) -> Arg<'a>
    ensures rule { rule_of result ≡ required_path path.entry.id.now }
    ensures local { result.global ≡ false }
{
    path_argument(alloc, path.id, path.value_name, path.help)
}

/// The command, as `clap` takes it.
pub fn new_path_command<'a>(
    alloc: Global,
    command: PathCommand<'a>,
) -> Result<Command<'a>, AllocError>
    ensures app { IfOk result (λ c. app_of c ≡ with_rule (with_rule (new_app command.entry.help.name.now) (required_path command.entry.first.id.now)) (required_path command.entry.second.id.now)) }
    ensures local { IfOk result (λ c. (out-Command c).has_globals ≡ false) }
{
    let first = argument_of(alloc, command.first);
    let second = argument_of(alloc, command.second);
    with_two(new_command(alloc, command.help), first, second)
}

/// Gives what the matches of `judge` ask for.
pub fn judge_line<'a>(matches: &ArgMatches<'a>) -> CommandLine<'a>
    requires trace { IsSome (first_value (found_of matches.now) (codes "trace")) }
    requires schedule { IsSome (first_value (found_of matches.now) (codes "schedule")) }
    requires explain { HasFlag (codes "explain") (found_of matches.now) }
    requires no_explain { HasFlag (codes "no-explain") (found_of matches.now) }
    ensures { AsksWith (Some (codes "judge")) (first_value (found_of matches.now)) (all_texts (found_of matches.now)) result }
{
    let line = Line::Judge {
        trace: text_of(matches, "trace"),
        schedule: text_of(matches, "schedule"),
    };
    command_line_of(matches, line)
}

/// Gives what the matches of `decode` ask for.
pub fn decode_line<'a>(matches: &ArgMatches<'a>) -> CommandLine<'a>
    requires trace { IsSome (first_value (found_of matches.now) (codes "trace")) }
    requires model { IsSome (first_value (found_of matches.now) (codes "model")) }
    requires explain { HasFlag (codes "explain") (found_of matches.now) }
    requires no_explain { HasFlag (codes "no-explain") (found_of matches.now) }
    ensures { AsksWith (Some (codes "decode")) (first_value (found_of matches.now)) (all_texts (found_of matches.now)) result }
{
    let line = Line::Decode {
        trace: text_of(matches, "trace"),
        model: text_of(matches, "model"),
    };
    command_line_of(matches, line)
}

/// Gives what the matches of `lrat` ask for.
pub fn lrat_line<'a>(matches: &ArgMatches<'a>) -> CommandLine<'a>
    requires cnf { IsSome (first_value (found_of matches.now) (codes "cnf")) }
    requires proof { IsSome (first_value (found_of matches.now) (codes "proof")) }
    requires explain { HasFlag (codes "explain") (found_of matches.now) }
    requires no_explain { HasFlag (codes "no-explain") (found_of matches.now) }
    ensures { AsksWith (Some (codes "lrat")) (first_value (found_of matches.now)) (all_texts (found_of matches.now)) result }
{
    let line = Line::Lrat {
        cnf: text_of(matches, "cnf"),
        proof: text_of(matches, "proof"),
    };
    command_line_of(matches, line)
}
