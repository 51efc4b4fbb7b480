//! The command `verify TRACE [--cert FILE] [--workers N] [--split N] [--budget N] [--rounds N] [--progress]
//! [--picture FILE]`.

ghost use Rattle.std.specs.Prelude.{◌≡◌, IfOk, IsSome, Some, codes, false};
ghost use Rattle.clap.specs.Words.{app_of, first_value, found_of};
ghost use Rattle.clap.specs.declared.builder.command.Command.TheViews.{out-Command};
ghost use Rattle.command_line.specs.Arguments.{HasFlag, HasNumber, HasWorkers, all_texts};
ghost use Rattle.command_line.specs.CommandLine.{AsksWith, verify_app};

use crate::arguments::{
    flag_of, optional_path_argument, optional_text_of, picture_argument, progress_argument,
    text_of, trace_argument,
};
use crate::building::{CommandHelp, new_command, with_two};
use crate::line::{CommandLine, Line, SearchNumbers, command_line_of};
use crate::numbers::{
    SEARCHERS_HELP, budget_argument, budget_of, number_argument, rounds_of, split_argument,
    split_of, workers_argument, workers_of,
};
use clap::{ArgMatches, Command};
use std::alloc::{AllocError, Global};

const HELP: CommandHelp = CommandHelp {
    name: "verify",
    about: "Decides whether a trace is sequentially consistent",
    example: "The answer is one of
    CONSISTENT, and a legal schedule of all operations, one name a line;
    INCONSISTENT cubes=N: there is none; each of N cases has a checked proof;
    UNKNOWN open=N: the search was given up. A legal schedule can only be in one
        of the N cubes below, which are literals of the clauses of 'vsc cnf'.
If TRACE is '-', standard input is read. A FILE is made or emptied first, and
stays empty if nothing belongs there.

Example, which can be pasted:
    printf 'vsc 1\\nproc P\\nW x 1\\nproc Q\\nR x 1\\n' | vsc verify -
The answer is CONSISTENT, and below it P.1 and Q.1.

Exit status:
    0  the answer is CONSISTENT
    1  the answer is INCONSISTENT
    2  the command line or the trace is refused
    3  the answer is UNKNOWN
    4  a file or a standard stream failed",
};

const ROUNDS_HELP: &str = "Most rounds of the search, 1 to 4";

const CERT_HELP: &str = "Writes proofs of INCONSISTENT to FILE, for 'vsc recheck'";

/// The command, as `clap` takes it.
pub fn new_verify_command<'a>(alloc: Global) -> Result<Command<'a>, AllocError>
    ensures app { IfOk result (λ c. app_of c ≡ verify_app) }
    ensures local { IfOk result (λ c. (out-Command c).has_globals ≡ false) }
{
    let trace = trace_argument(alloc);
    let cert = optional_path_argument(alloc, "cert", "FILE", CERT_HELP);
    let command = with_two(new_command(alloc, HELP), trace, cert)?;
    let workers = workers_argument(alloc, SEARCHERS_HELP);
    let split = split_argument(alloc);
    let command = with_two(command, workers, split)?;
    let budget = budget_argument(alloc);
    let rounds = number_argument(alloc, "rounds", "1", 1, 4, ROUNDS_HELP);
    let command = with_two(command, budget, rounds)?;
    let progress = progress_argument(alloc);
    let picture = picture_argument(alloc);
    with_two(command, progress, picture)
}

/// Gives what the matches of the command ask for.
pub fn verify_line<'a>(matches: &ArgMatches<'a>) -> CommandLine<'a>
    requires trace { IsSome (first_value (found_of matches.now) (codes "trace")) }
    requires workers { HasWorkers (found_of matches.now) }
    requires split { HasNumber (codes "split") 0 10 (found_of matches.now) }
    requires budget { HasNumber (codes "budget") 0 1000000000 (found_of matches.now) }
    requires rounds { HasNumber (codes "rounds") 1 4 (found_of matches.now) }
    requires progress { HasFlag (codes "progress") (found_of matches.now) }
    requires explain { HasFlag (codes "explain") (found_of matches.now) }
    requires no_explain { HasFlag (codes "no-explain") (found_of matches.now) }
    ensures { AsksWith (Some (codes "verify")) (first_value (found_of matches.now)) (all_texts (found_of matches.now)) result }
{
    let numbers = SearchNumbers {
        workers: workers_of(matches),
        split: split_of(matches),
        budget: budget_of(matches),
        rounds: rounds_of(matches),
    };
    let line = Line::Verify {
        trace: text_of(matches, "trace"),
        cert: optional_text_of(matches, "cert"),
        numbers,
        progress: flag_of(matches, "progress"),
    };
    command_line_of(matches, line)
}
