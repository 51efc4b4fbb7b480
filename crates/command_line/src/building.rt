//! How commands are put together.
//!
//! That a call of `arg` adds its argument, and no other, is proved by hand each time. So it is done here, for two at a time.

ghost use Rattle.std.specs.Prelude.{◌≡◌, ◌||◌, IfOk, false};
ghost use Rattle.clap.specs.Words.{app_of, new_app, rule_of, with_rule};
ghost use Rattle.clap.specs.declared.builder.command.Command.TheViews.{out-Command};
ghost use Rattle.command_line.specs.CommandLine.{explained};

use crate::arguments::flag_argument;
use clap::{Arg, Command};
use std::alloc::{AllocError, Global};

/// The name of a command, and what its help says.
#[derive(Clone, Copy)]
pub struct CommandHelp<'a> {
    /// The name.
    pub name: &'a str,
    /// The line on what the command does.
    pub about: &'a str,
    /// The text behind the list of options.
    pub example: &'a str,
}

/// A command of this name, which has no argument yet.
pub fn new_command<'a>(alloc: Global, help: CommandHelp<'a>) -> Command<'a>
    ensures app { app_of result ≡ new_app help.entry.name.now }
    ensures local { (out-Command result).has_globals ≡ false }
{
    Command::new(alloc, help.name)
        .about(help.about)
        .after_help(help.example)
}

/// The command with two more arguments.
pub fn with_two<'a>(
    command: Command<'a>,
    first: Arg<'a>,
    second: Arg<'a>,
) -> Result<Command<'a>, AllocError>
    requires first { first.global ≡ false }
    requires second { second.global ≡ false }
    ensures app { IfOk result (λ c. app_of c ≡ with_rule (with_rule (app_of command.entry) (rule_of first.entry)) (rule_of second.entry)) }
    ensures globals { IfOk result (λ c. (out-Command c).has_globals ≡ (out-Command command.entry).has_globals) }
{
    command.arg(first)?.arg(second)
}

/// The command with `--explain` and `--no-explain`, which each command has, and what its help says of the first.
pub fn with_explanation<'a>(
    alloc: Global,
    command: Command<'a>,
    help: &'a str,
) -> Result<Command<'a>, AllocError>
    ensures app { IfOk result (λ c. app_of c ≡ explained (app_of command.entry)) }
    ensures globals { IfOk result (λ c. (out-Command c).has_globals ≡ (out-Command command.entry).has_globals) }
{
    let explain = flag_argument(alloc, "explain", "explain", help);
    let no_explain = flag_argument(
        alloc,
        "no-explain",
        "no-explain",
        "Writes no notes, even if standard error is a terminal",
    );
    with_two(command, explain, no_explain)
}
