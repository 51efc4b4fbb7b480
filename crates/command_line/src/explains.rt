//! When a command explains its answer or its refusal.

ghost use Rattle.std.specs.Prelude.{◌≡◌, codes};
ghost use Rattle.clap.specs.Words.{first_value, found_of};
ghost use Rattle.command_line.specs.Arguments.{HasFlag};
ghost use Rattle.command_line.specs.CommandLine.{AsksToExplain, is_explained};

use crate::arguments::flag_of;
use clap::ArgMatches;

/// When a command explains its answer or its refusal.
#[derive(Clone, Copy, Debug)]
pub enum Explains {
    /// If standard error is a terminal.
    IfTerminal,
    /// Wherever standard error goes.
    Always,
    /// On a terminal neither.
    Never,
}

impl Explains {
    /// Returns whether an explanation is wanted, given whether standard error is a terminal.
    pub fn is_wanted(self, is_terminal: bool) -> bool
        ensures { result ≡ is_explained is_terminal self }
    {
        match self {
            Explains::IfTerminal => is_terminal,
            Explains::Always => true,
            Explains::Never => false,
        }
    }
}

/// Gives what the two flags ask for. `clap` does not say which of them came last, so `--explain` stands if both are there.
pub fn explains_of(matches: &ArgMatches<'_>) -> Explains
    requires explain { HasFlag (codes "explain") (found_of matches.now) }
    requires no_explain { HasFlag (codes "no-explain") (found_of matches.now) }
    ensures { AsksToExplain (first_value (found_of matches.now)) result }
{
    if flag_of(matches, "explain") {
        Explains::Always
    } else if flag_of(matches, "no-explain") {
        Explains::Never
    } else {
        Explains::IfTerminal
    }
}
