//! Options that have a number, and the numbers that were given for them.

ghost use Rattle.std.specs.Prelude.{◌≡◌, IsSomeAnd, codes, false};
ghost use Rattle.clap.specs.Words.{first_value, found_of, rule_of};
ghost use Rattle.command_line.specs.Arguments.{HasNumber, HasWorkers};
ghost use Rattle.command_line.specs.CommandLine.{IsNumberWithin, budget_rule, number_rule, split_rule, workers_rule};

use clap::builder::ValueParser;
use clap::{Arg, ArgMatches};
use std::alloc::Global;

/// What the help of `verify` and `survey` says of `--workers`.
pub const SEARCHERS_HELP: &str = "How many threads may search, 1 to 8";

const SPLIT_HELP: &str = "Splits first into 2^N cubes, 0 to 10";

const BUDGET_HELP: &str = "Most conflicts a cube, 0 to 1000000000";

/// `--workers N`.
pub fn workers_argument<'a>(alloc: Global, help: &'a str) -> Arg<'a>
    ensures rule { rule_of result ≡ workers_rule }
    ensures local { result.global ≡ false }
{
    Arg::new(alloc, "workers")
        .long("workers")
        .value_name("N")
        .default_value("4")
        .value_parser(clap::value_parser!(u32).range(1..=8))
        .help(help)
}

/// An option with a number in this range, and the text that stands for it where it is not given.
pub fn number_argument<'a>(
    alloc: Global,
    id: &'a str,
    default: &'a str,
    least: u64,
    most: u64,
    help: &'a str,
) -> Arg<'a>
    ensures rule { rule_of result ≡ number_rule id.entry.now default.entry.now least most }
    ensures local { result.global ≡ false }
{
    Arg::new(alloc, id)
        .long(id)
        .value_name("N")
        .default_value(default)
        .value_parser(ValueParser::unsigned(least, most))
        .help(help)
}

/// `--split N`.
pub fn split_argument<'a>(alloc: Global) -> Arg<'a>
    ensures rule { rule_of result ≡ split_rule }
    ensures local { result.global ≡ false }
{
    number_argument(alloc, "split", "3", 0, 10, SPLIT_HELP)
}

/// `--budget N`.
pub fn budget_argument<'a>(alloc: Global) -> Arg<'a>
    ensures rule { rule_of result ≡ budget_rule }
    ensures local { result.global ≡ false }
{
    number_argument(alloc, "budget", "100000", 0, 1_000_000_000, BUDGET_HELP)
}

/// The number of workers that was given, or else the one that stands for it.
pub fn workers_of(matches: &ArgMatches<'_>) -> u32
    requires { HasWorkers (found_of matches.now) }
    ensures { IsSomeAnd (first_value (found_of matches.now) (codes "workers"))
        (λ text. IsNumberWithin 1 8 text result) }
{
    matches.get_one::<u32>("workers").unwrap()
}

/// The depth of the first split that was given, or else the one that stands for it. Its text is read as a number once more; `clap` has taken it,
/// so it is one of the range, and the cast keeps it.
pub fn split_of(matches: &ArgMatches<'_>) -> u32
    requires { HasNumber (codes "split") 0 10 (found_of matches.now) }
    ensures { IsSomeAnd (first_value (found_of matches.now) (codes "split"))
        (λ text. IsNumberWithin 0 10 text result) }
{
    matches.get_one::<u64>("split").unwrap() as u32
}

/// The budget that was given, or else the one that stands for it: conflicts, or steps of a survey, whose option has the same name.
pub fn budget_of(matches: &ArgMatches<'_>) -> u64
    requires { HasNumber (codes "budget") 0 1000000000 (found_of matches.now) }
    ensures { IsSomeAnd (first_value (found_of matches.now) (codes "budget"))
        (λ text. IsNumberWithin 0 1000000000 text result) }
{
    matches.get_one::<u64>("budget").unwrap()
}

/// The number of rounds that was given, or else the one that stands for it.
pub fn rounds_of(matches: &ArgMatches<'_>) -> u32
    requires { HasNumber (codes "rounds") 1 4 (found_of matches.now) }
    ensures { IsSomeAnd (first_value (found_of matches.now) (codes "rounds"))
        (λ text. IsNumberWithin 1 4 text result) }
{
    matches.get_one::<u64>("rounds").unwrap() as u32
}
