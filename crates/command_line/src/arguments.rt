//! What the commands share: arguments that are paths of files, flags, and what was given for one.

ghost use Rattle.std.specs.Prelude.{◌≡◌, IfOk, IsSome, Some, codes, false, option_map};
ghost use Rattle.clap.specs.Values.{bool_text};
ghost use Rattle.clap.specs.Walk.{texts};
ghost use Rattle.clap.specs.Words.{first_value, found_of, new_rule, rule_of};
ghost use Rattle.command_line.specs.Arguments.{HasFlag, all_texts};
ghost use Rattle.command_line.specs.CommandLine.{flag_rule, optional_path, picture_rule, progress_rule, required_path, required_paths};

use clap::{Arg, ArgAction, ArgMatches};
use std::alloc::{AllocError, Global};

/// What the help of most commands says of TRACE.
pub const TRACE_HELP: &str = "A file with a trace: what each process wrote and read";

const PROGRESS_HELP: &str = "Says on standard error how far the search is";

const PICTURE_HELP: &str = "Draws the answer into FILE, as SVG for a browser";

// An argument that takes one value, which usage and help name so.
fn valued_argument<'a>(alloc: Global, id: &'a str, value_name: &'a str, help: &'a str) -> Arg<'a>
    ensures rule { rule_of result ≡ record (new_rule id.entry.now) { value_names = 1 } }
    ensures local { result.global ≡ false }
{
    Arg::new(alloc, id).value_name(value_name).help(help)
}

/// An argument that is the path of a file. It stands at its place and has to be given.
pub fn path_argument<'a>(alloc: Global, id: &'a str, value_name: &'a str, help: &'a str) -> Arg<'a>
    ensures rule { rule_of result ≡ required_path id.entry.now }
    ensures local { result.global ≡ false }
{
    valued_argument(alloc, id, value_name, help).required(true)
}

/// An argument that is the paths of one file or more. They stand at its place, and one has to be given.
pub fn paths_argument<'a>(alloc: Global, id: &'a str, value_name: &'a str, help: &'a str) -> Arg<'a>
    ensures rule { rule_of result ≡ required_paths id.entry.now }
    ensures local { result.global ≡ false }
{
    path_argument(alloc, id, value_name, help).num_args(1..)
}

/// An option that is the path of a file, and that may be left out.
pub fn optional_path_argument<'a>(
    alloc: Global,
    id: &'a str,
    value_name: &'a str,
    help: &'a str,
) -> Arg<'a>
    ensures rule { rule_of result ≡ optional_path id.entry.now }
    ensures local { result.global ≡ false }
{
    valued_argument(alloc, id, value_name, help).long(id)
}

/// A flag, which is given by this name.
pub fn flag_argument<'a>(alloc: Global, id: &'a str, name: &'a str, help: &'a str) -> Arg<'a>
    ensures rule { rule_of result ≡ flag_rule id.entry.now name.entry.now }
    ensures local { result.global ≡ false }
{
    Arg::new(alloc, id)
        .long(name)
        .action(ArgAction::SetTrue)
        .help(help)
}

/// `TRACE`, the path of a trace.
pub fn trace_argument<'a>(alloc: Global) -> Arg<'a>
    ensures rule { rule_of result ≡ required_path (codes "trace") }
    ensures local { result.global ≡ false }
{
    path_argument(alloc, "trace", "TRACE", TRACE_HELP)
}

/// `--progress`.
pub fn progress_argument<'a>(alloc: Global) -> Arg<'a>
    ensures rule { rule_of result ≡ progress_rule }
    ensures local { result.global ≡ false }
{
    flag_argument(alloc, "progress", "progress", PROGRESS_HELP)
}

/// `--picture FILE`.
pub fn picture_argument<'a>(alloc: Global) -> Arg<'a>
    ensures rule { rule_of result ≡ picture_rule }
    ensures local { result.global ≡ false }
{
    optional_path_argument(alloc, "picture", "FILE", PICTURE_HELP)
}

/// The text of an argument, where one was given.
pub fn optional_text_of<'a>(matches: &ArgMatches<'a>, id: &str) -> Option<&'a str>
    ensures { first_value (found_of matches.now) id.now ≡ option_map (λ text. text.now) result }
{
    matches.get_str(id)
}

/// The text of an argument that was given.
pub fn text_of<'a>(matches: &ArgMatches<'a>, id: &str) -> &'a str
    requires { IsSome (first_value (found_of matches.now) id.now) }
    ensures { first_value (found_of matches.now) id.now ≡ Some result.now }
{
    matches.get_str(id).unwrap()
}

/// Returns whether a flag was given.
pub fn flag_of(matches: &ArgMatches<'_>, id: &str) -> bool
    requires { HasFlag id.now (found_of matches.now) }
    ensures { first_value (found_of matches.now) id.now ≡ Some (bool_text result) }
{
    matches.get_flag(id)
}

/// The texts of an argument, in the order in which they were given.
pub fn texts_of<'a>(
    alloc: Global,
    matches: &ArgMatches<'a>,
    id: &str,
) -> Result<Vec<&'a str>, AllocError>
    ensures { IfOk result (λ given. texts given.items ≡ all_texts (found_of matches.now) id.now) }
{
    let mut given = Vec::new(alloc);
    if let Some(texts) = matches.get_strs(id) {
        given.extend_from_slice(texts)?;
    }
    Ok(given)
}
