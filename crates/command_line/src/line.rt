//! What a command line asks for.

ghost use Rattle.std.specs.Prelude.{◌≡◌, IfErr, IfOk, OnOk, Option, codes, true};
ghost use Rattle.clap.specs.Words.{FailsBy, Text, fault_of, first_value, found_of, kind_of, subcommand_of, subcommand_rows_of, takes};
ghost use Rattle.clap.specs.Walk.{texts};
ghost use Rattle.command_line.specs.Arguments.{HasFlag, all_texts};
ghost use Rattle.command_line.specs.CommandLine.{Asks, AsksFor, AsksWith, IsFaultOf, IsFaultless, IsWithinRanges, vsc_app};

use crate::arguments::optional_text_of;
use crate::batch_command::batch_line;
use crate::cnf_command::cnf_line;
use crate::explains::{Explains, explains_of};
use crate::line_fault::LineFault;
use crate::part_command::part_line;
use crate::path_commands::{decode_line, judge_line, lrat_line};
use crate::program::new_program;
use crate::recheck_command::recheck_line;
use crate::refusals_command::refusals_line;
use crate::survey_command::survey_line;
use crate::verify_command::verify_line;
use clap::error::ErrorKind;
use clap::{ArgMatches, Error};
use std::alloc::Global;

/// How a search goes about its work.
#[derive(Clone, Copy)]
pub struct SearchNumbers {
    /// The number of threads that may search, 1 to 8.
    pub workers: u32,
    /// On how many variables the search is split at first, 0 to 10.
    pub split: u32,
    /// After how many conflicts the search of a cube is given up, 0 to 1,000,000,000.
    pub budget: u64,
    /// The largest number of rounds, 1 to 4.
    pub rounds: u32,
}

/// How a survey goes about its work.
#[derive(Clone, Copy)]
pub struct SurveyNumbers {
    /// The number of threads that may search, 1 to 8.
    pub workers: u32,
    /// After how many steps the survey is given up, 0 to 1,000,000,000.
    pub budget: u64,
}

/// How a batch goes about its work.
#[derive(Clone, Copy)]
pub struct BatchNumbers {
    /// How many threads decide traces, 1 to 8.
    pub workers: u32,
    /// On how many variables the search of a short trace is split at first, 0 to 10.
    pub split: u32,
    /// After how many conflicts the search of a cube is given up, 0 to 1,000,000,000.
    pub budget: u64,
}

/// What a batch writes beside its verdicts.
#[derive(Clone, Copy)]
pub struct BatchOutput<'a> {
    /// Whether each line is an object of JSON.
    pub json: bool,
    /// Whether the object of a CONSISTENT has its schedule.
    pub schedules: bool,
    /// The folder for what shows each INCONSISTENT.
    pub keep: Option<&'a str>,
}

/// The paths that were given for files beside the trace: three that take what shows an INCONSISTENT, and one that is read.
#[derive(Clone, Copy)]
pub struct SurveyFiles<'a> {
    /// The file for the certificate.
    pub cert: Option<&'a str>,
    /// The file for the names of the core.
    pub names: Option<&'a str>,
    /// The file for the core's part.
    pub part: Option<&'a str>,
    /// The file of a hint.
    pub hint: Option<&'a str>,
}

/// What a command is to do. A path is that of a file, as it was given.
#[derive(Drop)]
pub enum Line<'a> {
    /// To judge a schedule against a trace.
    Judge {
        trace: &'a str,
        schedule: &'a str,
    },
    /// To write the formula of a trace, with 1 to 8 threads.
    Cnf {
        trace: &'a str,
        workers: u32,
    },
    /// To turn a model of the formula of a trace into a schedule of the trace.
    Decode {
        trace: &'a str,
        model: &'a str,
    },
    /// To check a proof that a formula has no model.
    Lrat {
        cnf: &'a str,
        proof: &'a str,
    },
    /// To check a certificate that a trace has no legal schedule, by the trace itself or by a part of it.
    Recheck {
        trace: &'a str,
        cert: &'a str,
        part: Option<&'a str>,
    },
    /// To write the part of a trace that some operations make up, with or without their names in the whole.
    Part {
        trace: &'a str,
        names: &'a str,
        shows_names: bool,
    },
    /// To decide whether a trace has a legal schedule, to write a certificate to a file or to none, and to report the progress or not.
    Verify {
        trace: &'a str,
        cert: Option<&'a str>,
        numbers: SearchNumbers,
        progress: bool,
    },
    /// To decide that with the help of a survey, which takes longer traces, and to write what shows an INCONSISTENT to files.
    Survey {
        trace: &'a str,
        files: SurveyFiles<'a>,
        numbers: SurveyNumbers,
        progress: bool,
    },
    /// To list all refusals.
    Refusals,
    /// To decide many traces of one file or more.
    Batch {
        traces: Vec<&'a str>,
        numbers: BatchNumbers,
        output: BatchOutput<'a>,
    },
}

/// What a command line asks for.
#[derive(Drop)]
pub struct CommandLine<'a> {
    /// What the command is to do.
    pub line: Line<'a>,
    /// When its answer or its refusal is explained.
    pub explains: Explains,
    /// The path of the file that takes a picture, if one was given. Only `verify` and `survey` have that option.
    pub picture: Option<&'a str>,
}

/// Gives what the matches of a command ask for, by what the command is to do.
///
/// A command that has no `--picture` finds none. It is looked up nevertheless: the contract, which is the same for each command, says that what was
/// given for it is handed on.
pub(crate) fn command_line_of<'a>(matches: &ArgMatches<'a>, line: Line<'a>) -> CommandLine<'a>
    requires explain { HasFlag (codes "explain") (found_of matches.now) }
    requires no_explain { HasFlag (codes "no-explain") (found_of matches.now) }
    ensures { (command : Option Text) → AsksFor command (first_value (found_of matches.now)) (all_texts (found_of matches.now)) line.entry →
        AsksWith command (first_value (found_of matches.now)) (all_texts (found_of matches.now)) result }
{
    CommandLine {
        line,
        explains: explains_of(matches),
        picture: optional_text_of(matches, "picture"),
    }
}

// What `clap` makes of the words.
fn matches_of<'a>(alloc: Global, words: &'a [&'a str]) -> Result<ArgMatches<'a>, Error>
    ensures ok { IfOk result (λ m.
        subcommand_rows_of m ≡ subcommand_of vsc_app (texts words.now)) }
    ensures kinds { FailsBy (fault_of vsc_app (texts words.now)) result }
    ensures memory { IfErr result (λ e. takes vsc_app (texts words.now) ≡ true
        → kind_of e ≡ ErrorKind.OutOfMemory) }
{
    new_program(alloc)?.try_get_matches_from(words)
}

// What the words ask for, or the fault as `clap` reports it.
fn asked_line<'a>(alloc: Global, words: &'a [&'a str]) -> Result<CommandLine<'a>, LineFault>
    ensures line { IfOk result (Asks (texts words.now)) }
    ensures ranges { IfOk result (λ asked. IsWithinRanges asked.line) }
    ensures faultless { OnOk result (IsFaultless (texts words.now)) }
    ensures fault { IfErr result (IsFaultOf (texts words.now)) }
    ensures memory { IfErr result (λ kind. takes vsc_app (texts words.now) ≡ true
        → kind ≡ ErrorKind.OutOfMemory) }
{
    let matches = matches_of(alloc, words)?;
    if let Some(judge) = matches.subcommand_matches("judge") {
        return Ok(judge_line(judge));
    }
    if let Some(cnf) = matches.subcommand_matches("cnf") {
        return Ok(cnf_line(cnf));
    }
    if let Some(decode) = matches.subcommand_matches("decode") {
        return Ok(decode_line(decode));
    }
    if let Some(lrat) = matches.subcommand_matches("lrat") {
        return Ok(lrat_line(lrat));
    }
    if let Some(verify) = matches.subcommand_matches("verify") {
        return Ok(verify_line(verify));
    }
    if let Some(recheck) = matches.subcommand_matches("recheck") {
        return Ok(recheck_line(recheck));
    }
    if let Some(part) = matches.subcommand_matches("part") {
        return Ok(part_line(part));
    }
    if let Some(survey) = matches.subcommand_matches("survey") {
        return Ok(survey_line(survey));
    }
    if let Some(refusals) = matches.subcommand_matches("refusals") {
        return Ok(refusals_line(refusals));
    }
    if let Some(batch) = matches.subcommand_matches("batch") {
        return batch_line(alloc, batch);
    }
    // `new_program` requires a command, and has no other ones than these. One that is added there needs a branch here.
    unreachable!()
}

/// Reads the words of a command line, of which the first is the program's name.
///
/// A fault is what `clap` finds wrong with the words, a request for help or for the version, or that memory ran out. Of an option without a
/// number of its range the fault reports that range.
pub fn read_line<'a>(alloc: Global, words: &'a [&'a str]) -> Result<CommandLine<'a>, LineFault>
    ensures line { IfOk result (Asks (texts words.now)) }
    ensures ranges { IfOk result (λ asked. IsWithinRanges asked.line) }
    ensures faultless { OnOk result (IsFaultless (texts words.now)) }
    ensures fault { IfErr result (IsFaultOf (texts words.now)) }
    ensures memory { IfErr result (λ kind. takes vsc_app (texts words.now) ≡ true
        → kind ≡ ErrorKind.OutOfMemory) }
{
    match asked_line(alloc, words) {
        Ok(asked) => Ok(asked),
        Err(fault) => Err(fault.with_range(words)),
    }
}
