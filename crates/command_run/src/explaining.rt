//! The explanation of an answer or a refusal.
ghost use Rattle.command_run.specs.CommandRun.{Adds, Takes, TellsEnded, TellsExplained};
ghost use Rattle.verdict_report.specs.Runs.{sink_run};

use crate::kept_run::KeptRun;
use crate::telling::tell_outcome;
use command_host::{DeviceFailure, FailedFile, KeptText, Recalls};
use command_line::{Line, SearchNumbers};
use dimacs::{Sink, write_whole};
use explanation::{AskedCommand, SearchEffort, explain};
use note_text::{NamedText, Notes};
use std::alloc::Global;
use verdict_report::{Fault, Status};

/// A line, how its run ended, and whether that is explained.
#[derive(Clone, Copy)]
pub(crate) struct EndedLine<'a, 'p> {
    /// The line.
    pub(crate) line: &'a Line<'p>,
    /// The outcome of its engine.
    pub(crate) outcome: &'a Result<Status, Fault>,
    /// Whether an explanation is asked for.
    pub(crate) explains: bool,
}

/// A text that a line reads: its bytes if they were kept, and what failed, in words without the name of its file, which notes add.
#[derive(Drop)]
struct InputText<'k> {
    bytes: Option<&'k [u8]>,
    failure: Option<String>,
}

/// What is known of a run: the texts that its line reads, in the order of `KeptRun`, the report that standard output took, and how many bytes of a
/// certificate were written. Which file each text is of, is known by the line.
#[derive(Drop)]
struct RunTexts<'k> {
    first: InputText<'k>,
    second: InputText<'k>,
    third: InputText<'k>,
    report: Option<&'k [u8]>,
    certificate_length: Option<u64>,
}

/// Gives what failed of what has this name, in words, if that is known and memory suffices.
fn words_of(alloc: Global, name: &str, failure: Option<DeviceFailure>) -> Option<String> {
    match failure {
        Some(failure) => failure.told(alloc, name).ok(),
        None => None,
    }
}

/// Gives what is known of a text.
fn input_text(alloc: Global, kept: &KeptText) -> InputText<'_> {
    InputText {
        bytes: match &kept.bytes {
            Some(bytes) => Some(bytes.as_slice()),
            None => None,
        },
        failure: words_of(alloc, "", kept.failure),
    }
}

/// Gives what is known of a run by what standard output took of it and by what was kept.
fn run_texts<'k, O: Recalls>(alloc: Global, out: &'k O, kept: &'k KeptRun) -> RunTexts<'k> {
    RunTexts {
        first: input_text(alloc, &kept.first),
        second: input_text(alloc, &kept.second),
        third: input_text(alloc, &kept.third),
        report: out.recalled(),
        certificate_length: kept.certificate_length,
    }
}

/// The text of this name.
fn named<'t>(name: &'t str, text: &'t InputText<'t>) -> NamedText<'t> {
    NamedText {
        name,
        bytes: text.bytes,
        failure: match &text.failure {
            Some(words) => Some(words.as_bytes()),
            None => None,
        },
    }
}

/// Gives what failed of a file that was written, or else of standard output, in words.
fn failed_writing(
    alloc: Global,
    file: Option<FailedFile<'_>>,
    stream: Option<DeviceFailure>,
) -> Option<String> {
    match file {
        Some(file) => file.told(alloc).ok(),
        None => words_of(alloc, "standard output ", stream),
    }
}

/// The search of these numbers.
fn effort_of(numbers: SearchNumbers) -> SearchEffort {
    SearchEffort {
        workers: numbers.workers,
        budget: numbers.budget,
        rounds: numbers.rounds,
    }
}

/// Gives what was asked by `verify` or `survey`, or nothing if it was another command.
fn asked_search<'t>(line: &'t Line<'t>, texts: &'t RunTexts<'t>) -> Option<AskedCommand<'t>> {
    match line {
        Line::Verify { trace, numbers, .. } => Some(AskedCommand::Verify {
            trace: named(trace, &texts.first),
            effort: effort_of(*numbers),
            report: texts.report,
            certificate_length: texts.certificate_length,
        }),
        Line::Survey { trace, files, .. } => Some(AskedCommand::Survey {
            trace: named(trace, &texts.first),
            hint: match files.hint {
                Some(hint) => Some(named(hint, &texts.second)),
                None => None,
            },
            report: texts.report,
        }),
        Line::Judge { .. }
        | Line::Cnf { .. }
        | Line::Decode { .. }
        | Line::Lrat { .. }
        | Line::Recheck { .. }
        | Line::Part { .. }
        | Line::Refusals
        | Line::Batch { .. } => None,
    }
}

/// Gives what was asked, with the files that were read for it, or nothing if no command is explained: `batch` and the list of refusals. The order
/// in which a command reads its files is that in which `engine_runs.rt` keeps them.
fn asked_command<'t>(line: &'t Line<'t>, texts: &'t RunTexts<'t>) -> Option<AskedCommand<'t>> {
    match line {
        Line::Judge { trace, schedule } => Some(AskedCommand::Judge {
            trace: named(trace, &texts.first),
            schedule: named(schedule, &texts.second),
        }),
        Line::Cnf { trace, .. } => Some(AskedCommand::Cnf {
            trace: named(trace, &texts.first),
        }),
        Line::Decode { trace, model } => Some(AskedCommand::Decode {
            trace: named(trace, &texts.first),
            model: named(model, &texts.second),
        }),
        Line::Lrat { cnf, proof } => Some(AskedCommand::Lrat {
            cnf: named(cnf, &texts.first),
            proof: named(proof, &texts.second),
        }),
        Line::Recheck { trace, cert, part } => Some(AskedCommand::Recheck {
            trace: named(trace, &texts.first),
            cert: named(cert, &texts.second),
            names: match part {
                Some(names) => Some(named(names, &texts.third)),
                None => None,
            },
        }),
        Line::Part { trace, names, .. } => Some(AskedCommand::Part {
            trace: named(trace, &texts.first),
            names: named(names, &texts.second),
        }),
        _ => asked_search(line, texts),
    }
}

/// The explanation of the outcome of what was asked, as lines, or no line if no command is explained.
fn notes_of(
    alloc: Global,
    asked: Option<AskedCommand<'_>>,
    outcome: &Result<Status, Fault>,
    written: &Option<String>,
) -> Vec<u8> {
    let written = match written {
        Some(words) => Some(words.as_bytes()),
        None => None,
    };
    match asked {
        Some(asked) => explain(alloc, &asked, outcome, written),
        None => Vec::new(alloc),
    }
}

/// Writes the bytes, or a prefix of them if standard error fails.
fn add_notes<E: Sink>(notes: &[u8], err: &mut E)
    ensures { Takes (sink_run E.written E.failures err.old err.new) notes.now }
{
    // If standard error is closed, there is no explanation.
    let _ = write_whole(err, notes);
}

/// Writes the explanation.
fn write_notes<E: Sink>(notes: &[u8], err: &mut E)
    ensures { Adds (sink_run E.written E.failures err.old err.new) }
{
    add_notes(notes, err);
}

/// The note that a text is not explained.
fn notes_of_lost(alloc: Global) -> Vec<u8> {
    let mut notes = Notes::new(alloc);
    notes.note(&[b"there was no memory to keep what was read, so this is not explained"]);
    notes.into_taken()
}

/// The explanation of the outcome, by the texts that were kept, by what standard output took, and by the length of a certificate.
fn notes_of_run<O: Recalls>(
    alloc: Global,
    failed: Option<FailedFile<'_>>,
    ended: EndedLine<'_, '_>,
    out: &O,
    kept: &KeptRun,
) -> Vec<u8> {
    if kept.is_lost() {
        return notes_of_lost(alloc);
    }
    let texts = run_texts(alloc, out, kept);
    let written = failed_writing(alloc, failed, out.failure());
    let asked = asked_command(ended.line, &texts);
    notes_of(alloc, asked, ended.outcome, &written)
}

/// Reports a refusal on standard error, and explains the outcome there.
fn tell_explained<O: Recalls, E: Sink>(
    alloc: Global,
    failed: Option<FailedFile<'_>>,
    ended: EndedLine<'_, '_>,
    out: &O,
    kept: &KeptRun,
    err: &mut E,
)
    ensures { TellsExplained (sink_run E.written E.failures err.old err.new) ended.entry.outcome.now }
{
    tell_outcome(ended.outcome, err);
    let notes = notes_of_run(alloc, failed, ended, out, kept);
    write_notes(notes.as_slice(), err);
}

/// Reports a refusal on standard error, and explains the outcome there if that is asked for.
pub(crate) fn tell_ended<O: Recalls, E: Sink>(
    alloc: Global,
    failed: Option<FailedFile<'_>>,
    ended: EndedLine<'_, '_>,
    out: &O,
    kept: &KeptRun,
    err: &mut E,
)
    ensures { TellsEnded ended.entry.explains (sink_run E.written E.failures err.old err.new) ended.entry.outcome.now }
{
    if ended.explains {
        tell_explained(alloc, failed, ended, out, kept, err);
    } else {
        tell_outcome(ended.outcome, err);
    }
}

/// The note on a file that could not be made, or no line if nothing is known of it.
fn notes_of_unmade(alloc: Global, failed: Option<FailedFile<'_>>) -> Vec<u8> {
    let mut notes = Notes::new(alloc);
    if let Some(words) = failed_writing(alloc, failed, None) {
        // If memory runs out, there is no explanation.
        notes.note(&[words.as_bytes()]);
    }
    notes.into_taken()
}

/// Explains on standard error that a file could not be made: that of `--picture`, which is made before the engine runs, so that there is neither an
/// outcome nor a text that was read.
pub(crate) fn explain_unmade<E: Sink>(alloc: Global, failed: Option<FailedFile<'_>>, err: &mut E)
    ensures { Adds (sink_run E.written E.failures err.old err.new) }
{
    let notes = notes_of_unmade(alloc, failed);
    write_notes(notes.as_slice(), err);
}
