//! The picture of an answer.
//!
//! A run hands on a status and neither a schedule nor a core, so a survey looks for one anew, in the trace's text. `KeptRun` has that text if a picture is
//! asked for, since a pipe could not be read twice. No bytes stand for no picture, so that one call writes in both cases.
ghost use Rattle.std.specs.Prelude.{◌≡◌};
ghost use Rattle.command_run.specs.CommandRun.{Adds, Draws, Takes};
ghost use Rattle.verdict_report.specs.Runs.{sink_run};

use crate::kept_run::KeptRun;
use command_line::Line;
use dimacs::{Sink, write_whole};
use picture::draw_verdict;
use std::alloc::Global;
use survey::BySaturation;
use trace_text::trace_reader::read_trace;

/// The steps that the survey for a picture of `verify` may take: a fraction of a second.
const PICTURE_STEPS: u64 = 20_000_000;

/// The survey for the picture of the line, or none if it has no picture. That of `survey` may take as many steps as the run itself.
fn surveyor_of(line: &Line<'_>) -> Option<BySaturation> {
    match line {
        Line::Verify { .. } => Some(BySaturation {
            budget: PICTURE_STEPS,
        }),
        Line::Survey { numbers, .. } => Some(BySaturation {
            budget: numbers.budget,
        }),
        _ => None,
    }
}

/// The picture of the trace in these bytes, of which it was answered whether it is consistent, or no bytes.
fn picture_of(alloc: Global, line: &Line<'_>, is_consistent: bool, bytes: &[u8]) -> Vec<u8> {
    let Some(surveyor) = surveyor_of(line) else {
        return Vec::new(alloc);
    };
    let Ok(trace) = read_trace(alloc, bytes) else {
        return Vec::new(alloc);
    };
    match draw_verdict(alloc, bytes, &trace, &surveyor, is_consistent) {
        Ok(picture) => picture,
        Err(_) => Vec::new(alloc),
    }
}

/// Writes the bytes, or a prefix of them if the file fails.
fn add_picture<W: Sink>(picture: &[u8], file: &mut W)
    ensures takes { Takes (sink_run W.written W.failures file.old file.new) picture.now }
    ensures same { W.path file.new ≡ W.path file.old }
{
    // A picture that could not be written whole changes no answer.
    let _ = write_whole(file, picture);
}

/// Writes the picture, if there is one.
fn write_picture<W: Sink>(picture: &[u8], file: &mut W)
    ensures adds { Adds (sink_run W.written W.failures file.old file.new) }
    ensures same { W.path file.new ≡ W.path file.old }
{
    add_picture(picture, file);
}

/// Draws the answer, which says whether the trace is consistent, by the trace that was kept, if a picture is asked for.
fn draw_answer<W: Sink>(
    alloc: Global,
    line: &Line<'_>,
    is_consistent: bool,
    is_drawn: bool,
    kept: &KeptRun,
    file: &mut W,
)
    ensures adds { Adds (sink_run W.written W.failures file.old file.new) }
    ensures same { W.path file.new ≡ W.path file.old }
{
    let picture = match &kept.first.bytes {
        Some(bytes) if is_drawn => picture_of(alloc, line, is_consistent, bytes.as_slice()),
        _ => Vec::new(alloc),
    };
    write_picture(picture.as_slice(), file);
}

/// Draws the outcome of this status into the file, if it says whether there is a legal schedule and a picture is asked for.
pub(crate) fn draw_outcome<W: Sink>(
    alloc: Global,
    line: &Line<'_>,
    status: u8,
    is_drawn: bool,
    kept: &KeptRun,
    file: &mut W,
)
    ensures drawn { Draws status (sink_run W.written W.failures file.old file.new) }
    ensures same { W.path file.new ≡ W.path file.old }
{
    // The exit statuses 0 and 1 say that there is a legal schedule, or none. All others leave the file as it is.
    if status <= 1 {
        draw_answer(alloc, line, status == 0, is_drawn, kept, file);
    }
}
