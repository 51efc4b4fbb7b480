//! The explanation and the picture of a trace that has no legal schedule.

use cube_jobs::Options;
use explanation::{AskedCommand, SearchEffort, explain};
use note_text::NamedText;
use picture::draw_verdict;
use std::alloc::Global;
use survey::BySaturation;
use survey_verdict::Surveyed;
use trace_semantics::trace::Trace;
use verdict_report::Status;

/// The steps that the survey for a picture may take: a fraction of a second.
const DRAWING_STEPS: u64 = 20_000_000;

/// Gives the command that decides this of the trace that the text spells: `verify` if a search did, whose options these are, and else `survey`.
fn asked_of<'t>(
    text: &'t [u8],
    surveyed: &Surveyed,
    report: &'t [u8],
    options: &Options,
) -> AskedCommand<'t> {
    let trace = NamedText {
        name: "the trace",
        bytes: Some(text),
        failure: None,
    };
    match surveyed {
        Surveyed::Decided(_) => AskedCommand::Verify {
            trace,
            effort: SearchEffort {
                workers: options.workers(),
                budget: options.budget(),
                rounds: options.rounds(),
            },
            report: Some(report),
            certificate_length: None,
        },
        _ => AskedCommand::Survey {
            trace,
            hint: None,
            report: Some(report),
        },
    }
}

/// The notes on a trace that has no legal schedule, as lines for standard error. The caller knows that it has none.
pub(crate) fn notes_of(
    alloc: Global,
    text: &[u8],
    surveyed: &Surveyed,
    report: &[u8],
    options: &Options,
) -> Vec<u8> {
    let asked = asked_of(text, surveyed, report, options);
    explain(alloc, &asked, &Ok(Status::No), None)
}

/// The picture of a trace that has no legal schedule, or no bytes if there was no memory for it.
pub(crate) fn picture_of(alloc: Global, text: &[u8], trace: &Trace) -> Vec<u8> {
    let surveyor = BySaturation {
        budget: DRAWING_STEPS,
    };
    match draw_verdict(alloc, text, trace, &surveyor, false) {
        Ok(picture) => picture,
        Err(_) => Vec::new(alloc),
    }
}
