//! What is said of a trace beside its verdict.
ghost use Rattle.std.specs.Prelude.{◌≡◌, [], IfOk, IfSome};
ghost use Rattle.piece_details.specs.Details.{AreDetailsOf, IsShown, lines_shown};
ghost use Rattle.survey_verdict.specs.Surveyed.{core_names, survey_certificate, survey_report};

use crate::deciding::{PieceSearch, decide_trace};
use crate::explained::{notes_of, picture_of};
use crate::shown_lines::{ShownLines, lines_shown};
use cube_jobs::Options;
use dimacs::MemorySink;
use std::alloc::{AllocError, Global};
use std::sync::Wait;
use std::thread::Threads;
use survey_verdict::{Surveyed, names_of_core, report_of_survey, write_survey_certificate};
use surveyor::Surveyor;
use text_lines::fault::PlacedFault;
use trace_decision::Decision;
use trace_semantics::trace::Trace;
use trace_text::trace_reader::read_trace;

/// What is said of a trace beside its verdict.
#[derive(Drop)]
pub struct PieceDetails {
    /// The report of `verify` or `survey`.
    pub report: Vec<u8>,
    /// What the lines of the report behind its first one name.
    pub lines: ShownLines,
    /// What shows that there is no legal schedule, or no bytes.
    pub certificate: Vec<u8>,
    /// The names of the part that the certificate is of, or no bytes if it is of the whole trace.
    pub names: Vec<u8>,
    /// The explanation of an INCONSISTENT, as lines for standard error.
    pub notes: Vec<u8>,
    /// The picture of an INCONSISTENT, or no bytes.
    pub picture: Vec<u8>,
}

/// Returns whether there is no legal schedule.
fn is_no(surveyed: &Surveyed) -> bool {
    match surveyed {
        Surveyed::Decided(Decision::Inconsistent(_)) => true,
        Surveyed::Decided(_) => false,
        Surveyed::Refuted(_) => true,
        Surveyed::Reasoned(_) => true,
        Surveyed::Undecided(_) => false,
    }
}

/// The certificate of what is decided.
fn certificate_of(alloc: Global, surveyed: &Surveyed) -> Result<Vec<u8>, AllocError>
    ensures { IfOk result (λ text. text.items ≡ survey_certificate surveyed.now) }
{
    let mut sink = MemorySink::new(alloc);
    if write_survey_certificate(alloc, surveyed, &mut sink).is_err() {
        return Err(AllocError);
    }
    let mut text = Vec::new(alloc);
    text.extend_from_slice(sink.as_slice())?;
    Ok(text)
}

/// The details of what is decided, without notes and a picture.
fn plain_details(alloc: Global, surveyed: &Surveyed) -> Result<PieceDetails, AllocError>
    ensures lines { IfOk result (λ details. details.lines ≡ lines_shown surveyed.now) }
    ensures report { IfOk result (λ details. details.report.items ≡ survey_report surveyed.now) }
    ensures certificate { IfOk result (λ details. details.certificate.items ≡ survey_certificate surveyed.now) }
    ensures names { IfOk result (λ details. details.names.items ≡ core_names surveyed.now) }
{
    let report = report_of_survey(alloc, surveyed)?;
    let certificate = certificate_of(alloc, surveyed)?;
    let names = names_of_core(alloc, surveyed)?;
    Ok(PieceDetails {
        report,
        lines: lines_shown(surveyed),
        certificate,
        names,
        notes: Vec::new(alloc),
        picture: Vec::new(alloc),
    })
}

/// The details of what is decided of the trace that the text spells.
fn details_of_decided(
    alloc: Global,
    text: &[u8],
    trace: &Trace,
    surveyed: &Surveyed,
    options: &Options,
    draws: bool,
) -> Result<PieceDetails, AllocError>
    ensures lines { IfOk result (λ details. details.lines ≡ lines_shown surveyed.now) }
    ensures report { IfOk result (λ details. details.report.items ≡ survey_report surveyed.now) }
    ensures certificate { IfOk result (λ details. details.certificate.items ≡ survey_certificate surveyed.now) }
    ensures names { IfOk result (λ details. details.names.items ≡ core_names surveyed.now) }
{
    let mut details = plain_details(alloc, surveyed)?;
    if is_no(surveyed) {
        details.notes = notes_of(alloc, text, surveyed, details.report.as_slice(), options);
        if draws {
            details.picture = picture_of(alloc, text, trace);
        }
    }
    Ok(details)
}

/// Decides the trace that the text spells once more, by a search or, if more than 160 of its operations are kept, by a survey, and gives what is said of it
/// beside its verdict. The answer is nothing if the text spells no trace, or the search has no results. An INCONSISTENT is explained, and its
/// picture is drawn if that is asked; what there is no memory for is left out of these two.
///
/// # Errors
///
/// `AllocError` if memory runs out.
pub fn details_of<R: Threads + Wait + Sync, S: Surveyor>(
    alloc: Global,
    rt: &R,
    text: &[u8],
    search: &PieceSearch<'_, S>,
    draws: bool,
) -> Result<Option<PieceDetails>, AllocError>
    ensures { IfOk result (λ found. IfSome found (AreDetailsOf text.now)) }
{
    let trace = match read_trace(alloc, text) {
        Ok(trace) => trace,
        Err(PlacedFault::OutOfMemory) => return Err(AllocError),
        Err(PlacedFault::At(_, _)) => return Ok(None),
    };
    let decided = decide_trace(alloc, rt, &trace, search)?;
    match decided {
        Some(surveyed) => {
            let details = details_of_decided(alloc, text, &trace, &surveyed, search.short, draws)?;
            Ok(Some(details))
        }
        None => Ok(None),
    }
}
