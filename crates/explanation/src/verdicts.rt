//! Notes on the verdict of a command.

use crate::asked_command::AskedCommand;
use crate::by_solver::BySolver;
use crate::inputs::{
    PlacedTrace, core_of_report, is_of_reasons, placed_trace_of, schedule_of, trace_of,
};
use derivation_notes::{Telling, explain_derivation};
use note_text::{NamedText, Notes};
use reason_notes::explain_reasons;
use std::alloc::{AllocError, Global};
use survey::BySaturation;
use surveyor::{Finding, Surveyor};
use trace_semantics::operation::OpName;
use trace_semantics::trace::Trace;
use verdict_notes::{
    CorePart, SearchEffort, ShownPlaces, explain_by_survey, explain_certificate_length,
    explain_counted, explain_illegal, explain_refuted, explain_sourceless, explain_undecided,
};
use verdict_report::{MAX_INPUT_BYTES, Status};

/// The steps that a survey may take: a fraction of a second.
const SURVEY_STEPS: u64 = 20_000_000;

/// The most bytes of a certificate of reasons that is checked once more to be explained: a second or two.
const MOST_CERTIFICATE_BYTES: usize = 16_777_216;

/// The conflicts that the search for a derivation may have: about a second.
const SEARCH_CONFLICTS: u64 = 10_000;

/// Notes on the verdict of this status that the command gave.
pub(crate) fn explain_verdict(
    alloc: Global,
    notes: &mut Notes,
    asked: &AskedCommand<'_>,
    status: Status,
) -> Result<(), AllocError> {
    match asked {
        AskedCommand::Judge { trace, schedule } => {
            explain_judged(alloc, notes, trace, schedule, status)?;
        }
        AskedCommand::Verify {
            trace,
            effort,
            report,
            certificate_length,
        } => {
            explain_decided(alloc, notes, trace, *effort, *report, status)?;
            explain_length(notes, *certificate_length);
        }
        AskedCommand::Recheck { trace, cert, names } => {
            explain_rechecked(alloc, notes, trace, cert, names.is_some(), status)?;
        }
        AskedCommand::Survey { trace, report, .. } => {
            explain_surveyed(alloc, notes, trace, *report, status)?;
        }
        AskedCommand::Cnf { .. } => {}
        AskedCommand::Decode { .. } => {}
        AskedCommand::Lrat { .. } => {}
        AskedCommand::Part { .. } => {}
    }
    Ok(())
}

/// Notes why the schedule is illegal, if it is.
fn explain_judged(
    alloc: Global,
    notes: &mut Notes,
    trace: &NamedText<'_>,
    schedule: &NamedText<'_>,
    status: Status,
) -> Result<(), AllocError> {
    if status != Status::No {
        return Ok(());
    }
    let Some(trace) = trace_of(alloc, trace) else {
        return Ok(());
    };
    match schedule_of(alloc, schedule) {
        Some(schedule) => explain_illegal(alloc, notes, &trace, &schedule),
        None => Ok(()),
    }
}

/// Notes how operations are named, if not by their places in the file.
fn explain_places(notes: &mut Notes, places: &ShownPlaces) {
    if places.are_of_whole() {
        notes.note(&[b"operations are named as in the whole, by the comments above them"]);
    }
}

/// Notes why the trace in this file has no legal schedule.
fn explain_contradiction(
    alloc: Global,
    notes: &mut Notes,
    trace: &NamedText<'_>,
) -> Result<(), AllocError> {
    match placed_trace_of(alloc, trace)? {
        Some(placed) => {
            explain_places(notes, &placed.places);
            explain_inconsistent(alloc, notes, &placed.trace, &placed.places)
        }
        None => Ok(()),
    }
}

/// Notes what rules out all schedules without a search: reads and final values of values that nothing gives, or more updates than
/// sources. The answer is whether there is something. If there is, callers look for no other reason.
fn explain_at_once(
    alloc: Global,
    notes: &mut Notes,
    trace: &Trace,
    places: &ShownPlaces,
) -> Result<bool, AllocError> {
    if explain_sourceless(alloc, notes, trace, places)? {
        return Ok(true);
    }
    explain_counted(alloc, notes, trace, places)
}

/// Notes that the checker refuses the derivation that the search found, so that nothing of it is said.
fn note_refused(notes: &mut Notes) {
    notes.note(&[b"the checker refuses the derivation that was found, so it is not explained"]);
}

/// Notes a derivation of the contradiction in the trace in sentences, if a short one is found that the checker accepts. The answer is
/// whether it was. After `false` there may yet be notes: on what a long derivation rests, or that it was refused.
fn explain_derived(
    alloc: Global,
    notes: &mut Notes,
    trace: &Trace,
    places: &ShownPlaces,
) -> Result<bool, AllocError> {
    let deriver = BySolver {
        budget: SEARCH_CONFLICTS,
    };
    match explain_derivation(alloc, notes, trace, places, &deriver)? {
        Telling::InSentences => return Ok(true),
        Telling::NotInSentences => {}
        Telling::Refused => note_refused(notes),
    }
    Ok(false)
}

/// Notes why the trace has no legal schedule: what rules out all of them without a search; or else a short derivation of a contradiction;
/// or else a few operations that a survey finds.
fn explain_inconsistent(
    alloc: Global,
    notes: &mut Notes,
    trace: &Trace,
    places: &ShownPlaces,
) -> Result<(), AllocError> {
    if explain_at_once(alloc, notes, trace, places)? {
        return Ok(());
    }
    if explain_derived(alloc, notes, trace, places)? {
        return Ok(());
    }
    let surveyor = BySaturation {
        budget: SURVEY_STEPS,
    };
    explain_by_survey(alloc, notes, trace, places, &surveyor)
}

/// Notes what is asked of a schedule if there is one, or that there is nothing to put in order. The first note stands also if the trace is not at
/// hand.
fn explain_consistent(alloc: Global, notes: &mut Notes, trace: &NamedText<'_>) {
    if let Some(trace) = trace_of(alloc, trace) {
        if is_without_operation(&trace) {
            return notes.note(&[b"the trace has no operation: is it the whole file?"]);
        }
    }
    notes.note(&[
        b"the schedule keeps program order; what came first in time is known only by times and before lines",
    ]);
}

/// Returns whether no process of the trace has an operation.
fn is_without_operation(trace: &Trace) -> bool {
    for process in trace.processes() {
        if !process.operations.as_slice().is_empty() {
            return false;
        }
    }
    true
}

/// Notes what was decided of a trace.
fn explain_decided(
    alloc: Global,
    notes: &mut Notes,
    trace: &NamedText<'_>,
    effort: SearchEffort,
    report: Option<&[u8]>,
    status: Status,
) -> Result<(), AllocError> {
    match status {
        Status::Yes => explain_consistent(alloc, notes, trace),
        Status::No => explain_contradiction(alloc, notes, trace)?,
        Status::Unknown => {
            if let Some(placed) = placed_trace_of(alloc, trace)? {
                explain_open(alloc, notes, &placed, effort, report)?;
            }
        }
    }
    Ok(())
}

/// Notes what a search leaves open, and what to try.
fn explain_open(
    alloc: Global,
    notes: &mut Notes,
    placed: &PlacedTrace,
    effort: SearchEffort,
    report: Option<&[u8]>,
) -> Result<(), AllocError> {
    explain_places(notes, &placed.places);
    explain_undecided(alloc, notes, &placed.trace, &placed.places, effort, report)
}

/// Notes how a certificate gets shorter that is too long to be read: longer than what `recheck` reads of a file.
fn explain_length(notes: &mut Notes, length: Option<u64>) {
    if let Some(length) = length {
        explain_certificate_length(notes, length, MAX_INPUT_BYTES as u64);
    }
}

/// Notes the lines of the certificate, if it is one of reasons for the trace in this file. The answer is whether it is.
fn explain_lines(
    alloc: Global,
    notes: &mut Notes,
    trace: &NamedText<'_>,
    cert: &NamedText<'_>,
) -> Result<bool, AllocError> {
    let (Some(trace), Some(text)) = (trace_of(alloc, trace), cert.bytes) else {
        return Ok(false);
    };
    explain_if_short(alloc, notes, &trace, text)
}

/// Notes the lines of the certificate, if it is short and one of reasons for the trace. The answer is whether it is: it is checked once more
/// for that, which takes as long as it is.
fn explain_if_short(
    alloc: Global,
    notes: &mut Notes,
    trace: &Trace,
    text: &[u8],
) -> Result<bool, AllocError> {
    if text.len() > MOST_CERTIFICATE_BYTES {
        return Ok(false);
    }
    explain_reasons(alloc, notes, trace, text)
}

/// Notes what an accepted certificate says. Of a part nothing more is said: what follows looks at the whole trace, and the certificate is not
/// one of that.
fn explain_rechecked(
    alloc: Global,
    notes: &mut Notes,
    trace: &NamedText<'_>,
    cert: &NamedText<'_>,
    is_of_part: bool,
    status: Status,
) -> Result<(), AllocError> {
    if status != Status::Yes {
        return Ok(());
    }
    notes.note(&[
        trace.name.as_bytes(),
        b" has no legal schedule: each proof was checked",
    ]);
    if is_of_part {
        notes.note(&[b"the operations that are named suffice for that"]);
        return Ok(());
    }
    if explain_lines(alloc, notes, trace, cert)? {
        return Ok(());
    }
    explain_contradiction(alloc, notes, trace)
}

/// Notes why the operations of the core that the report names have no legal schedule, in sentences if a short derivation is found, and
/// else which they are. If the trace lacks one of the names, or one stands twice, there is no part, and the names are noted.
fn explain_reported_core(
    alloc: Global,
    notes: &mut Notes,
    placed: &PlacedTrace,
    names: &[OpName],
) -> Result<(), AllocError> {
    if let Some(core) = CorePart::of(alloc, &placed.trace, names)? {
        if explain_derived(alloc, notes, core.trace(), core.places())? {
            return Ok(());
        }
    }
    // The report has names of the file.
    let own = ShownPlaces::own(alloc);
    explain_refuted(alloc, notes, &placed.trace, &own, names);
    Ok(())
}

/// Notes the lines of the certificate of reasons that was found, if it is one. The answer is whether it is.
fn explain_finding(
    alloc: Global,
    notes: &mut Notes,
    trace: &Trace,
    finding: &Finding,
) -> Result<bool, AllocError> {
    // A core or a schedule has no lines, and is not what the report is on.
    match finding {
        Finding::Reasons(text) => explain_if_short(alloc, notes, trace, text.as_slice()),
        Finding::Core(_names) => Ok(false),
        Finding::Schedule(_schedule) => Ok(false),
        Finding::Nothing => Ok(false),
    }
}

/// Notes the lines of a certificate of reasons, if a short survey without hints finds one that is short enough. The answer is whether it does: that of the
/// report is not at hand. A survey gives two findings where it has both reasons and a core, in the order in which they must be asked.
fn explain_found_lines(
    alloc: Global,
    notes: &mut Notes,
    trace: &Trace,
) -> Result<bool, AllocError> {
    let surveyor = BySaturation {
        budget: SURVEY_STEPS,
    };
    let overview = surveyor.survey(alloc, trace, &[])?;
    if explain_finding(alloc, notes, trace, &overview.finding)? {
        return Ok(true);
    }
    explain_finding(alloc, notes, trace, &overview.otherwise)
}

/// Notes why the trace has no legal schedule, for which a certificate of reasons was accepted: what rules out all of them at once, or the
/// lines of a certificate, or else that there is one.
fn explain_reasoned(
    alloc: Global,
    notes: &mut Notes,
    placed: &PlacedTrace,
) -> Result<(), AllocError> {
    if explain_at_once(alloc, notes, &placed.trace, &placed.places)? {
        return Ok(());
    }
    if !explain_found_lines(alloc, notes, &placed.trace)? {
        notes.note(&[
            b"a certificate of reasons was checked: --cert keeps it, and vsc recheck --explain says what its lines say",
        ]);
    }
    Ok(())
}

/// Notes why the trace has no legal schedule, of which a survey made the report. That says how it was found: by reasons, by a core whose names
/// it has, or else by a search of the whole.
fn explain_survey_report(
    alloc: Global,
    notes: &mut Notes,
    placed: &PlacedTrace,
    report: &[u8],
) -> Result<(), AllocError> {
    if is_of_reasons(report) {
        return explain_reasoned(alloc, notes, placed);
    }
    let Some(names) = core_of_report(alloc, report) else {
        return explain_inconsistent(alloc, notes, &placed.trace, &placed.places);
    };
    if explain_at_once(alloc, notes, &placed.trace, &placed.places)? {
        return Ok(());
    }
    explain_reported_core(alloc, notes, placed, names.names())
}

/// Notes what makes a trace easier to decide that a survey has left open.
fn explain_unsurveyed(notes: &mut Notes) {
    notes.note(&[
        b"more is decided with times, with a value of its own for each write, or with the log's order as --hint",
    ]);
    notes.note(&[b"vsc part makes a smaller trace of operations that are named, for vsc verify"]);
}

/// Notes what a survey decided of a trace.
fn explain_surveyed(
    alloc: Global,
    notes: &mut Notes,
    trace: &NamedText<'_>,
    report: Option<&[u8]>,
    status: Status,
) -> Result<(), AllocError> {
    match status {
        Status::Yes => explain_consistent(alloc, notes, trace),
        Status::No => {
            if let Some(placed) = placed_trace_of(alloc, trace)? {
                explain_survey_report(alloc, notes, &placed, report.unwrap_or(b""))?;
            }
        }
        Status::Unknown => explain_unsurveyed(notes),
    }
    Ok(())
}
