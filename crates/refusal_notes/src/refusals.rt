//! Why an engine refused.

use crate::certificate_notes::explain_certificate;
use crate::earlier_lines::first_line_with;
use crate::meanings::Explained;
use crate::name_notes::note_unknown;
use crate::proof_notes::explain_step;
use crate::swapped::{bytes_of, note_swapped};
use crate::text_kinds::TextKind;
use crate::trace_notes::explain_trace;
use cnf_text::CnfCause;
use cube_jobs::SearchCause;
use lrat_check::lrat_fault::LratCause;
use model_text::ModelCause;
use note_text::{AskedTexts, NamedText, Notes, count_words, decimal, line_of_text, word_at};
use reason_clauses::cause::ReasonCause;
use reducer::reduce_fault::ReduceCause;
use schedule_decode::decode_fault::DecodeCause;
use schedule_text::schedule_fault::ScheduleCause;
use std::alloc::{AllocError, Global};
use text_lines::words::is_word;
use trace_part::part_fault::PartCause;
use verdict_report::Fault;

/// Adds the line of a text, if the command has the text, and what the cause means.
fn explain_line<C: Explained>(
    notes: &mut Notes,
    cause: &C,
    number: u64,
    text: &Option<NamedText<'_>>,
    kind: TextKind,
    texts: &AskedTexts<'_>,
) {
    let Some(text) = text else {
        return notes.note(&[cause.meaning().as_bytes()]);
    };
    notes.marked_line(text, number, Some(0));
    notes.note(&[cause.meaning().as_bytes()]);
    note_swapped(notes, text, kind, texts);
}

/// The schedule, or the names of the operations of a part.
fn names_of<'t>(texts: &AskedTexts<'t>) -> Option<NamedText<'t>> {
    match texts.schedule {
        Some(text) => Some(text),
        None => texts.names,
    }
}

/// The line of this number, or no bytes if there is none.
fn line_of<'t>(text: &Option<NamedText<'t>>, number: u64) -> &'t [u8] {
    match text {
        Some(text) => line_of_text(bytes_of(text), number).unwrap_or(b""),
        None => b"",
    }
}

/// Adds why a schedule was refused at this line.
fn explain_schedule(notes: &mut Notes, cause: ScheduleCause, number: u64, texts: &AskedTexts<'_>) {
    let text = names_of(texts);
    explain_line(notes, &cause, number, &text, TextKind::Schedule, texts);
    let line = line_of(&text, number);
    if is_word(word_at(line, 0), "CONSISTENT") {
        return notes.note(&[b"the first line of what verify prints is no part of the schedule"]);
    }
    if count_words(line) > 1 {
        notes.note(&[b"each name stands on a line of its own"]);
    }
}

/// Adds why the names make up no part.
fn explain_part(
    alloc: Global,
    notes: &mut Notes,
    cause: PartCause,
    number: u64,
    texts: &AskedTexts<'_>,
) {
    let text = names_of(texts);
    explain_line(notes, &cause, number, &text, TextKind::Schedule, texts);
    let (Some(names), Some(trace)) = (text, texts.trace) else {
        return;
    };
    let name = word_at(line_of(&text, number), 0);
    match cause {
        PartCause::UnknownOp => note_unknown(alloc, notes, bytes_of(&trace), name),
        PartCause::RepeatedOp => note_first(notes, &names, name),
    }
}

/// Adds the number of the first line that has this name.
fn note_first(notes: &mut Notes, text: &NamedText<'_>, name: &[u8]) {
    let Some(number) = first_line_with(bytes_of(text), name, None) else {
        return;
    };
    let number = decimal(number);
    notes.note(&[
        b"the first one is at ",
        text.name.as_bytes(),
        b":",
        number.as_slice(),
    ]);
}

/// Gives what is said of a line of a solver's answer that no model has.
fn says_of_answer(line: &[u8]) -> Option<&'static str> {
    let first = word_at(line, 0);
    if is_word(first, "SAT") {
        Some(
            "this is the form of minisat: `s SATISFIABLE` stands in place of SAT, and `v ` before the numbers",
        )
    } else if is_word(first, "UNSAT") {
        Some(
            "the solver says that there is no model, so the trace has no legal schedule if the solver is right",
        )
    } else if is_word(first, "INDET") || is_word(first, "UNKNOWN") {
        Some("the solver gave up")
    } else {
        None
    }
}

/// Adds why a model was refused at this line.
fn explain_model(notes: &mut Notes, cause: ModelCause, number: u64, texts: &AskedTexts<'_>) {
    explain_line(notes, &cause, number, &texts.model, TextKind::Model, texts);
    if let Some(says) = says_of_answer(line_of(&texts.model, number)) {
        notes.note(&[says.as_bytes()]);
    }
}

/// Adds why a trace was not reduced, and which commands take it.
fn explain_reduction(notes: &mut Notes, cause: ReduceCause, left: u64) {
    let left = decimal(left);
    match cause {
        ReduceCause::StillTooLarge => notes.note(&[
            left.as_slice(),
            b" operations are left after reduction, 160 at most; vsc survey and vsc part take larger traces, vsc recheck --part their certificates",
        ]),
    }
}

/// Adds why a model was not decoded.
fn explain_decoding(notes: &mut Notes, cause: DecodeCause, clause: u64) {
    let clause = decimal(clause);
    notes.note(&[
        cause.meaning().as_bytes(),
        b" (clause ",
        clause.as_slice(),
        b")",
    ]);
}

/// Adds why a search has no results, and what to try.
fn explain_search(notes: &mut Notes, cause: SearchCause) {
    notes.note(&[cause.meaning().as_bytes()]);
    notes.note(&[b"--workers 1 needs no thread"]);
}

/// Adds the name of a file that has failed, and what failed.
fn note_failed(notes: &mut Notes, text: &Option<NamedText<'_>>) {
    if let Some(text) = text {
        if let Some(failure) = text.failure {
            notes.note(&[text.name.as_bytes(), b": ", failure]);
        }
    }
}

/// Adds for each file that has failed its name, and what failed.
fn note_all_failed(notes: &mut Notes, texts: &AskedTexts<'_>) {
    note_failed(notes, &texts.trace);
    note_failed(notes, &texts.schedule);
    note_failed(notes, &texts.cnf);
    note_failed(notes, &texts.model);
    note_failed(notes, &texts.proof);
    note_failed(notes, &texts.certificate);
    note_failed(notes, &texts.names);
}

/// Adds which files cannot be read or written, and what failed.
fn explain_device(notes: &mut Notes, texts: &AskedTexts<'_>) {
    let before = notes.as_slice().len();
    note_all_failed(notes, texts);
    if let Some(written) = texts.written {
        notes.note(&[written]);
    }
    if notes.as_slice().len() > before {
        return;
    }
    notes.note(&[
        b"each file could be read: standard output failed, or a file that was to be written",
    ]);
}

/// Adds how long a file may be. The number is `MAX_INPUT_BYTES` of `verdict_report`, which stands written out in `all_refusals.rt` too, and changes with it.
fn explain_length(notes: &mut Notes) {
    notes.note(&[b"a file has at most 268435456 bytes"]);
}

/// Adds what may be done if memory ran out.
fn explain_memory(notes: &mut Notes) {
    notes.note(&[b"memory ran out; of verify, --workers 1 and a smaller --budget take less"]);
}

/// Adds the line of a certificate of reasons at which it was refused, and what the cause means.
fn explain_reasons(notes: &mut Notes, cause: ReasonCause, number: u64, texts: &AskedTexts<'_>) {
    if let Some(text) = texts.certificate {
        notes.marked_line(&text, number, Some(0));
    }
    notes.note(&[cause.meaning().as_bytes()]);
}

/// Adds why a formula was refused at this line.
fn explain_formula(notes: &mut Notes, cause: &CnfCause, number: u64, texts: &AskedTexts<'_>) {
    explain_line(notes, cause, number, &texts.cnf, TextKind::Formula, texts);
}

/// Adds why a derivation was refused at this line.
fn explain_derivation(notes: &mut Notes, cause: &LratCause, number: u64, texts: &AskedTexts<'_>) {
    explain_line(
        notes,
        cause,
        number,
        &texts.proof,
        TextKind::Derivation,
        texts,
    );
}

/// Adds notes on a refusal: the line as it stands in its file, what was expected there, and what was probably meant.
pub fn explain_refusal(
    alloc: Global,
    notes: &mut Notes,
    fault: &Fault,
    texts: &AskedTexts<'_>,
) -> Result<(), AllocError> {
    match fault {
        Fault::OutOfMemory => explain_memory(notes),
        Fault::Device => explain_device(notes, texts),
        Fault::InputTooLong => explain_length(notes),
        Fault::Trace(cause, line) => explain_trace(alloc, notes, *cause, *line as u64, texts),
        Fault::Schedule(cause, line) => explain_schedule(notes, *cause, *line as u64, texts),
        Fault::Part(cause, line) => explain_part(alloc, notes, *cause, *line as u64, texts),
        Fault::Model(cause, line) => explain_model(notes, *cause, *line as u64, texts),
        Fault::Cnf(cause, line) => explain_formula(notes, cause, *line as u64, texts),
        Fault::Lrat(cause, line) => explain_derivation(notes, cause, *line as u64, texts),
        Fault::Reasons(cause, line) => explain_reasons(notes, *cause, *line as u64, texts),
        Fault::Reduce(cause, left) => explain_reduction(notes, *cause, *left as u64),
        Fault::Decode(cause, clause) => explain_decoding(notes, *cause, *clause as u64),
        Fault::Search(cause) => explain_search(notes, *cause),
        Fault::Check(cause, step) => explain_step(alloc, notes, *cause, *step as u64, texts)?,
        Fault::Cert(cause, place) => {
            explain_certificate(alloc, notes, *cause, *place as u64, texts)?
        }
    }
    Ok(())
}
