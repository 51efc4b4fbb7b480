//! The notes on a certificate of reasons.

ghost use Rattle.std.specs.Prelude.{◌≡◌, ◌⊎◌, IfOk, IfSome, Ok};
ghost use Rattle.reason_check.specs.Accepted.{IsAcceptedReasons};
ghost use Rattle.reason_notes.specs.Noted.{IsNotedCertificate};
ghost use Rattle.trace_semantics.specs.Legal.{HasNoSchedule};

use crate::first_lines::first_lines;
use crate::noted_text::text_of_lines;
use note_text::Notes;
use reason_check::laws::accepted_has_no_schedule;
use reason_check::reasons_check::check_reasons;
use reason_check::reasons_fault::ReasonsFault;
use reason_clauses::cause::ReasonRefusal;
use std::alloc::{AllocError, Global};
use trace_semantics::trace::Trace;

/// The most lines that are noted. Lines that make no clause, as comments, are not counted. `specs/Noted.antt` has the number itself.
const MOST_NOTED: usize = 40;

/// The notes of the certificate, which is accepted and has this number of clauses.
fn notes_of_accepted(
    alloc: Global,
    trace: &Trace,
    text: &[u8],
    count: usize,
) -> Result<Vec<u8>, ReasonRefusal>
    requires { IsAcceptedReasons trace.now text.now count }
    ensures { IfOk result (λ notes. IsNotedCertificate trace.now text.now notes.items) }
{
    let noted = first_lines(alloc, trace, text, MOST_NOTED)?;
    let notes = text_of_lines(alloc, trace, noted.as_slice(), count)?;
    Ok(notes)
}

/// The notes, or none if something is refused. Lines that were accepted are not expected to be refused when they are read again; no contract
/// says so.
fn notes_if_made(notes: Result<Vec<u8>, ReasonRefusal>) -> Result<Option<Vec<u8>>, AllocError>
    ensures { IfOk result (λ made. IfSome made (λ text. notes ≡ Ok text)) }
{
    match notes {
        Ok(text) => Ok(Some(text)),
        Err(ReasonRefusal::OutOfMemory) => Err(AllocError),
        Err(ReasonRefusal::For(_cause)) => Ok(None),
    }
}

/// The notes of the certificate as lines, if it is accepted of the trace: of each of its first lines a sentence, and how many others
/// there are. Each sentence ends with the orders of which one stands in each legal schedule, by the trace and the line.
pub fn notes_of_reasons(
    alloc: Global,
    trace: &Trace,
    text: &[u8],
) -> Result<Option<Vec<u8>>, AllocError>
    ensures { IfOk result (λ made. IfSome made (λ notes. IsNotedCertificate trace.now text.now notes.items)) }
{
    match check_reasons(alloc, trace, text) {
        Ok(accepted) => notes_if_made(notes_of_accepted(alloc, trace, text, accepted.clauses)),
        Err(ReasonsFault::OutOfMemory) => Err(AllocError),
        Err(_fault) => Ok(None),
    }
}

/// Adds the lines, of which the last one has its line feed. Each has its `note: ` already, and `Notes::line` adds a line feed, so the last one is
/// taken off first.
fn add_lines(notes: &mut Notes, lines: &[u8]) {
    match lines {
        [front @ .., b'\n'] => notes.line(&[front]),
        _ => notes.line(&[lines]),
    }
}

/// Notes the certificate, if it is accepted of the trace. The answer is whether it was.
pub fn explain_reasons(
    alloc: Global,
    notes: &mut Notes,
    trace: &Trace,
    text: &[u8],
) -> Result<bool, AllocError>
    ensures explained { (notes.new ≡ notes.old) ⊎ HasNoSchedule trace.now }
{
    accepted_has_no_schedule();
    trace.recall_invariant();
    match notes_of_reasons(alloc, trace, text)? {
        Some(lines) => {
            notes.note(&[
                b"the certificate was checked; each of its lines says what every legal schedule has, and none can have all of it:",
            ]);
            add_lines(notes, lines.as_slice());
            Ok(true)
        }
        None => Ok(false),
    }
}
