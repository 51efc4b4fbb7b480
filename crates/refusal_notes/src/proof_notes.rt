//! Why a derivation was refused at a step.

use crate::failed_hint::explain_hint;
use crate::meanings::Explained;
use crate::swapped::bytes_of;
use lrat_check::refusal::StepFault;
use note_text::{AskedTexts, NamedText, Notes, word_at};
use std::alloc::{AllocError, Global};
use text_lines::comments::begins_dimacs_comment;
use text_lines::lines::cut_line;

/// Returns whether the line is a step: neither blank nor a comment.
fn is_step(line: &[u8]) -> bool {
    let first = word_at(line, 0);
    !first.is_empty() && !begins_dimacs_comment(first)
}

/// The number of the line that is the step of this number after the line of number `start`, all counted from 1; 0 is above the first line. A
/// derivation without the empty clause is refused at the step behind its last, and that is the `end` line of a section.
pub(crate) fn line_of_step(bytes: &[u8], start: u64, step: u64) -> Option<u64> {
    let mut rest = bytes;
    let mut left = step;
    for number in 1..u64::MAX {
        let Some((line, after)) = cut_line(rest) else {
            return None;
        };
        if number > start && is_step(line) {
            if left <= 1 {
                return Some(number);
            }
            left -= 1;
        }
        rest = after;
    }
    None
}

/// Adds the line of the step.
fn note_step(notes: &mut Notes, text: &NamedText<'_>, step: u64) {
    match line_of_step(bytes_of(text), 0, step) {
        Some(line) => notes.marked_line(text, line, None),
        None => notes.note(&[text.name.as_bytes(), b": the derivation ends here"]),
    }
}

/// Adds why the derivation was refused at this step, and at which hint.
pub(crate) fn explain_step(
    alloc: Global,
    notes: &mut Notes,
    cause: StepFault,
    step: u64,
    texts: &AskedTexts<'_>,
) -> Result<(), AllocError> {
    if let Some(text) = texts.proof {
        note_step(notes, &text, step);
    }
    notes.note(&[cause.meaning().as_bytes()]);
    match (texts.cnf, texts.proof) {
        (Some(cnf), Some(proof)) => {
            explain_hint(alloc, notes, bytes_of(&cnf), bytes_of(&proof), step)
        }
        _ => Ok(()),
    }
}
