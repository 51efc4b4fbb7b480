//! Why a certificate was refused.

use crate::earlier_lines::first_line_with;
use crate::leaf_notes::explain_leaf;
use crate::meanings::Explained;
use crate::swapped::{bytes_of, note_swapped};
use crate::text_kinds::TextKind;
use certificate::CertCause;
use note_text::{AskedTexts, NamedText, Notes, decimal};
use std::alloc::{AllocError, Global};

/// Returns whether the cause is one of the text, and its place a line.
fn is_of_text(cause: CertCause) -> bool {
    match cause {
        CertCause::Header
        | CertCause::BadTree
        | CertCause::TooDeep
        | CertCause::TooManyLeaves
        | CertCause::BadLine
        | CertCause::BadLrat => true,
        CertCause::Stranger | CertCause::Double | CertCause::Missing | CertCause::Derivation => {
            false
        }
    }
}

/// Adds the first line of the leaf's section, if it has one, and the number of the leaf.
fn note_leaf(notes: &mut Notes, text: &NamedText<'_>, leaf: u64) {
    let number = decimal(leaf);
    if let Some(line) = first_line_with(bytes_of(text), b"proof", Some(number.as_slice())) {
        notes.marked_line(text, line, None);
    }
    notes.note(&[b"this is of leaf ", number.as_slice(), b", counted from 0"]);
}

/// Adds what may be done about the cause.
fn note_way_out(notes: &mut Notes, cause: CertCause) {
    match cause {
        CertCause::Derivation => notes.note(&[
            b"a certificate is of one trace: it has to be the one for which it was made, in each line that is no comment",
        ]),
        CertCause::Missing | CertCause::BadTree | CertCause::BadLine => {
            notes.note(&[
                b"is the text cut off? a certificate that verify could not write whole may be",
            ])
        }
        _ => {}
    }
}

/// Adds why the certificate was refused at this line or leaf.
pub(crate) fn explain_certificate(
    alloc: Global,
    notes: &mut Notes,
    cause: CertCause,
    place: u64,
    texts: &AskedTexts<'_>,
) -> Result<(), AllocError> {
    let Some(text) = texts.certificate else {
        notes.note(&[cause.meaning().as_bytes()]);
        return Ok(());
    };
    if is_of_text(cause) {
        notes.marked_line(&text, place, Some(0));
    } else {
        note_leaf(notes, &text, place);
    }
    notes.note(&[cause.meaning().as_bytes()]);
    if cause == CertCause::Derivation {
        explain_leaf(alloc, notes, place, texts)?;
    }
    note_way_out(notes, cause);
    if cause == CertCause::Header {
        note_swapped(notes, &text, TextKind::Certificate, texts);
    }
    Ok(())
}
