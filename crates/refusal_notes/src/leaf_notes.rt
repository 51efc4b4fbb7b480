//! Why the derivation of a certificate's leaf was refused.
//!
//! A certificate is a split tree and, for each of its leaves, a derivation that refutes the leaf's cube.

use crate::earlier_lines::first_line_with;
use crate::failed_hint::explain_hint_of;
use crate::meanings::Explained;
use crate::proof_notes::line_of_step;
use crate::swapped::bytes_of;
use certificate::{Section, read_cert};
use clause_blocks::trace_clauses::TraceClauses;
use cube_tree::cubes;
use lrat_check::checker::check;
use lrat_check::refusal::Refusal;
use note_text::{AskedTexts, NamedText, Notes, decimal};
use reducer::reduced::reduce;
use std::alloc::{AllocError, Global};
use trace_text::trace_reader::read_trace;

/// The first section of this leaf.
fn section_of(sections: &[Section], leaf: u64) -> Option<&Section> {
    for section in sections {
        if section.leaf as u64 == leaf {
            return Some(section);
        }
    }
    None
}

/// The clauses of the trace, or none if the text spells no trace, or one that is too large.
fn clauses_of(alloc: Global, text: &NamedText<'_>) -> Result<Option<TraceClauses>, AllocError> {
    let Ok(trace) = read_trace(alloc, bytes_of(text)) else {
        return Ok(None);
    };
    match reduce(alloc, &trace) {
        Ok(reduced) => Ok(Some(TraceClauses::of(alloc, &reduced)?)),
        Err(_) => Ok(None),
    }
}

/// Adds the line of this step of the leaf's section, whose steps stand below its line `proof`.
fn note_step_of_leaf(notes: &mut Notes, text: &NamedText<'_>, leaf: u64, step: u64) {
    let number = decimal(leaf);
    let bytes = bytes_of(text);
    let Some(start) = first_line_with(bytes, b"proof", Some(number.as_slice())) else {
        return;
    };
    if let Some(line) = line_of_step(bytes, start, step) {
        notes.marked_line(text, line, None);
    }
}

/// Adds at which step the leaf's derivation is refused, and at which hint. The refusal has only the number of the leaf, from 0, so the
/// derivation is checked once more.
fn explain_section(
    alloc: Global,
    notes: &mut Notes,
    clauses: &TraceClauses,
    text: &NamedText<'_>,
    leaf: u64,
) -> Result<(), AllocError> {
    let Ok(certificate) = read_cert(alloc, bytes_of(text)) else {
        return Ok(());
    };
    let cubes = cubes(alloc, &certificate.tree)?;
    let place = usize::try_from(leaf).unwrap_or(usize::MAX);
    let Some(cube) = cubes.as_slice().get(place) else {
        return Ok(());
    };
    let Some(section) = section_of(certificate.sections.as_slice(), leaf) else {
        return Ok(());
    };
    let cube = cube.as_slice();
    let Err(Refusal::At(cause, step)) = check(alloc, clauses, cube, &section.derivation) else {
        return Ok(());
    };
    let step = step as u64;
    note_step_of_leaf(notes, text, leaf, step);
    notes.note(&[cause.meaning().as_bytes()]);
    explain_hint_of(
        alloc,
        notes,
        clauses,
        cube,
        section.derivation.steps(),
        step,
    )
}

/// Adds why the derivation of this leaf was refused, if the certificate is of a whole trace. Beside names it is of the part that they make up, whose
/// clauses are not those of the trace, and the part is not made again for a note.
pub(crate) fn explain_leaf(
    alloc: Global,
    notes: &mut Notes,
    leaf: u64,
    texts: &AskedTexts<'_>,
) -> Result<(), AllocError> {
    let (Some(trace), Some(text), None) = (texts.trace, texts.certificate, texts.names) else {
        return Ok(());
    };
    match clauses_of(alloc, &trace)? {
        Some(clauses) => explain_section(alloc, notes, &clauses, &text, leaf),
        None => Ok(()),
    }
}
