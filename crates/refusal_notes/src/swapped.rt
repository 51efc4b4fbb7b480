//! Files that are of another kind than is wanted, or in another order.

use crate::text_kinds::{TextKind, kind_of};
use note_text::{AskedTexts, NamedText, Notes};

/// The bytes of the text, or none if they could not be read again.
pub(crate) fn bytes_of<'t>(text: &NamedText<'t>) -> &'t [u8] {
    match text.bytes {
        Some(bytes) => bytes,
        None => b"",
    }
}

/// Adds what the file of this name looks like, and what is wanted.
fn note_unlike(notes: &mut Notes, name: &str, kind: &str, wanted: &str) {
    notes.note(&[
        name.as_bytes(),
        b" looks like ",
        kind.as_bytes(),
        b", and not like ",
        wanted.as_bytes(),
    ]);
}

/// Adds that the file of this name looks like what is wanted in the place of another.
fn note_order(notes: &mut Notes, name: &str, wanted: &str) {
    notes.note(&[
        name.as_bytes(),
        b" looks like ",
        wanted.as_bytes(),
        b": are the files in the right order?",
    ]);
}

/// Adds what the text looks like, if that is another kind than is wanted.
fn note_kind(notes: &mut Notes, text: &NamedText<'_>, wanted: TextKind) {
    let bytes = bytes_of(text);
    if text.bytes.is_some() && bytes.is_empty() {
        return notes.note(&[text.name.as_bytes(), b" is empty"]);
    }
    let kind = kind_of(bytes);
    if kind == TextKind::Other {
        return;
    }
    note_unlike(notes, text.name, kind.words(), wanted.words());
}

/// Adds that another file of the command looks like what is wanted, if it does.
fn note_other(
    notes: &mut Notes,
    other: &Option<NamedText<'_>>,
    text: &NamedText<'_>,
    wanted: TextKind,
) {
    let Some(other) = other else {
        return;
    };
    if other.name == text.name || kind_of(bytes_of(other)) != wanted {
        return;
    }
    note_order(notes, other.name, wanted.words());
}

/// Adds what the text looks like, and which other file looks like what is wanted, unless the text itself does.
pub(crate) fn note_swapped(
    notes: &mut Notes,
    text: &NamedText<'_>,
    wanted: TextKind,
    texts: &AskedTexts<'_>,
) {
    if kind_of(bytes_of(text)) == wanted {
        return;
    }
    note_kind(notes, text, wanted);
    note_other(notes, &texts.trace, text, wanted);
    note_other(notes, &texts.schedule, text, wanted);
    note_other(notes, &texts.cnf, text, wanted);
    note_other(notes, &texts.model, text, wanted);
    note_other(notes, &texts.proof, text, wanted);
    note_other(notes, &texts.certificate, text, wanted);
    note_other(notes, &texts.names, text, wanted);
}
