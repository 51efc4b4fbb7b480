//! The members of a JSON object that say what is said beside a verdict.
ghost use Rattle.std.specs.Prelude.{◌≡◌, ◌++◌, OnOk, codes};
ghost use Rattle.json_text.specs.JsonString.{AppendsSome, json_string};

use crate::details::PieceDetails;
use crate::shown_lines::ShownLines;
use json_text::push_json_string;
use std::alloc::{AllocError, Global};
use std::str::from_utf8;
use text_lines::lines::cut_line;
use text_lines::words::cut_word;

/// The front of each line of an explanation that is a sentence of it. The others show lines of a file.
const NOTE: &[u8] = b"note: ";

/// The front of the line of an open cube.
const OPEN: &[u8] = b"open ";

/// What a line of a text is as an item of a list.
#[derive(Clone, Copy)]
enum ItemForm {
    /// The line itself, as a string.
    Line,
    /// What follows `note:`, as a string. A line that begins otherwise is none.
    Sentence,
    /// The literals of an open cube, as a list of numbers.
    Literals,
}

/// Appends the string, if the bytes are one.
fn push_string(alloc: Global, item: &mut Vec<u8>, bytes: &[u8]) -> Result<(), AllocError> {
    match from_utf8(bytes) {
        Ok(string) => push_json_string(alloc, item, string),
        Err(_) => Ok(()),
    }
}

/// Appends the literals of the line of an open cube, which stand between its first word and a zero.
fn push_literals(item: &mut Vec<u8>, line: &[u8]) -> Result<(), AllocError> {
    item.extend_from_slice(b"[")?;
    let mut rest = line.strip_prefix(OPEN).unwrap_or(b"");
    // Each round takes a word, and a line has fewer words than bytes. The first literal has no comma in front.
    for place in 0..line.len() {
        match cut_word(rest) {
            Some((literal, after)) => {
                if literal == b"0".as_slice() {
                    break;
                }
                if place > 0 {
                    item.extend_from_slice(b",")?;
                }
                item.extend_from_slice(literal)?;
                rest = after;
            }
            None => break,
        }
    }
    item.extend_from_slice(b"]")
}

/// The line as an item of this form, or no bytes if it is none. Each item has a byte at least, so that no bytes can stand for none.
fn item_of(alloc: Global, line: &[u8], form: ItemForm) -> Result<Vec<u8>, AllocError> {
    let mut item = Vec::new(alloc);
    match form {
        ItemForm::Line => push_string(alloc, &mut item, line)?,
        ItemForm::Sentence => {
            if let Some(said) = line.strip_prefix(NOTE) {
                push_string(alloc, &mut item, said)?;
            }
        }
        ItemForm::Literals => push_literals(&mut item, line)?,
    }
    Ok(item)
}

/// Appends the item behind the others, with a comma if it is not the first one. No bytes are no item.
fn push_item(items: &mut Vec<u8>, item: &[u8]) -> Result<(), AllocError> {
    if item.is_empty() {
        return Ok(());
    }
    if !items.is_empty() {
        items.extend_from_slice(b",")?;
    }
    items.extend_from_slice(item)
}

/// The lines as items of this form.
fn items_of(alloc: Global, lines: &[u8], form: ItemForm) -> Result<Vec<u8>, AllocError> {
    let mut items = Vec::new(alloc);
    let mut rest = lines;
    // Each round takes a line, of which there are no more than bytes.
    for _ in 0..lines.len() {
        match cut_line(rest) {
            Some((line, after)) => {
                let item = item_of(alloc, line, form)?;
                push_item(&mut items, item.as_slice())?;
                rest = after;
            }
            None => break,
        }
    }
    Ok(items)
}

/// Appends a member that is a list of these items, unless there are none.
fn push_list(
    alloc: Global,
    members: &mut Vec<u8>,
    name: &str,
    items: &[u8],
) -> Result<(), AllocError> {
    if items.is_empty() {
        return Ok(());
    }
    members.extend_from_slice(b",")?;
    push_json_string(alloc, members, name)?;
    members.extend_from_slice(b":[")?;
    members.extend_from_slice(items)?;
    members.extend_from_slice(b"]")
}

/// Appends a member with the lines of the report behind its first one, unless there are none.
fn push_report(
    alloc: Global,
    members: &mut Vec<u8>,
    details: &PieceDetails,
) -> Result<(), AllocError> {
    let (name, form) = match details.lines {
        ShownLines::Schedule => ("schedule", ItemForm::Line),
        ShownLines::Core => ("core", ItemForm::Line),
        ShownLines::OpenCubes => ("open_cubes", ItemForm::Literals),
        ShownLines::NoLines => return Ok(()),
    };
    let Some((_verdict, lines)) = cut_line(details.report.as_slice()) else {
        return Ok(());
    };
    let items = items_of(alloc, lines, form)?;
    push_list(alloc, members, name, items.as_slice())
}

/// The members.
fn members_of(alloc: Global, details: &PieceDetails) -> Result<Vec<u8>, AllocError> {
    let mut members = Vec::new(alloc);
    push_report(alloc, &mut members, details)?;
    let why = items_of(alloc, details.notes.as_slice(), ItemForm::Sentence)?;
    push_list(alloc, &mut members, "why", why.as_slice())?;
    Ok(members)
}

/// Appends the members of an object of JSON that say the details, each behind a comma: `schedule`, `core` or `open_cubes`, with the lines of the
/// report, and `why`, with the sentences of the explanation. A member without lines is left out.
///
/// # Errors
///
/// `AllocError` if memory runs out.
pub fn push_members(
    alloc: Global,
    text: &mut Vec<u8>,
    details: &PieceDetails,
) -> Result<(), AllocError>
    ensures { OnOk result (AppendsSome text.old.items text.new.items) }
{
    let members = members_of(alloc, details)?;
    text.extend_from_slice(members.as_slice())
}

/// Appends the member that names the files which are kept.
///
/// # Errors
///
/// `AllocError` if memory runs out.
pub fn push_kept(alloc: Global, text: &mut Vec<u8>, name: &str) -> Result<(), AllocError>
    ensures { OnOk result (text.new.items ≡ text.old.items ++ (codes ",\"kept\":" ++ json_string name.now)) }
{
    text.extend_from_slice(b",\"kept\":")?;
    push_json_string(alloc, text, name)
}
