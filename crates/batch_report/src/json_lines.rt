//! The heads of objects of JSON, a line each.

ghost use Rattle.std.specs.Prelude.{◌≡◌, ◌+◌, ◌++◌, IfSome, OnOk, codes};
ghost use Rattle.batch_report.specs.Findings.{finding_of};
ghost use Rattle.batch_report.specs.JsonLines.{area_object, file_member, header_line, json_head, json_verdict, member, numbered_members, place_member, place_members, refusal_object, said_at};
ghost use Rattle.text_lines.specs.Lines.{lines_of};

use crate::block::{DecidedPiece, NumberedPiece};
use crate::piece_verdict::PieceVerdict;
use json_text::push_json_string;
use std::alloc::{AllocError, Global};
use text_lines::lines::cut_line;
use trace_pieces::says_something;
use verdict_report::Fault;

/// The place, from 0, of the first line of a piece that says something, or of the first line if none does.
fn place_of_header(text: &[u8]) -> usize
    ensures { result ≡ said_at 0 (lines_of text.now) }
{
    let mut rest = text;
    let mut passed = 0usize;
    while let Some((line, after)) = cut_line(rest) {
        if says_something(line) {
            return passed;
        }
        passed += 1;
        rest = after;
    }
    0
}

/// The line of the header in the whole file, from 1, or nothing if it is too large a number. That does not happen, since `BatchProgress` bounds the lines
/// that are counted; no contract hands this bound on, so the caller answers that memory ran out.
fn line_of_header(found: &DecidedPiece<'_>) -> Option<usize>
    ensures { IfSome result (λ line. line ≡ header_line (finding_of found.now)) }
{
    let place = place_of_header(found.piece.text).checked_add(1)?;
    found.piece.before.checked_add(place)
}

/// Appends a member that is a number.
fn push_number(
    alloc: Global,
    text: &mut Vec<u8>,
    name: &str,
    number: usize,
) -> Result<(), AllocError>
    ensures { OnOk result (text.new.items ≡ text.old.items ++ member name.now number) }
{
    let line = format!(in alloc; ",\"{name}\":{number}")?;
    text.extend_from_slice(line.as_bytes())
}

/// Appends the place of a refusal, if it has one. In a batch only a fault of the trace has a place, so it is a line.
fn push_place(alloc: Global, text: &mut Vec<u8>, place: Option<usize>) -> Result<(), AllocError>
    ensures { OnOk result (text.new.items ≡ text.old.items ++ place_member place) }
{
    match place {
        None => Ok(()),
        Some(place) => push_number(alloc, text, "line", place),
    }
}

/// Appends the number of a refusal and what stands behind it, if it has one.
fn push_numbered(
    alloc: Global,
    text: &mut Vec<u8>,
    number: Option<u8>,
    name: &str,
    place: Option<usize>,
) -> Result<(), AllocError>
    ensures { OnOk result (text.new.items ≡ text.old.items ++ numbered_members number name.now place) }
{
    let Some(number) = number else {
        return Ok(());
    };
    let line = format!(in alloc; ",\"number\":{number},\"name\":\"{name}\"")?;
    text.extend_from_slice(line.as_bytes())?;
    push_place(alloc, text, place)
}

/// Appends the object of a refusal that has more than an area.
fn push_area(alloc: Global, text: &mut Vec<u8>, fault: &Fault) -> Result<(), AllocError>
    ensures { OnOk result (text.new.items ≡ text.old.items ++ area_object fault.now) }
{
    let area = fault.area();
    let line = format!(in alloc; "{{\"area\":\"{area}\"")?;
    text.extend_from_slice(line.as_bytes())?;
    push_numbered(alloc, text, fault.number(), fault.name(), fault.place())?;
    text.extend_from_slice(b"}")
}

/// Appends the object of a refusal.
fn push_refusal(alloc: Global, text: &mut Vec<u8>, fault: &Fault) -> Result<(), AllocError>
    ensures { OnOk result (text.new.items ≡ text.old.items ++ refusal_object fault.now) }
{
    match fault {
        Fault::OutOfMemory => text.extend_from_slice(b"{\"area\":\"memory\"}"),
        _ => push_area(alloc, text, fault),
    }
}

/// Appends the word of a verdict and a number.
fn push_counted(
    alloc: Global,
    text: &mut Vec<u8>,
    word: &str,
    name: &str,
    number: usize,
) -> Result<(), AllocError>
    ensures { OnOk result (text.new.items ≡ text.old.items ++ (word.now ++ member name.now number)) }
{
    text.extend_from_slice(word.as_bytes())?;
    push_number(alloc, text, name, number)
}

/// Appends the word of an INCONSISTENT and two numbers.
fn push_inconsistent(
    alloc: Global,
    text: &mut Vec<u8>,
    operations: usize,
    name: &str,
    number: usize,
) -> Result<(), AllocError>
    ensures { OnOk result (text.new.items ≡ text.old.items ++ (codes "\"INCONSISTENT\"" ++ (member (codes "operations") operations ++ member name.now number))) }
{
    push_counted(alloc, text, "\"INCONSISTENT\"", "operations", operations)?;
    push_number(alloc, text, name, number)
}

/// Appends the word of an UNKNOWN and how far its survey came.
fn push_undecided(
    alloc: Global,
    text: &mut Vec<u8>,
    placed: u32,
    undecided: u32,
) -> Result<(), AllocError>
    ensures { OnOk result (text.new.items ≡ text.old.items ++ (codes "\"UNKNOWN\"" ++ (member (codes "placed") placed ++ member (codes "undecided") undecided))) }
{
    push_counted(alloc, text, "\"UNKNOWN\"", "placed", placed as usize)?;
    push_number(alloc, text, "undecided", undecided as usize)
}

/// Appends the word of a refusal and its object.
fn push_refused(alloc: Global, text: &mut Vec<u8>, fault: &Fault) -> Result<(), AllocError>
    ensures { OnOk result (text.new.items ≡ text.old.items ++ (codes "\"refused\",\"refusal\":" ++ refusal_object fault.now)) }
{
    text.extend_from_slice(b"\"refused\",\"refusal\":")?;
    push_refusal(alloc, text, fault)
}

/// Appends the verdict and its numbers.
fn push_verdict(alloc: Global, text: &mut Vec<u8>, verdict: &PieceVerdict) -> Result<(), AllocError>
    ensures { OnOk result (text.new.items ≡ text.old.items ++ json_verdict verdict.now) }
{
    match verdict {
        PieceVerdict::Consistent => text.extend_from_slice(b"\"CONSISTENT\""),
        PieceVerdict::Refuted { cubes } => push_counted(
            alloc,
            text,
            "\"INCONSISTENT\"",
            "cubes",
            *cubes as usize,
        ),
        PieceVerdict::RefutedCore { operations, cubes } => push_inconsistent(
            alloc,
            text,
            *operations,
            "cubes",
            *cubes as usize,
        ),
        PieceVerdict::Reasoned {
            operations,
            reasons,
        } => push_inconsistent(alloc, text, *operations, "reasons", *reasons),
        PieceVerdict::Open { left } => push_counted(alloc, text, "\"UNKNOWN\"", "open", *left),
        PieceVerdict::Undecided { placed, undecided } => push_undecided(
            alloc, text, *placed, *undecided,
        ),
        PieceVerdict::Refused(fault) => push_refused(alloc, text, fault),
    }
}

/// Appends the file.
fn push_file(alloc: Global, text: &mut Vec<u8>, file: &str) -> Result<(), AllocError>
    ensures { OnOk result (text.new.items ≡ text.old.items ++ file_member file.now) }
{
    text.extend_from_slice(b"{\"file\":")?;
    push_json_string(alloc, text, file)
}

/// Appends the number of the piece and the line of its header.
fn push_places(
    alloc: Global,
    text: &mut Vec<u8>,
    number: usize,
    line: usize,
) -> Result<(), AllocError>
    ensures { OnOk result (text.new.items ≡ text.old.items ++ place_members number line) }
{
    let places = format!(in alloc; ",\"number\":{number},\"line\":{line},\"verdict\":")?;
    text.extend_from_slice(places.as_bytes())
}

/// Appends the head of an object: the file, the number of the piece, the line of its header, and the verdict.
pub(crate) fn push_head(
    alloc: Global,
    text: &mut Vec<u8>,
    piece: &NumberedPiece<'_>,
) -> Result<(), AllocError>
    ensures { OnOk result (text.new.items ≡ text.old.items ++ json_head piece.now.file.now piece.now.number (finding_of piece.now.found)) }
{
    let Some(line) = line_of_header(&piece.found) else {
        return Err(AllocError);
    };
    push_file(alloc, text, piece.file)?;
    push_places(alloc, text, piece.number, line)?;
    push_verdict(alloc, text, &piece.found.verdict)?;
    Ok(())
}
