//! The words of lines: why one of the orders of its clause stands.

ghost use Rattle.std.specs.Prelude.{◌≡◌, ◌++◌, OnOk};
ghost use Rattle.std.specs.List.{flat_map};
ghost use Rattle.trace_semantics.specs.Trace.{value_of};
ghost use Rattle.reason_notes.specs.Words.{counting_text, cycle_text, end_text, first_text, last_rest, members_text, pieces_text, read_text, reason_text, rest_text, step_text, waiting_text};

use crate::listed::{count_after, first_of, push_more, push_number};
use crate::member_words::push_members;
use crate::operation_words::{push_name, push_read};
use crate::piece_words::{last_words, push_pieces, rest_words};
use crate::too_few_words::push_too_few;
use reason_clauses::cause::ReasonRefusal;
use reason_clauses::held_at::value_at;
use reason_text::member_part::MemberPart;
use reason_text::reason_line::ReasonLine;
use reason_text::source_piece::SourcePiece;
use std::alloc::AllocError;
use trace_semantics::trace::Trace;
use writer_table::operation_place::OperationPlace;

/// Appends the operations, each as `A before`.
fn push_steps(
    text: &mut Vec<u8>,
    trace: &Trace,
    operations: &[OperationPlace],
) -> Result<(), AllocError>
    ensures { OnOk result (text.new.items ≡ text.old.items ++ flat_map (step_text trace.now) operations.now) }
{
    for n in operations {
        push_name(text, trace, *n)?;
        text.extend_from_slice(b" before ")?;
    }
    Ok(())
}

/// Appends the first of the operations, if there is one.
fn push_first(
    text: &mut Vec<u8>,
    trace: &Trace,
    operations: &[OperationPlace],
) -> Result<(), AllocError>
    ensures { OnOk result (text.new.items ≡ text.old.items ++ first_text trace.now operations.now) }
{
    match operations.split_first() {
        Some((first, _others)) => push_name(text, trace, *first),
        None => Ok(()),
    }
}

/// Appends that the operations do not stand in a cycle: each before the next, and the last before the first, which is named again at the end.
fn push_cycle(
    text: &mut Vec<u8>,
    trace: &Trace,
    operations: &[OperationPlace],
) -> Result<(), AllocError>
    ensures { OnOk result (text.new.items ≡ text.old.items ++ cycle_text trace.now operations.now) }
{
    text.extend_from_slice(b"no schedule has ")?;
    push_steps(text, trace, first_of(operations))?;
    push_more(text, "", count_after(operations), " more before ")?;
    push_first(text, trace, operations)?;
    Ok(())
}

/// Appends what the operation reads, and from where it may be, as `Q.2 reads 0 at data, from the initial value, which P.1 would hide, or from an
/// operation before it`. The last words are on the sources that no piece takes.
fn push_source(
    text: &mut Vec<u8>,
    trace: &Trace,
    reader: OperationPlace,
    pieces: &[SourcePiece],
) -> Result<(), ReasonRefusal>
    ensures { OnOk result (text.new.items ≡ text.old.items ++ (read_text trace.now reader ++ (pieces_text trace.now pieces.now ++ rest_text pieces.now))) }
{
    push_read(text, trace, reader)?;
    push_pieces(text, trace, pieces)?;
    text.extend_from_slice(rest_words(pieces).as_bytes())?;
    Ok(())
}

/// Appends how the location ends. A trace need not give it a final value; then some write is still the last one.
fn push_end(text: &mut Vec<u8>, location: &[u8], final_value: Option<u64>) -> Result<(), AllocError>
    ensures { OnOk result (text.new.items ≡ text.old.items ++ end_text location.now final_value) }
{
    let Some(value) = final_value else {
        text.extend_from_slice(location)?;
        text.extend_from_slice(b" has a last value")?;
        return Ok(());
    };
    text.extend_from_slice(b"the final value of ")?;
    text.extend_from_slice(location)?;
    text.extend_from_slice(b" is ")?;
    push_number(text, value)?;
    Ok(())
}

/// Appends how the location ends, and who may be its last writer.
fn push_last(
    text: &mut Vec<u8>,
    trace: &Trace,
    location: &[u8],
    pieces: &[SourcePiece],
) -> Result<(), AllocError>
    ensures { OnOk result (text.new.items ≡ text.old.items ++ (end_text location.now (value_of trace.now.final_values location.now) ++ (pieces_text trace.now pieces.now ++ last_rest pieces.now))) }
{
    push_end(text, location, value_at(trace.final_values(), location))?;
    push_pieces(text, trace, pieces)?;
    text.extend_from_slice(last_words(pieces).as_bytes())?;
    Ok(())
}

/// Appends the words, and what the parts say.
fn push_together(
    text: &mut Vec<u8>,
    trace: &Trace,
    words: &str,
    parts: &[MemberPart<'_>],
) -> Result<(), ReasonRefusal>
    ensures { OnOk result (text.new.items ≡ text.old.items ++ (words.now ++ members_text trace.now parts.now)) }
{
    text.extend_from_slice(words.as_bytes())?;
    push_members(text, trace, parts)
}

/// Appends that the members are too many for the sources that no piece takes.
fn push_counting(
    text: &mut Vec<u8>,
    trace: &Trace,
    parts: &[MemberPart<'_>],
) -> Result<(), ReasonRefusal>
    ensures { OnOk result (text.new.items ≡ text.old.items ++ counting_text trace.now parts.now) }
{
    push_together(
        text,
        trace,
        "each of these must have a source of its own, and the sources that are left to them are too few",
        parts,
    )
}

/// Appends that each of the operations waits for one of them.
fn push_waiting(
    text: &mut Vec<u8>,
    trace: &Trace,
    parts: &[MemberPart<'_>],
) -> Result<(), ReasonRefusal>
    ensures { OnOk result (text.new.items ≡ text.old.items ++ waiting_text trace.now parts.now) }
{
    push_together(text, trace, "one of these would have to come first", parts)
}

/// Appends why one of the orders of the line's clause stands. Lines without a clause have no words, and are not noted.
pub fn push_reason(
    text: &mut Vec<u8>,
    trace: &Trace,
    line: &ReasonLine<'_>,
) -> Result<(), ReasonRefusal>
    ensures { OnOk result (text.new.items ≡ text.old.items ++ reason_text trace.now line.now) }
{
    match line {
        ReasonLine::Cycle(operations) => push_cycle(text, trace, operations.as_slice())?,
        ReasonLine::Before(_pair) => text.extend_from_slice(b"by a before line")?,
        ReasonLine::Ended(_pair) => text.extend_from_slice(b"by their times")?,
        ReasonLine::Source(reader, pieces) => {
            push_source(text, trace, *reader, pieces.as_slice())?
        }
        ReasonLine::Last(location, pieces) => {
            push_last(text, trace, location, pieces.as_slice())?
        }
        ReasonLine::TooFew(location, value) => push_too_few(text, trace, location, *value)?,
        ReasonLine::Counting(parts) => push_counting(text, trace, parts.as_slice())?,
        ReasonLine::Waiting(parts) => push_waiting(text, trace, parts.as_slice())?,
        ReasonLine::Skipped => {}
        ReasonLine::Variable(_pair) => {}
        ReasonLine::Derivation => {}
    }
    Ok(())
}
