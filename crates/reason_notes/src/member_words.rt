//! The words of members: operations that wait, updates, and ends of locations, with their pieces.

ghost use Rattle.std.specs.Prelude.{◌≡◌, ◌++◌, codes, OnOk};
ghost use Rattle.std.specs.List.{flat_map};
ghost use Rattle.reason_text.specs.declared.member_part.MemberPart.TheVariants.{Waits};
ghost use Rattle.reason_notes.specs.Words.{member_text, members_text};

use crate::listed::{count_after, first_of, push_more};
use crate::operation_words::{push_name, push_read};
use crate::piece_words::push_piece;
use order_clauses::order_pair::OrderPair;
use reason_clauses::cause::ReasonRefusal;
use reason_text::member_part::MemberPart;
use std::alloc::AllocError;
use trace_semantics::trace::Trace;

/// Appends that the first operation waits for the second.
fn push_waiting(text: &mut Vec<u8>, trace: &Trace, pair: OrderPair) -> Result<(), AllocError>
    ensures { OnOk result (text.new.items ≡ text.old.items ++ member_text trace.now (Waits pair)) }
{
    text.extend_from_slice(b"; ")?;
    push_name(text, trace, pair.first)?;
    text.extend_from_slice(b", which waits for ")?;
    push_name(text, trace, pair.second)
}

/// Appends that the location ends.
fn push_end_of(text: &mut Vec<u8>, location: &[u8]) -> Result<(), AllocError>
    ensures { OnOk result (text.new.items ≡ text.old.items ++ (codes "; the end of " ++ location.now)) }
{
    text.extend_from_slice(b"; the end of ")?;
    text.extend_from_slice(location)?;
    Ok(())
}

/// Appends what the part says.
fn push_member(text: &mut Vec<u8>, trace: &Trace, part: MemberPart<'_>) -> Result<(), ReasonRefusal>
    ensures { OnOk result (text.new.items ≡ text.old.items ++ member_text trace.now part.entry) }
{
    match part {
        MemberPart::Reads(reader) => {
            text.extend_from_slice(b"; ")?;
            push_read(text, trace, reader)
        }
        MemberPart::Waits(pair) => {
            push_waiting(text, trace, pair)?;
            Ok(())
        }
        MemberPart::Ends(location) => {
            push_end_of(text, location)?;
            Ok(())
        }
        MemberPart::Piece(piece) => {
            push_piece(text, trace, piece)?;
            Ok(())
        }
    }
}

/// Appends what each of the parts says.
fn push_each(
    text: &mut Vec<u8>,
    trace: &Trace,
    parts: &[MemberPart<'_>],
) -> Result<(), ReasonRefusal>
    ensures { OnOk result (text.new.items ≡ text.old.items ++ flat_map (member_text trace.now) parts.now) }
{
    for part in parts {
        push_member(text, trace, *part)?;
    }
    Ok(())
}

/// Appends what the first of the parts say, and how many others there are.
pub fn push_members(
    text: &mut Vec<u8>,
    trace: &Trace,
    parts: &[MemberPart<'_>],
) -> Result<(), ReasonRefusal>
    ensures { OnOk result (text.new.items ≡ text.old.items ++ members_text trace.now parts.now) }
{
    push_each(text, trace, first_of(parts))?;
    push_more(text, "; and ", count_after(parts), " more")?;
    Ok(())
}
