//! The words of pieces: from where a value may be, and what that asks.
//!
//! A piece takes a stretch of the possible sources of a reader, or of the last writers of a location, and says which order bars them. A witness
//! writes the location or reads another value there, so that what was written before it is not read after it.

ghost use Rattle.std.specs.Prelude.{◌≡◌, ◌++◌, OnOk};
ghost use Rattle.std.specs.List.{flat_map, list_any};
ghost use Rattle.reason_text.specs.declared.source_piece.SourcePiece.TheVariants.{Apart, Hidden, Initial, Later, Others};
ghost use Rattle.reason_notes.specs.Words.{hidden_text, is_main, last_rest, piece_text, pieces_text, rest_text};

use crate::listed::{count_after, first_of, push_more};
use crate::operation_words::push_name;
use reason_text::source_piece::SourcePiece;
use std::alloc::AllocError;
use trace_semantics::trace::Trace;
use writer_table::operation_place::OperationPlace;

/// Appends that the operation would hide this.
fn push_hidden(text: &mut Vec<u8>, trace: &Trace, witness: OperationPlace) -> Result<(), AllocError>
    ensures { OnOk result (text.new.items ≡ text.old.items ++ hidden_text trace.now witness) }
{
    text.extend_from_slice(b", which ")?;
    push_name(text, trace, witness)?;
    text.extend_from_slice(b" would hide")?;
    Ok(())
}

/// Appends that the value is from up to the bound, which the witness would hide.
fn push_up_to(
    text: &mut Vec<u8>,
    trace: &Trace,
    witness: OperationPlace,
    bound: OperationPlace,
) -> Result<(), AllocError>
    ensures { OnOk result (text.new.items ≡ text.old.items ++ piece_text trace.now (Hidden witness bound)) }
{
    text.extend_from_slice(b", from ")?;
    push_name(text, trace, bound)?;
    text.extend_from_slice(b" or earlier in its process")?;
    push_hidden(text, trace, witness)
}

/// Appends that the value is from this operation or a later one of its process, which asks that the operation stands before the reader.
fn push_later(text: &mut Vec<u8>, trace: &Trace, limit: OperationPlace) -> Result<(), AllocError>
    ensures { OnOk result (text.new.items ≡ text.old.items ++ piece_text trace.now (Later limit)) }
{
    text.extend_from_slice(b", from ")?;
    push_name(text, trace, limit)?;
    text.extend_from_slice(b" or later in its process, before it")?;
    Ok(())
}

/// Appends that the value is the initial one, which the witness would hide.
fn push_initial(
    text: &mut Vec<u8>,
    trace: &Trace,
    witness: OperationPlace,
) -> Result<(), AllocError>
    ensures { OnOk result (text.new.items ≡ text.old.items ++ piece_text trace.now (Initial witness)) }
{
    text.extend_from_slice(b", from the initial value")?;
    push_hidden(text, trace, witness)
}

/// Appends that the value is from any other, which the witness would hide.
fn push_others(text: &mut Vec<u8>, trace: &Trace, witness: OperationPlace) -> Result<(), AllocError>
    ensures { OnOk result (text.new.items ≡ text.old.items ++ piece_text trace.now (Others witness)) }
{
    text.extend_from_slice(b", from any other")?;
    push_hidden(text, trace, witness)
}

/// Appends that the value is from any other, and the operation not between that and the reader. The initial value is none of these others.
fn push_apart(
    text: &mut Vec<u8>,
    trace: &Trace,
    operation: OperationPlace,
) -> Result<(), AllocError>
    ensures { OnOk result (text.new.items ≡ text.old.items ++ piece_text trace.now (Apart operation)) }
{
    text.extend_from_slice(b", from any other, and ")?;
    push_name(text, trace, operation)?;
    text.extend_from_slice(b" stands after that or before it")?;
    Ok(())
}

/// Appends what the piece says.
pub fn push_piece(text: &mut Vec<u8>, trace: &Trace, piece: SourcePiece) -> Result<(), AllocError>
    ensures { OnOk result (text.new.items ≡ text.old.items ++ piece_text trace.now piece) }
{
    match piece {
        SourcePiece::Hidden(witness, bound) => push_up_to(text, trace, witness, bound),
        SourcePiece::Later(limit) => push_later(text, trace, limit),
        SourcePiece::Initial(witness) => push_initial(text, trace, witness),
        SourcePiece::Others(witness) => push_others(text, trace, witness),
        SourcePiece::Apart(operation) => push_apart(text, trace, operation),
    }
}

/// Appends what each of the pieces says.
fn push_each(text: &mut Vec<u8>, trace: &Trace, pieces: &[SourcePiece]) -> Result<(), AllocError>
    ensures { OnOk result (text.new.items ≡ text.old.items ++ flat_map (piece_text trace.now) pieces.now) }
{
    for piece in pieces {
        push_piece(text, trace, *piece)?;
    }
    Ok(())
}

/// Appends what the first of the pieces say, and how many others there are.
pub fn push_pieces(
    text: &mut Vec<u8>,
    trace: &Trace,
    pieces: &[SourcePiece],
) -> Result<(), AllocError>
    ensures { OnOk result (text.new.items ≡ text.old.items ++ pieces_text trace.now pieces.now) }
{
    push_each(text, trace, first_of(pieces))?;
    push_more(text, ", or ", count_after(pieces), " more")
}

/// Returns whether the piece takes all sources that no other one does.
fn is_main(piece: SourcePiece) -> bool
    ensures { result ≡ is_main piece }
{
    match piece {
        SourcePiece::Hidden(_witness, _bound) => false,
        SourcePiece::Later(_limit) => false,
        SourcePiece::Initial(_witness) => false,
        SourcePiece::Others(_witness) => true,
        SourcePiece::Apart(_operation) => true,
    }
}

/// Returns whether one of the pieces takes all sources that no other one does.
fn has_main(pieces: &[SourcePiece]) -> bool
    ensures { result ≡ list_any is_main pieces.now }
{
    pieces.iter().any(|piece| is_main(*piece))
}

/// The words on the sources that no piece takes: they have to stand before the reader. If one of the pieces takes all others, none are left.
pub fn rest_words(pieces: &[SourcePiece]) -> &'static str
    ensures { result.now ≡ rest_text pieces.now }
{
    if pieces.is_empty() {
        return ", from an operation before it";
    }
    if has_main(pieces) {
        return "";
    }
    ", or from an operation before it"
}

/// The words on last writers if there is no piece: no writer may be the last one, since each that could be needs a piece.
pub fn last_words(pieces: &[SourcePiece]) -> &'static str
    ensures { result.now ≡ last_rest pieces.now }
{
    if pieces.is_empty() {
        ", which no last write of a process leaves"
    } else {
        ""
    }
}
