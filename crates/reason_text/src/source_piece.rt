//! Pieces: what a line says of some of the sources of a reader.

ghost use Rattle.std.specs.Prelude.{◌≡◌, ◌<◌, ◌∷◌, ◌++◌, [], false, codes, length, true, IfOk, IfErr, IfSome, MatchOption};
ghost use Rattle.std.specs.List.{All, flat_map};
ghost use Rattle.text_lines.specs.Words.{words_of};
ghost use Rattle.trace_semantics.specs.Trace.{TraceValue};
ghost use Rattle.order_clauses.specs.Numbered.{IsKnown};
ghost use Rattle.reason_clauses.specs.declared.cause.ReasonCause.TheVariants.{BadLine};
ghost use Rattle.reason_text.specs.LineFault.{HasOperandsFault, HasPieceFault, HasPiecesFault, is_single};
ghost use Rattle.reason_text.specs.OperationNumbers.{IsTrueRefusal};
ghost use Rattle.reason_text.specs.OperationWord.{operation_word};
ghost use Rattle.reason_text.specs.SourcePiece.{piece_words, IsKnownPiece};

use crate::line_words::{cut_operation, is_kind};
use crate::operation_table::OperationTable;
use reason_clauses::cause::{ReasonCause, ReasonRefusal};
use std::alloc::Global;
use text_lines::words::cut_word;
use writer_table::operation_place::OperationPlace;

/// What bars some of the sources of a reader.
#[derive(Clone, Copy, Debug, PartialEq, Eq)]
pub enum SourcePiece {
    /// `h X B`: the witness bars those in the process of the second operation up to it.
    Hidden(OperationPlace, OperationPlace),
    /// `f B`: those in its process from the operation on stand after the reader.
    Later(OperationPlace),
    /// `i X`: the witness bars the initial value.
    Initial(OperationPlace),
    /// `H X`: the witness bars all others.
    Others(OperationPlace),
    /// `L U`: the operation stands between the reader and all others.
    Apart(OperationPlace),
}

/// Returns whether the word begins a piece of one operation.
fn begins_piece(kind: &[u8]) -> bool
    ensures { result ≡ is_single kind.now }
{
    is_kind(kind, "f") || is_kind(kind, "i") || is_kind(kind, "H") || is_kind(kind, "L")
}

/// The piece that the word begins, of this operation.
fn piece_of(kind: &[u8], operation: OperationPlace) -> Option<SourcePiece>
    ensures words { MatchOption result (is_single kind.now ≡ false) (λ piece. (t : TraceValue) → kind.now ∷ operation_word t operation ∷ [] ≡ piece_words t piece) }
    ensures known { IfSome result (λ piece. (t : TraceValue) → IsKnown t operation → IsKnownPiece t piece) }
{
    if is_kind(kind, "f") {
        return Some(SourcePiece::Later(operation));
    }
    if is_kind(kind, "i") {
        return Some(SourcePiece::Initial(operation));
    }
    if is_kind(kind, "H") {
        return Some(SourcePiece::Others(operation));
    }
    if is_kind(kind, "L") {
        return Some(SourcePiece::Apart(operation));
    }
    None
}

/// The piece of two operations, and what follows it in the line.
fn cut_hidden<'a>(
    table: &OperationTable<'a>,
    rest: &'a [u8],
) -> Result<(SourcePiece, &'a [u8]), ReasonRefusal>
    ensures shorter { IfOk result (λ cut. length cut.1.now < length rest.now) }
    ensures words { IfOk result (λ cut. codes "h" ∷ words_of rest.now ≡ piece_words table.now.trace.now cut.0 ++ words_of cut.1.now) }
    ensures known { IfOk result (λ cut. IsKnownPiece table.now.trace.now cut.0) }
    ensures faulty { IfErr result (IsTrueRefusal table.now (λ t. HasOperandsFault t 2 (words_of rest.now))) }
{
    let (witness, after) = cut_operation(table, rest)?;
    let (bound, end) = cut_operation(table, after)?;
    Ok((SourcePiece::Hidden(witness, bound), end))
}

/// The piece of one operation that the word begins, and what follows it in the line. The caller has asked `begins_piece`, so `piece_of` gives one.
fn cut_single<'a>(
    table: &OperationTable<'a>,
    kind: &'a [u8],
    rest: &'a [u8],
) -> Result<(SourcePiece, &'a [u8]), ReasonRefusal>
    ensures shorter { IfOk result (λ cut. length cut.1.now < length rest.now) }
    ensures words { IfOk result (λ cut. kind.now ∷ words_of rest.now ≡ piece_words table.now.trace.now cut.0 ++ words_of cut.1.now) }
    ensures known { IfOk result (λ cut. IsKnownPiece table.now.trace.now cut.0) }
    ensures faulty { IfErr result (IsTrueRefusal table.now (λ t cause. is_single kind.now ≡ true → HasOperandsFault t 1 (words_of rest.now) cause)) }
{
    let (operation, end) = cut_operation(table, rest)?;
    match piece_of(kind, operation) {
        Some(piece) => Ok((piece, end)),
        None => Err(ReasonRefusal::For(ReasonCause::BadLine)),
    }
}

/// The piece that the word begins, and what follows it in the line.
pub fn cut_piece<'a>(
    table: &OperationTable<'a>,
    kind: &'a [u8],
    rest: &'a [u8],
) -> Result<(SourcePiece, &'a [u8]), ReasonRefusal>
    ensures shorter { IfOk result (λ cut. length cut.1.now < length rest.now) }
    ensures words { IfOk result (λ cut. kind.now ∷ words_of rest.now ≡ piece_words table.now.trace.now cut.0 ++ words_of cut.1.now) }
    ensures known { IfOk result (λ cut. IsKnownPiece table.now.trace.now cut.0) }
    ensures faulty { IfErr result (IsTrueRefusal table.now (λ t. HasPieceFault t kind.now (words_of rest.now))) }
{
    if is_kind(kind, "h") {
        return cut_hidden(table, rest);
    }
    if !begins_piece(kind) {
        return Err(ReasonRefusal::For(ReasonCause::BadLine));
    }
    cut_single(table, kind, rest)
}

/// The pieces that the words of the line are. Whether one stands twice, or may stand there, is not asked here.
#[tactic(auto, using(crate::proofs::PieceLemmas::next_piece, crate::proofs::PieceLemmas::last_piece))]
pub fn read_pieces<'a>(
    alloc: Global,
    table: &OperationTable<'a>,
    line: &'a [u8],
) -> Result<Vec<SourcePiece>, ReasonRefusal>
    ensures words { IfOk result (λ pieces. words_of line.now ≡ flat_map (piece_words table.now.trace.now) pieces.items) }
    ensures known { IfOk result (λ pieces. All (IsKnownPiece table.now.trace.now) pieces.items) }
    ensures faulty { IfErr result (IsTrueRefusal table.now (λ t. HasPiecesFault t (words_of line.now))) }
{
    let mut pieces = Vec::new(alloc);
    let mut rest = line;
    while let Some((kind, after)) = cut_word(rest) {
        let (piece, end) = cut_piece(table, kind, after)?;
        pieces.push(piece)?;
        rest = end;
    }
    Ok(pieces)
}
