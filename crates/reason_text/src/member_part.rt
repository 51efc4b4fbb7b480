//! Members of a line: operations that wait, updates, and ends of locations, each with its pieces behind it.

ghost use Rattle.std.specs.Prelude.{◌≡◌, ◌<◌, ◌∷◌, ◌++◌, [], codes, length, IfOk, IfErr};
ghost use Rattle.std.specs.List.{All, flat_map};
ghost use Rattle.text_lines.specs.Words.{words_of};
ghost use Rattle.trace_semantics.specs.Trace.{TraceValue};
ghost use Rattle.reason_clauses.specs.declared.cause.ReasonCause.TheVariants.{BadLine};
ghost use Rattle.reason_clauses.specs.RefusedBy.{IsRefusedBy};
ghost use Rattle.reason_text.specs.LineFault.{HasOperandsFault, HasPartFault, HasPartsFault};
ghost use Rattle.reason_text.specs.MemberPart.{part_words, IsKnownPart};
ghost use Rattle.reason_text.specs.OperationNumbers.{IsTrueRefusal};

use crate::line_words::{cut_operation, is_kind};
use crate::operation_table::OperationTable;
use crate::source_piece::{SourcePiece, cut_piece};
use order_clauses::order_pair::OrderPair;
use reason_clauses::cause::{ReasonCause, ReasonRefusal};
use std::alloc::Global;
use text_lines::words::cut_word;
use writer_table::operation_place::OperationPlace;

/// A member of a line, or a piece of the member before it.
#[derive(Clone, Copy, Debug, PartialEq, Eq)]
pub enum MemberPart<'a> {
    /// `r R`: the operation reads.
    Reads(OperationPlace),
    /// `m X Y`: the first operation waits for the second.
    Waits(OrderPair),
    /// `l A`: the location has a last writer.
    Ends(&'a [u8]),
    /// What bars some of the sources of the member, or of its last writers.
    Piece(SourcePiece),
}

/// The operation that reads, and what follows it in the line.
fn cut_reader<'a>(
    table: &OperationTable<'a>,
    rest: &'a [u8],
) -> Result<(MemberPart<'a>, &'a [u8]), ReasonRefusal>
    ensures shorter { IfOk result (λ cut. length cut.1.now < length rest.now) }
    ensures words { IfOk result (λ cut. codes "r" ∷ words_of rest.now ≡ part_words table.now.trace.now cut.0 ++ words_of cut.1.now) }
    ensures known { IfOk result (λ cut. IsKnownPart table.now.trace.now cut.0) }
    ensures faulty { IfErr result (IsTrueRefusal table.now (λ t. HasOperandsFault t 1 (words_of rest.now))) }
{
    let (reader, end) = cut_operation(table, rest)?;
    Ok((MemberPart::Reads(reader), end))
}

/// The operation that waits for another one, and what follows both in the line.
fn cut_waiting<'a>(
    table: &OperationTable<'a>,
    rest: &'a [u8],
) -> Result<(MemberPart<'a>, &'a [u8]), ReasonRefusal>
    ensures shorter { IfOk result (λ cut. length cut.1.now < length rest.now) }
    ensures words { IfOk result (λ cut. codes "m" ∷ words_of rest.now ≡ part_words table.now.trace.now cut.0 ++ words_of cut.1.now) }
    ensures known { IfOk result (λ cut. IsKnownPart table.now.trace.now cut.0) }
    ensures faulty { IfErr result (IsTrueRefusal table.now (λ t. HasOperandsFault t 2 (words_of rest.now))) }
{
    let (first, after) = cut_operation(table, rest)?;
    let (second, end) = cut_operation(table, after)?;
    Ok((MemberPart::Waits(OrderPair { first, second }), end))
}

/// The location, and what follows it in the line.
fn cut_end<'a>(rest: &'a [u8]) -> Result<(MemberPart<'a>, &'a [u8]), ReasonRefusal>
    ensures shorter { IfOk result (λ cut. length cut.1.now < length rest.now) }
    ensures words { IfOk result (λ cut. (t : TraceValue) → codes "l" ∷ words_of rest.now ≡ part_words t cut.0 ++ words_of cut.1.now) }
    ensures known { IfOk result (λ cut. (t : TraceValue) → IsKnownPart t cut.0) }
    ensures faulty { IfErr result (IsRefusedBy (λ cause. (words_of rest.now ≡ []) × (cause ≡ BadLine))) }
{
    match cut_word(rest) {
        Some((location, end)) => Ok((MemberPart::Ends(location), end)),
        None => Err(ReasonRefusal::For(ReasonCause::BadLine)),
    }
}

/// The part that the word begins, and what follows it in the line.
fn cut_part<'a>(
    table: &OperationTable<'a>,
    kind: &'a [u8],
    rest: &'a [u8],
) -> Result<(MemberPart<'a>, &'a [u8]), ReasonRefusal>
    ensures shorter { IfOk result (λ cut. length cut.1.now < length rest.now) }
    ensures words { IfOk result (λ cut. kind.now ∷ words_of rest.now ≡ part_words table.now.trace.now cut.0 ++ words_of cut.1.now) }
    ensures known { IfOk result (λ cut. IsKnownPart table.now.trace.now cut.0) }
    ensures faulty { IfErr result (IsTrueRefusal table.now (λ t. HasPartFault t kind.now (words_of rest.now))) }
{
    if is_kind(kind, "r") {
        return cut_reader(table, rest);
    }
    if is_kind(kind, "m") {
        return cut_waiting(table, rest);
    }
    if is_kind(kind, "l") {
        return cut_end(rest);
    }
    let (piece, end) = cut_piece(table, kind, rest)?;
    Ok((MemberPart::Piece(piece), end))
}

/// The members that the words of the line are, with their pieces, in order: a piece belongs to the last member before it. Whether it may stand there is
/// not asked here.
#[tactic(auto, using(crate::proofs::PieceLemmas::next_part, crate::proofs::PieceLemmas::last_part))]
pub fn read_parts<'a>(
    alloc: Global,
    table: &OperationTable<'a>,
    line: &'a [u8],
) -> Result<Vec<MemberPart<'a>>, ReasonRefusal>
    ensures words { IfOk result (λ parts. words_of line.now ≡ flat_map (part_words table.now.trace.now) parts.items) }
    ensures known { IfOk result (λ parts. All (IsKnownPart table.now.trace.now) parts.items) }
    ensures faulty { IfErr result (IsTrueRefusal table.now (λ t. HasPartsFault t (words_of line.now))) }
{
    let mut parts = Vec::new(alloc);
    let mut rest = line;
    while let Some((kind, after)) = cut_word(rest) {
        let (part, end) = cut_part(table, kind, after)?;
        parts.push(part)?;
        rest = end;
    }
    Ok(parts)
}
