//! The lines of a certificate of reasons.

ghost use Rattle.std.specs.Prelude.{◌∷◌, codes, IfOk, IfErr};
ghost use Rattle.text_lines.specs.Words.{words_of};
ghost use Rattle.trace_semantics.specs.Trace.{TraceValue};
ghost use Rattle.reason_clauses.specs.RefusedBy.{IsRefusedBy};
ghost use Rattle.reason_text.specs.LineFault.{HasKindFault, HasLineFault};
ghost use Rattle.reason_text.specs.OperationNumbers.{IsTrueRefusal};
ghost use Rattle.reason_text.specs.ReasonLine.{IsReasonLine};

use crate::line_words::{cut_operation, is_kind, read_operations, read_pair, read_value, want_end};
use crate::member_part::{MemberPart, read_parts};
use crate::operation_table::OperationTable;
use crate::source_piece::{SourcePiece, read_pieces};
use order_clauses::order_pair::OrderPair;
use reason_clauses::cause::{ReasonCause, ReasonRefusal};
use std::alloc::Global;
use text_lines::comments::begins_comment;
use text_lines::words::cut_word;
use writer_table::operation_place::OperationPlace;

/// A line of a certificate of reasons.
#[derive(Drop)]
pub enum ReasonLine<'a> {
    /// No words, or a comment.
    Skipped,
    /// `c ..`: the operations do not stand in a cycle.
    Cycle(Vec<OperationPlace>),
    /// `b U V`: the trace has a before pair of the first operation and the second.
    Before(OrderPair),
    /// `t U V`: the first operation had ended before the second began.
    Ended(OrderPair),
    /// `v U V`: the pair of operations has a variable.
    Variable(OrderPair),
    /// `s R ..`: the operation has a source, and the pieces say what bars each possible one.
    Source(OperationPlace, Vec<SourcePiece>),
    /// `l A ..`: the location has a last writer, and the pieces say what bars each possible one.
    Last(&'a [u8], Vec<SourcePiece>),
    /// `N A D`: updates of the location that read the value are more than the sources of it.
    TooFew(&'a [u8], u64),
    /// `n ..`: updates and ends of locations are more than the sources that no piece takes.
    Counting(Vec<MemberPart<'a>>),
    /// `w ..`: none of the operations can be the first of them.
    Waiting(Vec<MemberPart<'a>>),
    /// `p`: a derivation follows.
    Derivation,
}

/// Reads a location and a value.
fn read_too_few<'a>(line: &'a [u8]) -> Result<ReasonLine<'a>, ReasonRefusal>
    ensures read { IfOk result (λ read. (t : TraceValue) → IsReasonLine t (codes "N" ∷ words_of line.now) read) }
    ensures faulty { IfErr result (IsRefusedBy (λ cause. (t : TraceValue) → HasKindFault t (codes "N") (words_of line.now) cause)) }
{
    let Some((location, rest)) = cut_word(line) else {
        return Err(ReasonRefusal::For(ReasonCause::BadLine));
    };
    let Some((number, end)) = cut_word(rest) else {
        return Err(ReasonRefusal::For(ReasonCause::BadLine));
    };
    want_end(end)?;
    match read_value(number) {
        Some(value) => Ok(ReasonLine::TooFew(location, value)),
        None => Err(ReasonRefusal::For(ReasonCause::BadLine)),
    }
}

/// Reads an operation and pieces.
fn read_source<'a>(
    alloc: Global,
    table: &OperationTable<'a>,
    line: &'a [u8],
) -> Result<ReasonLine<'a>, ReasonRefusal>
    ensures read { IfOk result (IsReasonLine table.now.trace.now (codes "s" ∷ words_of line.now)) }
    ensures faulty { IfErr result (IsTrueRefusal table.now (λ t. HasKindFault t (codes "s") (words_of line.now))) }
{
    let (reader, rest) = cut_operation(table, line)?;
    let pieces = read_pieces(alloc, table, rest)?;
    Ok(ReasonLine::Source(reader, pieces))
}

/// Reads a location and pieces.
fn read_last<'a>(
    alloc: Global,
    table: &OperationTable<'a>,
    line: &'a [u8],
) -> Result<ReasonLine<'a>, ReasonRefusal>
    ensures read { IfOk result (IsReasonLine table.now.trace.now (codes "l" ∷ words_of line.now)) }
    ensures faulty { IfErr result (IsTrueRefusal table.now (λ t. HasKindFault t (codes "l") (words_of line.now))) }
{
    let Some((location, rest)) = cut_word(line) else {
        return Err(ReasonRefusal::For(ReasonCause::BadLine));
    };
    let pieces = read_pieces(alloc, table, rest)?;
    Ok(ReasonLine::Last(location, pieces))
}

/// Reads a line that is not skipped, by its first word and what follows it.
fn read_kind<'a>(
    alloc: Global,
    table: &OperationTable<'a>,
    kind: &'a [u8],
    rest: &'a [u8],
) -> Result<ReasonLine<'a>, ReasonRefusal>
    ensures read { IfOk result (IsReasonLine table.now.trace.now (kind.now ∷ words_of rest.now)) }
    ensures faulty { IfErr result (IsTrueRefusal table.now (λ t. HasKindFault t kind.now (words_of rest.now))) }
{
    if is_kind(kind, "c") {
        return Ok(ReasonLine::Cycle(read_operations(alloc, table, rest)?));
    }
    if is_kind(kind, "b") {
        return Ok(ReasonLine::Before(read_pair(table, rest)?));
    }
    if is_kind(kind, "v") {
        return Ok(ReasonLine::Variable(read_pair(table, rest)?));
    }
    if is_kind(kind, "s") {
        return read_source(alloc, table, rest);
    }
    if is_kind(kind, "l") {
        return read_last(alloc, table, rest);
    }
    if is_kind(kind, "n") {
        return Ok(ReasonLine::Counting(read_parts(alloc, table, rest)?));
    }
    if is_kind(kind, "w") {
        return Ok(ReasonLine::Waiting(read_parts(alloc, table, rest)?));
    }
    if is_kind(kind, "N") {
        return read_too_few(rest);
    }
    if is_kind(kind, "t") {
        return Ok(ReasonLine::Ended(read_pair(table, rest)?));
    }
    if is_kind(kind, "p") {
        want_end(rest)?;
        return Ok(ReasonLine::Derivation);
    }
    Err(ReasonRefusal::For(ReasonCause::BadLine))
}

/// Reads a line. A comment begins with `#` and not, as in DIMACS, with `c`, which begins a cycle here.
pub fn read_reason_line<'a>(
    alloc: Global,
    table: &OperationTable<'a>,
    line: &'a [u8],
) -> Result<ReasonLine<'a>, ReasonRefusal>
    ensures read { IfOk result (IsReasonLine table.now.trace.now (words_of line.now)) }
    ensures faulty { IfErr result (IsTrueRefusal table.now (λ t. HasLineFault t (words_of line.now))) }
{
    match cut_word(line) {
        Some((kind, rest)) => {
            if begins_comment(kind) {
                Ok(ReasonLine::Skipped)
            } else {
                read_kind(alloc, table, kind, rest)
            }
        }
        None => Ok(ReasonLine::Skipped),
    }
}
