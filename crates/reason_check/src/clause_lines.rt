//! The lines of a certificate of reasons up to its derivation.

ghost use Rattle.std.specs.Prelude.{◌≡◌, ◌≤◌, ◌+◌, [], length, IfOk, IfErr, IfSome};
ghost use Rattle.text_lines.specs.Words.{words_of};
ghost use Rattle.reason_clauses.specs.RefusedBy.{IsRefusedBy};
ghost use Rattle.reason_clauses.specs.Tables.{HoldTables};
ghost use Rattle.reason_check.specs.Reading.{IsReadAndTaken, IsReadUpTo};
ghost use Rattle.reason_check.specs.Refused.{IsRefusedLine, IsRefusedReading};
ghost use Rattle.reason_text.specs.OperationNumbers.{HoldsTrace};

use crate::line_clause::{LineOutcome, take_line};
use crate::reasons_fault::ReasonsFault;
use crate::trace_tables::{TraceTables, tables_of};
use order_clauses::reason_list::ReasonList;
use reason_clauses::cause::ReasonRefusal;
use reason_text::reason_header::cut_header;
use reason_text::reason_line::read_reason_line;
use std::alloc::Global;
use text_lines::lines::cut_line;
use trace_semantics::trace::Trace;

/// The text of a derivation, and how many lines stand before it: the header and the line `p` among them.
#[derive(Drop)]
pub struct DerivationText<'a> {
    pub text: &'a [u8],
    pub before: usize,
}

/// Reads a line and takes it.
fn read_and_take<'a>(
    alloc: Global,
    trace: &'a Trace,
    tables: &TraceTables<'a>,
    line: &'a [u8],
    list: &mut ReasonList,
) -> Result<LineOutcome, ReasonRefusal>
    requires operations { tables.now.operations.trace.now ≡ trace.now }
    requires writers { HoldTables trace.now tables.now.writers }
    ensures taken { IfOk result (IsReadAndTaken trace.now (words_of line.now) list.old list.new) }
    ensures refused { IfErr result (λ refusal. HoldsTrace tables.now.operations → IsRefusedBy (IsRefusedLine trace.now (words_of line.now)) refusal) }
{
    let read = read_reason_line(alloc, &tables.operations, line)?;
    take_line(alloc, trace, tables, read, list)
}

/// Adds the clauses of the lines of the certificate's text. The answer is the derivation that follows them; none if a clause is empty, so
/// that the trace has no legal schedule. Without a line `p` the derivation has no steps.
pub fn read_clauses<'a>(
    alloc: Global,
    trace: &'a Trace,
    text: &'a [u8],
    list: &mut ReasonList,
) -> Result<Option<DerivationText<'a>>, ReasonsFault>
    requires { list.old.clauses.items ≡ [] }
    ensures read { IfOk result (IsReadUpTo trace.now text.now list.new) }
    ensures shorter { IfOk result (λ end. IfSome end (λ derivation. derivation.before + length derivation.text.now ≤ length text.now)) }
    ensures refused { IfErr result (IsRefusedReading trace.now text.now) }
{
    let mut rest = match cut_header(text) {
        Ok(rest) => rest,
        Err(refusal) => return Err(ReasonsFault::of_line(refusal, 1)),
    };
    let tables = tables_of(alloc, trace)?;
    // The header is line 1, so this is also the number of the line that was taken last.
    let mut before = 1usize;
    while let Some((line, after)) = cut_line(rest) {
        let taken = read_and_take(alloc, trace, &tables, line, list);
        before += 1;
        rest = after;
        match taken {
            Ok(LineOutcome::More) => {}
            Ok(LineOutcome::Refuted) => return Ok(None),
            Ok(LineOutcome::Derivation) => return Ok(Some(DerivationText { text: rest, before })),
            Err(refusal) => return Err(ReasonsFault::of_line(refusal, before)),
        }
    }
    Ok(Some(DerivationText { text: rest, before }))
}
