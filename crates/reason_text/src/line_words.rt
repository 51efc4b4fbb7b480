//! The words of a line of a certificate of reasons.

ghost use Rattle.std.specs.Prelude.{◌≡◌, ◌≢◌, ◌<◌, ◌^◌, ◌∷◌, ℕ, [], true, false, decimal, length, OnOk, IfOk, IfErr, MatchOption};
ghost use Rattle.std.specs.List.{All};
ghost use Rattle.text_lines.specs.Words.{words_of};
ghost use Rattle.reason_clauses.specs.declared.cause.ReasonCause.TheVariants.{BadLine};
ghost use Rattle.order_clauses.specs.Numbered.{IsKnown};
ghost use Rattle.reason_clauses.specs.RefusedBy.{IsRefusedBy};
ghost use Rattle.reason_text.specs.LineFault.{HasOperandFault, HasNamesFault, HasPairFault};
ghost use Rattle.reason_text.specs.OperationNumbers.{IsTrueRefusal};
ghost use Rattle.reason_text.specs.OperationWord.{operation_word, operation_words};

use crate::operation_table::OperationTable;
use order_clauses::order_pair::OrderPair;
use reason_clauses::cause::{ReasonCause, ReasonRefusal};
use std::alloc::Global;
use text_lines::numbers::read_plain;
use text_lines::words::{cut_word, is_word};
use writer_table::operation_place::OperationPlace;

/// Returns whether the word is this one.
pub fn is_kind(word: &[u8], kind: &str) -> bool
    ensures same { result ≡ true → word.now ≡ kind.now }
    ensures other { result ≡ false → word.now ≢ kind.now }
{
    is_word(word, kind)
}

/// The value that the word writes, in decimal without leading zeros; none if it is no such number or too large for 64 bits.
pub fn read_value(word: &[u8]) -> Option<u64>
    ensures { MatchOption result ((value : ℕ) → value < 2 ^ 64 → word.now ≡ decimal value → ⊥) (λ value. word.now ≡ decimal value) }
{
    read_plain(word, u64::MAX)
}

/// Refuses a line that has more words.
pub fn want_end(rest: &[u8]) -> Result<(), ReasonRefusal>
    ensures ended { OnOk result (words_of rest.now ≡ []) }
    ensures faulty { IfErr result (IsRefusedBy (λ cause. (words_of rest.now ≢ []) × (cause ≡ BadLine))) }
{
    match cut_word(rest) {
        Some((_word, _more)) => Err(ReasonRefusal::For(ReasonCause::BadLine)),
        None => Ok(()),
    }
}

/// The operations that the words of the line name, up to its end. No words are no operations, and no fault here.
#[tactic(auto, using(crate::proofs::WordLemmas::next_word, crate::proofs::WordLemmas::last_word))]
pub fn read_operations<'a>(
    alloc: Global,
    table: &OperationTable<'a>,
    line: &'a [u8],
) -> Result<Vec<OperationPlace>, ReasonRefusal>
    ensures named { IfOk result (λ operations. words_of line.now ≡ operation_words table.now.trace.now operations.items) }
    ensures known { IfOk result (λ operations. All (IsKnown table.now.trace.now) operations.items) }
    ensures faulty { IfErr result (IsTrueRefusal table.now (λ t. HasNamesFault t (words_of line.now))) }
{
    let mut operations = Vec::new(alloc);
    let mut rest = line;
    while let Some((word, after)) = cut_word(rest) {
        operations.push(table.operation(word)?)?;
        rest = after;
    }
    Ok(operations)
}

/// The operation that the next word of the line names, and what follows it.
pub fn cut_operation<'a>(
    table: &OperationTable<'a>,
    line: &'a [u8],
) -> Result<(OperationPlace, &'a [u8]), ReasonRefusal>
    ensures named { IfOk result (λ cut. words_of line.now ≡ operation_word table.now.trace.now cut.0 ∷ words_of cut.1.now) }
    ensures shorter { IfOk result (λ cut. length cut.1.now < length line.now) }
    ensures known { IfOk result (λ cut. IsKnown table.now.trace.now cut.0) }
    ensures faulty { IfErr result (IsTrueRefusal table.now (λ t. HasOperandFault t (words_of line.now))) }
{
    match cut_word(line) {
        Some((word, rest)) => Ok((table.operation(word)?, rest)),
        None => Err(ReasonRefusal::For(ReasonCause::BadLine)),
    }
}

/// The two operations that the words of the line name.
pub fn read_pair<'a>(table: &OperationTable<'a>, line: &'a [u8]) -> Result<OrderPair, ReasonRefusal>
    ensures named { IfOk result (λ pair. words_of line.now ≡ operation_words table.now.trace.now (pair.first ∷ pair.second ∷ [])) }
    ensures known { IfOk result (λ pair. IsKnown table.now.trace.now pair.first × IsKnown table.now.trace.now pair.second) }
    ensures faulty { IfErr result (IsTrueRefusal table.now (λ t. HasPairFault t (words_of line.now))) }
{
    let (first, rest) = cut_operation(table, line)?;
    let (second, end) = cut_operation(table, rest)?;
    want_end(end)?;
    Ok(OrderPair { first, second })
}
