//! The reader of a formula's text.

ghost use Rattle.std.specs.Prelude.{◌≡◌, ◌≤◌, ◌<◌, ◌+◌, ◌^◌, length, IfOk, IfErr};
ghost use Rattle.text_lines.specs.Fault.{IsRefusal};
ghost use Rattle.text_lines.specs.Lines.{lines_of};
ghost use Rattle.cnf_text.specs.CnfLines.{said_from, end_from, placed_words};
ghost use Rattle.cnf_text.specs.CnfProgress.{AreBody, IsBodyRefusal};
ghost use Rattle.cnf_text.specs.CnfReading.{SpellsCnf, HasCnfFault};

use crate::cnf_body::Body;
use crate::cnf_fault::{CnfCause, CnfFault};
use crate::cnf_header::{Counts, read_header};
use crate::cnf_lines::next_said;
use dimacs::{Clause, Formula, MAX_VARIABLE};
use std::alloc::Global;
use text_lines::fault::PlacedFault;

/// The clauses after the header, where the first line of the text has this number.
fn read_body(
    alloc: Global,
    counts: Counts,
    text: &[u8],
    first: usize,
) -> Result<Vec<Clause>, CnfFault>
    requires variables { counts.variables ≤ MAX_VARIABLE }
    requires lines { first + length text.now < 2 ^ 64 }
    ensures spelled { IfOk result (λ clauses. AreBody (record { variables = counts.variables; clauses = counts.clauses }) (placed_words (said_from first (lines_of text.now))) clauses.items) }
    ensures refused { IfErr result (λ fault. IsBodyRefusal (record { variables = counts.variables; clauses = counts.clauses }) (placed_words (said_from first (lines_of text.now))) (end_from first (lines_of text.now)) fault) }
{
    let mut body = Body::new(alloc);
    let mut rest = text;
    let mut number = first;
    'lines: loop {
        match next_said(rest, number) {
            Ok(said) => {
                body.take_line(alloc, counts, said.number, said.line)?;
                number = said.number + 1;
                rest = said.rest;
            }
            Err(end) => {
                return match body.fault_at_end(counts) {
                    Some(cause) => Err(PlacedFault::At(cause, end)),
                    None => Ok(body.into_clauses()),
                };
            }
        }
    }
}

/// The formula that the text (DIMACS) spells, in one pass.
///
/// A line ends at a line feed, which may be missing after the last line, and a line feed at the very end starts no
/// further line. Spaces, tabs and carriage returns are blanks, and words are the longest runs of other bytes. Lines
/// without a word and lines whose first word begins with `c` are skipped wherever they stand, also within a clause. The
/// text ends at the first line whose first word begins with `%`, and nothing after it is read.
///
/// The first line that is not skipped is the header: the words `p` and `cnf`, the number of variables, up to 4,194,304,
/// and the number of clauses, up to 16,777,216, both of digits alone. All other words, whatever lines they stand on, are
/// the numbers of literals, and each clause ends at a 0. A number is one digit or more, leading zeros allowed, after an
/// optional minus; but a minus before zero is none. Empty clauses, repeated literals and a literal beside its negation
/// are kept as they stand.
///
/// The error is the first fault of the text with its line, counted from 1 over all lines, or `OutOfMemory`, which says
/// nothing of the text. A fault of the header or of a word stands at its line. What is missing from the whole text, a
/// header, a 0 or a clause, stands at the line of the `%`, or after the last line.
pub fn read_cnf(alloc: Global, text: &[u8]) -> Result<Formula, CnfFault>
    ensures spelled { IfOk result (λ formula. SpellsCnf text.now formula) }
    ensures faulty { IfErr result (λ fault. IsRefusal (HasCnfFault text.now) fault) }
{
    let said = match next_said(text, 1) {
        Ok(said) => said,
        Err(end) => return Err(PlacedFault::At(CnfCause::NoHeader, end)),
    };
    let counts = match read_header(said.line) {
        Ok(counts) => counts,
        Err(cause) => return Err(PlacedFault::At(cause, said.number)),
    };
    let clauses = read_body(alloc, counts, said.rest, said.number + 1)?;
    Ok(Formula::new(counts.variables, clauses))
}
