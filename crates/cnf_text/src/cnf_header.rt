//! The header of a formula's text.

ghost use Rattle.std.specs.Prelude.{◌≡◌, ◌≤◌, None, Some, MatchResult, MatchOption};
ghost use Rattle.text_lines.specs.Words.{words_of};
ghost use Rattle.cnf_text.specs.CnfReading.{header_of, header_of_counts, header_cause, begins_header};
ghost use Rattle.dimacs.specs.Literal.{most_variable};
ghost use Rattle.text_lines.specs.Numbers.{digits_up_to};

use crate::cnf_fault::CnfCause;
use dimacs::MAX_VARIABLE;
use text_lines::numbers::read_digits;
use text_lines::words::{cut_word, is_word};

/// The most clauses that a header announces.
const MAX_CLAUSES: u32 = 16_777_216;

/// The numbers of variables and clauses that a header announces.
#[derive(Clone, Copy)]
pub(crate) struct Counts {
    /// The variables.
    pub variables: u32,
    /// The clauses.
    pub clauses: u32,
}

/// The counts that two words write.
fn read_counts(variables: &[u8], clauses: &[u8]) -> Option<Counts>
    ensures { MatchOption result (header_of_counts (digits_up_to most_variable variables.now) (digits_up_to 16777216 clauses.now) ≡ None)
        (λ counts. (header_of_counts (digits_up_to most_variable variables.now) (digits_up_to 16777216 clauses.now) ≡ Some (record { variables = counts.variables; clauses = counts.clauses })) × (counts.variables ≤ MAX_VARIABLE)) }
{
    let variables = read_digits(variables, u64::from(MAX_VARIABLE))?;
    let clauses = read_digits(clauses, u64::from(MAX_CLAUSES))?;
    Some(Counts {
        variables: variables as u32,
        clauses: clauses as u32,
    })
}

/// The counts that the header announces, if the line is a header whose first word is `p`. A fifth word makes it no header.
fn read_header_line(line: &[u8]) -> Option<Counts>
    ensures { MatchOption result (header_of (words_of line.now) ≡ None)
        (λ counts. (header_of (words_of line.now) ≡ Some (record { variables = counts.variables; clauses = counts.clauses })) × (counts.variables ≤ MAX_VARIABLE)) }
{
    let (begin, rest) = cut_word(line)?;
    let (format, rest) = cut_word(rest)?;
    let (variables, rest) = cut_word(rest)?;
    let (clauses, rest) = cut_word(rest)?;
    if cut_word(rest).is_some() || !is_word(begin, "p") || !is_word(format, "cnf") {
        return None;
    }
    read_counts(variables, clauses)
}

/// Returns whether the first word of the line is `p`.
fn begins_with_p(line: &[u8]) -> bool
    ensures { result ≡ begins_header (words_of line.now) }
{
    match cut_word(line) {
        Some((word, _)) => is_word(word, "p"),
        None => false,
    }
}

/// The counts that the header announces, or why the line is none.
pub(crate) fn read_header(line: &[u8]) -> Result<Counts, CnfCause>
    ensures { MatchResult result
        (λ counts. (header_of (words_of line.now) ≡ Some (record { variables = counts.variables; clauses = counts.clauses })) × (counts.variables ≤ MAX_VARIABLE))
        (λ cause. (header_of (words_of line.now) ≡ None) × (header_cause (words_of line.now) ≡ cause)) }
{
    match read_header_line(line) {
        Some(counts) => Ok(counts),
        None if begins_with_p(line) => Err(CnfCause::BadHeader),
        None => Err(CnfCause::NoHeader),
    }
}
