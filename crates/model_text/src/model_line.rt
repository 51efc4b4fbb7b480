//! The lines of a solver's answer, and the numbers of a model.
ghost use Rattle.std.specs.Prelude.{◌≡◌, ℤ, None, Some, MatchOption};
ghost use Rattle.text_lines.specs.SolverNumber.{IsNumber};
ghost use Rattle.text_lines.specs.Words.{words_of};
ghost use Rattle.model_text.specs.ModelText.{said, status, small, model_number};
ghost use Rattle.model_text.specs.ModelProgress.{said_by, number_of};

use dimacs::{Lit, MAX_VARIABLE};
use text_lines::comments::begins_dimacs_comment;
use text_lines::numbers::{SolverNumber, read_solver_number};
use text_lines::words::{cut_word, is_word};

/// What a line says.
#[derive(Clone, Copy)]
pub enum ModelLine<'a> {
    /// Nothing: it is blank, a comment, or says that there is a model.
    Skipped,
    /// The words of this, after a `v`.
    Words(&'a [u8]),
    /// That there is no model.
    Unsatisfiable,
    /// What no answer says.
    Unknown,
}

/// What a word of a model writes.
#[derive(Clone, Copy)]
pub enum ModelNumber {
    /// The zero that ends the model.
    Zero,
    /// One of its literals.
    Literal(Lit),
}

/// Gives what a line says whose first word is `s`, by what follows that.
fn read_status(rest: &[u8]) -> ModelLine<'_>
    ensures { said_by result ≡ status (words_of rest.now) }
{
    let Some((word, after)) = cut_word(rest) else {
        return ModelLine::Unknown;
    };
    if cut_word(after).is_some() {
        return ModelLine::Unknown;
    }
    if is_word(word, "SATISFIABLE") {
        ModelLine::Skipped
    } else if is_word(word, "UNSATISFIABLE") {
        ModelLine::Unsatisfiable
    } else {
        ModelLine::Unknown
    }
}

/// Gives what the line says.
pub(crate) fn read_model_line(line: &[u8]) -> ModelLine<'_>
    ensures { said_by result ≡ said (words_of line.now) }
{
    let Some((first, rest)) = cut_word(line) else {
        return ModelLine::Skipped;
    };
    if begins_dimacs_comment(first) {
        ModelLine::Skipped
    } else if is_word(first, "v") {
        ModelLine::Words(rest)
    } else if is_word(first, "s") {
        read_status(rest)
    } else {
        ModelLine::Unknown
    }
}

/// The number of that sign and that absolute value, if it is small enough.
fn small_number(number: SolverNumber) -> Option<i32>
    ensures { (z : ℤ) → IsNumber z number → result ≡ small z }
{
    let magnitude = number.magnitude?;
    if magnitude > u64::from(MAX_VARIABLE) {
        return None;
    }
    let magnitude = magnitude as i32;
    Some(if number.is_negative {
        -magnitude
    } else {
        magnitude
    })
}

/// The number that the word writes, if it is 0 or a literal.
pub(crate) fn read_model_number(word: &[u8]) -> Option<ModelNumber>
    ensures { MatchOption result (model_number word.now ≡ None) (λ number. model_number word.now ≡ Some (number_of number)) }
{
    let number = small_number(read_solver_number(word)?)?;
    if number == 0 {
        return Some(ModelNumber::Zero);
    }
    Lit::new(number).map(ModelNumber::Literal)
}
