//! The reader of a solver's answer.
ghost use Rattle.std.specs.Prelude.{◌≡◌, ◌≤◌, ◌||◌, ◌==◌, ℕ, ℤ, neg_ℤ, Bool, true, false, List, [], ◌∷◌, ◌++◌, length, map, Some, IfOk, IfErr, OnOk, slice_index_or};
ghost use Rattle.std.specs.Ordering.{int_eq};
ghost use Rattle.text_lines.specs.Fault.{IsRefusal};
ghost use Rattle.text_lines.specs.Words.{words_of};
ghost use Rattle.dimacs.specs.Assignment.{value_of};
ghost use Rattle.model_text.specs.ModelText.{Said, Word, said, SpellsModel};
ghost use Rattle.model_text.specs.ModelFirstFault.{at_line, said_fault, HasModelFault};
ghost use Rattle.model_text.specs.ModelProgress.{has_number, number_of, HasNumberMore, IsClash, IsModelProgress, RefusesThings, TakesNumber, TakesThings};

use crate::model_fault::{ModelCause, ModelFault};
use crate::model_line::{ModelLine, ModelNumber, read_model_line, read_model_number};
use dimacs::{Assignment, Lit};
use std::alloc::{AllocError, Global};
use text_lines::fault::PlacedFault;
use text_lines::lines::cut_line;
use text_lines::words::cut_word;

/// Fills the list up with `false`, so that it has that many values at least.
fn fill_up(values: &mut Vec<bool>, count: usize) -> Result<(), AllocError>
    ensures long { OnOk result (count ≤ length values.new.items) }
    ensures values { (k : ℕ) → slice_index_or values.new.items k false ≡ slice_index_or values.old.items k false }
{
    if values.len() < count {
        values.resize(count, false)?;
    }
    Ok(())
}

/// Makes the variable true, and changes no other.
fn make_true(values: &mut Vec<bool>, variable: u32) -> Result<(), AllocError>
    requires { 1 ≤ variable }
    ensures { OnOk result ((n : ℕ) → value_of values.new.items n ≡ (variable == n || value_of values.old.items n)) }
{
    let place = variable as usize - 1;
    fill_up(values, place + 1)?;
    values[place] = true;
    Ok(())
}

/// The value of the variable.
fn is_true(values: &[bool], variable: u32) -> bool
    ensures { result ≡ value_of values.now variable }
{
    let place = variable as usize;
    1 <= place && place <= values.len() && values[place - 1]
}

/// What has been read so far: of which variables the positive literal has come, of which the negative one, and whether
/// the zero that ends the model has come.
#[derive(Drop)]
pub struct ModelReader {
    /// Element k is of the variable k + 1, here and in `negative`. The lists grow as larger variables come; what is past the end is false.
    positive: Vec<bool>,
    negative: Vec<bool>,
    ended: bool,
}

impl ModelReader {
    fn new(alloc: Global) -> ModelReader
        ensures { IsModelProgress [] result }
    {
        ModelReader {
            positive: Vec::new(alloc),
            negative: Vec::new(alloc),
            ended: false,
        }
    }

    /// Returns whether the negation of the literal has come.
    fn has_negation(&self, literal: Lit) -> bool
        ensures { result ≡ has_number self.now (neg_ℤ literal) }
    {
        if literal.is_positive() {
            is_true(self.negative.as_slice(), literal.variable())
        } else {
            is_true(self.positive.as_slice(), literal.variable())
        }
    }

    /// Takes the literal.
    fn add(&mut self, literal: Lit) -> Result<(), AllocError>
        ensures { OnOk result (HasNumberMore literal self.old self.new) }
    {
        if literal.is_positive() {
            make_true(&mut self.positive, literal.variable())
        } else {
            make_true(&mut self.negative, literal.variable())
        }
    }

    /// Takes a literal of the line of this number.
    fn take_literal(&mut self, literal: Lit, line_number: usize) -> Result<(), ModelFault>
        ensures taken { OnOk result (TakesNumber literal self.old self.new) }
        ensures refused { IfErr result (λ fault. IsClash (has_number self.old (neg_ℤ literal)) line_number fault) }
    {
        if self.has_negation(literal) {
            return Err(PlacedFault::At(ModelCause::Clash, line_number));
        }
        Ok(self.add(literal)?)
    }

    /// Takes a number of a model, of the line of this number.
    fn take_number(&mut self, number: ModelNumber, line_number: usize) -> Result<(), ModelFault>
        requires { self.old.ended ≡ false }
        ensures taken { OnOk result (TakesNumber (number_of number) self.old self.new) }
        ensures refused { IfErr result (λ fault. IsClash (has_number self.old (neg_ℤ (number_of number))) line_number fault) }
    {
        match number {
            ModelNumber::Zero => {
                self.ended = true;
                Ok(())
            }
            ModelNumber::Literal(literal) => self.take_literal(literal, line_number),
        }
    }

    /// Takes a word of the line of this number.
    fn take_word(&mut self, word: &[u8], line_number: usize) -> Result<(), ModelFault>
        ensures taken { OnOk result (TakesThings ((line_number, Word word.now) ∷ []) self.old self.new) }
        ensures refused { IfErr result (RefusesThings ((line_number, Word word.now) ∷ []) self.old) }
    {
        // first, since any word after the 0 is a `BadLine`, also one that is no number
        if self.ended {
            return Err(PlacedFault::At(ModelCause::BadLine, line_number));
        }
        let Some(number) = read_model_number(word) else {
            return Err(PlacedFault::At(ModelCause::BadNumber, line_number));
        };
        self.take_number(number, line_number)
    }

    /// Takes the words of the line of this number.
    fn take_words(&mut self, words: &[u8], line_number: usize) -> Result<(), ModelFault>
        ensures taken { OnOk result (TakesThings (at_line line_number (map Word (words_of words.now))) self.old self.new) }
        ensures refused { IfErr result (RefusesThings (at_line line_number (map Word (words_of words.now))) self.old) }
    {
        let mut rest = words;
        while let Some((word, after)) = cut_word(rest) {
            self.take_word(word, line_number)?;
            rest = after;
        }
        Ok(())
    }

    /// Takes the line of this number.
    fn take_line(&mut self, line: &[u8], line_number: usize) -> Result<(), ModelFault>
        ensures taken { OnOk result (TakesThings (at_line line_number (said (words_of line.now))) self.old self.new) }
        ensures refused { IfErr result (RefusesThings (at_line line_number (said (words_of line.now))) self.old) }
    {
        match read_model_line(line) {
            ModelLine::Skipped => Ok(()),
            ModelLine::Words(words) => self.take_words(words, line_number),
            ModelLine::Unsatisfiable => Err(PlacedFault::At(
                ModelCause::SaysUnsatisfiable,
                line_number,
            )),
            ModelLine::Unknown => Err(PlacedFault::At(ModelCause::BadLine, line_number)),
        }
    }
}

/// The model that a SAT solver's answer spells, in one pass. Memory is taken for the variables up to the largest one.
///
/// Lines end at a line feed, which may be missing after the last; one at the very end starts no further line. Blanks are
/// spaces, tabs and carriage returns, and words the longest runs of other bytes. Lines are counted from 1, all of them.
///
/// Skipped are lines without words, lines whose first word begins with `c`, and the line `s SATISFIABLE`. The line
/// `s UNSATISFIABLE` is refused as `SaysUnsatisfiable`, wherever it stands, and as `BadLine` any other line whose first
/// word is not `v`.
///
/// The words after the `v`s, on as many lines as there are, are literals and then one `0`. From left to right, a word
/// after that `0` is a `BadLine`. A `BadNumber` is a word that is not an optional minus and digits, of a value up to
/// 4,194,304; leading zeros are allowed, a minus before zero and a plus are not. A literal whose negation came before is
/// a `Clash`; a repeated one is not. If no `0` comes, the text is `Unended`, at the line after the last.
///
/// Variables that no literal names are false. The error is the first fault of the text, with its line, or `OutOfMemory`,
/// which says nothing of the text.
pub fn read_model(alloc: Global, text: &[u8]) -> Result<Assignment, ModelFault>
    ensures spelled { IfOk result (SpellsModel text.now) }
    ensures faulty { IfErr result (IsRefusal (HasModelFault text.now)) }
{
    let mut reader = ModelReader::new(alloc);
    let mut line_number = 1usize;
    let mut rest = text;
    while let Some((line, after)) = cut_line(rest) {
        reader.take_line(line, line_number)?;
        line_number += 1;
        rest = after;
    }
    if !reader.ended {
        return Err(PlacedFault::At(ModelCause::Unended, line_number));
    }
    Ok(Assignment::new(reader.positive))
}
