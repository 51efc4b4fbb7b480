//! The texts of variables, made once for a writer.
ghost use Rattle.std.specs.Prelude.{◌≡◌, ◌+◌, ◌<◌, ◌≤◌, ◌∷◌, ◌++◌, length, map, take, neg_ℤ, IfOk, IfSome};
ghost use Rattle.std.specs.List.{range_with_len};
ghost use Rattle.dimacs.specs.CnfText.{literal_text, variable_text};

use crate::line_buffer::{put_bytes, put_number};
use crate::literal::Lit;
use std::alloc::{AllocError, Global};
use std::marker::Model;

/// Maximum length of a variable's text in a table, in bytes, with its space. It is more than a listed variable needs, five digits and a space:
/// `put` copies all of these bytes, whatever the length.
const TEXT: usize = 8;

/// The variables below this number have a text in the table.
const LISTED: u32 = 65_536;

/// The text of a variable, with its space, in a place of fixed size.
#[derive(Drop)]
pub(crate) struct VariableText {
    /// The text, and after it bytes of no meaning.
    bytes: [u8; TEXT],
    /// The length of the text, with its space.
    length: u8,
}

impl Model for VariableText {
    ghost use Rattle.std.specs.Prelude.{◌≤◌, ℕ, List, take};

    ghost Value = { List ℕ };

    ghost view = { λ text. take text.length text.bytes };

    ghost invariant = { λ text. text.length ≤ 8 };
}

impl VariableText {
    /// The text of this variable.
    fn of(variable: u32) -> VariableText
        requires { variable < 1000000 }
        ensures { result ≡ variable_text variable }
    {
        // `put_number` asks for room for eight digits, and the space follows
        let mut line = [0; 16];
        let end = put_number(variable, &mut line, 0);
        line[end] = b' ';
        let mut bytes = [0; TEXT];
        bytes.copy_from_slice(&line[..TEXT]);
        VariableText {
            bytes,
            length: end as u8 + 1,
        }
    }

    /// The same text. What is written from it is no part of the table, so the compiler need not ask whether the buffer and the table
    /// overlap.
    #[inline(always)]
    fn copied(&self) -> VariableText
        ensures { result ≡ self.now }
    {
        VariableText {
            bytes: self.bytes,
            length: self.length,
        }
    }

    /// Writes the text. After it are bytes of no meaning.
    #[inline(always)]
    pub(crate) fn put(&self, buffer: &mut [u8], at: usize) -> usize
        requires { at + 8 ≤ length buffer.old }
        ensures within { result ≤ at + 8 }
        ensures written { take result buffer.new ≡ take at buffer.old ++ self.now }
    {
        let _whole = put_bytes(&self.bytes, buffer, at);
        at + self.length as usize
    }

    /// Writes the text of the variable's negation. After it are bytes of no meaning.
    #[inline(always)]
    pub(crate) fn put_negated(&self, buffer: &mut [u8], at: usize) -> usize
        requires { at + 9 ≤ length buffer.old }
        ensures within { result ≤ at + 9 }
        ensures written { take result buffer.new ≡ take at buffer.old ++ 45 ∷ self.now }
    {
        buffer[at] = b'-';
        self.put(buffer, at + 1)
    }
}

/// Writes the text of a variable that is in no table.
#[inline(never)]
fn put_unlisted(variable: u32, buffer: &mut [u8], at: usize) -> usize
    requires small { variable < 100000000 }
    requires room { at + 9 ≤ length buffer.old }
    ensures within { result ≤ at + 9 }
    ensures written { take result buffer.new ≡ take at buffer.old ++ variable_text variable }
{
    let end = put_number(variable, buffer, at);
    buffer[end] = b' ';
    end + 1
}

/// The texts of the variables from 0 up to some number.
#[derive(Drop)]
pub struct VariableTable {
    /// By the number of the variable. So the first text is that of 0, which is no variable.
    texts: Vec<VariableText>,
}

impl Model for VariableTable {
    ghost use Rattle.std.specs.Prelude.{◌≡◌, ℕ, length, map};
    ghost use Rattle.std.specs.List.{range_with_len};
    ghost use Rattle.dimacs.specs.CnfText.{variable_text};

    /// The number of texts.
    ghost Value = { ℕ };

    ghost view = { λ table. length table.texts.items };

    ghost invariant = { λ table. table.texts.items ≡ map variable_text (range_with_len 0 (length table.texts.items)) };
}

/// The texts of the variables below that number.
fn variable_texts(alloc: Global, count: u32) -> Result<Vec<VariableText>, AllocError>
    requires { count ≤ 65536 }
    ensures { IfOk result (λ texts. texts.items ≡ map variable_text (range_with_len 0 count)) }
{
    let mut texts = Vec::new(alloc);
    for variable in 0..count {
        texts.push(VariableText::of(variable))?;
    }
    Ok(texts)
}

impl VariableTable {
    /// A table for a text with this number of variables.
    pub(crate) fn of(alloc: Global, variables: u32) -> Result<VariableTable, AllocError> {
        // one more than the variables, for the text of 0, and no more than `LISTED`
        let count = variables.min(LISTED - 1) + 1;
        Ok(VariableTable {
            texts: variable_texts(alloc, count)?,
        })
    }

    /// The text of the variable, if the table has it.
    #[inline(always)]
    fn text(&self, variable: u32) -> Option<&VariableText>
        ensures { IfSome result (λ text. text.now ≡ variable_text variable) }
    {
        self.texts.get(variable as usize)
    }

    /// The text of a literal that says that its variable is true, if the table has it.
    #[inline(always)]
    pub(crate) fn text_of(&self, literal: Lit) -> Option<VariableText>
        ensures itself { IfSome result (λ text. literal_text literal ≡ text) }
        ensures opposite { IfSome result (λ text. literal_text (neg_ℤ literal) ≡ 45 ∷ text) }
    {
        if !literal.is_positive() {
            return None;
        }
        let text = self.text(literal.variable())?;
        Some(text.copied())
    }

    /// Writes the variable and a space.
    #[inline(always)]
    pub(crate) fn put(&self, variable: u32, buffer: &mut [u8], at: usize) -> usize
        requires small { variable < 100000000 }
        requires room { at + 9 ≤ length buffer.old }
        ensures within { result ≤ at + 9 }
        ensures written { take result buffer.new ≡ take at buffer.old ++ variable_text variable }
    {
        match self.text(variable) {
            Some(text) => text.put(buffer, at),
            None => put_unlisted(variable, buffer, at),
        }
    }
}
