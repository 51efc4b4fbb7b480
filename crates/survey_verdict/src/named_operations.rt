//! The operations that the lines of a certificate of reasons name.

ghost use Rattle.std.specs.Prelude.{◌≡◌, [], ◌∷◌, ◌++◌, ◌||◌, ℕ, List, IfOk, OnOk};
ghost use Rattle.std.specs.List.{filter, list_any};
ghost use Rattle.std.specs.Str.{bytes_eq};
ghost use Rattle.schedule_text.specs.ScheduleText.{name_word};
ghost use Rattle.survey_verdict.specs.Named.{has_word, is_mark, mentions, named_in};
ghost use Rattle.survey_verdict.specs.WordSet.{has};
ghost use Rattle.text_lines.specs.Kept.{is_skipped};
ghost use Rattle.text_lines.specs.Lines.{lines_of};
ghost use Rattle.text_lines.specs.Words.{words_of};

use crate::core_names::all_names;
use crate::word_set::WordSet;
use itoa::Buffer;
use std::alloc::{AllocError, Global};
use text_lines::comments::begins_comment;
use text_lines::lines::cut_line;
use text_lines::words::{cut_word, is_word};
use trace_semantics::name::Name;
use trace_semantics::operation::OpName;
use trace_semantics::trace::Trace;

/// Puts the words of the line among the others.
fn add_words<'a>(line: &'a [u8], words: &mut WordSet<'a>) -> Result<(), AllocError>
    ensures { OnOk result ((word : List ℕ) → has words.new word ≡ (list_any (λ other. bytes_eq other word) (words_of line.now) || has words.old word)) }
{
    let mut rest = line;
    while let Some((word, after)) = cut_word(rest) {
        words.insert(word)?;
        rest = after;
    }
    Ok(())
}

/// Returns whether the line is a comment, or has no word.
fn is_silent(line: &[u8]) -> bool
    ensures { result ≡ is_skipped (words_of line.now) }
{
    match cut_word(line) {
        Some((word, _)) => begins_comment(word),
        None => true,
    }
}

/// Returns whether a derivation comes behind the line: its first word is `p`. After it there are numbers of clauses and literals, and no operations.
fn is_of_derivation(line: &[u8]) -> bool
    ensures { result ≡ is_mark (words_of line.now) }
{
    match cut_word(line) {
        Some((word, _)) => is_word(word, "p"),
        None => false,
    }
}

/// Puts the words of the line among the others, unless it is a comment.
fn add_line<'a>(line: &'a [u8], words: &mut WordSet<'a>) -> Result<(), AllocError>
    ensures { OnOk result ((word : List ℕ) → has words.new word ≡ (has_word word line.now || has words.old word)) }
{
    if is_silent(line) {
        return Ok(());
    }
    add_words(line, words)
}

/// Puts the words of the lines before the derivation among the others.
fn add_lines<'a>(text: &'a [u8], words: &mut WordSet<'a>) -> Result<(), AllocError>
    ensures { OnOk result ((word : List ℕ) → has words.new word ≡ (mentions word (lines_of text.now) || has words.old word)) }
{
    let mut rest = text;
    while let Some((line, after)) = cut_line(rest) {
        if is_of_derivation(line) {
            return Ok(());
        }
        add_line(line, words)?;
        rest = after;
    }
    Ok(())
}

/// The word of the operation: its process, a dot and its place.
fn word_of(alloc: Global, name: &OpName) -> Result<Vec<u8>, AllocError>
    ensures { IfOk result (λ word. word.items ≡ name_word name.now) }
{
    let mut word = Vec::new(alloc);
    let mut buffer = Buffer::new();
    word.extend_from_slice(name.process.as_bytes())?;
    word.push(b'.')?;
    word.extend_from_slice(buffer.format(name.place).as_bytes())?;
    Ok(word)
}

/// Returns whether the operation is among the words.
fn is_named(alloc: Global, words: &WordSet<'_>, name: &OpName) -> Result<bool, AllocError>
    ensures { IfOk result (λ named. named ≡ has words.now (name_word name.now)) }
{
    let word = word_of(alloc, name)?;
    Ok(words.contains(word.as_slice()))
}

/// Puts a copy of the name behind the others if it is among the words.
fn push_if_named(
    alloc: Global,
    words: &WordSet<'_>,
    name: &OpName,
    named: &mut Vec<OpName>,
) -> Result<(), AllocError>
    ensures { OnOk result (named.new.items ≡ named.old.items ++ filter (λ n. has words.now (name_word n)) (name.now ∷ [])) }
{
    if is_named(alloc, words, name)? {
        let process = Name::copy_of(alloc, name.process.as_bytes())?;
        named.push(OpName {
            process,
            place: name.place,
        })?;
    }
    Ok(())
}

/// Those of the names that are among the words.
fn names_within(
    alloc: Global,
    words: &WordSet<'_>,
    names: &[OpName],
) -> Result<Vec<OpName>, AllocError>
    ensures { IfOk result (λ named. named.items ≡ filter (λ n. has words.now (name_word n)) names.now) }
{
    let mut named = Vec::new(alloc);
    for name in names {
        push_if_named(alloc, words, name, &mut named)?;
    }
    Ok(named)
}

/// The operations of the trace that the lines of the certificate name, in the order of the trace. The words are put into a set first, so that a long
/// certificate is read once, and not for each operation. A word counts wherever it stands in its line.
pub(crate) fn named_operations(
    alloc: Global,
    trace: &Trace,
    text: &[u8],
) -> Result<Vec<OpName>, AllocError>
    ensures { IfOk result (λ named. named.items ≡ named_in trace.now text.now) }
{
    let names = all_names(alloc, trace)?;
    let mut words = WordSet::new(alloc);
    add_lines(text, &mut words)?;
    let named = names_within(alloc, &words, names.as_slice())?;
    Ok(named)
}
