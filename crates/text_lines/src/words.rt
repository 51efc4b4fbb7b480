//! The words of a line.

ghost use Rattle.std.specs.Prelude.{◌≡◌, ◌<◌, [], ◌∷◌, ◌++◌, ℕ, List, true, false, length, take, map, not, position, MatchOption};
ghost use Rattle.std.specs.List.{list_any};
ghost use Rattle.std.specs.Str.{bytes_eq};
ghost use Rattle.text_lines.specs.Words.{words_of, is_blank};

use crate::lines::cut_at;
use short_lists::inline_list::InlineList;

/// Returns whether the byte is a space, a tab or a carriage return.
pub fn is_blank_byte(byte: u8) -> bool
    ensures { result ≡ is_blank byte }
{
    byte == b' ' || byte == b'\t' || byte == b'\r'
}

/// Returns whether the word is this text.
pub fn is_word(word: &[u8], text: &str) -> bool
    ensures { result ≡ bytes_eq word.now text.now }
{
    word == text.as_bytes()
}

/// The place of the first blank.
fn find_blank(line: &[u8]) -> Option<usize>
    ensures { result ≡ position is_blank line.now }
{
    line.iter().position(|byte| is_blank_byte(*byte))
}

/// The place of the first byte that is no blank.
fn find_word(line: &[u8]) -> Option<usize>
    ensures { result ≡ position (λ byte. not (is_blank byte)) line.now }
{
    line.iter().position(|byte| !is_blank_byte(*byte))
}

/// The first word of the line and what follows it; nothing if the line has no word.
pub fn cut_word(line: &[u8]) -> Option<(&[u8], &[u8])>
    ensures words { MatchOption result (words_of line.now ≡ []) (λ cut. words_of line.now ≡ cut.0.now ∷ words_of cut.1.now) }
    ensures shorter { MatchOption result (words_of line.now ≡ []) (λ cut. length cut.1.now < length line.now) }
{
    match find_word(line) {
        Some(start) => {
            let words = &line[start..];
            Some(cut_at(words, find_blank(words)))
        }
        None => None,
    }
}

/// The first words of the line, at most eleven of them. A line of a trace has ten or fewer, so the eleventh shows that it has too many.
pub fn first_words(line: &[u8]) -> InlineList<&[u8], 11>
    ensures { map (λ word. word.now) result ≡ take 11 (words_of line.now) }
{
    let mut words = InlineList::empty();
    let mut rest = line;
    while !words.is_full() {
        match cut_word(rest) {
            Some((word, after)) => {
                words.push(word);
                rest = after;
            }
            None => break,
        }
    }
    words
}

/// Bytes without a blank, after which one stands, are the first word; and bytes without a blank are one word. A law, proved in
/// `proofs/words/ended_word_is_first`. No code calls it: it shows that `words_of`, by which contracts say what a text means, is what a reader takes it for.
pub fn ended_word_is_first()
    ensures ended { (word : List ℕ) (blank : ℕ) (rest : List ℕ) → 0 < length word → list_any is_blank word ≡ false → is_blank blank ≡ true →
        words_of (word ++ blank ∷ rest) ≡ word ∷ words_of rest }
    ensures last { (word : List ℕ) → 0 < length word → list_any is_blank word ≡ false → words_of word ≡ word ∷ [] }
{}
