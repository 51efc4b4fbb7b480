//! The lines of a text.

ghost use Rattle.std.specs.Prelude.{◌≡◌, ◌<◌, [], ◌∷◌, ◌++◌, ℕ, Bool, List, false, length, position, IfSome, MatchOption};
ghost use Rattle.std.specs.List.{before_first, after_first, list_any};
ghost use Rattle.text_lines.specs.Lines.{lines_of, is_line_feed};

use memchr::memchr;

/// The place of the first line feed.
fn find_line_feed(text: &[u8]) -> Option<usize>
    ensures { result ≡ position is_line_feed text.now }
{
    memchr(b'\n', text)
}

/// Gives what stands before this place, and what stands after it; without a place all of the text, and nothing.
#[inline(always)]
pub(crate) fn cut_at(text: &[u8], place: Option<usize>) -> (&[u8], &[u8])
    requires { IfSome place (λ end. end < length text.now) }
    ensures front { (ends : ℕ → Bool) → place ≡ position ends text.now → result.0.now ≡ before_first ends text.now }
    ensures back { (ends : ℕ → Bool) → place ≡ position ends text.now → result.1.now ≡ after_first ends text.now }
{
    match place {
        Some(end) => (&text[..end], &text[end + 1..]),
        None => (text, &[]),
    }
}

/// The first line of the text, without its line feed, and what follows it; nothing if the text has no line. So a line feed at the very end starts
/// no further line.
pub fn cut_line(text: &[u8]) -> Option<(&[u8], &[u8])>
    ensures lines { MatchOption result (lines_of text.now ≡ []) (λ cut. lines_of text.now ≡ cut.0.now ∷ lines_of cut.1.now) }
    ensures shorter { MatchOption result (text.now ≡ []) (λ cut. length cut.1.now < length text.now) }
{
    if text.is_empty() {
        return None;
    }
    Some(cut_at(text, find_line_feed(text)))
}

/// Bytes without a line feed, after which one stands, are the first line.
pub fn ended_line_is_first()
    ensures { (line rest : List ℕ) → list_any is_line_feed line ≡ false → lines_of (line ++ 10 ∷ rest) ≡ line ∷ lines_of rest }
{}
