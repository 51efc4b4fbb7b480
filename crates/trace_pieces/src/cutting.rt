//! Cuts off the first piece of a text.

ghost use Rattle.std.specs.Prelude.{◌≡◌, ◌+◌, ◌<◌, ◌≤◌, [], true, false, length, IfSome, MatchOption};
ghost use Rattle.text_lines.specs.Lines.{lines_of};
ghost use Rattle.trace_pieces.specs.Pieces.{IsCut, IsCutOff};
ghost use Rattle.trace_pieces.specs.Scanning.{CutOff, HasWholeLine, IsFirstLine};

use crate::header_line::{begins_next, has_said};
use crate::piece_cut::PieceCut;
use memchr::memchr;

/// The first line of the text, without its line feed, and what follows it.
fn first_line(text: &[u8]) -> (&[u8], &[u8])
    ensures { IsFirstLine text.now result.0.now result.1.now }
{
    match memchr(b'\n', text) {
        Some(end) => (&text[..end], &text[end + 1..]),
        None => (text, &[]),
    }
}

/// Passes the first piece of the text, and gives what follows it and the number of the piece's lines. `said` is whether a line of this piece has
/// said something.
fn after_piece(text: &[u8]) -> (&[u8], usize)
    requires { 0 < length text.now }
    ensures { CutOff text.now result.0.now result.1 }
{
    let mut rest = text;
    let mut lines = 0usize;
    let mut said = false;
    while !rest.is_empty() {
        let (line, after) = first_line(rest);
        if begins_next(said, line) {
            return (rest, lines);
        }
        said = has_said(said, line);
        rest = after;
        lines += 1;
    }
    (rest, lines)
}

/// Returns whether the first line of the text ends with a line feed.
fn has_whole_line(text: &[u8]) -> bool
    ensures { result ≡ true → HasWholeLine text.now }
{
    match memchr(b'\n', text) {
        Some(_end) => true,
        None => false,
    }
}

/// Returns whether the first piece ends before this rest of the text, whatever follows it. `rest` begins with the line that was seen to begin a
/// trace. If that line is not whole, its first word may yet become a longer one than `vsc`.
fn ends_before(rest: &[u8], is_last: bool) -> bool
    ensures whole { result ≡ true → is_last ≡ false → HasWholeLine rest.now }
    ensures last { is_last ≡ true → result ≡ true }
{
    is_last || has_whole_line(rest)
}

/// Cuts off the first piece of the text. A piece begins at each line whose first word is `vsc`; what stands before the first of these lines
/// is a piece of its own if a line of it says something (it has words, and is no comment), and else belongs to the first piece. The text is what was
/// read of a stream so far: it may go on, unless it is the last one of the stream.
///
/// The answer is nothing if the text is empty, or if it may go on and does not show where its first piece ends: after it no whole line
/// begins a trace.
pub fn cut_piece(text: &[u8], is_last: bool) -> Option<PieceCut<'_>>
    ensures cut { MatchOption result (is_last ≡ true → text.now ≡ []) (λ cut. IsCutOff is_last text.now cut.piece.now cut.rest.now) }
    ensures lines { IfSome result (λ cut. cut.lines ≡ length (lines_of cut.piece.now)) }
    ensures few { IfSome result (λ cut. cut.lines + length cut.rest.now ≤ length text.now) }
    ensures shorter { IfSome result (λ cut. length cut.rest.now < length text.now) }
{
    if text.is_empty() {
        return None;
    }
    let (rest, lines) = after_piece(text);
    if !ends_before(rest, is_last) {
        return None;
    }
    let piece = &text[..text.len() - rest.len()];
    Some(PieceCut { piece, rest, lines })
}
