//! Which lines begin a trace.

ghost use Rattle.std.specs.Prelude.{◌≡◌, ◌&&◌, ◌||◌, not};
ghost use Rattle.trace_pieces.specs.Pieces.{begins_trace, says};

use text_lines::comments::begins_comment;
use text_lines::words::{cut_word, is_word};

/// Returns whether the line begins a trace: its first word is `vsc`.
fn is_header_line(line: &[u8]) -> bool
    ensures { result ≡ begins_trace line.now }
{
    match cut_word(line) {
        None => false,
        Some((word, _)) => is_word(word, "vsc"),
    }
}

/// Returns whether the line says something: it has words, and is no comment.
pub fn says_something(line: &[u8]) -> bool
    ensures { result ≡ says line.now }
{
    match cut_word(line) {
        None => false,
        Some((word, _)) => !begins_comment(word),
    }
}

/// Returns whether the line begins another trace, if an earlier line of the piece said something. The first line of a piece that says something
/// belongs to the piece, also if it is a header.
pub(crate) fn begins_next(said: bool, line: &[u8]) -> bool
    ensures { result ≡ (said && begins_trace line.now) }
{
    said && is_header_line(line)
}

/// Returns whether a line of the piece has said something, with this one.
pub(crate) fn has_said(said: bool, line: &[u8]) -> bool
    ensures { result ≡ (said || says line.now) }
{
    said || says_something(line)
}
