//! The header of a trace text.

ghost use Rattle.std.specs.Prelude.{◌≡◌, ◌∷◌, [], true, false, codes, map, MatchOption, IfOk, IfErr};
ghost use Rattle.std.specs.Cmp.Lexicographic.{pointwise};
ghost use Rattle.std.specs.List.{list_any};
ghost use Rattle.std.specs.Str.{bytes_eq};
ghost use Rattle.text_lines.specs.Fault.{IsRefusal};
ghost use Rattle.text_lines.specs.Words.{words_of};
ghost use Rattle.trace_text.specs.Header.{header_fault, IsHeaderLine};
ghost use Rattle.text_lines.specs.Kept.{is_skipped};
ghost use Rattle.trace_text.specs.Read.{HasHeader};
ghost use Rattle.text_lines.specs.PlainFault.{IsRefusedFor};
ghost use Rattle.trace_text.specs.TraceFault.{is_header, HasTraceFault};
ghost use Rattle.trace_text.specs.TraceText.{header_line};

use crate::line::has_high_byte;
use crate::trace_fault::{LineRefusal, TraceCause, TraceFault};
use crate::version::Version;
use text_lines::comments::is_skipped_line;
use text_lines::fault::PlacedFault;
use text_lines::lines::cut_line;
use text_lines::plain_fault::PlainFault;
use text_lines::words::first_words;

/// The header of a text, and what follows it.
#[derive(Drop)]
pub struct Header<'a> {
    /// The version of the text.
    pub version: Version,
    /// The text after the header.
    pub rest: &'a [u8],
    /// The number of the line after the header. Lines are counted from 1, all of them.
    pub next: usize,
}

/// Returns whether the words are those of the header of this version.
fn is_header_of(words: &[&[u8]], version: &str) -> bool
    ensures { result ≡ pointwise bytes_eq (map (λ word. word.now) words.now) (codes "vsc" ∷ version.now ∷ []) }
{
    words.len() == 2 && words[0] == b"vsc".as_slice() && words[1] == version.as_bytes()
}

/// Returns the version whose header these words are, if they are those of a header.
fn version_of(words: &[&[u8]]) -> Option<Version>
    ensures { MatchOption result (is_header (map (λ word. word.now) words.now) ≡ false) (λ version. map (λ word. word.now) words.now ≡ header_line version) }
{
    if is_header_of(words, "1") {
        Some(Version::One)
    } else if is_header_of(words, "2") {
        Some(Version::Two)
    } else if is_header_of(words, "3") {
        Some(Version::Three)
    } else {
        None
    }
}

/// Returns the version of the header on this line, or `None` if the line is skipped.
fn read_header_line(line: &[u8]) -> Result<Option<Version>, LineRefusal>
    ensures refused { IfErr result (IsRefusedFor (header_fault line.now)) }
    ensures read { IfOk result (λ version. MatchOption version (is_skipped (words_of line.now) ≡ true) (λ version. IsHeaderLine line.now version)) }
{
    let words = first_words(line);
    if is_skipped_line(words.as_slice()) {
        return Ok(None);
    }
    if has_high_byte(line) {
        return Err(PlainFault::For(TraceCause::NotAscii));
    }
    match version_of(words.as_slice()) {
        Some(version) => Ok(Some(version)),
        None => Err(PlainFault::For(TraceCause::Header)),
    }
}

/// Reads the lines up to the header.
pub fn read_header(text: &[u8]) -> Result<Header<'_>, TraceFault>
    ensures refused { IfErr result (IsRefusal (HasTraceFault text.now)) }
    ensures read { IfOk result (λ header. HasHeader text.now header.version header.rest.now header.next) }
{
    let mut rest = text;
    let mut next = 1usize;
    while let Some((line, after)) = cut_line(rest) {
        match read_header_line(line) {
            Ok(Some(version)) => {
                return Ok(Header {
                    version,
                    rest: after,
                    next: next + 1,
                });
            }
            Ok(None) => {}
            Err(refusal) => return Err(refusal.at(next)),
        }
        rest = after;
        next += 1;
    }
    // a missing header stands at the line after the last
    Err(PlacedFault::At(TraceCause::Header, next))
}
