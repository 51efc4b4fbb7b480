//! What the lines of a certificate say.

ghost use Rattle.std.specs.Prelude.{◌≡◌};
ghost use Rattle.text_lines.specs.Words.{words_of};
ghost use Rattle.certificate.specs.CertLine.{is_header, begun_by, is_end};

use text_lines::numbers::read_plain;
use text_lines::words::{cut_word, is_word};

/// Returns whether the line is the header, `vsc-cert 1`.
pub(crate) fn is_header_line(line: &[u8]) -> bool
    ensures { result ≡ is_header (words_of line.now) }
{
    let Some((word, rest)) = cut_word(line) else {
        return false;
    };
    let Some((version, rest)) = cut_word(rest) else {
        return false;
    };
    if cut_word(rest).is_some() {
        return false;
    }
    is_word(word, "vsc-cert") && is_word(version, "1")
}

/// The leaf whose section the line begins, as `proof` and a plain number of 32 bits. Whether the tree has such a leaf is asked in `recheck`.
pub(crate) fn read_begin(line: &[u8]) -> Option<u32>
    ensures { result ≡ begun_by (words_of line.now) }
{
    let (word, rest) = cut_word(line)?;
    let (number, rest) = cut_word(rest)?;
    if cut_word(rest).is_some() || !is_word(word, "proof") {
        return None;
    }
    match read_plain(number, u64::from(u32::MAX)) {
        Some(leaf) => Some(leaf as u32),
        None => None,
    }
}

/// Returns whether the line ends a section.
pub(crate) fn is_end_line(line: &[u8]) -> bool
    ensures { result ≡ is_end (words_of line.now) }
{
    let Some((word, rest)) = cut_word(line) else {
        return false;
    };
    if cut_word(rest).is_some() {
        return false;
    }
    is_word(word, "end")
}
