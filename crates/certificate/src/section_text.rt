//! The end of a section's lines.

ghost use Rattle.std.specs.Prelude.{◌≡◌, ◌+◌, ◌≤◌, length};
ghost use Rattle.text_lines.specs.Lines.{lines_of};
ghost use Rattle.certificate.specs.CertRead.{IsSectionCut};

use crate::cert_line::is_end_line;
use text_lines::lines::cut_line;

/// The lines before the first one that ends a section, the text from that line on, and the number of lines before it. If no line
/// ends a section, these are all lines and the empty text.
pub(crate) fn cut_section(text: &[u8]) -> (&[u8], &[u8], usize)
    ensures cut { IsSectionCut (lines_of text.now) (lines_of result.0.now) (lines_of result.1.now) result.2 }
    ensures shorter { result.2 + length result.1.now ≤ length text.now }
    ensures within { length result.0.now ≤ length text.now }
{
    let mut bytes = 0;
    let mut count = 0;
    let mut rest = text;
    while let Some((line, after)) = cut_line(rest) {
        if is_end_line(line) {
            // `bytes` counts lines that ended with a line feed, so it is within the text. The minimum spares a proof of that.
            return (&text[..text.len().min(bytes)], rest, count);
        }
        bytes += line.len() + 1;
        count += 1;
        rest = after;
    }
    (text, rest, count)
}
