//! The first line of a certificate of reasons.

ghost use Rattle.std.specs.Prelude.{◌≡◌, ◌<◌, false, true, length, IfOk, IfErr};
ghost use Rattle.text_lines.specs.Words.{words_of};
ghost use Rattle.text_lines.specs.declared.plain_fault.PlainFault.TheVariants.{For};
ghost use Rattle.reason_clauses.specs.declared.cause.ReasonCause.TheVariants.{BadHeader};
ghost use Rattle.reason_text.specs.Header.{is_header, begins_reasons, HasHeader};

use reason_clauses::cause::{ReasonCause, ReasonRefusal};
use text_lines::lines::cut_line;
use text_lines::words::{cut_word, is_word};

/// Returns whether the line is the header, `vsc-reasons 1`.
fn is_header_line(line: &[u8]) -> bool
    ensures { result ≡ is_header (words_of line.now) }
{
    let Some((word, rest)) = cut_word(line) else {
        return false;
    };
    let Some((version, rest)) = cut_word(rest) else {
        return false;
    };
    if cut_word(rest).is_some() {
        return false;
    }
    is_word(word, "vsc-reasons") && is_word(version, "1")
}

/// Returns whether the text is that of a certificate of reasons, by its first line.
pub fn begins_reasons(text: &[u8]) -> bool
    ensures { result ≡ begins_reasons text.now }
{
    match cut_line(text) {
        Some((line, _rest)) => is_header_line(line),
        None => false,
    }
}

/// The text after the first line, which has to be the header.
pub fn cut_header(text: &[u8]) -> Result<&[u8], ReasonRefusal>
    ensures headed { IfOk result (λ rest. begins_reasons text.now ≡ true) }
    ensures lines { IfOk result (λ rest. HasHeader text.now rest.now) }
    ensures shorter { IfOk result (λ rest. length rest.now < length text.now) }
    ensures faulty { IfErr result (λ refusal. (refusal ≡ For BadHeader) × (begins_reasons text.now ≡ false)) }
{
    let Some((line, rest)) = cut_line(text) else {
        return Err(ReasonRefusal::For(ReasonCause::BadHeader));
    };
    if !is_header_line(line) {
        return Err(ReasonRefusal::For(ReasonCause::BadHeader));
    }
    Ok(rest)
}
