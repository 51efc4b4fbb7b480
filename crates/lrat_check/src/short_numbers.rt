//! Short numbers at the front of a line, which are cut and read in one pass: 18 digits at most, so that the value fits 64 bits, and
//! no blank before them. Any other word is left to the readers of words.

ghost use Rattle.std.specs.Prelude.{◌≡◌, ◌<◌, ◌+◌, ◌^◌, pos, drop, map, slice_index_or, true, IfOk, IfSome};
ghost use Rattle.dimacs.specs.Literal.{is_literal};
ghost use Rattle.lrat_check.specs.LratFaults.{literal_fault, hint_fault, id_fault};
ghost use Rattle.lrat_check.specs.LratText.{is_id_number};
ghost use Rattle.lrat_check.specs.ShortNumbers.{AreLeadingDigits, IsFirstNumber, IsShortNumber, ReadsOn};
ghost use Rattle.text_lines.specs.Words.{is_blank};

use dimacs::{Lit, MAX_VARIABLE};
use std::alloc::AllocError;
use text_lines::numbers::{begins_with_minus, without_minus};
use text_lines::words::is_blank_byte;

/// The most digits of a short number: a value below 10^18 fits a `u64`, and an `i64` too, as which hints are kept.
const MOST_DIGITS: usize = 18;

/// The value of the digits at the front of the text, and how many they are. If a byte follows that is no blank, the count is 0. The value
/// of more than 18 digits may have wrapped.
#[inline(always)]
fn leading_digits(text: &[u8]) -> (u64, usize)
    ensures digits { AreLeadingDigits text.now result.0 result.1 }
    ensures ended { 0 < result.1 → is_blank (slice_index_or text.now result.1 32) ≡ true }
{
    let mut value = 0u64;
    let mut count = 0usize;
    for byte in text {
        if !byte.is_ascii_digit() {
            if !is_blank_byte(*byte) {
                return (0, 0);
            }
            return (value, count);
        }
        value = value.wrapping_mul(10).wrapping_add(u64::from(*byte - b'0'));
        count += 1;
    }
    (value, count)
}

/// The value of the short number at the front of the text, and how many digits it has. If there is none, the count is 0.
#[inline(always)]
fn short_number(text: &[u8]) -> (u64, usize)
    ensures number { 0 < result.1 → IsShortNumber text.now result.0 result.1 }
    ensures small { result.0 < 10 ^ 18 }
{
    let (value, count) = leading_digits(text);
    if count > MOST_DIGITS {
        return (0, 0);
    }
    (value, count)
}

/// The bytes after this place, at which the blank stands that ends a number. None are left if the number ends the text.
#[inline(always)]
fn behind(text: &[u8], place: usize) -> &[u8]
    ensures { result.now ≡ drop (place + 1) text.now }
{
    if place < text.len() {
        &text[place + 1..]
    } else {
        &[]
    }
}

/// Gives what follows the 0, if a short number of this value is at the front of the line.
pub(crate) fn behind_zero(line: &[u8]) -> Option<&[u8]>
    ensures { IfSome result (λ rest. IsFirstNumber line.now (pos 0) rest.now) }
{
    let (value, count) = short_number(line);
    if count == 0 || value != 0 {
        return None;
    }
    Some(behind(line, count))
}

/// Adds the ids that are short numbers at the front of the line, up to a 0 or another word. Gives what follows, from the 0 or that word on.
pub(crate) fn push_short_ids<'x>(ids: &mut Vec<u64>, line: &'x [u8]) -> Result<&'x [u8], AllocError>
    ensures { IfOk result (λ rest. ReadsOn id_fault is_id_number (map pos ids.old.items) line.now (map pos ids.new.items) rest.now) }
{
    let mut rest = line;
    loop {
        let (id, count) = short_number(rest);
        if count == 0 || id == 0 {
            return Ok(rest);
        }
        ids.push(id)?;
        rest = behind(rest, count);
    }
}

/// Adds the hints that are short numbers at the front of the line, up to a 0 or another word. Gives what follows. A hint with a minus
/// is such another word: only RAT steps have one, and they are few.
pub(crate) fn push_short_hints<'x>(
    hints: &mut Vec<i64>,
    line: &'x [u8],
) -> Result<&'x [u8], AllocError>
    ensures { IfOk result (λ rest. ReadsOn hint_fault is_id_number hints.old.items line.now hints.new.items rest.now) }
{
    let mut rest = line;
    loop {
        let (id, count) = short_number(rest);
        if count == 0 || id == 0 {
            return Ok(rest);
        }
        hints.push(id as i64)?;
        rest = behind(rest, count);
    }
}

/// Adds the literals at the front of the line that are short numbers or ones after a minus, up to a 0 or another word. Gives what follows.
pub(crate) fn push_short_literals<'x>(
    literals: &mut Vec<Lit>,
    line: &'x [u8],
) -> Result<&'x [u8], AllocError>
    ensures { IfOk result (λ rest. ReadsOn literal_fault is_literal literals.old.items line.now literals.new.items rest.now) }
{
    let mut rest = line;
    loop {
        let digits = without_minus(rest);
        let (variable, count) = short_number(digits);
        if count == 0 || variable == 0 || variable > u64::from(MAX_VARIABLE) {
            return Ok(rest);
        }
        literals.push(Lit::signed(variable as u32, begins_with_minus(rest)))?;
        rest = behind(digits, count);
    }
}
