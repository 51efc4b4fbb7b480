//! Text written into a buffer of fixed size, from left to right.
//!
//! Each function writes from the place `at` on, for which its contract asks for room, and returns the place after the last byte it has written.
ghost use Rattle.std.specs.Prelude.{◌≡◌, ◌+◌, ◌*◌, ◌/◌, ◌%◌, ◌<◌, ◌≤◌, [], ◌∷◌, ◌++◌, length, take, decimal};
ghost use Rattle.dimacs.specs.CnfText.{header_line, clause_line, literal_text};

use crate::literal::Lit;
use crate::variable_table::VariableTable;
use itoa::Buffer;

/// Maximum length of a literal's text, in bytes, with its sign and its space. The number has up to eight digits here, which is what `put_number`
/// writes; the largest variable has seven.
pub(crate) const LITERAL: usize = 10;

/// Literals of the longest clause that is short: its line is made without a look at the room for each literal.
pub(crate) const SHORT: usize = 4;

/// Maximum length of a short clause's line, in bytes. That is `SHORT` literals of `LITERAL` bytes, the `0` and the line feed.
pub(crate) const SHORT_LINE: usize = 42;

/// Maximum length of a header line, in bytes. It is a bound with room left: `p cnf `, up to 10 and up to 20 digits, a space and a line feed are 38
/// bytes.
pub(crate) const HEADER: usize = 128;

/// The two digits of each number below 100. Those of the number n stand at the places 2n and 2n + 1.
static PAIRS: [u8; 200] =
    *b"00010203040506070809101112131415161718192021222324252627282930313233343536373839404142434445464748495051525354555657585960616263646566676869707172737475767778798081828384858687888990919293949596979899";

/// Writes two digits, also if the first is 0.
#[inline(always)]
fn put_pair(pair: u32, buffer: &mut [u8], at: usize) -> usize
    requires small { pair < 100 }
    requires room { at + 2 ≤ length buffer.old }
    ensures end { result ≡ at + 2 }
    ensures written { take result buffer.new ≡ take at buffer.old ++ (48 + pair / 10) ∷ (48 + pair % 10) ∷ [] }
{
    let place = pair as usize * 2;
    let (tens, ones) = (PAIRS[place], PAIRS[place + 1]);
    buffer[at] = tens;
    buffer[at + 1] = ones;
    at + 2
}

/// Writes a number of up to two digits.
#[inline(always)]
fn put_first(number: u32, buffer: &mut [u8], at: usize) -> usize
    requires small { number < 100 }
    requires room { at + 2 ≤ length buffer.old }
    ensures within { result ≤ at + 2 }
    ensures written { take result buffer.new ≡ take at buffer.old ++ decimal number }
{
    if number >= 10 {
        return put_pair(number, buffer, at);
    }
    buffer[at] = b'0' + number as u8;
    at + 1
}

/// Writes a number of up to four digits.
#[inline(always)]
fn put_short(number: u32, buffer: &mut [u8], at: usize) -> usize
    requires small { number < 10000 }
    requires room { at + 4 ≤ length buffer.old }
    ensures within { result ≤ at + 4 }
    ensures written { take result buffer.new ≡ take at buffer.old ++ decimal number }
{
    if number < 100 {
        return put_first(number, buffer, at);
    }
    let end = put_first(number / 100, buffer, at);
    put_pair(number % 100, buffer, end)
}

/// Writes a number of up to eight digits. What stands above the last four digits has no leading zeros; the last four are written as two pairs,
/// zeros and all.
pub(crate) fn put_number(number: u32, buffer: &mut [u8], at: usize) -> usize
    requires small { number < 100000000 }
    requires room { at + 8 ≤ length buffer.old }
    ensures within { result ≤ at + 8 }
    ensures written { take result buffer.new ≡ take at buffer.old ++ decimal number }
{
    if number < 10_000 {
        return put_short(number, buffer, at);
    }
    let upper = number / 10_000;
    let lower = number - upper * 10_000;
    let end = put_short(upper, buffer, at);
    let end = put_pair(lower / 100, buffer, end);
    put_pair(lower % 100, buffer, end)
}

/// Writes the literal and a space.
#[inline(always)]
pub(crate) fn put_literal(
    literal: Lit,
    table: &VariableTable,
    buffer: &mut [u8],
    at: usize,
) -> usize
    requires { at + LITERAL ≤ length buffer.old }
    ensures within { result ≤ at + LITERAL }
    ensures written { take result buffer.new ≡ take at buffer.old ++ literal_text literal }
{
    let mut end = at;
    if !literal.is_positive() {
        buffer[end] = b'-';
        end += 1;
    }
    table.put(literal.variable(), buffer, end)
}

/// Writes the bytes.
#[inline(always)]
pub(crate) fn put_bytes(bytes: &[u8], buffer: &mut [u8], at: usize) -> usize
    requires { at + length bytes.now ≤ length buffer.old }
    ensures end { result ≡ at + length bytes.now }
    ensures written { take result buffer.new ≡ take at buffer.old ++ bytes.now }
{
    let end = at + bytes.len();
    buffer[at..end].copy_from_slice(bytes);
    end
}

/// Writes the line of a clause that needs no more room than the buffer has.
pub(crate) fn put_short_clause(
    literals: &[Lit],
    table: &VariableTable,
    buffer: &mut [u8],
    at: usize,
) -> usize
    requires short { length literals.now ≤ SHORT }
    requires room { at + SHORT_LINE ≤ length buffer.old }
    ensures within { result ≤ at + SHORT_LINE }
    ensures written { take result buffer.new ≡ take at buffer.old ++ clause_line literals.now }
{
    let mut end = at;
    for literal in literals {
        end = put_literal(*literal, table, buffer, end);
    }
    put_bytes(b"0\n", buffer, end)
}

/// Writes the first line.
pub(crate) fn put_header(variables: u32, clauses: usize, buffer: &mut [u8]) -> usize
    requires { HEADER ≤ length buffer.old }
    ensures within { result ≤ HEADER }
    ensures written { take result buffer.new ≡ header_line variables clauses }
{
    let mut number = Buffer::new();
    let end = put_bytes(b"p cnf ", buffer, 0);
    let end = put_bytes(number.format(variables).as_bytes(), buffer, end);
    let end = put_bytes(b" ", buffer, end);
    let end = put_bytes(number.format(clauses).as_bytes(), buffer, end);
    put_bytes(b"\n", buffer, end)
}
