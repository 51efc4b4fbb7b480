//! The numbers of the texts.

ghost use Rattle.std.specs.Prelude.{◌≡◌, ◌<◌, ◌≤◌, ◌+◌, ◌*◌, ◌^◌, ◌&&◌, ◌↔◌, ℕ, ℤ, List, Some, None, MatchOption, decimal, true, length, nat_lt, if◌then◌else◌};
ghost use Rattle.std.specs.Char.{is_ascii_digit, digit_value};
ghost use Rattle.std.specs.List.{list_all};
ghost use Rattle.std.specs.Str.Parse.{digits_value};
ghost use Rattle.text_lines.specs.SolverNumber.{IsNumber};
ghost use Rattle.text_lines.specs.Numbers.{is_digits, digits_up_to, plain_number, plain_number_up_to, has_minus, digits_after_sign, solver_number};

fn all_digits(word: &[u8]) -> bool
    ensures { result ≡ list_all is_ascii_digit word.now }
{
    word.iter().all(|byte| byte.is_ascii_digit())
}

/// Returns whether the word is one digit or more and nothing else.
fn has_digits_alone(word: &[u8]) -> bool
    ensures { result ≡ is_digits word.now }
{
    !word.is_empty() && all_digits(word)
}

/// The number that the digits of `value` write with one more digit after them, if it is below 2^64. The byte is an ASCII digit.
fn with_digit(value: u64, digit: u8) -> Option<u64>
    requires { is_ascii_digit digit ≡ true }
    ensures { result ≡ (if nat_lt (value * 10 + digit_value digit) (2 ^ 64) then Some (value * 10 + digit_value digit) else None) }
{
    let shifted = value.checked_mul(10)?;
    shifted.checked_add(u64::from(digit - b'0'))
}

/// The value of a word of digits, if it is below 2^64. Within a large function the loop would keep the value on the
/// stack, which makes each digit wait for the one before it.
#[inline(never)]
fn value_of_digits(digits: &[u8]) -> Option<u64>
    requires { list_all is_ascii_digit digits.now ≡ true }
    ensures { result ≡ (if nat_lt (digits_value 10 digits.now) (2 ^ 64) then Some (digits_value 10 digits.now) else None) }
{
    let mut value = 0u64;
    for digit in digits {
        value = with_digit(value, *digit)?;
    }
    Some(value)
}

/// The value of at most 19 bytes, if all of them are digits. It is below 10^19, and so below 2^64.
#[inline(always)]
fn value_of_few(word: &[u8]) -> Option<u64>
    requires { length word.now ≤ 19 }
    ensures { result ≡ (if list_all is_ascii_digit word.now then Some (digits_value 10 word.now) else None) }
{
    let mut value = 0u64;
    for byte in word {
        if !byte.is_ascii_digit() {
            return None;
        }
        value = value * 10 + u64::from(*byte - b'0');
    }
    Some(value)
}

/// The value of a word, if all of its bytes are digits and it is below 2^64. A word of up to 19 bytes is gone over once.
#[inline(never)]
fn value_of_word(word: &[u8]) -> Option<u64>
    ensures { result ≡ (if list_all is_ascii_digit word.now && nat_lt (digits_value 10 word.now) (2 ^ 64) then Some (digits_value 10 word.now) else None) }
{
    if word.len() <= 19 {
        value_of_few(word)
    } else if all_digits(word) {
        value_of_digits(word)
    } else {
        None
    }
}

/// The value of a plain number, `0` or a digit from 1 to 9 followed by digits, if it is at most `most`.
pub fn read_plain(word: &[u8], most: u64) -> Option<u64>
    ensures { result ≡ plain_number_up_to most word.now }
{
    if word.is_empty() || (word.len() > 1 && word[0] == b'0') {
        return None;
    }
    value_of_word(word).filter(|value| *value <= most)
}

/// Reads a word of digits alone, leading zeros allowed, whose value is at most `most`.
pub fn read_digits(word: &[u8], most: u64) -> Option<u64>
    ensures { result ≡ digits_up_to most word.now }
{
    if word.is_empty() {
        return None;
    }
    value_of_word(word).filter(|value| *value <= most)
}

/// A number as solvers write it: its sign and its absolute value, if that is below 2^64.
#[derive(Clone, Copy, Debug, PartialEq, Eq)]
pub struct SolverNumber {
    /// Whether a minus stands before it.
    pub is_negative: bool,
    /// Its absolute value, or nothing if that is 2^64 or more.
    pub magnitude: Option<u64>,
}

/// The digits of a solver number, without the minus that may stand before them.
#[inline(always)]
pub fn without_minus(word: &[u8]) -> &[u8]
    ensures { result.now ≡ digits_after_sign word.now }
{
    if begins_with_minus(word) {
        &word[1..]
    } else {
        word
    }
}

/// Returns whether a minus stands first.
#[inline(always)]
pub fn begins_with_minus(word: &[u8]) -> bool
    ensures { result ≡ has_minus word.now }
{
    !word.is_empty() && word[0] == b'-'
}

/// Reads a solver number: an optional minus and one digit or more, leading zeros allowed. A minus before a value of
/// zero is no number, nor is a leading plus.
pub fn read_solver_number(word: &[u8]) -> Option<SolverNumber>
    ensures { MatchOption result (solver_number word.now ≡ None) (λ n. (z : ℤ) × (solver_number word.now ≡ Some z) × IsNumber z n) }
{
    let digits = without_minus(word);
    if !has_digits_alone(digits) {
        return None;
    }
    let is_negative = begins_with_minus(word);
    let magnitude = value_of_digits(digits);
    if is_negative && magnitude == Some(0) {
        return None;
    }
    Some(SolverNumber {
        is_negative,
        magnitude,
    })
}

/// A word is a plain number of this value if and only if it is how the value is written in decimal.
pub fn plain_exactly_decimal()
    ensures { (word : List ℕ) (n : ℕ) → n < 2 ^ 64 → (plain_number word ≡ Some n) ↔ (word ≡ decimal n) }
{}
