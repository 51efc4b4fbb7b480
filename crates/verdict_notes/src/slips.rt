//! Words that differ as by a slip of the one who wrote them.

/// The least length of words that may differ by a slip of one letter. Shorter ones, as `x` and `y`, are different names.
const LEAST_LENGTH: usize = 3;

/// Returns whether the words are the same but for capital and small letters.
pub fn differ_by_case(first: &[u8], second: &[u8]) -> bool {
    if first == second || first.len() != second.len() {
        return false;
    }
    for at in 0..first.len() {
        if first[at].to_ascii_lowercase() != second[at].to_ascii_lowercase() {
            return false;
        }
    }
    true
}

/// The number of bytes that both words have in common at their begin. What a slip is shows in the bytes behind them.
fn common_front(first: &[u8], second: &[u8]) -> usize {
    for at in 0..first.len() {
        match second.get(at) {
            Some(byte) if *byte == first[at] => {}
            _ => return at,
        }
    }
    first.len()
}

/// Gives what is left of the word after this number of bytes.
fn rest_of(word: &[u8], count: usize) -> &[u8] {
    word.get(count..).unwrap_or(b"")
}

/// Returns whether one of the words is the other one without its first byte.
fn lacks_first(first: &[u8], second: &[u8]) -> bool {
    rest_of(first, 1) == second || first == rest_of(second, 1)
}

/// Returns whether the words are the same but for the order of their first two bytes.
fn exchanges_first(first: &[u8], second: &[u8]) -> bool {
    if first.len() < 2 || second.len() < 2 {
        return false;
    }
    first[0] == second[1] && first[1] == second[0] && rest_of(first, 2) == rest_of(second, 2)
}

/// Returns whether the word begins with a digit.
fn begins_with_digit(word: &[u8]) -> bool {
    match word.get(0) {
        Some(byte) => byte.is_ascii_digit(),
        None => false,
    }
}

/// Returns whether both words are long enough for a slip, and different.
fn may_be_slip(first: &[u8], second: &[u8]) -> bool {
    first != second && first.len() >= LEAST_LENGTH && second.len() >= LEAST_LENGTH
}

/// Returns whether the words differ by one letter that is changed, left out or added, or by two neighbours that are exchanged. Names that
/// differ by a digit are different names, as `x1` and `x2`.
pub fn differ_by_letter(first: &[u8], second: &[u8]) -> bool {
    if !may_be_slip(first, second) {
        return false;
    }
    let front = common_front(first, second);
    let (first, second) = (rest_of(first, front), rest_of(second, front));
    if begins_with_digit(first) || begins_with_digit(second) {
        return false;
    }
    rest_of(first, 1) == rest_of(second, 1)
        || lacks_first(first, second)
        || exchanges_first(first, second)
}

/// Returns whether the words, which are numbers, differ by a digit that is left out or added, or by two neighbours that are exchanged. By a
/// changed digit many a number differs from the one after it.
pub fn differ_by_digit(first: &[u8], second: &[u8]) -> bool {
    if !may_be_slip(first, second) {
        return false;
    }
    let front = common_front(first, second);
    let (first, second) = (rest_of(first, front), rest_of(second, front));
    lacks_first(first, second) || exchanges_first(first, second)
}
