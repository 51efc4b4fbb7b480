//! Numbers as words.

/// The most digits that a number of 64 bits has.
const MAX_DIGITS: usize = 20;

/// A number in decimal.
#[derive(Drop)]
pub struct Digits {
    digits: [u8; MAX_DIGITS],
    /// The place of the first digit. Before it stand zeros that are not of the number.
    start: usize,
}

impl Digits {
    /// The digits.
    pub fn as_slice(&self) -> &[u8] {
        match self.digits.get(self.start..) {
            Some(digits) => digits,
            None => &[],
        }
    }
}

/// Writes the number in decimal.
pub fn decimal(number: u64) -> Digits {
    let mut digits = [b'0'; MAX_DIGITS];
    let mut start = MAX_DIGITS;
    let mut rest = number;
    for place in (0..MAX_DIGITS).rev() {
        digits[place] = b'0' + (rest % 10) as u8;
        rest /= 10;
        start = place;
        if rest == 0 {
            break;
        }
    }
    Digits { digits, start }
}
