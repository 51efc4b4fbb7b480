//! The place of an operation in its process, as it is written.

ghost use Rattle.std.specs.Prelude.{◌≡◌, ◌&&◌, true, decimal, nat_le, IfSome};
ghost use Rattle.trace_semantics.specs.Place.{place_of};

use crate::limits::MAX_PLACE;
use text_lines::numbers::read_plain;

/// Returns the place that the word writes, from 1 to 4294967295.
pub fn read_place(word: &[u8]) -> Option<u32>
    ensures value { result ≡ place_of word.now }
    ensures written { IfSome result (λ place. word.now ≡ decimal place) }
    ensures fits { IfSome result (λ place. (nat_le 1 place && nat_le place 4294967295) ≡ true) }
{
    match read_plain(word, MAX_PLACE) {
        Some(place) if place >= 1 => Some(place as u32),
        _ => None,
    }
}
