//! The places of what remains of a process.

ghost use Rattle.std.specs.Prelude.{◌≡◌};

use std::marker::Model;

/// The old places of what remains of a process.
#[derive(Drop)]
pub struct LeftPlaces<'a> {
    /// They are counted from 1 and rise.
    places: &'a [u32],
}

impl<'a> Model for LeftPlaces<'a> {
    ghost use Rattle.std.specs.Prelude.{List, ℕ};

    ghost Value = { List ℕ };

    ghost view = { λ left. left.places.now };
}

impl<'a> LeftPlaces<'a> {
    /// Takes these places.
    pub fn new(places: &'a [u32]) -> LeftPlaces<'a>
        ensures { result ≡ places.now }
    {
        LeftPlaces { places }
    }

    /// Returns the places as a slice.
    pub fn as_slice(&self) -> &'a [u32]
        ensures { result.now ≡ self.now }
    {
        self.places
    }
}
