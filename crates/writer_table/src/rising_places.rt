//! Places of a process, in order.

ghost use Rattle.std.specs.Prelude.{◌≤◌, ◌<◌, ℕ, length, slice_index};
ghost use Rattle.std.specs.List.Sorted.{IsNonDecreasing};

use std::alloc::{AllocError, Global};
use std::marker::Model;

/// The number of the places that are at most the bound.
fn count_at_most(places: &[u32], bound: u32) -> usize
    requires rising { IsNonDecreasing places.now }
    ensures within { result ≤ length places.now }
    ensures first { (k : ℕ) → k < result → slice_index places.now k ≤ bound }
    ensures others { (k : ℕ) → result ≤ k → k < length places.now → bound < slice_index places.now k }
{
    places.partition_point(|place| *place <= bound)
}

/// Places of a process, none below one before it.
#[derive(Drop)]
pub struct RisingPlaces {
    places: Vec<u32>,
}

impl Model for RisingPlaces {
    ghost use Rattle.std.specs.Prelude.{List, ℕ};
    ghost use Rattle.std.specs.List.Sorted.{IsNonDecreasing};

    ghost Value = { List ℕ };

    ghost view = { λ rising. rising.places.items };

    ghost invariant = { λ rising. IsNonDecreasing rising.places.items };
}

impl RisingPlaces {
    ghost use Rattle.std.specs.Prelude.{◌≡◌, ◌++◌, ◌∷◌, [], false, IfOk};
    ghost use Rattle.std.specs.Bool.{MatchBool};
    ghost use Rattle.std.specs.List.{Contains};

    /// The list of this place alone.
    pub fn of_one(alloc: Global, place: u32) -> Result<RisingPlaces, AllocError>
        ensures { IfOk result (λ rising. rising ≡ place ∷ []) }
    {
        let mut places = Vec::new(alloc);
        places.push(place)?;
        Ok(RisingPlaces { places })
    }

    /// Appends the place and returns whether it did: one below the last is not appended.
    pub fn push(&mut self, place: u32) -> Result<bool, AllocError>
        ensures places { IfOk result (λ done. MatchBool done (self.new ≡ self.old ++ place ∷ []) (self.new ≡ self.old)) }
        ensures over { IfOk result (λ done. done ≡ false → (k : ℕ) × Contains self.old k × (place < k)) }
    {
        let count = self.places.len();
        if count > 0 && self.places[count - 1] > place {
            return Ok(false);
        }
        self.places.push(place)?;
        Ok(true)
    }

    /// The places as a slice.
    pub fn as_slice(&self) -> &[u32]
        ensures places { result.now ≡ self.now }
        ensures rising { IsNonDecreasing result.now }
    {
        self.places.as_slice()
    }

    /// The number of the places that are at most the bound. They come first.
    pub fn count_to(&self, bound: u32) -> usize
        ensures within { result ≤ length self.now }
        ensures first { (k : ℕ) → k < result → slice_index self.now k ≤ bound }
        ensures others { (k : ℕ) → result ≤ k → k < length self.now → bound < slice_index self.now k }
    {
        count_at_most(self.as_slice(), bound)
    }
}
