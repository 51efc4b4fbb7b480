//! The sources of one process, in three stretches.

ghost use Rattle.std.specs.Prelude.{◌≡◌, ◌≤◌, ◌<◌, ◌⊎◌, ℕ, length, slice_index};
ghost use Rattle.std.specs.List.{All, Contains};
ghost use Rattle.reason_clauses.specs.Numbered.{IsTaken, AreUpTo};
ghost use Rattle.reason_clauses.specs.StretchOrders.{AreStretchesOf, AreNoStretches, AreCut};
ghost use Rattle.std.specs.List.Sorted.{IsNonDecreasing};

use writer_table::rising_places::RisingPlaces;

/// Places in a process, 0 for none: the last one up to the bound, the first one from the limit on that is above the bound, and the first and the last of
/// the others. These few bar all sources of the process, since its operations stand in program order.
#[derive(Clone, Copy, Debug, PartialEq, Eq)]
pub struct Stretches {
    pub hidden: u32,
    pub later: u32,
    pub first: u32,
    pub last: u32,
}

/// The place at k, if low is below high, and else 0.
fn place_if(places: &[u32], low: usize, high: usize, k: usize) -> u32
    requires inside { low < high → k < length places.now }
    ensures there { low < high → result ≡ slice_index places.now k }
    ensures none { high ≤ low → result ≡ 0 }
{
    if low < high { places[k] } else { 0 }
}

/// The stretches of rising places, by the number of those up to the bound, and of those before the limit.
fn cut(places: &[u32], hidden: usize, before: usize) -> Stretches
    requires rising { IsNonDecreasing places.now }
    requires hidden { hidden ≤ length places.now }
    requires before { before ≤ length places.now }
    ensures taken { All (λ p. 1 ≤ p) places.now → (p : ℕ) → Contains places.now p → IsTaken result p }
    ensures most { (n : ℕ) → All (λ p. p ≤ n) places.now → AreUpTo result n }
    ensures cut { AreCut places.now hidden before result }
{
    // If the limit is not above the bound, the hidden ones come first, and no others are left between.
    let start = if hidden < before { before } else { hidden };
    let up_to = place_if(places, 0, hidden, hidden.saturating_sub(1));
    let first = place_if(places, hidden, before, hidden);
    let last = place_if(places, hidden, before, before.saturating_sub(1));
    let later = place_if(places, start, places.len(), start);
    Stretches {
        hidden: up_to,
        later,
        first,
        last,
    }
}

/// The number of the places before the limit. A limit of 0 is none, so that all are.
fn count_before(places: &RisingPlaces, limit: u32) -> usize
    ensures within { result ≤ length places.now }
    ensures first { (k : ℕ) → k < result → (limit ≡ 0) ⊎ (slice_index places.now k < limit) }
    ensures others { (k : ℕ) → result ≤ k → k < length places.now → (1 ≤ limit) × (limit ≤ slice_index places.now k) }
{
    if limit == 0 {
        return places.as_slice().len();
    }
    places.count_to(limit - 1)
}

/// Returns the stretches of the places. A limit of 0 is none.
pub fn stretches_of(places: &RisingPlaces, bound: u32, limit: u32) -> Stretches
    ensures taken { All (λ p. 1 ≤ p) places.now → (p : ℕ) → Contains places.now p → IsTaken result p }
    ensures most { (n : ℕ) → All (λ p. p ≤ n) places.now → AreUpTo result n }
    ensures only { AreStretchesOf (Contains places.now) bound limit result }
{
    let hidden = places.count_to(bound);
    let before = count_before(places, limit);
    cut(places.as_slice(), hidden, before)
}

/// Returns the stretches of no places.
pub fn no_stretches() -> Stretches
    ensures most { (n : ℕ) → AreUpTo result n }
    ensures none { AreNoStretches result }
{
    Stretches {
        hidden: 0,
        later: 0,
        first: 0,
        last: 0,
    }
}

/// Returns the stretches of one place. A limit of 0 is none.
pub fn stretches_of_one(place: u32, bound: u32, limit: u32) -> Stretches
    ensures taken { 1 ≤ place → IsTaken result place }
    ensures most { AreUpTo result place }
    ensures only { AreStretchesOf (λ k. k ≡ place) bound limit result }
{
    let mut s = Stretches {
        hidden: 0,
        later: 0,
        first: 0,
        last: 0,
    };
    if place <= bound {
        s.hidden = place;
    } else if limit != 0 && limit <= place {
        s.later = place;
    } else {
        s.first = place;
        s.last = place;
    }
    s
}
