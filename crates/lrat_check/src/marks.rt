//! Marks of literals.

ghost use Rattle.std.specs.Prelude.{◌≡◌, ◌<◌, ℕ, ◌&&◌, ◌==◌, not, true, false, vec_len, if◌then◌else◌, OnErr, OnOk};
ghost use Rattle.std.specs.BTreeSet.{contains};
ghost use Rattle.std.specs.Ordering.{nat_cmp};
ghost use Rattle.lrat_check.specs.Marks.{place_of, marked_at, is_marked};

use dimacs::Lit;
use std::alloc::{AllocError, Global};
use std::collections::BTreeSet;

/// The number of places by which a table may be longer for each entry.
const PLACES_PER_ENTRY: usize = 64;

/// The number of entries that are counted before any was made, so that small formulas have a table at once.
const PAID_AT_START: usize = 256;

/// Returns whether a table with this number of entries may reach to this place. So its time and its memory are at most a fixed multiple of
/// what was read, whichever variables a derivation names. Only time and memory depend on this, never the result.
pub fn is_paid(place: usize, entries: usize) -> bool {
    place / PLACES_PER_ENTRY <= entries.saturating_add(PAID_AT_START)
}

/// The place of the literal in a table of marks or counts: 2v for the variable v, 2v + 1 for its negation. Variables begin at 1, so places
/// 0 and 1 are not used.
pub fn place_of(literal: Lit) -> usize
    ensures { result ≡ place_of literal }
{
    let place = 2 * literal.variable() as usize;
    if literal.is_positive() {
        place
    } else {
        place + 1
    }
}

/// Returns whether there is a mark at this place.
pub fn marked_at(marks: &[bool], place: usize) -> bool
    ensures { result ≡ marked_at marks.now place }
{
    place < marks.len() && marks[place]
}

/// Makes the table reach to this place. Its marks stay as they are.
pub fn make_room(marks: &mut Vec<bool>, place: usize) -> Result<(), AllocError>
    ensures room { OnOk result (place < vec_len marks.new) }
    ensures same { (k : ℕ) → marked_at marks.new.items k ≡ marked_at marks.old.items k }
{
    while marks.len() <= place {
        marks.push(false)?;
    }
    Ok(())
}

/// Makes a mark at this place of the table.
pub fn mark_at(marks: &mut Vec<bool>, place: usize)
    requires { place < vec_len marks.now }
    ensures { (k : ℕ) → marked_at marks.new.items k ≡ (if place == k then true else marked_at marks.old.items k) }
{
    marks[place] = true;
}

/// Takes the mark at this place away.
pub fn unmark_at(marks: &mut Vec<bool>, place: usize)
    ensures { (k : ℕ) → marked_at marks.new.items k ≡ (marked_at marks.old.items k && not (k == place)) }
{
    if place < marks.len() {
        marks[place] = false;
    }
}

/// A set of places. Low places are marked in the table `near`, which may be as long as the number of marks made so far allows (`is_paid`),
/// and others are in the tree `far`. A place may be marked in both, once the table has grown past it.
#[derive(Drop)]
pub struct LiteralMarks {
    near: Vec<bool>,
    far: BTreeSet<usize>,
    /// The number of marks that were ever made. Marks taken away do not lower it.
    made: usize,
}

impl LiteralMarks {
    /// No marks.
    pub fn new(alloc: Global) -> LiteralMarks
        ensures { (k : ℕ) → is_marked result k ≡ false }
    {
        LiteralMarks {
            near: Vec::new(alloc),
            far: BTreeSet::new(alloc),
            made: 0,
        }
    }

    /// Returns whether there is a mark at this place in the tree.
    fn is_far(&self, place: usize) -> bool
        ensures { result ≡ contains nat_cmp self.now.far place }
    {
        if self.far.is_empty() {
            return false;
        }
        self.far.contains(&place)
    }

    /// Returns whether there is a mark at this place.
    #[inline(always)]
    pub fn has(&self, place: usize) -> bool
        ensures { result ≡ is_marked self.now place }
    {
        marked_at(self.near.as_slice(), place) || self.is_far(place)
    }

    /// Returns whether the table reaches to this place and the tree is empty, so that the table alone is looked at.
    pub fn is_at_hand(&self, place: usize) -> bool
        ensures { result ≡ true → place < vec_len self.now.near }
    {
        place < self.near.len() && self.far.is_empty()
    }

    /// Makes a mark at this place, to which the table reaches.
    pub fn add_at_hand(&mut self, place: usize)
        requires { place < vec_len self.old.near }
        ensures { (k : ℕ) → is_marked self.new k ≡ (if place == k then true else is_marked self.old k) }
    {
        self.made = self.made.saturating_add(1);
        mark_at(&mut self.near, place);
    }

    /// Makes a mark at this place of the table.
    fn add_near(&mut self, place: usize) -> Result<(), AllocError>
        ensures added { OnOk result ((k : ℕ) → is_marked self.new k ≡ (if place == k then true else is_marked self.old k)) }
        ensures unchanged { OnErr result ((k : ℕ) → is_marked self.new k ≡ is_marked self.old k) }
    {
        make_room(&mut self.near, place)?;
        mark_at(&mut self.near, place);
        Ok(())
    }

    /// Makes a mark at this place in the tree.
    fn add_far(&mut self, place: usize) -> Result<(), AllocError>
        ensures added { OnOk result ((k : ℕ) → is_marked self.new k ≡ (if place == k then true else is_marked self.old k)) }
        ensures unchanged { OnErr result ((k : ℕ) → is_marked self.new k ≡ is_marked self.old k) }
    {
        self.far.insert(place)?;
        Ok(())
    }

    /// Makes a mark at this place.
    pub fn add(&mut self, place: usize) -> Result<(), AllocError>
        ensures added { OnOk result ((k : ℕ) → is_marked self.new k ≡ (if place == k then true else is_marked self.old k)) }
        ensures unchanged { OnErr result ((k : ℕ) → is_marked self.new k ≡ is_marked self.old k) }
    {
        self.made = self.made.saturating_add(1);
        if place < self.near.len() || is_paid(place, self.made) {
            self.add_near(place)
        } else {
            self.add_far(place)
        }
    }

    /// Takes the mark at this place away, from the table and the tree: either may have it.
    pub fn remove(&mut self, place: usize)
        ensures { (k : ℕ) → is_marked self.new k ≡ (is_marked self.old k && not (k == place)) }
    {
        unmark_at(&mut self.near, place);
        if !self.far.is_empty() {
            let _was_far = self.far.remove(&place);
        }
    }
}
