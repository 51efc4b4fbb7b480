//! How often literals stand in clauses.

ghost use Rattle.std.specs.Prelude.{◌≡◌, ◌+◌, ◌==◌, ◌<◌, ◌≤◌, ℕ, ℤ, vec_len, if◌then◌else◌, OnOk};
ghost use Rattle.lrat_check.specs.Counts.{count_at, literal_count, far_count, times};

use crate::marks::{is_paid, place_of};
use dimacs::Lit;
use std::alloc::{AllocError, Global};
use std::collections::BTreeMap;

/// The number of times that the clause holds the literal.
pub fn times(clause: &[Lit], literal: Lit) -> usize
    ensures { result ≡ times clause.now literal }
{
    clause
        .iter()
        .filter(|other| other.number() == literal.number())
        .count()
}

/// The number of times that each literal stands in the clauses that are counted, by the literals' places. A table has the places
/// that the literals counted before pay for; the counts past those stand in a tree. So its memory is bounded by what was read,
/// whichever variables a derivation names.
#[derive(Drop)]
pub struct LiteralCounts {
    /// The count at each place from 0 on (`marks::place_of`), up to the table's end. For these places the table alone is asked.
    near: Vec<usize>,
    /// Counts at places past the end that the table had when they were put. Old ones stay here when the table grows past them.
    far: BTreeMap<usize, usize>,
    /// The number of literals that were counted, by which the table may grow (`is_paid`).
    counted: usize,
}

impl LiteralCounts {
    /// No clause is counted.
    pub fn new(alloc: Global) -> LiteralCounts
        ensures { (z : ℤ) → literal_count result z ≡ 0 }
    {
        LiteralCounts {
            near: Vec::new(alloc),
            far: BTreeMap::new(alloc),
            counted: 0,
        }
    }

    /// The count at this place in the tree: 0 if none stands there.
    fn far_count(&self, place: usize) -> usize
        ensures { result ≡ far_count self.now place }
    {
        match self.far.get(&place) {
            Some(count) => *count,
            None => 0,
        }
    }

    /// The count at this place.
    fn at(&self, place: usize) -> usize
        ensures { result ≡ count_at self.now place }
    {
        if place < self.near.len() {
            self.near[place]
        } else {
            self.far_count(place)
        }
    }

    /// Makes the table reach to this place. The counts stay as they are: each new row takes over the count in the tree.
    fn reach(&mut self, place: usize) -> Result<(), AllocError>
        ensures room { OnOk result (place < vec_len self.new.near) }
        ensures same { (k : ℕ) → count_at self.new k ≡ count_at self.old k }
    {
        while self.near.len() <= place {
            let count = self.far_count(self.near.len());
            self.near.push(count)?;
        }
        Ok(())
    }

    /// Puts the count into the table.
    fn put_near(&mut self, place: usize, count: usize) -> Result<(), AllocError>
        ensures { OnOk result ((k : ℕ) → count_at self.new k ≡ (if place == k then count else count_at self.old k)) }
    {
        self.reach(place)?;
        self.near[place] = count;
        Ok(())
    }

    /// Puts the count into the tree.
    fn put_far(&mut self, place: usize, count: usize) -> Result<(), AllocError>
        requires { vec_len self.old.near ≤ place }
        ensures { OnOk result ((k : ℕ) → count_at self.new k ≡ (if place == k then count else count_at self.old k)) }
    {
        self.far.insert(place, count)?;
        Ok(())
    }

    /// Counts one more at this place. Memory runs out long before a count is larger than a `usize` holds, so such a count would be
    /// answered as memory that ran out.
    fn raise(&mut self, place: usize) -> Result<(), AllocError>
        ensures { OnOk result ((k : ℕ) → count_at self.new k ≡ count_at self.old k + (if place == k then 1 else 0)) }
    {
        let Some(more) = self.at(place).checked_add(1) else {
            return Err(AllocError);
        };
        self.counted = self.counted.saturating_add(1);
        if place < self.near.len() || is_paid(place, self.counted) {
            self.put_near(place, more)
        } else {
            self.put_far(place, more)
        }
    }

    /// The number of times that this literal stands in them.
    pub fn of(&self, literal: Lit) -> usize
        ensures { result ≡ literal_count self.now literal }
    {
        self.at(place_of(literal))
    }

    /// Counts a clause.
    pub fn add(&mut self, clause: &[Lit]) -> Result<(), AllocError>
        ensures { OnOk result ((z : ℤ) → literal_count self.new z ≡ literal_count self.old z + times clause.now z) }
    {
        for literal in clause {
            self.raise(place_of(*literal))?;
        }
        Ok(())
    }
}
