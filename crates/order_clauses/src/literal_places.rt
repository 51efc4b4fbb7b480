//! Where literals stand in a clause.

ghost use Rattle.std.specs.Prelude.{◌≡◌, true, OnOk};
ghost use Rattle.std.specs.List.{Contains};
ghost use Rattle.order_clauses.specs.ClauseOf.{IsPut};

use dimacs::Lit;
use std::alloc::{AllocError, Global};

/// For each literal the place in the clause at which it was last put. It is looked at again before it is relied on, so the places of
/// earlier clauses need not be cleared.
#[derive(Drop)]
pub struct LiteralPlaces {
    /// By `number_of` of the literal. It grows to the largest one that was put; 0 stands also for what was never put.
    places: Vec<usize>,
}

/// The number of a literal, counted from 0: two for each variable.
fn number_of(literal: Lit) -> usize {
    let double = (literal.variable() as usize).wrapping_mul(2);
    if literal.is_positive() {
        double
    } else {
        double.wrapping_add(1)
    }
}

/// Returns whether the literal stands at this place.
fn is_at(literals: &[Lit], place: usize, literal: Lit) -> bool
    ensures { result ≡ true → Contains literals.now literal }
{
    place < literals.len() && literals[place] == literal
}

impl LiteralPlaces {
    /// No places yet.
    pub fn new(alloc: Global) -> LiteralPlaces {
        LiteralPlaces {
            places: Vec::new(alloc),
        }
    }

    /// Returns whether the literal is among these, where each was put by `put`.
    pub fn has(&self, literals: &[Lit], literal: Lit) -> bool
        ensures { result ≡ true → Contains literals.now literal }
    {
        let number = number_of(literal);
        number < self.places.len() && is_at(literals, self.places[number], literal)
    }

    /// Keeps the place of the literal.
    fn keep(&mut self, literal: Lit, place: usize) -> Result<(), AllocError> {
        let number = number_of(literal);
        while self.places.len() <= number {
            self.places.push(0)?;
        }
        self.places[number] = place;
        Ok(())
    }

    /// Appends the literal, if it is not among the others.
    pub fn put(&mut self, literals: &mut Vec<Lit>, literal: Lit) -> Result<(), AllocError>
        ensures { OnOk result (IsPut literals.old.items literals.new.items literal) }
    {
        if self.has(literals.as_slice(), literal) {
            return Ok(());
        }
        self.keep(literal, literals.len())?;
        literals.push(literal)?;
        Ok(())
    }
}
