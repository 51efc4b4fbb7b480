//! Sources, each once.

ghost use Rattle.std.specs.Prelude.{◌≡◌, ◌≤◌, ◌<◌, ◌+◌, true, false, [], length, slice_index_or, OnOk};
ghost use Rattle.std.specs.List.{Contains};
ghost use Rattle.std.specs.Str.{bytes_eq};
ghost use Rattle.writer_table.specs.declared.operation_place.OperationPlace.{OperationPlace as Place};
ghost use Rattle.reason_counting.specs.DistinctSources.{AreApart, HasAll, HasLocation, KeptOnly};

use reason_clauses::lookups::are_same;
use std::alloc::{AllocError, Global};
use std::collections::HashMap;
use writer_table::operation_place::OperationPlace;

/// Operations, each once, and locations whose initial value is a source, each once.
#[derive(Drop)]
pub struct DistinctSources<'a> {
    /// For each operation, by its process and its place there, where it stands among those that are kept. It is looked at again before it is relied on.
    places: HashMap<(u32, u32), usize>,
    operations: Vec<OperationPlace>,
    locations: Vec<&'a [u8]>,
}

/// Returns whether the operation stands at this place.
fn is_at(operations: &[OperationPlace], place: usize, n: OperationPlace) -> bool
    ensures there { result ≡ true → Contains operations.now n }
    ensures other { result ≡ false → (d : Place) → place < length operations.now → slice_index_or operations.now place d ≡ n → ⊥ }
{
    if place >= operations.len() {
        return false;
    }
    are_same(operations[place], n)
}

/// Returns whether both are one location.
pub fn is_one_location(first: &[u8], second: &[u8]) -> bool
    ensures { result ≡ bytes_eq first.now second.now }
{
    first == second
}

/// Returns whether the location is among these.
fn has_location(locations: &[&[u8]], location: &[u8]) -> bool
    ensures there { result ≡ true → HasLocation locations.now location.now }
    ensures other { result ≡ false → HasLocation locations.now location.now → ⊥ }
{
    for other in locations {
        if is_one_location(other, location) {
            return true;
        }
    }
    false
}

impl<'a> DistinctSources<'a> {
    /// None yet.
    pub fn new(alloc: Global) -> DistinctSources<'a>
        ensures operations { result.operations.items ≡ [] }
        ensures locations { result.locations.items ≡ [] }
    {
        DistinctSources {
            places: HashMap::new(alloc),
            operations: Vec::new(alloc),
            locations: Vec::new(alloc),
        }
    }

    /// Returns whether the operation is kept.
    fn has(&self, n: OperationPlace) -> bool
        ensures kept { result ≡ true → Contains self.now.operations.items n }
        ensures other { result ≡ false → AreApart self.now → Contains self.now.operations.items n → ⊥ }
    {
        match self.places.get(&(n.process, n.place)) {
            Some(place) => is_at(self.operations.as_slice(), *place, n),
            None => false,
        }
    }

    /// Keeps the operation.
    pub fn keep(&mut self, n: OperationPlace) -> Result<(), AllocError>
        ensures more { OnOk result (HasAll self.old self.new) }
        ensures kept { OnOk result (Contains self.new.operations.items n) }
        ensures only { OnOk result (KeptOnly self.old self.new (λ m. m ≡ n) (λ a. ⊥)) }
    {
        if self.has(n) {
            return Ok(());
        }
        let place = self.operations.len();
        self.places.insert((n.process, n.place), place)?;
        self.operations.push(n)?;
        Ok(())
    }

    /// Keeps the initial value of the location.
    pub fn keep_initial(&mut self, location: &'a [u8]) -> Result<(), AllocError>
        ensures more { OnOk result (HasAll self.old self.new) }
        ensures kept { OnOk result (HasLocation self.new.locations.items location.now) }
        ensures only { OnOk result (KeptOnly self.old self.new (λ m. ⊥) (λ a. a ≡ location.now)) }
    {
        if has_location(self.locations.as_slice(), location) {
            return Ok(());
        }
        self.locations.push(location)?;
        Ok(())
    }

    /// Returns whether the operations and the locations together are fewer than this.
    pub fn are_fewer(&self, count: usize) -> bool
        ensures enough { result ≡ false → count ≤ length self.now.operations.items + length self.now.locations.items }
        ensures fewer { result ≡ true → length self.now.operations.items + length self.now.locations.items < count }
    {
        // The sum of both lengths might be too large for its type, so the rest is compared.
        let kept = self.operations.as_slice().len();
        if kept >= count {
            return false;
        }
        self.locations.as_slice().len() < count - kept
    }
}
