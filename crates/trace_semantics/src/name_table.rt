//! Numbers by name.

use crate::name::Name;
use crate::name_key::NameKey;
use std::alloc::{AllocError, Global};
use std::collections::HashMap;

/// A number for each of some names.
#[derive(Drop)]
pub struct NameTable<'a> {
    numbers: HashMap<NameKey<'a>, u64>,
}

impl<'a> NameTable<'a> {
    ghost use Rattle.std.specs.Prelude.{◌≡◌, List, ℕ, IfOk, OnOk, cond};
    ghost use Rattle.std.specs.Str.{bytes_eq};
    ghost use Rattle.trace_semantics.specs.NameNumbers.{number_of};
    ghost use Rattle.trace_semantics.specs.Trace.{value_of};

    /// A table of no names.
    pub fn new(alloc: Global) -> NameTable<'a>
        ensures { (name : List ℕ) → number_of result name ≡ None }
    {
        NameTable {
            numbers: HashMap::new(alloc),
        }
    }

    /// A table of no names, with room for some.
    pub fn with_capacity(alloc: Global, capacity: usize) -> Result<NameTable<'a>, AllocError>
        ensures { IfOk result (λ table. (name : List ℕ) → number_of table name ≡ None) }
    {
        let numbers = HashMap::with_capacity(alloc, capacity)?;
        Ok(NameTable { numbers })
    }

    /// The table of a list of locations and values.
    pub fn of_values(alloc: Global, values: &'a [(Name, u64)]) -> Result<NameTable<'a>, AllocError>
        ensures { IfOk result (λ table. (location : List ℕ) → number_of table location ≡ value_of values.now location) }
    {
        let mut table = NameTable::with_capacity(alloc, values.len())?;
        // from last to first, so that of a location that is listed twice the first value stays
        for k in (0..values.len()).rev() {
            let entry = &values[k];
            table.insert(entry.0.as_bytes(), entry.1)?;
        }
        Ok(table)
    }

    /// The number of this name, if it has one.
    pub fn get(&self, name: &'a [u8]) -> Option<u64>
        ensures { result ≡ number_of self.now name.now }
    {
        self.numbers.get(&NameKey::new(name)).copied()
    }

    /// Gives the name this number.
    pub fn insert(&mut self, name: &'a [u8], number: u64) -> Result<(), AllocError>
        ensures { OnOk result ((q : List ℕ) → number_of self.new q ≡ cond (bytes_eq name.now q) (Some number) (number_of self.old q)) }
    {
        self.numbers.insert(NameKey::new(name), number)?;
        Ok(())
    }
}
