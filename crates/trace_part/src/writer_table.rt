//! Writers by location.

ghost use Rattle.std.specs.Prelude.{◌<◌, length, OnOk};
ghost use Rattle.trace_part.specs.WriterTables.{HasOneMoreAt};

use crate::writers::ChosenWriter;
use plain_lists::PlainList;
use std::alloc::{AllocError, Global};
use trace_semantics::name_table::NameTable;

/// Appends a writer to the list under this number.
fn push_at(
    lists: &mut Vec<PlainList<ChosenWriter>>,
    number: usize,
    row: ChosenWriter,
) -> Result<(), AllocError>
    requires within { number < length lists.old.items }
    ensures { OnOk result (HasOneMoreAt lists.old.items lists.new.items number row) }
{
    lists[number].push(row)
}

/// The writers of each location on which operations write, under the number of the location.
#[derive(Drop)]
pub struct WriterTable<'a> {
    /// The place of each location in `lists`, counted from 0 in the order in which they first come.
    numbers: NameTable<'a>,
    lists: Vec<PlainList<ChosenWriter>>,
}

impl<'a> WriterTable<'a> {
    ghost use Rattle.std.specs.Prelude.{◌≡◌, ◌<◌, [], ◌∷◌, ◌++◌, length, ℕ, List, Some, None, IfOk, OnOk, if◌then◌else◌};
    ghost use Rattle.std.specs.Str.{bytes_eq};
    ghost use Rattle.std.specs.List.{slice_get};
    ghost use Rattle.std.specs.Option.{option_copied, option_and_then};
    ghost use Rattle.trace_semantics.specs.NameNumbers.{number_of};
    ghost use Rattle.trace_part.specs.WriterTables.{AreNumbersOwn, writers_at};

    /// Returns the table of no writers.
    pub fn new(alloc: Global) -> WriterTable<'a>
        ensures none { (q : List ℕ) → writers_at result q ≡ [] }
        ensures own { AreNumbersOwn result }
    {
        WriterTable {
            numbers: NameTable::new(alloc),
            lists: Vec::new(alloc),
        }
    }

    /// Gives a location the next number, under which no writers are listed.
    fn add(&mut self, alloc: Global, location: &'a [u8]) -> Result<u64, AllocError>
        requires own { AreNumbersOwn self.old }
        requires missing { number_of self.old.numbers location.now ≡ None }
        ensures own { OnOk result (AreNumbersOwn self.new) }
        ensures number { IfOk result (λ number. number_of self.new.numbers location.now ≡ Some number) }
        ensures same { OnOk result ((q : List ℕ) → writers_at self.new q ≡ writers_at self.old q) }
    {
        let number = self.lists.len() as u64;
        // the list comes first, so no number is ever without a list
        self.lists.push(PlainList::empty(alloc))?;
        self.numbers.insert(location, number)?;
        Ok(number)
    }

    /// Returns the number of the location, which gets one if it has none.
    fn number(&mut self, alloc: Global, location: &'a [u8]) -> Result<u64, AllocError>
        requires own { AreNumbersOwn self.old }
        ensures own { OnOk result (AreNumbersOwn self.new) }
        ensures number { IfOk result (λ number. number_of self.new.numbers location.now ≡ Some number) }
        ensures same { OnOk result ((q : List ℕ) → writers_at self.new q ≡ writers_at self.old q) }
    {
        match self.numbers.get(location) {
            Some(number) => Ok(number),
            None => self.add(alloc, location),
        }
    }

    /// Appends a writer to those of the location.
    pub fn push(
        &mut self,
        alloc: Global,
        location: &'a [u8],
        row: ChosenWriter,
    ) -> Result<(), AllocError>
        requires own { AreNumbersOwn self.old }
        ensures own { OnOk result (AreNumbersOwn self.new) }
        ensures rows { OnOk result ((q : List ℕ) → writers_at self.new q ≡ (if bytes_eq location.now q then writers_at self.old q ++ row ∷ [] else writers_at self.old q)) }
    {
        let number = self.number(alloc, location)?;
        push_at(&mut self.lists, number as usize, row)
    }

    /// Returns the list under a number, if there is one.
    fn list(&self, number: u64) -> Option<&PlainList<ChosenWriter>>
        ensures { option_copied result ≡ slice_get self.now.lists.items number }
    {
        self.lists.get(number as usize)
    }

    /// Returns the writers of the location, if there are any.
    fn listed(&self, location: &'a [u8]) -> Option<&PlainList<ChosenWriter>>
        ensures { option_copied result ≡ option_and_then (slice_get self.now.lists.items) (number_of self.now.numbers location.now) }
    {
        match self.numbers.get(location) {
            Some(number) => self.list(number),
            None => None,
        }
    }

    /// Returns the writers of the location.
    pub fn writers_at(&self, location: &'a [u8]) -> &[ChosenWriter]
        ensures { result.now ≡ writers_at self.now location.now }
    {
        match self.listed(location) {
            Some(writers) => writers.as_slice(),
            None => &[],
        }
    }
}
