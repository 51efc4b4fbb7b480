//! Numbers for the operations that write alike.

use std::alloc::{AllocError, Global};
use std::collections::HashMap;
use trace_semantics::operation::Op;

/// A number for each location, or for each location and value, that operations write. What has no number counts as 0.
#[derive(Drop)]
pub struct WriterClasses<'a> {
    /// Whether classes are of values too.
    pub by_value: bool,
    /// Numbers are counted from 1 in the order of first use. So no operation is in the class 0, and a location that none writes finds no operations there.
    /// The value of a key is 0 in a table by location.
    numbers: HashMap<(&'a [u8], u64), usize>,
}

impl<'a> WriterClasses<'a> {
    ghost use Rattle.std.specs.Prelude.{◌≡◌, map, OnOk, IfOk, IsSome, if◌then◌else◌};
    ghost use Rattle.std.specs.List.{All};
    ghost use Rattle.writer_table.specs.WriterClasses.{AreNumbersApart, HasMoreNumbers, HasNumber, class_of, class_left, number_of};

    /// No numbers yet.
    pub fn new(alloc: Global, by_value: bool) -> WriterClasses<'a>
        ensures kind { result.by_value ≡ by_value }
        ensures apart { AreNumbersApart result }
    {
        WriterClasses {
            by_value,
            numbers: HashMap::new(alloc),
        }
    }

    /// The part of the value on which a class depends: in a table by location all values of a location make one class.
    fn key(&self, value: u64) -> u64
        ensures { result ≡ (if self.now.by_value then value else 0) }
    {
        if self.by_value { value } else { 0 }
    }

    /// The class of what leaves the value at the location.
    pub fn class(&self, location: &[u8], value: u64) -> usize
        ensures { result ≡ class_of self.now location.now value }
    {
        match self.numbers.get(&(location, self.key(value))) {
            Some(number) => *number,
            None => 0,
        }
    }

    /// Gives what leaves the value at the location a number, if it has none.
    fn add(&mut self, location: &'a [u8], value: u64) -> Result<(), AllocError>
        ensures more { OnOk result (HasMoreNumbers self.old self.new) }
        ensures has { OnOk result (IsSome (number_of self.new location.now value)) }
    {
        let key = (location, self.key(value));
        if self.numbers.get(&key).is_none() {
            let Some(number) = self.numbers.len().checked_add(1) else {
                return Err(AllocError);
            };
            self.numbers.insert(key, number)?;
        }
        Ok(())
    }

    /// Gives the operation a number, if it writes.
    fn add_op(&mut self, op: &'a Op) -> Result<(), AllocError>
        ensures more { OnOk result (HasMoreNumbers self.old self.new) }
        ensures has { OnOk result (HasNumber self.new op.now) }
    {
        match op.written_value() {
            Some(value) => self.add(op.location().as_bytes(), value),
            None => Ok(()),
        }
    }

    /// Gives each of the operations that writes a number.
    pub fn add_all(&mut self, operations: &'a [Op]) -> Result<(), AllocError>
        ensures more { OnOk result (HasMoreNumbers self.old self.new) }
        ensures has { OnOk result (All (HasNumber self.new) operations.now) }
    {
        for op in operations {
            self.add_op(op)?;
        }
        Ok(())
    }

    /// The class of the operation, if it writes.
    fn class_left(&self, op: &Op) -> Option<usize>
        ensures { result ≡ class_left self.now op.now }
    {
        match op.written_value() {
            Some(value) => Some(self.class(op.location().as_bytes(), value)),
            None => None,
        }
    }

    /// The classes of these operations, in order.
    pub fn classes_left(
        &self,
        alloc: Global,
        operations: &[Op],
    ) -> Result<Vec<Option<usize>>, AllocError>
        ensures { IfOk result (λ classes. classes.items ≡ map (class_left self.now) operations.now) }
    {
        let mut classes = Vec::with_capacity(alloc, operations.len())?;
        for op in operations {
            classes.push(self.class_left(op))?;
        }
        Ok(classes)
    }
}
