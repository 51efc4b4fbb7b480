//! Numbers by operation.

use std::alloc::{AllocError, Global};
use std::collections::HashMap;
use trace_semantics::name_key::NameKey;
use trace_semantics::operation::OpName;

/// A number for each of some operations, by the process's name and the operation's place in it, from 1. The number means what the owner
/// of the table says.
#[derive(Drop)]
pub struct OpNumbers<'a> {
    numbers: HashMap<(NameKey<'a>, usize), usize>,
}

impl<'a> OpNumbers<'a> {
    ghost use Rattle.std.specs.Prelude.{◌≡◌, IfOk, OnOk, cond};
    ghost use Rattle.trace_semantics.specs.declared.operation.OpName.{OpName};
    ghost use Rattle.trace_semantics.specs.Operation.{same_op};
    ghost use Rattle.schedule_judge.specs.Tables.{number_at};

    /// A table of no operations, with room for some.
    pub fn with_capacity(alloc: Global, capacity: usize) -> Result<OpNumbers<'a>, AllocError>
        ensures { IfOk result (λ table. (n : OpName) → number_at table n ≡ None) }
    {
        let numbers = HashMap::with_capacity(alloc, capacity)?;
        Ok(OpNumbers { numbers })
    }

    /// The number of the operation at this place of this process, if it has one.
    pub fn get(&self, process: &'a [u8], place: usize) -> Option<usize>
        ensures { result ≡ number_at self.now (record { process = process.now; place = place }) }
    {
        self.numbers.get(&(NameKey::new(process), place)).copied()
    }

    /// The number of this operation, if it has one.
    pub fn of(&self, name: &'a OpName) -> Option<usize>
        ensures { result ≡ number_at self.now name.now }
    {
        self.get(name.process.as_bytes(), name.place as usize)
    }

    /// Gives the operation this number, in place of the one that it may have.
    pub fn insert(&mut self, name: &'a OpName, number: usize) -> Result<(), AllocError>
        ensures { OnOk result ((n : OpName) → number_at self.new n ≡ cond (same_op name.now n) (Some number) (number_at self.old n)) }
    {
        self.numbers.insert(
            (NameKey::new(name.process.as_bytes()), name.place as usize),
            number,
        )?;
        Ok(())
    }
}
