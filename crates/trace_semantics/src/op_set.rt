//! Sets of operations.

use crate::operation::OpName;
use std::alloc::{AllocError, Global};
use std::collections::HashMap;

/// Some operations, by the names of their processes and their places. Contracts ask of it which it has. In `reducer` it has the operations that before pairs
/// and origins name, which are not dropped, and in `trace_part` those of which a part of a trace is made.
#[derive(Drop)]
pub struct OpSet<'a> {
    /// The keys are the members; the value beside a key is always true and is not read.
    members: HashMap<(&'a [u8], usize), bool>,
}

impl<'a> OpSet<'a> {
    ghost use Rattle.std.specs.Prelude.{◌≡◌, false, OnOk, ◌||◌};
    ghost use Rattle.trace_semantics.specs.declared.operation.OpName.{OpName};
    ghost use Rattle.trace_semantics.specs.Operation.{same_op};
    ghost use Rattle.trace_semantics.specs.OpSet.{has};

    /// Returns the set of no operations.
    pub fn new(alloc: Global) -> OpSet<'a>
        ensures { (n : OpName) → has result n ≡ false }
    {
        OpSet {
            members: HashMap::new(alloc),
        }
    }

    /// Returns whether the operation at this place of this process is in the set.
    pub fn contains(&self, process: &[u8], place: usize) -> bool
        ensures { result ≡ has self.now (record { process = process.now; place = place }) }
    {
        self.members.get(&(process, place)).is_some()
    }

    /// Puts the operation into the set.
    pub fn insert(&mut self, name: &'a OpName) -> Result<(), AllocError>
        ensures { OnOk result ((n : OpName) → has self.new n ≡ (same_op name.now n || has self.old n)) }
    {
        self.members
            .insert((name.process.as_bytes(), name.place as usize), true)?;
        Ok(())
    }
}
