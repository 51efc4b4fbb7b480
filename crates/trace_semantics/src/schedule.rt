//! Schedules.

use crate::operation::OpName;
use std::marker::Model;

/// A claimed order: a list of names of operations.
#[derive(Drop)]
pub struct Schedule {
    names: Vec<OpName>,
}

impl Model for Schedule {
    ghost use Rattle.std.specs.Prelude.{List};
    ghost use Rattle.trace_semantics.specs.declared.operation.OpName.{OpName};

    ghost Value = { List OpName };

    ghost view = { λ schedule. schedule.names.items };
}

impl Schedule {
    ghost use Rattle.std.specs.Prelude.{◌≡◌};

    /// These names, in this order.
    pub fn new(names: Vec<OpName>) -> Schedule
        ensures { result ≡ names.items }
    {
        Schedule { names }
    }

    /// The names as a slice.
    pub fn names(&self) -> &[OpName]
        ensures { result.now ≡ self.now }
    {
        self.names.as_slice()
    }

    /// The names; this takes no memory.
    pub fn into_names(self) -> Vec<OpName>
        ensures { result.items ≡ self }
    {
        self.names
    }
}
