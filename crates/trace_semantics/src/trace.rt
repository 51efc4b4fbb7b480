//! Traces.

use crate::name::Name;
use crate::operation::{Op, OpName};
use std::marker::Model;

/// The operations of a process, in program order.
pub struct Operations {
    ops: Vec<Op>,
}

/// Drops the operations in one call. A derived `Drop` would drop each at every exit of a function that owns a list of them, which makes its proof longer.
impl Drop for Operations {
    fn drop(self) {
        let Operations { ops: _ops } = self;
    }
}

impl Model for Operations {
    ghost use Rattle.std.specs.Prelude.{List};
    ghost use Rattle.trace_semantics.specs.declared.operation.Op.{Op};

    ghost Value = { List Op };

    ghost view = { λ operations. operations.ops.items };
}

impl Operations {
    ghost use Rattle.std.specs.Prelude.{◌≡◌};

    /// These operations, in this order.
    pub fn new(ops: Vec<Op>) -> Operations
        ensures { result ≡ ops.items }
    {
        Operations { ops }
    }

    /// The operations as a slice.
    pub fn as_slice(&self) -> &[Op]
        ensures { result.now ≡ self.now }
    {
        self.ops.as_slice()
    }
}

/// A process: its name and its operations in program order.
pub struct Process {
    pub name: Name,
    pub operations: Operations,
}

/// Drops the name and the operations in one call. A derived `Drop` would drop each at every exit of a function that owns a process, which makes its proof longer.
impl Drop for Process {
    fn drop(self) {
        let Process {
            name: _name,
            operations: _operations,
        } = self;
    }
}

/// What each process read and wrote, what memory held before and after, and which orders are known.
pub struct Trace {
    /// At most 64 of them. The number of a process is its place here, from 0.
    processes: Vec<Process>,
    /// One value for each location, rising by the bytes of the location; so are the final values.
    initial: Vec<(Name, u64)>,
    final_values: Vec<(Name, u64)>,
    /// Rising by the number of the process and the place of the first operation, then of the second; each pair once.
    before: Vec<(OpName, OpName)>,
}

/// Drops the lists in one call. A derived `Drop` would drop each at every exit of a function that owns a trace, which makes its proof longer.
impl Drop for Trace {
    fn drop(self) {
        let Trace {
            processes: _processes,
            initial: _initial,
            final_values: _final_values,
            before: _before,
        } = self;
    }
}

impl Model for Trace {
    ghost use Rattle.trace_semantics.specs.Trace.{TraceValue, IsTrace};

    ghost Value = { TraceValue };

    ghost view = { λ t. record { processes = t.processes.items; initial = t.initial.items; final_values = t.final_values.items; before = t.before.items } };

    ghost invariant = { λ t. IsTrace (record { processes = t.processes.items; initial = t.initial.items; final_values = t.final_values.items; before = t.before.items }) };
}

impl Trace {
    ghost use Rattle.std.specs.Prelude.{◌≡◌};
    ghost use Rattle.trace_semantics.specs.Trace.{IsTrace};

    /// A trace of these processes, initial and final values, and pairs of which the first stands before the second.
    pub fn new(
        processes: Vec<Process>,
        initial: Vec<(Name, u64)>,
        final_values: Vec<(Name, u64)>,
        before: Vec<(OpName, OpName)>,
    ) -> Trace
        requires { IsTrace (record { processes = processes.items; initial = initial.items; final_values = final_values.items; before = before.items }) }
        ensures { result ≡ record { processes = processes.items; initial = initial.items; final_values = final_values.items; before = before.items } }
    {
        Trace {
            processes,
            initial,
            final_values,
            before,
        }
    }

    /// Hands its caller, in proofs alone, what each trace keeps: that it is one. Does nothing when run.
    pub fn recall_invariant(&self)
        ensures { IsTrace self.now }
    {
        let _ = &self.processes;
    }

    /// The processes, in order.
    pub fn processes(&self) -> &[Process]
        ensures { result.now ≡ self.now.processes }
    {
        self.processes.as_slice()
    }

    /// The initial value of each location that has one.
    pub fn initial(&self) -> &[(Name, u64)]
        ensures { result.now ≡ self.now.initial }
    {
        self.initial.as_slice()
    }

    /// The final value of each location of which the trace gives one.
    pub fn final_values(&self) -> &[(Name, u64)]
        ensures { result.now ≡ self.now.final_values }
    {
        self.final_values.as_slice()
    }

    /// The pairs of which the first operation stands before the second.
    pub fn before(&self) -> &[(OpName, OpName)]
        ensures { result.now ≡ self.now.before }
    {
        self.before.as_slice()
    }
}
