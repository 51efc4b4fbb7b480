//! The operations of a trace by number.

ghost use Rattle.std.specs.Prelude.{◌≡◌, ◌≤◌, ◌++◌, length, OnOk};
ghost use Rattle.trace_semantics.specs.Operation.{same_op};
ghost use Rattle.var_layout.specs.Numbered.{numbered_in};
ghost use Rattle.trace_semantics.specs.declared.limits.Limits.TheVariants.{Large};
ghost use Rattle.trace_semantics.specs.Limits.{max_operations};

use restriction::left_value::left_at;
use std::alloc::{AllocError, Global};
use std::marker::Model;
use std::snapshot::Snapshot;
use trace_semantics::name::Name;
use trace_semantics::operation::{Op, OpName};
use trace_semantics::trace::{Process, Trace};

/// An operation, and its name.
#[derive(Drop)]
struct NamedOp<'a> {
    process: &'a Name,
    /// Counted from 1 within the process.
    place: u32,
    op: &'a Op,
}

impl<'a> Model for NamedOp<'a> {
    ghost use Rattle.var_layout.specs.Numbered.{NumberedOp};

    ghost Value = { NumberedOp };

    ghost view = { λ named. record { name = record { process = named.process.now; place = named.place }; op = named.op.now } };
}

/// Puts the operations of the process after the others.
fn push_process<'a>(
    operations: &mut Vec<NamedOp<'a>>,
    process: &'a Process,
) -> Result<(), AllocError>
    requires { length process.now.operations ≤ max_operations Large }
    ensures { OnOk result (operations.new.items ≡ operations.old.items ++ numbered_in process.now) }
{
    let ops = process.operations.as_slice();
    for k in 0..ops.len() {
        operations.push(NamedOp {
            process: &process.name,
            place: (k + 1) as u32,
            op: &ops[k],
        })?;
    }
    Ok(())
}

/// Returns whether this is the operation's name.
fn is_name_of(named: &NamedOp<'_>, name: &OpName) -> bool
    ensures { result ≡ same_op named.now.name name.now }
{
    named.place == name.place && named.process.as_bytes() == name.process.as_bytes()
}

/// The operations of a trace, numbered from 0 by process and then place. The trace itself is there for contracts alone, and has no bytes.
#[derive(Drop)]
pub struct Numbering<'a> {
    trace: Snapshot<Trace>,
    operations: Vec<NamedOp<'a>>,
}

impl<'a> Model for Numbering<'a> {
    ghost use Rattle.std.specs.Prelude.{◌≡◌};
    ghost use Rattle.trace_semantics.specs.Trace.{TraceValue, IsTrace};
    ghost use Rattle.var_layout.specs.Numbered.{numbered};

    ghost Value = { TraceValue };

    ghost view = { λ numbering. numbering.trace.value };

    ghost invariant = { λ numbering. IsTrace numbering.trace.value × (numbering.operations.items ≡ numbered numbering.trace.value) };
}

impl<'a> Numbering<'a> {
    ghost use Rattle.std.specs.Prelude.{◌≡◌, IfOk, ℕ, List};
    ghost use Rattle.std.specs.Option.{option_copied, option_map};
    ghost use Rattle.trace_semantics.specs.Judgement.{is_the_op};
    ghost use Rattle.trace_semantics.specs.Trace.{IsTrace, operation_count};
    ghost use Rattle.var_layout.specs.Numbered.{NumberedOp};
    ghost use Rattle.var_layout.specs.KnownPairs as known;
    ghost use Rattle.var_layout.specs.Numbers as number;

    /// The numbering of the trace's operations.
    pub fn of(alloc: Global, trace: &'a Trace) -> Result<Numbering<'a>, AllocError>
        ensures { IfOk result (λ numbering. numbering ≡ trace.now) }
    {
        trace.recall_invariant();
        let processes = trace.processes();
        let mut operations = Vec::new(alloc);
        for process in processes {
            push_process(&mut operations, process)?;
        }
        Ok(Numbering {
            trace: Snapshot::of(trace),
            operations,
        })
    }

    /// Hands its caller, in proofs alone, what each numbering keeps: its trace is one. Does nothing when run.
    pub fn recall_invariant(&self)
        ensures { IsTrace self.now }
    {
        let _ = &self.operations;
    }

    /// The operation of this number with its name, if there is one.
    fn named(&self, i: usize) -> Option<&NamedOp<'a>>
        ensures name { option_map (λ (x : NumberedOp). x.name) (option_copied result) ≡ number.name_at self.now i }
        ensures op { option_map (λ (x : NumberedOp). x.op) (option_copied result) ≡ number.op_at self.now i }
    {
        self.operations.get(i)
    }

    /// The number of operations of the trace.
    pub fn count(&self) -> usize
        ensures { result ≡ operation_count self.now }
    {
        self.operations.len()
    }

    /// The operation of this number, if there is one.
    pub fn op(&self, i: usize) -> Option<&'a Op>
        ensures { option_copied result ≡ number.op_at self.now i }
    {
        match self.named(i) {
            Some(named) => Some(named.op),
            None => None,
        }
    }

    /// Returns whether both are operations of one process.
    pub fn in_one_process(&self, i: usize, j: usize) -> bool
        ensures { result ≡ number.in_one_process self.now i j }
    {
        match (self.named(i), self.named(j)) {
            (Some(first), Some(second)) => first.process.as_bytes() == second.process.as_bytes(),
            _ => false,
        }
    }

    /// Returns whether both are operations of one process, and the first has the lower place.
    pub fn in_program_order(&self, i: usize, j: usize) -> bool
        ensures { result ≡ known.in_program_order self.now i j }
    {
        match (self.named(i), self.named(j)) {
            (Some(first), Some(second)) => {
                first.process.as_bytes() == second.process.as_bytes() && first.place < second.place
            }
            _ => false,
        }
    }

    /// The value that the operation reads, if it is a reading operation.
    pub fn read_at(&self, i: usize) -> Option<u64>
        ensures { result ≡ number.read_at self.now i }
    {
        match self.op(i) {
            Some(op) => op.value_read(),
            None => None,
        }
    }

    /// The value that the operation leaves at the location, if it writes there. Updates write too.
    pub fn left_at(&self, location: &[u8], i: usize) -> Option<u64>
        ensures { result ≡ number.left_at self.now location.now i }
    {
        match self.op(i) {
            Some(op) => left_at(op, location),
            None => None,
        }
    }

    /// Returns whether the operation of this number has this name.
    pub fn is_named(&self, i: usize, name: &OpName) -> bool
        ensures { result ≡ is_the_op (number.name_at self.now i) name.now }
    {
        match self.named(i) {
            Some(named) => is_name_of(named, name),
            None => false,
        }
    }

    /// The number of the operation of this name, or the number of operations if none has it. Only the names of before pairs are looked up, and a trace's
    /// pairs are of its own operations, so the caller need not ask. A layout is of at most 160 operations, so a search through all is short.
    pub fn number_of(&self, name: &OpName) -> usize
        ensures { result ≡ number.number_of self.now name.now }
    {
        let count = self.count();
        for i in 0..count {
            if self.is_named(i, name) {
                return i;
            }
        }
        count
    }

    /// The writers of the location, in order. Each call goes over all operations: a layout has at most 160 (`layout.rt`), so no table by location is made.
    pub fn writers(&self, alloc: Global, location: &[u8]) -> Result<Vec<usize>, AllocError>
        ensures { IfOk result (λ found. found.items ≡ number.writers self.now location.now) }
    {
        let mut found = Vec::new(alloc);
        for i in 0..self.count() {
            if self.left_at(location, i).is_some() {
                found.push(i)?;
            }
        }
        Ok(found)
    }
}
