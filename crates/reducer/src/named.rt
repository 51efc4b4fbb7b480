//! The operations that before pairs and origins name.

ghost use Rattle.std.specs.Prelude.{◌≡◌, ◌||◌, IfOk, OnOk};
ghost use Rattle.std.specs.List.{list_any};
ghost use Rattle.trace_semantics.specs.declared.operation.Op.{Op as Operation};
ghost use Rattle.trace_semantics.specs.declared.operation.OpName.{OpName as Named};
ghost use Rattle.trace_semantics.specs.declared.trace.Process.{Process as Listed};
ghost use Rattle.trace_semantics.specs.Operation.{origin_of, same_op};
ghost use Rattle.trace_semantics.specs.OpSet.{has};
ghost use Rattle.reducer.specs.Named.{HasNamed};
ghost use Rattle.reducer.specs.Reduction.{is_from};

use std::alloc::{AllocError, Global};
use trace_semantics::op_set::OpSet;
use trace_semantics::operation::{Op, OpName, Origin};
use trace_semantics::trace::{Process, Trace};

/// Puts the operations of the pairs into the set.
fn note_pairs<'a>(set: &mut OpSet<'a>, pairs: &'a [(OpName, OpName)]) -> Result<(), AllocError>
    ensures { OnOk result ((n : Named) → has set.new n ≡ (list_any (λ (pair : Named × Named). same_op pair.0 n || same_op pair.1 n) pairs.now || has set.old n)) }
{
    for pair in pairs {
        set.insert(&pair.0)?;
        set.insert(&pair.1)?;
    }
    Ok(())
}

/// Puts the operation that this one's origin names, if it names one, into the set.
fn note_origin<'a>(set: &mut OpSet<'a>, op: &'a Op) -> Result<(), AllocError>
    ensures { OnOk result ((n : Named) → has set.new n ≡ (is_from n (origin_of op.now) || has set.old n)) }
{
    match op {
        Op::Read {
            origin: Origin::Operation(name),
            ..
        } => set.insert(name),
        Op::Update {
            origin: Origin::Operation(name),
            ..
        } => set.insert(name),
        _ => Ok(()),
    }
}

fn note_origins<'a>(set: &mut OpSet<'a>, operations: &'a [Op]) -> Result<(), AllocError>
    ensures { OnOk result ((n : Named) → has set.new n ≡ (list_any (λ (op : Operation). is_from n (origin_of op)) operations.now || has set.old n)) }
{
    for op in operations {
        note_origin(set, op)?;
    }
    Ok(())
}

/// Puts the operations that origins of these processes name into the set.
fn note_all_origins<'a>(set: &mut OpSet<'a>, processes: &'a [Process]) -> Result<(), AllocError>
    ensures { OnOk result ((n : Named) → has set.new n ≡ (list_any (λ (p : Listed). list_any (λ (op : Operation). is_from n (origin_of op)) p.operations) processes.now || has set.old n)) }
{
    for process in processes {
        note_origins(set, process.operations.as_slice())?;
    }
    Ok(())
}

/// Returns the operations that the trace's before pairs and origins name.
pub fn named_ops<'a>(alloc: Global, trace: &'a Trace) -> Result<OpSet<'a>, AllocError>
    ensures { IfOk result (HasNamed trace.now) }
{
    let mut set = OpSet::new(alloc);
    note_pairs(&mut set, trace.before())?;
    note_all_origins(&mut set, trace.processes())?;
    Ok(set)
}
