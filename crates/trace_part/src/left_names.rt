//! The names that remain, by numbers.

ghost use Rattle.std.specs.Prelude.{◌≡◌, length, map, Option, IfOk};
ghost use Rattle.trace_semantics.specs.declared.operation.Op.{Op as Old};
ghost use Rattle.trace_semantics.specs.declared.operation.OpName.{OpName as Named};
ghost use Rattle.trace_part.specs.Rows.{Leaves, row_at_place};
ghost use Rattle.trace_part.specs.Told.{groups_of};

use crate::left::Left;
use forced_order::numbered::OperationNumber;
use plain_lists::PlainList;
use restriction::renamed::count_up_to;
use std::alloc::{AllocError, Global};
use trace_semantics::trace::Trace;

/// A name that remains, by numbers, and its place in the part.
#[derive(Clone, Copy, Drop)]
pub struct LeftName {
    /// Its process, and its place in the whole trace.
    pub name: OperationNumber,
    /// Its place in the part, counted from 1.
    pub new: u32,
}

/// Returns the names that remain of the process of this number. They rise by place, which the bisection of `pairs` needs.
fn names_in(alloc: Global, left: &Left, number: u16) -> Result<PlainList<LeftName>, AllocError>
    ensures { IfOk result (λ names. names ≡ map (row_at_place number left.now.places) left.now.places) }
{
    let places = left.places();
    let mut names = Vec::new(alloc);
    for k in 0..places.len() {
        // the places rise, so this is k + 1; it is counted anew for each place, as the contract counts it
        let new = count_up_to(places, places[k]) as u32;
        names.push(LeftName {
            name: OperationNumber {
                process: number,
                place: places[k],
            },
            new,
        })?;
    }
    Ok(PlainList::new(names))
}

/// Returns the names that remain of each process.
pub fn left_groups(
    alloc: Global,
    trace: &Trace,
    all: &[Left],
) -> Result<Vec<PlainList<LeftName>>, AllocError>
    requires { length all.now ≡ length trace.now.processes }
    ensures { IfOk result (λ groups. (stays : Named → Option Old) → Leaves trace.now stays all.now → groups.items ≡ groups_of trace.now stays) }
{
    trace.recall_invariant();
    let mut groups = Vec::new(alloc);
    for k in 0..all.len() {
        groups.push(names_in(alloc, &all[k], k as u16)?)?;
    }
    Ok(groups)
}
