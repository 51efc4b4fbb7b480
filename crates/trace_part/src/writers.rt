//! An operation as a row of the table of writers.

ghost use Rattle.std.specs.Prelude.{◌≡◌, ◌<◌, ◌≤◌, ◌+◌, length};
ghost use Rattle.trace_semantics.specs.OpSet.{has};
ghost use Rattle.trace_part.specs.Rows.{row_in};
ghost use Rattle.trace_semantics.specs.declared.limits.Limits.TheVariants.{Large};
ghost use Rattle.trace_semantics.specs.Limits.{max_operations};

use forced_order::numbered::OperationNumber;
use restriction::left_value::left_at;
use trace_semantics::op_set::OpSet;
use trace_semantics::trace::Process;

/// A writer of some location: what it leaves there, and whether it is chosen.
#[derive(Drop)]
pub struct ChosenWriter {
    pub name: OperationNumber,
    /// What it leaves. It is always there, since `row_at` makes rows of writing operations alone.
    pub value: Option<u64>,
    /// Whether it is one of the operations of which the part is made.
    pub chosen: bool,
}

/// Returns the operation at a place as a row, if it writes the location. `number` is that of the process, and the place is k + 1.
pub fn row_at<'a>(
    set: &OpSet<'a>,
    process: &'a Process,
    number: u16,
    k: usize,
    location: &[u8],
) -> Option<ChosenWriter>
    requires within { k < length process.now.operations }
    requires few { length process.now.operations ≤ max_operations Large }
    ensures { result ≡ row_in process.now number (has set.now) location.now (record { process = process.now.name; place = k + 1 }) }
{
    match left_at(&process.operations.as_slice()[k], location) {
        Some(left) => Some(ChosenWriter {
            name: OperationNumber {
                process: number,
                place: (k + 1) as u32,
            },
            value: Some(left),
            chosen: set.contains(process.name.as_bytes(), k + 1),
        }),
        None => None,
    }
}
