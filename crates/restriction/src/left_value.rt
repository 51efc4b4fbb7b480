//! What an operation leaves at a location.
//!
//! The formula of a trace, its parts, and the check of a certificate of reasons ask by this call what an operation writes at a location. It stands in this
//! crate, below all of these, beside `left_by`, by which the laws of restriction ask that what stays of an operation leaves what the operation left.

ghost use Rattle.std.specs.Prelude.{◌≡◌};
ghost use Rattle.restriction.specs.Restriction.{left_by};

use trace_semantics::operation::Op;

/// Returns what the operation leaves at the location, if it writes there. A plain read leaves nothing, nor does an operation on another location.
pub fn left_at(op: &Op, location: &[u8]) -> Option<u64>
    ensures { result ≡ left_by location.now op.now }
{
    if op.location().as_bytes() == location {
        op.written_value()
    } else {
        None
    }
}
