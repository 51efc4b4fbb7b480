//! What a trace says that a location holds.

ghost use Rattle.std.specs.Prelude.{◌≡◌};
ghost use Rattle.trace_semantics.specs.Judgement as judgement;
ghost use Rattle.trace_semantics.specs.Trace.{value_of};

use trace_semantics::held_value::is_held;
use trace_semantics::name::Name;

/// The value that the list gives the location, if it gives one.
pub fn value_at(values: &[(Name, u64)], location: &[u8]) -> Option<u64>
    ensures { result ≡ value_of values.now location.now }
{
    values
        .iter()
        .find(|entry| entry.0.as_bytes() == location)
        .map(|entry| entry.1)
}

/// Returns whether the list gives the location this value.
pub fn is_held_at(values: &[(Name, u64)], location: &[u8], value: u64) -> bool
    ensures { result ≡ judgement.is_held (value_of values.now location.now) value }
{
    is_held(value_at(values, location), value)
}
