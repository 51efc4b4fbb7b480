//! What a location holds.

ghost use Rattle.std.specs.Prelude.{◌≡◌};
ghost use Rattle.trace_semantics.specs.Judgement as judgement;

/// Returns whether this value is held.
pub fn is_held(held: Option<u64>, value: u64) -> bool
    ensures { result ≡ judgement.is_held held value }
{
    match held {
        None => false,
        Some(other) => other == value,
    }
}
