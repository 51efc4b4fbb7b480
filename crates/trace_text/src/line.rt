//! The bytes of a line.

ghost use Rattle.std.specs.Prelude.{◌≡◌};
ghost use Rattle.std.specs.List.{list_any};
ghost use Rattle.trace_text.specs.TraceFault.{is_high};

/// Returns whether a byte of the line is above 127. No byte ends the loop early, so the compiler can look at many at once.
pub fn has_high_byte(line: &[u8]) -> bool
    ensures { result ≡ list_any is_high line.now }
{
    let mut most = 0u8;
    for byte in line {
        most = most.max(*byte);
    }
    most > 127
}
