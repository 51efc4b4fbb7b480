//! The versions of trace texts.

ghost use Rattle.std.specs.Prelude.{◌≡◌};
ghost use Rattle.trace_text.specs.Version.{has_version_2_lines, has_times, limits_of};

use trace_semantics::limits::Limits;

/// A version of trace texts: the lines that a text may have, and how many.
#[derive(Clone, Copy)]
pub enum Version {
    /// Values, processes and operations.
    One,
    /// Known orders and known sources too.
    Two,
    /// Times too, and more lines.
    Three,
}

impl Version {
    /// Returns whether the lines of version 2 may stand in the text. These are `before` lines and reads that say their source; version 3 has them
    /// too.
    pub fn has_version_2_lines(self) -> bool
        ensures { result ≡ has_version_2_lines self }
    {
        matches!(self, Version::Two | Version::Three)
    }

    /// Returns whether a line of the text may say when an operation was under way.
    pub fn has_times(self) -> bool
        ensures { result ≡ has_times self }
    {
        matches!(self, Version::Three)
    }

    /// Returns the limits of such texts.
    pub fn limits(self) -> Limits
        ensures { result ≡ limits_of self }
    {
        match self {
            Version::One => Limits::Small,
            Version::Two => Limits::Small,
            Version::Three => Limits::Large,
        }
    }
}
