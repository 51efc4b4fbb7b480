//! Why a call of `vsc` refuses: a cause at a place, or that memory ran out. One type for all texts and checks.

use std::alloc::{AllocError, AllocFailed};
use std::fmt;

/// What may be wrong, as one of a table of causes. Number 1 is no cause's, since it says that memory ran out.
pub trait FaultCause: Copy {
    ghost use Rattle.std.specs.Prelude.{◌≡◌, ℕ, List};

    ghost number_of: { Self → ℕ };

    ghost name_of: { Self → List ℕ };

    /// Its number in its table.
    fn number(&self) -> u8
        ensures { result ≡ number_of self.now };

    /// Its name.
    fn name(&self) -> &'static str
        ensures { result.now ≡ name_of self.now };
}

/// Why something is refused.
#[derive(Clone, Copy, Debug, PartialEq, Eq)]
pub enum PlacedFault<C> {
    /// Memory ran out.
    OutOfMemory,
    /// This is wrong, at this place: a line, a step, a clause, a leaf or a count. The table of causes says which of these.
    At(C, usize),
}

impl<C: FaultCause> PlacedFault<C> {
    ghost use Rattle.std.specs.Prelude.{◌≡◌};
    ghost use Rattle.text_lines.specs.Fault.{fault_number, fault_name, fault_place};

    /// Its number: 1 if memory ran out, else its cause's.
    pub fn number(&self) -> u8
        ensures { result ≡ fault_number C.number_of self.now }
    {
        match self {
            PlacedFault::OutOfMemory => 1,
            PlacedFault::At(cause, _) => cause.number(),
        }
    }

    /// Its name: `OutOfMemory`, or its cause's.
    pub fn name(&self) -> &'static str
        ensures { result.now ≡ fault_name C.name_of self.now }
    {
        match self {
            PlacedFault::OutOfMemory => "OutOfMemory",
            PlacedFault::At(cause, _) => cause.name(),
        }
    }

    /// The place of its cause, if it has one.
    pub fn place(&self) -> Option<usize>
        ensures { result ≡ fault_place self.now }
    {
        match self {
            PlacedFault::OutOfMemory => None,
            PlacedFault::At(_, place) => Some(*place),
        }
    }
}

impl<C: FaultCause> fmt::Display for PlacedFault<C> {
    ghost use Rattle.std.specs.Prelude.{Some};
    ghost use Rattle.text_lines.specs.Fault.{printed};

    ghost output = { λ fault. Some (printed C.number_of C.name_of fault) };

    fn fmt<W: fmt::Write>(&self, f: &mut fmt::Formatter<W>) -> fmt::Result {
        let number = self.number();
        let name = self.name();
        match self.place() {
            Some(place) => write!(f, "{number} {name} at {place}"),
            None => write!(f, "{number} {name}"),
        }
    }
}

impl<C> From<AllocError> for PlacedFault<C> {
    ghost use Rattle.std.specs.Prelude.{◌≡◌};
    ghost use Rattle.text_lines.specs.declared.fault.PlacedFault.TheVariants.{OutOfMemory};

    ghost from_gives = { λ _ fault. fault ≡ OutOfMemory };

    fn from(_error: AllocError) -> PlacedFault<C> {
        PlacedFault::OutOfMemory
    }
}

impl<C, T: Drop> From<AllocFailed<T>> for PlacedFault<C> {
    ghost use Rattle.std.specs.Prelude.{◌≡◌};
    ghost use Rattle.text_lines.specs.declared.fault.PlacedFault.TheVariants.{OutOfMemory};

    ghost from_gives = { λ _ fault. fault ≡ OutOfMemory };

    fn from(_error: AllocFailed<T>) -> PlacedFault<C> {
        PlacedFault::OutOfMemory
    }
}
