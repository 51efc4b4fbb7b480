//! Why a call of `vsc` refuses, if no place is named: a cause, or that memory ran out.

use crate::fault::{FaultCause, PlacedFault};
use std::alloc::{AllocError, AllocFailed};
use std::fmt;

/// A refusal without a position.
#[derive(Clone, Copy, Debug, PartialEq, Eq)]
pub enum PlainFault<C> {
    /// Memory ran out.
    OutOfMemory,
    /// This is wrong.
    For(C),
}

impl<C: FaultCause> PlainFault<C> {
    ghost use Rattle.std.specs.Prelude.{◌≡◌};
    ghost use Rattle.text_lines.specs.PlainFault.{fault_number, fault_name, fault_at};

    /// Its number: 1 if memory ran out, else its cause's.
    pub fn number(&self) -> u8
        ensures { result ≡ fault_number C.number_of self.now }
    {
        match self {
            PlainFault::OutOfMemory => 1,
            PlainFault::For(cause) => cause.number(),
        }
    }

    /// Its name: `OutOfMemory`, or its cause's.
    pub fn name(&self) -> &'static str
        ensures { result.now ≡ fault_name C.name_of self.now }
    {
        match self {
            PlainFault::OutOfMemory => "OutOfMemory",
            PlainFault::For(cause) => cause.name(),
        }
    }

    /// The same fault at this place, if it has a cause.
    pub fn at(self, place: usize) -> PlacedFault<C>
        ensures { result ≡ fault_at self place }
    {
        match self {
            PlainFault::OutOfMemory => PlacedFault::OutOfMemory,
            PlainFault::For(cause) => PlacedFault::At(cause, place),
        }
    }
}

impl<C: FaultCause> fmt::Display for PlainFault<C> {
    ghost use Rattle.std.specs.Prelude.{Some};
    ghost use Rattle.text_lines.specs.PlainFault.{printed};

    ghost output = { λ fault. Some (printed C.number_of C.name_of fault) };

    fn fmt<W: fmt::Write>(&self, f: &mut fmt::Formatter<W>) -> fmt::Result {
        let number = self.number();
        let name = self.name();
        write!(f, "{number} {name}")
    }
}

impl<C> From<AllocError> for PlainFault<C> {
    ghost use Rattle.std.specs.Prelude.{◌≡◌};
    ghost use Rattle.text_lines.specs.declared.plain_fault.PlainFault.TheVariants.{OutOfMemory};

    ghost from_gives = { λ _ fault. fault ≡ OutOfMemory };

    fn from(_error: AllocError) -> PlainFault<C> {
        PlainFault::OutOfMemory
    }
}

impl<C, T: Drop> From<AllocFailed<T>> for PlainFault<C> {
    ghost use Rattle.std.specs.Prelude.{◌≡◌};
    ghost use Rattle.text_lines.specs.declared.plain_fault.PlainFault.TheVariants.{OutOfMemory};

    ghost from_gives = { λ _ fault. fault ≡ OutOfMemory };

    fn from(_error: AllocFailed<T>) -> PlainFault<C> {
        PlainFault::OutOfMemory
    }
}
