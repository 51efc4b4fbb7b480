//! Why a text did not reach its sink.
ghost use Rattle.std.specs.Prelude.{◌≡◌, Some};
ghost use Rattle.dimacs.specs.SinkFault.{number_of, name_of, line_of};
ghost use Rattle.dimacs.specs.declared.sink_fault.SinkFault.TheVariants.{OutOfMemory, Device};

use crate::sink::Failed;
use std::alloc::AllocError;
use std::fmt;

/// Why a text did not reach its sink.
#[derive(Clone, Copy, Debug, PartialEq, Eq)]
pub enum SinkFault {
    /// Memory ran out.
    OutOfMemory,
    /// The sink failed.
    Device,
}

impl SinkFault {
    /// The fault's number: `OutOfMemory` is 1 and `Device` is 2.
    pub fn number(self) -> u8
        ensures { result ≡ number_of self }
    {
        match self {
            SinkFault::OutOfMemory => 1,
            SinkFault::Device => 2,
        }
    }

    /// The fault's name, as the variant is spelled.
    pub fn name(self) -> &'static str
        ensures { result.now ≡ name_of self }
    {
        match self {
            SinkFault::OutOfMemory => "OutOfMemory",
            SinkFault::Device => "Device",
        }
    }
}

impl fmt::Display for SinkFault {
    ghost output = { λ fault. Some (line_of fault) };

    fn fmt<W: fmt::Write>(&self, f: &mut fmt::Formatter<W>) -> fmt::Result {
        let number = self.number();
        let name = self.name();
        write!(f, "{number} {name}")
    }
}

impl From<Failed> for SinkFault {
    ghost from_gives = { λ _ fault. fault ≡ Device };

    fn from(_failed: Failed) -> SinkFault {
        SinkFault::Device
    }
}

impl From<AllocError> for SinkFault {
    ghost from_gives = { λ _ fault. fault ≡ OutOfMemory };

    fn from(_error: AllocError) -> SinkFault {
        SinkFault::OutOfMemory
    }
}
