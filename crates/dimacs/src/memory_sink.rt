//! A sink in memory.
ghost use Rattle.std.specs.Prelude.{◌≡◌, ◌+◌, [], IsErr};

use crate::sink::{Failed, Sink};
use crate::transcript::FailureCount;
use std::alloc::Global;

/// Keeps the bytes that it takes. It fails if memory runs out.
#[derive(Drop)]
pub struct MemorySink {
    bytes: Vec<u8>,
    /// How often it has failed, which contracts speak of: the one of `write` says that a call has either taken bytes or failed once. It is not there when run.
    failures: FailureCount,
}

impl MemorySink {
    /// A sink that has taken nothing yet.
    pub fn new(alloc: Global) -> MemorySink
        ensures written { ⟦<MemorySink as Sink>⟧.written result ≡ [] }
        ensures failures { ⟦<MemorySink as Sink>⟧.failures result ≡ 0 }
    {
        MemorySink {
            bytes: Vec::new(alloc),
            failures: FailureCount::new(),
        }
    }

    /// The bytes that it has taken.
    pub fn as_slice(&self) -> &[u8]
        ensures { result.now ≡ ⟦<MemorySink as Sink>⟧.written self.now }
    {
        self.bytes.as_slice()
    }

    /// Fails, and takes nothing.
    pub(crate) fn fail<T>(&mut self) -> Result<T, Failed>
        ensures answer { IsErr result }
        ensures written { ⟦<MemorySink as Sink>⟧.written self.new ≡ ⟦<MemorySink as Sink>⟧.written self.old }
        ensures failures { ⟦<MemorySink as Sink>⟧.failures self.new ≡ ⟦<MemorySink as Sink>⟧.failures self.old + 1 }
    {
        self.failures.rise();
        Err(Failed)
    }
}

impl Sink for MemorySink {
    ghost written = { λ s. s.bytes.items };

    ghost failures = { λ s. s.failures.count };

    ghost path = { λ _. [] };

    fn write(&mut self, bytes: &[u8]) -> Result<usize, Failed> {
        if self.bytes.extend_from_slice(bytes).is_err() {
            return self.fail();
        }
        Ok(bytes.len())
    }
}
