//! A sink for tests: it takes few bytes a call and fails at a chosen call.
ghost use Rattle.std.specs.Prelude.{◌≡◌, []};

use crate::memory_sink::MemorySink;
use crate::sink::{Failed, Sink};
use std::alloc::Global;

/// A sink in memory that takes at most `max_per_call` bytes per call, and can be made to fail at one call.
#[derive(Drop)]
pub struct ShortSink {
    memory: MemorySink,
    max_per_call: usize,
    /// The number of calls that succeed before the one that fails, or `u64::MAX` if none is to fail. It falls with each call, also from `u64::MAX`,
    /// which no run counts down.
    calls_before_failure: u64,
}

impl ShortSink {
    /// A sink that takes at most `max_per_call` bytes per call, or one byte if that is 0, and that fails only if memory runs out.
    pub fn new(alloc: Global, max_per_call: usize) -> ShortSink
        ensures written { ⟦<ShortSink as Sink>⟧.written result ≡ [] }
        ensures failures { ⟦<ShortSink as Sink>⟧.failures result ≡ 0 }
    {
        ShortSink {
            memory: MemorySink::new(alloc),
            max_per_call,
            calls_before_failure: u64::MAX,
        }
    }

    /// The same sink, which fails once: at the given call from now on, where 1 is the next one, and 0 too.
    pub fn failing_at(self, call: u64) -> ShortSink
        ensures written { ⟦<ShortSink as Sink>⟧.written result ≡ ⟦<ShortSink as Sink>⟧.written self }
        ensures failures { ⟦<ShortSink as Sink>⟧.failures result ≡ ⟦<ShortSink as Sink>⟧.failures self }
    {
        ShortSink {
            memory: self.memory,
            max_per_call: self.max_per_call,
            calls_before_failure: call.saturating_sub(1),
        }
    }

    /// The bytes that it has taken.
    pub fn as_slice(&self) -> &[u8]
        ensures { result.now ≡ ⟦<ShortSink as Sink>⟧.written self.now }
    {
        self.memory.as_slice()
    }
}

impl Sink for ShortSink {
    ghost written = { λ s. ⟦<MemorySink as Sink>⟧.written s.memory };

    ghost failures = { λ s. ⟦<MemorySink as Sink>⟧.failures s.memory };

    ghost path = { λ _. [] };

    fn write(&mut self, bytes: &[u8]) -> Result<usize, Failed> {
        if self.calls_before_failure == 0 {
            self.calls_before_failure = u64::MAX;
            return self.memory.fail();
        }
        self.calls_before_failure -= 1;
        let count = self.max_per_call.max(1).min(bytes.len());
        self.memory.write(&bytes[..count])
    }
}
