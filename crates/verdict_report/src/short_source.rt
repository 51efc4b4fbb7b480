//! A source in memory, for tests: it hands out few bytes a call and fails at a chosen call.
ghost use Rattle.std.specs.Prelude.{◌≡◌, ◌≤◌, [], length, take, false};

use crate::source::Source;
use dimacs::{Failed, FailureCount};

/// A source that gives the bytes of a slice, at most `max_per_call` of them per call, and can be made to fail at one call.
#[derive(Drop)]
pub struct ShortSource<'a> {
    bytes: &'a [u8],
    place: usize,
    max_per_call: usize,
    /// The number of calls that succeed before the one that fails. Each of them takes one off, so a count that begins at `u64::MAX` never reaches 0.
    calls_before_failure: u64,
    is_at_end: bool,
    failures: FailureCount,
    ghost in_bytes: { place ≤ length bytes.now },
}

impl<'a> ShortSource<'a> {
    /// A source that gives at most `max_per_call` bytes per call, and at least one before its end, and that never fails.
    pub fn new(bytes: &'a [u8], max_per_call: usize) -> ShortSource<'a>
        ensures handed_out { ⟦<ShortSource<'a> as Source>⟧.handed_out result ≡ [] }
        ensures is_at_end { ⟦<ShortSource<'a> as Source>⟧.is_at_end result ≡ false }
        ensures failures { ⟦<ShortSource<'a> as Source>⟧.failures result ≡ 0 }
    {
        ShortSource {
            bytes,
            place: 0,
            max_per_call,
            calls_before_failure: u64::MAX,
            is_at_end: false,
            failures: FailureCount::new(),
        }
    }

    /// The same source, which fails once: at the given call from now on, where 1 is the next one, and 0 too.
    pub fn failing_at(mut self, call: u64) -> ShortSource<'a>
        ensures handed_out { ⟦<ShortSource<'a> as Source>⟧.handed_out result ≡ ⟦<ShortSource<'a> as Source>⟧.handed_out self.entry }
        ensures is_at_end { ⟦<ShortSource<'a> as Source>⟧.is_at_end result ≡ ⟦<ShortSource<'a> as Source>⟧.is_at_end self.entry }
        ensures failures { ⟦<ShortSource<'a> as Source>⟧.failures result ≡ ⟦<ShortSource<'a> as Source>⟧.failures self.entry }
    {
        self.calls_before_failure = call.saturating_sub(1);
        self
    }
}

impl Source for ShortSource<'_> {
    ghost handed_out = { λ s. take s.place s.bytes.now };

    ghost is_at_end = { λ s. s.is_at_end };

    ghost failures = { λ s. s.failures.count };

    ghost path = { λ _. [] };

    fn read(&mut self, buffer: &mut [u8]) -> Result<usize, Failed> {
        if self.calls_before_failure == 0 {
            self.calls_before_failure = u64::MAX;
            self.failures.rise();
            return Err(Failed);
        }
        self.calls_before_failure -= 1;
        let left = &self.bytes[self.place..];
        let count = self.max_per_call.max(1).min(buffer.len()).min(left.len());
        buffer[..count].copy_from_slice(&left[..count]);
        self.place += count;
        self.is_at_end = count == 0;
        Ok(count)
    }
}
