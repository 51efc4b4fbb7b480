//! A stream in memory that has a path.

use command_host::{DeviceFailure, TellsFailure};
use dimacs::{Failed, Sink};
use verdict_report::Source;

/// A stream of a host in memory, with the path at which it was asked for.
#[derive(Drop)]
pub struct AtPath<'p, S> {
    pub path: &'p str,
    pub stream: S,
}

impl<S: Source> Source for AtPath<'_, S> {
    ghost handed_out = { λ s. S.handed_out s.stream };

    ghost is_at_end = { λ s. S.is_at_end s.stream };

    ghost failures = { λ s. S.failures s.stream };

    ghost path = { λ s. s.path.now };

    fn read(&mut self, buffer: &mut [u8]) -> Result<usize, Failed> {
        self.stream.read(buffer)
    }
}

impl<S: Sink> Sink for AtPath<'_, S> {
    ghost written = { λ s. S.written s.stream };

    ghost failures = { λ s. S.failures s.stream };

    ghost path = { λ s. s.path.now };

    fn write(&mut self, bytes: &[u8]) -> Result<usize, Failed> {
        self.stream.write(bytes)
    }
}

impl<S: TellsFailure> TellsFailure for AtPath<'_, S> {
    fn failure(&self) -> Option<DeviceFailure> {
        self.stream.failure()
    }
}
