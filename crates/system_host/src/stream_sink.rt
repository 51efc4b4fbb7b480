//! A stream of the system as a sink.
ghost use Rattle.std.specs.Prelude.{◌≡◌, ◌+◌, ◌<◌, ◌≤◌, [], length, IfOk};

use command_host::{DeviceCall, DeviceFailure, TellsFailure};
use dimacs::{Failed, FailureCount, Sink, Transcript};
use std::io::{ErrorKind, Write};

/// A writer of the system: a standard stream or an open file. It keeps no byte back.
#[derive(Drop)]
pub struct StreamSink<W> {
    stream: W,
    // Contracts alone see these two. They take no memory.
    written: Transcript,
    failures: FailureCount,
    /// What failed last, for explanations alone.
    failure: Option<DeviceFailure>,
}

impl<W: Write> StreamSink<W> {
    /// A sink that has taken nothing yet.
    pub fn new(stream: W) -> StreamSink<W>
        ensures written { ⟦<StreamSink<W> as Sink>⟧.written result ≡ [] }
        ensures failures { ⟦<StreamSink<W> as Sink>⟧.failures result ≡ 0 }
    {
        StreamSink {
            stream,
            written: Transcript::new(),
            failures: FailureCount::new(),
            failure: None,
        }
    }

    /// The stream itself, by which a file is emptied. Bytes written to it in another way than by `write` would be missing from what
    /// contracts take for written.
    pub(crate) fn stream(&self) -> &W {
        &self.stream
    }

    /// Counts a failure of what was asked of the stream itself.
    pub(crate) fn note_failure(&mut self, failure: DeviceFailure)
        ensures written { self.new.written ≡ self.old.written }
        ensures failures { self.new.failures.count ≡ self.old.failures.count + 1 }
    {
        self.failures.rise();
        self.failure = Some(failure);
    }
}

/// Writes the first bytes of the slice, at least one where there is one, and says how many. A write that a signal interrupts is tried
/// again.
fn write_some<W: Write>(stream: &mut W, bytes: &[u8]) -> Result<usize, DeviceFailure>
    ensures within { IfOk result (λ count. count ≤ length bytes.now) }
    ensures some { 0 < length bytes.now → IfOk result (λ count. 0 < count) }
{
    // The bound is never reached; the checker sees by it that the loop returns.
    for _ in 0..u64::MAX {
        match stream.write(bytes) {
            Ok(count) if count > 0 || bytes.is_empty() => return Ok(count),
            // A stream that takes none of some bytes would be asked for ever.
            Ok(_) => return Err(DeviceFailure::without_code(DeviceCall::Write)),
            Err(error) if error.kind() == ErrorKind::Interrupted => {}
            Err(error) => return Err(DeviceFailure::of(DeviceCall::Write, &error)),
        }
    }
    Err(DeviceFailure::without_code(DeviceCall::Write))
}

impl<W: Write> Sink for StreamSink<W> {
    ghost written = { λ s. s.written.bytes };

    ghost failures = { λ s. s.failures.count };

    ghost path = { λ _. [] };

    fn write(&mut self, bytes: &[u8]) -> Result<usize, Failed> {
        match write_some(&mut self.stream, bytes) {
            Ok(count) => {
                self.written.extend(&bytes[..count]);
                Ok(count)
            }
            Err(failure) => {
                self.failures.rise();
                self.failure = Some(failure);
                Err(Failed)
            }
        }
    }
}

impl<W> TellsFailure for StreamSink<W> {
    fn failure(&self) -> Option<DeviceFailure> {
        self.failure
    }
}
