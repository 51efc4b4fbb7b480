//! A sink that passes on what it takes, counts it, and keeps a short text.
ghost use Rattle.std.specs.Prelude.{◌≡◌};

use crate::device_failure::{DeviceFailure, TellsFailure};
use dimacs::{Failed, MemorySink, ShortSink, Sink};
use std::alloc::Global;

/// The most bytes that are kept of what standard output takes. The report of a search with 1,024 open cubes is shorter.
const MOST_KEPT: usize = 262_144;

/// What can be asked what it took, too. Explanations alone ask, so nothing is promised of the answer.
pub trait Recalls: TellsFailure {
    /// All bytes that it took, if it still has them.
    fn recalled(&self) -> Option<&[u8]>;
}

/// The bytes that a sink took: how many they are, and they themselves if they are few.
#[derive(Drop)]
struct Record {
    /// The bytes that were kept. They are all of them exactly if they are as many as were taken.
    kept: Vec<u8>,
    /// The most bytes that are kept, and 0 for a record that counts alone.
    most: usize,
    /// How many bytes were taken, kept or not.
    taken: u64,
}

impl Record {
    /// The record of no byte, which keeps at most this number of bytes.
    fn new(alloc: Global, most: usize) -> Record {
        Record {
            kept: Vec::new(alloc),
            most,
            taken: 0,
        }
    }

    /// Counts these bytes, and keeps them unless they exceed the most that is kept, or memory runs out.
    fn add(&mut self, bytes: &[u8]) {
        self.taken = self.taken.saturating_add(bytes.len() as u64);
        if self.taken <= self.most as u64 {
            // Without memory `kept` stays shorter than `taken` from now on, which `whole` sees.
            let _ = self.kept.extend_from_slice(bytes);
        }
    }

    /// All bytes, if each was kept.
    fn whole(&self) -> Option<&[u8]> {
        if self.kept.len() as u64 == self.taken {
            Some(self.kept.as_slice())
        } else {
            None
        }
    }
}

/// A sink that passes all on to another one, and records it.
#[derive(Drop)]
pub struct Recorder<S> {
    sink: S,
    record: Record,
}

impl<S: Sink> Recorder<S> {
    /// A sink that passes on to this one, and keeps a text as long as a report.
    pub fn keeping(alloc: Global, sink: S) -> Recorder<S>
        ensures { result.sink ≡ sink }
    {
        Recorder {
            sink,
            record: Record::new(alloc, MOST_KEPT),
        }
    }

    /// A sink that passes on to this one, and counts alone.
    pub fn counting(alloc: Global, sink: S) -> Recorder<S>
        ensures { result.sink ≡ sink }
    {
        Recorder {
            sink,
            record: Record::new(alloc, 0),
        }
    }

    /// The number of bytes that it took.
    pub fn taken(&self) -> u64 {
        self.record.taken
    }

    /// The sink to which it passed them on.
    pub fn into_sink(self) -> S
        ensures { result ≡ self.sink }
    {
        self.sink
    }
}

impl<S: Sink> Sink for Recorder<S> {
    ghost written = { λ s. S.written s.sink };

    ghost failures = { λ s. S.failures s.sink };

    ghost path = { λ s. S.path s.sink };

    fn write(&mut self, bytes: &[u8]) -> Result<usize, Failed> {
        match self.sink.write(bytes) {
            Ok(count) => {
                self.record.add(&bytes[..count]);
                Ok(count)
            }
            Err(failed) => Err(failed),
        }
    }
}

impl<S: TellsFailure> TellsFailure for Recorder<S> {
    fn failure(&self) -> Option<DeviceFailure> {
        self.sink.failure()
    }
}

impl<S: TellsFailure> Recalls for Recorder<S> {
    fn recalled(&self) -> Option<&[u8]> {
        self.record.whole()
    }
}

impl Recalls for MemorySink {
    fn recalled(&self) -> Option<&[u8]> {
        Some(self.as_slice())
    }
}

// A `ShortSink` takes few bytes at a time, but keeps all that it took.
impl Recalls for ShortSink {
    fn recalled(&self) -> Option<&[u8]> {
        Some(self.as_slice())
    }
}
