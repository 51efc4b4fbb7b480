//! Sources and sinks in memory that move a byte a call, some of which fail at one call.

use dimacs::ShortSink;
use std::alloc::Global;
use verdict_report::ShortSource;

/// The largest numbers of bytes that a device moves a call: one, and all that it is asked for.
pub const SIZES: [usize; 2] = [1, usize::MAX];

/// A source of the text that hands out a byte a call and does not fail.
pub fn source_of(text: &str) -> ShortSource<'_> {
    ShortSource::new(text.as_bytes(), 1)
}

/// A source of the text that hands out a byte a call, and fails at this call. The call after the last byte reports the
/// end.
pub fn failing_at(text: &str, call: usize) -> ShortSource<'_> {
    ShortSource::new(text.as_bytes(), 1).failing_at(call as u64)
}

/// A sink that takes a byte a call, and fails at this call.
pub fn sink_failing_at(alloc: Global, call: usize) -> ShortSink {
    ShortSink::new(alloc, 1).failing_at(call as u64)
}
