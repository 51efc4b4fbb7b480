//! Reading a text whole.
ghost use Rattle.std.specs.Prelude.{◌≡◌, ◌≤◌, ◌++◌, IfOk, OnOk, IsTrue, vec_len};
ghost use Rattle.verdict_report.specs.Reading.{CountsFailures, AppendsMoreThan, AppendsAtMost};

use crate::source::Source;
use std::alloc::{AllocError, Global};

/// Why a text did not come whole from its source.
#[derive(Clone, Copy, Debug, PartialEq, Eq)]
pub enum ReadFault {
    /// Memory ran out.
    OutOfMemory,
    /// The source failed.
    Device,
    /// The source handed out more bytes than the limit.
    TooLong,
}

/// The most bytes that one input may have.
pub const MAX_INPUT_BYTES: usize = 268_435_456;

/// The room for the bytes of one call.
const CHUNK: usize = 16_384;

/// The room for a text before it grows. Most texts fit, so that their bytes are not copied again; room that no byte
/// fills is asked of the system and never touched.
const ROOM: usize = 262_144;

// A buffer of this number of bytes.
fn blank(alloc: Global, size: usize) -> Result<Vec<u8>, AllocError>
    ensures { IfOk result (λ buffer. vec_len buffer ≡ size) }
{
    vec![in alloc; 0; size]
}

/// Reads a text whole, up to the end of its source. A source that has more bytes than the limit is read no
/// further than a chunk past it.
pub fn read_whole<S: Source>(alloc: Global, source: &mut S) -> Result<Vec<u8>, ReadFault>
    ensures text { IfOk result (λ text. S.handed_out source.new ≡ S.handed_out source.old ++ text.items) }
    ensures end { OnOk result (IsTrue (S.is_at_end source.new)) }
    ensures within_limit { IfOk result (λ text. vec_len text ≤ MAX_INPUT_BYTES) }
    ensures too_long { result ≡ Err ReadFault.TooLong →
        AppendsMoreThan MAX_INPUT_BYTES (S.handed_out source.old) (S.handed_out source.new) }
    ensures device { result ≡ Err ReadFault.Device →
        AppendsAtMost MAX_INPUT_BYTES (S.handed_out source.old) (S.handed_out source.new) }
    ensures failures { CountsFailures result (S.failures source.old) (S.failures source.new) }
    ensures same { S.path source.new ≡ S.path source.old }
{
    let Ok(mut chunk) = blank(alloc, CHUNK) else {
        return Err(ReadFault::OutOfMemory);
    };
    let Ok(mut text) = Vec::with_capacity(alloc, ROOM) else {
        return Err(ReadFault::OutOfMemory);
    };
    loop {
        let Ok(count) = source.read(chunk.as_mut_slice()) else {
            return Err(ReadFault::Device);
        };
        if count == 0 {
            return Ok(text);
        }
        // Asked before the bytes are taken, so the text is never past the limit, and the difference never below 0.
        if count > MAX_INPUT_BYTES - text.len() {
            return Err(ReadFault::TooLong);
        }
        if text.extend_from_slice(&chunk.as_slice()[..count]).is_err() {
            return Err(ReadFault::OutOfMemory);
        }
    }
}
