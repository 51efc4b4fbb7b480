//! Reading on, a block after the other.

ghost use Rattle.std.specs.Prelude.{◌≡◌, ◌≤◌, IfErr, IfOk, OnOk, vec_len};
ghost use Rattle.batch_report.specs.Reading.{ReadsOn, StopsReadingOn};
ghost use Rattle.verdict_report.specs.Runs.{source_run};

use std::alloc::{AllocError, Global};
use verdict_report::{MAX_INPUT_BYTES, ReadFault, Source};

/// The room for the bytes of one call.
const CHUNK: usize = 65_536;

/// A buffer for the bytes of one call.
fn blank_chunk(alloc: Global) -> Result<Vec<u8>, AllocError>
    ensures { IfOk result (λ buffer. vec_len buffer ≡ 65536) }
{
    vec![in alloc; 0; CHUNK]
}

/// The number of calls for the next block. They are more where much is held, so that a long piece is looked through a few times, and not
/// as often as there are blocks in it; but what is held then passes the limit only if nearly as much was held before.
fn calls_for(held: usize) -> usize {
    // At least one call, so that a piece that goes on past the limit is refused, and not asked for again and again.
    let room = MAX_INPUT_BYTES.saturating_sub(held) / CHUNK;
    room.min(held / CHUNK + 16).max(1)
}

/// Reads the next block behind the bytes that are held, and returns whether what is held then is the last of the text. A source that hands
/// out a few bytes a call, as a pipe, makes a smaller block.
pub(crate) fn read_on<S: Source>(
    alloc: Global,
    source: &mut S,
    held: &mut Vec<u8>,
) -> Result<bool, ReadFault>
    requires { vec_len held.old ≤ MAX_INPUT_BYTES }
    ensures read { IfOk result (ReadsOn (source_run S.handed_out S.is_at_end S.failures source.old source.new) held.old.items held.new.items) }
    ensures few { OnOk result (vec_len held.new ≤ MAX_INPUT_BYTES) }
    ensures stopped { IfErr result (StopsReadingOn (source_run S.handed_out S.is_at_end S.failures source.old source.new) held.old.items) }
    ensures same { S.path source.new ≡ S.path source.old }
{
    let Ok(mut chunk) = blank_chunk(alloc) else {
        return Err(ReadFault::OutOfMemory);
    };
    for _call in 0..calls_for(held.len()) {
        let Ok(count) = source.read(chunk.as_mut_slice()) else {
            return Err(ReadFault::Device);
        };
        if count == 0 {
            return Ok(true);
        }
        if count > MAX_INPUT_BYTES - held.len() {
            return Err(ReadFault::TooLong);
        }
        if held.extend_from_slice(&chunk.as_slice()[..count]).is_err() {
            return Err(ReadFault::OutOfMemory);
        }
    }
    Ok(false)
}
