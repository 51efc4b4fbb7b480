//! The engine that decides many traces, from bytes to bytes.

ghost use Rattle.std.specs.Prelude.{◌≡◌, ◌+◌, ◌≤◌, [], true, IfErr, IfOk, OnErr, OnOk, length};
ghost use Rattle.batch_report.specs.BatchEngine.{IsRunOfBatch};
ghost use Rattle.batch_report.specs.Findings.{AreFoundOff, findings_of};
ghost use Rattle.batch_report.specs.FormedBatch.{IsRunOfFormed, StopsBlock, StopsLines, StopsRefusal, WritesBlock, WritesLines, WritesRefusal, device_run};
ghost use Rattle.verdict_report.specs.Fault.{fault_of_reading};
ghost use Rattle.verdict_report.specs.Runs.{sink_run, source_run};

use crate::batch_run::BatchRun;
use crate::block::{DecidedBlock, PlacedPiece, cut_block};
use crate::line_form::{LineForm, PlainForm};
use crate::lines::lines_of;
use crate::piece_verdict::PieceVerdict;
use crate::progress::BatchProgress;
use crate::reading_on::read_on;
use crate::side_by_side::verdicts_of;
use crate::tally::VerdictTally;
use dimacs::{Sink, SinkFault, write_whole};
use std::alloc::{AllocError, Global};
use std::sync::Wait;
use std::thread::Threads;
use surveyor::Surveyor;
use verdict_report::{Fault, ReadFault, Source};

/// Decides the first pieces of the text: all that end in it. `before` is the number of lines of the file before the text, by which a fault of a piece has
/// the line of the whole file. `is_last` says that the file ends with the text, so that its last piece ends too.
fn decide_block<'a, R: Threads + Wait + Sync, S: Surveyor + Sync, F>(
    run: &BatchRun<'_, R, S, F>,
    text: &'a [u8],
    is_last: bool,
    before: usize,
) -> Result<DecidedBlock<'a>, AllocError>
    requires few { before + length text.now ≤ 9000000000000000000 }
    ensures each { IfOk result (λ block. AreFoundOff is_last before text.now (findings_of block.pieces.items block.verdicts.items) block.before block.rest.now) }
    ensures same { IfOk result (λ block. length block.verdicts.items ≡ length block.pieces.items) }
    ensures few { IfOk result (λ block. length block.verdicts.items + length block.rest.now ≤ length text.now) }
    ensures all { is_last ≡ true → IfOk result (λ block. block.rest.now ≡ []) }
{
    let block = cut_block(run.alloc, text, is_last, before)?;
    let verdicts = verdicts_of(
        run.alloc,
        run.rt,
        block.pieces.as_slice(),
        run.search,
        run.surveyor,
    )?;
    Ok(DecidedBlock {
        pieces: block.pieces,
        verdicts,
        rest: block.rest,
        before: block.before,
    })
}

/// Writes the lines of pieces behind others of the file. Here `before` is the number of pieces before these, and not of lines of the file.
fn write_lines<R: Threads + Wait + Sync, S, D, F: LineForm<D>, W: Sink>(
    run: &BatchRun<'_, R, S, F>,
    devices: &mut D,
    before: usize,
    pieces: &[PlacedPiece<'_>],
    verdicts: &[PieceVerdict],
    out: &mut W,
) -> Result<(), SinkFault>
    requires few { before + length verdicts.now ≤ 9000000000000000000 }
    requires same { length verdicts.now ≡ length pieces.now }
    ensures written { OnOk result (WritesLines F.means run.now.file.now before (findings_of pieces.now verdicts.now) (device_run devices.old devices.new) (sink_run W.written W.failures out.old out.new)) }
    ensures stopped { IfErr result (StopsLines F.means run.now.file.now before (findings_of pieces.now verdicts.now) (device_run devices.old devices.new) (sink_run W.written W.failures out.old out.new)) }
    ensures same { W.path out.new ≡ W.path out.old }
{
    let lines = match lines_of(run, devices, before, pieces, verdicts) {
        Ok(lines) => lines,
        Err(fault) => return Err(fault),
    };
    match write_whole(out, lines.as_slice()) {
        Ok(()) => Ok(()),
        Err(_) => Err(SinkFault::Device),
    }
}

/// What is left after a block, and how far the batch is then.
#[derive(Clone, Copy)]
struct BlockEnd<'a> {
    left: &'a [u8],
    progress: BatchProgress,
}

/// Decides the next pieces of what is held, and writes their lines together.
fn write_block<'a, R: Threads + Wait + Sync, S: Surveyor + Sync, D, F: LineForm<D>, W: Sink>(
    run: &BatchRun<'_, R, S, F>,
    devices: &mut D,
    held: &'a [u8],
    is_last: bool,
    progress: BatchProgress,
    out: &mut W,
) -> Result<BlockEnd<'a>, SinkFault>
    requires few { length held.now ≤ 268435456 }
    ensures written { IfOk result (λ end. WritesBlock F.means run.now.file.now is_last held.now progress end.progress end.left.now
        (device_run devices.old devices.new)
        (sink_run W.written W.failures out.old out.new)) }
    ensures stopped { IfErr result (StopsBlock F.means run.now.file.now is_last held.now progress
        (device_run devices.old devices.new)
        (sink_run W.written W.failures out.old out.new)) }
    ensures all { is_last ≡ true → IfOk result (λ end. end.left.now ≡ []) }
    ensures few { IfOk result (λ end. length end.left.now ≤ 268435456) }
    ensures same { W.path out.new ≡ W.path out.old }
{
    if !progress.has_room() {
        // Lines or pieces past 4 * 10^18 cannot be counted, and are refused as if there were no memory.
        return Err(SinkFault::OutOfMemory);
    }
    let block = match decide_block(run, held, is_last, progress.before) {
        Ok(block) => block,
        Err(_) => return Err(SinkFault::OutOfMemory),
    };
    let pieces = block.pieces.as_slice();
    let verdicts = block.verdicts.as_slice();
    match write_lines(run, devices, progress.number, pieces, verdicts, out) {
        Ok(()) => {}
        Err(fault) => return Err(fault),
    }
    Ok(BlockEnd {
        left: block.rest,
        progress: BatchProgress {
            before: block.before,
            number: progress.number + verdicts.len(),
            tally: progress.tally.with_all(verdicts),
        },
    })
}

/// These bytes, to be held. They are the piece that has not ended yet, and are borrowed from what was held until now, so they are copied before that is
/// dropped.
fn held_of(alloc: Global, left: &[u8]) -> Result<Vec<u8>, AllocError>
    ensures { IfOk result (λ held. held.items ≡ left.now) }
{
    let mut held = Vec::new(alloc);
    held.extend_from_slice(left)?;
    Ok(held)
}

/// The refusal of a text that cannot be read on.
fn refusal_of_reading(fault: ReadFault) -> Fault
    ensures { result ≡ fault_of_reading fault }
{
    match fault {
        ReadFault::OutOfMemory => Fault::OutOfMemory,
        ReadFault::Device => Fault::Device,
        ReadFault::TooLong => Fault::InputTooLong,
    }
}

/// Writes the line of a refusal at the end of a text, of which no more could be read, and counts it.
fn write_refusal<R: Threads + Wait + Sync, S, D, F: LineForm<D>, W: Sink>(
    run: &BatchRun<'_, R, S, F>,
    devices: &mut D,
    progress: BatchProgress,
    fault: Fault,
    out: &mut W,
) -> Result<VerdictTally, SinkFault>
    ensures written { IfOk result (λ tally. WritesRefusal F.means run.now.file.now progress fault tally
        (device_run devices.old devices.new)
        (sink_run W.written W.failures out.old out.new)) }
    ensures stopped { IfErr result (StopsRefusal F.means run.now.file.now progress fault
        (device_run devices.old devices.new)
        (sink_run W.written W.failures out.old out.new)) }
    ensures same { W.path out.new ≡ W.path out.old }
{
    if !progress.has_room() {
        return Err(SinkFault::OutOfMemory);
    }
    let piece = PlacedPiece {
        // A refusal has no text of its own: it stands for what could not be read.
        text: &[],
        before: progress.before,
    };
    let verdict = PieceVerdict::Refused(fault);
    match write_lines(run, devices, progress.number, &[piece], &[verdict], out) {
        Ok(()) => Ok(progress.tally.with(&verdict)),
        Err(fault) => Err(fault),
    }
}

/// Decides all traces of the text that the source hands out, each as `verify` does it, or as `survey` does if more than 160 of its
/// operations are kept. It writes a line for each piece of the text, in their order, in the form that is given. The text is read and decided
/// by blocks, of which no more is kept than a block, or a piece that is longer. The lines of a block are written together, and its traces
/// are decided side by side, if there is more than one worker; lines are made one by one, in their order.
///
/// If memory runs out while the text is read, the source fails, or a piece is longer than the limit, the pieces of the blocks before it are
/// decided, and one more line refuses what is left. The answer is the tally with all lines. If memory runs out, the sink fails, or a device
/// of the form does, a front of the lines may have been written.
pub fn run_batch_in<
    R: Threads + Wait + Sync,
    T: Source,
    S: Surveyor + Sync,
    D,
    F: LineForm<D>,
    W: Sink,
>(
    run: &BatchRun<'_, R, S, F>,
    devices: &mut D,
    traces: &mut T,
    tally: VerdictTally,
    out: &mut W,
) -> Result<VerdictTally, SinkFault>
    ensures run { IsRunOfFormed F.means run.now.file.now
        (source_run T.handed_out T.is_at_end T.failures traces.old traces.new)
        tally
        (device_run devices.old devices.new)
        (sink_run W.written W.failures out.old out.new)
        result }
    ensures same_traces { T.path traces.new ≡ T.path traces.old }
    ensures same_out { W.path out.new ≡ W.path out.old }
{
    let mut held = Vec::new(run.alloc);
    let mut progress = BatchProgress::new(tally);
    for _block in 0..u64::MAX {
        let is_last = match read_on(run.alloc, traces, &mut held) {
            Ok(is_last) => is_last,
            Err(fault) => {
                let refusal = refusal_of_reading(fault);
                return write_refusal(run, devices, progress, refusal, out);
            }
        };
        let end = match write_block(run, devices, held.as_slice(), is_last, progress, out) {
            Ok(end) => end,
            Err(fault) => return Err(fault),
        };
        progress = end.progress;
        if is_last {
            return Ok(progress.tally);
        }
        held = match held_of(run.alloc, end.left) {
            Ok(held) => held,
            Err(_) => return Err(SinkFault::OutOfMemory),
        };
    }
    Err(SinkFault::OutOfMemory)
}

/// Decides all traces as [`run_batch_in`] does, with plain lines: the file, the number of the piece, and what is said of it.
pub fn run_batch<R: Threads + Wait + Sync, T: Source, S: Surveyor + Sync, W: Sink>(
    run: &BatchRun<'_, R, S, PlainForm>,
    traces: &mut T,
    tally: VerdictTally,
    out: &mut W,
) -> Result<VerdictTally, SinkFault>
    ensures run { IsRunOfBatch run.now.file.now
        (source_run T.handed_out T.is_at_end T.failures traces.old traces.new)
        tally
        (sink_run W.written W.failures out.old out.new)
        result }
    ensures same_traces { T.path traces.new ≡ T.path traces.old }
    ensures same_out { W.path out.new ≡ W.path out.old }
{
    run_batch_in(run, &mut (), traces, tally, out)
}
