//! The lines of a batch, in any form.

ghost use Rattle.std.specs.Prelude.{◌≡◌, ◌+◌, ◌≤◌, length, IfErr, IfOk, OnOk};
ghost use Rattle.batch_report.specs.Findings.{AreLines, FailsAtLine, Reaches, findings_of};

use crate::batch_run::BatchRun;
use crate::block::{DecidedPiece, NumberedPiece, PlacedPiece};
use crate::line_form::LineForm;
use crate::piece_verdict::PieceVerdict;
use dimacs::SinkFault;
use std::sync::Wait;
use std::thread::Threads;

/// The lines of pieces behind others of the file: `before` is the number of pieces before these, and pieces are numbered from 1.
pub(crate) fn lines_of<R: Threads + Wait + Sync, S, D, F: LineForm<D>>(
    run: &BatchRun<'_, R, S, F>,
    devices: &mut D,
    before: usize,
    pieces: &[PlacedPiece<'_>],
    verdicts: &[PieceVerdict],
) -> Result<Vec<u8>, SinkFault>
    requires few { before + length verdicts.now ≤ 9000000000000000000 }
    requires same { length verdicts.now ≡ length pieces.now }
    ensures said { IfOk result (λ text. AreLines (F.means.says run.now.file.now) before (findings_of pieces.now verdicts.now) text.items) }
    ensures moved { OnOk result (Reaches F.means.moves (length verdicts.now) devices.old devices.new) }
    ensures failed { IfErr result (λ fault. FailsAtLine F.means devices.old fault devices.new) }
{
    let mut text = Vec::new(run.alloc);
    for at in 0..verdicts.len() {
        let found = DecidedPiece {
            piece: pieces[at],
            verdict: verdicts[at],
        };
        let piece = NumberedPiece {
            file: run.file,
            number: before + at + 1,
            found,
        };
        match run
            .form
            .push_line(run.alloc, run.rt, devices, &mut text, &piece)
        {
            Ok(()) => {}
            Err(fault) => return Err(fault),
        }
    }
    Ok(text)
}
