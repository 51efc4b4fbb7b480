//! The forms of a line.

ghost use Rattle.std.specs.Prelude.{IfErr, OnOk};
ghost use denote.Param.Send.{IsSync};
ghost use Rattle.batch_report.specs.Findings.{LineMeaning, PutsLine, finding_of};
ghost use Rattle.batch_report.specs.PlainLines.{plain_meaning};

use crate::block::NumberedPiece;
use crate::plain_lines::push_plain;
use dimacs::SinkFault;
use std::alloc::Global;
use std::sync::Wait;
use std::thread::Threads;

/// How what is found of a piece becomes a line. A form may write beside it, to devices of its own.
pub trait LineForm<D> {
    /// What a line says, and what is done with the devices for it.
    ghost means: { LineMeaning D };

    /// Appends the line of a piece. It fails if there is no memory, or a device of the form fails; then
    /// some of the line may have been appended.
    fn push_line<R: Threads + Wait + Sync>(
        &self,
        alloc: Global,
        rt: &R,
        devices: &mut D,
        text: &mut Vec<u8>,
        piece: &NumberedPiece<'_>,
    ) -> Result<(), SinkFault>
        requires sync { IsSync R.row }
        ensures said { OnOk result (PutsLine (means.says piece.now.file.now piece.now.number (finding_of piece.now.found)) text.old.items text.new.items) }
        ensures moved { OnOk result (means.moves devices.old devices.new) }
        ensures failed { IfErr result (λ fault. means.fails devices.old fault devices.new) };
}

/// The plain form: the file, the number of the piece, and what is said of it.
#[derive(Clone, Copy)]
pub struct PlainForm;

impl<D> LineForm<D> for PlainForm {
    ghost means = { plain_meaning };

    fn push_line<R: Threads + Wait + Sync>(
        &self,
        alloc: Global,
        _rt: &R,
        _devices: &mut D,
        text: &mut Vec<u8>,
        piece: &NumberedPiece<'_>,
    ) -> Result<(), SinkFault> {
        match push_plain(alloc, text, piece.file, piece.number, &piece.found.verdict) {
            Ok(()) => Ok(()),
            Err(_) => Err(SinkFault::OutOfMemory),
        }
    }
}
