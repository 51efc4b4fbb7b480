//! What is said of a trace beside its verdict, and which files are kept of it.
//!
//! The verdict of a batch has numbers alone, no schedule and no certificate. So a trace of which more is said is decided once more.
ghost use Rattle.std.specs.Prelude.{IfErr, IfOk, OnErr, OnOk};
ghost use Rattle.batch_report.specs.Findings.{PutsLine, finding_of};
ghost use Rattle.batch_report.specs.PlainLines.{is_plain_line};
ghost use Rattle.command_run.specs.FormedRuns.{FailsToKeep, KeepsSome, meaning_of};
ghost use Rattle.json_text.specs.JsonString.{AppendsSome};
ghost use Rattle.std.specs.Prelude.{false};

use crate::batch_runs::SURVEY_STEPS;
use batch_report::{BatchSearch, LineForm, NumberedPiece, PieceMembers, PieceVerdict, PlainForm};
use command_host::Host;
use dimacs::SinkFault;
use kept_files::{KeptTexts, keep_texts, stem_of};
use piece_details::{PieceDetails, PieceSearch, details_of, push_kept, push_members};
use std::alloc::{AllocError, Global};
use std::sync::Wait;
use std::thread::Threads;
use survey::BySaturation;

/// Returns whether the trace has no legal schedule.
fn is_no(verdict: &PieceVerdict) -> bool {
    match verdict {
        PieceVerdict::Refuted { .. } => true,
        PieceVerdict::RefutedCore { .. } => true,
        PieceVerdict::Reasoned { .. } => true,
        _ => false,
    }
}

/// Keeps the files of a trace that has no legal schedule in the folder at this path, and gives their name.
fn keep_files<'p, H: Host<'p>>(
    alloc: Global,
    host: &mut H,
    folder: &'p str,
    piece: &NumberedPiece<'_>,
    details: &PieceDetails,
) -> Result<String, SinkFault>
    ensures kept { OnOk result (KeepsSome H.calls host.old host.new) }
    ensures failed { OnErr result (KeepsSome H.calls host.old host.new) }
{
    let texts = KeptTexts {
        trace: piece.found.piece.text,
        certificate: details.certificate.as_slice(),
        names: details.names.as_slice(),
        picture: details.picture.as_slice(),
    };
    keep_texts(
        alloc,
        host,
        folder,
        stem_of(piece.file),
        piece.number,
        &texts,
    )
}

/// What is said beside verdicts.
#[derive(Clone, Copy)]
pub(crate) struct Beside<'p> {
    /// How a trace is decided once more.
    pub(crate) search: BatchSearch,
    /// Whether a schedule is said.
    pub(crate) schedules: bool,
    /// The folder in which files are kept.
    pub(crate) folder: Option<&'p str>,
}

impl<'p> Beside<'p> {
    /// Returns whether more is said of a trace with this verdict: its schedule if that is asked for, its open cubes, or why it has none. A survey
    /// that decides nothing, and a refusal, have nothing more.
    fn says_more(&self, verdict: &PieceVerdict) -> bool {
        match verdict {
            PieceVerdict::Consistent => self.schedules,
            PieceVerdict::Open { .. } => true,
            verdict => is_no(verdict),
        }
    }

    /// Gives what is said of the trace that this text spells, which is decided once more.
    fn details<R: Threads + Wait + Sync>(
        &self,
        alloc: Global,
        rt: &R,
        text: &[u8],
    ) -> Result<Option<PieceDetails>, AllocError> {
        let surveyor = BySaturation {
            budget: SURVEY_STEPS,
        };
        let search = PieceSearch {
            short: &self.search.short,
            long: &self.search.long,
            surveyor: &surveyor,
        };
        details_of(alloc, rt, text, &search, self.folder.is_some())
    }

    /// Keeps the files of a trace, if there is a folder and the trace has no legal schedule, and gives their name.
    fn keep<H: Host<'p>>(
        &self,
        alloc: Global,
        host: &mut H,
        piece: &NumberedPiece<'_>,
        details: &PieceDetails,
    ) -> Result<Option<String>, SinkFault>
        ensures kept { OnOk result (KeepsSome H.calls host.old host.new) }
        ensures failed { OnErr result (KeepsSome H.calls host.old host.new) }
    {
        let Some(folder) = self.folder else {
            return Ok(None);
        };
        if !is_no(&piece.found.verdict) {
            return Ok(None);
        }
        match keep_files(alloc, host, folder, piece, details) {
            Ok(name) => Ok(Some(name)),
            Err(fault) => Err(fault),
        }
    }

    /// Appends the members that say the details, and keeps the files. The member with their name comes last, and only after they were made.
    fn push_details<H: Host<'p>>(
        &self,
        alloc: Global,
        host: &mut H,
        text: &mut Vec<u8>,
        piece: &NumberedPiece<'_>,
        details: &PieceDetails,
    ) -> Result<(), SinkFault>
        ensures some { OnOk result (AppendsSome text.old.items text.new.items) }
        ensures kept { OnOk result (KeepsSome H.calls host.old host.new) }
        ensures failed { OnErr result (KeepsSome H.calls host.old host.new) }
    {
        match push_members(alloc, text, details) {
            Ok(()) => {}
            Err(_) => return Err(SinkFault::OutOfMemory),
        }
        let name = match self.keep(alloc, host, piece, details) {
            Ok(Some(name)) => name,
            Ok(None) => return Ok(()),
            Err(fault) => return Err(fault),
        };
        match push_kept(alloc, text, name.as_str()) {
            Ok(()) => Ok(()),
            Err(_) => Err(SinkFault::OutOfMemory),
        }
    }
}

impl<'p, H: Host<'p>> PieceMembers<H> for Beside<'p> {
    ghost moves = { KeepsSome H.calls };

    ghost fails = { FailsToKeep H.calls };

    fn push_members<R: Threads + Wait + Sync>(
        &self,
        alloc: Global,
        rt: &R,
        devices: &mut H,
        text: &mut Vec<u8>,
        piece: &NumberedPiece<'_>,
    ) -> Result<(), SinkFault> {
        if !self.says_more(&piece.found.verdict) {
            return Ok(());
        }
        match self.details(alloc, rt, piece.found.piece.text) {
            Ok(Some(details)) => self.push_details(alloc, devices, text, piece, &details),
            Ok(None) => Ok(()),
            Err(_) => Err(SinkFault::OutOfMemory),
        }
    }
}

/// Plain lines, beside which files are kept.
#[derive(Clone, Copy)]
pub(crate) struct PlainBeside<'p> {
    pub(crate) beside: Beside<'p>,
}

impl<'p> PlainBeside<'p> {
    /// Keeps the files of a trace that has no legal schedule. Others are not decided once more, as plain lines say nothing of the details.
    fn keep<R: Threads + Wait + Sync, H: Host<'p>>(
        &self,
        alloc: Global,
        rt: &R,
        host: &mut H,
        piece: &NumberedPiece<'_>,
    ) -> Result<(), SinkFault>
        ensures kept { OnOk result (KeepsSome H.calls host.old host.new) }
        ensures failed { OnErr result (KeepsSome H.calls host.old host.new) }
    {
        if !is_no(&piece.found.verdict) {
            return Ok(());
        }
        match self.beside.details(alloc, rt, piece.found.piece.text) {
            Ok(Some(details)) => match self.beside.keep(alloc, host, piece, &details) {
                Ok(_) => Ok(()),
                Err(fault) => Err(fault),
            },
            Ok(None) => Ok(()),
            Err(_) => Err(SinkFault::OutOfMemory),
        }
    }
}

impl<'p, H: Host<'p>> LineForm<H> for PlainBeside<'p> {
    ghost means = { meaning_of false H.calls };

    fn push_line<R: Threads + Wait + Sync>(
        &self,
        alloc: Global,
        rt: &R,
        devices: &mut H,
        text: &mut Vec<u8>,
        piece: &NumberedPiece<'_>,
    ) -> Result<(), SinkFault> {
        // Files are kept before the line is made: if that fails, the batch ends without it. The line itself needs no device.
        match self.keep(alloc, rt, devices, piece) {
            Ok(()) => {}
            Err(fault) => return Err(fault),
        }
        PlainForm.push_line(alloc, rt, &mut (), text, piece)
    }
}
