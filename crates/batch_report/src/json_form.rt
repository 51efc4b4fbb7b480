//! The form of objects of JSON.

ghost use Rattle.std.specs.Prelude.{IfErr, OnOk};
ghost use denote.Param.Send.{IsSync};
ghost use Rattle.batch_report.specs.JsonLines.{json_meaning};
ghost use Rattle.batch_report.specs.PlainLines.{fails_for_memory, stays};
ghost use Rattle.dimacs.specs.declared.sink_fault.SinkFault.{SinkFault};
ghost use Rattle.json_text.specs.JsonString.{AppendsSome};

use crate::block::NumberedPiece;
use crate::json_lines::push_head;
use crate::line_form::LineForm;
use dimacs::SinkFault;
use std::alloc::Global;
use std::sync::Wait;
use std::thread::Threads;

/// What an object has behind its head.
pub trait PieceMembers<D> {
    /// What is done with the devices for an object.
    ghost moves: { D → D → Type 0 };

    /// What was done with them if that fails.
    ghost fails: { D → SinkFault → D → Type 0 };

    /// Appends the members, each as a comma, its name and its value. It fails if there is no memory, or a device does.
    fn push_members<R: Threads + Wait + Sync>(
        &self,
        alloc: Global,
        rt: &R,
        devices: &mut D,
        text: &mut Vec<u8>,
        piece: &NumberedPiece<'_>,
    ) -> Result<(), SinkFault>
        requires sync { IsSync R.row }
        ensures some { OnOk result (AppendsSome text.old.items text.new.items) }
        ensures moved { OnOk result (moves devices.old devices.new) }
        ensures failed { IfErr result (λ fault. fails devices.old fault devices.new) };
}

/// No members.
#[derive(Clone, Copy)]
pub struct NoMembers;

impl<D> PieceMembers<D> for NoMembers {
    ghost moves = { stays };

    ghost fails = { fails_for_memory };

    fn push_members<R: Threads + Wait + Sync>(
        &self,
        _alloc: Global,
        _rt: &R,
        _devices: &mut D,
        _text: &mut Vec<u8>,
        _piece: &NumberedPiece<'_>,
    ) -> Result<(), SinkFault> {
        Ok(())
    }
}

/// A line is an object of JSON: where the trace stands, what is said of it, and these members.
#[derive(Clone, Copy)]
pub struct JsonForm<M> {
    /// What an object has behind its head.
    pub members: M,
}

impl<D, M: PieceMembers<D>> LineForm<D> for JsonForm<M> {
    ghost means = { json_meaning M.moves M.fails };

    fn push_line<R: Threads + Wait + Sync>(
        &self,
        alloc: Global,
        rt: &R,
        devices: &mut D,
        text: &mut Vec<u8>,
        piece: &NumberedPiece<'_>,
    ) -> Result<(), SinkFault> {
        match push_head(alloc, text, piece) {
            Ok(()) => {}
            Err(_) => return Err(SinkFault::OutOfMemory),
        }
        match self.members.push_members(alloc, rt, devices, text, piece) {
            Ok(()) => {}
            Err(fault) => return Err(fault),
        }
        match text.extend_from_slice(b"}\n") {
            Ok(()) => Ok(()),
            Err(_) => Err(SinkFault::OutOfMemory),
        }
    }
}
