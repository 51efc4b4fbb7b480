//! What program order, before lines and times say of the operations of the whole trace.

use crate::choice::{is_same, number_at};
use forced_order::forced_order::ForcedOrder;
use forced_order::numbered::OperationNumber;
use std::alloc::{AllocError, Global};
use trace_semantics::operation::Op;
use trace_semantics::trace::Trace;

/// A trace, with the order that its lines force.
#[derive(Clone, Copy)]
pub struct PartTrace<'t> {
    pub trace: &'t Trace,
    pub forced: &'t ForcedOrder,
}

/// Who reads: an operation, or at the end of all the final value of a location.
#[derive(Clone, Copy)]
pub(crate) enum ReaderPlace {
    At(OperationNumber),
    End,
}

/// Returns whether the operation leaves a value at the location.
fn writes_at(op: &Op, location: &[u8]) -> bool {
    op.written_value().is_some() && op.location().as_bytes() == location
}

impl<'t> PartTrace<'t> {
    /// The operations of the process of this number.
    pub fn operations(&self, process: usize) -> &'t [Op] {
        match self.trace.processes().get(process) {
            Some(process) => process.operations.as_slice(),
            None => &[],
        }
    }

    /// The number of operations of the process that stand before the reader. They are its first ones, so the last of their places, counted from
    /// 1, is their number.
    fn count_before(&self, reader: ReaderPlace, process: usize) -> usize {
        match (reader, u16::try_from(process)) {
            (ReaderPlace::At(number), Ok(process)) => {
                self.forced.last_before(number, process) as usize
            }
            _ => self.operations(process).len(),
        }
    }

    /// The last write of the process at the location among its first `count` operations.
    fn last_writer(
        &self,
        process: usize,
        location: &[u8],
        count: usize,
    ) -> Option<OperationNumber> {
        let ops = self.operations(process);
        let mut last = None;
        for k in 0..ops.len().min(count) {
            if writes_at(&ops[k], location) {
                last = Some(k);
            }
        }
        number_at(process, last?)
    }

    /// The last write at the location of each process, among the operations that stand before the reader. These suffice for `overwriter`: what
    /// stands before an earlier write of the process stands before its last one.
    pub(crate) fn last_writers(
        &self,
        alloc: Global,
        location: &[u8],
        reader: ReaderPlace,
    ) -> Result<Vec<OperationNumber>, AllocError> {
        let mut writers = Vec::new(alloc);
        for process in 0..self.trace.processes().len() {
            let count = self.count_before(reader, process);
            if let Some(writer) = self.last_writer(process, location, count) {
                writers.push(writer)?;
            }
        }
        Ok(writers)
    }

    /// Returns whether the reader stands before the write.
    pub(crate) fn comes_late(&self, writer: OperationNumber, reader: ReaderPlace) -> bool {
        match reader {
            ReaderPlace::At(number) => self.forced.stands(number, writer),
            ReaderPlace::End => false,
        }
    }

    /// The write among these that stands behind this one, if one does.
    pub(crate) fn overwriter(
        &self,
        writer: OperationNumber,
        later: &[OperationNumber],
    ) -> Option<OperationNumber> {
        for other in later {
            if !is_same(*other, writer) && self.forced.stands(writer, *other) {
                return Some(*other);
            }
        }
        None
    }
}
