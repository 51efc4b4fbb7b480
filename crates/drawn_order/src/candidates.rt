//! From which operations of the whole trace a box may have its value.

use crate::choice::{DrawnChoice, is_same, number_at, number_of};
use crate::item::PictureItem;
use crate::known_order::{PartTrace, ReaderPlace};
use forced_order::numbered::OperationNumber;
use std::alloc::{AllocError, Global};
use trace_semantics::operation::{Op, Origin};

/// The operations that are not drawn and leave what a box reads.
pub(crate) struct HiddenSources {
    /// Those that the known order excludes.
    pub excluded: Vec<OperationNumber>,
    /// For each of these, the write that overwrites it before the box reads, unless it comes after the box.
    pub overwriters: Vec<Option<OperationNumber>>,
    /// Whether there is one that it does not exclude.
    pub is_open: bool,
}

/// Drops the lists in one call. A derived `Drop` would drop each at every exit of a function that owns hidden sources, which makes its proof longer.
impl Drop for HiddenSources {
    fn drop(self) {
        let HiddenSources {
            excluded: _excluded,
            overwriters: _overwriters,
            is_open: _,
        } = self;
    }
}

/// The place of the reader in the trace. A box that is no operation and reads is a final value, which is read after all operations; that of an initial value reads
/// nothing, so its place is never asked for.
pub(crate) fn reader_place(reader: &PictureItem<'_>) -> ReaderPlace {
    if reader.is_operation() {
        ReaderPlace::At(reader.number)
    } else {
        ReaderPlace::End
    }
}

/// Returns whether the reader's line lets it read from the operation of this number. A final value has no line, and takes any write.
fn allows(part: PartTrace<'_>, reader: &PictureItem<'_>, writer: OperationNumber) -> bool {
    match reader.origin() {
        Some(Origin::Initial) => false,
        Some(Origin::Operation(name)) => match number_of(part.trace, name) {
            Some(number) => is_same(number, writer),
            None => false,
        },
        _ => true,
    }
}

/// Returns whether the operation leaves what the reader reads.
fn leaves(op: &Op, reader: &PictureItem<'_>) -> bool {
    op.written_value() == reader.read && op.location().as_bytes() == reader.location
}

impl HiddenSources {
    /// Notes a source that is not drawn. `later` are the last writes of each process at the location before the reader.
    fn note(
        &mut self,
        part: PartTrace<'_>,
        place: ReaderPlace,
        later: &[OperationNumber],
        writer: OperationNumber,
    ) -> Result<(), AllocError> {
        let overwriter = part.overwriter(writer, later);
        if overwriter.is_none() && !part.comes_late(writer, place) {
            self.is_open = true;
            return Ok(());
        }
        self.excluded.push(writer)?;
        self.overwriters.push(overwriter)?;
        Ok(())
    }

    /// Notes those of a process.
    fn note_process(
        &mut self,
        part: PartTrace<'_>,
        choice: &DrawnChoice,
        reader: &PictureItem<'_>,
        later: &[OperationNumber],
        process: usize,
    ) -> Result<(), AllocError> {
        let place = reader_place(reader);
        let ops = part.operations(process);
        for k in 0..ops.len() {
            if leaves(&ops[k], reader) {
                if let Some(number) = number_at(process, k) {
                    let is_own = reader.is_operation() && is_same(number, reader.number);
                    if !is_own && !choice.has(number) && allows(part, reader, number) {
                        self.note(part, place, later, number)?;
                    }
                }
            }
        }
        Ok(())
    }

    /// The sources of the box that are not drawn; none if it reads nothing. An initial value is none of them: its box is drawn with every box of its location.
    pub fn of(
        alloc: Global,
        part: PartTrace<'_>,
        choice: &DrawnChoice,
        reader: &PictureItem<'_>,
    ) -> Result<HiddenSources, AllocError> {
        let mut hidden = HiddenSources {
            excluded: Vec::new(alloc),
            overwriters: Vec::new(alloc),
            is_open: false,
        };
        if reader.read.is_some() {
            let place = reader_place(reader);
            let later = part.last_writers(alloc, reader.location, place)?;
            for process in 0..part.trace.processes().len() {
                hidden.note_process(part, choice, reader, later.as_slice(), process)?;
            }
        }
        Ok(hidden)
    }
}
