//! Which operations of a trace are drawn.

use forced_order::numbered::OperationNumber;
use std::alloc::{AllocError, Global};
use trace_semantics::operation::OpName;
use trace_semantics::process_order::find_process;
use trace_semantics::trace::Trace;

/// An operation that is drawn.
#[derive(Clone, Copy)]
struct DrawnOperation {
    number: OperationNumber,
    /// Whether the picture is of it; else it is drawn beside the others for what it excludes.
    is_chosen: bool,
}

/// The operations that are drawn.
#[derive(Drop)]
pub struct DrawnChoice {
    operations: Vec<DrawnOperation>,
}

/// Returns whether both are the same operation.
pub(crate) fn is_same(first: OperationNumber, second: OperationNumber) -> bool {
    first.process == second.process && first.place == second.place
}

/// The number of the operation at this place, counted from 0, of the process of this number, if both are small enough.
pub(crate) fn number_at(process: usize, k: usize) -> Option<OperationNumber> {
    let Ok(process) = u16::try_from(process) else {
        return None;
    };
    match u32::try_from(k.saturating_add(1)) {
        Ok(place) => Some(OperationNumber { process, place }),
        Err(_) => None,
    }
}

/// The number of the operation of this name, if the trace has its process. Whether the process has an operation at this place is not looked
/// at.
pub(crate) fn number_of(trace: &Trace, name: &OpName) -> Option<OperationNumber> {
    let process = find_process(trace.processes(), name.process.as_bytes())?;
    match u16::try_from(process) {
        Ok(process) => Some(OperationNumber {
            process,
            place: name.place,
        }),
        Err(_) => None,
    }
}

impl DrawnChoice {
    /// No operation.
    pub fn none(alloc: Global) -> DrawnChoice {
        DrawnChoice {
            operations: Vec::new(alloc),
        }
    }

    /// The operations of these names.
    pub fn of_names(
        alloc: Global,
        trace: &Trace,
        names: &[OpName],
    ) -> Result<DrawnChoice, AllocError> {
        let mut choice = DrawnChoice::none(alloc);
        for name in names {
            if let Some(number) = number_of(trace, name) {
                choice.choose(number)?;
            }
        }
        Ok(choice)
    }

    /// All operations of the trace.
    pub fn of_all(alloc: Global, trace: &Trace) -> Result<DrawnChoice, AllocError> {
        let mut choice = DrawnChoice::none(alloc);
        let processes = trace.processes();
        for process in 0..processes.len() {
            for k in 0..processes[process].operations.as_slice().len() {
                if let Some(number) = number_at(process, k) {
                    choice.choose(number)?;
                }
            }
        }
        Ok(choice)
    }

    /// Adds an operation that the picture is of. One that is added twice counts twice in `count`. It is not looked for first, as in `put_beside`: of a long
    /// trace `too_few_sources` may add thousands, each once, and only then `count` says that they are too many for a picture.
    pub fn choose(&mut self, number: OperationNumber) -> Result<(), AllocError> {
        self.operations.push(DrawnOperation {
            number,
            is_chosen: true,
        })?;
        Ok(())
    }

    /// Adds an operation that is drawn beside the others, if it is not drawn yet.
    pub fn put_beside(&mut self, number: OperationNumber) -> Result<(), AllocError> {
        if self.has(number) {
            return Ok(());
        }
        self.operations.push(DrawnOperation {
            number,
            is_chosen: false,
        })?;
        Ok(())
    }

    /// Returns whether the operation is drawn.
    pub fn has(&self, number: OperationNumber) -> bool {
        self.is_chosen(number).is_some()
    }

    /// Returns whether the picture is of the operation, or nothing if it is not drawn.
    pub fn is_chosen(&self, number: OperationNumber) -> Option<bool> {
        for operation in &self.operations {
            if is_same(operation.number, number) {
                return Some(operation.is_chosen);
            }
        }
        None
    }

    /// The number of operations that are drawn.
    pub fn count(&self) -> usize {
        self.operations.len()
    }
}
