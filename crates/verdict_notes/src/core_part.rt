//! The part of a trace that the operations of a core make up.

use crate::shown_places::ShownPlaces;
use std::alloc::{AllocError, Global};
use text_lines::fault::PlacedFault;
use trace_part::part::{TracePart, part_of};
use trace_semantics::operation::OpName;
use trace_semantics::trace::Trace;

/// The part of a trace, with the places of its operations in the whole.
#[derive(Drop)]
pub struct CorePart {
    part: TracePart,
    places: ShownPlaces,
}

impl CorePart {
    /// The part that the operations of these names make up, if the trace has each of them and none stands twice.
    pub fn of(
        alloc: Global,
        trace: &Trace,
        names: &[OpName],
    ) -> Result<Option<CorePart>, AllocError> {
        match part_of(alloc, trace, names) {
            Ok(part) => {
                let places = ShownPlaces::of_part(alloc, &part)?;
                Ok(Some(CorePart { part, places }))
            }
            Err(PlacedFault::OutOfMemory) => Err(AllocError),
            Err(PlacedFault::At(_cause, _place)) => Ok(None),
        }
    }

    /// The part.
    pub fn trace(&self) -> &Trace {
        self.part.trace()
    }

    /// The places in the whole.
    pub fn places(&self) -> &ShownPlaces {
        &self.places
    }
}
