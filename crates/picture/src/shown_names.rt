//! The names under which a picture shows operations.

use drawn_order::PictureItem;
use trace_semantics::operation::OpName;
use trace_semantics::trace::Trace;
use verdict_notes::ShownPlaces;

/// How operations of a trace are named: as in notes, so those of a part with names as in the whole.
#[derive(Clone, Copy)]
pub(crate) struct ShownNames<'p> {
    pub trace: &'p Trace,
    pub places: &'p ShownPlaces,
}

impl ShownNames<'_> {
    /// The place under which the operation of a box is named, counted from 1; 0 for the box of a value.
    pub fn place_of_item(&self, item: &PictureItem<'_>) -> u64 {
        if item.number.place == 0 {
            return 0;
        }
        let place = item.number.place as usize;
        self.places.at(item.number.process as usize, place - 1)
    }

    /// The place under which the operation of this name is named.
    pub fn place_of(&self, name: &OpName) -> u64 {
        self.places.of_name(self.trace, name)
    }
}
