//! Layers that no layer follows, and where the search goes on then: some layers back, since all states of such a layer mostly come of one wrong
//! state there. In a prototype one log took a beam of 16,000 states without going back, and of 500 with it.

use crate::beam::Beam;

/// The number of layers from one that is kept to the next that is.
pub(crate) const SPACING: u32 = 16;

/// How much wider the beam is at each further try of a place, and after the last. Both are factors: of the width of the try before, and of the width that
/// the beam has elsewhere.
const WIDENING: u32 = 4;

const MOST_WIDENING: u32 = 16;

/// The last place at which the search has ended dead, and what is tried there.
#[derive(Clone, Copy)]
pub(crate) struct DeadEnds {
    beam: Beam,
    /// The number of the layer that no layer followed, the highest of this place.
    depth: u32,
    /// The number of layers that the search goes back. It is doubled before each use, so the first time it is twice `SPACING`.
    back: u32,
    /// The width of the beam near this place.
    width: u32,
    /// Whether the search has ended dead before. If not, the other numbers say nothing.
    is_any: bool,
}

/// The greatest width of the beam.
pub(crate) fn widest(beam: Beam) -> u32 {
    beam.width.saturating_mul(MOST_WIDENING)
}

impl DeadEnds {
    /// No dead end.
    pub(crate) fn new(beam: Beam) -> DeadEnds {
        DeadEnds {
            beam,
            depth: 0,
            back: 0,
            width: beam.width,
            is_any: false,
        }
    }

    /// Notes that no layer follows the one of this number. Returns the number of the layer up to which the search goes back, or none if it has
    /// gone back to the first with the widest beam: a further try would be the same.
    pub(crate) fn note(&mut self, depth: u32) -> Option<u32> {
        if !self.is_any || depth > self.depth.saturating_add(SPACING) {
            self.back = SPACING;
            self.width = self.beam.width;
            self.depth = depth;
        }
        // Both have their values of the last try here, and are raised for this one behind it.
        if self.width == widest(self.beam) && self.back >= self.depth {
            return None;
        }
        self.is_any = true;
        self.depth = self.depth.max(depth);
        self.back = self.back.saturating_mul(2);
        self.width = self.width.saturating_mul(WIDENING).min(widest(self.beam));
        Some(self.depth.saturating_sub(self.back))
    }

    /// The width of the beam in the layer of this number: wider up to as far behind the dead end as the search went back before it.
    pub(crate) fn width_at(&self, depth: u32) -> u32 {
        if self.is_any && depth <= self.depth.saturating_add(self.back) {
            self.width
        } else {
            self.beam.width
        }
    }
}
