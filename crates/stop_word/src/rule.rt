//! The rule of the stop word, and what its steps show.
ghost use Rattle.std.specs.Prelude.{◌≡◌, ◌+◌, ◌-◌, [], ◌++◌, min};
ghost use Rattle.stop_word.specs.WordRule.{Keeps, Looks, Marks, view_of, nothing};

use crate::views::View;
use atomic_table::{Join, Play, Split, TableRule};

/// The word rule. The first seat has all eight parts, `MAX_SEATS`: a seat that has all of them again knows all marks.
pub struct LeastMark;

impl TableRule<u8, View, ()> for LeastMark {
    ghost holds = { λ _ s. Keeps s.words s.views };

    ghost first = { λ _. view_of [] nothing 8 };
}

/// What a look says.
pub struct Looking;

impl Play<u8, View> for Looking {
    ghost then = { λ _ before shown after. Looks before.0 shown after.0 × (after.1 ≡ before.1) };
}

/// What a mark says.
pub struct Marking;

impl Play<u8, View> for Marking {
    ghost then = { λ s before _ after. Marks before.0 s.first after.0 × (after.1 ≡ before.1) };
}

/// One part is cut off, for a new seat. What the seat was shown, the new one was shown too.
pub struct OnePart;

impl Split<View> for OnePart {
    ghost left = { λ v. view_of v.marks v.least (v.parts - 1) };

    ghost right = { λ v. view_of [] v.least 1 };
}

/// A seat takes in all that another knows.
pub struct Together;

impl Join<View> for Together {
    ghost both = { λ v w. view_of (v.marks ++ w.marks) (min v.least w.least) (v.parts + w.parts) };

    ghost spent = { view_of [] nothing 0 };
}
