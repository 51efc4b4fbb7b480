//! Values that are tried first, from the longest trails without a conflict (Biere and Fleury, "Chasing target phases", 2020).

use assignment_trail::Trail;
use proof_log::codes::{LiteralCode, Variable};
use std::alloc::{AllocError, Global};
use total_tables::{at, put};

/// Conflicts from one change of the first values to the next.
const CHANGE_CONFLICTS: u32 = 500;

/// The variable had no value.
const NONE: u8 = 2;

/// What the first values of all variables become.
#[derive(Clone, Copy)]
enum Change {
    /// Those of the longest trail since this was the change.
    Best,
    /// True for the variables of the order and false for the others, as `Trail::new` has them.
    Begun,
    /// The opposite ones.
    Opposite,
}

/// The values of the longest trail without a conflict, by variable: 0 for true, 1 for false.
#[derive(Drop)]
struct LongestTrail {
    /// The length of that trail. At 0 the next trail is noted, however short.
    count: u32,
    /// For each variable its value, or `NONE`.
    values: Vec<u8>,
}

impl LongestTrail {
    fn new(alloc: Global, variables: u32) -> Result<LongestTrail, AllocError> {
        let places = variables.wrapping_add(1) as usize;
        Ok(LongestTrail {
            count: 0,
            values: vec![in alloc; NONE; places]?,
        })
    }

    /// Notes what is true on the trail up to this place, if that is more than before. What has no value there keeps the one from before.
    fn note(&mut self, trail: &Trail, count: u32) {
        if count <= self.count {
            return;
        }
        self.count = count;
        for place in 0..count {
            let literal = trail.literal(place);
            let value = if literal.is_positive() { 0 } else { 1 };
            let variable = literal.variable();
            put(self.values.as_mut_slice(), variable.number(), value);
        }
    }

    fn forget(&mut self) {
        self.count = 0;
        for value in self.values.iter_mut() {
            *value = NONE;
        }
    }
}

/// The first values of a search that shares what it learns. Decisions take the values of the longest trail since they were last changed, and else the
/// saved ones.
#[derive(Drop)]
pub(crate) struct FirstValues {
    /// The number of the search, which says how its values change.
    number: u32,
    /// The number of changes so far.
    changes: u32,
    /// The conflicts after which they change next.
    next_change: u32,
    /// The longest trail since the last change, whose values decisions take.
    target: LongestTrail,
    /// The longest trail since the last change to the best values. A change to others leaves it.
    best: LongestTrail,
}

impl FirstValues {
    pub(crate) fn new(
        alloc: Global,
        variables: u32,
        number: u32,
        conflicts: u32,
    ) -> Result<FirstValues, AllocError> {
        Ok(FirstValues {
            number,
            changes: 0,
            next_change: conflicts.wrapping_add(CHANGE_CONFLICTS),
            target: LongestTrail::new(alloc, variables)?,
            best: LongestTrail::new(alloc, variables)?,
        })
    }

    /// Notes the levels of the trail before the one at hand, in which there is a conflict. So it must be called before the search backtracks.
    pub(crate) fn note(&mut self, trail: &Trail) {
        let level = trail.level();
        if level == 0 {
            return;
        }
        let count = trail.limit(level.wrapping_sub(1));
        self.target.note(trail, count);
        self.best.note(trail, count);
    }

    /// Returns the literal of the variable that was true on the longest trail.
    #[inline(always)]
    pub(crate) fn target(&self, variable: Variable) -> Option<LiteralCode> {
        let value = at(self.target.values.as_slice(), variable.number(), NONE);
        if value == NONE {
            return None;
        }
        Some(LiteralCode::of(variable, value & 1 == 0))
    }

    /// Returns whether it is time for a change.
    pub(crate) fn are_to_change(&self, conflicts: u32) -> bool {
        conflicts >= self.next_change
    }

    /// The next change. Every second time it is the best values, and before it other ones, as the number has it.
    fn next(&self) -> Change {
        if self.changes % 2 == 1 {
            Change::Best
        } else if self.number % 2 == 0 {
            Change::Opposite
        } else {
            Change::Begun
        }
    }

    /// Changes the values of the trail, whose first variables are those of the order.
    pub(crate) fn change(&mut self, trail: &mut Trail, order_variables: u32, conflicts: u32) {
        match self.next() {
            Change::Best => {
                trail.try_first(self.best.values.as_slice());
                self.best.count = 0;
            }
            Change::Begun => trail.try_first_as_begun(order_variables),
            Change::Opposite => trail.try_opposite_first(),
        }
        self.target.forget();
        self.changes = self.changes.wrapping_add(1);
        self.next_change = conflicts.wrapping_add(CHANGE_CONFLICTS);
    }
}
