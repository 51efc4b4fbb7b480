//! Searches of one formula that differ in what they decide first.

use crate::first_values::FirstValues;
use crate::prepared_formula::PreparedFormula;
use crate::search::Search;
use crate::solving::begin;
use assignment_trail::Activities;
use proof_log::Attempt;
use std::alloc::{AllocError, Global};

/// How many searches share what they learn. The caller deals them to the leaves of a tree of depth 2, so a fifth would never run.
const SEATS: u32 = 4;

/// The seat whose first values are drawn.
const DRAWN_VALUES: u32 = 2;

/// The seat that tries false first.
const FALSE_FIRST: u32 = 3;

/// The first seat whose decisions take the values of its longest trail without a conflict. With two of them seven traces with a schedule took 339
/// thousand conflicts, with three seeds, instead of 534 thousand, and five without one 121 thousand instead of 119. With all four one of these took 52
/// thousand instead of 31.
const FIRST_CHASER: u32 = 2;

impl<'a> Search<'a> {
    /// From now on decisions take the values of the longest trail without a conflict, by the course that searches of this number take.
    fn chase_first_values(&mut self, number: u32) -> Result<(), AllocError> {
        let first_values = FirstValues::new(self.alloc, self.variables, number, self.conflicts)?;
        self.first_values = Some(first_values);
        Ok(())
    }
}

impl<'a> PreparedFormula<'a> {
    /// Begins a search of the formula itself that shares what it learns. Each number has its own order of decisions and values that are tried
    /// first; none decides the variables of the splits before others.
    fn begin_seat(&self, alloc: Global, number: u32) -> Result<Search<'a>, AllocError> {
        let mut search = begin(alloc, self, &[])?;
        search.leading.clear();
        search.activities = Activities::new(alloc, search.variables, self.wanted.as_slice())?;
        search.activities.stir(number);
        if number == DRAWN_VALUES {
            search.trail.trail.draw_first_values(number);
        }
        if number == FALSE_FIRST {
            search.trail.trail.try_false_first();
        }
        if number >= FIRST_CHASER {
            search.chase_first_values(number)?;
        }
        search.begin_to_share();
        Ok(search)
    }

    /// Returns the search that `search_whole` has left open, and behind it three others of the formula itself, which have not begun. All share what
    /// they learn.
    pub fn begin_seats(
        &self,
        alloc: Global,
        first: Attempt<Search<'a>>,
    ) -> Result<Vec<Attempt<Search<'a>>>, AllocError> {
        // The logs of the others are empty. When a round begins, the caller gives each log ids of its own.
        let next = first.log.next_id();
        let mut seats = Vec::with_capacity(alloc, SEATS as usize)?;
        seats.push(first)?;
        for number in 1..SEATS {
            let search = self.begin_seat(alloc, number)?;
            seats.push(Attempt::new(alloc, search, next))?;
        }
        for seat in seats.iter_mut() {
            seat.begin_rounds();
        }
        Ok(seats)
    }
}
