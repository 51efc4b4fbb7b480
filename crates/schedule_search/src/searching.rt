//! The search for a schedule: a walk, beams, and then windows and walks.
//!
//! A budget counts looks at entries of tables. Rows are those of `Propagation`: after a window is cut off they have its guesses until
//! `propagate_in_rounds` makes them anew.

use crate::beams::try_beams;
use crate::counted_cores::{operations_of, takers_of_class};
use crate::estimated_places::EstimatedPlaces;
use crate::first_propagation::propagate_at_first;
use crate::guessed_windows::guess_window;
use conflict_analysis::{Learning, core_of_conflict};
use numbered_log::{Budget, NumberedLog, OperationId};
use order_propagation::{Propagated, Propagation, TrailMark};
use placing_walk::{Deciding, PlacingWalk, WalkEnding, has_many_updates};
use source_counting::{Counted, count_sources, crowded_class};
use std::alloc::{AllocError, Global};
use total_tables::{at, size};

/// The end of a search.
#[derive(Clone, Copy, PartialEq, Eq)]
pub enum SearchEnding {
    /// There is a schedule.
    Scheduled,
    /// The log contradicts itself, without guesses.
    Refuted,
    /// Neither was found.
    Unknown,
}

/// A window whose guesses have met no conflict: the trail with them, and its width as a number of places among all operations.
#[derive(Clone, Copy)]
struct StandingWindow {
    mark: TrailMark,
    width: u32,
}

/// A search for a schedule, and what it has found.
pub struct ScheduleSearch {
    /// Windows that stand, each on top of the one before.
    windows: Vec<StandingWindow>,
    schedule: Vec<OperationId>,
    /// If the log was refuted, the operations that the reasons of that name.
    core: Option<Vec<OperationId>>,
    /// What all walks without guesses have learned: the pairs of no decision that their clauses left stay in the order, and name them.
    learning: Option<Learning>,
    /// Whether the order has guesses.
    is_guessing: bool,
    /// If counting by the order has refuted it, the updates and last writes that have too few sources.
    takers: Option<Vec<OperationId>>,
    most_placed: u32,
}

/// Drops each table in one call. A derived `Drop` would drop each at every exit of a function that owns a search, which makes its proof longer.
impl Drop for ScheduleSearch {
    fn drop(self) {
        let ScheduleSearch {
            windows: _windows,
            schedule: _schedule,
            core: _core,
            learning: _learning,
            takers: _takers,
            is_guessing: _,
            most_placed: _,
        } = self;
    }
}

/// The most windows that are made narrower than the one before. With the first one there is one window more.
const MOST_NARROWINGS: u32 = 12;

/// The conflicts after which a walk gives up that decides only when it is stuck, and one that decides always.
const FEW_CONFLICTS: u32 = 3000;

const MANY_CONFLICTS: u32 = 200_000;

/// The number of clauses learned last of which a walk that decides always decides a literal first.
const LAST_CLAUSES: u32 = 5;

/// The same of the last walk.
const MORE_CLAUSES: u32 = 20;

/// Number of places from its front up to which a walk that decides always looks at readers, and the least if many operations are updates. So it
/// comes to 2 to 3 times the conflicts for each look.
const REACH: u32 = 20;

const SHORT_REACH: u32 = 6;

/// The operations of all processes together that are in reach then.
const IN_REACH: u32 = 100;

/// Number of places from its front up to which a walk of this log looks.
fn reach_of(log: &NumberedLog) -> u32 {
    let processes = log.processes();
    if processes == 0 || !has_many_updates(log) {
        return REACH;
    }
    (IN_REACH / processes).max(SHORT_REACH).min(REACH)
}

/// The share of the budget that the first walk has which decides always, as a part of one. It is small: of recorded logs of 2 to 8 values this
/// walk decides few, and with a fourth of the budget it took nine tenths of the time of those that windows decide. What it decides with more,
/// the last walk decides too. It returns the number by which the budget is divided.
fn first_part(log: &NumberedLog) -> u64 {
    if has_many_updates(log) { 8 } else { 32 }
}

/// The number of windows that are tried after all others.
const OTHER_WINDOWS: u32 = 5;

/// The width of the window that is tried as the one of this number after all others, given that of the first that stood. In fourths of that: it is 1.5, 2,
/// 0.75, 3 and 4 times as wide.
fn other_width(number: u32, first: u32) -> u32 {
    let fourths: u32 = match number {
        0 => 6,
        1 => 8,
        2 => 3,
        3 => 12,
        _ => 16,
    };
    (first / 4).saturating_mul(fourths)
}

/// How a walk goes about it.
#[derive(Clone, Copy)]
struct Manner {
    deciding: Deciding,
    /// The number by which the budget is divided to give its share: 3 for a third, and 1 for all.
    part: u64,
}

/// A walk with few decisions.
fn when_stuck(part: u64) -> Manner {
    Manner {
        deciding: Deciding::WhenStuck,
        part,
    }
}

/// A walk that decides always, first a literal of this number of clauses that were learned last.
fn learning(clauses: u32, part: u64) -> Manner {
    Manner {
        deciding: Deciding::Always(clauses),
        part,
    }
}

impl ScheduleSearch {
    /// A search that has not begun.
    pub fn new(alloc: Global) -> ScheduleSearch {
        ScheduleSearch {
            windows: Vec::new(alloc),
            schedule: Vec::new(alloc),
            core: None,
            learning: None,
            takers: None,
            is_guessing: false,
            most_placed: 0,
        }
    }

    /// The schedule that was found.
    pub fn schedule(&self) -> &[OperationId] {
        self.schedule.as_slice()
    }

    /// Operations whose part, with all possible sources of its readers, should have no legal schedule; none if nothing was refuted, or if there
    /// was no room for its reasons.
    pub fn core(&self) -> Option<&[OperationId]> {
        match &self.core {
            Some(core) => Some(core.as_slice()),
            None => None,
        }
    }

    /// Gives what walks have learned of the log; none if nothing was walked over.
    pub fn learned(&self) -> Option<&Learning> {
        match &self.learning {
            Some(learning) => Some(learning),
            None => None,
        }
    }

    /// The updates and last writes by which counting has refuted the log, after the order had dropped sources; none if it has not.
    pub fn takers(&self) -> Option<&[OperationId]> {
        match &self.takers {
            Some(takers) => Some(takers.as_slice()),
            None => None,
        }
    }

    /// The largest number of operations that a walk has placed, by which a survey says how far it came. What beams have placed does not count.
    pub fn most_placed(&self) -> u32 {
        self.most_placed
    }

    /// Propagates, walks, tries beams and then windows, and walks again. If many readers have several sources and propagation takes long, it is
    /// cut, and taken up again behind the windows: most schedules of such logs come of windows, in which it takes less. A hint, operations in an
    /// order in which a schedule may have them, has windows of its own, which come first.
    pub fn run(
        &mut self,
        alloc: Global,
        order: &mut Propagation<'_>,
        hint: &[OperationId],
    ) -> Result<SearchEnding, AllocError> {
        if let Some(class) = crowded_class(alloc, order.log(), order.classes())? {
            self.core = Some(takers_of_class(alloc, order.log(), order.classes(), class)?);
            return Ok(SearchEnding::Refuted);
        }
        let places = EstimatedPlaces::of_equal_pace(alloc, order.log())?;
        let mut propagated = propagate_at_first(order)?;
        if propagated == Propagated::Done && self.has_too_few_sources(alloc, order)? {
            return Ok(SearchEnding::Refuted);
        }
        if propagated != Propagated::Conflict && !hint.is_empty() {
            if self.try_hint(alloc, order, hint)? {
                return Ok(SearchEnding::Scheduled);
            }
            // The rows still have the guesses of the hint.
            propagated = propagate_at_first(order)?;
        }
        if propagated == Propagated::Conflict {
            self.core = core_of_conflict(alloc, order)?;
            return Ok(SearchEnding::Refuted);
        }
        if propagated == Propagated::Done {
            let found = self.walk_at_first(alloc, order, &places)?;
            if let Some(ending) = search_ending(found) {
                return Ok(ending);
            }
        }
        if let Some(schedule) = try_beams(alloc, order)? {
            self.schedule = schedule;
            return Ok(SearchEnding::Scheduled);
        }
        let rest = keep_a_fourth(order);
        // The width of the first window, which `widen` doubles.
        let narrow = order.log().processes().wrapping_mul(4);
        let found = self.try_windows(alloc, order, &places, narrow)?;
        give_back(order, rest);
        if found == SearchEnding::Scheduled {
            return Ok(found);
        }
        self.walk_at_last(alloc, order, &places)
    }

    /// Tries windows around the places of the hint, from no width on, with half of the budget: a hint that is wrong costs no more. Returns
    /// whether there is a schedule.
    fn try_hint(
        &mut self,
        alloc: Global,
        order: &mut Propagation<'_>,
        hint: &[OperationId],
    ) -> Result<bool, AllocError> {
        let places = EstimatedPlaces::of_hint(alloc, order.log(), hint)?;
        let rest = keep_all_but(order, 2);
        let found = self.try_windows(alloc, order, &places, 0)?;
        give_back(order, rest);
        Ok(found == SearchEnding::Scheduled)
    }

    /// Returns whether updates have too few sources, by what the order has dropped, and notes them. That is asked within a small part of the
    /// budget.
    fn has_too_few_sources(
        &mut self,
        alloc: Global,
        order: &mut Propagation<'_>,
    ) -> Result<bool, AllocError> {
        let steps = order.budget().left() / 32;
        match count_sources(alloc, order, steps)? {
            Counted::Enough => Ok(false),
            Counted::TooFew(takers) => {
                self.core = Some(operations_of(alloc, order.log(), takers.as_slice())?);
                self.takers = Some(takers);
                Ok(true)
            }
        }
    }

    /// Walks with few decisions if few readers are open, and then with many.
    fn walk_at_first(
        &mut self,
        alloc: Global,
        order: &mut Propagation<'_>,
        places: &EstimatedPlaces,
    ) -> Result<WalkEnding, AllocError> {
        if order.undecided() <= order.log().count() / 20 {
            let rows = EstimatedPlaces::of_rows(alloc, order)?;
            let found = self.walk(alloc, order, &rows, when_stuck(3))?;
            if found != WalkEnding::GivenUp {
                return Ok(found);
            }
        }
        let part = first_part(order.log());
        self.walk(alloc, order, places, learning(LAST_CLAUSES, part))
    }

    /// Makes the rows anew, without guesses, and walks with the rest of the budget.
    fn walk_at_last(
        &mut self,
        alloc: Global,
        order: &mut Propagation<'_>,
        places: &EstimatedPlaces,
    ) -> Result<SearchEnding, AllocError> {
        match order.propagate_in_rounds()? {
            Propagated::Conflict => {
                let mut learning = self.begin_learning(alloc, order)?;
                self.core = learning.core_of_conflict(alloc, order)?;
                if learning.clauses.count() != 0 {
                    self.learning = Some(learning);
                }
                return Ok(SearchEnding::Refuted);
            }
            Propagated::Spent => return Ok(SearchEnding::Unknown),
            Propagated::Done => {}
        }
        let manner = learning(MORE_CLAUSES, 1);
        let found = self.walk(alloc, order, places, manner)?;
        match search_ending(found) {
            Some(ending) => Ok(ending),
            None => Ok(SearchEnding::Unknown),
        }
    }

    /// Walks with this share of the budget, as a part of one, and takes all decisions back.
    fn walk(
        &mut self,
        alloc: Global,
        order: &mut Propagation<'_>,
        places: &EstimatedPlaces,
        manner: Manner,
    ) -> Result<WalkEnding, AllocError> {
        let rest = keep_all_but(order, manner.part);
        let mut most = MANY_CONFLICTS;
        if manner.deciding == Deciding::WhenStuck {
            most = FEW_CONFLICTS;
        }
        if manner.deciding != Deciding::WhenStuck {
            let reach = reach_of(order.log());
            order.set_reach(reach);
        }
        let learning = self.begin_learning(alloc, order)?;
        let manners = (manner.deciding, most);
        let mut walk = PlacingWalk::new(alloc, order, places.as_slice(), manners, learning)?;
        let ending = walk.run(alloc, order)?;
        give_back(order, rest);
        self.most_placed = self.most_placed.max(walk.most_placed());
        if ending == WalkEnding::Scheduled {
            self.schedule = Vec::from_slice(alloc, walk.placed())?;
        }
        // This needs the conflict and its pairs, so it comes before decisions are taken back.
        if !self.is_guessing && ending == WalkEnding::Refuted {
            self.core = walk.find_core(alloc, order)?;
        }
        self.keep_learning(walk.into_learning());
        order.set_reach(0);
        order.take_back(0);
        Ok(ending)
    }

    /// Takes the clauses that walks have learned so far; none if the order has guesses, on which clauses then rest.
    fn begin_learning(
        &mut self,
        alloc: Global,
        order: &Propagation<'_>,
    ) -> Result<Learning, AllocError> {
        if !self.is_guessing {
            if let Some(learning) = self.learning.take() {
                return Ok(learning);
            }
        }
        Learning::new(alloc, order.log().count())
    }

    /// Keeps what was learned, unless the order has guesses.
    fn keep_learning(&mut self, learning: Learning) {
        if !self.is_guessing {
            self.learning = Some(learning);
        }
    }

    /// Tries windows around the places, from this width on, all of whose decisions are guesses. A window has each operation stand before all others
    /// whose estimated place is further behind its own than the width, a number of places among all operations. That leaves less to search, and it
    /// may be wrong, so nothing but a schedule comes of it.
    fn try_windows(
        &mut self,
        alloc: Global,
        order: &mut Propagation<'_>,
        places: &EstimatedPlaces,
        narrow: u32,
    ) -> Result<SearchEnding, AllocError> {
        self.is_guessing = true;
        self.windows.clear();
        let found = self.widen_and_narrow(alloc, order, places, narrow)?;
        self.is_guessing = false;
        Ok(found)
    }

    /// Makes windows wider until one stands, then places smaller ones on top, and walks in the smallest.
    fn widen_and_narrow(
        &mut self,
        alloc: Global,
        order: &mut Propagation<'_>,
        places: &EstimatedPlaces,
        narrow: u32,
    ) -> Result<SearchEnding, AllocError> {
        let base = order.mark();
        let widest = order.log().count().wrapping_mul(2);
        if !self.widen(order, places, base, (narrow, widest))? {
            return Ok(SearchEnding::Unknown);
        }
        for _ in 0..MOST_NARROWINGS {
            if order.undecided() < order.log().count() / 10 {
                let rows = EstimatedPlaces::of_rows(alloc, order)?;
                let found = self.walk(alloc, order, &rows, when_stuck(5))?;
                if found == WalkEnding::Scheduled {
                    return Ok(SearchEnding::Scheduled);
                }
            }
            if !self.narrow_down(alloc, order)? {
                break;
            }
        }
        let first = at(self.windows.as_slice(), 0, self.last_window(order)).width;
        let mut ending = self.walk_in_windows(alloc, order)?;
        if ending != SearchEnding::Scheduled {
            ending = self.walk_in_others(alloc, order, places, (base, first))?;
        }
        order.cut_to(base);
        Ok(ending)
    }

    /// Tries windows on top of what stands at the mark, from the narrowest, each twice as wide as the one before. Returns whether one stands. `widths` are
    /// the first width and the one from which on none is tried.
    fn widen(
        &mut self,
        order: &mut Propagation<'_>,
        places: &EstimatedPlaces,
        base: TrailMark,
        widths: (u32, u32),
    ) -> Result<bool, AllocError> {
        let mut width = widths.0;
        for _ in 0..32 {
            if width >= widths.1 {
                break;
            }
            order.cut_to(base);
            match guess_window(order, places, width)? {
                Propagated::Done => {
                    let mark = order.mark();
                    self.windows.push(StandingWindow { mark, width })?;
                    return Ok(true);
                }
                Propagated::Spent => break,
                Propagated::Conflict => {}
            }
            width = width.saturating_mul(2).max(order.log().processes());
        }
        order.cut_to(base);
        Ok(false)
    }

    /// Places a narrower window on top of the last, around the places that its rows give. Returns whether one stands.
    fn narrow_down(
        &mut self,
        alloc: Global,
        order: &mut Propagation<'_>,
    ) -> Result<bool, AllocError> {
        let last = self.last_window(order);
        let places = EstimatedPlaces::of_rows(alloc, order)?;
        let least = order.log().processes().wrapping_mul(2);
        let narrow = (last.width / 32).max(least);
        let widest = last.width.wrapping_sub(last.width / 4);
        self.widen(order, &places, last.mark, (narrow, widest))
    }

    /// The window that stands on top; if there is none, one of no width at the point that the trail has reached.
    fn last_window(&self, order: &Propagation<'_>) -> StandingWindow {
        let nothing = StandingWindow {
            mark: order.mark(),
            width: 0,
        };
        let last = size(self.windows.as_slice()).wrapping_sub(1);
        at(self.windows.as_slice(), last, nothing)
    }

    /// Walks in each window that stands, from the narrowest back.
    fn walk_in_windows(
        &mut self,
        alloc: Global,
        order: &mut Propagation<'_>,
    ) -> Result<SearchEnding, AllocError> {
        for _ in 0..=MOST_NARROWINGS {
            let window = self.last_window(order);
            // What is left is divided by this for each of the two walks, so that something is left for the wider windows.
            let part = (size(self.windows.as_slice()) as u64).saturating_add(2);
            if self.windows.pop().is_none() {
                break;
            }
            order.cut_to(window.mark);
            match order.propagate_in_rounds()? {
                Propagated::Spent => break,
                Propagated::Conflict => {}
                Propagated::Done => {
                    if self.walk_both_ways(alloc, order, part)? {
                        return Ok(SearchEnding::Scheduled);
                    }
                }
            }
        }
        Ok(SearchEnding::Unknown)
    }

    /// Walks in the window that stands, first with few decisions and then with many. Returns whether there is a schedule.
    fn walk_both_ways(
        &mut self,
        alloc: Global,
        order: &mut Propagation<'_>,
        part: u64,
    ) -> Result<bool, AllocError> {
        let rows = EstimatedPlaces::of_rows(alloc, order)?;
        let found = self.walk(alloc, order, &rows, when_stuck(part))?;
        if found == WalkEnding::Scheduled {
            return Ok(true);
        }
        let found = self.walk(alloc, order, &rows, learning(LAST_CLAUSES, part))?;
        Ok(found == WalkEnding::Scheduled)
    }

    /// Walks in windows of other widths than that of the first that stood: which one holds a schedule that is soon found is luck.
    fn walk_in_others(
        &mut self,
        alloc: Global,
        order: &mut Propagation<'_>,
        places: &EstimatedPlaces,
        first: (TrailMark, u32),
    ) -> Result<SearchEnding, AllocError> {
        for number in 0..OTHER_WINDOWS {
            order.cut_to(first.0);
            match guess_window(order, places, other_width(number, first.1))? {
                Propagated::Spent => break,
                Propagated::Conflict => {}
                Propagated::Done => {
                    let rows = EstimatedPlaces::of_rows(alloc, order)?;
                    let manner = learning(LAST_CLAUSES, 3);
                    if self.walk(alloc, order, &rows, manner)? == WalkEnding::Scheduled {
                        return Ok(SearchEnding::Scheduled);
                    }
                }
            }
        }
        Ok(SearchEnding::Unknown)
    }
}

/// Returns whether the log is refuted without guesses, by propagation or by a walk that decides always.
pub fn is_refuted_by_walk(alloc: Global, order: &mut Propagation<'_>) -> Result<bool, AllocError> {
    match order.propagate_in_rounds()? {
        Propagated::Conflict => return Ok(true),
        Propagated::Spent => return Ok(false),
        Propagated::Done => {}
    }
    let places = EstimatedPlaces::of_equal_pace(alloc, order.log())?;
    let manner = (Deciding::Always(LAST_CLAUSES), MANY_CONFLICTS);
    let learning = Learning::new(alloc, order.log().count())?;
    let mut walk = PlacingWalk::new(alloc, order, places.as_slice(), manner, learning)?;
    Ok(walk.run(alloc, order)? == WalkEnding::Refuted)
}

/// The end of the search if a walk outside of windows has ended like this.
fn search_ending(found: WalkEnding) -> Option<SearchEnding> {
    match found {
        WalkEnding::Scheduled => Some(SearchEnding::Scheduled),
        WalkEnding::Refuted => Some(SearchEnding::Refuted),
        WalkEnding::GivenUp => None,
    }
}

/// Leaves to the order a share of its budget, as a part of one, and returns the rest. The share is the budget divided by `part`. What is returned must come
/// back by `give_back`, or it is lost.
pub(crate) fn keep_all_but(order: &mut Propagation<'_>, part: u64) -> Budget {
    let mut rest = order.budget();
    let mut steps = rest.left();
    if part != 0 {
        steps /= part;
    }
    let share = rest.share(steps);
    order.set_budget(share);
    rest
}

/// Leaves to the order three fourths of its budget, and returns the rest, for the walk after the windows: what windows say rests on guesses, so
/// they refute nothing.
fn keep_a_fourth(order: &mut Propagation<'_>) -> Budget {
    let mut rest = order.budget();
    let steps = rest.left();
    let share = rest.share(steps.saturating_sub(steps / 4));
    order.set_budget(share);
    rest
}

/// Gives the rest of the budget back to the order.
pub(crate) fn give_back(order: &mut Propagation<'_>, rest: Budget) {
    let mut whole = rest;
    whole.give_back(order.budget());
    order.set_budget(whole);
}
