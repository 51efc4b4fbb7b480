//! Decisions along a schedule.

use assignment_trail::{FALSE, OrderedTrail};
use clause_database::ReadsFromTable;
use order_sets::{Element, ElementSets, next_element};
use proof_log::codes::{LiteralCode, Variable};
use std::alloc::{AllocError, Global};
use total_tables::{at, put};

/// Score of a plain read as the next element: it changes nothing, so it costs nothing to let it be next.
const PLAIN_READ: u32 = 2000;

/// Score of an element after which another one is ready that may read what it writes. An update after which nothing fits is the end of a
/// schedule.
const FOLLOWED: u32 = 1000;

/// The prefix of a schedule: the elements one after the other, while their order is known. The next decision says which element comes next,
/// and prefers one whose value fits what was written last.
///
/// The learned clauses then are nogoods of states, so there is an end once each state has one, as with locks that are acquired and
/// released. If there are many states it finds no end, so this search has its turns with the other. With these scores and short restarts
/// 176 recorded runs of 32 to 96 updates took 19 conflicts (geometric mean) where they had taken 702.
#[derive(Drop)]
pub struct ScheduleHeuristic {
    /// For each element the number of elements that stand after it from the start.
    rests: Vec<u32>,
    /// For each location, named by an element, the element that has written it last, or none.
    last: Vec<Element>,
    /// The elements so far, as a set of element 0, and the ready ones, as one of element 1.
    sets: ElementSets,
    /// The number of restarts, which `chance` mixes in.
    restarts: u32,
}

/// Number of states from which on there are too many nogoods of states to be learned.
pub const MAX_STATES: u32 = 1 << 14;

/// Returns a bound on the number of states of schedules, where a state is which elements have been placed. Elements whose numbers follow
/// one another and that stand in this order are a process, of which a prefix has been placed.
fn states(trail: &OrderedTrail<'_>) -> u32 {
    let behind = trail.order().successors();
    let mut states: u32 = 1;
    // One more than the elements of the process at hand. For element 0 the look before the first element finds nothing.
    let mut prefixes: u32 = 1;
    for number in 0..trail.order().elements() {
        let element = Element::new(number);
        if behind.has(element.previous(), element) {
            prefixes = prefixes.wrapping_add(1);
        } else {
            states = states.saturating_mul(prefixes);
            prefixes = 2;
        }
    }
    states.saturating_mul(prefixes)
}

/// Returns whether fewer than half of the events can come first. If all processes are short, a schedule says little.
fn has_long_processes(trail: &OrderedTrail<'_>) -> bool {
    let elements = trail.order().elements();
    let mut first: u32 = 0;
    for element in 0..elements {
        if trail.order().predecessors().count(Element::new(element)) == 0 {
            first = first.wrapping_add(1);
        }
    }
    first.wrapping_mul(2) < elements
}

/// Returns whether more than half of the events are read-modify-writes.
fn are_mostly_updates(trail: &OrderedTrail<'_>) -> bool {
    let Some(reads_from) = trail.reads_from else {
        return false;
    };
    let elements = reads_from.elements();
    let mut updates: u32 = 0;
    for number in 0..elements {
        let element = Element::new(number);
        if reads_from.is_update(element) {
            updates = updates.wrapping_add(1);
        }
    }
    updates.wrapping_mul(2) > elements
}

/// Returns whether a search begins with decisions along a schedule. What an update reads, and so where it may come next, the last one before it
/// alone decides, so a schedule that goes on with a value which fits may be right at once.
pub fn begins_with_a_schedule(trail: &OrderedTrail<'_>) -> bool {
    are_mostly_updates(trail) && has_long_processes(trail)
}

/// Returns whether a search along a schedule may be the better one of two: most elements are updates, or there are not too many states. If so, it takes
/// turns with a search that decides by activity, and `begins_with_a_schedule` says which has the first turn.
pub fn suits_a_schedule(trail: &OrderedTrail<'_>) -> bool {
    trail.reads_from.is_some()
        && has_long_processes(trail)
        && (are_mostly_updates(trail) || states(trail) < MAX_STATES)
}

/// The owner of the set of elements so far.
const PLACED: Element = Element::FIRST;

/// The owner of the set of ready elements.
const READY: Element = Element::SECOND;

impl ScheduleHeuristic {
    /// Starts with an empty prefix. The order that is implied at level 0 is imported from the trail.
    pub fn new(alloc: Global, trail: &OrderedTrail<'_>) -> Result<ScheduleHeuristic, AllocError> {
        let elements = trail.order().elements();
        let mut rests = Vec::with_capacity(alloc, elements as usize)?;
        for element in 0..elements {
            rests.push(trail.order().successors().count(Element::new(element)))?;
        }
        Ok(ScheduleHeuristic {
            rests,
            last: vec![in alloc; Element::NONE; elements as usize]?,
            sets: ElementSets::new(alloc, elements)?,
            restarts: 0,
        })
    }

    /// Has the next prefixes take other ways, after a restart.
    pub fn vary(&mut self) {
        self.restarts = self.restarts.wrapping_add(1);
    }

    /// Returns whether all predecessors of the event are placed.
    #[inline(always)]
    fn can_be_next(&self, trail: &OrderedTrail<'_>, element: Element) -> bool {
        for number in 0..self.sets.words() {
            let before = trail.order().predecessors().word(element, number);
            if before & !self.sets.word(PLACED, number) != 0 {
                return false;
            }
        }
        true
    }

    /// Empties the prefix. It is made anew at each decision, from the order alone, so nothing of it has to be taken back when the trail is.
    fn begin(&mut self, trail: &OrderedTrail<'_>) {
        for number in 0..self.sets.words() {
            self.sets.set_word(PLACED, number, 0);
            self.sets.set_word(READY, number, 0);
        }
        for last in self.last.iter_mut() {
            *last = Element::NONE;
        }
        for number in 0..trail.order().elements() {
            let element = Element::new(number);
            if self.can_be_next(trail, element) {
                self.sets.insert(READY, element);
            }
        }
    }

    /// Appends the event to the prefix. Only what stands after it can become ready.
    fn place(&mut self, trail: &OrderedTrail<'_>, reads_from: &ReadsFromTable, element: Element) {
        self.sets.take_out(READY, element);
        self.sets.insert(PLACED, element);
        if reads_from.writes(element) {
            let location = reads_from.location(element);
            put(self.last.as_mut_slice(), location.number(), element);
        }
        for number in 0..self.sets.words() {
            let mut freed = trail.order().successors().word(element, number);
            for _ in 0..64 {
                let Some(other) = next_element(&mut freed, number) else {
                    break;
                };
                if self.can_be_next(trail, other) {
                    self.sets.insert(READY, other);
                }
            }
        }
    }

    /// Returns whether the event reads nothing, or may read the last write of the prefix.
    fn fits(
        &self,
        trail: &OrderedTrail<'_>,
        reads_from: &ReadsFromTable,
        element: Element,
    ) -> bool {
        if !reads_from.reads(element) {
            return true;
        }
        let location = reads_from.location(element).number();
        let last = at(self.last.as_slice(), location, Element::NONE);
        let choice = if last == Element::NONE {
            reads_from.variable_without_writer(element)
        } else {
            reads_from.variable(element, last)
        };
        choice != Variable::NONE && trail.value(choice.positive()) != FALSE
    }

    /// Returns how many events are ready after this one and may read what it writes. For the count it is placed and taken out again.
    fn followers(&mut self, trail: &OrderedTrail<'_>, element: Element) -> u32 {
        let mut followers: u32 = 0;
        self.sets.insert(PLACED, element);
        for number in 0..self.sets.words() {
            let placed = self.sets.word(PLACED, number);
            let mut readers = trail.candidates.readers.word(element, number) & !placed;
            for _ in 0..64 {
                let Some(reader) = next_element(&mut readers, number) else {
                    break;
                };
                if self.can_be_next(trail, reader) {
                    followers = followers.wrapping_add(1);
                }
            }
        }
        self.sets.take_out(PLACED, element);
        followers
    }

    /// Returns a number below 4, 0 before the first restart, and another one after each. Most ways to begin lead to a schedule soon, and
    /// some to none for very long: these heavy tails are cut if each restart takes another way (Gomes, Selman and Kautz, "Boosting
    /// combinatorial search through randomization", 1998). It is mixed from both numbers and not drawn, so that a run can be repeated.
    fn chance(&self, element: Element) -> u32 {
        if self.restarts == 0 {
            return 0;
        }
        let mixed = element.next().number().wrapping_mul(0x9e37_79b1)
            ^ self.restarts.wrapping_mul(0x85eb_ca6b);
        (mixed ^ (mixed >> 15)).wrapping_mul(0x2c1b_3c6d) >> 30
    }

    /// Returns the score of the event as the next one, at least 1. The more elements stand after it, the higher it is; the chance is below 4, so it
    /// decides between near ones alone.
    fn worth(
        &mut self,
        trail: &OrderedTrail<'_>,
        reads_from: &ReadsFromTable,
        element: Element,
    ) -> u32 {
        let rest = at(self.rests.as_slice(), element.number(), 0);
        let worth = rest.wrapping_add(self.chance(element)).wrapping_add(1);
        if !reads_from.writes(element) {
            return worth.wrapping_add(PLAIN_READ);
        }
        let followers = self.followers(trail, element);
        if followers == 0 {
            return worth;
        }
        worth.wrapping_add(followers).wrapping_add(FOLLOWED)
    }

    /// Returns the first other event that can be next. A decision needs one: it is a literal that puts the event before this rival.
    fn rival_of(&self, element: Element) -> Option<Element> {
        for number in 0..self.sets.words() {
            let mut ready = self.sets.word(READY, number);
            for _ in 0..64 {
                let Some(other) = next_element(&mut ready, number) else {
                    break;
                };
                if other != element {
                    return Some(other);
                }
            }
        }
        None
    }

    /// Returns the order literal that puts the best ready event before another ready one, if there are two. If none fits, the state is a
    /// dead end, and any of them leads to the conflict that says so. Of two ready events neither is known to stand before the other, since all that stands
    /// before a ready one is placed: so the literal is open, as a decision must be.
    fn best(
        &mut self,
        trail: &OrderedTrail<'_>,
        reads_from: &ReadsFromTable,
    ) -> Option<LiteralCode> {
        let mut best = None;
        let mut most: u32 = 0;
        for number in 0..self.sets.words() {
            let mut ready = self.sets.word(READY, number);
            for _ in 0..64 {
                let Some(element) = next_element(&mut ready, number) else {
                    break;
                };
                let Some(other) = self.rival_of(element) else {
                    break;
                };
                // An event that does not fit has the lowest score, but one above none at all.
                let mut worth = 1;
                if self.fits(trail, reads_from, element) {
                    worth = self.worth(trail, reads_from, element).wrapping_add(1);
                }
                if worth > most {
                    most = worth;
                    best = Some(trail.before(element, other));
                }
            }
        }
        best
    }

    /// Returns the next decision: which of two ready events comes first. None if only one is ready at each place, or if that one does
    /// not fit.
    pub fn decide(&mut self, trail: &OrderedTrail<'_>) -> Option<LiteralCode> {
        let reads_from = trail.reads_from?;
        self.begin(trail);
        for _ in 0..trail.order().elements() {
            if self.sets.count(READY) != 1 {
                return self.best(trail, reads_from);
            }
            let element = self.sets.first(READY)?;
            if !self.fits(trail, reads_from, element) {
                return None;
            }
            self.place(trail, reads_from, element);
        }
        None
    }
}
