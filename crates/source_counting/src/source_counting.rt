//! Counting by a matching of updates and last writes with their possible sources.
//!
//! Past the end of a table `at` reads as its last argument, and `put` does nothing; so arithmetic may wrap, and a wrong place makes no fault. Numbers
//! behind those of all operations stand for locations: as a taker for the last write, and as a source for the initial value.

use crate::class_counts::takes_source;
use crate::source_takers::{LastInProcess, initial_of, location_of};
use numbered_log::{LocationId, NO_NUMBER, NOBODY, OperationId};
use order_propagation::Propagation;
use std::alloc::{AllocError, Global};
use total_tables::{at, put, size};

/// The result of counting.
#[derive(Drop)]
pub enum Counted {
    /// All have sources, or the budget for it was spent before.
    Enough,
    /// These updates, and behind all operations last writes by location, have fewer possible sources together than they are.
    TooFew(Vec<OperationId>),
}

/// A matching of takers, which are updates and last writes, with sources, which are operations and initial values.
struct SourceAssignment {
    last: LastInProcess,
    /// For each taker its source, or `NOBODY`.
    taken: Vec<OperationId>,
    /// For each source its taker, or `NOBODY`.
    taker: Vec<OperationId>,
    /// For each position of a writer one behind which the next free one may stand, found anew as it is asked for, so that a long run of sources
    /// that are taken is passed in few looks. An entry that is its own position has not been passed.
    free: Vec<u32>,
    /// For each source the turn in which it was seen last, and from which taker. Turns count from 1, and each taker that is matched has one.
    turns: Vec<u32>,
    from: Vec<OperationId>,
    turn: u32,
    /// The takers whose sources were all seen in this turn.
    seen: Vec<OperationId>,
    steps: u64,
}

/// Drops each table in one call. A derived `Drop` would drop each at every exit of a function that owns a assignment, which makes its proof longer.
impl Drop for SourceAssignment {
    fn drop(self) {
        let SourceAssignment {
            last: _last,
            taken: _taken,
            taker: _taker,
            free: _free,
            turns: _turns,
            from: _from,
            turn: _,
            seen: _seen,
            steps: _,
        } = self;
    }
}

/// Looks for updates and last writes that have too few possible sources, within a share of the order's budget. If the share is spent, the takers that were
/// not matched are taken to have sources.
pub fn count_sources(
    alloc: Global,
    order: &mut Propagation<'_>,
    most_steps: u64,
) -> Result<Counted, AllocError> {
    let mut assignment = SourceAssignment::new(alloc, order)?;
    let log = order.log();
    for location in log.location_ids() {
        if assignment.last.begin(location) < assignment.last.end(location)
            && !assignment.match_taker(order, order.final_reader(location))?
        {
            return assignment.too_few(alloc);
        }
    }
    for number in log.operation_ids() {
        if takes_source(log, number) && !assignment.match_taker(order, number)? {
            return assignment.too_few(alloc);
        }
        if assignment.steps > most_steps {
            break;
        }
    }
    order.spend(assignment.steps);
    Ok(Counted::Enough)
}

impl SourceAssignment {
    fn new(alloc: Global, order: &Propagation<'_>) -> Result<SourceAssignment, AllocError> {
        let log = order.log();
        let all = log.count().wrapping_add(log.locations()) as usize;
        let mut free = Vec::with_capacity(alloc, log.count() as usize)?;
        for position in 0..log.count().wrapping_add(1) {
            free.push(position)?;
        }
        Ok(SourceAssignment {
            last: LastInProcess::new(alloc, log)?,
            taken: vec![in alloc; NOBODY; all]?,
            taker: vec![in alloc; NOBODY; all]?,
            free,
            turns: vec![in alloc; 0; all]?,
            from: vec![in alloc; NOBODY; all]?,
            turn: 0,
            seen: Vec::new(alloc),
            steps: 0,
        })
    }

    /// The result that the takers which were seen in this turn have too few sources together: each of these has its taker among them, and the first taker
    /// has none.
    fn too_few(&self, alloc: Global) -> Result<Counted, AllocError> {
        Ok(Counted::TooFew(Vec::from_slice(alloc, self.seen.as_slice())?))
    }

    /// Finds a source for the taker, if need be by a way along which others change theirs. If there is none, the takers that were seen have too
    /// few. The search goes breadth first over `seen`, in which takers join behind.
    fn match_taker(
        &mut self,
        order: &Propagation<'_>,
        first: OperationId,
    ) -> Result<bool, AllocError> {
        self.turn = self.turn.wrapping_add(1);
        self.seen.clear();
        self.seen.push(first)?;
        let mut number: u32 = 0;
        for _ in 0..size(self.taken.as_slice()) {
            if number >= size(self.seen.as_slice()) {
                break;
            }
            let taker = at(self.seen.as_slice(), number, NOBODY);
            number = number.wrapping_add(1);
            let found = self.look_from(order, taker)?;
            if found != NOBODY {
                self.change(first, found);
                return Ok(true);
            }
        }
        Ok(false)
    }

    /// Gives the source to the taker from which it was seen, that one's to the taker before, up to the first.
    fn change(&mut self, first: OperationId, found: OperationId) {
        let mut source = found;
        for _ in 0..size(self.taken.as_slice()) {
            let taker = at(self.from.as_slice(), source.number(), NOBODY);
            // What this taker had goes to the one from which it was seen, so it is read before it changes.
            let next = at(self.taken.as_slice(), taker.number(), NOBODY);
            put(self.taken.as_mut_slice(), taker.number(), source);
            put(self.taker.as_mut_slice(), source.number(), taker);
            if taker == first || taker == NOBODY {
                break;
            }
            source = next;
        }
    }

    /// Sees the possible sources of the taker. Returns one that is free, or `NOBODY`.
    fn look_from(
        &mut self,
        order: &Propagation<'_>,
        taker: OperationId,
    ) -> Result<OperationId, AllocError> {
        if let Some(location) = location_of(order, taker) {
            return self.look_at_last(order, taker, location);
        }
        let location = order.log().operation(taker).location;
        if order.sources().has_initial(taker) {
            let found = self.see(initial_of(order, location), taker)?;
            if found != NOBODY {
                return Ok(found);
            }
        }
        // A free source of any run ends the search, so these come first. If there is none, all sources are seen with their takers.
        for run in 0..order.sources().intervals(taker) {
            let low = order.sources().low(taker, run);
            let high = order.sources().high(taker, run);
            let position = self.next_free(order, low, high);
            if position < high {
                return self.see(order.classes().writer(position), taker);
            }
        }
        for run in 0..order.sources().intervals(taker) {
            let low = order.sources().low(taker, run);
            for position in low..order.sources().high(taker, run) {
                let found = self.see(order.classes().writer(position), taker)?;
                if found != NOBODY {
                    return Ok(found);
                }
            }
        }
        Ok(NOBODY)
    }

    /// Sees the possible last writers of the location.
    fn look_at_last(
        &mut self,
        order: &Propagation<'_>,
        taker: OperationId,
        location: LocationId,
    ) -> Result<OperationId, AllocError> {
        for position in self.last.begin(location)..self.last.end(location) {
            let writer = self.last.writer(position);
            let is_possible = order.log().last(location).is_none()
                || order.may_read(order.final_reader(location), writer);
            if is_possible {
                let found = self.see(writer, taker)?;
                if found != NOBODY {
                    return Ok(found);
                }
            }
        }
        Ok(NOBODY)
    }

    /// Sees a source from the taker. Returns it if it is free; else its taker joins those from which is looked.
    fn see(&mut self, source: OperationId, taker: OperationId) -> Result<OperationId, AllocError> {
        self.steps = self.steps.wrapping_add(2);
        if at(self.turns.as_slice(), source.number(), self.turn) == self.turn {
            return Ok(NOBODY);
        }
        put(self.turns.as_mut_slice(), source.number(), self.turn);
        put(self.from.as_mut_slice(), source.number(), taker);
        let other = at(self.taker.as_slice(), source.number(), NOBODY);
        if other == NOBODY {
            return Ok(source);
        }
        self.seen.push(other)?;
        Ok(NOBODY)
    }

    /// The position of a free source, from one up to another, or one behind these. A source that was taken stays so.
    fn next_free(&mut self, order: &Propagation<'_>, low: u32, high: u32) -> u32 {
        let mut position = low;
        for _ in low..high {
            self.steps = self.steps.wrapping_add(1);
            if position >= high {
                break;
            }
            let next = at(self.free.as_slice(), position, NO_NUMBER);
            let writer = order.classes().writer(position);
            if next != position {
                let behind = at(self.free.as_slice(), next, next);
                put(self.free.as_mut_slice(), position, behind);
                position = next;
            } else if at(self.taker.as_slice(), writer.number(), NOBODY) != NOBODY {
                put(self.free.as_mut_slice(), position, position.wrapping_add(1));
                position = position.wrapping_add(1);
            } else {
                break;
            }
        }
        position
    }
}
