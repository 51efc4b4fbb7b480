//! A new pair and the rows that it changes.
//!
//! Places of a process count from 1; `START` is before all of them and `FAR` behind. `rows.before(o, p)` is the place of the last operation of p that
//! stands before o, or `START`, and `rows.after(o, p)` that of the first one that stands after it, or the place behind the last of p.
//!
//! An access hides a source from a reader if it stands between the two: the reader cannot have its value from there then (`HidingAccesses`).

use crate::conflict::{Conflict, Stop};
use crate::propagation::Propagation;
use crate::waking::cost_of;
use closed_rows::{PairReason, RowEntry, RowKind};
use numbered_log::{LocationId, OperationId, ProcessId, ProcessPlace};
use std::alloc::AllocError;

impl<'a> Propagation<'a> {
    /// Adds the pair of which the first operation must stand before the second. If the budget is spent, it is left out, and so is a pair that the
    /// rows have already. The rows of both operations have to be complete, and all news has to be noted, before the first row changes.
    pub fn add(
        &mut self,
        first: OperationId,
        second: OperationId,
        reason: PairReason,
    ) -> Result<(), Stop> {
        if first == second || self.stands_before(second, first) {
            return self.stop_at_cycle(first, second, reason);
        }
        if self.stands_before(first, second) || self.budget.is_spent() {
            return Ok(());
        }
        self.catch_up(first)?;
        self.catch_up(second)?;
        if self.is_reaching() && self.closes_cycle(first, second) {
            return self.stop_at_far_cycle(first, second, reason);
        }
        self.store(first, second, reason)?;
        self.rows.begin_pair(self.log, first, second)?;
        // What stands after the second operation begins in each process at a ceiling: these rows are raised to the floors. What stands before the
        // first one ends in each process at a floor: these rows are lowered to the ceilings.
        for number in 0..self.rows.ceilings().count() {
            let bound = self.rows.ceilings().entry(number);
            self.raise_from(bound, first)?;
        }
        for number in 0..self.rows.floors().count() {
            let bound = self.rows.floors().entry(number);
            self.lower_from(bound, second)?;
        }
        self.budget.spend(self.rows.width() as u64);
        // Without room for a further change or pair there is no going on.
        if self.rows.is_full() || self.pairs.is_full() {
            self.budget.use_up();
        }
        Ok(())
    }

    /// Keeps that the pair closes a cycle. A decision has no other reason, so it is stored as a pair of the cycle.
    fn stop_at_far_cycle(
        &mut self,
        first: OperationId,
        second: OperationId,
        reason: PairReason,
    ) -> Result<(), Stop> {
        if reason == PairReason::Decided {
            self.store(first, second, reason)?;
            self.conflict = Conflict::CyclicPairs;
            return Err(Stop::Conflict);
        }
        self.stop_at_cycle(first, second, reason)
    }

    /// Returns whether the pair closes a cycle by the rows: some operation stands after the second one, or is it, and stands before the first one,
    /// or is it. While a walk looks only at what is in reach, the rows may know that of others than these two. In rows of a cycle an operation would
    /// stand before itself, and what follows of that would have no reason.
    fn closes_cycle(&self, first: OperationId, second: OperationId) -> bool {
        let earlier = self.log.operation(first);
        let later = self.log.operation(second);
        for process in ProcessId::first(self.rows.width()) {
            let last = self.rows.nearest(RowKind::Before, first, earlier, process);
            let next = self.rows.nearest(RowKind::After, second, later, process);
            if last != ProcessPlace::START && next <= last {
                return true;
            }
        }
        false
    }

    /// Raises the rows of the process's operations from this place on, up to the first that has the pair's first operation already: rows are
    /// closed and grow along a process, so all behind it have what the pair says. Of what is too far ahead of the front only the first is raised:
    /// the others are when they come into reach.
    fn raise_from(&mut self, bound: RowEntry, first: OperationId) -> Result<(), AllocError> {
        let earlier = self.log.operation(first);
        let end = self.end_of_reach(bound.process, bound.place);
        for place in bound.place.up_to(end) {
            let number = self.log.number(bound.process, place);
            if self.rows.before(number, earlier.process) >= earlier.place {
                break;
            }
            self.raise_row(number)?;
        }
        Ok(())
    }

    /// Lowers the rows of the process's operations from this place back, up to the first that has the pair's second operation already. It does
    /// not stop at the end of the reach, as `raise_from` does: what comes into reach is raised then, but nothing lowers it.
    fn lower_from(&mut self, bound: RowEntry, second: OperationId) -> Result<(), AllocError> {
        let later = self.log.operation(second);
        for place in bound.place.down_to_first() {
            let number = self.log.number(bound.process, place);
            if self.rows.after(number, later.process) <= later.place {
                break;
            }
            self.lower_row(number)?;
        }
        Ok(())
    }

    /// Raises what stands before this operation to what the pair says, and wakes the readers to which that is news. To a reader of one source
    /// it is only if an access of its location is among what is new.
    #[inline(always)]
    fn raise_row(&mut self, number: OperationId) -> Result<(), AllocError> {
        let operation = self.log.operation(number);
        // A reader of several sources is woken by anything new, and one that waits already by nothing, so for neither accesses are looked for.
        let is_quiet = operation.reads
            && self.sources.count(number) == 1
            && !self.agenda.waits(number);
        let mut has_news = !is_quiet;
        for entry in 0..self.rows.floors().count() {
            let floor = self.rows.floors().entry(entry);
            let old = self.rows.before(number, floor.process);
            if old < floor.place {
                has_news = has_news
                    || self.is_accessed(operation.location, floor.process, old.next(), floor.place);
                self.rows.change(RowKind::Before, number, floor)?;
            }
        }
        self.budget.spend(cost_of(self.rows.floors().count()));
        self.wake_raised(number, operation, has_news);
        Ok(())
    }

    /// Lowers what stands after this operation to what the pair says, and wakes the readers to which that is news: those of the operation, if an
    /// access of its location is among what is new, since it may hide the operation from them. An operation that writes nothing has none, so for it
    /// accesses are not looked for.
    #[inline(always)]
    fn lower_row(&mut self, number: OperationId) -> Result<(), AllocError> {
        let operation = self.log.operation(number);
        let mut has_news = !operation.writes;
        for entry in 0..self.rows.ceilings().count() {
            let ceiling = self.rows.ceilings().entry(entry);
            let old = self.rows.after(number, ceiling.process);
            if old > ceiling.place {
                has_news = has_news
                    || self.is_accessed(
                        operation.location,
                        ceiling.process,
                        ceiling.place,
                        old.previous(),
                    );
                self.rows.change(RowKind::After, number, ceiling)?;
            }
        }
        self.budget.spend(cost_of(self.rows.ceilings().count()));
        self.wake_lowered(number, operation, has_news);
        Ok(())
    }

    /// Returns whether the process has an access of the location that hides sources, from one place up to another, both included.
    #[inline(always)]
    fn is_accessed(
        &self,
        location: LocationId,
        process: ProcessId,
        from: ProcessPlace,
        to: ProcessPlace,
    ) -> bool {
        self.accesses.next_of_any(process, location, from) <= to
    }
}
