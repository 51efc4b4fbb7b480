//! The order that a log forces, with the possible sources of its readers.

use crate::agenda::Agenda;
use crate::conflict::{Conflict, Propagated, Stop};
use crate::reach::Reach;
use closed_rows::{ClosedRows, NO_PAIR, OrderedPair, OrderedPairs, PairReason};
use numbered_log::{Budget, LocationId, NOBODY, NumberedLog, OperationId, ProcessPlace};
use possible_sources::{
    HidingAccesses, HidingQuery, ReaderClasses, SourceIntervals, Time, ValueClasses,
};
use std::alloc::{AllocError, Global};
use total_tables::{at, put, size};

/// Lengths of the lists at the time of a decision, to which backtracking cuts them.
#[derive(Clone, Copy)]
struct DecisionLevel {
    changes: usize,
    losses: u32,
    pairs: u32,
}

/// A point of the trail without decisions, to which it can be cut. The rows then have to be made anew, since their changes are kept only
/// while decisions stand.
#[derive(Clone, Copy)]
pub struct TrailMark {
    losses: u32,
    pairs: u32,
}

/// The order that program order, the pairs of a trace, its reads and decisions force, and the sources that are possible by it.
pub struct Propagation<'a> {
    pub(crate) alloc: Global,
    pub(crate) log: &'a NumberedLog,
    pub(crate) classes: ValueClasses,
    pub(crate) readers: ReaderClasses,
    pub(crate) sources: SourceIntervals,
    pub(crate) accesses: HidingAccesses,
    pub(crate) rows: ClosedRows,
    pub(crate) pairs: OrderedPairs,
    pub(crate) agenda: Agenda,
    pub(crate) budget: Budget,
    pub(crate) conflict: Conflict,
    /// The time of what was derived last.
    pub(crate) now: Time,
    /// For each decision that stands the lengths before it.
    levels: Vec<DecisionLevel>,
    /// For each operation whether it was a possible source of a reader that has several, when the last round began.
    pub(crate) is_open_source: Vec<bool>,
    /// For each operation whether the final value of its location has to be looked at when its row changes.
    pub(crate) is_near_end: Vec<bool>,
    /// The accesses that hide sources from the reader at hand, one of each process.
    pub(crate) hiders: Vec<OperationId>,
    /// For each process the place up to which all stands before each source of the reader at hand, and so before the reader.
    pub(crate) lows: Vec<ProcessPlace>,
    /// For each process the place from which on all stands after each of these sources.
    pub(crate) highs: Vec<ProcessPlace>,
    pub(crate) reach: Reach,
}

/// Drops each table in one call. A derived `Drop` would drop each at every exit of a function that owns an order, which makes its proof longer.
impl Drop for Propagation<'_> {
    fn drop(self) {
        let Propagation {
            alloc: _,
            log: _,
            classes: _classes,
            readers: _readers,
            sources: _sources,
            accesses: _accesses,
            rows: _rows,
            pairs: _pairs,
            agenda: _agenda,
            budget: _,
            conflict: _,
            now: _,
            levels: _levels,
            is_open_source: _is_open_source,
            is_near_end: _is_near_end,
            hiders: _hiders,
            lows: _lows,
            highs: _highs,
            reach: _reach,
        } = self;
    }
}

/// The operations that can hide a source: writers, and plain reads with several possible sources.
fn hiding(
    alloc: Global,
    log: &NumberedLog,
    sources: &SourceIntervals,
) -> Result<Vec<bool>, AllocError> {
    let mut hides = vec![in alloc; false; log.count() as usize]?;
    for number in log.operation_ids() {
        let is_hiding = log.operation(number).writes || sources.has_several(number);
        put(hides.as_mut_slice(), number.number(), is_hiding);
    }
    Ok(hides)
}

impl<'a> Propagation<'a> {
    /// The order of the log before anything was derived: the pairs of the trace and those of readers that have one source by program order
    /// are stored, and the rows do not have them yet.
    pub fn new(
        alloc: Global,
        log: &'a NumberedLog,
        budget: Budget,
    ) -> Result<Propagation<'a>, AllocError> {
        let classes = ValueClasses::new(alloc, log)?;
        let readers = ReaderClasses::new(alloc, log, &classes)?;
        let sources = SourceIntervals::new(alloc, log, &classes)?;
        let hides = hiding(alloc, log, &sources)?;
        let accesses = HidingAccesses::new(alloc, log, hides.as_slice())?;
        let width = log.processes() as usize;
        let count = log.count() as usize;
        let mut order = Propagation {
            alloc,
            log,
            agenda: Agenda::new(alloc, sources.readers())?,
            classes,
            readers,
            sources,
            accesses,
            rows: ClosedRows::new(alloc, log)?,
            pairs: OrderedPairs::new(alloc, log.count())?,
            budget,
            conflict: Conflict::None,
            now: Time::START,
            levels: Vec::new(alloc),
            is_open_source: vec![in alloc; false; count]?,
            is_near_end: vec![in alloc; false; count]?,
            hiders: Vec::with_capacity(alloc, width)?,
            lows: vec![in alloc; ProcessPlace::START; width]?,
            highs: vec![in alloc; ProcessPlace::START; width]?,
            reach: Reach::new(alloc, log.processes())?,
        };
        order.store_first_pairs()?;
        order.note_ends();
        Ok(order)
    }

    /// Stores the pairs of the trace and those that follow from program order alone.
    fn store_first_pairs(&mut self) -> Result<(), AllocError> {
        let log = self.log;
        for pair in log.pairs() {
            let reason = if pair.is_timed {
                PairReason::Timed
            } else {
                PairReason::Given
            };
            self.store(pair.first, pair.second, reason)?;
        }
        for reader in log.operation_ids() {
            if self.sources.count(reader) == 1 {
                let source = self.sources.source(&self.classes, reader);
                if source != NOBODY && !self.stands_before(source, reader) {
                    self.store(source, reader, PairReason::BeforeReader(reader))?;
                }
            }
            if self.sources.count(reader) == 0 {
                self.conflict = Conflict::NoSource(reader);
            }
        }
        Ok(())
    }

    /// Notes which operations are near the end of a process, for the final values: of each known one its possible last writers, and in each process
    /// the last access of its location that is no read of it. It is looked at again when more stands after one of these.
    fn note_ends(&mut self) {
        let log = self.log;
        for location in log.location_ids() {
            let reader = self.final_reader(location);
            let Some(value) = log.last(location) else {
                continue;
            };
            if self.sources.count(reader) == 0 {
                self.conflict = Conflict::NoSource(reader);
            }
            for process in log.process_ids() {
                let last = log.last_place(process);
                let query = HidingQuery::new(process, location, value);
                let place = self.accesses.previous(query, last);
                if place != ProcessPlace::START {
                    let number = log.number(process, place);
                    put(self.is_near_end.as_mut_slice(), number.number(), true);
                }
            }
            for run in 0..self.sources.intervals(reader) {
                let low = self.sources.low(reader, run);
                if low < self.sources.high(reader, run) {
                    let writer = self.classes.writer(low);
                    put(self.is_near_end.as_mut_slice(), writer.number(), true);
                }
            }
        }
    }

    /// Stores a pair without a look at rows.
    pub(crate) fn store(
        &mut self,
        first: OperationId,
        second: OperationId,
        reason: PairReason,
    ) -> Result<(), AllocError> {
        self.now = self.now.next();
        let level = self.decisions();
        self.pairs.add(first, second, reason, (self.now, level))
    }

    #[inline(always)]
    pub fn log(&self) -> &'a NumberedLog {
        self.log
    }

    #[inline(always)]
    pub fn sources(&self) -> &SourceIntervals {
        &self.sources
    }

    /// The writers by class.
    #[inline(always)]
    pub fn classes(&self) -> &ValueClasses {
        &self.classes
    }

    /// The readers by class.
    #[inline(always)]
    pub fn readers(&self) -> &ReaderClasses {
        &self.readers
    }

    /// For each operation the last place of each process before it, and the first behind it. They do not have pairs that were only stored or guessed before
    /// `propagate_in_rounds` has run.
    #[inline(always)]
    pub fn rows(&self) -> &ClosedRows {
        &self.rows
    }

    pub fn pairs(&self) -> &OrderedPairs {
        &self.pairs
    }

    /// The conflict in which propagation ended.
    pub fn conflict(&self) -> Conflict {
        self.conflict
    }

    /// Returns whether there is one.
    pub fn has_conflict(&self) -> bool {
        !matches!(self.conflict, Conflict::None)
    }

    /// The time after all that was derived.
    pub fn later(&self) -> Time {
        self.now.next()
    }

    /// The rest of the budget.
    pub fn budget(&self) -> Budget {
        self.budget
    }

    /// Sets the rest of the budget. A caller that lends a part of it for a while keeps the rest, and sets the sum of what is left of both afterwards.
    pub fn set_budget(&mut self, budget: Budget) {
        self.budget = budget;
    }

    /// Takes these steps out of the budget.
    #[inline(always)]
    pub fn spend(&mut self, steps: u64) {
        self.budget.spend(steps);
    }

    /// Returns whether the first operation stands before the second.
    #[inline(always)]
    pub fn stands_before(&self, first: OperationId, second: OperationId) -> bool {
        self.rows.stands_before(self.log, first, second)
    }

    /// The number of the final value of the location among the readers.
    #[inline(always)]
    pub fn final_reader(&self, location: LocationId) -> OperationId {
        self.log.final_reader(location)
    }

    /// The source of the reader if it has only one.
    pub fn only_source(&self, reader: OperationId) -> Option<OperationId> {
        if self.sources.count(reader) == 1 {
            Some(self.sources.source(&self.classes, reader))
        } else {
            None
        }
    }

    /// Returns whether the writer is a possible source of the reader.
    #[inline(always)]
    pub fn may_read(&self, reader: OperationId, writer: OperationId) -> bool {
        self.sources.may_read(&self.classes, reader, writer)
    }

    /// The number of reading operations that have more than one possible source.
    pub fn undecided(&self) -> u32 {
        let mut count: u32 = 0;
        for reader in self.log.operation_ids() {
            if self.sources.has_several(reader) {
                count = count.wrapping_add(1);
            }
        }
        count
    }

    /// The number of decisions that stand.
    #[inline(always)]
    pub fn decisions(&self) -> u32 {
        size(self.levels.as_slice())
    }

    /// Decides that the first operation stands before the second.
    pub fn decide(&mut self, first: OperationId, second: OperationId) -> Result<(), Stop> {
        let level = DecisionLevel {
            changes: self.rows.keep_changes(),
            losses: self.sources.losses(),
            pairs: self.pairs.count(),
        };
        self.push_level(level)?;
        self.add(first, second, PairReason::Decided)
    }

    fn push_level(&mut self, level: DecisionLevel) -> Result<(), AllocError> {
        self.levels.push(level)?;
        Ok(())
    }

    /// Backtracks to the first decisions, of which this number stays, and undoes all that followed from the others.
    pub fn take_back(&mut self, decisions: u32) {
        for _ in decisions..self.decisions() {
            let Some(level) = self.levels.pop() else {
                break;
            };
            let keeps = !self.levels.is_empty();
            self.rows.take_back(level.changes, keeps);
            self.sources.give_back(level.losses);
            self.pairs.take_back(level.pairs);
        }
        self.conflict = Conflict::None;
        self.agenda.clear();
    }

    /// The point of the trail that is reached, without the decisions.
    pub fn mark(&self) -> TrailMark {
        TrailMark {
            losses: self.sources.losses(),
            pairs: self.pairs.count(),
        }
    }

    /// Cuts the trail to this point. The rows are of no use until they are made anew by `propagate_in_rounds`.
    pub fn cut_to(&mut self, mark: TrailMark) {
        self.take_back(0);
        self.sources.give_back(mark.losses);
        self.pairs.take_back(mark.pairs);
    }

    /// Keeps that the pair cannot be added, as its second operation stands before its first.
    pub(crate) fn stop_at_cycle(
        &mut self,
        first: OperationId,
        second: OperationId,
        reason: PairReason,
    ) -> Result<(), Stop> {
        self.now = self.now.next();
        self.conflict = Conflict::Cycle(OrderedPair {
            first,
            second,
            reason,
            time: self.now,
            level: self.decisions(),
            ..NO_PAIR
        });
        Err(Stop::Conflict)
    }

    /// Stores a guess: that the first operation stands before the second. The rows have it after `propagate_in_rounds`. If there is no room
    /// for more pairs, the budget counts as spent.
    pub fn guess(&mut self, first: OperationId, second: OperationId) -> Result<(), AllocError> {
        if self.pairs.is_full() {
            self.budget.use_up();
            return Ok(());
        }
        self.store(first, second, PairReason::Guessed)
    }

    /// Has no reader wait: after a conflict their turn would be spent on rows that are taken back. Walks call it before they learn from a conflict, and learned
    /// clauses when one of them is false: such a conflict need not be one of `propagate`, which has none wait either when it meets one.
    pub fn forget_waiting(&mut self) {
        self.agenda.clear();
    }

    /// Looks at readers until nothing more follows.
    pub fn propagate(&mut self) -> Result<Propagated, AllocError> {
        if self.has_conflict() {
            return Ok(Propagated::Conflict);
        }
        let stopped = self.look_at_waiting();
        match stopped {
            Ok(()) if self.budget.is_spent() => {
                self.agenda.clear();
                Ok(Propagated::Spent)
            }
            Ok(()) => Ok(Propagated::Done),
            Err(Stop::Conflict) => {
                self.agenda.clear();
                Ok(Propagated::Conflict)
            }
            Err(Stop::OutOfMemory) => Err(AllocError),
        }
    }

    /// Looks at readers until none waits. A reader that is taken when the budget is spent is not looked at: the caller then forgets all.
    fn look_at_waiting(&mut self) -> Result<(), Stop> {
        // Each look spends steps, so there are no more looks than steps.
        for _ in 0..self.budget.left() {
            let Some(reader) = self.agenda.take() else {
                break;
            };
            if self.budget.is_spent() {
                break;
            }
            self.look_at(reader)?;
        }
        Ok(())
    }
}
